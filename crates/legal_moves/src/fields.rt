//! What the bytes of a position say without unpacking it.
ghost use Rattle.std.specs.Prelude.{◌≡◌, ◌≤◌, slice_index};
ghost use Rattle.rbg_game.specs.Goals.{points_of};
ghost use Rattle.legal_moves.specs.Sources.{alone_at, leader, more_of, role_by, value_in};

use rbg_game::goal::Goal;
use rbg_game::roles::{Player, Role};

/// The byte at the index, 0 past the end.
pub fn byte_at(bytes: &[u8], index: usize) -> u8
    ensures { result ≡ slice_index bytes.now index }
{
    bytes.get(index).copied().unwrap_or(0)
}

/// The number in three bytes, the highest first.
pub fn value_at(bytes: &[u8], index: usize) -> u32
    requires { index ≤ 1000 }
    ensures { result ≡ value_in bytes.now index }
{
    let high = u32::from(byte_at(bytes, index));
    let middle = u32::from(byte_at(bytes, index + 1));
    let low = u32::from(byte_at(bytes, index + 2));
    high * 65_536 + middle * 256 + low
}

/// The role with this number.
pub fn role_with(number: u32) -> Role
    ensures { result ≡ role_by number }
{
    match number {
        1 => Role::Player(Player::First),
        2 => Role::Player(Player::Second),
        _ => Role::Keeper,
    }
}

/// The player who is ahead by the two scores, without a goal or with this one.
pub fn leader_of(goal: Option<Goal>, first: u32, second: u32) -> Option<Player>
    ensures { result ≡ leader (points_of goal) first second }
{
    match goal {
        Some(goal) => alone_at(goal.points(), first, second),
        None => more_of(first, second),
    }
}

/// The player who has at least this many points while the other has fewer.
fn alone_at(points: u32, first: u32, second: u32) -> Option<Player>
    ensures { result ≡ alone_at points first second }
{
    match (first >= points, second >= points) {
        (true, false) => Some(Player::First),
        (false, true) => Some(Player::Second),
        _ => None,
    }
}

/// The player who has more points.
fn more_of(first: u32, second: u32) -> Option<Player>
    ensures { result ≡ more_of first second }
{
    if second < first {
        Some(Player::First)
    } else if first < second {
        Some(Player::Second)
    } else {
        None
    }
}
