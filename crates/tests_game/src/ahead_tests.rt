//! Goals, and who is ahead in a table with one, worked out by hand.
ghost use Rattle.std.specs.Prelude.{IfOk};
ghost use Rattle.legal_moves.specs.Compiled.{IsSoundCompiled};

use legal_moves::{Compiled, Goal, MoveSource};
use position_pack::{Packed, PackingKind};
use rbg_game::roles::Player;
use rbg_read::read::read_game;
use std::alloc::Global;
use std::test::Fail;
use test_aids::expect;

/// Each player may have up to 3 points.
const POINTS: &str = "#players = white(3), black(3) #pieces = e #board = v[e]{} #rules = ->white";

const WHITE: Option<Player> = Some(Player::First);

const BLACK: Option<Player> = Some(Player::Second);

/// The points of white and of black where white has the turn; the position by bits, two for each score, two for the role and one for the
/// place; and who is ahead, with 2 points for a goal and without a goal.
const ROWS: [(u8, u8, u8, Option<Player>, Option<Player>); 10] = [
    // both have less than the goal
    (0, 0, 0x06, None, None),
    (1, 0, 0x46, None, WHITE),
    (0, 1, 0x16, None, BLACK),
    // one has the goal or more, and the other less
    (2, 1, 0x96, WHITE, WHITE),
    (3, 0, 0xC6, WHITE, WHITE),
    (1, 2, 0x66, BLACK, BLACK),
    (0, 3, 0x36, BLACK, BLACK),
    // both have the goal or more
    (2, 2, 0xA6, None, None),
    (3, 2, 0xE6, None, WHITE),
    (2, 3, 0xB6, None, BLACK),
];

/// The game of `POINTS`, in a table with this goal.
fn game_with(alloc: Global, kind: PackingKind, goal: Option<Goal>) -> Result<Compiled, Fail>
    ensures { IfOk result IsSoundCompiled }
{
    let game = read_game(alloc, POINTS.as_bytes())?;
    Ok(Compiled::new(alloc, game, kind, goal)?)
}

/// Expects of the position with these bytes that this player is ahead.
fn expect_ahead<S: MoveSource>(source: &S, bytes: &[u8], ahead: Option<Player>) -> Result<(), Fail>
    requires { S.is_sound source.now }
{
    let mut at = Packed::new();
    at.try_extend_from_slice(bytes)?;
    expect(source.ahead(&at), ahead, bytes)
}

/// Expects of each row who is ahead by bytes.
fn expect_by_bytes<S: MoveSource>(with_goal: &S, without: &S) -> Result<(), Fail>
    requires with_goal { S.is_sound with_goal.now }
    requires without { S.is_sound without.now }
{
    for (white, black, _by_bits, by_goal, by_more) in ROWS {
        let bytes = [0, 0, 0, white, 0, 0, black, 0, 1, 0, 1];
        expect_ahead(with_goal, &bytes, by_goal)?;
        expect_ahead(without, &bytes, by_more)?;
    }
    Ok(())
}

/// Expects of each row who is ahead by bits.
fn expect_by_bits<S: MoveSource>(with_goal: &S, without: &S) -> Result<(), Fail>
    requires with_goal { S.is_sound with_goal.now }
    requires without { S.is_sound without.now }
{
    for (_white, _black, by_bits, by_goal, by_more) in ROWS {
        expect_ahead(with_goal, &[by_bits], by_goal)?;
        expect_ahead(without, &[by_bits], by_more)?;
    }
    Ok(())
}

#[test]
fn who_alone_has_the_goal_is_ahead(rt: HostRuntime) -> Result<(), Fail> {
    let goal = Some(Goal::new(2).ok_or("no goal of 2")?);
    let with_goal = game_with(rt.alloc(), PackingKind::Bytes, goal)?;
    let without = game_with(rt.alloc(), PackingKind::Bytes, None)?;
    expect_by_bytes(&with_goal, &without)
}

#[test]
fn who_is_ahead_is_told_by_bits_too(rt: HostRuntime) -> Result<(), Fail> {
    let goal = Some(Goal::new(2).ok_or("no goal of 2")?);
    let with_goal = game_with(rt.alloc(), PackingKind::Bits, goal)?;
    let without = game_with(rt.alloc(), PackingKind::Bits, None)?;
    expect_by_bits(&with_goal, &without)
}

#[test]
fn a_goal_is_1_to_1_000_000_points(_rt: HostRuntime) -> Result<(), Fail> {
    let rows = [
        (0, None),
        (1, Some(1)),
        (2, Some(2)),
        (1_000_000, Some(1_000_000)),
        (1_000_001, None),
        (u32::MAX, None),
    ];
    for (points, want) in rows {
        let goal = Goal::new(points);
        expect(goal.map(|goal| goal.points()), want, points)?;
    }
    Ok(())
}
