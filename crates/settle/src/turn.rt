//! Who has the turn, what waits, and what becomes of the record of a predecessor.
ghost use Rattle.std.specs.Prelude.{◌≡◌, ◌<◌, ◌^◌, ◌-◌, true};
ghost use Rattle.retrograde.specs.Process.{has_turn, is_open, is_due as due_for, lowered as lowered_record};

use rbg_game::roles::{Player, Role};
use retrograde::{Record, State};

/// The player has the turn.
fn has_the_turn(player: Player, mover: Role) -> bool
    ensures { result ≡ has_turn player mover }
{
    match (player, mover) {
        (Player::First, Role::Player(Player::First)) => true,
        (Player::Second, Role::Player(Player::Second)) => true,
        _ => false,
    }
}

/// A position in this state is expanded and not settled.
fn waits(state: State) -> bool
    ensures { result ≡ is_open state }
{
    match state {
        State::Expanded => true,
        State::Known | State::Settled | State::Processed => false,
    }
}

/// Whether a position with this record is settled for the winner now that one more of its successors is processed.
pub fn is_due(mover: Role, winner: Player, kept: Record) -> bool
    ensures { result ≡ due_for mover winner kept }
{
    waits(kept.state) && (has_the_turn(winner, mover) || kept.left == 1)
}

/// The record of that position then: the winner wins the successor in this distance.
pub fn lowered(mover: Role, winner: Player, distance: u32, kept: Record) -> Record
    requires left { 0 < kept.left }
    requires near { due_for mover winner kept ≡ true → distance < 2 ^ 32 - 1 }
    ensures { result ≡ lowered_record mover winner distance kept }
{
    let left = kept.left - 1;
    if !is_due(mover, winner, kept) {
        return Record { left, ..kept };
    }
    Record {
        state: State::Settled,
        winner: Some(winner),
        distance: distance + 1,
        left,
        successors: kept.successors,
    }
}
