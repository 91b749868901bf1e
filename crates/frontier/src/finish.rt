//! The record of an expanded position.
ghost use Rattle.std.specs.Prelude.{◌≡◌, ◌+◌, ◌*◌, ◌<◌, ◌≤◌, OnOk, IfErr, Err, Some, length};
ghost use Rattle.retrograde.specs.lemmas.Expansion.{with_ended, with_expanded};
ghost use Rattle.table.specs.Frames.{IsWritten};
ghost use Rattle.table.specs.declared.limits.TheConstants.{PAGES_PER_ENTRY};
ghost use Rattle.frontier.specs.Frames.{IsGivenUp};
ghost use Rattle.frontier.specs.declared.fault.StepFault.TheVariants.{Inconsistent};

use crate::fault::StepFault;
use rbg_game::roles::Player;
use retrograde::{Record, State};
use table::Table;

/// Writes that a position without successors is won by the player who is ahead.
fn end<T: Table>(table: &mut T, number: u32, winner: Player) -> Result<(), StepFault>
    requires { number < (T.counted table.old).known }
    ensures ended { T.is_honest table.old → OnOk result (T.stored table.new ≡ with_ended number (Some winner) (T.stored table.old)) }
    ensures full { T.is_honest table.old → result ≡ Err Inconsistent
        → length (T.stored table.old).positions ≤ length (T.stored table.old).order }
    ensures ok { OnOk result (IsWritten T.is_honest T.counted T.goes_on table.old table.new) }
    ensures err { IfErr result (IsGivenUp T.goes_on T.fails table.old table.new) }
    ensures takes { T.free table.old ≤ T.free table.new + PAGES_PER_ENTRY * 2 }
{
    let kept = Record {
        state: State::Settled,
        winner: Some(winner),
        distance: 0,
        left: 0,
        successors: 0,
    };
    table.set_record(number, kept)?;
    let counts = table.counts();
    if counts.settled >= counts.known {
        return Err(StepFault::Inconsistent);
    }
    table.push_settled(number)?;
    Ok(())
}

/// Writes what an expanded position has come to: how many successors it has, or who has won it.
pub fn finish<T: Table>(
    table: &mut T,
    number: u32,
    successors: u32,
    ahead: Option<Player>,
) -> Result<(), StepFault>
    requires { number < (T.counted table.old).known }
    ensures expanded { T.is_honest table.old → OnOk result
        (T.stored table.new ≡ with_expanded number successors ahead (T.stored table.old)) }
    ensures full { T.is_honest table.old → result ≡ Err Inconsistent
        → length (T.stored table.old).positions ≤ length (T.stored table.old).order }
    ensures ok { OnOk result (IsWritten T.is_honest T.counted T.goes_on table.old table.new) }
    ensures err { IfErr result (IsGivenUp T.goes_on T.fails table.old table.new) }
    ensures takes { T.free table.old ≤ T.free table.new + PAGES_PER_ENTRY * 2 }
{
    match (successors, ahead) {
        (0, Some(winner)) => end(table, number, winner),
        _ => {
            let kept = Record {
                state: State::Expanded,
                winner: None,
                distance: 0,
                left: successors,
                successors,
            };
            table.set_record(number, kept)?;
            Ok(())
        }
    }
}
