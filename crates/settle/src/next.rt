//! The settled position that waits first.
ghost use Rattle.std.specs.Prelude.{◌≡◌, ◌+◌, ◌<◌, ◌≤◌, IfOk, OnOk, IfErr, Err};
ghost use Rattle.retrograde.specs.Stored.{IsTable};
ghost use Rattle.table.specs.Frames.{IsWritten};
ghost use Rattle.table.specs.declared.limits.TheConstants.{PAGES_PER_ENTRY};
ghost use Rattle.frontier.specs.Frames.{IsGivenUp};
ghost use Rattle.frontier.specs.declared.fault.StepFault.TheVariants.{Inconsistent};
ghost use Rattle.settle.specs.Settled.{IsMarkedProcessed};

use frontier::StepFault;
use rbg_game::roles::Player;
use retrograde::{Record, State};
use table::Table;

/// A settled position: its number, the record that it had, and who wins it.
#[derive(Clone, Copy, Debug, Drop)]
pub struct Settled {
    pub number: u32,
    pub kept: Record,
    pub winner: Player,
}

/// Writes of the first number of the settled order that is not processed that it is, and of no other.
pub fn process_next<T: Table>(table: &mut T) -> Result<Settled, StepFault>
    requires { (T.counted table.old).processed < (T.counted table.old).settled }
    ensures marked { T.is_honest table.old → IfOk result (λ next.
        IsMarkedProcessed (T.stored table.old) (T.stored table.new) next.number next.kept next.winner) }
    ensures consistent { T.is_honest table.old → IsTable (T.stored table.old) → result ≡ Err Inconsistent → ⊥ }
    ensures ok { OnOk result (IsWritten T.is_honest T.counted T.goes_on table.old table.new) }
    ensures err { IfErr result (IsGivenUp T.goes_on T.fails table.old table.new) }
    ensures takes { T.free table.old ≤ T.free table.new + PAGES_PER_ENTRY }
{
    let counts = table.counts();
    let number = table.settled_at(counts.processed)?;
    if number >= counts.known {
        return Err(StepFault::Inconsistent);
    }
    let kept = table.record(number)?;
    let Some(winner) = kept.winner else {
        return Err(StepFault::Inconsistent);
    };
    let processed = Record {
        state: State::Processed,
        ..kept
    };
    table.set_record(number, processed)?;
    Ok(Settled {
        number,
        kept,
        winner,
    })
}
