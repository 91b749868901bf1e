//! One settled position is processed.
ghost use Rattle.std.specs.Prelude.{◌≡◌, ◌^◌, ◌<◌, ◌≤◌, IfOk, OnOk, IfErr};
ghost use Rattle.table.specs.Frames.{IsWritten};
ghost use Rattle.frontier.specs.Causes.{IsRefusal};
ghost use Rattle.frontier.specs.Units.{HasWorked, HasStopped};
ghost use Rattle.settle.specs.Settled.{HasSettled};

use crate::lower::lower_all;
use crate::next::process_next;
use frontier::StepFault;
use legal_moves::MoveSource;
use table::Table;

/// Processes the first number of the settled order that is not processed, of which all its predecessors
/// learn, and answers how many positions were settled by it.
///
/// It is asked only where all known positions are expanded and some settled one is not processed, of a
/// table within the limit of 16,777,216 positions. After an error the caller gives the table up: want
/// of memory may come at any point, and `Inconsistent` only where the table did not agree with
/// itself. No other fault comes.
///
/// For each entry that it may write a unit takes `PAGES_PER_ENTRY` pages at most, and `TableFull` comes only where no
/// more than these were free.
pub fn settle_one<M: MoveSource, T: Table>(source: &M, table: &mut T) -> Result<u32, StepFault>
    requires source { M.is_sound source.now }
    requires expanded { (T.counted table.old).expanded ≡ (T.counted table.old).known }
    requires waiting { (T.counted table.old).processed < (T.counted table.old).settled }
    requires limit { (T.counted table.old).known ≤ 2 ^ 24 }
    ensures settled { T.is_honest table.old → IfOk result
        (HasSettled (M.graph source.now) (M.is_wide source.now) (T.stored table.old) (T.stored table.new)) }
    ensures worked { T.is_honest table.old → OnOk result (HasWorked (M.graph source.now) (M.is_wide source.now)
        (T.stored table.old) (T.stored table.new) (T.free table.old) (T.free table.new)) }
    ensures ok { OnOk result (IsWritten T.is_honest T.counted T.goes_on table.old table.new) }
    ensures err { IfErr result (HasStopped (M.graph source.now) (M.is_wide source.now) T.stored T.is_honest T.free
        T.goes_on T.fails table.old table.new) }
    ensures goes_on { IfErr result (λ fault. ¬ IsRefusal fault) }
{
    let before = table.counts();
    let next = process_next(table)?;
    lower_all(source, table, next.number, next.winner, next.kept.distance)?;
    let settled = table.counts().settled;
    if settled < before.settled {
        return Err(StepFault::Inconsistent);
    }
    Ok(settled - before.settled)
}
