//! The predecessors of a processed position learn of it.
ghost use Rattle.std.specs.Prelude.{◌≡◌, ◌+◌, ◌*◌, ◌<◌, ◌≤◌, ℕ, OnOk, IfErr, Err, length};
ghost use Rattle.retrograde.specs.declared.records.Record.{Record};
ghost use Rattle.retrograde.specs.Stored.{HasRecord};
ghost use Rattle.retrograde.specs.Changes.{with_record, with_settled};
ghost use Rattle.retrograde.specs.lemmas.ProcessSteps.{lower_at, lowered_below};
ghost use Rattle.table.specs.Frames.{IsWritten};
ghost use Rattle.table.specs.declared.limits.TheConstants.{PAGES_PER_ENTRY};
ghost use Rattle.frontier.specs.Entries.{edges_below};
ghost use Rattle.frontier.specs.Frames.{IsGivenUp};
ghost use Rattle.frontier.specs.declared.fault.StepFault.TheVariants.{Inconsistent};
ghost use Rattle.settle.specs.lemmas.Stuck.{IsStuck, IsStuckAt};

use crate::turn::{is_due, lowered};
use frontier::StepFault;
use legal_moves::MoveSource;
use rbg_game::roles::Player;
use retrograde::Record;
use table::Table;

/// Puts a number last into the settled order, and writes its record.
fn settle<T: Table>(table: &mut T, number: u32, kept: Record) -> Result<(), StepFault>
    requires { number < (T.counted table.old).known }
    ensures settled { T.is_honest table.old → OnOk result
        (T.stored table.new ≡ with_record (with_settled (T.stored table.old) number) number kept) }
    ensures full { T.is_honest table.old → result ≡ Err Inconsistent
        → length (T.stored table.old).positions ≤ length (T.stored table.old).order }
    ensures ok { OnOk result (IsWritten T.is_honest T.counted T.goes_on table.old table.new) }
    ensures err { IfErr result (IsGivenUp T.goes_on T.fails table.old table.new) }
    ensures takes { T.free table.old ≤ T.free table.new + PAGES_PER_ENTRY * 2 }
{
    let counts = table.counts();
    if counts.settled >= counts.known {
        return Err(StepFault::Inconsistent);
    }
    table.push_settled(number)?;
    table.set_record(number, kept)?;
    Ok(())
}

/// Counts down what is left of a predecessor, and settles it if it is due.
fn lower<M: MoveSource, T: Table>(
    source: &M,
    table: &mut T,
    winner: Player,
    distance: u32,
    predecessor: u32,
) -> Result<(), StepFault>
    requires source { M.is_sound source.now }
    requires known { predecessor < (T.counted table.old).known }
    ensures lowered { T.is_honest table.old → OnOk result
        (T.stored table.new ≡ lower_at (M.graph source.now) winner distance predecessor (T.stored table.old)) }
    ensures stuck { T.is_honest table.old → result ≡ Err Inconsistent
        → (r : Record) × HasRecord (T.stored table.old) predecessor r × IsStuck (T.stored table.old) distance r }
    ensures ok { OnOk result (IsWritten T.is_honest T.counted T.goes_on table.old table.new) }
    ensures err { IfErr result (IsGivenUp T.goes_on T.fails table.old table.new) }
    ensures takes { T.free table.old ≤ T.free table.new + PAGES_PER_ENTRY * 2 }
{
    let packed = table.packed(predecessor)?;
    let mover = source.mover(&packed);
    let kept = table.record(predecessor)?;
    if kept.left == 0 {
        return Err(StepFault::Inconsistent);
    }
    let due = is_due(mover, winner, kept);
    if due && distance == u32::MAX {
        return Err(StepFault::Inconsistent);
    }
    let record = lowered(mover, winner, distance, kept);
    if due {
        return settle(table, predecessor, record);
    }
    table.set_record(predecessor, record)?;
    Ok(())
}

/// Sees to each predecessor of a position, by ascending number: the winner wins the position in this
/// distance.
pub fn lower_all<M: MoveSource, T: Table>(
    source: &M,
    table: &mut T,
    number: u32,
    winner: Player,
    distance: u32,
) -> Result<(), StepFault>
    requires source { M.is_sound source.now }
    ensures lowered { T.is_honest table.old → OnOk result (T.stored table.new
        ≡ lowered_below (M.graph source.now) number winner distance (length (T.stored table.old).positions) (T.stored table.old)) }
    ensures stuck { T.is_honest table.old → result ≡ Err Inconsistent
        → (p : ℕ) × IsStuckAt (M.graph source.now) number winner distance (T.stored table.old) p }
    ensures ok { OnOk result (IsWritten T.is_honest T.counted T.goes_on table.old table.new) }
    ensures err { IfErr result (IsGivenUp T.goes_on T.fails table.old table.new) }
    ensures takes { T.is_honest table.old → T.free table.old ≤ T.free table.new
        + PAGES_PER_ENTRY * (2 * edges_below (T.stored table.old) number (length (T.stored table.old).positions)) }
{
    let mut after: Option<u32> = None;
    while let Some(predecessor) = table.next_edge(number, after)? {
        lower(source, table, winner, distance, predecessor)?;
        after = Some(predecessor);
    }
    Ok(())
}
