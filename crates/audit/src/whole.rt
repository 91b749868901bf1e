//! The verdict of a table.
ghost use Rattle.std.specs.Prelude.{◌≡◌, IfOk, IfErr, Ok, length};
ghost use Rattle.retrograde.specs.Stored.{IsTable, view_of, expanded_count};
ghost use Rattle.retrograde.specs.Sound.{IsLocallySound};
ghost use Rattle.audit.specs.Answers.{IsAnswer, IsTableSo};
ghost use Rattle.audit.specs.Causes.{HasAuditCause, HasWide};
ghost use Rattle.audit.specs.lemmas.Conditions.{AreFloors};
ghost use Rattle.audit.specs.lemmas.Edges.{AreArrivals};
ghost use Rattle.table.specs.Frames.{IsRead};
ghost use Rattle.audit.specs.declared.verdict.Verdict.TheVariants.{Right};

use crate::arrivals::arrivals;
use crate::fault::AuditFault;
use crate::number::failing;
use crate::order::floors;
use crate::sums::adds_up;
use crate::verdict::Verdict;
use legal_moves::MoveSource;
use std::alloc::Global;
use table::Table;

/// The lowest number at which a condition fails, if there is one.
fn first_wrong<M: MoveSource, T: Table>(
    alloc: Global,
    source: &M,
    table: &mut T,
    floors: &[u32],
    arrivals: &[u32],
) -> Result<Verdict, AuditFault>
    requires source { M.is_sound source.now }
    requires floors { length floors.now ≡ (T.counted table.old).known }
    requires arrivals { length arrivals.now ≡ (T.counted table.old).known }
    ensures answer { T.is_honest table.old → IsTable (T.stored table.old)
        → AreFloors (T.stored table.old) (length (T.stored table.old).order) floors.now
        → AreArrivals (M.graph source.now) (T.stored table.old) (expanded_count (T.stored table.old)) arrivals.now
        → IfOk result (IsAnswer (M.graph source.now) (M.is_wide source.now) (T.stored table.old)) }
    ensures read { IsRead T.stored T.is_honest T.counted T.stays table.old table.new }
    ensures err { IfErr result (HasAuditCause
        (T.is_honest table.old → HasWide (M.is_wide source.now) (T.stored table.old)) (T.fails table.old table.new)) }
{
    for number in 0..table.counts().known {
        let floor = floors[number as usize];
        let arriving = arrivals[number as usize];
        if let Some(reason) = failing(alloc, source, table, number, floor, arriving)? {
            return Ok(Verdict::Wrong(number, reason));
        }
    }
    Ok(Verdict::Right)
}

/// The verdict of what is stored: right where the seven conditions hold of every number, and otherwise the
/// lowest number that fails, with its lowest reason.
///
/// `TooWide` comes only where some expanded position is too wide; then the table is never right. The other
/// faults are the table's, or want of memory. The table stays as it was.
pub fn audit<M: MoveSource, T: Table>(
    alloc: Global,
    source: &M,
    table: &mut T,
) -> Result<Verdict, AuditFault>
    requires source { M.is_sound source.now }
    ensures answer { T.is_honest table.old → IsTable (T.stored table.old)
        → IfOk result (IsAnswer (M.graph source.now) (M.is_wide source.now) (T.stored table.old)) }
    ensures sound { T.is_honest table.old → IsTable (T.stored table.old) → result ≡ Ok Right
        → IsLocallySound (M.graph source.now) (M.is_wide source.now) (T.stored table.old) }
    ensures so { T.is_honest table.old → IsTable (T.stored table.old) → result ≡ Ok Right
        → IsTableSo (M.graph source.now) (view_of (T.stored table.old)) }
    ensures read { IsRead T.stored T.is_honest T.counted T.stays table.old table.new }
    ensures err { IfErr result (HasAuditCause
        (T.is_honest table.old → HasWide (M.is_wide source.now) (T.stored table.old)) (T.fails table.old table.new)) }
{
    let floors = floors(alloc, table)?;
    if adds_up(alloc, source, table, &floors)? {
        return Ok(Verdict::Right);
    }
    let arrivals = arrivals(alloc, source, table)?;
    first_wrong(alloc, source, table, &floors, &arrivals)
}
