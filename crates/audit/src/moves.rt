//! The moves of an expanded position: they are known, have their edges, and are counted right.
ghost use Rattle.std.specs.Prelude.{◌≡◌, ◌↔◌, ◌<◌, ◌≤◌, ℕ, List, true, All, IfOk, IsOk, IfErr, IfSome, IfNone, Contains, Some};
ghost use Rattle.std.specs.Prelude.{count_by, not, length, slice_get};
ghost use Rattle.std.specs.List.{AllZip};
ghost use Rattle.rbg_game.specs.declared.roles.Role.{Role};
ghost use Rattle.retrograde.specs.Stored.{HasRecord, IsTable, is_processed};
ghost use Rattle.retrograde.specs.Audit.{HasItsMoves};
ghost use Rattle.table.specs.Memory.{bytes_of_each};
ghost use Rattle.table.specs.Faults.{NeedsNoPage};
ghost use Rattle.audit.specs.Causes.{HasAuditCause};
ghost use Rattle.audit.specs.lemmas.Conditions.{AreItsRecords};
ghost use Rattle.table.specs.Frames.{IsRead};

use crate::edges::has_edge;
use crate::fault::AuditFault;
use legal_moves::MoveSource;
use position_pack::Packed;
use rbg_game::roles::Role;
use retrograde::Record;
use std::alloc::Global;
use table::{Table, TableFault};

/// The numbers of the positions, if all are known.
fn numbers_of<T: Table>(
    alloc: Global,
    table: &mut T,
    positions: &[Packed],
) -> Result<Option<Vec<u32>>, AuditFault>
    ensures numbers { T.is_honest table.old → IfOk result (λ r. IfSome r (λ numbers.
        AllZip (λ y j. slice_get (T.stored table.old).positions j ≡ Some y) (bytes_of_each positions.now) numbers.items)) }
    ensures unknown { T.is_honest table.old → IfOk result (λ r. IfNone r ((y : List ℕ) × Contains (bytes_of_each positions.now) y
        × ((j : ℕ) → slice_get (T.stored table.old).positions j ≡ Some y → ⊥))) }
    ensures within { IfOk result (λ r. IfSome r (λ numbers. All (λ j. j < (T.counted table.old).known) numbers.items)) }
    ensures read { IsRead T.stored T.is_honest T.counted T.stays table.old table.new }
    ensures err { IfErr result (HasAuditCause ⊥ (T.fails table.old table.new)) }
{
    let mut numbers = Vec::new(alloc);
    for position in positions {
        let Some(number) = table.number_of(position)? else {
            return Ok(None);
        };
        numbers.push(number)?;
    }
    Ok(Some(numbers))
}

/// There is an edge to each of these from the number given.
fn has_edges<T: Table>(table: &mut T, from: u32, numbers: &[u32]) -> Result<bool, TableFault>
    ensures all { T.is_honest table.old → IfOk result (λ is.
        (is ≡ true) ↔ All (λ j. (T.stored table.old).has_edge j from ≡ true) numbers.now) }
    ensures read { IsRead T.stored T.is_honest T.counted T.stays table.old table.new }
    ensures room { IfErr result NeedsNoPage }
    ensures fault { IfErr result (T.fails table.old table.new) }
{
    for number in numbers {
        if !has_edge(table, *number, from)? {
            return Ok(false);
        }
    }
    Ok(true)
}

/// The records of these numbers.
fn records_of<T: Table>(
    alloc: Global,
    table: &mut T,
    numbers: &[u32],
) -> Result<Vec<Record>, AuditFault>
    requires { All (λ j. j < (T.counted table.old).known) numbers.now }
    ensures records { T.is_honest table.old → IfOk result (λ records. AllZip (HasRecord (T.stored table.old)) numbers.now records.items) }
    ensures read { IsRead T.stored T.is_honest T.counted T.stays table.old table.new }
    ensures err { IfErr result (HasAuditCause ⊥ (T.fails table.old table.new)) }
{
    let mut records = Vec::new(alloc);
    for number in numbers {
        records.push(table.record(*number)?)?;
    }
    Ok(records)
}

/// A position with this record counts these successors right, and the keeper has one at most.
fn is_counted(kept: Record, mover: Role, successors: &[Record]) -> bool
    ensures { (result ≡ true) ↔ ((kept.successors ≡ length successors.now)
        × (kept.left ≡ count_by (λ r. not (is_processed r.state)) successors.now)
        × (mover ≡ Role.Keeper → length successors.now ≤ 1)) }
{
    let left = successors
        .iter()
        .filter(|r| !r.state.is_processed())
        .count();
    kept.successors as usize == successors.len()
        && kept.left as usize == left
        && (mover != Role::Keeper || successors.len() <= 1)
}

/// The records of the successors of an expanded position, if all are known, have their edges from it, and
/// are counted right in its record.
pub fn successors_of<M: MoveSource, T: Table>(
    alloc: Global,
    source: &M,
    table: &mut T,
    number: u32,
    at: &Packed,
    kept: Record,
) -> Result<Option<Vec<Record>>, AuditFault>
    requires source { M.is_sound source.now }
    ensures records { T.is_honest table.old → IsTable (T.stored table.old) → HasRecord (T.stored table.old) number kept
        → IfOk result (λ r. IfSome r (λ records.
        AreItsRecords (M.graph source.now) (T.stored table.old) number at.now.items records.items)) }
    ensures fails { T.is_honest table.old → IsTable (T.stored table.old) → HasRecord (T.stored table.old) number kept
        → IfOk result (λ r. IfNone r (HasItsMoves (M.graph source.now) (T.stored table.old) number at.now.items → ⊥)) }
    ensures narrow { IsOk result → ¬ M.is_wide source.now at.now.items }
    ensures read { IsRead T.stored T.is_honest T.counted T.stays table.old table.new }
    ensures err { IfErr result (HasAuditCause (M.is_wide source.now at.now.items) (T.fails table.old table.new)) }
{
    let found = source.successors(alloc, at)?;
    let Some(numbers) = numbers_of(alloc, table, &found)? else {
        return Ok(None);
    };
    if !has_edges(table, number, &numbers)? {
        return Ok(None);
    }
    let records = records_of(alloc, table, &numbers)?;
    if is_counted(kept, source.mover(at), &records) {
        Ok(Some(records))
    } else {
        Ok(None)
    }
}
