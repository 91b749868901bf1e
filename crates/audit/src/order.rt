//! What each settled number is not to be nearer than.
ghost use Rattle.std.specs.Prelude.{◌≡◌, ◌<◌, ℕ, Some, IfOk, IfErr, length, slice_get, slice_set};
ghost use Rattle.retrograde.specs.Stored.{IsTable};
ghost use Rattle.table.specs.Faults.{NeedsNoPage};
ghost use Rattle.audit.specs.Causes.{HasAuditCause};
ghost use Rattle.audit.specs.lemmas.Conditions.{AreFloors, distance_at};
ghost use Rattle.table.specs.Frames.{IsRead};

use crate::fault::AuditFault;
use std::alloc::Global;
use table::{Table, TableFault};

/// Writes of the number at a place that it is not to be nearer than this, and answers its own distance.
fn write_floor<T: Table>(
    table: &mut T,
    place: u32,
    floor: u32,
    floors: &mut Vec<u32>,
) -> Result<u32, TableFault>
    requires place { place < (T.counted table.old).settled }
    requires lengths { length floors.old.items ≡ (T.counted table.old).known }
    ensures written { T.is_honest table.old → IsTable (T.stored table.old) → IfOk result (λ distance. (i : ℕ)
        → slice_get (T.stored table.old).order place ≡ Some i
        → (distance ≡ distance_at (T.stored table.old) (Some i)) × (i < length floors.old.items)
        × (floors.new.items ≡ slice_set floors.old.items i floor)) }
    ensures lengths { length floors.new.items ≡ length floors.old.items }
    ensures read { IsRead T.stored T.is_honest T.counted T.stays table.old table.new }
    ensures room { IfErr result NeedsNoPage }
    ensures fault { IfErr result (T.fails table.old table.new) }
{
    let number = table.settled_at(place)?;
    if number as usize >= floors.len() {
        return Ok(0);
    }
    floors[number as usize] = floor;
    Ok(table.record(number)?.distance)
}

/// By number, the distance of the one before it in the settled order: 0 for the first, and for those
/// that are not in the order.
pub fn floors<T: Table>(alloc: Global, table: &mut T) -> Result<Vec<u32>, AuditFault>
    ensures floors { T.is_honest table.old → IsTable (T.stored table.old)
        → IfOk result (λ floors. AreFloors (T.stored table.old) (length (T.stored table.old).order) floors.items) }
    ensures lengths { IfOk result (λ floors. length floors.items ≡ (T.counted table.old).known) }
    ensures read { IsRead T.stored T.is_honest T.counted T.stays table.old table.new }
    ensures err { IfErr result (HasAuditCause ⊥ (T.fails table.old table.new)) }
{
    let counts = table.counts();
    let mut floors = vec![in alloc; 0; counts.known as usize]?;
    let mut last = 0;
    for place in 0..counts.settled {
        last = write_floor(table, place, last, &mut floors)?;
    }
    Ok(floors)
}
