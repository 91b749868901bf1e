//! Positions by number, with their values.
ghost use Rattle.std.specs.Prelude.{◌≡◌, ◌-◌, ◌<◌, ◌≤◌, IfOk, IfErr, length, min};
ghost use Rattle.retrograde.specs.Stored.{IsTable, view_of};
ghost use Rattle.best_line.specs.Rows.{AreRows};
ghost use Rattle.table.specs.Faults.{NeedsNoPage};
ghost use Rattle.table.specs.Frames.{IsRead};

use crate::answers::Row;
use crate::values::value;
use std::alloc::Global;
use table::{Table, TableFault};

/// The rows of this many numbers, ascending from the one given, or of fewer where the known positions end
/// before.
///
/// The first number is below the count of known positions, and the rows are 1 to 256. A fault is the
/// table's or want of memory. The table stays as it was.
pub fn list<T: Table>(
    alloc: Global,
    table: &mut T,
    from: u32,
    count: u32,
) -> Result<Vec<Row>, TableFault>
    requires from { from < (T.counted table.old).known }
    requires some { 1 ≤ count }
    requires few { count ≤ 256 }
    ensures rows { T.is_honest table.old → IsTable (T.stored table.old)
        → IfOk result (λ rows. AreRows (view_of (T.stored table.old)) from count rows.items) }
    ensures lengths { IfOk result (λ rows. length rows.items ≡ min count ((T.counted table.old).known - from)) }
    ensures read { IsRead T.stored T.is_honest T.counted T.stays table.old table.new }
    ensures room { IfErr result NeedsNoPage }
    ensures fault { IfErr result (T.fails table.old table.new) }
{
    let end = from + count.min(table.counts().known - from);
    let mut rows = Vec::new(alloc);
    for number in from..end {
        let value = value(table, number)?;
        rows.push(Row { number, value })?;
    }
    Ok(rows)
}
