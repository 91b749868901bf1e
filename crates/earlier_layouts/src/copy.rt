//! The whole of a table is copied.
ghost use Rattle.std.specs.Prelude.{◌≡◌, ◌^◌, ◌≤◌, OnOk, IfErr};
ghost use Rattle.retrograde.specs.Stored.{IsTable};
ghost use Rattle.table.specs.Records.{nothing};
ghost use Rattle.table.specs.Frames.{IsRead};
ghost use Rattle.earlier_layouts.specs.Copies.{LeavesOfCopy};
ghost use Rattle.earlier_layouts.specs.lemmas.CopyParts.{HasGoneOn};

use crate::edges::copy_edges;
use crate::fault::CopyFault;
use crate::order::copy_order;
use crate::positions::copy_positions;
use table::Table;

/// Copies a table into one that holds nothing: positions and records by number, then the edges to each number, then the settled
/// order by place. Then both store the same.
///
/// The table that is read stays as it was. After a fault the caller gives the other up.
pub fn copy_table<A: Table, B: Table>(from: &mut A, to: &mut B) -> Result<(), CopyFault>
    requires few { (A.counted from.old).known ≤ 2 ^ 24 }
    requires table { A.is_honest from.old → IsTable (A.stored from.old) }
    requires honest { B.is_honest to.old → A.is_honest from.old }
    requires nothing { B.is_honest to.old → B.stored to.old ≡ nothing }
    requires none { (B.counted to.old).known ≡ 0 }
    ensures ok { B.is_honest to.old → OnOk result (B.stored to.new ≡ A.stored from.old) }
    ensures read { IsRead A.stored A.is_honest A.counted A.stays from.old from.new }
    ensures written { OnOk result (HasGoneOn B.is_honest B.goes_on to.old to.new) }
    ensures left { IfErr result (LeavesOfCopy (A.fails from.old from.new) (B.fails to.old to.new)
        (B.goes_on to.old to.new) (B.is_honest to.old)) }
{
    copy_positions(from, to)?;
    copy_edges(from, to)?;
    copy_order(from, to)?;
    Ok(())
}
