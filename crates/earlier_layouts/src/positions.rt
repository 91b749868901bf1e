//! Positions and records are copied by number.
ghost use Rattle.std.specs.Prelude.{◌≡◌, ◌+◌, ◌^◌, ◌<◌, ◌≤◌, OnOk, IfErr, length};
ghost use Rattle.retrograde.specs.Stored.{IsTable};
ghost use Rattle.table.specs.Records.{nothing};
ghost use Rattle.table.specs.Frames.{IsRead};
ghost use Rattle.earlier_layouts.specs.Copies.{LeavesOfCopy};
ghost use Rattle.earlier_layouts.specs.lemmas.CopyParts.{HasGoneOn, with_positions};

use crate::fault::CopyFault;
use table::Table;

/// Copies the position with a number, and its record.
fn copy_position<A: Table, B: Table>(from: &mut A, to: &mut B, number: u32) -> Result<(), CopyFault>
    requires known { number < (A.counted from.old).known }
    requires next { (B.counted to.old).known ≡ number }
    requires few { number < 2 ^ 24 }
    requires honest { B.is_honest to.old → A.is_honest from.old }
    requires table { A.is_honest from.old → IsTable (A.stored from.old) }
    requires before { B.is_honest to.old → B.stored to.old ≡ with_positions number (A.stored from.old) }
    ensures copied { B.is_honest to.old → OnOk result (B.stored to.new ≡ with_positions (number + 1) (A.stored from.old)) }
    ensures known { OnOk result ((B.counted to.new).known ≡ number + 1) }
    ensures read { IsRead A.stored A.is_honest A.counted A.stays from.old from.new }
    ensures written { OnOk result (HasGoneOn B.is_honest B.goes_on to.old to.new) }
    ensures left { IfErr result (LeavesOfCopy (A.fails from.old from.new) (B.fails to.old to.new)
        (B.goes_on to.old to.new) (B.is_honest to.old)) }
{
    let position = from.packed(number).map_err(CopyFault::From)?;
    let kept = from.record(number).map_err(CopyFault::From)?;
    to.add(&position).map_err(CopyFault::To)?;
    to.set_record(number, kept).map_err(CopyFault::To)?;
    Ok(())
}

/// Copies all positions with their records into a table that holds nothing.
pub fn copy_positions<A: Table, B: Table>(from: &mut A, to: &mut B) -> Result<(), CopyFault>
    requires few { (A.counted from.old).known ≤ 2 ^ 24 }
    requires none { (B.counted to.old).known ≡ 0 }
    requires honest { B.is_honest to.old → A.is_honest from.old }
    requires table { A.is_honest from.old → IsTable (A.stored from.old) }
    requires before { B.is_honest to.old → B.stored to.old ≡ nothing }
    ensures copied { B.is_honest to.old → OnOk result
        (B.stored to.new ≡ with_positions (length (A.stored from.old).positions) (A.stored from.old)) }
    ensures known { OnOk result ((B.counted to.new).known ≡ (A.counted from.old).known) }
    ensures read { IsRead A.stored A.is_honest A.counted A.stays from.old from.new }
    ensures written { OnOk result (HasGoneOn B.is_honest B.goes_on to.old to.new) }
    ensures left { IfErr result (LeavesOfCopy (A.fails from.old from.new) (B.fails to.old to.new)
        (B.goes_on to.old to.new) (B.is_honest to.old)) }
{
    for number in 0..from.counts().known {
        copy_position(from, to, number)?;
    }
    Ok(())
}
