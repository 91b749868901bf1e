//! The settled order is copied, place by place.
ghost use Rattle.std.specs.Prelude.{◌≡◌, ◌+◌, ◌<◌, OnOk, IfErr};
ghost use Rattle.retrograde.specs.Stored.{IsTable};
ghost use Rattle.table.specs.Frames.{IsRead, IsWritten};
ghost use Rattle.earlier_layouts.specs.Copies.{LeavesOfCopy};
ghost use Rattle.earlier_layouts.specs.lemmas.CopyParts.{with_order};

use crate::fault::CopyFault;
use table::Table;

/// Copies the number at a place of the settled order.
fn copy_place<A: Table, B: Table>(from: &mut A, to: &mut B, place: u32) -> Result<(), CopyFault>
    requires known { place < (A.counted from.old).settled }
    requires honest { B.is_honest to.old → A.is_honest from.old }
    requires table { A.is_honest from.old → IsTable (A.stored from.old) }
    requires before { B.is_honest to.old → B.stored to.old ≡ with_order place (A.stored from.old) }
    ensures copied { B.is_honest to.old → OnOk result (B.stored to.new ≡ with_order (place + 1) (A.stored from.old)) }
    ensures read { IsRead A.stored A.is_honest A.counted A.stays from.old from.new }
    ensures written { OnOk result (IsWritten B.is_honest B.counted B.goes_on to.old to.new) }
    ensures left { IfErr result (LeavesOfCopy (A.fails from.old from.new) (B.fails to.old to.new)
        (B.goes_on to.old to.new) (B.is_honest to.old)) }
{
    let number = from.settled_at(place).map_err(CopyFault::From)?;
    let counts = to.counts();
    if counts.settled >= counts.known {
        return Err(CopyFault::Inconsistent);
    }
    to.push_settled(number).map_err(CopyFault::To)?;
    Ok(())
}

/// Copies the settled order into a table that has all else.
pub fn copy_order<A: Table, B: Table>(from: &mut A, to: &mut B) -> Result<(), CopyFault>
    requires honest { B.is_honest to.old → A.is_honest from.old }
    requires table { A.is_honest from.old → IsTable (A.stored from.old) }
    requires before { B.is_honest to.old → B.stored to.old ≡ with_order 0 (A.stored from.old) }
    ensures copied { B.is_honest to.old → OnOk result (B.stored to.new ≡ A.stored from.old) }
    ensures read { IsRead A.stored A.is_honest A.counted A.stays from.old from.new }
    ensures written { OnOk result (IsWritten B.is_honest B.counted B.goes_on to.old to.new) }
    ensures left { IfErr result (LeavesOfCopy (A.fails from.old from.new) (B.fails to.old to.new)
        (B.goes_on to.old to.new) (B.is_honest to.old)) }
{
    for place in 0..from.counts().settled {
        copy_place(from, to, place)?;
    }
    Ok(())
}
