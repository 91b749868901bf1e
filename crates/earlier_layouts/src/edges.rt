//! The edges are copied, successor by successor.
ghost use Rattle.std.specs.Prelude.{◌≡◌, ◌+◌, ◌<◌, OnOk, IfErr, length};
ghost use Rattle.table.specs.Frames.{IsRead, IsWritten};
ghost use Rattle.earlier_layouts.specs.Copies.{LeavesOfCopy};
ghost use Rattle.earlier_layouts.specs.lemmas.CopyParts.{with_edges};

use crate::fault::CopyFault;
use table::Table;

/// Copies the edges that lead to a number.
fn copy_edges_to<A: Table, B: Table>(
    from: &mut A,
    to: &mut B,
    successor: u32,
) -> Result<(), CopyFault>
    requires known { successor < (A.counted from.old).known }
    requires same { (B.counted to.old).known ≡ (A.counted from.old).known }
    requires honest { B.is_honest to.old → A.is_honest from.old }
    requires before { B.is_honest to.old → B.stored to.old ≡ with_edges successor (A.stored from.old) }
    ensures copied { B.is_honest to.old → OnOk result (B.stored to.new ≡ with_edges (successor + 1) (A.stored from.old)) }
    ensures read { IsRead A.stored A.is_honest A.counted A.stays from.old from.new }
    ensures written { OnOk result (IsWritten B.is_honest B.counted B.goes_on to.old to.new) }
    ensures left { IfErr result (LeavesOfCopy (A.fails from.old from.new) (B.fails to.old to.new)
        (B.goes_on to.old to.new) (B.is_honest to.old)) }
{
    let mut after: Option<u32> = None;
    while let Some(predecessor) = from.next_edge(successor, after).map_err(CopyFault::From)? {
        to.add_edge(successor, predecessor).map_err(CopyFault::To)?;
        after = Some(predecessor);
    }
    Ok(())
}

/// Copies all edges into a table that has the positions.
pub fn copy_edges<A: Table, B: Table>(from: &mut A, to: &mut B) -> Result<(), CopyFault>
    requires same { (B.counted to.old).known ≡ (A.counted from.old).known }
    requires honest { B.is_honest to.old → A.is_honest from.old }
    requires before { B.is_honest to.old → B.stored to.old ≡ with_edges 0 (A.stored from.old) }
    ensures copied { B.is_honest to.old → OnOk result
        (B.stored to.new ≡ with_edges (length (A.stored from.old).positions) (A.stored from.old)) }
    ensures read { IsRead A.stored A.is_honest A.counted A.stays from.old from.new }
    ensures written { OnOk result (IsWritten B.is_honest B.counted B.goes_on to.old to.new) }
    ensures left { IfErr result (LeavesOfCopy (A.fails from.old from.new) (B.fails to.old to.new)
        (B.goes_on to.old to.new) (B.is_honest to.old)) }
{
    for successor in 0..from.counts().known {
        copy_edges_to(from, to, successor)?;
    }
    Ok(())
}
