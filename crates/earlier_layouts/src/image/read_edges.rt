//! Edges and the settled order are read.
ghost use Rattle.std.specs.Prelude.{◌≡◌, ◌*◌, ◌≤◌, ◌<◌, ◌↔◌, ℕ, true, List, length, IfOk, OnOk, Err, Contains};
ghost use Rattle.std.specs.List.Sorted.{IsStrictlySortedBy};
ghost use Rattle.retrograde.specs.Changes.{with_edge};
ghost use Rattle.table.specs.Memory.{edge_cmp};
ghost use Rattle.game_file.specs.Bytes.{IsEdge};
ghost use Rattle.earlier_layouts.specs.Spelled.{AreSpelled};
ghost use Rattle.earlier_layouts.specs.lemmas.ImageReads.{AreEdges, ChangesEdges, AddsOrder, HasNoRest, IsPast};
ghost use Rattle.earlier_layouts.specs.declared.image.fault.BytesFault.TheVariants.{Damaged};

use crate::image::BytesFault;
use byteorder::{BigEndian, ByteOrder};
use table::Table;

/// An edge comes after the one before it, if there is one.
fn is_past(before: Option<(u32, u32)>, edge: (u32, u32)) -> bool
    ensures { (result ≡ true) ↔ IsPast before edge }
{
    match before {
        None => true,
        Some(before) => before < edge,
    }
}

/// The edge of eight bytes.
fn edge_of(bytes: &[u8]) -> (u32, u32)
    requires { length bytes.now ≡ 8 }
    ensures { IsEdge bytes.now result }
{
    (BigEndian::read_u32(bytes), BigEndian::read_u32(&bytes[4..]))
}

/// Adds an edge, and answers it. `Damaged` where it does not come after the one before it, or names a number that is
/// not known.
fn read_edge<T: Table>(
    table: &mut T,
    before: Option<(u32, u32)>,
    bytes: &[u8],
) -> Result<(u32, u32), BytesFault>
    requires honest { T.is_honest table.old }
    requires long { length bytes.now ≡ 8 }
    ensures honest { OnOk result (T.is_honest table.new) }
    ensures edge { IfOk result (IsEdge bytes.now) }
    ensures past { IfOk result (IsPast before) }
    ensures added { IfOk result (λ edge. T.stored table.new ≡ with_edge (T.stored table.old) edge.0 edge.1) }
    ensures damaged { result ≡ Err Damaged → (edge : ℕ × ℕ) → IsEdge bytes.now edge → IsPast before edge
        → edge.0 < length (T.stored table.old).positions → edge.1 < length (T.stored table.old).positions → ⊥ }
{
    let edge = edge_of(bytes);
    let known = table.counts().known;
    if !is_past(before, edge) || edge.0 >= known || edge.1 >= known {
        return Err(BytesFault::Damaged);
    }
    table.add_edge(edge.0, edge.1)?;
    Ok(edge)
}

/// Adds this many edges to a table that has none.
pub fn read_edges<T: Table>(table: &mut T, edges: usize, bytes: &[u8]) -> Result<(), BytesFault>
    requires honest { T.is_honest table.old }
    requires long { length bytes.now ≡ 8 * edges }
    requires none { HasNoRest (T.stored table.old) }
    ensures honest { OnOk result (T.is_honest table.new) }
    ensures edges { OnOk result (AreEdges bytes.now edges (T.stored table.new)) }
    ensures others { OnOk result (ChangesEdges (T.stored table.old) (T.stored table.new)) }
    ensures damaged { result ≡ Err Damaged → (all : List (ℕ × ℕ)) → AreSpelled IsEdge bytes.now all → length all ≡ edges
        → IsStrictlySortedBy edge_cmp all
        → ((i p : ℕ) → Contains all (i, p) → (i < length (T.stored table.old).positions) × (p < length (T.stored table.old).positions))
        → ⊥ }
{
    let mut before = None;
    let mut rest = bytes;
    for _edge in 0..edges {
        let (edge, behind) = rest.split_at(8);
        before = Some(read_edge(table, before, edge)?);
        rest = behind;
    }
    Ok(())
}

/// Adds a settled order of this many numbers to a table in which nothing is settled.
pub fn read_order<T: Table>(table: &mut T, settled: u32, bytes: &[u8]) -> Result<(), BytesFault>
    requires honest { T.is_honest table.old }
    requires long { length bytes.now ≡ 4 * settled }
    requires few { settled ≤ length (T.stored table.old).positions }
    requires none { length (T.stored table.old).order ≡ 0 }
    ensures order { OnOk result (AddsOrder bytes.now settled (T.stored table.old) (T.stored table.new)) }
    ensures whole { result ≡ Err Damaged → ⊥ }
{
    let mut rest = bytes;
    for _place in 0..settled {
        let (number, behind) = rest.split_at(4);
        table.push_settled(BigEndian::read_u32(number))?;
        rest = behind;
    }
    Ok(())
}
