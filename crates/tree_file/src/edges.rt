//! Edges are counted, and their ends are looked at.
ghost use Rattle.std.specs.Prelude.{◌≡◌, ◌≤◌, ◌<◌, ◌↔◌, ◌^◌, ℕ, length, IfSome, IfNone};
ghost use Rattle.tree_table.specs.Entries.{edge_key};
ghost use Rattle.tree_file.specs.lemmas.Told.{AreTallied, IsNoEdge};

use btree::walk::{Refused, Visitor};
use byteorder::{BigEndian, ByteOrder};

/// How many edges were told, and the least number that is above all their ends.
#[derive(Drop)]
pub struct EdgeCount {
    pub count: u64,
    pub above: u64,
}

impl Visitor for EdgeCount {
    ghost told = { λ v es. AreTallied v.count v.above es };

    ghost refuses = { λ _ es item. IsNoEdge es item };

    fn entry(&mut self, key: &[u8], _value: &[u8]) -> Result<(), Refused> {
        let (to, from) = edge_in(key).ok_or(Refused)?;
        let count = self.count.checked_add(1).ok_or(Refused)?;
        self.count = count;
        self.above = past(past(self.above, to), from);
        Ok(())
    }
}

/// The two numbers of the key of an edge.
fn edge_in(key: &[u8]) -> Option<(u32, u32)>
    ensures some { IfSome result (λ edge. key.now ≡ edge_key edge.0 edge.1) }
    ensures small { IfSome result (λ edge. (edge.0 < 2 ^ 32) × (edge.1 < 2 ^ 32)) }
    ensures none { IfNone result (length key.now ≡ 8 → ⊥) }
{
    if key.len() != 8 {
        return None;
    }
    let (to, from) = key.split_at(4);
    Some((BigEndian::read_u32(to), BigEndian::read_u32(from)))
}

/// This number, or the one past the end of an edge, whichever is more.
fn past(above: u64, end: u32) -> u64
    ensures { (n : ℕ) → (result ≤ n) ↔ ((above ≤ n) × (end < n)) }
{
    let end = u64::from(end);
    if above <= end { end + 1 } else { above }
}
