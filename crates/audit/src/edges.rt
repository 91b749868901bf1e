//! The edges of a table.
ghost use Rattle.std.specs.Prelude.{◌≡◌, IfOk, IfErr, length};
ghost use Rattle.retrograde.specs.Stored.{count_below};
ghost use Rattle.table.specs.Faults.{NeedsNoPage};
ghost use Rattle.table.specs.Frames.{IsRead};

use table::{Table, TableFault};

/// There is an edge to the first number from the second.
pub fn has_edge<T: Table>(table: &mut T, to: u32, from: u32) -> Result<bool, TableFault>
    ensures there { T.is_honest table.old → IfOk result (λ is. is ≡ (T.stored table.old).has_edge to from) }
    ensures read { IsRead T.stored T.is_honest T.counted T.stays table.old table.new }
    ensures room { IfErr result NeedsNoPage }
    ensures fault { IfErr result (T.fails table.old table.new) }
{
    Ok(table.next_edge(to, from.checked_sub(1))? == Some(from))
}

/// How many edges lead to a number.
pub fn count_edges<T: Table>(table: &mut T, to: u32) -> Result<u32, TableFault>
    ensures count { T.is_honest table.old → IfOk result (λ n.
        n ≡ count_below (length (T.stored table.old).positions) (λ p. (T.stored table.old).has_edge to p)) }
    ensures read { IsRead T.stored T.is_honest T.counted T.stays table.old table.new }
    ensures room { IfErr result NeedsNoPage }
    ensures fault { IfErr result (T.fails table.old table.new) }
{
    let known = table.counts().known;
    let mut after: Option<u32> = None;
    for count in 0..known {
        let Some(from) = table.next_edge(to, after)? else {
            return Ok(count);
        };
        after = Some(from);
    }
    Ok(known)
}
