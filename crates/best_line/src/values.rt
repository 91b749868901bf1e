//! The value of a position.
ghost use Rattle.std.specs.Prelude.{◌≡◌, ◌<◌, ℕ, List, IfOk, IfErr};
ghost use Rattle.retrograde.specs.Stored.{Stored, HasRecord, IsTable, view_of};
ghost use Rattle.retrograde.specs.Changes.{counts_of};
ghost use Rattle.best_line.specs.Values.{IsValue};
ghost use Rattle.best_line.specs.lemmas.Values.{IsUnsettled};
ghost use Rattle.table.specs.Faults.{NeedsNoPage};
ghost use Rattle.table.specs.Frames.{IsRead};

use crate::answers::Value;
use retrograde::{Counts, Record};
use table::{Table, TableFault};

/// The value of a position that is not settled, in a table with these counts: a draw where all that is known is
/// expanded and all that is settled is processed.
fn unsettled(counts: Counts) -> Value
    ensures { IsUnsettled counts result }
{
    if counts.expanded == counts.known && counts.processed == counts.settled {
        Value::Drawn
    } else {
        Value::Open
    }
}

/// The value of a position that has this record, in a table with these counts.
pub fn value_of(kept: Record, counts: Counts) -> Value
    ensures { (stored : Stored (List ℕ)) (number : ℕ) → IsTable stored → HasRecord stored number kept → counts ≡ counts_of stored
        → IsValue (view_of stored) number result }
{
    if let Some(winner) = kept.winner {
        return Value::Won(winner, kept.distance);
    }
    unsettled(counts)
}

/// The value of a position by its number, which is below the count of known positions.
///
/// A fault is the table's. The table stays as it was.
pub fn value<T: Table>(table: &mut T, number: u32) -> Result<Value, TableFault>
    requires { number < (T.counted table.old).known }
    ensures value { T.is_honest table.old → IsTable (T.stored table.old)
        → IfOk result (λ value. IsValue (view_of (T.stored table.old)) number value) }
    ensures read { IsRead T.stored T.is_honest T.counted T.stays table.old table.new }
    ensures room { IfErr result NeedsNoPage }
    ensures fault { IfErr result (T.fails table.old table.new) }
{
    let kept = table.record(number)?;
    Ok(value_of(kept, table.counts()))
}
