//! What a table keeps and answers, as one in a file does.
ghost use Rattle.std.specs.Prelude.{◌≡◌, ◌<◌, ℕ, Some, IfNone, IfOk, IfSome, OnOk, slice_get};
ghost use Rattle.retrograde.specs.Changes.{with_record};
ghost use Rattle.retrograde.specs.Edges.{IsAfter};

use position_pack::Packed;
use retrograde::Record;
use table::{Table, TableFault};

/// `unknown` of `Table::number_of`.
pub fn number_of<T: Table>(table: &mut T, packed: &Packed) -> Result<Option<u32>, TableFault>
    requires { T.is_honest table.old }
    ensures { IfOk result (λ r. IfNone r ((i : ℕ) → slice_get (T.stored table.old).positions i ≡ Some packed.now.items → ⊥)) }
{
    table.number_of(packed)
}

/// `set` of `Table::set_record`.
pub fn set_record<T: Table>(table: &mut T, number: u32, kept: Record) -> Result<(), TableFault>
    requires honest { T.is_honest table.old }
    requires known { number < (T.counted table.old).known }
    ensures { OnOk result (T.stored table.new ≡ with_record (T.stored table.old) number kept) }
{
    table.set_record(number, kept)
}

/// `later` of `Table::next_edge`.
pub fn next_edge<T: Table>(
    table: &mut T,
    successor: u32,
    after: Option<u32>,
) -> Result<Option<u32>, TableFault>
    ensures { IfOk result (λ r. IfSome r (IsAfter after)) }
{
    table.next_edge(successor, after)
}

/// `number` of `Table::settled_at`.
pub fn settled_at<T: Table>(table: &mut T, place: u32) -> Result<u32, TableFault>
    requires honest { T.is_honest table.old }
    requires settled { place < (T.counted table.old).settled }
    ensures { IfOk result (λ i. slice_get (T.stored table.old).order place ≡ Some i) }
{
    table.settled_at(place)
}
