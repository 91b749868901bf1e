//! A table, whichever it is.
ghost use Rattle.std.specs.Prelude.{◌≡◌, ◌<◌, Some, IfOk, IfSome, OnOk, slice_get};
ghost use Rattle.retrograde.specs.Changes.{counts_of, with_edge, with_settled};
ghost use Rattle.retrograde.specs.Stored.{is_processed, HasRecord};

use position_pack::Packed;
use retrograde::{Counts, Record, State};
use table::{Table, TableFault};

/// The clause of `Table::counts`, by the law `counts_are` of an honest table.
pub fn counts<T: Table>(table: &T) -> Counts
    requires { T.is_honest table.now }
    ensures { result ≡ counts_of (T.stored table.now) }
{
    table.counts()
}

/// `found` of `Table::number_of`.
pub fn number_of<T: Table>(table: &mut T, packed: &Packed) -> Result<Option<u32>, TableFault>
    requires { T.is_honest table.old }
    ensures { IfOk result (λ r. IfSome r (λ i. slice_get (T.stored table.old).positions i ≡ Some packed.now.items)) }
{
    table.number_of(packed)
}

/// `record` of `Table::record`.
pub fn record<T: Table>(table: &mut T, number: u32) -> Result<Record, TableFault>
    requires honest { T.is_honest table.old }
    requires known { number < (T.counted table.old).known }
    ensures { IfOk result (λ r. HasRecord (T.stored table.old) number r) }
{
    table.record(number)
}

/// `added` of `Table::add_edge`.
pub fn add_edge<T: Table>(table: &mut T, successor: u32, predecessor: u32) -> Result<(), TableFault>
    requires honest { T.is_honest table.old }
    requires successor { successor < (T.counted table.old).known }
    requires predecessor { predecessor < (T.counted table.old).known }
    ensures { OnOk result (T.stored table.new ≡ with_edge (T.stored table.old) successor predecessor) }
{
    table.add_edge(successor, predecessor)
}

/// `pushed` of `Table::push_settled`.
pub fn push_settled<T: Table>(table: &mut T, number: u32) -> Result<(), TableFault>
    requires honest { T.is_honest table.old }
    requires room { (T.counted table.old).settled < (T.counted table.old).known }
    ensures { OnOk result (T.stored table.new ≡ with_settled (T.stored table.old) number) }
{
    table.push_settled(number)
}

/// The clause of `State::is_processed`.
pub fn is_processed(state: State) -> bool
    ensures { result ≡ is_processed state }
{
    state.is_processed()
}
