//! Whether the parts of a table fit together.
ghost use Rattle.std.specs.Prelude.{◌≡◌, ◌↔◌, ◌<◌, ℕ, List, true, false, Some, length, slice_get, slice_index_or, slice_set, count_by};
ghost use Rattle.std.specs.Prelude.{IfOk, IfSome, IfNone, OnOk, IsSome};
ghost use Rattle.retrograde.specs.declared.records.Record.{Record};
ghost use Rattle.retrograde.specs.Stored.{FitsState, is_settled as settled_in, is_expanded as expanded_in};
ghost use Rattle.arrayvec.specs.ArrayVec.{ArrayVec};
ghost use Rattle.table.specs.lemmas.Fit.{RecordsFit, IsSettledAs, OrderFits, AllListed, PartsFit};

use position_pack::Packed;
use retrograde::{Record, State};
use std::alloc::{AllocError, Global};

/// Whether a position in this state is settled.
fn is_settled(state: State) -> bool
    ensures { result ≡ settled_in state }
{
    match state {
        State::Known | State::Expanded => false,
        State::Settled | State::Processed => true,
    }
}

/// Whether a record is possible for its state.
fn fits_state(kept: Record) -> bool
    ensures { (result ≡ true) ↔ FitsState kept.state kept }
{
    match kept.state {
        State::Known => {
            kept.winner.is_none() && kept.distance == 0 && kept.left == 0 && kept.successors == 0
        }
        State::Expanded => kept.winner.is_none() && kept.distance == 0,
        State::Settled | State::Processed => kept.winner.is_some(),
    }
}

/// Whether each record is possible for its state, and exactly this many, the first ones, are expanded.
fn records_fit(records: &[Record], expanded: u32) -> bool
    ensures { (result ≡ true) ↔ RecordsFit expanded records.now }
{
    records.iter().enumerate().all(|(number, kept)| fits_at(*kept, number < expanded as usize))
}

/// Whether the record is possible for its state, and is expanded where it should be.
fn fits_at(kept: Record, is_expanded: bool) -> bool
    ensures { (result ≡ true) ↔ (FitsState kept.state kept × (expanded_in kept.state ≡ is_expanded)) }
{
    fits_state(kept) && kept.state.is_expanded() == is_expanded
}

/// How many records are those of settled positions.
fn settled_count(records: &[Record]) -> usize
    ensures { result ≡ count_by (λ r. settled_in r.state) records.now }
{
    records.iter().filter(|kept| is_settled(kept.state)).count()
}

/// Whether the record of this number is settled, and processed or not as is wanted; there may be none.
fn is_settled_as(records: &[Record], number: u32, is_processed: bool) -> bool
    ensures { (result ≡ true) ↔ IsSettledAs records.now number (is_processed ≡ true) }
{
    match records.get(number as usize) {
        Some(record) => { is_settled(record.state) && record.state.is_processed() == is_processed }
        None => false,
    }
}

/// Puts a number that is not among the marked ones there, and answers whether it wasn't.
fn take(marks: &mut Vec<bool>, number: u32) -> bool
    requires within { number < length marks.old.items }
    ensures found { result ≡ true ↔ (slice_index_or marks.old.items number false ≡ false) }
    ensures marked { marks.new.items ≡ slice_set marks.old.items number true }
{
    let is_new = !marks[number as usize];
    marks[number as usize] = true;
    is_new
}

/// This many marks, none of them made.
fn unmarked(alloc: Global, count: usize) -> Result<Vec<bool>, AllocError>
    ensures long { IfOk result (λ marks. length marks.items ≡ count) }
    ensures none { IfOk result (λ marks. (i : ℕ) → i < length marks.items → slice_index_or marks.items i false ≡ false) }
{
    Ok(vec![in alloc; false; count]?)
}

/// The numbers that stand in the order, where it has settled numbers alone, each once, of which the first ones are
/// processed.
fn listed(
    alloc: Global,
    records: &[Record],
    order: &[u32],
    processed: u32,
) -> Result<Option<Vec<bool>>, AllocError>
    ensures fits { IfOk result (λ r. IfSome r (λ marks. OrderFits processed records.now order.now
        × ((i : ℕ) → (slice_index_or marks.items i false ≡ true) → (k : ℕ) × (slice_get order.now k ≡ Some i)))) }
    ensures marks { IfOk result (λ r. IfSome r (λ marks. (k i : ℕ) → slice_get order.now k ≡ Some i
        → slice_index_or marks.items i false ≡ true)) }
    ensures none { IfOk result (λ r. IfNone r (¬ OrderFits processed records.now order.now)) }
{
    let mut marks = unmarked(alloc, records.len())?;
    for place in 0..order.len() {
        if !is_settled_as(records, order[place], place < processed as usize) {
            return Ok(None);
        }
        if !take(&mut marks, order[place]) {
            return Ok(None);
        }
    }
    Ok(Some(marks))
}

/// Whether the number is marked.
fn is_marked(marks: &[bool], number: usize) -> bool
    ensures { result ≡ slice_index_or marks.now number false }
{
    marks.get(number).copied().unwrap_or(false)
}

/// Whether each settled number is marked.
fn all_listed(records: &[Record], marks: &[bool]) -> bool
    ensures { (result ≡ true) ↔ ((i : ℕ) (r : Record) → slice_get records.now i ≡ Some r → settled_in r.state ≡ true
        → slice_index_or marks.now i false ≡ true) }
{
    records.iter().enumerate().all(|(number, kept)| !is_settled(kept.state)
        || is_marked(marks, number))
}

/// Whether each position has this many bytes.
pub fn are_long(positions: &[Packed], packed: u32) -> bool
    ensures { (result ≡ true) ↔ ((i : ℕ) (x : ArrayVec ℕ) → slice_get positions.now i ≡ Some x → length x.items ≡ packed) }
{
    positions
        .iter()
        .all(|position| position.len() == packed as usize)
}

/// Whether records and settled order fit together, of which this many are expanded and processed.
pub fn parts_fit(
    alloc: Global,
    records: &[Record],
    order: &[u32],
    expanded: u32,
    processed: u32,
) -> Result<bool, AllocError>
    ensures { IfOk result (λ fits. (fits ≡ true) ↔ PartsFit expanded processed records.now order.now) }
{
    if records.is_empty()
        || !records_fit(records, expanded)
        || settled_count(records) != order.len()
    {
        return Ok(false);
    }
    match listed(alloc, records, order, processed)? {
        Some(marks) => Ok(all_listed(records, &marks)),
        None => Ok(false),
    }
}
