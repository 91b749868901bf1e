//! What the settled order says of each number.
ghost use Rattle.std.specs.Prelude.{◌≡◌, ◌≢◌, ◌≤◌, ◌<◌, ℕ, true, false, Some, IfOk, IfErr, length, slice_index_or, slice_set};
ghost use Rattle.page_store.specs.Frames.{PagesRead};
ghost use Rattle.tree_file.specs.lemmas.EntryReads.{TellsOfEntries, CheckCause};
ghost use Rattle.tree_file.specs.lemmas.Right.{AreRight, AreMarkedByPlaces, placed_of};
ghost use Rattle.tree_file.specs.declared.places.Placed.TheVariants.{Nowhere};
ghost use Rattle.position_pack.specs.declared.limits.TheConstants.{MAX_PACKED};

use crate::number::number_by;
use page_store::Pages;
use retrograde::Counts;
use std::alloc::{AllocError, Global};
use table::TableFault;
use tree_table::{Tree, TreeSlot, number_key, reader_of};

/// What the settled order says of a number.
#[derive(Clone, Copy, PartialEq, Eq, Drop)]
pub enum Placed {
    /// It has no place there.
    Nowhere,
    /// It has one that is not processed.
    Waiting,
    /// It has one that is processed.
    Processed,
}

/// Nothing is said yet of this many numbers.
fn unplaced(alloc: Global, count: usize) -> Result<Vec<Placed>, AllocError>
    ensures long { IfOk result (λ placed. length placed.items ≡ count) }
    ensures none { IfOk result (λ placed. (i : ℕ) → slice_index_or placed.items i Nowhere ≡ Nowhere) }
{
    Ok(vec![in alloc; Placed::Nowhere; count]?)
}

/// What this place says of the number that has it.
fn placed_at(counts: Counts, place: u32) -> Placed
    ensures { result ≡ placed_of counts.processed (Some place) }
{
    if place < counts.processed {
        Placed::Processed
    } else {
        Placed::Waiting
    }
}

/// Gives a place to a number, and answers whether it had none.
fn take_place(placed: &mut Vec<Placed>, number: u32, place: Placed) -> bool
    requires { number < length placed.old.items }
    ensures free { slice_index_or placed.old.items number Nowhere ≡ Nowhere
        → (result ≡ true) × (placed.new.items ≡ slice_set placed.old.items number place) }
    ensures taken { slice_index_or placed.old.items number Nowhere ≢ Nowhere → result ≡ false }
{
    let at = number as usize;
    if placed[at] != Placed::Nowhere {
        return false;
    }
    placed[at] = place;
    true
}

/// What the settled order says of each known number. `Damaged` where two places have one number, or a place has no known number.
pub fn find_places<P: Pages>(
    alloc: Global,
    store: &mut P,
    slot: &TreeSlot,
) -> Result<Vec<Placed>, TableFault>
    requires some { 1 ≤ slot.now.sizes.packed }
    requires short { slot.now.sizes.packed ≤ MAX_PACKED }
    ensures long { IfOk result (λ placed. length placed.items ≡ slot.now.sizes.counts.known) }
    ensures places { TellsOfEntries slot.now (P.store store.old) (λ entries. IfOk result (λ placed.
        AreMarkedByPlaces slot.now.sizes entries slot.now.sizes.counts.settled placed.items)) }
    ensures read { PagesRead (P.store store.old) (P.store store.new) }
    ensures cause { IfErr result (CheckCause (λ entries. AreRight slot.now.sizes entries 0 slot.now.sizes.counts.known)
        slot.now (P.store store.old) (P.store store.new)) }
{
    let counts = slot.sizes.counts;
    let mut placed = unplaced(alloc, counts.known as usize)?;
    let mut reader = reader_of(slot, Tree::Order);
    for place in 0..counts.settled {
        let number = number_by(store, &mut reader, &number_key(place))?;
        if number >= counts.known {
            return Err(TableFault::Damaged);
        }
        let is_new = take_place(&mut placed, number, placed_at(counts, place));
        if !is_new {
            return Err(TableFault::Damaged);
        }
    }
    Ok(placed)
}
