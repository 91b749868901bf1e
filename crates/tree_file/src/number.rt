//! One number is read and looked at.
ghost use Rattle.std.specs.Prelude.{◌≤◌, ℕ, IfOk, OnOk, IfErr};
ghost use Rattle.page_store.specs.Frames.{PagesRead};
ghost use Rattle.btree.specs.Readers.{IsReading};
ghost use Rattle.tree_table.specs.declared.slot.TreeSlot.{TreeSlot};
ghost use Rattle.tree_table.specs.declared.tree.Tree.{Tree};
ghost use Rattle.tree_table.specs.declared.tree.Tree.TheVariants.{Records};
ghost use Rattle.tree_table.specs.Readers.{IsReaderOf};
ghost use Rattle.tree_file.specs.lemmas.EntryReads.{TellsOfEntries, PlainCause};
ghost use Rattle.tree_file.specs.lemmas.Right.{IsNumberAt, IsRightPlaced};
ghost use Rattle.position_pack.specs.declared.limits.TheConstants.{MAX_PACKED};

use crate::fits::fits_placed;
use crate::places::Placed;
use btree::find::Reader;
use page_store::Pages;
use table::TableFault;
use tree_table::{Tree, TreeSlot, cell_parts, find_key, number_in, number_key, value_at};

/// The number that stands at this key of this tree.
pub fn number_at<P: Pages>(
    store: &mut P,
    slot: &TreeSlot,
    tree: Tree,
    key: &[u8],
) -> Result<u32, TableFault>
    requires some { 1 ≤ slot.now.sizes.packed }
    requires short { slot.now.sizes.packed ≤ MAX_PACKED }
    ensures number { TellsOfEntries slot.now (P.store store.old) (λ entries. IfOk result (IsNumberAt (entries tree) key.now)) }
    ensures read { PagesRead (P.store store.old) (P.store store.new) }
    ensures cause { IfErr result (PlainCause (λ entries. (n : ℕ) × IsNumberAt (entries tree) key.now n)
        slot.now (P.store store.old) (P.store store.new)) }
{
    let Some(value) = value_at(store, slot, tree, key)? else {
        return Err(TableFault::Damaged);
    };
    match number_in(&value) {
        Some(number) => Ok(number),
        None => Err(TableFault::Damaged),
    }
}

/// The number that stands at this key of the tree of this reader.
pub fn number_by<P: Pages>(
    store: &mut P,
    reader: &mut Reader,
    key: &[u8],
) -> Result<u32, TableFault>
    requires { IsReading reader.old (P.store store.old) }
    ensures of { (slot : TreeSlot) (tree : Tree) → IsReaderOf slot tree reader.old → IsReaderOf slot tree reader.new }
    ensures reading { OnOk result (IsReading reader.new (P.store store.new)) }
    ensures number { (slot : TreeSlot) (tree : Tree) → IsReaderOf slot tree reader.old
        → TellsOfEntries slot (P.store store.old) (λ entries. IfOk result (IsNumberAt (entries tree) key.now)) }
    ensures read { PagesRead (P.store store.old) (P.store store.new) }
    ensures cause { IfErr result (λ fault. (slot : TreeSlot) (tree : Tree) → IsReaderOf slot tree reader.old
        → PlainCause (λ entries. (n : ℕ) × IsNumberAt (entries tree) key.now n) slot (P.store store.old) (P.store store.new) fault) }
{
    if !find_key(store, reader, key)? {
        return Err(TableFault::Damaged);
    }
    match number_in(reader.value()) {
        Some(number) => Ok(number),
        None => Err(TableFault::Damaged),
    }
}

/// Checks one number: its position leads back to it, and its record fits what the settled order says of it. The reader is one of the
/// records.
pub fn check_number<P: Pages>(
    store: &mut P,
    slot: &TreeSlot,
    reader: &mut Reader,
    number: u32,
    placed: Placed,
) -> Result<(), TableFault>
    requires some { 1 ≤ slot.now.sizes.packed }
    requires short { slot.now.sizes.packed ≤ MAX_PACKED }
    requires of { IsReaderOf slot.now Records reader.old }
    requires reading { IsReading reader.old (P.store store.old) }
    ensures of { IsReaderOf slot.now Records reader.new }
    ensures reading { OnOk result (IsReading reader.new (P.store store.new)) }
    ensures right { TellsOfEntries slot.now (P.store store.old) (λ entries. OnOk result (IsRightPlaced slot.now.sizes entries number placed)) }
    ensures read { PagesRead (P.store store.old) (P.store store.new) }
    ensures cause { IfErr result (PlainCause (λ entries. IsRightPlaced slot.now.sizes entries number placed)
        slot.now (P.store store.old) (P.store store.new)) }
{
    if !find_key(store, reader, &number_key(number))? {
        return Err(TableFault::Damaged);
    }
    let Some((position, kept)) = cell_parts(reader.value(), slot.sizes.packed) else {
        return Err(TableFault::Damaged);
    };
    let back = number_at(store, slot, Tree::Positions, position)?;
    if back != number {
        return Err(TableFault::Damaged);
    }
    if fits_placed(slot.sizes.counts, number, placed, kept) {
        Ok(())
    } else {
        Err(TableFault::Damaged)
    }
}
