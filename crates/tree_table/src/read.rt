//! What a slot names is read.
ghost use Rattle.std.specs.Prelude.{◌≡◌, ◌↔◌, ◌≤◌, ◌<◌, ℕ, List, Some, OnOk, OnErr, IfOk, IfErr, IfSome, IfNone, IsTrue, slice_get};
ghost use Rattle.page_store.specs.Frames.{PagesRead};
ghost use Rattle.page_store.specs.Store.{Store};
ghost use Rattle.retrograde.specs.Edges.{IsAfter, IsNextEdge, HasNoMoreEdges};
ghost use Rattle.retrograde.specs.Stored.{Stored};
ghost use Rattle.btree.specs.Page.{Item};
ghost use Rattle.btree.specs.Entries.{find_entry, next_after as next_in};
ghost use Rattle.btree.specs.Answers.{filled_bytes, filled_entry, found_bytes};
ghost use Rattle.btree.specs.Readers.{HasEntry, IsReading, found_here};
ghost use Rattle.tree_table.specs.declared.slot.TreeSlot.{TreeSlot};
ghost use Rattle.tree_table.specs.declared.tree.Tree.{Tree};
ghost use Rattle.tree_table.specs.declared.tree.Tree.TheVariants.{Records};
ghost use Rattle.tree_table.specs.Causes.{IsNoForest, IsNoTable, ReadCause};
ghost use Rattle.tree_table.specs.Frames.{IsCellRead, IsKnownAfter, KeepsReading};
ghost use Rattle.tree_table.specs.Readers.{IsReaderOf, IsNear};
ghost use Rattle.tree_table.specs.WorkTable.{HasForest, HasTable};
ghost use Rattle.position_pack.specs.declared.limits.TheConstants.{MAX_PACKED};

use crate::bytes::{Cell, edge_in, fill_cell, key_behind, number_in, number_key};
use crate::fault::table_fault;
use crate::slot::TreeSlot;
use crate::tree::{Tree, widths_of};
use btree::find::{Bytes, Entry, Reader, get, get_into, next_into, no_entry};
use page_store::Pages;
use position_pack::Packed;
use table::TableFault;

/// Whether this tree has this key. The buffer is filled with what stands there.
pub fn value_into<P: Pages>(
    store: &mut P,
    slot: &TreeSlot,
    tree: Tree,
    key: &[u8],
    into: &mut Bytes,
) -> Result<bool, TableFault>
    requires some { 1 ≤ slot.now.sizes.packed }
    requires short { slot.now.sizes.packed ≤ MAX_PACKED }
    ensures found { IsTrue (P.store store.old).disk.honest → (text : List ℕ) (entries : Tree → List Item)
        → HasForest slot.now text entries (P.store store.old)
        → IfOk result (λ found. filled_bytes found into.new ≡ find_entry (entries tree) key.now) }
    ensures read { PagesRead (P.store store.old) (P.store store.new) }
    ensures cause { IfErr result (ReadCause IsNoForest slot.now (P.store store.old) (P.store store.new)) }
{
    let widths = widths_of(slot.sizes.packed, tree);
    match get_into(store, widths, slot.roots.root(tree), key, into) {
        Ok(found) => Ok(found),
        Err(fault) => Err(table_fault(fault)),
    }
}

/// What stands at this key of this tree.
pub fn value_at<P: Pages>(
    store: &mut P,
    slot: &TreeSlot,
    tree: Tree,
    key: &[u8],
) -> Result<Option<Bytes>, TableFault>
    requires some { 1 ≤ slot.now.sizes.packed }
    requires short { slot.now.sizes.packed ≤ MAX_PACKED }
    ensures found { IsTrue (P.store store.old).disk.honest → (text : List ℕ) (entries : Tree → List Item)
        → HasForest slot.now text entries (P.store store.old)
        → IfOk result (λ found. found_bytes found ≡ find_entry (entries tree) key.now) }
    ensures read { PagesRead (P.store store.old) (P.store store.new) }
    ensures cause { IfErr result (ReadCause IsNoForest slot.now (P.store store.old) (P.store store.new)) }
{
    let widths = widths_of(slot.sizes.packed, tree);
    match get(store, widths, slot.roots.root(tree), key) {
        Ok(found) => Ok(found),
        Err(fault) => Err(table_fault(fault)),
    }
}

/// Whether this tree has a key that is greater than this one. The buffer is filled with the entry of the least of them.
fn entry_after<P: Pages>(
    store: &mut P,
    slot: &TreeSlot,
    tree: Tree,
    key: &[u8],
    into: &mut Entry,
) -> Result<bool, TableFault>
    requires some { 1 ≤ slot.now.sizes.packed }
    requires short { slot.now.sizes.packed ≤ MAX_PACKED }
    ensures found { IsTrue (P.store store.old).disk.honest → (text : List ℕ) (entries : Tree → List Item)
        → HasForest slot.now text entries (P.store store.old)
        → IfOk result (λ found. filled_entry found into.new ≡ next_in (entries tree) key.now) }
    ensures read { PagesRead (P.store store.old) (P.store store.new) }
    ensures cause { IfErr result (ReadCause IsNoForest slot.now (P.store store.old) (P.store store.new)) }
{
    let widths = widths_of(slot.sizes.packed, tree);
    match next_into(store, widths, slot.roots.root(tree), key, into) {
        Ok(found) => Ok(found),
        Err(fault) => Err(table_fault(fault)),
    }
}

/// A reader of this tree.
pub fn reader_of(slot: &TreeSlot, tree: Tree) -> Reader
    requires some { 1 ≤ slot.now.sizes.packed }
    requires short { slot.now.sizes.packed ≤ MAX_PACKED }
    ensures is { IsReaderOf slot.now tree result }
    ensures reading { (store : Store) → IsReading result store }
{
    Reader::new(widths_of(slot.sizes.packed, tree), slot.roots.root(tree))
}

/// Whether the tree of this reader has this key. If so, the reader is at its entry from then on.
pub fn find_key<P: Pages>(
    store: &mut P,
    reader: &mut Reader,
    key: &[u8],
) -> Result<bool, TableFault>
    requires { IsReading reader.old (P.store store.old) }
    ensures reader { KeepsReading reader.old reader.new (P.store store.new) }
    ensures at { IfOk result (λ found. IsTrue found → HasEntry reader.new) }
    ensures found { (slot : TreeSlot) (tree : Tree) → IsReaderOf slot tree reader.old
        → IsTrue (P.store store.old).disk.honest → (text : List ℕ) (entries : Tree → List Item)
        → HasForest slot text entries (P.store store.old)
        → IfOk result (λ found. found_here found reader.new ≡ find_entry (entries tree) key.now) }
    ensures read { PagesRead (P.store store.old) (P.store store.new) }
    ensures cause { IfErr result (λ fault. (slot : TreeSlot) (tree : Tree) → IsReaderOf slot tree reader.old
        → ReadCause IsNoForest slot (P.store store.old) (P.store store.new) fault) }
{
    match reader.find(store, key) {
        Ok(found) => Ok(found),
        Err(fault) => Err(table_fault(fault)),
    }
}

/// Fills a cell with the position with a number and its record.
pub fn cell_into<P: Pages>(
    store: &mut P,
    slot: &TreeSlot,
    number: u32,
    into: &mut Cell,
) -> Result<(), TableFault>
    requires some { 1 ≤ slot.now.sizes.packed }
    requires short { slot.now.sizes.packed ≤ MAX_PACKED }
    requires known { number < slot.now.sizes.counts.known }
    ensures cell { OnOk result (IsCellRead slot.now (P.store store.old) number into.new) }
    ensures same { OnErr result (into.new ≡ into.old) }
    ensures read { PagesRead (P.store store.old) (P.store store.new) }
    ensures cause { IfErr result (ReadCause IsNoTable slot.now (P.store store.old) (P.store store.new)) }
{
    let key = number_key(number);
    let mut value = Bytes::new();
    let found = value_into(store, slot, Tree::Records, &key, &mut value)?;
    if !found {
        return Err(TableFault::Damaged);
    }
    if fill_cell(&value, slot.sizes.packed, into) {
        Ok(())
    } else {
        Err(TableFault::Damaged)
    }
}

/// The cell of a number, by a reader of the records.
fn cell_by<P: Pages>(
    store: &mut P,
    slot: &TreeSlot,
    reader: &mut Reader,
    number: u32,
    into: &mut Cell,
) -> Result<(), TableFault>
    requires short { slot.now.sizes.packed ≤ MAX_PACKED }
    requires known { number < slot.now.sizes.counts.known }
    requires of { IsReaderOf slot.now Records reader.old }
    requires reading { IsReading reader.old (P.store store.old) }
    ensures near { IsNear slot.now (P.store store.new) (Some reader.new) }
    ensures cell { OnOk result (IsCellRead slot.now (P.store store.old) number into.new) }
    ensures same { OnErr result (into.new ≡ into.old) }
    ensures read { PagesRead (P.store store.old) (P.store store.new) }
    ensures cause { IfErr result (ReadCause IsNoTable slot.now (P.store store.old) (P.store store.new)) }
{
    if !find_key(store, reader, &number_key(number))? {
        return Err(TableFault::Damaged);
    }
    if fill_cell(reader.value(), slot.sizes.packed, into) {
        Ok(())
    } else {
        Err(TableFault::Damaged)
    }
}

/// The cell of a number; where the number follows the one before, by a reader, which is made if there is none.
pub fn cell_near<P: Pages>(
    store: &mut P,
    slot: &TreeSlot,
    near: &mut Option<Reader>,
    follows: bool,
    number: u32,
    into: &mut Cell,
) -> Result<(), TableFault>
    requires some { 1 ≤ slot.now.sizes.packed }
    requires short { slot.now.sizes.packed ≤ MAX_PACKED }
    requires known { number < slot.now.sizes.counts.known }
    requires near { IsNear slot.now (P.store store.old) near.old }
    ensures near { IsNear slot.now (P.store store.new) near.new }
    ensures cell { OnOk result (IsCellRead slot.now (P.store store.old) number into.new) }
    ensures same { OnErr result (into.new ≡ into.old) }
    ensures read { PagesRead (P.store store.old) (P.store store.new) }
    ensures cause { IfErr result (ReadCause IsNoTable slot.now (P.store store.old) (P.store store.new)) }
{
    if !follows {
        return cell_into(store, slot, number, into);
    }
    match near {
        Some(reader) => cell_by(store, slot, reader, number, into),
        None => {
            *near = Some(reader_of(slot, Tree::Records));
            cell_into(store, slot, number, into)
        }
    }
}

/// The number of a position, if it is known.
pub fn number_of<P: Pages>(
    store: &mut P,
    slot: &TreeSlot,
    packed: &Packed,
) -> Result<Option<u32>, TableFault>
    requires some { 1 ≤ slot.now.sizes.packed }
    requires short { slot.now.sizes.packed ≤ MAX_PACKED }
    ensures found { IsTrue (P.store store.old).disk.honest → (text : List ℕ) (table : Stored (List ℕ))
        → HasTable slot.now text table (P.store store.old)
        → IfOk result (λ r. IfSome r (λ i. slice_get table.positions i ≡ Some packed.now.items)) }
    ensures unknown { IsTrue (P.store store.old).disk.honest → (text : List ℕ) (table : Stored (List ℕ))
        → HasTable slot.now text table (P.store store.old)
        → IfOk result (λ r. IfNone r ((i : ℕ) → slice_get table.positions i ≡ Some packed.now.items → ⊥)) }
    ensures within { IfOk result (λ r. IfSome r (λ i. i < slot.now.sizes.counts.known)) }
    ensures read { PagesRead (P.store store.old) (P.store store.new) }
    ensures cause { IfErr result (ReadCause IsNoTable slot.now (P.store store.old) (P.store store.new)) }
{
    let mut value = Bytes::new();
    let known = value_into(store, slot, Tree::Positions, packed, &mut value)?;
    if !known {
        return Ok(None);
    }
    let Some(number) = number_in(&value) else {
        return Err(TableFault::Damaged);
    };
    if number < slot.sizes.counts.known {
        Ok(Some(number))
    } else {
        Err(TableFault::Damaged)
    }
}

/// Whether the number comes after the one given, if one was.
fn is_after(after: Option<u32>, number: u32) -> bool
    ensures { IsTrue result ↔ IsAfter after number }
{
    match after {
        Some(given) => given < number,
        None => true,
    }
}

/// The least number that leads to this one, or the least after the number given.
pub fn edge_after<P: Pages>(
    store: &mut P,
    slot: &TreeSlot,
    successor: u32,
    after: Option<u32>,
) -> Result<Option<u32>, TableFault>
    requires some { 1 ≤ slot.now.sizes.packed }
    requires short { slot.now.sizes.packed ≤ MAX_PACKED }
    requires few { slot.now.sizes.counts.known ≤ 16777216 }
    ensures next { IsTrue (P.store store.old).disk.honest → (text : List ℕ) (table : Stored (List ℕ))
        → HasTable slot.now text table (P.store store.old)
        → IfOk result (λ r. IfSome r (IsNextEdge table successor after)) }
    ensures none { IsTrue (P.store store.old).disk.honest → (text : List ℕ) (table : Stored (List ℕ))
        → HasTable slot.now text table (P.store store.old)
        → IfOk result (λ r. IfNone r (HasNoMoreEdges table successor after)) }
    ensures bounds { IfOk result (λ r. IfSome r (IsKnownAfter slot.now.sizes.counts.known after)) }
    ensures read { PagesRead (P.store store.old) (P.store store.new) }
    ensures cause { IfErr result (ReadCause IsNoTable slot.now (P.store store.old) (P.store store.new)) }
{
    let key = key_behind(successor, after);
    let mut entry = no_entry();
    let more = entry_after(store, slot, Tree::Edges, &key, &mut entry)?;
    if !more {
        return Ok(None);
    }
    let Some((next, predecessor)) = edge_in(&entry.key) else {
        return Err(TableFault::Damaged);
    };
    if next != successor {
        return Ok(None);
    }
    if predecessor >= slot.sizes.counts.known {
        return Err(TableFault::Damaged);
    }
    if is_after(after, predecessor) {
        Ok(Some(predecessor))
    } else {
        Err(TableFault::Damaged)
    }
}

/// The number at a place of the settled order.
pub fn settled_at<P: Pages>(store: &mut P, slot: &TreeSlot, place: u32) -> Result<u32, TableFault>
    requires some { 1 ≤ slot.now.sizes.packed }
    requires short { slot.now.sizes.packed ≤ MAX_PACKED }
    requires settled { place < slot.now.sizes.counts.settled }
    ensures number { IsTrue (P.store store.old).disk.honest → (text : List ℕ) (table : Stored (List ℕ))
        → HasTable slot.now text table (P.store store.old)
        → IfOk result (λ i. slice_get table.order place ≡ Some i) }
    ensures read { PagesRead (P.store store.old) (P.store store.new) }
    ensures cause { IfErr result (ReadCause IsNoTable slot.now (P.store store.old) (P.store store.new)) }
{
    let key = number_key(place);
    let mut value = Bytes::new();
    let settled = value_into(store, slot, Tree::Order, &key, &mut value)?;
    if !settled {
        return Err(TableFault::Damaged);
    }
    match number_in(&value) {
        Some(number) => Ok(number),
        None => Err(TableFault::Damaged),
    }
}
