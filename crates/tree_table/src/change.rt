//! What a slot names is changed. The pages that it names stay as they are where the committed root needs them.
ghost use Rattle.std.specs.Prelude.{◌≡◌, ◌+◌, ◌*◌, ◌≤◌, ◌<◌, ℕ, List, Some, length, slice_get, IfOk, IfErr, IfSome, IfNone, IsTrue};
ghost use Rattle.btree.specs.Answers.{TellsNew};
ghost use Rattle.btree.specs.Page.{Item};
ghost use Rattle.page_store.specs.Frames.{PagesRead, PagesRefused};
ghost use Rattle.page_store.specs.Marks.{free_count};
ghost use Rattle.retrograde.specs.Changes.{fresh_record, with_position, with_record, with_edge, with_settled};
ghost use Rattle.table.specs.declared.fault.TableFault.TheVariants.{Disk, TableFull};
ghost use Rattle.table.specs.declared.limits.TheConstants.{PAGES_PER_ENTRY};
ghost use Rattle.tree_table.specs.Causes.{HasNoForest, HasNoTable, ChangeCause};
ghost use Rattle.tree_table.specs.Frames.{HasCell, IsChanged, IsPutIn};
ghost use Rattle.tree_table.specs.declared.tree.Tree.{Tree};
ghost use Rattle.tree_table.specs.Trees.{key_width, value_width, root_of, with_root};
ghost use Rattle.tree_table.specs.WorkTable.{HoldsForest};
ghost use Rattle.tree_table.specs.lemmas.Slots.{counts_with, recounted};
ghost use Rattle.position_pack.specs.declared.limits.TheConstants.{MAX_PACKED};

use crate::bytes::{Cell, cell_bytes, key_behind, number_key};
use crate::fault::table_fault;
use crate::slot::TreeSlot;
use crate::tree::{Tree, widths_of};
use btree::put::{put, put_new};
use page_store::Pages;
use position_pack::Packed;
use retrograde::{Counts, Record, State};
use table::TableFault;

/// The slot with this root of this tree.
fn slot_with(slot: TreeSlot, tree: Tree, root: u32) -> TreeSlot
    ensures { result ≡ record slot { roots = with_root slot.roots tree root } }
{
    TreeSlot {
        packing: slot.packing,
        goal: slot.goal,
        first: slot.first,
        sizes: slot.sizes,
        roots: slot.roots.with(tree, root),
    }
}

/// Puts this value at this key of this tree. Answers the slot with the tree's new root. The first entry of a tree takes one page.
fn put_in<P: Pages>(
    store: &mut P,
    slot: TreeSlot,
    tree: Tree,
    key: &[u8],
    value: &[u8],
) -> Result<TreeSlot, TableFault>
    requires some { 1 ≤ slot.sizes.packed }
    requires short { slot.sizes.packed ≤ MAX_PACKED }
    requires key { length key.now ≡ key_width slot.sizes.packed tree }
    requires value { length value.now ≡ value_width slot.sizes.packed tree }
    ensures ok { IfOk result (IsPutIn slot tree key.now value.now (P.store store.old) (P.store store.new)) }
    ensures err { IfErr result (PagesRefused Disk (ChangeCause HasNoForest slot) PAGES_PER_ENTRY (P.store store.old) (P.store store.new)) }
    ensures full { root_of slot.roots tree ≡ 0 → IfErr result (λ fault. fault ≡ TableFull → free_count (P.store store.old).marks ≡ 0) }
{
    let widths = widths_of(slot.sizes.packed, tree);
    match put(store, widths, slot.roots.root(tree), key, value) {
        Ok(root) => Ok(slot_with(slot, tree, root)),
        Err(fault) => Err(table_fault(fault)),
    }
}

/// Puts this value at this key of this tree, if the tree does not have the key. Answers the slot with the tree's new root, and none where
/// it has the key, which leaves all as it was.
fn put_new_in<P: Pages>(
    store: &mut P,
    slot: TreeSlot,
    tree: Tree,
    key: &[u8],
    value: &[u8],
) -> Result<Option<TreeSlot>, TableFault>
    requires some { 1 ≤ slot.sizes.packed }
    requires short { slot.sizes.packed ≤ MAX_PACKED }
    requires key { length key.now ≡ key_width slot.sizes.packed tree }
    requires value { length value.now ≡ value_width slot.sizes.packed tree }
    ensures told { IsTrue (P.store store.old).disk.honest → (text : List ℕ) (entries : Tree → List Item)
        → HoldsForest slot text entries (P.store store.old) → IfOk result (TellsNew (entries tree) key.now) }
    ensures ok { IfOk result (λ next. IfSome next (IsPutIn slot tree key.now value.now (P.store store.old) (P.store store.new))) }
    ensures left { IfOk result (λ next. IfNone next (PagesRead (P.store store.old) (P.store store.new))) }
    ensures err { IfErr result (PagesRefused Disk (ChangeCause HasNoForest slot) PAGES_PER_ENTRY (P.store store.old) (P.store store.new)) }
{
    let widths = widths_of(slot.sizes.packed, tree);
    match put_new(store, widths, slot.roots.root(tree), key, value) {
        Ok(None) => Ok(None),
        Ok(Some(root)) => Ok(Some(slot_with(slot, tree, root))),
        Err(fault) => Err(table_fault(fault)),
    }
}

/// The record of a position that is known and no more.
pub fn fresh() -> Record
    ensures { result ≡ fresh_record }
{
    Record {
        state: State::Known,
        winner: None,
        distance: 0,
        left: 0,
        successors: 0,
    }
}

/// Adds a position, which has as many bytes as the others, with the next number. The first one takes two pages.
pub fn add_position<P: Pages>(
    store: &mut P,
    slot: TreeSlot,
    packed: &Packed,
) -> Result<TreeSlot, TableFault>
    requires some { 1 ≤ slot.sizes.packed }
    requires short { slot.sizes.packed ≤ MAX_PACKED }
    requires room { slot.sizes.counts.known < 16777216 }
    requires long { length packed.now.items ≡ slot.sizes.packed }
    ensures ok { IfOk result (IsChanged (PAGES_PER_ENTRY * 2) (slot.sizes.counts.known + 1)
        (λ table. (i : ℕ) → slice_get table.positions i ≡ Some packed.now.items → ⊥) (λ table. with_position table packed.now.items) slot
        (P.store store.old) (P.store store.new)) }
    ensures err { IfErr result (PagesRefused Disk (ChangeCause HasNoTable slot) (PAGES_PER_ENTRY * 2) (P.store store.old) (P.store store.new)) }
    ensures full { slot.roots.positions ≡ 0 → slot.roots.records ≡ 0
        → IfErr result (λ fault. fault ≡ TableFull → free_count (P.store store.old).marks < 2) }
{
    let number = slot.sizes.counts.known;
    let key = number_key(number);
    let slot = put_in(store, slot, Tree::Positions, packed, &key)?;
    let cell = cell_bytes(packed, &fresh());
    let mut slot = put_in(store, slot, Tree::Records, &key, &cell)?;
    slot.sizes.counts.known = number + 1;
    Ok(slot)
}

/// How many there are, once one that was counted or not is counted or not.
fn recounted(count: u32, was: bool, is: bool) -> u32
    ensures { result ≡ recounted count was is }
{
    match (was, is) {
        (true, false) => count.saturating_sub(1),
        (false, true) => count.saturating_add(1),
        _ => count,
    }
}

/// The counts, once a record that was in the one state is in the other.
fn counts_with(counts: Counts, was: State, is: State) -> Counts
    ensures { result ≡ counts_with counts was is }
{
    Counts {
        known: counts.known,
        expanded: recounted(counts.expanded, was.is_expanded(), is.is_expanded()),
        settled: counts.settled,
        processed: recounted(counts.processed, was.is_processed(), is.is_processed()),
    }
}

/// Writes the record of a number, whose cell this was.
pub fn set_record<P: Pages>(
    store: &mut P,
    slot: TreeSlot,
    number: u32,
    was: &Cell,
    kept: Record,
) -> Result<TreeSlot, TableFault>
    requires some { 1 ≤ slot.sizes.packed }
    requires short { slot.sizes.packed ≤ MAX_PACKED }
    requires few { slot.sizes.counts.known ≤ 16777216 }
    requires known { number < slot.sizes.counts.known }
    requires long { length was.now.position.items ≡ slot.sizes.packed }
    ensures ok { IfOk result (IsChanged PAGES_PER_ENTRY slot.sizes.counts.known (HasCell number was.now) (λ table. with_record table number kept) slot
        (P.store store.old) (P.store store.new)) }
    ensures err { IfErr result (PagesRefused Disk (ChangeCause HasNoTable slot) PAGES_PER_ENTRY (P.store store.old) (P.store store.new)) }
{
    let key = number_key(number);
    let cell = cell_bytes(&was.position, &kept);
    let mut slot = put_in(store, slot, Tree::Records, &key, &cell)?;
    slot.sizes.counts = counts_with(slot.sizes.counts, was.kept.state, kept.state);
    Ok(slot)
}

/// Adds an edge, which may be there already.
pub fn add_edge<P: Pages>(
    store: &mut P,
    slot: TreeSlot,
    successor: u32,
    predecessor: u32,
) -> Result<TreeSlot, TableFault>
    requires some { 1 ≤ slot.sizes.packed }
    requires short { slot.sizes.packed ≤ MAX_PACKED }
    requires few { slot.sizes.counts.known ≤ 16777216 }
    requires successor { successor < slot.sizes.counts.known }
    requires predecessor { predecessor < slot.sizes.counts.known }
    ensures ok { IfOk result (IsChanged PAGES_PER_ENTRY slot.sizes.counts.known (λ table. Unit {0}) (λ table. with_edge table successor predecessor) slot
        (P.store store.old) (P.store store.new)) }
    ensures counts { IfOk result (λ next. next.sizes.counts ≡ slot.sizes.counts) }
    ensures err { IfErr result (PagesRefused Disk (ChangeCause HasNoTable slot) PAGES_PER_ENTRY (P.store store.old) (P.store store.new)) }
{
    let key = key_behind(successor, Some(predecessor));
    let put = put_new_in(store, slot, Tree::Edges, &key, &[])?;
    match put {
        None => Ok(slot),
        Some(mut next) => {
            next.sizes.edges = next.sizes.edges.saturating_add(1);
            Ok(next)
        }
    }
}

/// Puts a number after the settled order.
pub fn push_settled<P: Pages>(
    store: &mut P,
    slot: TreeSlot,
    number: u32,
) -> Result<TreeSlot, TableFault>
    requires some { 1 ≤ slot.sizes.packed }
    requires short { slot.sizes.packed ≤ MAX_PACKED }
    requires few { slot.sizes.counts.known ≤ 16777216 }
    requires settled { slot.sizes.counts.settled < slot.sizes.counts.known }
    ensures ok { IfOk result (IsChanged PAGES_PER_ENTRY slot.sizes.counts.known (λ table. Unit {0}) (λ table. with_settled table number) slot
        (P.store store.old) (P.store store.new)) }
    ensures err { IfErr result (PagesRefused Disk (ChangeCause HasNoTable slot) PAGES_PER_ENTRY (P.store store.old) (P.store store.new)) }
{
    let place = slot.sizes.counts.settled;
    let key = number_key(place);
    let value = number_key(number);
    let mut slot = put_in(store, slot, Tree::Order, &key, &value)?;
    slot.sizes.counts.settled = place + 1;
    Ok(slot)
}
