//! One of the four trees is walked.
ghost use Rattle.std.specs.Prelude.{◌≡◌, ◌≤◌, ℕ, List, OnOk, IfErr, IsTrue};
ghost use Rattle.page_store.specs.Frames.{OnlyMarks};
ghost use Rattle.btree.specs.Page.{Item};
ghost use Rattle.tree_table.specs.declared.tree.Tree.TheVariants.{Edges};
ghost use Rattle.tree_file.specs.lemmas.One.{CountIs, EdgesAre, IsAsMany, IsWalkedTree, TreeCause, fault_of};
ghost use Rattle.position_pack.specs.declared.limits.TheConstants.{MAX_PACKED};

use crate::count::Count;
use crate::edges::EdgeCount;
use btree::walk::{WalkFault, walk};
use page_store::{PageFault, Pages};
use tree_table::{Tree, TreeSlot, widths_of};

/// Why a tree is not walked: an entry that was refused stands in no tree of a table.
fn page_fault(fault: WalkFault) -> PageFault
    ensures { result ≡ fault_of fault }
{
    match fault {
        WalkFault::Store(fault) => fault,
        WalkFault::Refused => PageFault::Damaged,
    }
}

/// Walks this tree, and looks that it has this many entries.
fn walk_counted<P: Pages>(
    store: &mut P,
    slot: &TreeSlot,
    tree: Tree,
    wanted: u64,
) -> Result<(), PageFault>
    requires some { 1 ≤ slot.now.sizes.packed }
    requires short { slot.now.sizes.packed ≤ MAX_PACKED }
    ensures tree { IsTrue (P.store store.old).disk.honest → OnOk result ((pages : List ℕ) × (es : List Item)
        × IsWalkedTree slot.now tree (CountIs wanted) pages es (P.store store.old) (P.store store.new)) }
    ensures only { OnlyMarks (P.store store.old) (P.store store.new) }
    ensures cause { IfErr result (TreeCause slot.now tree (CountIs wanted) (P.store store.old) (P.store store.new)) }
{
    let mut told = Count { count: 0 };
    let widths = widths_of(slot.sizes.packed, tree);
    if let Err(fault) = walk(store, widths, slot.roots.root(tree), &mut told) {
        return Err(page_fault(fault));
    }
    if told.count == wanted {
        Ok(())
    } else {
        Err(PageFault::Damaged)
    }
}

/// Walks the tree of the edges, and looks that there are this many, each between numbers below this one.
fn walk_edges<P: Pages>(
    store: &mut P,
    slot: &TreeSlot,
    wanted: u64,
    known: u32,
) -> Result<(), PageFault>
    requires some { 1 ≤ slot.now.sizes.packed }
    requires short { slot.now.sizes.packed ≤ MAX_PACKED }
    ensures tree { IsTrue (P.store store.old).disk.honest → OnOk result ((pages : List ℕ) × (es : List Item)
        × IsWalkedTree slot.now Edges (EdgesAre wanted known) pages es (P.store store.old) (P.store store.new)) }
    ensures only { OnlyMarks (P.store store.old) (P.store store.new) }
    ensures cause { IfErr result (TreeCause slot.now Edges (EdgesAre wanted known) (P.store store.old) (P.store store.new)) }
{
    let mut told = EdgeCount { count: 0, above: 0 };
    let widths = widths_of(slot.sizes.packed, Tree::Edges);
    if let Err(fault) = walk(store, widths, slot.roots.root(Tree::Edges), &mut told) {
        return Err(page_fault(fault));
    }
    if told.count == wanted && told.above <= u64::from(known) {
        Ok(())
    } else {
        Err(PageFault::Damaged)
    }
}

/// Walks this tree, and looks that it has as much as the slot tells.
pub fn walk_tree<P: Pages>(store: &mut P, slot: &TreeSlot, tree: Tree) -> Result<(), PageFault>
    requires some { 1 ≤ slot.now.sizes.packed }
    requires short { slot.now.sizes.packed ≤ MAX_PACKED }
    ensures tree { IsTrue (P.store store.old).disk.honest → OnOk result ((pages : List ℕ) × (es : List Item)
        × IsWalkedTree slot.now tree (IsAsMany slot.now.sizes tree) pages es (P.store store.old) (P.store store.new)) }
    ensures only { OnlyMarks (P.store store.old) (P.store store.new) }
    ensures cause { IfErr result (TreeCause slot.now tree (IsAsMany slot.now.sizes tree) (P.store store.old) (P.store store.new)) }
{
    let counts = slot.sizes.counts;
    match tree {
        Tree::Positions => walk_counted(store, slot, Tree::Positions, u64::from(counts.known)),
        Tree::Records => walk_counted(store, slot, Tree::Records, u64::from(counts.known)),
        Tree::Edges => walk_edges(store, slot, slot.sizes.edges, counts.known),
        Tree::Order => walk_counted(store, slot, Tree::Order, u64::from(counts.settled)),
    }
}
