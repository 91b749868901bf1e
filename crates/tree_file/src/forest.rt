//! The four trees of a table are walked.
ghost use Rattle.std.specs.Prelude.{◌≤◌, ℕ, List, OnOk, IfErr, IsTrue};
ghost use Rattle.page_store.specs.Frames.{OnlyMarks};
ghost use Rattle.btree.specs.Page.{Item};
ghost use Rattle.tree_table.specs.declared.tree.Tree.{Tree};
ghost use Rattle.tree_file.specs.Walked.{AreWalked, ForestCause};
ghost use Rattle.position_pack.specs.declared.limits.TheConstants.{MAX_PACKED};

use crate::one::walk_tree;
use page_store::{PageFault, Pages};
use tree_table::{Tree, TreeSlot};

/// Walks the four trees that this slot names: each of their pages waited, and is marked now. `Damaged` where below the
/// roots are no four trees on pages that wait, no page in two of them, with as many entries as the slot tells, and edges
/// between known numbers. It never closes the store.
pub fn walk_trees<P: Pages>(store: &mut P, slot: &TreeSlot) -> Result<(), PageFault>
    requires some { 1 ≤ slot.now.sizes.packed }
    requires short { slot.now.sizes.packed ≤ MAX_PACKED }
    ensures trees { IsTrue (P.store store.old).disk.honest → OnOk result ((pages : Tree → List ℕ) × (entries : Tree → List Item)
        × AreWalked slot.now pages entries (P.store store.old) (P.store store.new)) }
    ensures only { OnlyMarks (P.store store.old) (P.store store.new) }
    ensures cause { IfErr result (ForestCause slot.now (P.store store.old) (P.store store.new)) }
{
    walk_tree(store, slot, Tree::Positions)?;
    walk_tree(store, slot, Tree::Records)?;
    walk_tree(store, slot, Tree::Edges)?;
    walk_tree(store, slot, Tree::Order)
}
