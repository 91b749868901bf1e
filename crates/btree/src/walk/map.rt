//! The map below a root is walked.
ghost use Rattle.std.specs.Prelude.{◌++◌, ℕ, List, OnOk, IfErr, IsTrue};
ghost use Rattle.page_store.specs.Frames.{OnlyMarks};
ghost use Rattle.btree.specs.Page.{Item};
ghost use Rattle.btree.specs.Changes.{HoldsMap};
ghost use Rattle.btree.specs.Walks.{MarksPages, WalkCause};

use crate::find::Bytes;
use crate::page::Widths;
use crate::walk::below::walk_below;
use crate::walk::depth::depth_of;
use crate::walk::fault::WalkFault;
use crate::walk::visitor::Visitor;
use page_store::Pages;

/// Marks each page of the map below this root, and tells of each entry in order. `Damaged` where below the root is no map
/// all of whose pages wait, each once: all leaves at one depth, 24 levels at most, keys that ascend, and each inner
/// entry the smallest key of its child. It never closes the store.
pub fn walk<P: Pages, V: Visitor>(
    store: &mut P,
    widths: Widths,
    root: u32,
    visitor: &mut V,
) -> Result<(), WalkFault>
    ensures map { IsTrue (P.store store.old).disk.honest → OnOk result ((pages : List ℕ) × (es : List Item)
        × HoldsMap widths (P.store store.old) root pages es × MarksPages pages (P.store store.old) (P.store store.new)
        × ((before : List Item) → V.told visitor.old before → V.told visitor.new (before ++ es))) }
    ensures only { OnlyMarks (P.store store.old) (P.store store.new) }
    ensures cause { IfErr result (WalkCause widths root (V.refuses visitor.new) (V.told visitor.old)
        (P.store store.old) (P.store store.new)) }
{
    if root == 0 {
        return Ok(());
    }
    let depth = depth_of(store, widths, root)?;
    let mut last = Bytes::new();
    let _first = walk_below(store, widths, root, depth, &mut last, visitor)?;
    Ok(())
}
