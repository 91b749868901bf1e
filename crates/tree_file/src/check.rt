//! The entries of four trees are looked at: the settled order, and then each number.
ghost use Rattle.std.specs.Prelude.{◌≤◌, ℕ, List, OnOk, IfErr, IsTrue};
ghost use Rattle.page_store.specs.Frames.{PagesRead};
ghost use Rattle.retrograde.specs.Stored.{Stored};
ghost use Rattle.game_file.specs.Numbers.{AreWithinLimits};
ghost use Rattle.btree.specs.Page.{Item};
ghost use Rattle.tree_table.specs.declared.tree.Tree.{Tree};
ghost use Rattle.tree_table.specs.WorkTable.{HoldsForest};
ghost use Rattle.tree_file.specs.Causes.{CheckEntriesCause};
ghost use Rattle.tree_file.specs.Counted.{AreAsMany};
ghost use Rattle.tree_file.specs.Spelled.{SpellTable};

use crate::number::check_number;
use crate::places::find_places;
use page_store::Pages;
use std::alloc::Global;
use table::TableFault;
use tree_table::{Tree, TreeSlot, reader_of};

/// Looks whether the four trees that this slot names spell a table whose parts fit together, as many as the slot says. That
/// there are as many entries, and each edge is between known numbers, has to be known.
pub fn check_entries<P: Pages>(
    alloc: Global,
    store: &mut P,
    slot: &TreeSlot,
) -> Result<(), TableFault>
    requires limits { AreWithinLimits slot.now.sizes }
    requires some { 1 ≤ slot.now.sizes.packed }
    ensures table { IsTrue (P.store store.old).disk.honest → (text : List ℕ) (entries : Tree → List Item)
        → HoldsForest slot.now text entries (P.store store.old) → AreAsMany slot.now.sizes entries
        → OnOk result ((table : Stored (List ℕ)) × SpellTable slot.now.sizes entries table) }
    ensures read { PagesRead (P.store store.old) (P.store store.new) }
    ensures cause { IfErr result (CheckEntriesCause slot.now (P.store store.old) (P.store store.new)) }
{
    let placed = find_places(alloc, store, slot)?;
    let mut reader = reader_of(slot, Tree::Records);
    for number in 0..slot.sizes.counts.known {
        check_number(store, slot, &mut reader, number, placed[number as usize])?;
    }
    Ok(())
}
