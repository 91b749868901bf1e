//! A root of layout 3 is committed in the place of one of layout 1.
ghost use Rattle.std.specs.Prelude.{◌≡◌, false, None, Some, OnOk, IfErr};
ghost use Rattle.earlier_layouts.specs.declared.game.Game.{Game as Loaded};
ghost use Rattle.earlier_layouts.specs.Calls.{file_of, state_of};
ghost use Rattle.earlier_layouts.specs.File.{IsFile};
ghost use Rattle.earlier_layouts.specs.Held.{Stores};
ghost use Rattle.game_file.specs.State.{count_behind};
ghost use Rattle.page_store.specs.Store.{Store};
ghost use Rattle.game_file.specs.Fields.{commits_in, layout_in, SaysPages};
ghost use Rattle.tree_table.specs.Held.{StoresTrees};
ghost use Rattle.tree_table.specs.Slot.{IsEmptyTreeSlot};
ghost use Rattle.tree_file.specs.MoveCauses.{IsMoved, IsNotMoved};
ghost use Rattle.earlier_layouts.specs.lemmas.MovingSteps.{IsCopied, NewRootCause};

use game_file::{FileFault, put_long};
use page_store::Pages;
use tree_table::{TreeSlot, empty_slot, game_slot};

/// The layout that is written.
const LAYOUT: u32 = 3;

/// Commits the table that this slot names, in this many pages as there are and with this count of commits, in the place of that of layout 1
/// from which it was copied.
pub fn commit_slot<P: Pages>(store: &mut P, commits: u64, slot: &TreeSlot) -> Result<(), FileFault>
    ensures moved { (begun : Store) (game : Loaded) → IsCopied slot.now begun game (P.store store.old)
        → commits ≡ count_behind (commits_in begun.root)
        → OnOk result (IsMoved Stores (StoresTrees 3) (state_of (file_of begun (Some game)))
        (P.store store.new).disk (P.store store.new).failures) }
    ensures left { (begun : Store) (game : Loaded) → IsCopied slot.now begun game (P.store store.old)
        → IfErr result (IsNotMoved Stores (StoresTrees 3) (state_of (file_of begun (Some game)))
        (P.store store.new).disk (P.store store.new).failures) }
    ensures cause { IfErr result (NewRootCause (P.store store.old) (P.store store.new)) }
{
    let root = game_slot(LAYOUT, store.capacity(), commits, slot);
    match store.commit(&root) {
        Ok(()) => Ok(()),
        Err(fault) => Err(fault.into()),
    }
}

/// The slot of layout 3 and this many pages in which no game is loaded, after this many commits.
fn empty_root(pages: u32, commits: u64) -> [u8; 512]
    ensures layout { layout_in result ≡ 3 }
    ensures pages { SaysPages result pages }
    ensures empty { IsEmptyTreeSlot result }
    ensures commits { commits_in result ≡ commits }
{
    let mut root = empty_slot(LAYOUT, pages);
    put_long(&mut root, 8, commits);
    root
}

/// Commits the table of no game, in this many pages as there are and with this count of commits, in the place of that of layout 1.
pub fn commit_empty<P: Pages>(store: &mut P, commits: u64) -> Result<(), FileFault>
    requires whole { IsFile (file_of (P.store store.old) None) }
    requires open { (P.store store.old).closed ≡ false }
    requires commits { commits ≡ count_behind (commits_in (P.store store.old).root) }
    ensures moved { OnOk result (IsMoved Stores (StoresTrees 3) (state_of (file_of (P.store store.old) None))
        (P.store store.new).disk (P.store store.new).failures) }
    ensures left { IfErr result (IsNotMoved Stores (StoresTrees 3) (state_of (file_of (P.store store.old) None))
        (P.store store.new).disk (P.store store.new).failures) }
    ensures cause { IfErr result (NewRootCause (P.store store.old) (P.store store.new)) }
{
    let root = empty_root(store.capacity(), commits);
    match store.commit(&root) {
        Ok(()) => Ok(()),
        Err(fault) => Err(fault.into()),
    }
}
