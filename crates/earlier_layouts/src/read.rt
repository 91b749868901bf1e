//! All that the root of a file names is read.
ghost use Rattle.std.specs.Prelude.{◌≡◌, false, Some, IfOk, IfErr};
ghost use Rattle.page_store.specs.Frames.{IsReadOn, OnlyMarks};
ghost use Rattle.page_store.specs.Store.{StoreWorks};
ghost use Rattle.earlier_layouts.specs.Slot.{commits_in, Says, SaysGame};
ghost use Rattle.earlier_layouts.specs.File.{IsGame, AreGames, IsBacked, kept_of, pages_of};
ghost use Rattle.earlier_layouts.specs.ReadCauses.{GameReadCause};
ghost use Rattle.page_store.specs.Pages.{AllWait};
ghost use Rattle.earlier_layouts.specs.lemmas.FileReads.{IsReadFromPages};

use crate::bytes::{game_of, length_of};
use crate::game::{Game, Opened};
use crate::slot::{GameSlot, Slot, read_slot};
use page_chain::read_chain;
use page_store::{MIN_PAGES, PageFault, Pages};
use std::alloc::Global;

/// Reads all that the root of a store that was just opened names, marks its pages, and seals the store. `Damaged` where
/// slot and pages spell no table whose parts fit together. A stop meanwhile leaves what it could leave before.
pub fn read_all<P: Pages>(alloc: Global, store: &mut P) -> Result<Opened, PageFault>
    ensures games { IfOk result (λ opened. AreGames opened.game) }
    ensures commits { IfOk result (λ opened. opened.commits ≡ commits_in (P.store store.old).root) }
    ensures backed { (P.store store.old).closed ≡ false → AllWait (P.store store.old)
        → IfOk result (λ opened. IsBacked (P.store store.new) (pages_of opened.game) (kept_of opened.game)) }
    ensures on { IsReadOn (P.store store.old) (P.store store.new) }
    ensures works { IfErr result (λ _. StoreWorks (P.store store.old) (P.store store.new)) }
    ensures cause { IfErr result (GameReadCause (P.store store.old) (P.store store.new)) }
{
    if store.capacity() < MIN_PAGES {
        return Err(PageFault::Damaged);
    }
    let root = store.root();
    let Some(Slot { commits, game }) = read_slot(&root.bytes) else {
        return Err(PageFault::Damaged);
    };
    let game = read_named(alloc, store, game)?;
    store.seal();
    Ok(Opened { commits, game })
}

/// Reads the game that the slot names, if one.
fn read_named<P: Pages>(
    alloc: Global,
    store: &mut P,
    slot: Option<GameSlot>,
) -> Result<Option<Game>, PageFault>
    requires { Says (P.store store.old).root slot }
    ensures games { IfOk result AreGames }
    ensures only { OnlyMarks (P.store store.old) (P.store store.new) }
    ensures read { IfOk result (λ game. IsReadFromPages (pages_of game) (kept_of game) (P.store store.old) (P.store store.new)) }
    ensures cause { IfErr result (GameReadCause (P.store store.old) (P.store store.new)) }
{
    match slot {
        None => Ok(None),
        Some(slot) => Ok(Some(read_game(alloc, store, &slot)?)),
    }
}

/// Reads a game's text and table from the chain that the slot names.
fn read_game<P: Pages>(alloc: Global, store: &mut P, slot: &GameSlot) -> Result<Game, PageFault>
    requires { SaysGame (P.store store.old).root slot.now }
    ensures game { IfOk result IsGame }
    ensures only { OnlyMarks (P.store store.old) (P.store store.new) }
    ensures read { IfOk result (λ game. IsReadFromPages (pages_of (Some game)) (kept_of (Some game)) (P.store store.old) (P.store store.new)) }
    ensures cause { IfErr result (GameReadCause (P.store store.old) (P.store store.new)) }
{
    let sizes = slot.sizes;
    let chain = read_chain(alloc, store, slot.first, length_of(&sizes))?;
    game_of(alloc, slot.packing, &sizes, chain)
}
