//! A file of layout 1 becomes one of layout 3.
ghost use Rattle.std.specs.Prelude.{◌≡◌, false, None, Some, OnOk, IfOk, IfErr};
ghost use Rattle.earlier_layouts.specs.Calls.{file_of, state_of};
ghost use Rattle.earlier_layouts.specs.File.{IsFile};
ghost use Rattle.earlier_layouts.specs.Held.{Stores};
ghost use Rattle.earlier_layouts.specs.InFile.{file_in};
ghost use Rattle.game_file.specs.State.{count_behind};
ghost use Rattle.game_file.specs.Fields.{commits_in};
ghost use Rattle.tree_table.specs.Held.{StoresTrees};
ghost use Rattle.earlier_layouts.specs.MoveCauses.{MoveCause};
ghost use Rattle.tree_file.specs.MoveCauses.{IsMoved, IsNotMoved};

use crate::FlatTable;
use crate::committing::{commit_empty, commit_slot};
use crate::copying::{Attempt, copy_on, write_text};
use crate::game::Game;
use game_file::{FileFault, Refused};
use page_store::Pages;
use sector_disk::SectorDisk;
use std::alloc::Global;

/// Writes a game of layout 1 as one of layout 3, on free pages, and commits it.
fn move_game<P: Pages>(alloc: Global, store: P, commits: u64, game: Game) -> Attempt<P, ()>
    requires whole { IsFile (file_of (P.store store) (Some game)) }
    requires open { (P.store store).closed ≡ false }
    requires commits { commits ≡ count_behind (commits_in (P.store store).root) }
    ensures moved { OnOk result.result (IsMoved Stores (StoresTrees 3) (state_of (file_of (P.store store) (Some game)))
        (P.store result.store).disk (P.store result.store).failures) }
    ensures left { IfErr result.result (IsNotMoved Stores (StoresTrees 3) (state_of (file_of (P.store store) (Some game)))
        (P.store result.store).disk (P.store result.store).failures) }
    ensures cause { IfErr result.result (MoveCause (state_of (file_of (P.store store) (Some game))) (P.store result.store).failures) }
{
    let mut store = store;
    let Game {
        text,
        packing,
        packed,
        table,
        ..
    } = game;
    if packed == 0 {
        return Attempt {
            store,
            result: Err(FileFault::Inconsistent),
        };
    }
    let slot = match write_text(alloc, &mut store, &text, packing, packed) {
        Ok(slot) => slot,
        Err(fault) => {
            return Attempt {
                store,
                result: Err(fault),
            };
        }
    };
    let Attempt { store, result } = copy_on(store, slot, text, table);
    match result {
        Ok(slot) => {
            let mut store = store;
            let result = commit_slot(&mut store, commits, &slot);
            Attempt { store, result }
        }
        Err(fault) => Attempt {
            store,
            result: Err(fault),
        },
    }
}

/// Writes what a file of layout 1 keeps as a table of layout 3, and commits it.
fn move_table<P: Pages>(alloc: Global, store: P, commits: u64, game: Option<Game>) -> Attempt<P, ()>
    requires whole { IsFile (file_of (P.store store) game) }
    requires open { (P.store store).closed ≡ false }
    requires commits { commits ≡ count_behind (commits_in (P.store store).root) }
    ensures moved { OnOk result.result (IsMoved Stores (StoresTrees 3) (state_of (file_of (P.store store) game))
        (P.store result.store).disk (P.store result.store).failures) }
    ensures left { IfErr result.result (IsNotMoved Stores (StoresTrees 3) (state_of (file_of (P.store store) game))
        (P.store result.store).disk (P.store result.store).failures) }
    ensures cause { IfErr result.result (MoveCause (state_of (file_of (P.store store) game)) (P.store result.store).failures) }
{
    match game {
        Some(game) => move_game(alloc, store, commits, game),
        None => {
            let mut store = store;
            let result = commit_empty(&mut store, commits);
            Attempt { store, result }
        }
    }
}

/// Writes the table of a file of layout 1 as one of layout 3, on free pages, by one commit, and gives the disk back: with the same text,
/// packing, positions, records, edges and settled order, in as many pages, and with no goal. Until the commit only free pages are written,
/// so a stop leaves the old table.
///
/// E7 or E8: too few pages are free or memory is short, and the old table is there. E1: so it is, but that after a write or a sync it may
/// be the new one. S6: its positions have no bytes, as those of no game, and the old table is there.
pub fn rebuild<D: SectorDisk>(alloc: Global, file: FlatTable<D>) -> Result<D, Refused<D>>
    requires whole { IsFile (file_in file) }
    requires open { (file_in file).store.closed ≡ false }
    ensures moved { IfOk result (λ disk. IsMoved Stores (StoresTrees 3) (state_of (file_in file)) (D.disk disk) (D.failures disk)) }
    ensures left { IfErr result (λ back. IsNotMoved Stores (StoresTrees 3) (state_of (file_in file))
        (D.disk back.disk) (D.failures back.disk) back.fault) }
    ensures cause { IfErr result (λ back. MoveCause (state_of (file_in file)) (D.failures back.disk) back.fault) }
{
    let FlatTable {
        store,
        commits,
        game,
    } = file;
    let commits = commits.wrapping_add(1);
    let Attempt { store, result } = move_table(alloc, store, commits, game);
    let disk = store.into_disk();
    match result {
        Ok(()) => Ok(disk),
        Err(fault) => Err(Refused { disk, fault }),
    }
}
