//! A file of layout 1, opened.
ghost use Rattle.std.specs.Prelude.{◌≡◌, IfOk, IfErr};
ghost use Rattle.game_file.specs.Calls.{IsOpenedFile, IsNotOpened};
ghost use Rattle.game_file.specs.Causes.{FileOpenCause};
ghost use Rattle.game_file.specs.Kept.{in_any};
ghost use Rattle.earlier_layouts.specs.Calls.{state_of};
ghost use Rattle.earlier_layouts.specs.File.{IsFile};
ghost use Rattle.earlier_layouts.specs.Held.{Stores, IsOlder};
ghost use Rattle.earlier_layouts.specs.Slot.{commits_in};

use crate::game::Game;
use crate::read::read_all;
use game_file::Refused;
use page_store::{MOST_CACHED, PageStore, Pages};
use sector_disk::SectorDisk;
use std::alloc::Global;

/// A file of layout 1 that is open, with all that it keeps in memory.
#[derive(Drop)]
pub struct FlatTable<D: SectorDisk> {
    /// Its pages.
    pub store: PageStore<D>,
    /// Commits since the file was made, as its root tells them.
    pub commits: u64,
    /// The text, the packing and the table, where a game is loaded, and the pages that hold them.
    pub game: Option<Game>,
    ghost counted: { commits ≡ commits_in store.root.bytes },
}

impl<D: SectorDisk> FlatTable<D> {
    ghost use Rattle.earlier_layouts.specs.InFile.{file_in};

    /// Reads the whole table that this disk stores, after a sync: E1, E2, E4, E8. Nothing is written. Whether the text is a game and the
    /// positions are its it does not ask.
    pub fn open(alloc: Global, disk: D) -> Result<Self, Refused<D>>
        ensures whole { IfOk result (λ t. IsFile (file_in t)) }
        ensures ok { IfOk result (λ t. IsOpenedFile Stores (D.disk disk) (D.failures disk) (state_of (file_in t))) }
        ensures refused { IfErr result (λ back. IsNotOpened (D.disk disk) (D.failures disk) (D.disk back.disk) (D.failures back.disk)) }
        ensures cause { IfErr result (λ back. FileOpenCause (in_any Stores) IsOlder (D.disk disk) (D.failures disk)
            (D.failures back.disk) back.fault) }
    {
        let mut store = match PageStore::open_with_cache(alloc, disk, MOST_CACHED) {
            Ok(store) => store,
            Err(refused) => {
                return Err(Refused {
                    disk: refused.disk,
                    fault: refused.fault.into(),
                });
            }
        };
        match read_all(alloc, &mut store) {
            Ok(opened) => Ok(FlatTable {
                store,
                commits: opened.commits,
                game: opened.game,
            }),
            Err(fault) => Err(Refused {
                disk: store.into_disk(),
                fault: fault.into(),
            }),
        }
    }
}
