//! A table is opened.
ghost use Rattle.std.specs.Prelude.{IfOk};
ghost use Rattle.sector_disk.specs.Disk.{GoesOn};
ghost use Rattle.solver.specs.Solvers.{state};

use game_file::GameFile;
use headline::SavedTable;
use sector_disk::{MemDisk, SectorDisk};
use solver::{FileSolver, Refused};
use std::alloc::Global;

/// `ok` of `FileSolver::open`, and of that the disk that it goes on from.
pub fn open_on<F: GameFile<Device = MemDisk>>(
    alloc: Global,
    on: MemDisk,
) -> Result<FileSolver<F>, Refused<MemDisk>>
    ensures { IfOk result (λ solver. GoesOn (⟦<MemDisk as SectorDisk>⟧.disk on) (state solver).disk) }
{
    FileSolver::open(alloc, on)
}

/// `opened` of `SavedTable::open`, beside a table that is open.
pub fn open_saved<S: SavedTable>(
    alloc: Global,
    left: S::Device,
    beside: &mut S,
) -> Result<S, Refused<S::Device>>
    ensures { IfOk result (S.calls.opened (S.Device.disk left)) }
{
    let _units = beside.status();
    S::open(alloc, left)
}

/// `opened` of `SavedTable::open`, and of that the disk that it goes on from, by its `lawful`.
pub fn open_saved_on<S: SavedTable<Device = MemDisk>>(
    alloc: Global,
    found: MemDisk,
) -> Result<S, Refused<MemDisk>>
    ensures { IfOk result (λ table. GoesOn (⟦<MemDisk as SectorDisk>⟧.disk found) (S.calls.disk table)) }
{
    S::open(alloc, found)
}
