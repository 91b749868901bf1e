//! Tables on disks in memory.

use crate::sectors::sector;
use game_file::GameFile;
use recover::TableFile;
use sector_disk::{MemDisk, SectorDisk};
use solver::{FileSolver, SolverFault, Units};
use std::alloc::Global;

/// A disk of this many sectors with the table of this game, after this many times 256 units of work, or fewer where it is finished.
pub fn worked(alloc: Global, text: &[u8], sectors: u64, times: u64) -> anyhow::Result<MemDisk> {
    Ok(worked_on::<TableFile<MemDisk>>(alloc, MemDisk::new(alloc, sectors)?, text, times)?)
}

/// Loads this game into an empty table on this disk, and works it as `worked` does.
fn worked_on<F: GameFile>(
    alloc: Global,
    disk: F::Device,
    text: &[u8],
    times: u64,
) -> Result<F::Device, SolverFault>
where
    F::Device: Drop,
{
    match FileSolver::<F>::create(alloc, disk) {
        Ok(mut solver) => {
            let done = load_and_work(&mut solver, text, times);
            let disk = solver.close();
            done?;
            Ok(disk)
        }
        Err(refused) => Err(refused.fault),
    }
}

/// Loads a game, and works this many times 256 units of it.
fn load_and_work<F: GameFile>(
    solver: &mut FileSolver<F>,
    text: &[u8],
    times: u64,
) -> Result<(), SolverFault> {
    solver.load(text, None)?;
    for _ in 0..times {
        if let Some(units) = Units::new(256) {
            solver.work(units)?;
        }
    }
    Ok(())
}

/// Puts a sector, if there is one of this number.
pub fn put_sector(disk: &mut MemDisk, at: u64, bytes: &[u8; 512]) -> anyhow::Result<()> {
    if at < disk.sectors() {
        disk.write(at, bytes)?;
    }
    Ok(())
}

/// A disk with the first of this one's sectors.
pub fn cut(alloc: Global, disk: &mut MemDisk, sectors: u64) -> anyhow::Result<MemDisk> {
    let mut less = MemDisk::new(alloc, sectors)?;
    for at in 0..sectors {
        put_sector(&mut less, at, &sector(disk, at)?)?;
    }
    less.sync()?;
    Ok(less)
}
