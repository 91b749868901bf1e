//! What is found on a disk after a stop.

use crate::power_failures::named::told_pages;
use crate::power_failures::sweep::TELLING;
use audit::Verdict;
use game_file::GameFile;
use recover::TableFile;
use retrograde::Counts;
use sector_disk::MemDisk;
use solver::{FileSolver, SolverFault};
use std::alloc::Global;

/// What is found on a disk.
#[derive(Clone, Copy, PartialEq, Eq, Debug)]
pub enum Standing {
    NoTable,
    /// The empty table.
    Empty,
    /// The game of takes as it is loaded.
    Loaded,
    /// The game of takes, loaded, with seven units worked.
    Worked,
    /// The game of takes as it is loaded, in a table of 64 pages; the others have 16.
    Grown,
    /// Something else.
    Other,
}

/// The game of takes as it is loaded.
const LOADED: Counts = Counts {
    known: 1,
    expanded: 0,
    settled: 0,
    processed: 0,
};

/// The counts once seven units are worked.
const WORKED: Counts = Counts {
    known: 7,
    expanded: 7,
    settled: 2,
    processed: 0,
};

/// What is found on this disk, of which the root tells this many pages.
fn found_on<F: GameFile>(alloc: Global, disk: F::Device, pages: u32) -> Standing
where
    F::Device: Drop,
{
    match FileSolver::<F>::open(alloc, disk) {
        Err(refused) if refused.fault == SolverFault::NotATable => Standing::NoTable,
        Err(_) => Standing::Other,
        Ok(solver) => {
            let standing = standing_of(solver.status(), pages);
            let _ = solver.close();
            standing
        }
    }
}

/// Which table has these counts and this many pages.
fn standing_of(counts: Option<Counts>, pages: u32) -> Standing {
    match (counts, pages) {
        (None, 16) => Standing::Empty,
        (Some(counts), 16) if counts == LOADED => Standing::Loaded,
        (Some(counts), 64) if counts == LOADED => Standing::Grown,
        (Some(counts), 16) if counts == WORKED => Standing::Worked,
        _ => Standing::Other,
    }
}

/// Whether the audit says that a table is right; one without a game is not audited.
fn is_right<F: GameFile>(solver: &mut FileSolver<F>) -> Result<bool, SolverFault> {
    if solver.status().is_none() {
        return Ok(true);
    }
    Ok(solver.audit()? == Verdict::Right)
}

/// Whether the table that a stop now leaves is right.
pub fn is_right_on(alloc: Global, disk: &MemDisk) -> anyhow::Result<bool> {
    Ok(is_right_in::<TableFile<MemDisk>>(alloc, disk.after_stop(alloc, 0)?, 64)?)
}

/// Whether the table of this disk is right, with this many of its pages, 64 at most, in memory.
pub fn is_right_in<F: GameFile>(
    alloc: Global,
    disk: F::Device,
    pages: usize,
) -> Result<bool, SolverFault>
where
    F::Device: Drop,
{
    match FileSolver::<F>::open_with_cache(alloc, disk, pages.min(64)) {
        Ok(mut solver) => {
            let is_right = is_right(&mut solver);
            let _ = solver.close();
            is_right
        }
        Err(refused) => Err(refused.fault),
    }
}

/// Whether one of these is found on each of the first 256 images that a stop now leaves.
pub fn first_stand(alloc: Global, disk: &MemDisk, allowed: &[Standing]) -> anyhow::Result<bool> {
    for pick in 0..256 {
        if !stands(alloc, disk.after_stop(alloc, pick)?, allowed)? {
            return Ok(false);
        }
    }
    Ok(true)
}

/// Whether one of these is found on each of the images that tell all others.
pub fn telling_stand(alloc: Global, disk: &MemDisk, allowed: &[Standing]) -> anyhow::Result<bool> {
    for pick in TELLING {
        if !stands(alloc, disk.after_stop(alloc, pick)?, allowed)? {
            return Ok(false);
        }
    }
    Ok(true)
}

/// Whether one of these is found on this image.
fn stands(alloc: Global, image: MemDisk, allowed: &[Standing]) -> anyhow::Result<bool> {
    let mut image = image;
    let pages = told_pages(&mut image)?;
    Ok(allowed.contains(&found_on::<TableFile<MemDisk>>(alloc, image, pages)))
}
