//! What is done to the table on a disk, and how far the table is that is found there.

use audit::Verdict;
use game_file::GameFile;
use recover::TableFile;
use retrograde::Counts;
use sector_disk::{FlakyDisk, MemDisk};
use solver::FileSolver;
use std::alloc::Global;
use std::test::Fail;
use test_aids::TAKE;

/// The file of a table on a disk in memory, of which a call may fail. Tests have one type of disk, since a test of each further one takes
/// long to prove.
pub type InMemory = TableFile<FlakyDisk<MemDisk>>;

/// Sectors of the smallest disk that takes a table.
const SECTORS: u64 = 128;

/// How far the table is where the game of takes was just loaded,
pub const LOADED: Counts = Counts {
    known: 1,
    expanded: 0,
    settled: 0,
    processed: 0,
};

/// and where seven units of it are worked.
pub const WORKED: Counts = Counts {
    known: 7,
    expanded: 7,
    settled: 2,
    processed: 0,
};

/// Makes the empty table on this disk.
fn created<F: GameFile>(alloc: Global, disk: F::Device) -> Result<FileSolver<F>, Fail>
where
    F::Device: Drop,
{
    match FileSolver::create(alloc, disk) {
        Ok(solver) => Ok(solver),
        Err(_) => Err("no table was made".into()),
    }
}

/// Opens the table of this disk.
pub fn opened<F: GameFile>(alloc: Global, disk: F::Device) -> Result<FileSolver<F>, Fail>
where
    F::Device: Drop,
{
    match FileSolver::open(alloc, disk) {
        Ok(solver) => Ok(solver),
        Err(_) => Err("the table was refused".into()),
    }
}

/// How far the table is.
pub fn status<F: GameFile>(solver: &FileSolver<F>) -> Option<Counts> {
    solver.status()
}

/// Makes the empty table on this disk, and gives the disk back.
fn with_empty<F: GameFile>(alloc: Global, disk: F::Device) -> Result<F::Device, Fail>
where
    F::Device: Drop,
{
    Ok(created::<F>(alloc, disk)?.close())
}

/// Loads the game of takes into the table of this disk, and gives the disk back.
fn with_take<F: GameFile>(alloc: Global, disk: F::Device) -> Result<F::Device, Fail>
where
    F::Device: Drop,
{
    let mut solver = opened::<F>(alloc, disk)?;
    let loaded = solver.load(TAKE.as_bytes(), None);
    let disk = solver.close();
    loaded?;
    Ok(disk)
}

/// How far the table on this disk is.
fn status_in<F: GameFile>(alloc: Global, disk: F::Device) -> Result<Option<Counts>, Fail>
where
    F::Device: Drop,
{
    let solver = opened::<F>(alloc, disk)?;
    let status = status(&solver);
    let _disk = solver.close();
    Ok(status)
}

/// What the audit says of the table on this disk.
fn verdict_in<F: GameFile>(alloc: Global, disk: F::Device) -> Result<Verdict, Fail>
where
    F::Device: Drop,
{
    let mut solver = opened::<F>(alloc, disk)?;
    let verdict = solver.audit();
    let _disk = solver.close();
    Ok(verdict?)
}

/// A disk of which no call fails.
pub fn unfailing(disk: MemDisk) -> FlakyDisk<MemDisk> {
    FlakyDisk::new(disk, u64::MAX, false)
}

/// A new disk with the empty table.
pub fn empty_table(alloc: Global) -> Result<MemDisk, Fail> {
    let disk = unfailing(MemDisk::new(alloc, SECTORS)?);
    Ok(with_empty::<InMemory>(alloc, disk)?.into_inner())
}

/// A new disk with the game of takes, loaded.
pub fn take_table(alloc: Global) -> Result<MemDisk, Fail> {
    let disk = unfailing(empty_table(alloc)?);
    Ok(with_take::<InMemory>(alloc, disk)?.into_inner())
}

/// How far the table on this disk is.
fn status_on(alloc: Global, disk: MemDisk) -> Result<Option<Counts>, Fail> {
    status_in::<InMemory>(alloc, unfailing(disk))
}

/// Whether the audit says that the table on this disk is right.
pub fn is_right(alloc: Global, disk: MemDisk) -> Result<bool, Fail> {
    Ok(verdict_in::<InMemory>(alloc, unfailing(disk))? == Verdict::Right)
}

/// Whether the table is as far as one of these in each of the 256 images that a stop now leaves, and right in the first of them.
pub fn all_say(alloc: Global, disk: &MemDisk, allowed: &[Counts]) -> Result<bool, Fail> {
    for pick in 0..256 {
        let found = status_on(alloc, disk.after_stop(alloc, pick)?)?;
        if !allowed.iter().any(|one| Some(*one) == found) {
            return Ok(false);
        }
    }
    is_right(alloc, disk.after_stop(alloc, 0)?)
}
