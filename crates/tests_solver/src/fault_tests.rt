//! One disk call that fails, and what the solver answers then and later.

use crate::deeds::{InMemory, LOADED, WORKED, all_say, status, take_table};
use game_file::GameFile;
use sector_disk::{FlakyDisk, MemDisk};
use solver::{FileSolver, SolverFault, Units, Worked};
use std::alloc::Global;
use std::test::Fail;
use test_aids::expect;

/// The disk calls that open the table of the game of takes that is just loaded. Four find the root: a sync, the header, the gate and
/// the slot. A page is eight sectors, and four times a page is read: the text, the one leaf of the positions and that of the records,
/// which are in memory when they are looked at again; and, since no page is kept in memory once all are marked, the records once more
/// for the position of number 0.
const TO_OPEN: u64 = 4 + 8 * 4;

/// How many calls it takes to open the table with no page in memory: eight times a page is read. The text; the one leaf of the positions
/// twice, as the depth is found and as the tree is walked; that of the records twice; both once more as number 0 is looked at; and the
/// records again, for the position of number 0.
const TO_OPEN_UNCACHED: u64 = 4 + 8 * 8;

/// The disk calls of seven units, each of which expands a position, without those of the commit. Each tree is one leaf, or empty at
/// first. The leaf of the positions is read once, that of the records is in memory. There are 28 puts: each of the six positions that come
/// in is put into positions and records, each of the seven edges once, each of the seven records that are changed, and each of the two
/// numbers that are settled. Five write the eight sectors of their leaf: the first one into each of the four trees, and that of the record
/// of number 0, before which no entry stands. The others change a leaf where it stands, and write its first sector, in which all of its
/// entries lie.
const TO_WORK: u64 = 8 * (1 + 5) + (6 * 2 + 7 + 7 + 2 - 5);

/// How many calls the work takes with no page in memory. A look at a tree reads its page, and a put reads and writes it; the first edge
/// and the first settled number write alone. A unit reads the position (1 page; that of number 0 was seen as the table was
/// opened), looks for the number of each successor (1), puts a new one into positions and records (4), looks for its edge
/// and puts it (3), and puts the record of the position, whose cell it has seen (2); one that is settled is put into the order (2). So the positions 0 to 6 take 8, 19, 11, 15, 4, 11 and 5 pages.
const TO_WORK_UNCACHED: u64 = 8 * 73;

/// The disk calls of a commit: the gate is read, the slot is written and synced, and the gate is written and synced.
const TO_COMMIT: u64 = 5;

/// A disk with the table of the game of takes, just loaded, of which this call fails and is not carried out.
fn failing(alloc: Global, call: u64) -> Result<FlakyDisk<MemDisk>, Fail> {
    Ok(FlakyDisk::new(take_table(alloc)?, call, false))
}

/// The table of this disk with this many pages in memory, at most 64.
fn opened_with<F: GameFile>(
    alloc: Global,
    disk: F::Device,
    pages: usize,
) -> Result<FileSolver<F>, Fail>
where
    F::Device: Drop,
{
    match FileSolver::open_with_cache(alloc, disk, pages.min(64)) {
        Ok(solver) => Ok(solver),
        Err(_) => Err("the table was refused".into()),
    }
}

/// What is answered to seven units.
fn worked<F: GameFile>(solver: &mut FileSolver<F>) -> Result<Worked, SolverFault> {
    match Units::new(7) {
        Some(seven) => solver.work(seven),
        None => Err(SolverFault::NoGame),
    }
}

/// Why number 0 is not shown; nothing where it is.
fn unshown<F: GameFile>(solver: &mut FileSolver<F>) -> Option<SolverFault> {
    solver.show(0).err()
}

/// Works on a solver whose disk fails then: it is closed, works no more and shows nothing, and its table is as it was.
fn is_closed_by_work<F: GameFile>(solver: &mut FileSolver<F>, call: u64) -> Result<(), Fail> {
    let before = status(solver);
    expect(worked(solver), Err(SolverFault::Disk), call)?;
    expect(worked(solver), Err(SolverFault::Closed), call)?;
    expect(unshown(solver), Some(SolverFault::Closed), call)?;
    expect(status(solver), before, call)
}

/// Works over this disk, of which a call fails, as `closed_by_work` does; it gives the disk back.
fn closed_by_work_on<F: GameFile>(
    alloc: Global,
    disk: F::Device,
    call: u64,
) -> Result<F::Device, Fail>
where
    F::Device: Drop,
{
    let mut solver = opened_with::<F>(alloc, disk, 64)?;
    let told = is_closed_by_work(&mut solver, call);
    let disk = solver.close();
    told?;
    Ok(disk)
}

#[test]
fn after_a_failed_write_or_sync_all_is_closed_until_it_is_opened_again(
    rt: HostRuntime,
) -> Result<(), Fail> {
    let alloc = rt.alloc();
    // the first write of a page, after a read of one, and the last sync of the commit
    for call in [TO_OPEN + 8, TO_OPEN + TO_WORK + TO_COMMIT - 1] {
        let disk = closed_by_work_on::<InMemory>(alloc, failing(alloc, call)?, call)?.into_inner();
        expect(all_say(alloc, &disk, &[LOADED, WORKED])?, true, call)?;
    }
    Ok(())
}

/// Works on a solver whose disk fails in a read then, and works again: the table is as it was, and then worked.
fn works_at_the_second_try<F: GameFile>(solver: &mut FileSolver<F>, call: u64) -> Result<(), Fail> {
    let before = status(solver);
    expect(worked(solver), Err(SolverFault::Disk), call)?;
    expect(status(solver), before, call)?;
    let first = Worked {
        units: 7,
        counts: WORKED,
    };
    expect(worked(solver), Ok(first), call)
}

/// Works over this disk with this many pages in memory, as `worked_at_the_second_try` does; it gives the disk back.
fn worked_at_the_second_try_on<F: GameFile>(
    alloc: Global,
    disk: F::Device,
    pages: usize,
    call: u64,
) -> Result<F::Device, Fail>
where
    F::Device: Drop,
{
    let mut solver = opened_with::<F>(alloc, disk, pages)?;
    let told = works_at_the_second_try(&mut solver, call);
    let disk = solver.close();
    told?;
    Ok(disk)
}

#[test]
fn a_read_that_fails_within_work_changes_nothing(rt: HostRuntime) -> Result<(), Fail> {
    let alloc = rt.alloc();
    // the first page that is read, and once all is worked, the gate
    for (pages, call) in [
        (64, TO_OPEN),
        (64, TO_OPEN + TO_WORK),
        (0, TO_OPEN_UNCACHED),
        (0, TO_OPEN_UNCACHED + TO_WORK_UNCACHED),
    ] {
        let disk = failing(alloc, call)?;
        let disk = worked_at_the_second_try_on::<InMemory>(alloc, disk, pages, call)?.into_inner();
        expect(all_say(alloc, &disk, &[WORKED])?, true, (pages, call))?;
    }
    Ok(())
}
