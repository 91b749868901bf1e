//! A table gets more pages: what each growth is answered, and what is found where a disk call of it fails and the power stops.
ghost use Rattle.page_store.specs.Pages.{AllWait};

use crate::deeds::{InMemory, LOADED, empty_table, opened, status, take_table};
use game_file::GameFile;
use page_store::{PageStore, Pages};
use retrograde::Counts;
use sector_disk::{FlakyDisk, MemDisk};
use solver::SolverFault;
use std::alloc::Global;
use std::test::Fail;
use test_aids::expect;

/// The disk calls that open the table of the game of takes that is just loaded, as `fault_tests` counts them.
const TO_OPEN: u64 = 36;

/// The disk calls of a growth: the disk is made longer and synced; the gate is read, the slot is written and synced, and the gate is
/// written and synced. Up to the write of the gate the table has as many pages as before.
const TO_GROW: u64 = 7;

/// The call in a growth that writes the gate.
const GATE: u64 = 5;

/// What a stop leaves of what is not synced: nothing, so that a new end is lost; all as it was written, or filled, so that it is kept; or
/// of a longer disk the first twenty new sectors.
const PICKS: [u64; 4] = [
    0,
    0x5555_5555_5555_5555,
    0xFFFF_FFFF_FFFF_FFFF,
    0x55_5555_5555,
];

/// What a growth of the table on this disk to this many pages is answered; it gives the disk back.
fn grown_on<F: GameFile>(
    alloc: Global,
    disk: F::Device,
    pages: u32,
) -> Result<(Result<(), SolverFault>, F::Device), Fail>
where
    F::Device: Drop,
{
    let mut solver = opened::<F>(alloc, disk)?;
    let said = solver.grow(pages);
    Ok((said, solver.close()))
}

/// How far the table on this disk is, and whether it has 64 pages or more.
fn found_on<F: GameFile>(alloc: Global, disk: F::Device) -> Result<(Option<Counts>, bool), Fail>
where
    F::Device: Drop,
{
    let mut solver = opened::<F>(alloc, disk)?;
    let counts = status(&solver);
    let said = solver.grow(64);
    let _disk = solver.close();
    Ok((counts, said == Err(SolverFault::TooSmall)))
}

/// What a growth to this many pages is answered on this disk, no call of which fails.
fn grown(
    alloc: Global,
    disk: MemDisk,
    pages: u32,
) -> Result<(Result<(), SolverFault>, MemDisk), Fail> {
    let (said, disk) = grown_on::<InMemory>(alloc, FlakyDisk::new(disk, u64::MAX, false), pages)?;
    Ok((said, disk.into_inner()))
}

#[test]
fn a_table_gets_more_pages_and_never_fewer(rt: HostRuntime) -> Result<(), Fail> {
    let alloc = rt.alloc();
    let mut disk = take_table(alloc)?;
    let too_small = Err(SolverFault::TooSmall);
    let rows = [
        (16, too_small),
        (1_048_577, too_small),
        (64, Ok(())),
        (64, too_small),
        (63, too_small),
        (65, Ok(())),
    ];
    for (pages, wanted) in rows {
        let (said, back) = grown(alloc, disk, pages)?;
        expect(said, wanted, pages)?;
        disk = back;
    }
    let found = found_on::<InMemory>(alloc, FlakyDisk::new(disk, u64::MAX, false))?;
    expect(found, (Some(LOADED), true), 0)
}

/// How many pages are free in this store once it has as many as its root tells at byte 68, where no page is named.
fn free_in<P: Pages>(store: &mut P) -> u32
    requires { AllWait (P.store store.old) }
{
    let root = store.root().bytes;
    let pages = u32::from_be_bytes([root[68], root[69], root[70], root[71]]);
    if pages > 0 && pages <= store.capacity() {
        store.set_capacity(pages);
    }
    store.seal();
    store.free_pages()
}

/// How many pages are free in the store on this disk.
fn free_on(alloc: Global, disk: MemDisk) -> Result<u32, Fail> {
    match PageStore::open(alloc, disk) {
        Ok(mut store) => Ok(free_in(&mut store)),
        Err(refused) => Err(refused.fault.into()),
    }
}

/// All pages but the system page are free where no game is loaded: 15 of 16, and 63 of 64.
#[test]
fn an_empty_table_that_grew_has_its_new_pages_free(rt: HostRuntime) -> Result<(), Fail> {
    let alloc = rt.alloc();
    let (refused, disk) = grown(alloc, empty_table(alloc)?, 1_048_577)?;
    expect(refused, Err(SolverFault::TooSmall), 0)?;
    expect(free_on(alloc, disk.after_stop(alloc, 0)?)?, 15, 16)?;
    let (said, disk) = grown(alloc, disk, 64)?;
    expect(said, Ok(()), 64)?;
    expect(free_on(alloc, disk)?, 63, 64)
}

/// A stop in a growth to 64 pages, in which this call fails, leaves the same table, which has 16 pages until the gate is written.
fn is_left(alloc: Global, call: u64, done: bool, pick: u64) -> Result<(), Fail> {
    let disk = FlakyDisk::new(take_table(alloc)?, TO_OPEN.saturating_add(call), done);
    let (said, disk) = grown_on::<InMemory>(alloc, disk, 64)?;
    expect(said, Err(SolverFault::Disk), (call, done, pick))?;
    let left = disk.into_inner().after_stop(alloc, pick)?;
    let (counts, has_grown) = found_on::<InMemory>(alloc, FlakyDisk::new(left, u64::MAX, false))?;
    expect(counts, Some(LOADED), (call, done, pick))?;
    if call < GATE {
        expect(has_grown, false, (call, done, pick))?;
    }
    Ok(())
}

#[test]
fn a_stop_in_a_growth_leaves_the_table(rt: HostRuntime) -> Result<(), Fail> {
    for call in 0..TO_GROW {
        for pick in PICKS {
            is_left(rt.alloc(), call, false, pick)?;
            is_left(rt.alloc(), call, true, pick)?;
        }
    }
    Ok(())
}
