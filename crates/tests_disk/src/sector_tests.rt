//! What the disks answer (`sector_disk`): each is run at its own type, through the trait's bound.

use crate::scripts::{Answer, Deed, Script, run};
use Answer::{Count, Done, Fault, Halves, NotThere};
use Deed::{Extend, Read, Sectors, Sync, Write};
use sector_disk::{FlakyDisk, FuseDisk, MemDisk, SectorDisk};
use std::alloc::Global;
use std::test::Fail;

/// Runs a script on what a stop leaves of a disk.
fn run_after_stop(alloc: Global, disk: &MemDisk, pick: u64, script: Script) -> Result<(), Fail> {
    run(&mut disk.after_stop(alloc, pick)?, script)
}

/// Sector 1 is synced, and the others are written since, sector 0 twice.
const PARTLY_SYNCED: Script = &[
    (Write(1, 10), Done),
    (Sync, Done),
    (Write(3, 5), Done),
    (Write(0, 6), Done),
    (Write(0, 7), Done),
    (Write(2, 9), Done),
];

/// What stops leave of it. The sectors 0, 2 and 3 are not synced. 57 is 1 + 2 * 4 + 3 * 16, and 57 / 4 is 14. 1023 has the
/// digit 3 five times, and 1023 / 4 is 255.
const LEFT: [(u64, Script); 3] = [
    (
        57,
        &[
            (Read(0), Halves(7, 7)),
            (Read(1), Halves(10, 10)),
            (Read(2), Halves(9, 0)),
            (Read(3), Halves(17, 17)),
        ],
    ),
    (0, &[(Read(0), Halves(0, 0)), (Read(1), Halves(10, 10))]),
    (
        1023,
        &[
            (Read(0), Halves(255, 255)),
            (Read(1), Halves(10, 10)),
            (Read(2), Halves(1, 1)),
        ],
    ),
];

#[test]
fn a_stop_leaves_what_the_digits_pick(rt: HostRuntime) -> Result<(), Fail> {
    let mut disk = MemDisk::new(rt.alloc(), 4)?;
    run(&mut disk, PARTLY_SYNCED)?;
    for (pick, script) in LEFT {
        run_after_stop(rt.alloc(), &disk, pick, script)?;
    }
    Ok(())
}

/// Writes threes all over this many sectors.
fn fill<D: SectorDisk>(disk: &mut D, sectors: u64) -> Result<(), Fail> {
    for at in 0..sectors {
        run(disk, &[(Write(at, 3), Done)])?;
    }
    Ok(())
}

/// What the pick 5, which is 1 + 1 * 4, leaves of 34 sectors of threes.
const AFTER_THIRTY_TWO: Script = &[
    (Read(0), Halves(3, 3)),
    (Read(1), Halves(3, 3)),
    (Read(2), Halves(0, 0)),
    (Read(31), Halves(0, 0)),
    (Read(32), Halves(3, 3)),
    (Read(33), Halves(3, 3)),
];

#[test]
fn digits_begin_again_after_thirty_two(rt: HostRuntime) -> Result<(), Fail> {
    let mut disk = MemDisk::new(rt.alloc(), 34)?;
    fill(&mut disk, 34)?;
    run_after_stop(rt.alloc(), &disk, 5, AFTER_THIRTY_TWO)
}

/// Two sectors, of which the first is written, and two more.
const LONGER: Script = &[
    (Write(0, 7), Done),
    (Extend(2), NotThere),
    (Extend(4), Done),
    (Sectors, Count(4)),
    (Read(0), Halves(7, 7)),
    (Read(3), Halves(0, 0)),
    (Write(2, 9), Done),
];

/// What stops leave of it. The sectors 0, 2 and 3 are not synced, and 2 and 3 are new. 9 is 1 + 2 * 4, 21 is 1 + 4 + 16, and 53 is
/// 1 + 4 + 3 * 16, of which a quarter is 13.
const SHORTENED: [(u64, Script); 5] = [
    (0, &[(Sectors, Count(2)), (Read(0), Halves(0, 0))]),
    (
        5,
        &[
            (Sectors, Count(3)),
            (Read(0), Halves(7, 7)),
            (Read(2), Halves(9, 9)),
        ],
    ),
    (9, &[(Sectors, Count(3)), (Read(2), Halves(9, 0))]),
    (
        21,
        &[
            (Sectors, Count(4)),
            (Read(2), Halves(9, 9)),
            (Read(3), Halves(0, 0)),
        ],
    ),
    (53, &[(Sectors, Count(4)), (Read(3), Halves(16, 16))]),
];

#[test]
fn a_stop_loses_a_new_end_keeps_it_or_leaves_a_part(rt: HostRuntime) -> Result<(), Fail> {
    let mut disk = MemDisk::new(rt.alloc(), 2)?;
    run(&mut disk, LONGER)?;
    for (pick, script) in SHORTENED {
        run_after_stop(rt.alloc(), &disk, pick, script)?;
    }
    run(&mut disk, &[(Sync, Done)])?;
    run_after_stop(rt.alloc(), &disk, 0, &[(Sectors, Count(4))])
}

#[test]
fn a_fuse_passes_as_many_calls_as_it_was_given(rt: HostRuntime) -> Result<(), Fail> {
    let passes = [
        (Write(1, 7), Done),
        (Sync, Done),
        (Read(1), Fault),
        (Write(1, 9), Fault),
    ];
    let burnt = [
        (Write(1, 7), Fault),
        (Sync, Fault),
        (Read(1), Fault),
        (Write(1, 9), Fault),
    ];
    let mut fuse = FuseDisk::new(MemDisk::new(rt.alloc(), 2)?, 2);
    run(&mut fuse, &passes)?;
    let mut inner = fuse.into_inner();
    run(&mut inner, &[(Read(1), Halves(7, 7))])?;
    run(&mut FuseDisk::new(inner, 0), &burnt)
}

/// A call that fails, whether it is carried out first, what is answered then, and what a stop leaves that puts each sector
/// back as it was synced.
const FLAKY: [(u64, bool, Script, Script); 6] = [
    (
        0,
        false,
        &[(Extend(4), Fault), (Sectors, Count(2)), (Extend(3), Done)],
        &[(Sectors, Count(2))],
    ),
    (
        0,
        true,
        &[(Extend(4), Fault), (Sectors, Count(4)), (Sync, Done)],
        &[(Sectors, Count(4))],
    ),
    (
        0,
        false,
        &[(Write(1, 7), Fault), (Read(1), Halves(0, 0))],
        &[(Read(1), Halves(0, 0))],
    ),
    (
        0,
        true,
        &[(Write(1, 8), Fault), (Read(1), Halves(8, 8))],
        &[(Read(1), Halves(0, 0))],
    ),
    (
        1,
        false,
        &[
            (Write(1, 7), Done),
            (Sync, Fault),
            (Read(1), Halves(7, 7)),
            (Write(1, 9), Done),
        ],
        &[(Read(1), Halves(0, 0))],
    ),
    (
        1,
        true,
        &[
            (Write(1, 7), Done),
            (Sync, Fault),
            (Read(1), Halves(7, 7)),
            (Write(1, 9), Done),
        ],
        &[(Read(1), Halves(7, 7))],
    ),
];

#[test]
fn one_call_fails_and_was_carried_out_or_not(rt: HostRuntime) -> Result<(), Fail> {
    for (at_call, done, script, left) in FLAKY {
        let mut disk = FlakyDisk::new(MemDisk::new(rt.alloc(), 2)?, at_call, done);
        run(&mut disk, script)?;
        run_after_stop(rt.alloc(), &disk.into_inner(), 0, left)?;
    }
    Ok(())
}
