//! What `create`, `open` and `publish` do on each kind of disk (`root_pair`), with a fault of the device and a stop of the
//! power at each of their disk calls.

use crate::disks::{all_over, disk_over};
use file_disk::FileDisk;
use root_pair::{RootFault, create, open, publish};
use sector_disk::{FlakyDisk, FuseDisk, MemDisk, SectorDisk};
use std::alloc::Global;
use std::fs;
use std::fs::File;
use std::test::Fail;
use test_aids::expect;

/// What is done to a disk.
#[derive(Clone, Copy, Debug)]
enum Deed {
    /// `create`, with this byte all over the root.
    Create(u8),
    Open,
    /// `publish`, with this byte all over the root.
    Publish(u8),
    /// Sector 0 gets what a header begins with, and 255 after it.
    Header,
    /// Sector 1 gets this byte, and 0x5b after it.
    Gate(u8),
    /// This sector is read.
    Sector(u64),
}

use Deed::{Create, Gate, Header, Open, Publish, Sector};

/// The byte all over what is put, found or read; none where its bytes differ.
type Answer = Result<Option<u8>, RootFault>;

/// Deeds in turn, each with its answer.
type Script = &'static [(Deed, Answer)];

const TOO_SMALL: Answer = Err(RootFault::TooSmall);

const NO_TABLE: Answer = Err(RootFault::NotATable);

const A_TABLE: Answer = Err(RootFault::AlreadyATable);

/// Writes a sector of which the first bytes are these. Tells that there is no table where there is no such sector.
fn put<D: SectorDisk>(disk: &mut D, at: u64, first: &[u8], others: u8) -> Answer {
    let mut bytes = [others; 512];
    if at >= disk.sectors() || first.len() > 512 {
        return NO_TABLE;
    }
    bytes[..first.len()].copy_from_slice(first);
    disk.write(at, &bytes)?;
    Ok(Some(others))
}

/// The byte all over a sector.
fn sector<D: SectorDisk>(disk: &mut D, at: u64) -> Answer {
    let mut bytes = [0; 512];
    if at >= disk.sectors() {
        return NO_TABLE;
    }
    disk.read(at, &mut bytes)?;
    Ok(all_over(&bytes))
}

/// The byte all over the root that is found.
fn root_of<D: SectorDisk>(disk: &mut D) -> Answer {
    Ok(all_over(&open(disk)?.bytes))
}

/// What a deed answers. `publish` may be called only where there is room for a root.
fn answer_to<D: SectorDisk>(disk: &mut D, deed: Deed) -> Answer {
    match deed {
        Create(byte) => create(disk, &[byte; 512]).map(|()| Some(byte)),
        Open => root_of(disk),
        Publish(_) if disk.sectors() < 4 => TOO_SMALL,
        Publish(byte) => publish(disk, &[byte; 512]).map(|()| Some(byte)),
        Header => put(disk, 0, b"RBGTABLE", 255),
        Gate(byte) => put(disk, 1, &[byte], 0x5b),
        Sector(at) => sector(disk, at),
    }
}

/// Runs a script on a disk.
fn run<D: SectorDisk>(disk: &mut D, script: &[(Deed, Answer)]) -> Result<(), Fail> {
    for (deed, wanted) in script {
        expect(answer_to(disk, *deed), *wanted, *deed)?;
    }
    Ok(())
}

/// A table in whose first slot a root of sevens was put, and then one of eights in the other slot.
const A_TABLE_OF_TWO: Script = &[(Create(7), Ok(Some(7))), (Publish(8), Ok(Some(8)))];

/// Disks of this many sectors of zeros, and what is done to each.
const SCRIPTS: [(u64, Script); 7] = [
    (127, &[(Create(7), TOO_SMALL)]),
    (
        128,
        &[
            (Create(7), Ok(Some(7))),
            (Open, Ok(Some(7))),
            (Publish(8), Ok(Some(8))),
            (Open, Ok(Some(8))),
            (Publish(9), Ok(Some(9))),
            (Open, Ok(Some(9))),
        ],
    ),
    (0, &[(Open, NO_TABLE), (Create(7), TOO_SMALL)]),
    (128, &[(Open, NO_TABLE)]),
    // Three sectors with a header.
    (
        3,
        &[
            (Header, Ok(Some(255))),
            (Open, NO_TABLE),
            (Create(7), A_TABLE),
        ],
    ),
    // A table that is there is left as it is.
    (
        128,
        &[
            (Create(7), Ok(Some(7))),
            (Publish(8), Ok(Some(8))),
            (Create(9), A_TABLE),
            (Open, Ok(Some(8))),
            (Sector(2), Ok(Some(7))),
            (Sector(3), Ok(Some(8))),
        ],
    ),
    // The low bit of the gate alone picks the slot.
    (
        128,
        &[
            (Create(7), Ok(Some(7))),
            (Publish(8), Ok(Some(8))),
            (Gate(0xfe), Ok(Some(0x5b))),
            (Open, Ok(Some(7))),
            (Gate(0xff), Ok(Some(0x5b))),
            (Open, Ok(Some(8))),
        ],
    ),
];

#[test]
fn tables_are_made_found_and_left_alone(rt: HostRuntime) -> Result<(), Fail> {
    for (sectors, script) in SCRIPTS {
        run(&mut MemDisk::new(rt.alloc(), sectors)?, script)?;
    }
    Ok(())
}

/// The deeds that faults and stops are tried on, and how many disk calls each makes. Of `create`: sync, read, slot 0, slot
/// 1, gate, sync, header, sync; of `open`: sync and three reads; of `publish`: read, slot 0, sync, gate, sync.
const CALLS: [(Deed, u64); 3] = [(Create(7), 8), (Open, 4), (Publish(9), 5)];

/// The disk that it is done to: one of zeros, or a table with a root of eights.
fn disk_for(alloc: Global, deed: Deed) -> Result<MemDisk, Fail> {
    let mut disk = MemDisk::new(alloc, 128)?;
    if !matches!(deed, Create(_)) {
        run(&mut disk, A_TABLE_OF_TWO)?;
    }
    Ok(disk)
}

/// What it answers where its disk call of this number fails.
fn failing_answer(deed: Deed, failing: u64) -> Answer {
    match (deed, failing) {
        (Create(byte), 8) | (Publish(byte), 5) => Ok(Some(byte)),
        (Open, 4) => Ok(Some(8)),
        (Create(_), 1) | (Open, 1..=3) | (Publish(_), 0) => Err(RootFault::Read),
        _ => Err(RootFault::Write),
    }
}

/// What is found where that disk call failed, carried out first or not. The header is written by the seventh call of
/// `create` and the gate by the fourth of `publish`, and the next opening syncs them.
fn found_after(deed: Deed, failing: u64, done: bool) -> Answer {
    match (deed, failing, done) {
        (Create(byte), 6, true) | (Create(byte), 7 | 8, _) => Ok(Some(byte)),
        (Create(_), _, _) => NO_TABLE,
        (Publish(byte), 3, true) | (Publish(byte), 4 | 5, _) => Ok(Some(byte)),
        _ => Ok(Some(8)),
    }
}

/// What is found after a stop after this many of its disk calls. After seven of `create` the header alone is not synced, and
/// begins as a table's where the digit is 1 or 2. After four of `publish` the gate alone is not synced. It was 1 and gets
/// 0, and digit 3 fills it with the byte 1 + pick / 4.
fn left_by_stop(deed: Deed, passed: u64, pick: u64) -> Answer {
    match (deed, passed, pick % 4) {
        (Create(byte), 8, _) | (Create(byte), 7, 1 | 2) => Ok(Some(byte)),
        (Create(_), _, _) => NO_TABLE,
        (Publish(byte), 5, _) | (Publish(byte), 4, 1 | 2) => Ok(Some(byte)),
        (Publish(byte), 4, 3) if pick / 4 % 2 == 1 => Ok(Some(byte)),
        _ => Ok(Some(8)),
    }
}

/// Does a deed of which one disk call fails, and finds the root again.
fn fail_at(alloc: Global, deed: Deed, failing: u64, done: bool) -> Result<(), Fail> {
    let mut flaky = FlakyDisk::new(disk_for(alloc, deed)?, failing, done);
    run(&mut flaky, &[(deed, failing_answer(deed, failing))])?;
    run(
        &mut flaky.into_inner(),
        &[(Open, found_after(deed, failing, done))],
    )
}

#[test]
fn a_deed_that_failed_left_what_was_there_or_what_it_put(rt: HostRuntime) -> Result<(), Fail> {
    for (deed, calls) in CALLS {
        for failing in 0..=calls {
            fail_at(rt.alloc(), deed, failing, false)?;
            fail_at(rt.alloc(), deed, failing, true)?;
        }
    }
    Ok(())
}

/// Does a deed of which this many disk calls pass, and all others fail.
fn stop_at(alloc: Global, deed: Deed, passed: u64) -> Result<MemDisk, Fail> {
    let mut fuse = FuseDisk::new(disk_for(alloc, deed)?, passed);
    run(&mut fuse, &[(deed, failing_answer(deed, passed))])?;
    Ok(fuse.into_inner())
}

/// Finds the root after each of 256 stops.
fn find_after_stops(alloc: Global, deed: Deed, passed: u64) -> Result<(), Fail> {
    let disk = stop_at(alloc, deed, passed)?;
    for pick in 0..256 {
        let wanted = left_by_stop(deed, passed, pick);
        run(&mut disk.after_stop(alloc, pick)?, &[(Open, wanted)])?;
    }
    Ok(())
}

#[test]
fn a_stop_at_each_disk_call_leaves_the_old_root_or_the_new(rt: HostRuntime) -> Result<(), Fail> {
    for (deed, calls) in CALLS {
        for passed in 0..=calls {
            find_after_stops(rt.alloc(), deed, passed)?;
        }
    }
    Ok(())
}

/// A file on which there may be a table.
#[derive(Clone, Copy, Drop)]
struct FileRow {
    /// It is made of this many of this byte.
    length: usize,
    byte: u8,
    /// What is done where it may only be read, then where it may be written, and then to the first disk again.
    scripts: [Script; 3],
    /// Some of its bytes after the second script.
    bytes: &'static [(usize, u8)],
}

const FILES: [FileRow; 4] = [
    // A file of odd length becomes a table and keeps it.
    FileRow {
        length: 65_573,
        byte: 1,
        scripts: [
            &[(Open, NO_TABLE)],
            A_TABLE_OF_TWO,
            &[(Open, Ok(Some(8))), (Create(9), A_TABLE)],
        ],
        bytes: &[
            (0, b'R'),
            (1, b'B'),
            (2, b'G'),
            (3, b'T'),
            (4, b'A'),
            (5, b'B'),
            (6, b'L'),
            (7, b'E'),
            (512, 1),
            (1024, 7),
            (1536, 8),
            (2048, 1),
        ],
    },
    // One of no bytes is no table and too small.
    FileRow {
        length: 0,
        byte: 0,
        scripts: [&[], &[(Open, NO_TABLE), (Create(7), TOO_SMALL)], &[]],
        bytes: &[],
    },
    // One that is read only is opened and not written; what could not be written is tried again by each sync.
    FileRow {
        length: 65_536,
        byte: 0,
        scripts: [
            &[],
            &[(Create(7), Ok(Some(7)))],
            &[
                (Open, Ok(Some(7))),
                (Publish(8), Err(RootFault::Write)),
                (Open, Err(RootFault::Write)),
            ],
        ],
        bytes: &[(0, b'R'), (1024, 7)],
    },
    // And nothing is made of it.
    FileRow {
        length: 65_536,
        byte: 0,
        scripts: [&[(Create(7), Err(RootFault::Write))], &[], &[]],
        bytes: &[(0, 0), (1024, 0)],
    },
];

/// The file that these tests use.
const PATH: &str = "roots.table";

/// A new file of this many of a byte, as a disk that may only be read.
fn made(rt: &HostRuntime, length: usize, byte: u8) -> Result<FileDisk, Fail> {
    let bytes = vec![in rt.alloc(); byte; length]?;
    fs::write(rt, PATH, bytes.as_slice())?;
    Ok(FileDisk::new(rt.alloc(), File::open(rt, PATH)?)?)
}

/// Runs a script on that file where it may be written, and answers its bytes then.
fn written(rt: &HostRuntime, script: Script) -> Result<Vec<u8>, Fail> {
    run(&mut disk_over(rt, PATH)?, script)?;
    Ok(fs::read(rt, PATH)?)
}

/// What is in that file after the scripts of a row: its bytes after the second, where the first and the third are of a disk that may
/// only be read.
fn scripted(rt: &HostRuntime, row: &FileRow) -> Result<Vec<u8>, Fail> {
    let [first, second, third] = row.scripts;
    let mut disk = made(rt, row.length, row.byte)?;
    run(&mut disk, first)?;
    let before = written(rt, second)?;
    match run(&mut disk, third) {
        Ok(()) => Ok(before),
        Err(fail) => Err(fail),
    }
}

#[test]
fn a_file_becomes_a_table_and_keeps_it(rt: HostRuntime) -> Result<(), Fail> {
    for row in FILES {
        let before = scripted(&rt, &row)?;
        let kept = fs::read(&rt, PATH)? == before;
        let same = row
            .bytes
            .iter()
            .all(|(at, byte)| before.get(*at) == Some(byte));
        expect(
            (before.len(), kept, same),
            (row.length, true, true),
            row.length,
        )?;
    }
    Ok(fs::remove_file(&rt, PATH)?)
}
