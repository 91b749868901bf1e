//! What files answer as disks (`FileDisk`), and the bytes that are in them then.

use crate::disks::{disk_over, writable};
use crate::scripts::{Answer, Deed, Script, run};
use Answer::{Count, Done, Fault, Halves};
use Deed::{Extend, Read, Sectors, Sync, Write};
use file_disk::FileDisk;
use sector_disk::SectorDisk;
use std::fs;
use std::fs::File;
use std::test::Fail;
use test_aids::expect;

/// A file that is used as a disk.
#[derive(Clone, Copy, Drop)]
struct FileRow {
    /// It is made of this many of this byte.
    length: usize,
    byte: u8,
    read_only: bool,
    /// It has this length once the disk is made of it.
    cut: u64,
    /// And this one at the end.
    end: u64,
    script: Script,
    /// Some of its bytes at the end.
    bytes: &'static [(usize, u8)],
}

const FILES: [FileRow; 9] = [
    // A file of odd length has its whole sectors.
    FileRow {
        length: 1100,
        byte: 1,
        read_only: false,
        cut: 1100,
        end: 1100,
        script: &[
            (Sectors, Count(2)),
            (Read(1), Halves(1, 1)),
            (Write(1, 7), Done),
            (Sync, Done),
            (Read(1), Halves(7, 7)),
            (Write(1, 9), Done),
            (Read(1), Halves(9, 9)),
            (Sync, Done),
        ],
        bytes: &[(511, 1), (512, 9), (1023, 9), (1024, 1)],
    },
    // A longer one has zeros after its whole sectors, also where other bytes stood or its last page was read.
    FileRow {
        length: 1100,
        byte: 1,
        read_only: false,
        cut: 1100,
        end: 2048,
        script: &[
            (Read(1), Halves(1, 1)),
            (Extend(4), Done),
            (Sectors, Count(4)),
            (Read(1), Halves(1, 1)),
            (Read(2), Halves(0, 0)),
            (Write(3, 9), Done),
            (Read(3), Halves(9, 9)),
            (Sync, Done),
        ],
        bytes: &[
            (1023, 1),
            (1024, 0),
            (1099, 0),
            (1535, 0),
            (1536, 9),
            (2047, 9),
        ],
    },
    // What is written is read again, also where its page was read before; the last page is one sector.
    FileRow {
        length: 5000,
        byte: 2,
        read_only: false,
        cut: 5000,
        end: 5000,
        script: &[
            (Sectors, Count(9)),
            (Read(0), Halves(2, 2)),
            (Write(3, 7), Done),
            (Read(3), Halves(7, 7)),
            (Read(4), Halves(2, 2)),
            (Write(4, 8), Done),
            (Write(7, 6), Done),
            (Read(8), Halves(2, 2)),
            (Write(8, 9), Done),
            (Read(7), Halves(6, 6)),
            (Read(4), Halves(8, 8)),
            (Read(8), Halves(9, 9)),
            (Sync, Done),
        ],
        bytes: &[
            (1535, 2),
            (1536, 7),
            (2048, 8),
            (2560, 2),
            (3584, 6),
            (4096, 9),
            (4607, 9),
            (4608, 2),
        ],
    },
    // An empty one has none.
    FileRow {
        length: 0,
        byte: 0,
        read_only: false,
        cut: 0,
        end: 0,
        script: &[(Sectors, Count(0)), (Sync, Done)],
        bytes: &[],
    },
    // What is written is not in the file before the sync.
    FileRow {
        length: 8192,
        byte: 2,
        read_only: false,
        cut: 8192,
        end: 8192,
        script: &[
            (Write(3, 5), Done),
            (Read(3), Halves(5, 5)),
            (Write(15, 9), Done),
        ],
        bytes: &[(1536, 2), (7680, 2)],
    },
    // And all of it is there then.
    FileRow {
        length: 8192,
        byte: 2,
        read_only: false,
        cut: 8192,
        end: 8192,
        script: &[
            (Write(3, 5), Done),
            (Write(13, 7), Done),
            (Write(14, 8), Done),
            (Write(3, 4), Done),
            (Write(15, 9), Done),
            (Write(0, 6), Done),
            (Sync, Done),
        ],
        bytes: &[
            (511, 6),
            (512, 2),
            (1536, 4),
            (2048, 2),
            (6655, 2),
            (6656, 7),
            (7168, 8),
            (7680, 9),
            (8191, 9),
        ],
    },
    // One that is read only fails as soon as what was written goes to the file, and again; it still waits.
    FileRow {
        length: 1024,
        byte: 4,
        read_only: true,
        cut: 1024,
        end: 1024,
        script: &[
            (Sectors, Count(2)),
            (Read(1), Halves(4, 4)),
            (Write(1, 5), Done),
            (Sync, Fault),
            (Read(1), Halves(5, 5)),
            (Read(0), Halves(4, 4)),
            (Sync, Fault),
        ],
        bytes: &[(512, 4)],
    },
    // One that has grown meanwhile is not cut.
    FileRow {
        length: 1024,
        byte: 4,
        read_only: false,
        cut: 1600,
        end: 1600,
        script: &[(Extend(8), Fault), (Sectors, Count(2))],
        bytes: &[(1023, 4), (1599, 0)],
    },
    // One that was cut fails at reads.
    FileRow {
        length: 1024,
        byte: 4,
        read_only: false,
        cut: 700,
        end: 700,
        script: &[
            (Sectors, Count(2)),
            (Read(0), Halves(4, 4)),
            (Read(1), Fault),
        ],
        bytes: &[(699, 4)],
    },
];

/// The file that these tests use.
const PATH: &str = "sectors.disk";

/// The disk of a row's file, which is made first.
fn made(rt: &HostRuntime, row: FileRow) -> Result<FileDisk, Fail> {
    let bytes = vec![in rt.alloc(); row.byte; row.length]?;
    fs::write(rt, PATH, bytes.as_slice())?;
    if row.read_only {
        return Ok(FileDisk::new(rt.alloc(), File::open(rt, PATH)?)?);
    }
    disk_over(rt, PATH)
}

/// The bytes of that file, which is removed then.
fn taken(rt: &HostRuntime) -> std::io::Result<Vec<u8>> {
    let bytes = fs::read(rt, PATH)?;
    fs::remove_file(rt, PATH)?;
    Ok(bytes)
}

/// Runs the script of a row on the disk of its file, which is cut first, and answers the bytes of the file.
fn scripted(rt: &HostRuntime, row: FileRow) -> Result<Vec<u8>, Fail> {
    let mut disk = made(rt, row)?;
    writable(rt, PATH)?.set_len(row.cut)?;
    run(&mut disk, row.script)?;
    Ok(taken(rt)?)
}

/// Expects of the file of a row, once its script was run, its length and its bytes.
fn expect_file(rt: &HostRuntime, row: FileRow) -> Result<(), Fail> {
    let bytes = scripted(rt, row)?;
    let same = row
        .bytes
        .iter()
        .all(|(at, byte)| bytes.get(*at) == Some(byte));
    expect((bytes.len() as u64, same), (row.end, true), row.length)
}

#[test]
fn a_file_has_whole_sectors_and_tells_what_fails(rt: HostRuntime) -> Result<(), Fail> {
    for row in FILES {
        expect_file(&rt, row)?;
    }
    Ok(())
}

#[test]
fn a_file_that_cannot_be_synced_tells_it(rt: HostRuntime) -> Result<(), Fail> {
    let mut disk = FileDisk::new(rt.alloc(), File::open(&rt, "/dev/null")?)?;
    expect(disk.sync().is_err(), true, 0)?;
    expect(disk.sync().is_err(), true, 1)
}
