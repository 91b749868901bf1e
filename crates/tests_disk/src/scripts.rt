//! Calls of a disk in turn, and what they are to answer.

use crate::disks::all_over;
use sector_disk::{DiskFault, SectorDisk};
use std::test::Fail;
use test_aids::expect;

/// A call of a disk.
#[derive(Clone, Copy, Debug)]
pub enum Deed {
    Read(u64),
    /// Writes a byte all over the sector.
    Write(u64, u8),
    Sync,
    Sectors,
    /// Makes the disk this long.
    Extend(u64),
}

/// What it answers.
#[derive(Clone, Copy, PartialEq, Debug, Drop)]
pub enum Answer {
    /// Read: a byte all over the first half of the sector, and one all over the second.
    Halves(u8, u8),
    /// Read: the bytes of a half differ.
    Mixed,
    /// Written, synced or made longer.
    Done,
    /// This many sectors.
    Count(u64),
    /// The device failed.
    Fault,
    /// The disk was not asked: it has no such sector, or is as long.
    NotThere,
}

use Answer::{Count, Done, Fault, Halves, Mixed, NotThere};
use Deed::{Extend, Read, Sectors, Sync, Write};

/// Calls of a disk in turn, each with what it is to answer.
pub type Script = &'static [(Deed, Answer)];

/// What a write or a sync answers.
fn told(outcome: Result<(), DiskFault>) -> Answer {
    if outcome.is_ok() { Done } else { Fault }
}

/// What the bytes of a sector are.
fn halves_of(bytes: &[u8; 512]) -> Answer {
    match (all_over(&bytes[..256]), all_over(&bytes[256..])) {
        (Some(first), Some(second)) => Halves(first, second),
        _ => Mixed,
    }
}

/// What a read answers.
fn read<D: SectorDisk>(disk: &mut D, at: u64) -> Answer {
    let mut bytes = [0; 512];
    if at >= disk.sectors() {
        return NotThere;
    }
    if disk.read(at, &mut bytes).is_err() {
        return Fault;
    }
    halves_of(&bytes)
}

/// What a call answers.
fn answer_to<D: SectorDisk>(disk: &mut D, deed: Deed) -> Answer {
    match deed {
        Read(at) => read(disk, at),
        Write(at, _) if at >= disk.sectors() => NotThere,
        Write(at, byte) => told(disk.write(at, &[byte; 512])),
        Sync => told(disk.sync()),
        Sectors => Count(disk.sectors()),
        Extend(sectors) if sectors <= disk.sectors() => NotThere,
        Extend(sectors) => told(disk.extend(sectors)),
    }
}

/// Runs a script on a disk.
pub fn run<D: SectorDisk>(disk: &mut D, script: &[(Deed, Answer)]) -> Result<(), Fail> {
    for (deed, wanted) in script {
        expect(answer_to(disk, *deed), *wanted, *deed)?;
    }
    Ok(())
}
