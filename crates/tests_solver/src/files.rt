//! Tables of each layout on disks in memory, and what is found there.

use crate::named_disk::NamedDisk;
use audit::Verdict;
use flat_files::{empty_file, worked_file};
use game_file::{FileFault, GameFile};
use rbg_game::goal::Goal;
use recover::{FirstFile, Migration, Refused, SecondFile, TableFile, migrate};
use retrograde::Counts;
use sector_disk::{FlakyDisk, MemDisk};
use solver::{FileSolver, SolverFault, Units};
use std::alloc::Global;
use std::test::Fail;
use table::Table;

/// Tests have one type of disk, since a test of each further one takes long to prove.
pub type Disk = FlakyDisk<MemDisk>;

/// The files of the three layouts.
pub type Today = TableFile<Disk>;

pub type Second = SecondFile<Disk>;

pub type First = FirstFile<Disk>;

/// Sectors of the smallest disk that takes a table.
const SECTORS: u64 = 128;

/// An earlier layout.
#[derive(Clone, Copy, PartialEq, Eq, Debug)]
pub enum Earlier {
    First,
    Second,
}

/// What a table says of itself.
#[derive(Clone, Copy, PartialEq, Eq, Debug)]
pub enum Found {
    /// It is of an earlier layout.
    Older,
    /// It is of today's, and says so much, if a game is loaded.
    Today(Option<Counts>),
}

/// A disk of which no call fails.
pub fn unfailing(disk: MemDisk) -> Disk {
    FlakyDisk::new(disk, u64::MAX, false)
}

/// A table in a file of this layout, on a new disk, with the game of this text where there is one, and this many units worked.
fn made<F: GameFile + Drop>(
    alloc: Global,
    disk: F::Device,
    text: &str,
    units: u32,
) -> Result<F::Device, Fail>
where
    F::Device: Drop,
{
    let mut solver = match FileSolver::<F>::create(alloc, disk) {
        Ok(solver) => solver,
        Err(_) => return Err("no table was made".into()),
    };
    if !text.is_empty() {
        solver.load(text.as_bytes(), None)?;
    }
    if let Some(units) = Units::new(units) {
        solver.work(units)?;
    }
    Ok(solver.close())
}

/// A file of the first layout, which the program does not write, with this game and so many units worked.
fn made_first(alloc: Global, text: &str, units: u32) -> anyhow::Result<MemDisk> {
    if text.is_empty() {
        return empty_file(alloc, SECTORS);
    }
    worked_file(alloc, SECTORS, text.as_bytes(), units)
}

/// A table of this game in the earlier layout that is named, after this many units.
pub fn made_in(alloc: Global, earlier: Earlier, text: &str, units: u32) -> Result<MemDisk, Fail> {
    match earlier {
        Earlier::First => Ok(made_first(alloc, text, units)?),
        Earlier::Second => {
            let disk = unfailing(MemDisk::new(alloc, SECTORS)?);
            Ok(made::<Second>(alloc, disk, text, units)?.into_inner())
        }
    }
}

/// Brings the table of this disk into today's layout.
pub fn migrated(alloc: Global, disk: Disk) -> Result<(Disk, Migration), Refused<Disk>> {
    let named = NamedDisk { flaky: disk };
    match migrate::<NamedDisk, TableFile<NamedDisk>, SecondFile<NamedDisk>, FirstFile<NamedDisk>>(
        alloc, named,
    ) {
        Ok((disk, which)) => Ok((disk.into_flaky(), which)),
        Err(refused) => {
            let Refused { disk, fault } = refused;
            Err(Refused {
                disk: disk.into_flaky(),
                fault,
            })
        }
    }
}

/// How far the table on this disk is, as a file of this layout.
fn counts_in<F: GameFile>(alloc: Global, disk: F::Device) -> Result<Option<Counts>, SolverFault>
where
    F::Device: Drop,
{
    match FileSolver::<F>::open(alloc, disk) {
        Ok(solver) => {
            let counts = solver.status();
            let _disk = solver.close();
            Ok(counts)
        }
        Err(refused) => Err(refused.fault),
    }
}

/// What is found on this disk.
pub fn found_on(alloc: Global, disk: MemDisk) -> Result<Found, Fail> {
    match counts_in::<Today>(alloc, unfailing(disk)) {
        Ok(counts) => Ok(Found::Today(counts)),
        Err(SolverFault::OldLayout) => Ok(Found::Older),
        Err(fault) => Err(fault.into()),
    }
}

/// How far the table on this disk is, as a file of the first layout.
fn counts_in_first(alloc: Global, disk: Disk) -> Result<Option<Counts>, FileFault> {
    match First::open(alloc, disk) {
        Ok(file) => Ok(match &file.game {
            Some(game) => Some(game.table.counts()),
            None => None,
        }),
        Err(refused) => Err(refused.fault),
    }
}

/// How far the table on this disk is, in the earlier layout that is named.
pub fn counts_before(
    alloc: Global,
    earlier: Earlier,
    disk: MemDisk,
) -> Result<Option<Counts>, Fail> {
    let disk = unfailing(disk);
    let counts = match earlier {
        Earlier::First => counts_in_first(alloc, disk)?,
        Earlier::Second => counts_in::<Second>(alloc, disk)?,
    };
    Ok(counts)
}

/// What the audit says of the table on this disk, once this many units more are worked.
fn verdict_in<F: GameFile + Drop>(
    alloc: Global,
    disk: F::Device,
    units: u32,
) -> Result<(Verdict, Option<Counts>), Fail>
where
    F::Device: Drop,
{
    let mut solver = match FileSolver::<F>::open(alloc, disk) {
        Ok(solver) => solver,
        Err(_) => return Err("the table was refused".into()),
    };
    if let Some(units) = Units::new(units) {
        solver.work(units)?;
    }
    let verdict = solver.audit();
    let counts = solver.status();
    let _disk = solver.close();
    Ok((verdict?, counts))
}

/// The verdict on a table in today's layout.
pub fn verdict_on(
    alloc: Global,
    disk: MemDisk,
    units: u32,
) -> Result<(Verdict, Option<Counts>), Fail> {
    verdict_in::<Today>(alloc, unfailing(disk), units)
}

/// Loads the game of this text into the empty table of this disk, and says what is answered.
fn loaded_in<F: GameFile + Drop>(alloc: Global, disk: F::Device, text: &str) -> Result<bool, Fail>
where
    F::Device: Drop,
{
    let mut solver = match FileSolver::<F>::open(alloc, disk) {
        Ok(solver) => solver,
        Err(_) => return Err("the table was refused".into()),
    };
    let loaded = solver.load(text.as_bytes(), Goal::new(5)).is_ok();
    let _disk = solver.close();
    Ok(loaded)
}

/// Whether a game with a goal can be loaded into the table of this disk.
pub fn takes_a_goal(alloc: Global, disk: MemDisk, text: &str) -> Result<bool, Fail> {
    loaded_in::<Today>(alloc, unfailing(disk), text)
}
