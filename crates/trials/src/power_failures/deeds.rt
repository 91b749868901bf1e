//! What is done to the table on a disk, and how far it came.

use crate::power_failures::listed::work_beside_listings;
use crate::power_failures::standing::Standing;
use game_file::{GameFile, Versions};
use recover::TableFile;
use sector_disk::MemDisk;
use solver::{Command, FileSolver, Reply, SolverFault, Units};
use std::alloc::Global;

/// Sectors of the smallest disk that takes a table.
const SECTORS: u64 = 128;

/// What is done to the table on a disk.
#[derive(Clone, Copy, PartialEq, Eq, Debug)]
pub enum Deed {
    Create,
    /// Loads the game.
    Load,
    /// Works seven units.
    Work,
    /// Loads the game and works seven units, in one call.
    LoadAndWork,
    /// Gives the loaded table 64 pages.
    Grow,
    /// Begins two listings of the loaded table, works seven units beside them, and asks for rows.
    WorkBesideListings,
}

/// All of them.
pub const DEEDS: [Deed; 6] = [
    Deed::Create,
    Deed::Load,
    Deed::Work,
    Deed::LoadAndWork,
    Deed::Grow,
    Deed::WorkBesideListings,
];

impl Deed {
    /// What is found before it, after its first command, and so on.
    pub fn standings(self) -> &'static [Standing] {
        match self {
            Deed::Create => &[Standing::NoTable, Standing::Empty],
            Deed::Load => &[Standing::Empty, Standing::Loaded],
            Deed::Work | Deed::WorkBesideListings => &[Standing::Loaded, Standing::Worked],
            Deed::Grow => &[Standing::Loaded, Standing::Grown],
            Deed::LoadAndWork => &[Standing::Empty, Standing::Loaded, Standing::Worked],
        }
    }
}

/// How far a deed came.
#[derive(Clone, Copy, PartialEq, Eq, Debug)]
pub struct Progress {
    /// This many of its commands were answered.
    pub done: usize,
    /// Why the next was refused, if one was.
    pub refused: Option<SolverFault>,
}

/// What is given to a deed.
#[derive(Clone, Copy)]
pub struct Given<'a> {
    pub alloc: Global,
    /// The text of the game of takes.
    pub text: &'a [u8],
    /// This many pages, 64 at most, are kept in memory.
    pub pages: usize,
}

/// Does it to the table of this disk, as a file of this layout. Answers the disk, and how far it came.
pub fn done_on<F: Versions>(
    given: Given<'_>,
    disk: F::Device,
    deed: Deed,
) -> anyhow::Result<(F::Device, Progress)>
where
    F::Device: Drop,
{
    match deed {
        Deed::Create => Ok(created::<F>(given.alloc, disk)),
        Deed::Grow => Ok(grown::<F>(given, disk)),
        Deed::WorkBesideListings => Ok(worked_beside_listings::<F>(given, disk)),
        Deed::Load | Deed::Work | Deed::LoadAndWork => {
            let commands = commands_of(given, deed)?;
            commands_done::<F>(given, disk, &commands)
        }
    }
}

/// Gives the table of this disk 64 pages.
fn grown<F: GameFile>(given: Given<'_>, disk: F::Device) -> (F::Device, Progress) {
    match FileSolver::<F>::open_with_cache(given.alloc, disk, given.pages.min(64)) {
        Err(refused) => (refused.disk, refused_by(refused.fault, 0)),
        Ok(mut solver) => {
            let grown = solver.grow(64);
            (solver.close(), progress_by(grown))
        }
    }
}

/// Works seven units beside two listings of the table of this disk.
fn worked_beside_listings<F: Versions>(given: Given<'_>, disk: F::Device) -> (F::Device, Progress) {
    match FileSolver::<F>::open_with_cache(given.alloc, disk, given.pages.min(64)) {
        Err(refused) => (refused.disk, refused_by(refused.fault, 0)),
        Ok(mut solver) => {
            let worked = work_beside_listings(&mut solver);
            (solver.close(), progress_by(worked))
        }
    }
}

/// How far a deed of one command came.
fn progress_by(answer: Result<(), SolverFault>) -> Progress {
    match answer {
        Ok(()) => Progress {
            done: 1,
            refused: None,
        },
        Err(fault) => refused_by(fault, 0),
    }
}

/// Gives these commands to the table of this disk.
fn commands_done<F: GameFile>(
    given: Given<'_>,
    disk: F::Device,
    commands: &[Command],
) -> anyhow::Result<(F::Device, Progress)>
where
    F::Device: Drop,
{
    match FileSolver::<F>::open_with_cache(given.alloc, disk, given.pages.min(64)) {
        Err(refused) => Ok((refused.disk, refused_by(refused.fault, 0))),
        Ok(mut solver) => {
            let mut replies = Vec::new(given.alloc);
            let ran = solver.run(commands, &mut replies);
            let disk = solver.close();
            ran?;
            Ok((disk, progress_of(&replies)))
        }
    }
}

fn created<F: GameFile>(alloc: Global, disk: F::Device) -> (F::Device, Progress) {
    match FileSolver::<F>::create(alloc, disk) {
        Ok(solver) => {
            let done = Progress {
                done: 1,
                refused: None,
            };
            (solver.close(), done)
        }
        Err(refused) => (refused.disk, refused_by(refused.fault, 0)),
    }
}

fn refused_by(fault: SolverFault, done: usize) -> Progress {
    Progress {
        done,
        refused: Some(fault),
    }
}

/// The commands of a deed that is not to create.
fn commands_of(given: Given<'_>, deed: Deed) -> anyhow::Result<Vec<Command>> {
    let mut commands = Vec::new(given.alloc);
    if deed != Deed::Work {
        commands.push(Command::Load(given.text.to_vec(given.alloc)?, None))?;
    }
    if deed != Deed::Load {
        if let Some(seven) = Units::new(7) {
            commands.push(Command::Work(seven))?;
        }
    }
    Ok(commands)
}

/// How far a list of commands came that was replied to so.
fn progress_of(replies: &[Reply]) -> Progress {
    let mut done: usize = 0;
    for reply in replies {
        match reply {
            Reply::Refused(fault) => return refused_by(*fault, done),
            _ => done = done.saturating_add(1),
        }
    }
    Progress {
        done,
        refused: None,
    }
}

/// A disk as it is before this deed.
pub fn before(given: Given<'_>, deed: Deed) -> anyhow::Result<MemDisk> {
    let mut disk = MemDisk::new(given.alloc, SECTORS)?;
    let earlier: &[Deed] = match deed {
        Deed::Create => &[],
        Deed::Load | Deed::LoadAndWork => &[Deed::Create],
        Deed::Work | Deed::Grow | Deed::WorkBesideListings => &[Deed::Create, Deed::Load],
    };
    for deed in earlier {
        let (next, progress) = done_on::<TableFile<MemDisk>>(given, disk, *deed)?;
        if let Some(fault) = progress.refused {
            return Err(fault.into());
        }
        disk = next;
    }
    Ok(disk)
}
