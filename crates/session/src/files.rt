//! The commands on files: each is opened here, and the rest is done on a disk over it.

use crate::commands::{FileCommand, command_on};
use crate::migrating::migrate_on;
use crate::open::{Purpose, Unopened, new_file, opened, writable};
use crate::program::{read_start, status_of_refused, tell, tell_game_fault};
use crate::room::{Size, begins_as_a_table, folder_of, prepared, prepared_behind};
use crate::told::Outcome;
use file_disk::{FileDisk, FileRefused};
use page_store::MIN_PAGES;
use rbg_game::goal::Goal;
use rbg_read::read::read_game;
use recover::{FirstFile, SecondFile, TableFile};
use session_lines::advice::advice;
use session_lines::moments::Moments;
use solver::SolverFault;
use std::alloc::{AllocError, Global};
use std::fs::{self, File};
use std::io::{self, BufWriter, ErrorKind, IsTerminal};

/// What to do where a file cannot be read.
pub const TO_READ: &str = "give a file that is there and may be read";

/// What to do where a file cannot be opened to be changed.
pub const TO_CHANGE: &str = "give a file that is there and may be read and written";

const TO_MAKE: &str =
    "give a file that may be read and written, or a new one in a folder that is there and may be written";

const TO_GROW: &str = "see that there is room for so many pages, or give fewer";

const TO_COPY: &str =
    "the table stays as it was; make the file longer, as `truncate -s +1M` does, and give the command again";

const TO_KEEP: &str =
    "a new name is kept only in a folder that may be read: give a file in such a folder";

/// Makes a file of this many pages and the empty table in it. A table that is there is not touched, and with too few pages
/// no file is made or changed.
pub fn create_file(rt: &HostRuntime, alloc: Global, name: &str, size: Size) -> u8 {
    match opened(rt, name, Purpose::Change) {
        Ok(file) => create_over(rt, alloc, name, file, size),
        Err(Unopened::Failed(error)) if error.kind() == ErrorKind::NotFound => {
            create_new(rt, alloc, name, size)
        }
        Err(why) => refused_opening(rt, name, why, TO_MAKE),
    }
}

/// Makes the empty table in a file that was there, unless it begins as a table does. What is lost is said before.
fn create_over(rt: &HostRuntime, alloc: Global, name: &str, mut file: File, size: Size) -> u8 {
    match begins_as_a_table(&mut file) {
        Ok(true) => return refused_table(rt, name),
        Ok(false) => {}
        Err(error) => return refused_file(rt, name, &error, TO_MAKE).status,
    }
    if size.pages < MIN_PAGES {
        return refused_for(rt, name, SolverFault::TooSmall);
    }
    if let Err(error) = writable(rt, name) {
        return refused_file(rt, name, &error, TO_MAKE).status;
    }
    let folder = match folder_of(rt, name) {
        Ok(folder) => folder,
        Err(error) => return refused_folder(rt, name, &error),
    };
    tell_loss(rt, name, &file);
    made(rt, alloc, name, file, &folder, size).status
}

/// Makes the empty table in a new file, which goes again if no table came to be in it.
fn create_new(rt: &HostRuntime, alloc: Global, name: &str, size: Size) -> u8 {
    if size.pages < MIN_PAGES {
        return refused_for(rt, name, SolverFault::TooSmall);
    }
    let folder = match folder_of(rt, name) {
        Ok(folder) => folder,
        Err(error) => return refused_folder(rt, name, &error),
    };
    let file = match new_file(rt, name) {
        Ok(file) => file,
        Err(why) => return refused_opening(rt, name, why, TO_MAKE),
    };
    // so that no other run gets the file before it is removed
    let _held = file.try_clone();
    let outcome = made(rt, alloc, name, file, &folder, size);
    if outcome.refused.is_some() {
        let _ = fs::remove_file(rt, name);
    }
    outcome.status
}

/// Gives a file this many pages, and makes the empty table in it.
fn made(
    rt: &HostRuntime,
    alloc: Global,
    name: &str,
    mut file: File,
    folder: &File,
    size: Size,
) -> Outcome {
    match prepared(&mut file, folder, size) {
        Ok(()) => command_on_file(rt, alloc, name, file, FileCommand::Create),
        Err(error) => refused_file(rt, name, &error, TO_GROW),
    }
}

/// Loads the game of a text, with this goal, if there is one, into the table of a file. The text is read first.
pub fn load_file(
    rt: &HostRuntime,
    alloc: Global,
    name: &str,
    game: &str,
    goal: Option<Goal>,
) -> u8 {
    let mut text = Vec::new(alloc);
    if let Err(error) = read_start(rt, game, &mut text) {
        return refused_file(rt, game, &error, TO_READ).status;
    }
    let explained: Result<Vec<u8>, AllocError> = text.clone();
    let outcome = match opened(rt, name, Purpose::Change) {
        Ok(file) => command_on_file(rt, alloc, name, file, FileCommand::Load(text, goal)),
        Err(why) => return refused_opening(rt, name, why, TO_CHANGE),
    };
    if let Some(SolverFault::Game(fault)) = outcome.refused
        && let Ok(text) = explained
    {
        tell_game_fault(rt, alloc, game, &text, fault);
    }
    outcome.status
}

/// Says whether the table of a file is right.
pub fn audit_file(rt: &HostRuntime, alloc: Global, name: &str) -> u8 {
    match opened(rt, name, Purpose::Ask) {
        Ok(file) => command_on_file(rt, alloc, name, file, FileCommand::Audit).status,
        Err(why) => refused_opening(rt, name, why, TO_READ),
    }
}

/// Brings the table of a file into the layout that this program writes.
pub fn migrate_file(rt: &HostRuntime, alloc: Global, name: &str) -> u8 {
    let file = match opened(rt, name, Purpose::Change) {
        Ok(file) => file,
        Err(why) => return refused_opening(rt, name, why, TO_CHANGE),
    };
    let disk = match disk_over(rt, alloc, name, file) {
        Ok(disk) => disk,
        Err(outcome) => return outcome.status,
    };
    let Ok(mut out) = BufWriter::new(alloc, io::writer(rt)) else {
        return status_of_refused(rt, SolverFault::OutOfMemory);
    };
    let (outcome, _disk) = migrate_on::<
        FileDisk,
        TableFile<FileDisk>,
        SecondFile<FileDisk>,
        FirstFile<FileDisk>,
        _,
    >(alloc, disk, &mut out, &mut Moments::new());
    match outcome.refused {
        Some(SolverFault::TableFull) => {
            tell(
                rt,
                format_args!("{name}: {}: {TO_COPY}", SolverFault::TableFull),
            );
        }
        Some(fault) => tell_refusal(rt, name, fault),
        None => {}
    }
    outcome.status
}

/// Gives the table of a file this many pages.
pub fn grow_file(rt: &HostRuntime, alloc: Global, name: &str, size: Size) -> u8 {
    let mut file = match opened(rt, name, Purpose::Change) {
        Ok(file) => file,
        Err(why) => return refused_opening(rt, name, why, TO_CHANGE),
    };
    if let Err(error) = prepared_behind(&mut file, size) {
        return refused_file(rt, name, &error, TO_GROW).status;
    }
    command_on_file(rt, alloc, name, file, FileCommand::Grow(size.pages)).status
}

/// The disk over an open file; or what came, once it was said why there is none.
pub fn disk_over(
    rt: &HostRuntime,
    alloc: Global,
    name: &str,
    file: File,
) -> Result<FileDisk, Outcome> {
    match FileDisk::new(alloc, file) {
        Ok(disk) => Ok(disk),
        Err(FileRefused::NoLength) => {
            let outcome = undone(rt, SolverFault::Disk);
            tell_refusal(rt, name, SolverFault::Disk);
            Err(outcome)
        }
        Err(FileRefused::OutOfMemory) => Err(undone(rt, SolverFault::OutOfMemory)),
    }
}

/// Does the command on the table of an open file, and says what its refusal means; what is wrong with a text is left to be
/// said.
fn command_on_file(
    rt: &HostRuntime,
    alloc: Global,
    name: &str,
    file: File,
    command: FileCommand,
) -> Outcome {
    let disk = match disk_over(rt, alloc, name, file) {
        Ok(disk) => disk,
        Err(outcome) => return outcome,
    };
    let Ok(mut out) = BufWriter::new(alloc, io::writer(rt)) else {
        return undone(rt, SolverFault::OutOfMemory);
    };
    let is_growth = matches!(&command, FileCommand::Grow(_));
    let (outcome, _disk) = command_on::<TableFile<FileDisk>, _>(
        alloc,
        disk,
        command,
        &mut out,
        &mut Moments::new(),
    );
    match outcome.refused {
        None | Some(SolverFault::Game(_)) => {}
        Some(SolverFault::TooSmall) if is_growth => tell(
            rt,
            format_args!(
                "{name}: the table has as many pages or more: give `--pages` more than it has"
            ),
        ),
        Some(fault) => tell_refused_table(rt, alloc, name, fault),
    }
    outcome
}

/// Says on standard error why the table of a file was refused, where it may be the text of a game.
pub fn tell_refused_table(rt: &HostRuntime, alloc: Global, name: &str, fault: SolverFault) {
    match fault {
        SolverFault::NotATable if is_game(rt, alloc, name) => tell(
            rt,
            format_args!(
                "{name}: no table is there, but the text of a game: `rbgsolve create` makes a table in another file, and `rbgsolve load` loads the text"
            ),
        ),
        fault => tell_refusal(rt, name, fault),
    }
}

/// Whether the text of a game is in a file.
fn is_game(rt: &HostRuntime, alloc: Global, name: &str) -> bool {
    let mut text = Vec::new(alloc);
    read_start(rt, name, &mut text).is_ok() && read_game(alloc, &text).is_ok()
}

/// Says that a command is refused before a table was looked for, and gives what came.
fn undone(rt: &HostRuntime, fault: SolverFault) -> Outcome {
    Outcome {
        status: status_of_refused(rt, fault),
        refused: Some(fault),
    }
}

/// Says that the bytes of a file that is no table are lost, where it has any.
fn tell_loss(rt: &HostRuntime, name: &str, file: &File) {
    let length = match file.metadata() {
        Ok(metadata) => metadata.len(),
        Err(_) => 0,
    };
    match length {
        0 => {}
        1 => tell(
            rt,
            format_args!("{name}: it is no table and becomes one: the byte in it is lost"),
        ),
        _ => tell(
            rt,
            format_args!(
                "{name}: it is no table and becomes one: the {length} bytes in it are lost"
            ),
        ),
    }
}

/// Says that a table's file is not open, and gives the status.
pub fn refused_opening(rt: &HostRuntime, name: &str, why: Unopened, advice: &str) -> u8 {
    match why {
        Unopened::Failed(error) => refused_file(rt, name, &error, advice).status,
        Unopened::OwnOutput => 4,
        Unopened::UnknownOutput => {
            // where the terminal is, the table is not
            if rt.stderr().is_terminal() {
                tell(
                    rt,
                    format_args!(
                        "rbgsolve: whether the output goes to {name} cannot be told, since neither /proc nor /dev/fd is there: print to a terminal, or mount /proc"
                    ),
                );
            }
            4
        }
        Unopened::Taken => {
            tell(
                rt,
                format_args!(
                    "rbgsolve: another run has {name}; two at once would lose work, so wait for its end"
                ),
            );
            4
        }
    }
}

/// Says that the folder of a file that is to be made cannot be used, and gives the status.
fn refused_folder(rt: &HostRuntime, name: &str, error: &io::Error) -> u8 {
    let advice = match error.kind() {
        ErrorKind::PermissionDenied => TO_KEEP,
        _ => TO_MAKE,
    };
    refused_file(rt, name, error, advice).status
}

/// Says that a file cannot be used and what to do, and gives what came.
fn refused_file(rt: &HostRuntime, name: &str, error: &io::Error, advice: &str) -> Outcome {
    if error.kind() == ErrorKind::OutOfMemory {
        return undone(rt, SolverFault::OutOfMemory);
    }
    let outcome = undone(rt, SolverFault::Disk);
    tell(rt, format_args!("{name}: {error}: {advice}"));
    outcome
}

/// Says that a file begins as a table does, so that none is made in it, and gives the status.
fn refused_table(rt: &HostRuntime, name: &str) -> u8 {
    let status = status_of_refused(rt, SolverFault::AlreadyATable);
    let advice = advice(SolverFault::AlreadyATable);
    tell(
        rt,
        format_args!("{name}: it begins as a table does: {advice}"),
    );
    status
}

/// Says that a command on a file is refused and what that means, and gives the status.
fn refused_for(rt: &HostRuntime, name: &str, fault: SolverFault) -> u8 {
    let status = status_of_refused(rt, fault);
    tell_refusal(rt, name, fault);
    status
}

/// Says on standard error what a refusal means.
pub fn tell_refusal(rt: &HostRuntime, name: &str, fault: SolverFault) {
    let advice = advice(fault);
    tell(rt, format_args!("{name}: {fault}: {advice}"));
}
