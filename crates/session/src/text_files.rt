//! The commands about the text of the game in a file's table.

use crate::files::{TO_READ, disk_over, refused_opening, tell_refused_table};
use crate::games::text_of_game;
use crate::open::{Purpose, opened};
use crate::program::status_of_refused;
use crate::texts::{audit_of, text_on};
use crate::told::Outcome;
use file_disk::FileDisk;
use recover::TableFile;
use session_lines::moments::Moments;
use solver::SolverFault;
use std::alloc::Global;
use std::io::{self, BufWriter};

/// Writes the text of the game in the table of a file.
pub fn text_of_file(rt: &HostRuntime, alloc: Global, name: &str) -> u8 {
    let disk = match asked_disk(rt, alloc, name) {
        Ok(disk) => disk,
        Err(status) => return status,
    };
    let Ok(mut out) = BufWriter::new(alloc, io::writer(rt)) else {
        return status_of_refused(rt, SolverFault::OutOfMemory);
    };
    let (outcome, _disk) = text_on::<TableFile<FileDisk>, _>(alloc, disk, &mut out);
    status_of(rt, alloc, name, outcome)
}

/// Says whether the table of a file is right, and about the text in the file of a game, which is read first.
pub fn audit_file_of(rt: &HostRuntime, alloc: Global, name: &str, game: &str) -> u8 {
    let text = match text_of_game(rt, alloc, game) {
        Ok(text) => text,
        Err(status) => return status,
    };
    let disk = match asked_disk(rt, alloc, name) {
        Ok(disk) => disk,
        Err(status) => return status,
    };
    let Ok(mut out) = BufWriter::new(alloc, io::writer(rt)) else {
        return status_of_refused(rt, SolverFault::OutOfMemory);
    };
    let (outcome, _disk) = audit_of::<TableFile<FileDisk>, _>(
        alloc,
        disk,
        &text,
        &mut out,
        &mut Moments::new(),
    );
    status_of(rt, alloc, name, outcome)
}

/// The disk over the file of a table that is asked, and not changed; or the status, once it was said why there is none.
fn asked_disk(rt: &HostRuntime, alloc: Global, name: &str) -> Result<FileDisk, u8> {
    let file = match opened(rt, name, Purpose::Ask) {
        Ok(file) => file,
        Err(why) => return Err(refused_opening(rt, name, why, TO_READ)),
    };
    match disk_over(rt, alloc, name, file) {
        Ok(disk) => Ok(disk),
        Err(outcome) => Err(outcome.status),
    }
}

/// The status of what came, once a refusal was told.
fn status_of(rt: &HostRuntime, alloc: Global, name: &str, outcome: Outcome) -> u8 {
    if let Some(fault) = outcome.refused {
        tell_refused_table(rt, alloc, name, fault);
    }
    outcome.status
}
