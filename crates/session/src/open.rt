//! The file of a table, opened and taken for this run.

use crate::own_output::{Output, is_same_file, output_of};
use std::fs::{self, File, Metadata, OpenOptions, TryLockError};
use std::io::{self, ErrorKind};

/// What a command does with the file of a table.
#[derive(Clone, Copy)]
pub enum Purpose {
    /// It asks, and writes nothing: many may at once, but none beside a run that changes the file.
    Ask,
    /// It may change the file, and so has it alone.
    Change,
}

/// Why no file is open.
#[derive(Drop)]
pub enum Unopened {
    Failed(io::Error),
    /// The program's own output goes there, so that nothing may be said.
    OwnOutput,
    /// The program's own output may go there: the system does not tell.
    UnknownOutput,
    /// Another run has it.
    Taken,
}

impl From<io::Error> for Unopened {
    fn from(error: io::Error) -> Unopened {
        Unopened::Failed(error)
    }
}

/// The file, taken for this run until it is closed: to be read alone, or to be changed, where it may be written. Whatever is no regular
/// file is refused before it is opened, since one that is a pipe could be waited for without end.
pub fn opened(rt: &HostRuntime, name: &str, purpose: Purpose) -> Result<File, Unopened> {
    is_regular(&fs::metadata(rt, name)?)?;
    let (file, purpose) = match purpose {
        Purpose::Ask => (File::open(rt, name)?, Purpose::Ask),
        Purpose::Change => opened_to_change(rt, name)?,
    };
    let metadata = file.metadata()?;
    is_regular(&metadata)?;
    match output_of(rt, &metadata) {
        Output::Elsewhere => {}
        Output::Table => return Err(Unopened::OwnOutput),
        Output::Unknown => return Err(Unopened::UnknownOutput),
    }
    let file = taken(file, purpose)?;
    if is_at(rt, name, &metadata) {
        return Ok(file);
    }
    // another run has put a file in its place, or taken it away, before it was taken
    Err(Unopened::Taken)
}

/// A file that was not there, taken for this run until it is closed. Where it cannot be taken, it is removed, unless another run
/// has it.
pub fn new_file(rt: &HostRuntime, name: &str) -> Result<File, Unopened> {
    let file = OpenOptions::new()
        .read(true)
        .write(true)
        .create_new(true)
        .open(rt, name)?;
    let file = taken(file, Purpose::Change);
    if let Err(Unopened::Failed(_)) = &file {
        let _ = fs::remove_file(rt, name);
    }
    file
}

/// Fails where the file may not be written.
pub fn writable(rt: &HostRuntime, name: &str) -> io::Result<()> {
    let _file = OpenOptions::new().read(true).write(true).open(rt, name)?;
    Ok(())
}

/// The file, to be read and written, or, where it may not be written, to be read alone, which is to ask.
fn opened_to_change(rt: &HostRuntime, name: &str) -> io::Result<(File, Purpose)> {
    match OpenOptions::new().read(true).write(true).open(rt, name) {
        Ok(file) => Ok((file, Purpose::Change)),
        Err(error) if is_read_only(&error) => Ok((File::open(rt, name)?, Purpose::Ask)),
        Err(error) => Err(error),
    }
}

/// The file, if no other run has it. It waits for none.
fn taken(file: File, purpose: Purpose) -> Result<File, Unopened> {
    let locked = match purpose {
        Purpose::Ask => file.try_lock_shared(),
        Purpose::Change => file.try_lock(),
    };
    match locked {
        Ok(()) => Ok(file),
        Err(TryLockError::WouldBlock) => Err(Unopened::Taken),
        Err(TryLockError::Error(error)) => Err(Unopened::Failed(error)),
    }
}

/// Whether the file is the one with this name.
fn is_at(rt: &HostRuntime, name: &str, metadata: &Metadata) -> bool {
    match fs::metadata(rt, name) {
        Ok(other) => is_same_file(&other, metadata),
        Err(_) => false,
    }
}

/// Refuses what is no regular file.
fn is_regular(metadata: &Metadata) -> io::Result<()> {
    if metadata.is_file() {
        return Ok(());
    }
    Err(io::Error::new(ErrorKind::InvalidInput, "it is no regular file"))
}

/// Whether a file may be there to be read, and not to be written.
fn is_read_only(error: &io::Error) -> bool {
    matches!(
        error.kind(),
        ErrorKind::PermissionDenied | ErrorKind::ReadOnlyFilesystem
    )
}
