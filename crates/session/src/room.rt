//! Room for a table: how large it is to be, the length of its file, a place for its name, and what the device gives for
//! its pages.

use root_pair::MAGIC;
use std::fs::File;
use std::io::{self, ErrorKind, Read, Seek, SeekFrom, Write};
use std::path::Path;

/// The bytes of a page.
const PAGE: usize = 4_096;

/// How many pages a table is to have, and whether the device is to have room for all of them first.
#[derive(Clone, Copy)]
pub struct Size {
    pub pages: u32,
    pub is_reserved: bool,
}

/// Gives a file the length of this many pages and its name a place, and sees that the device has room for them, if that
/// was asked for.
pub fn prepared(file: &mut File, folder: &File, size: Size) -> io::Result<()> {
    sized(file, folder, u64::from(size.pages) * PAGE as u64)?;
    if size.is_reserved {
        reserve(file, SeekFrom::Start(0), size.pages)?;
    }
    Ok(())
}

/// Sees, if that was asked for, that the device has room for this many pages of a file that begins as a table does.
/// What is behind its end is no part of it yet.
pub fn prepared_behind(file: &mut File, size: Size) -> io::Result<()> {
    if size.is_reserved && begins_as_a_table(file)? {
        reserve(file, SeekFrom::End(0), size.pages)?;
    }
    Ok(())
}

/// Whether a file begins as each table does.
pub fn begins_as_a_table(file: &mut File) -> io::Result<bool> {
    let mut start = [0; 8];
    match file.read_exact(&mut start) {
        Ok(()) => Ok(start == MAGIC),
        Err(error) if error.kind() == ErrorKind::UnexpectedEof => Ok(false),
        Err(error) => Err(error),
    }
}

/// The folder that a file is in.
pub fn folder_of(rt: &HostRuntime, name: &str) -> io::Result<File> {
    match Path::new(name).parent() {
        Some(folder) if !folder.as_str().is_empty() => File::open(rt, folder),
        _ => File::open(rt, "."),
    }
}

/// Gives the file this length, and its name a place on the disk.
fn sized(file: &File, folder: &File, length: u64) -> io::Result<()> {
    file.set_len(length)?;
    folder.sync_all()
}

/// Writes zeros from here on, where this is the end of a page or the start of the file, up to the end of the last of so
/// many pages, and waits until they are on the device. So it has room for all of them.
fn reserve(file: &mut File, from: SeekFrom, pages: u32) -> io::Result<()> {
    let zeros = [0; PAGE];
    let begun = file.seek(from)? / PAGE as u64;
    for _page in begun..u64::from(pages) {
        file.write_all(&zeros)?;
    }
    file.sync_all()
}
