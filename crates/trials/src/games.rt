//! The texts of the games that a command line names.

use std::alloc::Global;
use std::fs;
use std::io::{self, Read};

/// As many bytes as are read of a game text.
const READ_LIMIT: u64 = 65_537;

/// The text of a game.
pub fn text_of(rt: &HostRuntime, alloc: Global, name: &str) -> io::Result<Vec<u8>> {
    let mut text: Vec<u8> = Vec::new(alloc);
    fs::File::open(rt, name)?
        .take(READ_LIMIT)
        .read_to_end(&mut text)?;
    Ok(text)
}

/// The texts of these games.
pub fn texts_of(rt: &HostRuntime, alloc: Global, names: &[String]) -> anyhow::Result<Vec<Vec<u8>>> {
    let mut texts = Vec::new(alloc);
    for name in names {
        texts.push(text_of(rt, alloc, name)?)?;
    }
    Ok(texts)
}
