//! The store alone: works a count on a table in a file, with the moves known beforehand. The file has its size already. For each line of
//! its input it does 256 units of work and answers as a session does.

mod count;

use crate::files::disk_over;
use crate::store::count::{Count, begun, work};
use file_disk::FileDisk;
use game_file::GameFile;
use std::io::{self, Read};
use table::Table;

/// How it is called.
pub(crate) const USAGE: &str = "usage: bench store FILE LAST PAGES";

/// Makes a table on the file that these words name, and answers each line of the input. Answers whether the words were right.
pub(crate) fn run(rt: &HostRuntime, words: &[String]) -> anyhow::Result<bool> {
    let [path, last, pages] = words else {
        rt.eprintln(USAGE)?;
        return Ok(false);
    };
    let last = last.parse::<u32>().unwrap_or(0);
    let pages = pages.parse::<usize>().unwrap_or(0).min(64);
    answer_all(rt, disk_over(rt, path)?, last, pages)?;
    Ok(true)
}

/// Makes a table on this disk, and answers each line of the input.
fn answer_all(rt: &HostRuntime, disk: FileDisk, last: u32, pages: usize) -> anyhow::Result<()> {
    let mut table = begun::<Count<FileDisk>>(rt.alloc(), disk, pages)?;
    let mut chunk = [0; 4096];
    let mut input = rt.stdin();
    // an input that gave a byte in each turn would be read for longer than any machine runs
    for _turn in 0..u64::MAX {
        let count = input.read(&mut chunk)?;
        if count == 0 {
            break;
        }
        answer_lines(rt, &mut table, last, &chunk[..count])?;
    }
    Ok(())
}

/// Works for each line that ends in these bytes, and tells how far the table is then.
fn answer_lines<F: GameFile>(
    rt: &HostRuntime,
    table: &mut F,
    last: u32,
    bytes: &[u8],
) -> anyhow::Result<()> {
    for byte in bytes {
        if *byte == b'\n' {
            let units = work(table, last)?;
            tell(rt, table, units)?;
        }
    }
    Ok(())
}

/// Tells what was worked, and how far the table is then.
fn tell<T: Table>(rt: &HostRuntime, table: &T, units: u32) -> io::Result<()> {
    let counts = table.counts();
    let is_open = counts.expanded < counts.known || counts.processed < counts.settled;
    println!(rt;
        "units {units} known {} expanded {} settled {} processed {} {}",
        counts.known,
        counts.expanded,
        counts.settled,
        counts.processed,
        if is_open { "open" } else { "finished" }
    )
}
