//! A table that is full gets more pages, and goes on.

use crate::call_tests::{command_says, expect_said, session_says, spelled};
use command_line::words::{Words, words_of};
use sector_disk::MemDisk;
use session::commands::FileCommand;
use std::alloc::Global;
use std::test::Fail;
use test_aids::expect;

/// Sectors of the smallest disk that takes a table.
const SECTORS: u64 = 8 * 16;

/// One player counts up: each position has one move, to a new one.
const COUNT: &str =
    "#players = white(1), black(1)  #pieces = e  #variables = n(100000)  #board = v[e]{}
#rules = ->white ([$n=n+1] ->white)*";

/// A disk of 16 pages with the table of that game, which two commands of 256 units have nearly filled.
fn full_table(alloc: Global) -> Result<MemDisk, Fail> {
    let disk = MemDisk::new(alloc, SECTORS)?;
    let (made, disk) = command_says(alloc, disk, FileCommand::Create);
    expect_said(&made, 0, "created\n", 0)?;
    let mut text = Vec::new(alloc);
    text.extend_from_slice(COUNT.as_bytes())?;
    let (loaded, disk) = command_says(alloc, disk, FileCommand::Load(text, None));
    expect_said(&loaded, 0, "loaded\n", 1)?;
    let (worked, disk) = session_says(alloc, disk, "work 256\nwork 256\nwork 256\n");
    let replies = "units 256 known 257 expanded 256 settled 0 processed 0 open
units 256 known 513 expanded 512 settled 0 processed 0 open
refused E7
";
    expect_said(&worked, 0, replies, 2)?;
    Ok(disk)
}

#[test]
fn a_full_table_gets_more_pages_and_goes_on(rt: HostRuntime) -> Result<(), Fail> {
    let alloc = rt.alloc();
    let disk = full_table(alloc)?;
    let (grown, disk) = command_says(alloc, disk, FileCommand::Grow(64));
    expect_said(&grown, 0, "grown\n", 3)?;
    let (again, disk) = command_says(alloc, disk, FileCommand::Grow(64));
    expect_said(&again, 1, "refused E6\n", 4)?;
    let (fewer, disk) = command_says(alloc, disk, FileCommand::Grow(63));
    expect_said(&fewer, 1, "refused E6\n", 5)?;
    let (worked, _disk) = session_says(alloc, disk, "work 256\n");
    let reply = "units 256 known 769 expanded 768 settled 0 processed 0 open\n";
    expect_said(&worked, 0, reply, 6)
}

#[test]
fn what_is_no_table_does_not_grow(rt: HostRuntime) -> Result<(), Fail> {
    let alloc = rt.alloc();
    let disk = MemDisk::new(alloc, SECTORS)?;
    let (none, _disk) = command_says(alloc, disk, FileCommand::Grow(64));
    expect_said(&none, 1, "refused E2\n", 0)
}

/// The pages that a table is to get; 0 for every other command.
fn pages_in(words: &Words) -> u32 {
    match words {
        Words::Grow { pages, .. } => *pages,
        _ => 0,
    }
}

/// The pages that are asked for with this after `--pages`, or the status that the words end with.
fn pages_asked(alloc: Global, number: &str) -> Result<Result<u32, u8>, Fail> {
    let words = ["rbgsolve", "grow", "a.table", "--pages", number];
    match words_of(alloc, &spelled(alloc, &words)?) {
        Ok(asked) => Ok(Ok(pages_in(&asked))),
        Err(refusal) => Ok(Err(refusal.status)),
    }
}

#[test]
fn a_growth_is_to_1_to_1048576_pages(rt: HostRuntime) -> Result<(), Fail> {
    let alloc = rt.alloc();
    expect(pages_asked(alloc, "1")?, Ok(1), 0)?;
    expect(pages_asked(alloc, "1048576")?, Ok(1_048_576), 1)?;
    expect(pages_asked(alloc, "016")?, Ok(16), 2)?;
    for (row, number) in ["0", "1048577", "+16", "many"].iter().enumerate() {
        expect(pages_asked(alloc, number)?, Err(2), row)?;
    }
    Ok(())
}
