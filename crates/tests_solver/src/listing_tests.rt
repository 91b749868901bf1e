//! A listing goes on over calls for which a session has no line: a load that is refused, and a growth.

use crate::call_tests::{command_says, expect_said, session_says, take};
use game_file::Versions;
use recover::TableFile;
use sector_disk::MemDisk;
use session::commands::FileCommand;
use session_lines::replies::row_lines;
use solver::{FileSolver, Listing, SolverFault, Units};
use std::alloc::Global;
use std::test::Fail;
use test_aids::{TAKE, expect};

/// Sectors of the smallest disk that takes a table and a game.
const SECTORS: u64 = 8 * 24;

/// A disk with the table of the game of takes, all seven positions expanded and two of them settled.
fn half_worked(alloc: Global) -> Result<MemDisk, Fail> {
    let disk = MemDisk::new(alloc, SECTORS)?;
    let (made, disk) = command_says(alloc, disk, FileCommand::Create);
    expect_said(&made, 0, "created\n", 0)?;
    let (loaded, disk) = command_says(alloc, disk, take(alloc)?);
    expect_said(&loaded, 0, "loaded\n", 1)?;
    let (worked, disk) = session_says(alloc, disk, "work 7\n");
    let reply = "units 7 known 7 expanded 7 settled 2 processed 0 open\n";
    expect_said(&worked, 0, reply, 2)?;
    Ok(disk)
}

/// This many units, or rows.
fn units(count: u32) -> Result<Units, Fail> {
    match Units::new(count) {
        Some(units) => Ok(units),
        None => Err("not so many at once".into()),
    }
}

/// Writes the lines of the next rows of a listing, this many or up to the last.
fn put_next<F: Versions>(
    alloc: Global,
    solver: &mut FileSolver<F>,
    listing: &mut Listing<F::Version>,
    count: u32,
    out: &mut Vec<u8>,
) -> Result<(), Fail> {
    let rows = solver.list_next(listing, units(count)?)?;
    let lines = row_lines(alloc, solver.needs_game()?, &rows)?;
    out.extend_from_slice(&lines)?;
    Ok(())
}

/// Writes the lines of all rows of a listing, and between them loads the game again, gives the table 64 pages, and works it to its end.
fn put_rows<F: Versions>(
    alloc: Global,
    solver: &mut FileSolver<F>,
    listing: &mut Listing<F::Version>,
    out: &mut Vec<u8>,
) -> Result<(), Fail> {
    put_next(alloc, solver, listing, 2, out)?;
    let loaded = solver.load(TAKE.as_bytes(), None);
    expect(loaded, Err(SolverFault::GameAlready), 0)?;
    put_next(alloc, solver, listing, 2, out)?;
    expect(solver.grow(64), Ok(()), 1)?;
    put_next(alloc, solver, listing, 1, out)?;
    expect(solver.work(units(256)?)?.units, 7, 2)?;
    put_next(alloc, solver, listing, 256, out)
}

/// The lines of a listing that is begun for it, and ended.
fn list_begun<F: Versions>(
    alloc: Global,
    solver: &mut FileSolver<F>,
    out: &mut Vec<u8>,
) -> Result<(), Fail> {
    let mut listing = solver.list_begin()?;
    let put = put_rows(alloc, solver, &mut listing, out);
    solver.list_end(listing);
    put
}

/// The lines of a listing of the table on this disk, and the disk.
fn listed<F: Versions>(alloc: Global, disk: F::Device) -> Result<(Vec<u8>, F::Device), Fail>
where
    F::Device: Drop,
{
    match FileSolver::<F>::open(alloc, disk) {
        Ok(mut solver) => {
            let mut out = Vec::new(alloc);
            let put = list_begun(alloc, &mut solver, &mut out);
            let disk = solver.close();
            put?;
            Ok((out, disk))
        }
        Err(refused) => Err(refused.fault.into()),
    }
}

#[test]
fn a_listing_goes_on_over_a_refused_load_and_a_growth(rt: HostRuntime) -> Result<(), Fail> {
    let alloc = rt.alloc();
    let (lines, disk) = listed::<TableFile<MemDisk>>(alloc, half_worked(alloc)?)?;
    let begun = "0 open\n1 open\n2 open\n3 open\n4 black in 0\n5 open\n6 white in 0\n";
    expect(lines.as_slice() == begun.as_bytes(), true, 3)?;
    let (said, disk) = session_says(alloc, disk, "begin\nnext 256\nend\n");
    let ended = concat!(
        "listing\n0 black in 3\n1 black in 2\n2 black in 1\n3 black in 1\n4 black in 0\n",
        "5 white in 1\n6 white in 0\nended\n",
    );
    expect_said(&said, 0, ended, 4)?;
    let (grown, _disk) = command_says(alloc, disk, FileCommand::Grow(64));
    expect_said(&grown, 1, "refused E6\n", 5)
}
