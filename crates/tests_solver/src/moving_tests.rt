//! A table of an earlier layout moves, and goes on.

use crate::files::{
    Earlier, Found, counts_before, found_on, made_in, migrated, takes_a_goal, unfailing, verdict_on,
};
use audit::Verdict;
use recover::Migration;
use retrograde::Counts;
use sector_disk::MemDisk;
use solver::SolverFault;
use std::alloc::Global;
use std::test::Fail;
use test_aids::{TAKE, expect};

/// The earlier layouts.
const EARLIER: [Earlier; 2] = [Earlier::First, Earlier::Second];

/// How far the game of takes is where it was just loaded,
const LOADED: Counts = Counts {
    known: 1,
    expanded: 0,
    settled: 0,
    processed: 0,
};

/// where all its positions are expanded,
const HALF: Counts = Counts {
    known: 7,
    expanded: 7,
    settled: 2,
    processed: 0,
};

/// and where it is finished.
const FINISHED: Counts = Counts {
    known: 7,
    expanded: 7,
    settled: 7,
    processed: 7,
};

/// Migrates the table of this disk, which has to be answered so.
fn brought(alloc: Global, disk: MemDisk, wanted: Migration) -> Result<MemDisk, Fail> {
    match migrated(alloc, unfailing(disk)) {
        Ok((disk, which)) => {
            expect(which, wanted, "migrate")?;
            Ok(disk.into_inner())
        }
        Err(_) => Err("the migration was refused".into()),
    }
}

#[test]
fn a_table_moves_and_goes_on(rt: HostRuntime) -> Result<(), Fail> {
    let alloc = rt.alloc();
    for earlier in EARLIER {
        for (units, counts) in [(7, HALF), (14, FINISHED)] {
            let disk = made_in(alloc, earlier, TAKE, units)?;
            expect(
                found_on(alloc, disk.after_stop(alloc, 0)?)?,
                Found::Older,
                (earlier, units),
            )?;
            let disk = brought(alloc, disk, Migration::Migrated)?;
            expect(
                found_on(alloc, disk.after_stop(alloc, 0)?)?,
                Found::Today(Some(counts)),
                (earlier, units),
            )?;
            let disk = brought(alloc, disk, Migration::Current)?;
            let (verdict, counts) = verdict_on(alloc, disk, 256)?;
            expect(verdict, Verdict::Right, (earlier, units))?;
            expect(counts, Some(FINISHED), (earlier, units))?;
        }
    }
    Ok(())
}

#[test]
fn an_empty_table_moves_and_takes_a_goal(rt: HostRuntime) -> Result<(), Fail> {
    let alloc = rt.alloc();
    for earlier in EARLIER {
        let disk = made_in(alloc, earlier, "", 0)?;
        let disk = brought(alloc, disk, Migration::Migrated)?;
        expect(
            found_on(alloc, disk.after_stop(alloc, 0)?)?,
            Found::Today(None),
            earlier,
        )?;
        expect(takes_a_goal(alloc, disk, TAKE)?, true, earlier)?;
    }
    Ok(())
}

/// The game of takes with spaces after it, 30,000 bytes of text: eight pages.
fn long_text(alloc: Global) -> Result<String, Fail> {
    let mut text = String::new(alloc);
    text.push_str(TAKE)?;
    for _ in TAKE.len()..30_000 {
        text.push(' ')?;
    }
    Ok(text)
}

/// Of 16 pages, the chain takes eight and the system page one, so that the text alone finds no room beside it.
#[test]
fn too_few_free_pages_leave_the_old_table(rt: HostRuntime) -> Result<(), Fail> {
    let alloc = rt.alloc();
    let text = long_text(alloc)?;
    let disk = made_in(alloc, Earlier::First, &text, 0)?;
    match migrated(alloc, unfailing(disk)) {
        Ok(_) => Err("there was room".into()),
        Err(refused) => {
            expect(refused.fault, SolverFault::TableFull, "migrate")?;
            let disk = refused.disk.into_inner();
            for pick in 0..256 {
                let left = disk.after_stop(alloc, pick)?;
                expect(
                    counts_before(alloc, Earlier::First, left)?,
                    Some(LOADED),
                    pick,
                )?;
            }
            Ok(())
        }
    }
}
