//! Each disk call of a migration fails in turn, and the power stops after it.

use crate::files::{Earlier, Found, counts_before, found_on, made_in, migrated, unfailing};
use recover::Migration;
use retrograde::Counts;
use sector_disk::{FlakyDisk, MemDisk};
use solver::SolverFault;
use std::alloc::Global;
use std::test::Fail;
use test_aids::{TAKE, expect};

/// More disk calls than a migration makes.
const MOST_CALLS: u64 = 4_096;

/// As many of the images that a stop may leave are looked at.
const PICKS: u64 = 8;

/// How far the table is: seven units of the game of takes.
const COUNTS: Counts = Counts {
    known: 7,
    expanded: 7,
    settled: 2,
    processed: 0,
};

/// Whether the table is in the one layout or in the other on this disk, with the same counts, and another migration brings it into today's.
fn is_whole(alloc: Global, earlier: Earlier, disk: &MemDisk, pick: u64) -> Result<bool, Fail> {
    let is_there = match found_on(alloc, disk.after_stop(alloc, pick)?)? {
        Found::Older => counts_before(alloc, earlier, disk.after_stop(alloc, pick)?)?
            == Some(COUNTS),
        Found::Today(counts) => counts == Some(COUNTS),
    };
    let Ok((again, _)) = migrated(alloc, unfailing(disk.after_stop(alloc, pick)?)) else {
        return Ok(false);
    };
    Ok(is_there && found_on(alloc, again.into_inner())? == Found::Today(Some(COUNTS)))
}

/// Whether each of these images that a stop leaves is whole.
fn are_whole(alloc: Global, earlier: Earlier, disk: &MemDisk) -> Result<bool, Fail> {
    for pick in 0..PICKS {
        if !is_whole(alloc, earlier, disk, pick)? {
            return Ok(false);
        }
    }
    Ok(true)
}

/// A migration of which this call fails, done or not; none where it has fewer calls.
fn failed_at(
    alloc: Global,
    disk: &MemDisk,
    call: u64,
    done: bool,
) -> Result<Option<MemDisk>, Fail> {
    let disk = FlakyDisk::new(disk.after_stop(alloc, 0)?, call, done);
    match migrated(alloc, disk) {
        Ok((_, which)) => {
            expect(which, Migration::Migrated, call)?;
            Ok(None)
        }
        Err(refused) => {
            expect(refused.fault, SolverFault::Disk, call)?;
            Ok(Some(refused.disk.into_inner()))
        }
    }
}

/// Each call fails in turn. Answers how many there are.
fn each_call_fails(alloc: Global, earlier: Earlier, done: bool) -> Result<u64, Fail> {
    let disk = made_in(alloc, earlier, TAKE, 7)?;
    for call in 0..MOST_CALLS {
        let Some(left) = failed_at(alloc, &disk, call, done)? else {
            return Ok(call);
        };
        expect(
            are_whole(alloc, earlier, &left)?,
            true,
            (earlier, call, done),
        )?;
    }
    Err("there were more calls".into())
}

#[test]
fn from_layout_1(rt: HostRuntime) -> Result<(), Fail> {
    for done in [false, true] {
        each_call_fails(rt.alloc(), Earlier::First, done)?;
    }
    Ok(())
}

#[test]
fn from_layout_2(rt: HostRuntime) -> Result<(), Fail> {
    for done in [false, true] {
        each_call_fails(rt.alloc(), Earlier::Second, done)?;
    }
    Ok(())
}
