//! A count: each position leads to the next, and the last is won.

use arrayvec::ArrayVec;
use game_file::GameFile;
use page_store::PageStore;
use position_pack::{Packed, PackingKind};
use rbg_game::roles::Player;
use retrograde::{Counts, Record, State};
use sector_disk::SectorDisk;
use std::alloc::Global;
use table::Table;
use tree_file::TreeFile;

/// A table in a file.
pub type Count<D> = TreeFile<PageStore<D>, 3>;

/// This many units are worked between two commits.
const UNITS: u32 = 256;

/// The bytes of a position, as many as the count of `tools/bench` has.
fn position(number: u32) -> Packed {
    let mut bytes: Packed = ArrayVec::new();
    let _room = bytes.try_extend_from_slice(&[0; 10]);
    let _room = bytes.try_extend_from_slice(&number.to_be_bytes());
    bytes
}

/// A new table on this disk, with the first position in it, and this many pages in memory, 64 at most.
pub fn begun<F: GameFile + Drop>(alloc: Global, disk: F::Device, pages: usize) -> anyhow::Result<F>
where
    F::Device: Drop,
{
    let disk = match F::create(alloc, disk) {
        Ok(table) => table.into_disk(),
        Err(refused) => return Err(refused.fault.into()),
    };
    let mut table = match F::open_with_cache(alloc, disk, pages.min(64)) {
        Ok(table) => table,
        Err(refused) => return Err(refused.fault.into()),
    };
    table.load(b"count", PackingKind::Bytes, None, &position(0))?;
    Ok(table)
}

/// Works up to 256 units and commits them. Answers how many there were.
pub fn work<F: GameFile>(table: &mut F, last: u32) -> anyhow::Result<u32> {
    let mut units: u32 = 0;
    for _ in 0..UNITS {
        let counts = table.counts();
        if counts.expanded < counts.known {
            expand(table, counts.expanded, last)?;
        } else if counts.processed < counts.settled {
            process(table, counts.processed)?;
        } else {
            break;
        }
        units = units.saturating_add(1);
    }
    table.commit()?;
    Ok(units)
}

/// A record of this state, with this many successors, none of them processed.
fn record_of(state: State, distance: Option<u32>, successors: u32) -> Record {
    Record {
        state,
        winner: distance.map(|_| Player::First),
        distance: distance.unwrap_or(0),
        left: if state == State::Expanded {
            successors
        } else {
            0
        },
        successors,
    }
}

/// Expands the position with this number.
fn expand<T: Table>(table: &mut T, number: u32, last: u32) -> anyhow::Result<()> {
    if number >= table.counts().known {
        return Ok(());
    }
    let _position = table.packed(number)?;
    if number >= last {
        let _record = table.record(number)?;
        return settle(table, number, 0, 0);
    }
    let next = position(number.saturating_add(1));
    let known = table.counts().known;
    let successor = match table.number_of(&next)? {
        Some(successor) => successor,
        None if known < 16_777_216 => table.add(&next)?,
        None => return Ok(()),
    };
    if successor < table.counts().known && number < table.counts().known {
        table.add_edge(successor, number)?;
    }
    if number < table.counts().known {
        let _record = table.record(number)?;
        table.set_record(number, record_of(State::Expanded, None, 1))?;
    }
    Ok(())
}

/// Settles a position, won in this many moves.
fn settle<T: Table>(
    table: &mut T,
    number: u32,
    distance: u32,
    successors: u32,
) -> anyhow::Result<()> {
    if number < table.counts().known {
        table.set_record(
            number,
            record_of(State::Settled, Some(distance), successors),
        )?;
    }
    let counts = table.counts();
    if counts.settled < counts.known {
        table.push_settled(number)?;
    }
    Ok(())
}

/// Processes the settled position of this place.
fn process<T: Table>(table: &mut T, place: u32) -> anyhow::Result<()> {
    if place >= table.counts().settled {
        return Ok(());
    }
    let number = table.settled_at(place)?;
    if number >= table.counts().known {
        return Ok(());
    }
    let kept = table.record(number)?;
    if let Some(before) = table.next_edge(number, None)? {
        if before < table.counts().known {
            let _record = table.record(before)?;
            settle(table, before, kept.distance.saturating_add(1), 1)?;
        }
        let _none = table.next_edge(number, Some(before))?;
    }
    if number < table.counts().known {
        let processed = Record {
            state: State::Processed,
            ..kept
        };
        table.set_record(number, processed)?;
    }
    Ok(())
}
