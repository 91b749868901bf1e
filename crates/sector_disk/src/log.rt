//! What a disk in memory keeps of its past: each write with the bytes that it wrote over, each sync, and each extension.
ghost use Rattle.std.specs.Prelude.{◌≡◌, ◌<◌, nat_lt, ℕ, true, false, None, length, slice_index_or, if◌then◌else◌, IfOk};
ghost use Rattle.sector_disk.specs.Disk.{Image};
ghost use Rattle.sector_disk.specs.Past.{before, synced_after, synced_by, end_by, end_after, lasting_of};
ghost use Rattle.sector_disk.specs.lemmas.Log.{IsAsAtSync, IsLastSyncOf, last_by};

use std::alloc::{AllocError, Global};

/// Something that happened to the disk.
#[derive(Clone, Copy, Drop)]
pub enum Event {
    /// The place that was written, and the bytes that were there before.
    Wrote(u64, [u8; 512]),
    /// A sync that succeeded.
    Synced,
    /// It was made longer; this many sectors were there before.
    Extended(u64),
}

/// Which sectors are not written since the last sync.
pub fn synced_sectors(
    alloc: Global,
    events: &[Event],
    sectors: usize,
) -> Result<Vec<bool>, AllocError>
    ensures { IfOk result (λ synced. (length synced.items ≡ sectors)
        × ((k : ℕ) → k < sectors → slice_index_or synced.items k true ≡ synced_after (λ _. true) events.now k)) }
{
    let mut synced = vec![in alloc; true; sectors]?;
    for event in events {
        mark(&mut synced, event);
    }
    Ok(synced)
}

/// One event more.
fn mark(synced: &mut Vec<bool>, event: &Event)
    ensures size { length synced.new.items ≡ length synced.old.items }
    ensures is { (k : ℕ) → k < length synced.old.items
        → slice_index_or synced.new.items k true ≡ synced_by (λ j. slice_index_or synced.old.items j true) event.now k }
{
    match event {
        Event::Wrote(at, _) => {
            let place = *at as usize;
            if place < synced.len() {
                synced[place] = false;
            }
        }
        Event::Synced => synced.fill(true),
        Event::Extended(end) => clear_from(synced, *end as usize),
    }
}

/// None from there on.
fn clear_from(synced: &mut Vec<bool>, end: usize)
    ensures size { length synced.new.items ≡ length synced.old.items }
    ensures is { (k : ℕ) → k < length synced.old.items → slice_index_or synced.new.items k true
        ≡ (if nat_lt k end then slice_index_or synced.old.items k true else false) }
{
    for place in end..synced.len() {
        synced[place] = false;
    }
}

/// How many of this many sectors are there after a stop.
pub fn lasting_sectors(events: &[Event], sectors: usize) -> usize
    ensures { (image : Image) → length image ≡ sectors → result ≡ lasting_of (end_after None events.now) image }
{
    let mut end = None;
    for event in events {
        end = end_behind(end, event);
    }
    match end {
        None => sectors,
        Some(end) => sectors.min(end as usize),
    }
}

/// Where the disk ended at the last sync, if it was made longer since, once this event has happened.
fn end_behind(end: Option<u64>, event: &Event) -> Option<u64>
    ensures { result ≡ end_by end event.now }
{
    match (end, event) {
        (_, Event::Synced) => None,
        (None, Event::Extended(before)) => Some(*before),
        _ => end,
    }
}

/// How many events there were when all was synced for the last time.
fn last_sync(events: &[Event]) -> usize
    ensures { IsLastSyncOf events.now result }
{
    let mut last = 0;
    let mut count = 0;
    for event in events {
        count += 1;
        last = last_after(event, count, last);
    }
    last
}

/// The last event once this one has happened, as the one of this number.
fn last_after(event: &Event, count: usize, last: usize) -> usize
    ensures { result ≡ last_by event.now count last }
{
    match event {
        Event::Wrote(_, _) | Event::Extended(_) => last,
        Event::Synced => count,
    }
}

/// The sectors as they were at the last sync, from the sectors as they are now.
pub fn as_at_sync(
    alloc: Global,
    events: &[Event],
    contents: &[[u8; 512]],
) -> Result<Vec<[u8; 512]>, AllocError>
    ensures { IfOk result (λ sectors. IsAsAtSync events.now contents.now sectors.items) }
{
    let last = last_sync(events);
    let mut sectors = copy_of(alloc, contents)?;
    for count in 0..events.len() - last {
        undo(&mut sectors, &events[events.len() - 1 - count]);
    }
    Ok(sectors)
}

/// Puts back what was there before this event.
fn undo(sectors: &mut Vec<[u8; 512]>, event: &Event)
    ensures { sectors.new.items ≡ before event.now sectors.old.items }
{
    match event {
        Event::Wrote(at, bytes) => {
            let place = *at as usize;
            if place < sectors.len() {
                sectors[place] = *bytes;
            }
        }
        Event::Synced => {}
        Event::Extended(end) => sectors.truncate(*end as usize),
    }
}

/// A copy of the sectors.
fn copy_of(alloc: Global, sectors: &[[u8; 512]]) -> Result<Vec<[u8; 512]>, AllocError>
    ensures { IfOk result (λ copy. copy.items ≡ sectors.now) }
{
    let mut copy = Vec::new(alloc);
    for sector in sectors {
        copy.push(*sector)?;
    }
    Ok(copy)
}
