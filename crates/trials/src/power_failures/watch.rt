//! In which order a disk is written.

use crate::power_failures::deeds::{Deed, Given, done_on};
use crate::power_failures::named::named_pages;
use crate::power_failures::watched::{Call, WatchedDisk};
use crate::sectors::picked_slot;
use recover::TableFile;
use sector_disk::MemDisk;
use std::alloc::Global;

/// The sectors of 64 pages.
const SECTORS: u64 = 512;

/// What is done in turn: the game is loaded and worked until it is finished.
const DEEDS: [Deed; 3] = [Deed::Load, Deed::Work, Deed::Work];

/// Watches a table being made, loaded and worked on. Answers whether all was written in the order of the format.
pub fn watch(rt: &HostRuntime, alloc: Global, text: &[u8]) -> anyhow::Result<bool> {
    for pages in [0, 64] {
        let given = Given { alloc, text, pages };
        let disk = MemDisk::new(alloc, SECTORS)?;
        let (mut disk, calls) = watched(given, disk, Deed::Create)?;
        if !is_creation(&calls) {
            println!(rt;
                "{:?}, {pages} pages in memory: WRONG: {calls:?}",
                Deed::Create
            )?;
            return Ok(false);
        }
        for deed in DEEDS {
            let named = named_pages(alloc, &mut disk)?;
            let spare = if picked_slot(&mut disk)? == 2 { 3 } else { 2 };
            let (next, calls) = watched(given, disk, deed)?;
            if !is_commit(&calls, &named, spare) {
                println!(rt; "{deed:?}, {pages} pages in memory: WRONG: {calls:?}")?;
                return Ok(false);
            }
            disk = next;
        }
        println!(rt; "{pages} pages in memory: written in the order of the format")?;
    }
    Ok(true)
}

/// Does a deed, and notes what it asks of the disk.
fn watched(given: Given<'_>, disk: MemDisk, deed: Deed) -> anyhow::Result<(MemDisk, Vec<Call>)> {
    let disk = WatchedDisk::new(given.alloc, disk);
    let (disk, progress) = done_on::<TableFile<WatchedDisk<MemDisk>>>(given, disk, deed)?;
    if let Some(fault) = progress.refused {
        return Err(fault.into());
    }
    match disk.into_parts() {
        (disk, Some(calls)) => Ok((disk, calls)),
        _ => Err(anyhow::anyhow!("no room for the notes")),
    }
}

/// Both root slots and the gate, a sync, the header, a sync; and the sync of the opening after it.
fn is_creation(calls: &[Call]) -> bool {
    let wanted = [
        Call::Sync,
        Call::Write(2),
        Call::Write(3),
        Call::Write(1),
        Call::Sync,
        Call::Write(0),
        Call::Sync,
        Call::Sync,
    ];
    calls == wanted.as_slice()
}

/// The sync of the opening; pages that are not named; the slot that is not picked, a sync, the gate, a sync.
fn is_commit(calls: &[Call], named: &[u32], spare: u64) -> bool {
    match calls {
        [
            Call::Sync,
            pages @ ..,
            Call::Write(slot),
            Call::Sync,
            Call::Write(1),
            Call::Sync,
        ] => *slot == spare && pages.iter().all(|call| is_of_free_page(*call, named)),
        _ => false,
    }
}

/// Whether a sector is written of a page that is not named; the first page has the sectors 8 to 15.
fn is_of_free_page(call: Call, named: &[u32]) -> bool {
    match call {
        Call::Write(at) => at >= 8 && !named.iter().any(|page| u64::from(*page) == at / 8),
        Call::Sync | Call::Extend(_) => false,
    }
}
