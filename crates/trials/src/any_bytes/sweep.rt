//! Each single byte of a finished table is changed.

use crate::any_bytes::asking::{Outcome, ask_all};
use crate::any_bytes::tables::{put_sector, worked};
use crate::sectors::{picked_slot, sector, word};
use recover::TableFile;
use sector_disk::{MemDisk, SectorDisk};
use std::alloc::Global;

/// The sectors of 16 pages.
const SECTORS: u64 = 128;

/// Changes each byte of the first four sectors and of each page that the table names, to three values in turn, opens what that is, and
/// makes all calls on it. Prints how many changes there were. Answers whether each was refused, or opened.
pub fn sweep(rt: &HostRuntime, alloc: Global, take: &[u8]) -> anyhow::Result<bool> {
    let mut table = worked(alloc, take, SECTORS, 1)?;
    let mut changes: u64 = 0;
    for at in sectors_of(alloc, &mut table)? {
        for byte in 0..512 {
            for change in [1, 0x80, 0xff] {
                let changed = with_change(alloc, &mut table, at, byte, change)?;
                if ask_all::<TableFile<MemDisk>>(alloc, changed) == Outcome::Wrong {
                    println!(rt; "sector {at} byte {byte} by {change}: WRONG")?;
                    return Ok(false);
                }
                changes = changes.saturating_add(1);
            }
        }
    }
    println!(rt; "{changes} tables with one byte changed: each was refused as it is, or opened")?;
    Ok(true)
}

/// The first four sectors, and those of the pages that the picked root slot names: the text's, and the one of each tree.
fn sectors_of(alloc: Global, table: &mut MemDisk) -> anyhow::Result<Vec<u64>> {
    let picked = picked_slot(table)?;
    let slot = sector(table, picked)?;
    let mut sectors = Vec::new(alloc);
    for at in 0..4 {
        sectors.push(at)?;
    }
    for field in [16, 44, 48, 52, 56] {
        let page = u64::from(word(&slot, field));
        for part in 0..8 {
            sectors.push(8 * page + part)?;
        }
    }
    Ok(sectors)
}

/// The table with other bits of this byte.
fn with_change(
    alloc: Global,
    table: &mut MemDisk,
    at: u64,
    byte: usize,
    change: u8,
) -> anyhow::Result<MemDisk> {
    let mut bytes = sector(table, at)?;
    if byte < 512 {
        bytes[byte] ^= change;
    }
    let mut changed = table.after_stop(alloc, 0)?;
    put_sector(&mut changed, at, &bytes)?;
    changed.sync()?;
    Ok(changed)
}
