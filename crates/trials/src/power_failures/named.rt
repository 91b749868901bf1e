//! The pages that a file names, found by a reading of the format of its own.

use crate::sectors::{picked_slot, sector, word};
use sector_disk::MemDisk;
use std::alloc::Global;

/// No file here has more pages.
const MOST_PAGES: u32 = 4_096;

/// The bytes of a page.
fn page(disk: &mut MemDisk, number: u32) -> anyhow::Result<[u8; 4096]> {
    let mut bytes = [0; 4096];
    for part in 0..8 {
        let read = sector(disk, 8 * u64::from(number) + part as u64)?;
        bytes[512 * part..512 * part + 512].copy_from_slice(&read);
    }
    Ok(bytes)
}

/// How many pages the picked root slot tells.
pub fn told_pages(disk: &mut MemDisk) -> anyhow::Result<u32> {
    let picked = picked_slot(disk)?;
    let slot = sector(disk, picked)?;
    Ok(word(&slot, 68))
}

/// The pages of the chain and of the four trees that the picked root slot names.
pub fn named_pages(alloc: Global, disk: &mut MemDisk) -> anyhow::Result<Vec<u32>> {
    let picked = picked_slot(disk)?;
    let slot = sector(disk, picked)?;
    let mut named = Vec::new(alloc);
    let mut next = word(&slot, 16);
    for _ in 0..MOST_PAGES {
        if next == 0 {
            break;
        }
        named.push(next)?;
        next = word(&page(disk, next)?, 0);
    }
    let length = word(&slot, 24) as usize;
    for (at, key) in [(44, length), (48, 4), (52, 8), (56, 4)] {
        add_tree(alloc, disk, word(&slot, at), key, &mut named)?;
    }
    Ok(named)
}

/// The pages of the tree with this root, of which the keys have this many bytes.
fn add_tree(
    alloc: Global,
    disk: &mut MemDisk,
    root: u32,
    key: usize,
    named: &mut Vec<u32>,
) -> anyhow::Result<()> {
    let mut waiting = Vec::new(alloc);
    if root != 0 {
        waiting.push(root)?;
    }
    for _ in 0..MOST_PAGES {
        let Some(number) = waiting.pop() else {
            break;
        };
        named.push(number)?;
        let bytes = page(disk, number)?;
        if bytes[0] == 2 {
            let items = bytes[4..].chunks_exact(key.saturating_add(4).max(1));
            let count = usize::from(bytes[2]) * 256 + usize::from(bytes[3]);
            for item in items.take(count) {
                waiting.push(word(item, key))?;
            }
        }
    }
    Ok(())
}
