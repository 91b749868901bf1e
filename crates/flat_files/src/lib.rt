//! Files of layout 1 on disks in memory, for the trials of what reads them. They are written by the words of docs/FORMAT.md, and nothing
//! is promised of them.
#![tactic(auto)]

mod chain;
mod content;

use crate::chain::write_chain;
use crate::content::{Content, content_of};
use game_file::{number_of_packing, put_long, put_word};
use game_table::Source;
use position_pack::PackingKind;
use root_pair::create;
use sector_disk::MemDisk;
use std::alloc::Global;
use table::{MemTable, Table};

/// The number of the layout.
const LAYOUT: u32 = 1;

/// How the positions are packed.
const PACKING: PackingKind = PackingKind::Bits;

/// A new disk of this many sectors with the empty table.
pub fn empty_file(alloc: Global, sectors: u64) -> anyhow::Result<MemDisk> {
    let mut disk = MemDisk::new(alloc, sectors)?;
    let mut root = [0; 512];
    put_word(&mut root, 0, LAYOUT);
    create(&mut disk, &root)?;
    Ok(disk)
}

/// A new disk of this many sectors with the game of this text, worked in memory by so many units, or by fewer where it is finished then.
pub fn worked_file(
    alloc: Global,
    sectors: u64,
    text: &[u8],
    units: u32,
) -> anyhow::Result<MemDisk> {
    let source = Source::read(alloc, text, PACKING, None)?;
    let start = source.start();
    let mut table = MemTable::new(alloc, &start)?;
    source.work(alloc, &mut table, units)?;
    let content = content_of(alloc, text, &mut table)?;
    let mut disk = MemDisk::new(alloc, sectors)?;
    write_chain(&mut disk, &content.bytes)?;
    let root = slot_of(text.len(), start.len(), &table, &content);
    create(&mut disk, &root)?;
    Ok(disk)
}

/// The root slot of this table, of which text and positions have so many bytes, and whose chain begins at page 1.
fn slot_of(text: usize, packed: usize, table: &MemTable, content: &Content) -> [u8; 512] {
    let counts = table.counts();
    let mut root = [0; 512];
    put_word(&mut root, 0, LAYOUT);
    put_word(&mut root, 4, number_of_packing(PACKING));
    put_long(&mut root, 8, 1);
    put_word(&mut root, 16, 1);
    put_word(&mut root, 20, text.min(u32::MAX as usize) as u32);
    put_word(&mut root, 24, packed.min(u32::MAX as usize) as u32);
    put_word(&mut root, 28, counts.known);
    put_word(&mut root, 32, counts.expanded);
    put_word(&mut root, 36, counts.settled);
    put_word(&mut root, 40, counts.processed);
    put_long(&mut root, 60, content.edges);
    root
}
