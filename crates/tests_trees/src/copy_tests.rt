//! Tables in memory are copied onto trees of pages.
use crate::take_tests::{ORDER, expect_order, expect_same, worked};
use earlier_layouts::{CopyFault, copy_table};
use game_table::{MAX_POSITIONS, Source};
use page_store::{PageStore, Pages};
use position_pack::PackingKind;
use root_pair::create;
use sector_disk::MemDisk;
use std::alloc::Global;
use std::test::Fail;
use table::{MemTable, Table, TableFault};
use test_aids::{TAKE, expect};
use tree_table::{FIRST_WITH_GOALS, TreeTable, empty_slot};

/// A store of 64 pages, of which this many are free, on a disk with an empty table.
fn store_of(alloc: Global, free: u32) -> Result<PageStore<MemDisk>, Fail> {
    let mut disk = MemDisk::new(alloc, 512)?;
    create(&mut disk, &empty_slot(FIRST_WITH_GOALS, 64))?;
    match PageStore::open(alloc, disk) {
        Ok(store) => {
            let mut store = store;
            for page in free..63 {
                store.mark(page + 1)?;
            }
            store.seal();
            Ok(store)
        }
        Err(_) => Err("the store cannot be opened".into()),
    }
}

/// The table of the game of takes that was just loaded.
fn loaded(alloc: Global) -> Result<(Source, MemTable), Fail> {
    let source = Source::read(alloc, TAKE.as_bytes(), PackingKind::Bytes, None)?;
    let memory = MemTable::new(alloc, &source.start())?;
    Ok((source, memory))
}

/// Copies a table onto trees in a store with this many free pages.
fn copy_onto(
    alloc: Global,
    source: &Source,
    memory: &mut MemTable,
    free: u32,
) -> Result<(TreeTable<PageStore<MemDisk>>, Result<(), CopyFault>), Fail> {
    let packed = source.start().len() as u32;
    if packed == 0 || packed > 240 || memory.counts().known > MAX_POSITIONS {
        return Err("the table has no copy".into());
    }
    if !memory.fits(alloc, packed)? {
        return Err("the parts of the table do not fit together".into());
    }
    let mut table = TreeTable::empty(alloc, store_of(alloc, free)?, packed);
    let copied = copy_table(memory, &mut table);
    Ok((table, copied))
}

#[test]
fn a_copy_is_the_same_table(rt: HostRuntime) -> Result<(), Fail> {
    let (source, mut memory) = loaded(rt.alloc())?;
    for units in [0, 5, 9] {
        worked(rt.alloc(), &source, &mut memory, units)?;
        let (mut table, copied) = copy_onto(rt.alloc(), &source, &mut memory, 63)?;
        expect(copied, Ok(()), units)?;
        expect_same(&mut table, &mut memory)?;
        if memory.counts().settled == 7 {
            expect_order(&mut table, &ORDER)?;
        }
    }
    expect(memory.counts().settled, 7, "the settled")
}

#[test]
fn a_store_that_is_full_refuses_a_copy(rt: HostRuntime) -> Result<(), Fail> {
    let (source, mut memory) = loaded(rt.alloc())?;
    worked(rt.alloc(), &source, &mut memory, 14)?;
    for free in 0..4 {
        let (_table, copied) = copy_onto(rt.alloc(), &source, &mut memory, free)?;
        expect(copied, Err(CopyFault::To(TableFault::TableFull)), free)?;
    }
    let (mut table, copied) = copy_onto(rt.alloc(), &source, &mut memory, 4)?;
    expect(copied, Ok(()), "four pages")?;
    expect_same(&mut table, &mut memory)
}
