//! The game of takes, worked on trees of pages.
use audit::{Verdict, audit};
use game_table::{MAX_POSITIONS, Source, work};
use page_store::{PageStore, Pages};
use position_pack::PackingKind;
use root_pair::create;
use sector_disk::MemDisk;
use std::alloc::Global;
use std::test::Fail;
use table::{MemTable, Table};
use test_aids::{TAKE, expect};
use tree_table::{TreeTable, empty_slot};

/// The settled order of the finished game.
pub const ORDER: [u32; 7] = [4, 6, 2, 3, 5, 1, 0];

/// A store of 64 pages, all free, on a disk with an empty table.
fn free_store(alloc: Global) -> Result<PageStore<MemDisk>, Fail> {
    let mut disk = MemDisk::new(alloc, 512)?;
    create(&mut disk, &empty_slot(3, 64))?;
    match PageStore::open(alloc, disk) {
        Ok(store) => {
            let mut store = store;
            store.seal();
            Ok(store)
        }
        Err(_) => Err("the store cannot be opened".into()),
    }
}

/// The table of a game that was just loaded, on trees.
fn on_trees(alloc: Global, source: &Source) -> Result<TreeTable<PageStore<MemDisk>>, Fail> {
    let start = source.start();
    let packed = start.len() as u32;
    if packed == 0 || packed > 240 {
        return Err("the start has no length of a position".into());
    }
    let mut table = TreeTable::empty(alloc, free_store(alloc)?, packed);
    table.add(&start)?;
    Ok(table)
}

/// Does this many units of work, or fewer where the table is finished.
pub fn worked<T: Table>(
    alloc: Global,
    source: &Source,
    table: &mut T,
    units: u32,
) -> Result<u32, Fail> {
    if table.counts().known > MAX_POSITIONS {
        return Err("there are too many positions".into());
    }
    Ok(work(alloc, source.moves(), table, units)?)
}

/// Expects that both tables say the same of a number.
fn expect_number<T: Table>(table: &mut T, memory: &mut MemTable, number: u32) -> Result<(), Fail> {
    if number >= table.counts().known || number >= memory.counts().known {
        return Err("a position was lost".into());
    }
    expect(table.record(number)?, memory.record(number)?, number)?;
    let position = memory.packed(number)?;
    expect(table.number_of(&position)?, Some(number), number)?;
    expect(table.packed(number)?, position, number)
}

/// Expects that the same numbers lead to this one in both tables.
fn expect_edges<T: Table>(table: &mut T, memory: &mut MemTable, number: u32) -> Result<(), Fail> {
    let mut after = None;
    for _ in 0..8 {
        let next = memory.next_edge(number, after)?;
        expect(table.next_edge(number, after)?, next, number)?;
        if next.is_none() {
            return Ok(());
        }
        after = next;
    }
    Err("too many numbers lead to one".into())
}

/// Expects that both tables say the same of everything.
pub fn expect_same<T: Table>(table: &mut T, memory: &mut MemTable) -> Result<(), Fail> {
    expect(table.counts(), memory.counts(), "the counts")?;
    for number in 0..memory.counts().known {
        expect_number(table, memory, number)?;
        expect_edges(table, memory, number)?;
    }
    Ok(())
}

/// Expects this settled order.
pub fn expect_order<T: Table>(table: &mut T, order: &[u32]) -> Result<(), Fail> {
    expect(table.counts().settled as usize, order.len(), "the settled")?;
    for place in 0..table.counts().settled {
        if place >= table.counts().settled {
            return Err("a place was lost".into());
        }
        let wanted = order.get(place as usize).copied();
        expect(Some(table.settled_at(place)?), wanted, place)?;
    }
    Ok(())
}

/// Expects of the table of a game that was just loaded what the table in memory says, after each unit of work up to the last
/// of fourteen, and that the audit says that the finished table is right.
fn expect_units<T: Table>(alloc: Global, source: &Source, table: &mut T) -> Result<(), Fail> {
    let mut memory = MemTable::new(alloc, &source.start())?;
    for done in 0..=14 {
        expect_same(table, &mut memory)?;
        let more = worked(alloc, source, table, 1)?;
        expect(more, if done < 14 { 1 } else { 0 }, done)?;
        worked(alloc, source, &mut memory, 1)?;
    }
    expect_order(table, &ORDER)?;
    expect(
        audit(alloc, source.moves(), table)?,
        Verdict::Right,
        "the audit",
    )
}

#[test]
fn takes_on_trees_are_takes_in_memory(rt: HostRuntime) -> Result<(), Fail> {
    let source = Source::read(rt.alloc(), TAKE.as_bytes(), PackingKind::Bytes, None)?;
    let mut table = on_trees(rt.alloc(), &source)?;
    expect_units(rt.alloc(), &source, &mut table)
}
