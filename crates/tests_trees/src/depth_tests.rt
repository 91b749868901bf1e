//! Trees of many levels: on anything each call comes to an end within 24.

use crate::asked::{Pair, SHORT, pair_after, put_and_get, value_at, walked};
use crate::pages::{disk_with, lay, opened};
use page_store::{PageFault, PageStore, Pages};
use sector_disk::{MemDisk, SectorDisk};
use std::alloc::Global;
use std::test::Fail;
use test_aids::expect;

/// How many pages the disks have.
const PAGES: u32 = 64;

/// A leaf beside the way down.
const ASIDE: u32 = 31;

/// A disk with inner pages from 1 on, each with the next page as its first child, and a leaf as the page of the last
/// level. Beside each child is the same leaf: this is no map.
fn deep_disk(alloc: Global, levels: u32) -> Result<MemDisk, Fail> {
    let mut disk = disk_with(alloc, PAGES, &[(ASIDE, &[1, 0, 0, 1, 0xff, 0, 6])])?;
    for page in 1..levels {
        let [.., next] = (page + 1).to_be_bytes();
        lay(
            &mut disk,
            page,
            &[2, 0, 0, 2, 0, 0, 0, 0, 0, next, 0xff, 0, 0, 0, 0, 31],
        )?;
    }
    lay(&mut disk, levels, &[1, 0, 0, 1, 0, 0, 5])?;
    Ok(disk)
}

/// The store on that disk, with its pages marked.
fn deep_store(alloc: Global, levels: u32) -> Result<PageStore<MemDisk>, Fail> {
    let mut store = opened(alloc, deep_disk(alloc, levels)?)?;
    for page in 1..=ASIDE {
        store.mark(page)?;
    }
    store.seal();
    Ok(store)
}

/// What is told of a tree: the value at key 0, the entry after it, and what is found at key 0 once it is put.
type Told = (
    Result<Option<u8>, PageFault>,
    Result<Option<Pair>, PageFault>,
    Result<Option<u8>, PageFault>,
);

/// What is told of a tree of this many levels.
fn told(alloc: Global, levels: u32) -> Result<Told, Fail> {
    let mut store = deep_store(alloc, levels)?;
    let value = value_at(&mut store, 1, 0);
    let next = pair_after(&mut store, 1, &[0, 0]);
    Ok((value, next, put_and_get(&mut store, 1, 0)))
}

#[test]
fn the_leaf_of_the_last_of_24_levels_is_found(rt: HostRuntime) -> Result<(), Fail> {
    for levels in [2, 3, 23, 24] {
        let wanted = (Ok(Some(5)), Ok(Some((0xff00, 6))), Ok(Some(77)));
        expect(told(rt.alloc(), levels)?, wanted, levels)?;
    }
    Ok(())
}

#[test]
fn of_25_levels_no_leaf_is_found(rt: HostRuntime) -> Result<(), Fail> {
    for levels in [25, 26, 30] {
        let wanted = (
            Err(PageFault::Damaged),
            Err(PageFault::Damaged),
            Err(PageFault::Damaged),
        );
        expect(told(rt.alloc(), levels)?, wanted, levels)?;
    }
    Ok(())
}

#[test]
fn no_such_tree_is_walked(rt: HostRuntime) -> Result<(), Fail> {
    for levels in [3, 23, 24, 25, 30] {
        let mut store = opened(rt.alloc(), deep_disk(rt.alloc(), levels)?)?;
        expect(walked(rt.alloc(), &mut store, 1)?.is_none(), true, levels)?;
    }
    Ok(())
}
