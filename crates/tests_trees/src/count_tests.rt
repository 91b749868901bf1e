//! Pages with no item, with one, with as many as fit and with more.

use crate::asked::{Pair, expect_map};
use crate::pages::{disk_with, lay};
use sector_disk::{MemDisk, SectorDisk};
use std::alloc::{AllocError, Global};
use std::test::Fail;

/// How many pages the disks have: enough for the greatest inner page and its children.
const PAGES: u32 = 700;

/// This many entries fill a leaf: each takes 3 bytes of 4,092.
const FULL_LEAF: u16 = 1_364;

/// This many children fill an inner page: each takes 6 bytes of 4,092.
const FULL_INNER: u16 = 682;

/// The entry with this number.
fn pair(number: u16) -> Pair {
    (number.wrapping_mul(16), number.to_be_bytes()[1])
}

/// The first entries.
fn pairs_upto(alloc: Global, count: u16) -> Result<Vec<Pair>, AllocError> {
    let mut pairs = Vec::new(alloc);
    for number in 0..count {
        pairs.push(pair(number))?;
    }
    Ok(pairs)
}

/// The first bytes of a page of this kind that says that it has this many items.
fn head(alloc: Global, kind: u8, count: u16) -> Result<Vec<u8>, AllocError> {
    let mut bytes = Vec::new(alloc);
    let [high, low] = count.to_be_bytes();
    bytes.extend_from_slice(&[kind, 0, high, low])?;
    Ok(bytes)
}

/// A leaf that says that it has this many entries, and has the first ones.
fn leaf(alloc: Global, count: u16) -> Result<Vec<u8>, AllocError> {
    let mut bytes = head(alloc, 1, count)?;
    for number in 0..count {
        let (key, value) = pair(number);
        bytes.extend_from_slice(&key.to_be_bytes())?;
        bytes.push(value)?;
    }
    bytes.truncate(4_096);
    Ok(bytes)
}

/// A root that says that it has this many children: the pages from 2 on.
fn root(alloc: Global, count: u16) -> Result<Vec<u8>, AllocError> {
    let mut bytes = head(alloc, 2, count)?;
    for number in 0..count {
        let (key, _) = pair(number);
        bytes.extend_from_slice(&key.to_be_bytes())?;
        bytes.extend_from_slice(&(2 + u32::from(number)).to_be_bytes())?;
    }
    bytes.truncate(4_096);
    Ok(bytes)
}

/// A disk with a root of this many children, each a leaf of one entry.
fn disk_of_children(alloc: Global, count: u16) -> Result<MemDisk, Fail> {
    let mut disk = disk_with(alloc, PAGES, &[(1, &root(alloc, count)?)])?;
    for number in 0..count {
        let (key, value) = pair(number);
        let [high, low] = key.to_be_bytes();
        let page = 2 + u32::from(number);
        lay(&mut disk, page, &[1, 0, 0, 1, high, low, value])?;
    }
    disk.sync()?;
    Ok(disk)
}

#[test]
fn leaves_have_one_entry_or_more_and_no_more_than_fit(rt: HostRuntime) -> Result<(), Fail> {
    for (count, is_map) in [
        (0, false),
        (1, true),
        (2, true),
        (FULL_LEAF, true),
        (FULL_LEAF + 1, false),
    ] {
        let disk = disk_with(rt.alloc(), PAGES, &[(1, &leaf(rt.alloc(), count)?)])?;
        let pairs = pairs_upto(rt.alloc(), count)?;
        let wanted = is_map.then_some(pairs.as_slice());
        expect_map(rt.alloc(), disk, 1, wanted, count)?;
    }
    Ok(())
}

#[test]
fn inner_pages_have_two_children_or_more_and_no_more_than_fit(rt: HostRuntime) -> Result<(), Fail> {
    for (count, is_map) in [
        (0, false),
        (1, false),
        (2, true),
        (FULL_INNER, true),
        (FULL_INNER + 1, false),
    ] {
        let disk = disk_of_children(rt.alloc(), count)?;
        let pairs = pairs_upto(rt.alloc(), count)?;
        let wanted = is_map.then_some(pairs.as_slice());
        expect_map(rt.alloc(), disk, 1, wanted, count)?;
    }
    Ok(())
}

#[test]
fn counts_that_no_page_has_room_for_are_no_map(rt: HostRuntime) -> Result<(), Fail> {
    for bytes in [
        [1, 0, 255, 255],
        [2, 0, 255, 255],
        [1, 0, 128, 0],
        [2, 0, 5, 0x55],
    ] {
        let disk = disk_with(rt.alloc(), PAGES, &[(1, &bytes)])?;
        expect_map(rt.alloc(), disk, 1, None, bytes)?;
    }
    Ok(())
}
