//! Chains are written, committed and read back on a disk in memory, and on one of which a call fails (`page_chain`).

use crate::disks::{bytes_of, commit, opened, sealed, table_disk};
use page_chain::{Chain, PAYLOAD, read_chain, write_chain};
use page_store::{PageFault, PageStore, Pages};
use sector_disk::{FlakyDisk, MemDisk, SectorDisk};
use std::alloc::{AllocError, Global};
use std::test::Fail;
use test_aids::expect;

/// Sectors of a disk of 16 pages.
const SIXTEEN: u64 = 128;

/// Sectors of a disk of 20 pages.
const TWENTY: u64 = 160;

/// A disk of this many sectors with a table on it.
fn disk_of(alloc: Global, sectors: u64) -> Result<MemDisk, Fail> {
    table_disk(alloc, sectors, &[7; 512])
}

/// The bytes 0 to 250, again and again.
fn content_of(alloc: Global, size: usize) -> Result<Vec<u8>, AllocError> {
    let mut content = Vec::new(alloc);
    for place in 0..size {
        content.push((place % 251) as u8)?;
    }
    Ok(content)
}

/// Commits this content in a chain, and answers its first page.
fn put<P: Pages>(alloc: Global, store: &mut P, content: &[u8]) -> Result<u32, PageFault> {
    let first = write_chain(alloc, store, content)?.first().copied();
    commit(store, 8)?;
    Ok(first.unwrap_or(0))
}

/// A disk of 20 pages with this content in a chain, and its first page.
fn written(alloc: Global, content: &[u8]) -> Result<(MemDisk, u32), Fail> {
    let mut store = sealed(alloc, disk_of(alloc, TWENTY)?)?;
    let first = put(alloc, &mut store, content)?;
    Ok((store.into_disk(), first))
}

/// What is read from the disk, which is opened first.
fn read_back<D: SectorDisk + Drop>(
    alloc: Global,
    disk: D,
    first: u32,
    size: usize,
) -> Result<Chain, PageFault> {
    let mut store = opened(alloc, disk)?;
    read_chain(alloc, &mut store, first, size)
}

/// How many pages this many bytes take, and whether they are read back.
fn told_back(alloc: Global, size: usize) -> Result<(usize, bool), Fail> {
    let content = content_of(alloc, size)?;
    let (disk, first) = written(alloc, &content)?;
    let chain = read_back(alloc, disk, first, size)?;
    Ok((chain.pages.len(), chain.content == content))
}

#[test]
fn what_is_written_is_read_back(rt: HostRuntime) -> Result<(), Fail> {
    for (size, pages) in [(0, 0), (1, 1), (4_092, 1), (4_093, 2), (65_786, 17)] {
        expect(told_back(rt.alloc(), size)?, (pages, true), size)?;
    }
    Ok(())
}

/// A store of which the pages 257 and 258 alone are free.
fn two_free(alloc: Global) -> Result<PageStore<MemDisk>, Fail> {
    let mut store = opened(alloc, disk_of(alloc, 8 * 259)?)?;
    for page in 1..257 {
        store.mark(page)?;
    }
    store.seal();
    Ok(store)
}

/// The pages of a chain that takes two.
fn pages_of_two<P: Pages>(alloc: Global, store: &mut P) -> Result<(u32, u32), Fail> {
    let mut content = [1; PAYLOAD + 2];
    content[PAYLOAD] = 9;
    content[PAYLOAD + 1] = 8;
    match write_chain(alloc, store, &content)?.as_slice() {
        [first, second] => Ok((*first, *second)),
        _ => Err("so much content takes two pages".into()),
    }
}

/// The first bytes of both pages of a chain, whether the last is zero after them, and which page is the last.
fn two_pages<P: Pages>(alloc: Global, store: &mut P) -> Result<([[u8; 8]; 2], bool, u32), Fail> {
    let (first, second) = pages_of_two(alloc, store)?;
    let naming = bytes_of(store, first)?;
    let named = bytes_of(store, second)?;
    let zero = named[8..].iter().all(|byte| *byte == 0);
    Ok(([head_of(&naming), head_of(&named)], zero, second))
}

/// The first bytes of a page.
fn head_of(page: &[u8; 4096]) -> [u8; 8] {
    let mut head = [0; 8];
    head.copy_from_slice(&page[..8]);
    head
}

#[test]
fn a_page_names_the_next_in_its_first_four_bytes(rt: HostRuntime) -> Result<(), Fail> {
    let mut store = two_free(rt.alloc())?;
    let (heads, zero, second) = two_pages(rt.alloc(), &mut store)?;
    drop(store);
    // 257 is 256 + 1, and 258 is 256 + 2.
    let number = if second == 257 { 1 } else { 2 };
    let wanted = [[0, 0, 1, number, 1, 1, 1, 1], [0, 0, 0, 0, 9, 8, 0, 0]];
    expect((heads, zero), (wanted, true), "heads")
}

/// The fault of writing 5,000 bytes on a disk of which this call fails, the opening counted.
fn writing_fault(alloc: Global, at_call: u64) -> Result<Option<PageFault>, Fail> {
    match sealed(
        alloc,
        FlakyDisk::new(disk_of(alloc, SIXTEEN)?, at_call, false),
    ) {
        Ok(store) => {
            let mut store = store;
            Ok(write_chain(alloc, &mut store, &[6; 5_000]).err())
        }
        Err(fault) => Ok(Some(fault)),
    }
}

/// The fault of reading 5,000 bytes back from a disk of which this call fails, and whether they are all read.
fn reading_fault(alloc: Global, at_call: u64) -> Result<(Option<PageFault>, bool), Fail> {
    let (disk, first) = written(alloc, &[6; 5_000])?;
    match read_back(alloc, FlakyDisk::new(disk, at_call, false), first, 5_000) {
        Ok(chain) => Ok((None, chain.content.as_slice() == [6; 5_000].as_slice())),
        Err(fault) => Ok((Some(fault), false)),
    }
}

#[test]
fn a_call_that_fails_is_told(rt: HostRuntime) -> Result<(), Fail> {
    // Four calls of opening, and eight for each of two pages.
    for at_call in 0..=20 {
        let all_pass = at_call == 20;
        let fault = (!all_pass).then_some(PageFault::Disk);
        let found = (
            writing_fault(rt.alloc(), at_call)?,
            reading_fault(rt.alloc(), at_call)?,
        );
        expect(found, (fault, (fault, all_pass)), at_call)?;
    }
    Ok(())
}
