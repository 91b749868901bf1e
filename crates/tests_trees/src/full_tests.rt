//! Keys are put until no page is free, and the store goes back to its last commit.

use crate::pages::{empty_disk, opened};
use btree::find::get;
use btree::page::Widths;
use btree::put::put;
use page_store::{PageFault, PageStore, Pages};
use sector_disk::MemDisk;
use std::alloc::Global;
use std::test::Fail;
use test_aids::expect;

/// How long keys and values are: a leaf has room for 15 entries of 258 bytes.
const WIDE: Widths = Widths { key: 2, value: 256 };

/// The first byte of the value at this key.
fn byte_at<P: Pages>(store: &mut P, root: u32, key: u16) -> Result<Option<u8>, PageFault> {
    let value = get(store, WIDE, root, &key.to_be_bytes())?;
    Ok(value.and_then(|bytes| bytes.first().copied()))
}

/// A store of 16 pages with a committed map of one entry, of key 0 and ones, and the root of that map.
fn small_store(alloc: Global) -> Result<(PageStore<MemDisk>, u32), Fail> {
    let mut store = opened(alloc, empty_disk(alloc, 16)?)?;
    store.seal();
    let root = put(&mut store, WIDE, 0, &[0; 2], &[1; 256])?;
    store.commit(&[1; 512])?;
    Ok((store, root))
}

/// How many keys are put, from 0 on, with twos, before one is refused, and why that is.
fn put_upto_refusal<P: Pages>(store: &mut P, root: u32) -> (u16, Option<PageFault>) {
    let mut root = root;
    for key in 0..1000_u16 {
        match put(store, WIDE, root, &key.to_be_bytes(), &[2; 256]) {
            Ok(next) => root = next,
            Err(fault) => return (key, Some(fault)),
        }
    }
    (1000, None)
}

#[test]
fn a_put_is_refused_once_no_page_is_free(rt: HostRuntime) -> Result<(), Fail> {
    let (mut store, root) = small_store(rt.alloc())?;
    expect(store.free_pages(), 14, "free at first")?;
    // The leaf takes another page. With keys that ascend a leaf that is full stays so: with key 15 there are a second leaf and a root,
    // and each 15 keys take one leaf more. With the thirteenth no page is free, and a fourteenth would come with key 195.
    let told = put_upto_refusal(&mut store, root);
    expect(told, (195, Some(PageFault::TableFull)), "puts")?;
    expect(store.free_pages(), 0, "free then")
}

#[test]
fn after_a_refusal_the_store_goes_back(rt: HostRuntime) -> Result<(), Fail> {
    let (mut store, root) = small_store(rt.alloc())?;
    let told = put_upto_refusal(&mut store, root);
    expect(told.1, Some(PageFault::TableFull), "puts")?;
    store.discard();
    expect(store.free_pages(), 14, "free again")?;
    let values = [byte_at(&mut store, root, 0)?, byte_at(&mut store, root, 1)?];
    expect(values, [Some(1), None], "the old map")?;
    let again = put_upto_refusal(&mut store, root);
    expect(again, told, "puts again")
}
