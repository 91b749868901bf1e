//! A map is walked and asked, and what it answers is compared with entries by hand. Keys have two bytes and values one.

use crate::pages::opened;
use crate::seen::Seen;
use btree::find::{Entry, get, next_after};
use btree::page::Widths;
use btree::put::put;
use btree::walk::{WalkFault, walk};
use page_store::{PageFault, PageStore, Pages};
use sector_disk::MemDisk;
use std::alloc::{AllocError, Global};
use std::fmt::Debug;
use std::test::Fail;
use test_aids::expect;

/// How long keys and values are.
pub const SHORT: Widths = Widths { key: 2, value: 1 };

/// A key and its value.
pub type Pair = (u16, u8);

/// The key and the value of an entry.
fn pair_of(entry: &Entry) -> Pair {
    let key = match entry.key.as_slice() {
        [high, low] => u16::from_be_bytes([*high, *low]),
        _ => 0,
    };
    (key, entry.value.first().copied().unwrap_or(0))
}

/// What a walk tells of the map below this root; none where it says that there is no map.
pub fn walked<P: Pages>(
    alloc: Global,
    store: &mut P,
    root: u32,
) -> Result<Option<Vec<Pair>>, Fail> {
    let mut seen = Seen::new(alloc);
    match walk(store, SHORT, root, &mut seen) {
        Ok(()) => Ok(Some(pairs_of(alloc, &seen.entries)?)),
        Err(WalkFault::Store(PageFault::Damaged)) => Ok(None),
        Err(fault) => Err(fault.into()),
    }
}

/// The keys and values of these entries.
fn pairs_of(alloc: Global, entries: &[Entry]) -> Result<Vec<Pair>, AllocError> {
    let mut pairs = Vec::new(alloc);
    for entry in entries {
        pairs.push(pair_of(entry))?;
    }
    Ok(pairs)
}

/// Walks the map below the root on this disk, and expects these entries of it, or that it is no map. Then it asks: a map
/// answers what it has, and what is none answers something or refuses with a number.
pub fn expect_map<R: Debug + Copy + Drop>(
    alloc: Global,
    disk: MemDisk,
    root: u32,
    wanted: Option<&[Pair]>,
    row: R,
) -> Result<(), Fail> {
    let mut store = opened(alloc, disk)?;
    let found = walked(alloc, &mut store, root)?;
    expect(found.as_deref(), wanted, row)?;
    store.seal();
    match wanted {
        Some(pairs) => ask_map(&mut store, root, pairs, row),
        None => ask_anything(&mut store, root, row),
    }
}

/// The value at this key.
pub fn value_at<P: Pages>(store: &mut P, root: u32, key: u16) -> Result<Option<u8>, PageFault> {
    let value = get(store, SHORT, root, &key.to_be_bytes())?;
    Ok(value.and_then(|bytes| bytes.first().copied()))
}

/// The entry with the next greater key.
pub fn pair_after<P: Pages>(
    store: &mut P,
    root: u32,
    key: &[u8],
) -> Result<Option<Pair>, PageFault> {
    let next = next_after(store, SHORT, root, key)?;
    Ok(next.as_ref().map(pair_of))
}

/// Puts a value at a key, and answers what is found there.
pub fn put_and_get<P: Pages>(store: &mut P, root: u32, key: u16) -> Result<Option<u8>, PageFault> {
    let next = put(store, SHORT, root, &key.to_be_bytes(), &[77])?;
    value_at(store, next, key)
}

/// Each entry of a map is found at its key, and as the next one after the key before; and a key can be put.
fn ask_map<P: Pages, R: Debug + Copy + Drop>(
    store: &mut P,
    root: u32,
    pairs: &[Pair],
    row: R,
) -> Result<(), Fail> {
    let mut before = [0; 2];
    let mut told = pair_after(store, root, &[])?;
    for (key, value) in pairs {
        expect(told, Some((*key, *value)), row)?;
        expect(value_at(store, root, *key)?, Some(*value), row)?;
        before = key.to_be_bytes();
        told = pair_after(store, root, &before)?;
    }
    expect(told, None, row)?;
    expect(put_and_get(store, root, 0x0050)?, Some(77), row)
}

/// Whether this is an answer, or that there is no map, or that no page is free.
fn is_answer<T>(told: &Result<T, PageFault>) -> bool {
    match told {
        Ok(_) => true,
        Err(fault) => *fault == PageFault::Damaged || *fault == PageFault::TableFull,
    }
}

/// Each call comes to an end, with an answer or a refusal that says that there is no map.
fn ask_anything<P: Pages, R: Debug + Copy + Drop>(
    store: &mut P,
    root: u32,
    row: R,
) -> Result<(), Fail> {
    for key in [0, 0x0020, 0x0050, 0x0080, 0xffff] {
        let got = value_at(store, root, key);
        let next = pair_after(store, root, &key.to_be_bytes());
        let put = put_and_get(store, root, key);
        let told = [is_answer(&got), is_answer(&next), is_answer(&put)];
        expect(told, [true; 3], row)?;
    }
    Ok(())
}
