//! 20,000 keys are put, with a commit after each 256, and then each is put again with another value. At each commit the
//! map agrees with one of std, and until then the committed root gives the old values.

use crate::pages::{empty_disk, opened};
use crate::seen::Seen;
use btree::find::{Entry, get, next_after};
use btree::page::Widths;
use btree::put::put;
use btree::walk::walk;
use page_store::{PageFault, PageStore, Pages};
use sector_disk::MemDisk;
use std::alloc::Global;
use std::collections::BTreeMap;
use std::test::Fail;
use test_aids::expect;

/// How long keys and values are.
const LONG: Widths = Widths { key: 8, value: 4 };

/// How many keys there are.
const KEYS: u64 = 20_000;

/// This many are put between two commits.
const BATCH: u64 = 256;

/// How far a key is from the next: all eight bytes of keys differ.
const STEP: u64 = 922_337_203_685_477;

/// In which order keys are put.
#[derive(Clone, Copy)]
enum Order {
    Ascending,
    Descending,
    Mixed,
}

/// The key that is put as this one.
fn key_of(order: Order, place: u64) -> u64 {
    let number = match order {
        Order::Ascending => place,
        Order::Descending => (KEYS - 1).saturating_sub(place),
        // 7919 and 20,000 have no common divisor, so that each number comes once.
        Order::Mixed => place.wrapping_mul(7_919) % KEYS,
    };
    number.wrapping_mul(STEP)
}

/// The value that is put as this one: the first time, or the second.
fn value_of(place: u64, again: bool) -> u32 {
    let number = u32::try_from(place).unwrap_or(0);
    if again { !number } else { number }
}

/// A number of four bytes.
fn number_of(bytes: &[u8]) -> u32 {
    match bytes {
        [a, b, c, d] => u32::from_be_bytes([*a, *b, *c, *d]),
        _ => 0,
    }
}

/// The key and the value of an entry.
fn pair_of(entry: &Entry) -> (u64, u32) {
    let key = match entry.key.as_slice() {
        [a, b, c, d, e, f, g, h] => u64::from_be_bytes([*a, *b, *c, *d, *e, *f, *g, *h]),
        _ => 0,
    };
    (key, number_of(entry.value.as_slice()))
}

/// The value at this key.
fn value_at<P: Pages>(store: &mut P, root: u32, key: u64) -> Result<Option<u32>, PageFault> {
    let value = get(store, LONG, root, &key.to_be_bytes())?;
    Ok(value.map(|bytes| number_of(bytes.as_slice())))
}

/// The next entry.
fn pair_after<P: Pages>(
    store: &mut P,
    root: u32,
    key: &[u8],
) -> Result<Option<(u64, u32)>, PageFault> {
    let next = next_after(store, LONG, root, key)?;
    Ok(next.as_ref().map(pair_of))
}

/// The root that is committed: its slot has the page of the map in its first bytes.
fn committed_root<P: Pages>(store: &P) -> u32 {
    let slot = store.root();
    let (root, _) = slot.bytes.split_at(4);
    number_of(root)
}

/// The slot of a root.
fn slot_of(root: u32) -> [u8; 512] {
    let mut slot = [0; 512];
    slot[..4].copy_from_slice(&root.to_be_bytes());
    slot
}

/// The values that are put between two commits.
#[derive(Clone, Copy)]
struct Batch {
    order: Order,
    /// The first that is put, and the first that is not.
    from: u64,
    to: u64,
    /// Whether each key has a value already.
    again: bool,
}

/// The value at the key that is put as this one, before it is put.
fn value_before(place: u64, batch: Batch) -> Option<u32> {
    batch.again.then_some(value_of(place, false))
}

/// Puts the values of a batch, each into the map and into the plain one, and answers the new root.
fn put_batch<P: Pages>(
    store: &mut P,
    plain: &mut BTreeMap<u64, u32>,
    batch: Batch,
) -> Result<u32, Fail> {
    let mut root = committed_root(store);
    for place in batch.from..batch.to {
        let key = key_of(batch.order, place);
        let value = value_of(place, batch.again);
        let before = plain.insert(key, value)?;
        expect(before, value_before(place, batch), place)?;
        expect(value_at(store, root, key)?, before, place)?;
        root = put(store, LONG, root, &key.to_be_bytes(), &value.to_be_bytes())?;
        expect(value_at(store, root, key)?, Some(value), place)?;
    }
    Ok(root)
}

/// Below the committed root each key of the batch has the value that it had before.
fn expect_old_values<P: Pages>(store: &mut P, batch: Batch) -> Result<(), Fail> {
    let root = committed_root(store);
    for place in batch.from..batch.to {
        let key = key_of(batch.order, place);
        expect(
            value_at(store, root, key)?,
            value_before(place, batch),
            place,
        )?;
    }
    Ok(())
}

/// The map below the committed root has the entries of the plain one: each is found at its key, and as the next one after
/// the key before, and after the last there is none.
fn expect_same<P: Pages>(store: &mut P, plain: &BTreeMap<u64, u32>) -> Result<(), Fail> {
    let root = committed_root(store);
    let mut next = pair_after(store, root, &[])?;
    for (key, value) in plain {
        expect(next, Some((*key, *value)), *key)?;
        expect(value_at(store, root, *key)?, Some(*value), *key)?;
        next = pair_after(store, root, &key.to_be_bytes())?;
    }
    expect(next, None, "behind the last key")
}

/// The entries that were told are those of the plain map.
fn expect_told(entries: &[Entry], plain: &BTreeMap<u64, u32>) -> Result<(), Fail> {
    expect(entries.len(), plain.len(), "entries")?;
    for (entry, (key, value)) in entries.iter().zip(plain) {
        expect(pair_of(entry), (*key, *value), *key)?;
    }
    Ok(())
}

/// Opens the store again as a stop of the power would leave it, and walks its map.
fn reopened(
    alloc: Global,
    disk: &MemDisk,
    plain: &BTreeMap<u64, u32>,
) -> Result<PageStore<MemDisk>, Fail> {
    let mut store = opened(alloc, disk.after_stop(alloc, 2)?)?;
    let mut seen = Seen::new(alloc);
    let root = committed_root(&store);
    walk(&mut store, LONG, root, &mut seen)?;
    expect_told(&seen.entries, plain)?;
    store.seal();
    Ok(store)
}

/// Puts a batch, commits it, and opens the store again.
fn commit_batch(
    alloc: Global,
    store: PageStore<MemDisk>,
    plain: &mut BTreeMap<u64, u32>,
    batch: Batch,
) -> Result<PageStore<MemDisk>, Fail> {
    let mut store = store;
    let root = put_batch(&mut store, plain, batch)?;
    expect_old_values(&mut store, batch)?;
    store.commit(&slot_of(root))?;
    expect_same(&mut store, plain)?;
    reopened(alloc, &store.into_disk(), plain)
}

/// Puts all keys in this order, batch by batch.
fn put_all(
    alloc: Global,
    store: PageStore<MemDisk>,
    plain: &mut BTreeMap<u64, u32>,
    order: Order,
    again: bool,
) -> Result<PageStore<MemDisk>, Fail> {
    let mut store = store;
    for number in 0..KEYS.div_ceil(BATCH) {
        let from = number * BATCH;
        let to = (from + BATCH).min(KEYS);
        let batch = Batch {
            order,
            from,
            to,
            again,
        };
        store = commit_batch(alloc, store, plain, batch)?;
    }
    Ok(store)
}

/// Puts all keys twice in this order.
fn put_twice(alloc: Global, order: Order) -> Result<(), Fail> {
    let mut plain = BTreeMap::new(alloc);
    let mut store = opened(alloc, empty_disk(alloc, 600)?)?;
    store.seal();
    let store = put_all(alloc, store, &mut plain, order, false)?;
    expect(plain.len(), KEYS as usize, "keys")?;
    let _store = put_all(alloc, store, &mut plain, order, true)?;
    Ok(())
}

#[test]
fn ascending_keys_agree_with_a_plain_map(rt: HostRuntime) -> Result<(), Fail> {
    put_twice(rt.alloc(), Order::Ascending)
}

#[test]
fn descending_keys_agree_with_a_plain_map(rt: HostRuntime) -> Result<(), Fail> {
    put_twice(rt.alloc(), Order::Descending)
}

#[test]
fn mixed_keys_agree_with_a_plain_map(rt: HostRuntime) -> Result<(), Fail> {
    put_twice(rt.alloc(), Order::Mixed)
}
