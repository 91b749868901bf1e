//! The measuring: all keys are put, each is read, and all are gone through in order.

use crate::tree::keys::{key_of, value_of};
use btree::find::{get, next_after};
use btree::page::{Kind, Widths, item_at, kind_of};
use btree::put::put;
use byteorder::{BigEndian, ByteOrder};
use page_store::{PageFault, Pages};
use std::fmt::{self, Display, Formatter, Write};
use std::time::Instant;

/// How long keys and values are.
const WIDTHS: Widths = Widths { key: 8, value: 4 };

/// This many puts are between two commits.
const BATCH: u64 = 256;

/// How many levels a tree has at most.
const LEVELS: u32 = 24;

/// How many microseconds each part took.
#[derive(Drop)]
pub struct Times {
    put: u128,
    get: u128,
    next: u128,
}

impl Display for Times {
    fn fmt<W: Write>(&self, f: &mut Formatter<W>) -> fmt::Result {
        write!(f, "put {} get {} next {}", self.put, self.get, self.next)
    }
}

/// What is found.
#[derive(Drop)]
pub struct Counts {
    /// How many keys were put.
    pub keys: u64,
    /// How many levels the tree has, and how many pages are in use.
    pub levels: u32,
    pub pages: u32,
    /// How many keys were found with their values.
    pub found: u64,
    /// How many were found one after another, in order.
    pub ascending: u64,
}

impl Display for Counts {
    fn fmt<W: Write>(&self, f: &mut Formatter<W>) -> fmt::Result {
        write!(
            f,
            "keys {} levels {} pages {} found {} ascending {}",
            self.keys, self.levels, self.pages, self.found, self.ascending
        )
    }
}

/// What is found, and how long it took.
#[derive(Drop)]
pub struct Measured {
    pub times: Times,
    pub counts: Counts,
}

/// Puts this many keys, reads each, and goes through all.
pub fn measure<P: Pages>(rt: &HostRuntime, store: &mut P, keys: u64) -> anyhow::Result<Measured> {
    let start = Instant::now(rt)?;
    let root = put_all(store, keys)?;
    let putting = start.elapsed(rt)?.as_micros();
    let start = Instant::now(rt)?;
    let found = count_found(store, root, keys)?;
    let getting = start.elapsed(rt)?.as_micros();
    let start = Instant::now(rt)?;
    let ascending = count_ascending(store, root, keys)?;
    let going = start.elapsed(rt)?.as_micros();
    let counts = Counts {
        keys,
        levels: levels_of(store, root)?,
        pages: store.capacity().saturating_sub(store.free_pages()),
        found,
        ascending,
    };
    let times = Times {
        put: putting,
        get: getting,
        next: going,
    };
    Ok(Measured { times, counts })
}

/// The slot of a root: the page of the map in its first bytes.
fn slot_of(root: u32) -> [u8; 512] {
    let mut slot = [0; 512];
    slot[..4].copy_from_slice(&root.to_be_bytes());
    slot
}

/// Puts this many keys, with a commit after each 256, and answers the root.
fn put_all<P: Pages>(store: &mut P, keys: u64) -> Result<u32, PageFault> {
    let mut root = 0;
    for number in 0..keys {
        root = put(store, WIDTHS, root, &key_of(number), &value_of(number))?;
        if number % BATCH == BATCH - 1 {
            store.commit(&slot_of(root))?;
        }
    }
    store.commit(&slot_of(root))?;
    Ok(root)
}

/// How many of the keys are found with their values.
fn count_found<P: Pages>(store: &mut P, root: u32, keys: u64) -> Result<u64, PageFault> {
    let mut found: u64 = 0;
    for number in 0..keys {
        if let Some(value) = get(store, WIDTHS, root, &key_of(number))?
            && value.as_slice() == value_of(number).as_slice()
        {
            found = found.saturating_add(1);
        }
    }
    Ok(found)
}

/// How many keys are found one after another, each greater than the one before.
fn count_ascending<P: Pages>(store: &mut P, root: u32, keys: u64) -> Result<u64, PageFault> {
    let mut last = [0; 8];
    let mut next = next_after(store, WIDTHS, root, &[])?;
    for number in 0..keys {
        let Some(entry) = next else {
            return Ok(number);
        };
        let mut key = [0; 8];
        if entry.key.len() != 8 {
            return Ok(number);
        }
        key.copy_from_slice(entry.key.as_slice());
        if number > 0 && key <= last {
            return Ok(number);
        }
        last = key;
        next = next_after(store, WIDTHS, root, &last)?;
    }
    Ok(if next.is_none() { keys } else { 0 })
}

/// How many levels the tree below this root has, as far down as its first leaf is.
fn levels_of<P: Pages>(store: &mut P, root: u32) -> Result<u32, PageFault> {
    if root == 0 {
        return Ok(0);
    }
    let mut bytes = [0; 4096];
    let mut page = root;
    for level in 1..=LEVELS {
        store.read_page(page, &mut bytes)?;
        match kind_of(WIDTHS, &bytes) {
            Some(Kind::Inner) => {
                let (_, child) = item_at(WIDTHS, Kind::Inner, &bytes, 0);
                page = BigEndian::read_u32(child);
            }
            _ => return Ok(level),
        }
    }
    Ok(LEVELS)
}
