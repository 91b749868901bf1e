//! Each byte of each page of a small tree is changed to three other values.

use crate::asked::{Pair, expect_map};
use crate::pages::{Laid, change, disk_with};
use sector_disk::MemDisk;
use std::alloc::{AllocError, Global};
use std::test::Fail;

/// A root with two leaves.
const TREE: [Laid<'static>; 3] = [
    (1, &[2, 0, 0, 2, 0, 0x20, 0, 0, 0, 2, 0, 0x60, 0, 0, 0, 3]),
    (2, &[1, 0, 0, 2, 0, 0x20, 7, 0, 0x40, 8]),
    (3, &[1, 0, 0, 2, 0, 0x60, 9, 0, 0x80, 10]),
];

/// The entries of its map.
const ENTRIES: [Pair; 4] = [(0x20, 7), (0x40, 8), (0x60, 9), (0x80, 10)];

/// What is added to a byte.
const ADDED: [u8; 3] = [1, 128, 255];

/// What is found then.
#[derive(Clone, Copy, PartialEq)]
enum Found {
    NoMap,
    AsBefore,
    /// The entry at this place has another key.
    Key(usize, u16),
    /// The entry at this place has another value.
    Value(usize, u8),
    /// The entry at this place is not there.
    Without(usize),
}

/// The bytes that can be changed so that another map is found: page, place, and what is found for each change.
const OTHERS: [(u32, u32, [Found; 3]); 9] = [
    // One entry fewer; with one more, or 128, an entry of zeros would follow.
    (2, 3, [Found::NoMap, Found::NoMap, Found::Without(1)]),
    (3, 3, [Found::NoMap, Found::NoMap, Found::Without(3)]),
    // Values.
    (
        2,
        6,
        [Found::Value(0, 8), Found::Value(0, 135), Found::Value(0, 6)],
    ),
    (
        2,
        9,
        [Found::Value(1, 9), Found::Value(1, 136), Found::Value(1, 7)],
    ),
    (
        3,
        6,
        [
            Found::Value(2, 10),
            Found::Value(2, 137),
            Found::Value(2, 8),
        ],
    ),
    (
        3,
        9,
        [
            Found::Value(3, 11),
            Found::Value(3, 138),
            Found::Value(3, 9),
        ],
    ),
    // The key 0x0040, which has to stay below 0x0060.
    (
        2,
        8,
        [Found::Key(1, 0x41), Found::NoMap, Found::Key(1, 0x3f)],
    ),
    // The key 0x0080, which has to stay above 0x0060.
    (
        3,
        7,
        [
            Found::Key(3, 0x0180),
            Found::Key(3, 0x8080),
            Found::Key(3, 0xff80),
        ],
    ),
    (
        3,
        8,
        [Found::Key(3, 0x81), Found::NoMap, Found::Key(3, 0x7f)],
    ),
];

/// What is found where this byte is changed.
fn found_at(page: u32, at: u32, change: usize) -> Found {
    for (of_page, of_at, found) in &OTHERS {
        if *of_page == page && *of_at == at {
            return found.get(change).copied().unwrap_or(Found::NoMap);
        }
    }
    let used = if page == 1 { 16 } else { 10 };
    if at < used {
        Found::NoMap
    } else {
        Found::AsBefore
    }
}

/// The entry at this place, where it is changed as was found.
fn pair_with(place: usize, pair: Pair, found: Found) -> Pair {
    let (key, value) = pair;
    match found {
        Found::Key(at, other) if at == place => (other, value),
        Found::Value(at, other) if at == place => (key, other),
        _ => (key, value),
    }
}

/// The entries of the map that is found.
fn entries_of(alloc: Global, found: Found) -> Result<Option<Vec<Pair>>, AllocError> {
    if found == Found::NoMap {
        return Ok(None);
    }
    let mut pairs = Vec::new(alloc);
    for (place, pair) in ENTRIES.iter().enumerate() {
        if found != Found::Without(place) {
            pairs.push(pair_with(place, *pair, found))?;
        }
    }
    Ok(Some(pairs))
}

/// Changes one byte of a copy of the disk, and expects what is found then.
fn change_one(
    alloc: Global,
    tree: &MemDisk,
    page: u32,
    at: u32,
    choice: usize,
    by: u8,
) -> Result<(), Fail> {
    let wanted = entries_of(alloc, found_at(page, at, choice))?;
    let mut disk = tree.after_stop(alloc, 0)?;
    change(&mut disk, page, at, by)?;
    expect_map(alloc, disk, 1, wanted.as_deref(), (page, at, by))
}

/// Changes each byte of a page to three other values.
fn change_page(alloc: Global, tree: &MemDisk, page: u32) -> Result<(), Fail> {
    for at in 0..4096 {
        for (choice, by) in ADDED.iter().enumerate() {
            change_one(alloc, tree, page, at, choice, *by)?;
        }
    }
    Ok(())
}

#[test]
fn a_byte_of_a_page_makes_another_map_or_none_or_is_ignored(rt: HostRuntime) -> Result<(), Fail> {
    let tree = disk_with(rt.alloc(), 16, &TREE)?;
    let whole = tree.after_stop(rt.alloc(), 0)?;
    expect_map(rt.alloc(), whole, 1, Some(&ENTRIES), (0, 0, 0))?;
    for (page, _) in &TREE {
        change_page(rt.alloc(), &tree, *page)?;
    }
    Ok(())
}
