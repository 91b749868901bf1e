//! Pages that are a map, and pages that are nearly one.

use crate::asked::{Pair, expect_map};
use crate::pages::{Laid, disk_with};
use std::test::Fail;

/// How many pages the disks have.
const PAGES: u32 = 16;

/// Leaves of one entry.
const AT_20: &[u8] = &[1, 0, 0, 1, 0, 0x20, 7];

const AT_40: &[u8] = &[1, 0, 0, 1, 0, 0x40, 8];

const AT_60: &[u8] = &[1, 0, 0, 1, 0, 0x60, 9];

const AT_80: &[u8] = &[1, 0, 0, 1, 0, 0x80, 10];

/// An inner page with the children 2 and 3.
const TWO: &[u8] = &[2, 0, 0, 2, 0, 0x20, 0, 0, 0, 2, 0, 0x60, 0, 0, 0, 3];

/// An inner page with the children 4 and 5, from 0x0020 on.
const LOWER: &[u8] = &[2, 0, 0, 2, 0, 0x20, 0, 0, 0, 4, 0, 0x40, 0, 0, 0, 5];

/// An inner page with the children 6 and 7, from 0x0060 on.
const UPPER: &[u8] = &[2, 0, 0, 2, 0, 0x60, 0, 0, 0, 6, 0, 0x80, 0, 0, 0, 7];

/// What there is of it, its root, its pages, and the entries of the map, where it is one.
type Row = (
    &'static str,
    u32,
    &'static [Laid<'static>],
    Option<&'static [Pair]>,
);

const MAPS: [Row; 5] = [
    ("no entry", 0, &[], Some(&[])),
    ("one leaf", 5, &[(5, AT_20)], Some(&[(0x20, 7)])),
    (
        "two leaves",
        1,
        &[(1, TWO), (2, AT_20), (3, AT_60)],
        Some(&[(0x20, 7), (0x60, 9)]),
    ),
    (
        "children on pages before their parent",
        9,
        &[(9, TWO), (2, AT_20), (3, AT_60)],
        Some(&[(0x20, 7), (0x60, 9)]),
    ),
    (
        "three levels",
        1,
        &[
            (1, TWO),
            (2, LOWER),
            (3, UPPER),
            (4, AT_20),
            (5, AT_40),
            (6, AT_60),
            (7, AT_80),
        ],
        Some(&[(0x20, 7), (0x40, 8), (0x60, 9), (0x80, 10)]),
    ),
];

const PAGES_NAMED_WRONG: [Row; 12] = [
    ("a root that is not there", PAGES, &[(1, AT_20)], None),
    ("a root far beyond", u32::MAX, &[(1, AT_20)], None),
    (
        "two children that are one page",
        1,
        &[
            (1, &[2, 0, 0, 2, 0, 0x20, 0, 0, 0, 2, 0, 0x20, 0, 0, 0, 2]),
            (2, AT_20),
        ],
        None,
    ),
    (
        "two children that are one page, by another key",
        1,
        &[
            (1, &[2, 0, 0, 2, 0, 0x20, 0, 0, 0, 2, 0, 0x60, 0, 0, 0, 2]),
            (2, AT_20),
        ],
        None,
    ),
    (
        "a page below two parents",
        1,
        &[
            (1, TWO),
            (2, LOWER),
            (3, &[2, 0, 0, 2, 0, 0x60, 0, 0, 0, 6, 0, 0x80, 0, 0, 0, 4]),
            (4, AT_20),
            (5, AT_40),
            (6, AT_60),
        ],
        None,
    ),
    (
        "a first child that is its parent",
        1,
        &[
            (1, &[2, 0, 0, 2, 0, 0x20, 0, 0, 0, 1, 0, 0x60, 0, 0, 0, 3]),
            (3, AT_60),
        ],
        None,
    ),
    (
        "a second child that is its parent",
        1,
        &[
            (1, &[2, 0, 0, 2, 0, 0x20, 0, 0, 0, 2, 0, 0x60, 0, 0, 0, 1]),
            (2, AT_20),
        ],
        None,
    ),
    (
        "a child that is its parent's parent",
        1,
        &[
            (1, TWO),
            (2, &[2, 0, 0, 2, 0, 0x20, 0, 0, 0, 1, 0, 0x40, 0, 0, 0, 5]),
            (3, UPPER),
            (5, AT_40),
            (6, AT_60),
            (7, AT_80),
        ],
        None,
    ),
    (
        "a child behind the last page",
        1,
        &[
            (1, &[2, 0, 0, 2, 0, 0x20, 0, 0, 0, 2, 0, 0x60, 0, 0, 0, 16]),
            (2, AT_20),
        ],
        None,
    ),
    (
        "a child far beyond",
        1,
        &[
            (
                1,
                &[2, 0, 0, 2, 0, 0x20, 0, 0, 0, 2, 0, 0x60, 255, 255, 255, 255],
            ),
            (2, AT_20),
        ],
        None,
    ),
    (
        "a child that is the system page",
        1,
        &[
            (1, &[2, 0, 0, 2, 0, 0x20, 0, 0, 0, 0, 0, 0x60, 0, 0, 0, 3]),
            (3, AT_60),
        ],
        None,
    ),
    ("a child of zeros", 1, &[(1, TWO), (2, AT_20)], None),
];

const LEVELS_WRONG: [Row; 3] = [
    (
        "a second child with one level more",
        1,
        &[(1, TWO), (2, AT_20), (3, UPPER), (6, AT_60), (7, AT_80)],
        None,
    ),
    (
        "a second child with one level fewer",
        1,
        &[(1, TWO), (2, LOWER), (3, AT_60), (4, AT_20), (5, AT_40)],
        None,
    ),
    (
        "a leaf where its neighbour is an inner page",
        1,
        &[
            (1, TWO),
            (2, LOWER),
            (3, UPPER),
            (4, AT_20),
            (5, &[2, 0, 0, 2, 0, 0x40, 0, 0, 0, 8, 0, 0x50, 0, 0, 0, 9]),
            (6, AT_60),
            (7, AT_80),
            (8, AT_40),
            (9, &[1, 0, 0, 1, 0, 0x50, 1]),
        ],
        None,
    ),
];

const KEYS_WRONG: [Row; 9] = [
    (
        "equal keys",
        1,
        &[(1, &[1, 0, 0, 2, 0, 0x20, 7, 0, 0x20, 8])],
        None,
    ),
    (
        "descending keys",
        1,
        &[(1, &[1, 0, 0, 2, 0, 0x40, 7, 0, 0x20, 8])],
        None,
    ),
    (
        "descending in the first byte",
        1,
        &[(1, &[1, 0, 0, 2, 1, 0x20, 7, 0, 0x40, 8])],
        None,
    ),
    (
        "equal keys in two leaves",
        1,
        &[
            (1, TWO),
            (2, &[1, 0, 0, 2, 0, 0x20, 7, 0, 0x60, 8]),
            (3, AT_60),
        ],
        None,
    ),
    (
        "descending keys in two leaves",
        1,
        &[
            (1, TWO),
            (2, &[1, 0, 0, 2, 0, 0x20, 7, 0, 0x61, 8]),
            (3, AT_60),
        ],
        None,
    ),
    (
        "children in descending order",
        1,
        &[
            (1, &[2, 0, 0, 2, 0, 0x60, 0, 0, 0, 3, 0, 0x20, 0, 0, 0, 2]),
            (2, AT_20),
            (3, AT_60),
        ],
        None,
    ),
    (
        "a key greater than the smallest of its child",
        1,
        &[(1, TWO), (2, AT_20), (3, AT_40)],
        None,
    ),
    (
        "a key less than the smallest of its child",
        1,
        &[(1, TWO), (2, AT_20), (3, AT_80)],
        None,
    ),
    (
        "a first key less than the smallest of its child",
        1,
        &[(1, TWO), (2, AT_40), (3, AT_60)],
        None,
    ),
];

/// Lays the pages of each row on a disk, and expects what it says.
fn try_rows(rt: &HostRuntime, rows: &[Row]) -> Result<(), Fail> {
    for (name, root, pages, wanted) in rows {
        let disk = disk_with(rt.alloc(), PAGES, pages)?;
        expect_map(rt.alloc(), disk, *root, *wanted, *name)?;
    }
    Ok(())
}

#[test]
fn pages_by_hand_are_a_map(rt: HostRuntime) -> Result<(), Fail> {
    try_rows(&rt, &MAPS)
}

#[test]
fn pages_twice_or_not_there_are_no_map(rt: HostRuntime) -> Result<(), Fail> {
    try_rows(&rt, &PAGES_NAMED_WRONG)
}

#[test]
fn leaves_at_two_depths_are_no_map(rt: HostRuntime) -> Result<(), Fail> {
    try_rows(&rt, &LEVELS_WRONG)
}

#[test]
fn keys_that_do_not_ascend_or_are_not_the_smallest_are_no_map(rt: HostRuntime) -> Result<(), Fail> {
    try_rows(&rt, &KEYS_WRONG)
}
