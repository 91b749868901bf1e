//! Pages stay for a hold until it is let go (`page_store`), through the trait's bound, on a disk in memory.

use crate::disks::{byte_of, commit, let_go, sealed, table_disk, write_new};
use page_store::{MAX_PAGES, PageFault, Pages};
use std::alloc::Global;
use std::test::Fail;
use test_aids::expect;

/// Makes a store larger, with a root of this byte all over.
fn grow<P: Pages>(pages: &mut P, alloc: Global, count: u32, byte: u8) -> Result<(), PageFault> {
    let capacity = pages.capacity();
    if capacity == 0 || capacity >= count || count > MAX_PAGES {
        return Err(PageFault::Damaged);
    }
    pages.grow(alloc, count, &[byte; 512])
}

/// The page is released and the release committed: how many pages are free.
fn free_after_release<P: Pages>(pages: &mut P, page: u32) -> Result<u32, PageFault> {
    let_go(pages, page)?;
    commit(pages, 8)?;
    Ok(pages.free_pages())
}

/// What was seen of a store while a hold was taken, and once it was let go.
#[derive(PartialEq, Debug, Drop)]
struct Seen {
    /// How many pages were free once a page was released and that was committed.
    released: Result<u32, PageFault>,
    grew: Result<(), PageFault>,
    /// How many were free once the store had grown.
    grown: u32,
    /// What the page read as then.
    read: Result<Option<u8>, PageFault>,
    /// How many were free once the hold was let go.
    let_go: u32,
}

/// A hold is taken, a page released, the store grown, and the hold let go.
fn under_a_hold<P: Pages>(pages: &mut P, alloc: Global, page: u32) -> Option<Seen> {
    let Some(hold) = pages.hold() else {
        return None;
    };
    let released = free_after_release(pages, page);
    let grew = grow(pages, alloc, 64, 9);
    let grown = pages.free_pages();
    let read = byte_of(pages, page);
    pages.let_go(hold);
    Some(Seen {
        released,
        grew,
        grown,
        read,
        let_go: pages.free_pages(),
    })
}

#[test]
fn a_page_stays_for_a_hold_until_it_is_let_go(rt: HostRuntime) -> Result<(), Fail> {
    let mut pages = sealed(rt.alloc(), table_disk(rt.alloc(), 128, &[7; 512])?)?;
    let page = write_new(&mut pages, 5)?;
    commit(&mut pages, 7)?;
    expect(pages.free_pages(), 14, page)?;
    let seen = under_a_hold(&mut pages, rt.alloc(), page);
    let wanted = Seen {
        released: Ok(14),
        grew: Ok(()),
        grown: 62,
        read: Ok(Some(5)),
        let_go: 63,
    };
    expect(seen, Some(wanted), page)
}

/// Whether four holds are taken, and whether a fifth is; all are let go again.
fn four_and_five<P: Pages>(pages: &mut P) -> (bool, bool) {
    let Some(first) = pages.hold() else {
        return (false, false);
    };
    let Some(second) = pages.hold() else {
        pages.let_go(first);
        return (false, false);
    };
    let Some(third) = pages.hold() else {
        pages.let_go(first);
        pages.let_go(second);
        return (false, false);
    };
    let Some(fourth) = pages.hold() else {
        pages.let_go(first);
        pages.let_go(second);
        pages.let_go(third);
        return (false, false);
    };
    let five = match pages.hold() {
        Some(fifth) => {
            pages.let_go(fifth);
            true
        }
        None => false,
    };
    pages.let_go(second);
    pages.let_go(first);
    pages.let_go(fourth);
    pages.let_go(third);
    (true, five)
}

#[test]
fn four_holds_are_taken_at_most(rt: HostRuntime) -> Result<(), Fail> {
    let mut pages = sealed(rt.alloc(), table_disk(rt.alloc(), 128, &[7; 512])?)?;
    expect(four_and_five(&mut pages), (true, false), "at first")?;
    expect(four_and_five(&mut pages), (true, false), "once more")
}
