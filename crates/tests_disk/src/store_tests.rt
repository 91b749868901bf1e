//! Pages are marked, handed out, written and released (`page_store`), through the trait's bound, on a disk in memory.

use crate::disks::{all_over, byte_of, commit, let_go, opened, table_disk, write_new};
use page_store::{MAX_PAGES, PageFault, PageStore, Pages};
use sector_disk::{MemDisk, SectorDisk};
use std::alloc::Global;
use std::test::Fail;
use test_aids::expect;

/// What is done to a store.
#[derive(Clone, Copy, Debug)]
enum Deed {
    Mark(u32),
    Seal,
    Discard,
    /// Commits a root with this byte all over.
    Commit(u8),
    /// Takes a page, which the deeds with `It` are about, and writes it with this byte all over.
    PutIt(u8),
    LetItGo,
    ReadIt,
    IsItFresh,
    /// Takes a page, and tells whether it is that one.
    TakeIt,
    /// Takes this many, and tells whether all are others.
    TakeOthers(u32),
    /// Takes as many as these are, and tells whether they are these in any order.
    Take(&'static [u32]),
    Read(u32),
    IsFresh(u32),
    Free,
    /// Reads the committed root.
    Root,
}

use Deed::{
    Commit, Discard, Free, IsFresh, IsItFresh, LetItGo, Mark, PutIt, Read, ReadIt, Root, Seal,
    Take, TakeIt, TakeOthers,
};

/// What a deed answers.
#[derive(Clone, Copy, PartialEq, Debug, Drop)]
enum Answer {
    Done,
    Count(u32),
    /// The byte that is all over what was read.
    Byte(Option<u8>),
    Is(bool),
    Refused(PageFault),
}

use Answer::{Byte, Count, Done, Is, Refused};

const DAMAGED: Answer = Refused(PageFault::Damaged);

const FULL: Answer = Refused(PageFault::TableFull);

/// What was answered, or the refusal.
fn told(outcome: Result<Answer, PageFault>) -> Answer {
    match outcome {
        Ok(answer) => answer,
        Err(fault) => Refused(fault),
    }
}

/// Takes as many pages as these are, and tells whether they are these.
fn take<P: Pages>(pages: &mut P, wanted: &[u32]) -> Result<Answer, PageFault> {
    let mut taken = [false; 16];
    for _ in wanted {
        let page = pages.new_page()? as usize;
        if page < taken.len() {
            taken[page] = true;
        }
    }
    Ok(Is(
        wanted
            .iter()
            .all(|page| taken.get(*page as usize) == Some(&true)),
    ))
}

/// Takes this many pages, and tells whether none is this one.
fn take_others<P: Pages>(pages: &mut P, it: u32, calls: u32) -> Result<Answer, PageFault> {
    let mut others = true;
    for _ in 0..calls {
        others &= pages.new_page()? != it;
    }
    Ok(Is(others))
}

/// Does what the disk or the marks may refuse.
fn ask<P: Pages>(pages: &mut P, it: u32, deed: Deed) -> Result<Answer, PageFault> {
    match deed {
        Mark(page) => pages.mark(page).map(|()| Done),
        Commit(byte) => commit(pages, byte).map(|()| Done),
        LetItGo => let_go(pages, it).map(|()| Done),
        ReadIt => byte_of(pages, it).map(Byte),
        Read(page) => byte_of(pages, page).map(Byte),
        TakeIt => pages.new_page().map(|page| Is(page == it)),
        TakeOthers(calls) => take_others(pages, it, calls),
        Take(wanted) => take(pages, wanted),
        _ => Ok(Done),
    }
}

/// Does a deed.
fn answer_to<P: Pages>(pages: &mut P, it: u32, deed: Deed) -> Answer {
    match deed {
        Seal => pages.seal(),
        Discard => pages.discard(),
        IsItFresh => return Is(pages.is_fresh(it)),
        IsFresh(page) => return Is(pages.is_fresh(page)),
        Free => return Count(pages.free_pages()),
        Root => return Byte(all_over(&pages.root().bytes)),
        _ => return told(ask(pages, it, deed)),
    }
    Done
}

/// Does each deed of a script in turn, and compares what it answers.
fn run<P: Pages>(pages: &mut P, script: &[(Deed, Answer)]) -> Result<(), Fail> {
    let mut it = 0;
    for (deed, wanted) in script {
        if let PutIt(byte) = *deed {
            it = write_new(pages, byte)?;
        }
        expect(answer_to(pages, it, *deed), *wanted, *deed)?;
    }
    Ok(())
}

/// What is done to stores that were just opened, on a disk of 16 pages and up to seven sectors.
const SCRIPTS: [&[(Deed, Answer)]; 6] = [
    // Fifteen pages of sixteen are handed out, and none before the store is sealed.
    &[
        (Free, Count(0)),
        (Seal, Done),
        (Free, Count(15)),
        (
            Take(&[1, 2, 3, 4, 5, 6, 7, 8, 9, 10, 11, 12, 13, 14, 15]),
            Is(true),
        ),
        (TakeIt, FULL),
        (Free, Count(0)),
        (Discard, Done),
        (Free, Count(15)),
    ],
    // A page is marked once.
    &[
        (Mark(0), DAMAGED),
        (Mark(16), DAMAGED),
        (Mark(3), Done),
        (Mark(3), DAMAGED),
        (Mark(15), Done),
        (TakeIt, FULL),
        (Discard, Done),
        (Seal, Done),
        (Free, Count(13)),
        (
            Take(&[1, 2, 4, 5, 6, 7, 8, 9, 10, 11, 12, 13, 14]),
            Is(true),
        ),
        (TakeIt, FULL),
    ],
    // A page that the committed root needs and that is released waits for the next commit.
    &[
        (Seal, Done),
        (PutIt(5), Done),
        (IsItFresh, Is(true)),
        (Commit(8), Done),
        (IsItFresh, Is(false)),
        (Root, Byte(Some(8))),
        (Free, Count(14)),
        (LetItGo, Done),
        (Free, Count(14)),
        (TakeOthers(14), Is(true)),
        (TakeIt, FULL),
        (ReadIt, Byte(Some(5))),
        (Commit(9), Done),
        (Free, Count(1)),
        (TakeIt, Is(true)),
    ],
    // A page that is released by the work that took it is free at once.
    &[
        (Seal, Done),
        (PutIt(5), Done),
        (Free, Count(14)),
        (LetItGo, Done),
        (Free, Count(15)),
        (
            Take(&[1, 2, 3, 4, 5, 6, 7, 8, 9, 10, 11, 12, 13, 14, 15]),
            Is(true),
        ),
    ],
    // A layer puts one page and a root beside another.
    &[
        (Seal, Done),
        (PutIt(1), Done),
        (Commit(1), Done),
        (PutIt(2), Done),
        (Commit(2), Done),
        (Root, Byte(Some(2))),
        (ReadIt, Byte(Some(2))),
        (Free, Count(13)),
    ],
    // Pages that are not there are not read.
    &[
        (Seal, Done),
        (Read(0), DAMAGED),
        (Read(16), DAMAGED),
        (Read(u32::MAX), DAMAGED),
        (Read(15), Byte(Some(0))),
        (IsFresh(0), Is(false)),
        (IsFresh(u32::MAX), Is(false)),
    ],
];

/// Does each deed of a script on a store that was just opened, on a disk of this many sectors.
fn run_on(alloc: Global, sectors: u64, script: &[(Deed, Answer)]) -> Result<(), Fail> {
    let mut pages = opened(alloc, table_disk(alloc, sectors, &[7; 512])?)?;
    run(&mut pages, script)
}

#[test]
fn pages_are_handed_out_kept_and_freed(rt: HostRuntime) -> Result<(), Fail> {
    for sectors in [128, 135] {
        for script in SCRIPTS {
            run_on(rt.alloc(), sectors, script)?;
        }
    }
    Ok(())
}

#[test]
fn a_disk_with_no_table_comes_back(rt: HostRuntime) -> Result<(), Fail> {
    for sectors in [0, 3, 128] {
        let found = match PageStore::open(rt.alloc(), MemDisk::new(rt.alloc(), sectors)?) {
            Ok(_) => None,
            Err(refused) => Some((refused.fault, refused.disk.sectors())),
        };
        expect(found, Some((PageFault::NotATable, sectors)), sectors)?;
    }
    Ok(())
}

/// Makes a store larger, with a root of this byte all over.
fn grow<P: Pages>(pages: &mut P, alloc: Global, count: u32, byte: u8) -> Result<(), PageFault> {
    let capacity = pages.capacity();
    if capacity == 0 || capacity >= count || count > MAX_PAGES {
        return Err(PageFault::Damaged);
    }
    pages.grow(alloc, count, &[byte; 512])
}

/// How many pages are free in a store on this disk that has this many.
fn free_in(alloc: Global, disk: MemDisk, count: u32) -> Result<u32, Fail> {
    match PageStore::open(alloc, disk) {
        Ok(pages) => {
            let mut pages = pages;
            if count > 0 && count <= pages.capacity() {
                pages.set_capacity(count);
            }
            pages.seal();
            Ok(pages.free_pages())
        }
        Err(refused) => Err(refused.fault.into()),
    }
}

#[test]
fn a_store_that_grew_has_its_new_pages_free(rt: HostRuntime) -> Result<(), Fail> {
    let mut pages = opened(rt.alloc(), table_disk(rt.alloc(), 128, &[7; 512])?)?;
    pages.seal();
    expect(pages.free_pages(), 15, 16)?;
    grow(&mut pages, rt.alloc(), 64, 9)?;
    expect(pages.free_pages(), 63, 64)?;
    expect(all_over(&pages.root().bytes), Some(9), 64)?;
    let disk = pages.into_disk();
    expect(disk.sectors(), 512, 64)?;
    let left = disk.after_stop(rt.alloc(), 0)?;
    expect(free_in(rt.alloc(), left, 16)?, 15, 16)?;
    let left = disk.after_stop(rt.alloc(), 0)?;
    expect(free_in(rt.alloc(), left, 64)?, 63, 64)
}
