//! A store of pages on a disk, with a mark for each page in memory.
ghost use Rattle.std.specs.Prelude.{◌≡◌, ◌≤◌, ◌<◌, ◌*◌, ℕ, length, IfOk, IfErr};
ghost use Rattle.page_store.specs.declared.marks.Mark.TheVariants.{Committed, Waiting};
ghost use Rattle.page_store.specs.Blocks.{AreBlocksNoted};
ghost use Rattle.page_store.specs.Cache.{IsCacheOf};
ghost use Rattle.page_store.specs.Causes.{StoreOpenCause};
ghost use Rattle.page_store.specs.Holds.{holds_of, holders_at, none as none_of};
ghost use Rattle.page_store.specs.Marks.{mark as mark_of, AreFreeFrom};
ghost use Rattle.page_store.specs.Store.{store_of, IsSoundStore, IsOpened, IsRefusedStore};

use crate::blocks::{all_noted, blocks_of, put_mark, turn, turn_committed};
use crate::cache::PageCache;
use crate::holds::{Hold, Holders};
use crate::limits::MAX_PAGES;
use crate::marks::{
    count_free, end_hold, first_unused, free_left, grown_holders, grown_marks, is_kept, let_go,
    take_hold,
};
use crate::room::make_room;
use crate::search::Search;
use crate::{Mark, PageFault, Pages};
use root_pair::{Root, RootFault, publish};
use sector_disk::{PageEdit, SectorDisk};
use std::alloc::{AllocError, Global};

/// The most pages that a cache holds.
pub const MOST_CACHED: usize = 64;

/// A store of pages on a disk.
#[derive(Drop)]
pub struct PageStore<D: SectorDisk> {
    pub(crate) disk: D,
    root: Root,
    marks: Vec<Mark>,
    /// In which blocks of pages something may be going on.
    noted: Vec<bool>,
    /// Which holds are taken.
    taken: Holders,
    /// Which holds need each page.
    holders: Vec<Holders>,
    /// From this page on all are free, so that nobody has to look at them one by one.
    high: usize,
    /// Where a free page is looked for.
    search: Search,
    /// A write or a sync has failed.
    pub(crate) closed: bool,
    /// Pages that need not be read again.
    pub(crate) cache: PageCache,
    ghost sound: { IsSoundStore (store_of (D.disk disk) (D.failures disk) root.bytes marks.items closed (holds_of taken holders.items)) },
    ghost blocks: { AreBlocksNoted marks.items noted.items },
    ghost unused: { AreFreeFrom high marks.items },
    ghost cached: { IsCacheOf (store_of (D.disk disk) (D.failures disk) root.bytes marks.items closed (holds_of taken holders.items)) cache },
}

/// A disk that comes back with a refusal.
#[derive(Drop)]
pub struct Refused<D> {
    pub disk: D,
    pub fault: PageFault,
}

impl<D: SectorDisk> PageStore<D> {
    ghost use Rattle.page_store.specs.InStore.{store_in};

    /// Finds the root on the disk, which it syncs first. No page is marked. `Disk`, `NotATable`, or `OutOfMemory`, with
    /// the disk. The room that later calls take is reserved here, but for the cache's 64 pages.
    pub fn open(alloc: Global, disk: D) -> Result<Self, Refused<D>>
        ensures ok { IfOk result (λ store. IsOpened (D.disk disk) (D.failures disk) (store_in store)) }
        ensures refused { IfErr result (λ back. IsRefusedStore (D.disk disk) (D.failures disk) (D.disk back.disk) (D.failures back.disk)) }
        ensures cause { IfErr result (λ back. StoreOpenCause (D.disk disk) (D.failures disk) (D.failures back.disk) back.fault) }
    {
        PageStore::open_with_cache(alloc, disk, MOST_CACHED)
    }

    /// Opens the store on a disk with a cache of this many pages, 0 for none.
    pub fn open_with_cache(alloc: Global, disk: D, pages: usize) -> Result<Self, Refused<D>>
        requires { pages ≤ 64 }
        ensures ok { IfOk result (λ store. IsOpened (D.disk disk) (D.failures disk) (store_in store)) }
        ensures refused { IfErr result (λ back. IsRefusedStore (D.disk disk) (D.failures disk) (D.disk back.disk) (D.failures back.disk)) }
        ensures cause { IfErr result (λ back. StoreOpenCause (D.disk disk) (D.failures disk) (D.failures back.disk) back.fault) }
    {
        let mut disk = disk;
        let root = match root_pair::open(&mut disk) {
            Ok(root) => root,
            Err(RootFault::NotATable) => {
                return Err(Refused {
                    disk,
                    fault: PageFault::NotATable,
                });
            }
            Err(_) => {
                return Err(Refused {
                    disk,
                    fault: PageFault::Disk,
                });
            }
        };
        let capacity = (disk.sectors() / 8).min(u64::from(MAX_PAGES));
        match (
            unmarked(alloc, capacity),
            all_noted(alloc, capacity as u32),
            unheld(alloc, capacity),
            PageCache::new(alloc, pages),
        ) {
            (Ok(marks), Ok(noted), Ok(holders), Ok(cache)) => Ok(PageStore {
                disk,
                root,
                marks,
                noted,
                taken: Holders::none(),
                holders,
                high: capacity as usize,
                search: Search::new(),
                closed: false,
                cache,
            }),
            _ => Err(Refused {
                disk,
                fault: PageFault::OutOfMemory,
            }),
        }
    }

    /// The disk, as it is.
    pub fn into_disk(self) -> D
        ensures disk { D.disk result ≡ (store_in self).disk }
        ensures failures { D.failures result ≡ (store_in self).failures }
    {
        let PageStore { disk, .. } = self;
        disk
    }
}

/// The system page, and pages that wait to be marked.
fn unmarked(alloc: Global, capacity: u64) -> Result<Vec<Mark>, AllocError>
    requires { capacity ≤ MAX_PAGES }
    ensures length { IfOk result (λ marks. length marks.items ≡ capacity) }
    ensures system { IfOk result (λ marks. mark_of marks.items 0 ≡ Committed) }
    ensures others { IfOk result (λ marks. (p : ℕ) → 1 ≤ p → p < length marks.items → mark_of marks.items p ≡ Waiting) }
{
    let mut marks = vec![in alloc; Mark::Waiting; capacity as usize]?;
    if !marks.is_empty() {
        marks[0] = Mark::Committed;
    }
    Ok(marks)
}

/// No hold needs any of this many pages.
fn unheld(alloc: Global, capacity: u64) -> Result<Vec<Holders>, AllocError>
    requires { capacity ≤ MAX_PAGES }
    ensures length { IfOk result (λ holders. length holders.items ≡ capacity) }
    ensures none { IfOk result (λ holders. (p : ℕ) → holders_at holders.items p ≡ none_of) }
{
    vec![in alloc; Holders::none(); capacity as usize]
}

impl<D: SectorDisk> Pages for PageStore<D> {
    ghost use Rattle.page_store.specs.InStore.{store_in};

    ghost store = { store_in };

    ghost sound = { λ s. s.sound };

    fn mark(&mut self, page: u32) -> Result<(), PageFault> {
        if self.closed {
            return Err(PageFault::Closed);
        }
        if page as usize >= self.marks.len() || self.marks[page as usize] != Mark::Waiting {
            return Err(PageFault::Damaged);
        }
        put_mark(&mut self.marks, &mut self.noted, page, Mark::Committed);
        Ok(())
    }

    fn seal(&mut self) {
        turn(
            &mut self.marks,
            &mut self.noted,
            Mark::Fresh,
            Mark::Released,
            Mark::Free,
        );
        self.high = first_unused(&self.marks, self.high);
        self.cache.clear();
    }

    fn set_capacity(&mut self, pages: u32) {
        self.marks.truncate(pages as usize);
        self.holders.truncate(pages as usize);
        self.noted.truncate(blocks_of(pages));
        self.cache.clear();
    }

    fn read_page(&mut self, page: u32, into: &mut [u8; 4096]) -> Result<(), PageFault> {
        if self.closed {
            return Err(PageFault::Closed);
        }
        if page == 0 || page as usize >= self.marks.len() {
            return Err(PageFault::Damaged);
        }
        if let Some(bytes) = self.disk.page_in_memory(page) {
            *into = *bytes;
            return Ok(());
        }
        if self.cache.give(page, into) {
            return Ok(());
        }
        self.disk.read_page(page, into)?;
        if is_kept(self.marks[page as usize]) {
            let _no_memory = self.cache.put(page, into);
        }
        Ok(())
    }

    fn bytes_of(&self, page: u32) -> Option<&[u8; 4096]> {
        if self.closed {
            return None;
        }
        if page == 0 || page as usize >= self.marks.len() {
            return None;
        }
        match self.disk.page_in_memory(page) {
            Some(bytes) => Some(bytes),
            None => self.cache.bytes_of(page),
        }
    }

    fn new_page(&mut self) -> Result<u32, PageFault> {
        if self.closed {
            return Err(PageFault::Closed);
        }
        let page = match self.search.find(&self.marks) {
            Some(page) => page,
            None => return Err(PageFault::TableFull),
        };
        put_mark(&mut self.marks, &mut self.noted, page, Mark::Fresh);
        self.high = self.high.max(page as usize + 1);
        Ok(page)
    }

    fn is_fresh(&self, page: u32) -> bool {
        (page as usize) < self.marks.len() && self.marks[page as usize] == Mark::Fresh
    }

    fn write_page(&mut self, page: u32, from: &[u8; 4096]) -> Result<(), PageFault> {
        if self.closed {
            return Err(PageFault::Closed);
        }
        let written = self.disk.write_page(page, from);
        self.closed = written.is_err();
        match written {
            Ok(done) => {
                let waits = self.disk.page_in_memory(page).is_some();
                let _no_memory = self.cache.keep(page, from, !waits);
                Ok(done)
            }
            Err(fault) => {
                self.cache.forget(page);
                Err(fault.into())
            }
        }
    }

    fn edit_page<E: PageEdit>(&mut self, page: u32, edit: &E) -> Result<bool, PageFault> {
        if self.closed {
            return Err(PageFault::Closed);
        }
        if self.edit_waiting(page, edit) {
            return Ok(true);
        }
        self.edit_cached(page, edit)
    }

    fn release(&mut self, page: u32) {
        let now = let_go(self.marks[page as usize]);
        put_mark(&mut self.marks, &mut self.noted, page, now);
        self.cache.forget(page);
    }

    fn commit(&mut self, root: &[u8; 512]) -> Result<(), PageFault> {
        if self.closed {
            return Err(PageFault::Closed);
        }
        match publish(&mut self.disk, root) {
            Ok(()) => {
                self.root = Root { bytes: *root };
                turn_committed(&mut self.marks, &mut self.noted, &self.holders);
                Ok(())
            }
            Err(fault) => {
                if fault.is_read() {
                    return Err(PageFault::Disk);
                }
                self.closed = true;
                Err(PageFault::Disk)
            }
        }
    }

    fn grow(&mut self, alloc: Global, pages: u32, root: &[u8; 512]) -> Result<(), PageFault> {
        if self.closed {
            return Err(PageFault::Closed);
        }
        let marks = match grown_marks(alloc, &self.marks, &self.holders, pages) {
            Ok(marks) => marks,
            Err(_) => return Err(PageFault::OutOfMemory),
        };
        let holders = match grown_holders(alloc, &self.holders, pages) {
            Ok(holders) => holders,
            Err(_) => return Err(PageFault::OutOfMemory),
        };
        let noted = match all_noted(alloc, pages) {
            Ok(noted) => noted,
            Err(_) => return Err(PageFault::OutOfMemory),
        };
        if make_room(&mut self.disk, 8 * u64::from(pages)).is_err() {
            self.closed = true;
            return Err(PageFault::Disk);
        }
        match publish(&mut self.disk, root) {
            Ok(()) => {
                self.root = Root { bytes: *root };
                self.marks = marks;
                self.holders = holders;
                self.noted = noted;
                Ok(())
            }
            Err(fault) => {
                if fault.is_read() {
                    return Err(PageFault::Disk);
                }
                self.closed = true;
                Err(PageFault::Disk)
            }
        }
    }

    fn discard(&mut self) {
        turn(
            &mut self.marks,
            &mut self.noted,
            Mark::Free,
            Mark::Committed,
            Mark::Waiting,
        );
        self.cache.clear();
    }

    fn hold(&mut self) -> Option<Hold> {
        let Some(place) = self.taken.absent() else {
            return None;
        };
        self.taken = self.taken.with(place, true);
        take_hold(&mut self.holders, place, &self.marks, self.high);
        Some(Hold { place })
    }

    fn let_go(&mut self, hold: Hold) {
        let Hold { place } = hold;
        self.taken = self.taken.with(place, false);
        end_hold(&mut self.holders, place, self.high);
        free_left(&mut self.marks, &self.holders, self.high);
    }

    fn free_pages(&self) -> u32 {
        count_free(&self.marks, self.high)
    }

    fn capacity(&self) -> u32 {
        self.marks.len() as u32
    }

    fn is_closed(&self) -> bool {
        self.closed
    }

    fn root(&self) -> Root {
        self.root
    }
}
