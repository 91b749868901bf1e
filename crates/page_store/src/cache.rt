//! Pages in memory, so that they need not be read again.
ghost use Rattle.std.specs.Prelude.{◌≡◌, ◌≢◌, ◌⊎◌, ◌≤◌, ◌<◌, ◌%◌, ℕ, List, IsTrue, IfOk, IfSome, IfNone, false, length};
ghost use Rattle.page_store.specs.Places.{StandOnce, StandWhereNoted, kept_at};

use lru::LruCache;
use sector_disk::PageEdit;
use std::alloc::{AllocError, Global};
use std::cell::Cell;
use std::num::NonZeroUsize;

/// For so many remainders of page numbers a place is noted.
const HINTS: usize = 4_096;

/// The pages that were read or written last. It holds this many at most, and where there is no place none.
#[derive(Drop)]
pub struct PageCache {
    /// Which page stands at each place, if one does.
    numbers: Vec<Option<u32>>,
    /// The places, that which was used last first, as it was when a page was dropped last; none where no page is kept.
    order: Option<LruCache<usize, ()>>,
    /// Which places were used since then.
    marked: Vec<Cell<bool>>,
    /// The bytes of the pages.
    kept: Vec<[u8; 4096]>,
    /// For each remainder of a page number one more than the place that got such a page last, or 0 if none did. Of pages with one remainder
    /// one stands here at most, and at that place.
    hints: Vec<u8>,
    ghost apart: { StandOnce numbers.items kept.items },
    ghost few: { length numbers.items ≤ 64 },
    ghost hinted: { length hints.items ≡ 4096 },
    ghost noted: { StandWhereNoted numbers.items kept.items hints.items },
}

/// Where the place of this page is noted.
fn hint_of(page: u32) -> usize
    ensures { result ≡ page % 4096 }
{
    page as usize % HINTS
}

/// This many places, none of them used.
fn unmarked_places(alloc: Global, places: usize) -> Result<Vec<Cell<bool>>, AllocError> {
    let mut marked = Vec::with_capacity(alloc, places)?;
    for _ in 0..places {
        marked.push(Cell::new(false))?;
    }
    Ok(marked)
}

impl PageCache {
    ghost use Rattle.page_store.specs.Cache.{HoldsPage, OnlyForgets, HasPlace, IsEditedAt};

    /// An empty cache for this many pages.
    pub fn new(alloc: Global, pages: usize) -> Result<PageCache, AllocError>
        requires { pages ≤ 64 }
        ensures { IfOk result (λ cache. (p : ℕ) (bytes : List ℕ) → HoldsPage cache p bytes → ⊥) }
    {
        let order = match NonZeroUsize::new(pages) {
            Some(most) => Some(LruCache::new(alloc, most)?),
            None => None,
        };
        Ok(PageCache {
            numbers: vec![in alloc; None; pages]?,
            order,
            marked: unmarked_places(alloc, pages)?,
            kept: Vec::new(alloc),
            hints: vec![in alloc; 0; HINTS]?,
        })
    }

    /// Whether the page stands at this place.
    fn stands_at(&self, page: u32, place: usize) -> bool
        ensures stands { IsTrue result → HasPlace self.now page place }
        ensures not { result ≡ false → HasPlace self.now page place → ⊥ }
    {
        place < self.numbers.len() && place < self.kept.len() && self.numbers[place] == Some(page)
    }

    /// Where the page is, if it is there: at the noted place, or nowhere.
    fn place_of(&self, page: u32) -> Option<usize>
        ensures there { IfSome result (HasPlace self.now page) }
        ensures none { IfNone result ((place : ℕ) → HasPlace self.now page place → ⊥) }
    {
        let hint = usize::from(self.hints[hint_of(page)]);
        if hint == 0 {
            return None;
        }
        if self.stands_at(page, hint - 1) {
            Some(hint - 1)
        } else {
            None
        }
    }

    /// The page of this place counts as used.
    fn use_place(&self, place: usize) {
        if place < self.marked.len() {
            self.marked[place].set(true);
        }
    }

    /// Copies the page, if it is there.
    pub fn give(&mut self, page: u32, into: &mut [u8; 4096]) -> bool
        ensures found { IsTrue result → HoldsPage self.old page into.new }
        ensures others { OnlyForgets self.old self.new }
    {
        let Some(place) = self.place_of(page) else {
            return false;
        };
        *into = self.kept[place];
        self.use_place(place);
        true
    }

    /// The bytes of the page, if it is there, which then counts as used.
    pub fn bytes_of(&self, page: u32) -> Option<&[u8; 4096]>
        ensures { IfSome result (λ bytes. HoldsPage self.now page bytes.now) }
    {
        match self.place_of(page) {
            Some(place) => {
                self.use_place(place);
                Some(&self.kept[place])
            }
            None => None,
        }
    }

    /// Edits the page where it stands, if it is there and one that the edit is for, and then counts as used. Answers where, and fills
    /// the buffer with what it was.
    pub fn edit<E: PageEdit>(&mut self, page: u32, edit: &E, was: &mut [u8; 4096]) -> Option<usize>
        ensures edited { IfSome result (λ place. IsEditedAt (E.edits edit.now) page place was.new self.old self.new) }
        ensures same { IfNone result (OnlyForgets self.old self.new) }
    {
        let Some(place) = self.place_of(page) else {
            return None;
        };
        let Some(span) = edit.find(&self.kept[place]) else {
            return None;
        };
        *was = self.kept[place];
        edit.apply(&mut self.kept[place], span);
        self.use_place(place);
        Some(place)
    }

    /// The bytes at a place.
    pub fn bytes_at(&self, place: usize) -> &[u8; 4096]
        requires { place < length self.now.kept.items }
        ensures { result.now ≡ kept_at self.now.kept.items place }
    {
        &self.kept[place]
    }

    /// Brings the order up to date: the marked places count as used last.
    fn note_uses(&mut self)
        ensures numbers { self.new.numbers.items ≡ self.old.numbers.items }
        ensures kept { self.new.kept.items ≡ self.old.kept.items }
    {
        let Some(order) = &mut self.order else {
            return;
        };
        for (place, marked) in self.marked.iter().enumerate() {
            if marked.take() {
                let _distinct = order.len();
                order.promote(&place);
            }
        }
    }

    /// The place that was not used for longest, if there is one.
    fn oldest(&self) -> Option<usize>
        ensures numbers { IfSome result (λ place. place < length self.now.numbers.items) }
        ensures kept { IfSome result (λ place. place < length self.now.kept.items) }
    {
        let Some(order) = &self.order else {
            return None;
        };
        match order.peek_lru() {
            Some((place, _)) if *place < self.numbers.len() && *place < self.kept.len() => {
                Some(*place)
            }
            _ => None,
        }
    }

    /// The order has this place too.
    fn add_place(&mut self, next: usize) -> Result<(), AllocError>
        ensures numbers { self.new.numbers.items ≡ self.old.numbers.items }
        ensures kept { self.new.kept.items ≡ self.old.kept.items }
    {
        if let Some(order) = &mut self.order {
            let _distinct = order.len();
            if order.put(next, ()).is_err() {
                return Err(AllocError);
            }
        }
        Ok(())
    }

    /// Makes room at a place, the next or that of the page that was not used for longest. None where there is no cache.
    fn make_place(&mut self) -> Result<Option<usize>, AllocError>
        ensures kept { IfOk result (λ made. IfSome made (λ place. place < length self.new.kept.items)) }
        ensures numbers { IfOk result (λ made. IfSome made (λ place. place < length self.new.numbers.items)) }
        ensures others { OnlyForgets self.old self.new }
    {
        let next = self.kept.len();
        if next >= self.numbers.len() {
            self.note_uses();
            return Ok(self.oldest());
        }
        self.add_place(next)?;
        self.numbers[next] = None;
        match self.kept.push([0; 4096]) {
            Ok(()) => Ok(Some(next)),
            Err(_) => Err(AllocError),
        }
    }

    /// Drops the page of this one's remainder, if one is there.
    fn make_way(&mut self, page: u32)
        ensures apart { (p place : ℕ) → HasPlace self.new p place → HasPlace self.old p place × (p % 4096 ≢ page % 4096) }
        ensures held { OnlyForgets self.old self.new }
    {
        let hint = usize::from(self.hints[hint_of(page)]);
        if hint == 0 {
            return;
        }
        if hint > self.numbers.len() {
            return;
        }
        if let Some(other) = self.numbers[hint - 1]
            && hint_of(other) == hint_of(page)
        {
            self.demote(hint - 1);
            self.numbers[hint - 1] = None;
        }
    }

    /// Keeps the page with these bytes, in the place of what was there. Where memory is refused the page is left out.
    pub fn put(&mut self, page: u32, bytes: &[u8; 4096]) -> Result<(), AllocError>
        ensures { (p : ℕ) (held : List ℕ) → HoldsPage self.new p held
            → ((p ≡ page) × (held ≡ bytes.now)) ⊎ ((p ≢ page) × HoldsPage self.old p held) }
    {
        if let Some(place) = self.place_of(page) {
            self.kept[place] = *bytes;
            self.use_place(place);
            return Ok(());
        }
        self.make_way(page);
        if let Some(place) = self.make_place()? {
            self.use_place(place);
            self.hints[hint_of(page)] = place as u8 + 1;
            self.numbers[place] = Some(page);
            self.kept[place] = *bytes;
        }
        Ok(())
    }

    /// The place is the next to be taken.
    fn demote(&mut self, place: usize)
        ensures numbers { self.new.numbers.items ≡ self.old.numbers.items }
        ensures kept { self.new.kept.items ≡ self.old.kept.items }
    {
        if place < self.marked.len() {
            self.marked[place].set(false);
        }
        if let Some(order) = &mut self.order {
            let _distinct = order.len();
            order.demote(&place);
        }
    }

    /// Drops the page.
    pub fn forget(&mut self, page: u32)
        ensures { (p : ℕ) (held : List ℕ) → HoldsPage self.new p held → (p ≢ page) × HoldsPage self.old p held }
    {
        let Some(place) = self.place_of(page) else {
            return;
        };
        self.demote(place);
        self.numbers[place] = None;
    }

    /// Keeps the page with these bytes, or drops it.
    pub fn keep(&mut self, page: u32, bytes: &[u8; 4096], here: bool) -> Result<(), AllocError>
        ensures { (p : ℕ) (held : List ℕ) → HoldsPage self.new p held
            → ((p ≡ page) × (held ≡ bytes.now)) ⊎ ((p ≢ page) × HoldsPage self.old p held) }
    {
        if here {
            return self.put(page, bytes);
        }
        self.forget(page);
        Ok(())
    }

    /// Drops all pages.
    pub fn clear(&mut self)
        ensures { (p : ℕ) (held : List ℕ) → HoldsPage self.new p held → ⊥ }
    {
        self.kept.clear();
    }
}
