//! Sectors that were written and wait in memory.
ghost use Rattle.std.specs.Prelude.{◌≡◌, ◌≢◌, ◌+◌, ◌*◌, ◌/◌, ◌%◌, ◌^◌, ◌<◌, ◌≤◌, ℕ, List, true, length, IfOk, IfSome, IfNone, None};
ghost use Rattle.std.specs.Bool.{OnTrue, OnFalse};
ghost use Rattle.file_disk.specs.Bytes.{sector_of, LeavesOthers};
ghost use Rattle.file_disk.specs.WaitingSectors.{page_at, place_of, slot_of, shown_of};
ghost use Rattle.file_disk.specs.lemmas.WaitingSectors.{AreDistinct, ArePlaced, AreInside, AreHinted, IsRun};

use crate::put_bytes::put_bytes;
use crate::waiting_page::{WaitingPage, is_whole, set_sector};
use std::alloc::{AllocError, Global};

/// For so many remainders of page numbers a place is noted.
const HINTS: usize = 16_384;

/// Puts a sector over the one at this slot.
fn put_sector(bytes: &mut Vec<u8>, slot: usize, from: &[u8; 512])
    requires { 512 * slot + 512 ≤ length bytes.old.items }
    ensures written { sector_of bytes.new.items slot ≡ from.now }
    ensures others { LeavesOthers (512 * slot) 512 bytes.old.items bytes.new.items }
{
    put_bytes(bytes, 512 * slot, from);
}

/// Pages of which sectors wait, in the order in which they came, this many at most. The memory for all of them is taken once.
#[derive(Drop)]
pub struct WaitingWrites {
    pub pages: Vec<WaitingPage>,
    /// This many of these places are taken.
    pub count: usize,
    /// The bytes of all places, one after another.
    pub bytes: Vec<u8>,
    /// For each remainder of a page number what is noted of the place that got such a page last, or 0 if none did. Whoever finds a place
    /// here looks whether the page is there.
    hints: Vec<u16>,
    ghost few: { count ≤ length pages.items },
    ghost sized: { length bytes.items ≡ 4096 * length pages.items },
    ghost distinct: { AreDistinct pages.items count },
    ghost placed: { ArePlaced pages.items count },
    ghost hinted: { length hints.items ≡ 16384 },
    ghost noted: { AreHinted pages.items count hints.items },
}

/// Where the place of this page may be noted.
fn hint_of(page: u64) -> usize
    ensures { result ≡ page % 16384 }
{
    (page % HINTS as u64) as usize
}

/// What is noted of a place: one more than it, if a note can tell so much.
fn note_of(place: usize) -> u16
    ensures { result ≢ 0 }
{
    (place % 65_535) as u16 + 1
}

/// Nothing is noted of the places of these pages any more.
fn forget_notes(hints: &mut Vec<u16>, pages: &[WaitingPage])
    requires { length hints.old.items ≡ 16384 }
    ensures { length hints.new.items ≡ 16384 }
{
    for page in pages {
        hints[hint_of(page.number)] = 0;
    }
}

impl WaitingWrites {
    /// No page, and room for this many.
    pub fn new(alloc: Global, room: usize) -> Result<Self, AllocError>
        requires { 4096 * room < 2 ^ 63 }
        ensures none { IfOk result (λ w. w.count ≡ 0) }
        ensures room { IfOk result (λ w. length w.pages.items ≡ room) }
    {
        let page = WaitingPage {
            number: 0,
            has: [false; 8],
        };
        let mut pages = Vec::new(alloc);
        pages.resize(room, page)?;
        let mut bytes = Vec::new(alloc);
        bytes.resize(4096 * room, 0)?;
        let mut hints = Vec::new(alloc);
        hints.resize(HINTS, 0)?;
        Ok(WaitingWrites {
            pages,
            count: 0,
            bytes,
            hints,
        })
    }

    /// The place of a page, if it has one: none where none is noted, and the noted one if the page is there.
    pub fn place(&self, page: u64) -> Option<usize>
        ensures is { result ≡ place_of self.now.pages.items self.now.count page }
        ensures there { IfSome result (λ p. (p < self.now.count) × ((page_at self.now.pages.items p).number ≡ page)) }
    {
        if self.count == 0 {
            return None;
        }
        let hint = usize::from(self.hints[hint_of(page)]);
        if hint == 0 {
            return None;
        }
        if hint <= self.count && self.pages[hint - 1].number == page {
            return Some(hint - 1);
        }
        self.place_of_any(page)
    }

    /// The place of a page, if it has one, looked for at all places.
    fn place_of_any(&self, page: u64) -> Option<usize>
        ensures is { result ≡ place_of self.now.pages.items self.now.count page }
        ensures there { IfSome result (λ p. (p < self.now.count) × ((page_at self.now.pages.items p).number ≡ page)) }
    {
        for place in 0..self.count {
            if self.pages[place].number == page {
                return Some(place);
            }
        }
        None
    }

    /// Copies a sector, if it waits.
    pub fn give(&self, at: u64, into: &mut [u8; 512]) -> bool
        ensures found { (content : List ℕ) → OnTrue result (into.new ≡ shown_of self.now.pages.items self.now.count self.now.bytes.items content at) }
        ensures none { OnFalse result ((content : List ℕ)
            → shown_of self.now.pages.items self.now.count self.now.bytes.items content at ≡ sector_of content at) }
        ensures absent { OnFalse result (slot_of self.now.pages.items self.now.count at ≡ None) }
    {
        let Some(place) = self.place(at / 8) else {
            return false;
        };
        let sector = (at % 8) as usize;
        if !self.pages[place].has[sector] {
            return false;
        }
        let start = 512 * (8 * place + sector);
        into.copy_from_slice(&self.bytes[start..start + 512]);
        true
    }

    /// The place of a page, which gets the next one with no sector in it if it has none, while there is room.
    pub fn place_for(&mut self, page: u64) -> Option<usize>
        requires { 4096 * page < 2 ^ 64 }
        ensures placed { IfSome result (λ p. (p < self.new.count) × ((page_at self.new.pages.items p).number ≡ page)) }
        ensures same { (content : List ℕ) (k : ℕ) → shown_of self.new.pages.items self.new.count self.new.bytes.items content k
            ≡ shown_of self.old.pages.items self.old.count self.old.bytes.items content k }
        ensures slots { (k : ℕ) → slot_of self.new.pages.items self.new.count k ≡ slot_of self.old.pages.items self.old.count k }
        ensures inside { (end : ℕ) → AreInside self.old.pages.items self.old.count end
            → AreInside self.new.pages.items self.new.count end }
        ensures full { IfNone result ((place_of self.old.pages.items self.old.count page ≡ None) × (length self.old.pages.items ≤ self.old.count)) }
        ensures refused { IfNone result (self.new ≡ self.old) }
        ensures room { length self.new.pages.items ≡ length self.old.pages.items }
    {
        if let Some(place) = self.place(page) {
            return Some(place);
        }
        let place = self.count;
        if place == self.pages.len() {
            return None;
        }
        self.pages[place] = WaitingPage {
            number: page,
            has: [false; 8],
        };
        self.hints[hint_of(page)] = note_of(place);
        self.count = place + 1;
        Some(place)
    }

    /// Puts a sector into the place of its page.
    fn fill(&mut self, place: usize, at: u64, from: &[u8; 512])
        requires there { place < self.old.count }
        requires its { (page_at self.old.pages.items place).number ≡ at / 8 }
        ensures put { (content : List ℕ) → shown_of self.new.pages.items self.new.count self.new.bytes.items content at ≡ from.now }
        ensures others { (content : List ℕ) (k : ℕ) → k ≢ at → shown_of self.new.pages.items self.new.count self.new.bytes.items content k
            ≡ shown_of self.old.pages.items self.old.count self.old.bytes.items content k }
        ensures slots { (k : ℕ) → k ≢ at → slot_of self.new.pages.items self.new.count k ≡ slot_of self.old.pages.items self.old.count k }
        ensures inside { (end : ℕ) → 512 * (at + 1) ≤ end → AreInside self.old.pages.items self.old.count end
            → AreInside self.new.pages.items self.new.count end }
        ensures room { length self.new.pages.items ≡ length self.old.pages.items }
    {
        let sector = (at % 8) as usize;
        put_sector(&mut self.bytes, 8 * place + sector, from);
        let page = &mut self.pages[place];
        set_sector(&mut page.has, sector);
    }

    /// Puts a sector, whose page must have a place or get one. It answers whether there was room.
    pub fn put(&mut self, at: u64, from: &[u8; 512]) -> bool
        requires { 512 * (at + 1) < 2 ^ 64 }
        ensures put { (content : List ℕ) → OnTrue result (shown_of self.new.pages.items self.new.count self.new.bytes.items content at ≡ from.now) }
        ensures others { (content : List ℕ) (k : ℕ) → k ≢ at → shown_of self.new.pages.items self.new.count self.new.bytes.items content k
            ≡ shown_of self.old.pages.items self.old.count self.old.bytes.items content k }
        ensures slots { (k : ℕ) → k ≢ at → slot_of self.new.pages.items self.new.count k ≡ slot_of self.old.pages.items self.old.count k }
        ensures inside { (end : ℕ) → 512 * (at + 1) ≤ end → AreInside self.old.pages.items self.old.count end
            → AreInside self.new.pages.items self.new.count end }
        ensures refused { OnFalse result (self.new ≡ self.old) }
        ensures full { OnFalse result ((place_of self.old.pages.items self.old.count (at / 8) ≡ None) × (length self.old.pages.items ≤ self.old.count)) }
        ensures room { length self.new.pages.items ≡ length self.old.pages.items }
    {
        let Some(place) = self.place_for(at / 8) else {
            return false;
        };
        self.fill(place, at, from);
        true
    }

    /// Nothing waits any more.
    pub fn clear(&mut self)
        ensures none { self.new.count ≡ 0 }
        ensures room { length self.new.pages.items ≡ length self.old.pages.items }
    {
        let count = self.count;
        self.count = 0;
        forget_notes(&mut self.hints, &self.pages[..count]);
    }

    /// The place of the first page from this number on.
    pub fn least_from(&self, number: u64) -> Option<usize>
        ensures there { IfSome result (λ p. (p < self.now.count) × (number ≤ (page_at self.now.pages.items p).number)) }
        ensures least { IfSome result (λ p. (q : ℕ) → q < self.now.count → (page_at self.now.pages.items q).number < (page_at self.now.pages.items p).number
            → (page_at self.now.pages.items q).number < number) }
        ensures none { IfNone result ((q : ℕ) → q < self.now.count → (page_at self.now.pages.items q).number < number) }
    {
        let mut found = None;
        let mut least = u64::MAX;
        for place in 0..self.count {
            let this = self.pages[place].number;
            if this >= number && this < least {
                found = Some(place);
                least = this;
            }
        }
        found
    }

    /// How many whole pages stand side by side from this place on that lie side by side in the file; none if the page here is not whole.
    pub fn run_at(&self, place: usize) -> usize
        requires { place < self.now.count }
        ensures { IsRun self.now.pages.items self.now.count place result }
    {
        let first = self.pages[place].number;
        for run in 0..self.count - place {
            let page = self.pages[place + run];
            if page.number != first + run as u64 || !is_whole(page.has) {
                return run;
            }
        }
        self.count - place
    }
}
