//! Blocks of pages, and which of them a turn of the marks may leave out.
ghost use Rattle.std.specs.Prelude.{◌≡◌, ◌≤◌, ◌<◌, ◌+◌, ◌*◌, ℕ, true, false, length, IfOk, IsTrue};
ghost use Rattle.page_store.specs.Blocks.{noted_at, ArePartTurned, AreBlocksNoted};
ghost use Rattle.page_store.specs.Holds.{holders_at};
ghost use Rattle.page_store.specs.Marks.{mark as mark_of, rests as rests_of, turned as turned_of, committed as committed_of};
ghost use Rattle.page_store.specs.Marks.{IsMarked, Turned, AreCommitted};
ghost use Rattle.page_store.specs.declared.limits.TheConstants.{MAX_PAGES};

use crate::holds::Holders;
use crate::marks::{Mark, committed, rests, turned};
use std::alloc::{AllocError, Global};

/// How many pages a block has.
const BLOCK: usize = 256;

/// How many blocks this many pages have.
pub fn blocks_of(pages: u32) -> usize
    requires { pages ≤ MAX_PAGES }
    ensures room { pages ≤ 256 * result }
    ensures few { result ≤ 4096 }
{
    (pages as usize).div_ceil(BLOCK)
}

/// The blocks of this many pages, each noted.
pub fn all_noted(alloc: Global, pages: u32) -> Result<Vec<bool>, AllocError>
    requires { pages ≤ MAX_PAGES }
    ensures room { IfOk result (λ noted. pages ≤ 256 * length noted.items) }
    ensures few { IfOk result (λ noted. length noted.items ≤ 4096) }
    ensures each { IfOk result (λ noted. (k : ℕ) → k < length noted.items → noted_at noted.items k ≡ true) }
{
    vec![in alloc; true; blocks_of(pages)]
}

/// Marks a page, and notes its block.
pub fn put_mark(marks: &mut Vec<Mark>, noted: &mut Vec<bool>, page: u32, now: Mark)
    requires within { page < length marks.old.items }
    requires noted { AreBlocksNoted marks.old.items noted.old.items }
    ensures marked { IsMarked page now marks.old.items marks.new.items }
    ensures noted { AreBlocksNoted marks.new.items noted.new.items }
{
    marks[page as usize] = now;
    noted[page as usize / BLOCK] = true;
}

/// Whether one of two parts goes on.
fn either(one: bool, other: bool) -> bool
    ensures first { result ≡ false → one ≡ false }
    ensures second { result ≡ false → other ≡ false }
{
    one || other
}

/// Gives one page its next mark, and says whether something goes on with it.
fn turn_page(marks: &mut Vec<Mark>, page: usize, fresh: Mark, released: Mark, waiting: Mark) -> bool
    requires { page < length marks.old.items }
    ensures { ArePartTurned (λ p m. turned_of fresh released waiting m) page (page + 1) result marks.old.items marks.new.items }
{
    let now = turned(marks[page], fresh, released, waiting);
    marks[page] = now;
    !rests(now)
}

/// Gives the pages of one block their next marks, where it is noted, and says whether something goes on with one of them.
fn turn_block(
    marks: &mut Vec<Mark>,
    block: usize,
    noted: bool,
    fresh: Mark,
    released: Mark,
    waiting: Mark,
) -> bool
    requires within { block < 4096 }
    requires rest { noted ≡ false → (p : ℕ) → 256 * block ≤ p → p < 256 * block + 256 → IsTrue (rests_of (mark_of marks.old.items p)) }
    ensures { ArePartTurned (λ p m. turned_of fresh released waiting m) (256 * block) (256 * block + 256) result
        marks.old.items marks.new.items }
{
    if !noted {
        return false;
    }
    let start = BLOCK * block;
    let pages = marks.len();
    if start >= pages {
        return false;
    }
    let end = pages.min(start + BLOCK);
    let mut goes_on = false;
    for page in start..end {
        let here = turn_page(marks, page, fresh, released, waiting);
        goes_on = either(goes_on, here);
    }
    goes_on
}

/// Gives the pages that were handed out, those that were released and those that wait other marks.
pub fn turn(
    marks: &mut Vec<Mark>,
    noted: &mut Vec<bool>,
    fresh: Mark,
    released: Mark,
    waiting: Mark,
)
    requires { AreBlocksNoted marks.old.items noted.old.items }
    ensures turned { Turned fresh released waiting marks.old.items marks.new.items }
    ensures noted { AreBlocksNoted marks.new.items noted.new.items }
{
    for block in 0..noted.len() {
        noted[block] = turn_block(marks, block, noted[block], fresh, released, waiting);
    }
}

/// Gives one page the mark of after a commit, and says whether something goes on with it.
fn commit_page(marks: &mut Vec<Mark>, page: usize, holders: &[Holders]) -> bool
    requires within { page < length marks.old.items }
    requires same_length { length holders.now ≡ length marks.old.items }
    ensures { ArePartTurned (λ p m. committed_of (holders_at holders.now p) m) page (page + 1) result marks.old.items marks.new.items }
{
    let now = committed(marks[page], holders[page]);
    marks[page] = now;
    !rests(now)
}

/// Gives the pages of one block the marks of after a commit, where it is noted, and says whether something goes on with one of
/// them.
fn commit_block(marks: &mut Vec<Mark>, block: usize, noted: bool, holders: &[Holders]) -> bool
    requires within { block < 4096 }
    requires same_length { length holders.now ≡ length marks.old.items }
    requires rest { noted ≡ false → (p : ℕ) → 256 * block ≤ p → p < 256 * block + 256 → IsTrue (rests_of (mark_of marks.old.items p)) }
    ensures { ArePartTurned (λ p m. committed_of (holders_at holders.now p) m) (256 * block) (256 * block + 256) result
        marks.old.items marks.new.items }
{
    if !noted {
        return false;
    }
    let start = BLOCK * block;
    let pages = marks.len();
    if start >= pages {
        return false;
    }
    let end = pages.min(start + BLOCK);
    let mut goes_on = false;
    for page in start..end {
        let here = commit_page(marks, page, holders);
        goes_on = either(goes_on, here);
    }
    goes_on
}

/// What was handed out is needed, and what was released is free, or stays for the holds that need it.
pub fn turn_committed(marks: &mut Vec<Mark>, noted: &mut Vec<bool>, holders: &[Holders])
    requires same_length { length holders.now ≡ length marks.old.items }
    requires noted { AreBlocksNoted marks.old.items noted.old.items }
    ensures committed { AreCommitted holders.now marks.old.items marks.new.items }
    ensures noted { AreBlocksNoted marks.new.items noted.new.items }
{
    for block in 0..noted.len() {
        noted[block] = commit_block(marks, block, noted[block], holders);
    }
}
