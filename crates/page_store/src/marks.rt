//! What each page is used for.
ghost use Rattle.std.specs.Prelude.{◌≡◌, ◌≢◌, ◌≤◌, ◌<◌, ℕ, false, length, IfOk, IfSome, IfNone};
ghost use Rattle.page_store.specs.Marks.{mark as mark_of, turned as turned_of, keeps, let_go as let_go_of, free_one as free_one_of};
ghost use Rattle.page_store.specs.Marks.{free_count, committed as committed_of, left as left_of};
ghost use Rattle.page_store.specs.Marks.{AreFreeFrom, AreGrown, AreLeft, is_rooted as is_rooted_of, rests as rests_of};
ghost use Rattle.page_store.specs.Holds.{none as none_of, needed_by, with_need, any, holders_at};
ghost use Rattle.page_store.specs.declared.marks.Mark.TheVariants.{Free};
ghost use Rattle.page_store.specs.declared.limits.TheConstants.{MAX_PAGES};

use crate::holds::{HoldPlace, Holders};
use std::alloc::{AllocError, Global};

/// What a page is used for.
#[derive(Clone, Copy, Debug, PartialEq, Eq)]
pub enum Mark {
    /// The committed root needs it. The system page is one of these.
    Committed,
    /// While opening: the committed root may need it, and it is not marked yet.
    Waiting,
    /// Handed out since the last commit.
    Fresh,
    /// The committed root needs it, and the next will not.
    Released,
    /// Nothing needs it.
    Free,
    /// The committed root does not need it, and a hold does.
    Past,
}

/// The mark after a turn.
pub fn turned(mark: Mark, fresh: Mark, released: Mark, waiting: Mark) -> Mark
    ensures { result ≡ turned_of fresh released waiting mark }
{
    match mark {
        Mark::Committed => Mark::Committed,
        Mark::Waiting => waiting,
        Mark::Fresh => fresh,
        Mark::Released => released,
        Mark::Free => Mark::Free,
        Mark::Past => Mark::Past,
    }
}

/// The mark of a page once a store has grown: the one after a commit, and of a new page that it is free.
fn grown_mark(marks: &[Mark], holders: &[Holders], page: u32) -> Mark
    requires { length holders.now ≡ length marks.now }
    ensures each { page < length marks.now → result ≡ committed_of (holders_at holders.now page) (mark_of marks.now page) }
    ensures added { length marks.now ≤ page → result ≡ Free }
{
    if page as usize >= marks.len() {
        return Mark::Free;
    }
    committed(marks[page as usize], holders[page as usize])
}

/// The marks of this many pages, more than there are, once a store has grown.
pub fn grown_marks(
    alloc: Global,
    marks: &[Mark],
    holders: &[Holders],
    pages: u32,
) -> Result<Vec<Mark>, AllocError>
    requires many { length marks.now ≤ pages }
    requires same_length { length holders.now ≡ length marks.now }
    ensures { IfOk result (λ grown. AreGrown holders.now pages marks.now grown.items) }
{
    let mut grown = Vec::new(alloc);
    for page in 0..pages {
        grown.push(grown_mark(marks, holders, page))?;
    }
    Ok(grown)
}

/// Which holds need a page; none needs one that is not there.
fn holders_of(holders: &[Holders], page: u32) -> Holders
    ensures { result ≡ holders_at holders.now page }
{
    if page as usize >= holders.len() {
        return Holders::none();
    }
    holders[page as usize]
}

/// Which holds need each of this many pages, no fewer than there are, once a store has grown.
pub fn grown_holders(
    alloc: Global,
    holders: &[Holders],
    pages: u32,
) -> Result<Vec<Holders>, AllocError>
    requires { length holders.now ≤ pages }
    ensures long { IfOk result (λ grown. length grown.items ≡ pages) }
    ensures each { IfOk result (λ grown. (p : ℕ) → holders_at grown.items p ≡ holders_at holders.now p) }
{
    let mut grown = Vec::new(alloc);
    for page in 0..pages {
        grown.push(holders_of(holders, page))?;
    }
    Ok(grown)
}

/// The mark after a commit of a page that these holds need.
pub fn committed(mark: Mark, holders: Holders) -> Mark
    ensures { result ≡ committed_of holders mark }
{
    match mark {
        Mark::Fresh => Mark::Committed,
        Mark::Released => {
            if holders.any() {
                Mark::Past
            } else {
                Mark::Free
            }
        }
        other => other,
    }
}

/// The mark of a page that these holds still need.
fn left(mark: Mark, holders: Holders) -> Mark
    ensures { result ≡ left_of holders mark }
{
    match mark {
        Mark::Past => {
            if holders.any() {
                Mark::Past
            } else {
                Mark::Free
            }
        }
        other => other,
    }
}

/// What no hold needs any more, nor the committed root, is free. All pages from `high` on are.
pub fn free_left(marks: &mut Vec<Mark>, holders: &[Holders], high: usize)
    requires same_length { length holders.now ≡ length marks.old.items }
    requires free { AreFreeFrom high marks.old.items }
    ensures { AreLeft holders.now marks.old.items marks.new.items }
{
    for page in 0..high.min(marks.len()) {
        marks[page] = left(marks[page], holders[page]);
    }
}

/// Whether a hold that is taken now needs a page of this mark.
fn is_rooted(mark: Mark) -> bool
    ensures { result ≡ is_rooted_of mark }
{
    match mark {
        Mark::Committed | Mark::Released => true,
        Mark::Waiting | Mark::Fresh | Mark::Free | Mark::Past => false,
    }
}

/// This hold needs the pages that the committed root needs. From `high` on all pages are free, and no hold needs them.
pub fn take_hold(holders: &mut Vec<Holders>, place: HoldPlace, marks: &[Mark], high: usize)
    requires same_length { length holders.old.items ≡ length marks.now }
    requires free { AreFreeFrom high marks.now }
    requires unheld { (p : ℕ) → high ≤ p → holders_at holders.old.items p ≡ none_of }
    ensures same_length { length holders.new.items ≡ length holders.old.items }
    ensures each { (p : ℕ) → p < length marks.now
        → holders_at holders.new.items p ≡ with_need (holders_at holders.old.items p) place (is_rooted_of (mark_of marks.now p)) }
{
    for page in 0..high.min(holders.len()) {
        holders[page] = holders[page].with(place, is_rooted(marks[page]));
    }
}

/// This hold needs no page any more. From `high` on no hold needs one.
pub fn end_hold(holders: &mut Vec<Holders>, place: HoldPlace, high: usize)
    requires { (p : ℕ) → high ≤ p → holders_at holders.old.items p ≡ none_of }
    ensures same_length { length holders.new.items ≡ length holders.old.items }
    ensures each { (p : ℕ) → holders_at holders.new.items p ≡ with_need (holders_at holders.old.items p) place false }
{
    for page in 0..high.min(holders.len()) {
        holders[page] = holders[page].with(place, false);
    }
}

/// The mark after a release.
pub fn let_go(mark: Mark) -> Mark
    ensures { result ≡ let_go_of mark }
{
    match mark {
        Mark::Committed => Mark::Released,
        Mark::Fresh => Mark::Free,
        other => other,
    }
}

/// Whether the next root may need a page of this mark.
pub fn is_kept(mark: Mark) -> bool
    ensures { result ≡ keeps mark }
{
    match mark {
        Mark::Committed | Mark::Waiting | Mark::Fresh => true,
        Mark::Released | Mark::Free | Mark::Past => false,
    }
}

/// Whether nothing is going on with a page of this mark.
pub fn rests(mark: Mark) -> bool
    ensures { result ≡ rests_of mark }
{
    match mark {
        Mark::Committed | Mark::Free | Mark::Past => true,
        Mark::Waiting | Mark::Fresh | Mark::Released => false,
    }
}

/// One for a free page.
fn free_one(mark: Mark) -> u32
    ensures { result ≡ free_one_of mark }
{
    match mark {
        Mark::Free => 1,
        _ => 0,
    }
}

/// How many of these pages are free, one by one.
fn count_each(marks: &[Mark]) -> u32
    requires { length marks.now ≤ MAX_PAGES }
    ensures { result ≡ free_count marks.now }
{
    let mut count = 0;
    for mark in marks {
        count += free_one(*mark);
    }
    count
}

/// How many pages are free, where all from `high` on are.
pub fn count_free(marks: &[Mark], high: usize) -> u32
    requires few { length marks.now ≤ MAX_PAGES }
    requires free { AreFreeFrom high marks.now }
    ensures { result ≡ free_count marks.now }
{
    let used = high.min(marks.len());
    let rest = (marks.len() - used) as u32;
    count_each(&marks[..used]) + rest
}

/// From which page on all are free, where they are from `high` on.
pub fn first_unused(marks: &[Mark], high: usize) -> usize
    requires { AreFreeFrom high marks.now }
    ensures { AreFreeFrom result marks.now }
{
    let mut unused = high.min(marks.len());
    while unused > 0 && marks[unused - 1] == Mark::Free {
        unused -= 1;
    }
    unused
}
