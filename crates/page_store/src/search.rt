//! The search for a free page.
ghost use Rattle.std.specs.Prelude.{◌≡◌, ◌≢◌, ◌≤◌, ◌<◌, ℕ, IfSome, IfNone, length};
ghost use Rattle.page_store.specs.declared.limits.TheConstants.{MAX_PAGES};
ghost use Rattle.page_store.specs.Marks.{mark as mark_of, free_count};

use crate::marks::Mark;

/// Among how many pages it begins.
const FIRST_PAGES: u32 = 256;

/// Where a free page is looked for: after the one that was found last, among the first pages of the store. Where these have been gone
/// through, and fewer than half of them were found free, it goes on among twice as many. So what is written stays close
/// together, and a file takes little more room than its table.
#[derive(Drop)]
pub struct Search {
    /// Where it goes on.
    next: u32,
    /// Before which page it ends.
    end: u32,
    /// How many pages it has found since it was at the first page.
    found: u32,
}

impl Search {
    /// A search that has found no page.
    pub fn new() -> Search {
        Search {
            next: 0,
            end: FIRST_PAGES,
            found: 0,
        }
    }

    /// A free page, if there is one.
    pub fn find(&mut self, marks: &[Mark]) -> Option<u32>
        requires { length marks.now ≤ MAX_PAGES }
        ensures free { IfSome result (λ page. mark_of marks.now page ≡ Mark.Free) }
        ensures none { IfNone result (free_count marks.now ≡ 0) }
    {
        let found = self.find_on(marks);
        if let Some(page) = found {
            self.next = page;
            self.found = self.found.saturating_add(1);
        }
        found
    }

    /// The next free page, or the first of all.
    fn find_on(&mut self, marks: &[Mark]) -> Option<u32>
        requires { length marks.now ≤ MAX_PAGES }
        ensures free { IfSome result (λ page. mark_of marks.now page ≡ Mark.Free) }
        ensures none { IfNone result (free_count marks.now ≡ 0) }
    {
        match find_below(marks, self.next, self.end) {
            Some(page) => Some(page),
            None => {
                self.turn();
                find_first(marks)
            }
        }
    }

    /// All pages have been gone through, up to where it ends.
    fn turn(&mut self) {
        if self.found < self.end / 2 {
            self.end = self.end.saturating_mul(2);
        }
        self.found = 0;
    }
}

/// The first free page from one on, before another.
fn find_below(marks: &[Mark], from: u32, end: u32) -> Option<u32>
    requires { length marks.now ≤ MAX_PAGES }
    ensures { IfSome result (λ page. mark_of marks.now page ≡ Mark.Free) }
{
    let end = (end as usize).min(marks.len());
    for page in from as usize..end {
        if marks[page] == Mark::Free {
            return Some(page as u32);
        }
    }
    None
}

/// The first free page of all.
fn find_first(marks: &[Mark]) -> Option<u32>
    requires { length marks.now ≤ MAX_PAGES }
    ensures free { IfSome result (λ page. mark_of marks.now page ≡ Mark.Free) }
    ensures none { IfNone result (free_count marks.now ≡ 0) }
{
    for page in 0..marks.len() {
        if marks[page] == Mark::Free {
            return Some(page as u32);
        }
    }
    None
}
