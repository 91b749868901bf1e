//! What a store of pages promises.
ghost use Rattle.std.specs.Prelude.{◌≡◌, ◌≢◌, ◌↔◌, ◌≤◌, ◌<◌, ℕ, length, true, false, IsErrOf, IsTrue};
ghost use Rattle.std.specs.Prelude.{OnOk, OnErr, IfOk, IfErr, IfSome, IfNone, OnSome};
ghost use Rattle.page_store.specs.declared.marks.Mark.TheVariants.{Committed, Waiting, Fresh, Free};
ghost use Rattle.page_store.specs.Causes.{MarkCause, PageReadCause, NewCause, PageWriteCause, StoreCommitCause, GrowCause};
ghost use Rattle.page_store.specs.Marks.{mark as mark_of, AreCut, AreSealed, AreDiscarded, IsMarked, let_go, free_count};
ghost use Rattle.page_store.specs.Pages.{AllWait};
ghost use Rattle.page_store.specs.declared.limits.TheConstants.{MAX_PAGES};
ghost use Rattle.page_store.specs.Store.{Store, reads, SavedAs, StopLeaves, IsSoundStore, StoreWorks, IsUnchanged, IsRemarked, Commits};
ghost use Rattle.page_store.specs.Store.{IsCommitted, IsShortened, StoreGrows, IsStoreGrown, SavedIn, IsHoldTaken, IsLetGo};
ghost use Rattle.page_store.specs.Holds.{needed_by};
ghost use Rattle.page_store.specs.declared.holds.HoldPlace.{HoldPlace};

use crate::{Hold, PageFault};
use root_pair::Root;
use sector_disk::PageEdit;
use std::alloc::Global;

/// Pages of 4,096 bytes, numbered from 0. Page 0 is the system page and never handed out. While opening, each page that
/// the committed root needs is marked, and then the store is sealed. What is written counts from the next commit on.
/// After any refusal but `Disk` the store is as it was.
pub trait Pages {
    /// What is stated of it: what each page reads as, what a stop leaves, and what each page is used for.
    ghost store: { Self → Store };

    /// While opening: the committed root needs this page. `Damaged` for page 0, for a page that is not there and for one
    /// that is marked already.
    fn mark(&mut self, page: u32) -> Result<(), PageFault>
        ensures ok { OnOk result (IsMarked page Committed (store self.old).marks (store self.new).marks) }
        ensures waited { OnOk result (mark_of (store self.old).marks page ≡ Waiting) }
        ensures is_page { OnOk result (1 ≤ page) }
        ensures within { OnOk result (page < length (store self.old).marks) }
        ensures open { OnOk result ((store self.new).closed ≡ false) }
        ensures refused { OnErr result (store self.new ≡ store self.old) }
        ensures cause { IfErr result (MarkCause (store self.old) page) }
        ensures closed { (store self.old).closed ≡ true → IsErrOf result PageFault.Closed }
        ensures others { IsRemarked (store self.old) (store self.new) }
        ensures works { StoreWorks (store self.old) (store self.new) };

    /// Ends the opening: all pages that are not marked are free.
    fn seal(&mut self)
        ensures marks { AreSealed (store self.old).marks (store self.new).marks }
        ensures others { IsRemarked (store self.old) (store self.new) };

    /// While opening, before any page is marked: there are this many pages and no more, those that a root says.
    fn set_capacity(&mut self, pages: u32)
        requires some { 1 ≤ pages }
        requires room { pages ≤ length (store self.old).marks }
        requires waits { AllWait (store self.old) }
        ensures marks { AreCut pages (store self.old).marks (store self.new).marks }
        ensures others { IsShortened pages (store self.old) (store self.new) };

    /// What was last written to the page. `Damaged` for page 0 and for a page that is not there. After a refusal the
    /// bytes in `into` say nothing.
    fn read_page(&mut self, page: u32, into: &mut [u8; 4096]) -> Result<(), PageFault>
        ensures bytes { IsTrue (store self.old).disk.honest → OnOk result (into.new ≡ reads (store self.old) page) }
        ensures is_page { OnOk result (1 ≤ page) }
        ensures within { OnOk result (page < length (store self.old).marks) }
        ensures open { OnOk result ((store self.new).closed ≡ false) }
        ensures unchanged { IsUnchanged (store self.old) (store self.new) }
        ensures untouched { IfErr result (λ fault. fault ≢ PageFault.Disk → store self.new ≡ store self.old) }
        ensures cause { IfErr result (PageReadCause (store self.old) page (store self.new)) }
        ensures closed { (store self.old).closed ≡ true → IsErrOf result PageFault.Closed }
        ensures works { StoreWorks (store self.old) (store self.new) };

    /// What was last written to the page, as it stands in memory; none where it does not, and of a closed store. It never uses
    /// the disk, and counts as a use of the page, so that one that is asked for stays in memory. What is not answered here is
    /// read by `read_page`.
    fn bytes_of(&self, page: u32) -> Option<&[u8; 4096]>
        ensures bytes { IsTrue (store self.now).disk.honest → IfSome result (λ bytes. bytes.now ≡ reads (store self.now) page) }
        ensures is_page { OnSome result (1 ≤ page) }
        ensures within { OnSome result (page < length (store self.now).marks) }
        ensures open { OnSome result ((store self.now).closed ≡ false) };

    /// Hands out a free page. `TableFull` only where none is free.
    fn new_page(&mut self) -> Result<u32, PageFault>
        ensures ok { IfOk result (λ page. IsMarked page Fresh (store self.old).marks (store self.new).marks) }
        ensures free { IfOk result (λ page. mark_of (store self.old).marks page ≡ Free) }
        ensures is_page { IfOk result (λ page. 1 ≤ page) }
        ensures within { IfOk result (λ page. page < length (store self.old).marks) }
        ensures open { OnOk result ((store self.new).closed ≡ false) }
        ensures refused { OnErr result (store self.new ≡ store self.old) }
        ensures cause { IfErr result (NewCause (store self.old)) }
        ensures closed { (store self.old).closed ≡ true → IsErrOf result PageFault.Closed }
        ensures others { IsRemarked (store self.old) (store self.new) }
        ensures works { StoreWorks (store self.old) (store self.new) };

    /// Whether the page was handed out since the last commit.
    fn is_fresh(&self, page: u32) -> bool
        ensures { IsTrue result ↔ (mark_of (store self.now).marks page ≡ Fresh) };

    /// Writes a page that was handed out since the last commit.
    fn write_page(&mut self, page: u32, from: &[u8; 4096]) -> Result<(), PageFault>
        requires { mark_of (store self.old).marks page ≡ Fresh }
        ensures written { IsTrue (store self.old).disk.honest → OnOk result (reads (store self.new) page ≡ from.now) }
        ensures others { IsTrue (store self.old).disk.honest → (p : ℕ) → p ≢ page → reads (store self.new) p ≡ reads (store self.old) p }
        ensures marks { (store self.new).marks ≡ (store self.old).marks }
        ensures open { OnOk result ((store self.new).closed ≡ false) }
        ensures untouched { IfErr result (λ fault. fault ≢ PageFault.Disk → store self.new ≡ store self.old) }
        ensures cause { IfErr result (PageWriteCause (store self.old) (store self.new)) }
        ensures closed { (store self.old).closed ≡ true → IsErrOf result PageFault.Closed }
        ensures works { StoreWorks (store self.old) (store self.new) };

    /// Edits a page that was handed out since the last commit where it stands in memory, and writes what changed. It answers
    /// whether it did: not where the page does not stand in memory so that it can be edited there, or is not one that the edit is for; then
    /// all is as it was.
    fn edit_page<E: PageEdit>(&mut self, page: u32, edit: &E) -> Result<bool, PageFault>
        requires { mark_of (store self.old).marks page ≡ Fresh }
        ensures edited { IsTrue (store self.old).disk.honest
            → IfOk result (λ done. IsTrue done → E.edits edit.now (reads (store self.old) page) (reads (store self.new) page)) }
        ensures others { IsTrue (store self.old).disk.honest → (p : ℕ) → p ≢ page → reads (store self.new) p ≡ reads (store self.old) p }
        ensures left { IfOk result (λ done. done ≡ false → store self.new ≡ store self.old) }
        ensures marks { (store self.new).marks ≡ (store self.old).marks }
        ensures open { OnOk result ((store self.new).closed ≡ false) }
        ensures untouched { IfErr result (λ fault. fault ≢ PageFault.Disk → store self.new ≡ store self.old) }
        ensures cause { IfErr result (PageWriteCause (store self.old) (store self.new)) }
        ensures closed { (store self.old).closed ≡ true → IsErrOf result PageFault.Closed }
        ensures works { StoreWorks (store self.old) (store self.new) };

    /// The page is not needed any more: free at once where it was handed out since the last commit, and else after the
    /// next.
    fn release(&mut self, page: u32)
        requires is_page { 1 ≤ page }
        requires within { page < length (store self.old).marks }
        ensures marks { IsMarked page (let_go (mark_of (store self.old).marks page)) (store self.old).marks (store self.new).marks }
        ensures others { IsRemarked (store self.old) (store self.new) }
        ensures works { StoreWorks (store self.old) (store self.new) };

    /// Puts this root in the place of the present one, by one write of the gate sector. A stop within it leaves the
    /// present root and its pages or the new root and all pages as they read, and after `Ok` the new.
    fn commit(&mut self, root: &[u8; 512]) -> Result<(), PageFault>
        ensures commits { Commits root.now (store self.old) (store self.new) }
        ensures after { IsTrue (store self.old).disk.honest
            → OnOk result (StopLeaves (store self.new) (SavedAs root.now (store self.old))) }
        ensures ok { OnOk result (IsCommitted root.now (store self.old) (store self.new)) }
        ensures kept_pages { IsTrue (store self.old).disk.honest → (p : ℕ) → 1 ≤ p → reads (store self.new) p ≡ reads (store self.old) p }
        ensures kept_root { OnErr result ((store self.new).root ≡ (store self.old).root) }
        ensures kept_marks { OnErr result ((store self.new).marks ≡ (store self.old).marks) }
        ensures untouched { IfErr result (λ fault. fault ≢ PageFault.Disk → store self.new ≡ store self.old) }
        ensures cause { IfErr result (StoreCommitCause (store self.old) (store self.new)) }
        ensures closed { (store self.old).closed ≡ true → IsErrOf result PageFault.Closed };

    /// Makes room for this many pages, more than there are: the disk is made longer where it is too short, all is synced, and then this root
    /// takes the place of the present one, as by `commit`. A stop within it leaves the present root and its pages, or the new root with
    /// room for this many pages and all pages as they read; after `Ok` the new, and from then on alone the new pages are there, and free.
    /// After a refusal the disk may be longer, which does no harm.
    fn grow(&mut self, alloc: Global, pages: u32, root: &[u8; 512]) -> Result<(), PageFault>
        requires some { 1 ≤ length (store self.old).marks }
        requires more { length (store self.old).marks < pages }
        requires few { pages ≤ MAX_PAGES }
        ensures grows { StoreGrows root.now pages (store self.old) (store self.new) }
        ensures after { IsTrue (store self.old).disk.honest
            → OnOk result (StopLeaves (store self.new) (SavedIn root.now pages (store self.old))) }
        ensures ok { OnOk result (IsStoreGrown root.now pages (store self.old) (store self.new)) }
        ensures kept_pages { IsTrue (store self.old).disk.honest → (p : ℕ) → 1 ≤ p → p < length (store self.old).marks
            → reads (store self.new) p ≡ reads (store self.old) p }
        ensures kept_root { OnErr result ((store self.new).root ≡ (store self.old).root) }
        ensures kept_marks { OnErr result ((store self.new).marks ≡ (store self.old).marks) }
        ensures untouched { IfErr result (λ fault. fault ≢ PageFault.Disk → store self.new ≡ store self.old) }
        ensures cause { IfErr result (GrowCause (store self.old) (store self.new)) }
        ensures closed { (store self.old).closed ≡ true → IsErrOf result PageFault.Closed };

    /// Goes back to the last commit. It takes no memory and always answers, of a closed store too.
    fn discard(&mut self)
        ensures marks { AreDiscarded (store self.old).marks (store self.new).marks }
        ensures others { IsRemarked (store self.old) (store self.new) }
        ensures works { StoreWorks (store self.old) (store self.new) };

    /// Takes a hold on the committed root: until it is let go, the pages that this root needs are neither free nor written. None where
    /// four are taken. It takes no memory and always answers, of a closed store too.
    fn hold(&mut self) -> Option<Hold>
        ensures some { IfSome result (λ hold. IsHoldTaken hold.place (store self.old) (store self.new)) }
        ensures none { IfNone result ((store self.new ≡ store self.old)
            × ((place : HoldPlace) → needed_by (store self.old).holds.taken place ≡ true)) };

    /// Lets a hold go: a page that stayed for it alone is free. It takes no memory and always answers, of a closed store too.
    fn let_go(&mut self, hold: Hold)
        ensures { IsLetGo hold.place (store self.old) (store self.new) };

    /// How many pages are free. It takes no memory and always answers, of a closed store too.
    fn free_pages(&self) -> u32
        ensures { result ≡ free_count (store self.now).marks };

    /// How many pages there are, the system page counted.
    fn capacity(&self) -> u32
        ensures { result ≡ length (store self.now).marks };

    /// Whether a write or a sync has failed. A closed store refuses each call that uses the disk.
    fn is_closed(&self) -> bool
        ensures { result ≡ (store self.now).closed };

    /// The committed root.
    fn root(&self) -> Root
        ensures { result.bytes ≡ (store self.now).root };

    /// What is true of each store.
    ghost sound: { (s : Self) → IsSoundStore (store s) };
}
