//! A store of pages, whichever it is.
ghost use Rattle.std.specs.Prelude.{◌≡◌, ◌≤◌, ◌<◌, false, length, IfErr, IfSome, OnOk, OnSome};
ghost use Rattle.page_store.specs.Causes.{NewCause, PageWriteCause};
ghost use Rattle.page_store.specs.Marks.{mark as mark_of, AreCut, AreDiscarded};
ghost use Rattle.page_store.specs.Pages.{AllWait};
ghost use Rattle.page_store.specs.Store.{IsCommitted, IsStoreGrown, IsHoldTaken, IsLetGo};
ghost use Rattle.page_store.specs.declared.limits.TheConstants.{MAX_PAGES};
ghost use Rattle.page_store.specs.declared.marks.Mark.TheVariants.{Fresh};

use page_store::{Hold, PageFault, Pages};
use std::alloc::Global;

/// `marks` of `Pages::set_capacity`.
pub fn set_capacity<P: Pages>(store: &mut P, pages: u32)
    requires some { 1 ≤ pages }
    requires room { pages ≤ length (P.store store.old).marks }
    requires waits { AllWait (P.store store.old) }
    ensures { AreCut pages (P.store store.old).marks (P.store store.new).marks }
{
    store.set_capacity(pages);
}

/// `open` of `Pages::bytes_of`.
pub fn bytes_of<P: Pages>(store: &P, page: u32) -> Option<&[u8; 4096]>
    ensures { OnSome result ((P.store store.now).closed ≡ false) }
{
    store.bytes_of(page)
}

/// `cause` of `Pages::new_page`.
pub fn new_page<P: Pages>(store: &mut P) -> Result<u32, PageFault>
    ensures { IfErr result (NewCause (P.store store.old)) }
{
    store.new_page()
}

/// `cause` of `Pages::write_page`.
pub fn write_page<P: Pages>(store: &mut P, page: u32, from: &[u8; 4096]) -> Result<(), PageFault>
    requires { mark_of (P.store store.old).marks page ≡ Fresh }
    ensures { IfErr result (PageWriteCause (P.store store.old) (P.store store.new)) }
{
    store.write_page(page, from)
}

/// `ok` of `Pages::commit`.
pub fn commit<P: Pages>(store: &mut P, root: &[u8; 512]) -> Result<(), PageFault>
    ensures { OnOk result (IsCommitted root.now (P.store store.old) (P.store store.new)) }
{
    store.commit(root)
}

/// `marks` of `Pages::discard`.
pub fn discard<P: Pages>(store: &mut P)
    ensures { AreDiscarded (P.store store.old).marks (P.store store.new).marks }
{
    store.discard();
}

/// `ok` of `Pages::grow`.
pub fn grow<P: Pages>(
    store: &mut P,
    alloc: Global,
    pages: u32,
    root: &[u8; 512],
) -> Result<(), PageFault>
    requires some { 1 ≤ length (P.store store.old).marks }
    requires more { length (P.store store.old).marks < pages }
    requires few { pages ≤ MAX_PAGES }
    ensures { OnOk result (IsStoreGrown root.now pages (P.store store.old) (P.store store.new)) }
{
    store.grow(alloc, pages, root)
}

/// `some` of `Pages::hold`.
pub fn hold<P: Pages>(store: &mut P) -> Option<Hold>
    ensures { IfSome result (λ hold. IsHoldTaken hold.place (P.store store.old) (P.store store.new)) }
{
    store.hold()
}

/// `Pages::let_go`.
pub fn let_go<P: Pages>(store: &mut P, hold: Hold)
    ensures { IsLetGo hold.place (P.store store.old) (P.store store.new) }
{
    store.let_go(hold);
}
