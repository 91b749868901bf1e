//! A chain is written: its pages are taken first, and then each is written with the number of the next one.
ghost use Rattle.std.specs.Prelude.{◌≡◌, ◌⊎◌, ◌+◌, ◌*◌, ◌<◌, ◌≤◌, ℕ, length, slice_index, Contains, OnOk, IfOk, IfErr};
ghost use Rattle.page_store.specs.declared.marks.Mark.TheVariants.{Fresh, Free};
ghost use Rattle.page_store.specs.Marks.{mark as mark_of, free_count};
ghost use Rattle.page_store.specs.Pages.{IsOnce};
ghost use Rattle.page_store.specs.Store.{StoreWorks};
ghost use Rattle.page_chain.specs.Frames.{IsChainWritten, IsNotWritten, AreLinked, AreNotLinked};
ghost use Rattle.page_chain.specs.lemmas.Causes.{HandOutCause};
ghost use Rattle.page_chain.specs.lemmas.Links.{HandsOut, AreTaken};
ghost use Rattle.page_chain.specs.declared.page.TheConstants.{PAYLOAD};

use crate::page::{page_with, pages_for, part_of};
use crate::read::add_page;
use page_store::{PageFault, Pages};
use std::alloc::Global;

/// Writes a chain with this content on free pages, no more than it takes, and answers them in turn. `TableFull` where too few are free:
/// then nothing is handed out. After another error some pages may be: the store goes back by `discard`. Only `Disk`
/// closes it.
pub fn write_chain<P: Pages>(
    alloc: Global,
    store: &mut P,
    content: &[u8],
) -> Result<Vec<u32>, PageFault>
    ensures ok { IfOk result (λ pages. IsChainWritten content.now pages.items (P.store store.old) (P.store store.new)) }
    ensures others { (p : ℕ) → (mark_of (P.store store.new).marks p ≡ mark_of (P.store store.old).marks p)
        ⊎ ((mark_of (P.store store.old).marks p ≡ Free) × (mark_of (P.store store.new).marks p ≡ Fresh)) }
    ensures works { StoreWorks (P.store store.old) (P.store store.new) }
    ensures err { IfErr result (IsNotWritten (length content.now) (P.store store.old) (P.store store.new)) }
{
    let count = pages_for(content.len());
    if (store.free_pages() as usize) < count {
        return Err(PageFault::TableFull);
    }
    let pages = take_pages(alloc, store, count)?;
    write_pages(store, &pages, content)?;
    Ok(pages)
}

/// This many pages are handed out.
fn take_pages<P: Pages>(alloc: Global, store: &mut P, count: usize) -> Result<Vec<u32>, PageFault>
    requires { count ≤ free_count (P.store store.old).marks }
    ensures taken { IfOk result (λ pages. AreTaken (P.store store.old) (P.store store.new) count pages.items) }
    ensures few { OnOk result (free_count (P.store store.new).marks + count ≡ free_count (P.store store.old).marks) }
    ensures out { HandsOut (P.store store.old) (P.store store.new) }
    ensures cause { IfErr result (HandOutCause (P.store store.old)) }
{
    let mut pages = Vec::new(alloc);
    for _ in 0..count {
        let page = store.new_page()?;
        add_page(&mut pages, page)?;
    }
    Ok(pages)
}

/// Writes the content on these pages, each with the number of the next one.
fn write_pages<P: Pages>(store: &mut P, pages: &[u32], content: &[u8]) -> Result<(), PageFault>
    requires fresh { (p : ℕ) → Contains pages.now p → mark_of (P.store store.old).marks p ≡ Fresh }
    requires once { IsOnce pages.now }
    requires no_more { PAYLOAD * length pages.now < length content.now + PAYLOAD }
    ensures ok { OnOk result (AreLinked content.now pages.now (P.store store.old) (P.store store.new)) }
    ensures marks { (P.store store.new).marks ≡ (P.store store.old).marks }
    ensures works { StoreWorks (P.store store.old) (P.store store.new) }
    ensures err { IfErr result (AreNotLinked (P.store store.old) (P.store store.new)) }
{
    for place in 0..pages.len() {
        let bytes = page_with(next_after(pages, place), part_of(content, place));
        store.write_page(pages[place], &bytes)?;
    }
    Ok(())
}

/// The page after this one, 0 after the last.
fn next_after(pages: &[u32], place: usize) -> u32
    requires { place < length pages.now }
    ensures { result ≡ slice_index pages.now (place + 1) }
{
    pages.get(place + 1).copied().unwrap_or(0)
}
