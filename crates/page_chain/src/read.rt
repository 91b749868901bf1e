//! A chain is read, page by page. No memory is reserved for a length before its pages are there.
ghost use Rattle.std.specs.Prelude.{◌≡◌, ◌++◌, ◌∷◌, [], drop, OnOk, IfOk, IfErr};
ghost use Rattle.page_store.specs.Frames.{OnlyMarks};
ghost use Rattle.page_chain.specs.Causes.{ChainReadCause};
ghost use Rattle.page_chain.specs.Frames.{IsChainRead};
ghost use Rattle.page_chain.specs.lemmas.Causes.{LinkCause};
ghost use Rattle.page_chain.specs.lemmas.Links.{IsJoined};

use crate::page::{next_of, pages_for, payload_of};
use page_store::{PageFault, Pages};
use std::alloc::Global;

/// A chain that was read.
#[derive(Drop)]
pub struct Chain {
    /// Its pages in turn.
    pub pages: Vec<u32>,
    /// What they hold, without what fills the last one up.
    pub content: Vec<u8>,
}

/// Reads this many bytes from the chain that begins at this page, and marks each of its pages. `Damaged` where from
/// there on is no chain that has exactly the pages that this many bytes need, each once, and all of them unmarked. It
/// never closes the store.
pub fn read_chain<P: Pages>(
    alloc: Global,
    store: &mut P,
    first: u32,
    size: usize,
) -> Result<Chain, PageFault>
    ensures ok { IfOk result (λ chain. IsChainRead first size chain.pages.items chain.content.items (P.store store.old) (P.store store.new)) }
    ensures only { OnlyMarks (P.store store.old) (P.store store.new) }
    ensures cause { IfErr result (ChainReadCause first size (P.store store.old) (P.store store.new)) }
{
    let mut pages = Vec::new(alloc);
    let mut content = Vec::new(alloc);
    let mut next = first;
    for _ in 0..pages_for(size) {
        next = read_link(store, next, &mut pages, &mut content)?;
    }
    if next != 0 {
        return Err(PageFault::Damaged);
    }
    content.truncate(size);
    Ok(Chain { pages, content })
}

/// Marks and reads one page, adds it to those that were read, and answers the next.
fn read_link<P: Pages>(
    store: &mut P,
    page: u32,
    pages: &mut Vec<u32>,
    content: &mut Vec<u8>,
) -> Result<u32, PageFault>
    ensures linked { IfOk result (λ next. IsJoined page next (P.store store.old) (P.store store.new)
        pages.old.items pages.new.items content.old.items content.new.items) }
    ensures marks { OnlyMarks (P.store store.old) (P.store store.new) }
    ensures cause { IfErr result (LinkCause page (P.store store.old) (P.store store.new)) }
{
    store.mark(page)?;
    let mut bytes = [0; 4096];
    store.read_page(page, &mut bytes)?;
    add_page(pages, page)?;
    add_payload(content, &bytes)?;
    Ok(next_of(&bytes))
}

/// One page more. `OutOfMemory`.
pub fn add_page(pages: &mut Vec<u32>, page: u32) -> Result<(), PageFault>
    ensures ok { OnOk result (pages.new.items ≡ pages.old.items ++ page ∷ []) }
    ensures cause { IfErr result (λ fault. fault ≡ PageFault.OutOfMemory) }
{
    pages.push(page).map_err(|_| PageFault::OutOfMemory)
}

/// What a page holds is content. `OutOfMemory`.
fn add_payload(content: &mut Vec<u8>, bytes: &[u8; 4096]) -> Result<(), PageFault>
    ensures ok { OnOk result (content.new.items ≡ content.old.items ++ drop 4 bytes.now) }
    ensures cause { IfErr result (λ fault. fault ≡ PageFault.OutOfMemory) }
{
    content
        .extend_from_slice(payload_of(bytes))
        .map_err(|_| PageFault::OutOfMemory)
}
