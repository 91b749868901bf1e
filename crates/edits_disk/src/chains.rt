//! Chains of pages.
ghost use Rattle.std.specs.Prelude.{length, IfErr, IfOk};
ghost use Rattle.page_chain.specs.Frames.{IsChainRead, IsChainWritten, IsNotWritten};

use page_chain::Chain;
use page_store::{PageFault, Pages};
use std::alloc::Global;

/// `ok` of `read_chain`.
pub fn read_chain<P: Pages>(
    alloc: Global,
    store: &mut P,
    first: u32,
    size: usize,
) -> Result<Chain, PageFault>
    ensures { IfOk result (λ chain. IsChainRead first size chain.pages.items chain.content.items (P.store store.old) (P.store store.new)) }
{
    page_chain::read_chain(alloc, store, first, size)
}

/// `err` of `write_chain`.
pub fn write_chain<P: Pages>(
    alloc: Global,
    store: &mut P,
    content: &[u8],
) -> Result<Vec<u32>, PageFault>
    ensures { IfErr result (IsNotWritten (length content.now) (P.store store.old) (P.store store.new)) }
{
    page_chain::write_chain(alloc, store, content)
}

/// `ok` of `write_chain`.
pub fn chain_written<P: Pages>(
    alloc: Global,
    store: &mut P,
    bytes: &[u8],
) -> Result<Vec<u32>, PageFault>
    ensures { IfOk result (λ pages. IsChainWritten bytes.now pages.items (P.store store.old) (P.store store.new)) }
{
    page_chain::write_chain(alloc, store, bytes)
}
