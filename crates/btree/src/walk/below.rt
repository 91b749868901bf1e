//! The tree below a page is walked.
ghost use Rattle.std.specs.Prelude.{IfOk, IfErr, IsTrue};
ghost use Rattle.page_store.specs.Store.{reads};
ghost use Rattle.btree.specs.lemmas.WalkedPages.{IsWalked, WalkBelowCause};
ghost use Rattle.page_store.specs.Frames.{OnlyMarks};

use crate::find::Bytes;
use crate::page::{Kind, Widths, count_of, item_at};
use crate::walk::fault::WalkFault;
use crate::walk::leaf::{first_key, is_same, tell_leaf};
use crate::walk::take::take_page;
use crate::walk::visitor::Visitor;
use byteorder::{BigEndian, ByteOrder};
use page_store::{PageFault, Pages};

/// Walks the tree below this page, which has this many levels below it. Its keys have to ascend from the last one that was
/// told. Answers its first key.
pub fn walk_below<P: Pages, V: Visitor>(
    store: &mut P,
    widths: Widths,
    page: u32,
    depth: usize,
    last: &mut Bytes,
    visitor: &mut V,
) -> Result<Bytes, WalkFault>
    ensures walked { IsTrue (P.store store.old).disk.honest → IfOk result (λ first. IsWalked widths (reads (P.store store.old)) depth page
        first.items (P.store store.old) (P.store store.new) last.old.items last.new.items (V.told visitor.old) (V.told visitor.new)) }
    ensures marks { OnlyMarks (P.store store.old) (P.store store.new) }
    ensures cause { IfErr result (WalkBelowCause widths depth page last.old.items (V.refuses visitor.new) (V.told visitor.old)
        (P.store store.old) (P.store store.new)) }
{
    let mut bytes = [0; 4096];
    if depth == 0 {
        take_page(store, widths, Kind::Leaf, page, &mut bytes)?;
        tell_leaf(widths, &bytes, last, visitor)?;
        return Ok(first_key(widths, Kind::Leaf, &bytes));
    }
    take_page(store, widths, Kind::Inner, page, &mut bytes)?;
    for place in 0..count_of(&bytes) {
        let (key, child) = item_at(widths, Kind::Inner, &bytes, place);
        let child = BigEndian::read_u32(child);
        let first = walk_below(store, widths, child, depth - 1, last, visitor)?;
        if !is_same(&first, key) {
            return Err(WalkFault::Store(PageFault::Damaged));
        }
    }
    Ok(first_key(widths, Kind::Inner, &bytes))
}
