//! One page of a tree is marked and read.
ghost use Rattle.std.specs.Prelude.{OnOk, IfErr};
ghost use Rattle.btree.specs.lemmas.MarkedReads.{IsPageTaken, TakeCause};
ghost use Rattle.page_store.specs.Frames.{OnlyMarks};

use crate::page::{Kind, Widths, kind_of};
use page_store::{PageFault, Pages};

/// Marks this page and reads it. It has to be of this kind.
pub fn take_page<P: Pages>(
    store: &mut P,
    widths: Widths,
    kind: Kind,
    page: u32,
    bytes: &mut [u8; 4096],
) -> Result<(), PageFault>
    ensures taken { OnOk result (IsPageTaken widths kind page bytes.new (P.store store.old) (P.store store.new)) }
    ensures marks { OnlyMarks (P.store store.old) (P.store store.new) }
    ensures cause { IfErr result (TakeCause widths kind page (P.store store.old) (P.store store.new)) }
{
    store.mark(page)?;
    store.read_page(page, bytes)?;
    match kind_of(widths, bytes) {
        Some(found) if found == kind => Ok(()),
        _ => Err(PageFault::Damaged),
    }
}
