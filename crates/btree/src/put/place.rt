//! A page is written in the place of another.
ghost use Rattle.std.specs.Prelude.{◌≡◌, ◌≤◌, ◌<◌, ◌*◌, length, OnOk, IfOk, IfErr};
ghost use Rattle.page_store.specs.Causes.{PageWriteCause};
ghost use Rattle.page_store.specs.declared.marks.Mark.TheVariants.{Fresh};
ghost use Rattle.page_store.specs.Frames.{PagesRefused};
ghost use Rattle.page_store.specs.Marks.{mark as mark_of};
ghost use Rattle.btree.specs.Page.{behind_of, item_width, items_of, least_of};
ghost use Rattle.btree.specs.lemmas.Causes.{WriteCause};
ghost use Rattle.btree.specs.lemmas.Growth.{IsRenewed, IsWrittenOn};
ghost use Rattle.btree.specs.declared.page.kind.TheConstants.{ROOM};

use crate::page::{Kind, Widths, page_of};
use page_store::{PageFault, Pages};

/// A page to write in the place of this one: itself, where it was handed out since the last commit, and else a free one,
/// and this one is released.
pub fn renewed<P: Pages>(store: &mut P, page: u32) -> Result<u32, PageFault>
    requires is_page { 1 ≤ page }
    requires there { page < length (P.store store.old).marks }
    ensures ok { IfOk result (IsRenewed page (P.store store.old) (P.store store.new)) }
    ensures err { IfErr result (PagesRefused PageFault.Disk WriteCause 1 (P.store store.old) (P.store store.new)) }
{
    if store.is_fresh(page) {
        return Ok(page);
    }
    store.release(page);
    store.new_page()
}

/// Writes these items on a page.
pub fn write_on<P: Pages>(
    store: &mut P,
    widths: Widths,
    kind: Kind,
    page: u32,
    count: usize,
    items: &[u8],
) -> Result<(), PageFault>
    requires fresh { mark_of (P.store store.old).marks page ≡ Fresh }
    requires enough { least_of kind ≤ count }
    requires whole { length items.now ≡ count * item_width widths kind }
    requires fits { length items.now ≤ ROOM }
    ensures ok { OnOk result (IsWrittenOn widths kind page (items_of widths.key (behind_of widths kind) count items.now)
        (P.store store.old) (P.store store.new)) }
    ensures err { IfErr result (PagesRefused PageFault.Disk PageWriteCause 0 (P.store store.old) (P.store store.new)) }
{
    let bytes = page_of(widths, kind, count, items);
    store.write_page(page, &bytes)
}
