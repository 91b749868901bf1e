//! The items of a page are written, on one page or on two.
ghost use Rattle.std.specs.Prelude.{◌≡◌, ◌≤◌, ◌<◌, ◌+◌, ◌-◌, ◌*◌, ◌++◌, false, length, take, drop, OnOk, IfOk, IfErr};
ghost use Rattle.page_store.specs.Frames.{PagesWritten, PagesRefused};
ghost use Rattle.page_store.specs.Store.{reads};
ghost use Rattle.btree.specs.declared.page.kind.Kind.TheVariants.{Inner};
ghost use Rattle.btree.specs.Page.{count_in, item_width, items_in, least_of, IsPage};
ghost use Rattle.btree.specs.lemmas.Causes.{WriteCause};
ghost use Rattle.btree.specs.lemmas.Growth.{AreWritten};
ghost use Rattle.btree.specs.lemmas.PutItems.{listed, AreFewTops, AreItemBytes, IsCut};
ghost use Rattle.btree.specs.declared.page.kind.TheConstants.{ROOM};

use crate::page::{HEAD, Kind, ROOM, Widths, behind_of, count_of};
use crate::put::items::{
    FewItems, Items, has_item, lead_to, no_few_items, one_lead, splice_in, spliced,
};
use crate::put::place::{renewed, write_on};
use page_store::{PageFault, Pages};

/// Writes items in the place of a page, on two pages since one has no room for them, and answers the items that lead
/// there. Those up to the cut stay on the first.
fn write_two<P: Pages>(
    store: &mut P,
    widths: Widths,
    kind: Kind,
    page: u32,
    items: &Items,
) -> Result<FewItems, PageFault>
    requires is_page { 1 ≤ page }
    requires there { page < length (P.store store.old).marks }
    requires cut { IsCut widths kind items.now.count items.now.cut }
    requires whole { AreItemBytes widths kind items.now.count items.now.bytes.items }
    ensures written { IfOk result (λ tops. AreWritten widths kind page (listed widths kind items.now.count items.now.bytes.items)
        (listed widths Inner tops.count tops.bytes.items) (P.store store.old) (P.store store.new)) }
    ensures two { IfOk result (λ tops. tops.count ≡ 2) }
    ensures whole { IfOk result (λ tops. AreItemBytes widths Inner tops.count tops.bytes.items) }
    ensures ok { OnOk result (PagesWritten 2 (P.store store.old) (P.store store.new)) }
    ensures err { IfErr result (PagesRefused PageFault.Disk WriteCause 2 (P.store store.old) (P.store store.new)) }
{
    let first = renewed(store, page)?;
    let second = store.new_page()?;
    let mut tops = no_few_items();
    let cut = items.cut;
    let (front, back) = items
        .bytes
        .split_at(cut * (widths.key + behind_of(widths, kind)));
    write_on(store, widths, kind, first, cut, front)?;
    write_on(store, widths, kind, second, items.count - cut, back)?;
    lead_to(widths, &mut tops, &front[..widths.key], first);
    lead_to(widths, &mut tops, &back[..widths.key], second);
    Ok(tops)
}

/// Writes the items of a page with these in the place of those from one place up to another, on two pages since one has no
/// room for them. Answers the items that lead there. It stands by itself, since the list of all items is made as it begins.
fn write_split<P: Pages>(
    store: &mut P,
    widths: Widths,
    kind: Kind,
    page: u32,
    bytes: &[u8; 4096],
    from: usize,
    to: usize,
    items: &FewItems,
) -> Result<FewItems, PageFault>
    requires is_page { 1 ≤ page }
    requires there { page < length (P.store store.old).marks }
    requires form { IsPage widths kind bytes.now }
    requires order { from ≤ to }
    requires within { to ≤ count_in bytes.now }
    requires few { items.now.count ≤ 2 }
    requires one_more { from + items.now.count ≤ to + 1 }
    requires full { ROOM < (from + items.now.count + (count_in bytes.now - to)) * item_width widths kind }
    requires whole { AreItemBytes widths kind items.now.count items.now.bytes.items }
    ensures written { IfOk result (λ tops. AreWritten widths kind page
        (take from (items_in widths kind bytes.now)
        ++ (listed widths kind items.now.count items.now.bytes.items ++ drop to (items_in widths kind bytes.now)))
        (listed widths Inner tops.count tops.bytes.items) (P.store store.old) (P.store store.new)) }
    ensures two { IfOk result (λ tops. tops.count ≡ 2) }
    ensures whole { IfOk result (λ tops. AreItemBytes widths Inner tops.count tops.bytes.items) }
    ensures ok { OnOk result (PagesWritten 2 (P.store store.old) (P.store store.new)) }
    ensures err { IfErr result (PagesRefused PageFault.Disk WriteCause 2 (P.store store.old) (P.store store.new)) }
{
    let all = spliced(widths, kind, bytes, from, to, items.count, &items.bytes);
    write_two(store, widths, kind, page, &all)
}

/// Writes the items of a page with these in the place of those from one place up to another: on the page, or on one in its
/// place, and on two where one has no room. Answers the items that lead there. The bytes of the page are changed for it.
pub fn write_spliced<P: Pages>(
    store: &mut P,
    widths: Widths,
    kind: Kind,
    page: u32,
    bytes: &mut [u8; 4096],
    from: usize,
    to: usize,
    items: &FewItems,
) -> Result<FewItems, PageFault>
    requires is_page { 1 ≤ page }
    requires there { page < length (P.store store.old).marks }
    requires form { IsPage widths kind bytes.old }
    requires order { from ≤ to }
    requires within { to ≤ count_in bytes.old }
    requires few { items.now.count ≤ 2 }
    requires one_more { from + items.now.count ≤ to + 1 }
    requires enough { least_of kind ≤ from + items.now.count + (count_in bytes.old - to) }
    requires whole { AreItemBytes widths kind items.now.count items.now.bytes.items }
    ensures written { IfOk result (λ tops. AreWritten widths kind page
        (take from (items_in widths kind bytes.old)
        ++ (listed widths kind items.now.count items.now.bytes.items ++ drop to (items_in widths kind bytes.old)))
        (listed widths Inner tops.count tops.bytes.items) (P.store store.old) (P.store store.new)) }
    ensures tops { IfOk result (λ tops. AreFewTops widths tops.count tops.bytes.items) }
    ensures ok { OnOk result (PagesWritten 2 (P.store store.old) (P.store store.new)) }
    ensures err { IfErr result (PagesRefused PageFault.Disk WriteCause 2 (P.store store.old) (P.store store.new)) }
{
    let total = from + items.count + (count_of(bytes) - to);
    if total * (widths.key + behind_of(widths, kind)) > ROOM {
        return write_split(store, widths, kind, page, bytes, from, to, items);
    }
    let first = renewed(store, page)?;
    splice_in(widths, kind, bytes, from, to, items.count, &items.bytes);
    store.write_page(first, bytes)?;
    let mut tops = no_few_items();
    lead_to(widths, &mut tops, &bytes[HEAD..HEAD + widths.key], first);
    Ok(tops)
}

/// Replaces the item at this place of an inner page by these. If they are that one item already, and the page is in memory and may be
/// written in place, nothing is written. The bytes are what the page reads as.
pub fn write_led<P: Pages>(
    store: &mut P,
    widths: Widths,
    page: u32,
    bytes: &mut [u8; 4096],
    place: usize,
    items: &FewItems,
) -> Result<FewItems, PageFault>
    requires is_page { 1 ≤ page }
    requires there { page < length (P.store store.old).marks }
    requires open { (P.store store.old).closed ≡ false }
    requires form { IsPage widths Inner bytes.old }
    requires within { place < count_in bytes.old }
    requires some { 1 ≤ items.now.count }
    requires few { items.now.count ≤ 2 }
    requires whole { AreItemBytes widths Inner items.now.count items.now.bytes.items }
    ensures written { IfOk result (λ tops. reads (P.store store.old) page ≡ bytes.old → AreWritten widths Inner page
        (take place (items_in widths Inner bytes.old)
        ++ (listed widths Inner items.now.count items.now.bytes.items ++ drop (place + 1) (items_in widths Inner bytes.old)))
        (listed widths Inner tops.count tops.bytes.items) (P.store store.old) (P.store store.new)) }
    ensures tops { IfOk result (λ tops. AreFewTops widths tops.count tops.bytes.items) }
    ensures ok { OnOk result (PagesWritten 2 (P.store store.old) (P.store store.new)) }
    ensures err { IfErr result (PagesRefused PageFault.Disk WriteCause 2 (P.store store.old) (P.store store.new)) }
{
    let in_memory = store.bytes_of(page).is_some();
    if in_memory && store.is_fresh(page) && has_item(widths, bytes, place, items) {
        return Ok(one_lead(widths, &bytes[HEAD..HEAD + widths.key], page));
    }
    write_spliced(
        store,
        widths,
        Kind::Inner,
        page,
        bytes,
        place,
        place + 1,
        items,
    )
}
