//! An entry is put into a map, which may get a new root.
ghost use Rattle.std.specs.Prelude.{◌≡◌, ◌≢◌, ◌≤◌, ◌+◌, ◌*◌, ℕ, List, length};
ghost use Rattle.std.specs.Prelude.{OnOk, IfOk, IfErr, IsTrue};
ghost use Rattle.page_store.specs.Marks.{free_count};
ghost use Rattle.page_store.specs.Frames.{PagesWritten, PagesRefused};
ghost use Rattle.btree.specs.Page.{Item, least_of};
ghost use Rattle.btree.specs.Changes.{HoldsMap, AreHeld, TakePlace, MapPutCause};
ghost use Rattle.btree.specs.Entries.{put_entry};
ghost use Rattle.btree.specs.declared.map.limits.TheConstants.{MAX_LEVELS};
ghost use Rattle.btree.specs.lemmas.Causes.{WriteCause};
ghost use Rattle.btree.specs.lemmas.Growth.{IsOnNewPage};
ghost use Rattle.btree.specs.lemmas.PutItems.{listed, AreItemBytes};

use crate::map::MAX_LEVELS;
use crate::page::{Kind, Widths};
use crate::put::below::put_below;
use crate::put::in_place::put_in_place;
use crate::put::items::{FewItems, first_child, new_entry};
use crate::put::place::write_on;
use page_store::{PageFault, Pages};

/// How many levels a map has at most below the page of its root.
pub(crate) const LEVELS: usize = MAX_LEVELS - 1;

/// Puts this value at this key, and answers the new root. The first entry of a map takes one page. `Damaged` where below the root is
/// no map, `TableFull` where a page is needed and none is free. After an error the store goes back by `discard`.
/// Answered or not, it takes two pages on each level at most, and one for a new root.
pub fn put<P: Pages>(
    store: &mut P,
    widths: Widths,
    root: u32,
    key: &[u8],
    value: &[u8],
) -> Result<u32, PageFault>
    requires key { length key.now ≡ widths.key }
    requires value { length value.now ≡ widths.value }
    ensures map { IsTrue (P.store store.old).disk.honest → (pages : List ℕ) (es : List Item)
        → HoldsMap widths (P.store store.old) root pages es
        → AreHeld (P.store store.old).marks pages
        → IfOk result (λ next. (others : List ℕ) × HoldsMap widths (P.store store.new) next others (put_entry es key.now value.now)
        × TakePlace pages others (P.store store.old) (P.store store.new)) }
    ensures ok { OnOk result (PagesWritten (2 * MAX_LEVELS + 1) (P.store store.old) (P.store store.new)) }
    ensures err { IfErr result (PagesRefused PageFault.Disk (MapPutCause widths root) (2 * MAX_LEVELS + 1)
        (P.store store.old) (P.store store.new)) }
    ensures first { root ≡ 0 → OnOk result (free_count (P.store store.new).marks + 1 ≡ free_count (P.store store.old).marks) }
    ensures refused { root ≡ 0 → IfErr result (λ fault. fault ≡ PageFault.TableFull → P.store store.new ≡ P.store store.old) }
{
    if root == 0 {
        let entry = new_entry(widths, key, value);
        return on_new_page(store, widths, Kind::Leaf, &entry);
    }
    let done = put_in_place(store, widths, root, LEVELS, key, value, false)?;
    if done {
        return Ok(root);
    }
    put_anew(store, widths, root, key, value)
}

/// Puts the value where there is a root, and writes each page on the way to the leaf anew.
pub fn put_anew<P: Pages>(
    store: &mut P,
    widths: Widths,
    root: u32,
    key: &[u8],
    value: &[u8],
) -> Result<u32, PageFault>
    requires some { root ≢ 0 }
    requires key { length key.now ≡ widths.key }
    requires value { length value.now ≡ widths.value }
    ensures map { IsTrue (P.store store.old).disk.honest → (pages : List ℕ) (es : List Item)
        → HoldsMap widths (P.store store.old) root pages es
        → AreHeld (P.store store.old).marks pages
        → IfOk result (λ next. (others : List ℕ) × HoldsMap widths (P.store store.new) next others (put_entry es key.now value.now)
        × TakePlace pages others (P.store store.old) (P.store store.new)) }
    ensures ok { OnOk result (PagesWritten (2 * MAX_LEVELS + 1) (P.store store.old) (P.store store.new)) }
    ensures err { IfErr result (PagesRefused PageFault.Disk (MapPutCause widths root) (2 * MAX_LEVELS + 1)
        (P.store store.old) (P.store store.new)) }
{
    let tops = put_below(store, widths, root, LEVELS, key, value)?;
    if tops.count == 1 {
        Ok(first_child(widths, &tops))
    } else {
        on_new_page(store, widths, Kind::Inner, &tops)
    }
}

/// Writes these items on a page that was free.
fn on_new_page<P: Pages>(
    store: &mut P,
    widths: Widths,
    kind: Kind,
    items: &FewItems,
) -> Result<u32, PageFault>
    requires enough { least_of kind ≤ items.now.count }
    requires few { items.now.count ≤ 2 }
    requires whole { AreItemBytes widths kind items.now.count items.now.bytes.items }
    ensures ok { IfOk result (IsOnNewPage widths kind (listed widths kind items.now.count items.now.bytes.items)
        (P.store store.old) (P.store store.new)) }
    ensures err { IfErr result (PagesRefused PageFault.Disk WriteCause 1 (P.store store.old) (P.store store.new)) }
    ensures first { OnOk result (free_count (P.store store.new).marks + 1 ≡ free_count (P.store store.old).marks) }
    ensures refused { IfErr result (λ fault. fault ≡ PageFault.TableFull → P.store store.new ≡ P.store store.old) }
{
    let page = store.new_page()?;
    write_on(store, widths, kind, page, items.count, &items.bytes)?;
    Ok(page)
}
