//! An entry is put on its leaf alone, where no page on the way to it has to change.
ghost use Rattle.std.specs.Prelude.{◌≡◌, ◌≤◌, ◌<◌, ◌-◌, ◌∷◌, [], ℕ, false, length, None, Some, IfOk, IfErr, IfSome, OnSome, IsTrue};
ghost use Rattle.page_store.specs.declared.marks.Mark.TheVariants.{Fresh};
ghost use Rattle.page_store.specs.Frames.{PagesWritten, PagesRefused};
ghost use Rattle.page_store.specs.Marks.{mark as mark_of};
ghost use Rattle.page_store.specs.Store.{reads};
ghost use Rattle.btree.specs.declared.page.kind.Kind.{Kind};
ghost use Rattle.btree.specs.declared.page.kind.Kind.TheVariants.{Leaf, Inner};
ghost use Rattle.btree.specs.Page.{Item, child_of, items_in, IsPage};
ghost use Rattle.btree.specs.Entries.{Ascend, find_entry, first_key, put_entry};
ghost use Rattle.btree.specs.Tree.{entries_below};
ghost use Rattle.btree.specs.lemmas.Causes.{WriteCause};
ghost use Rattle.btree.specs.lemmas.Growth.{AreWritten, IsGrowing, IsGrownTree};
ghost use Rattle.btree.specs.lemmas.Spots.{LeadsTo, IsSpot};

use crate::page::{Kind, Widths, item_at, kind_of, place_of};
use crate::put::entry::EntryPut;
use byteorder::{BigEndian, ByteOrder};
use page_store::{PageFault, Pages};

/// What a page is to a key.
#[derive(Drop)]
pub enum Spot {
    /// The leaf where it belongs.
    Leaf,
    /// A page that leads to this one.
    Below(u32),
}

/// The child where the key belongs.
fn child_in(widths: Widths, bytes: &[u8; 4096], key: &[u8]) -> u32
    requires { IsPage widths Inner bytes.now }
    ensures { LeadsTo widths bytes.now key.now result }
{
    let at = place_of(widths, Kind::Inner, bytes, key).saturating_sub(1);
    let (_, child) = item_at(widths, Kind::Inner, bytes, at);
    BigEndian::read_u32(child)
}

/// What these bytes are to the key, if they are a page of a tree.
fn spot_in(widths: Widths, bytes: &[u8; 4096], key: &[u8]) -> Option<Spot>
    ensures { IfSome result (λ spot. IsSpot widths bytes.now key.now spot) }
{
    match kind_of(widths, bytes) {
        None => None,
        Some(Kind::Leaf) => Some(Spot::Leaf),
        Some(Kind::Inner) => Some(Spot::Below(child_in(widths, bytes, key))),
    }
}

/// What the page is to the key, if it is in memory.
fn spot_at<P: Pages>(store: &P, widths: Widths, page: u32, key: &[u8]) -> Option<Spot>
    ensures seen { IsTrue (P.store store.now).disk.honest
        → IfSome result (λ spot. IsSpot widths (reads (P.store store.now) page) key.now spot) }
    ensures is_page { OnSome result (1 ≤ page) }
    ensures there { OnSome result (page < length (P.store store.now).marks) }
{
    match store.bytes_of(page) {
        Some(bytes) => spot_in(widths, bytes, key),
        None => None,
    }
}

/// Puts the entry after the first one of this page, if it is a leaf that was used last and has room for it, and writes what changed; with
/// `only_new` only where the key is not there. Answers whether it did.
fn put_on<P: Pages>(
    store: &mut P,
    widths: Widths,
    page: u32,
    key: &[u8],
    value: &[u8],
    only_new: bool,
) -> Result<bool, PageFault>
    requires key { length key.now ≡ widths.key }
    requires value { length value.now ≡ widths.value }
    requires fresh { mark_of (P.store store.old).marks page ≡ Fresh }
    requires is_page { 1 ≤ page }
    requires there { page < length (P.store store.old).marks }
    ensures written { IsTrue (P.store store.old).disk.honest → IfOk result (λ done. IsTrue done → (top : Item) → child_of top ≡ page
        → Ascend (items_in widths Leaf (reads (P.store store.old) page))
        → first_key (items_in widths Leaf (reads (P.store store.old) page)) ≡ Some top.0
        → AreWritten widths Leaf page (put_entry (items_in widths Leaf (reads (P.store store.old) page)) key.now value.now) (top ∷ [])
        (P.store store.old) (P.store store.new)) }
    ensures leaf { IsTrue (P.store store.old).disk.honest
        → IfOk result (λ done. IsTrue done → IsPage widths Leaf (reads (P.store store.old) page)) }
    ensures new_key { IsTrue (P.store store.old).disk.honest → IfOk result (λ done. IsTrue done → IsTrue only_new
        → Ascend (items_in widths Leaf (reads (P.store store.old) page))
        → None ≡ find_entry (items_in widths Leaf (reads (P.store store.old) page)) key.now) }
    ensures same { IfOk result (λ done. done ≡ false → P.store store.new ≡ P.store store.old) }
    ensures ok { IfOk result (λ done. IsTrue done → PagesWritten 0 (P.store store.old) (P.store store.new)) }
    ensures err { IfErr result (PagesRefused PageFault.Disk WriteCause 0 (P.store store.old) (P.store store.new)) }
{
    let put = EntryPut {
        widths,
        key,
        value,
        only_new,
    };
    store.edit_page(page, &put)
}

/// Puts this value at this key below this page, which has this many levels below it at most, where that changes the leaf alone: each page
/// on the way is in memory and was handed out since the last commit, and the leaf has room, and entries before this one; with `only_new`
/// only where the key is not there. Answers whether it did; if not, nothing has changed.
pub fn put_in_place<P: Pages>(
    store: &mut P,
    widths: Widths,
    page: u32,
    levels: usize,
    key: &[u8],
    value: &[u8],
    only_new: bool,
) -> Result<bool, PageFault>
    requires key { length key.now ≡ widths.key }
    requires value { length value.now ≡ widths.value }
    ensures grown { IsTrue (P.store store.old).disk.honest → (d : ℕ) (top : Item) → IsGrowing widths d page (P.store store.old)
        → child_of top ≡ page → first_key (entries_below widths (reads (P.store store.old)) d page) ≡ Some top.0
        → IfOk result (λ done. IsTrue done
        → IsGrownTree widths key.now value.now d page (top ∷ []) (P.store store.old) (P.store store.new)) }
    ensures new_key { IsTrue (P.store store.old).disk.honest → (d : ℕ) → IsGrowing widths d page (P.store store.old)
        → IfOk result (λ done. IsTrue done → IsTrue only_new
        → None ≡ find_entry (entries_below widths (reads (P.store store.old)) d page) key.now) }
    ensures same { IfOk result (λ done. done ≡ false → P.store store.new ≡ P.store store.old) }
    ensures ok { IfOk result (λ done. IsTrue done → PagesWritten 0 (P.store store.old) (P.store store.new)) }
    ensures err { IfErr result (PagesRefused PageFault.Disk WriteCause 0 (P.store store.old) (P.store store.new)) }
{
    let fresh = store.is_fresh(page);
    if levels == 0 || !fresh {
        return Ok(false);
    }
    match spot_at(store, widths, page, key) {
        None => Ok(false),
        Some(Spot::Leaf) => put_on(store, widths, page, key, value, only_new),
        Some(Spot::Below(child)) => {
            put_in_place(store, widths, child, levels - 1, key, value, only_new)
        }
    }
}
