//! A map is asked for one key after another: the leaf that was reached last stays in memory.
ghost use Rattle.std.specs.Prelude.{◌≡◌, ◌≢◌, ◌↔◌, ℕ, List, Some, None, true, OnOk, OnErr, OnSome, IfOk, IfErr, IfSome, IfNone, IsTrue, slice_index};
ghost use Rattle.page_store.specs.Frames.{PagesRead};
ghost use Rattle.page_store.specs.Store.{Store};
ghost use Rattle.btree.specs.declared.page.kind.Kind.TheVariants.{Leaf};
ghost use Rattle.btree.specs.Page.{Item, items_in, IsPage};
ghost use Rattle.btree.specs.Changes.{HoldsMap, MapReadCause};
ghost use Rattle.btree.specs.Entries.{Ascend, find_entry};
ghost use Rattle.btree.specs.LeafRead.{HasKey};
ghost use Rattle.btree.specs.lemmas.Leaves.{IsLeafFor};

use crate::find::look::child_in;
use crate::map::MAX_LEVELS;
use crate::page::{Kind, Widths, count_of, item_at, kind_of, place_of};
use page_store::{PageFault, Pages};

/// A map that is asked for keys in their order. The leaf that was reached last stays in memory, so that of keys that stand side by side
/// only the first is looked for from the root.
#[derive(Drop)]
pub struct Reader {
    widths: Widths,
    root: u32,
    /// The leaf that was reached last, and no page of a tree at first.
    leaf: [u8; 4096],
    /// The place of the entry that was found last.
    place: usize,
}

/// Comes down from this root to the leaf where the key belongs.
fn go_down<P: Pages>(
    store: &mut P,
    widths: Widths,
    root: u32,
    key: &[u8],
    leaf: &mut [u8; 4096],
) -> Result<(), PageFault>
    requires { root ≢ 0 }
    ensures page { OnOk result (IsPage widths Leaf leaf.new) }
    ensures belongs { IsTrue (P.store store.old).disk.honest → OnOk result (IsLeafFor widths (P.store store.old) root key.now leaf.new) }
    ensures read { PagesRead (P.store store.old) (P.store store.new) }
    ensures cause { IfErr result (MapReadCause widths root (P.store store.old) (P.store store.new)) }
{
    let mut page = root;
    for _ in 0..MAX_LEVELS {
        store.read_page(page, leaf)?;
        match kind_of(widths, leaf) {
            None => return Err(PageFault::Damaged),
            Some(Kind::Leaf) => return Ok(()),
            Some(Kind::Inner) => page = child_in(widths, leaf, key),
        }
    }
    Err(PageFault::Damaged)
}

/// Reads down to the leaf of a key. After a refusal the reader has no page of a tree.
fn reach_leaf<P: Pages>(
    store: &mut P,
    widths: Widths,
    root: u32,
    key: &[u8],
    leaf: &mut [u8; 4096],
) -> Result<(), PageFault>
    requires { root ≢ 0 }
    ensures page { OnOk result (IsPage widths Leaf leaf.new) }
    ensures none { OnErr result (slice_index leaf.new 0 ≡ 0) }
    ensures belongs { IsTrue (P.store store.old).disk.honest → OnOk result (IsLeafFor widths (P.store store.old) root key.now leaf.new) }
    ensures read { PagesRead (P.store store.old) (P.store store.new) }
    ensures cause { IfErr result (MapReadCause widths root (P.store store.old) (P.store store.new)) }
{
    match go_down(store, widths, root, key, leaf) {
        Ok(()) => Ok(()),
        Err(fault) => {
            leaf[0] = 0;
            Err(fault)
        }
    }
}

/// Whether a leaf has this key at this place.
fn has_key(widths: Widths, leaf: &[u8; 4096], place: usize, key: &[u8]) -> bool
    requires { IsPage widths Leaf leaf.now }
    ensures { (result ≡ true) ↔ HasKey widths leaf.now place key.now }
{
    if place >= count_of(leaf) {
        return false;
    }
    let (found, _) = item_at(widths, Kind::Leaf, leaf, place);
    found == key
}

/// The place of the key on a leaf, if it is there.
fn place_in(widths: Widths, leaf: &[u8; 4096], key: &[u8]) -> Option<usize>
    requires { IsPage widths Leaf leaf.now }
    ensures some { IfSome result (λ place. HasKey widths leaf.now place key.now) }
    ensures none { IfNone result (Ascend (items_in widths Leaf leaf.now) → None ≡ find_entry (items_in widths Leaf leaf.now) key.now) }
{
    let behind = place_of(widths, Kind::Leaf, leaf, key);
    if behind == 0 {
        return None;
    }
    if has_key(widths, leaf, behind - 1, key) {
        Some(behind - 1)
    } else {
        None
    }
}

impl Reader {
    ghost use Rattle.btree.specs.Readers.{HasEntry, IsReading, ReadsOn, found_here};

    /// A reader of the map below this root.
    pub fn new(widths: Widths, root: u32) -> Reader
        ensures widths { result.widths ≡ widths }
        ensures root { result.root ≡ root }
        ensures reading { (store : Store) → IsReading result store }
    {
        Reader {
            widths,
            root,
            leaf: [0; 4096],
            place: 0,
        }
    }

    /// The place of the next entry of the leaf, if it has this key.
    fn next_place(&self, key: &[u8]) -> Option<usize>
        ensures page { OnSome result (IsPage self.now.widths Leaf self.now.leaf) }
        ensures some { IfSome result (λ place. HasKey self.now.widths self.now.leaf place key.now) }
    {
        let Some(Kind::Leaf) = kind_of(self.widths, &self.leaf) else {
            return None;
        };
        let next = self.place.saturating_add(1);
        if has_key(self.widths, &self.leaf, next, key) {
            Some(next)
        } else {
            None
        }
    }

    /// Whether the map has this key. If so, the reader is at its entry from then on. `Damaged` only where below the root is no map, or the
    /// disk is not honest.
    pub fn find<P: Pages>(&mut self, store: &mut P, key: &[u8]) -> Result<bool, PageFault>
        requires { IsReading self.old (P.store store.old) }
        ensures reader { ReadsOn self.old self.new (P.store store.new) }
        ensures at { IfOk result (λ found. IsTrue found → HasEntry self.new) }
        ensures found { IsTrue (P.store store.old).disk.honest → IfOk result (λ found. (pages : List ℕ) (es : List Item)
            → HoldsMap self.old.widths (P.store store.old) self.old.root pages es → found_here found self.new ≡ find_entry es key.now) }
        ensures read { PagesRead (P.store store.old) (P.store store.new) }
        ensures cause { IfErr result (MapReadCause self.old.widths self.old.root (P.store store.old) (P.store store.new)) }
    {
        if self.root == 0 {
            return Ok(false);
        }
        if let Some(place) = self.next_place(key) {
            self.place = place;
            return Ok(true);
        }
        reach_leaf(store, self.widths, self.root, key, &mut self.leaf)?;
        match place_in(self.widths, &self.leaf, key) {
            Some(place) => {
                self.place = place;
                Ok(true)
            }
            None => Ok(false),
        }
    }

    /// The value of its entry.
    pub fn value(&self) -> &[u8]
        requires { HasEntry self.now }
        ensures { found_here true self.now ≡ Some result.now }
    {
        let (_, value) = item_at(self.widths, Kind::Leaf, &self.leaf, self.place);
        value
    }
}
