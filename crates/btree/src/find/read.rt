//! A map is asked for a key.
ghost use Rattle.std.specs.Prelude.{◌≡◌, ℕ, List, IfOk, IfErr, IsTrue};
ghost use Rattle.page_store.specs.Frames.{PagesRead};
ghost use Rattle.btree.specs.Page.{Item};
ghost use Rattle.btree.specs.Changes.{HoldsMap, MapReadCause};
ghost use Rattle.btree.specs.Entries.{find_entry, next_after as next_in};
ghost use Rattle.btree.specs.Answers.{filled_bytes, filled_entry, found_bytes, found_entry};

use crate::find::entry::{Bytes, Entry, no_entry};
use crate::find::look::{Seen, look_at};
use crate::find::way::reach_next;
use crate::map::MAX_LEVELS;
use crate::page::Widths;
use page_store::{PageFault, Pages};

/// Whether the map below this root has this key. The buffer is filled with the value there. `Damaged` only where below it is no map, or
/// the disk is not honest.
pub fn get_into<P: Pages>(
    store: &mut P,
    widths: Widths,
    root: u32,
    key: &[u8],
    into: &mut Bytes,
) -> Result<bool, PageFault>
    ensures found { IsTrue (P.store store.old).disk.honest → IfOk result (λ found. (pages : List ℕ) (es : List Item)
        → HoldsMap widths (P.store store.old) root pages es → filled_bytes found into.new ≡ find_entry es key.now) }
    ensures read { PagesRead (P.store store.old) (P.store store.new) }
    ensures cause { IfErr result (MapReadCause widths root (P.store store.old) (P.store store.new)) }
{
    if root == 0 {
        return Ok(false);
    }
    let mut page = root;
    for _ in 0..MAX_LEVELS {
        match look_at(store, widths, page, key, into)? {
            Seen::Value(found) => return Ok(found),
            Seen::Child(child) => page = child,
        }
    }
    Err(PageFault::Damaged)
}

/// The value at this key in the map below this root. `Damaged` only where below it is no map, or the disk is not honest.
pub fn get<P: Pages>(
    store: &mut P,
    widths: Widths,
    root: u32,
    key: &[u8],
) -> Result<Option<Bytes>, PageFault>
    ensures found { IsTrue (P.store store.old).disk.honest → IfOk result (λ found. (pages : List ℕ) (es : List Item)
        → HoldsMap widths (P.store store.old) root pages es → found_bytes found ≡ find_entry es key.now) }
    ensures read { PagesRead (P.store store.old) (P.store store.new) }
    ensures cause { IfErr result (MapReadCause widths root (P.store store.old) (P.store store.new)) }
{
    let mut value = Bytes::new();
    if get_into(store, widths, root, key, &mut value)? {
        Ok(Some(value))
    } else {
        Ok(None)
    }
}

/// Whether the map below this root has a key that is greater than this one. The buffer is filled with the entry of the least of them.
/// `Damaged` only where below the root is no map, or the disk is not honest.
pub fn next_into<P: Pages>(
    store: &mut P,
    widths: Widths,
    root: u32,
    key: &[u8],
    into: &mut Entry,
) -> Result<bool, PageFault>
    ensures found { IsTrue (P.store store.old).disk.honest → IfOk result (λ found. (pages : List ℕ) (es : List Item)
        → HoldsMap widths (P.store store.old) root pages es → filled_entry found into.new ≡ next_in es key.now) }
    ensures read { PagesRead (P.store store.old) (P.store store.new) }
    ensures cause { IfErr result (MapReadCause widths root (P.store store.old) (P.store store.new)) }
{
    if root == 0 {
        return Ok(false);
    }
    let (found, more) = reach_next(store, widths, root, key, into)?;
    if found {
        return Ok(true);
    }
    if !more {
        return Ok(false);
    }
    if get_into(store, widths, root, &into.key, &mut into.value)? {
        Ok(true)
    } else {
        Err(PageFault::Damaged)
    }
}

/// The entry with the least key that is greater than this one, in the map below this root. `Damaged` only where below it
/// is no map, or the disk is not honest.
pub fn next_after<P: Pages>(
    store: &mut P,
    widths: Widths,
    root: u32,
    key: &[u8],
) -> Result<Option<Entry>, PageFault>
    ensures found { IsTrue (P.store store.old).disk.honest → IfOk result (λ found. (pages : List ℕ) (es : List Item)
        → HoldsMap widths (P.store store.old) root pages es → found_entry found ≡ next_in es key.now) }
    ensures read { PagesRead (P.store store.old) (P.store store.new) }
    ensures cause { IfErr result (MapReadCause widths root (P.store store.old) (P.store store.new)) }
{
    let mut entry = no_entry();
    if next_into(store, widths, root, key, &mut entry)? {
        Ok(Some(entry))
    } else {
        Ok(None)
    }
}
