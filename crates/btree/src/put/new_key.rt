//! An entry is put into a map that does not have its key yet; one that has it is left alone.
ghost use Rattle.std.specs.Prelude.{◌≡◌, ◌≢◌, ◌+◌, ◌*◌, ℕ, List, length};
ghost use Rattle.std.specs.Prelude.{IfOk, IfErr, IfSome, IfNone, OnSome, IsTrue};
ghost use Rattle.page_store.specs.Marks.{free_count};
ghost use Rattle.page_store.specs.Frames.{PagesRead, PagesWritten, PagesRefused};
ghost use Rattle.btree.specs.Page.{Item};
ghost use Rattle.btree.specs.Changes.{HoldsMap, AreHeld, TakePlace, MapPutCause};
ghost use Rattle.btree.specs.Answers.{TellsNew};
ghost use Rattle.btree.specs.Entries.{put_entry};
ghost use Rattle.btree.specs.declared.map.limits.TheConstants.{MAX_LEVELS};

use crate::find::{Bytes, get_into};
use crate::page::Widths;
use crate::put::in_place::put_in_place;
use crate::put::map::{LEVELS, put, put_anew};
use page_store::{PageFault, Pages};

/// Puts this value at this key, and answers the new root, as `put` does; where the map has the key, with any value, it is left as it is,
/// and none is answered.
pub fn put_new<P: Pages>(
    store: &mut P,
    widths: Widths,
    root: u32,
    key: &[u8],
    value: &[u8],
) -> Result<Option<u32>, PageFault>
    requires key { length key.now ≡ widths.key }
    requires value { length value.now ≡ widths.value }
    ensures told { IsTrue (P.store store.old).disk.honest → (pages : List ℕ) (es : List Item)
        → HoldsMap widths (P.store store.old) root pages es
        → AreHeld (P.store store.old).marks pages → IfOk result (TellsNew es key.now) }
    ensures map { IsTrue (P.store store.old).disk.honest → (pages : List ℕ) (es : List Item)
        → HoldsMap widths (P.store store.old) root pages es
        → AreHeld (P.store store.old).marks pages
        → IfOk result (λ r. IfSome r (λ next. (others : List ℕ)
        × HoldsMap widths (P.store store.new) next others (put_entry es key.now value.now)
        × TakePlace pages others (P.store store.old) (P.store store.new))) }
    ensures left { IfOk result (λ r. IfNone r (PagesRead (P.store store.old) (P.store store.new))) }
    ensures ok { IfOk result (λ r. OnSome r (PagesWritten (2 * MAX_LEVELS + 1) (P.store store.old) (P.store store.new))) }
    ensures err { IfErr result (PagesRefused PageFault.Disk (MapPutCause widths root) (2 * MAX_LEVELS + 1)
        (P.store store.old) (P.store store.new)) }
    ensures first { root ≡ 0
        → IfOk result (λ r. OnSome r (free_count (P.store store.new).marks + 1 ≡ free_count (P.store store.old).marks)) }
{
    if root == 0 {
        let first = put(store, widths, root, key, value)?;
        return Ok(Some(first));
    }
    let done = put_in_place(store, widths, root, LEVELS, key, value, true)?;
    if done {
        return Ok(Some(root));
    }
    put_looked(store, widths, root, key, value)
}

/// `put_new` by a look for the key before the put. It stands by itself, since the room for a value that is found is made as it begins.
fn put_looked<P: Pages>(
    store: &mut P,
    widths: Widths,
    root: u32,
    key: &[u8],
    value: &[u8],
) -> Result<Option<u32>, PageFault>
    requires some { root ≢ 0 }
    requires key { length key.now ≡ widths.key }
    requires value { length value.now ≡ widths.value }
    ensures told { IsTrue (P.store store.old).disk.honest → (pages : List ℕ) (es : List Item)
        → HoldsMap widths (P.store store.old) root pages es
        → AreHeld (P.store store.old).marks pages → IfOk result (TellsNew es key.now) }
    ensures map { IsTrue (P.store store.old).disk.honest → (pages : List ℕ) (es : List Item)
        → HoldsMap widths (P.store store.old) root pages es
        → AreHeld (P.store store.old).marks pages
        → IfOk result (λ r. IfSome r (λ next. (others : List ℕ)
        × HoldsMap widths (P.store store.new) next others (put_entry es key.now value.now)
        × TakePlace pages others (P.store store.old) (P.store store.new))) }
    ensures left { IfOk result (λ r. IfNone r (PagesRead (P.store store.old) (P.store store.new))) }
    ensures ok { IfOk result (λ r. OnSome r (PagesWritten (2 * MAX_LEVELS + 1) (P.store store.old) (P.store store.new))) }
    ensures err { IfErr result (PagesRefused PageFault.Disk (MapPutCause widths root) (2 * MAX_LEVELS + 1)
        (P.store store.old) (P.store store.new)) }
{
    let mut was = Bytes::new();
    let there = get_into(store, widths, root, key, &mut was)?;
    if there {
        return Ok(None);
    }
    let next = put_anew(store, widths, root, key, value)?;
    Ok(Some(next))
}
