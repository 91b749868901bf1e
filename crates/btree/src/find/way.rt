//! The way down to the leaf where a key belongs.
ghost use Rattle.std.specs.Prelude.{◌≡◌, ◌≢◌, false, IfOk, IfErr, IsTrue, slice_get};
ghost use Rattle.std.specs.Option.{option_map};
ghost use Rattle.page_store.specs.Frames.{PagesRead};
ghost use Rattle.btree.specs.Page.{items_in, IsPage};
ghost use Rattle.btree.specs.declared.page.kind.Kind.TheVariants.{Inner};
ghost use Rattle.btree.specs.Changes.{MapReadCause};
ghost use Rattle.btree.specs.Answers.{filled_bytes};
ghost use Rattle.btree.specs.lemmas.Ahead.{ReachesAhead};
ghost use Rattle.btree.specs.lemmas.Steps.{IsStepDown};

use crate::find::ahead::{Ahead, ahead_at};
use crate::find::entry::{Bytes, Entry, fill};
use crate::map::MAX_LEVELS;
use crate::page::{Kind, Widths, count_of, item_at, place_of};
use byteorder::{BigEndian, ByteOrder};
use page_store::{PageFault, Pages};

/// Whether there is a key at this place, with which the buffer is then filled; else it is left as it is.
fn key_into(widths: Widths, bytes: &[u8; 4096], place: usize, into: &mut Bytes) -> bool
    requires { IsPage widths Inner bytes.now }
    ensures key { filled_bytes result into.new ≡ option_map (λ e. e.0) (slice_get (items_in widths Inner bytes.now) place) }
    ensures same { result ≡ false → into.new ≡ into.old }
{
    if place < count_of(bytes) {
        let (key, _) = item_at(widths, Kind::Inner, bytes, place);
        fill(into, key);
        true
    } else {
        false
    }
}

/// The child where the key belongs, and whether a key is after that child. The buffer is filled with it, and else left as it is.
pub fn step_into(widths: Widths, bytes: &[u8; 4096], key: &[u8], into: &mut Bytes) -> (u32, bool)
    requires { IsPage widths Inner bytes.now }
    ensures step { IsStepDown widths bytes.now key.now result.0 (filled_bytes result.1 into.new) }
    ensures same { result.1 ≡ false → into.new ≡ into.old }
{
    let place = place_of(widths, Kind::Inner, bytes, key);
    let at = place.saturating_sub(1);
    let (_, child) = item_at(widths, Kind::Inner, bytes, at);
    (
        BigEndian::read_u32(child),
        key_into(widths, bytes, at + 1, into),
    )
}

/// Looks down from this root to the leaf where the key belongs. Answers whether the leaf has a next entry, and whether there are entries
/// after the leaf. The buffer is filled with that entry, or else with the first key of those.
pub fn reach_next<P: Pages>(
    store: &mut P,
    widths: Widths,
    root: u32,
    key: &[u8],
    into: &mut Entry,
) -> Result<(bool, bool), PageFault>
    requires { root ≢ 0 }
    ensures reaches { IsTrue (P.store store.old).disk.honest
        → IfOk result (λ r. ReachesAhead widths (P.store store.old) root key.now r.0 r.1 into.new) }
    ensures read { PagesRead (P.store store.old) (P.store store.new) }
    ensures cause { IfErr result (MapReadCause widths root (P.store store.old) (P.store store.new)) }
{
    let mut page = root;
    let mut more = false;
    for _ in 0..MAX_LEVELS {
        match ahead_at(store, widths, page, key, into)? {
            Ahead::Next(found) => return Ok((found, more)),
            Ahead::Before(child) => {
                page = child;
                more = true;
            }
            Ahead::Last(child) => page = child,
        }
    }
    Err(PageFault::Damaged)
}
