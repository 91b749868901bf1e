//! A page on the way to a key is looked at: where it stands, if it is in memory, and else as it is read.
ghost use Rattle.std.specs.Prelude.{IfOk, IfErr, IfSome, IfNone, IsTrue};
ghost use Rattle.page_store.specs.Frames.{PagesRead};
ghost use Rattle.page_store.specs.Store.{reads};
ghost use Rattle.btree.specs.Page.{IsPage};
ghost use Rattle.btree.specs.declared.page.kind.Kind.{Kind};
ghost use Rattle.btree.specs.declared.page.kind.Kind.TheVariants.{Inner};
ghost use Rattle.btree.specs.lemmas.Seen.{Sees, SeenCause, LeadsOn};

use crate::find::entry::Bytes;
use crate::find::leaf::value_in;
use crate::page::{Kind, Widths, item_at, kind_of, place_of};
use byteorder::{BigEndian, ByteOrder};
use page_store::{PageFault, Pages};

/// What a page says of a key.
#[derive(Drop)]
pub enum Seen {
    /// It is a leaf, and has the key or not.
    Value(bool),
    /// It leads to this page.
    Child(u32),
}

/// The child where the key belongs.
pub fn child_in(widths: Widths, bytes: &[u8; 4096], key: &[u8]) -> u32
    requires { IsPage widths Inner bytes.now }
    ensures { LeadsOn widths bytes.now key.now result }
{
    let at = place_of(widths, Kind::Inner, bytes, key).saturating_sub(1);
    let (_, child) = item_at(widths, Kind::Inner, bytes, at);
    BigEndian::read_u32(child)
}

/// What these bytes say of the key, if they are a page of a tree. The buffer is filled with a value that is found.
fn seen_in(widths: Widths, bytes: &[u8; 4096], key: &[u8], into: &mut Bytes) -> Option<Seen>
    ensures some { IfSome result (λ seen. Sees widths bytes.now key.now into.new seen) }
    ensures none { IfNone result ((kind : Kind) → IsPage widths kind bytes.now → ⊥) }
{
    match kind_of(widths, bytes) {
        None => None,
        Some(Kind::Leaf) => Some(Seen::Value(value_in(widths, bytes, key, into))),
        Some(Kind::Inner) => Some(Seen::Child(child_in(widths, bytes, key))),
    }
}

/// What the page says of the key, after it was read.
fn look_far<P: Pages>(
    store: &mut P,
    widths: Widths,
    page: u32,
    key: &[u8],
    into: &mut Bytes,
) -> Result<Seen, PageFault>
    ensures seen { IsTrue (P.store store.old).disk.honest
        → IfOk result (λ seen. Sees widths (reads (P.store store.old) page) key.now into.new seen) }
    ensures read { PagesRead (P.store store.old) (P.store store.new) }
    ensures cause { IfErr result (SeenCause widths page (P.store store.old) (P.store store.new)) }
{
    let mut bytes = [0; 4096];
    store.read_page(page, &mut bytes)?;
    match seen_in(widths, &bytes, key, into) {
        Some(seen) => Ok(seen),
        None => Err(PageFault::Damaged),
    }
}

/// What the page says of the key. The buffer is filled with a value that is found.
pub fn look_at<P: Pages>(
    store: &mut P,
    widths: Widths,
    page: u32,
    key: &[u8],
    into: &mut Bytes,
) -> Result<Seen, PageFault>
    ensures seen { IsTrue (P.store store.old).disk.honest
        → IfOk result (λ seen. Sees widths (reads (P.store store.old) page) key.now into.new seen) }
    ensures read { PagesRead (P.store store.old) (P.store store.new) }
    ensures cause { IfErr result (SeenCause widths page (P.store store.old) (P.store store.new)) }
{
    match store.bytes_of(page) {
        Some(bytes) => match seen_in(widths, bytes, key, into) {
            Some(seen) => Ok(seen),
            None => Err(PageFault::Damaged),
        },
        None => look_far(store, widths, page, key, into),
    }
}
