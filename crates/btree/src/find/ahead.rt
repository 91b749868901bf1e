//! A page on the way to the next entry is looked at: where it stands, if it is in memory, and else as it is read.
ghost use Rattle.std.specs.Prelude.{IfOk, IfErr, IfSome, IfNone, IsTrue};
ghost use Rattle.page_store.specs.Frames.{PagesRead};
ghost use Rattle.page_store.specs.Store.{reads};
ghost use Rattle.btree.specs.Page.{IsPage};
ghost use Rattle.btree.specs.declared.page.kind.Kind.{Kind};
ghost use Rattle.btree.specs.lemmas.Ahead.{LeavesAs, SeesAhead};
ghost use Rattle.btree.specs.lemmas.Seen.{SeenCause};

use crate::find::entry::Entry;
use crate::find::leaf::entry_after;
use crate::find::way::step_into;
use crate::page::{Kind, Widths, kind_of};
use page_store::{PageFault, Pages};

/// What a page says of the entries after a key.
#[derive(Drop)]
pub enum Ahead {
    /// It is a leaf, and has a next entry or not.
    Next(bool),
    /// It leads to this page, after which the key comes with which the buffer is filled.
    Before(u32),
    /// It leads to this page, which is its last.
    Last(u32),
}

/// What these bytes say, if they are a page of a tree. The buffer is filled with what is found, and else left as it is.
fn ahead_in(widths: Widths, bytes: &[u8; 4096], key: &[u8], into: &mut Entry) -> Option<Ahead>
    ensures some { IfSome result (λ ahead. SeesAhead widths bytes.now key.now into.new ahead) }
    ensures same { IfSome result (λ ahead. LeavesAs into.old into.new ahead) }
    ensures none { IfNone result ((kind : Kind) → IsPage widths kind bytes.now → ⊥) }
{
    match kind_of(widths, bytes) {
        None => None,
        Some(Kind::Leaf) => Some(Ahead::Next(entry_after(widths, bytes, key, into))),
        Some(Kind::Inner) => {
            let (child, more) = step_into(widths, bytes, key, &mut into.key);
            if more {
                Some(Ahead::Before(child))
            } else {
                Some(Ahead::Last(child))
            }
        }
    }
}

/// What the page says, after it was read.
fn ahead_far<P: Pages>(
    store: &mut P,
    widths: Widths,
    page: u32,
    key: &[u8],
    into: &mut Entry,
) -> Result<Ahead, PageFault>
    ensures seen { IsTrue (P.store store.old).disk.honest
        → IfOk result (λ ahead. SeesAhead widths (reads (P.store store.old) page) key.now into.new ahead) }
    ensures same { IfOk result (λ ahead. LeavesAs into.old into.new ahead) }
    ensures read { PagesRead (P.store store.old) (P.store store.new) }
    ensures cause { IfErr result (SeenCause widths page (P.store store.old) (P.store store.new)) }
{
    let mut bytes = [0; 4096];
    store.read_page(page, &mut bytes)?;
    match ahead_in(widths, &bytes, key, into) {
        Some(ahead) => Ok(ahead),
        None => Err(PageFault::Damaged),
    }
}

/// What the page says. The buffer is filled with what is found, and else left as it is.
pub fn ahead_at<P: Pages>(
    store: &mut P,
    widths: Widths,
    page: u32,
    key: &[u8],
    into: &mut Entry,
) -> Result<Ahead, PageFault>
    ensures seen { IsTrue (P.store store.old).disk.honest
        → IfOk result (λ ahead. SeesAhead widths (reads (P.store store.old) page) key.now into.new ahead) }
    ensures same { IfOk result (λ ahead. LeavesAs into.old into.new ahead) }
    ensures read { PagesRead (P.store store.old) (P.store store.new) }
    ensures cause { IfErr result (SeenCause widths page (P.store store.old) (P.store store.new)) }
{
    match store.bytes_of(page) {
        Some(bytes) => match ahead_in(widths, bytes, key, into) {
            Some(ahead) => Ok(ahead),
            None => Err(PageFault::Damaged),
        },
        None => ahead_far(store, widths, page, key, into),
    }
}
