//! How deep a tree is.
ghost use Rattle.std.specs.Prelude.{◌≡◌, ◌≢◌, ◌<◌, ℕ, IfOk, IfErr, IsTrue};
ghost use Rattle.page_store.specs.Frames.{PagesRead};
ghost use Rattle.page_store.specs.Store.{reads};
ghost use Rattle.btree.specs.Changes.{MapReadCause};
ghost use Rattle.btree.specs.Tree.{IsTree};

use crate::map::MAX_LEVELS;
use crate::page::{Kind, Widths, item_at, kind_of};
use byteorder::{BigEndian, ByteOrder};
use page_store::{PageFault, Pages};

/// How many levels are below this root, as far down as its first leaf is.
pub fn depth_of<P: Pages>(store: &mut P, widths: Widths, root: u32) -> Result<usize, PageFault>
    requires { root ≢ 0 }
    ensures shallow { IfOk result (λ depth. depth < MAX_LEVELS) }
    ensures depth { IsTrue (P.store store.old).disk.honest → IfOk result (λ depth.
        (d : ℕ) → IsTree widths (reads (P.store store.old)) d root → d ≡ depth) }
    ensures read { PagesRead (P.store store.old) (P.store store.new) }
    ensures cause { IfErr result (MapReadCause widths root (P.store store.old) (P.store store.new)) }
{
    let mut bytes = [0; 4096];
    let mut page = root;
    for depth in 0..MAX_LEVELS {
        store.read_page(page, &mut bytes)?;
        match kind_of(widths, &bytes) {
            None => return Err(PageFault::Damaged),
            Some(Kind::Leaf) => return Ok(depth),
            Some(Kind::Inner) => {
                let (_, child) = item_at(widths, Kind::Inner, &bytes, 0);
                page = BigEndian::read_u32(child);
            }
        }
    }
    Err(PageFault::Damaged)
}
