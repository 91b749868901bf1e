//! A page is made.
ghost use Rattle.std.specs.Prelude.{◌≡◌, ◌+◌, ◌*◌, ◌<◌, ◌≤◌, length, drop, slice_index};
ghost use Rattle.btree.specs.Page.{behind_of, count_in, item_width, items_in, items_of, kind_byte, least_of, IsPage};
ghost use Rattle.btree.specs.declared.page.kind.TheConstants.{ROOM};

use crate::page::kind::{HEAD, Kind};
use crate::page::widths::Widths;

/// The first byte of a page.
fn kind_byte(kind: Kind) -> u8
    ensures { result ≡ kind_byte kind }
{
    match kind {
        Kind::Leaf => 1,
        Kind::Inner => 2,
    }
}

/// The page of this many items, whose bytes stand one after another.
pub fn page_of(widths: Widths, kind: Kind, count: usize, items: &[u8]) -> [u8; 4096]
    requires enough { least_of kind ≤ count }
    requires long { length items.now ≡ count * item_width widths kind }
    requires fits { length items.now ≤ ROOM }
    ensures page { IsPage widths kind result }
    ensures items { items_in widths kind result ≡ items_of widths.key (behind_of widths kind) count items.now }
{
    let mut bytes = [0; 4096];
    bytes[0] = kind_byte(kind);
    bytes[2] = (count / 256) as u8;
    bytes[3] = (count % 256) as u8;
    bytes[HEAD..HEAD + items.len()].copy_from_slice(items);
    bytes
}

/// The page says that it has this many items, and its bytes stay but for that.
pub fn set_count(bytes: &mut [u8; 4096], count: usize)
    requires { count < 65536 }
    ensures count { count_in bytes.new ≡ count }
    ensures first { slice_index bytes.new 0 ≡ slice_index bytes.old 0 }
    ensures second { slice_index bytes.new 1 ≡ slice_index bytes.old 1 }
    ensures items { drop 4 bytes.new ≡ drop 4 bytes.old }
{
    let (high, low) = (count / 256, count % 256);
    bytes[2] = high as u8;
    bytes[3] = low as u8;
}
