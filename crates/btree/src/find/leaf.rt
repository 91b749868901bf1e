//! A leaf is read.
ghost use Rattle.std.specs.Prelude.{◌≡◌, false};
ghost use Rattle.btree.specs.Page.{items_in, IsPage};
ghost use Rattle.btree.specs.declared.page.kind.Kind.TheVariants.{Leaf};
ghost use Rattle.btree.specs.Entries.{Ascend, find_entry, next_after};
ghost use Rattle.btree.specs.Answers.{filled_bytes, filled_entry};

use crate::find::entry::{Bytes, Entry, fill};
use crate::page::{Kind, Widths, count_of, item_at, place_of};

/// Whether the leaf has this key. The buffer is filled with the value there.
pub fn value_in(widths: Widths, leaf: &[u8; 4096], key: &[u8], into: &mut Bytes) -> bool
    requires { IsPage widths Leaf leaf.now }
    ensures { Ascend (items_in widths Leaf leaf.now) → filled_bytes result into.new ≡ find_entry (items_in widths Leaf leaf.now) key.now }
{
    let place = place_of(widths, Kind::Leaf, leaf, key);
    if place == 0 {
        return false;
    }
    let (found, value) = item_at(widths, Kind::Leaf, leaf, place - 1);
    if found == key {
        fill(into, value);
        true
    } else {
        false
    }
}

/// Whether the leaf has an entry with a greater key. The buffer is filled with the first of them, and else left as it is.
pub fn entry_after(widths: Widths, leaf: &[u8; 4096], key: &[u8], into: &mut Entry) -> bool
    requires { IsPage widths Leaf leaf.now }
    ensures next { Ascend (items_in widths Leaf leaf.now) → filled_entry result into.new ≡ next_after (items_in widths Leaf leaf.now) key.now }
    ensures same { result ≡ false → into.new ≡ into.old }
{
    let place = place_of(widths, Kind::Leaf, leaf, key);
    if place < count_of(leaf) {
        let (next, value) = item_at(widths, Kind::Leaf, leaf, place);
        fill(&mut into.key, next);
        fill(&mut into.value, value);
        true
    } else {
        false
    }
}
