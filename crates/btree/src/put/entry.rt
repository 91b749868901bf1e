//! An entry is put on a leaf where the leaf stands in memory.
ghost use Rattle.std.specs.Prelude.{◌≡◌, ◌≤◌, ◌+◌, ◌-◌, ◌*◌, false, length, IsTrue};
ghost use Rattle.btree.specs.declared.page.kind.Kind.TheVariants.{Leaf};
ghost use Rattle.btree.specs.declared.page.kind.TheConstants.{ROOM};
ghost use Rattle.btree.specs.Page.{count_in, item_width, IsPage};
ghost use Rattle.btree.specs.lemmas.EntryPut.{IsEntryPlace, IsEntryPut};

use crate::page::{Kind, ROOM, Widths, count_of, kind_of};
use crate::put::items::{places_of, put_on_page};
use sector_disk::{PageEdit, Span};

/// This value is put at this key, on a leaf that has room for it and an entry before it.
#[derive(Drop)]
pub struct EntryPut<'a> {
    pub widths: Widths,
    pub key: &'a [u8],
    pub value: &'a [u8],
    /// Only where the leaf does not have the key.
    pub only_new: bool,
    ghost key_long: { length key.now ≡ widths.key },
    ghost value_long: { length value.now ≡ widths.value },
}

/// Whether a leaf has room for an entry more, in the place of its items from one place up to another.
fn has_room(widths: Widths, bytes: &[u8; 4096], from: usize, to: usize) -> bool
    requires form { IsPage widths Leaf bytes.now }
    requires order { from ≤ to }
    requires within { to ≤ count_in bytes.now }
    ensures { IsTrue result → (from + 1 + (count_in bytes.now - to)) * item_width widths Leaf ≤ ROOM }
{
    let total = from + 1 + (count_of(bytes) - to);
    total * (widths.key + widths.value) <= ROOM
}

/// Whether the leaf is to stay as it is: only new keys are put, and this one is there, from the one place up to the other.
fn is_kept(only_new: bool, from: usize, to: usize) -> bool
    ensures { result ≡ false → IsTrue only_new → to ≤ from }
{
    only_new && from < to
}

impl PageEdit for EntryPut<'_> {
    ghost fits = { λ put span was. IsEntryPlace put.widths put.key.now put.only_new span.from span.to was };

    ghost edits = { λ put was is. IsEntryPut put.widths put.key.now put.value.now put.only_new was is };

    fn find(&self, page: &[u8; 4096]) -> Option<Span> {
        let Some(Kind::Leaf) = kind_of(self.widths, page) else {
            return None;
        };
        let (from, to) = places_of(self.widths, page, self.key);
        if from == 0 || !has_room(self.widths, page, from, to) {
            return None;
        }
        if is_kept(self.only_new, from, to) {
            return None;
        }
        Some(Span { from, to })
    }

    fn apply(&self, page: &mut [u8; 4096], span: Span) {
        put_on_page(self.widths, page, span.from, span.to, self.key, self.value);
    }
}
