//! The entries of a leaf are told.
ghost use Rattle.std.specs.Prelude.{◌≡◌, ◌≤◌, ◌↔◌, ◌∷◌, [], length, OnOk, IfErr, IsTrue};
ghost use Rattle.btree.specs.declared.page.kind.Kind.TheVariants.{Leaf};
ghost use Rattle.btree.specs.Page.{items_in, IsPage};
ghost use Rattle.btree.specs.Entries.{first_key as first_key_of};
ghost use Rattle.btree.specs.lemmas.Visits.{HasVisited, TellCause};

use crate::find::{Bytes, copied};
use crate::page::{Kind, Widths, count_of, item_at};
use crate::walk::fault::WalkFault;
use crate::walk::visitor::Visitor;
use page_store::PageFault;
use std::cmp::Ordering;

/// Tells of each entry of this leaf. Its keys have to ascend from the last one that was told.
pub fn tell_leaf<V: Visitor>(
    widths: Widths,
    leaf: &[u8; 4096],
    last: &mut Bytes,
    visitor: &mut V,
) -> Result<(), WalkFault>
    requires { IsPage widths Leaf leaf.now }
    ensures told { OnOk result (HasVisited (items_in widths Leaf leaf.now) last.old.items last.new.items (V.told visitor.old)
        (V.told visitor.new)) }
    ensures cause { IfErr result (TellCause (items_in widths Leaf leaf.now) last.old.items (V.refuses visitor.new) (V.told visitor.old)) }
{
    for place in 0..count_of(leaf) {
        let (key, value) = item_at(widths, Kind::Leaf, leaf, place);
        tell(key, value, last, visitor)?;
    }
    Ok(())
}

/// Tells of one entry, whose key has to be past the last one that was told.
fn tell<V: Visitor>(
    key: &[u8],
    value: &[u8],
    last: &mut Bytes,
    visitor: &mut V,
) -> Result<(), WalkFault>
    requires { length key.now ≤ 256 }
    ensures told { OnOk result (HasVisited ((key.now, value.now) ∷ []) last.old.items last.new.items (V.told visitor.old)
        (V.told visitor.new)) }
    ensures cause { IfErr result (TellCause ((key.now, value.now) ∷ []) last.old.items (V.refuses visitor.new) (V.told visitor.old)) }
{
    let Ordering::Less = last.as_slice().cmp(&key) else {
        return Err(WalkFault::Store(PageFault::Damaged));
    };
    if visitor.entry(key, value).is_err() {
        return Err(WalkFault::Refused);
    }
    *last = copied(key);
    Ok(())
}

/// The first key of a page.
pub fn first_key(widths: Widths, kind: Kind, bytes: &[u8; 4096]) -> Bytes
    requires { IsPage widths kind bytes.now }
    ensures { first_key_of (items_in widths kind bytes.now) ≡ Some result.items }
{
    let (key, _) = item_at(widths, kind, bytes, 0);
    copied(key)
}

/// Whether these bytes are this key.
pub fn is_same(first: &Bytes, key: &[u8]) -> bool
    ensures { IsTrue result ↔ (first.now.items ≡ key.now) }
{
    first.as_slice() == key
}
