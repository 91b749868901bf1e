//! A page is read.
ghost use Rattle.std.specs.Prelude.{◌≡◌, ◌+◌, ◌*◌, ◌≤◌, ◌<◌, IfSome, IfNone, length, slice_get};
ghost use Rattle.std.specs.List.Sorted.{IsStrictlySortedBy};
ghost use Rattle.std.specs.Map.{keys_of};
ghost use Rattle.btree.specs.declared.page.kind.Kind.{Kind};
ghost use Rattle.btree.specs.Page.{behind_of, count_in, items_in, key_cmp, IsPage};
ghost use Rattle.btree.specs.Place.{IsPlace};

use crate::page::kind::{HEAD, Kind, ROOM, behind_of, least_of};
use crate::page::order::order_of;
use crate::page::widths::Widths;
use byteorder::{BigEndian, ByteOrder};
use std::cmp::Ordering;

/// How many bytes a number takes with which a key may begin.
const NUMBER: usize = 4;

/// Keys of this many bytes at most may be numbers side by side, or begin with such.
const NUMBERS: usize = 8;

/// How many items the page says that it has.
pub fn count_of(bytes: &[u8; 4096]) -> usize
    ensures { result ≡ count_in bytes.now }
{
    256 * usize::from(bytes[2]) + usize::from(bytes[3])
}

/// The kind of the page, where it is one of a tree.
pub fn kind_of(widths: Widths, bytes: &[u8; 4096]) -> Option<Kind>
    ensures some { IfSome result (λ kind. IsPage widths kind bytes.now) }
    ensures none { IfNone result ((kind : Kind) → IsPage widths kind bytes.now → ⊥) }
{
    let kind = match bytes[0] {
        1 => Kind::Leaf,
        2 => Kind::Inner,
        _ => return None,
    };
    let count = count_of(bytes);
    let long = count * (widths.key + behind_of(widths, kind));
    if bytes[1] == 0 && least_of(kind) <= count && long <= ROOM {
        Some(kind)
    } else {
        None
    }
}

/// The item of a place: its key, and what stands after it.
pub fn item_at(widths: Widths, kind: Kind, bytes: &[u8; 4096], place: usize) -> (&[u8], &[u8])
    requires page { IsPage widths kind bytes.now }
    requires within { place < count_in bytes.now }
    ensures got { slice_get (items_in widths kind bytes.now) place ≡ Some (result.0.now, result.1.now) }
    ensures key_long { length result.0.now ≡ widths.key }
    ensures behind_long { length result.1.now ≡ behind_of widths kind }
{
    let width = widths.key + behind_of(widths, kind);
    let (_, from_there) = bytes.split_at(HEAD + place * width);
    let (item, _) = from_there.split_at(width);
    item.split_at(widths.key)
}

/// The first four bytes of a key as a number; 0 where it has fewer.
fn head_of(key: &[u8]) -> u32 {
    if key.len() < NUMBER {
        return 0;
    }
    let (front, _) = key.split_at(NUMBER);
    BigEndian::read_u32(front)
}

/// Where a key may well be among the items of a page, judged by the first bytes of keys: at the end, or, where these are numbers side by
/// side, as far along as it is behind the first. None where that says nothing.
fn guess(widths: Widths, kind: Kind, bytes: &[u8; 4096], key: &[u8]) -> Option<usize>
    requires { IsPage widths kind bytes.now }
{
    let last = count_of(bytes).saturating_sub(1);
    if last == 0 {
        return None;
    }
    let (last_key, _) = item_at(widths, kind, bytes, last);
    let (number, last_number) = (head_of(key), head_of(last_key));
    if number >= last_number {
        return Some(last);
    }
    if widths.key > NUMBERS {
        return None;
    }
    let (first_key, _) = item_at(widths, kind, bytes, 0);
    let first = head_of(first_key);
    if last_number.saturating_sub(first) as usize == last {
        Some(number.saturating_sub(first) as usize)
    } else {
        None
    }
}

/// A place between two: this one, or the nearest to it, if it is given, and else the middle.
fn between(low: usize, high: usize, near: Option<usize>) -> usize
    requires { low < high }
    ensures from { low ≤ result }
    ensures to { result < high }
{
    match near {
        Some(place) => place.max(low).min(high - 1),
        None => low + (high - low) / 2,
    }
}

/// How many items have a key up to this one, where the keys ascend. The first places that are looked at are the guessed one and the next.
pub fn place_of(widths: Widths, kind: Kind, bytes: &[u8; 4096], key: &[u8]) -> usize
    requires { IsPage widths kind bytes.now }
    ensures within { result ≤ count_in bytes.now }
    ensures place { IsStrictlySortedBy key_cmp (keys_of (items_in widths kind bytes.now))
        → IsPlace (items_in widths kind bytes.now) key.now result }
{
    let mut low = 0;
    let mut high = count_of(bytes);
    let mut near = guess(widths, kind, bytes, key);
    let mut again = near;
    while low < high {
        let middle = between(low, high, near);
        near = again;
        again = None;
        let (found, _) = item_at(widths, kind, bytes, middle);
        match order_of(found, key) {
            Ordering::Greater => high = middle,
            Ordering::Less => low = middle + 1,
            Ordering::Equal => return middle + 1,
        }
    }
    low
}
