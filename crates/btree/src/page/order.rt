//! The order of keys, found out four and eight bytes at a time.
ghost use Rattle.std.specs.Prelude.{◌≡◌};
ghost use Rattle.btree.specs.Page.{key_cmp};

use byteorder::{BigEndian, ByteOrder};
use std::cmp::Ordering;

/// The order of two keys: by their first four bytes as a number, if both have as many, and then by the rest.
fn order_by_four(one: &[u8], other: &[u8]) -> Ordering
    ensures { result ≡ key_cmp one.now other.now }
{
    if one.len() < 4 || other.len() < 4 {
        return one.cmp(&other);
    }
    let (front, rest) = one.split_at(4);
    let (other_front, other_rest) = other.split_at(4);
    match BigEndian::read_u32(front).cmp(&BigEndian::read_u32(other_front)) {
        Ordering::Equal => rest.cmp(&other_rest),
        found => found,
    }
}

/// The order of two keys: by their first eight bytes as a number, if both have as many, and then by the rest.
pub fn order_of(one: &[u8], other: &[u8]) -> Ordering
    ensures { result ≡ key_cmp one.now other.now }
{
    if one.len() < 8 || other.len() < 8 {
        return order_by_four(one, other);
    }
    let (front, rest) = one.split_at(8);
    let (other_front, other_rest) = other.split_at(8);
    match BigEndian::read_u64(front).cmp(&BigEndian::read_u64(other_front)) {
        Ordering::Equal => order_by_four(rest, other_rest),
        found => found,
    }
}
