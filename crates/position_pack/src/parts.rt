//! The parts of a packed position.

ghost use Rattle.std.specs.Prelude.{◌≡◌, ◌+◌, ◌*◌, ◌≤◌, ◌<◌, ◌↔◌, ◌++◌, length, Some, IsTrue, All, MatchOption, List, ℕ, slice_index};
ghost use Rattle.std.specs.List.{flat_map};
ghost use Rattle.std.specs.Int.{bytes_high_first};
ghost use Rattle.arrayvec.specs.ArrayVec.{array_vec_len};
ghost use Rattle.position_pack.specs.Fields.{role_code};
ghost use Rattle.position_pack.specs.lemmas.Bytes.{AreValues};

use crate::packed::Packed;
use arrayvec::ArrayVec;
use rbg_game::roles::{Player, Role};

/// The three lowest bytes of a number, the highest of them first.
pub fn value_bytes(value: u32) -> [u8; 3]
    ensures { result ≡ bytes_high_first 3 value }
{
    [
        (value / 65_536 % 256) as u8,
        (value / 256 % 256) as u8,
        (value % 256) as u8,
    ]
}

/// 0 for the keeper, 1 and 2 for the players.
pub fn role_byte(role: Role) -> u8
    ensures { result ≡ role_code role }
{
    match role {
        Role::Keeper => 0,
        Role::Player(Player::First) => 1,
        Role::Player(Player::Second) => 2,
    }
}

/// The role with this byte.
pub fn role_of(byte: u8) -> Option<Role>
    ensures { (role : Role) → (result ≡ Some role) ↔ (byte ≡ role_code role) }
{
    match byte {
        0 => Some(Role::Keeper),
        1 => Some(Role::Player(Player::First)),
        2 => Some(Role::Player(Player::Second)),
        _ => None,
    }
}

/// Puts more after the bytes.
pub fn put_bytes(bytes: &mut Packed, more: &[u8])
    requires { array_vec_len bytes.old + length more.now ≤ 240 }
    ensures items { bytes.new.items ≡ bytes.old.items ++ more.now }
    ensures len { array_vec_len bytes.new ≡ array_vec_len bytes.old + length more.now }
{
    let _room = bytes.try_extend_from_slice(more);
}

/// Puts three bytes for each value after the bytes.
pub fn put_values(bytes: &mut Packed, values: &[u32])
    requires { array_vec_len bytes.old + 3 * length values.now ≤ 240 }
    ensures items { bytes.new.items ≡ bytes.old.items ++ flat_map (bytes_high_first 3) values.now }
    ensures len { array_vec_len bytes.new ≡ array_vec_len bytes.old + 3 * length values.now }
{
    for value in values {
        let [high, middle, low] = value_bytes(*value);
        bytes.push(high);
        bytes.push(middle);
        bytes.push(low);
    }
}

/// Whether each byte is below the number.
pub fn all_below(bytes: &[u8], end: u8) -> bool
    ensures { IsTrue result ↔ All (λ x. x < end) bytes.now }
{
    bytes.iter().all(|byte| *byte < end)
}

/// The bytes as a vector of pieces.
pub fn vector_of(bytes: &[u8]) -> ArrayVec<u8, 128>
    requires { length bytes.now ≤ 128 }
    ensures { result.items ≡ bytes.now }
{
    let mut pieces = ArrayVec::new();
    let _room = pieces.try_extend_from_slice(bytes);
    pieces
}

/// The number of the three bytes from a place on, the highest of them first.
fn value_at(bytes: &[u8], place: usize) -> u32
    requires { place + 2 < length bytes.now }
    ensures { result ≡ slice_index bytes.now place * 65536 + slice_index bytes.now (place + 1) * 256 + slice_index bytes.now (place + 2) }
{
    u32::from(bytes[place]) * 65_536
        + u32::from(bytes[place + 1]) * 256
        + u32::from(bytes[place + 2])
}

/// The values with these bytes, three for each, where none is over its bound.
pub fn values_of(bytes: &[u8], bounds: &ArrayVec<u32, 34>) -> Option<ArrayVec<u32, 34>>
    requires { length bytes.now ≡ 3 * length bounds.now.items }
    ensures { MatchOption result ((values : List ℕ)
        → ¬ AreValues bytes.now bounds.now.items values) (λ values. AreValues bytes.now bounds.now.items values.items) }
{
    let mut values = ArrayVec::new();
    for (index, bound) in bounds.iter().enumerate() {
        let value = value_at(bytes, 3 * index);
        if value > *bound {
            return None;
        }
        values.push(value);
    }
    Some(values)
}
