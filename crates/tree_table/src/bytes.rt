//! Numbers, edges and cells as bytes of entries.
ghost use Rattle.std.specs.Prelude.{◌≡◌, ◌≤◌, ◌<◌, ◌^◌, ◌++◌, ℕ, List, Some, IfSome, IfNone, IsTrue, false, length};
ghost use Rattle.retrograde.specs.declared.records.Record.{Record};
ghost use Rattle.game_file.specs.Bytes.{IsCell, IsNumber, IsPlainCell};
ghost use Rattle.tree_table.specs.Entries.{number_key};
ghost use Rattle.tree_table.specs.lemmas.Keys.{key_behind};
ghost use Rattle.position_pack.specs.declared.limits.TheConstants.{MAX_PACKED};

use crate::change::fresh;
use btree::find::{Bytes, copied};
use byteorder::{BigEndian, ByteOrder};
use game_file::{RECORD_BYTES, read_record, record_bytes};
use position_pack::Packed;
use retrograde::Record;

/// How many bytes a number takes.
const NUMBER_BYTES: usize = 4;

/// A position with its record.
#[derive(Drop)]
pub struct Cell {
    pub position: Packed,
    pub kept: Record,
}

/// The four bytes of a number.
pub fn number_key(number: u32) -> [u8; 4]
    ensures { result ≡ number_key number }
{
    let mut key = [0; NUMBER_BYTES];
    BigEndian::write_u32(&mut key, number);
    key
}

/// The number of these bytes, if there are four.
pub fn number_in(bytes: &[u8]) -> Option<u32>
    ensures some { IfSome result (IsNumber bytes.now) }
    ensures none { IfNone result ((n : ℕ) → IsNumber bytes.now n → ⊥) }
{
    if bytes.len() == NUMBER_BYTES {
        Some(BigEndian::read_u32(bytes))
    } else {
        None
    }
}

/// The bytes of a number, and those of another after, if there is one.
pub fn key_behind(first: u32, second: Option<u32>) -> Bytes
    ensures bytes { result.items ≡ key_behind first second }
    ensures small { IfSome second (λ n. n < 2 ^ 32) }
{
    let mut key = copied(&number_key(first));
    if let Some(number) = second {
        let _fits = key.try_extend_from_slice(&number_key(number));
    }
    key
}

/// The two numbers of these bytes, if there are eight.
pub fn edge_in(bytes: &[u8]) -> Option<(u32, u32)>
    ensures some { IfSome result (λ edge. (front back : List ℕ) × (bytes.now ≡ front ++ back) × IsNumber front edge.0 × IsNumber back
        edge.1) }
    ensures none { IfNone result (length bytes.now ≡ 8 → ⊥) }
{
    if bytes.len() != 2 * NUMBER_BYTES {
        return None;
    }
    let (front, back) = bytes.split_at(NUMBER_BYTES);
    Some((BigEndian::read_u32(front), BigEndian::read_u32(back)))
}

/// A copy of the bytes of a position.
pub fn position_of(bytes: &[u8]) -> Packed
    requires { length bytes.now ≤ MAX_PACKED }
    ensures { result.items ≡ bytes.now }
{
    let mut position = Packed::new();
    let _fits = position.try_extend_from_slice(bytes);
    position
}

/// The bytes of a position, this many, and the record that these bytes are, where they are that.
pub fn cell_parts(bytes: &[u8], packed: u32) -> Option<(&[u8], Record)>
    requires { packed ≤ MAX_PACKED }
    ensures some { IfSome result (λ parts. IsCell packed bytes.now (parts.0.now, parts.1)) }
    ensures none { IfNone result ((cell : List ℕ × Record) → IsCell packed bytes.now cell → ⊥) }
{
    let packed = packed as usize;
    if bytes.len() != packed + RECORD_BYTES {
        return None;
    }
    let (position, behind) = bytes.split_at(packed);
    let kept = read_record(behind)?;
    Some((position, kept))
}

/// A cell with no position.
pub fn no_cell() -> Cell {
    Cell {
        position: Packed::new(),
        kept: fresh(),
    }
}

/// Whether these bytes are a position of this many bytes and a record. The cell is filled with both.
pub fn fill_cell(bytes: &[u8], packed: u32, into: &mut Cell) -> bool
    requires { packed ≤ MAX_PACKED }
    ensures filled { IsTrue result → IsCell packed bytes.now (into.new.position.items, into.new.kept) }
    ensures none { result ≡ false → (cell : List ℕ × Record) → IsCell packed bytes.now cell → ⊥ }
    ensures same { result ≡ false → into.new ≡ into.old }
{
    let Some((position, kept)) = cell_parts(bytes, packed) else {
        return false;
    };
    into.position.clear();
    let _fits = into.position.try_extend_from_slice(position);
    into.kept = kept;
    true
}

/// The bytes of a position, and after them those of a record.
pub fn cell_bytes(position: &Packed, kept: &Record) -> Bytes
    ensures { IsPlainCell (length position.now.items) result.items (position.now.items, kept.now) }
{
    let mut cell = copied(position);
    let _fits = cell.try_extend_from_slice(&record_bytes(kept));
    cell
}
