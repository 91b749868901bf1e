//! The fields of a position as numbers, and their bits.

ghost use Rattle.std.specs.Prelude.{◌≡◌, ◌+◌, ◌-◌, ◌*◌, ◌/◌, ◌≤◌, ◌<◌, ◌^◌, ◌++◌, ℕ, List, [], length, slice_index, bit_and, MatchBool, MatchOption};
ghost use Rattle.std.specs.List.{flat_map, sum_by};
ghost use Rattle.arrayvec.specs.ArrayVec.{array_vec_len};
ghost use Rattle.position_pack.specs.Fields as spec;
ghost use Rattle.position_pack.specs.Fields.{role_code};
ghost use Rattle.position_pack.specs.Bits as bits;
ghost use Rattle.position_pack.specs.Bits.{width, bits_of, field_bits, bytes_of_bits};
ghost use Rattle.position_pack.specs.lemmas.Bits.{AreFields, IsFieldsOf, AreInRange};
ghost use Rattle.position_pack.specs.lemmas.Streams.{written, IsWriter};

use crate::packed::Packed;
use crate::parts::{role_byte, role_of};
use crate::reader::{Reader, take};
use crate::writer::{Writer, finish, new_writer, put, put_low};
use arrayvec::ArrayVec;
use rbg_game::position::{Position, SemiState};

/// The fields of a position, or the greatest value of each: at most 128 pieces, 34 values, the
/// vertex, the role and the place.
pub type Fields = ArrayVec<u32, 165>;

/// The fewest bits for the numbers up to this one.
pub fn width_of(most: u32) -> u32
    ensures is { result ≡ width most }
    ensures word { result ≤ 32 }
{
    (2 * u64::from(most) + 1).ilog2()
}

/// The greatest value of each field.
pub fn greatest_of(pieces: u8, bounds: &[u32], vertices: u8, actions: u16) -> Fields
    requires vertices { vertices ≤ 128 }
    requires bounds { length bounds.now ≤ 34 }
    ensures { result.items ≡ bits.greatest_of (record { pieces = pieces; bounds = bounds.now; vertices = vertices; actions = actions }) }
{
    let mut greatest = Fields::new();
    for _vertex in 0..vertices {
        greatest.push(u32::from(pieces.saturating_sub(1)));
    }
    let _room = greatest.try_extend_from_slice(bounds);
    greatest.push(u32::from(vertices.saturating_sub(1)));
    greatest.push(2);
    greatest.push(u32::from(actions));
    greatest
}

/// How many bits the fields have together.
pub fn bits_in(greatest: &[u32]) -> usize
    requires { length greatest.now ≤ 165 }
    ensures { result ≡ sum_by width greatest.now }
{
    let mut bits = 0;
    for most in greatest {
        bits += width_of(*most) as usize;
    }
    bits
}

/// The fields of a position.
pub fn fields_of(at: &Position) -> Fields
    ensures { result.items ≡ spec.fields_of at.now }
{
    let state = &at.state;
    let mut fields = Fields::new();
    put_pieces(&mut fields, &state.pieces);
    let _room = fields.try_extend_from_slice(&state.values);
    fields.push(u32::from(state.vertex));
    fields.push(u32::from(role_byte(state.mover)));
    fields.push(u32::from(at.place));
    fields
}

/// Puts the pieces after the fields.
fn put_pieces(fields: &mut Fields, pieces: &[u8])
    requires { array_vec_len fields.old + length pieces.now ≤ 165 }
    ensures items { fields.new.items ≡ fields.old.items ++ pieces.now }
    ensures len { array_vec_len fields.new ≡ array_vec_len fields.old + length pieces.now }
{
    for piece in pieces {
        fields.push(u32::from(*piece));
    }
}

/// The position with these fields, this many of which are pieces.
pub fn position_of(fields: &[u32], vertices: usize) -> Option<Position>
    requires { AreInRange vertices fields.now }
    ensures { MatchOption result ⊥ (IsFieldsOf vertices fields.now) }
{
    let (pieces, rest) = fields.split_at(vertices);
    let (values, last) = rest.split_at(rest.len() - 3);
    let vertex = last[0] as u8;
    let mover = role_of(last[1] as u8)?;
    let place = last[2] as u16;
    let mut at = Position {
        state: SemiState {
            mover,
            pieces: ArrayVec::new(),
            values: ArrayVec::new(),
            vertex,
        },
        place,
    };
    take_pieces(pieces, &mut at.state.pieces);
    take_values(values, &mut at.state.values);
    Some(at)
}

/// Puts the fields behind the pieces.
fn take_pieces(fields: &[u32], pieces: &mut ArrayVec<u8, 128>)
    requires few { length fields.now ≤ 128 }
    requires low { (k : ℕ) → k < length fields.now → slice_index fields.now k < 256 }
    requires none { pieces.old.items ≡ [] }
    ensures { pieces.new.items ≡ fields.now }
{
    for field in fields {
        pieces.push(*field as u8);
    }
}

/// Puts the fields behind the values.
fn take_values(fields: &[u32], values: &mut ArrayVec<u32, 34>)
    requires few { length fields.now ≤ 34 }
    requires none { values.old.items ≡ [] }
    ensures { values.new.items ≡ fields.now }
{
    let _room = values.try_extend_from_slice(fields);
}

/// The bytes of fields, each in the fewest bits for its greatest value.
pub fn bytes_of_fields(greatest: &[u32], fields: &[u32]) -> Packed
    requires { sum_by width greatest.now ≤ 1920 }
    ensures { result.items ≡ bytes_of_bits (field_bits greatest.now fields.now) }
{
    let mut writer = new_writer();
    put_fields(&mut writer, greatest, fields);
    finish(&mut writer);
    writer.bytes
}

/// Writes fields, each in the fewest bits for its greatest value.
pub fn put_fields(writer: &mut Writer, greatest: &[u32], fields: &[u32])
    requires writer { IsWriter writer.old }
    requires room { length (written writer.old) + sum_by width greatest.now ≤ 1920 }
    ensures writer { IsWriter writer.new }
    ensures bits { written writer.new ≡ written writer.old ++ field_bits greatest.now fields.now }
{
    for (index, most) in greatest.iter().enumerate() {
        if index < fields.len() {
            put(writer, width_of(*most), fields[index]);
        }
    }
}

/// Writes pieces, each in this many bits.
pub fn put_piece_bits(writer: &mut Writer, width: u32, pieces: &[u8])
    requires writer { IsWriter writer.old }
    requires width { width ≤ 32 }
    requires room { length (written writer.old) + length pieces.now * width ≤ 1920 }
    ensures writer { IsWriter writer.new }
    ensures bits { written writer.new ≡ written writer.old ++ flat_map (bits_of width) pieces.now }
{
    let rest = put_eights(writer, width, pieces);
    for piece in rest {
        put(writer, width, u32::from(*piece));
    }
}

/// Writes pieces by eights, each in this many bits, where eight have room in a word. Answers those
/// that are left.
#[inline(always)]
fn put_eights<'a>(writer: &mut Writer, width: u32, pieces: &'a [u8]) -> &'a [u8]
    requires writer { IsWriter writer.old }
    requires room { length (written writer.old) + length pieces.now * width ≤ 1920 }
    ensures writer { IsWriter writer.new }
    ensures bits { written writer.new ++ flat_map (bits_of width) result.now
        ≡ written writer.old ++ flat_map (bits_of width) pieces.now }
{
    let mut rest = pieces;
    while width <= 4 && rest.len() >= 8 {
        let (eight, more) = rest.split_at(8);
        put_low(writer, 8 * width, joined(width, eight));
        rest = more;
    }
    rest
}

/// The bits of eight pieces, each in this many, as one number. All of them are moved at once, in
/// the bytes of a word: bytes become pairs, those fours, and those the eight.
#[inline(always)]
fn joined(width: u32, pieces: &[u8]) -> u64
    requires width { width ≤ 4 }
    requires eight { length pieces.now ≡ 8 }
    ensures low { result < 2 ^ (8 * width) }
    ensures bits { bits_of (8 * width) result ≡ flat_map (bits_of width) pieces.now }
{
    let word = u64::from_be_bytes([
        pieces[0], pieces[1], pieces[2], pieces[3], pieces[4], pieces[5], pieces[6], pieces[7],
    ]);
    let ones = (1u64 << width) - 1;
    let bytes = word & (ones * 0x0101_0101_0101_0101);
    let pairs = halved(bytes, 8, 0x00ff_00ff_00ff_00ff, width);
    let fours = halved(pairs, 16, 0x0000_ffff_0000_ffff, 2 * width);
    halved(fours, 32, 0xffff_ffff, 4 * width)
}

/// A word of two kinds of parts that take turns, with those of the upper kind moved down: they are
/// `shift` bits higher than the others, and behind it `width`.
#[inline(always)]
fn halved(word: u64, shift: u32, mask: u64, width: u32) -> u64
    requires shift { shift ≤ 32 }
    requires width { width ≤ shift }
    requires parts { word ≡ bit_and (word / 2 ^ shift) mask * 2 ^ shift + bit_and word mask }
    ensures { result ≡ bit_and (word / 2 ^ shift) mask * 2 ^ width + bit_and word mask }
{
    word - ((word >> shift) & mask) * ((1 << shift) - (1 << width))
}

/// Writes the vertex, the role and the place of a position.
#[inline(always)]
pub fn put_last_fields(writer: &mut Writer, vertices: u8, actions: u16, at: &Position)
    requires writer { IsWriter writer.old }
    requires room { length (written writer.old) + width (vertices - 1) + width 2 + width actions ≤ 1920 }
    requires vertices { 0 < vertices }
    ensures writer { IsWriter writer.new }
    ensures bits { written writer.new ≡ ((written writer.old ++ bits_of (width (vertices - 1)) at.now.state.vertex)
        ++ bits_of (width 2) (role_code at.now.state.mover)) ++ bits_of (width actions) at.now.place }
{
    let vertex = width_of(u32::from(vertices - 1));
    let place = width_of(u32::from(actions));
    let front = u64::from(at.state.vertex) * 4 + u64::from(role_byte(at.state.mover));
    let last = (front << place) + u64::from(at.place) % (1 << place);
    put(writer, vertex + 2 + place, last as u32);
}

/// Puts the fields with these bytes into the list: false where one is over its greatest value, or a
/// bit after the last is not zero.
pub fn take_fields(greatest: &[u32], bytes: &[u8], fields: &mut Fields) -> bool
    requires few { length greatest.now ≤ 165 }
    requires long { length bytes.now ≡ (sum_by width greatest.now + 7) / 8 }
    requires none { fields.old.items ≡ [] }
    ensures { MatchBool result (AreFields greatest.now bytes.now fields.new.items) ((fields : List ℕ)
        → ¬ AreFields greatest.now bytes.now fields) }
{
    let mut reader = Reader {
        next: 0,
        held: 0,
        count: 0,
    };
    for most in greatest {
        let value = take(bytes, &mut reader, width_of(*most));
        if value > *most {
            return false;
        }
        fields.push(value);
    }
    reader.held == 0
}
