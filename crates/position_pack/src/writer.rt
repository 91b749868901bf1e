//! Bits one after another, as bytes.

ghost use Rattle.std.specs.Prelude.{◌≡◌, ℕ, ◌+◌, ◌*◌, ◌^◌, ◌<◌, ◌≤◌, ◌++◌, [], length, slice_index};
ghost use Rattle.std.specs.List.{flat_map};
ghost use Rattle.position_pack.specs.Bits.{bits_of, bytes_of_bits};
ghost use Rattle.position_pack.specs.lemmas.Streams.{written, HoldsFewer, IsWriter};

use crate::packed::Packed;
use crate::parts::put_bytes;

/// Whole bytes, and bits that wait for more: `count` of them, the lowest of `held`.
#[derive(Drop)]
pub struct Writer {
    pub bytes: Packed,
    pub held: u32,
    pub count: u32,
}

/// Nothing is written yet.
pub fn new_writer() -> Writer
    ensures is { IsWriter result }
    ensures empty { written result ≡ [] }
{
    Writer {
        bytes: Packed::new(),
        held: 0,
        count: 0,
    }
}

/// Writes the lowest bits of a value, this many, the most significant first.
#[inline(always)]
pub fn put(writer: &mut Writer, width: u32, value: u32)
    requires writer { IsWriter writer.old }
    requires width { width ≤ 32 }
    requires room { length (written writer.old) + width ≤ 1920 }
    ensures writer { IsWriter writer.new }
    ensures bits { written writer.new ≡ written writer.old ++ bits_of width value }
{
    put_low(writer, width, u64::from(value) % (1 << width));
}

/// Writes a value that has no more than these bits, the most significant first.
#[inline(always)]
pub fn put_low(writer: &mut Writer, width: u32, value: u64)
    requires writer { IsWriter writer.old }
    requires width { width ≤ 32 }
    requires low { value < 2 ^ width }
    requires room { length (written writer.old) + width ≤ 1920 }
    ensures writer { IsWriter writer.new }
    ensures bits { written writer.new ≡ written writer.old ++ bits_of width value }
{
    let held = (u64::from(writer.held) << width) + value;
    let count = writer.count + width;
    if count >= 32 {
        put_four(writer, held, count);
    } else {
        writer.held = held as u32;
        writer.count = count;
    }
}

/// Writes the first four bytes of these bits, and holds the rest in place of what is held.
#[inline(always)]
fn put_four(writer: &mut Writer, held: u64, count: u32)
    requires bytes { (i : ℕ) → slice_index writer.old.bytes.items i < 256 }
    requires four { 32 ≤ count }
    requires few { count < 64 }
    requires low { held < 2 ^ count }
    requires room { 8 * length writer.old.bytes.items + count ≤ 1920 }
    ensures writer { IsWriter writer.new }
    ensures bits { written writer.new ≡ flat_map (bits_of 8) writer.old.bytes.items ++ bits_of count held }
{
    let rest = count - 32;
    let four = (held >> rest) as u32;
    put_bytes(&mut writer.bytes, &four.to_be_bytes());
    writer.held = (held % (1 << rest)) as u32;
    writer.count = rest;
}

/// Writes the whole bytes of what is held.
#[inline(always)]
fn put_held(writer: &mut Writer)
    requires holds { IsWriter writer.old }
    requires room { length (written writer.old) ≤ 1920 }
    ensures holds { HoldsFewer 8 writer.new }
    ensures bits { written writer.new ≡ written writer.old }
{
    let mut held = u64::from(writer.held);
    let mut count = writer.count;
    while count >= 8 {
        count -= 8;
        writer.bytes.push((held >> count) as u8);
        held %= 1 << count;
    }
    writer.held = held as u32;
    writer.count = count;
}

/// Writes what is held, with zeros after the last bit.
#[inline(always)]
pub fn finish(writer: &mut Writer)
    requires writer { IsWriter writer.old }
    requires room { length (written writer.old) ≤ 1920 }
    ensures { writer.new.bytes.items ≡ bytes_of_bits (written writer.old) }
{
    put_held(writer);
    put_last(writer);
}

/// Writes the bits that wait, with zeros after them, if there are any.
#[inline(always)]
fn put_last(writer: &mut Writer)
    requires writer { HoldsFewer 8 writer.old }
    requires room { length (written writer.old) ≤ 1920 }
    ensures { writer.new.bytes.items ≡ bytes_of_bits (written writer.old) }
{
    if writer.count > 0 {
        let last = u64::from(writer.held) << (8 - writer.count);
        writer.bytes.push(last as u8);
    }
}
