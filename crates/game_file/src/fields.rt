//! The fields of a root slot, which stand at the same places in all layouts.
ghost use Rattle.std.specs.Prelude.{◌≡◌, ◌↔◌, ◌+◌, ◌≤◌, ◌<◌, ℕ, true, slice_index};
ghost use Rattle.game_file.specs.Numbers.{AreWithinLimits};
ghost use Rattle.game_file.specs.Fields.{word_at as word_in, long_at as long_in, sizes_in as sizes_of, AreZero};

use crate::Sizes;
use byteorder::{BigEndian, ByteOrder};
use position_pack::MAX_PACKED;
use rbg_game::limits::MAX_TEXT_BYTES;
use retrograde::Counts;
use table::MAX_POSITIONS;

/// The number in the four bytes from there on.
pub fn word_at(root: &[u8; 512], at: usize) -> u32
    requires { at ≤ 508 }
    ensures { result ≡ word_in root.now at }
{
    BigEndian::read_u32(&root[at..])
}

/// Puts a number into the four bytes from there on.
pub fn put_word(root: &mut [u8; 512], at: usize, number: u32)
    requires { at ≤ 508 }
    ensures is { word_in root.new at ≡ number }
    ensures before { (k : ℕ) → k + 4 ≤ at → word_in root.new k ≡ word_in root.old k }
    ensures ahead { (k : ℕ) → k < at → slice_index root.new k ≡ slice_index root.old k }
    ensures behind { (k : ℕ) → at + 4 ≤ k → slice_index root.new k ≡ slice_index root.old k }
{
    BigEndian::write_u32(&mut root[at..at + 4], number);
}

/// Puts a number into the eight bytes from there on.
pub fn put_long(root: &mut [u8; 512], at: usize, number: u64)
    requires { at ≤ 504 }
    ensures is { long_in root.new at ≡ number }
    ensures before { (k : ℕ) → k + 4 ≤ at → word_in root.new k ≡ word_in root.old k }
    ensures ahead { (k : ℕ) → k < at → slice_index root.new k ≡ slice_index root.old k }
    ensures behind { (k : ℕ) → at + 8 ≤ k → slice_index root.new k ≡ slice_index root.old k }
{
    BigEndian::write_u64(&mut root[at..at + 8], number);
}

/// The number in the eight bytes from there on.
pub fn long_at(root: &[u8; 512], at: usize) -> u64
    requires { at ≤ 504 }
    ensures { result ≡ long_in root.now at }
{
    BigEndian::read_u64(&root[at..])
}

/// How much of each the slot says that there is.
pub fn sizes_in(root: &[u8; 512]) -> Sizes
    ensures { result ≡ sizes_of root.now }
{
    Sizes {
        text: word_at(root, 20),
        packed: word_at(root, 24),
        counts: Counts {
            known: word_at(root, 28),
            expanded: word_at(root, 32),
            settled: word_at(root, 36),
            processed: word_at(root, 40),
        },
        edges: long_at(root, 60),
    }
}

/// Whether the numbers are in order and within their limits.
pub fn are_within_limits(sizes: &Sizes) -> bool
    ensures { (result ≡ true) ↔ AreWithinLimits sizes.now }
{
    let counts = sizes.counts;
    sizes.text <= MAX_TEXT_BYTES as u32
        && sizes.packed <= MAX_PACKED as u32
        && (1..=MAX_POSITIONS).contains(&counts.known)
        && counts.expanded <= counts.known
        && counts.settled <= counts.expanded
        && counts.processed <= counts.settled
}

/// Whether the bytes from one place on up to another are zero.
pub fn are_zero(root: &[u8; 512], from: usize, to: usize) -> bool
    requires from { from ≤ to }
    requires to { to ≤ 512 }
    ensures { (result ≡ true) ↔ AreZero from to root.now }
{
    (from..to).all(|at| root[at] == 0)
}
