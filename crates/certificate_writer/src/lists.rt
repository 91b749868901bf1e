//! The lists of a certificate, as they are written.

use crate::ranks::{Ranked, Ranks};
use base64::engine::general_purpose::STANDARD_NO_PAD;
use std::alloc::{AllocError, Global};
use std::collections::BTreeMap;

/// Puts a list behind a text: an empty line, the line that says what it is about, and its positions in the order of their bits, each with its
/// rank if ranks are wanted. Gives how many there are.
pub fn put_list(
    alloc: Global,
    text: &mut Vec<u8>,
    words: &[u8],
    player: &[u8],
    ranks: Ranks,
    has_ranks: bool,
) -> Result<usize, AllocError> {
    text.push(b'\n')?;
    text.extend_from_slice(words)?;
    text.extend_from_slice(player)?;
    text.push(b'\n')?;
    let sorted = by_bits(alloc, ranks)?;
    let mut count = 0_usize;
    for (bits, rank) in &sorted {
        put_line(alloc, text, bits, *rank, has_ranks)?;
        count = count.saturating_add(1);
    }
    Ok(count)
}

/// The ranks of positions by their bits.
fn by_bits(alloc: Global, ranks: Ranks) -> Result<BTreeMap<Vec<u8>, u32>, AllocError> {
    let mut sorted = BTreeMap::new(alloc);
    for (_number, ranked) in ranks.into_found() {
        let Ranked { rank, bits } = ranked;
        sorted.insert(bits, rank)?;
    }
    Ok(sorted)
}

/// Puts the line of a position behind a text.
fn put_line(
    alloc: Global,
    text: &mut Vec<u8>,
    bits: &[u8],
    rank: u32,
    has_ranks: bool,
) -> Result<(), AllocError> {
    let letters = STANDARD_NO_PAD.encode(alloc, bits)?;
    text.extend_from_slice(letters.as_bytes())?;
    if has_ranks {
        let digits = rank.to_string(alloc)?;
        text.push(b' ')?;
        text.extend_from_slice(digits.as_bytes())?;
    }
    text.push(b'\n')?;
    Ok(())
}
