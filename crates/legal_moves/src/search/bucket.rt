//! The bucket by which a search finds again what it has kept.
ghost use Rattle.std.specs.Prelude.{◌≡◌, ◌<◌, fold};
ghost use Rattle.legal_moves.specs.lemmas.Buckets.{mixed, stirred, stirred_eight, hash_of_all, bucket_of_board, bucket_of_stand};

use crate::search::chains::BUCKETS;
use rbg_game::position::SemiState;

/// Odd, with bits of no pattern: what changes in a number changes the highest bits of its product with this one.
const SPREAD: u64 = 0xF135_7AEA_2E62_A9C5;

/// That of a board, by its values and pieces: the nine highest bits of their hash.
pub fn board_bucket(board: &SemiState) -> usize
    ensures is { result ≡ bucket_of_board board.now }
    ensures small { result < 512 }
{
    (hash_of_pieces(hash_of_values(&board.values), &board.pieces) >> 55) as usize
}

/// That of a board's number, a vertex and the number of the last action.
pub fn stand_bucket(board: usize, vertex: u8, place: u16) -> usize
    ensures is { result ≡ bucket_of_stand board vertex place }
    ensures small { result < 512 }
{
    let hash = mixed_with(board % 65536, usize::from(vertex));
    mixed_with(hash, usize::from(place)) % BUCKETS
}

/// One number mixed into a hash of 16 bits.
fn mixed_with(hash: usize, number: usize) -> usize
    requires hash { hash < 65536 }
    requires number { number < 4294967296 }
    ensures is { result ≡ mixed hash number }
    ensures small { result < 65536 }
{
    (hash * 31 + number) % 65536
}

/// One number stirred into a hash of 64 bits.
fn stirred_with(hash: u64, number: u64) -> u64
    ensures { result ≡ stirred hash number }
{
    hash.wrapping_add(number).wrapping_mul(SPREAD)
}

fn hash_of_values(values: &[u32]) -> u64
    ensures { result ≡ fold stirred 0 values.now }
{
    let mut hash = 0;
    for value in values {
        hash = stirred_with(hash, u64::from(*value));
    }
    hash
}

/// With the hash of what comes before the pieces. They are taken by eights, each as one number, and then the last eight as well: what the eights
/// left over is among them. Fewer than eight are taken one by one.
fn hash_of_pieces(before: u64, pieces: &[u8]) -> u64
    ensures { result ≡ hash_of_all before pieces.now }
{
    let (eights, _rest) = pieces.as_chunks::<8>();
    match pieces.split_last_chunk::<8>() {
        Some((_before_last, last)) => eight_stirred(hash_of_eights(before, eights), *last),
        None => hash_of_few(before, pieces),
    }
}

/// Eight pieces stirred into a hash as one number.
fn eight_stirred(hash: u64, eight: [u8; 8]) -> u64
    ensures { result ≡ stirred_eight hash eight }
{
    stirred_with(hash, u64::from_le_bytes(eight))
}

/// Each eight as one number, with the hash of what comes before.
fn hash_of_eights(before: u64, eights: &[[u8; 8]]) -> u64
    ensures { result ≡ fold stirred_eight before eights.now }
{
    let mut hash = before;
    for eight in eights {
        hash = eight_stirred(hash, *eight);
    }
    hash
}

/// One by one, with the hash of what comes before.
fn hash_of_few(before: u64, pieces: &[u8]) -> u64
    ensures { result ≡ fold stirred before pieces.now }
{
    let mut hash = before;
    for piece in pieces {
        hash = stirred_with(hash, u64::from(*piece));
    }
    hash
}
