//! The bytes of a page of a chain: the number of the next page, and then what it holds.
ghost use Rattle.std.specs.Prelude.{◌≡◌, ◌+◌, ◌*◌, ◌<◌, ◌≤◌, length, take, drop};
ghost use Rattle.page_chain.specs.Chain.{next_in};
ghost use Rattle.page_chain.specs.declared.page.TheConstants.{PAYLOAD};

use byteorder::{BigEndian, ByteOrder};

/// How many bytes of content a page has, after the number of the next one.
pub const PAYLOAD: usize = 4_092;

/// How many bytes the number of the next page takes.
const NUMBER: usize = 4;

/// How many pages this many bytes take.
pub fn pages_for(size: usize) -> usize
    ensures enough { size ≤ PAYLOAD * result }
    ensures no_more { PAYLOAD * result < size + PAYLOAD }
{
    size.div_ceil(PAYLOAD)
}

/// The page that a page with these bytes names.
pub fn next_of(bytes: &[u8; 4096]) -> u32
    ensures { result ≡ next_in bytes.now }
{
    BigEndian::read_u32(bytes)
}

/// What a page with these bytes holds.
pub fn payload_of(bytes: &[u8; 4096]) -> &[u8]
    ensures { result.now ≡ drop 4 bytes.now }
{
    &bytes[NUMBER..]
}

/// The bytes of a page that names the next one and holds this part, filled up with zeros.
pub fn page_with(next: u32, part: &[u8]) -> [u8; 4096]
    requires { length part.now ≤ PAYLOAD }
    ensures whole { length result ≡ 4096 }
    ensures next { next_in result ≡ next }
    ensures holds { take (length part.now) (drop 4 result) ≡ part.now }
{
    let mut bytes = [0; 4096];
    BigEndian::write_u32(&mut bytes, next);
    bytes[NUMBER..NUMBER + part.len()].copy_from_slice(part);
    bytes
}

/// What the page of this place holds: the next part of the content, up to a page full.
pub fn part_of(content: &[u8], place: usize) -> &[u8]
    requires { PAYLOAD * place ≤ length content.now }
    ensures { result.now ≡ take PAYLOAD (drop (PAYLOAD * place) content.now) }
{
    let rest = &content[PAYLOAD * place..];
    &rest[..rest.len().min(PAYLOAD)]
}
