//! The words of a text.

ghost use Rattle.std.specs.Prelude.{◌≢◌, ℕ, All, List, MatchOption};
ghost use Rattle.position_pack.specs.lemmas.Spelled.{IsSplitAt, AreWords};

/// What stands before the first such byte and what after it: none where the byte is not there.
pub fn cut(text: &[u8], byte: u8) -> Option<(&[u8], &[u8])>
    ensures { MatchOption result (All (λ b. b ≢ byte) text.now) (λ parts. IsSplitAt byte text.now parts.0.now parts.1.now) }
{
    for (index, here) in text.iter().enumerate() {
        if *here == byte {
            return Some((&text[..index], &text[index + 1..]));
        }
    }
    None
}

/// The words of a position's text.
#[derive(Drop)]
pub struct Words<'a> {
    pub role: &'a [u8],
    pub place: &'a [u8],
    pub vertex: &'a [u8],
    pub pieces: &'a [u8],
    pub values: &'a [u8],
}

/// The words of a text, which its first four spaces end, and the rest: none where it has fewer.
pub fn words_of(text: &[u8]) -> Option<Words<'_>>
    ensures { MatchOption result ((a b c d e : List ℕ) → ¬ AreWords text.now a b c d e)
        (λ words. AreWords text.now words.role.now words.place.now words.vertex.now words.pieces.now words.values.now) }
{
    let (role, rest) = cut(text, b' ')?;
    let (place, rest) = cut(rest, b' ')?;
    let (vertex, rest) = cut(rest, b' ')?;
    let (pieces, values) = cut(rest, b' ')?;
    Some(Words {
        role,
        place,
        vertex,
        pieces,
        values,
    })
}
