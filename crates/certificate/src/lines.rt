//! The lines of a certificate, and the words in them.
ghost use Rattle.std.specs.Prelude.{◌≡◌, ◌≢◌, ◌<◌, ◌^◌, ◌↔◌, ℕ, List, [], ◌∷◌, ◌++◌, All, length, true, MatchOption, IsTrue, slice_index};
ghost use Rattle.std.specs.Fmt.{decimal};
ghost use Rattle.std.specs.Str.Parse.{IsNumeral, digits_value, without_leading_plus};
ghost use Rattle.position_pack.specs.lemmas.Spelled.{IsSplitAt};
ghost use Rattle.certificate.specs.Format.{IsOneLine, lines};
ghost use Rattle.certificate.specs.lemmas.Parts.{IsSplitAtLast, EndsList};

/// What stands behind these words, with which the bytes begin.
pub fn after<'a>(bytes: &'a [u8], words: &[u8]) -> Option<&'a [u8]>
    ensures { MatchOption result ((rest : List ℕ) → bytes.now ≢ words.now ++ rest) (λ rest. bytes.now ≡ words.now ++ rest.now) }
{
    let (front, rest) = bytes.split_at_checked(words.len())?;
    if front == words { Some(rest) } else { None }
}

/// What stands before the first such byte and what after it.
fn cut(bytes: &[u8], byte: u8) -> Option<(&[u8], &[u8])>
    ensures { MatchOption result (All (λ b. b ≢ byte) bytes.now) (λ parts. IsSplitAt byte bytes.now parts.0.now parts.1.now) }
{
    for (index, here) in bytes.iter().enumerate() {
        if *here == byte {
            return Some((&bytes[..index], &bytes[index + 1..]));
        }
    }
    None
}

/// What stands before the last such byte and what after it.
pub fn cut_at_last(bytes: &[u8], byte: u8) -> Option<(&[u8], &[u8])>
    ensures { MatchOption result (All (λ b. b ≢ byte) bytes.now) (λ parts. IsSplitAtLast byte bytes.now parts.0.now parts.1.now) }
{
    let mut end = bytes.len();
    while end > 0 {
        if bytes[end - 1] == byte {
            return Some((&bytes[..end - 1], &bytes[end..]));
        }
        end -= 1;
    }
    None
}

/// What stands behind these words on the first line, and what is behind that line. A byte has to end it.
pub fn behind<'a>(bytes: &'a [u8], words: &[u8]) -> Option<(&'a [u8], &'a [u8])>
    ensures { MatchOption result ((line rest : List ℕ) → IsOneLine line → bytes.now ≢ words.now ++ (line ++ 10 ∷ rest))
        (λ parts. IsOneLine parts.0.now × (bytes.now ≡ words.now ++ (parts.0.now ++ 10 ∷ parts.1.now))) }
{
    let rest = after(bytes, words)?;
    cut(rest, b'\n')
}

/// The first line of these bytes, without its end, and what is behind it; none where nothing is left. The end of the bytes ends a line too.
pub fn first_line(bytes: &[u8]) -> Option<(&[u8], &[u8])>
    ensures { MatchOption result (bytes.now ≡ []) (λ parts. (length parts.1.now < length bytes.now)
        × (lines bytes.now ≡ parts.0.now ∷ lines parts.1.now)) }
{
    if bytes.is_empty() {
        return None;
    }
    match cut(bytes, b'\n') {
        Some((line, rest)) => Some((line, rest)),
        None => Some((bytes, &bytes[bytes.len()..])),
    }
}

/// The first line of these bytes and what is behind it; none where nothing is left, or the line is empty: there a list ends.
pub fn filled_line(bytes: &[u8]) -> Option<(&[u8], &[u8])>
    ensures { MatchOption result (EndsList (lines bytes.now)) (λ parts. (parts.0.now ≢ []) × (length parts.1.now < length bytes.now)
        × (lines bytes.now ≡ parts.0.now ∷ lines parts.1.now)) }
{
    let (line, rest) = first_line(bytes)?;
    if line.is_empty() {
        None
    } else {
        Some((line, rest))
    }
}

/// Whether the bytes begin with no plus, and with a zero only where they are that zero.
fn begins_plainly(bytes: &[u8]) -> bool
    ensures { IsTrue result ↔ ((slice_index bytes.now 0 ≢ 43) × (slice_index bytes.now 0 ≡ 48 → length bytes.now ≡ 1)) }
{
    match bytes {
        [b'+', ..] => false,
        [b'0', rest @ ..] => rest.is_empty(),
        _ => true,
    }
}

/// The number below 2^32 that digits write, also with zeros or a plus before it.
fn digits_of(bytes: &[u8]) -> Option<u32>
    ensures { MatchOption result ((n : ℕ) → n < 2 ^ 32 → bytes.now ≢ decimal n)
        (λ n. IsNumeral 10 (without_leading_plus bytes.now) × (n ≡ digits_value 10 (without_leading_plus bytes.now))) }
{
    let Ok(text) = str::from_utf8(bytes) else {
        return None;
    };
    let Ok(number) = text.parse::<u32>() else {
        return None;
    };
    Some(number)
}

/// The number below 2^32 that these digits write, without a zero or a sign before it.
pub fn number(digits: &[u8]) -> Option<u32>
    ensures { MatchOption result ((n : ℕ) → n < 2 ^ 32 → digits.now ≢ decimal n) (λ n. (n < 2 ^ 32) × (digits.now ≡ decimal n)) }
{
    if !begins_plainly(digits) {
        return None;
    }
    let number = digits_of(digits)?;
    Some(number)
}
