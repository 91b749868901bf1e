//! Numbers in words.
ghost use Rattle.std.specs.Prelude.{ℕ, MatchOption};
ghost use Rattle.line_syntax.specs.Numbers.{WritesNumber};

/// The number that one to ten digits write, at most 4,294,967,295.
pub fn number(word: &[u8]) -> Option<u32>
    ensures { MatchOption result ((n : ℕ) → ¬ WritesNumber word.now n) (WritesNumber word.now) }
{
    if word.len() > 10 || word.starts_with(b"+") {
        return None;
    }
    let Ok(text) = str::from_utf8(word) else {
        return None;
    };
    let Ok(number) = text.parse::<u32>() else {
        return None;
    };
    Some(number)
}
