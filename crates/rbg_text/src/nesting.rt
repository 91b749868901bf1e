//! How deep the brackets of a text nest.

ghost use Rattle.std.specs.Prelude.{◌≡◌, ◌<◌, ◌≤◌, ◌+◌, ℕ, map, length};
ghost use Rattle.rbg_text.specs.NestingCount as spec;
ghost use Rattle.rbg_text.specs.View.{token_view};

use crate::token::{Sign, Token};

/// The greatest count of brackets that are open at once. The count goes up at `(`, `[` and `{`, and
/// down at `)`, `]` and `}`, but not below 0.
pub fn nesting(tokens: &[Token<'_>]) -> usize
    ensures { result ≡ spec.nesting (map token_view tokens.now) }
{
    let mut count = 0;
    let mut greatest = 0;
    for token in tokens {
        count = count_after(count, *token);
        greatest = usize::max(greatest, count);
    }
    greatest
}

fn count_after(count: usize, token: Token<'_>) -> usize
    requires { count < usize.MAX }
    ensures value { result ≡ spec.count_after count (token_view token.entry) }
    ensures bound { result ≤ count + 1 }
{
    match token {
        Token::Sign(Sign::OpenParen | Sign::OpenBracket | Sign::OpenBrace) => count + 1,
        Token::Sign(Sign::CloseParen | Sign::CloseBracket | Sign::CloseBrace) => {
            count.saturating_sub(1)
        }
        _ => count,
    }
}
