//! The tokens of a text as they stand in it.

ghost use Rattle.std.specs.Prelude.{◌≡◌, ◌+◌, ◌-◌, ◌≤◌, List, Err, IfOk, length, take, drop};
ghost use Rattle.rbg_text.specs.Token as grammar;
ghost use Rattle.rbg_text.specs.View.{token_view};
ghost use Rattle.numbered_actions.specs.Placed.{Stand};

use rbg_text::fault::ReadError;
use rbg_text::lexer::{Lexer, written_len};
use rbg_text::token::Token;
use std::alloc::Global;

/// A token as it stands in a text.
#[derive(Clone, Copy)]
pub struct Lexeme<'a> {
    pub token: Token<'a>,
    /// The byte of the text that it begins with.
    pub at: usize,
    /// The bytes with which it is written.
    pub bytes: &'a [u8],
    /// The blanks and comments before it.
    pub gap: &'a [u8],
}

/// The tokens of a text as they stand in it.
pub fn lexemes(alloc: Global, text: &[u8]) -> Result<Vec<Lexeme<'_>>, ReadError>
    ensures placed { IfOk result (λ found. Stand text.now found.items text.now) }
    // A byte begins no token.
    ensures stray { result ≡ Err ReadError.Syntax → (ts : List grammar.Token) → ¬ grammar.Splits text.now ts }
{
    let mut found = Vec::new(alloc);
    let mut lexer = Lexer::new(text);
    let mut end = 0;
    while let Some(token) = lexer.next_token()? {
        let next = text.len() - lexer.left();
        found.push(standing(text, token, end, next))?;
        end = next;
    }
    Ok(found)
}

/// The token that ends right before the byte `next`, after one that ends right before the byte `last`.
fn standing<'a>(text: &'a [u8], token: Token<'a>, last: usize, next: usize) -> Lexeme<'a>
    requires room { last + length (grammar.token_text (token_view token)) ≤ next }
    requires within { next ≤ length text.now }
    ensures token { token_view result.token ≡ token_view token.entry }
    ensures at { result.at ≡ next - length (grammar.token_text (token_view token.entry)) }
    ensures bytes { result.bytes.now ≡ take (length (grammar.token_text (token_view token.entry))) (drop result.at text.now) }
    ensures gap { result.gap.now ≡ take (result.at - last) (drop last text.now) }
{
    let at = next - written_len(token);
    Lexeme {
        token,
        at,
        bytes: &text[at..next],
        gap: &text[last..at],
    }
}
