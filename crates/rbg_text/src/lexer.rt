//! Splits a text into tokens.

ghost use Rattle.std.specs.Prelude.{◌≡◌, ◌<◌, ◌≤◌, ℕ, [], length, drop, map, Some, None, Ok, Err, IfOk, IfErr, IfSome, List, option_map};
ghost use Rattle.std.specs.Prelude.{slice_index};
ghost use Rattle.std.specs.Char.{is_ascii_digit};
ghost use Rattle.std.specs.List.{list_all};
ghost use Rattle.rbg_text.specs.Token as grammar;
ghost use Rattle.rbg_text.specs.Lex as spec;
ghost use Rattle.rbg_text.specs.View.{token_view};

use crate::fault::ReadError;
use crate::token::{Sign, Token};
use std::alloc::Global;
use std::marker::Model;

fn is_word_byte(b: u8) -> bool
    ensures { result ≡ grammar.is_word_byte b }
{
    b.is_ascii_alphanumeric() || b == b'_'
}

fn is_blank(b: u8) -> bool
    ensures { result ≡ grammar.is_blank b }
{
    b == b' ' || b == b'\t' || b == b'\r' || b == b'\n'
}

fn sign_text(sign: Sign) -> &'static [u8]
    ensures { result.now ≡ grammar.sign_text sign }
{
    match sign {
        Sign::DoubleArrow => b"->>",
        Sign::Arrow => b"->",
        Sign::EqualEqual => b"==",
        Sign::NotEqual => b"!=",
        Sign::LessEqual => b"<=",
        Sign::GreaterEqual => b">=",
        Sign::Less => b"<",
        Sign::Greater => b">",
        Sign::Equal => b"=",
        Sign::Hash => b"#",
        Sign::Comma => b",",
        Sign::Colon => b":",
        Sign::OpenParen => b"(",
        Sign::CloseParen => b")",
        Sign::OpenBracket => b"[",
        Sign::CloseBracket => b"]",
        Sign::OpenBrace => b"{",
        Sign::CloseBrace => b"}",
        Sign::Star => b"*",
        Sign::Plus => b"+",
        Sign::Minus => b"-",
        Sign::Dollar => b"$",
        Sign::Question => b"?",
        Sign::Exclamation => b"!",
    }
}

/// The signs, longer ones first.
const SIGNS: [Sign; 24] = [
    Sign::DoubleArrow,
    Sign::Arrow,
    Sign::EqualEqual,
    Sign::NotEqual,
    Sign::LessEqual,
    Sign::GreaterEqual,
    Sign::Less,
    Sign::Greater,
    Sign::Equal,
    Sign::Hash,
    Sign::Comma,
    Sign::Colon,
    Sign::OpenParen,
    Sign::CloseParen,
    Sign::OpenBracket,
    Sign::CloseBracket,
    Sign::OpenBrace,
    Sign::CloseBrace,
    Sign::Star,
    Sign::Plus,
    Sign::Minus,
    Sign::Dollar,
    Sign::Question,
    Sign::Exclamation,
];

/// The first sign of the list that the text begins with.
fn sign_among(signs: &[Sign], text: &[u8]) -> Option<Sign>
    ensures value { result ≡ spec.sign_among signs.now text.now }
    ensures fits { IfSome result (λ s. length (grammar.sign_text s) ≤ length text.now) }
{
    for sign in signs {
        if text.starts_with(sign_text(*sign)) {
            return Some(*sign);
        }
    }
    None
}

/// The longest sign that the text begins with.
#[tactic(auto, unfolding(crate::specs::Lex::sign_at))]
fn sign_at(text: &[u8]) -> Option<Sign>
    ensures value { result ≡ spec.sign_at text.now }
    ensures fits { IfSome result (λ s. length (grammar.sign_text s) ≤ length text.now) }
{
    sign_among(&SIGNS, text)
}

/// The byte at `at`, or 0 past the end.
fn byte_at(text: &[u8], at: usize) -> u8
    ensures { result ≡ slice_index text.now at }
{
    if at < text.len() { text[at] } else { 0 }
}

/// Whether a comment goes on after the byte `b`, or `None` where `b` belongs to a token.
fn turn(inside: bool, b: u8, next: u8) -> Option<bool>
    ensures { result ≡ spec.turn inside b next }
{
    if inside {
        Some(b != b'\n')
    } else if is_blank(b) {
        Some(false)
    } else if b == b'/' && next == b'/' {
        Some(true)
    } else {
        None
    }
}

/// The text after blanks and comments.
fn skip(text: &[u8]) -> &[u8]
    ensures rest { result.now ≡ spec.skip text.now }
    ensures within { length result.now ≤ length text.now }
{
    let mut inside = false;
    for at in 0..text.len() {
        match turn(inside, text[at], byte_at(text, at + 1)) {
            Some(state) => inside = state,
            None => return &text[at..],
        }
    }
    &text[text.len()..]
}

fn word_len(text: &[u8]) -> usize
    ensures value { result ≡ spec.word_len text.now }
    ensures within { result ≤ length text.now }
{
    text.iter().take_while(|b| is_word_byte(**b)).count()
}

fn is_number(word: &[u8]) -> bool
    ensures { result ≡ list_all is_ascii_digit word.now }
{
    word.iter().all(|b| b.is_ascii_digit())
}

fn word_token(word: &[u8]) -> Token<'_>
    ensures { token_view result ≡ spec.word_token word.now }
{
    if is_number(word) {
        Token::Number(word)
    } else {
        Token::Name(word)
    }
}

/// The token that the text begins with, and the text after it.
#[tactic(auto, unfolding(crate::specs::Lex::take_token))]
fn take_token(text: &[u8]) -> Option<(Token<'_>, &[u8])>
    ensures { option_map (λ p. (token_view p.0, p.1.now)) result ≡ spec.take_token text.now }
{
    if is_word_byte(byte_at(text, 0)) {
        let (word, rest) = text.split_at(word_len(text));
        return Some((word_token(word), rest));
    }
    let sign = sign_at(text)?;
    Some((Token::Sign(sign), &text[sign_text(sign).len()..]))
}

/// The tokens of a text, one after the other.
#[derive(Drop)]
pub struct Lexer<'a> {
    rest: &'a [u8],
}

impl<'a> Model for Lexer<'a> {
    ghost use Rattle.std.specs.Prelude.{ℕ, List};

    ghost Value = { List ℕ };

    ghost view = { λ l. l.rest.now };
}

impl<'a> Lexer<'a> {
    pub fn new(text: &'a [u8]) -> Lexer<'a>
        ensures { result ≡ text.now }
    {
        Lexer { rest: text }
    }

    /// The next token, or `None` at the end. At a byte that begins none it stays there, and `Syntax` is answered.
    pub fn next_token(&mut self) -> Result<Option<Token<'a>>, ReadError>
        ensures token { IfOk result (λ found. IfSome found (λ t. (here : List ℕ) × grammar.Gap self.old here
            × grammar.Takes here (token_view t) self.new)) }
        ensures end { result ≡ Ok None → grammar.Gap self.old self.new × (self.new ≡ []) }
        ensures stuck { IfErr result (λ _. grammar.Gap self.old self.new × grammar.IsStray self.new) }
        ensures some { IfOk result (λ found. IfSome found (λ t. spec.lex self.old ≡ spec.cons_tokens (token_view t) (spec.lex self.new))) }
        ensures shorter { IfOk result (λ found. IfSome found (λ _. length self.new < length self.old)) }
        ensures none { result ≡ Ok None → spec.lex self.old ≡ Some [] }
        // A byte begins no token.
        ensures stray { IfErr result (λ e. (e ≡ ReadError.Syntax) × (spec.lex self.old ≡ None)) }
    {
        let text = skip(self.rest);
        if text.is_empty() {
            self.rest = text;
            return Ok(None);
        }
        match take_token(text) {
            Some((token, rest)) => {
                self.rest = rest;
                Ok(Some(token))
            }
            None => {
                self.rest = text;
                Err(ReadError::Syntax)
            }
        }
    }

    /// How many bytes of the text are left: those after the last token, or from the byte on that
    /// begins none.
    pub fn left(&self) -> usize
        ensures { result ≡ length self.now }
    {
        self.rest.len()
    }
}

/// With how many bytes a token is written.
pub fn written_len(token: Token<'_>) -> usize
    ensures { result ≡ length (grammar.token_text (token_view token.entry)) }
{
    match token {
        Token::Name(word) | Token::Number(word) => word.len(),
        Token::Sign(sign) => sign_text(sign).len(),
    }
}

/// The tokens of a text.
pub fn tokens(alloc: Global, text: &[u8]) -> Result<Vec<Token<'_>>, ReadError>
    ensures split { IfOk result (λ ts. grammar.Splits text.now (map token_view ts.items)) }
    // A byte begins no token.
    ensures stray { result ≡ Err ReadError.Syntax → (ts : List grammar.Token) → ¬ grammar.Splits text.now ts }
{
    let mut found = Vec::new(alloc);
    let mut lexer = Lexer::new(text);
    while let Some(token) = lexer.next_token()? {
        found.push(token)?;
    }
    Ok(found)
}
