//! Why a text is no game, for people: where the fault is, and what was met there.

use crate::mentions::{Placed, Walk, is_sign, scan};
use crate::wrong_names::{repeated_name, too_many, unknown_name, wrong_players};
use rbg_game::limits::{MAX_NESTING, MAX_TEXT_BYTES};
use rbg_read::fault::GameFault;
use rbg_text::read::tokens_read;
use rbg_text::token::{Sign, Token};
use std::alloc::{AllocError, Global};

/// A fault of a text: the byte that it is at, and a line for people.
#[derive(Drop)]
pub struct Explanation {
    pub at: usize,
    pub message: String,
}

/// What is wrong with a text that was refused with this fault.
pub fn explain(alloc: Global, text: &[u8], fault: GameFault) -> Result<Explanation, AllocError> {
    if fault == GameFault::OutOfMemory {
        return said(alloc, 0, "memory ran out");
    }
    if text.len() > MAX_TEXT_BYTES {
        return said(
            alloc,
            MAX_TEXT_BYTES,
            "the text is longer than 65,536 bytes",
        );
    }
    let scanned = scan(alloc, text)?;
    if let Some(at) = scanned.stray {
        return stray_byte(alloc, text, at);
    }
    explain_tokens(alloc, text, scanned.tokens.as_slice(), fault)
}

/// What is wrong with a text of these tokens.
fn explain_tokens(
    alloc: Global,
    text: &[u8],
    tokens: &[Placed<'_>],
    fault: GameFault,
) -> Result<Explanation, AllocError> {
    match fault {
        GameFault::Syntax => unfit_token(alloc, text, tokens),
        GameFault::Section => wrong_section(alloc, text, tokens),
        GameFault::NotTwoPlayers => wrong_players(alloc, tokens),
        GameFault::UnknownName => unknown_name(alloc, tokens),
        GameFault::RepeatedName => repeated_name(alloc, tokens),
        GameFault::BoundTooLarge => large_number(alloc, tokens),
        GameFault::TooLarge => too_large(alloc, tokens),
        GameFault::ExpressionTooLarge => large_expression(alloc, tokens),
        GameFault::SwitchInPattern => switch_in_pattern(alloc, tokens),
        GameFault::OutOfMemory => said(alloc, 0, "memory ran out"),
    }
}

/// A line for people about this byte.
pub fn said(alloc: Global, at: usize, message: &str) -> Result<Explanation, AllocError> {
    Ok(Explanation {
        at,
        message: String::from_str(alloc, message)?,
    })
}

/// The bytes of a name or a number, which are ASCII.
pub fn word_text(alloc: Global, word: &[u8]) -> Result<String, AllocError> {
    let mut text = String::new(alloc);
    for byte in word {
        text.push(char::from(*byte))?;
    }
    Ok(text)
}

fn stray_byte(alloc: Global, text: &[u8], at: usize) -> Result<Explanation, AllocError> {
    let byte = text.get(at).copied().unwrap_or(0);
    let message = if byte.is_ascii_graphic() {
        let shown = char::from(byte);
        format!(in alloc; "nothing in a game text begins with `{shown}`")?
    } else {
        format!(in alloc; "nothing in a game text begins with the byte {byte}")?
    };
    Ok(Explanation { at, message })
}

fn unfit_token(
    alloc: Global,
    text: &[u8],
    placed: &[Placed<'_>],
) -> Result<Explanation, AllocError> {
    let read = count_read(alloc, placed)?;
    if let Some(unknown) = unknown_section(placed, read) {
        return unknown_title(alloc, unknown);
    }
    match placed.get(read) {
        Some(next) => unfit(alloc, text, *next),
        None => said(alloc, text.len(), "the text ends too early"),
    }
}

/// How many tokens were read before one did not fit.
fn count_read(alloc: Global, placed: &[Placed<'_>]) -> Result<usize, AllocError> {
    let tokens: Vec<Token<'_>> = placed.iter().map(|p| p.token).collect(alloc)?;
    Ok(tokens_read(alloc, tokens.as_slice()))
}

fn unfit(alloc: Global, text: &[u8], next: Placed<'_>) -> Result<Explanation, AllocError> {
    let message = match next.token {
        Token::Name(word) => {
            let word = word_text(alloc, word)?;
            format!(in alloc; "`{word}` does not fit here")?
        }
        Token::Number(word) => {
            let word = word_text(alloc, word)?;
            format!(in alloc; "the number {word} does not fit here")?
        }
        Token::Sign(_) => {
            let sign = sign_text(text, next.at);
            format!(in alloc; "`{sign}` does not fit here")?
        }
    };
    Ok(Explanation {
        at: next.at,
        message,
    })
}

/// The first word after a `#` that names no section, up to the place that was read.
fn unknown_section<'a>(placed: &[Placed<'a>], read: usize) -> Option<Titled<'a>> {
    for place in 1..placed.len() {
        if place > read {
            break;
        }
        let Token::Name(word) = placed[place].token else {
            continue;
        };
        let is_known = TITLES.iter().any(|title| title.as_bytes() == word);
        if !is_known && is_sign(placed, place - 1, Sign::Hash) {
            let at = placed[place].at;
            return Some(Titled { word, at });
        }
    }
    None
}

/// A word that stands where a title does.
#[derive(Clone, Copy)]
struct Titled<'a> {
    word: &'a [u8],
    at: usize,
}

fn unknown_title(alloc: Global, titled: Titled<'_>) -> Result<Explanation, AllocError> {
    let word = word_text(alloc, titled.word)?;
    let message = format!(in alloc; "no section is called `{word}`")?;
    Ok(Explanation {
        at: titled.at,
        message,
    })
}

fn sign_text(text: &[u8], at: usize) -> char {
    char::from(text.get(at).copied().unwrap_or(b'?'))
}

const TITLES: [&str; 5] = ["players", "pieces", "variables", "board", "rules"];

fn wrong_section(
    alloc: Global,
    text: &[u8],
    tokens: &[Placed<'_>],
) -> Result<Explanation, AllocError> {
    for title in TITLES {
        if let Some(at) = second_title(tokens, title) {
            let message = format!(in alloc; "the section #{title} stands twice")?;
            return Ok(Explanation { at, message });
        }
        if title != "variables" && !has_title(tokens, title) {
            let at = text.len();
            let message = format!(in alloc; "the section #{title} is missing")?;
            return Ok(Explanation { at, message });
        }
    }
    said(alloc, 0, "a section is missing or stands twice")
}

fn has_title(tokens: &[Placed<'_>], title: &str) -> bool {
    (1..tokens.len()).any(|place| is_title(tokens, place, title))
}

/// The byte of the `#` before the second of such titles.
fn second_title(tokens: &[Placed<'_>], title: &str) -> Option<usize> {
    let mut stood = false;
    for place in 1..tokens.len() {
        if is_title(tokens, place, title) {
            if stood {
                return Some(tokens[place - 1].at);
            }
            stood = true;
        }
    }
    None
}

fn is_title(tokens: &[Placed<'_>], place: usize, title: &str) -> bool {
    let behind_hash = place > 0 && is_sign(tokens, place - 1, Sign::Hash);
    match tokens.get(place) {
        Some(placed) => {
            behind_hash && matches!(placed.token, Token::Name(word) if word == title.as_bytes())
        }
        None => false,
    }
}

/// Whether the number that the digits write is over 1,000,000.
fn is_over(digits: &[u8]) -> bool {
    let mut number = 0u32;
    for digit in digits {
        let next = number * 10 + u32::from(digit.saturating_sub(b'0').min(9));
        number = u32::min(next, 1_000_001);
    }
    number > 1_000_000
}

fn large_number(alloc: Global, tokens: &[Placed<'_>]) -> Result<Explanation, AllocError> {
    for placed in tokens {
        if let Token::Number(digits) = placed.token
            && is_over(digits)
        {
            return said(alloc, placed.at, "this number is over 1,000,000");
        }
    }
    said(alloc, 0, "a number is over 1,000,000")
}

fn too_large(alloc: Global, tokens: &[Placed<'_>]) -> Result<Explanation, AllocError> {
    let mut depth = 0usize;
    for placed in tokens {
        if let Token::Sign(sign) = placed.token {
            match sign {
                Sign::OpenParen | Sign::OpenBracket | Sign::OpenBrace => {
                    depth = depth.saturating_add(1);
                }
                Sign::CloseParen | Sign::CloseBracket | Sign::CloseBrace => {
                    depth = depth.saturating_sub(1);
                }
                _ => {}
            }
            if depth > MAX_NESTING {
                return said(alloc, placed.at, "brackets nest deeper than 64");
            }
        }
    }
    too_many(alloc, tokens)
}

fn large_expression(alloc: Global, tokens: &[Placed<'_>]) -> Result<Explanation, AllocError> {
    for place in 1..tokens.len() {
        if is_title(tokens, place, "rules") {
            return said(
                alloc,
                tokens[place - 1].at,
                "an expression in the rules can grow past 2^62",
            );
        }
    }
    said(alloc, 0, "an expression can grow past 2^62")
}

fn switch_in_pattern(alloc: Global, tokens: &[Placed<'_>]) -> Result<Explanation, AllocError> {
    let mut walk = Walk::new(alloc);
    for place in 0..tokens.len() {
        let _mention = walk.step(tokens, place)?;
        let is_switch = is_sign(tokens, place, Sign::Arrow)
            || is_sign(tokens, place, Sign::DoubleArrow);
        if is_switch && walk.in_pattern() {
            return said(alloc, tokens[place].at, "a pattern may not have a switch");
        }
    }
    said(alloc, 0, "a pattern has a switch in it")
}
