//! Places in a text for people, and tokens in one line.

ghost use Rattle.std.specs.Prelude.{◌≡◌, ◌++◌, ◌<◌, ◌≤◌, ◌+◌, IfOk};
ghost use Rattle.std.specs.List.{flat_map};
ghost use Rattle.numbered_actions.specs.Listed.{place_of, behind_byte, one_line};
ghost use Rattle.numbered_actions.specs.lemmas.Lines.{with_gap};

use crate::lexemes::Lexeme;
use std::alloc::{AllocError, Global};

/// A line and a column, each from 1; a column is a byte of its line.
#[derive(Clone, Copy)]
pub struct LineColumn {
    pub line: usize,
    pub column: usize,
}

/// The line and the column of the byte after this many others, or of the end of a shorter text.
pub fn line_column(text: &[u8], at: usize) -> LineColumn
    ensures { result ≡ place_of text.now at }
{
    let before = &text[..at.min(text.len())];
    let mut place = LineColumn { line: 1, column: 1 };
    for byte in before {
        place = behind(place, *byte);
    }
    place
}

/// The place after a byte that stands at this one.
fn behind(place: LineColumn, byte: u8) -> LineColumn
    requires line { place.line < usize.MAX }
    requires column { place.column < usize.MAX }
    ensures place { result ≡ behind_byte place byte }
    ensures line { result.line ≤ place.line + 1 }
    ensures column { result.column ≤ place.column + 1 }
{
    if byte == b'\n' {
        LineColumn {
            line: place.line + 1,
            column: 1,
        }
    } else {
        LineColumn {
            line: place.line,
            column: place.column + 1,
        }
    }
}

/// Puts tokens after a line, each with what stands before it.
pub(crate) fn put_tokens(line: &mut Vec<u8>, tokens: &[Lexeme<'_>]) -> Result<(), AllocError>
    ensures { IfOk result (λ _. line.new.items ≡ line.old.items ++ flat_map with_gap tokens.now) }
{
    for token in tokens {
        put_gap(line, token.gap)?;
        line.extend_from_slice(token.bytes)?;
    }
    Ok(())
}

/// Puts what stands between two tokens after a line, or one blank where a line ends there.
fn put_gap(line: &mut Vec<u8>, gap: &[u8]) -> Result<(), AllocError>
    ensures { IfOk result (λ _. line.new.items ≡ line.old.items ++ one_line gap.now) }
{
    if gap.contains(&b'\n') {
        line.push(b' ').map_err(AllocError::from)
    } else {
        line.extend_from_slice(gap)
    }
}
