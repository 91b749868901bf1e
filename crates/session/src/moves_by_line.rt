//! The moves of positions whose texts stand on an input, one a line.
ghost use Rattle.std.specs.Prelude.{◌≡◌, ◌<◌, ◌≤◌, ◌∷◌, ◌++◌, [], ℕ, List, None, Option, Some};
ghost use Rattle.std.specs.Io.KnownBytes.{Consumes, IsAtEnd};
ghost use Rattle.legal_moves.specs.Compiled.{compiled_game};
ghost use Rattle.session_lines.specs.Asked.{IsBare};
ghost use Rattle.session_lines.specs.Parts.{IsTextWritten};
ghost use Rattle.session.specs.ByLine.{AnswersPosition, AreMovesByLine, ArePositionsUnderWay, GoesOnByLine};
ghost use Rattle.session.specs.ByLine.{HasTaken, TellsPosition};

use crate::position_line::PositionLine;
use session_lines::puts::put_line;
use session_lines::refusals::write_refused;
use session_lines::rulebook::Rulebook;
use solver::SolverFault;
use std::alloc::Global;
use std::io::{ErrorKind, Read, Write};

/// Writes the moves of the position on each line of the input, or why they are not told, and then an empty line, before the next line
/// is read. Gives the exit status: 0 at the end of the input, 4 where the input or the output failed, 5 where memory ran out.
pub fn moves_by_line<R: Read, W: Write>(
    alloc: Global,
    book: &Rulebook,
    input: &mut R,
    out: &mut W,
) -> u8
    ensures { (bytes : List ℕ) × Consumes (R.remaining input.old) (R.remaining input.new) bytes
        × AreMovesByLine (compiled_game book.now) bytes (R.remaining input.new) (W.contents out.old) (W.contents out.new) result }
{
    let mut line = PositionLine::new(alloc);
    let mut chunk = [0; 4096];
    // An input that gave a byte in each turn would be read for longer than any machine runs.
    for _turn in 0..u64::MAX {
        let count = match input.read(&mut chunk) {
            Ok(0) => return put_last(alloc, book, &line, out),
            Ok(count) => count,
            Err(error) if error.kind() == ErrorKind::Interrupted => continue,
            Err(_) => return 4,
        };
        if let Some(status) = put_chunk(alloc, book, &mut line, &chunk[..count], out) {
            return status;
        }
    }
    4
}

/// Answers the lines that end in these bytes, and keeps what stands after the last of them. Gives the status where the answers end.
fn put_chunk<W: Write>(
    alloc: Global,
    book: &Rulebook,
    line: &mut PositionLine,
    chunk: &[u8],
    out: &mut W,
) -> Option<u8>
    ensures { (bytes : List ℕ) (before : Option (List ℕ))
        → ArePositionsUnderWay (compiled_game book.now) bytes before line.old (W.contents out.old)
        → GoesOnByLine (compiled_game book.now) (bytes ++ chunk.now) before line.new (W.contents out.new) result }
{
    for byte in chunk {
        let ended = put_byte(alloc, book, line, *byte, out);
        if ended.is_some() {
            return ended;
        }
    }
    None
}

/// Puts a byte to the line, or answers the line that it ends.
fn put_byte<W: Write>(
    alloc: Global,
    book: &Rulebook,
    line: &mut PositionLine,
    byte: u8,
    out: &mut W,
) -> Option<u8>
    ensures { (bytes : List ℕ) (before : Option (List ℕ))
        → ArePositionsUnderWay (compiled_game book.now) bytes before line.old (W.contents out.old)
        → GoesOnByLine (compiled_game book.now) (bytes ++ byte ∷ []) before line.new (W.contents out.new) result }
{
    if byte != b'\n' {
        return match line.push(byte) {
            Ok(()) => None,
            Err(_) => Some(write_refused(SolverFault::OutOfMemory, out)),
        };
    }
    let status = put_moves_of(alloc, book, line, out);
    line.clear();
    ended_with(status)
}

/// Answers the last line, if the input ended within one.
fn put_last<W: Write>(alloc: Global, book: &Rulebook, line: &PositionLine, out: &mut W) -> u8
    ensures { (bytes : List ℕ) (before left : Option (List ℕ))
        → ArePositionsUnderWay (compiled_game book.now) bytes before line.now (W.contents out.old) → IsAtEnd left
        → AreMovesByLine (compiled_game book.now) bytes left before (W.contents out.new) result }
{
    if line.is_empty() {
        return 0;
    }
    let status = put_moves_of(alloc, book, line, out);
    if status > 1 { status } else { 0 }
}

/// Writes the moves of the position on the line, or why they are not told, and an empty line. Gives the status of what is told, which
/// is 4 where the output failed.
fn put_moves_of<W: Write>(alloc: Global, book: &Rulebook, line: &PositionLine, out: &mut W) -> u8
    ensures { (bytes : List ℕ) → HasTaken line.now bytes
        → IsTextWritten (AnswersPosition (compiled_game book.now) bytes) (W.contents out.old) (W.contents out.new) result }
{
    let status = put_answer(alloc, book, line, out);
    if status == 4 {
        return 4;
    }
    match put_line(out, b"\n") {
        Ok(()) => status,
        Err(_) => 4,
    }
}

/// Writes the moves of the position on this line, without the empty line behind them.
fn put_answer<W: Write>(alloc: Global, book: &Rulebook, line: &PositionLine, out: &mut W) -> u8
    ensures { (bytes : List ℕ) → HasTaken line.now bytes
        → IsTextWritten (TellsPosition (compiled_game book.now) bytes) (W.contents out.old) (W.contents out.new) result }
{
    if line.is_too_long {
        return write_refused(SolverFault::BadPosition, out);
    }
    book.put_moves_at(alloc, without_return(line.bytes.as_slice()), out)
}

/// The line without a CR at its end.
fn without_return(line: &[u8]) -> &[u8]
    ensures { IsBare line.now result.now }
{
    match line {
        [bare @ .., b'\r'] => bare,
        bare => bare,
    }
}

/// The status where the answers end with it: a refusal by more than 1, and 4 where the output failed.
fn ended_with(status: u8) -> Option<u8>
    ensures high { 1 < status → result ≡ Some status }
    ensures low { status ≤ 1 → result ≡ None }
{
    (status > 1).then_some(status)
}
