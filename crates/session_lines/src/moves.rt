//! The moves of a position of a game, whose text is given.

ghost use Rattle.legal_moves.specs.Moves.{start_of};
ghost use Rattle.session_lines.specs.Answers.{IsMovesAnswer, TellsMoves, TellsMovesAt};
ghost use Rattle.session_lines.specs.Parts.{IsTextWritten};

use crate::refusals::write_refused;
use crate::rulebook::Rulebook;
use std::alloc::Global;
use std::io::Write;

/// Writes the moves of the start of the game that the text reads to, one a line; `ended` where
/// there is none; or `refused` and a code. Gives the exit status, which is 4 where the output failed.
pub fn moves_to<W: Write>(alloc: Global, text: &[u8], out: &mut W) -> u8
    ensures { IsTextWritten (IsMovesAnswer text.now (λ game. TellsMoves game (start_of game))) (W.contents out.old) (W.contents out.new)
        result }
{
    match Rulebook::read(alloc, text) {
        Ok(book) => book.put_start_moves(alloc, out),
        Err(fault) => write_refused(fault, out),
    }
}

/// Writes the moves of the position with this text, of the game that the text reads to, as `moves_to` does those of the start; or
/// `refused S10` where it is the text of no position of the game.
pub fn moves_at<W: Write>(alloc: Global, text: &[u8], position: &[u8], out: &mut W) -> u8
    ensures { IsTextWritten (IsMovesAnswer text.now (λ game. TellsMovesAt game position.now)) (W.contents out.old) (W.contents out.new)
        result }
{
    match Rulebook::read(alloc, text) {
        Ok(book) => book.put_moves_at(alloc, position, out),
        Err(fault) => write_refused(fault, out),
    }
}
