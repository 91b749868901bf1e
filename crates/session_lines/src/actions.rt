//! The actions of a game's rules by their numbers.

ghost use Rattle.std.specs.Prelude.{◌≡◌};
ghost use Rattle.session_lines.specs.Answers.{IsMovesAnswer};
ghost use Rattle.session_lines.specs.Actions.{TellsActions};
ghost use Rattle.session_lines.specs.Parts.{IsTextWritten};

use crate::puts::put_line;
use crate::refusals::write_refused;
use numbered_actions::list::action_lines;
use solver::SolverFault;
use std::alloc::Global;
use std::io::Write;

/// Writes the numbered actions of the game that the text reads to, one a line; or `refused` and a code. Gives the exit status, which is 4
/// where the output failed.
pub fn actions_to<W: Write>(alloc: Global, text: &[u8], out: &mut W) -> u8
    ensures { IsTextWritten (IsMovesAnswer text.now (TellsActions text.now)) (W.contents out.old) (W.contents out.new) result }
{
    match action_lines(alloc, text) {
        Ok(lines) => put_actions(lines.as_slice(), out),
        Err(fault) => write_refused(SolverFault::Game(fault), out),
    }
}

/// Writes lines, and gives the status 0, or 4 where the output fails.
fn put_actions<W: Write>(lines: &[u8], out: &mut W) -> u8
    ensures { IsTextWritten (λ status text. (status ≡ 0) × (text ≡ lines.now)) (W.contents out.old) (W.contents out.new) result }
{
    match put_line(out, lines) {
        Ok(()) => 0,
        Err(_) => 4,
    }
}
