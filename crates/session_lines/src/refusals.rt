//! The line of a refusal, with its exit status.

ghost use Rattle.session_lines.specs.Answers.{TellsRefusal};
ghost use Rattle.session_lines.specs.Parts.{IsTextWritten};

use crate::puts::put_refused;
use solver::SolverFault;
use std::io::Write;

/// Writes `refused` with the code, and gives the status that goes with it, or 4 where the output fails.
pub fn write_refused<W: Write>(fault: SolverFault, out: &mut W) -> u8
    ensures { IsTextWritten (TellsRefusal fault) (W.contents out.old) (W.contents out.new) result }
{
    match put_refused(out, fault) {
        Ok(()) => fault.status(),
        Err(_) => 4,
    }
}
