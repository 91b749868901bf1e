//! What a look replies to its lines.

ghost use Rattle.std.specs.Prelude.{◌≡◌, ◌∷◌, ◌++◌, [], OnOk};
ghost use Rattle.std.specs.Io.KnownBytes.{Appends};
ghost use Rattle.solver.specs.Solvers.{state, IsReady};
ghost use Rattle.session_lines.specs.Answered.{IsDoneFor, IsReplied};
ghost use Rattle.session_lines.specs.Asked.{in_look};
ghost use Rattle.session_lines.specs.Moments.{noted_in};
ghost use Rattle.session_lines.specs.Parts.{IsPut};
ghost use Rattle.session_lines.specs.Replies.{pages_line};

use crate::advice::tell_look;
use crate::input::Asked;
use crate::moments::Moments;
use crate::questions::put_answer;
use game_file::GameFile;
use solver::FileSolver;
use std::alloc::Global;
use std::io::{self, Write};

/// Writes the reply of a look to a line at once, as `put_answer` does that of a session, and gives the exit status that
/// belongs to it. Whatever the line asks, the table is as it was: one that works or is about listings is answered
/// `usage`, and `told` gets a sentence about it. The moment at which the reply begins is noted.
pub fn put_looked<F: GameFile, W: Write, E: Write>(
    alloc: Global,
    solver: &mut FileSolver<F>,
    asked: Asked<'_>,
    out: &mut W,
    told: &mut E,
    moments: &mut Moments<FileSolver<F>, W>,
) -> io::Result<u8>
    ensures ready { IsReady solver.old → IsReady solver.new }
    ensures done { IsReady solver.old → IsDoneFor F.stores (in_look asked.entry) (state solver.old) (state solver.new) }
    ensures written { IsReady solver.old → IsPut (IsReplied F.stores (in_look asked.entry) (state solver.old) (state solver.new))
        (W.contents out.old) (W.contents out.new) result }
    ensures noted { noted_in moments.new ≡ noted_in moments.old ++ (solver.new, out.old) ∷ [] }
    ensures pages { asked.entry ≡ Asked.Pages → OnOk result (Appends (W.contents out.old) (W.contents out.new)
        (pages_line (state solver.old).capacity (F.free solver.old.file))) }
{
    match asked {
        Asked::Work(_) | Asked::Listing(_) => {
            tell_look(told);
            put_answer(alloc, solver, Asked::Usage, out, told, moments)
        }
        asked => put_answer(alloc, solver, asked, out, told, moments),
    }
}
