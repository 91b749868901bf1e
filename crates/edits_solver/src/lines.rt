//! What a line of a session asks for, and what is printed.
ghost use Rattle.std.specs.Prelude.{◌≡◌, ◌∷◌, [], ◌++◌, ℕ, List, false, IfOk, OnOk};
ghost use Rattle.std.specs.Io.KnownBytes.{Appends};
ghost use Rattle.std.specs.List.{flat_map};
ghost use Rattle.rbg_game.specs.Meaning.{game_of};
ghost use Rattle.legal_moves.specs.Moves.{start_of};
ghost use Rattle.session_lines.specs.Answers.{IsMovesAnswer, TellsMoves, TellsMovesAt};
ghost use Rattle.session_lines.specs.Parts.{IsTextWritten};
ghost use Rattle.session_lines.specs.Counted.{IsStatusLine};
ghost use Rattle.session_lines.specs.Moments.{noted_in};
ghost use Rattle.session_lines.specs.Replies.{row_line, value_text};
ghost use Rattle.solver.specs.Solvers.{state, IsReady};
ghost use Rattle.session_lines.specs.Answered.{IsReplied};
ghost use Rattle.session_lines.specs.Asked.{Asks};

use best_line::{Row, Value};
use game_file::GameFile;
use rbg_game::game::Game;
use rbg_game::roles::Player;
use retrograde::Counts;
use session_lines::input::{Asked, Line, Question};
use session_lines::moments::Moments;
use session_lines::{moves, questions, replies};
use solver::FileSolver;
use std::alloc::{AllocError, Global};
use std::io::{self, Write};

/// `line` of `Line::asked_last`.
pub fn asked_last(line: &Line) -> Asked<'_>
    ensures { line.now.is_too_long ≡ false → Asks line.now.bytes.items result }
{
    line.asked_last()
}

/// `written` of `put_answer`, of an output that does not fail.
pub fn put_answer<F: GameFile, W: Write, E: Write>(
    alloc: Global,
    solver: &mut FileSolver<F>,
    asked: Asked<'_>,
    out: &mut W,
    told: &mut E,
) -> io::Result<u8>
    ensures { IsReady solver.old → IfOk result (λ status. (line : List ℕ)
        × IsReplied F.stores asked.entry (state solver.old) (state solver.new) status line
        × Appends (W.contents out.old) (W.contents out.new) line) }
{
    questions::put_answer(alloc, solver, asked, out, told, &mut Moments::new())
}

/// `noted` of `put_answer`.
pub fn answer_noted<F: GameFile, W: Write, E: Write>(
    alloc: Global,
    solver: &mut FileSolver<F>,
    asked: Asked<'_>,
    out: &mut W,
    told: &mut E,
    moments: &mut Moments<FileSolver<F>, W>,
) -> io::Result<u8>
    ensures { noted_in moments.new ≡ noted_in moments.old ++ (solver.new, out.old) ∷ [] }
{
    questions::put_answer(alloc, solver, asked, out, told, moments)
}

/// The clause of `put_status`.
pub fn put_status<W: Write>(out: &mut W, counts: Option<Counts>) -> io::Result<()>
    ensures { OnOk result ((line : List ℕ) × IsStatusLine counts line × Appends (W.contents out.old) (W.contents out.new) line) }
{
    replies::put_status(out, counts)
}

/// The clause of `row_lines`.
pub fn row_lines(alloc: Global, game: &Game, rows: &[Row]) -> Result<Vec<u8>, AllocError>
    ensures { IfOk result (λ text. text.items ≡ flat_map (row_line (game_of game.now)) rows.now) }
{
    replies::row_lines(alloc, game, rows)
}

/// The clause of `value_line`.
pub fn value_line(alloc: Global, game: &Game, value: Value) -> Result<Vec<u8>, AllocError>
    ensures { IfOk result (λ line. line.items ≡ value_text (game_of game.now) value ++ 10 ∷ []) }
{
    replies::value_line(alloc, game, value)
}

/// The clause of `moves_to`.
pub fn moves_to<W: Write>(alloc: Global, text: &[u8], out: &mut W) -> u8
    ensures { IsTextWritten (IsMovesAnswer text.now (λ game. TellsMoves game (start_of game))) (W.contents out.old) (W.contents out.new)
        result }
{
    moves::moves_to(alloc, text, out)
}

/// The clause of `moves_at`.
pub fn moves_at<W: Write>(alloc: Global, text: &[u8], position: &[u8], out: &mut W) -> u8
    ensures { IsTextWritten (IsMovesAnswer text.now (λ game. TellsMovesAt game position.now)) (W.contents out.old) (W.contents out.new)
        result }
{
    moves::moves_at(alloc, text, position, out)
}
