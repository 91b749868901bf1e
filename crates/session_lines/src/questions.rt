//! What a session replies to its lines.

ghost use Rattle.std.specs.Prelude.{◌≡◌, ◌∷◌, ◌++◌, [], ℕ, List, IfOk, IfErr, OnOk, OnErr};
ghost use Rattle.std.specs.Io.KnownBytes.{Appends};
ghost use Rattle.solver.specs.Faults.{status_of};
ghost use Rattle.solver.specs.Frames.{IsOnlyAsked};
ghost use Rattle.solver.specs.Machine.{work as work_on};
ghost use Rattle.solver.specs.Moves.{MovesCause};
ghost use Rattle.solver.specs.Runs.{IsTurnWithCause};
ghost use Rattle.solver.specs.Queries.{Tells, NumberCause, LineCause, ShowCause, FindCause};
ghost use Rattle.solver.specs.Solvers.{state, IsReady};
ghost use Rattle.solver.specs.Units.{units_in};
ghost use Rattle.session_lines.specs.Answered.{IsValueLine, IsValueLineOf, AreRowLines, AreMoveLines, IsPlayLine, IsShownLine, IsFoundLine};
ghost use Rattle.session_lines.specs.Answered.{IsAnswerTo, QuestionCause};
ghost use Rattle.session_lines.specs.Answered.{IsDoneFor, IsNoCall, IsReplied, IsTextOrRefusal, IsWorkReplied};
ghost use Rattle.session_lines.specs.Moments.{noted_in};
ghost use Rattle.session_lines.specs.Frames.{IsStillReady};
ghost use Rattle.session_lines.specs.Parts.{AppendsPart, IsPut};
ghost use Rattle.session_lines.specs.Replies.{pages_line};
ghost use Rattle.session_lines.specs.Told.{fault_line};

use crate::advice::{tell_fault, tell_full};
use crate::input::{Asked, Question};
use crate::known::known_move_lines;
use crate::moments::Moments;
use crate::puts::{put_line, put_refused, put_reply};
use crate::replies::{found_line, numbers_line, put_pages, put_status, row_lines, value_line};
use game_file::GameFile;
use line_syntax::help::LINES;
use solver::{Command, FileSolver, Reply, SolverFault, Units};
use std::alloc::Global;
use std::io::{self, Write};

/// Writes the reply to a line at once, and gives the exit status that belongs to it: 0, or that of the
/// refusal. A line without a word has no reply, and neither has `quit`. What a refusal means goes to `told`. A line about listings is
/// answered `usage`: a caller that has listings answers it by `put_listing`. The moment at which the reply begins is noted, and by then
/// the line's work is on the disk.
pub fn put_answer<F: GameFile, W: Write, E: Write>(
    alloc: Global,
    solver: &mut FileSolver<F>,
    asked: Asked<'_>,
    out: &mut W,
    told: &mut E,
    moments: &mut Moments<FileSolver<F>, W>,
) -> io::Result<u8>
    ensures left { IsStillReady solver.old solver.new }
    ensures done { IsReady solver.old → IsDoneFor F.stores asked.entry (state solver.old) (state solver.new) }
    ensures written { IsReady solver.old → IsPut (IsReplied F.stores asked.entry (state solver.old) (state solver.new))
        (W.contents out.old) (W.contents out.new) result }
    ensures noted { noted_in moments.new ≡ noted_in moments.old ++ (solver.new, out.old) ∷ [] }
    ensures pages { asked.entry ≡ Asked.Pages → OnOk result (Appends (W.contents out.old) (W.contents out.new)
        (pages_line (state solver.old).capacity (F.free solver.old.file))) }
{
    match asked {
        Asked::Work(units) => put_worked(solver, units, out, told, moments),
        Asked::Question(question) => {
            let answered = text_of(alloc, solver, question);
            moments.note(solver, out);
            put_text(answered, out, told)
        }
        asked => {
            moments.note(solver, out);
            put_plain(solver, asked, out, told)
        }
    }
}

/// Writes the reply to a line that neither works nor asks about positions.
fn put_plain<F: GameFile, W: Write, E: Write>(
    solver: &FileSolver<F>,
    asked: Asked<'_>,
    out: &mut W,
    told: &mut E,
) -> io::Result<u8>
    ensures replied { IsReady solver.now → IsNoCall asked.entry → IfOk result (λ status. (line : List ℕ)
        × IsReplied F.stores asked.entry (state solver.now) (state solver.now) status line
        × Appends (W.contents out.old) (W.contents out.new) line) }
    ensures untold { IsReady solver.now → IsNoCall asked.entry → OnErr result ((status : ℕ) × (line : List ℕ)
        × IsReplied F.stores asked.entry (state solver.now) (state solver.now) status line
        × AppendsPart (W.contents out.old) (W.contents out.new) line) }
    ensures pages { asked.entry ≡ Asked.Pages → OnOk result (Appends (W.contents out.old) (W.contents out.new)
        (pages_line (state solver.now).capacity (F.free solver.now.file))) }
{
    match asked {
        Asked::Nothing | Asked::Quit => Ok(0),
        Asked::Help => {
            let status = put_done(out, b"usage\n")?;
            let _told = writeln!(told, "{LINES}");
            Ok(status)
        }
        Asked::Status => {
            put_status(out, solver.status())?;
            Ok(0)
        }
        Asked::Pages => {
            put_pages(out, solver.capacity(), solver.free_pages())?;
            Ok(0)
        }
        Asked::Game => match solver.text() {
            Some(text) => put_done(out, text),
            None => put_fault(SolverFault::NoGame, out, told),
        },
        _ => put_done(out, b"usage\n"),
    }
}

/// Writes a line at once that is no refusal.
pub fn put_done<W: Write>(out: &mut W, line: &[u8]) -> io::Result<u8>
    ensures status { IfOk result (λ status. status ≡ 0) }
    ensures line { OnOk result (Appends (W.contents out.old) (W.contents out.new) line.now) }
    ensures part { OnErr result (AppendsPart (W.contents out.old) (W.contents out.new) line.now) }
{
    put_line(out, line)?;
    Ok(0)
}

/// Writes a refusal, and gives its status.
pub fn put_fault<W: Write, E: Write>(
    fault: SolverFault,
    out: &mut W,
    told: &mut E,
) -> io::Result<u8>
    ensures status { IfOk result (λ status. status ≡ status_of fault) }
    ensures line { OnOk result (Appends (W.contents out.old) (W.contents out.new) (fault_line fault)) }
    ensures part { OnErr result (AppendsPart (W.contents out.old) (W.contents out.new) (fault_line fault)) }
{
    put_refused(out, fault)?;
    tell_fault(told, fault);
    Ok(fault.status())
}

/// Writes the text that was asked for, or the refusal, and gives its status.
pub(crate) fn put_text<W: Write, E: Write>(
    answered: Result<Vec<u8>, SolverFault>,
    out: &mut W,
    told: &mut E,
) -> io::Result<u8>
    ensures written { IfOk result (λ status. (line : List ℕ) × IsTextOrRefusal answered status line
        × Appends (W.contents out.old) (W.contents out.new) line) }
    ensures part { OnErr result ((status : ℕ) × (line : List ℕ) × IsTextOrRefusal answered status line
        × AppendsPart (W.contents out.old) (W.contents out.new) line) }
{
    match answered {
        Ok(text) => put_done(out, &text),
        Err(fault) => put_fault(fault, out, told),
    }
}

/// Works, notes the moment, and writes the reply.
fn put_worked<F: GameFile, W: Write, E: Write>(
    solver: &mut FileSolver<F>,
    units: Units,
    out: &mut W,
    told: &mut E,
    moments: &mut Moments<FileSolver<F>, W>,
) -> io::Result<u8>
    ensures left { IsStillReady solver.old solver.new }
    ensures done { IsReady solver.old
        → (reply : Reply) × IsTurnWithCause F.stores (work_on (units_in units)) reply (state solver.old) (state solver.new) }
    ensures worked { IsReady solver.old → IfOk result (λ status. (line : List ℕ)
        × IsWorkReplied F.stores (units_in units) (state solver.old) (state solver.new) status line
        × Appends (W.contents out.old) (W.contents out.new) line) }
    ensures untold { IsReady solver.old → OnErr result ((status : ℕ) × (line : List ℕ)
        × IsWorkReplied F.stores (units_in units) (state solver.old) (state solver.new) status line
        × AppendsPart (W.contents out.old) (W.contents out.new) line) }
    ensures noted { noted_in moments.new ≡ noted_in moments.old ++ (solver.new, out.old) ∷ [] }
{
    let reply = solver.answer(&Command::Work(units));
    moments.note(solver, out);
    match reply {
        Reply::Refused(SolverFault::TableFull) => {
            put_refused(out, SolverFault::TableFull)?;
            tell_full(told, solver.capacity());
            Ok(SolverFault::TableFull.status())
        }
        Reply::Refused(fault) => put_fault(fault, out, told),
        reply => {
            put_reply(out, reply)?;
            Ok(0)
        }
    }
}

/// The text that answers a question, in whole lines.
fn text_of<F: GameFile>(
    alloc: Global,
    solver: &mut FileSolver<F>,
    question: Question<'_>,
) -> Result<Vec<u8>, SolverFault>
    ensures left { IsOnlyAsked solver.old solver.new }
    ensures text { IsReady solver.old → IfOk result (λ text. Tells (IsAnswerTo question.entry text.items) (state solver.old)) }
    ensures cause { IsReady solver.old → IfErr result (QuestionCause question.entry (state solver.old) (state solver.new)) }
{
    match question {
        Question::Value(number) => value_of(alloc, solver, number),
        Question::ValueOf(text) => value_found(alloc, solver, text),
        Question::List(from, count) => rows_of(alloc, solver, from, count),
        Question::Line(number) => play_of(alloc, solver, number),
        Question::Moves(number) => moves_of(alloc, solver, number),
        Question::Show(number) => shown(solver, number),
        Question::Find(text) => found(alloc, solver, text),
    }
}

/// The line of a position's value.
fn value_of<F: GameFile>(
    alloc: Global,
    solver: &mut FileSolver<F>,
    number: u32,
) -> Result<Vec<u8>, SolverFault>
    ensures left { IsOnlyAsked solver.old solver.new }
    ensures text { IsReady solver.old → IfOk result (λ text. Tells (IsValueLine number text.items) (state solver.old)) }
    ensures cause { IsReady solver.old → IfErr result (NumberCause number (state solver.old) (state solver.new)) }
{
    let value = solver.value(number)?;
    Ok(value_line(alloc, solver.needs_game()?, value)?)
}

/// The line of the value of the position with this text.
fn value_found<F: GameFile>(
    alloc: Global,
    solver: &mut FileSolver<F>,
    text: &[u8],
) -> Result<Vec<u8>, SolverFault>
    ensures left { IsOnlyAsked solver.old solver.new }
    ensures text { IsReady solver.old → IfOk result (λ line. Tells (IsValueLineOf text.now line.items) (state solver.old)) }
    ensures cause { IsReady solver.old → IfErr result (FindCause text.now (state solver.old) (state solver.new)) }
{
    let value = solver.find_value(text)?;
    Ok(value_line(alloc, solver.needs_game()?, value)?)
}

/// The lines of a list.
fn rows_of<F: GameFile>(
    alloc: Global,
    solver: &mut FileSolver<F>,
    from: u32,
    count: Units,
) -> Result<Vec<u8>, SolverFault>
    ensures left { IsOnlyAsked solver.old solver.new }
    ensures text { IsReady solver.old → IfOk result (λ text. Tells (AreRowLines from (units_in count) text.items) (state solver.old)) }
    ensures cause { IsReady solver.old → IfErr result (NumberCause from (state solver.old) (state solver.new)) }
{
    let rows = solver.list(from, count)?;
    Ok(row_lines(alloc, solver.needs_game()?, &rows)?)
}

/// The lines of a position's moves, the best first for who has the turn.
fn moves_of<F: GameFile>(
    alloc: Global,
    solver: &mut FileSolver<F>,
    number: u32,
) -> Result<Vec<u8>, SolverFault>
    ensures left { IsOnlyAsked solver.old solver.new }
    ensures text { IsReady solver.old → IfOk result (λ text. Tells (AreMoveLines number text.items) (state solver.old)) }
    ensures cause { IsReady solver.old → IfErr result (MovesCause number (state solver.old) (state solver.new)) }
{
    let known = solver.moves(number)?;
    let sorted = known.into_best_first()?;
    Ok(known_move_lines(alloc, solver.needs_game()?, &sorted)?)
}

/// The line of a best line's numbers.
fn play_of<F: GameFile>(
    alloc: Global,
    solver: &mut FileSolver<F>,
    number: u32,
) -> Result<Vec<u8>, SolverFault>
    ensures left { IsOnlyAsked solver.old solver.new }
    ensures text { IsReady solver.old → IfOk result (λ text. Tells (IsPlayLine number text.items) (state solver.old)) }
    ensures cause { IsReady solver.old → IfErr result (LineCause number (state solver.old) (state solver.new)) }
{
    let numbers = solver.line(number)?;
    Ok(numbers_line(alloc, &numbers)?)
}

/// The line of a position's text.
fn shown<F: GameFile>(solver: &mut FileSolver<F>, number: u32) -> Result<Vec<u8>, SolverFault>
    ensures left { IsOnlyAsked solver.old solver.new }
    ensures text { IsReady solver.old → IfOk result (λ text. Tells (IsShownLine number text.items) (state solver.old)) }
    ensures cause { IsReady solver.old → IfErr result (ShowCause number (state solver.old) (state solver.new)) }
{
    let mut line = solver.show(number)?;
    line.push(b'\n')?;
    Ok(line)
}

/// The line of the number of the position with this text.
fn found<F: GameFile>(
    alloc: Global,
    solver: &mut FileSolver<F>,
    text: &[u8],
) -> Result<Vec<u8>, SolverFault>
    ensures left { IsOnlyAsked solver.old solver.new }
    ensures text { IsReady solver.old → IfOk result (λ line. Tells (IsFoundLine text.now line.items) (state solver.old)) }
    ensures cause { IsReady solver.old → IfErr result (FindCause text.now (state solver.old) (state solver.new)) }
{
    let number = solver.find(text)?;
    Ok(found_line(alloc, number)?)
}
