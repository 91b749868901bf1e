//! A session: commands as lines on an input, each with its reply.
ghost use Rattle.std.specs.Prelude.{◌≡◌, ℕ, List, [], ◌∷◌, ◌++◌, IsTrue};
ghost use Rattle.std.specs.Io.KnownBytes.{Consumes};
ghost use Rattle.solver.specs.Solvers.{state, IsReady};
ghost use Rattle.session.specs.Commands.{IsPrinted, refused as refused_for};
ghost use Rattle.session.specs.Cut.{HasRead};
ghost use Rattle.session.specs.Seen.{Seen, seen};
ghost use Rattle.session.specs.Sessions.{SessionState, OutcomeOf, IsUnderWay, Continues, IsSession, AsItIs, WithEnd};
ghost use Rattle.session.specs.Sessions.{first_state, session_state, IsSessionOver};
ghost use Rattle.session.specs.declared.line_by_line.Lines.TheVariants.{Session, Look};

use crate::dialogue::{Dialogue, Manner, answer, begun, give_back};
use crate::told::said_refused;
use game_file::Versions;
use session_lines::advice::tell_fault;
use session_lines::moments::Moments;
use solver::{FileSolver, SolverFault};
use std::alloc::Global;
use std::io::{ErrorKind, Read, Write};

/// Which lines are taken.
#[derive(Clone, Copy, PartialEq, Eq, Drop)]
pub enum Lines {
    /// All lines of a session.
    Session,
    /// Those that ask alone: nothing is written to the disk.
    Look,
}

/// Answers each line of the input, on the table of this disk, as a file of whichever layout, before the next line is
/// read. Gives the exit status, which is 4 where the input or the output failed, and the disk. What a refusal means
/// goes to `told`, whether or not it arrives. The moment at which each reply begins is noted: what its line does is
/// done then. However the session ends, the listings that are open are given back first.
pub fn session_over<F: Versions, R: Read, W: Write, E: Write>(
    alloc: Global,
    disk: F::Device,
    input: &mut R,
    out: &mut W,
    told: &mut E,
    moments: &mut Moments<FileSolver<F>, W>,
) -> (u8, F::Device)
    ensures { IsTrue (F.Device.disk disk).honest → (bytes : List ℕ)
        × Consumes (R.remaining input.old) (R.remaining input.new) bytes
        × IsSessionOver F.stores F.state F.is_version F.are_two F.is_used_up F.lasts Session (F.Device.disk disk)
        (F.Device.failures disk) bytes (R.remaining input.new) (seen state W.contents out.old moments.old)
        (seen state W.contents out.new moments.new) result.0 (F.Device.disk result.1) (F.Device.failures result.1) }
{
    lines_over::<F, R, W, E>(alloc, disk, Lines::Session, input, out, told, moments)
}

/// Answers each line of a look, as `session_over` does those of a session; nothing is written to the disk.
pub fn look_over<F: Versions, R: Read, W: Write, E: Write>(
    alloc: Global,
    disk: F::Device,
    input: &mut R,
    out: &mut W,
    told: &mut E,
    moments: &mut Moments<FileSolver<F>, W>,
) -> (u8, F::Device)
    ensures { IsTrue (F.Device.disk disk).honest → (bytes : List ℕ)
        × Consumes (R.remaining input.old) (R.remaining input.new) bytes
        × IsSessionOver F.stores F.state F.is_version F.are_two F.is_used_up F.lasts Look (F.Device.disk disk)
        (F.Device.failures disk) bytes (R.remaining input.new) (seen state W.contents out.old moments.old)
        (seen state W.contents out.new moments.new) result.0 (F.Device.disk result.1) (F.Device.failures result.1) }
{
    lines_over::<F, R, W, E>(alloc, disk, Lines::Look, input, out, told, moments)
}

/// Answers each line of a session or of a look, as `lines` says, on the table of this disk.
pub fn lines_over<F: Versions, R: Read, W: Write, E: Write>(
    alloc: Global,
    disk: F::Device,
    lines: Lines,
    input: &mut R,
    out: &mut W,
    told: &mut E,
    moments: &mut Moments<FileSolver<F>, W>,
) -> (u8, F::Device)
    ensures { IsTrue (F.Device.disk disk).honest → (bytes : List ℕ)
        × Consumes (R.remaining input.old) (R.remaining input.new) bytes
        × IsSessionOver F.stores F.state F.is_version F.are_two F.is_used_up F.lasts lines (F.Device.disk disk)
        (F.Device.failures disk) bytes (R.remaining input.new) (seen state W.contents out.old moments.old)
        (seen state W.contents out.new moments.new) result.0 (F.Device.disk result.1) (F.Device.failures result.1) }
{
    match FileSolver::<F>::open(alloc, disk) {
        Ok(mut solver) => {
            let status = lines_on::<F, R, W, E>(
                alloc,
                &mut solver,
                lines,
                input,
                out,
                told,
                moments,
            );
            (status, solver.close())
        }
        Err(refused) => (refuse(refused.fault, out, told), refused.disk),
    }
}

/// Answers each line of a session or of a look, as `lines` says, on a table that is open, and stays so.
pub fn lines_on<F: Versions, R: Read, W: Write, E: Write>(
    alloc: Global,
    solver: &mut FileSolver<F>,
    lines: Lines,
    input: &mut R,
    out: &mut W,
    told: &mut E,
    moments: &mut Moments<FileSolver<F>, W>,
) -> u8
    ensures ready { IsReady solver.old → IsReady solver.new }
    ensures honest { IsReady solver.old → IsTrue (state solver.old).disk.honest → IsTrue (state solver.new).disk.honest }
    ensures came { IsReady solver.old → IsTrue (state solver.old).disk.honest
        → (bytes : List ℕ) × (ends : SessionState F F.Version)
        × Consumes (R.remaining input.old) (R.remaining input.new) bytes
        × IsSession F.stores F.state F.is_version F.are_two F.is_used_up F.lasts
        bytes (first_state solver.old.file lines) ends (R.remaining input.new)
        (seen state W.contents out.old moments.old) (seen state W.contents out.new moments.new) result
        × (state solver.new ≡ F.state ends.file) }
{
    let mut dialogue = begun(alloc, lines);
    let status = answer_all(&mut dialogue, solver, input, out, told, moments);
    let Dialogue {
        manner,
        alloc: _alloc,
        line: _line,
    } = dialogue;
    match manner {
        Manner::Work(listings) => give_back(solver, listings),
        Manner::Look => {}
    }
    status
}

/// Writes a refusal that ends the session, and gives its status, or 4 where the output fails.
fn refuse<W: Write, E: Write>(fault: SolverFault, out: &mut W, told: &mut E) -> u8
    ensures { IsPrinted (W.contents out.old) (W.contents out.new) (refused_for fault) result }
{
    let outcome = said_refused(out, fault);
    tell_fault(told, fault);
    outcome.status
}

/// Answers line by line up to `quit`, the end of the input, or a refusal that ends the session.
fn answer_all<F: Versions, R: Read, W: Write, E: Write>(
    dialogue: &mut Dialogue<F::Version>,
    solver: &mut FileSolver<F>,
    input: &mut R,
    out: &mut W,
    told: &mut E,
    moments: &mut Moments<FileSolver<F>, W>,
) -> u8
    ensures ready { IsReady solver.old → IsReady solver.new }
    ensures honest { IsReady solver.old → IsTrue (state solver.old).disk.honest
        → IsTrue (state solver.new).disk.honest }
    ensures came { IsReady solver.old → IsTrue (state solver.old).disk.honest → HasRead dialogue.old.line []
        → (bytes : List ℕ) × Consumes (R.remaining input.old) (R.remaining input.new) bytes
        × IsSession F.stores F.state F.is_version F.are_two F.is_used_up F.lasts
        bytes (session_state solver.old.file dialogue.old.manner) (session_state solver.new.file dialogue.new.manner)
        (R.remaining input.new)
        (seen state W.contents out.old moments.old) (seen state W.contents out.new moments.new) result }
{
    let mut chunk = [0; 4096];
    // An input that gave a byte in each turn would be read for longer than any machine runs.
    for _turn in 0..u64::MAX {
        let count = match input.read(&mut chunk) {
            Ok(0) => {
                let ended = answer_last(dialogue, solver, out, told, moments);
                return ended.unwrap_or(0);
            }
            Ok(count) => count,
            Err(error) if error.kind() == ErrorKind::Interrupted => continue,
            Err(_) => return 4,
        };
        let bytes = &chunk[..count];
        if let Some(status) = answer_chunk(dialogue, solver, bytes, out, told, moments) {
            return status;
        }
    }
    4
}

/// Answers the lines that end in these bytes, and keeps what stands after the last of them. Gives the status where the
/// session ends.
fn answer_chunk<F: Versions, W: Write, E: Write>(
    dialogue: &mut Dialogue<F::Version>,
    solver: &mut FileSolver<F>,
    chunk: &[u8],
    out: &mut W,
    told: &mut E,
    moments: &mut Moments<FileSolver<F>, W>,
) -> Option<u8>
    ensures ready { IsReady solver.old → IsReady solver.new }
    ensures honest { IsReady solver.old → IsTrue (state solver.old).disk.honest
        → IsTrue (state solver.new).disk.honest }
    ensures came { IsReady solver.old → IsTrue (state solver.old).disk.honest
        → (bytes : List ℕ) (begins : SessionState F F.Version) (before : Seen)
        → IsUnderWay F.stores F.state F.is_version F.are_two F.is_used_up F.lasts bytes begins before
        (session_state solver.old.file dialogue.old.manner) dialogue.old.line
        (seen state W.contents out.old moments.old)
        → Continues F.stores F.state F.is_version F.are_two F.is_used_up F.lasts (bytes ++ chunk.now) begins before
        (session_state solver.new.file dialogue.new.manner) dialogue.new.line
        (seen state W.contents out.new moments.new) result }
{
    for byte in chunk {
        let ended = answer_byte(dialogue, solver, *byte, out, told, moments);
        if ended.is_some() {
            return ended;
        }
    }
    None
}

/// Puts a byte to the line, or answers the line that it ends.
fn answer_byte<F: Versions, W: Write, E: Write>(
    dialogue: &mut Dialogue<F::Version>,
    solver: &mut FileSolver<F>,
    byte: u8,
    out: &mut W,
    told: &mut E,
    moments: &mut Moments<FileSolver<F>, W>,
) -> Option<u8>
    ensures ready { IsReady solver.old → IsReady solver.new }
    ensures honest { IsReady solver.old → IsTrue (state solver.old).disk.honest
        → IsTrue (state solver.new).disk.honest }
    ensures came { IsReady solver.old → IsTrue (state solver.old).disk.honest
        → (bytes : List ℕ) (begins : SessionState F F.Version) (before : Seen)
        → IsUnderWay F.stores F.state F.is_version F.are_two F.is_used_up F.lasts bytes begins before
        (session_state solver.old.file dialogue.old.manner) dialogue.old.line
        (seen state W.contents out.old moments.old)
        → Continues F.stores F.state F.is_version F.are_two F.is_used_up F.lasts (bytes ++ byte ∷ []) begins before
        (session_state solver.new.file dialogue.new.manner) dialogue.new.line
        (seen state W.contents out.new moments.new) result }
{
    if byte != b'\n' {
        return match dialogue.line.push(byte) {
            Ok(()) => None,
            Err(_) => Some(refuse(SolverFault::OutOfMemory, out, told)),
        };
    }
    let ended = answer_ended(dialogue, solver, out, told, moments);
    dialogue.line.clear();
    ended
}

/// Writes the reply to a line that LF has ended. Gives the status where the session ends with it.
fn answer_ended<F: Versions, W: Write, E: Write>(
    dialogue: &mut Dialogue<F::Version>,
    solver: &mut FileSolver<F>,
    out: &mut W,
    told: &mut E,
    moments: &mut Moments<FileSolver<F>, W>,
) -> Option<u8>
    ensures ready { IsReady solver.old → IsReady solver.new }
    ensures honest { IsReady solver.old → IsTrue (state solver.old).disk.honest
        → IsTrue (state solver.new).disk.honest }
    ensures came { IsReady solver.old → IsTrue (state solver.old).disk.honest → (bytes : List ℕ)
        → HasRead dialogue.old.line bytes
        → OutcomeOf F.stores F.state F.is_version F.are_two F.is_used_up F.lasts WithEnd bytes
        (session_state solver.old.file dialogue.old.manner) (session_state solver.new.file dialogue.new.manner)
        (seen state W.contents out.old moments.old) (seen state W.contents out.new moments.new) result }
{
    let asked = dialogue.line.asked();
    answer(
        dialogue.alloc,
        solver,
        &mut dialogue.manner,
        asked,
        out,
        told,
        moments,
    )
}

/// Writes the reply to the line with which the input ends. Gives the status where it ends the session.
fn answer_last<F: Versions, W: Write, E: Write>(
    dialogue: &mut Dialogue<F::Version>,
    solver: &mut FileSolver<F>,
    out: &mut W,
    told: &mut E,
    moments: &mut Moments<FileSolver<F>, W>,
) -> Option<u8>
    ensures ready { IsReady solver.old → IsReady solver.new }
    ensures honest { IsReady solver.old → IsTrue (state solver.old).disk.honest
        → IsTrue (state solver.new).disk.honest }
    ensures came { IsReady solver.old → IsTrue (state solver.old).disk.honest → (bytes : List ℕ)
        → HasRead dialogue.old.line bytes
        → OutcomeOf F.stores F.state F.is_version F.are_two F.is_used_up F.lasts AsItIs bytes
        (session_state solver.old.file dialogue.old.manner) (session_state solver.new.file dialogue.new.manner)
        (seen state W.contents out.old moments.old) (seen state W.contents out.new moments.new) result }
{
    let asked = dialogue.line.asked_last();
    answer(
        dialogue.alloc,
        solver,
        &mut dialogue.manner,
        asked,
        out,
        told,
        moments,
    )
}
