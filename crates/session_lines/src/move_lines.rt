//! The lines of a position's moves, written one after the other.

ghost use Rattle.std.specs.Prelude.{◌≡◌, ◌<◌, ℕ, List, All, OnOk, IfOk, IfErr, IfSome, length, slice_get};
ghost use Rattle.std.specs.Io.KnownBytes.{Appends};
ghost use Rattle.rbg_game.specs.Positions.{IsPositionOf};
ghost use Rattle.legal_moves.specs.Compiled.{compiled_game, IsSoundCompiled};
ghost use Rattle.session_lines.specs.Lines.{IsMoveLine, AreLinesOfMoves};
ghost use Rattle.session_lines.specs.lemmas.Lines.{HasPosition, SaysMoves};
ghost use Rattle.session_lines.specs.Answers.{TellsMoves};
ghost use Rattle.session_lines.specs.lemmas.Stops.{IsStoppedLine, IsStopped};
ghost use Rattle.session_lines.specs.Parts.{AppendsPart};

use crate::lines::move_line;
use crate::puts::put_bytes;
use legal_moves::compiled::Compiled;
use legal_moves::fault::MoveFault;
use legal_moves::moves::Moves;
use position_pack::{Packing, PackingKind};
use rbg_game::position::Position;
use solver::SolverFault;
use std::alloc::{AllocError, Global};
use std::io::{self, Write};

/// Why not all was written.
#[derive(Drop)]
pub enum Stop {
    Refused(SolverFault),
    /// The output failed.
    Output,
}

impl From<io::Error> for Stop {
    ghost use Rattle.std.specs.Prelude.{◌≡◌};
    ghost use Rattle.session_lines.specs.declared.move_lines.Stop.TheVariants.{Output};

    ghost from_gives = { λ _ stop. stop ≡ Output };

    fn from(_error: io::Error) -> Stop {
        Stop::Output
    }
}

impl From<AllocError> for Stop {
    ghost use Rattle.std.specs.Prelude.{◌≡◌};
    ghost use Rattle.session_lines.specs.declared.move_lines.Stop.TheVariants.{Refused as Refuses};
    ghost use Rattle.solver.specs.declared.fault.SolverFault.TheVariants.{OutOfMemory};

    ghost from_gives = { λ _ stop. stop ≡ Refuses OutOfMemory };

    fn from(_error: AllocError) -> Stop {
        Stop::Refused(SolverFault::OutOfMemory)
    }
}

/// Writes the lines of the moves of a position, or `ended` where there is none.
pub fn write_moves<W: Write>(
    alloc: Global,
    compiled: &Compiled,
    at: &Position,
    out: &mut W,
) -> Result<(), Stop>
    requires compiled { IsSoundCompiled compiled.now }
    requires at { IsPositionOf (compiled_game compiled.now) at.now }
    ensures ok { OnOk result ((written : List ℕ) × TellsMoves (compiled_game compiled.now) at.now 0 written
        × Appends (W.contents out.old) (W.contents out.new) written) }
    ensures stopped { IfErr result (IsStopped (compiled_game compiled.now) at.now (Appends (W.contents out.old) (W.contents out.new))
        (AppendsPart (W.contents out.old) (W.contents out.new))) }
{
    let moves = match compiled.moves(alloc, at) {
        Ok(moves) => moves,
        Err(MoveFault::TooWide) => return Err(Stop::Refused(SolverFault::TooWide)),
        Err(MoveFault::OutOfMemory) => return Err(Stop::Refused(SolverFault::OutOfMemory)),
    };
    write_answer(alloc, compiled, &moves, out)
}

/// Writes the lines of the moves, or `ended` where there is none.
fn write_answer<W: Write>(
    alloc: Global,
    compiled: &Compiled,
    moves: &Moves,
    out: &mut W,
) -> Result<(), Stop>
    requires compiled { IsSoundCompiled compiled.now }
    requires positions { All (HasPosition (compiled_game compiled.now)) moves.now }
    ensures ok { OnOk result ((written : List ℕ) × SaysMoves (compiled_game compiled.now) moves.now written
        × Appends (W.contents out.old) (W.contents out.new) written) }
    ensures stopped { IfErr result (IsStoppedLine (compiled_game compiled.now) moves.now (SaysMoves (compiled_game compiled.now) moves.now)
        (Appends (W.contents out.old) (W.contents out.new)) (AppendsPart (W.contents out.old) (W.contents out.new))) }
{
    if moves.len() == 0 {
        put_bytes(out, b"ended\n")?;
    } else {
        write_lines(alloc, compiled, moves, out)?;
    }
    out.flush()?;
    Ok(())
}

fn write_lines<W: Write>(
    alloc: Global,
    compiled: &Compiled,
    moves: &Moves,
    out: &mut W,
) -> Result<(), Stop>
    requires compiled { IsSoundCompiled compiled.now }
    requires positions { All (HasPosition (compiled_game compiled.now)) moves.now }
    ensures ok { OnOk result ((written : List ℕ) × AreLinesOfMoves (compiled_game compiled.now) moves.now written
        × Appends (W.contents out.old) (W.contents out.new) written) }
    ensures stopped { IfErr result (IsStoppedLine (compiled_game compiled.now) moves.now (AreLinesOfMoves (compiled_game compiled.now) moves.now)
        (Appends (W.contents out.old) (W.contents out.new)) (AppendsPart (W.contents out.old) (W.contents out.new))) }
{
    for k in 0..moves.len() {
        let line = line_at(alloc, compiled, moves, k)?;
        put_bytes(out, &line)?;
    }
    Ok(())
}

/// The line of the move with this index.
fn line_at(
    alloc: Global,
    compiled: &Compiled,
    moves: &Moves,
    k: usize,
) -> Result<Vec<u8>, AllocError>
    requires compiled { IsSoundCompiled compiled.now }
    requires positions { All (HasPosition (compiled_game compiled.now)) moves.now }
    requires index { k < length moves.now }
    ensures { IfOk result (λ line. IfSome (slice_get moves.now k) (λ m. IsMoveLine (compiled_game compiled.now) m line.items)) }
{
    let word = moves.word(alloc, k)?;
    let packing = Packing::new(compiled.game(), PackingKind::Bytes);
    let Some(next) = packing.unpack(moves.successor(k)) else {
        unreachable!()
    };
    move_line(alloc, compiled.game(), &word, &next)
}
