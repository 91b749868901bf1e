//! A game that was read, and what is told of its moves.

ghost use Rattle.std.specs.Prelude.{MatchOption, IfOk, IfErr};
ghost use Rattle.rbg_game.specs.Names.{HasProperNames};
ghost use Rattle.rbg_game.specs.Positions.{IsPositionOf};
ghost use Rattle.rbg_game.specs.declared.position.Position.{Position as TextbookPosition};
ghost use Rattle.position_pack.specs.Spelled.{IsSpelled};
ghost use Rattle.rbg_read.specs.Reads.{Reads};
ghost use Rattle.legal_moves.specs.Compiled.{compiled_game, IsSoundCompiled};
ghost use Rattle.legal_moves.specs.Moves.{start_of};
ghost use Rattle.session_lines.specs.Answers.{TellsMoves, TellsMovesAt, IsTextRefused};
ghost use Rattle.session_lines.specs.Parts.{IsTextWritten};

use crate::move_lines::{Stop, write_moves};
use crate::refusals::write_refused;
use legal_moves::compiled::Compiled;
use position_pack::{PackingKind, read_position};
use rbg_game::position::Position;
use rbg_read::read::read_game;
use solver::SolverFault;
use std::alloc::Global;
use std::io::Write;
use std::marker::Model;

/// A game that was read, with the tables of its rules, of whose positions the moves are asked.
#[derive(Drop)]
pub struct Rulebook {
    compiled: Compiled,
    ghost names: { HasProperNames (compiled_game compiled) },
}

impl Model for Rulebook {
    ghost use Rattle.legal_moves.specs.declared.compiled.Compiled.{Compiled};

    ghost Value = { Compiled };

    ghost use Rattle.legal_moves.specs.contracts.compiled.Compiled.{the_row};

    ghost coded = { the_row.coded };

    ghost use Rattle.legal_moves.specs.Compiled.{IsSoundCompiled};

    ghost view = { λ book. book.compiled };

    ghost invariant = { λ book. IsSoundCompiled book.compiled };
}

impl Rulebook {
    /// The game that a text reads to, or why there is none.
    pub fn read(alloc: Global, text: &[u8]) -> Result<Rulebook, SolverFault>
        ensures reads { IfOk result (λ book. Reads text.now (compiled_game book)) }
        ensures refused { IfErr result (IsTextRefused text.now) }
    {
        match compiled_of(alloc, text) {
            Ok(compiled) => Ok(Rulebook { compiled }),
            Err(fault) => Err(fault),
        }
    }

    /// The position of the game that the text spells, if it spells one. It takes no memory and always answers.
    pub fn position(&self, text: &[u8]) -> Option<Position>
        ensures { MatchOption result ((at : TextbookPosition) → ¬ IsSpelled (compiled_game self.now) at text.now)
            (λ at. IsSpelled (compiled_game self.now) at text.now) }
    {
        read_position(self.compiled.game(), text)
    }

    /// Writes the moves of the start, one a line; `ended` where there is none; or `refused` and a code. Gives the exit status, which
    /// is 4 where the output failed.
    pub fn put_start_moves<W: Write>(&self, alloc: Global, out: &mut W) -> u8
        ensures { IsTextWritten (TellsMoves (compiled_game self.now) (start_of (compiled_game self.now))) (W.contents out.old)
            (W.contents out.new) result }
    {
        let start = self.compiled.start();
        self.put_moves(alloc, &start, out)
    }

    /// Writes the moves of the position with this text, as `put_start_moves` does those of the start; or `refused S10` where it is
    /// the text of no position of the game.
    pub fn put_moves_at<W: Write>(&self, alloc: Global, position: &[u8], out: &mut W) -> u8
        ensures { IsTextWritten (TellsMovesAt (compiled_game self.now) position.now) (W.contents out.old) (W.contents out.new) result }
    {
        match read_position(self.compiled.game(), position) {
            Some(at) => self.put_moves(alloc, &at, out),
            None => write_refused(SolverFault::BadPosition, out),
        }
    }

    /// Writes the moves of a position, as `put_start_moves` does those of the start.
    fn put_moves<W: Write>(&self, alloc: Global, at: &Position, out: &mut W) -> u8
        requires { IsPositionOf (compiled_game self.now) at.now }
        ensures { IsTextWritten (TellsMoves (compiled_game self.now) at.now) (W.contents out.old) (W.contents out.new) result }
    {
        match write_moves(alloc, &self.compiled, at, out) {
            Ok(()) => 0,
            Err(Stop::Refused(fault)) => write_refused(fault, out),
            Err(Stop::Output) => 4,
        }
    }
}

/// The game that the text reads to, with the tables of its rules, or why there is none.
fn compiled_of(alloc: Global, text: &[u8]) -> Result<Compiled, SolverFault>
    ensures reads { IfOk result (λ compiled. Reads text.now (compiled_game compiled)) }
    ensures sound { IfOk result IsSoundCompiled }
    ensures refused { IfErr result (IsTextRefused text.now) }
{
    let game = match read_game(alloc, text) {
        Ok(game) => game,
        Err(fault) => return Err(SolverFault::Game(fault)),
    };
    match Compiled::new(alloc, game, PackingKind::Bytes, None) {
        Ok(compiled) => Ok(compiled),
        Err(_) => Err(SolverFault::OutOfMemory),
    }
}
