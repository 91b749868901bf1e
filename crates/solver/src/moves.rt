//! The moves of a known position, and the value of one that is found by its text.
ghost use Rattle.std.specs.Prelude.{IfOk};
ghost use Rattle.solver.specs.Frames.{IsOnlyAsked, IsUntold};
ghost use Rattle.solver.specs.Moves.{HasMoves, HasValueByText, MovesCause};
ghost use Rattle.solver.specs.Queries.{FindCause, Tells};
ghost use Rattle.solver.specs.Solvers.{state, IsReady};

use crate::needs::{game_at, game_in};
use crate::{FileSolver, SolverFault};
use best_line::{KnownMoves, Value, known_moves, told_of};
use game_file::GameFile;

impl<F: GameFile> FileSolver<F> {
    /// The moves of the position with this number, of a drawn or a lost one too: each successor once, by ascending bytes, with a
    /// shortest word that leads there, its text, and the number and the value that the table has of it. A successor that is not known
    /// yet has no number, and its value is `Open`. A question changes nothing: E9, S1, S7; S4 where the search for the moves of this
    /// position reaches too many configurations. S6 comes only of a table that is not of this program's making.
    pub fn moves(&mut self, number: u32) -> Result<KnownMoves, SolverFault>
        ensures moves { IsReady self.old → IfOk result (λ known. Tells (HasMoves number known) (state self.old)) }
        ensures left { IsOnlyAsked self.old self.new }
        ensures err { IsUntold self.old self.new (MovesCause number) result }
    {
        let source = game_at(&self.file, &self.source, number)?;
        Ok(known_moves(self.alloc, source.moves(), &mut self.file, number)?)
    }

    /// The value of the position with this text, by one question: E9, S1, then S10 where it is the text of no position of the game, and
    /// S7 where that position is not known.
    pub fn find_value(&mut self, text: &[u8]) -> Result<Value, SolverFault>
        ensures value { IsReady self.old → IfOk result (λ value. Tells (HasValueByText text.now value) (state self.old)) }
        ensures left { IsOnlyAsked self.old self.new }
        ensures err { IsUntold self.old self.new (FindCause text.now) result }
    {
        let source = game_in(&self.file, &self.source)?;
        let Some(packed) = source.position(text) else {
            return Err(SolverFault::BadPosition);
        };
        let told = told_of(&mut self.file, &packed)?;
        match told.number {
            Some(_) => Ok(told.value),
            None => Err(SolverFault::NoSuchPosition),
        }
    }
}
