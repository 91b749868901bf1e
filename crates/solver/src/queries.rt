//! What is asked of a solver.
ghost use Rattle.std.specs.Prelude.{◌≡◌, Ok, None, Some, IfOk, IfErr, IfSome, IfNone, IsTrue};
ghost use Rattle.rbg_game.specs.Meaning.{game_of};
ghost use Rattle.game_file.specs.Kept.{text_kept};
ghost use Rattle.audit.specs.declared.verdict.Verdict.TheVariants.{Right};
ghost use Rattle.solver.specs.Audits.{HasVerdict, IsSoInGame, AuditCause};
ghost use Rattle.solver.specs.Frames.{NeedsGame, IsOnlyAsked, IsUntold};
ghost use Rattle.solver.specs.Held.{IsSound};
ghost use Rattle.solver.specs.Queries.{OfKept, Tells, HasValueAt, HasRows, HasLine, HasToldLine, HasText, IsGameOf, AskCause, NumberCause};
ghost use Rattle.solver.specs.Queries.{LineCause, ShowCause, FindCause};
ghost use Rattle.solver.specs.Solvers.{state, IsReady};
ghost use Rattle.solver.specs.Units.{units_in};

use crate::needs::{game_at, game_in};
use crate::{FileSolver, SolverFault, Units};
use audit::Verdict;
use best_line::{Row, Value};
use game_file::GameFile;
use rbg_game::game::Game;
use table::Table;

/// A question changes nothing, neither in memory nor of what a stop leaves. E9 comes first, then S1, then the others; E1 and
/// E8 may come after E9.
impl<F: GameFile> FileSolver<F> {
    /// The game, where one is loaded. It takes no memory and always answers, of a closed solver too.
    pub fn game(&self) -> Option<&Game>
        ensures some { IsReady self.now → IfSome result (λ game. OfKept (IsGameOf (game_of game.now)) (state self.now).kept) }
        ensures none { IsReady self.now → IfNone result ((state self.now).kept ≡ None) }
    {
        match &self.source {
            Some(source) => Some(source.game()),
            None => None,
        }
    }

    /// The text of the game, byte for byte as it was loaded, where one is. It takes no memory and always answers, of a closed solver too.
    pub fn text(&self) -> Option<&[u8]>
        ensures some { IfSome result (λ text. text_kept (state self.now).kept ≡ Some text.now) }
        ensures none { IfNone result ((state self.now).kept ≡ None) }
    {
        self.file.text()
    }

    /// The game of an open solver in which one is loaded: E9, S1. It takes no memory.
    pub fn needs_game(&self) -> Result<&Game, SolverFault>
        ensures game { IsReady self.now → IfOk result (λ game. OfKept (IsGameOf (game_of game.now)) (state self.now).kept) }
        ensures cause { IsReady self.now → IfErr result (AskCause (state self.now) (state self.now)) }
        ensures first { NeedsGame result (state self.now) }
    {
        Ok(game_in(&self.file, &self.source)?.game())
    }

    /// Who wins the position with this number, and in how many moves; a draw only where the table is finished: E9, S1, S7.
    pub fn value(&mut self, number: u32) -> Result<Value, SolverFault>
        ensures value { IsReady self.old → IfOk result (λ value. Tells (HasValueAt number value) (state self.old)) }
        ensures left { IsOnlyAsked self.old self.new }
        ensures err { IsUntold self.old self.new (NumberCause number) result }
    {
        game_at(&self.file, &self.source, number)?;
        Ok(best_line::value(&mut self.file, number)?)
    }

    /// The positions from this number on with their values, this many or up to the last: E9, S1, S7.
    pub fn list(&mut self, from: u32, count: Units) -> Result<Vec<Row>, SolverFault>
        ensures rows { IsReady self.old → IfOk result (λ rows. Tells (HasRows from (units_in count) rows.items) (state self.old)) }
        ensures left { IsOnlyAsked self.old self.new }
        ensures err { IsUntold self.old self.new (NumberCause from) result }
    {
        game_at(&self.file, &self.source, from)?;
        Ok(best_line::list(self.alloc, &mut self.file, from, count.count())?)
    }

    /// The numbers of a best line: each next one is the first successor in packed order that the same player wins in one
    /// fewer: E9, S1, S7, S8. S6 comes where the line comes to a position that has no such successor, and S4 where it comes to one that
    /// is too wide: both only of a table that is not of this program's making.
    pub fn line(&mut self, number: u32) -> Result<Vec<u32>, SolverFault>
        ensures line { IsReady self.old → IsSound (state self.old).kept
            → IfOk result (λ numbers. Tells (HasLine number numbers.items) (state self.old)) }
        ensures told { IsReady self.old → IfOk result (λ numbers. Tells (HasToldLine number numbers.items) (state self.old)) }
        ensures left { IsOnlyAsked self.old self.new }
        ensures err { IsUntold self.old self.new (LineCause number) result }
    {
        let source = game_at(&self.file, &self.source, number)?;
        Ok(best_line::line(self.alloc, source.moves(), &mut self.file, number)?)
    }

    /// Whether the table is right, whoever made it: each number is compared with the game. If it is, each settled position is won by the
    /// named player in exactly the named number of moves, and if it is finished, its positions are those that play can come to, and the
    /// unsettled ones are the drawn. E9, S1; S4 only where some expanded position is too wide.
    pub fn audit(&mut self) -> Result<Verdict, SolverFault>
        ensures verdict { IsReady self.old → IfOk result (λ verdict. Tells (HasVerdict verdict) (state self.old)) }
        ensures so { IsReady self.old → result ≡ Ok Right → Tells IsSoInGame (state self.old) }
        ensures sound { IsReady self.old → result ≡ Ok Right → IsTrue (state self.old).disk.honest → IsSound (state self.old).kept }
        ensures left { IsOnlyAsked self.old self.new }
        ensures err { IsUntold self.old self.new AuditCause result }
    {
        let source = game_in(&self.file, &self.source)?;
        Ok(audit::audit(self.alloc, source.moves(), &mut self.file)?)
    }

    /// The text of the position with this number: E9, S1, S7. S6 comes only of a table that is not of this program's making.
    pub fn show(&mut self, number: u32) -> Result<Vec<u8>, SolverFault>
        ensures text { IsReady self.old → IfOk result (λ text. Tells (HasText number text.items) (state self.old)) }
        ensures left { IsOnlyAsked self.old self.new }
        ensures err { IsUntold self.old self.new (ShowCause number) result }
    {
        let source = game_at(&self.file, &self.source, number)?;
        let packed = self.file.packed(number)?;
        match source.show(self.alloc, &packed)? {
            Some(text) => Ok(text),
            None => Err(SolverFault::Inconsistent),
        }
    }

    /// The number of the position with this text: E9, S1, then S10 where it is the text of no position of the game, and
    /// S7 where that position is not known.
    pub fn find(&mut self, text: &[u8]) -> Result<u32, SolverFault>
        ensures number { IsReady self.old → IfOk result (λ number. Tells (HasText number text.now) (state self.old)) }
        ensures left { IsOnlyAsked self.old self.new }
        ensures err { IsUntold self.old self.new (FindCause text.now) result }
    {
        let source = game_in(&self.file, &self.source)?;
        let Some(packed) = source.position(text) else {
            return Err(SolverFault::BadPosition);
        };
        match self.file.number_of(&packed)? {
            Some(number) => Ok(number),
            None => Err(SolverFault::NoSuchPosition),
        }
    }
}
