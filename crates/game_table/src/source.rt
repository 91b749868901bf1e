//! A game made ready from its text, and its tables.
ghost use Rattle.std.specs.Prelude.{◌≡◌, ◌≢◌, ◌↔◌, ◌+◌, ◌*◌, ◌≤◌, ◌^◌, ℕ, true, IfOk, IfErr, OnOk, OnErr, Err, length};
ghost use Rattle.rbg_game.specs.Games.{Game as TextbookGame};
ghost use Rattle.rbg_game.specs.Meaning.{game_of};
ghost use Rattle.rbg_game.specs.Names.{HasProperNames};
ghost use Rattle.rbg_game.specs.Positions.{IsPositionOf};
ghost use Rattle.rbg_read.specs.Reads.{Reads, Fault};
ghost use Rattle.legal_moves.specs.Moves.{start_of};
ghost use Rattle.legal_moves.specs.Sources.{IsPositionBytes, IsWideAt, graph_of};
ghost use Rattle.legal_moves.specs.Compiled.{compiled_game, packing_kind, compiled_goal};
ghost use Rattle.rbg_game.specs.Goals.{points_of};
ghost use Rattle.retrograde.specs.Stored.{IsTable, view_of};
ghost use Rattle.retrograde.specs.View.{IsFinished};
ghost use Rattle.retrograde.specs.Sound.{IsLocallySound};
ghost use Rattle.frontier.specs.Causes.{Leaves};
ghost use Rattle.frontier.specs.Frames.{IsGrown};
ghost use Rattle.game_table.specs.Entries.{WantsPages, WriteAtMost};
ghost use Rattle.game_table.specs.Work.{StopsWith};
ghost use Rattle.game_table.specs.Tables.{ArePositions, packed_length, IsWorkOf};
ghost use Rattle.table.specs.Faults.{NeedsNoPage};
ghost use Rattle.table.specs.Frames.{IsRead};
ghost use Rattle.table.specs.declared.limits.TheConstants.{PAGES_PER_ENTRY};
ghost use Rattle.rbg_game.specs.declared.limits.TheConstants.{MAX_TEXT_BYTES};

use crate::StepFault;
use crate::packings::are_packed;
use legal_moves::{Compiled, MoveSource};
use position_pack::{Packed, PackingKind};
use rbg_game::game::Game;
use rbg_game::goal::Goal;
use rbg_read::fault::GameFault;
use rbg_read::read::read_game;
use std::alloc::Global;
use std::marker::Model;
use table::{Table, TableFault};

/// A game made ready for the search for moves.
#[derive(Drop)]
pub struct Source {
    pub(crate) compiled: Compiled,
    ghost names: { HasProperNames (compiled_game compiled) },
}

impl Model for Source {
    ghost use Rattle.legal_moves.specs.declared.compiled.Compiled.{Compiled};

    ghost Value = { Compiled };

    ghost use Rattle.legal_moves.specs.contracts.compiled.Compiled.{the_row};

    ghost coded = { the_row.coded };

    ghost use Rattle.legal_moves.specs.Compiled.{IsSoundCompiled};

    ghost view = { λ s. s.compiled };

    ghost invariant = { λ s. IsSoundCompiled s.compiled };
}

impl Source {
    /// The game that a text reads to, or the first cause for which it is no game. A text that reads to a game is refused
    /// for want of memory alone. Its positions are packed by the packing of this kind, and its table has this goal, if there is one.
    pub fn read(
        alloc: Global,
        text: &[u8],
        kind: PackingKind,
        goal: Option<Goal>,
    ) -> Result<Source, GameFault>
        ensures reads { IfOk result (λ source. Reads text.now (compiled_game source)) }
        ensures packing { IfOk result (λ source. packing_kind source ≡ kind) }
        ensures goal { IfOk result (λ source. compiled_goal source ≡ points_of goal) }
        ensures one { (game : TextbookGame) → Reads text.now game → IfOk result (λ source. compiled_game source ≡ game) }
        ensures fault { IfErr result (λ fault. fault ≢ GameFault.OutOfMemory → Fault text.now fault) }
        ensures only { (game : TextbookGame) → Reads text.now game → IfErr result (λ fault. fault ≡ GameFault.OutOfMemory) }
        ensures short { OnOk result (length text.now ≤ MAX_TEXT_BYTES) }
        ensures start { IfOk result (λ source. IsPositionOf (compiled_game source) (start_of (compiled_game source))) }
    {
        let game = read_game(alloc, text)?;
        let compiled = Compiled::new(alloc, game, kind, goal)?;
        Ok(Source { compiled })
    }

    /// The game that was read.
    pub fn game(&self) -> &Game
        ensures { game_of result.now ≡ compiled_game self.now }
    {
        self.compiled.game()
    }

    /// The moves of the game.
    pub fn moves(&self) -> &Compiled
        ensures is { result.now ≡ self.now }
        ensures sound { ⟦<Compiled as MoveSource>⟧.is_sound result.now }
    {
        &self.compiled
    }

    /// The bytes of the start.
    pub fn start(&self) -> Packed
        ensures start { result.items ≡ (graph_of (packing_kind self.now) (compiled_goal self.now) (compiled_game self.now)).start }
        ensures position { IsPositionBytes (packing_kind self.now) (compiled_game self.now) result.items }
        ensures long { length result.items ≡ packed_length (packing_kind self.now) (compiled_game self.now) }
    {
        MoveSource::start(&self.compiled)
    }

    /// Whether each position of a table is one of the game, read one by one. The table stays as it was.
    pub fn are_positions<T: Table>(&self, table: &mut T) -> Result<bool, TableFault>
        ensures are { T.is_honest table.old → IfOk result
            (λ are. (are ≡ true) ↔ ArePositions (packing_kind self.now) (compiled_game self.now) (T.stored table.old)) }
        ensures read { IsRead T.stored T.is_honest T.counted T.stays table.old table.new }
        ensures room { IfErr result NeedsNoPage }
        ensures fault { IfErr result (T.fails table.old table.new) }
    {
        are_packed(self.compiled.packing(), table)
    }

    /// Does this many units of work on a table of the game, or fewer where the table is finished by then, and answers how
    /// many. It is asked of a table within the limit of 16,777,216 positions. After an error the caller gives the table up.
    ///
    /// Of a table that does not agree with itself nothing is said but that it stays within the limit, that its parts still
    /// fit together if they did, and what is left of a device under it; `Inconsistent` comes of such a table alone. A
    /// table that does, and is finished, is refused nothing; it is refused for want of a page only where no more pages were free than
    /// 49 for each entry that the units may write.
    pub fn work<T: Table>(&self, alloc: Global, table: &mut T, units: u32) -> Result<u32, StepFault>
        requires { (T.counted table.old).known ≤ 2 ^ 24 }
        ensures limit { OnOk result ((T.counted table.new).known ≤ 2 ^ 24) }
        ensures idle { IfOk result (λ done. done ≡ 0 → table.new ≡ table.old) }
        ensures works { T.is_honest table.old → IsLocallySound (graph_of (packing_kind self.now) (compiled_goal self.now) (compiled_game self.now))
            (IsWideAt (packing_kind self.now) (compiled_game self.now))
            (T.stored table.old)
            → IfOk result (λ done. IsWorkOf (packing_kind self.now) (compiled_goal self.now) (compiled_game self.now) units
            (T.stored table.old) done (T.stored table.new)) }
        ensures fits { T.is_honest table.old → IsTable (T.stored table.old) → OnOk result (IsTable (T.stored table.new)) }
        ensures cause { T.is_honest table.old → IsLocallySound (graph_of (packing_kind self.now) (compiled_goal self.now) (compiled_game self.now))
            (IsWideAt (packing_kind self.now) (compiled_game self.now))
            (T.stored table.old)
            → IfErr result (StopsWith (graph_of (packing_kind self.now) (compiled_goal self.now) (compiled_game self.now))
            (IsWideAt (packing_kind self.now) (compiled_game self.now)) (T.stored table.old) units) }
        ensures unfinished { T.is_honest table.old
            → IsLocallySound (graph_of (packing_kind self.now) (compiled_goal self.now) (compiled_game self.now))
            (IsWideAt (packing_kind self.now) (compiled_game self.now)) (T.stored table.old)
            → OnErr result (¬ IsFinished (view_of (T.stored table.old))) }
        ensures consistent { T.is_honest table.old
            → IsLocallySound (graph_of (packing_kind self.now) (compiled_goal self.now) (compiled_game self.now))
            (IsWideAt (packing_kind self.now) (compiled_game self.now)) (T.stored table.old)
            → result ≡ Err StepFault.Inconsistent → ⊥ }
        ensures ok { OnOk result (IsGrown T.is_honest T.counted T.goes_on table.old table.new) }
        ensures left { IfErr result (Leaves (T.goes_on table.old table.new) (T.fails table.old table.new)) }
        ensures full { T.is_honest table.old → IsLocallySound (graph_of (packing_kind self.now) (compiled_goal self.now) (compiled_game self.now))
            (IsWideAt (packing_kind self.now) (compiled_game self.now)) (T.stored table.old)
            → result ≡ Err (StepFault.Table TableFault.TableFull)
            → WantsPages (graph_of (packing_kind self.now) (compiled_goal self.now) (compiled_game self.now))
            (IsWideAt (packing_kind self.now) (compiled_game self.now)) (T.stored table.old) units (T.free table.old) }
        ensures takes { T.is_honest table.old → IsLocallySound (graph_of (packing_kind self.now) (compiled_goal self.now) (compiled_game self.now))
            (IsWideAt (packing_kind self.now) (compiled_game self.now)) (T.stored table.old)
            → IfOk result (λ done. (entries : ℕ)
            × WriteAtMost (graph_of (packing_kind self.now) (compiled_goal self.now) (compiled_game self.now))
            (IsWideAt (packing_kind self.now) (compiled_game self.now)) (T.stored table.old) done (T.stored table.new) entries
            × (T.free table.old ≤ T.free table.new + PAGES_PER_ENTRY * entries)) }
    {
        crate::work(alloc, &self.compiled, table, units)
    }
}
