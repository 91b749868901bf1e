//! Units of work on a table, and whether it is one of a game.
ghost use Rattle.std.specs.Prelude.{◌≡◌, ◌↔◌, ◌^◌, ◌≤◌, true, IfOk, IfErr};
ghost use Rattle.legal_moves.specs.Compiled.{compiled_game, packing_kind, compiled_goal};
ghost use Rattle.legal_moves.specs.Sources.{IsWideAt, graph_of};
ghost use Rattle.retrograde.specs.Sound.{IsLocallySound};
ghost use Rattle.game_table.specs.Work.{AreDone, StopsWith};
ghost use Rattle.game_table.specs.Tables.{ArePositions, IsWorkOf};

use game_table::{Source, StepFault};
use legal_moves::MoveSource;
use std::alloc::Global;
use table::{Table, TableFault};

/// `done` of `worked`, of `work`.
pub fn work<M: MoveSource, T: Table>(
    alloc: Global,
    source: &M,
    table: &mut T,
    units: u32,
) -> Result<u32, StepFault>
    requires source { M.is_sound source.now }
    requires limit { (T.counted table.old).known ≤ 2 ^ 24 }
    requires honest { T.is_honest table.old }
    requires sound { IsLocallySound (M.graph source.now) (M.is_wide source.now) (T.stored table.old) }
    ensures { IfOk result (λ done. AreDone (M.graph source.now) (M.is_wide source.now) units (T.stored table.old) done
        (T.stored table.new)) }
{
    game_table::work(alloc, source, table, units)
}

/// `cause` of `err`, of `work`.
pub fn refused_work<M: MoveSource, T: Table>(
    alloc: Global,
    source: &M,
    table: &mut T,
    asked: u32,
) -> Result<u32, StepFault>
    requires source { M.is_sound source.now }
    requires limit { (T.counted table.old).known ≤ 2 ^ 24 }
    requires honest { T.is_honest table.old }
    requires sound { IsLocallySound (M.graph source.now) (M.is_wide source.now) (T.stored table.old) }
    ensures { IfErr result (StopsWith (M.graph source.now) (M.is_wide source.now) (T.stored table.old) asked) }
{
    game_table::work(alloc, source, table, asked)
}

/// `works` of `Source::work`.
pub fn source_work<T: Table>(
    source: &Source,
    alloc: Global,
    table: &mut T,
    units: u32,
) -> Result<u32, StepFault>
    requires limit { (T.counted table.old).known ≤ 2 ^ 24 }
    requires honest { T.is_honest table.old }
    requires sound { IsLocallySound (graph_of (packing_kind source.now) (compiled_goal source.now) (compiled_game source.now))
        (IsWideAt (packing_kind source.now) (compiled_game source.now)) (T.stored table.old) }
    ensures { IfOk result (λ done. IsWorkOf (packing_kind source.now) (compiled_goal source.now) (compiled_game source.now) units (T.stored table.old) done
        (T.stored table.new)) }
{
    source.work(alloc, table, units)
}

/// `are` of `Source::are_positions`.
pub fn are_positions<T: Table>(source: &Source, table: &mut T) -> Result<bool, TableFault>
    requires { T.is_honest table.old }
    ensures { IfOk result (λ are. (are ≡ true) ↔ ArePositions (packing_kind source.now) (compiled_game source.now) (T.stored table.old)) }
{
    source.are_positions(table)
}
