//! What enough work comes to, whatever stops came; and what work may be refused for.
ghost use Rattle.std.specs.Prelude.{◌≡◌, ◌⊎◌, ℕ, ◌+◌, ◌*◌, ◌≤◌, List, Option, None, Some, IsTrue};
ghost use Rattle.sector_disk.specs.Disk.{Image, Shown, MayLeave};
ghost use Rattle.rbg_game.specs.Games.{Game};
ghost use Rattle.rbg_game.specs.declared.roles.Player.TheVariants.{First};
ghost use Rattle.rbg_read.specs.Reads.{Reads};
ghost use Rattle.retrograde.specs.Stored.{view_of};
ghost use Rattle.retrograde.specs.View.{HasValue, IsFinished};
ghost use Rattle.game_file.specs.Kept.{Kept, in_any};
ghost use Rattle.game_file.specs.State.{State};
ghost use Rattle.solver.specs.Headline.{SaysWhatIs};
ghost use Rattle.solver.specs.Held.{Holds, IsSound, graph_in, wide_in};
ghost use Rattle.solver.specs.Histories.{Sitting, DoAll, History};
ghost use Rattle.solver.specs.Machine.{Command, IsShortOfPages, Step, work};
ghost use Rattle.solver.specs.declared.fault.SolverFault.{SolverFault};
ghost use Rattle.headline.specs.Tables.{BriefTable, TextSays, play_of};
ghost use Rattle.headline.specs.Brief.{BriefSitting, BriefHistory, BriefHeadline};
ghost use Rattle.solver.specs.declared.replies.Reply.{Reply};
ghost use Rattle.solver.specs.declared.replies.Reply.TheVariants.{Refused};
ghost use Rattle.lines_kept.specs.Uses.{Uses};
ghost use Rattle.progress.specs.Enough.{HasAtMost, IsSolved, units_asked, units_asked_in, units_in_all, units_told};
ghost use Rattle.progress.specs.InBrief.{units_for_sittings};
ghost use Rattle.progress.specs.Limits.{IsWithinLimits, WantsRoom};
ghost use Rattle.game_table.specs.Entries.{HasAtMostMoves, pages_taken};
ghost use Rattle.witness.specs.Game.{witness_text, witness_game};

use game_file::{GameFile, Versions};
use headline::SavedTable;
use headline::saved::the_headline_in_brief;
use lines_kept::laws::what_lines_told_is_kept;
use solver::laws::the_headline;

/// Of the units that answered commands asked for each was done, or the table is finished.
pub fn what_is_asked_is_done()
    ensures { (answered : List (Command × Reply)) (old new : Kept) → IsSound (Some old) → DoAll answered (Some old) (Some new)
        → IsFinished (view_of new.table) ⊎ (units_in_all new ≡ units_in_all old + units_asked answered) }
{}

/// Two units for each position that play can come to are enough: a table for which so many were asked for, or done before, by commands that
/// were answered, is finished.
pub fn enough_work_finishes()
    ensures { (answered : List (Command × Reply)) (old : Kept) (new : Option Kept) (game : Game) (n : ℕ) → IsSound (Some old)
        → Reads old.text game → HasAtMost (graph_in game old) n → DoAll answered (Some old) new
        → 2 * n ≤ units_in_all old + units_asked answered → IsSolved new }
{}

/// It gets there. A table is made and used in any number of sittings, each of which a stop of the power may end. Where the `work` commands
/// that were answered asked for two units in all for each position that play can come to, whatever the last stop leaves holds the
/// finished table: its positions are those that play can come to, each settled one is won by the named player in exactly the named
/// number of moves, and the unsettled are exactly the drawn.
pub fn it_gets_there<F: GameFile>()
    ensures { (sittings : List Sitting) (left : Shown) (image : Image) (kept : Kept) (game : Game) (n : ℕ) → History F.stores sittings left
        → MayLeave left image → Holds (in_any F.stores) image (Some kept) → Reads kept.text game → HasAtMost (graph_in game kept) n
        → 2 * n ≤ units_asked_in sittings → IsFinished (view_of kept.table) × SaysWhatIs kept game }
{
    the_headline::<F>()
}

/// It gets there by the lines that were printed: whatever was done with the file of one table, by sessions of lines and by commands, each stopped at any
/// moment, where the `work` lines whose replies had begun asked for so many units, what is left is the finished table.
pub fn what_lines_told_gets_there<F: Versions>()
    ensures { (told : List (List (Command × Reply))) (left : Shown) (image : Image) (kept : Kept) (game : Game) (n : ℕ)
        → Uses F.stores F.state F.is_version F.are_two F.is_used_up F.lasts told left → MayLeave left image
        → Holds (in_any F.stores) image (Some kept) → Reads kept.text game → HasAtMost (graph_in game kept) n → 2 * n ≤ units_told told
        → IsFinished (view_of kept.table) × SaysWhatIs kept game }
{
    what_lines_told_is_kept::<F>()
}

/// It gets there in brief, of what reopening gives.
pub fn it_gets_there_in_brief<S: SavedTable>()
    ensures { (sittings : List BriefSitting) (left : Shown) (image : Image) → BriefHistory S.calls sittings left → MayLeave left image
        → (headline : BriefHeadline S.calls sittings image)
        × ((table : BriefTable) (game : Game) (n : ℕ) → headline.table ≡ Some table → TextSays table.text game → HasAtMost (play_of table.goal game) n
        → 2 * n ≤ units_for_sittings sittings → IsFinished table.view) }
{
    the_headline_in_brief::<S>()
}

/// A game within the limits, which no position that play can come to passes: `work` on a sound table of it is refused only for a disk that
/// failed, for a page or memory that is wanting, or because the solver is closed.
pub fn work_wants_room_alone()
    ensures { (units : ℕ) (fault : SolverFault) (old new : State) (kept : Kept) (game : Game) → Step (work units) old (Refused fault) new
        → IsTrue old.disk.honest → old.kept ≡ Some kept → IsSound (Some kept) → Reads kept.text game
        → IsWithinLimits (graph_in game kept) (wide_in game kept) → WantsRoom old new fault }
{}

/// In a game of which no more than so many moves lead from a position or to one, a sound table is short of pages for so many units only where no more
/// than 147 pages for each of these moves and 98 besides are free for each unit.
pub fn few_moves_take_few_pages()
    ensures { (units free moves : ℕ) (kept : Kept) (game : Game) → IsShortOfPages units free (Some kept) → IsSound (Some kept)
        → Reads kept.text game → HasAtMostMoves (graph_in game kept) moves → free ≤ pages_taken moves units }
{}

/// The small game of `witness` is within the limits, and play comes to four of its positions at most.
pub fn the_small_game_is_within_limits()
    ensures within { (kept : Kept) → kept.goal ≡ None → IsWithinLimits (graph_in witness_game kept) (wide_in witness_game kept) }
    ensures few { (kept : Kept) → kept.goal ≡ None → HasAtMost (graph_in witness_game kept) 4 }
{}

/// A table of the small game for which eight units were asked for is finished, and says that white wins in two: by the law alone, whatever stops came.
pub fn the_small_game_is_solved<F: GameFile>()
    ensures { (sittings : List Sitting) (left : Shown) (image : Image) (kept : Kept) → History F.stores sittings left → MayLeave left image
        → Holds (in_any F.stores) image (Some kept) → kept.text ≡ witness_text → kept.goal ≡ None → 8 ≤ units_asked_in sittings
        → HasValue (view_of kept.table) (graph_in witness_game kept).start First 2 }
{
    it_gets_there::<F>()
}
