//! What holds of every table that a solver keeps: each is a law, which proofs cite by a call, or by the lemma of the same name in specs/.
ghost use Rattle.std.specs.Prelude.{◌≡◌, ◌⊎◌, ◌↔◌, ℕ, true, false, List, Option, None, Some, IsTrue};
ghost use Rattle.sector_disk.specs.Disk.{Image, Shown, Disk, MayLeave};
ghost use Rattle.rbg_game.specs.Games.{Game};
ghost use Rattle.rbg_game.specs.declared.roles.Player.{Player};
ghost use Rattle.rbg_read.specs.Reads.{Reads};
ghost use Rattle.retrograde.specs.Changes.{counts_of};
ghost use Rattle.retrograde.specs.Graph.{IsReachable};
ghost use Rattle.retrograde.specs.Right.{IsRight};
ghost use Rattle.retrograde.specs.Stored.{view_of};
ghost use Rattle.retrograde.specs.Values.{WonIn, Drawn};
ghost use Rattle.retrograde.specs.View.{IsKnown, HasNumber, HasValue, IsFinished};
ghost use Rattle.best_line.specs.declared.answers.Value.{Value};
ghost use Rattle.best_line.specs.Values.{IsComplete, IsValue};
ghost use Rattle.best_line.specs.Laws.{IsSo};
ghost use Rattle.game_file.specs.Kept.{Kept, in_any};
ghost use Rattle.game_file.specs.State.{State, GoesAhead};
ghost use Rattle.solver.specs.Headline.{Headline, HeadlineFrom};
ghost use Rattle.solver.specs.Held.{Holds, IsSound, graph_in};
ghost use Rattle.solver.specs.Histories.{Sitting, DoAll, LeadTo, History, HistoryFrom};
ghost use Rattle.solver.specs.Machine.{Command, MayDo};
ghost use Rattle.solver.specs.Opened.{IsOpened};
ghost use Rattle.solver.specs.Runs.{IsTurnWithCause};
ghost use Rattle.solver.specs.Steps.{IsDone, IsRefused};
ghost use Rattle.solver.specs.declared.fault.SolverFault.{SolverFault};
ghost use Rattle.solver.specs.declared.fault.SolverFault.TheVariants.{Closed};
ghost use Rattle.solver.specs.declared.replies.Reply.{Reply};
ghost use Rattle.solver.specs.declared.replies.Reply.TheVariants.{Refused};

use game_file::GameFile;

/// An image of the disk stores one table at most, in whatever number of pages.
pub fn an_image_stores_one_table<F: GameFile>()
    ensures { (m n : ℕ) (image : Image) (one other : Option Kept) → F.stores m image one → F.stores n image other
        → one ≡ other }
{}

/// An image that stores a locally sound table holds it.
pub fn a_sound_table_is_held<F: GameFile>()
    ensures { (pages : ℕ) (image : Image) (kept : Option Kept) → F.stores pages image kept → IsSound kept
        → Holds (F.stores pages) image kept }
{}

/// Where each stop of the power has left the one table or the other, one of them is opened.
pub fn what_was_left_is_opened<F: GameFile>()
    ensures { (disk : Disk) (count : ℕ) (state : State) (one other : Option Kept) → IsOpened F.stores disk count state → IsTrue disk.honest
        → ((image : Image) → MayLeave disk.now image → Holds (in_any F.stores) image one ⊎ Holds (in_any F.stores) image other)
        → (state.kept ≡ one) ⊎ (state.kept ≡ other) }
{}

/// A locally sound table is right for the game that its text reads to.
pub fn a_sound_table_is_right()
    ensures { (kept : Kept) (game : Game) → IsSound (Some kept) → Reads kept.text game → IsRight (graph_in game kept) (view_of kept.table) }
{}

/// A `load` or `work` that was done is a turn, as `run` makes them: so a history may go on by it.
pub fn a_done_call_is_a_turn<F: GameFile>()
    ensures { (command : Command) (reply : Reply) (old new : State) → GoesAhead old new → IsDone F.stores command reply old new
        → old.closed ≡ false → IsTurnWithCause F.stores command reply old new }
{}

/// And so is one that was refused, where a closed solver answers E9 and stays as it is.
pub fn a_refused_call_is_a_turn<F: GameFile>()
    ensures { (command : Command) (fault : SolverFault) (old new : State) → GoesAhead old new → IsRefused F.stores command old new fault
        → (old.closed ≡ true → (fault ≡ Closed) × (new ≡ old)) → IsTurnWithCause F.stores command (Refused fault) old new }
{}

/// Each settled position of a locally sound table is won by the named player in exactly the named number of moves.
pub fn what_is_settled_is_won()
    ensures { (kept : Kept) (game : Game) → IsSound (Some kept) → Reads kept.text game
        → (x : List ℕ) (w : Player) (n : ℕ) → HasValue (view_of kept.table) x w n → WonIn (graph_in game kept) w n x }
{}

/// A finished, locally sound table has exactly the positions that play can come to.
pub fn finished_is_all()
    ensures { (kept : Kept) (game : Game) → IsSound (Some kept) → Reads kept.text game → IsFinished (view_of kept.table)
        → (x : List ℕ) → IsKnown (view_of kept.table) x ↔ IsReachable (graph_in game kept) x }
{}

/// A locally sound table is finished exactly if nothing is left to do by its counts: so what `status` and `work` answer tells it, and so
/// does the word `finished` that a session prints.
pub fn counts_tell_what_is_finished()
    ensures { (kept : Kept) → IsSound (Some kept) → IsComplete (counts_of kept.table) ↔ IsFinished (view_of kept.table) }
{}

/// In a finished, locally sound table exactly the drawn positions are unsettled.
pub fn finished_leaves_the_drawn()
    ensures { (kept : Kept) (game : Game) → IsSound (Some kept) → Reads kept.text game → IsFinished (view_of kept.table)
        → (i : ℕ) (x : List ℕ) → HasNumber (view_of kept.table) i x → ((view_of kept.table).value i ≡ None) ↔ Drawn (graph_in game kept) x }
{}

/// What is answered of a position of a locally sound table is so in the game: who is said to win it does, in this many moves
/// and no fewer, and nobody wins what is said to be drawn.
pub fn a_value_is_so()
    ensures { (kept : Kept) (game : Game) → IsSound (Some kept) → Reads kept.text game → (i : ℕ) (x : List ℕ) (value : Value)
        → HasNumber (view_of kept.table) i x → IsValue (view_of kept.table) i value → IsSo (graph_in game kept) x value }
{}

/// What a command may do to a locally sound table leaves it locally sound.
pub fn what_may_be_done_is_sound()
    ensures { (command : Command) (old new : Option Kept) → MayDo command old new → IsSound old → IsSound new }
{}

/// What sittings lead to from a locally sound table is locally sound.
pub fn what_sittings_lead_to_is_sound()
    ensures { (sittings : List Sitting) (old new : Option Kept) → LeadTo sittings old new → IsSound old → IsSound new }
{}

/// The table is a function of the commands: whoever does them, with whatever device, in whatever sittings and however often stopped, those that
/// were answered lead from a locally sound table to one, and one in doubt leaves that or leads from it to one.
pub fn commands_lead_to_one_table()
    ensures answered { (answered : List (Command × Reply)) (old a b : Option Kept) → IsSound old → DoAll answered old a → DoAll answered old b
        → a ≡ b }
    ensures in_doubt { (command : Command) (old a b : Option Kept) → IsSound old → MayDo command old a → MayDo command old b
        → (a ≡ old) ⊎ ((b ≡ old) ⊎ (a ≡ b)) }
{}

/// What the headline says of a made table holds of each that is locally sound as it begins: one that came from an earlier layout, one that
/// an audit found right, the empty one that a stopped or refused `create` left. It is used in any number of sittings; whatever a stop leaves,
/// reopening gives the table behind the last answer, or what the command in doubt may do to that, and what it says is so.
pub fn the_headline_from<F: GameFile>()
    ensures { (begins : Option Kept) (sittings : List Sitting) (left : Shown) (image : Image) → IsSound begins
        → HistoryFrom F.stores begins sittings left → MayLeave left image → HeadlineFrom F.stores begins sittings image }
{}

/// The headline. A table is made, and used in any number of sittings; each opens what was left, and may end by a stop of the power
/// before or within any write. Whatever the last stop leaves, reopening gives the table behind the last answer, or what the one command in
/// doubt may do to that; and so it was behind each stop before. By `commands_lead_to_one_table` that is one table. Each of its settled positions
/// is won by the named player in exactly the named number of moves, and if it says finished, its positions are those that play can come to and
/// the unsettled exactly the drawn.
pub fn the_headline<F: GameFile>()
    ensures { (sittings : List Sitting) (left : Shown) (image : Image) → History F.stores sittings left → MayLeave left image
        → Headline F.stores sittings image }
{}
