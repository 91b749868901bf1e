//! What holds of the answers: each is a law, which proofs cite by a call.
ghost use Rattle.std.specs.Prelude.{ℕ, List, ◌+◌, ◌++◌, length};
ghost use Rattle.retrograde.specs.View.{View, HasNumber};
ghost use Rattle.retrograde.specs.Stored.{Stored, view_of};
ghost use Rattle.retrograde.specs.Sound.{IsLocallySound};
ghost use Rattle.best_line.specs.declared.answers.Row.{Row};
ghost use Rattle.best_line.specs.declared.answers.Value.{Value};
ghost use Rattle.best_line.specs.Rows.{AreRows};
ghost use Rattle.best_line.specs.Values.{IsValue};
ghost use Rattle.best_line.specs.Laws.{IsSo};

use retrograde::GameGraph;

/// Every value in a locally sound table is right: who is said to win a position does, in
/// this many moves and no fewer, and nobody wins what is said to be drawn.
pub fn values_are_so<M: GameGraph>()
    ensures { (game : M) (stored : Stored (List ℕ)) (i : ℕ) (x : List ℕ) (value : Value)
        → IsLocallySound (M.graph game) (M.is_wide game) stored → HasNumber (view_of stored) i x
        → IsValue (view_of stored) i value → IsSo (M.graph game) x value }
{}

/// Lists cut anywhere join: the rows from a number on, and those that begin where they end, are together the rows of both counts.
pub fn rows_join()
    ensures { (view : View (List ℕ)) (from one two : ℕ) (first then : List Row) → AreRows view from one first
        → AreRows view (from + length first) two then → AreRows view from (one + two) (first ++ then) }
{}
