//! What the answer means in the game: a law, which proofs cite by a call.
ghost use Rattle.std.specs.Prelude.{List, ℕ};
ghost use Rattle.retrograde.specs.Stored.{Stored, IsTable, view_of};
ghost use Rattle.audit.specs.declared.verdict.Verdict.TheVariants.{Right};
ghost use Rattle.audit.specs.Answers.{IsAnswer, IsTableSo};

use retrograde::GameGraph;

/// If an audit answers that a table is right, whoever made it, everything that the table says holds in the game.
pub fn right_is_so<M: GameGraph>()
    ensures { (game : M) (stored : Stored (List ℕ)) → IsTable stored
        → IsAnswer (M.graph game) (M.is_wide game) stored Right → IsTableSo (M.graph game) (view_of stored) }
{}
