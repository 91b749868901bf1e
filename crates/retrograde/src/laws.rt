//! What holds of every game and every table: each is a law, which proofs cite by a call.
ghost use Rattle.std.specs.Prelude.{◌≡◌, ◌↔◌, ◌+◌, ◌≤◌, ◌<◌, ℕ, suc, true, List, length, None};
ghost use Rattle.retrograde.specs.Graph.{Graph, IsReachable};
ghost use Rattle.rbg_game.specs.declared.roles.Player.{Player};
ghost use Rattle.retrograde.specs.declared.records.Record.{Record};
ghost use Rattle.retrograde.specs.Expands.{Expands, IsChoice};
ghost use Rattle.retrograde.specs.Settles.{Settles};
ghost use Rattle.retrograde.specs.Values.{WinsWithin, Drawn, WonIn};
ghost use Rattle.retrograde.specs.View.{View, IsKnown, HasNumber, IsFinished, HasValue};
ghost use Rattle.retrograde.specs.Right.{IsRight, IsCoherent, KnowsMoves, KeeperIsForced, ProcessesInOrder};
ghost use Rattle.retrograde.specs.Local.{HasLocalValues};
ghost use Rattle.retrograde.specs.Stored.{Stored, IsTable, view_of, loaded, expanded_count};
ghost use Rattle.retrograde.specs.Audit.{AreSuccessors, AreItsMoves, HasItsMoves, HasItsEdges};
ghost use Rattle.retrograde.specs.Sound.{IsLocallySoundAt, IsLocallySound};
ghost use Rattle.retrograde.specs.Verdicts.{Verdict, right, IsVerdict};
ghost use Rattle.retrograde.specs.ByEdges.{IsSoundByEdgesAt};
ghost use Rattle.retrograde.specs.Play.{IsPlay};
ghost use Rattle.retrograde.specs.Units.{UnitsOfWork};
ghost use Rattle.retrograde.specs.Successors.{packed_cmp};
ghost use Rattle.retrograde.specs.Steps.{IsLocallyRight, ExpandsNext, ProcessesNext};

use crate::graph::GameGraph;

/// No position is won by both players.
pub fn one_winner<M: GameGraph>()
    ensures { (game : M) (v w : Player) (m n : ℕ) (x : List ℕ)
        → WinsWithin (M.graph game) v m x → WinsWithin (M.graph game) w n x → v ≡ w }
{}

/// A finished table knows exactly the positions that play can come to.
pub fn finished_knows_reach<M: GameGraph>()
    ensures { (game : M) (view : View (List ℕ)) (x : List ℕ)
        → IsRight (M.graph game) view → IsFinished view
        → IsKnown view x ↔ IsReachable (M.graph game) x }
{}

/// In a finished table exactly the drawn positions are unsettled.
pub fn finished_leaves_draws<M: GameGraph>()
    ensures { (game : M) (view : View (List ℕ)) (i : ℕ) (x : List ℕ)
        → IsRight (M.graph game) view → IsFinished view → HasNumber view i x
        → (view.value i ≡ None) ↔ Drawn (M.graph game) x }
{}

/// What a right table says of a position is so.
pub fn values_are_won<M: GameGraph>()
    ensures { (game : M) (view : View (List ℕ)) (x : List ℕ) (w : Player) (n : ℕ)
        → IsRight (M.graph game) view → HasValue view x w n → WonIn (M.graph game) w n x }
{}

/// What is expanded and processed decides every value.
pub fn values_are_decided<M: GameGraph>()
    ensures { (game : M) (a b : View (List ℕ)) (i : ℕ)
        → IsRight (M.graph game) a → IsRight (M.graph game) b
        → a.known ≡ b.known → a.expanded ≡ b.expanded → ((j : ℕ) → a.processed j ≡ b.processed j)
        → a.value i ≡ b.value i }
{}

/// Where each value follows from the processed positions that the moves lead to, and positions are processed by rising
/// distance, the table is right.
pub fn local_values_are_right<M: GameGraph>()
    ensures { (game : M) (view : View (List ℕ))
        → IsLocallyRight (M.graph game) view → IsRight (M.graph game) view }
{}

/// A table that agrees with itself at each number is right.
pub fn sound_is_right<M: GameGraph>()
    ensures { (game : M) (stored : Stored (List ℕ))
        → IsLocallySound (M.graph game) (M.is_wide game) stored → IsRight (M.graph game) (view_of stored) }
{}

/// Over the whole of a table whose parts fit together the edges from a number may be counted in place of its successors.
pub fn sound_by_edges<M: GameGraph>()
    ensures { (game : M) (stored : Stored (List ℕ)) → IsTable stored
        → ((i : ℕ) (x : List ℕ) → HasNumber (view_of stored) i x → IsLocallySoundAt (M.graph game) stored i x)
        ↔ ((i : ℕ) (x : List ℕ) → HasNumber (view_of stored) i x → IsSoundByEdgesAt (M.graph game) stored i x) }
{}

/// Whichever list of the successors of a number is taken, the second condition says the same of it.
pub fn moves_by_any_list<M: GameGraph>()
    ensures { (game : M) (stored : Stored (List ℕ)) (i : ℕ) (x : List ℕ) (ys : List (List ℕ)) (js : List ℕ)
        → IsTable stored → AreSuccessors (M.graph game) (view_of stored) x ys js
        → HasItsMoves (M.graph game) stored i x ↔ AreItsMoves (M.graph game) stored i x ys js }
{}

/// An edge to i from p that is no move fails at i, and does not matter at p.
pub fn stray_edges_fail_where_they_lead<M: GameGraph>()
    ensures leads { (game : M) (stored : Stored (List ℕ)) (i p : ℕ) (x y : List ℕ)
        → HasNumber (view_of stored) p x → stored.has_edge i p ≡ true → ((M.graph game).Successor x y → ⊥)
        → HasItsEdges (M.graph game) stored i y → ⊥ }
    ensures begins { (game : M) (a b : Stored (List ℕ)) (p : ℕ) (x : List ℕ)
        → b.positions ≡ a.positions → b.records ≡ a.records
        → ((j : ℕ) (y : List ℕ) → HasNumber (view_of a) j y → (M.graph game).Successor x y → b.has_edge j p ≡ a.has_edge j p)
        → HasItsMoves (M.graph game) a p x ↔ HasItsMoves (M.graph game) b p x }
{}

/// A table has one verdict at most.
pub fn one_verdict<M: GameGraph>()
    ensures { (game : M) (stored : Stored (List ℕ)) (v w : Verdict)
        → IsVerdict (M.graph game) stored v → IsVerdict (M.graph game) stored w → v ≡ w }
{}

/// A table is locally sound exactly where its parts fit together, its verdict is right, and no expanded position is too wide.
pub fn right_is_sound<M: GameGraph>()
    ensures { (game : M) (stored : Stored (List ℕ))
        → IsLocallySound (M.graph game) (M.is_wide game) stored
        ↔ (IsTable stored × IsVerdict (M.graph game) stored right
        × ((i : ℕ) (x : List ℕ) → HasNumber (view_of stored) i x → i < expanded_count stored → M.is_wide game x → ⊥)) }
{}

/// To expand the next position keeps a table locally right.
pub fn expanding_keeps<M: GameGraph>()
    ensures { (game : M) (old new : View (List ℕ)) (x : List ℕ)
        → IsLocallyRight (M.graph game) old → ExpandsNext (M.graph game) old x new → IsLocallyRight (M.graph game) new }
{}

/// To process a nearest settled position keeps a table locally right.
pub fn processing_keeps<M: GameGraph>()
    ensures { (game : M) (old new : View (List ℕ)) (s : ℕ) (w : Player) (d : ℕ)
        → IsLocallyRight (M.graph game) old → ProcessesNext (M.graph game) old s w d new → IsLocallyRight (M.graph game) new }
{}

/// Units of work add up.
pub fn units_add_up<M: GameGraph>()
    ensures none { (game : M) (a : View (List ℕ)) (limit : ℕ)
        → IsRight (M.graph game) a → length a.known ≤ limit
        → UnitsOfWork packed_cmp (M.graph game) (M.is_wide game) limit a 0 a }
    ensures more { (game : M) (a b c : View (List ℕ)) (limit m n : ℕ)
        → UnitsOfWork packed_cmp (M.graph game) (M.is_wide game) limit a m b
        → UnitsOfWork packed_cmp (M.graph game) (M.is_wide game) limit b n c
        → UnitsOfWork packed_cmp (M.graph game) (M.is_wide game) limit a (m + n) c }
{}

/// What is settled stays settled so, whatever work comes after.
pub fn settled_stays<M: GameGraph>()
    ensures { (game : M) (a b : View (List ℕ)) (limit u : ℕ) (x : List ℕ) (w : Player) (n : ℕ)
        → UnitsOfWork packed_cmp (M.graph game) (M.is_wide game) limit a u b
        → HasValue a x w n → HasValue b x w n }
{}

/// In a right table a win in more than none has a move to a win in one fewer.
pub fn play_goes_on<M: GameGraph>()
    ensures { (game : M) (view : View (List ℕ)) (x : List ℕ) (w : Player) (n : ℕ)
        → IsRight (M.graph game) view → HasValue view x w (suc n)
        → ((y : List ℕ) → (M.graph game).Successor x y → HasValue view y w n → ⊥) → ⊥ }
{}

/// A play has one more position than moves.
pub fn play_has_its_length<M: GameGraph>()
    ensures { (game : M) (w : Player) (n : ℕ) (xs : List (List ℕ)) → IsPlay (M.graph game) w n xs → length xs ≡ n + 1 }
{}

/// The table of a game that was just loaded agrees with itself.
pub fn loaded_is_sound<M: GameGraph>()
    ensures { (game : M) → IsLocallySound (M.graph game) (M.is_wide game) (loaded (M.graph game).start) }
{}

/// Each of the two units leads to one table.
pub fn units_lead_to_one_table<M: GameGraph>()
    ensures expands { (game : M) (old a b : Stored (List ℕ)) (x : List ℕ) (ys : List (List ℕ)) → IsTable old
        → Expands packed_cmp (M.graph game) old a x ys → Expands packed_cmp (M.graph game) old b x ys → a ≡ b }
    ensures settles { (game : M) (old a b : Stored (List ℕ)) (s : ℕ) (r : Record) (w : Player) → IsTable old
        → Settles (M.graph game) old a s r w → Settles (M.graph game) old b s r w → a ≡ b }
{}

/// To expand the next position keeps what is stored so, if the keeper has no choice there and it is not too wide.
pub fn expanding_keeps_sound<M: GameGraph>()
    ensures { (game : M) (old new : Stored (List ℕ)) (x : List ℕ) (ys : List (List ℕ))
        → IsLocallySound (M.graph game) (M.is_wide game) old → Expands packed_cmp (M.graph game) old new x ys
        → (IsChoice (M.graph game) x → ⊥) → (M.is_wide game x → ⊥)
        → IsLocallySound (M.graph game) (M.is_wide game) new }
{}

/// Where all is expanded, processing the next settled position keeps a table locally sound.
pub fn processing_keeps_sound<M: GameGraph>()
    ensures { (game : M) (old new : Stored (List ℕ)) (s : ℕ) (r : Record) (w : Player)
        → IsLocallySound (M.graph game) (M.is_wide game) old → expanded_count old ≡ length old.positions
        → Settles (M.graph game) old new s r w → IsLocallySound (M.graph game) (M.is_wide game) new }
{}

/// To expand the next position is one unit of work, where the limit of positions is kept.
pub fn expanding_is_one_unit<M: GameGraph>()
    ensures { (game : M) (limit : ℕ) (old new : Stored (List ℕ)) (x : List ℕ) (ys : List (List ℕ))
        → IsLocallySound (M.graph game) (M.is_wide game) old → Expands packed_cmp (M.graph game) old new x ys
        → (IsChoice (M.graph game) x → ⊥) → (M.is_wide game x → ⊥) → length new.positions ≤ limit
        → UnitsOfWork packed_cmp (M.graph game) (M.is_wide game) limit (view_of old) 1 (view_of new) }
{}

/// To process the next settled number is one unit of work.
pub fn processing_is_one_unit<M: GameGraph>()
    ensures { (game : M) (limit : ℕ) (old new : Stored (List ℕ)) (s : ℕ) (r : Record) (w : Player)
        → IsLocallySound (M.graph game) (M.is_wide game) old → expanded_count old ≡ length old.positions
        → length old.positions ≤ limit → Settles (M.graph game) old new s r w
        → UnitsOfWork packed_cmp (M.graph game) (M.is_wide game) limit (view_of old) 1 (view_of new) }
{}
