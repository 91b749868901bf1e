//! What holds of every game and its tables: each is a law, which proofs cite by a call, or by the lemma of the same name in specs/.
ghost use Rattle.std.specs.Prelude.{◌≡◌, ◌≤◌, ℕ, List, length, Option};
ghost use Rattle.rbg_game.specs.Games.{Game};
ghost use Rattle.rbg_game.specs.Positions.{IsPositionOf};
ghost use Rattle.rbg_text.specs.Token.{Text};
ghost use Rattle.rbg_read.specs.Reads.{Reads};
ghost use Rattle.position_pack.specs.declared.kind.PackingKind.{PackingKind};
ghost use Rattle.legal_moves.specs.Moves.{start_of};
ghost use Rattle.legal_moves.specs.Sources.{IsPositionBytes, IsWideAt, graph_of};
ghost use Rattle.retrograde.specs.Stored.{Stored, loaded};
ghost use Rattle.retrograde.specs.Sound.{IsLocallySound};
ghost use Rattle.table.specs.Fit.{FitsTogether};
ghost use Rattle.game_table.specs.Tables.{ArePositions, packed_length, IsWorkOf};
ghost use Rattle.rbg_game.specs.declared.limits.TheConstants.{MAX_TEXT_BYTES};

/// A text that reads to a game has at most 65,536 bytes.
pub fn texts_are_short()
    ensures { (text : Text) (game : Game) → Reads text game → length text ≤ MAX_TEXT_BYTES }
{}

/// The start of a game that a text reads to is a position of the game.
pub fn starts_are_positions()
    ensures { (text : Text) (game : Game) → Reads text game → IsPositionOf game (start_of game) }
{}

/// The positions of a game have as many bytes as each other.
pub fn positions_have_one_length()
    ensures { (kind : PackingKind) (game : Game) (x : List ℕ) → IsPositionBytes kind game x → length x ≡ packed_length kind game }
{}

/// A table that agrees with itself at each number stores positions of the game alone, so its parts fit together and its
/// positions have their length.
pub fn sound_tables_fit()
    ensures { (kind : PackingKind) (goal : Option ℕ) (game : Game) (stored : Stored (List ℕ)) → IsPositionOf game (start_of game)
        → IsLocallySound (graph_of kind goal game) (IsWideAt kind game) stored
        → ArePositions kind game stored × FitsTogether (packed_length kind game) stored }
{}

/// The table of a game that was just loaded agrees with itself at each number.
pub fn a_first_table_is_sound()
    ensures { (kind : PackingKind) (goal : Option ℕ) (game : Game)
        → IsLocallySound (graph_of kind goal game) (IsWideAt kind game) (loaded (graph_of kind goal game).start) }
{}

/// Work leads from a table to one, whoever does it, however often it is stopped and in how many steps: as many units as are asked, or as are
/// left to do.
pub fn work_leads_to_one_table()
    ensures { (kind : PackingKind) (goal : Option ℕ) (game : Game) (units n m : ℕ) (old a b : Stored (List ℕ))
        → IsWorkOf kind goal game units old n a → IsWorkOf kind goal game units old m b → (n ≡ m) × (a ≡ b) }
{}
