//! What is so of the small game: each function's contract is one.
ghost use Rattle.std.specs.Prelude.{◌≡◌, ◌⊎◌, ◌↔◌, ℕ, None};
ghost use Rattle.legal_moves.specs.Moves.{IsSuccessor, start_of};
ghost use Rattle.legal_moves.specs.Sources.{graph_of};
ghost use Rattle.position_pack.specs.declared.kind.PackingKind.{PackingKind};
ghost use Rattle.rbg_game.specs.declared.position.Position.{Position};
ghost use Rattle.rbg_game.specs.declared.roles.Player.{Player};
ghost use Rattle.rbg_game.specs.declared.roles.Player.TheVariants.{First};
ghost use Rattle.rbg_read.specs.Reads.{Reads};
ghost use Rattle.retrograde.specs.Values.{WonIn, Drawn};
ghost use Rattle.witness.specs.Game.{witness_text, witness_game, white_chooses, black_has_won, white_has_won};

/// The text reads to the game.
pub fn the_text_reads_to_the_game()
    ensures { Reads witness_text witness_game }
{}

/// The keeper can only hand over to white, and white has a real choice.
pub fn white_has_a_choice()
    ensures keeper { (next : Position) → IsSuccessor witness_game (start_of witness_game) next ↔ (next ≡ white_chooses) }
    ensures white { (next : Position) → IsSuccessor witness_game white_chooses next
        ↔ ((next ≡ black_has_won) ⊎ (next ≡ white_has_won)) }
{}

/// White wins the start in two moves, and in no fewer, however positions are packed.
pub fn white_wins_the_start_in_two()
    ensures { (kind : PackingKind) → WonIn (graph_of kind None witness_game) First 2 (graph_of kind None witness_game).start }
{}

/// Nobody wins the start in another number of moves, nor is it drawn.
pub fn nothing_else_is_so()
    ensures won { (kind : PackingKind) (w : Player) (n : ℕ) → WonIn (graph_of kind None witness_game) w n (graph_of kind None witness_game).start
        → (w ≡ First) × (n ≡ 2) }
    ensures drawn { (kind : PackingKind) → ¬ Drawn (graph_of kind None witness_game) (graph_of kind None witness_game).start }
{}
