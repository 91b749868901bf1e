//! The graph of a game.
ghost use Rattle.std.specs.Prelude.{ℕ, List};
ghost use Rattle.retrograde.specs.Graph.{Graph};

/// A game whose positions are bytes. Only proofs speak of it.
pub trait GameGraph {
    /// Where play starts, who has the turn, who is ahead, and where a move can lead.
    ghost graph: { Self → Graph (List ℕ) };

    /// The positions that are not expanded, since the search for their moves would be too wide.
    ghost is_wide: { Self → List ℕ → Type 0 };
}
