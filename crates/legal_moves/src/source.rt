//! Where moves come from.
ghost use Rattle.std.specs.Prelude.{◌≡◌, ◌≤◌, ℕ, List, Err, map, vec_len, IfOk, IsOk};
ghost use Rattle.legal_moves.specs.Listed.{ListsExactly};
ghost use Rattle.legal_moves.specs.declared.limits.TheConstants.{WIDEST};

use crate::fault::MoveFault;
use position_pack::Packed;
use rbg_game::roles::{Player, Role};
use retrograde::GameGraph;
use std::alloc::Global;

/// The positions of one game as bytes, and the moves between them.
///
/// A call asks that the source is sound, and nothing of the bytes that it is given: bytes that are
/// no position of the game have no successor, and are not too wide.
pub trait MoveSource: GameGraph {
    /// It stands for a game within its limits.
    ghost is_sound: { Self → Type 0 };

    /// These are the bytes of a position.
    ghost is_position: { Self → List ℕ → Type 0 };

    /// The bytes of the start.
    fn start(&self) -> Packed
        requires { is_sound self.now }
        ensures value { result.items ≡ (Self.graph self.now).start }
        ensures position { is_position self.now result.items };

    /// Whose turn it is.
    fn mover(&self, at: &Packed) -> Role
        requires { is_sound self.now }
        ensures { result ≡ (Self.graph self.now).mover at.now.items };

    /// The player who is ahead: the one with more points, or in a table with a goal the one who has at least this many while the other has fewer.
    fn ahead(&self, at: &Packed) -> Option<Player>
        requires { is_sound self.now }
        ensures { result ≡ (Self.graph self.now).ahead at.now.items };

    /// Where a move leads, each position once, by ascending bytes. Only for want of memory may the
    /// other error come.
    fn successors(&self, alloc: Global, at: &Packed) -> Result<Vec<Packed>, MoveFault>
        requires { is_sound self.now }
        ensures exact { IfOk result (λ found. ListsExactly ((Self.graph self.now).Successor at.now.items) (map
            (λ p. p.items) found.items)) }
        ensures few { IfOk result (λ found. vec_len found ≤ WIDEST) }
        ensures wide { result ≡ Err MoveFault.TooWide → Self.is_wide self.now at.now.items }
        ensures narrow { IsOk result → ¬ Self.is_wide self.now at.now.items };

    /// The start is a position.
    ghost start_is_position: { (s : Self) → is_sound s → is_position s (Self.graph s).start };

    /// Moves lead from positions to positions.
    ghost moves_are_between_positions: { (s : Self) (x y : List ℕ) → is_sound s → (Self.graph s).Successor x y → is_position s x
        × is_position s y };
}
