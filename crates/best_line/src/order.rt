//! The moves of a position, the best first.
ghost use Rattle.std.specs.Prelude.{◌≡◌, IfOk};
ghost use Rattle.best_line.specs.Order.{IsBestFirst, rank_of};

use crate::Value;
use crate::known::{KnownMove, KnownMoves};
use rbg_game::roles::Role;
use std::alloc::AllocError;

/// The rank of a draw, after all wins.
const DRAWN: u64 = 4_294_967_296;

/// The rank of what is open, after a draw.
const OPEN: u64 = 4_294_967_297;

/// From the rank of a loss each move that it takes is taken off, so that the longest comes first.
const LOST: u64 = 8_589_934_593;

impl KnownMoves {
    /// The moves in another order, the best first for who has the turn: those by which he wins, by the fewest moves; then the drawn;
    /// then those whose value is open; then those by which he loses, by the most moves. Moves of the same worth stay by ascending
    /// bytes, and so do all of the keeper's. Only for want of memory is it refused.
    pub fn into_best_first(self) -> Result<Vec<KnownMove>, AllocError>
        ensures { IfOk result (λ sorted. IsBestFirst self.mover self.moves.items sorted.items) }
    {
        let KnownMoves { mover, mut moves } = self;
        moves.sort_by_key(|known| rank_of(mover, known.value))?;
        Ok(moves)
    }
}

/// How far a value stands after the best for who has the turn.
fn rank_of(mover: Role, value: Value) -> u64
    ensures { result ≡ rank_of mover value }
{
    let Role::Player(player) = mover else {
        return 0;
    };
    match value {
        Value::Won(winner, moves) if winner == player => u64::from(moves),
        Value::Won(_, moves) => LOST - u64::from(moves),
        Value::Drawn => DRAWN,
        Value::Open => OPEN,
    }
}
