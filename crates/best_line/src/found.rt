//! The positions that moves lead to.
ghost use Rattle.std.specs.Prelude.{◌<◌, All, IfSome, length, slice_get};
ghost use Rattle.legal_moves.specs.Compiled.{compiled_game, IsSoundCompiled};
ghost use Rattle.legal_moves.specs.Sources.{IsAt};
ghost use Rattle.position_pack.specs.declared.kind.PackingKind.TheVariants.{Bytes};
ghost use Rattle.best_line.specs.lemmas.Found.{LeadsToPosition};

use legal_moves::{Compiled, Moves};
use position_pack::{Packing, PackingKind};
use rbg_game::position::Position;

/// The position that the move with this index leads to.
pub fn successor_of(compiled: &Compiled, moves: &Moves, k: usize) -> Position
    requires compiled { IsSoundCompiled compiled.now }
    requires positions { All (LeadsToPosition (compiled_game compiled.now)) moves.now }
    requires index { k < length moves.now }
    ensures { IfSome (slice_get moves.now k) (λ m. IsAt Bytes (compiled_game compiled.now) m.next result) }
{
    let rows = Packing::new(compiled.game(), PackingKind::Bytes);
    let Some(next) = rows.unpack(moves.successor(k)) else {
        unreachable!()
    };
    next
}
