//! Where moves lead, and who is ahead.
ghost use Rattle.std.specs.Prelude.{◌≡◌, ◌<◌, Some, Err, IfOk, IfSome, IsOk, length, map, option_map, slice_get};
ghost use Rattle.rbg_game.specs.Positions.{IsPositionOf};
ghost use Rattle.legal_moves.specs.Compiled.{compiled_game, compiled_goal, packing_kind, IsSoundCompiled};
ghost use Rattle.legal_moves.specs.Listed.{IsShortestMove, ListsExactly, ShownMove};
ghost use Rattle.legal_moves.specs.Sources.{graph_of};

use legal_moves::{Compiled, Modifier, MoveFault, MoveSource, Moves};
use position_pack::Packed;
use rbg_game::position::Position;
use rbg_game::roles::Player;
use smallvec::SmallVec;
use std::alloc::{AllocError, Global};

/// The clause of `MoveSource::ahead`.
pub fn ahead<S: MoveSource>(source: &S, at: &Packed) -> Option<Player>
    requires { S.is_sound source.now }
    ensures { result ≡ (S.graph source.now).ahead at.now.items }
{
    source.ahead(at)
}

/// `exact` of `MoveSource::successors`.
pub fn successors<S: MoveSource>(
    source: &S,
    alloc: Global,
    at: &Packed,
) -> Result<Vec<Packed>, MoveFault>
    requires { S.is_sound source.now }
    ensures { IfOk result (λ found. ListsExactly ((S.graph source.now).Successor at.now.items) (map (λ p. p.items) found.items)) }
{
    source.successors(alloc, at)
}

/// `exact` of `MoveSource::successors`, of a game that is compiled.
pub fn compiled_successors(
    compiled: &Compiled,
    alloc: Global,
    at: &Packed,
) -> Result<Vec<Packed>, MoveFault>
    requires { IsSoundCompiled compiled.now }
    ensures { IfOk result (λ found. ListsExactly
        ((graph_of (packing_kind compiled.now) (compiled_goal compiled.now) (compiled_game compiled.now)).Successor at.now.items)
        (map (λ p. p.items) found.items)) }
{
    compiled.successors(alloc, at)
}

/// `wide` of `MoveSource::successors`.
pub fn successors_or_wide<S: MoveSource>(
    source: &S,
    alloc: Global,
    from: &Packed,
) -> Result<Vec<Packed>, MoveFault>
    requires { S.is_sound source.now }
    ensures { result ≡ Err MoveFault.TooWide → S.is_wide source.now from.now.items }
{
    source.successors(alloc, from)
}

/// `narrow` of `MoveSource::successors`.
pub fn narrow_successors<S: MoveSource>(
    source: &S,
    alloc: Global,
    place: &Packed,
) -> Result<Vec<Packed>, MoveFault>
    requires { S.is_sound source.now }
    ensures { IsOk result → ¬ S.is_wide source.now place.now.items }
{
    source.successors(alloc, place)
}

/// `shortest` of `Compiled::moves`, as the clause of `Moves::word` shows it of the first move.
pub fn first_word(
    compiled: &Compiled,
    alloc: Global,
    at: &Position,
) -> Result<Option<SmallVec<Modifier, 16>>, MoveFault>
    requires { IsPositionOf (compiled_game compiled.now) at.now }
    ensures { IfOk result (λ first. IfSome first (λ w. (move : ShownMove) × IsShortestMove (compiled_game compiled.now) at.now move
        × (move.shown ≡ map (λ m. (m.number, m.vertex)) w.items))) }
{
    let moves = compiled.moves(alloc, at)?;
    if moves.len() == 0 {
        return Ok(None);
    }
    let word = moves.word(alloc, 0)?;
    Ok(Some(word))
}

/// The clause of `Moves::word`.
pub fn word(moves: &Moves, alloc: Global, k: usize) -> Result<SmallVec<Modifier, 16>, AllocError>
    requires { k < length moves.now }
    ensures { IfOk result (λ w. option_map (λ m. m.shown) (slice_get moves.now k) ≡ Some (map (λ m. (m.number, m.vertex)) w.items)) }
{
    moves.word(alloc, k)
}
