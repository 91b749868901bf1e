//! Positions as bytes, and as text.
ghost use Rattle.std.specs.Prelude.{◌≡◌, ◌<◌, length, MatchOption};
ghost use Rattle.rbg_game.specs.Meaning.{game_of};
ghost use Rattle.rbg_game.specs.Names.{HasProperNames};
ghost use Rattle.rbg_game.specs.Sound.{IsSoundGame};
ghost use Rattle.rbg_game.specs.declared.position.Position.{Position};
ghost use Rattle.position_pack.specs.Bits.{field_at, greatest_of};
ghost use Rattle.position_pack.specs.Bytes.{bytes_of};
ghost use Rattle.position_pack.specs.Packings.{packed_by, IsPacked};
ghost use Rattle.position_pack.specs.Spelled.{IsSpelled};

use position_pack::{Packed, Packing};
use rbg_game::game::Game;
use rbg_game::position::Position;

/// The clause of `Packing::pack`.
pub fn pack(packing: &Packing, at: &Position) -> Packed
    ensures { result.items ≡ packed_by packing.now.kind packing.now.shape at.now }
{
    packing.pack(at)
}

/// The clause of `pack_bytes`.
pub fn pack_bytes(at: &Position) -> Packed
    ensures { result.items ≡ bytes_of at.now }
{
    position_pack::pack_bytes(at)
}

/// The clause of `Packing::unpack`.
pub fn unpack(packing: &Packing, bytes: &[u8]) -> Option<Position>
    ensures { MatchOption result ((at : Position) → ¬ IsPacked packing.now at bytes.now) (λ at. IsPacked packing.now at bytes.now) }
{
    packing.unpack(bytes)
}

/// The clause of `Packing::field`.
pub fn field(packing: &Packing, number: usize, bytes: &[u8]) -> u32
    requires { number < length (greatest_of packing.now.shape) }
    ensures { result ≡ field_at packing.now.shape number bytes.now }
{
    packing.field(number, bytes)
}

/// The clause of `read_position`.
pub fn read_position(game: &Game, text: &[u8]) -> Option<Position>
    requires sound { IsSoundGame (game_of game.now) }
    requires names { HasProperNames (game_of game.now) }
    ensures { MatchOption result ((at : Position) → ¬ IsSpelled (game_of game.now) at text.now)
        (λ at. IsSpelled (game_of game.now) at text.now) }
{
    position_pack::read_position(game, text)
}
