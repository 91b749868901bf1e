//! Roles, vertices and pieces by their names.

ghost use Rattle.std.specs.Prelude.{◌≡◌, ◌≢◌, ℕ, MatchOption};
ghost use Rattle.rbg_game.specs.Meaning.{game_of};
ghost use Rattle.rbg_game.specs.Sound.{IsSoundGame};
ghost use Rattle.position_pack.specs.Texts.{role_text};
ghost use Rattle.position_pack.specs.lemmas.Spelled.{IsVertex, IsPiece};

use crate::text::{piece_name, vertex_name};
use rbg_game::game::Game;
use rbg_game::roles::{Player, Role};

/// The role with this text, `>>` or the name of a player: none where no role has it.
pub fn read_role(game: &Game, bytes: &[u8]) -> Option<Role>
    requires { IsSoundGame (game_of game.now) }
    ensures { MatchOption result ((role : Role) → bytes.now ≢ role_text (game_of game.now) role)
        (λ role. bytes.now ≡ role_text (game_of game.now) role) }
{
    if bytes == b">>".as_slice() {
        Some(Role::Keeper)
    } else if bytes == game.variables[0].name.bytes.as_slice() {
        Some(Role::Player(Player::First))
    } else if bytes == game.variables[1].name.bytes.as_slice() {
        Some(Role::Player(Player::Second))
    } else {
        None
    }
}

/// The place of the vertex with this name: none where no vertex has it.
pub fn read_vertex(game: &Game, bytes: &[u8]) -> Option<u8>
    requires { IsSoundGame (game_of game.now) }
    ensures { MatchOption result ((k : ℕ) → ¬ IsVertex (game_of game.now) bytes.now k) (IsVertex (game_of game.now) bytes.now) }
{
    for vertex in 0..game.vertices.len() as u8 {
        if vertex_name(game, vertex) == bytes {
            return Some(vertex);
        }
    }
    None
}

/// The place of the piece with this name: none where no piece has it.
pub fn read_piece(game: &Game, bytes: &[u8]) -> Option<u8>
    requires { IsSoundGame (game_of game.now) }
    ensures { MatchOption result ((k : ℕ) → ¬ IsPiece (game_of game.now) bytes.now k) (IsPiece (game_of game.now) bytes.now) }
{
    for piece in 0..game.pieces.len() as u8 {
        if piece_name(game, piece) == bytes {
            return Some(piece);
        }
    }
    None
}
