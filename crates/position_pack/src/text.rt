//! The text of a position.

ghost use Rattle.std.specs.Prelude.{◌≡◌, ◌<◌, ◌++◌, length, map, All, IfOk};
ghost use Rattle.std.specs.Fmt.{decimal};
ghost use Rattle.rbg_game.specs.Meaning.{game_of};
ghost use Rattle.rbg_game.specs.Sound.{IsSoundGame};
ghost use Rattle.rbg_game.specs.Positions.{IsPositionOf};
ghost use Rattle.position_pack.specs.Texts as spec;
ghost use Rattle.position_pack.specs.Texts.{role_text, with_commas, text_of};
ghost use Rattle.position_pack.specs.lemmas.Texts.{comma_before};

use rbg_game::game::Game;
use rbg_game::position::Position;
use rbg_game::roles::{Player, Role};
use std::alloc::{AllocError, Global};

/// The text of a position: the role, the place, the vertex, the pieces in the order of the board
/// and the values, with one space between and commas in the lists, as `white 2 v e 0,0,3`.
pub fn show(alloc: Global, game: &Game, at: &Position) -> Result<Vec<u8>, AllocError>
    requires sound { IsSoundGame (game_of game.now) }
    requires position { IsPositionOf (game_of game.now) at.now }
    ensures { IfOk result (λ text. text.items ≡ text_of (game_of game.now) at.now) }
{
    let state = &at.state;
    let mut text = Vec::new(alloc);
    put_role(&mut text, game, state.mover)?;
    text.push(b' ')?;
    put_number(alloc, &mut text, u32::from(at.place))?;
    text.push(b' ')?;
    text.extend_from_slice(vertex_name(game, state.vertex))?;
    text.push(b' ')?;
    put_pieces(&mut text, game, &state.pieces)?;
    text.push(b' ')?;
    put_numbers(alloc, &mut text, &state.values)?;
    Ok(text)
}

/// The name of a vertex by its place.
pub fn vertex_name(game: &Game, vertex: u8) -> &[u8]
    requires { vertex < length (game_of game.now).vertices }
    ensures { result.now ≡ spec.vertex_name (game_of game.now) vertex }
{
    &game.vertices[usize::from(vertex)].name.bytes
}

/// The name of a piece by its place.
pub fn piece_name(game: &Game, piece: u8) -> &[u8]
    requires { piece < length (game_of game.now).pieces }
    ensures { result.now ≡ spec.piece_name (game_of game.now) piece }
{
    &game.pieces[usize::from(piece)].bytes
}

fn put_role(text: &mut Vec<u8>, game: &Game, role: Role) -> Result<(), AllocError>
    requires { IsSoundGame (game_of game.now) }
    ensures { IfOk result (λ _. text.new.items ≡ text.old.items ++ role_text (game_of game.now) role) }
{
    match role {
        Role::Keeper => text.extend_from_slice(b">>"),
        Role::Player(Player::First) => text.extend_from_slice(&game.variables[0].name.bytes),
        Role::Player(Player::Second) => text.extend_from_slice(&game.variables[1].name.bytes),
    }
}

fn put_number(alloc: Global, text: &mut Vec<u8>, number: u32) -> Result<(), AllocError>
    ensures { IfOk result (λ _. text.new.items ≡ text.old.items ++ decimal number) }
{
    let digits = number.to_string(alloc)?;
    text.extend_from_slice(digits.as_bytes())
}

/// Puts a comma before each item but the first.
fn put_comma(text: &mut Vec<u8>, index: usize) -> Result<(), AllocError>
    ensures { IfOk result (λ _. text.new.items ≡ text.old.items ++ comma_before index) }
{
    if index > 0 {
        text.push(b',')?;
    }
    Ok(())
}

fn put_pieces(text: &mut Vec<u8>, game: &Game, pieces: &[u8]) -> Result<(), AllocError>
    requires { All (λ x. x < length (game_of game.now).pieces) pieces.now }
    ensures { IfOk result (λ _. text.new.items ≡ text.old.items ++ with_commas (map (spec.piece_name (game_of game.now)) pieces.now)) }
{
    for (index, piece) in pieces.iter().enumerate() {
        put_comma(text, index)?;
        text.extend_from_slice(piece_name(game, *piece))?;
    }
    Ok(())
}

fn put_numbers(alloc: Global, text: &mut Vec<u8>, numbers: &[u32]) -> Result<(), AllocError>
    ensures { IfOk result (λ _. text.new.items ≡ text.old.items ++ with_commas (map decimal numbers.now)) }
{
    for (index, number) in numbers.iter().enumerate() {
        put_comma(text, index)?;
        put_number(alloc, text, *number)?;
    }
    Ok(())
}
