//! The lines that are printed.

ghost use Rattle.std.specs.Prelude.{◌≡◌, ◌++◌, map, IfOk};
ghost use Rattle.rbg_game.specs.Meaning.{game_of};
ghost use Rattle.rbg_game.specs.Sound.{IsSoundGame};
ghost use Rattle.rbg_game.specs.Positions.{IsPositionOf};
ghost use Rattle.position_pack.specs.Texts.{vertex_name};
ghost use Rattle.session_lines.specs.Lines.{modifier_text, line_of};

use legal_moves::moves::Modifier;
use position_pack::show;
use rbg_game::game::Game;
use rbg_game::position::Position;
use std::alloc::{AllocError, Global};

/// The line of a move: its modifiers, each as `NUMBER@VERTEX`, then `=>` and the position.
pub fn move_line(
    alloc: Global,
    game: &Game,
    word: &[Modifier],
    next: &Position,
) -> Result<Vec<u8>, AllocError>
    requires sound { IsSoundGame (game_of game.now) }
    requires position { IsPositionOf (game_of game.now) next.now }
    ensures { IfOk result (λ line. line.items ≡ line_of (game_of game.now) (map (λ m. (m.number, m.vertex)) word.now) next.now) }
{
    let mut line = Vec::new(alloc);
    for modifier in word {
        put_modifier(alloc, &mut line, game, *modifier)?;
    }
    line.extend_from_slice(b"=> ")?;
    let position = show(alloc, game, next)?;
    line.extend_from_slice(&position)?;
    line.push(b'\n')?;
    Ok(line)
}

/// The name of a vertex; there is none for a place after the last.
fn name_of_vertex(game: &Game, vertex: u8) -> &[u8]
    ensures { result.now ≡ vertex_name (game_of game.now) vertex }
{
    match game.vertices.get(usize::from(vertex)) {
        Some(vertex) => &vertex.name.bytes,
        None => &[],
    }
}

/// Puts a modifier after a line, as `NUMBER@VERTEX` and a space.
pub(crate) fn put_modifier(
    alloc: Global,
    line: &mut Vec<u8>,
    game: &Game,
    modifier: Modifier,
) -> Result<(), AllocError>
    ensures { IfOk result (λ _. line.new.items ≡ line.old.items ++ modifier_text (game_of game.now) (modifier.number, modifier.vertex)) }
{
    let number = modifier.number.to_string(alloc)?;
    line.extend_from_slice(number.as_bytes())?;
    line.push(b'@')?;
    line.extend_from_slice(name_of_vertex(game, modifier.vertex))?;
    line.push(b' ').map_err(AllocError::from)
}
