//! The lines of the moves of a known position.

ghost use Rattle.std.specs.Prelude.{◌≡◌, ◌∷◌, [], ◌++◌, codes, map, IfOk};
ghost use Rattle.std.specs.List.{flat_map};
ghost use Rattle.rbg_game.specs.Meaning.{game_of};
ghost use Rattle.session_lines.specs.Lines.{modifier_text};
ghost use Rattle.session_lines.specs.Known.{known_line, known_lines, number_text};
ghost use Rattle.session_lines.specs.Replies.{value_text};

use crate::lines::put_modifier;
use crate::replies::{put_number, put_value};
use best_line::KnownMove;
use legal_moves::moves::Modifier;
use rbg_game::game::Game;
use std::alloc::{AllocError, Global};

/// Puts the number of a position after a line, or `?` where it is not known.
fn put_known_number(
    alloc: Global,
    line: &mut Vec<u8>,
    number: Option<u32>,
) -> Result<(), AllocError>
    ensures { IfOk result (λ _. line.new.items ≡ line.old.items ++ number_text number) }
{
    match number {
        Some(number) => put_number(alloc, line, number),
        None => line.push(b'?').map_err(AllocError::from),
    }
}

/// Puts the modifiers of a word after a line.
fn put_word(
    alloc: Global,
    line: &mut Vec<u8>,
    game: &Game,
    word: &[Modifier],
) -> Result<(), AllocError>
    ensures { IfOk result (λ _. line.new.items ≡ line.old.items ++ flat_map (modifier_text (game_of game.now)) (map
        (λ m. (m.number, m.vertex)) word.now)) }
{
    for modifier in word {
        put_modifier(alloc, line, game, *modifier)?;
    }
    Ok(())
}

/// Puts the number and the value of a position after the text.
fn put_number_and_value(
    alloc: Global,
    text: &mut Vec<u8>,
    game: &Game,
    known: &KnownMove,
) -> Result<(), AllocError>
    ensures { IfOk result (λ _. text.new.items ≡ text.old.items ++ (number_text known.now.number ++ (32 ∷ value_text (game_of game.now) known.now.value))) }
{
    put_known_number(alloc, text, known.number)?;
    text.push(b' ')?;
    put_value(alloc, text, game, known.value)
}

/// Puts the text of a position after an arrow, and ends the line.
fn put_end(text: &mut Vec<u8>, position: &[u8]) -> Result<(), AllocError>
    ensures { IfOk result (λ _. text.new.items ≡ text.old.items ++ (codes "=> " ++ (position.now ++ 10 ∷ []))) }
{
    text.extend_from_slice(b"=> ")?;
    text.extend_from_slice(position)?;
    text.push(b'\n').map_err(AllocError::from)
}

/// Puts the line of a move after the text: `NUMBER VALUE MOVE => POSITION`.
fn put_known_move(
    alloc: Global,
    text: &mut Vec<u8>,
    game: &Game,
    known: &KnownMove,
) -> Result<(), AllocError>
    ensures { IfOk result (λ _. text.new.items ≡ text.old.items ++ known_line (game_of game.now) known.now) }
{
    put_number_and_value(alloc, text, game, known)?;
    text.push(b' ')?;
    put_word(alloc, text, game, &known.word)?;
    put_end(text, &known.text)?;
    Ok(())
}

/// The lines of moves in their order, each with the number and the value of the position that it leads to: `ended` where there is none.
pub fn known_move_lines(
    alloc: Global,
    game: &Game,
    moves: &[KnownMove],
) -> Result<Vec<u8>, AllocError>
    ensures { IfOk result (λ text. text.items ≡ known_lines (game_of game.now) moves.now) }
{
    let mut text = Vec::new(alloc);
    if moves.is_empty() {
        text.extend_from_slice(b"ended\n")?;
        return Ok(text);
    }
    for known in moves {
        put_known_move(alloc, &mut text, game, known)?;
    }
    Ok(text)
}
