//! The position that a text spells.

ghost use Rattle.std.specs.Prelude.{◌≡◌, ℕ, List, MatchOption};
ghost use Rattle.rbg_game.specs.Meaning.{game_of};
ghost use Rattle.rbg_game.specs.Sound.{IsSoundGame};
ghost use Rattle.rbg_game.specs.Names.{HasProperNames};
ghost use Rattle.rbg_game.specs.declared.position.Position.{Position};
ghost use Rattle.position_pack.specs.Spelled.{IsSpelled};
ghost use Rattle.position_pack.specs.lemmas.Spelled.{ArePieces, AreNumbers};

use crate::names::{read_piece, read_role, read_vertex};
use crate::numbers::{read_place, read_value};
use crate::words::{cut, words_of};
use arrayvec::ArrayVec;
use rbg_game::game::Game;
use rbg_game::position::{Position, SemiState};

/// The position of this game that the text spells: none where the text is that of no position of
/// the game. A position has one text, as `white 2 v e 0,0,3`; with a zero or a blank too many, a
/// value over its bound, or anything after it there is none. It takes no memory and always
/// answers.
pub fn read_position(game: &Game, text: &[u8]) -> Option<Position>
    requires sound { IsSoundGame (game_of game.now) }
    requires names { HasProperNames (game_of game.now) }
    ensures { MatchOption result ((at : Position) → ¬ IsSpelled (game_of game.now) at text.now)
        (λ at. IsSpelled (game_of game.now) at text.now) }
{
    let words = words_of(text)?;
    let mover = read_role(game, words.role)?;
    let place = read_place(game, words.place)?;
    let vertex = read_vertex(game, words.vertex)?;
    let pieces = read_pieces(game, words.pieces)?;
    let values = read_values(game, words.values)?;
    Some(Position {
        state: SemiState {
            mover,
            pieces,
            values,
            vertex,
        },
        place,
    })
}

/// The pieces with these names, with commas between: none where they are not as many as the
/// vertices, or one is unknown.
fn read_pieces(game: &Game, bytes: &[u8]) -> Option<ArrayVec<u8, 128>>
    requires sound { IsSoundGame (game_of game.now) }
    requires names { HasProperNames (game_of game.now) }
    ensures { MatchOption result ((pieces : List ℕ)
        → ¬ ArePieces (game_of game.now) bytes.now pieces) (λ pieces. ArePieces (game_of game.now) bytes.now pieces.items) }
{
    let mut pieces = ArrayVec::new();
    let mut rest = bytes;
    for _index in 0..game.vertices.len() - 1 {
        let (word, behind) = cut(rest, b',')?;
        pieces.push(read_piece(game, word)?);
        rest = behind;
    }
    pieces.push(read_piece(game, rest)?);
    Some(pieces)
}

/// The values with these decimals, with commas between: none where they are not as many as the
/// variables, or one is no decimal up to its bound.
fn read_values(game: &Game, bytes: &[u8]) -> Option<ArrayVec<u32, 34>>
    requires { IsSoundGame (game_of game.now) }
    ensures { MatchOption result ((values : List ℕ)
        → ¬ AreNumbers (game_of game.now) bytes.now values) (λ values. AreNumbers (game_of game.now) bytes.now values.items) }
{
    let mut values = ArrayVec::new();
    let mut rest = bytes;
    let last = game.variables.len() - 1;
    for index in 0..last {
        let (word, behind) = cut(rest, b',')?;
        values.push(read_value(game, index, word)?);
        rest = behind;
    }
    values.push(read_value(game, last, rest)?);
    Some(values)
}
