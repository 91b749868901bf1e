//! Reads a game text.

ghost use Rattle.std.specs.Prelude.{◌≡◌, ◌≢◌, ◌≤◌, ◌+◌, ◌*◌, IfOk, IfErr};
ghost use Rattle.rbg_game.specs.Games.{Game as TextbookGame};
ghost use Rattle.rbg_game.specs.Sound.{IsSoundGame};
ghost use Rattle.rbg_game.specs.Meaning.{game_of};
ghost use Rattle.rbg_game.specs.Depth.{rules_depth};
ghost use Rattle.rbg_read.specs.Reads.{Reads, Fault};

use crate::build::build;
use crate::checks::check;
use crate::fault::GameFault;
use crate::names::Names;
use crate::parts::collect;
use rbg_game::game::Game;
use rbg_game::limits::{MAX_NESTING, MAX_TEXT_BYTES};
use rbg_text::lexer;
use rbg_text::nesting::nesting;
use rbg_text::read::read_sections;
use std::alloc::Global;

/// The game that a text reads to, or the first cause for which it is no game.
pub fn read_game(alloc: Global, text: &[u8]) -> Result<Game, GameFault>
    ensures reads { IfOk result (λ game. Reads text.now (game_of game)) }
    ensures sound { IfOk result (λ game. IsSoundGame (game_of game)) }
    // No list of terms, factors, branches or parts makes its tree deeper: only brackets do.
    ensures shallow { IfOk result (λ game. rules_depth game.rules ≤ 4 * MAX_NESTING + 6) }
    ensures fault { IfErr result (λ fault. fault ≢ GameFault.OutOfMemory → Fault text.now fault) }
    // A text that reads to a game is refused for want of memory alone.
    ensures only { (game : TextbookGame) → Reads text.now game → IfErr result (λ fault. fault ≡ GameFault.OutOfMemory) }
{
    if text.len() > MAX_TEXT_BYTES {
        return Err(GameFault::TooLarge);
    }
    let tokens = lexer::tokens(alloc, text)?;
    if nesting(tokens.as_slice()) > MAX_NESTING {
        return Err(GameFault::TooLarge);
    }
    let sections = read_sections(alloc, tokens.as_slice())?;
    let Some(parts) = collect(alloc, sections)? else {
        return Err(GameFault::Section);
    };
    let names = Names::of(alloc, &parts)?;
    check(alloc, &names, &parts)?;
    Ok(build(alloc, &names, &parts)?)
}
