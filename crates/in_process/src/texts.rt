//! What is asked of a game's text alone.
ghost use Rattle.std.specs.Prelude.{◌≡◌, ◌⊎◌, ℕ, List};
ghost use Rattle.legal_moves.specs.Moves.{start_of};
ghost use Rattle.session_lines.specs.Actions.{TellsActions};
ghost use Rattle.session_lines.specs.Answers.{IsMovesAnswer, TellsMoves, TellsMovesAt};
ghost use Rattle.in_process.specs.Given.{IsGiven};

use crate::given::give_text;
use session_lines::actions::actions_to;
use session_lines::moves::{moves_at, moves_to};
use std::alloc::Global;

/// The moves of the start of the game that the text reads to, as `rbgsolve moves` prints them. Gives the exit status, and 4
/// where memory ran out for what is printed.
#[unsafe(no_mangle)]
pub extern "C" fn rbg_moves(alloc: Global, text: &[u8], out: &mut [u8], count: &mut usize) -> u8
    ensures { (result ≡ 4) ⊎ ((written : List ℕ)
        × IsMovesAnswer text.now (λ game. TellsMoves game (start_of game)) result written
        × IsGiven written out.old out.new count.new) }
{
    let mut written = Vec::new(alloc);
    let status = moves_to(alloc, text, &mut written);
    give_text(&written, out, count);
    status
}

/// The moves of the position with this text, as `rbg_moves` gives those of the start.
#[unsafe(no_mangle)]
pub extern "C" fn rbg_moves_at(
    alloc: Global,
    text: &[u8],
    position: &[u8],
    out: &mut [u8],
    count: &mut usize,
) -> u8
    ensures { (result ≡ 4) ⊎ ((written : List ℕ)
        × IsMovesAnswer text.now (λ game. TellsMovesAt game position.now) result written
        × IsGiven written out.old out.new count.new) }
{
    let mut written = Vec::new(alloc);
    let status = moves_at(alloc, text, position, &mut written);
    give_text(&written, out, count);
    status
}

/// The numbered actions of the game's rules, as `rbgsolve actions` prints them.
#[unsafe(no_mangle)]
pub extern "C" fn rbg_actions(alloc: Global, text: &[u8], out: &mut [u8], count: &mut usize) -> u8
    ensures { (result ≡ 4) ⊎ ((written : List ℕ)
        × IsMovesAnswer text.now (TellsActions text.now) result written
        × IsGiven written out.old out.new count.new) }
{
    let mut written = Vec::new(alloc);
    let status = actions_to(alloc, text, &mut written);
    give_text(&written, out, count);
    status
}
