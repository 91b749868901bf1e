//! Why a text is no game.
ghost use Rattle.std.specs.Prelude.{◌≡◌, []};
ghost use Rattle.rbg_game.specs.Games.{Game};
ghost use Rattle.rbg_read.specs.Reads.{Reads, Fault};
ghost use Rattle.rbg_read.specs.declared.fault.GameFault.{GameFault};
ghost use Rattle.in_process.specs.Given.{IsGiven};

use crate::given::{NO_MEMORY, give_text};
use explanations::explain::{Explanation, explain};
use numbered_actions::lines::{LineColumn, line_column};
use rbg_read::fault::GameFault;
use rbg_read::read::read_game;
use std::alloc::{AllocError, Global};

/// Where and why a text is no game, as `LINE COLUMN CODE WORDS`, with status 1; the words are those of `rbgsolve moves` on standard
/// error. Nothing, with status 0, where it is a game.
#[unsafe(no_mangle)]
pub extern "C" fn rbg_fault(alloc: Global, text: &[u8], out: &mut [u8], count: &mut usize) -> u8
    ensures game { result ≡ 0 → (game : Game) × Reads text.now game }
    ensures nothing { result ≡ 0 → IsGiven [] out.old out.new count.new }
    ensures fault { result ≡ 1 → (why : GameFault) × Fault text.now why }
{
    let fault = match read_game(alloc, text) {
        Ok(_) => {
            give_text(&[], out, count);
            return 0;
        }
        Err(fault) => fault,
    };
    *count = 0;
    if fault == GameFault::OutOfMemory {
        return NO_MEMORY;
    }
    match explained(alloc, text, fault) {
        Ok(line) => {
            give_text(line.as_bytes(), out, count);
            1
        }
        Err(_) => NO_MEMORY,
    }
}

/// The line of a fault.
fn explained(alloc: Global, text: &[u8], fault: GameFault) -> Result<String, AllocError> {
    let Explanation { at, message } = explain(alloc, text, fault)?;
    let LineColumn { line, column } = line_column(text, at);
    let code = fault.code();
    format!(in alloc; "{line} {column} {code} {message}")
}
