//! The game of a text, and why it has none.
ghost use Rattle.std.specs.Prelude.{◌≡◌, ◌≢◌, ◌≤◌, ◌+◌, ◌*◌, IfOk, IfErr};
ghost use Rattle.rbg_game.specs.Depth.{rules_depth};
ghost use Rattle.rbg_game.specs.Meaning.{game_of};
ghost use Rattle.rbg_game.specs.declared.limits.TheConstants.{MAX_NESTING};
ghost use Rattle.rbg_read.specs.Codes.{fault_code};
ghost use Rattle.rbg_read.specs.Reads.{Reads, Fault};

use rbg_game::game::Game;
use rbg_read::fault::GameFault;
use rbg_read::read::read_game;
use std::alloc::Global;

/// `reads` of `read_game`.
pub fn game_of_text(alloc: Global, text: &[u8]) -> Result<Game, GameFault>
    ensures { IfOk result (λ game. Reads text.now (game_of game)) }
{
    read_game(alloc, text)
}

/// `shallow` of `read_game`.
pub fn shallow_game(alloc: Global, bytes: &[u8]) -> Result<Game, GameFault>
    ensures { IfOk result (λ game. rules_depth game.rules ≤ 4 * MAX_NESTING + 6) }
{
    read_game(alloc, bytes)
}

/// `fault` of `read_game`.
pub fn fault_of_text(alloc: Global, input: &[u8]) -> Result<Game, GameFault>
    ensures { IfErr result (λ fault. fault ≢ GameFault.OutOfMemory → Fault input.now fault) }
{
    read_game(alloc, input)
}

/// The clause of `GameFault::code`.
pub fn code_of(fault: GameFault) -> &'static str
    ensures { result.now ≡ fault_code fault }
{
    fault.code()
}
