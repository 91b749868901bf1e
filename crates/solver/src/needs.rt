//! Whether a solver may be asked and worked on. E9 comes first, then S1.
ghost use Rattle.std.specs.Prelude.{◌≡◌, ◌<◌, false, Some, IsSome, IsOk, OnOk, IfOk, IfErr};
ghost use Rattle.solver.specs.Frames.{HasGame, NeedsGame};
ghost use Rattle.solver.specs.Queries.{AskCause, NumberCause};
ghost use Rattle.solver.specs.State.{IsSourceOf};

use crate::SolverFault;
use game_file::GameFile;
use game_table::Source;
use table::Table;

/// Whether a game is loaded in an open file: E9, S1.
pub fn needs_game<F: GameFile>(file: &F) -> Result<(), SolverFault>
    ensures ok { OnOk result (HasGame (F.state file.now)) }
    ensures first { NeedsGame result (F.state file.now) }
    ensures free { (F.state file.now).closed ≡ false → IsSome (F.state file.now).kept → IsOk result }
    ensures cause { IfErr result (AskCause (F.state file.now) (F.state file.now)) }
{
    if file.is_closed() {
        return Err(SolverFault::Closed);
    }
    match file.text() {
        Some(_) => Ok(()),
        None => Err(SolverFault::NoGame),
    }
}

/// The game of an open file in which one is loaded, where `source` is the game in memory: E9, S1.
pub fn game_in<'a, F: GameFile>(
    file: &F,
    source: &'a Option<Source>,
) -> Result<&'a Source, SolverFault>
    ensures ok { OnOk result (HasGame (F.state file.now)) }
    ensures game { IfOk result (λ game. source.now ≡ Some game.now) }
    ensures first { NeedsGame result (F.state file.now) }
    ensures cause { IsSourceOf source.now (F.state file.now).kept → IfErr result (AskCause (F.state file.now) (F.state file.now)) }
{
    if file.is_closed() {
        return Err(SolverFault::Closed);
    }
    match source {
        Some(game) if file.text().is_some() => Ok(game),
        _ => Err(SolverFault::NoGame),
    }
}

/// The game, where this number is that of a known position: else E9, S1 or S7.
pub fn game_at<'a, F: GameFile>(
    file: &F,
    source: &'a Option<Source>,
    number: u32,
) -> Result<&'a Source, SolverFault>
    ensures there { OnOk result (number < (F.counted file.now).known) }
    ensures ok { OnOk result (HasGame (F.state file.now)) }
    ensures game { IfOk result (λ game. source.now ≡ Some game.now) }
    ensures first { NeedsGame result (F.state file.now) }
    ensures cause { F.is_whole file.now → IsSourceOf source.now (F.state file.now).kept
        → IfErr result (NumberCause number (F.state file.now) (F.state file.now)) }
{
    let game = game_in(file, source)?;
    if number < file.counts().known {
        Ok(game)
    } else {
        Err(SolverFault::NoSuchPosition)
    }
}
