//! What the table tells of the position whose value is to be shown.
ghost use Rattle.std.specs.Prelude.{◌≡◌, Some, IfOk};
ghost use Rattle.certificate_writer.specs.Frames.{KeepsGoal};
ghost use Rattle.certificate_writer.specs.Told.{IsToldAs, IsToldOf};
ghost use Rattle.game_file.specs.Kept.{text_kept};
ghost use Rattle.solver.specs.Queries.{Tells};
ghost use Rattle.solver.specs.Solvers.{IsReady, state};

use best_line::Value;
use certificate::claim::Claimed;
use game_file::GameFile;
use solver::{FileSolver, KnownMoves, SolverFault};
use std::alloc::Global;

/// The text of the game, and of a position the text and the value.
#[derive(Drop)]
pub struct Told {
    pub text: Vec<u8>,
    pub position: Vec<u8>,
    pub claimed: Claimed,
}

/// What the table tells of the position with this number: E9, S1, S7, then S8 where the value is open. E1 and E8 may come later.
pub fn told_of<F: GameFile>(
    alloc: Global,
    solver: &mut FileSolver<F>,
    number: u32,
) -> Result<Told, SolverFault>
    ensures keeps { KeepsGoal solver.old solver.new }
    ensures told { IsReady solver.old
        → IfOk result (λ told. Tells (IsToldOf number told.text.items told.position.items told.claimed) (state solver.old)) }
{
    let value = solver.value(number)?;
    let claimed = claim_of(value)?;
    let position = solver.show(number)?;
    let text = text_in(alloc, solver)?;
    Ok(Told {
        text,
        position,
        claimed,
    })
}

/// The text of the position with this number: E1, E8.
pub fn shown<F: GameFile>(solver: &mut FileSolver<F>, number: u32) -> Result<Vec<u8>, SolverFault>
    ensures { KeepsGoal solver.old solver.new }
{
    solver.show(number)
}

/// Its moves: E1, E8, S4.
pub fn moves_from<F: GameFile>(
    solver: &mut FileSolver<F>,
    number: u32,
) -> Result<KnownMoves, SolverFault>
    ensures { KeepsGoal solver.old solver.new }
{
    solver.moves(number)
}

/// What a certificate claims of a position with this value: S8 where it is open.
fn claim_of(value: Value) -> Result<Claimed, SolverFault>
    ensures { IfOk result (IsToldAs value) }
{
    match value {
        Value::Won(player, moves) => Ok(Claimed::Won(player, moves)),
        Value::Drawn => Ok(Claimed::Drawn),
        Value::Open => Err(SolverFault::NotSettled),
    }
}

/// The text of the game: S1, E8.
fn text_in<F: GameFile>(alloc: Global, solver: &FileSolver<F>) -> Result<Vec<u8>, SolverFault>
    ensures { IfOk result (λ text. text_kept (state solver.now).kept ≡ Some text.items) }
{
    let Some(text) = solver.text() else {
        return Err(SolverFault::NoGame);
    };
    match text.to_vec(alloc) {
        Ok(text) => Ok(text),
        Err(_) => Err(SolverFault::OutOfMemory),
    }
}
