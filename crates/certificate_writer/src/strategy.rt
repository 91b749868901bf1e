//! A strategy of a player: one best move where the player has the turn, and all moves elsewhere.
ghost use Rattle.certificate_writer.specs.Frames.{KeepsGoal};
ghost use Rattle.certificate_writer.specs.Packers.{IsProper};
ghost use Rattle.std.specs.Prelude.{◌<◌, IfSome, length};

use crate::packer::Packer;
use crate::progress::{Progress, tell};
use crate::ranks::Ranks;
use crate::told::{moves_from, shown};
use best_line::Value;
use game_file::GameFile;
use rbg_game::roles::{Player, Role};
use solver::{FileSolver, KnownMove, KnownMoves, SolverFault};
use std::alloc::Global;

/// The positions of a strategy from one that the player wins in so many moves, each with the number of moves in which the player wins it.
pub fn strategy<F: GameFile, P: Progress>(
    alloc: Global,
    solver: &mut FileSolver<F>,
    packer: &Packer,
    progress: &mut P,
    player: Player,
    number: u32,
    moves: u32,
) -> Result<Ranks, SolverFault>
    requires { IsProper packer.now }
    ensures { KeepsGoal solver.old solver.new }
{
    let mut ranks = Ranks::new(alloc);
    let text = shown(solver, number)?;
    ranks.raise(packer, number, &text, moves)?;
    // a strategy with more positions than a table has would be looked at for longer than any machine runs
    for turn in 0..u64::MAX {
        let Some(number) = ranks.next() else {
            break;
        };
        follow(solver, packer, player, &mut ranks, number)?;
        tell(progress, turn);
    }
    Ok(ranks)
}

/// Adds the positions that the strategy goes on to from this one.
fn follow<F: GameFile>(
    solver: &mut FileSolver<F>,
    packer: &Packer,
    player: Player,
    ranks: &mut Ranks,
    number: u32,
) -> Result<(), SolverFault>
    requires { IsProper packer.now }
    ensures { KeepsGoal solver.old solver.new }
{
    let rank = ranks.rank(number).unwrap_or(0);
    if rank == 0 {
        return Ok(());
    }
    let known = moves_from(solver, number)?;
    if known.mover != Role::Player(player) {
        return follow_all(packer, player, ranks, &known);
    }
    match best_of(ranks, player, &known, rank - 1) {
        Some(best) => ranks.raise_next(packer, &known.moves[best], rank - 1),
        None => Err(SolverFault::Inconsistent),
    }
}

/// Adds all positions that the moves lead to.
fn follow_all(
    packer: &Packer,
    player: Player,
    ranks: &mut Ranks,
    known: &KnownMoves,
) -> Result<(), SolverFault>
    requires { IsProper packer.now }
{
    for next in &known.moves {
        if let Some(moves) = moves_for(player, next) {
            ranks.raise_next(packer, next, moves)?;
        }
    }
    Ok(())
}

/// In how many moves the player wins the position that a move leads to, if the table says so.
pub fn moves_for(player: Player, next: &KnownMove) -> Option<u32> {
    match next.value {
        Value::Won(winner, moves) if winner == player => Some(moves),
        _ => None,
    }
}

/// The index of a move to a position that the player wins in so many moves: of one that was found already, if there is one.
fn best_of(ranks: &Ranks, player: Player, known: &KnownMoves, moves: u32) -> Option<usize>
    ensures { IfSome result (λ index. index < length known.now.moves.items) }
{
    let mut best = None;
    for (index, next) in known.moves.iter().enumerate() {
        if moves_for(player, next) != Some(moves) {
            continue;
        }
        if is_found(ranks, next) {
            return Some(index);
        }
        if best.is_none() {
            best = Some(index);
        }
    }
    best
}

/// Whether the position that a move leads to was found.
fn is_found(ranks: &Ranks, next: &KnownMove) -> bool {
    match next.number {
        Some(number) => ranks.rank(number).is_some(),
        None => false,
    }
}
