//! A delay of a player: all moves where the player has the turn, and one that delays elsewhere.
ghost use Rattle.certificate_writer.specs.Frames.{KeepsGoal};
ghost use Rattle.certificate_writer.specs.Packers.{IsProper};
ghost use Rattle.std.specs.Prelude.{◌<◌, IfSome, length};

use crate::packer::Packer;
use crate::progress::{Progress, tell};
use crate::ranks::{NEVER, Ranks};
use crate::strategy::moves_for;
use crate::told::{moves_from, shown};
use game_file::GameFile;
use rbg_game::roles::{Player, Role};
use solver::{FileSolver, KnownMove, KnownMoves, SolverFault};
use std::alloc::Global;

/// The positions of a delay from one that the player wins in no fewer than so many moves, or `NEVER`, each with such a number.
pub fn delay<F: GameFile, P: Progress>(
    alloc: Global,
    solver: &mut FileSolver<F>,
    packer: &Packer,
    progress: &mut P,
    player: Player,
    number: u32,
    moves: u32,
) -> Result<Ranks, SolverFault>
    requires { IsProper packer.now }
    ensures { KeepsGoal solver.old solver.new }
{
    let mut ranks = Ranks::new(alloc);
    let text = shown(solver, number)?;
    ranks.raise(packer, number, &text, moves)?;
    // each position gets a greater rank at most as often as there are ranks
    for turn in 0..u64::MAX {
        let Some(number) = ranks.next() else {
            break;
        };
        follow(solver, packer, player, &mut ranks, number)?;
        tell(progress, turn);
    }
    Ok(ranks)
}

/// Adds the positions that hold the player at this one.
fn follow<F: GameFile>(
    solver: &mut FileSolver<F>,
    packer: &Packer,
    player: Player,
    ranks: &mut Ranks,
    number: u32,
) -> Result<(), SolverFault>
    requires { IsProper packer.now }
    ensures { KeepsGoal solver.old solver.new }
{
    let need = less(ranks.rank(number).unwrap_or(0));
    if need == 0 {
        return Ok(());
    }
    let known = moves_from(solver, number)?;
    if known.mover == Role::Player(player) {
        for next in &known.moves {
            ranks.raise_next(packer, next, need)?;
        }
        return Ok(());
    }
    match delaying(ranks, player, &known, need) {
        Some(index) => ranks.raise_next(packer, &known.moves[index], need),
        None => Ok(()),
    }
}

/// The rank that is one less.
fn less(rank: u32) -> u32 {
    if rank == NEVER {
        NEVER
    } else {
        rank.saturating_sub(1)
    }
}

/// The index of a move to a position that the player does not win in fewer moves: of one that needs nothing new, else of one that was found
/// already, if there is one.
fn delaying(ranks: &Ranks, player: Player, known: &KnownMoves, need: u32) -> Option<usize>
    ensures { IfSome result (λ index. index < length known.now.moves.items) }
{
    let mut best = None;
    let mut worth = 0;
    for (index, next) in known.moves.iter().enumerate() {
        let now = worth_of(ranks, player, next, need);
        if now > worth {
            best = Some(index);
            worth = now;
        }
    }
    best
}

/// What a move is worth to a delay: 0 if it does not delay, 1 if it does, 2 if its position was found already, 3 with such a rank.
fn worth_of(ranks: &Ranks, player: Player, next: &KnownMove, need: u32) -> u8 {
    if moves_for(player, next).unwrap_or(NEVER) < need {
        return 0;
    }
    let rank = match next.number {
        Some(number) => ranks.rank(number),
        None => return 0,
    };
    match rank {
        Some(rank) if rank >= need => 3,
        Some(_) => 2,
        None => 1,
    }
}
