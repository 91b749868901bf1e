//! The certificate of the value of a position.
ghost use Rattle.std.specs.Prelude.{◌≡◌, ◌++◌, IfOk, None};
ghost use Rattle.rbg_game.specs.Goals.{points_of};
ghost use Rattle.certificate.specs.Claims.{head_of};
ghost use Rattle.certificate.specs.Right.{IsAcceptable};
ghost use Rattle.certificate_writer.specs.Frames.{KeepsGoal};
ghost use Rattle.certificate_writer.specs.Packers.{IsProper};
ghost use Rattle.certificate_writer.specs.Told.{IsToldOf};
ghost use Rattle.certificate_writer.specs.Written.{IsCertificateFrom, IsCertificateOf};
ghost use Rattle.solver.specs.Queries.{Tells};
ghost use Rattle.solver.specs.Solvers.{IsReady, state};

use crate::delay::delay;
use crate::lists::put_list;
use crate::packer::Packer;
use crate::progress::Progress;
use crate::ranks::NEVER;
use crate::shown::needs_shown;
use crate::strategy::strategy;
use crate::told::{Told, told_of};
use certificate::MAX_CERTIFICATE_BYTES;
use certificate::claim::{Claimed, name_of, value_of, written_head};
use game_file::GameFile;
use rbg_game::goal::Goal;
use rbg_game::roles::Player;
use solver::{FileSolver, SolverFault};
use std::alloc::{AllocError, Global};

/// A certificate that was written.
#[derive(Drop)]
pub struct Written {
    pub bytes: Vec<u8>,
    /// How many positions stand in its lists.
    pub listed: usize,
}

/// What a certificate says but for the goal: what the table tells, the text of the value, and the lists.
#[derive(Drop)]
struct Parts {
    told: Told,
    value: Vec<u8>,
    lists: Vec<u8>,
    listed: usize,
}

/// The certificate of the value that the table says the position with this number to have, and the disk of the table, which stays as it was:
/// E9, S1, S7, then S8 where the value is open. S4, S6 and E1 may come later, and E8 at any time, also where a certificate would be
/// longer than one may be.
///
/// Progress is told of each 1,000 positions of a list. What is made is checked before it is given: so each certificate that is given is
/// accepted, whatever table and disk it is from, and it shows what the table tells (`IsCertificateFrom`). S6 comes where the check refuses
/// it, and S4 where the check comes to a position that is too wide.
pub fn write_certificate<F: GameFile, P: Progress>(
    alloc: Global,
    solver: FileSolver<F>,
    number: u32,
    progress: &mut P,
) -> (Result<Written, SolverFault>, F::Device)
    ensures accepted { IfOk result.0 (λ written. IsAcceptable written.bytes.items None) }
    ensures told { IsReady solver → IfOk result.0 (λ written. Tells (IsCertificateFrom number written.bytes.items) (state solver)) }
{
    let mut solver = solver;
    let parts = parts_of(alloc, &mut solver, progress, number);
    let file = solver.into_file();
    let goal = file.goal();
    let disk = file.into_disk();
    match parts {
        Ok(parts) => (whole(alloc, goal, parts), disk),
        Err(fault) => (Err(fault), disk),
    }
}

/// The certificate of these parts, once it was checked.
fn whole(alloc: Global, goal: Option<Goal>, parts: Parts) -> Result<Written, SolverFault>
    ensures { IfOk result (λ written. IsCertificateOf written.bytes.items (points_of goal) parts.told.text.items parts.told.position.items
        parts.told.claimed) }
{
    let bytes = bytes_of(alloc, goal, &parts)?;
    needs_shown(alloc, &bytes, &parts.told)?;
    Ok(Written {
        bytes,
        listed: parts.listed,
    })
}

/// The head of a certificate, and its lists behind that: E8.
fn bytes_of(alloc: Global, goal: Option<Goal>, parts: &Parts) -> Result<Vec<u8>, SolverFault>
    ensures { IfOk result (λ bytes. bytes.items ≡ head_of (points_of goal) parts.now.told.text.items parts.now.told.position.items
        parts.now.value.items ++ parts.now.lists.items) }
{
    let told = &parts.told;
    let head = written_head(alloc, goal, &told.text, &told.position, &parts.value);
    let Ok(mut bytes) = head else {
        return Err(SolverFault::OutOfMemory);
    };
    if bytes.extend_from_slice(&parts.lists).is_err() {
        return Err(SolverFault::OutOfMemory);
    }
    if bytes.len() > MAX_CERTIFICATE_BYTES {
        return Err(SolverFault::OutOfMemory);
    }
    Ok(bytes)
}

/// What the certificate of a position says.
fn parts_of<F: GameFile, P: Progress>(
    alloc: Global,
    solver: &mut FileSolver<F>,
    progress: &mut P,
    number: u32,
) -> Result<Parts, SolverFault>
    ensures keeps { KeepsGoal solver.old solver.new }
    ensures told { IsReady solver.old → IfOk result (λ parts. Tells (IsToldOf number parts.told.text.items parts.told.position.items
        parts.told.claimed) (state solver.old)) }
{
    let told = told_of(alloc, solver, number)?;
    let packer = Packer::read(alloc, &told.text)?;
    let Ok(value) = value_of(alloc, &packer.game, told.claimed) else {
        return Err(SolverFault::OutOfMemory);
    };
    let mut lists = Vec::new(alloc);
    let listed = put_lists(
        alloc,
        solver,
        &packer,
        progress,
        &mut lists,
        told.claimed,
        number,
    )?;
    Ok(Parts {
        told,
        value,
        lists,
        listed,
    })
}

/// Puts the two lists of a claim, and gives how many positions they have.
fn put_lists<F: GameFile, P: Progress>(
    alloc: Global,
    solver: &mut FileSolver<F>,
    packer: &Packer,
    progress: &mut P,
    lists: &mut Vec<u8>,
    claimed: Claimed,
    number: u32,
) -> Result<usize, SolverFault>
    requires { IsProper packer.now }
    ensures { KeepsGoal solver.old solver.new }
{
    match claimed {
        Claimed::Won(player, moves) => {
            put_won(
                alloc, solver, packer, progress, lists, player, number, moves,
            )
        }
        Claimed::Drawn => {
            let first = put_never(
                alloc,
                solver,
                packer,
                progress,
                lists,
                Player::First,
                number,
            )?;
            let second = put_never(
                alloc,
                solver,
                packer,
                progress,
                lists,
                Player::Second,
                number,
            )?;
            Ok(first.saturating_add(second))
        }
    }
}

/// Puts the two lists of a won position, and gives how many positions they have.
fn put_won<F: GameFile, P: Progress>(
    alloc: Global,
    solver: &mut FileSolver<F>,
    packer: &Packer,
    progress: &mut P,
    lists: &mut Vec<u8>,
    winner: Player,
    number: u32,
    moves: u32,
) -> Result<usize, SolverFault>
    requires { IsProper packer.now }
    ensures { KeepsGoal solver.old solver.new }
{
    let name = name_of(&packer.game, winner);
    let most = strategy(alloc, solver, packer, progress, winner, number, moves)?;
    let first = counted(put_list(alloc, lists, b"at most ", name, most, true))?;
    let least = delay(alloc, solver, packer, progress, winner, number, moves)?;
    let second = counted(put_list(alloc, lists, b"at least ", name, least, true))?;
    Ok(first.saturating_add(second))
}

/// Puts the list of a position that a player never wins, and gives how many positions it has.
fn put_never<F: GameFile, P: Progress>(
    alloc: Global,
    solver: &mut FileSolver<F>,
    packer: &Packer,
    progress: &mut P,
    lists: &mut Vec<u8>,
    player: Player,
    number: u32,
) -> Result<usize, SolverFault>
    requires { IsProper packer.now }
    ensures { KeepsGoal solver.old solver.new }
{
    let name = name_of(&packer.game, player);
    let safe = delay(alloc, solver, packer, progress, player, number, NEVER)?;
    counted(put_list(alloc, lists, b"never ", name, safe, false))
}

/// How many positions were put, or the refusal for want of memory.
fn counted(put: Result<usize, AllocError>) -> Result<usize, SolverFault> {
    match put {
        Ok(count) => Ok(count),
        Err(_) => Err(SolverFault::OutOfMemory),
    }
}
