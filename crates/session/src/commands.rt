//! The commands on a table's file that are one command each.
ghost use Rattle.std.specs.Prelude.{◌≡◌, ◌∷◌, ◌++◌, [], false};
ghost use Rattle.game_file.specs.Calls.{IsAsked};
ghost use Rattle.session_lines.specs.Moments.{noted_in};
ghost use Rattle.session.specs.Commands.{Came, came_of, IsAudited, IsDoneOnFile, IsPrinted, refusal_of};
ghost use Rattle.solver.specs.Solvers.{state, IsReady};

use crate::told::{Outcome, Told, said};
use game_file::GameFile;
use rbg_game::goal::Goal;
use session_lines::moments::Moments;
use solver::{Command, FileSolver, SolverFault};
use std::alloc::Global;
use std::io::Write;

/// What is done to a file.
#[derive(Drop)]
pub enum FileCommand {
    /// Makes the empty table.
    Create,
    /// Loads the game of this text with this goal, if there is one.
    Load(Vec<u8>, Option<Goal>),
    /// Says whether the table is right.
    Audit,
    /// Gives the table this many pages, more than it has.
    Grow(u32),
}

/// Does the command on the table of this disk, as a file of whichever layout, and writes one line: `created`, `loaded`, the verdict,
/// `grown`, or `refused` and a code. Gives what came of it, and the disk. The moment at which the line begins is noted: the command is
/// done then, and the table closed. Once it is done, no memory is taken.
pub fn command_on<F: GameFile, W: Write>(
    alloc: Global,
    disk: F::Device,
    command: FileCommand,
    out: &mut W,
    moments: &mut Moments<F::Device, W>,
) -> (Outcome, F::Device)
    ensures done { (came : Came) × IsDoneOnFile F.stores command (F.Device.disk disk) (F.Device.failures disk) came
        (F.Device.disk result.1) (F.Device.failures result.1) × (result.0.refused ≡ refusal_of came)
        × IsPrinted (W.contents out.old) (W.contents out.new) came result.0.status }
    ensures noted { noted_in moments.new ≡ noted_in moments.old ++ (result.1, out.old) ∷ [] }
{
    let (told, disk) = done_on::<F>(alloc, disk, command);
    moments.note(&disk, out);
    (said(out, told), disk)
}

/// Does the command. Gives what is to be told of it, and the disk.
fn done_on<F: GameFile>(alloc: Global, disk: F::Device, command: FileCommand) -> (Told, F::Device)
    ensures { IsDoneOnFile F.stores command (F.Device.disk disk) (F.Device.failures disk) (came_of result.0) (F.Device.disk result.1)
        (F.Device.failures result.1) }
{
    match command {
        FileCommand::Create => match FileSolver::<F>::create(alloc, disk) {
            Ok(solver) => (Told::Made, solver.close()),
            Err(refused) => (Told::Refused(refused.fault), refused.disk),
        },
        FileCommand::Load(text, goal) => match FileSolver::<F>::open(alloc, disk) {
            Ok(mut solver) => {
                let reply = solver.answer(&Command::Load(text, goal));
                (Told::Replied(reply), solver.close())
            }
            Err(refused) => (Told::Refused(refused.fault), refused.disk),
        },
        FileCommand::Audit => match FileSolver::<F>::open(alloc, disk) {
            Ok(mut solver) => (audited(&mut solver), solver.close()),
            Err(refused) => (Told::Refused(refused.fault), refused.disk),
        },
        FileCommand::Grow(pages) => match FileSolver::<F>::open(alloc, disk) {
            Ok(mut solver) => match solver.grow(pages) {
                Ok(()) => (Told::Grown, solver.close()),
                Err(fault) => (Told::Refused(fault), solver.close()),
            },
            Err(refused) => (Told::Refused(refused.fault), refused.disk),
        },
    }
}

/// Whether the table is right.
pub(crate) fn audited<F: GameFile>(solver: &mut FileSolver<F>) -> Told
    requires ready { IsReady solver.old }
    requires open { (state solver.old).closed ≡ false }
    ensures asked { IsAsked F.stores (state solver.old) (state solver.new) }
    ensures came { IsAudited (state solver.old) (state solver.new) (came_of result) }
{
    let Some(counts) = solver.status() else {
        return Told::Refused(SolverFault::NoGame);
    };
    match solver.audit() {
        Ok(verdict) => Told::Audited(verdict, counts),
        Err(fault) => Told::Refused(fault),
    }
}
