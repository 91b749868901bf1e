//! The commands about the text of a table's game.
ghost use Rattle.std.specs.Prelude.{◌≡◌, ◌∷◌, ◌++◌, [], false, IfSome, IsTrue, None};
ghost use Rattle.game_file.specs.Calls.{IsAsked};
ghost use Rattle.session_lines.specs.Moments.{noted_in};
ghost use Rattle.session.specs.Commands.{Came, came_of, IsAbout, IsAboutAnother, IsAuditedAbout, IsAuditOf, IsPrinted};
ghost use Rattle.session.specs.Commands.{IsTextTold, IsTextOf, refusal_of};
ghost use Rattle.solver.specs.Solvers.{state, IsReady};

use crate::commands::audited;
use crate::told::{Outcome, Told, said, said_refused};
use game_file::GameFile;
use session_lines::moments::Moments;
use session_lines::puts::put_line;
use solver::{FileSolver, SolverFault};
use std::alloc::Global;
use std::io::Write;

/// Writes the text of the game in the table of this disk, byte for byte as it was loaded, or `refused` and a code.
/// Gives what came of it, and the disk.
pub fn text_on<F: GameFile, W: Write>(
    alloc: Global,
    disk: F::Device,
    out: &mut W,
) -> (Outcome, F::Device)
    ensures { (came : Came) × IsTextTold F.stores (F.Device.disk disk) (F.Device.failures disk) came
        (F.Device.disk result.1) (F.Device.failures result.1) × (result.0.refused ≡ refusal_of came)
        × IsPrinted (W.contents out.old) (W.contents out.new) came result.0.status }
{
    match FileSolver::<F>::open(alloc, disk) {
        Ok(solver) => (said_text(&solver, out), solver.close()),
        Err(refused) => (said_refused(out, refused.fault), refused.disk),
    }
}

/// Writes the text of the game.
fn said_text<F: GameFile, W: Write>(solver: &FileSolver<F>, out: &mut W) -> Outcome
    ensures { (came : Came) × IsTextOf (state solver.now) came × (result.refused ≡ refusal_of came)
        × IsPrinted (W.contents out.old) (W.contents out.new) came result.status }
{
    let Some(text) = solver.text() else {
        return said_refused(out, SolverFault::NoGame);
    };
    let status = match put_line(out, text) {
        Ok(()) => 0,
        Err(_) => 4,
    };
    Outcome {
        status,
        refused: None,
    }
}

/// Says whether the table of this disk is right, as `FileCommand::Audit` does, if it is about this text, and else
/// `audit wrong game`. Gives what came of it, and the disk. The moment at which the line begins is noted.
pub fn audit_of<F: GameFile, W: Write>(
    alloc: Global,
    disk: F::Device,
    text: &[u8],
    out: &mut W,
    moments: &mut Moments<F::Device, W>,
) -> (Outcome, F::Device)
    ensures done { (came : Came) × IsAuditOf F.stores text.now (F.Device.disk disk) (F.Device.failures disk) came
        (F.Device.disk result.1) (F.Device.failures result.1) × (result.0.refused ≡ refusal_of came)
        × IsPrinted (W.contents out.old) (W.contents out.new) came result.0.status }
    ensures noted { noted_in moments.new ≡ noted_in moments.old ++ (result.1, out.old) ∷ [] }
{
    let (told, disk) = audited_on::<F>(alloc, disk, text);
    moments.note(&disk, out);
    (said(out, told), disk)
}

/// Audits the table of this disk, if it is about this text. Gives what is to be told of it, and the disk.
fn audited_on<F: GameFile>(alloc: Global, disk: F::Device, text: &[u8]) -> (Told, F::Device)
    ensures { IsAuditOf F.stores text.now (F.Device.disk disk) (F.Device.failures disk) (came_of result.0)
        (F.Device.disk result.1) (F.Device.failures result.1) }
{
    match FileSolver::<F>::open(alloc, disk) {
        Ok(mut solver) => (audited_about(&mut solver, text), solver.close()),
        Err(refused) => (Told::Refused(refused.fault), refused.disk),
    }
}

/// Whether the table is right, if it is about this text.
fn audited_about<F: GameFile>(solver: &mut FileSolver<F>, text: &[u8]) -> Told
    requires ready { IsReady solver.old }
    requires open { (state solver.old).closed ≡ false }
    ensures asked { IsAsked F.stores (state solver.old) (state solver.new) }
    ensures came { IsAuditedAbout text.now (state solver.old) (state solver.new) (came_of result) }
{
    match is_about(solver, text) {
        Some(true) => audited(solver),
        Some(false) => Told::Another,
        None => Told::Refused(SolverFault::NoGame),
    }
}

/// Whether the table is about this text, where a game is loaded.
fn is_about<F: GameFile>(solver: &FileSolver<F>, text: &[u8]) -> Option<bool>
    ensures about { IfSome result (λ is. IsTrue is → IsAbout text.now (state solver.now)) }
    ensures another { IfSome result (λ is. is ≡ false → IsAboutAnother text.now (state solver.now)) }
    ensures none { result ≡ None → (state solver.now).kept ≡ None }
{
    match solver.text() {
        Some(own) => Some(own == text),
        None => None,
    }
}
