//! The game of a file is made ready as it is opened.
ghost use Rattle.std.specs.Prelude.{IfOk, IfErr, OnOk, IsTrue};
ghost use Rattle.game_file.specs.Calls.{IsAsked};
ghost use Rattle.solver.specs.Held.{IsOfAGame};
ghost use Rattle.solver.specs.Solvers.{state, IsReady};
ghost use Rattle.solver.specs.State.{IsSourceOf};
ghost use Rattle.solver.specs.lemmas.Ready.{NoGameCause, IsHandedBack};

use crate::commands::FileSolver;
use crate::{Refused, SolverFault};
use game_file::GameFile;
use game_table::Source;
use rbg_read::fault::GameFault;
use sector_disk::SectorDisk;
use std::alloc::Global;

/// The game of the table in a file, if one is loaded. `Damaged` if the text is no game or a position is not one of its positions.
fn source_in<F: GameFile>(alloc: Global, file: &mut F) -> Result<Option<Source>, SolverFault>
    ensures read { F.is_whole file.old → F.is_whole file.new × IsAsked F.stores (F.state file.old) (F.state file.new) }
    ensures source { F.is_whole file.old → IfOk result (λ source. IsSourceOf source (F.state file.new).kept) }
    ensures of_a_game { F.is_whole file.old → IsTrue (F.state file.old).disk.honest → OnOk result (IsOfAGame (F.state file.old).kept) }
    ensures cause { F.is_whole file.old → IfErr result (NoGameCause (F.state file.old) (F.state file.new).failures) }
{
    let Some(text) = file.text() else {
        return Ok(None);
    };
    let Some(kind) = file.packing() else {
        return Ok(None);
    };
    let goal = file.goal();
    let source = match Source::read(alloc, text, kind, goal) {
        Ok(source) => source,
        Err(GameFault::OutOfMemory) => return Err(SolverFault::OutOfMemory),
        Err(_) => return Err(SolverFault::Damaged),
    };
    if !source.are_positions(file)? {
        return Err(SolverFault::Damaged);
    }
    Ok(Some(source))
}

/// The solver over this file, with its game made ready. `Damaged` if the text is no game or a position is not one of its positions.
pub fn with_game<F: GameFile>(alloc: Global, file: F) -> Result<FileSolver<F>, Refused<F::Device>>
    ensures ready { F.is_whole file → IfOk result IsReady }
    ensures asked { F.is_whole file → IfOk result (λ solver. IsAsked F.stores (F.state file) (state solver)) }
    ensures of_a_game { F.is_whole file → IsTrue (F.state file).disk.honest → OnOk result (IsOfAGame (F.state file).kept) }
    ensures back { F.is_whole file → IfErr result (λ back. IsHandedBack F.stores (F.state file) (F.Device.disk back.disk)
        (F.Device.failures back.disk)) }
    ensures cause { F.is_whole file → IfErr result (λ back. NoGameCause (F.state file) (F.Device.failures back.disk) back.fault) }
{
    let mut file = file;
    match source_in(alloc, &mut file) {
        Ok(source) => Ok(FileSolver {
            alloc,
            file,
            source,
        }),
        Err(fault) => Err(Refused {
            disk: file.into_disk(),
            fault,
        }),
    }
}
