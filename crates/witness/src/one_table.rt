//! Two tables of which the same was asked are one: what `commands_lead_to_one_table` says, of two solvers over two files.
ghost use Rattle.std.specs.Prelude.{◌≡◌, None, IfOk, IsTrue};
ghost use Rattle.solver.specs.Solvers.{state, IsReady};

use crate::sittings::{text, units};
use game_file::GameFile;
use solver::laws::commands_lead_to_one_table;
use solver::{FileSolver, SolverFault, Worked};

/// Loads the small game into two empty tables, on whichever files, and does three units of work on each. Where both answer the same, they hold the
/// same table.
pub fn as_much_on_two<F: GameFile, G: GameFile>(
    one: &mut FileSolver<F>,
    other: &mut FileSolver<G>,
) -> Result<(Worked, Worked), SolverFault>
    ensures { IsReady one.old → IsTrue (state one.old).disk.honest → (state one.old).kept ≡ None
        → IsReady other.old → IsTrue (state other.old).disk.honest → (state other.old).kept ≡ None
        → IfOk result (λ done. done.0 ≡ done.1 → (state one.new).kept ≡ (state other.new).kept) }
{
    commands_lead_to_one_table();
    one.load(text(), None)?;
    other.load(text(), None)?;
    let first = one.work(units(3))?;
    let second = other.work(units(3))?;
    Ok((first, second))
}
