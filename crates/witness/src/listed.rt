//! A listing beside work: its rows are those of the table as it was before.
ghost use Rattle.std.specs.Prelude.{◌≡◌, true, false, None, Some, IfOk, IsErrOf, IsTrue};
ghost use Rattle.best_line.specs.Rows.{AreRows};
ghost use Rattle.game_file.specs.Kept.{Kept};
ghost use Rattle.retrograde.specs.Stored.{view_of};
ghost use Rattle.solver.specs.Solvers.{state, IsReady};
ghost use Rattle.solver.specs.Units.{units_in};

use best_line::Row;
use game_file::Versions;
use solver::{FileSolver, SolverFault, Units};

/// Begins a listing, works on the table, whatever is answered to that, and ends the listing once its first rows were given. These are
/// the first rows of the table as it was before the work, with the values of then.
pub fn rows_beside_work<F: Versions>(
    solver: &mut FileSolver<F>,
    units: Units,
    count: Units,
) -> Result<Vec<Row>, SolverFault>
    ensures ready { IsReady solver.old → IsReady solver.new }
    ensures rows { IsReady solver.old → IsTrue (state solver.old).disk.honest → (kept : Kept) → (state solver.old).kept ≡ Some kept
        → IfOk result (λ rows. AreRows (view_of kept.table) 0 (units_in count) rows.items) }
    ensures closed { (state solver.old).closed ≡ true → IsErrOf result SolverFault.Closed }
    ensures no_game { (state solver.old).closed ≡ false → (state solver.old).kept ≡ None → IsErrOf result SolverFault.NoGame }
{
    let mut listing = solver.list_begin()?;
    let _worked = solver.work(units);
    let rows = solver.list_next(&mut listing, count);
    solver.list_end(listing);
    rows
}
