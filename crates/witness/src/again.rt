//! What was told is told again: the headline in brief, on a table that is used, closed, and opened once more.
ghost use Rattle.std.specs.Prelude.{◌≡◌, ◌∷◌, [], List, IfOk, IsTrue};
ghost use Rattle.headline.specs.Brief.{AreCalls, BriefAnswer};
ghost use Rattle.headline.specs.Tables.{IsForGood, the_value};
ghost use Rattle.solver.specs.Machine.{Command};

use crate::sittings::{text, units};
use best_line::Value;
use headline::SavedTable;
use headline::saved::{the_headline_in_brief, the_table_of_a_sitting};
use solver::SolverFault;
use std::alloc::Global;

/// Makes a table on this disk, loads the small game, works on it to its end, asks who wins the start, and closes the table; opens it, and asks
/// again. On a disk that keeps its word the second answer is the first, but where that was that the value is open.
pub fn told_again<S: SavedTable>(
    alloc: Global,
    disk: S::Device,
) -> Result<(Value, Value), SolverFault>
where
    S::Device: Drop,
    ensures { IsTrue (S.Device.disk disk).honest → IfOk result (λ told. IsForGood (the_value 0 told.0) → told.1 ≡ told.0) }
{
    the_table_of_a_sitting::<S>();
    the_headline_in_brief::<S>();
    match S::create(alloc, disk) {
        Ok(mut table) => {
            let told = told_once(&mut table);
            let left = table.close();
            let first = told?;
            match S::open(alloc, left) {
                Ok(mut again) => {
                    let told = again.value(0);
                    let _left = again.close();
                    Ok((first, told?))
                }
                Err(back) => Err(back.fault),
            }
        }
        Err(back) => Err(back.fault),
    }
}

/// Loads the small game, works, and asks who wins the start.
fn told_once<S: SavedTable>(table: &mut S) -> Result<Value, SolverFault>
    ensures { IfOk result (λ value. (answered : List (Command × BriefAnswer))
        × AreCalls S.calls answered (the_value 0 value ∷ []) table.old table.new) }
{
    table.load(text(), None)?;
    table.work(units(256))?;
    let value = table.value(0)?;
    Ok(value)
}
