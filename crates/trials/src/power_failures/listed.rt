//! Work beside two listings of the table with one position.

use game_file::{GameFile, Versions};
use solver::{FileSolver, Listing, SolverFault, Units};

/// Begins two listings of a table with one position, works seven units, and asks the first listing for all rows. Where it gives another
/// number of them than one, whatever was answered to the work, the answer is `Inconsistent`.
pub fn work_beside_listings<F: Versions>(solver: &mut FileSolver<F>) -> Result<(), SolverFault> {
    let mut listing = solver.list_begin()?;
    let worked = work_beside_another(solver);
    let rows = rows_given(solver, &mut listing);
    solver.list_end(listing);
    both_done(worked, rows)
}

/// Begins a listing, works seven units, and ends the listing.
fn work_beside_another<F: Versions>(solver: &mut FileSolver<F>) -> Result<(), SolverFault> {
    let listing = solver.list_begin()?;
    let worked = work_seven(solver);
    solver.list_end(listing);
    worked
}

fn work_seven<F: GameFile>(solver: &mut FileSolver<F>) -> Result<(), SolverFault> {
    if let Some(seven) = Units::new(7) {
        solver.work(seven)?;
    }
    Ok(())
}

/// How many rows a listing still gives, 256 at most.
fn rows_given<F: Versions>(
    solver: &mut FileSolver<F>,
    listing: &mut Listing<F::Version>,
) -> Result<usize, SolverFault> {
    match Units::new(256) {
        Some(most) => Ok(solver.list_next(listing, most)?.len()),
        None => Ok(0),
    }
}

/// What is answered to the work and then to the listing: `Inconsistent` where it gave another number of rows than one.
fn both_done(
    worked: Result<(), SolverFault>,
    rows: Result<usize, SolverFault>,
) -> Result<(), SolverFault> {
    if matches!(rows, Ok(count) if count != 1) {
        return Err(SolverFault::Inconsistent);
    }
    worked?;
    rows?;
    Ok(())
}
