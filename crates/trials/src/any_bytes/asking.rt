//! All calls of a solver, whatever its table is. What holds a solver has the type of its file as a parameter, so that no proof looks
//! into the file.

use game_file::GameFile;
use solver::{FileSolver, SolverFault, Units};
use std::alloc::Global;

/// What came of a table.
#[derive(Clone, Copy, PartialEq, Eq, Debug)]
pub enum Outcome {
    /// It was not opened, since it is no table, of an earlier layout, or damaged.
    Refused,
    /// It was opened, and all calls returned.
    Opened,
    /// It was refused for want of nothing, or a table that was opened and worked on could not be opened again.
    Wrong,
}

/// Opens what this disk holds, makes all calls on it, and opens it again.
pub fn ask_all<F: GameFile>(alloc: Global, disk: F::Device) -> Outcome
where
    F::Device: Drop,
{
    match FileSolver::<F>::open(alloc, disk) {
        Ok(mut solver) => {
            let are_right = ask_numbers(&mut solver) && work(&mut solver);
            let disk = solver.close();
            if are_right && is_table::<F>(alloc, disk) {
                Outcome::Opened
            } else {
                Outcome::Wrong
            }
        }
        Err(refused) => outcome_of(refused.fault),
    }
}

/// Whether the table of this disk is opened.
fn is_table<F: GameFile>(alloc: Global, disk: F::Device) -> bool
where
    F::Device: Drop,
{
    match FileSolver::<F>::open(alloc, disk) {
        Ok(solver) => {
            let _ = solver.close();
            true
        }
        Err(_) => false,
    }
}

/// Asks about a few numbers. Answers whether each answer may be.
fn ask_numbers<F: GameFile>(solver: &mut FileSolver<F>) -> bool {
    let known = match solver.status() {
        Some(counts) => counts.known,
        None => 0,
    };
    for number in [0, 1, known / 2, known.saturating_sub(1), known] {
        if !ask_number(solver, number) {
            return false;
        }
    }
    true
}

/// What it means that a table was not opened.
fn outcome_of(fault: SolverFault) -> Outcome {
    match fault {
        SolverFault::NotATable | SolverFault::OldLayout | SolverFault::Damaged => Outcome::Refused,
        _ => Outcome::Wrong,
    }
}

/// Whether a refusal, if it is one, may be answered here: the disk does not fail, and there is memory.
fn may_be<T: Drop>(answer: Result<T, SolverFault>) -> bool {
    !matches!(
        answer,
        Err(SolverFault::Disk | SolverFault::OutOfMemory | SolverFault::Closed)
    )
}

/// Asks all questions about a number. Answers whether each answer may be.
fn ask_number<F: GameFile>(solver: &mut FileSolver<F>, number: u32) -> bool {
    let Some(rows) = Units::new(7) else {
        return true;
    };
    let shown = solver.show(number);
    let is_found = match &shown {
        Ok(text) => may_be(solver.find(text)),
        Err(_) => true,
    };
    is_found
        && may_be(shown)
        && may_be(solver.value(number))
        && may_be(solver.line(number))
        && may_be(solver.list(number, rows))
}

/// Works a little. Answers whether each answer may be.
fn work<F: GameFile>(solver: &mut FileSolver<F>) -> bool {
    for count in [1, 7, 256] {
        if let Some(units) = Units::new(count) {
            if !may_be(solver.work(units)) {
                return false;
            }
        }
    }
    true
}
