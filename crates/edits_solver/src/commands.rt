//! What changes a table.
ghost use Rattle.std.specs.Prelude.{◌≡◌, ◌∷◌, [], ◌++◌, ℕ, false, IfOk, IfErr, IsTrue, OnOk};
ghost use Rattle.rbg_game.specs.Goals.{points_of};
ghost use Rattle.retrograde.specs.declared.records.Counts.{Counts};
ghost use Rattle.solver.specs.Machine.{load as load_it, work as work_on, LoadCause, WorkCause, IsShortOfPages};
ghost use Rattle.solver.specs.Runs.{IsRun};
ghost use Rattle.solver.specs.Solvers.{state, IsReady};
ghost use Rattle.solver.specs.Steps.{IsDone};
ghost use Rattle.solver.specs.Units.{units_in};
ghost use Rattle.edits_solver.specs.Between.{LeavesTheFirst};

use game_file::GameFile;
use rbg_game::goal::Goal;
use solver::{Command, FileSolver, Reply, SolverFault, Units, Worked};

/// `err` of `FileSolver::load`, and of that the cause.
pub fn load<F: GameFile>(
    solver: &mut FileSolver<F>,
    text: &[u8],
    goal: Option<Goal>,
) -> Result<(), SolverFault>
    ensures { IsReady solver.old → IfErr result (LoadCause text.now (state solver.old) (state solver.new)) }
{
    solver.load(text, goal)
}

/// `done` of `FileSolver::load`.
pub fn load_done<F: GameFile>(
    solver: &mut FileSolver<F>,
    text: &[u8],
    asked: Option<Goal>,
) -> Result<(), SolverFault>
    ensures { IsReady solver.old → OnOk result (IsDone F.stores (load_it text.now (points_of asked)) Reply.Loaded (state solver.old)
        (state solver.new)) }
{
    solver.load(text, asked)
}

/// `done` of `FileSolver::work`.
pub fn work<F: GameFile>(solver: &mut FileSolver<F>, units: Units) -> Result<Worked, SolverFault>
    ensures { IsReady solver.old → IfOk result (λ done. IsDone F.stores (work_on (units_in units))
        (Reply.Worked done.units done.counts) (state solver.old) (state solver.new)) }
{
    solver.work(units)
}

/// `err` of `FileSolver::work`, and of that the cause.
pub fn refused_work<F: GameFile>(
    solver: &mut FileSolver<F>,
    asked: Units,
) -> Result<Worked, SolverFault>
    ensures { IsReady solver.old → IfErr result (WorkCause (units_in asked) (state solver.old) (state solver.new)) }
{
    solver.work(asked)
}

/// `err` of `FileSolver::work`, and of that how few pages are free.
pub fn full_work<F: GameFile>(
    solver: &mut FileSolver<F>,
    wanted: Units,
) -> Result<Worked, SolverFault>
    ensures { IsReady solver.old → IsTrue (state solver.old).disk.honest
        → IfErr result (λ fault. fault ≡ SolverFault.TableFull
        → IsShortOfPages (units_in wanted) (F.free solver.old.file) (state solver.old).kept) }
{
    solver.work(wanted)
}

/// `run` of `FileSolver::run`.
pub fn run<F: GameFile>(
    solver: &mut FileSolver<F>,
    commands: &[Command],
    replies: &mut Vec<Reply>,
) -> Result<(), SolverFault>
    ensures { IsReady solver.old → OnOk result (IsRun F.stores commands.now replies.old.items replies.new.items (state solver.old)
        (state solver.new)) }
{
    solver.run(commands, replies)
}

/// `run` of `FileSolver::run`, of two commands to work that are both done, and of that what a stop leaves between them.
pub fn run_two<F: GameFile>(
    solver: &mut FileSolver<F>,
    first: Units,
    second: Units,
    replies: &mut Vec<Reply>,
) -> Result<(), SolverFault>
    ensures { (d e : ℕ) (c f : Counts) → IsReady solver.old → IsTrue (state solver.old).disk.honest → (state solver.old).closed ≡ false
        → replies.new.items ≡ replies.old.items ++ Reply.Worked d c ∷ Reply.Worked e f ∷ []
        → OnOk result (LeavesTheFirst F.stores (units_in first) (state solver.old) (state solver.new)) }
{
    two_commands(solver, first, second, replies)
}

/// `done` of `FileSolver::work`, and of that what a stop leaves after it.
pub fn work_alone<F: GameFile>(
    solver: &mut FileSolver<F>,
    units: Units,
) -> Result<Worked, SolverFault>
    ensures { IsReady solver.old → IsTrue (state solver.old).disk.honest
        → OnOk result (LeavesTheFirst F.stores (units_in units) (state solver.old) (state solver.new)) }
{
    let done = solver.work(units)?;
    Ok(done)
}

/// Two commands to work in one list.
fn two_commands<F: GameFile>(
    solver: &mut FileSolver<F>,
    first: Units,
    second: Units,
    replies: &mut Vec<Reply>,
) -> Result<(), SolverFault>
    ensures { (d e : ℕ) (c f : Counts) → IsReady solver.old → IsTrue (state solver.old).disk.honest → (state solver.old).closed ≡ false
        → replies.new.items ≡ replies.old.items ++ Reply.Worked d c ∷ Reply.Worked e f ∷ []
        → OnOk result (LeavesTheFirst F.stores (units_in first) (state solver.old) (state solver.new)) }
{
    solver.run(&[Command::Work(first), Command::Work(second)], replies)?;
    Ok(())
}
