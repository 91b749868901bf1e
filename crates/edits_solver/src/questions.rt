//! What is asked of a table.
ghost use Rattle.std.specs.Prelude.{◌≡◌, ◌<◌, true, IfOk, IfErr, IsErrOf, Ok, IsTrue};
ghost use Rattle.audit.specs.declared.verdict.Verdict.TheVariants.{Right};
ghost use Rattle.headline.specs.Brief.{OfTable};
ghost use Rattle.headline.specs.Tables.{of_number, MayRefuse};
ghost use Rattle.solver.specs.Audits.{HasVerdict};
ghost use Rattle.solver.specs.Held.{IsSound};
ghost use Rattle.solver.specs.Queries.{Tells, HasText};
ghost use Rattle.solver.specs.Solvers.{state, IsReady};

use audit::Verdict;
use best_line::{Row, Value};
use game_file::GameFile;
use headline::SavedTable;
use retrograde::Record;
use solver::{FileSolver, SolverFault, Units};
use table::TableFault;

/// `text` of `FileSolver::show`.
pub fn show<F: GameFile>(solver: &mut FileSolver<F>, number: u32) -> Result<Vec<u8>, SolverFault>
    ensures { IsReady solver.old → IfOk result (λ text. Tells (HasText number text.items) (state solver.old)) }
{
    solver.show(number)
}

/// `number` of `FileSolver::find`.
pub fn find<F: GameFile>(solver: &mut FileSolver<F>, text: &[u8]) -> Result<u32, SolverFault>
    ensures { IsReady solver.old → IfOk result (λ number. Tells (HasText number text.now) (state solver.old)) }
{
    solver.find(text)
}

/// `verdict` of `FileSolver::audit`.
pub fn audit<F: GameFile>(solver: &mut FileSolver<F>) -> Result<Verdict, SolverFault>
    ensures { IsReady solver.old → IfOk result (λ verdict. Tells (HasVerdict verdict) (state solver.old)) }
{
    solver.audit()
}

/// `sound` of `FileSolver::audit`.
pub fn found_right<F: GameFile>(found: &mut FileSolver<F>) -> Result<Verdict, SolverFault>
    ensures { IsReady found.old → result ≡ Ok Right → IsTrue (state found.old).disk.honest → IsSound (state found.old).kept }
{
    found.audit()
}

/// `err` of `FileSolver::list`, and of that what a closed solver answers.
pub fn list<F: GameFile>(
    solver: &mut FileSolver<F>,
    from: u32,
    count: Units,
) -> Result<Vec<Row>, SolverFault>
    ensures { (state solver.old).closed ≡ true → IsErrOf result SolverFault.Closed × (solver.new ≡ solver.old) }
{
    solver.list(from, count)
}

/// `stays` of `Table::record`, of a file.
pub fn record<F: GameFile>(file: &mut F, number: u32) -> Result<Record, TableFault>
    requires { number < (F.counted file.old).known }
    ensures { F.stays file.old file.new }
{
    file.record(number)
}

/// `asked` of `SavedTable::value`, and of that the cause of a refusal.
pub fn saved_value<S: SavedTable>(table: &mut S, asked: u32) -> Result<Value, SolverFault>
    ensures { OfTable S.calls table.old (λ t. IfErr result (MayRefuse (of_number asked) (S.calls.pages table.old) t)) }
{
    table.value(asked)
}
