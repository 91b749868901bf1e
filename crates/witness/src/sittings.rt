//! The sittings with the small game's table, over any file.
ghost use Rattle.std.specs.Prelude.{◌≡◌, ◌≤◌, false, IfOk, IfErr, OnOk, IsTrue};
ghost use Rattle.best_line.specs.declared.answers.Value.TheVariants.{Won};
ghost use Rattle.rbg_game.specs.declared.roles.Player.TheVariants.{First};
ghost use Rattle.sector_disk.specs.Disk.{IsFresh, Grew};
ghost use Rattle.game_file.specs.State.{GoesAhead};
ghost use Rattle.game_file.specs.Stops.{LeavesNow};
ghost use Rattle.solver.specs.Held.{IsSound};
ghost use Rattle.solver.specs.Solvers.{state, IsReady};
ghost use Rattle.solver.specs.Units.{units_in};
ghost use Rattle.witness.specs.Game.{witness_text};
ghost use Rattle.witness.specs.Sittings.{IsWantOfRoom};
ghost use Rattle.witness.specs.lemmas.Sittings.{IsBehindSittings, IsFoundBehind};
ghost use Rattle.witness.specs.lemmas.Sittings.{EndsOwnSitting, HasSuchTable, IsNoneOrIt, IsIt, IsItFinished};

use best_line::Value;
use game_file::GameFile;
use solver::laws::{the_headline, what_sittings_lead_to_is_sound};
use solver::{Command, FileSolver, Refused, SolverFault, Units};
use std::alloc::Global;

/// The text of the small game.
pub fn text() -> &'static [u8]
    ensures { result.now ≡ witness_text }
{
    b"#players = white(1), black(1)  #pieces = e  #board = v[e]{}  #rules = ->white ([$black=1] + [$white=1]) ->>"
}

/// This many units of work.
pub fn units(count: u32) -> Units
    requires some { 1 ≤ count }
    requires few { count ≤ 256 }
    ensures { units_in result ≡ count }
{
    match Units::new(count) {
        Some(units) => units,
        None => unreachable!(),
    }
}

/// Makes a table on a new disk, and closes it.
pub fn make<F: GameFile>(alloc: Global, disk: F::Device) -> Result<F::Device, Refused<F::Device>>
    requires { IsFresh 256 (F.Device.disk disk) }
    ensures made { IfOk result (λ made. IsBehindSittings F.stores (F.Device.disk made)) }
    ensures fault { IfErr result (λ back. IsWantOfRoom (Grew (F.Device.failures disk) (F.Device.failures back.disk)) back.fault) }
{
    match FileSolver::<F>::create(alloc, disk) {
        Ok(solver) => Ok(solver.close()),
        Err(refused) => Err(refused),
    }
}

/// Opens the table, loads the game and works on it, as far as the disk goes along; the disk as it is then.
pub fn use_table<F: GameFile>(alloc: Global, disk: F::Device) -> Result<F::Device, SolverFault>
where
    F::Device: Drop,
    requires { IsBehindSittings F.stores (F.Device.disk disk) }
    ensures used { IfOk result (λ used. IsBehindSittings F.stores (F.Device.disk used)) }
    ensures fault { IfErr result (λ fault. fault ≡ SolverFault.OutOfMemory) }
{
    the_headline::<F>();
    what_sittings_lead_to_is_sound();
    let Ok(text) = text().to_vec(alloc) else {
        return Err(SolverFault::OutOfMemory);
    };
    match FileSolver::<F>::open(alloc, disk) {
        Ok(mut solver) => {
            use_solver(alloc, &mut solver, text);
            Ok(solver.close())
        }
        Err(refused) => Ok(refused.disk),
    }
}

/// Loads the game of this text and works on it, whatever is answered.
fn use_solver<F: GameFile>(alloc: Global, solver: &mut FileSolver<F>, text: Vec<u8>)
    requires { text.items ≡ witness_text }
    ensures ahead { GoesAhead (state solver.old) (state solver.new) }
    ensures used { IsReady solver.old → IsSound (state solver.old).kept
        → (state solver.old).closed ≡ false
        → IsTrue (state solver.old).disk.honest
        → EndsOwnSitting F.stores (state solver.old) (state solver.new) }
{
    let commands = [
        Command::Load(text, None),
        Command::Work(units(1)),
        Command::Work(units(2)),
        Command::Work(units(256)),
    ];
    let mut replies = Vec::new(alloc);
    let _ = solver.run(&commands, &mut replies);
}

/// Opens what is found after a stop, loads the game if it is not there, works to the end, and asks who wins the start.
pub fn value_of<F: GameFile>(alloc: Global, found: F::Device) -> Result<Value, Refused<F::Device>>
where
    F::Device: Drop,
    requires { IsFoundBehind F.stores (F.Device.disk found) }
    ensures value { IfOk result (λ value. value ≡ Won First 2) }
    ensures fault { IfErr result (λ back. IsWantOfRoom (Grew (F.Device.failures found) (F.Device.failures back.disk)) back.fault) }
{
    the_headline::<F>();
    what_sittings_lead_to_is_sound();
    match FileSolver::<F>::open(alloc, found) {
        Ok(mut solver) => {
            let value = answer(&mut solver);
            let disk = solver.close();
            match value {
                Ok(value) => Ok(value),
                Err(fault) => Err(Refused { disk, fault }),
            }
        }
        Err(refused) => Err(refused),
    }
}

/// Loads the game if it is not there, works to the end, and asks who wins the start.
fn answer<F: GameFile>(solver: &mut FileSolver<F>) -> Result<Value, SolverFault>
    requires ready { IsReady solver.old }
    requires table { HasSuchTable IsNoneOrIt (state solver.old) }
    ensures value { IfOk result (λ value. value ≡ Won First 2) }
    ensures fault { IfErr result (IsWantOfRoom (Grew (state solver.old).failures (state solver.new).failures)) }
{
    finish(solver)?;
    value_of_finished(solver)
}

/// Asks who wins the start of the finished table.
pub fn value_of_finished<F: GameFile>(solver: &mut FileSolver<F>) -> Result<Value, SolverFault>
    requires ready { IsReady solver.old }
    requires table { HasSuchTable IsItFinished (state solver.old) }
    ensures value { IfOk result (λ value. value ≡ Won First 2) }
    ensures fault { IfErr result (IsWantOfRoom (Grew (state solver.old).failures (state solver.new).failures)) }
{
    solver.value(0)
}

/// Loads the game if it is not there, and works to the end.
pub fn finish<F: GameFile>(solver: &mut FileSolver<F>) -> Result<(), SolverFault>
    requires ready { IsReady solver.old }
    requires table { HasSuchTable IsNoneOrIt (state solver.old) }
    ensures ready { IsReady solver.new }
    ensures later { (state solver.old).failures ≤ (state solver.new).failures }
    ensures table { OnOk result (HasSuchTable IsItFinished (state solver.new)) }
    ensures left { OnOk result (LeavesNow (F.stores (state solver.new).capacity) (state solver.new).disk (state solver.new).kept) }
    ensures fault { IfErr result (IsWantOfRoom (Grew (state solver.old).failures (state solver.new).failures)) }
{
    load(solver)?;
    match solver.work(units(256)) {
        Ok(_) => Ok(()),
        Err(fault) => Err(fault),
    }
}

/// Loads the game if it is not there.
fn load<F: GameFile>(solver: &mut FileSolver<F>) -> Result<(), SolverFault>
    requires ready { IsReady solver.old }
    requires table { HasSuchTable IsNoneOrIt (state solver.old) }
    ensures ready { IsReady solver.new }
    ensures later { (state solver.old).failures ≤ (state solver.new).failures }
    ensures table { OnOk result (HasSuchTable IsIt (state solver.new)) }
    ensures fault { IfErr result (IsWantOfRoom (Grew (state solver.old).failures (state solver.new).failures)) }
{
    match solver.status() {
        Some(_) => Ok(()),
        None => match solver.load(text(), None) {
            Ok(()) => Ok(()),
            Err(fault) => Err(fault),
        },
    }
}
