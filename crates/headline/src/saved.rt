//! The headline in brief: the calls of a table in a file, and what holds of every history of them.
ghost use Rattle.std.specs.Prelude.{◌≡◌, ◌<◌, ℕ, List, Option, None, Ok, IsTrue, IfOk, IfErr, IfSome, OnOk, OnErr};
ghost use Rattle.audit.specs.declared.verdict.Verdict.TheVariants.{Right};
ghost use Rattle.sector_disk.specs.Disk.{Image, Shown, GoesOn, MayLeave, Grew};
ghost use Rattle.rbg_game.specs.Goals.{points_of};
ghost use Rattle.solver.specs.Machine.{load as load_it, work as work_on};
ghost use Rattle.solver.specs.Runs.{command_of};
ghost use Rattle.solver.specs.Units.{units_in};
ghost use Rattle.headline.specs.lemmas.Histories.{calls_of, the_headline_in_brief};
ghost use Rattle.headline.specs.lemmas.AtWork.{solver_is_lawful};
ghost use Rattle.headline.specs.Tables.{BriefTable, IsShort, IsShortFor, TellsValue, TellsText, TellsValueOf, TellsRows, TellsLine, TellsCounts};
ghost use Rattle.headline.specs.Tables.{of_number, of_line, of_moves, of_text, of_all};
ghost use Rattle.headline.specs.Brief.{Calls, AreLawful, OfTable, IsReply, IsQuestion, IsAnswered, reply_of, OrBroken};
ghost use Rattle.headline.specs.Brief.{BriefSitting, BriefHistory, BriefHeadline};

use audit::Verdict;
use best_line::{KnownMoves, Row, Value};
use game_file::GameFile;
use rbg_game::goal::Goal;
use retrograde::Counts;
use sector_disk::SectorDisk;
use solver::{Command, FileSolver, Refused, Reply, SolverFault, Units, Worked};
use std::alloc::Global;

/// A game's table in a file, as its calls leave it. What may be so behind a call is a relation of `calls`, which is not
/// said: each call keeps to its own, `lawful` says what holds of them, and `headline` what holds of every history that
/// goes by them.
pub trait SavedTable {
    /// The disk that it is on.
    type Device: SectorDisk;

    /// The relations of its calls.
    ghost calls: { Calls Self };

    /// How many of its pages are free.
    ghost free: { Self → ℕ };

    /// Makes the empty table on this disk.
    fn create(alloc: Global, disk: Self::Device) -> Result<Self, Refused<Self::Device>>
        ensures created { IfOk result (calls.created (Self.Device.disk disk)) }
        ensures refused { IfErr result (λ back. GoesOn (Self.Device.disk disk) (Self.Device.disk back.disk)) }
        ensures failed { IfErr result (λ back. back.fault ≡ SolverFault.Disk
            → Grew (Self.Device.failures disk) (Self.Device.failures back.disk)) };

    /// Opens the table that this disk holds.
    fn open(alloc: Global, disk: Self::Device) -> Result<Self, Refused<Self::Device>>
        ensures opened { IfOk result (calls.opened (Self.Device.disk disk)) }
        ensures refused { IfErr result (λ back. calls.not_opened (Self.Device.disk disk) (Self.Device.disk back.disk) back.fault) }
        ensures failed { IfErr result (λ back. back.fault ≡ SolverFault.Disk
            → Grew (Self.Device.failures disk) (Self.Device.failures back.disk)) };

    /// Loads the game of this text with this goal, if there is one.
    fn load(&mut self, text: &[u8], goal: Option<Goal>) -> Result<(), SolverFault>
        ensures { IsAnswered calls (load_it text.now (points_of goal)) (reply_of (λ _. Reply.Loaded) result) self.old self.new };

    /// Does this many units of work, or fewer where the table is finished by then.
    fn work(&mut self, units: Units) -> Result<Worked, SolverFault>
        ensures answered { IsAnswered calls (work_on (units_in units)) (reply_of (λ done. Reply.Worked done.units done.counts) result) self.old self.new }
        ensures full { OfTable calls self.old
            (λ table. IfErr result (λ fault. fault ≡ SolverFault.TableFull → IsShort (units_in units) (free self.old) table)) };

    /// The reply to one command, which is done as `load` and `work` do it: the program makes this call for each command.
    fn answer(&mut self, command: &Command) -> Reply
        ensures answered { IsAnswered calls (command_of command.now) result self.old self.new }
        ensures full { OfTable calls self.old
            (λ table. result ≡ Reply.Refused SolverFault.TableFull → IsShortFor (command_of command.now) (free self.old) table) };

    /// How far the table is; none where no game is loaded.
    fn status(&self) -> Option<Counts>
        ensures { OfTable calls self.now (λ table. IfSome result (λ counts. TellsCounts counts table) × (result ≡ None → table ≡ None)) };

    /// How many pages the table has.
    fn capacity(&self) -> u32
        ensures { result ≡ calls.pages self.now };

    /// How many of them are free.
    fn free_pages(&self) -> u32
        ensures { result ≡ free self.now };

    /// Who wins the position with this number, and in how many moves.
    fn value(&mut self, number: u32) -> Result<Value, SolverFault>
        ensures asked { IsQuestion calls (of_number number) self.old self.new result }
        ensures told { OfTable calls self.old (λ t. IfOk result (λ value. TellsValue number value t)) };

    /// The value of the position with this text.
    fn find_value(&mut self, text: &[u8]) -> Result<Value, SolverFault>
        ensures asked { IsQuestion calls of_text self.old self.new result }
        ensures told { OfTable calls self.old (λ t. IfOk result (λ value. TellsValueOf text.now value t)) };

    /// The text of the position with this number.
    fn show(&mut self, number: u32) -> Result<Vec<u8>, SolverFault>
        ensures asked { IsQuestion calls (of_number number) self.old self.new result }
        ensures told { OfTable calls self.old (λ t. IfOk result (λ text. TellsText number text.items t)) };

    /// The number of the position with this text.
    fn find(&mut self, text: &[u8]) -> Result<u32, SolverFault>
        ensures asked { IsQuestion calls of_text self.old self.new result }
        ensures told { OfTable calls self.old (λ t. IfOk result (λ number. TellsText number text.now t)) };

    /// The positions from this number on with their values.
    fn list(&mut self, from: u32, count: Units) -> Result<Vec<Row>, SolverFault>
        ensures asked { IsQuestion calls (of_number from) self.old self.new result }
        ensures told { OfTable calls self.old (λ t. IfOk result (λ rows. TellsRows from (units_in count) rows.items t)) };

    /// The numbers of a best line.
    fn line(&mut self, number: u32) -> Result<Vec<u32>, SolverFault>
        ensures asked { IsQuestion calls (of_line number) self.old self.new result }
        ensures told { OfTable calls self.old (λ t. IfOk result (λ numbers. TellsLine number numbers.items t)) };

    /// The moves of the position with this number.
    fn moves(&mut self, number: u32) -> Result<KnownMoves, SolverFault>
        ensures { IsQuestion calls (of_moves number) self.old self.new result };

    /// Whether the table is right, whoever made it: where it is, its calls tell it from then on, and what they tell is
    /// so.
    fn audit(&mut self) -> Result<Verdict, SolverFault>
        ensures asked { IsQuestion calls of_all self.old self.new result }
        ensures right { result ≡ Ok Right → calls.ready self.old → IsTrue (calls.disk self.old).honest
            → (table : Option BriefTable) × calls.tells self.new table };

    /// Makes the file one of this many pages.
    fn grow(&mut self, pages: u32) -> Result<(), SolverFault>
        ensures reply { IsReply calls self.old self.new result }
        ensures grown { calls.ready self.old
            → OnOk result (calls.asked self.old self.new × (calls.pages self.new ≡ pages)) }
        ensures refused { calls.ready self.old → OnErr result (calls.pages self.new ≡ calls.pages self.old) }
        ensures either { OrBroken (calls.asked self.old self.new) (calls.broken None self.old self.new) (calls.disk self.old) (calls.disk self.new) };

    /// Gives the disk back.
    fn close(self) -> Self::Device
        ensures disk { Self.Device.disk result ≡ calls.disk self }
        ensures failures { Self.Device.failures result ≡ calls.failures self };

    /// What holds of its calls.
    ghost lawful: { AreLawful calls };

    /// The headline in brief, of every history of them.
    ghost headline: { (sittings : List BriefSitting) (left : Shown) (image : Image)
        → BriefHistory calls sittings left → MayLeave left image
        → BriefHeadline calls sittings image };
}

/// The headline in brief. A table is made, and used in any number of sittings; each opens what was left, and may end by
/// a stop of the power before or within any write. Whatever the last stop leaves, reopening gives the table behind the
/// last answer, or what the one command in doubt makes of that; and each value, number, text and line that a call told
/// in any of the sittings it tells again, but that a value is open. Each of its settled positions is won by the named
/// player in exactly the named number of moves, and if it is finished, its positions are those that play can come to,
/// and the unsettled exactly the drawn.
pub fn the_headline_in_brief<S: SavedTable>()
    ensures { (sittings : List BriefSitting) (left : Shown) (image : Image) → BriefHistory S.calls sittings left
        → MayLeave left image
        → BriefHeadline S.calls sittings image }
{}

/// What holds of the calls: each goes on from the disk that it was given, what is shut refuses and stays, and the table
/// of a sitting begins as the empty one or as the one that was opened, each command makes of it what its answer says,
/// other calls leave it, it is one, and what it tells at any time is so by the rules of its game.
pub fn the_table_of_a_sitting<S: SavedTable>()
    ensures { AreLawful S.calls }
{}

/// The calls of the solver, over any file.
impl<F: GameFile> SavedTable for FileSolver<F> {
    ghost use Rattle.solver.specs.Solvers.{state, IsReady};

    type Device = F::Device;

    ghost calls = { calls_of F.stores state IsReady };

    ghost free = { λ solver. F.free solver.file };

    ghost lawful = { solver_is_lawful F.stores state IsReady };

    ghost headline = { the_headline_in_brief F.stores state IsReady F.stores_begins };

    fn create(alloc: Global, disk: F::Device) -> Result<Self, Refused<F::Device>> {
        FileSolver::create(alloc, disk)
    }

    fn open(alloc: Global, disk: F::Device) -> Result<Self, Refused<F::Device>> {
        FileSolver::open(alloc, disk)
    }

    fn load(&mut self, text: &[u8], goal: Option<Goal>) -> Result<(), SolverFault> {
        FileSolver::load(self, text, goal)
    }

    fn work(&mut self, units: Units) -> Result<Worked, SolverFault> {
        FileSolver::work(self, units)
    }

    fn answer(&mut self, command: &Command) -> Reply {
        FileSolver::answer(self, command)
    }

    fn status(&self) -> Option<Counts> {
        FileSolver::status(self)
    }

    fn capacity(&self) -> u32 {
        FileSolver::capacity(self)
    }

    fn free_pages(&self) -> u32 {
        FileSolver::free_pages(self)
    }

    fn value(&mut self, number: u32) -> Result<Value, SolverFault> {
        FileSolver::value(self, number)
    }

    fn find_value(&mut self, text: &[u8]) -> Result<Value, SolverFault> {
        FileSolver::find_value(self, text)
    }

    fn show(&mut self, number: u32) -> Result<Vec<u8>, SolverFault> {
        FileSolver::show(self, number)
    }

    fn find(&mut self, text: &[u8]) -> Result<u32, SolverFault> {
        FileSolver::find(self, text)
    }

    fn list(&mut self, from: u32, count: Units) -> Result<Vec<Row>, SolverFault> {
        FileSolver::list(self, from, count)
    }

    fn line(&mut self, number: u32) -> Result<Vec<u32>, SolverFault> {
        FileSolver::line(self, number)
    }

    fn moves(&mut self, number: u32) -> Result<KnownMoves, SolverFault> {
        FileSolver::moves(self, number)
    }

    fn audit(&mut self) -> Result<Verdict, SolverFault> {
        FileSolver::audit(self)
    }

    fn grow(&mut self, pages: u32) -> Result<(), SolverFault> {
        FileSolver::grow(self, pages)
    }

    fn close(self) -> F::Device {
        FileSolver::close(self)
    }
}
