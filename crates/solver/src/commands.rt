//! A solver over a disk.
ghost use Rattle.std.specs.Prelude.{◌≡◌, ◌≤◌, ◌↔◌, ℕ, List, false, Option, None, option_map};
ghost use Rattle.std.specs.Prelude.{IsOk, OnOk, IfOk, IfErr, IsTrue};
ghost use Rattle.sector_disk.specs.Disk.{Image};
ghost use Rattle.retrograde.specs.Changes.{counts_of};
ghost use Rattle.rbg_game.specs.Goals.{points_of};
ghost use Rattle.game_file.specs.Kept.{Kept};
ghost use Rattle.game_file.specs.Calls.{IsNotCreated};
ghost use Rattle.game_file.specs.State.{GoesAhead};
ghost use Rattle.solver.specs.Machine.{load as load_it, work as work_on, LoadCause};
ghost use Rattle.solver.specs.Opened.{IsCreated, CreateCause};
ghost use Rattle.solver.specs.Steps.{IsDone};
ghost use Rattle.solver.specs.Units.{units_in};

use crate::needs::game_in;
use crate::with_game::with_game;
use crate::{Refused, Reply, SolverFault, Units, Worked};
use game_file::GameFile;
use game_table::Source;
use page_store::MOST_CACHED;
use position_pack::PackingKind;
use rbg_game::goal::Goal;
use retrograde::Counts;
use sector_disk::SectorDisk;
use std::alloc::Global;
use table::Table;

/// A game's table in a file.
#[derive(Drop)]
pub struct FileSolver<F: GameFile> {
    pub(crate) alloc: Global,
    pub(crate) file: F,
    /// The game, where one is loaded.
    pub(crate) source: Option<Source>,
    // says nothing, but names the layout, so that contracts can write `state self` and need no path through a trait
    ghost layout: { (pages : ℕ) (image : Image) (kept : Option Kept) → F.stores pages image kept → Unit {0} },
}

impl<F: GameFile> FileSolver<F> {
    ghost use Rattle.solver.specs.Frames.{HasNoGame, NeedsNoGame, IsNotOpenedFor, IsOpenedOn, IsLeft, IsNotLoaded, IsNotWorked};
    ghost use Rattle.solver.specs.Solvers.{state, IsReady};

    /// Makes the empty table on this disk: E1, E3 and then E6, E8.
    pub fn create(alloc: Global, disk: F::Device) -> Result<Self, Refused<F::Device>>
        ensures ready { IfOk result IsReady }
        ensures created { IfOk result (λ solver. IsCreated F.stores (F.Device.disk disk) (F.Device.failures disk) (state solver)) }
        ensures refused { IfErr result (λ back. IsNotCreated F.stores (F.Device.disk disk) (F.Device.failures disk)
            (F.Device.disk back.disk) (F.Device.failures back.disk)) }
        ensures cause { IfErr result (λ back. CreateCause (F.Device.disk disk) (F.Device.failures disk)
            (F.Device.failures back.disk) back.fault) }
    {
        match F::create(alloc, disk) {
            Ok(file) => with_game(alloc, file),
            Err(refused) => Err(Refused {
                disk: refused.disk,
                fault: refused.fault.into(),
            }),
        }
    }

    /// Opens the table that this disk holds: E1, E2, E4, E5, E8. Where it holds one, that is the one that is given, and only a failure
    /// of the disk or want of memory can refuse it.
    pub fn open(alloc: Global, disk: F::Device) -> Result<Self, Refused<F::Device>>
        ensures ok { IfOk result (IsOpenedOn (F.Device.disk disk) (F.Device.failures disk)) }
        ensures err { IfErr result (λ back. IsNotOpenedFor F.stores F.is_older (F.Device.disk disk) (F.Device.failures disk)
            (F.Device.disk back.disk) (F.Device.failures back.disk) back.fault) }
    {
        FileSolver::open_with_cache(alloc, disk, MOST_CACHED)
    }

    /// Opens the table on a disk with this many of the file's pages, 64 at most, kept in memory once they were read or written, and 0 for none: `open` keeps
    /// 64. What is answered is the same, but for the calls of the disk.
    pub fn open_with_cache(
        alloc: Global,
        disk: F::Device,
        pages: usize,
    ) -> Result<Self, Refused<F::Device>>
        requires { pages ≤ 64 }
        ensures ok { IfOk result (IsOpenedOn (F.Device.disk disk) (F.Device.failures disk)) }
        ensures err { IfErr result (λ back. IsNotOpenedFor F.stores F.is_older (F.Device.disk disk) (F.Device.failures disk)
            (F.Device.disk back.disk) (F.Device.failures back.disk) back.fault) }
    {
        match F::open_with_cache(alloc, disk, pages) {
            Ok(file) => with_game(alloc, file),
            Err(refused) => Err(Refused {
                disk: refused.disk,
                fault: refused.fault.into(),
            }),
        }
    }

    /// Whether a game may be loaded: E9, S2.
    fn needs_no_game(&self) -> Result<(), SolverFault>
        ensures ok { OnOk result (HasNoGame (state self.now)) }
        ensures first { NeedsNoGame result (state self.now) }
        ensures free { (state self.now).closed ≡ false → (state self.now).kept ≡ None → IsOk result }
        ensures cause { (text : List ℕ) → IfErr result (LoadCause text (state self.now) (state self.now)) }
    {
        if self.file.is_closed() {
            return Err(SolverFault::Closed);
        }
        match self.file.text() {
            Some(_) => Err(SolverFault::GameAlready),
            None => Ok(()),
        }
    }

    /// Loads the game of this text with this goal, if there is one: E9, S2, then G1 to G10, then E1, E7, E8.
    pub fn load(&mut self, text: &[u8], goal: Option<Goal>) -> Result<(), SolverFault>
        ensures done { IsReady self.old
            → OnOk result (IsDone F.stores (load_it text.now (points_of goal)) Reply.Loaded (state self.old)
            (state self.new)) }
        ensures left { IsLeft self.old self.new GoesAhead }
        ensures err { IsNotLoaded self.old self.new text.now (points_of goal) result }
    {
        self.needs_no_game()?;
        let source = Source::read(self.alloc, text, PackingKind::Bits, goal)?;
        self.file
            .load(text, PackingKind::Bits, goal, &source.start())?;
        self.source = Some(source);
        Ok(())
    }

    /// Does this many units of work, or fewer where the table is finished by then, and commits them at once: E9, S1,
    /// then S3 to S6, E1, E7, E8. Where no unit is done nothing is committed.
    pub fn work(&mut self, units: Units) -> Result<Worked, SolverFault>
        ensures done { IsReady self.old → IfOk result (λ done.
            IsDone F.stores (work_on (units_in units)) (Reply.Worked done.units done.counts) (state self.old)
            (state self.new)) }
        ensures idle { IfOk result (λ done. done.units ≡ 0 → self.new ≡ self.old) }
        ensures left { IsLeft self.old self.new GoesAhead }
        ensures err { IsNotWorked self.old self.new (units_in units) (F.free self.old.file) result }
    {
        let source = game_in(&self.file, &self.source)?;
        let done = match source.work(self.alloc, &mut self.file, units.count()) {
            Ok(done) => done,
            Err(fault) => {
                self.file.discard();
                return Err(fault.into());
            }
        };
        let counts = self.file.counts();
        if done > 0 {
            self.file.commit()?;
        }
        Ok(Worked {
            units: done,
            counts,
        })
    }

    /// How far the table of the last commit is; none where no game is loaded. It takes no memory and always answers, of a
    /// closed solver too.
    pub fn status(&self) -> Option<Counts>
        ensures told { IsReady self.now → result ≡ (state self.now).counts }
        ensures counts { IsReady self.now → IsTrue (state self.now).disk.honest
            → result ≡ option_map (λ kept. counts_of kept.table) (state self.now).kept }
        ensures none { (result ≡ None) ↔ ((state self.now).kept ≡ None) }
    {
        if self.file.text().is_none() {
            return None;
        }
        Some(self.file.counts())
    }

    /// Gives the disk back. It takes no memory and always answers, of a closed solver too.
    pub fn close(self) -> F::Device
        ensures disk { F.Device.disk result ≡ (state self).disk }
        ensures failures { F.Device.failures result ≡ (state self).failures }
    {
        let FileSolver { file, .. } = self;
        file.into_disk()
    }
    /// Gives the file up, as it is. It takes no memory and always answers, of a closed solver too.
    pub fn into_file(self) -> F
        ensures { result ≡ self.file }
    {
        let FileSolver { file, .. } = self;
        file
    }
}
