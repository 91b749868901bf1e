//! A table that is kept for a caller: open while it is asked, and a disk alone once its bytes were taken.
ghost use Rattle.std.specs.Prelude.{◌≡◌, ◌<◌, ◌≤◌, [], length, IsTrue};
ghost use Rattle.solver.specs.Solvers.{state, IsReady};
ghost use Rattle.in_process.specs.Calls.{bytes_of};
ghost use Rattle.in_process.specs.Given.{IsGiven};
ghost use Rattle.in_process.specs.Kept.{disk_kept, IsAskable, IsOpenOn};
ghost use Rattle.in_process.specs.Lines.{IsAnsweredOn};

use crate::given::give_text;
use crate::kept::Kept;
use byte_disk::ByteDisk;
use game_file::{GameFile, Versions};
use recover::{Solver, TableFile};
use session::line_by_line::Lines;
use std::alloc::Global;
use std::mem;

/// A table with the answers that wait for the caller.
#[derive(Drop)]
pub struct HeldTable {
    kept: Kept,
    answers: Vec<u8>,
}

impl HeldTable {
    /// A table that is open, with no answer.
    pub fn new(alloc: Global, solver: Solver<ByteDisk>) -> Self
        ensures opened { IsOpenOn (state solver) result.kept }
        ensures askable { IsReady solver → IsTrue (state solver).disk.honest → IsAskable result.kept }
        ensures none { result.answers.items ≡ [] }
    {
        HeldTable {
            kept: Kept::Open(solver),
            answers: Vec::new(alloc),
        }
    }

    /// Answers these lines, behind the answers that wait. After a refusal that ends a session it is opened anew when it is asked
    /// again.
    pub fn answer(&mut self, alloc: Global, manner: Lines, lines: &[u8]) -> u8
        ensures answered { IsAskable self.old.kept → IsAnsweredOn ⟦<TableFile<ByteDisk> as GameFile>⟧.stores
            ⟦<TableFile<ByteDisk> as GameFile>⟧.state ⟦<TableFile<ByteDisk> as Versions>⟧.is_version
            ⟦<TableFile<ByteDisk> as Versions>⟧.are_two ⟦<TableFile<ByteDisk> as Versions>⟧.is_used_up
            ⟦<TableFile<ByteDisk> as GameFile>⟧.lasts manner lines.now self.old.kept self.new.kept self.old.answers.items
            self.new.answers.items result }
        ensures again { IsAskable self.old.kept → IsAskable self.new.kept }
    {
        let kept = self.take_kept(alloc);
        let (status, kept) = kept.answered(alloc, manner, lines, &mut self.answers);
        self.put_kept(kept);
        status
    }

    /// Gives the answers that wait, if they fit, and tells how many bytes they are. Once they were given none waits.
    pub fn give_answers(&mut self, out: &mut [u8], count: &mut usize)
        ensures given { IsGiven self.old.answers.items out.old out.new count.new }
        ensures kept { self.new.kept ≡ self.old.kept }
        ensures none { length self.old.answers.items ≤ length out.old → self.new.answers.items ≡ [] }
        ensures wait { length out.old < length self.old.answers.items → self.new ≡ self.old }
    {
        give_text(&self.answers, out, count);
        if self.answers.len() <= out.len() {
            self.answers.clear();
        }
    }

    /// How many bytes of answers wait.
    pub fn waiting(&self) -> usize
        ensures { result ≡ length self.now.answers.items }
    {
        self.answers.len()
    }

    /// Gives the bytes of the table, if they fit, and tells how many they are. It is opened anew when it is asked again.
    pub fn give_bytes(&mut self, alloc: Global, out: &mut [u8], count: &mut usize)
        ensures given { IsGiven (bytes_of (disk_kept self.old.kept)) out.old out.new count.new }
        ensures disk { disk_kept self.new.kept ≡ disk_kept self.old.kept }
        ensures askable { IsAskable self.old.kept → IsAskable self.new.kept }
        ensures answers { self.new.answers ≡ self.old.answers }
    {
        let disk = self.take_kept(alloc).into_disk();
        give_text(disk.bytes(), out, count);
        self.put_kept(Kept::Disk(disk));
    }

    /// Takes out how it is kept, and leaves an empty disk.
    fn take_kept(&mut self, alloc: Global) -> Kept
        ensures kept { result ≡ self.old.kept }
        ensures answers { self.new.answers ≡ self.old.answers }
    {
        mem::replace(&mut self.kept, Kept::Disk(ByteDisk::empty(alloc)))
    }

    /// Puts in how it is kept.
    fn put_kept(&mut self, kept: Kept)
        ensures kept { self.new.kept ≡ kept }
        ensures answers { self.new.answers ≡ self.old.answers }
    {
        self.kept = kept;
    }
}
