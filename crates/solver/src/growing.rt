//! A table that is full gets more pages.
ghost use Rattle.std.specs.Prelude.{◌≡◌, ◌+◌, ◌<◌, false, None, OnOk};
ghost use Rattle.game_file.specs.Growth.{GrowsAhead, IsGrownFile};
ghost use Rattle.solver.specs.Growth.{IsGrowth};

use crate::SolverFault;
use crate::commands::FileSolver;
use game_file::GameFile;

impl<F: GameFile> FileSolver<F> {
    ghost use Rattle.solver.specs.Frames.{IsLeft, IsNotGrownFor};
    ghost use Rattle.solver.specs.Solvers.{state, IsReady};

    /// How many pages the file has. It takes no memory and always answers, of a closed solver too.
    pub fn capacity(&self) -> u32
        ensures { result ≡ (state self.now).capacity }
    {
        self.file.capacity()
    }

    /// How many of them are free: so many may be taken before E7. It takes no memory and always answers, of a closed solver too.
    pub fn free_pages(&self) -> u32
        ensures told { result ≡ F.free self.now.file }
        ensures used { IsReady self.now → result < (state self.now).capacity }
        ensures empty { IsReady self.now → (state self.now).closed ≡ false → (state self.now).kept ≡ None
            → (state self.now).capacity ≡ result + 1 }
    {
        self.file.free_pages()
    }

    /// Makes the file one of this many pages, by one commit that keeps the table: E9, then E6 unless that is more than there are and at most
    /// 1,048,576, and then E1, E8. It needs no game. The new pages are free from the commit on. After a stop or a refusal the disk may be
    /// longer than that many pages take, which is no fault.
    pub fn grow(&mut self, pages: u32) -> Result<(), SolverFault>
        ensures grown { IsReady self.old → OnOk result (IsGrownFile F.stores pages (state self.old) (state self.new)) }
        ensures growth { IsReady self.old → IsGrowth F.stores pages (state self.old) (state self.new) }
        ensures left { IsLeft self.old self.new GrowsAhead }
        ensures err { IsNotGrownFor self.old self.new pages result }
    {
        self.file.grow(pages)?;
        Ok(())
    }
}
