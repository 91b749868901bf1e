//! Listings: the rows of a table as it was when they were begun, while the table goes on.
ghost use Rattle.std.specs.Prelude.{◌≡◌, ◌+◌, ℕ, List, Some, IsTrue, IfOk, OnErr, length};
ghost use Rattle.best_line.specs.Rows.{AreRows};
ghost use Rattle.game_file.specs.Kept.{Kept};
ghost use Rattle.retrograde.specs.Stored.{Stored, IsTable, view_of};
ghost use Rattle.solver.specs.Frames.{IsBegun, IsNotBegun, IsNotGiven, IsOnlyAsked, IsSameFor};
ghost use Rattle.solver.specs.Solvers.{state, IsReady};
ghost use Rattle.solver.specs.Units.{units_in};

use crate::listing::Listing;
use crate::needs::needs_game;
use crate::version_rows::version_rows;
use crate::{FileSolver, SolverFault, Units};
use best_line::Row;
use game_file::Versions;

impl<F: Versions> FileSolver<F> {
    /// Begins a listing of the table of the last commit: E9, S1, S9. It takes no memory.
    pub fn list_begin(&mut self) -> Result<Listing<F::Version>, SolverFault>
        ensures same { IsSameFor self.old self.new }
        ensures table { IsReady self.old → IsTrue (state self.old).disk.honest → (kept : Kept) → (state self.old).kept ≡ Some kept
            → IsTable kept.table }
        ensures ok { IfOk result (λ listing. IsBegun self.old self.new F.is_version F.are_two listing.version listing.next) }
        ensures err { IsNotBegun self.old self.new F.is_version F.is_used_up result }
    {
        needs_game(&self.file)?;
        match self.file.keep() {
            Some(version) => Ok(Listing { version, next: 0 }),
            None => Err(SolverFault::ListingsUsedUp),
        }
    }

    /// The next rows of a listing, this many or up to the last; none where all were given: E9 first, then E1, E8. The rows are those of the
    /// table of the beginning, with the values that they had then. A refusal leaves the listing where it stood.
    pub fn list_next(
        &mut self,
        listing: &mut Listing<F::Version>,
        count: Units,
    ) -> Result<Vec<Row>, SolverFault>
        ensures rows { IsTrue (state self.old).disk.honest → (table : Stored (List ℕ)) → IsTable table
            → F.is_version listing.old.version table self.old.file
            → IfOk result (λ rows. AreRows (view_of table) listing.old.next (units_in count) rows.items) }
        ensures moved { IfOk result (λ rows. (listing.new.version ≡ listing.old.version)
            × (listing.new.next ≡ listing.old.next + length rows.items)) }
        ensures stands { OnErr result (listing.new ≡ listing.old) }
        ensures left { IsOnlyAsked self.old self.new }
        ensures err { IsNotGiven self.old self.new F.is_version listing.old.version result }
    {
        if self.file.is_closed() {
            return Err(SolverFault::Closed);
        }
        let rows = version_rows(
            self.alloc,
            &mut self.file,
            &listing.version,
            listing.next,
            count.count(),
        )?;
        listing.next += rows.len() as u32;
        Ok(rows)
    }

    /// Ends a listing. It takes no memory and always answers, of a closed solver too.
    pub fn list_end(&mut self, listing: Listing<F::Version>)
        ensures same { IsSameFor self.old self.new }
        ensures others { (other : F.Version) (table : Stored (List ℕ)) → F.are_two other listing.version
            → F.is_version other table self.old.file → F.is_version other table self.new.file }
        ensures ended { (table : Stored (List ℕ)) → ¬ F.is_version listing.version table self.new.file }
    {
        let Listing { version, next: _ } = listing;
        self.file.give_back(version);
    }
}
