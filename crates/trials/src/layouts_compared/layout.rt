//! The three layouts of a file, each on a disk in memory.

use best_line::Row;
use game_file::GameFile;
use page_store::PageStore;
use recover::FirstFile;
use sector_disk::MemDisk;
use solver::{FileSolver, Listing, SolverFault, Units};
use std::alloc::Global;
use tree_file::{Kept, TreeFile};

/// The sectors of 4,096 pages.
pub const SECTORS: u64 = 32_768;

/// A file of layout 1 on a disk in memory: it is read alone.
pub type First = FirstFile<MemDisk>;

/// A file of layout 2 on a disk in memory.
pub type Second = TreeFile<PageStore<MemDisk>, 2>;

/// A file of layout 3 on a disk in memory.
pub type Third = TreeFile<PageStore<MemDisk>, 3>;

/// This many rows of a listing are asked for beforehand, all at once.
const TAKEN: u32 = 256;

/// A file on a disk that can be made, that can lose its power, and of which the rows are listed as they were at some moment.
pub trait Layout: GameFile {
    /// A listing that was begun.
    type Rows;

    /// A disk on which nothing was written.
    fn new_disk(alloc: Global) -> anyhow::Result<Self::Device>;

    /// What a power failure leaves of the disk.
    fn stopped(alloc: Global, disk: Self::Device) -> anyhow::Result<Self::Device>;

    /// Begins a listing of the table as it is now.
    fn begin_rows(solver: &mut FileSolver<Self>) -> Result<Self::Rows, SolverFault>;

    /// The next rows of a listing, within the first 256: this many, or up to the last. S6 if they are not those of its beginning.
    fn next_rows(
        alloc: Global,
        solver: &mut FileSolver<Self>,
        rows: &mut Self::Rows,
        count: Units,
    ) -> Result<Vec<Row>, SolverFault>;

    /// Ends a listing.
    fn end_rows(solver: &mut FileSolver<Self>, rows: Self::Rows);
}

/// A listing that was begun, and its first 256 rows as `list` told them then.
pub struct ListedRows {
    listing: Listing<Kept>,
    taken: Vec<Row>,
    /// This many of them were given.
    given: usize,
}

impl<const LAYOUT: u32> Layout for TreeFile<PageStore<MemDisk>, LAYOUT> {
    type Rows = ListedRows;

    fn new_disk(alloc: Global) -> anyhow::Result<MemDisk> {
        Ok(MemDisk::new(alloc, SECTORS)?)
    }

    fn stopped(alloc: Global, disk: MemDisk) -> anyhow::Result<MemDisk> {
        Ok(disk.after_stop(alloc, 0)?)
    }

    fn begin_rows(solver: &mut FileSolver<Self>) -> Result<ListedRows, SolverFault> {
        let Some(most) = Units::new(TAKEN) else {
            return Err(SolverFault::Inconsistent);
        };
        let taken = solver.list(0, most)?;
        let listing = solver.list_begin()?;
        Ok(ListedRows {
            listing,
            taken,
            given: 0,
        })
    }

    fn next_rows(
        alloc: Global,
        solver: &mut FileSolver<Self>,
        rows: &mut ListedRows,
        count: Units,
    ) -> Result<Vec<Row>, SolverFault> {
        let next = solver.list_next(&mut rows.listing, count)?;
        let left = rows.taken.iter().skip(rows.given);
        let wanted: Vec<Row> = left.take(next.len()).copied().collect(alloc)?;
        if next != wanted {
            return Err(SolverFault::Inconsistent);
        }
        rows.given = rows.given.saturating_add(next.len());
        Ok(next)
    }

    fn end_rows(solver: &mut FileSolver<Self>, rows: ListedRows) {
        let ListedRows {
            listing,
            taken: _taken,
            given: _given,
        } = rows;
        solver.list_end(listing);
    }
}
