//! The solver over the file of today's layout. This is the one crate that names the layout: whoever stands on `solver` alone is not
//! proved again where the trees change.
#![tactic(auto)]

mod earlier;
mod first;
mod migration;

pub use earlier::EarlierFile;
pub use migration::{Migration, migrate};
pub use solver::{Command, FileSolver, Listing, Refused, Reply, SolverFault, Units, Worked};

/// The file of today's layout, on a disk.
pub type TableFile<D> = tree_file::TreeFile<page_store::PageStore<D>, 3>;

/// The file of the second layout, which is today's but for the count of pages and the goal.
pub type SecondFile<D> = tree_file::TreeFile<page_store::PageStore<D>, 2>;

/// The file of the first layout, which is read and not written.
pub type FirstFile<D> = earlier_layouts::FlatTable<D>;

/// A solver over such a file.
pub type Solver<D> = FileSolver<TableFile<D>>;
