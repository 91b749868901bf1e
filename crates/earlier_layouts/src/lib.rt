//! Files of layout 1, which are read and not written: such a file keeps a game's table on one chain of pages, whose bytes `image` reads.
//! `rebuild` makes it a file of the layout that the program writes, and `copy_table` copies any table into any other.
#![tactic(auto)]

mod bytes;
mod committing;
mod copy;
mod copying;
mod edges;
mod fault;
mod file;
pub mod game;
pub mod image;
pub mod laws;
mod migration;
mod order;
mod positions;
pub mod read;
pub mod slot;

pub use copy::copy_table;
pub use fault::CopyFault;
pub use file::FlatTable;
pub use migration::rebuild;
