//! The bytes of a game's table, as the pages of a file hold them.

mod fault;
pub mod laws;
mod read;
mod read_cells;
mod read_edges;

pub use fault::BytesFault;
pub use read::read_table;
