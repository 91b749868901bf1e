//! The table of one game: what is stored of it, and a table in memory.
#![tactic(auto)]

mod fault;
mod fitting;
mod limits;
mod memory;
mod table;

pub use fault::TableFault;
pub use limits::{MAX_POSITIONS, PAGES_PER_ENTRY};
pub use memory::MemTable;
pub use table::Table;
