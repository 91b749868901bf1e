//! A game's table on four trees of pages, one for its positions, one for its records, one for its edges and one for the
//! settled order.
#![tactic(auto)]

mod begin;
mod bytes;
mod change;
mod fault;
mod growing;
mod keeping;
mod last;
pub mod laws;
mod read;
mod slot;
mod tree;
mod version;
mod working;

pub use bytes::{Cell, cell_parts, number_in, number_key};
pub use keeping::bare_slot;
pub use last::Seen;
pub use read::{find_key, reader_of, value_at};
pub use slot::{FIRST_WITH_GOALS, Slot, TreeSlot, empty_slot, game_slot, read_slot};
pub use tree::{Roots, Tree, widths_of};
pub use working::TreeTable;
