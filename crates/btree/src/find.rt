//! Maps that are trees of pages are read: the value at a key, and the entry with the next greater key.

mod ahead;
mod entry;
mod leaf;
mod look;
mod read;
mod reader;
mod way;

pub use entry::{Bytes, Entry, copied, no_entry};
pub use read::{get, get_into, next_after, next_into};
pub use reader::Reader;
