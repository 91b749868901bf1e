//! What a game's table in a file promises, whatever the layout of the file: the trait between the solver and a file, and the bytes
//! that all layouts share: a position's record, and the fields of a root slot.
#![tactic(auto)]

mod fault;
mod fields;
mod file;
mod goal;
mod packing;
mod record;
mod sizes;
mod versions;

pub use fault::{FileFault, Refused};
pub use fields::{are_within_limits, are_zero, long_at, put_long, put_word, sizes_in, word_at};
pub use file::GameFile;
pub use goal::{goal_numbered, number_of_goal};
pub use packing::{number_of_packing, packing_numbered};
pub use record::{RECORD_BYTES, read_record, record_bytes};
pub use sizes::Sizes;
pub use versions::Versions;
