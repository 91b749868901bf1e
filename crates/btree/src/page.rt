//! The pages of a tree: a leaf holds keys with their values, an inner page the smallest key of each child with the
//! child's page. Keys have one length, and so have values.

mod kind;
mod order;
mod read;
mod widths;
mod write;

pub use kind::{HEAD, Kind, ROOM, behind_of};
pub use read::{count_of, item_at, kind_of, place_of};
pub use widths::Widths;
pub use write::{page_of, set_count};
