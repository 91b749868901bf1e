//! Positions as bytes and as text.
#![tactic(auto)]

mod fields;
pub mod kind;
pub mod laws;
pub mod limits;
mod names;
mod numbers;
pub mod packed;
mod parts;
mod read;
mod reader;
mod text;
mod words;
mod writer;

pub use kind::PackingKind;
pub use limits::MAX_PACKED;
pub use packed::{Packed, Packing, pack_bytes, pack_bytes_at};
pub use read::read_position;
pub use text::show;
