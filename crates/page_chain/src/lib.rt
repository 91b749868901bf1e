//! A list of bytes as a chain of pages: each page begins with the number of the next one, and the last with 0.
#![tactic(auto)]

pub mod laws;
mod page;
mod read;
mod write;

pub use page::{PAYLOAD, pages_for};
pub use read::{Chain, read_chain};
pub use write::write_chain;
