//! The certificate of a value, made from a table by the questions that a look asks.
#![tactic(auto)]

mod delay;
pub mod laws;
mod lists;
mod packer;
mod progress;
mod ranks;
mod shown;
mod strategy;
mod told;
mod write;

pub use progress::Progress;
pub use write::{Written, write_certificate};
