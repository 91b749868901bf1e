//! The moves of a position: exactly its successors, each with a shortest word.
#![tactic(auto)]

mod automaton;
pub mod compiled;
mod copies;
pub mod effect;
mod ends;
pub mod fault;
mod fields;
pub mod laws;
pub mod limits;
mod marks;
pub mod moves;
mod search;
pub mod source;
mod successor;

pub use compiled::Compiled;
pub use fault::MoveFault;
pub use moves::{Modifier, Moves};
pub use rbg_game::goal::Goal;
pub use source::MoveSource;
