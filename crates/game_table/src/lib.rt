//! A game's table in memory: a game made ready from its text, its start, whether the positions of a
//! table are the game's, and units of work on it.
#![tactic(auto)]

pub mod laws;
mod packings;
mod source;
mod steps;
mod texts;

pub use frontier::{MAX_POSITIONS, StepFault};
pub use source::Source;
pub use steps::work;
