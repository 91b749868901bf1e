//! What a line of a session asks for, how it is answered, and the lines that are printed: moves, values, how far a table is, verdicts.
#![tactic(auto)]

pub mod actions;
pub mod advice;
pub mod input;
pub mod known;
mod lines;
pub mod listing_laws;
pub mod listings;
pub mod looks;
pub mod moments;
mod move_lines;
pub mod moves;
pub mod puts;
pub mod questions;
pub mod refusals;
pub mod replies;
pub mod rulebook;
pub mod verdicts;
