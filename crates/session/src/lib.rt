//! The program `rbgsolve` but for its `main`: what the words of a command line ask for is done, on files, and in sessions.
#![tactic(auto)]

mod certificates;
pub mod commands;
mod dialogue;
mod files;
mod games;
pub mod line_by_line;
pub mod migrating;
pub mod moves_by_line;
mod open;
mod own_output;
mod position_line;
mod program;
mod room;
mod sessions;
mod streams;
mod text_files;
pub mod texts;
pub mod told;

pub use program::run;
pub use session_lines::{actions, input, moments, moves, questions, replies, rulebook, verdicts};
