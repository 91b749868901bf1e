//! The solver: a game's table in a file, the commands on it and the questions. It names no layout of a file.
#![tactic(auto)]

mod commands;
mod fault;
mod growing;
pub mod laws;
mod listing;
pub mod listing_laws;
mod listings;
mod moves;
mod needs;
mod queries;
mod replies;
mod run;
mod version_rows;
mod with_game;

pub use best_line::{KnownMove, KnownMoves};
pub use commands::FileSolver;
pub use fault::{Refused, SolverFault};
pub use listing::Listing;
pub use replies::{Command, Reply, Units, Worked};
