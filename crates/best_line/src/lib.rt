//! What a table of a game answers: the value of a position, a best line from it, a list, and the moves of a known position with
//! what the table tells of each.
#![tactic(auto)]

mod answers;
mod fault;
mod found;
mod known;
mod known_fault;
mod laws;
mod lines;
mod moves;
mod order;
mod rows;
mod steps;
mod told;
mod values;

pub use answers::{Row, Value};
pub use fault::LineFault;
pub use known::{KnownMove, KnownMoves};
pub use known_fault::KnownMovesFault;
pub use laws::{rows_join, values_are_so};
pub use lines::line;
pub use moves::known_moves;
pub use rows::list;
pub use told::{Told, told_of};
pub use values::{value, value_of};
