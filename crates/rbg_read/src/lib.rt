//! Reads game texts: the tokens are grouped into sections, the sections are checked, and the game is
//! built. `read::read_game` answers the game, or the first cause for which the text is none.
#![tactic(auto)]

mod build;
mod checks;
pub mod fault;
pub mod laws;
mod limits;
mod names;
mod nodes;
mod numbers;
mod parts;
pub mod read;
mod repeats;
mod resolve;
mod sizes;
mod switches;
mod uses;

pub use rbg_game::{game, position, roles, rules, value};
