//! The actions of a game's rules that have numbers, as they stand in the game's text. `list::action_lines` answers them one a line,
//! `lines::line_column` says where a byte of a text stands.
#![tactic(auto)]

pub mod laws;
pub mod lexemes;
pub mod lines;
pub mod list;
pub mod stretches;
