//! What the words of a command line ask for, and the help of each command.
#![tactic(auto)]

mod asked_words;
mod game_words;
mod page_counts;
mod table_words;
pub mod word_laws;
pub mod words;
