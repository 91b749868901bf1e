//! It gets there: how many units of work settle a game, and what may keep work from being done.
#![tactic(auto)]

pub mod laws;
