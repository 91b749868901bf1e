//! What sessions of lines have told is kept.
#![tactic(auto)]

pub mod laws;
