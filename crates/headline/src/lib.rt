//! The headline: what holds of a table however often the power failed, in whole and in brief. Nothing of the program stands on it.
#![tactic(auto)]

pub mod laws;
pub mod saved;

pub use saved::SavedTable;
