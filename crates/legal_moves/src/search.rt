//! The search for what valid actions lead to.

pub mod answers;
pub mod boards;
pub mod bucket;
pub mod chains;
pub mod found;
pub mod hop;
pub mod leap;
pub mod looks;
pub mod room;
pub mod searcher;
pub mod writing;
