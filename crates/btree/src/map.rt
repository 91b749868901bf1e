//! A map as a tree of pages: what it is, and what holds of every one.

pub mod laws;
mod limits;

pub use limits::MAX_LEVELS;
