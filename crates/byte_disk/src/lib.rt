//! A disk in memory that keeps its bytes and nothing else.
#![tactic(auto)]

mod disk;
mod past;

pub use disk::ByteDisk;
