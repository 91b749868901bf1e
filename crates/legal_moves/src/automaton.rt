//! The rules as an automaton: occurrences of actions, which can follow which, and what shifts alone lead to.

pub mod actions;
pub mod compile;
pub mod jumps;
pub mod patterns;
pub mod relation;
pub mod same;
pub mod table;
