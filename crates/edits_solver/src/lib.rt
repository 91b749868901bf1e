//! Public calls of the solver and of a saved table, and of those that read and print the lines of a session, each under one clause of its
//! contract, which it meets by calling it.
//!
//! The edits put a wrong body in the place of the call. Whatever meets the whole contract of a call meets this one clause, so that a body
//! which is refused here is refused by that contract.
#![tactic(auto)]

pub mod commands;
pub mod lines;
pub mod listings;
pub mod openings;
pub mod questions;
