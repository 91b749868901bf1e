//! Public calls of a pair of roots, of a store of pages, of chains of them, and of a table in a file, whichever its layout is, each under one
//! clause of its contract, which it meets by calling it.
//!
//! The edits put a wrong body in the place of the call. Whatever meets the whole contract of a call meets this one clause, so that a body
//! which is refused here is refused by that contract.
#![tactic(auto)]

pub mod chains;
pub mod files;
pub mod pages;
pub mod records;
pub mod roots;
pub mod tables;
pub mod versions;
