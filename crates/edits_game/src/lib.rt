//! Public calls that read texts, that take positions as bytes or texts, and that find moves, each under one clause of its contract, which
//! it meets by calling it.
//!
//! The edits put a wrong body in the place of the call. Whatever meets the whole contract of a call meets this one clause, so that a body
//! which is refused here is refused by that contract.
#![tactic(auto)]

pub mod games;
pub mod goals;
pub mod moves;
pub mod positions;
pub mod texts;
pub mod values;
