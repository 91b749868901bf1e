//! Public calls of a table, of units of work on one, and of the audit, each under one clause of its contract, which it meets by calling it.
//!
//! The edits put a wrong body in the place of the call. Whatever meets the whole contract of a call meets this one clause, so that a body
//! which is refused here is refused by that contract.
#![tactic(auto)]

pub mod answers;
pub mod audits;
pub mod tables;
pub mod units;
pub mod work;
