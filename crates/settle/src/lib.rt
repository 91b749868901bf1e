//! The other unit of work: the settled position that waits first is processed.
#![tactic(auto)]

mod lower;
mod next;
mod settle;
mod turn;

pub use frontier::StepFault;
pub use settle::settle_one;
