//! One unit of work: the known position with the least number that is not expanded is expanded.
#![tactic(auto)]

mod expand;
mod fault;
mod finish;
mod note;
mod numbers;

pub use expand::expand_one;
pub use fault::StepFault;
pub use table::MAX_POSITIONS;
