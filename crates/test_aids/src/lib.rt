//! What crates of tests share: how a row of a test is compared, and the game that most of them begin with.
#![tactic(auto)]

mod expectation;
mod take;

pub use expectation::expect;
pub use take::TAKE;
