//! What lines and command lines share: how a number is written, and the help about lines.
#![tactic(auto)]

pub mod help;
pub mod numbers;
