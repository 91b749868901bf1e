//! Why a text is no game, for people: where the fault is, and what was met there.
#![tactic(auto)]

pub mod explain;
mod mentions;
mod wrong_names;
