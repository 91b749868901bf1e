//! The vocabulary of games: roles, rules, expressions, boards, positions, and what they mean.
#![tactic(auto)]

pub mod count;
pub mod game;
pub mod goal;
pub mod limits;
pub mod position;
pub mod roles;
pub mod rules;
pub mod value;
