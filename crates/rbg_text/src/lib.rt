//! Game texts: their tokens, their grammar, and what their sections say.
#![tactic(auto)]

mod expression_parser;
pub mod fault;
pub mod lexer;
pub mod nesting;
pub mod parser;
pub mod read;
mod section_parser;
pub mod sections;
pub mod token;
