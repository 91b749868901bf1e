//! The rules: a regular expression of actions.

use crate::roles::Role;

/// How a comparison relates its two sides.
#[derive(Clone, Copy, Debug, PartialEq, Eq)]
pub enum Comparison {
    Equal,
    NotEqual,
    Less,
    LessEqual,
    Greater,
    GreaterEqual,
}

/// An expression over whole numbers. Variables are named by their place.
#[derive(Drop)]
pub enum Expr {
    Number(u32),
    Variable(u8),
    Negation(Box<Expr>),
    /// The terms added up; a subtracted one is a negation.
    Sum(Vec<Expr>),
    Product(Vec<Expr>),
}

/// An action. Labels, pieces and variables are named by their place.
#[cycle(rules)]
#[derive(Drop)]
pub enum Action {
    /// `label`
    Shift(u8),
    /// `{x, y}`
    On(Vec<u8>),
    /// `[x]`
    Off(u8),
    /// `[$ v = r]`
    Assignment(u8, Expr),
    /// `{$ r op r}`
    Comparison(Expr, Comparison, Expr),
    /// `->name`, `->>`
    Switch(Role),
    /// `{? e}` with true, `{! e}` with false
    Pattern(bool, Box<Rules>),
}

/// A regular expression of actions.
#[cycle(rules)]
#[derive(Drop)]
pub enum Rules {
    Action(Action),
    /// One after another.
    Concat(Vec<Rules>),
    /// One of them.
    Sum(Vec<Rules>),
    /// Zero or more times.
    Star(Box<Rules>),
}
