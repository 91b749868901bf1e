//! The sections of a game text.

use crate::parser::Step;

/// A player or a variable, with the digits of its bound.
#[derive(Clone, Copy)]
pub struct Declaration<'a> {
    pub name: &'a [u8],
    pub bound: &'a [u8],
}

/// Along the label one comes to the vertex.
#[derive(Clone, Copy)]
pub struct Arrow<'a> {
    pub label: &'a [u8],
    pub to: &'a [u8],
}

#[derive(Drop)]
pub struct Vertex<'a> {
    pub name: &'a [u8],
    /// The piece on it at the start.
    pub piece: &'a [u8],
    pub arrows: Vec<Arrow<'a>>,
}

/// A section, with what stands after its `=`. No list but that of the variables is empty.
#[derive(Drop)]
pub enum Section<'a> {
    Players(Vec<Declaration<'a>>),
    Pieces(Vec<&'a [u8]>),
    Variables(Vec<Declaration<'a>>),
    Board(Vec<Vertex<'a>>),
    /// The steps of the rules in postfix order.
    Rules(Vec<Step<'a>>),
}
