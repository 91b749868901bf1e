//! What a table answers of a position.
use rbg_game::roles::Player;

/// What a table says of a position: who wins it, and in how many moves; that nobody does, where the
/// table is finished; or nothing yet.
#[derive(Clone, Copy, PartialEq, Eq, Debug, Drop)]
pub enum Value {
    Won(Player, u32),
    Drawn,
    Open,
}

/// A position by its number, with its value.
#[derive(Clone, Copy, PartialEq, Eq, Debug, Drop)]
pub struct Row {
    pub number: u32,
    pub value: Value,
}
