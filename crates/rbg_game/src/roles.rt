//! Who can have the turn.

/// One of the two players.
#[derive(Clone, Copy, PartialEq, Eq, Debug, Drop)]
pub enum Player {
    First,
    Second,
}

/// Whose turn it is: the keeper's or a player's.
#[derive(Clone, Copy, PartialEq, Eq, Debug, Drop)]
pub enum Role {
    Keeper,
    Player(Player),
}
