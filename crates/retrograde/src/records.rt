//! What a table keeps of each position.
ghost use Rattle.std.specs.Prelude.{◌≡◌};
ghost use Rattle.retrograde.specs.Stored.{is_expanded, is_processed};

use rbg_game::roles::Player;

/// How far a position has come.
#[derive(Clone, Copy, PartialEq, Eq, Debug, Drop)]
pub enum State {
    Known,
    Expanded,
    Settled,
    Processed,
}

impl State {
    /// The position is expanded.
    pub fn is_expanded(self) -> bool
        ensures { result ≡ is_expanded self }
    {
        match self {
            State::Known => false,
            State::Expanded | State::Settled | State::Processed => true,
        }
    }

    /// The position is processed.
    pub fn is_processed(self) -> bool
        ensures { result ≡ is_processed self }
    {
        match self {
            State::Processed => true,
            State::Known | State::Expanded | State::Settled => false,
        }
    }
}

/// What a table keeps of a position. Who wins it, once that is settled, and in how many moves; how many
/// of its successors are not processed; and how many successors it has.
#[derive(Clone, Copy, PartialEq, Eq, Debug, Drop)]
pub struct Record {
    pub state: State,
    pub winner: Option<Player>,
    pub distance: u32,
    pub left: u32,
    pub successors: u32,
}

/// How many positions have come how far.
#[derive(Clone, Copy, PartialEq, Eq, Debug, Drop)]
pub struct Counts {
    pub known: u32,
    pub expanded: u32,
    pub settled: u32,
    pub processed: u32,
}
