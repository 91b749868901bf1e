//! What audit answers.
ghost use Rattle.std.specs.Prelude.{◌≡◌};
ghost use Rattle.retrograde.specs.Verdicts.{number_of};
ghost use Rattle.audit.specs.Answers.{reason_of};

/// The condition that fails, by its code.
#[derive(Clone, Copy, PartialEq, Eq, Debug, Drop)]
pub enum Reason {
    /// Number 0 is the start, and any other has an edge from an expanded position with a smaller number.
    A1,
    /// The moves of an expanded position have their edges and are counted right, and each edge is a move.
    A2,
    /// Nothing is processed before all known positions are expanded.
    A3,
    /// Distances do not fall along the settled order.
    A4,
    /// An expanded position without a move is settled for the player who is ahead.
    A5,
    /// An expanded position with a move is settled as the processed positions say to which it leads.
    A6,
    /// What is not expanded is not settled.
    A7,
}

impl Reason {
    /// The number in its code, from 1 to 7.
    pub fn number(self) -> u8
        ensures { result ≡ number_of (reason_of self) }
    {
        match self {
            Reason::A1 => 1,
            Reason::A2 => 2,
            Reason::A3 => 3,
            Reason::A4 => 4,
            Reason::A5 => 5,
            Reason::A6 => 6,
            Reason::A7 => 7,
        }
    }
}

/// The table is right; or the lowest number that fails, with its lowest reason.
#[derive(Clone, Copy, PartialEq, Eq, Debug, Drop)]
pub enum Verdict {
    Right,
    Wrong(u32, Reason),
}
