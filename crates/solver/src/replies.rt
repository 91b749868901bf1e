//! What commands ask for, and what they answer.
ghost use Rattle.std.specs.Prelude.{◌≤◌};

use crate::SolverFault;
use rbg_game::goal::Goal;
use retrograde::Counts;

/// How many units of work a command does, or rows it gives: 1 to 256.
#[derive(Clone, Copy, PartialEq, Eq, Debug, Drop)]
pub struct Units {
    count: u32,
    ghost some: { 1 ≤ count },
    ghost few: { count ≤ 256 },
}

impl Units {
    ghost use Rattle.std.specs.Prelude.{◌≡◌, ◌≤◌, ◌<◌, ◌⊎◌, IfSome, IfNone};
    ghost use Rattle.solver.specs.Units.{units_in};

    /// This many; none where that is not 1 to 256.
    pub fn new(count: u32) -> Option<Units>
        ensures some { IfSome result (λ units. units_in units ≡ count) }
        ensures none { IfNone result ((count ≡ 0) ⊎ (256 < count)) }
    {
        if (1..=256).contains(&count) {
            Some(Units { count })
        } else {
            None
        }
    }

    /// How many they are.
    pub fn count(self) -> u32
        ensures is { result ≡ units_in self }
        ensures some { 1 ≤ result }
        ensures few { result ≤ 256 }
    {
        self.count
    }
}

/// What came of a command to work: the units that were done, and how far the table is then.
#[derive(Clone, Copy, PartialEq, Eq, Debug, Drop)]
pub struct Worked {
    pub units: u32,
    pub counts: Counts,
}

/// What changes a table.
#[derive(Drop)]
pub enum Command {
    /// Loads the game of this text with this goal, if there is one.
    Load(Vec<u8>, Option<Goal>),
    /// Does this many units of work, or fewer where the table is finished by then.
    Work(Units),
}

/// What a command answers.
#[derive(Clone, Copy, PartialEq, Eq, Debug, Drop)]
pub enum Reply {
    /// The game is loaded.
    Loaded,
    /// This many units are done, and these are the table's counts then.
    Worked(u32, Counts),
    /// The command is refused.
    Refused(SolverFault),
}
