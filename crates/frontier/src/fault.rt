//! Why a unit of work was not done.
use legal_moves::MoveFault;
use table::TableFault;
use thiserror::Error;

/// Why a unit of work was not done. The first three leave the table as an answer does; after the others only what the table's own `fails`
/// says is known.
#[derive(Clone, Copy, PartialEq, Eq, Debug, Drop, Error)]
pub enum StepFault {
    /// The search for the moves of a position reaches too many configurations.
    #[error("a search for moves has more than 65,536 configurations")]
    TooWide,
    /// The keeper could choose between positions at this number.
    #[error("the keeper can choose at position {0}")]
    KeeperChooses(u32),
    /// A position would get a number past the limit.
    #[error("more than 16,777,216 positions")]
    TooManyPositions,
    /// The table does not agree with itself, so it is not of this program's making.
    #[error("the table is inconsistent")]
    Inconsistent,
    /// No memory was left for the search.
    #[error("out of memory")]
    OutOfMemory,
    /// The table gave no answer.
    #[error("{0}")]
    Table(TableFault),
}

impl From<TableFault> for StepFault {
    ghost use Rattle.std.specs.Prelude.{◌≡◌};
    ghost use Rattle.frontier.specs.declared.fault.StepFault.{StepFault};

    ghost from_gives = { λ fault r. r ≡ StepFault.Table fault };

    fn from(fault: TableFault) -> StepFault {
        StepFault::Table(fault)
    }
}

impl From<MoveFault> for StepFault {
    ghost use Rattle.std.specs.Prelude.{◌≡◌};
    ghost use Rattle.frontier.specs.Causes.{search_fault};

    ghost from_gives = { λ fault r. r ≡ search_fault fault };

    fn from(fault: MoveFault) -> StepFault {
        match fault {
            MoveFault::TooWide => StepFault::TooWide,
            MoveFault::OutOfMemory => StepFault::OutOfMemory,
        }
    }
}
