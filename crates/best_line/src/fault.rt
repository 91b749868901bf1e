//! Why there is no line.
use legal_moves::MoveFault;
use std::alloc::AllocFailed;
use table::TableFault;
use thiserror::Error;

/// Why there is no line. The table is as it was.
#[derive(Clone, Copy, PartialEq, Eq, Debug, Drop, Error)]
pub enum LineFault {
    /// The position has no winner in the table.
    #[error("the position is not settled")]
    NotSettled,
    /// The table does not agree with itself, so it is not of this program's making.
    #[error("the table is inconsistent")]
    Inconsistent,
    /// The search for the moves of a position reaches too many configurations, so the table is not of
    /// this program's making.
    #[error("a search for moves has more than 65,536 configurations")]
    TooWide,
    /// No memory was left for the search or for the line.
    #[error("out of memory")]
    OutOfMemory,
    /// The table gave no answer.
    #[error("{0}")]
    Table(TableFault),
}

impl From<TableFault> for LineFault {
    ghost use Rattle.std.specs.Prelude.{◌≡◌};
    ghost use Rattle.best_line.specs.declared.fault.LineFault.{LineFault};

    ghost from_gives = { λ fault r. r ≡ LineFault.Table fault };

    fn from(fault: TableFault) -> LineFault {
        LineFault::Table(fault)
    }
}

impl From<MoveFault> for LineFault {
    ghost use Rattle.std.specs.Prelude.{◌≡◌};
    ghost use Rattle.best_line.specs.Causes.{search_fault};

    ghost from_gives = { λ fault r. r ≡ search_fault fault };

    fn from(fault: MoveFault) -> LineFault {
        match fault {
            MoveFault::TooWide => LineFault::TooWide,
            MoveFault::OutOfMemory => LineFault::OutOfMemory,
        }
    }
}

impl<T: Drop> From<AllocFailed<T>> for LineFault {
    ghost use Rattle.std.specs.Prelude.{◌≡◌};
    ghost use Rattle.best_line.specs.declared.fault.LineFault.TheVariants.{OutOfMemory};

    ghost from_gives = { λ _ fault. fault ≡ OutOfMemory };

    fn from(_: AllocFailed<T>) -> LineFault {
        LineFault::OutOfMemory
    }
}
