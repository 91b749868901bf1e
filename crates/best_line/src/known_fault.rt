//! Why the moves of a known position are not given.
use legal_moves::MoveFault;
use std::alloc::{AllocError, AllocFailed};
use table::TableFault;
use thiserror::Error;

/// Why the moves of a known position are not given. The table is as it was.
#[derive(Clone, Copy, PartialEq, Eq, Debug, Drop, Error)]
pub enum KnownMovesFault {
    /// The bytes of the position are those of no position of the game, so the table is not of this program's making.
    #[error("the table is inconsistent")]
    Inconsistent,
    /// The search for the moves of the position reaches too many configurations.
    #[error("a search for moves has more than 65,536 configurations")]
    TooWide,
    /// No memory was left for the search or for the moves.
    #[error("out of memory")]
    OutOfMemory,
    /// The table gave no answer.
    #[error("{0}")]
    Table(TableFault),
}

impl From<TableFault> for KnownMovesFault {
    ghost use Rattle.std.specs.Prelude.{◌≡◌};
    ghost use Rattle.best_line.specs.declared.known_fault.KnownMovesFault.{KnownMovesFault};

    ghost from_gives = { λ fault r. r ≡ KnownMovesFault.Table fault };

    fn from(fault: TableFault) -> KnownMovesFault {
        KnownMovesFault::Table(fault)
    }
}

impl From<MoveFault> for KnownMovesFault {
    ghost use Rattle.std.specs.Prelude.{◌≡◌};
    ghost use Rattle.best_line.specs.KnownCauses.{search_fault};

    ghost from_gives = { λ fault r. r ≡ search_fault fault };

    fn from(fault: MoveFault) -> KnownMovesFault {
        match fault {
            MoveFault::TooWide => KnownMovesFault::TooWide,
            MoveFault::OutOfMemory => KnownMovesFault::OutOfMemory,
        }
    }
}

impl From<AllocError> for KnownMovesFault {
    ghost use Rattle.std.specs.Prelude.{◌≡◌};
    ghost use Rattle.best_line.specs.declared.known_fault.KnownMovesFault.TheVariants.{OutOfMemory};

    ghost from_gives = { λ _ fault. fault ≡ OutOfMemory };

    fn from(_: AllocError) -> KnownMovesFault {
        KnownMovesFault::OutOfMemory
    }
}

impl<T: Drop> From<AllocFailed<T>> for KnownMovesFault {
    ghost use Rattle.std.specs.Prelude.{◌≡◌};
    ghost use Rattle.best_line.specs.declared.known_fault.KnownMovesFault.TheVariants.{OutOfMemory};

    ghost from_gives = { λ _ fault. fault ≡ OutOfMemory };

    fn from(_: AllocFailed<T>) -> KnownMovesFault {
        KnownMovesFault::OutOfMemory
    }
}
