//! Why the moves of a position are not given.
use std::alloc::{AllocError, AllocFailed};
use thiserror::Error;

/// Why the moves of a position are not given.
#[derive(Clone, Copy, PartialEq, Eq, Debug, Drop, Error)]
pub enum MoveFault {
    /// A search reaches too many configurations.
    #[error("a search for moves has more than 65,536 configurations")]
    TooWide,
    #[error("out of memory")]
    OutOfMemory,
}

impl From<AllocError> for MoveFault {
    ghost use Rattle.std.specs.Prelude.{◌≡◌};
    ghost use Rattle.legal_moves.specs.declared.fault.MoveFault.TheVariants.{OutOfMemory};

    ghost from_gives = { λ _ fault. fault ≡ OutOfMemory };

    fn from(_: AllocError) -> MoveFault {
        MoveFault::OutOfMemory
    }
}

impl<T: Drop> From<AllocFailed<T>> for MoveFault {
    ghost use Rattle.std.specs.Prelude.{◌≡◌};
    ghost use Rattle.legal_moves.specs.declared.fault.MoveFault.TheVariants.{OutOfMemory};

    ghost from_gives = { λ _ fault. fault ≡ OutOfMemory };

    fn from(_: AllocFailed<T>) -> MoveFault {
        MoveFault::OutOfMemory
    }
}
