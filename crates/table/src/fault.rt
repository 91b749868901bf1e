//! Why a table gave no answer.
ghost use Rattle.std.specs.Prelude.{◌≡◌};
ghost use Rattle.table.specs.declared.fault.TableFault.TheVariants.{OutOfMemory};

use std::alloc::{AllocError, AllocFailed};
use thiserror::Error;

/// Why a table gave no answer. What is the cause of each, a table says by `fails`.
#[derive(Clone, Copy, PartialEq, Eq, Debug, Drop, Error)]
pub enum TableFault {
    /// The device under the table failed (E1).
    #[error("the disk failed")]
    Disk,
    /// What the device holds is not what the table needs (E4).
    #[error("the table is damaged")]
    Damaged,
    /// A page is needed, and none is free (E7).
    #[error("no page is free")]
    TableFull,
    /// A growth was refused (E8).
    #[error("out of memory")]
    OutOfMemory,
    /// A write or a sync has failed before; the table has to be opened again (E9).
    #[error("closed since a write failed")]
    Closed,
}

impl From<AllocError> for TableFault {
    ghost from_gives = { λ _ fault. fault ≡ OutOfMemory };

    fn from(_: AllocError) -> TableFault {
        TableFault::OutOfMemory
    }
}

impl<T: Drop> From<AllocFailed<T>> for TableFault {
    ghost from_gives = { λ _ fault. fault ≡ OutOfMemory };

    fn from(_: AllocFailed<T>) -> TableFault {
        TableFault::OutOfMemory
    }
}
