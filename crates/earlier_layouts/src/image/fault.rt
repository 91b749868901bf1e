//! Why bytes give no table.
ghost use Rattle.std.specs.Prelude.{◌≡◌};
ghost use Rattle.earlier_layouts.specs.declared.image.fault.BytesFault.TheVariants.{OutOfMemory};

use std::alloc::AllocError;
use table::TableFault;
use thiserror::Error;

/// Why bytes give no table.
#[derive(Clone, Copy, PartialEq, Eq, Debug, Drop, Error)]
pub enum BytesFault {
    /// They spell none whose parts fit together.
    #[error("the table is damaged")]
    Damaged,
    #[error("out of memory")]
    OutOfMemory,
}

impl From<TableFault> for BytesFault {
    ghost from_gives = { λ _ fault. fault ≡ OutOfMemory };

    fn from(_: TableFault) -> Self {
        BytesFault::OutOfMemory
    }
}

impl From<AllocError> for BytesFault {
    ghost from_gives = { λ _ fault. fault ≡ OutOfMemory };

    fn from(_: AllocError) -> Self {
        BytesFault::OutOfMemory
    }
}
