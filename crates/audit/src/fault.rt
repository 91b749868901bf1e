//! Why there is no verdict.
use legal_moves::MoveFault;
use std::alloc::{AllocError, AllocFailed};
use table::TableFault;
use thiserror::Error;

/// Why there is no verdict. The table is as it was.
#[derive(Clone, Copy, PartialEq, Eq, Debug, Drop, Error)]
pub enum AuditFault {
    /// The search for the moves of an expanded position reaches too many configurations, so the table is
    /// not of this program's making.
    #[error("a search for moves has more than 65,536 configurations")]
    TooWide,
    /// No memory was left.
    #[error("out of memory")]
    OutOfMemory,
    /// The table gave no answer.
    #[error("{0}")]
    Table(TableFault),
}

impl From<TableFault> for AuditFault {
    ghost use Rattle.std.specs.Prelude.{◌≡◌};
    ghost use Rattle.audit.specs.declared.fault.AuditFault.{AuditFault};

    ghost from_gives = { λ fault r. r ≡ AuditFault.Table fault };

    fn from(fault: TableFault) -> AuditFault {
        AuditFault::Table(fault)
    }
}

impl From<MoveFault> for AuditFault {
    ghost use Rattle.std.specs.Prelude.{◌≡◌};
    ghost use Rattle.audit.specs.Causes.{search_fault};

    ghost from_gives = { λ fault r. r ≡ search_fault fault };

    fn from(fault: MoveFault) -> AuditFault {
        match fault {
            MoveFault::TooWide => AuditFault::TooWide,
            MoveFault::OutOfMemory => AuditFault::OutOfMemory,
        }
    }
}

impl From<AllocError> for AuditFault {
    ghost use Rattle.std.specs.Prelude.{◌≡◌};
    ghost use Rattle.audit.specs.declared.fault.AuditFault.TheVariants.{OutOfMemory};

    ghost from_gives = { λ _ fault. fault ≡ OutOfMemory };

    fn from(_: AllocError) -> AuditFault {
        AuditFault::OutOfMemory
    }
}

impl<T: Drop> From<AllocFailed<T>> for AuditFault {
    ghost use Rattle.std.specs.Prelude.{◌≡◌};
    ghost use Rattle.audit.specs.declared.fault.AuditFault.TheVariants.{OutOfMemory};

    ghost from_gives = { λ _ fault. fault ≡ OutOfMemory };

    fn from(_: AllocFailed<T>) -> AuditFault {
        AuditFault::OutOfMemory
    }
}
