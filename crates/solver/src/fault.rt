//! Why a command is refused.

use audit::AuditFault;
use best_line::{KnownMovesFault, LineFault};
use frontier::StepFault;
use game_file::FileFault;
use rbg_read::fault::GameFault;
use std::alloc::{AllocError, AllocFailed};
use table::TableFault;
use thiserror::Error;

/// Why a command is refused. After any refusal the table is as it was, but that after `Disk` in a write or a sync the
/// solver is closed, and the file has the table before the command or the one after it.
#[derive(Clone, Copy, PartialEq, Eq, Debug, Drop, Error)]
pub enum SolverFault {
    /// E1
    #[error("the disk failed")]
    Disk,
    /// E2: there are fewer than four sectors, or they do not begin as each table does.
    #[error("no table is there")]
    NotATable,
    /// E3
    #[error("a table is there already")]
    AlreadyATable,
    /// E4
    #[error("the table is damaged")]
    Damaged,
    /// E5: it is in a file of an earlier layout, which is not opened.
    #[error("the table has an earlier layout")]
    OldLayout,
    /// E6
    #[error("the number of pages is too small, or over 1,048,576")]
    TooSmall,
    /// E7
    #[error("no page is free")]
    TableFull,
    /// E8
    #[error("out of memory")]
    OutOfMemory,
    /// E9: a write or a sync has failed before; the table has to be opened again.
    #[error("closed since a write failed")]
    Closed,
    /// G1 to G10
    #[error("{0}")]
    Game(GameFault),
    /// S1
    #[error("no game is loaded")]
    NoGame,
    /// S2
    #[error("a game is loaded already")]
    GameAlready,
    /// S3: at the number that the position has as the refused command had built the table.
    #[error("the keeper can choose at position {0}")]
    KeeperChooses(u32),
    /// S4
    #[error("a search for moves has more than 65,536 configurations")]
    TooWide,
    /// S5
    #[error("more than 16,777,216 positions")]
    TooManyPositions,
    /// S6: the table is not of this program's making.
    #[error("the table is inconsistent")]
    Inconsistent,
    /// S7
    #[error("no such position is known")]
    NoSuchPosition,
    /// S8
    #[error("the position is not settled")]
    NotSettled,
    /// S9: four listings are open.
    #[error("four listings are open")]
    ListingsUsedUp,
    /// S10
    #[error("the text is that of no position")]
    BadPosition,
}

/// A disk that comes back with a refusal.
#[derive(Drop)]
pub struct Refused<D> {
    pub disk: D,
    pub fault: SolverFault,
}

impl SolverFault {
    ghost use Rattle.std.specs.Prelude.{◌≡◌};
    ghost use Rattle.solver.specs.Faults.{code_of, status_of};

    /// The code that is printed.
    pub fn code(self) -> &'static str
        ensures { result.now ≡ code_of self }
    {
        match self {
            SolverFault::Disk => "E1",
            SolverFault::NotATable => "E2",
            SolverFault::AlreadyATable => "E3",
            SolverFault::Damaged => "E4",
            SolverFault::OldLayout => "E5",
            SolverFault::TooSmall => "E6",
            SolverFault::TableFull => "E7",
            SolverFault::OutOfMemory => "E8",
            SolverFault::Closed => "E9",
            SolverFault::Game(fault) => fault.code(),
            SolverFault::NoGame => "S1",
            SolverFault::GameAlready => "S2",
            SolverFault::KeeperChooses(_) => "S3",
            SolverFault::TooWide => "S4",
            SolverFault::TooManyPositions => "S5",
            SolverFault::Inconsistent => "S6",
            SolverFault::NoSuchPosition => "S7",
            SolverFault::NotSettled => "S8",
            SolverFault::ListingsUsedUp => "S9",
            SolverFault::BadPosition => "S10",
        }
    }

    /// The exit status: 3 for a damaged table, 4 where the device failed, 5 for want of memory, else 1.
    pub fn status(self) -> u8
        ensures { result ≡ status_of self }
    {
        match self {
            SolverFault::Damaged => 3,
            SolverFault::Disk => 4,
            SolverFault::OutOfMemory | SolverFault::Game(GameFault::OutOfMemory) => 5,
            _ => 1,
        }
    }
}

impl From<FileFault> for SolverFault {
    ghost use Rattle.std.specs.Prelude.{◌≡◌};
    ghost use Rattle.solver.specs.Faults.{file_fault};

    ghost from_gives = { λ fault r. r ≡ file_fault fault };

    fn from(fault: FileFault) -> Self {
        match fault {
            FileFault::Disk => SolverFault::Disk,
            FileFault::NotATable => SolverFault::NotATable,
            FileFault::AlreadyATable => SolverFault::AlreadyATable,
            FileFault::Damaged => SolverFault::Damaged,
            FileFault::OldLayout => SolverFault::OldLayout,
            FileFault::TooSmall => SolverFault::TooSmall,
            FileFault::TableFull => SolverFault::TableFull,
            FileFault::OutOfMemory => SolverFault::OutOfMemory,
            FileFault::Closed => SolverFault::Closed,
            FileFault::Inconsistent => SolverFault::Inconsistent,
        }
    }
}

impl From<StepFault> for SolverFault {
    ghost use Rattle.std.specs.Prelude.{◌≡◌};
    ghost use Rattle.solver.specs.Faults.{step_fault};

    ghost from_gives = { λ fault r. r ≡ step_fault fault };

    fn from(fault: StepFault) -> Self {
        match fault {
            StepFault::TooWide => SolverFault::TooWide,
            StepFault::KeeperChooses(number) => SolverFault::KeeperChooses(number),
            StepFault::TooManyPositions => SolverFault::TooManyPositions,
            StepFault::Inconsistent => SolverFault::Inconsistent,
            StepFault::OutOfMemory => SolverFault::OutOfMemory,
            StepFault::Table(fault) => fault.into(),
        }
    }
}

impl From<LineFault> for SolverFault {
    ghost use Rattle.std.specs.Prelude.{◌≡◌};
    ghost use Rattle.solver.specs.Faults.{line_fault};

    ghost from_gives = { λ fault r. r ≡ line_fault fault };

    fn from(fault: LineFault) -> Self {
        match fault {
            LineFault::NotSettled => SolverFault::NotSettled,
            LineFault::Inconsistent => SolverFault::Inconsistent,
            LineFault::TooWide => SolverFault::TooWide,
            LineFault::OutOfMemory => SolverFault::OutOfMemory,
            LineFault::Table(fault) => fault.into(),
        }
    }
}

impl From<KnownMovesFault> for SolverFault {
    ghost use Rattle.std.specs.Prelude.{◌≡◌};
    ghost use Rattle.solver.specs.Faults.{moves_fault};

    ghost from_gives = { λ fault r. r ≡ moves_fault fault };

    fn from(fault: KnownMovesFault) -> Self {
        match fault {
            KnownMovesFault::Inconsistent => SolverFault::Inconsistent,
            KnownMovesFault::TooWide => SolverFault::TooWide,
            KnownMovesFault::OutOfMemory => SolverFault::OutOfMemory,
            KnownMovesFault::Table(fault) => fault.into(),
        }
    }
}

impl From<AuditFault> for SolverFault {
    ghost use Rattle.std.specs.Prelude.{◌≡◌};
    ghost use Rattle.solver.specs.Faults.{audit_fault};

    ghost from_gives = { λ fault r. r ≡ audit_fault fault };

    fn from(fault: AuditFault) -> Self {
        match fault {
            AuditFault::TooWide => SolverFault::TooWide,
            AuditFault::OutOfMemory => SolverFault::OutOfMemory,
            AuditFault::Table(fault) => fault.into(),
        }
    }
}

impl From<GameFault> for SolverFault {
    ghost use Rattle.std.specs.Prelude.{◌≡◌};
    ghost use Rattle.solver.specs.declared.fault.SolverFault.TheVariants.{Game};

    ghost from_gives = { λ fault r. r ≡ Game fault };

    fn from(fault: GameFault) -> Self {
        SolverFault::Game(fault)
    }
}

impl From<TableFault> for SolverFault {
    ghost use Rattle.std.specs.Prelude.{◌≡◌};
    ghost use Rattle.solver.specs.Faults.{table_fault};

    ghost from_gives = { λ fault r. r ≡ table_fault fault };

    fn from(fault: TableFault) -> Self {
        match fault {
            TableFault::Disk => SolverFault::Disk,
            TableFault::Damaged => SolverFault::Damaged,
            TableFault::TableFull => SolverFault::TableFull,
            TableFault::OutOfMemory => SolverFault::OutOfMemory,
            TableFault::Closed => SolverFault::Closed,
        }
    }
}

impl From<AllocError> for SolverFault {
    ghost use Rattle.std.specs.Prelude.{◌≡◌};
    ghost use Rattle.solver.specs.declared.fault.SolverFault.TheVariants.{OutOfMemory};

    ghost from_gives = { λ _ r. r ≡ OutOfMemory };

    fn from(_: AllocError) -> Self {
        SolverFault::OutOfMemory
    }
}

impl<T: Drop> From<AllocFailed<T>> for SolverFault {
    ghost use Rattle.std.specs.Prelude.{◌≡◌};
    ghost use Rattle.solver.specs.declared.fault.SolverFault.TheVariants.{OutOfMemory};

    ghost from_gives = { λ _ r. r ≡ OutOfMemory };

    fn from(_: AllocFailed<T>) -> Self {
        SolverFault::OutOfMemory
    }
}
