//! Why a table's file is not made, opened or written.

use page_store::PageFault;
use root_pair::RootFault;
use std::alloc::AllocError;
use table::TableFault;
use thiserror::Error;

/// Why a table's file is not made, opened or written.
#[derive(Clone, Copy, PartialEq, Eq, Debug, Drop, Error)]
pub enum FileFault {
    /// The device failed (E1). After a write or a sync the file is closed.
    #[error("the disk failed")]
    Disk,
    /// There are fewer than four sectors, or they do not begin as each table does (E2).
    #[error("no table is there")]
    NotATable,
    /// A table is there already (E3).
    #[error("a table is there already")]
    AlreadyATable,
    /// What is there spells no table whose parts fit together (E4).
    #[error("the table is damaged")]
    Damaged,
    /// The table is in a file of an earlier layout, which is not opened (E5).
    #[error("the table has an earlier layout")]
    OldLayout,
    /// A table would have fewer than 16 pages; or a growth is to no more pages than there are, or to more than 1,048,576 (E6).
    #[error("the number of pages is too small, or over 1,048,576")]
    TooSmall,
    /// A page is needed, and none is free (E7).
    #[error("no page is free")]
    TableFull,
    /// A growth was refused (E8).
    #[error("out of memory")]
    OutOfMemory,
    /// A write or a sync has failed before; the file has to be opened again (E9).
    #[error("closed since a write failed")]
    Closed,
    /// The parts of the table that should be stored do not fit together (S6).
    #[error("the table is inconsistent")]
    Inconsistent,
}

/// A disk that comes back with a refusal.
#[derive(Drop)]
pub struct Refused<D> {
    pub disk: D,
    pub fault: FileFault,
}

impl From<TableFault> for FileFault {
    ghost use Rattle.std.specs.Prelude.{◌≡◌};
    ghost use Rattle.game_file.specs.Faults.{of_table};

    ghost from_gives = { λ fault r. r ≡ of_table fault };

    fn from(fault: TableFault) -> Self {
        match fault {
            TableFault::Disk => FileFault::Disk,
            TableFault::Damaged => FileFault::Damaged,
            TableFault::TableFull => FileFault::TableFull,
            TableFault::OutOfMemory => FileFault::OutOfMemory,
            TableFault::Closed => FileFault::Closed,
        }
    }
}

impl From<PageFault> for FileFault {
    ghost use Rattle.std.specs.Prelude.{◌≡◌};
    ghost use Rattle.game_file.specs.Faults.{of_pages};

    ghost from_gives = { λ fault r. r ≡ of_pages fault };

    fn from(fault: PageFault) -> Self {
        match fault {
            PageFault::Disk => FileFault::Disk,
            PageFault::NotATable => FileFault::NotATable,
            PageFault::Damaged => FileFault::Damaged,
            PageFault::TableFull => FileFault::TableFull,
            PageFault::OutOfMemory => FileFault::OutOfMemory,
            PageFault::Closed => FileFault::Closed,
        }
    }
}

impl From<RootFault> for FileFault {
    ghost use Rattle.std.specs.Prelude.{◌≡◌};
    ghost use Rattle.game_file.specs.Faults.{of_root};

    ghost from_gives = { λ fault r. r ≡ of_root fault };

    fn from(fault: RootFault) -> Self {
        match fault {
            RootFault::Read | RootFault::Write => FileFault::Disk,
            RootFault::NotATable => FileFault::NotATable,
            RootFault::AlreadyATable => FileFault::AlreadyATable,
            RootFault::TooSmall => FileFault::TooSmall,
        }
    }
}

impl From<AllocError> for FileFault {
    ghost use Rattle.std.specs.Prelude.{◌≡◌};
    ghost use Rattle.game_file.specs.declared.fault.FileFault.TheVariants.{OutOfMemory};

    ghost from_gives = { λ _ r. r ≡ OutOfMemory };

    fn from(_: AllocError) -> Self {
        FileFault::OutOfMemory
    }
}
