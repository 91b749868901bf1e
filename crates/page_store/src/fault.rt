//! Why a call of the store is refused.
ghost use Rattle.std.specs.Prelude.{◌≡◌};
ghost use Rattle.page_store.specs.declared.fault.PageFault.TheVariants.{Disk};

use sector_disk::DiskFault;
use thiserror::Error;

/// Why a call of the store is refused.
#[derive(Clone, Copy, Debug, PartialEq, Eq, Drop, Error)]
pub enum PageFault {
    /// A read failed, and the store is as it was; or a write or sync failed, and it is closed (E1).
    #[error("the disk failed")]
    Disk,
    /// The disk holds no table (E2).
    #[error("the disk holds no table")]
    NotATable,
    /// There is no such page, or it is named twice (E4).
    #[error("the table is damaged")]
    Damaged,
    /// No page is free (E7).
    #[error("no page is free")]
    TableFull,
    /// A growth was refused (E8).
    #[error("out of memory")]
    OutOfMemory,
    /// A write or sync failed before; the disk has to be opened again (E9).
    #[error("closed since a write failed")]
    Closed,
}

impl From<DiskFault> for PageFault {
    ghost from_gives = { λ _ fault. fault ≡ Disk };

    fn from(_: DiskFault) -> Self {
        PageFault::Disk
    }
}
