//! Why a map is not walked.
ghost use Rattle.std.specs.Prelude.{◌≡◌};
ghost use Rattle.btree.specs.declared.walk.fault.WalkFault.TheVariants.{Store};

use page_store::PageFault;
use thiserror::Error;

/// Why a map is not walked.
#[derive(Clone, Copy, Debug, PartialEq, Eq, Drop, Error)]
pub enum WalkFault {
    /// The store refused a call, or below the root is no map: `Damaged`.
    #[error("{0}")]
    Store(PageFault),
    /// The visitor refused an entry.
    #[error("an entry was refused")]
    Refused,
}

impl From<PageFault> for WalkFault {
    ghost from_gives = { λ fault walk. walk ≡ Store fault };

    fn from(fault: PageFault) -> Self {
        WalkFault::Store(fault)
    }
}
