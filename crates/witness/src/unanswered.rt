//! What comes back where no value is answered.

use sector_disk::MemDisk;
use solver::{Refused, SolverFault};

/// No value is answered: the fault, and the disk as it is then, where there is one.
#[derive(Drop)]
pub struct Unanswered {
    pub fault: SolverFault,
    pub disk: Option<MemDisk>,
}

impl Unanswered {
    ghost use Rattle.std.specs.Prelude.{◌≡◌, None, Some};

    /// Memory ran out before there was a disk, or for that which is found after a stop.
    pub fn without_disk() -> Unanswered
        ensures fault { result.fault ≡ SolverFault.OutOfMemory }
        ensures disk { result.disk ≡ None }
    {
        Unanswered {
            fault: SolverFault::OutOfMemory,
            disk: None,
        }
    }

    /// This disk comes back with a refusal.
    pub fn on_disk(refused: Refused<MemDisk>) -> Unanswered
        ensures fault { result.fault ≡ refused.fault }
        ensures disk { result.disk ≡ Some refused.disk }
    {
        let Refused { disk, fault } = refused;
        Unanswered {
            fault,
            disk: Some(disk),
        }
    }
}
