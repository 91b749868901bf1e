//! What holds of every disk: each function's contract is a law, which proofs cite by a call.
ghost use Rattle.sector_disk.specs.Disk.{MayLeave, Image};

use crate::SectorDisk;

/// The disk as it reads is one of the images that a stop now may leave.
pub fn reads_are_an_image<D: SectorDisk>()
    ensures { (disk : D) → MayLeave (D.disk disk).now (D.disk disk).now.contents }
{}

/// What a stop at the last moment leaves a stop now may leave.
pub fn present_is_now<D: SectorDisk>()
    ensures { (disk : D) (image : Image) → MayLeave ((D.disk disk).was (D.disk disk).clock) image
        → MayLeave (D.disk disk).now image }
{}
