//! A disk in memory whose fuse burns, under a name of its own.

use sector_disk::{DiskFault, FuseDisk, MemDisk, SectorDisk};

/// A disk in memory that fails each call after so many.
#[derive(Drop)]
pub struct StoppingDisk {
    pub fuse: FuseDisk<MemDisk>,
}

impl SectorDisk for StoppingDisk {
    ghost disk = { λ d. ⟦<FuseDisk<MemDisk> as SectorDisk>⟧.disk d.fuse };

    ghost failures = { λ d. ⟦<FuseDisk<MemDisk> as SectorDisk>⟧.failures d.fuse };

    fn sectors(&self) -> u64 {
        self.fuse.sectors()
    }

    fn read(&mut self, at: u64, into: &mut [u8; 512]) -> Result<(), DiskFault> {
        self.fuse.read(at, into)
    }

    fn write(&mut self, at: u64, from: &[u8; 512]) -> Result<(), DiskFault> {
        self.fuse.write(at, from)
    }

    fn sync(&mut self) -> Result<(), DiskFault> {
        self.fuse.sync()
    }

    fn extend(&mut self, sectors: u64) -> Result<(), DiskFault> {
        self.fuse.extend(sectors)
    }
}
