//! A disk in memory that fails a call, under a name of its own: what is generic over it is quicker to prove.

use sector_disk::{DiskFault, FlakyDisk, MemDisk, SectorDisk};

/// A disk in memory that fails one call.
#[derive(Drop)]
pub struct NamedDisk {
    pub flaky: FlakyDisk<MemDisk>,
}

impl NamedDisk {
    /// The disk without its name.
    pub fn into_flaky(self) -> FlakyDisk<MemDisk> {
        let NamedDisk { flaky } = self;
        flaky
    }
}

impl SectorDisk for NamedDisk {
    ghost disk = { λ d. ⟦<FlakyDisk<MemDisk> as SectorDisk>⟧.disk d.flaky };

    ghost failures = { λ d. ⟦<FlakyDisk<MemDisk> as SectorDisk>⟧.failures d.flaky };

    fn sectors(&self) -> u64 {
        self.flaky.sectors()
    }

    fn read(&mut self, at: u64, into: &mut [u8; 512]) -> Result<(), DiskFault> {
        self.flaky.read(at, into)
    }

    fn write(&mut self, at: u64, from: &[u8; 512]) -> Result<(), DiskFault> {
        self.flaky.write(at, from)
    }

    fn sync(&mut self) -> Result<(), DiskFault> {
        self.flaky.sync()
    }

    fn extend(&mut self, sectors: u64) -> Result<(), DiskFault> {
        self.flaky.extend(sectors)
    }
}
