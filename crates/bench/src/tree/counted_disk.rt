//! A disk that counts how many sectors are written.

use sector_disk::{DiskFault, SectorDisk};

/// A disk that passes each call to the disk within, and counts the writes.
#[derive(Drop)]
pub struct CountedDisk<D> {
    inner: D,
    written: u64,
}

impl<D> CountedDisk<D> {
    /// No sector is written yet.
    pub fn new(inner: D) -> Self {
        CountedDisk { inner, written: 0 }
    }

    /// How many sectors were written.
    pub fn written(&self) -> u64 {
        self.written
    }
}

impl<D: SectorDisk> SectorDisk for CountedDisk<D> {
    ghost disk = { λ c. D.disk c.inner };

    ghost failures = { λ c. D.failures c.inner };

    fn sectors(&self) -> u64 {
        self.inner.sectors()
    }

    fn read(&mut self, at: u64, into: &mut [u8; 512]) -> Result<(), DiskFault> {
        self.inner.read(at, into)
    }

    fn write(&mut self, at: u64, from: &[u8; 512]) -> Result<(), DiskFault> {
        self.written = self.written.saturating_add(1);
        self.inner.write(at, from)
    }

    fn sync(&mut self) -> Result<(), DiskFault> {
        self.inner.sync()
    }

    fn extend(&mut self, sectors: u64) -> Result<(), DiskFault> {
        self.inner.extend(sectors)
    }
}
