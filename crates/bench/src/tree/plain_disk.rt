//! A disk in memory for measuring: it keeps no history. Nothing is promised of what it shows; by its statement it is no
//! honest disk.
ghost use Rattle.sector_disk.specs.Disk.{Grew, with_failed};
ghost use Rattle.sector_disk.specs.Unknown.{unknown_disk};
ghost use Rattle.std.specs.Prelude.{◌≡◌, ◌≤◌, length, OnOk};

use sector_disk::{DiskFault, SectorDisk};
use std::alloc::{AllocError, Global};

/// A disk in memory.
#[derive(Drop)]
pub struct PlainDisk {
    contents: Vec<[u8; 512]>,
    failures: u64,
}

impl PlainDisk {
    /// A disk of this many sectors of zeros.
    pub fn new(alloc: Global, sectors: u64) -> Result<Self, AllocError> {
        let mut contents = Vec::new(alloc);
        for _ in 0..sectors {
            contents.push([0; 512])?;
        }
        Ok(PlainDisk {
            contents,
            failures: 0,
        })
    }
}

/// Puts sectors of zeros after those that are there, up to this many, or as many as there is memory for.
fn add_zeros(contents: &mut Vec<[u8; 512]>, sectors: u64) -> Result<(), AllocError>
    requires { length contents.old.items ≤ sectors }
    ensures longer { OnOk result (length contents.new.items ≡ sectors) }
    ensures no_shorter { length contents.old.items ≤ length contents.new.items }
    ensures no_longer { length contents.new.items ≤ sectors }
{
    let more = sectors - contents.len() as u64;
    for _ in 0..more {
        contents.push([0; 512])?;
    }
    Ok(())
}

/// A failure counts.
fn failed(failures: &mut u64) -> DiskFault
    ensures later { failures.old ≤ failures.new }
    ensures grew { Grew failures.old failures.new }
{
    *failures = failures.saturating_add(1);
    DiskFault
}

impl SectorDisk for PlainDisk {
    ghost disk = { λ d. with_failed (unknown_disk (length d.contents.items)) d.failures };

    ghost failures = { λ d. d.failures };

    fn sectors(&self) -> u64 {
        self.contents.len() as u64
    }

    fn read(&mut self, at: u64, into: &mut [u8; 512]) -> Result<(), DiskFault> {
        *into = self.contents[at as usize];
        Ok(())
    }

    fn write(&mut self, at: u64, from: &[u8; 512]) -> Result<(), DiskFault> {
        self.contents[at as usize] = *from;
        Ok(())
    }

    fn sync(&mut self) -> Result<(), DiskFault> {
        Ok(())
    }

    fn extend(&mut self, sectors: u64) -> Result<(), DiskFault> {
        if add_zeros(&mut self.contents, sectors).is_err() {
            return Err(failed(&mut self.failures));
        }
        Ok(())
    }
}
