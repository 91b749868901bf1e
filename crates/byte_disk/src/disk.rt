//! A disk in memory whose sectors are written in place. Its past is a ghost: what it showed earlier, and what a stop may
//! have left then, contracts can say, and no run keeps it.
ghost use Rattle.std.specs.Prelude.{◌≡◌, ◌++◌, [], length, replicate, IfOk, OnOk, OnErr, IsTrue};
ghost use Rattle.std.specs.List.{flat_map};
ghost use Rattle.sector_disk.specs.Disk.{AllSynced, HasCause, IsCounted};
ghost use Rattle.byte_disk.specs.Bytes.{sectors_of};

use crate::past::{Past, note_extension, note_sync, note_write};
use sector_disk::{DiskFault, SectorDisk};
use std::alloc::{AllocError, Global};
use std::snapshot::Snapshot;

/// A disk in memory, which takes as many bytes as it has. Only an extension can fail, where there is no memory for it;
/// that is counted.
#[derive(Drop)]
pub struct ByteDisk {
    contents: Vec<[u8; 512]>,
    past: Snapshot<Past>,
    failures: u64,
}

impl ByteDisk {
    ghost use Rattle.byte_disk.specs.InMemory.{disk_in};

    /// A disk with the whole sectors that these bytes make, all of it synced.
    pub fn from_bytes(alloc: Global, bytes: &[u8]) -> Result<Self, AllocError>
        ensures contents { IfOk result (λ d. (disk_in d).now.contents ≡ sectors_of bytes.now) }
        ensures synced { IfOk result (λ d. AllSynced (disk_in d).now) }
        ensures honest { IfOk result (λ d. IsTrue (disk_in d).honest) }
        ensures unfailed { IfOk result (λ d. d.failures ≡ 0) }
    {
        let (sectors, _) = bytes.as_chunks::<512>();
        let mut contents = Vec::new(alloc);
        contents.reserve(sectors.len())?;
        contents.extend_from_slice(sectors)?;
        Ok(ByteDisk {
            contents,
            past: Snapshot::of(&Past::New),
            failures: 0,
        })
    }

    /// A disk of no sectors, which takes no memory.
    pub fn empty(alloc: Global) -> Self
        ensures contents { (disk_in result).now.contents ≡ [] }
        ensures synced { AllSynced (disk_in result).now }
        ensures unfailed { result.failures ≡ 0 }
    {
        ByteDisk {
            contents: Vec::new(alloc),
            past: Snapshot::of(&Past::New),
            failures: 0,
        }
    }

    /// Its bytes as they are now, sector by sector.
    pub fn bytes(&self) -> &[u8]
        ensures { result.now ≡ flat_map (λ sector. sector) (disk_in self.now).now.contents }
    {
        self.contents.as_flattened()
    }
}

/// Puts this many sectors of zeros after those that are there, or leaves them as they are.
fn add_zeros(contents: &mut Vec<[u8; 512]>, more: u64) -> Result<(), AllocError>
    ensures added { OnOk result (contents.new.items ≡ contents.old.items ++ replicate more (replicate 512 0)) }
    ensures refused { OnErr result (contents.new.items ≡ contents.old.items) }
{
    let before = contents.len();
    contents.reserve(more as usize)?;
    for _ in 0..more {
        if contents.push([0; 512]).is_err() {
            contents.truncate(before);
            return Err(AllocError);
        }
    }
    Ok(())
}

/// Makes it longer by this many sectors, or counts a failure and leaves it as it is.
fn lengthen(contents: &mut Vec<[u8; 512]>, failures: &mut u64, more: u64) -> Result<(), DiskFault>
    ensures longer { OnOk result (contents.new.items ≡ contents.old.items ++ replicate more (replicate 512 0)) }
    ensures same { OnErr result (contents.new.items ≡ contents.old.items) }
    ensures counted { IsCounted failures.old failures.new result }
    ensures cause { HasCause failures.old failures.new result }
{
    if add_zeros(contents, more).is_err() {
        *failures = failures.saturating_add(1);
        return Err(DiskFault);
    }
    Ok(())
}

impl SectorDisk for ByteDisk {
    ghost use Rattle.byte_disk.specs.InMemory.{disk_in};

    ghost disk = { disk_in };

    ghost failures = { λ d. d.failures };

    fn sectors(&self) -> u64 {
        self.contents.len() as u64
    }

    fn read(&mut self, at: u64, into: &mut [u8; 512]) -> Result<(), DiskFault> {
        *into = self.contents[at as usize];
        Ok(())
    }

    fn write(&mut self, at: u64, from: &[u8; 512]) -> Result<(), DiskFault> {
        note_write(&mut self.past, at, &self.contents[at as usize]);
        self.contents[at as usize] = *from;
        Ok(())
    }

    fn sync(&mut self) -> Result<(), DiskFault> {
        note_sync(&mut self.past);
        Ok(())
    }

    fn extend(&mut self, sectors: u64) -> Result<(), DiskFault> {
        let before = self.contents.len() as u64;
        lengthen(&mut self.contents, &mut self.failures, sectors - before)?;
        note_extension(&mut self.past, before);
        Ok(())
    }
}
