//! A disk over an open file. Nothing is known of its honesty.
ghost use Rattle.std.specs.Prelude.{◌≡◌, IfOk};

use crate::buffered_disk::BufferedDisk;
use crate::open_file::OpenFile;
use crate::refused::FileRefused;
use sector_disk::{DiskFault, PageEdit, SectorDisk};
use std::alloc::Global;
use std::fs::File;

/// This many pages may wait to be written.
const ROOM: usize = 256;

/// A disk over an open file that nobody else writes: its buffers, under a name of their own. No call takes memory.
#[derive(Drop)]
pub struct FileDisk {
    disk: BufferedDisk<OpenFile>,
}

impl FileDisk {
    /// Its sectors are the file's length divided by 512, rounded down, as found now. The memory for what waits is taken here.
    pub fn new(alloc: Global, file: File) -> Result<Self, FileRefused>
        ensures unfailed { IfOk result (λ f. ⟦<FileDisk as SectorDisk>⟧.failures f ≡ 0) }
    {
        Ok(FileDisk {
            disk: BufferedDisk::over(alloc, OpenFile::over(file), ROOM)?,
        })
    }
}

impl SectorDisk for FileDisk {
    ghost disk = { λ f. ⟦<BufferedDisk<OpenFile> as SectorDisk>⟧.disk f.disk };

    ghost failures = { λ f. ⟦<BufferedDisk<OpenFile> as SectorDisk>⟧.failures f.disk };

    fn sectors(&self) -> u64 {
        self.disk.sectors()
    }

    fn read(&mut self, at: u64, into: &mut [u8; 512]) -> Result<(), DiskFault> {
        self.disk.read(at, into)
    }

    fn read_page(&mut self, page: u32, into: &mut [u8; 4096]) -> Result<(), DiskFault> {
        self.disk.read_page(page, into)
    }

    fn write(&mut self, at: u64, from: &[u8; 512]) -> Result<(), DiskFault> {
        self.disk.write(at, from)
    }

    fn write_page(&mut self, page: u32, from: &[u8; 4096]) -> Result<(), DiskFault> {
        self.disk.write_page(page, from)
    }

    fn page_in_memory(&self, page: u32) -> Option<&[u8; 4096]> {
        self.disk.page_in_memory(page)
    }

    fn edit_page<E: PageEdit>(&mut self, page: u32, edit: &E) -> bool {
        self.disk.edit_page(page, edit)
    }

    fn sync(&mut self) -> Result<(), DiskFault> {
        self.disk.sync()
    }

    fn extend(&mut self, sectors: u64) -> Result<(), DiskFault> {
        self.disk.extend(sectors)
    }
}
