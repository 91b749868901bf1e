//! The buffers of a file as a disk: over an honest file it is an honest one.
ghost use Rattle.std.specs.Prelude.{◌≡◌, ◌*◌, ◌^◌, ◌<◌, ◌≤◌, false, is_ok, IfOk, IfErr, IsTrue};
ghost use Rattle.sector_disk.specs.Disk.{HasCause, IsCounted};
ghost use Rattle.file_disk.specs.Buffered.{buffered_disk};

use crate::buffered_file::BufferedFile;
use crate::byte_file::ByteFile;
use crate::refused::FileRefused;
use sector_disk::{DiskFault, PageEdit, SectorDisk};
use std::alloc::Global;

/// A disk over a file that nobody else writes, through the buffers of `BufferedFile`, with a count of what failed. No call takes memory.
#[derive(Drop)]
pub struct BufferedDisk<F: ByteFile> {
    buffered: BufferedFile<F>,
    failures: u64,
    failed_writes: u64,
}

impl<F: ByteFile + Drop> BufferedDisk<F> {
    /// Its sectors are the file's length divided by 512, rounded down, as found now. The memory for what waits, this many pages, is taken
    /// here.
    pub fn over(alloc: Global, file: F, room: usize) -> Result<Self, FileRefused>
        requires some { 0 < room }
        requires fits { 4096 * room < 2 ^ 63 }
        ensures unfailed { IfOk result (λ f. f.failures ≡ 0) }
        ensures none_failed { IfOk result (λ f. f.failed_writes ≡ 0) }
        ensures file { IfOk result (λ f. f.buffered.file ≡ file) }
        ensures none { IfOk result (λ f. f.buffered.waiting.count ≡ 0) }
        ensures cause { IsTrue (F.honest file) → IfErr result (λ fault. fault ≡ FileRefused.NoLength → F.tells_length file ≡ false) }
    {
        Ok(BufferedDisk {
            buffered: BufferedFile::new(alloc, file, room)?,
            failures: 0,
            failed_writes: 0,
        })
    }
}

/// What a read came to; a failure counts.
fn told(failures: &mut u64, done: bool) -> Result<(), DiskFault>
    ensures cause { HasCause failures.old failures.new result }
    ensures done { is_ok result ≡ done }
{
    if done {
        return Ok(());
    }
    *failures = failures.saturating_add(1);
    Err(DiskFault)
}

/// What a write, a sync or an extension came to; a failure counts, and as one of these.
fn told_write(failures: &mut u64, failed_writes: &mut u64, done: bool) -> Result<(), DiskFault>
    ensures cause { HasCause failures.old failures.new result }
    ensures later { failed_writes.old ≤ failed_writes.new }
    ensures counted { IsCounted failed_writes.old failed_writes.new result }
    ensures done { is_ok result ≡ done }
{
    if done {
        return Ok(());
    }
    *failures = failures.saturating_add(1);
    *failed_writes = failed_writes.saturating_add(1);
    Err(DiskFault)
}

impl<F: ByteFile + Drop> SectorDisk for BufferedDisk<F> {
    ghost disk = { λ f. buffered_disk (F.honest f.buffered.file) (record {
      waiting = f.buffered.waiting;
      happened = F.events f.buffered.file;
      content = F.content f.buffered.file;
      sectors = f.buffered.sectors;
    }) f.buffered.ends f.failed_writes };

    ghost failures = { λ f. f.failures };

    fn sectors(&self) -> u64 {
        self.buffered.sectors
    }

    fn read(&mut self, at: u64, into: &mut [u8; 512]) -> Result<(), DiskFault> {
        let done = self.buffered.read(at, into);
        told(&mut self.failures, done)
    }

    fn read_page(&mut self, page: u32, into: &mut [u8; 4096]) -> Result<(), DiskFault> {
        let done = self.buffered.read_page(u64::from(page), into);
        told(&mut self.failures, done)
    }

    fn write(&mut self, at: u64, from: &[u8; 512]) -> Result<(), DiskFault> {
        let done = self.buffered.write(at, from);
        told_write(&mut self.failures, &mut self.failed_writes, done)
    }

    fn write_page(&mut self, page: u32, from: &[u8; 4096]) -> Result<(), DiskFault> {
        let done = self.buffered.write_page(u64::from(page), from);
        told_write(&mut self.failures, &mut self.failed_writes, done)
    }

    fn page_in_memory(&self, page: u32) -> Option<&[u8; 4096]> {
        self.buffered.page_in_memory(u64::from(page))
    }

    fn edit_page<E: PageEdit>(&mut self, page: u32, edit: &E) -> bool {
        let page = u64::from(page);
        let Some((place, span)) = self.buffered.waiting.find_edit(page, edit) else {
            return false;
        };
        self.buffered.edit_at(page, place, edit, span);
        true
    }

    fn sync(&mut self) -> Result<(), DiskFault> {
        let done = self.buffered.sync();
        told_write(&mut self.failures, &mut self.failed_writes, done)
    }

    fn extend(&mut self, sectors: u64) -> Result<(), DiskFault> {
        let done = self.buffered.extend(sectors);
        told_write(&mut self.failures, &mut self.failed_writes, done)
    }
}
