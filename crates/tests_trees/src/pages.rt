//! Pages by hand on a disk in memory, and stores over it.

use page_store::{PageFault, PageStore};
use root_pair::create;
use sector_disk::{MemDisk, SectorDisk};
use std::alloc::Global;
use std::test::Fail;

/// A page with its number: its first bytes, with zeros after them.
pub type Laid<'a> = (u32, &'a [u8]);

/// A disk of this many pages of zeros with a root, all of it synced.
pub fn empty_disk(alloc: Global, pages: u32) -> Result<MemDisk, Fail> {
    let mut disk = MemDisk::new(alloc, 8 * u64::from(pages))?;
    create(&mut disk, &[0; 512])?;
    Ok(disk)
}

/// A disk of this many pages, with these pages on it.
pub fn disk_with(alloc: Global, size: u32, pages: &[Laid<'_>]) -> Result<MemDisk, Fail> {
    let mut disk = empty_disk(alloc, size)?;
    for (page, bytes) in pages {
        lay(&mut disk, *page, bytes)?;
    }
    disk.sync()?;
    Ok(disk)
}

/// Puts these bytes on the beginning of a page, and zeros after them.
pub fn lay(disk: &mut MemDisk, page: u32, bytes: &[u8]) -> Result<(), Fail> {
    let first = 8 * u64::from(page);
    let mut rest = bytes;
    for sector in first..first + 8 {
        let (part, behind) = rest.split_at(rest.len().min(512));
        let mut written = [0; 512];
        written[..part.len()].copy_from_slice(part);
        put_sector(disk, sector, &written)?;
        rest = behind;
    }
    Ok(())
}

/// Writes a sector, which has to be there.
fn put_sector(disk: &mut MemDisk, at: u64, bytes: &[u8; 512]) -> Result<(), Fail> {
    if at >= disk.sectors() {
        return Err("there is no such page".into());
    }
    disk.write(at, bytes)?;
    Ok(())
}

/// Adds a number to one byte of a page, round from 255 to 0.
pub fn change(disk: &mut MemDisk, page: u32, at: u32, by: u8) -> Result<(), Fail> {
    let sector = 8 * u64::from(page) + u64::from(at / 512);
    if sector >= disk.sectors() {
        return Err("there is no such page".into());
    }
    let mut bytes = [0; 512];
    disk.read(sector, &mut bytes)?;
    let place = (at % 512) as usize;
    bytes[place] = bytes[place].wrapping_add(by);
    disk.write(sector, &bytes)?;
    Ok(())
}

/// The store on this disk, no page marked.
pub fn opened(alloc: Global, disk: MemDisk) -> Result<PageStore<MemDisk>, PageFault> {
    PageStore::open(alloc, disk).map_err(|refused| refused.fault)
}
