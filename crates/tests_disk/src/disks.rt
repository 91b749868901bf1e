//! What the tests share: disks with tables on them, stores over these, and what is done to their pages. Each function here
//! tests for itself what it needs and promises nothing, so that a test which calls many of them is proved fast.

use file_disk::FileDisk;
use page_store::{PageFault, PageStore, Pages};
use root_pair::create;
use sector_disk::{MemDisk, SectorDisk};
use std::alloc::Global;
use std::fmt::Debug;
use std::fs::{File, OpenOptions};
use std::test::Fail;

/// A disk of this many sectors with a table on it that has this root.
pub fn table_disk(alloc: Global, sectors: u64, root: &[u8; 512]) -> Result<MemDisk, Fail> {
    let mut disk = MemDisk::new(alloc, sectors)?;
    create(&mut disk, root)?;
    Ok(disk)
}

/// The store on this disk, no page marked.
pub fn opened<D: SectorDisk + Drop>(alloc: Global, disk: D) -> Result<PageStore<D>, PageFault> {
    match PageStore::open(alloc, disk) {
        Ok(pages) => Ok(pages),
        Err(refused) => Err(refused.fault),
    }
}

/// The store on this disk, all its pages free.
pub fn sealed<D: SectorDisk + Drop>(alloc: Global, disk: D) -> Result<PageStore<D>, PageFault> {
    let mut pages = opened(alloc, disk)?;
    pages.seal();
    Ok(pages)
}

/// Commits a root with this byte all over.
pub fn commit<P: Pages>(pages: &mut P, byte: u8) -> Result<(), PageFault> {
    pages.commit(&[byte; 512])
}

/// A new page with this byte all over.
pub fn write_new<P: Pages>(pages: &mut P, byte: u8) -> Result<u32, PageFault> {
    let page = pages.new_page()?;
    pages.write_page(page, &[byte; 4096])?;
    Ok(page)
}

/// The bytes of a page.
pub fn bytes_of<P: Pages>(pages: &mut P, page: u32) -> Result<[u8; 4096], PageFault> {
    let mut bytes = [0; 4096];
    pages.read_page(page, &mut bytes)?;
    Ok(bytes)
}

/// The byte that is all over the page; none where its bytes differ.
pub fn byte_of<P: Pages>(pages: &mut P, page: u32) -> Result<Option<u8>, PageFault> {
    Ok(all_over(&bytes_of(pages, page)?))
}

/// The byte that all of these are; none where they differ.
pub fn all_over(bytes: &[u8]) -> Option<u8> {
    let first = *bytes.first()?;
    bytes.iter().all(|byte| *byte == first).then_some(first)
}

/// Releases a page that is there.
pub fn let_go<P: Pages>(pages: &mut P, page: u32) -> Result<(), PageFault> {
    if page == 0 || page >= pages.capacity() {
        return Err(PageFault::Damaged);
    }
    pages.release(page);
    Ok(())
}

/// The file as a disk, open for reading and writing.
pub fn disk_over(rt: &HostRuntime, path: &str) -> Result<FileDisk, Fail> {
    Ok(FileDisk::new(rt.alloc(), writable(rt, path)?)?)
}

/// The file, open for reading and writing.
pub fn writable(rt: &HostRuntime, path: &str) -> std::io::Result<File> {
    OpenOptions::new().read(true).write(true).open(rt, path)
}
