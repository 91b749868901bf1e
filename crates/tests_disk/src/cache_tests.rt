//! Pages are read once where there is a cache (`page_store`).

use crate::disks::table_disk;
use page_store::{PageFault, PageStore, Pages};
use sector_disk::{DiskFault, SectorDisk};
use std::alloc::Global;
use std::test::Fail;
use test_aids::expect;

/// A disk that passes each call to the disk within, and counts the reads.
#[derive(Drop)]
struct CountedDisk<D> {
    inner: D,
    reads: u64,
}

impl<D: SectorDisk> SectorDisk for CountedDisk<D> {
    ghost disk = { λ c. D.disk c.inner };

    ghost failures = { λ c. D.failures c.inner };

    fn sectors(&self) -> u64 {
        self.inner.sectors()
    }

    fn read(&mut self, at: u64, into: &mut [u8; 512]) -> Result<(), DiskFault> {
        self.reads = self.reads.saturating_add(1);
        self.inner.read(at, into)
    }

    fn write(&mut self, at: u64, from: &[u8; 512]) -> Result<(), DiskFault> {
        self.inner.write(at, from)
    }

    fn sync(&mut self) -> Result<(), DiskFault> {
        self.inner.sync()
    }

    fn extend(&mut self, sectors: u64) -> Result<(), DiskFault> {
        self.inner.extend(sectors)
    }
}

/// Marks page 1, seals the store, and reads this page this many times.
fn read_often<P: Pages>(pages: &mut P, times: u64) -> Result<(), PageFault> {
    pages.mark(1)?;
    pages.seal();
    let mut bytes = [0; 4096];
    for _ in 0..times {
        pages.read_page(1, &mut bytes)?;
    }
    Ok(())
}

/// How many reads a disk has seen as a store with a cache of this many pages was opened on it, page 1 marked and the store
/// sealed, and this page then read this many times.
fn reads_of(alloc: Global, cached: usize, times: u64) -> Result<u64, Fail> {
    let inner = table_disk(alloc, 128, &[7; 512])?;
    let disk = CountedDisk { inner, reads: 0 };
    match PageStore::open_with_cache(alloc, disk, cached.min(64)) {
        Ok(pages) => {
            let mut pages = pages;
            read_often(&mut pages, times)?;
            Ok(pages.into_disk().reads)
        }
        Err(refused) => Err(refused.fault.into()),
    }
}

#[test]
fn a_page_in_the_cache_is_read_once(rt: HostRuntime) -> Result<(), Fail> {
    for (cached, calls) in [(0, 16), (1, 8), (2, 8), (64, 8)] {
        let opening = reads_of(rt.alloc(), cached, 0)?;
        expect(
            reads_of(rt.alloc(), cached, 2)?.saturating_sub(opening),
            calls,
            cached,
        )?;
    }
    Ok(())
}
