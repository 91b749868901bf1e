//! Trees alone: puts keys into a map that is a tree of pages, and reads them back.

mod counted_disk;
mod keys;
mod measure;
mod plain_disk;

use crate::files::disk_over;
use crate::tree::counted_disk::CountedDisk;
use crate::tree::measure::measure;
use crate::tree::plain_disk::PlainDisk;
use page_store::{PageStore, Pages};
use root_pair::create;
use sector_disk::SectorDisk;

/// How it is called.
pub(crate) const USAGE: &str = "usage: bench tree KEYS [FILE]";

/// The most keys: this many pages as they take are there to be had.
const MOST_KEYS: u64 = 10_000_000;

/// Measures as the words say, on a disk in memory or on a file that has its size already. Answers whether each key was
/// found with its value.
pub(crate) fn run(rt: &HostRuntime, words: &[String]) -> anyhow::Result<bool> {
    match words {
        [count] => {
            let keys = count.parse::<u64>().unwrap_or(0).min(MOST_KEYS);
            measure_on(rt, PlainDisk::new(rt.alloc(), sectors_for(keys))?, keys)
        }
        [count, path] => {
            let keys = count.parse::<u64>().unwrap_or(0).min(MOST_KEYS);
            measure_on(rt, disk_over(rt, path)?, keys)
        }
        _ => {
            rt.eprintln(USAGE)?;
            Ok(false)
        }
    }
}

/// As many sectors as this many keys need at least.
fn sectors_for(keys: u64) -> u64 {
    8 * (keys.min(MOST_KEYS) / 100 + 2_000)
}

/// Makes an empty table on the disk and measures there. What is found goes to standard output, and how long it took to
/// standard error.
fn measure_on<D: SectorDisk + Drop>(rt: &HostRuntime, disk: D, keys: u64) -> anyhow::Result<bool> {
    let mut disk = CountedDisk::new(disk);
    create(&mut disk, &[0; 512])?;
    let mut store = match PageStore::open(rt.alloc(), disk) {
        Ok(store) => store,
        Err(refused) => return Err(refused.fault.into()),
    };
    store.seal();
    let measured = measure(rt, &mut store, keys)?;
    let written = store.into_disk().written();
    eprintln!(rt; "{}", measured.times)?;
    println!(rt; "{} written {written}", measured.counts)?;
    Ok(measured.counts.found == keys && measured.counts.ascending == keys)
}
