//! A store of pages goes on and grows beside two holds, with trouble at each of its disk calls.

use crate::power_failures::growth::{Growth, STANDINGS, before, found_on, grown_on};
use crate::power_failures::sweep::{TELLING, Trouble, telling};
use page_store::PageFault;
use sector_disk::{FlakyDisk, FuseDisk, MemDisk};
use std::alloc::Global;

/// More disk calls than are made.
const MOST_CALLS: u64 = 256;

/// Does it with trouble at its first disk call, at the second, and so on. Prints how many calls there are. Answers whether each time what
/// is left is what the commits lead to that were answered, or one more.
pub fn growing(rt: &HostRuntime, alloc: Global) -> anyhow::Result<bool> {
    for trouble in [Trouble::Stop, Trouble::NotDone, Trouble::Done] {
        match calls_in_trouble(alloc, trouble)? {
            Some(calls) => println!(rt; "Grow, beside two holds, {trouble}: {calls} calls")?,
            None => {
                println!(rt; "Grow, beside two holds, {trouble}: WRONG")?;
                return Ok(false);
            }
        }
    }
    Ok(true)
}

/// Answers how many calls there were until it was done without trouble; none where something else was left than may be.
fn calls_in_trouble(alloc: Global, trouble: Trouble) -> anyhow::Result<Option<u64>> {
    let mut asked = Vec::new(alloc);
    let mut so_far = 0;
    for call in 0..MOST_CALLS {
        let (left, growth) = done_in_trouble(alloc, trouble, call)?;
        let images = telling(alloc, &left)?;
        let is_new = growth.done != so_far || images.as_slice() != asked.as_slice();
        if is_new && !is_left(alloc, &left, growth)? {
            return Ok(None);
        }
        match growth.refused {
            None if growth.is_held => return Ok(Some(call)),
            // a read of what a hold keeps failed, which ends nothing
            None | Some(PageFault::Disk) => {}
            Some(_) => return Ok(None),
        }
        asked = images;
        so_far = growth.done;
    }
    Ok(None)
}

/// Does it with trouble at this disk call. Answers the disk that is left, and how far it came.
fn done_in_trouble(
    alloc: Global,
    trouble: Trouble,
    call: u64,
) -> anyhow::Result<(MemDisk, Growth)> {
    let disk = before(alloc)?;
    if trouble == Trouble::Stop {
        let (fuse, growth) = grown_on(alloc, FuseDisk::new(disk, call));
        return Ok((fuse.into_inner(), growth));
    }
    let flaky = FlakyDisk::new(disk, call, trouble == Trouble::Done);
    let (flaky, growth) = grown_on(alloc, flaky);
    Ok((flaky.into_inner(), growth))
}

/// Whether each stop now leaves what the commits lead to that were answered, or what one more leads to. Of the images that a stop may
/// leave, 256 lose the end of a disk that was made longer and three tell how it is kept.
fn is_left(alloc: Global, left: &MemDisk, growth: Growth) -> anyhow::Result<bool> {
    let end = if growth.refused.is_some() { 2 } else { 1 };
    let allowed = STANDINGS.iter().skip(growth.done).take(end);
    let allowed: Vec<_> = allowed.copied().collect(alloc)?;
    Ok(first_are_left(alloc, left, &allowed)? && telling_are_left(alloc, left, &allowed)?)
}

/// Whether one of these is found on each of the first 256 images.
fn first_are_left(alloc: Global, left: &MemDisk, allowed: &[(u8, u8)]) -> anyhow::Result<bool> {
    for pick in 0..256 {
        if !is_found(alloc, left, pick, allowed)? {
            return Ok(false);
        }
    }
    Ok(true)
}

/// Whether one of these is found on each of the images that tell all others.
fn telling_are_left(alloc: Global, left: &MemDisk, allowed: &[(u8, u8)]) -> anyhow::Result<bool> {
    for pick in TELLING {
        if !is_found(alloc, left, pick, allowed)? {
            return Ok(false);
        }
    }
    Ok(true)
}

/// Whether one of these is found on the image with this number.
fn is_found(
    alloc: Global,
    left: &MemDisk,
    pick: u64,
    allowed: &[(u8, u8)],
) -> anyhow::Result<bool> {
    match found_on(alloc, left.after_stop(alloc, pick)?) {
        Some(found) => Ok(allowed.contains(&found)),
        None => Ok(false),
    }
}
