//! Each deed again and again, with another disk call at which the power stops or the device fails.

use crate::power_failures::deeds::{DEEDS, Deed, Given, Progress, before, done_on};
use crate::power_failures::standing::{first_stand, is_right_on, telling_stand};
use recover::TableFile;
use sector_disk::{FlakyDisk, FuseDisk, MemDisk, SectorDisk};
use solver::SolverFault;
use std::alloc::Global;
use std::fmt::{self, Display, Formatter, Write};

/// More disk calls than any deed makes.
const MOST_CALLS: u64 = 1_024;

/// What happens at a disk call.
#[derive(Clone, Copy, PartialEq, Eq, Debug)]
pub enum Trouble {
    /// The power stops before it.
    Stop,
    /// It fails, and is not carried out.
    NotDone,
    /// It fails, and was carried out.
    Done,
}

impl Display for Trouble {
    fn fmt<W: Write>(&self, f: &mut Formatter<W>) -> fmt::Result {
        f.write_str(match self {
            Trouble::Stop => "stopped before each call",
            Trouble::NotDone => "each call failed",
            Trouble::Done => "each call failed and was carried out",
        })
    }
}

/// Does each deed with trouble at each of its disk calls, with no page in memory and with 64. Prints how many calls there are. Answers
/// whether each time what is left is what was there before a command, or what the command leads to.
pub fn sweep(rt: &HostRuntime, alloc: Global, text: &[u8]) -> anyhow::Result<bool> {
    for pages in [0, 64] {
        let given = Given { alloc, text, pages };
        for deed in DEEDS {
            for trouble in [Trouble::Stop, Trouble::NotDone, Trouble::Done] {
                match calls_in_trouble(given, deed, trouble)? {
                    Some(calls) => println!(rt;
                        "{deed:?}, {pages} pages in memory, {trouble}: {calls} calls"
                    )?,
                    None => {
                        println!(rt; "{deed:?}, {pages} pages in memory, {trouble}: WRONG")?;
                        return Ok(false);
                    }
                }
            }
        }
    }
    Ok(true)
}

/// Does a deed with trouble at its first disk call, at the second, and so on until it is done without. Answers how many calls that
/// were; none where something else was left than may be, or where the table is not right at the end. Where a call leaves the images
/// that the one before it left, as a call that reads does, they are not asked again.
fn calls_in_trouble(given: Given<'_>, deed: Deed, trouble: Trouble) -> anyhow::Result<Option<u64>> {
    let mut asked = Vec::new(given.alloc);
    let mut so_far = 0;
    for call in 0..MOST_CALLS {
        let (left, progress) = done_in_trouble(given, deed, trouble, call)?;
        let images = telling(given.alloc, &left)?;
        let is_new = progress.done != so_far || images.as_slice() != asked.as_slice();
        if is_new && !is_left(given.alloc, &left, deed, progress)? {
            return Ok(None);
        }
        match progress.refused {
            None => return Ok(is_right_on(given.alloc, &left)?.then_some(call)),
            Some(SolverFault::Disk) => {}
            Some(_) => return Ok(None),
        }
        asked = images;
        so_far = progress.done;
    }
    Ok(None)
}

/// Does a deed with trouble at this disk call. Answers the disk that is left, and how far it came.
fn done_in_trouble(
    given: Given<'_>,
    deed: Deed,
    trouble: Trouble,
    call: u64,
) -> anyhow::Result<(MemDisk, Progress)> {
    let disk = before(given, deed)?;
    if trouble == Trouble::Stop {
        let (fuse, progress) = done_on::<TableFile<FuseDisk<MemDisk>>>(
            given,
            FuseDisk::new(disk, call),
            deed,
        )?;
        return Ok((fuse.into_inner(), progress));
    }
    let flaky = FlakyDisk::new(disk, call, trouble == Trouble::Done);
    let (flaky, progress) = done_on::<TableFile<FlakyDisk<MemDisk>>>(given, flaky, deed)?;
    Ok((flaky.into_inner(), progress))
}

/// Whether each stop now leaves what the commands that were answered lead to, or what the next one leads to. Of a disk that was just made
/// longer the first 256 images keep four sectors of the new end at most, and those that tell all others lose it or keep it.
fn is_left(alloc: Global, left: &MemDisk, deed: Deed, progress: Progress) -> anyhow::Result<bool> {
    let standings = deed.standings();
    let end = if progress.refused.is_some() { 2 } else { 1 };
    let allowed = standings.iter().skip(progress.done).take(end);
    let allowed: Vec<_> = allowed.copied().collect(alloc)?;
    Ok(first_stand(alloc, left, &allowed)? && telling_stand(alloc, left, &allowed)?)
}

/// Numbers of images that tell all others of what a stop leaves: each sector that is not synced is as at the last sync, as written, and
/// filled with noise.
pub const TELLING: [u64; 3] = [0, u64::MAX / 3, u64::MAX];

/// What tells which images a stop now leaves: where it is the same of two disks, so are the images.
pub fn telling(alloc: Global, disk: &MemDisk) -> anyhow::Result<Vec<u8>> {
    let mut told = Vec::new(alloc);
    for pick in TELLING {
        let mut image = disk.after_stop(alloc, pick)?;
        add_sectors(&mut image, &mut told)?;
    }
    Ok(told)
}

/// Puts the sectors of a disk after these bytes.
fn add_sectors(disk: &mut MemDisk, told: &mut Vec<u8>) -> anyhow::Result<()> {
    let mut sector = [0; 512];
    for at in 0..disk.sectors() {
        if at < disk.sectors() {
            disk.read(at, &mut sector)?;
            told.extend_from_slice(&sector)?;
        }
    }
    Ok(())
}
