//! What tables of all layouts say of one game, compared.

use crate::layouts_compared::layout::{First, SECTORS, Second, Third};
use crate::layouts_compared::sitting::{Started, Told, asked_in, begun_in, ended_in, told_of};
use crate::sectors::sector;
use flat_files::worked_file;
use page_store::MOST_CACHED;
use recover::migrate;
use sector_disk::MemDisk;
use std::alloc::Global;
use std::fmt::{self, Display, Formatter, Write};
use std::str::from_utf8;

/// This many bytes of a difference are told.
const SHOWN: usize = 200;

/// What came of a game.
#[derive(Drop)]
pub enum Outcome {
    /// All answers were equal, and this many positions are known.
    Equal(u32),
    Differs(Difference),
    /// All answers were equal, but not what the files of layout 2 and 3 hold.
    OtherFiles,
    /// All answers were equal, but the audit says of a table that it is wrong.
    NotRight,
}

/// Where a table begins to say other things than one of layout 3.
#[derive(Drop)]
pub struct Difference {
    /// Which table.
    which: &'static str,
    wanted: Vec<u8>,
    said: Vec<u8>,
}

impl Display for Difference {
    fn fmt<W: Write>(&self, f: &mut Formatter<W>) -> fmt::Result {
        let wanted = from_utf8(&self.wanted).unwrap_or("?");
        let said = from_utf8(&self.said).unwrap_or("?");
        let which = self.which;
        write!(f, "layout 3 says\n{wanted}\n{which} says\n{said}")
    }
}

/// Loads the game of this text into a table of layout 3, one of layout 2, and one of layout 3 that keeps this many pages in memory, two at
/// most; does up to this many units of work in each, and compares all that they say, and what their files hold. Two more tables, of the
/// layouts 1 and 2, come into layout 3 after the first commands, and one of layout 1 at the end, and have to say the same.
pub fn compare(alloc: Global, text: &[u8], most: u32, pages: usize) -> anyhow::Result<Outcome> {
    let third = told_of::<Third>(alloc, text, most, MOST_CACHED)?;
    let second = told_of::<Second>(alloc, text, most, MOST_CACHED)?;
    let spare = told_of::<Third>(alloc, text, most, pages.min(2))?;
    let from_second = went_on(alloc, begun_in::<Second>(alloc, text, most)?, most)?;
    let from_first = went_on(alloc, begun_in_first(alloc, text, most)?, most)?;
    let others = [
        ("layout 2", &second),
        ("layout 3 with few pages", &spare),
        ("what was of layout 2", &from_second),
        ("what was of layout 1", &from_first),
    ];
    if let Some(outcome) = unlike(alloc, &third, &others)? {
        return Ok(outcome);
    }
    let (known, units) = (third.known, third.units);
    let third = asked_in::<Third>(alloc, third.disk)?;
    let in_memory = moved(alloc, worked_file(alloc, SECTORS, text, units)?)?;
    let in_memory = asked_in::<Third>(alloc, in_memory)?;
    let others = [("what was worked in memory", &in_memory)];
    if let Some(outcome) = unlike(alloc, &third, &others)? {
        return Ok(outcome);
    }
    if hold_the_same(second.disk, third.disk, spare.disk)? {
        Ok(Outcome::Equal(known))
    } else {
        Ok(Outcome::OtherFiles)
    }
}

/// What came of the game, if one of these says other things than the table of layout 3, or one of them all is wrong.
fn unlike(
    alloc: Global,
    third: &Told<MemDisk>,
    others: &[(&'static str, &Told<MemDisk>)],
) -> anyhow::Result<Option<Outcome>> {
    for (which, other) in others {
        if let Some(difference) = first_difference(alloc, which, &third.said, &other.said)? {
            return Ok(Some(Outcome::Differs(difference)));
        }
        if !(third.is_right && other.is_right) {
            return Ok(Some(Outcome::NotRight));
        }
    }
    Ok(None)
}

/// A table of layout 1 that has come as far as one of layout 3 where it would be opened for the first time, with what that one said.
fn begun_in_first(alloc: Global, text: &[u8], most: u32) -> anyhow::Result<Started<MemDisk>> {
    let Started { said, units, .. } = begun_in::<Third>(alloc, text, most)?;
    let disk = worked_file(alloc, SECTORS, text, units)?;
    Ok(Started { disk, said, units })
}

/// What a table says that began so in an earlier layout, came into layout 3, and went on in that.
fn went_on(alloc: Global, started: Started<MemDisk>, most: u32) -> anyhow::Result<Told<MemDisk>> {
    let Started { disk, said, .. } = started;
    ended_in::<Third>(alloc, moved(alloc, disk)?, said, most)
}

/// The table of this disk, brought into layout 3.
fn moved(alloc: Global, disk: MemDisk) -> anyhow::Result<MemDisk> {
    match migrate::<MemDisk, Third, Second, First>(alloc, disk) {
        Ok((disk, _)) => Ok(disk),
        Err(refused) => Err(refused.fault.into()),
    }
}

/// What the two say from the first byte on that differs, if one does.
fn first_difference(
    alloc: Global,
    which: &'static str,
    wanted: &[u8],
    said: &[u8],
) -> anyhow::Result<Option<Difference>> {
    if wanted == said {
        return Ok(None);
    }
    let same = wanted
        .iter()
        .zip(said)
        .take_while(|(one, other)| one == other)
        .count();
    Ok(Some(Difference {
        which,
        wanted: shown(alloc, wanted, same)?,
        said: shown(alloc, said, same)?,
    }))
}

/// Some bytes around this one.
fn shown(alloc: Global, said: &[u8], at: usize) -> anyhow::Result<Vec<u8>> {
    let mut bytes = Vec::new(alloc);
    let from = at.saturating_sub(SHOWN);
    for byte in said.iter().skip(from).take(2 * SHOWN) {
        bytes.push(*byte)?;
    }
    Ok(bytes)
}

/// Whether the two files of layout 3 are the same, byte for byte, and the one of layout 2 is in all but its root slots.
fn hold_the_same(second: MemDisk, third: MemDisk, spare: MemDisk) -> anyhow::Result<bool> {
    let (mut second, mut third, mut spare) = (second, third, spare);
    for at in 0..SECTORS {
        let bytes = sector(&mut third, at)?;
        let is_slot = at == 2 || at == 3;
        if sector(&mut spare, at)? != bytes || !is_slot && sector(&mut second, at)? != bytes {
            return Ok(false);
        }
    }
    Ok(true)
}
