//! Tables and texts with random changes.

use crate::any_bytes::asking::{Outcome, ask_all};
use crate::any_bytes::tables::{cut, put_sector, worked};
use crate::random::below;
use crate::sectors::sector;
use game_file::GameFile;
use rand::RngExt;
use rand_pcg::Pcg32;
use rbg_read::read::read_game;
use recover::TableFile;
use sector_disk::{MemDisk, SectorDisk};
use solver::{FileSolver, SolverFault};
use std::alloc::Global;

/// The sectors of 1,024 pages.
const SECTORS: u64 = 8_192;

/// This many changes are made at most.
const CHANGES: u64 = 6;

/// What was tried.
#[derive(Clone, Copy, Default)]
struct Tally {
    files: u64,
    opened: u64,
    texts: u64,
    read: u64,
}

/// Changes tables of these games, and their texts, in this many rounds. Prints what was tried, and at the first answer that may not be the
/// seed and the round, with which it can be repeated. Answers whether there was none.
pub fn fuzz(
    rt: &HostRuntime,
    alloc: Global,
    texts: &[Vec<u8>],
    seed: u64,
    rounds: u64,
) -> anyhow::Result<bool> {
    let mut tally = Tally::default();
    for round in 0..rounds {
        let mut random = Pcg32::new(seed, round);
        let Some(text) = texts.get(below(&mut random, texts.len() as u64) as usize) else {
            break;
        };
        if !round_of(alloc, &mut random, text, &mut tally)? {
            println!(rt; "seed {seed} round {round}: WRONG")?;
            return Ok(false);
        }
    }
    println!(rt;
        "seed {seed}: {} files, {} of them opened, {} texts, {} of them read",
        tally.files, tally.opened, tally.texts, tally.read
    )?;
    Ok(true)
}

/// One round: sixteen changed files and sixteen changed texts of a game.
fn round_of(
    alloc: Global,
    random: &mut Pcg32,
    text: &[u8],
    tally: &mut Tally,
) -> anyhow::Result<bool> {
    let times = below(random, 3);
    let mut table = worked(alloc, text, SECTORS, times)?;
    for _ in 0..16 {
        let changed = changed_file(alloc, random, &mut table)?;
        tally.files = tally.files.saturating_add(1);
        match ask_all::<TableFile<MemDisk>>(alloc, changed) {
            Outcome::Wrong => return Ok(false),
            Outcome::Opened => tally.opened = tally.opened.saturating_add(1),
            Outcome::Refused => {}
        }
        tally.texts = tally.texts.saturating_add(1);
        match read_and_loaded(alloc, &changed_text(alloc, random, text)?)? {
            (true, true) => tally.read = tally.read.saturating_add(1),
            (false, false) => {}
            _ => return Ok(false),
        }
    }
    Ok(true)
}

/// The table with some bytes changed, and perhaps cut.
fn changed_file(alloc: Global, random: &mut Pcg32, table: &mut MemDisk) -> anyhow::Result<MemDisk> {
    let mut changed = if below(random, 16) == 0 {
        cut(alloc, table, below(random, SECTORS))?
    } else {
        table.after_stop(alloc, 0)?
    };
    let most = changed.sectors().min(8 << below(random, 5).min(5));
    for _ in 0..1 + below(random, CHANGES).min(CHANGES) {
        let at = below(random, most);
        let mut bytes = sector(&mut changed, at)?;
        let byte = below(random, 512) as usize;
        if byte < 512 {
            bytes[byte] = some_byte(random, bytes[byte]);
        }
        put_sector(&mut changed, at, &bytes)?;
    }
    changed.sync()?;
    Ok(changed)
}

/// Another byte, mostly one that is near.
fn some_byte(random: &mut Pcg32, was: u8) -> u8 {
    match below(random, 4) {
        0 => was.wrapping_add(1),
        1 => was.wrapping_sub(1),
        2 => random.random::<u8>() % 4,
        _ => random.random(),
    }
}

/// The text with some bytes changed, or a part of it left out or put in once more.
fn changed_text(alloc: Global, random: &mut Pcg32, text: &[u8]) -> anyhow::Result<Vec<u8>> {
    let mut changed = text.to_vec(alloc)?;
    for _ in 0..1 + below(random, CHANGES).min(CHANGES) {
        let at = below(random, changed.len() as u64) as usize;
        if at < changed.len() {
            changed[at] = match text.get(below(random, text.len() as u64) as usize) {
                Some(byte) if below(random, 2) == 0 => *byte,
                _ => some_byte(random, changed[at]),
            };
        }
    }
    if below(random, 4) == 0 {
        changed.truncate(below(random, changed.len() as u64) as usize);
    }
    Ok(changed)
}

/// Whether the text reads to a game, and whether a solver loads it.
fn read_and_loaded(alloc: Global, text: &[u8]) -> anyhow::Result<(bool, bool)> {
    let is_read = read_game(alloc, text).is_ok();
    let disk = MemDisk::new(alloc, 256)?;
    Ok((is_read, is_loaded::<TableFile<MemDisk>>(alloc, disk, text)?))
}

/// Whether an empty table on this disk loads the text.
fn is_loaded<F: GameFile>(alloc: Global, disk: F::Device, text: &[u8]) -> Result<bool, SolverFault>
where
    F::Device: Drop,
{
    match FileSolver::<F>::create(alloc, disk) {
        Ok(mut solver) => {
            let is_loaded = solver.load(text, None).is_ok();
            let _ = solver.close();
            Ok(is_loaded)
        }
        Err(refused) => Err(refused.fault),
    }
}
