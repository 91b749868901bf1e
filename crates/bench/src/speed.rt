//! The moves alone: works the table of a game in memory.

ghost use Rattle.rbg_game.specs.Meaning.{game_of};
ghost use Rattle.rbg_game.specs.Sound.{IsSoundGame};

use game_table::{MAX_POSITIONS, StepFault, work};
use legal_moves::compiled::Compiled;
use legal_moves::source::MoveSource;
use position_pack::PackingKind;
use rbg_game::game::Game;
use rbg_read::read::read_game;
use retrograde::Counts;
use std::alloc::Global;
use std::fs;
use std::io::{self, Read};
use table::{MemTable, Table};

/// How it is called.
pub(crate) const USAGE: &str = "usage: bench speed GAME UNITS";

/// As many bytes as are read of a game text.
const READ_LIMIT: u64 = 65_537;

/// Does as many units of work on a table in memory as the words say, and prints how far they came. Answers whether the game could be
/// read and worked.
pub(crate) fn run(rt: &HostRuntime, words: &[String]) -> anyhow::Result<bool> {
    let alloc = rt.alloc();
    let [name, units] = words else {
        rt.eprintln(USAGE)?;
        return Ok(false);
    };
    let mut text: Vec<u8> = Vec::new(alloc);
    fs::File::open(rt, name)?
        .take(READ_LIMIT)
        .read_to_end(&mut text)?;
    let Ok(game) = read_game(alloc, &text) else {
        rt.eprintln("the game cannot be read")?;
        return Ok(false);
    };
    let limit = units.parse::<u32>().unwrap_or(0);
    solve(rt, alloc, game, limit)
}

/// Works this many units of the game, and prints how far its table came. Answers whether it could be worked.
fn solve(rt: &HostRuntime, alloc: Global, game: Game, limit: u32) -> anyhow::Result<bool>
    requires { IsSoundGame (game_of game) }
{
    let compiled = Compiled::new(alloc, game, PackingKind::Bytes, None)?;
    match worked(alloc, &compiled, limit) {
        Ok((units, counts)) => {
            tell(rt, units, counts)?;
            Ok(true)
        }
        Err(fault) => {
            eprintln!(rt; "{fault}")?;
            Ok(false)
        }
    }
}

/// Works this many units on a new table in memory: how many were done, and how far it is.
fn worked<M: MoveSource>(alloc: Global, source: &M, limit: u32) -> Result<(u32, Counts), StepFault>
    requires { M.is_sound source.now }
{
    let mut table = MemTable::new(alloc, &source.start())?;
    if table.counts().known > MAX_POSITIONS {
        return Err(StepFault::TooManyPositions);
    }
    let units = work(alloc, source, &mut table, limit)?;
    Ok((units, table.counts()))
}

/// Prints how many units were done, and how far the table is.
fn tell(rt: &HostRuntime, units: u32, counts: Counts) -> io::Result<()> {
    let Counts {
        known,
        expanded,
        settled,
        processed,
    } = counts;
    println!(rt;
        "units {units} known {known} expanded {expanded} settled {settled} processed {processed}"
    )
}
