//! Random games and commands, stopped at random disk calls, and compared with a table that is never stopped.
ghost use Rattle.std.specs.Prelude.{◌≤◌};

use crate::power_failures::standing::is_right_in;
use crate::power_failures::watched::WatchedDisk;
use crate::random::below;
use game_file::GameFile;
use rand::RngExt;
use rand_pcg::Pcg32;
use recover::{SecondFile, TableFile};
use sector_disk::{FuseDisk, MemDisk};
use solver::{FileSolver, SolverFault, Units};
use std::alloc::Global;

/// The sectors of 128 pages: a table that is full refuses an order, and stays as it was.
const SECTORS: u64 = 1_024;

/// The sectors of the table that is never stopped, which is never full.
const MODEL_SECTORS: u64 = 16_384;

/// This many commands are given in a round at most.
const COMMANDS: u32 = 24;

/// This many of the last disk calls of an order are stopped at as often as all others.
const LAST_CALLS: u64 = 8;

/// The file of a table that is never stopped, of the layout before today's.
type Model = SecondFile<MemDisk>;

/// What was done.
#[derive(Clone, Copy, Default)]
struct Tally {
    rounds: u64,
    stops: u64,
    /// The stops that left the command that was going on done.
    ahead: u64,
}

impl Tally {
    /// Counts a stop, if the command was not answered before it, and whether that command was done all the same.
    fn count(&mut self, is_done: bool, is_ahead: bool) {
        self.stops = self.stops.saturating_add(u64::from(!is_done));
        self.ahead = self.ahead.saturating_add(u64::from(!is_done && is_ahead));
    }
}

/// Plays this many rounds with these games. Prints what was done, and at the first table that is not as it should be the seed and the
/// round, with which it can be repeated. Answers whether there was none.
pub fn soak(
    rt: &HostRuntime,
    alloc: Global,
    texts: &[Vec<u8>],
    seed: u64,
    rounds: u64,
) -> anyhow::Result<bool> {
    let mut tally = Tally::default();
    for round in 0..rounds {
        let mut random = Pcg32::new(seed, round);
        let Some(text) = texts.get(below(&mut random, texts.len() as u64) as usize) else {
            break;
        };
        if !round_of(alloc, &mut random, text, &mut tally)? {
            println!(rt; "seed {seed} round {round}: WRONG")?;
            return Ok(false);
        }
        tally.rounds = tally.rounds.saturating_add(1);
    }
    println!(rt;
        "seed {seed}: {} rounds, {} stops, behind {} of them the command was done",
        tally.rounds, tally.stops, tally.ahead
    )?;
    Ok(true)
}

/// What is ordered.
#[derive(Clone, Copy, PartialEq, Eq, Debug)]
enum Order {
    /// To load the game.
    Load,
    /// To work this many units.
    Work(Units),
    /// To have this many pages.
    Grow(u32),
}

/// One round: a table is made, and orders are given to it, each with a stop at a random call, if it comes so far. Answers whether it was
/// always the one that the orders lead to which were answered, or one order more, and is right at the end.
fn round_of(
    alloc: Global,
    random: &mut Pcg32,
    text: &[u8],
    tally: &mut Tally,
) -> anyhow::Result<bool> {
    let disk = made::<TableFile<MemDisk>>(alloc, MemDisk::new(alloc, SECTORS)?)?;
    let spare = MemDisk::new(alloc, MODEL_SECTORS)?;
    round_beside::<Model>(alloc, random, disk, spare, text, tally)
}

/// A round on the empty table on this disk, with a model on the other. What holds a solver has the type of its file as a parameter,
/// so that no proof looks into the file.
fn round_beside<M: GameFile>(
    alloc: Global,
    random: &mut Pcg32,
    disk: MemDisk,
    spare: M::Device,
    text: &[u8],
    tally: &mut Tally,
) -> anyhow::Result<bool>
where
    M::Device: Drop,
{
    match FileSolver::<M>::create(alloc, spare) {
        Ok(mut model) => {
            let is_right = orders_given(alloc, random, disk, &mut model, text, tally);
            let _ = model.close();
            is_right
        }
        Err(refused) => Err(refused.fault.into()),
    }
}

/// Gives all orders of a round. Answers whether the table was always as the model is, and is right at the end.
fn orders_given<M: GameFile>(
    alloc: Global,
    random: &mut Pcg32,
    disk: MemDisk,
    model: &mut FileSolver<M>,
    text: &[u8],
    tally: &mut Tally,
) -> anyhow::Result<bool> {
    let mut disk = disk;
    for _ in 0..COMMANDS {
        match is_as_the_model(alloc, random, disk, model, text, tally)? {
            Some(left) => disk = left,
            None => return Ok(false),
        }
    }
    let pages = some_pages(random);
    Ok(is_right_in::<TableFile<MemDisk>>(alloc, disk, pages)?)
}

/// Gives one order to the table of this disk, with a stop at a random call, if it comes so far, and to the model. Answers the disk, if
/// the table is then as the model is.
fn is_as_the_model<M: GameFile>(
    alloc: Global,
    random: &mut Pcg32,
    disk: MemDisk,
    model: &mut FileSolver<M>,
    text: &[u8],
    tally: &mut Tally,
) -> anyhow::Result<Option<MemDisk>> {
    let order = some_order(random, model.status().is_some());
    let (left, is_done) = stopped(alloc, random, disk, text, order)?;
    let given = Answered { order, is_done };
    compared::<TableFile<MemDisk>, M>(alloc, random, left, model, text, given, tally)
}

/// An order, and whether it was answered as done before the stop.
#[derive(Clone, Copy, PartialEq, Eq, Debug)]
struct Answered {
    order: Order,
    is_done: bool,
}

/// Compares what is found on this disk with the model, once that has done the order too. Answers the disk, if they are equal.
fn compared<F: GameFile, M: GameFile>(
    alloc: Global,
    random: &mut Pcg32,
    left: F::Device,
    model: &mut FileSolver<M>,
    text: &[u8],
    given: Answered,
    tally: &mut Tally,
) -> anyhow::Result<Option<F::Device>>
where
    F::Device: Drop,
{
    match FileSolver::<F>::open_with_cache(alloc, left, some_pages(random)) {
        Ok(mut found) => {
            let is_equal = is_equal_to(random, model, &mut found, text, given, tally);
            let left = found.close();
            Ok(if is_equal? { Some(left) } else { None })
        }
        Err(refused) => Err(refused.fault.into()),
    }
}

/// Whether the table that is found is as the model, once that has done the order too, if the stop left it done.
fn is_equal_to<F: GameFile, M: GameFile>(
    random: &mut Pcg32,
    model: &mut FileSolver<M>,
    found: &mut FileSolver<F>,
    text: &[u8],
    given: Answered,
    tally: &mut Tally,
) -> anyhow::Result<bool> {
    let is_ahead = found.status() != model.status();
    if given.is_done || is_ahead {
        follow(model, text, given.order)?;
    }
    tally.count(given.is_done, is_ahead);
    are_equal(random, model, found)
}

/// A disk with the empty table.
fn made<F: GameFile>(alloc: Global, disk: F::Device) -> anyhow::Result<F::Device>
where
    F::Device: Drop,
{
    match FileSolver::<F>::create(alloc, disk) {
        Ok(solver) => Ok(solver.close()),
        Err(refused) => Err(refused.fault.into()),
    }
}

/// To load where no game is, and else to work; now and then to grow to as many pages as there were at first, or up to as many again.
fn some_order(random: &mut Pcg32, has_game: bool) -> Order {
    if below(random, 8) == 0 {
        return Order::Grow(128 + below(random, 128) as u32);
    }
    let most = 1 << below(random, 8).min(8);
    match Units::new(1 + below(random, most) as u32) {
        Some(units) if has_game => Order::Work(units),
        _ => Order::Load,
    }
}

/// How many pages are kept in memory.
fn some_pages(random: &mut Pcg32) -> usize
    ensures { result ≤ 64 }
{
    match below(random, 4) {
        0 => 0,
        1 => 1,
        2 => 2,
        _ => 64,
    }
}

/// Gives an order to the table of this disk, which stops at a random call, one of the last ones as often as any. Answers what a stop
/// leaves, and whether the order was done.
fn stopped(
    alloc: Global,
    random: &mut Pcg32,
    disk: MemDisk,
    text: &[u8],
    order: Order,
) -> anyhow::Result<(MemDisk, bool)> {
    let pages = some_pages(random);
    let copy = WatchedDisk::new(alloc, disk.after_stop(alloc, 0)?);
    let (watched, _) = ordered::<TableFile<WatchedDisk<MemDisk>>>(alloc, copy, pages, text, order);
    let calls = watched.count();
    let passes = if below(random, 2) == 0 {
        below(random, calls)
    } else {
        calls.saturating_sub(below(random, LAST_CALLS))
    };
    let fuse = FuseDisk::new(disk, passes);
    let (fuse, is_done) = ordered::<TableFile<FuseDisk<MemDisk>>>(alloc, fuse, pages, text, order);
    let left = fuse.into_inner().after_stop(alloc, random.random())?;
    Ok((left, is_done))
}

/// Gives an order to the table of this disk. Answers the disk, and whether the order was done.
fn ordered<F: GameFile>(
    alloc: Global,
    disk: F::Device,
    pages: usize,
    text: &[u8],
    order: Order,
) -> (F::Device, bool) {
    match FileSolver::<F>::open_with_cache(alloc, disk, pages.min(64)) {
        Err(refused) => (refused.disk, false),
        Ok(mut solver) => {
            let is_done = obey(&mut solver, text, order).is_ok();
            (solver.close(), is_done)
        }
    }
}

/// Does what is ordered.
fn obey<F: GameFile>(
    solver: &mut FileSolver<F>,
    text: &[u8],
    order: Order,
) -> Result<(), SolverFault> {
    match order {
        Order::Load => solver.load(text, None),
        Order::Work(units) => solver.work(units).map(|_| ()),
        Order::Grow(pages) => solver.grow(pages),
    }
}

/// Does what is ordered in the model, which has room for all and does not grow.
fn follow<M: GameFile>(
    model: &mut FileSolver<M>,
    text: &[u8],
    order: Order,
) -> Result<(), SolverFault> {
    match order {
        Order::Grow(_) => Ok(()),
        Order::Load | Order::Work(_) => obey(model, text, order),
    }
}

/// Whether both tables are as far as the other, with equal rows from a random number on and an equal position there.
fn are_equal<F: GameFile, M: GameFile>(
    random: &mut Pcg32,
    model: &mut FileSolver<M>,
    found: &mut FileSolver<F>,
) -> anyhow::Result<bool> {
    let counts = model.status();
    if found.status() != counts {
        return Ok(false);
    }
    let (Some(counts), Some(rows)) = (counts, Units::new(256)) else {
        return Ok(true);
    };
    let number = below(random, u64::from(counts.known)) as u32;
    Ok(
        model.list(number, rows)? == found.list(number, rows)?
            && model.show(number)? == found.show(number)?
            && model.line(number).ok() == found.line(number).ok(),
    )
}
