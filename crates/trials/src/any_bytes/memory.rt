//! Each call is made again where memory was refused.

use file_disk::FileDisk;
use game_file::GameFile;
use rbg_read::fault::GameFault;
use recover::TableFile;
use retrograde::Counts;
use sector_disk::SectorDisk;
use solver::{FileSolver, SolverFault, Units};
use std::alloc::Global;
use std::fs::OpenOptions;

/// What is asked in turn.
const STEPS: [Step; 8] = [
    Step::Load,
    Step::Work(7),
    Step::Work(256),
    Step::Value(0),
    Step::Line(0),
    Step::List(0),
    Step::Find,
    Step::Work(1),
];

/// What is asked.
#[derive(Clone, Copy, PartialEq, Eq, Debug)]
enum Step {
    Load,
    Work(u32),
    Value(u32),
    Line(u32),
    List(u32),
    /// The position that is found, `white 2 v e 0,0,3`.
    Find,
}

/// What is known of a table between two calls: a sum of its root, and how far it is.
#[derive(Clone, Copy, PartialEq, Eq, Debug)]
struct Standing {
    root: u64,
    counts: Option<Counts>,
}

/// Makes all calls on the empty table of this file. A call that is refused for want of memory is made again: the root of the table and how
/// far it is have to be as they were then, and the call is answered as always. Prints what was answered, and on standard error how often
/// memory was refused. (Pages that are free may have been written.)
pub fn ask_again(rt: &HostRuntime, alloc: Global, text: &[u8], name: &str) -> anyhow::Result<bool> {
    let mut seen = disk_of(rt, name)?;
    let disk = disk_of(rt, name)?;
    ask_on::<TableFile<FileDisk>>(rt, alloc, disk, &mut seen, text)
}

/// Makes all calls on the table on this disk, as `ask_again` does, and opens the table again where memory was refused.
fn ask_on<F: GameFile>(
    rt: &HostRuntime,
    alloc: Global,
    disk: F::Device,
    seen: &mut FileDisk,
    text: &[u8],
) -> anyhow::Result<bool>
where
    F::Device: Drop,
{
    match FileSolver::<F>::open(alloc, disk) {
        Ok(solver) => ask_steps(rt, solver, seen, text, 0),
        Err(refused) if is_want(refused.fault) => {
            match FileSolver::<F>::open(alloc, refused.disk) {
                Ok(solver) => ask_steps(rt, solver, seen, text, 1),
                Err(refused) => Err(refused.fault.into()),
            }
        }
        Err(refused) => Err(refused.fault.into()),
    }
}

/// Makes all calls, where memory was refused so often before, and closes the table.
fn ask_steps<F: GameFile>(
    rt: &HostRuntime,
    solver: FileSolver<F>,
    seen: &mut FileDisk,
    text: &[u8],
    refusals: u64,
) -> anyhow::Result<bool>
where
    F::Device: Drop,
{
    let mut solver = solver;
    let asked = steps_asked(rt, &mut solver, seen, text, refusals);
    let _ = solver.close();
    asked
}

/// Makes all calls. Prints how often memory was refused, which it was so often before.
fn steps_asked<F: GameFile>(
    rt: &HostRuntime,
    solver: &mut FileSolver<F>,
    seen: &mut FileDisk,
    text: &[u8],
    refusals: u64,
) -> anyhow::Result<bool> {
    let mut refusals = refusals;
    for step in STEPS {
        match refusals_of(rt, solver, seen, text, step)? {
            Some(more) => refusals = refusals.saturating_add(more),
            None => return Ok(false),
        }
    }
    eprintln!(rt; "refused {refusals}")?;
    Ok(true)
}

/// How often memory was refused in a call, which is made again then; `None` if anything else was refused, or a refusal changed the table.
fn refusals_of<F: GameFile>(
    rt: &HostRuntime,
    solver: &mut FileSolver<F>,
    seen: &mut FileDisk,
    text: &[u8],
    step: Step,
) -> anyhow::Result<Option<u64>> {
    let before = how_it_stands(solver, seen)?;
    let Err(fault) = answer_to(rt, solver, text, step) else {
        return Ok(Some(0));
    };
    if !is_want(fault) || how_it_stands(solver, seen)? != before {
        println!(rt; "{step:?}: WRONG, {}", fault.code())?;
        return Ok(None);
    }
    if let Err(fault) = answer_to(rt, solver, text, step) {
        println!(rt; "{step:?}: refused {}", fault.code())?;
    }
    Ok(Some(1))
}

/// How the table stands.
fn how_it_stands<F: GameFile>(
    solver: &FileSolver<F>,
    seen: &mut FileDisk,
) -> anyhow::Result<Standing> {
    Ok(Standing {
        root: sum_of(seen)?,
        counts: solver.status(),
    })
}

/// The disk over a file.
fn disk_of(rt: &HostRuntime, name: &str) -> anyhow::Result<FileDisk> {
    let file = OpenOptions::new().read(true).write(true).open(rt, name)?;
    Ok(FileDisk::new(rt.alloc(), file)?)
}

/// Whether this is a want of memory.
fn is_want(fault: SolverFault) -> bool {
    matches!(
        fault,
        SolverFault::OutOfMemory | SolverFault::Game(GameFault::OutOfMemory)
    )
}

/// A checksum of the first four sectors of a disk, where the root of its table is. It takes no memory.
fn sum_of(disk: &mut FileDisk) -> anyhow::Result<u64> {
    let mut sum: u64 = 14_695_981_039_346_656_037;
    let mut bytes = [0; 512];
    // what was read before is read again
    disk.sync()?;
    for at in 0..4 {
        if at < disk.sectors() {
            disk.read(at, &mut bytes)?;
        }
        sum = added(sum, &bytes);
    }
    Ok(sum)
}

/// The sum with these bytes.
fn added(sum: u64, bytes: &[u8; 512]) -> u64 {
    let mut sum = sum;
    for byte in bytes {
        sum = (sum ^ u64::from(*byte)).wrapping_mul(1_099_511_628_211);
    }
    sum
}

/// Makes a call, and prints its answer if it is none of the refusals.
fn answer_to<F: GameFile>(
    rt: &HostRuntime,
    solver: &mut FileSolver<F>,
    text: &[u8],
    step: Step,
) -> Result<(), SolverFault> {
    let rows = units(256)?;
    let told = match step {
        Step::Load => solver.load(text, None).map(|()| println!(rt; "loaded")),
        Step::Work(count) => {
            let worked = solver.work(units(count)?)?;
            Ok(println!(rt; "{worked:?}"))
        }
        Step::Value(number) => Ok(println!(rt; "{:?}", solver.value(number)?)),
        Step::Line(number) => Ok(println!(rt; "{:?}", solver.line(number)?)),
        Step::List(number) => Ok(println!(rt; "{:?}", solver.list(number, rows)?)),
        Step::Find => Ok(println!(rt; "{:?}", solver.find(b"white 2 v e 0,0,3")?)),
    };
    match told {
        Ok(_) => Ok(()),
        Err(fault) => Err(fault),
    }
}

/// This many units.
fn units(count: u32) -> Result<Units, SolverFault> {
    match Units::new(count) {
        Some(units) => Ok(units),
        None => Err(SolverFault::NoGame),
    }
}
