//! Commands on a table whose bytes the caller keeps.
ghost use Rattle.std.specs.Prelude.{◌≡◌, ◌≢◌, ◌<◌, ◌≤◌, length, take, None, Some};
ghost use Rattle.byte_disk.specs.InMemory.{disk_in};
ghost use Rattle.earlier_layouts.specs.Held.{Stores};
ghost use Rattle.rbg_game.specs.Goals.{CanBeGoal, points_of};
ghost use Rattle.session.specs.Commands.{IsCreate, IsLoad, IsAudit, IsGrow, IsBrought, IsDoneOnFile};
ghost use Rattle.tree_table.specs.Held.{StoresTrees};
ghost use Rattle.in_process.specs.Calls.{IsAnswered, IsCalled, pages_in};
ghost use Rattle.in_process.specs.Given.{IsGiven, over};

use crate::given::{NO_GOAL, NO_MEMORY, TOO_LONG, give_text, put_over};
use byte_disk::ByteDisk;
use rbg_game::goal::Goal;
use recover::{FirstFile, SecondFile, TableFile};
use sector_disk::SectorDisk;
use session::commands::{FileCommand, command_on};
use session::migrating::migrate_on;
use session::moments::Moments;
use std::alloc::Global;

/// The bytes of a page.
const PAGE: usize = 4_096;

/// Makes the empty table in these bytes, as `rbgsolve create` does in a file.
#[unsafe(no_mangle)]
pub extern "C" fn rbg_create(
    alloc: Global,
    table: &mut [u8],
    out: &mut [u8],
    count: &mut usize,
) -> u8
    ensures { IsCalled (IsCreate (StoresTrees 3)) table.old table.old table.new out.old out.new count.new result }
{
    let Ok(disk) = ByteDisk::from_bytes(alloc, table) else {
        *count = 0;
        return NO_MEMORY;
    };
    commanded(alloc, FileCommand::Create, disk, table, out, count)
}

/// Loads the game of this text into the table, as `rbgsolve load` does, with a goal of so many points, or with none where that is 0.
#[unsafe(no_mangle)]
pub extern "C" fn rbg_load(
    alloc: Global,
    table: &mut [u8],
    text: &[u8],
    goal: u32,
    out: &mut [u8],
    count: &mut usize,
) -> u8
    ensures without { goal ≡ 0 → IsCalled (IsLoad (StoresTrees 3) text.now None) table.old table.old table.new out.old out.new count.new result }
    ensures with_goal { CanBeGoal goal
        → IsCalled (IsLoad (StoresTrees 3) text.now (Some goal)) table.old table.old table.new out.old out.new count.new result }
    ensures no_goal { goal ≢ 0 → ¬ CanBeGoal goal → (result ≡ 2) × (count.new ≡ 0) × (out.new ≡ out.old) × (table.new ≡ table.old) }
{
    if goal == 0 {
        return loaded(alloc, table, text, None, out, count);
    }
    match Goal::new(goal) {
        Some(goal) => loaded(alloc, table, text, Some(goal), out, count),
        None => {
            *count = 0;
            NO_GOAL
        }
    }
}

/// Loads a game with this goal, or with none.
fn loaded(
    alloc: Global,
    table: &mut [u8],
    text: &[u8],
    goal: Option<Goal>,
    out: &mut [u8],
    count: &mut usize,
) -> u8
    ensures { IsCalled (IsLoad (StoresTrees 3) text.now (points_of goal)) table.old table.old table.new out.old out.new count.new result }
{
    let Ok(own) = text.to_vec(alloc) else {
        *count = 0;
        return NO_MEMORY;
    };
    let Ok(disk) = ByteDisk::from_bytes(alloc, table) else {
        *count = 0;
        return NO_MEMORY;
    };
    commanded(alloc, FileCommand::Load(own, goal), disk, table, out, count)
}

/// Says whether the table is right, as `rbgsolve audit` does.
#[unsafe(no_mangle)]
pub extern "C" fn rbg_audit(
    alloc: Global,
    table: &mut [u8],
    out: &mut [u8],
    count: &mut usize,
) -> u8
    ensures { IsCalled (IsAudit (StoresTrees 3)) table.old table.old table.new out.old out.new count.new result }
{
    let Ok(disk) = ByteDisk::from_bytes(alloc, table) else {
        *count = 0;
        return NO_MEMORY;
    };
    commanded(alloc, FileCommand::Audit, disk, table, out, count)
}

/// Gives the table of the first `had` of these bytes as many pages as all of them make, as `rbgsolve grow` does.
#[unsafe(no_mangle)]
pub extern "C" fn rbg_grow(
    alloc: Global,
    table: &mut [u8],
    had: usize,
    out: &mut [u8],
    count: &mut usize,
) -> u8
    ensures { IsCalled (IsGrow (StoresTrees 3) (pages_in table.old)) (take had table.old) table.old table.new out.old out.new count.new result }
{
    let first = had.min(table.len());
    let Ok(disk) = ByteDisk::from_bytes(alloc, &table[..first]) else {
        *count = 0;
        return NO_MEMORY;
    };
    let pages = (table.len() / PAGE).min(u32::MAX as usize) as u32;
    commanded(alloc, FileCommand::Grow(pages), disk, table, out, count)
}

/// Brings the table into today's layout, as `rbgsolve migrate` does.
#[unsafe(no_mangle)]
pub extern "C" fn rbg_migrate(
    alloc: Global,
    table: &mut [u8],
    out: &mut [u8],
    count: &mut usize,
) -> u8
    ensures { IsCalled (IsBrought Stores (StoresTrees 2) (StoresTrees 3)) table.old table.old table.new out.old out.new count.new result }
{
    let Ok(disk) = ByteDisk::from_bytes(alloc, table) else {
        *count = 0;
        return NO_MEMORY;
    };
    let mut line = Vec::new(alloc);
    let (outcome, disk) = migrate_on::<
        ByteDisk,
        TableFile<ByteDisk>,
        SecondFile<ByteDisk>,
        FirstFile<ByteDisk>,
        _,
    >(alloc, disk, &mut line, &mut Moments::new());
    give_table(&line, disk.bytes(), outcome.status, table, out, count)
}

/// Does a command on the table of this disk, which has not failed.
fn commanded(
    alloc: Global,
    command: FileCommand,
    disk: ByteDisk,
    table: &mut [u8],
    out: &mut [u8],
    count: &mut usize,
) -> u8
    requires { ⟦<ByteDisk as SectorDisk>⟧.failures disk ≡ 0 }
    ensures { IsAnswered (IsDoneOnFile (StoresTrees 3) command) (disk_in disk) table.old table.new out.old out.new count.new result }
{
    let mut line = Vec::new(alloc);
    let (outcome, disk) = command_on::<TableFile<ByteDisk>, _>(
        alloc,
        disk,
        command,
        &mut line,
        &mut Moments::new(),
    );
    give_table(&line, disk.bytes(), outcome.status, table, out, count)
}

/// Gives the text and the bytes of what was done, or neither where memory ran out for the text or it is too long. Gives the status.
pub fn give_table(
    text: &[u8],
    bytes: &[u8],
    status: u8,
    table: &mut [u8],
    out: &mut [u8],
    count: &mut usize,
) -> u8
    ensures no_memory { status ≡ 4 → (result ≡ 5) × (count.new ≡ 0) × (out.new ≡ out.old) × (table.new ≡ table.old) }
    ensures given { status ≢ 4 → IsGiven text.now out.old out.new count.new }
    ensures done { status ≢ 4 → length text.now ≤ length out.old → (result ≡ status) × (table.new ≡ over bytes.now table.old) }
    ensures too_long { status ≢ 4 → length out.old < length text.now → (result ≡ 6) × (table.new ≡ table.old) }
{
    if status == 4 {
        *count = 0;
        return NO_MEMORY;
    }
    give_text(text, out, count);
    if text.len() > out.len() {
        return TOO_LONG;
    }
    put_over(bytes, table);
    status
}
