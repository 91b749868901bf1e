//! A room of tables that stay open, so that a question need not open one anew. Each table has a number in its room, which no other
//! table gets; a number that was given back is refused.
ghost use Rattle.std.specs.Prelude.{◌≡◌, ◌≢◌, ◌⊎◌, ◌<◌, ◌≤◌, None, length, slice_set, IfSome, IfNone};
ghost use Rattle.solver.specs.Faults.{status_of};
ghost use Rattle.session_lines.specs.Told.{fault_line};
ghost use Rattle.in_process.specs.Given.{IsGiven};
ghost use Rattle.in_process.specs.Lines.{AnswersLinesOn, lines_taken};
ghost use Rattle.in_process.specs.Rooms.{table_at, IsOnTable, IsTakenOver, GivesAnswers, GivesBytes};

use crate::given::{NO_MEMORY, NOT_OPEN, TOO_LONG, give_text};
use crate::held::HeldTable;
use crate::loose::LooseBox;
use crate::places::HeldTables;
use crate::room::Room;
use byte_disk::ByteDisk;
use game_file::{GameFile, Versions};
use recover::{Solver, SolverFault, TableFile};
use session::line_by_line::Lines;
use session::told::said_refused;
use std::alloc::Global;
use std::mem;

/// Makes a room with no table, and puts its pointer there.
#[unsafe(no_mangle)]
pub extern "C" fn rbg_room_new(alloc: Global, room: &mut *mut u8) -> u8 {
    match Box::new(alloc, HeldTables::none(alloc)) {
        Ok(tables) => {
            *room = Box::into_raw(tables) as *mut u8;
            0
        }
        Err(_) => NO_MEMORY,
    }
}

/// Gives back a room with all its tables.
#[unsafe(no_mangle)]
pub extern "C" fn rbg_room_free(room: Room) {
    drop(room.into_loose().into_box());
}

/// Takes the tables out of the room, and leaves none there; nothing where memory ran out.
fn take_tables(alloc: Global, room: &mut Room) -> Option<Box<HeldTables>>
    ensures taken { IfSome result (λ tables. tables.value ≡ room.old.tables) }
    ensures kept { IfNone result (room.new.tables ≡ room.old.tables) }
{
    let Ok(none) = Box::new(alloc, HeldTables::none(alloc)) else {
        return None;
    };
    let room = mem::replace(room, Room::of(LooseBox::of(none)));
    Some(room.into_loose().into_box())
}

/// Puts the tables into the room again.
fn put_tables(room: &mut Room, tables: Box<HeldTables>)
    ensures { room.new.tables ≡ tables.value }
{
    let none = mem::replace(room, Room::of(LooseBox::of(tables)));
    drop(none.into_loose().into_box());
}

/// Opens the table of these bytes, which are copied, and tells its number; or answers `refused` and a code.
#[unsafe(no_mangle)]
pub extern "C" fn rbg_open(
    alloc: Global,
    room: &mut Room,
    table: &[u8],
    number: &mut u64,
    out: &mut [u8],
    count: &mut usize,
) -> u8
    ensures { IsTakenOver table.now room.old.tables room.new.tables number.old number.new out.old out.new count.new result }
{
    let Some(mut tables) = take_tables(alloc, room) else {
        *count = 0;
        return NO_MEMORY;
    };
    let status = open_in(alloc, &mut tables, table, number, out, count);
    put_tables(room, tables);
    status
}

/// Opens a table among these, and gives its number.
fn open_in(
    alloc: Global,
    tables: &mut HeldTables,
    table: &[u8],
    number: &mut u64,
    out: &mut [u8],
    count: &mut usize,
) -> u8
    ensures { IsTakenOver table.now tables.old tables.new number.old number.new out.old out.new count.new result }
{
    *count = 0;
    let Ok(disk) = ByteDisk::from_bytes(alloc, table) else {
        return NO_MEMORY;
    };
    let solver = match Solver::<ByteDisk>::open(alloc, disk) {
        Ok(solver) => solver,
        Err(refused) => return give_refused(alloc, refused.fault, out, count),
    };
    match tables.add(alloc, HeldTable::new(alloc, solver)) {
        Ok(added) => {
            *number = added;
            0
        }
        Err(_) => NO_MEMORY,
    }
}

/// Gives the line of a refusal, and its status; nothing where memory ran out for it.
fn give_refused(alloc: Global, fault: SolverFault, out: &mut [u8], count: &mut usize) -> u8
    ensures given { result ≢ 5 → (result ≡ status_of fault) × IsGiven (fault_line fault) out.old out.new count.new }
    ensures no_memory { result ≡ 5 → (count.new ≡ 0) × (out.new ≡ out.old) }
{
    let mut line = Vec::new(alloc);
    match said_refused(&mut line, fault).status {
        4 | NO_MEMORY => {
            *count = 0;
            NO_MEMORY
        }
        status => {
            give_text(&line, out, count);
            status
        }
    }
}

/// Answers these lines on the table of this number, as `rbgsolve session` does, or `rbgsolve look` where it only looks. The answers
/// wait, behind those that waited before, until `rbg_answers` gives them; how many bytes they are is told.
#[unsafe(no_mangle)]
pub extern "C" fn rbg_lines(
    alloc: Global,
    room: &mut Room,
    number: u64,
    looks: bool,
    lines: &[u8],
    count: &mut usize,
) -> u8
    ensures { IsOnTable (AnswersLinesOn ⟦<TableFile<ByteDisk> as GameFile>⟧.stores ⟦<TableFile<ByteDisk> as GameFile>⟧.state
        ⟦<TableFile<ByteDisk> as Versions>⟧.is_version ⟦<TableFile<ByteDisk> as Versions>⟧.are_two ⟦<TableFile<ByteDisk> as Versions>⟧.is_used_up
        ⟦<TableFile<ByteDisk> as GameFile>⟧.lasts (lines_taken looks) lines.now count.new) room.old.tables room.new.tables number result }
{
    *count = 0;
    let Some(mut tables) = take_tables(alloc, room) else {
        return NO_MEMORY;
    };
    let manner = lines_of(looks);
    let status = match tables.take(number) {
        Some(mut table) => {
            let status = table.answer(alloc, manner, lines);
            *count = table.waiting();
            tables.put(number, table);
            status
        }
        None => NOT_OPEN,
    };
    put_tables(room, tables);
    status
}

/// Which lines are taken.
fn lines_of(looks: bool) -> Lines
    ensures { result ≡ lines_taken looks }
{
    if looks { Lines::Look } else { Lines::Session }
}

/// Gives the answers that wait, and none waits then; or tells how many bytes they are, where they do not fit.
#[unsafe(no_mangle)]
pub extern "C" fn rbg_answers(
    alloc: Global,
    room: &mut Room,
    number: u64,
    out: &mut [u8],
    count: &mut usize,
) -> u8
    ensures { IsOnTable (GivesAnswers out.old out.new count.new) room.old.tables room.new.tables number result }
{
    *count = 0;
    let Some(mut tables) = take_tables(alloc, room) else {
        return NO_MEMORY;
    };
    let status = match tables.take(number) {
        Some(mut table) => {
            table.give_answers(out, count);
            tables.put(number, table);
            status_of_given(*count, out)
        }
        None => NOT_OPEN,
    };
    put_tables(room, tables);
    status
}

/// Gives the bytes of the table, or tells how many they are, where they do not fit.
#[unsafe(no_mangle)]
pub extern "C" fn rbg_bytes(
    alloc: Global,
    room: &mut Room,
    number: u64,
    out: &mut [u8],
    count: &mut usize,
) -> u8
    ensures { IsOnTable (GivesBytes out.old out.new count.new) room.old.tables room.new.tables number result }
{
    *count = 0;
    let Some(mut tables) = take_tables(alloc, room) else {
        return NO_MEMORY;
    };
    let status = match tables.take(number) {
        Some(mut table) => {
            table.give_bytes(alloc, out, count);
            tables.put(number, table);
            status_of_given(*count, out)
        }
        None => NOT_OPEN,
    };
    put_tables(room, tables);
    status
}

/// The status where so many bytes were to be given.
fn status_of_given(count: usize, out: &[u8]) -> u8
    ensures given { count ≤ length out.now → result ≡ 0 }
    ensures too_long { length out.now < count → result ≡ 6 }
{
    if count <= out.len() { 0 } else { TOO_LONG }
}

/// Gives the number of the table back, with what waits.
#[unsafe(no_mangle)]
pub extern "C" fn rbg_close(alloc: Global, room: &mut Room, number: u64) -> u8
    ensures closed { result ≡ 0 → (table_at room.old.tables number ≢ None)
        × (room.new.tables.places.items ≡ slice_set room.old.tables.places.items number None) }
    ensures not_open { result ≡ 7 → (table_at room.old.tables number ≡ None)
        × (room.new.tables.places.items ≡ room.old.tables.places.items) }
    ensures no_memory { result ≡ 5 → room.new.tables ≡ room.old.tables }
    ensures one { (result ≡ 0) ⊎ ((result ≡ 7) ⊎ (result ≡ 5)) }
{
    let Some(mut tables) = take_tables(alloc, room) else {
        return NO_MEMORY;
    };
    let status = match tables.take(number) {
        Some(table) => {
            drop(table);
            0
        }
        None => NOT_OPEN,
    };
    put_tables(room, tables);
    status
}
