//! One game, worked to its end in one table, with questions on the way.

use crate::layouts_compared::layout::Layout;
use audit::Verdict;
use page_store::MOST_CACHED;
use retrograde::Counts;
use session_lines::input::{Asked, Question};
use session_lines::moments::Moments;
use session_lines::questions::put_answer;
use session_lines::replies::row_lines;
use solver::{FileSolver, Units};
use std::alloc::Global;
use std::io::Write;

/// This many units are asked for in turn.
const STEPS: [u32; 4] = [1, 7, 97, 256];

/// This many commands are between two openings.
const COMMANDS: usize = 16;

/// This many of these are done before a listing is begun.
const BEFORE: usize = 2;

/// This many rows of a listing are asked for after the others in turn: 240 between two openings, and so no more than 256.
const ROWS: [u32; 4] = [3, 1, 40, 17];

/// What one table said, and what is left of it.
#[derive(Drop)]
pub struct Told<D> {
    /// What was asked, and each reply: the line, what it tells besides, and the status.
    pub said: Vec<u8>,
    /// How many positions are known.
    pub known: u32,
    /// How many units are done.
    pub units: u32,
    /// What the audit says.
    pub is_right: bool,
    /// Its disk.
    pub disk: D,
}

/// Loads the game of this text into an empty table with this many pages in memory, does up to this many units of work, and asks on
/// the way and at the end.
pub fn told_of<F: Layout + Drop>(
    alloc: Global,
    text: &[u8],
    most: u32,
    pages: usize,
) -> anyhow::Result<Told<F::Device>>
where
    F::Device: Drop,
{
    let mut said = Vec::new(alloc);
    let loaded = loaded::<F>(alloc, text, pages)?;
    let worked = worked(alloc, loaded, &mut said, 0, most, pages)?;
    told_at_end(alloc, worked, said)
}

/// A table that has come to where it would be opened for the first time.
#[derive(Drop)]
pub struct Started<D> {
    pub disk: D,
    /// What was asked so far, and each reply.
    pub said: Vec<u8>,
    /// How many units are done.
    pub units: u32,
}

/// Creates the table and loads the game, up to where the table would be opened for the first time.
pub fn begun_in<F: Layout + Drop>(
    alloc: Global,
    text: &[u8],
    most: u32,
) -> anyhow::Result<Started<F::Device>>
where
    F::Device: Drop,
{
    let mut said = Vec::new(alloc);
    let mut solver = loaded::<F>(alloc, text, MOST_CACHED)?;
    some_steps(alloc, &mut solver, &mut said, 0, most)?;
    let units = units_of(solver.status());
    let disk = solver.close();
    Ok(Started { disk, said, units })
}

/// The rest of it, on this disk.
pub fn ended_in<F: Layout + Drop>(
    alloc: Global,
    disk: F::Device,
    said: Vec<u8>,
    most: u32,
) -> anyhow::Result<Told<F::Device>>
where
    F::Device: Drop,
{
    let mut said = said;
    let mut solver = opened::<F>(alloc, disk, MOST_CACHED)?;
    if !is_done(solver.status(), most) {
        solver = worked(alloc, solver, &mut said, COMMANDS as u32, most, MOST_CACHED)?;
    }
    told_at_end(alloc, solver, said)
}

/// What the table on this disk says of all that can be asked at the end.
pub fn asked_in<F: Layout + Drop>(alloc: Global, disk: F::Device) -> anyhow::Result<Told<F::Device>>
where
    F::Device: Drop,
{
    let solver = opened::<F>(alloc, disk, MOST_CACHED)?;
    told_at_end(alloc, solver, Vec::new(alloc))
}

/// A new table with the game of this text and this many pages in memory.
fn loaded<F: Layout + Drop>(
    alloc: Global,
    text: &[u8],
    pages: usize,
) -> anyhow::Result<FileSolver<F>>
where
    F::Device: Drop,
{
    let mut solver = begun::<F>(alloc, pages)?;
    solver.load(text, None)?;
    Ok(solver)
}

/// Does up to this many units of work, from this command on, and asks on the way. The table is stopped and opened now and then.
fn worked<F: Layout + Drop>(
    alloc: Global,
    mut solver: FileSolver<F>,
    said: &mut Vec<u8>,
    from: u32,
    most: u32,
    pages: usize,
) -> anyhow::Result<FileSolver<F>>
where
    F::Device: Drop,
{
    for first in (from..most).step_by(COMMANDS) {
        some_steps(alloc, &mut solver, said, first, most)?;
        solver = opened(alloc, F::stopped(alloc, solver.close())?, pages)?;
        if is_done(solver.status(), most) {
            break;
        }
    }
    Ok(solver)
}

/// Asks all that can be asked, and closes the table.
fn told_at_end<F: Layout + Drop>(
    alloc: Global,
    mut solver: FileSolver<F>,
    mut said: Vec<u8>,
) -> anyhow::Result<Told<F::Device>>
where
    F::Device: Drop,
{
    let known = known_of(solver.status());
    let units = units_of(solver.status());
    ask_all(alloc, &mut solver, &mut said, known)?;
    let is_right = solver.audit()? == Verdict::Right;
    let disk = solver.close();
    Ok(Told {
        said,
        known,
        units,
        is_right,
        disk,
    })
}

/// An empty table with this many pages in memory.
fn begun<F: Layout>(alloc: Global, pages: usize) -> anyhow::Result<FileSolver<F>>
where
    F::Device: Drop,
{
    match FileSolver::<F>::create(alloc, F::new_disk(alloc)?) {
        Ok(solver) if pages == MOST_CACHED => Ok(solver),
        Ok(solver) => opened(alloc, solver.close(), pages),
        Err(refused) => Err(refused.fault.into()),
    }
}

/// The table on this disk, with this many of its pages in memory.
fn opened<F: Layout>(alloc: Global, disk: F::Device, pages: usize) -> anyhow::Result<FileSolver<F>>
where
    F::Device: Drop,
{
    match FileSolver::<F>::open_with_cache(alloc, disk, pages.min(MOST_CACHED)) {
        Ok(solver) => Ok(solver),
        Err(refused) => Err(refused.fault.into()),
    }
}

/// As many commands as there are between two openings, from this one on, but no more once the table is finished or this many units are done.
/// After the first two a listing is begun, and after each later one it gives some rows.
fn some_steps<F: Layout>(
    alloc: Global,
    solver: &mut FileSolver<F>,
    said: &mut Vec<u8>,
    first: u32,
    most: u32,
) -> anyhow::Result<()> {
    if !first_steps(alloc, solver, said, first, most)? {
        return Ok(());
    }
    let mut rows = F::begin_rows(solver)?;
    let told = later_steps(alloc, solver, &mut rows, said, first, most);
    F::end_rows(solver, rows);
    told
}

/// The commands before the listing. Answers whether others come after them.
fn first_steps<F: Layout>(
    alloc: Global,
    solver: &mut FileSolver<F>,
    said: &mut Vec<u8>,
    first: u32,
    most: u32,
) -> anyhow::Result<bool> {
    for round in (first..most).take(BEFORE) {
        step(alloc, solver, said, round)?;
        if is_done(solver.status(), most) {
            return Ok(false);
        }
    }
    Ok(true)
}

/// The commands beside the listing, each with some rows after it.
fn later_steps<F: Layout>(
    alloc: Global,
    solver: &mut FileSolver<F>,
    rows: &mut F::Rows,
    said: &mut Vec<u8>,
    first: u32,
    most: u32,
) -> anyhow::Result<()> {
    for round in (first..most).take(COMMANDS).skip(BEFORE) {
        step(alloc, solver, said, round)?;
        put_rows(alloc, solver, rows, said, round)?;
        if is_done(solver.status(), most) {
            return Ok(());
        }
    }
    Ok(())
}

/// Some rows of the listing.
fn put_rows<F: Layout>(
    alloc: Global,
    solver: &mut FileSolver<F>,
    rows: &mut F::Rows,
    said: &mut Vec<u8>,
    round: u32,
) -> anyhow::Result<()> {
    let Some(count) = Units::new(ROWS[round as usize % 4]) else {
        return Ok(());
    };
    let next = F::next_rows(alloc, solver, rows, count)?;
    writeln!(said, "{} rows", next.len())?;
    said.write_all(&row_lines(alloc, solver.needs_game()?, &next)?)?;
    Ok(())
}

/// How many positions are known.
fn known_of(counts: Option<Counts>) -> u32 {
    match counts {
        Some(counts) => counts.known,
        None => 0,
    }
}

/// How many units are done.
fn units_of(counts: Option<Counts>) -> u32 {
    match counts {
        Some(counts) => counts.expanded.saturating_add(counts.processed),
        None => 0,
    }
}

/// Whether the table is finished, or this many units are done.
fn is_done(counts: Option<Counts>, most: u32) -> bool {
    match counts {
        Some(counts) => {
            counts.expanded == counts.known && counts.processed == counts.settled
                || counts.expanded.saturating_add(counts.processed) >= most
        }
        None => true,
    }
}

/// The next command, and a few questions after it.
fn step<F: Layout>(
    alloc: Global,
    solver: &mut FileSolver<F>,
    said: &mut Vec<u8>,
    round: u32,
) -> anyhow::Result<()> {
    if let Some(units) = Units::new(STEPS[round as usize % 4]) {
        ask(alloc, solver, said, Asked::Work(units))?;
    }
    let known = known_of(solver.status());
    for number in &[0, known / 3, known / 2, known.saturating_sub(1), known] {
        ask_number(alloc, solver, said, *number)?;
    }
    ask(alloc, solver, said, Asked::Status)
}

/// All questions about one number.
fn ask_number<F: Layout>(
    alloc: Global,
    solver: &mut FileSolver<F>,
    said: &mut Vec<u8>,
    number: u32,
) -> anyhow::Result<()> {
    for question in &[Question::Value(number), Question::Line(number)] {
        ask(alloc, solver, said, Asked::Question(*question))?;
    }
    let mut text = Vec::new(alloc);
    let show = Asked::Question(Question::Show(number));
    let status = put_answer(alloc, solver, show, &mut text, said, &mut Moments::new())?;
    said.write_all(&text)?;
    writeln!(said, "status {status}")?;
    match text.as_slice() {
        [text @ .., b'\n'] => ask(alloc, solver, said, Asked::Question(Question::Find(text))),
        _ => Ok(()),
    }
}

/// The values of all positions, and all questions about each seventeenth of them.
fn ask_all<F: Layout>(
    alloc: Global,
    solver: &mut FileSolver<F>,
    said: &mut Vec<u8>,
    known: u32,
) -> anyhow::Result<()> {
    let Some(rows) = Units::new(256) else {
        return Ok(());
    };
    for number in 0..known {
        if number % 256 == 0 {
            let list = Question::List(number, rows);
            ask(alloc, solver, said, Asked::Question(list))?;
        }
        if number % 17 == 0 {
            ask_number(alloc, solver, said, number)?;
        }
    }
    Ok(())
}

/// Asks this, and keeps what was asked and the reply.
fn ask<F: Layout>(
    alloc: Global,
    solver: &mut FileSolver<F>,
    said: &mut Vec<u8>,
    asked: Asked<'_>,
) -> anyhow::Result<()> {
    writeln!(said, "{asked:?}")?;
    let mut told = Vec::new(alloc);
    let status = put_answer(alloc, solver, asked, said, &mut told, &mut Moments::new())?;
    said.write_all(&told)?;
    writeln!(said, "status {status}")?;
    Ok(())
}
