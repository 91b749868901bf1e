//! A table with these parts in a file, and what the solver says of it.
use crate::audited_changes::parts::{Edge, Parts};
use audit::Verdict;
use game_file::GameFile;
use game_table::MAX_POSITIONS;
use page_store::PageStore;
use position_pack::{Packed, PackingKind};
use retrograde::Record;
use sector_disk::MemDisk;
use solver::{FileSolver, SolverFault};
use std::alloc::Global;
use table::Table;
use tree_file::TreeFile;

/// A table in a file on a disk in memory.
type File = TreeFile<PageStore<MemDisk>, 3>;

/// The sectors of a disk that holds a small table.
const SECTORS: u64 = 2048;

/// Adds a position that is not known.
fn add<T: Table>(table: &mut T, position: &Packed) -> anyhow::Result<()> {
    if table.counts().known >= MAX_POSITIONS || table.number_of(position)?.is_some() {
        anyhow::bail!("a position is known, or there is no room");
    }
    table.add(position)?;
    Ok(())
}

/// Writes a record.
fn keep(file: &mut File, number: u32, kept: Record) -> anyhow::Result<()> {
    if number >= file.counts().known {
        anyhow::bail!("a number is not known");
    }
    file.set_record(number, kept)?;
    Ok(())
}

/// Adds an edge.
fn connect(file: &mut File, edge: Edge) -> anyhow::Result<()> {
    let known = file.counts().known;
    if edge.to >= known || edge.from >= known {
        anyhow::bail!("a number is not known");
    }
    file.add_edge(edge.to, edge.from)?;
    Ok(())
}

/// Puts a number at the end of the order.
fn settle(file: &mut File, number: u32) -> anyhow::Result<()> {
    let counts = file.counts();
    if counts.settled >= counts.known {
        anyhow::bail!("the order is too long");
    }
    file.push_settled(number)?;
    Ok(())
}

/// The positions and their records.
fn put_records(file: &mut File, parts: &Parts) -> anyhow::Result<()> {
    for position in parts.positions.iter().skip(1) {
        add(file, position)?;
    }
    for (number, kept) in (0..=u32::MAX).zip(&parts.records) {
        keep(file, number, *kept)?;
    }
    Ok(())
}

/// The edges and the order.
fn put_edges(file: &mut File, parts: &Parts) -> anyhow::Result<()> {
    for edge in &parts.edges {
        connect(file, *edge)?;
    }
    for number in &parts.order {
        settle(file, *number)?;
    }
    Ok(())
}

/// A disk with the table of these parts, if they can be committed.
fn disk_of(alloc: Global, text: &[u8], parts: &Parts) -> anyhow::Result<Option<MemDisk>> {
    let mut file = match File::create(alloc, MemDisk::new(alloc, SECTORS)?) {
        Ok(file) => file,
        Err(refused) => return Err(refused.fault.into()),
    };
    let Some(start) = parts.positions.first() else {
        return Ok(None);
    };
    if text.len() > 65_536 {
        return Ok(None);
    }
    file.load(text, PackingKind::Bits, None, start)?;
    put_records(&mut file, parts)?;
    put_edges(&mut file, parts)?;
    match file.commit() {
        Ok(()) => Ok(Some(file.into_disk())),
        Err(game_file::FileFault::Inconsistent) => Ok(None),
        Err(fault) => Err(fault.into()),
    }
}

/// What the audit answers of the table on this disk, if the file is opened.
fn verdict_on<F: GameFile>(alloc: Global, disk: F::Device) -> anyhow::Result<Option<Verdict>>
where
    F::Device: Drop,
{
    match FileSolver::<F>::open(alloc, disk) {
        Ok(mut solver) => {
            let verdict = solver.audit();
            let _disk = solver.close();
            Ok(Some(verdict?))
        }
        Err(refused) if refused.fault == SolverFault::Damaged => Ok(None),
        Err(refused) => Err(refused.fault.into()),
    }
}

/// What the audit answers of these parts in a file, if the file is opened.
pub fn audited(alloc: Global, text: &[u8], parts: &Parts) -> anyhow::Result<Option<Verdict>> {
    match disk_of(alloc, text, parts)? {
        Some(disk) => verdict_on::<File>(alloc, disk),
        None => Ok(None),
    }
}
