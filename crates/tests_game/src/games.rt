//! Games made ready for their moves, with their tables.
use audit::{Verdict, audit};
use game_table::{MAX_POSITIONS, Source, StepFault, work};
use legal_moves::MoveSource;
use position_pack::PackingKind;
use rbg_game::roles::Player;
use retrograde::Record;
use std::alloc::Global;
use std::test::Fail;
use table::{MemTable, Table};
use test_aids::expect;

/// A game and its table in memory.
#[derive(Drop)]
pub struct Solving {
    pub source: Source,
    pub table: MemTable,
}

/// The game of a text, with its positions by bytes or by bits.
pub fn source_of(alloc: Global, text: &str, kind: PackingKind) -> Result<Source, Fail> {
    Ok(Source::read(alloc, text.as_bytes(), kind, None)?)
}

/// A game of white and black on one vertex, with these variables and rules.
pub fn small(alloc: Global, variables: &str, rules: &str) -> Result<String, Fail> {
    let text = format!(in alloc;
        "#players = white(1), black(1) #pieces = e #variables = {variables} #board = v[e]{{}} #rules = {rules}"
    )?;
    Ok(text)
}

/// The table of a game that was just loaded.
fn fresh(alloc: Global, source: &Source) -> Result<MemTable, Fail> {
    Ok(MemTable::new(alloc, &source.start())?)
}

/// A game that was just loaded, with its positions by bytes or by bits.
pub fn begun_by(alloc: Global, text: &str, kind: PackingKind) -> Result<Solving, Fail> {
    let source = source_of(alloc, text, kind)?;
    let table = fresh(alloc, &source)?;
    Ok(Solving { source, table })
}

/// How many units of this many were done.
pub fn works<M: MoveSource, T: Table>(
    alloc: Global,
    source: &M,
    table: &mut T,
    units: u32,
) -> Result<u32, StepFault>
    requires { M.is_sound source.now }
{
    if table.counts().known > MAX_POSITIONS {
        return Err(StepFault::TooManyPositions);
    }
    work(alloc, source, table, units)
}

/// Expects that the audit says that a table is right.
pub fn expect_audited<M: MoveSource, T: Table>(
    alloc: Global,
    source: &M,
    table: &mut T,
) -> Result<(), Fail>
    requires { M.is_sound source.now }
{
    expect(audit(alloc, source, table)?, Verdict::Right, "the audit")
}

/// The record of a number.
fn record_of<T: Table>(table: &mut T, number: u32) -> Result<Record, Fail> {
    if number >= table.counts().known {
        return Err("the number is not known".into());
    }
    Ok(table.record(number)?)
}

/// Who wins a number, and in how many moves.
pub fn winner<T: Table>(table: &mut T, number: u32) -> Result<(Option<Player>, u32), Fail> {
    let kept = record_of(table, number)?;
    Ok((kept.winner, kept.distance))
}
