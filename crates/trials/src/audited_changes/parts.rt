//! The parts of a table as lists, and the moves of its positions.
use game_table::{MAX_POSITIONS, Source};
use legal_moves::MoveSource;
use position_pack::Packed;
use rbg_game::roles::{Player, Role};
use retrograde::Record;
use std::alloc::Global;
use table::{MemTable, Table};

/// An edge: a move leads to the one number from the other.
#[derive(Clone, Copy, PartialEq, Eq, Debug, Drop)]
pub struct Edge {
    pub to: u32,
    pub from: u32,
}

/// What a table stores.
#[derive(Drop)]
pub struct Parts {
    pub positions: Vec<Packed>,
    pub records: Vec<Record>,
    pub edges: Vec<Edge>,
    pub order: Vec<u32>,
}

/// What the game says of a number: whose turn it is, who is ahead, and where moves lead; a position that has no number is none that is
/// known.
#[derive(Drop)]
pub struct Place {
    pub mover: Role,
    pub ahead: Option<Player>,
    pub successors: Vec<Option<u32>>,
}

impl Parts {
    /// The record of a number, if it is known.
    pub fn record(&self, number: u32) -> Option<Record> {
        self.records.get(number as usize).copied()
    }
}

/// The edges to a number.
fn put_edges(table: &mut MemTable, to: u32, edges: &mut Vec<Edge>) -> anyhow::Result<()> {
    let mut after = None;
    for _ in 0..table.counts().known {
        let Some(from) = table.next_edge(to, after)? else {
            break;
        };
        edges.push(Edge { to, from })?;
        after = Some(from);
    }
    Ok(())
}

/// What is stored of a number.
fn put_number(table: &mut MemTable, number: u32, parts: &mut Parts) -> anyhow::Result<()> {
    if number < table.counts().known {
        parts.positions.push(table.packed(number)?)?;
        parts.records.push(table.record(number)?)?;
    }
    if number < table.counts().settled {
        parts.order.push(table.settled_at(number)?)?;
    }
    put_edges(table, number, &mut parts.edges)
}

/// The table of this game after this many units of work.
pub fn worked(alloc: Global, source: &Source, units: u32) -> anyhow::Result<Parts> {
    let mut table = MemTable::new(alloc, &source.start())?;
    if table.counts().known <= MAX_POSITIONS {
        game_table::work(alloc, source.moves(), &mut table, units)?;
    }
    let mut parts = Parts {
        positions: Vec::new(alloc),
        records: Vec::new(alloc),
        edges: Vec::new(alloc),
        order: Vec::new(alloc),
    };
    for number in 0..table.counts().known {
        put_number(&mut table, number, &mut parts)?;
    }
    Ok(parts)
}

/// The number of a position in this list.
fn number_of(positions: &[Packed], position: &Packed) -> Option<u32> {
    let at = positions.iter().position(|other| other == position)?;
    u32::try_from(at).ok()
}

/// What the game says of one position of this list.
fn place_of(
    alloc: Global,
    source: &Source,
    positions: &[Packed],
    position: &Packed,
) -> anyhow::Result<Place> {
    let moves = source.moves();
    let mut successors = Vec::new(alloc);
    for successor in &moves.successors(alloc, position)? {
        successors.push(number_of(positions, successor))?;
    }
    Ok(Place {
        mover: moves.mover(position),
        ahead: moves.ahead(position),
        successors,
    })
}

/// What the game says of each position of this list.
pub fn places_of(
    alloc: Global,
    source: &Source,
    positions: &[Packed],
) -> anyhow::Result<Vec<Place>> {
    let mut places = Vec::new(alloc);
    for position in positions {
        places.push(place_of(alloc, source, positions, position)?)?;
    }
    Ok(places)
}
