//! What is changed in a table, one thing at a time.
use crate::audited_changes::parts::{Edge, Parts};
use rbg_game::roles::Player;
use retrograde::{Record, State};
use std::alloc::Global;

/// One change to a table.
#[derive(Clone, Copy, PartialEq, Eq, Debug, Drop)]
pub enum Change {
    Nothing,
    /// The record of a number.
    Record(u32, Record),
    /// An edge less, or more.
    Without(Edge),
    With(Edge),
    /// The number at a place of the order.
    Place(u32, u32),
}

/// The states of a record.
const STATES: [State; 4] = [
    State::Known,
    State::Expanded,
    State::Settled,
    State::Processed,
];

/// Who may win.
const WINNERS: [Option<Player>; 3] = [None, Some(Player::First), Some(Player::Second)];

/// Numbers from 0 to a few more than this one, and the greatest.
fn numbers_to(alloc: Global, most: u32) -> anyhow::Result<Vec<u32>> {
    let mut numbers = Vec::new(alloc);
    for number in 0..=most.saturating_add(2) {
        numbers.push(number)?;
    }
    numbers.push(u32::MAX)?;
    Ok(numbers)
}

/// A record with another state or another winner.
fn put_states(changes: &mut Vec<Change>, number: u32, kept: Record) -> anyhow::Result<()> {
    for state in STATES {
        changes.push(Change::Record(number, Record { state, ..kept }))?;
    }
    for winner in WINNERS {
        changes.push(Change::Record(number, Record { winner, ..kept }))?;
    }
    Ok(())
}

/// A record with another number in one of its fields.
fn put_counts(
    alloc: Global,
    changes: &mut Vec<Change>,
    number: u32,
    kept: Record,
) -> anyhow::Result<()> {
    for distance in &numbers_to(alloc, kept.distance)? {
        changes.push(Change::Record(
            number,
            Record {
                distance: *distance,
                ..kept
            },
        ))?;
    }
    for count in &numbers_to(alloc, kept.successors)? {
        changes.push(Change::Record(
            number,
            Record {
                left: *count,
                ..kept
            },
        ))?;
        changes.push(Change::Record(
            number,
            Record {
                successors: *count,
                ..kept
            },
        ))?;
    }
    Ok(())
}

/// An edge to a number from each other, there or not.
fn put_edges(changes: &mut Vec<Change>, parts: &Parts, to: u32, known: u32) -> anyhow::Result<()> {
    for from in 0..known {
        let edge = Edge { to, from };
        let change = if parts.edges.contains(&edge) {
            Change::Without(edge)
        } else {
            Change::With(edge)
        };
        changes.push(change)?;
    }
    Ok(())
}

/// Each number at a place of the order.
fn put_places(changes: &mut Vec<Change>, place: u32, known: u32) -> anyhow::Result<()> {
    for number in 0..known {
        changes.push(Change::Place(place, number))?;
    }
    Ok(())
}

/// All changes of these parts, and none at first. What is changed into what it was is not changed either.
pub fn changes_of(alloc: Global, parts: &Parts) -> anyhow::Result<Vec<Change>> {
    let mut changes = Vec::new(alloc);
    changes.push(Change::Nothing)?;
    let known = u32::try_from(parts.records.len())?;
    for (number, kept) in (0..known).zip(&parts.records) {
        put_states(&mut changes, number, *kept)?;
        put_counts(alloc, &mut changes, number, *kept)?;
        put_edges(&mut changes, parts, number, known)?;
    }
    for (place, _) in (0..known).zip(&parts.order) {
        put_places(&mut changes, place, known)?;
    }
    Ok(changes)
}

/// The edges with a change.
fn edges_with(alloc: Global, parts: &Parts, change: Change) -> anyhow::Result<Vec<Edge>> {
    let mut edges = Vec::new(alloc);
    for edge in &parts.edges {
        if change != Change::Without(*edge) {
            edges.push(*edge)?;
        }
    }
    if let Change::With(edge) = change {
        edges.push(edge)?;
    }
    Ok(edges)
}

/// The order with a change.
fn order_with(alloc: Global, parts: &Parts, change: Change) -> anyhow::Result<Vec<u32>> {
    let mut order = Vec::new(alloc);
    for (place, number) in (0..=u32::MAX).zip(&parts.order) {
        order.push(match change {
            Change::Place(at, other) if at == place => other,
            _ => *number,
        })?;
    }
    Ok(order)
}

/// The records with a change.
fn records_with(alloc: Global, parts: &Parts, change: Change) -> anyhow::Result<Vec<Record>> {
    let mut records = Vec::new(alloc);
    for (number, kept) in (0..=u32::MAX).zip(&parts.records) {
        records.push(match change {
            Change::Record(at, other) if at == number => other,
            _ => *kept,
        })?;
    }
    Ok(records)
}

/// These parts with a change.
pub fn changed(alloc: Global, parts: &Parts, change: Change) -> anyhow::Result<Parts> {
    let mut positions = Vec::new(alloc);
    for position in &parts.positions {
        positions.push(position.clone()?)?;
    }
    Ok(Parts {
        positions,
        records: records_with(alloc, parts, change)?,
        edges: edges_with(alloc, parts, change)?,
        order: order_with(alloc, parts, change)?,
    })
}
