//! Tables in memory, worked to their end, against the plain solver.
use crate::game_texts::{FORK, HEXAPAWN, NIM, SMALL};
use crate::games::{Solving, begun_by, expect_audited, small, winner, works};
use crate::plain::{Node, Outcome, solve};
use game_table::Source;
use position_pack::{Packed, PackingKind};
use std::alloc::Global;
use std::test::Fail;
use table::Table;
use test_aids::{TAKE, expect};

fn number_of<T: Table>(table: &mut T, packed: &Packed) -> Result<Option<u32>, Fail> {
    Ok(table.number_of(packed)?)
}

/// What a table has of a position, if it is there.
fn kept<T: Table>(table: &mut T, packed: &Packed) -> Result<Option<Outcome>, Fail> {
    match number_of(table, packed)? {
        Some(number) => Ok(Some(winner(table, number)?)),
        None => Ok(None),
    }
}

/// Whether a table has these positions with these outcomes, and no others.
fn has_all<T: Table>(table: &mut T, nodes: &[Node]) -> Result<bool, Fail> {
    for node in nodes {
        if kept(table, &node.packed)? != Some(node.outcome) {
            return Ok(false);
        }
    }
    Ok(table.counts().known as usize == nodes.len())
}

/// What the plain solver finds of a game.
fn plain(alloc: Global, source: &Source) -> Result<Vec<Node>, Fail> {
    solve(alloc, source.moves())
}

/// Whether the table of a game, once it is worked to its end, has the positions and the values that the plain solver finds.
fn is_solved<T: Table>(alloc: Global, source: &Source, table: &mut T) -> Result<bool, Fail> {
    works(alloc, source.moves(), table, u32::MAX)?;
    expect_audited(alloc, source.moves(), table)?;
    let nodes = plain(alloc, source)?;
    has_all(table, &nodes)
}

/// Whether it has them by this packing.
fn agrees_by(alloc: Global, text: &str, kind: PackingKind) -> Result<bool, Fail> {
    let Solving { source, mut table } = begun_by(alloc, text, kind)?;
    is_solved(alloc, &source, &mut table)
}

/// Whether it has them by either packing.
fn agrees(alloc: Global, text: &str) -> Result<bool, Fail> {
    Ok(agrees_by(alloc, text, PackingKind::Bytes)? && agrees_by(alloc, text, PackingKind::Bits)?)
}

/// Expects of each of these small games that its table agrees with the plain solver.
fn expect_small(alloc: Global, games: &[(&str, &str)]) -> Result<(), Fail> {
    for (variables, rules) in games {
        let text = small(alloc, variables, rules)?;
        expect(agrees(alloc, text.as_str())?, true, rules)?;
    }
    Ok(())
}

#[test]
fn small_games_have_the_values_of_the_definition(rt: HostRuntime) -> Result<(), Fail> {
    expect_small(rt.alloc(), &SMALL)
}

#[test]
fn sample_games_have_the_values_of_the_definition(rt: HostRuntime) -> Result<(), Fail> {
    for text in [TAKE, FORK, NIM, HEXAPAWN] {
        expect(agrees(rt.alloc(), text)?, true, text)?;
    }
    Ok(())
}
