//! A game worked to its end in tables with several goals, by hand.
use crate::games::{expect_audited, winner, works};
use game_table::Source;
use legal_moves::Goal;
use position_pack::PackingKind;
use rbg_game::roles::Player;
use std::alloc::Global;
use std::test::Fail;
use table::{MemTable, Table};
use test_aids::expect;

/// White takes one point or two, and black cannot move. Number 0 is the start, in 1 white has the turn, in 2 it has 1 point, in 3 it has 2.
const TAKEN: &str =
    "#players = white(2), black(2) #pieces = e #board = v[e]{} #rules = ->white ([$white=1]+[$white=2]) ->black {}";

/// What is settled of the four positions, and in how many units, in a table with this goal.
struct Row {
    goal: Option<u32>,
    units: u32,
    values: [(Option<Player>, u32); 4],
}

const WHITE: Option<Player> = Some(Player::First);

const ROWS: [Row; 4] = [
    Row {
        goal: None,
        units: 8,
        values: [(WHITE, 2), (WHITE, 1), (WHITE, 0), (WHITE, 0)],
    },
    Row {
        goal: Some(1),
        units: 8,
        values: [(WHITE, 2), (WHITE, 1), (WHITE, 0), (WHITE, 0)],
    },
    Row {
        goal: Some(2),
        units: 7,
        values: [(WHITE, 2), (WHITE, 1), (None, 0), (WHITE, 0)],
    },
    Row {
        goal: Some(3),
        units: 4,
        values: [(None, 0), (None, 0), (None, 0), (None, 0)],
    },
];

/// The game in a table with this goal.
fn source_with(alloc: Global, points: Option<u32>) -> Result<Source, Fail> {
    let goal = match points {
        Some(points) => Some(Goal::new(points).ok_or("no goal")?),
        None => None,
    };
    Ok(Source::read(alloc, TAKEN.as_bytes(), PackingKind::Bits, goal)?)
}

/// Expects of a table that was just loaded what the row has.
fn expect_worked<T: Table>(
    alloc: Global,
    source: &Source,
    table: &mut T,
    row: &Row,
) -> Result<(), Fail> {
    expect(
        works(alloc, source.moves(), table, u32::MAX)?,
        row.units,
        row.goal,
    )?;
    expect_audited(alloc, source.moves(), table)?;
    for (number, want) in (0..4).zip(row.values) {
        expect(winner(table, number)?, want, (row.goal, number))?;
    }
    Ok(())
}

#[test]
fn a_goal_decides_who_wins(rt: HostRuntime) -> Result<(), Fail> {
    for row in &ROWS {
        let source = source_with(rt.alloc(), row.goal)?;
        let mut table = MemTable::new(rt.alloc(), &source.start())?;
        expect_worked(rt.alloc(), &source, &mut table, row)?;
    }
    Ok(())
}
