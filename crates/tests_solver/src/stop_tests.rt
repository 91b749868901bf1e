//! The power stopped at each disk call of the sitting that loads the game and works on it. The calls are divided among several tests, since
//! one test has a minute at most.

use best_line::Value;
use rbg_game::roles::Player;
use std::alloc::Global;
use std::ops::Range;
use std::test::Fail;
use test_aids::expect;
use witness::value_after_a_stop;

/// The disk calls that open the empty table and load the game: four and 29. A page is eight calls, a commit five; no page is read, since each
/// was written before. To load takes three pages.
const LOADED: u64 = 33;

/// Those up to here work one unit too: 37, since to expand the start takes four pages.
const WORKED_ONE: u64 = 70;

/// Those up to here work two units more: 77, since to expand the position after the start takes seven pages, and the first end two.
const WORKED_THREE: u64 = 147;

/// More disk calls than the sitting makes. The five units that are left make 69 at most: to expand the other end takes two pages, and to
/// process the four settled ones at most two for each of the three edges that lead there.
const MOST_CALLS: u64 = 224;

/// White wins in two, whichever of these calls the power stops at, and whatever it leaves of what was not synced.
fn white_wins_in_two(alloc: Global, calls: Range<u64>) -> Result<(), Fail> {
    for call in calls {
        for pick in 0..8 {
            match value_after_a_stop(alloc, call, pick) {
                Ok(value) => expect(value, Value::Won(Player::First, 2), (call, pick))?,
                Err(back) => return Err(back.fault.into()),
            }
        }
    }
    Ok(())
}

#[test]
fn the_power_stops_while_the_game_is_loaded(rt: HostRuntime) -> Result<(), Fail> {
    white_wins_in_two(rt.alloc(), 0..LOADED)
}

#[test]
fn the_power_stops_while_one_unit_is_worked(rt: HostRuntime) -> Result<(), Fail> {
    white_wins_in_two(rt.alloc(), LOADED..WORKED_ONE)
}

#[test]
fn the_power_stops_early_while_two_units_are_worked(rt: HostRuntime) -> Result<(), Fail> {
    white_wins_in_two(rt.alloc(), WORKED_ONE..108)
}

#[test]
fn the_power_stops_late_while_two_units_are_worked(rt: HostRuntime) -> Result<(), Fail> {
    white_wins_in_two(rt.alloc(), 108..WORKED_THREE)
}

#[test]
fn the_power_stops_early_while_the_last_units_are_worked(rt: HostRuntime) -> Result<(), Fail> {
    white_wins_in_two(rt.alloc(), WORKED_THREE..186)
}

#[test]
fn the_power_stops_late_while_the_last_units_are_worked(rt: HostRuntime) -> Result<(), Fail> {
    white_wins_in_two(rt.alloc(), 186..MOST_CALLS)
}
