//! The small game of `witness`: its table is brought from the layout before today's by migrations that are stopped, and
//! a listing of it is printed beside work.

use best_line::Value;
use rbg_game::roles::Player;
use std::alloc::Global;
use std::test::Fail;
use test_aids::expect;
use witness::{Stop, printed_of_the_small_game, value_after_stopped_migrations};

/// More disk calls than a migration of the small table makes.
const MOST_CALLS: u64 = 120;

/// White wins in two, whichever of its calls the first migration is stopped at, and the second one at this many, and
/// whatever is left.
fn white_wins_in_two(alloc: Global, second: u64) -> Result<(), Fail> {
    for calls in 0..MOST_CALLS {
        for pick in 0..4 {
            let first = Stop { calls, pick };
            let second = Stop {
                calls: second,
                pick,
            };
            match value_after_stopped_migrations(alloc, first, second) {
                Ok(value) => expect(value, Value::Won(Player::First, 2), (calls, pick))?,
                Err(back) => return Err(back.fault.into()),
            }
        }
    }
    Ok(())
}

#[test]
fn a_migration_is_stopped_and_begun_again(rt: HostRuntime) -> Result<(), Fail> {
    white_wins_in_two(rt.alloc(), MOST_CALLS)
}

#[test]
fn a_second_migration_is_stopped_before_it_writes(rt: HostRuntime) -> Result<(), Fail> {
    white_wins_in_two(rt.alloc(), 1)
}

#[test]
fn a_listing_is_printed_as_it_began(rt: HostRuntime) -> Result<(), Fail> {
    match printed_of_the_small_game(rt.alloc()) {
        Some(text) => expect(text.as_slice(), b"0 open\ndone\n".as_slice(), "next"),
        None => Err("a line is refused".into()),
    }
}
