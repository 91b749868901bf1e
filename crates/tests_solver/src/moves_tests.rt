//! The moves of positions that are named by their texts.

use crate::call_tests::{expect_said, spelled};
use command_line::words::{Words, words_of};
use session::moves::moves_at;
use session::moves_by_line::moves_by_line;
use session::rulebook::Rulebook;
use std::alloc::Global;
use std::test::Fail;
use test_aids::{TAKE, expect};

/// What is answered to these lines, of the game of takes.
fn lines_say(alloc: Global, lines: &str) -> Result<(u8, Vec<u8>), Fail> {
    let mut out = Vec::new(alloc);
    let mut input = lines.as_bytes();
    let status = match Rulebook::read(alloc, TAKE.as_bytes()) {
        Ok(book) => moves_by_line(alloc, &book, &mut input, &mut out),
        Err(refused) => refused.status(),
    };
    Ok((status, out))
}

/// A failure if something else is printed of the position of the game than these lines, or the status is another.
fn expect_moves(
    alloc: Global,
    game: &str,
    position: &str,
    status: u8,
    lines: &str,
) -> Result<(), Fail> {
    let mut out = Vec::new(alloc);
    let found = moves_at(alloc, game.as_bytes(), position.as_bytes(), &mut out);
    expect_said(&(found, out), status, lines, 0)
}

const WHITE_FROM_3: &str = concat!(
    "4@v 5@v 6@v 7@v => black 7 v e 1,0,1\n",
    "3@v 5@v 6@v 7@v => black 7 v e 1,0,2\n",
);

#[test]
fn the_moves_of_a_position_are_printed(rt: HostRuntime) -> Result<(), Fail> {
    let alloc = rt.alloc();
    expect_moves(
        alloc,
        TAKE,
        ">> 0 v e 0,0,0",
        0,
        "1@v 2@v => white 2 v e 0,0,3\n",
    )?;
    expect_moves(alloc, TAKE, "white 2 v e 0,0,3", 0, WHITE_FROM_3)?;
    expect_moves(alloc, TAKE, "white 2 v e 0,0,0", 0, "ended\n")
}

#[test]
fn what_is_no_position_is_refused(rt: HostRuntime) -> Result<(), Fail> {
    let alloc = rt.alloc();
    for text in [
        "",
        "white 2 v e 0,0,4",
        "white 2 v e 0,0,3 ",
        "white 02 v e 0,0,3",
        "red 2 v e 0,0,3",
    ] {
        expect_moves(alloc, TAKE, text, 1, "refused S10\n")?;
    }
    expect_moves(alloc, "#rules", "white 2 v e 0,0,3", 1, "refused G1\n")
}

#[test]
fn positions_are_answered_line_by_line(rt: HostRuntime) -> Result<(), Fail> {
    let alloc = rt.alloc();
    let said = lines_say(
        alloc,
        "white 2 v e 0,0,0\n\nwhite 2 v e 0,0,0\r\nwhite 2 v e 0,0,0",
    )?;
    expect_said(&said, 0, "ended\n\nrefused S10\n\nended\n\nended\n\n", 0)?;
    expect_said(&lines_say(alloc, "")?, 0, "", 1)
}

/// Whether these words ask for the moves of the position with this text.
fn ask_for(alloc: Global, words: &[&str], position: &str) -> Result<bool, Fail> {
    let Ok(asked) = words_of(alloc, &spelled(alloc, words)?) else {
        return Ok(false);
    };
    match asked {
        Words::Moves { game: _, at } => Ok(at.as_deref() == Some(position)),
        _ => Ok(false),
    }
}

#[test]
fn words_name_a_position(rt: HostRuntime) -> Result<(), Fail> {
    let alloc = rt.alloc();
    let named = ["rbgsolve", "moves", "a.rbg", "--at", ">> 0 v e 0,0,0"];
    expect(ask_for(alloc, &named, ">> 0 v e 0,0,0")?, true, 0)?;
    let read = ["rbgsolve", "moves", "--at", "-", "a.rbg"];
    expect(ask_for(alloc, &read, "-")?, true, 1)?;
    expect(
        ask_for(alloc, &["rbgsolve", "moves", "a.rbg"], "")?,
        false,
        2,
    )
}
