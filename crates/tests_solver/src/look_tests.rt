//! A table is looked at by the calls that `look` makes.

use crate::call_tests::{Said, command_says, expect_said, session_says, take};
use recover::TableFile;
use sector_disk::MemDisk;
use session::commands::FileCommand;
use session::line_by_line::look_over;
use session::moments::Moments;
use std::alloc::Global;
use std::test::Fail;
use test_aids::TAKE;

/// Sectors of the smallest disk that takes a table and a game.
const SECTORS: u64 = 8 * 24;

/// What is answered to these lines where this disk is only looked at; it gives the disk back.
fn look_says(alloc: Global, disk: MemDisk, lines: &str) -> (Said, MemDisk) {
    let mut out = Vec::new(alloc);
    let mut told = Vec::new(alloc);
    let mut input = lines.as_bytes();
    let (status, disk) = look_over::<TableFile<MemDisk>, _, _, _>(
        alloc,
        disk,
        &mut input,
        &mut out,
        &mut told,
        &mut Moments::new(),
    );
    ((status, out), disk)
}

/// A disk with a table of this game, worked on by this line.
fn worked(alloc: Global, game: &str, work: &str) -> Result<MemDisk, Fail> {
    let disk = MemDisk::new(alloc, SECTORS)?;
    let (made, disk) = command_says(alloc, disk, FileCommand::Create);
    expect_said(&made, 0, "created\n", 100)?;
    let mut text = Vec::new(alloc);
    text.extend_from_slice(game.as_bytes())?;
    let (loaded, disk) = command_says(alloc, disk, FileCommand::Load(text, None));
    expect_said(&loaded, 0, "loaded\n", 101)?;
    let (_done, disk) = session_says(alloc, disk, work);
    Ok(disk)
}

/// The game of takes with a heap of four.
const TAKE_FOUR: &str =
    "#players = white(1), black(1)  #pieces = e  #variables = heap(4)  #board = v[e]{}
#rules = [$heap=4] (
    ->white ([$heap=heap-1]+[$heap=heap-2]) [$white=1][$black=0]
    ->black ([$heap=heap-1]+[$heap=heap-2]) [$black=1][$white=0]
)*";

#[test]
fn the_moves_of_a_solved_table(rt: HostRuntime) -> Result<(), Fail> {
    let alloc = rt.alloc();
    let disk = worked(alloc, TAKE, "work 256\n")?;
    let lines = "moves 0\nmoves 1\nmoves 3\nmoves 4\nmoves 7\n";
    let (said, _disk) = look_says(alloc, disk, lines);
    let replies = concat!(
        "1 black in 2 1@v 2@v => white 2 v e 0,0,3\n",
        "2 black in 1 4@v 5@v 6@v 7@v => black 7 v e 1,0,1\n",
        "3 black in 1 3@v 5@v 6@v 7@v => black 7 v e 1,0,2\n",
        "4 black in 0 9@v 10@v 11@v 2@v => white 2 v e 0,1,0\n",
        "5 white in 1 8@v 10@v 11@v 2@v => white 2 v e 0,1,1\n",
        "ended\n",
        "refused S7\n",
    );
    expect_said(&said, 0, replies, 0)
}

#[test]
fn the_best_move_is_first(rt: HostRuntime) -> Result<(), Fail> {
    let alloc = rt.alloc();
    let disk = worked(alloc, TAKE_FOUR, "work 256\n")?;
    let (said, _disk) = look_says(alloc, disk, "moves 1\nmoves 3\n");
    let replies = concat!(
        "3 white in 2 3@v 5@v 6@v 7@v => black 7 v e 1,0,3\n",
        "2 black in 1 4@v 5@v 6@v 7@v => black 7 v e 1,0,2\n",
        "5 white in 1 9@v 10@v 11@v 2@v => white 2 v e 0,1,1\n",
        "6 white in 1 8@v 10@v 11@v 2@v => white 2 v e 0,1,2\n",
    );
    expect_said(&said, 0, replies, 0)
}

#[test]
fn a_position_that_is_not_known_has_no_number(rt: HostRuntime) -> Result<(), Fail> {
    let alloc = rt.alloc();
    let disk = worked(alloc, TAKE, "work 1\n")?;
    let (said, _disk) = look_says(alloc, disk, "moves 0\nmoves 1");
    let replies = concat!(
        "1 open 1@v 2@v => white 2 v e 0,0,3\n",
        "? open 4@v 5@v 6@v 7@v => black 7 v e 1,0,1\n",
        "? open 3@v 5@v 6@v 7@v => black 7 v e 1,0,2\n",
    );
    expect_said(&said, 0, replies, 0)
}

#[test]
fn a_look_asks_alone(rt: HostRuntime) -> Result<(), Fail> {
    let alloc = rt.alloc();
    let disk = worked(alloc, TAKE, "work 256\n")?;
    let lines = concat!(
        "value-of white 2 v e 0,0,3\nvalue-of white 02 v e 0,0,3\nvalue-of white 2 v e 0,0,2\nvalue-of\n",
        "work 1\nbegin\nmoves\nmoves 0 1\ngame 1\nvalue 0\nfind white 2 v e 0,0,3\n\nquit\nvalue 0\n",
    );
    let (said, disk) = look_says(alloc, disk, lines);
    let replies = concat!(
        "black in 2\nrefused S10\nrefused S7\nusage\n",
        "usage\nusage\nusage\nusage\nusage\nblack in 3\nnumber 1\n",
    );
    expect_said(&said, 0, replies, 0)?;
    let (game, disk) = look_says(alloc, disk, "game\n");
    expect_said(&game, 0, TAKE, 1)?;
    let (in_a_session, _disk) = session_says(alloc, disk, "game\n");
    expect_said(&in_a_session, 0, TAKE, 2)
}

#[test]
fn a_session_takes_the_lines_of_a_look(rt: HostRuntime) -> Result<(), Fail> {
    let alloc = rt.alloc();
    let disk = worked(alloc, TAKE, "work 7\n")?;
    let lines = concat!(
        "moves 0\nwork 256\nmoves 3\nmoves 4\nmoves 7\nmoves\nmoves 0 1\ngame 1\n",
        "value-of white 2 v e 0,0,3\nvalue-of x\nvalue-of\n",
    );
    let (said, _disk) = session_says(alloc, disk, lines);
    let replies = concat!(
        "1 open 1@v 2@v => white 2 v e 0,0,3\n",
        "units 7 known 7 expanded 7 settled 7 processed 7 finished\n",
        "4 black in 0 9@v 10@v 11@v 2@v => white 2 v e 0,1,0\n",
        "5 white in 1 8@v 10@v 11@v 2@v => white 2 v e 0,1,1\n",
        "ended\nrefused S7\nusage\nusage\nusage\n",
        "black in 2\nrefused S10\nusage\n",
    );
    expect_said(&said, 0, replies, 0)
}

#[test]
fn nothing_is_looked_at_where_no_game_is_loaded(rt: HostRuntime) -> Result<(), Fail> {
    let alloc = rt.alloc();
    let disk = MemDisk::new(alloc, SECTORS)?;
    let (none, disk) = look_says(alloc, disk, "status\n");
    expect_said(&none, 1, "refused E2\n", 0)?;
    let (made, disk) = command_says(alloc, disk, FileCommand::Create);
    expect_said(&made, 0, "created\n", 1)?;
    let (said, _disk) = look_says(alloc, disk, "status\nmoves 0\nvalue-of x\ngame\n");
    expect_said(&said, 0, "no game\nrefused S1\nrefused S1\nrefused S1\n", 2)
}

/// By hand: the system page, then the text, the start and its record; behind seven units four leaves, beside the two that the listing keeps.
#[test]
fn how_full_a_table_is(rt: HostRuntime) -> Result<(), Fail> {
    let alloc = rt.alloc();
    let disk = MemDisk::new(alloc, SECTORS)?;
    let (made, disk) = command_says(alloc, disk, FileCommand::Create);
    expect_said(&made, 0, "created\n", 0)?;
    let (empty, disk) = look_says(alloc, disk, "pages\npages 1\n");
    expect_said(&empty, 0, "pages 24 used 1 free 23\nusage\n", 1)?;
    let (loaded, disk) = command_says(alloc, disk, take(alloc)?);
    expect_said(&loaded, 0, "loaded\n", 2)?;
    let lines = "pages\nbegin\nwork 7\npages\nend\npages\nwork 256\npages\n";
    let (said, _disk) = session_says(alloc, disk, lines);
    let replies = concat!(
        "pages 24 used 4 free 20\nlisting\n",
        "units 7 known 7 expanded 7 settled 2 processed 0 open\n",
        "pages 24 used 8 free 16\nended\npages 24 used 6 free 18\n",
        "units 7 known 7 expanded 7 settled 7 processed 7 finished\n",
        "pages 24 used 6 free 18\n",
    );
    expect_said(&said, 0, replies, 3)
}
