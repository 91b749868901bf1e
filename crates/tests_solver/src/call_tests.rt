//! A table is made, loaded, worked, asked and audited by the calls that the program makes.

use command_line::words::{Words, words_of};
use rbg_game::goal::Goal;
use recover::TableFile;
use sector_disk::MemDisk;
use session::commands::{FileCommand, command_on};
use session::line_by_line::session_over;
use session::moments::Moments;
use session::moves::moves_to;
use std::alloc::Global;
use std::test::Fail;
use test_aids::{TAKE, expect};

/// Sectors of the smallest disk that takes a table and a game.
const SECTORS: u64 = 8 * 24;

/// What is printed, with the exit status.
pub type Said = (u8, Vec<u8>);

/// What the command prints that is done on this disk; it gives the disk back.
pub fn command_says(alloc: Global, disk: MemDisk, command: FileCommand) -> (Said, MemDisk) {
    let mut out = Vec::new(alloc);
    let (outcome, disk) = command_on::<TableFile<MemDisk>, _>(
        alloc,
        disk,
        command,
        &mut out,
        &mut Moments::new(),
    );
    ((outcome.status, out), disk)
}

/// What a session over this disk answers to these lines; it gives the disk back.
pub fn session_says(alloc: Global, disk: MemDisk, lines: &str) -> (Said, MemDisk) {
    let mut out = Vec::new(alloc);
    let mut told = Vec::new(alloc);
    let mut input = lines.as_bytes();
    let (status, disk) = session_over::<TableFile<MemDisk>, _, _, _>(
        alloc,
        disk,
        &mut input,
        &mut out,
        &mut told,
        &mut Moments::new(),
    );
    ((status, out), disk)
}

/// A failure if something else is printed than these lines, or the status is another.
pub fn expect_said(said: &Said, status: u8, lines: &str, row: u32) -> Result<(), Fail> {
    let (found, out) = said;
    expect(*found, status, row)?;
    expect(out.as_slice() == lines.as_bytes(), true, row)
}

/// The game of takes, as the text of a load.
pub fn take(alloc: Global) -> Result<FileCommand, Fail> {
    let mut text = Vec::new(alloc);
    text.extend_from_slice(TAKE.as_bytes())?;
    Ok(FileCommand::Load(text, None))
}

#[test]
fn a_table_is_made_loaded_solved_and_audited(rt: HostRuntime) -> Result<(), Fail> {
    let alloc = rt.alloc();
    let disk = MemDisk::new(alloc, SECTORS)?;
    let (none, disk) = command_says(alloc, disk, FileCommand::Audit);
    expect_said(&none, 1, "refused E2\n", 0)?;
    let (made, disk) = command_says(alloc, disk, FileCommand::Create);
    expect_said(&made, 0, "created\n", 1)?;
    let (again, disk) = command_says(alloc, disk, FileCommand::Create);
    expect_said(&again, 1, "refused E3\n", 2)?;
    let (empty, disk) = command_says(alloc, disk, FileCommand::Audit);
    expect_said(&empty, 1, "refused S1\n", 3)?;
    let (loaded, disk) = command_says(alloc, disk, take(alloc)?);
    expect_said(&loaded, 0, "loaded\n", 4)?;
    let (twice, disk) = command_says(alloc, disk, take(alloc)?);
    expect_said(&twice, 1, "refused S2\n", 5)?;
    let (solved, disk) = session_says(alloc, disk, "work 256\nvalue 0\nnonsense\nquit\nvalue 1\n");
    let replies = "units 14 known 7 expanded 7 settled 7 processed 7 finished\nblack in 3\nusage\n";
    expect_said(&solved, 0, replies, 6)?;
    let (right, _disk) = command_says(alloc, disk, FileCommand::Audit);
    expect_said(&right, 0, "audit right finished\n", 7)
}

/// What a session answers to these lines over a new table of the game of takes.
fn take_says(alloc: Global, lines: &str) -> Result<Said, Fail> {
    let disk = MemDisk::new(alloc, SECTORS)?;
    let (made, disk) = command_says(alloc, disk, FileCommand::Create);
    expect_said(&made, 0, "created\n", 0)?;
    let (loaded, disk) = command_says(alloc, disk, take(alloc)?);
    expect_said(&loaded, 0, "loaded\n", 1)?;
    let (said, _disk) = session_says(alloc, disk, lines);
    Ok(said)
}

#[test]
fn a_listing_gives_the_rows_of_its_beginning(rt: HostRuntime) -> Result<(), Fail> {
    let alloc = rt.alloc();
    let lines = "work 7\nbegin\nnext 3\nwork 256\nnext 256\nnext 1\nvalue 0\nend\nend\n";
    let said = take_says(alloc, lines)?;
    let replies = concat!(
        "units 7 known 7 expanded 7 settled 2 processed 0 open\nlisting\n0 open\n1 open\n2 open\n",
        "units 7 known 7 expanded 7 settled 7 processed 7 finished\n",
        "3 open\n4 black in 0\n5 open\n6 white in 0\ndone\nblack in 3\nended\nusage\n",
    );
    expect_said(&said, 0, replies, 2)
}

#[test]
fn the_last_of_four_listings_is_asked(rt: HostRuntime) -> Result<(), Fail> {
    let alloc = rt.alloc();
    let lines =
        "begin\nbegin\nbegin\nbegin\nbegin\nnext 0\nnext 257\nnext 1\nnext 1\nend\nnext 1\nend\n";
    let said = take_says(alloc, lines)?;
    let replies = concat!(
        "listing\nlisting\nlisting\nlisting\nrefused S9\nusage\nusage\n",
        "0 open\ndone\nended\n0 open\nended\n",
    );
    expect_said(&said, 0, replies, 2)?;
    let again = take_says(alloc, "next 1\nend\nbegin\nend\nbegin\nquit\n")?;
    expect_said(&again, 0, "usage\nusage\nlisting\nended\nlisting\n", 3)
}

#[test]
fn no_listing_is_begun_where_no_game_is_loaded(rt: HostRuntime) -> Result<(), Fail> {
    let alloc = rt.alloc();
    let disk = MemDisk::new(alloc, SECTORS)?;
    let (made, disk) = command_says(alloc, disk, FileCommand::Create);
    expect_said(&made, 0, "created\n", 0)?;
    let (said, _disk) = session_says(alloc, disk, "begin\nnext 1\n");
    expect_said(&said, 0, "refused S1\nusage\n", 1)
}

/// The game of takes with spaces after its text, so that the text takes nine pages of 4,092 bytes.
fn long_take(alloc: Global) -> Result<FileCommand, Fail> {
    let mut text = Vec::new(alloc);
    text.extend_from_slice(TAKE.as_bytes())?;
    for _ in 0..35_000 {
        text.push(b' ')?;
    }
    Ok(FileCommand::Load(text, None))
}

/// What a session answers to these lines over a new table of 16 pages with that game.
fn long_take_says(alloc: Global, lines: &str) -> Result<Said, Fail> {
    let disk = MemDisk::new(alloc, 8 * 16)?;
    let (made, disk) = command_says(alloc, disk, FileCommand::Create);
    expect_said(&made, 0, "created\n", 0)?;
    let (loaded, disk) = command_says(alloc, disk, long_take(alloc)?);
    expect_said(&loaded, 0, "loaded\n", 1)?;
    let (said, _disk) = session_says(alloc, disk, lines);
    Ok(said)
}

/// The system page, nine pages of text, and the leaves of the positions and of the records are taken as the game is loaded. The first
/// seven units need four pages more, the leaves of the four trees, and then none is free while the listing keeps the first two leaves.
#[test]
fn a_listing_keeps_its_pages_until_it_is_ended(rt: HostRuntime) -> Result<(), Fail> {
    let alloc = rt.alloc();
    let half = "units 7 known 7 expanded 7 settled 2 processed 0 open\n";
    let done = "units 7 known 7 expanded 7 settled 7 processed 7 finished\n";
    let none = long_take_says(alloc, "work 7\nwork 7\n")?;
    let mut replies = String::from_str(alloc, half)?;
    replies.push_str(done)?;
    expect_said(&none, 0, replies.as_str(), 2)?;
    let lines = "begin\nwork 7\nwork 7\nnext 256\nnext 256\nend\nwork 7\n";
    let one = long_take_says(alloc, lines)?;
    let mut replies = String::from_str(alloc, "listing\n")?;
    replies.push_str(half)?;
    replies.push_str("refused E7\n0 open\ndone\nended\n")?;
    replies.push_str(done)?;
    expect_said(&one, 0, replies.as_str(), 3)
}

/// White takes one point or two, and then black has no move.
const POINTS: &str = "#players = white(2), black(2)  #pieces = e  #board = v[e]{}
#rules = ->white ([$white=1]+[$white=2]) ->black {}";

/// What a session answers to these lines over a new table of that game with this goal, if there is one.
fn points_say(alloc: Global, goal: Option<Goal>, lines: &str) -> Result<Said, Fail> {
    let disk = MemDisk::new(alloc, SECTORS)?;
    let (made, disk) = command_says(alloc, disk, FileCommand::Create);
    expect_said(&made, 0, "created\n", 0)?;
    let mut text = Vec::new(alloc);
    text.extend_from_slice(POINTS.as_bytes())?;
    let (loaded, disk) = command_says(alloc, disk, FileCommand::Load(text, goal));
    expect_said(&loaded, 0, "loaded\n", 1)?;
    let (said, _disk) = session_says(alloc, disk, lines);
    Ok(said)
}

#[test]
fn a_goal_says_who_has_won(rt: HostRuntime) -> Result<(), Fail> {
    let alloc = rt.alloc();
    let lines = "work 256\nvalue 2\nline 1\n";
    let none = points_say(alloc, None, lines)?;
    let replies =
        "units 8 known 4 expanded 4 settled 4 processed 4 finished\nwhite in 0\nline 1 2\n";
    expect_said(&none, 0, replies, 2)?;
    let two = points_say(alloc, Goal::new(2), lines)?;
    let replies = "units 7 known 4 expanded 4 settled 3 processed 3 finished\ndrawn\nline 1 3\n";
    expect_said(&two, 0, replies, 3)?;
    let three = points_say(alloc, Goal::new(3), "work 256\nvalue 0\n")?;
    let replies = "units 4 known 4 expanded 4 settled 0 processed 0 finished\ndrawn\n";
    expect_said(&three, 0, replies, 4)
}

#[test]
fn the_moves_of_a_start_are_printed(rt: HostRuntime) -> Result<(), Fail> {
    let alloc = rt.alloc();
    let mut out = Vec::new(alloc);
    let status = moves_to(alloc, TAKE.as_bytes(), &mut out);
    let lines = "1@v 2@v => white 2 v e 0,0,3\n";
    expect_said(&(status, out), 0, lines, 0)
}

/// These words, the first of which is the program's name.
pub fn spelled(alloc: Global, words: &[&str]) -> Result<Vec<String>, Fail> {
    let mut spelled = Vec::new(alloc);
    for word in words {
        spelled.push(String::from_str(alloc, word)?)?;
    }
    Ok(spelled)
}

/// The pages of the table that is to be made; 0 for every other command.
fn pages_in(words: &Words) -> u32 {
    match words {
        Words::Create { pages, .. } => *pages,
        _ => 0,
    }
}

/// The pages of the table that these words ask for, or the status that they end with.
fn pages_asked(alloc: Global, words: &[&str]) -> Result<Result<u32, u8>, Fail> {
    match words_of(alloc, &spelled(alloc, words)?) {
        Ok(asked) => Ok(Ok(pages_in(&asked))),
        Err(refusal) => Ok(Err(refusal.status)),
    }
}

#[test]
fn words_are_a_command_help_or_no_command(rt: HostRuntime) -> Result<(), Fail> {
    let alloc = rt.alloc();
    let create = ["rbgsolve", "create", "a.table", "--pages", "16"];
    expect(pages_asked(alloc, &create)?, Ok(16), 0)?;
    let audit = ["rbgsolve", "audit", "a.table"];
    expect(pages_asked(alloc, &audit)?, Ok(0), 1)?;
    expect(pages_asked(alloc, &["rbgsolve", "--help"])?, Err(0), 2)?;
    expect(pages_asked(alloc, &["rbgsolve", "make"])?, Err(2), 3)
}

#[test]
fn pages_are_a_number_or_bytes_with_a_unit(rt: HostRuntime) -> Result<(), Fail> {
    let alloc = rt.alloc();
    let rows = [
        ("1", Ok(1)),
        ("016", Ok(16)),
        ("1048576", Ok(1_048_576)),
        ("4K", Ok(1)),
        ("5000K", Ok(1_250)),
        ("64M", Ok(16_384)),
        ("4G", Ok(1_048_576)),
        ("0", Err(2)),
        ("1048577", Err(2)),
        ("3K", Err(2)),
        ("5G", Err(2)),
        ("9999999999G", Err(2)),
        ("00000000016", Err(2)),
        ("+16", Err(2)),
        ("16k", Err(2)),
        ("M", Err(2)),
        ("1.5G", Err(2)),
    ];
    for (row, (number, wanted)) in rows.iter().enumerate() {
        let create = ["rbgsolve", "create", "a.table", "--pages", *number];
        expect(pages_asked(alloc, &create)?, *wanted, row)?;
    }
    Ok(())
}

/// The points of the goal that the table is to get, or none.
fn points_in(words: &Words) -> Option<u32> {
    match words {
        Words::Load {
            goal: Some(goal),
            ..
        } => Some(goal.points()),
        _ => None,
    }
}

/// The points of the goal that is asked for with this after `--goal`, or the status that the words end with.
fn goal_asked(alloc: Global, number: &str) -> Result<Result<Option<u32>, u8>, Fail> {
    let words = ["rbgsolve", "load", "a.table", "a.rbg", "--goal", number];
    match words_of(alloc, &spelled(alloc, &words)?) {
        Ok(asked) => Ok(Ok(points_in(&asked))),
        Err(refusal) => Ok(Err(refusal.status)),
    }
}

#[test]
fn a_goal_is_a_number_within_its_bounds(rt: HostRuntime) -> Result<(), Fail> {
    let alloc = rt.alloc();
    expect(goal_asked(alloc, "1")?, Ok(Some(1)), 0)?;
    expect(goal_asked(alloc, "1000000")?, Ok(Some(1_000_000)), 1)?;
    for (row, number) in ["0", "1000001", "+1", "two", "00000000001"]
        .iter()
        .enumerate()
    {
        expect(goal_asked(alloc, number)?, Err(2), row)?;
    }
    let load = ["rbgsolve", "load", "a.table", "a.rbg"];
    let Ok(asked) = words_of(alloc, &spelled(alloc, &load)?) else {
        return Err("a load without a goal is no command".into());
    };
    expect(points_in(&asked), None, 7)
}
