//! The words of the commands on a table.

ghost use Rattle.std.specs.Prelude.{◌≡◌, IfOk, pos};
ghost use Rattle.clap.specs.declared.builder.value_parser.ValueParser.TheVariants.{Signed};
ghost use Rattle.command_line.specs.Commands.{HasApp, HasRule, leaf};
ghost use Rattle.command_line.specs.Words.{about_word, file_word, goal_word, pages_word, quiet_word, reserve_word};
ghost use Rattle.command_line.specs.Words.{shape_in};
ghost use Rattle.command_line.specs.Words.{audit, certify, create, game, grow, load, look, migrate, session};

use crate::words::{free_word, game_word, named, required_word};
use clap::builder::ValueParser;
use clap::{Arg, ArgAction, Command};
use line_syntax::help::LINES;
use rbg_game::limits::MAX_POINTS;
use std::alloc::{AllocError, Global};

const CREATE_ABOUT: &str = "Makes an empty table in a file";

const CREATE_LONG_ABOUT: &str = concat!(
    "Makes an empty table in a file, and prints `created`.\n",
    "\n",
    "FILE gets the length of N pages. Of what was in it, the first 2,048 bytes are written over at once, the ",
    "others only as the table grows, and all behind the new length is lost: standard error says so before. A file that ",
    "begins as each table does is not touched: that is answered by `refused E3`.\n",
    "\n",
    "Without `--reserve` the device gives room for a page when it is written first, so that a full device is met while ",
    "the table is worked on (E1); with it, before the table is made.",
);

const LOAD_ABOUT: &str = "Loads a game into an empty table";

const LOAD_LONG_ABOUT: &str = concat!(
    "Loads the game of a text into an empty table, and prints `loaded`.\n",
    "\n",
    "The table then knows the start of the game. `session` solves it. A table of an earlier layout is not opened: ",
    "that is answered by `refused E5`, and `migrate` brings it into today's.\n",
    "\n",
    "Without a goal the player has won who has more points at the end of play. With `--goal K` it is the one who has ",
    "K points or more while the other has fewer than K: if both have so many, or neither, nobody has won. The table ",
    "keeps its goal.",
);

const SESSION_ABOUT: &str = "Works on a table and asks it, by commands on standard input";

const SESSION_LONG_ABOUT: &str = concat!(
    "Works on a table and asks it, by commands, one a line, on standard input, with the reply to each on standard ",
    "output. When a reply is there, what it says is on the disk. What a refusal means is said on standard error.\n",
    "\n",
    "Positions are numbered from 0, the start, in the order in which they came to be known. A unit of work looks ",
    "at one position: finds where its moves lead, or, once that is done for all, tells its predecessors who wins ",
    "it. A table is finished when nothing is left to do. A table that may be read and not written can be asked.\n",
    "\n",
    "A table of an earlier layout is not opened: that is answered by `refused E5`, and `migrate` brings it into today's.",
);

const LOOK_ABOUT: &str = "Asks a table, by questions on standard input, and writes nothing to it";

const LOOK_LONG_ABOUT: &str = concat!(
    "Asks a table, by questions, one a line, on standard input, with the answer to each on standard output. It writes ",
    "nothing to the table. Many may look at once, beside audits, but none while a run works on the table.\n",
    "\n",
    "`moves N` prints the moves of position N, the best first for who has the turn: those by which he wins, by the ",
    "fewest moves, then the drawn, the open, and those by which he loses, by the most moves. A line is NUMBER VALUE ",
    "MOVE => POSITION: the number and the value of the position that the move leads to, what the move does, and that ",
    "position. A position that is not known yet has `?` for its number, and is `open`. `ended` says that there is no move.",
);

const AUDIT_ABOUT: &str = "Says whether a table is right, whoever made it";

const AUDIT_LONG_ABOUT: &str = concat!(
    "Says whether a table is right, whoever made it. Each number is compared with the game and with the numbers ",
    "beside it, by seven conditions, A1 to A7.\n",
    "\n",
    "It prints `audit right finished`, or `audit right open` where work is left: then the named player wins each ",
    "settled position in exactly the named number of moves, and of a finished table the positions are all that ",
    "play can reach and the unsettled ones are drawn. Or it prints `audit wrong N REASON` with the lowest number ",
    "that fails and its lowest condition, and ends with status 1.\n",
    "\n",
    "With `--game GAME` the table has to be about the text of GAME, byte for byte. One that is about another text is ",
    "not audited: that is answered by `audit wrong game`, with status 1.",
);

const GAME_ABOUT: &str = "Prints the text of the game of a table";

const GAME_LONG_ABOUT: &str = concat!(
    "Prints the text of the game of a table, byte for byte as it was loaded, and nothing behind it.\n",
    "\n",
    "A table in which no game is loaded is answered by `refused S1`. The table is asked, and not changed.",
);

const MIGRATE_ABOUT: &str = "Brings a table of an earlier layout into today's";

const MIGRATE_LONG_ABOUT: &str = concat!(
    "Brings a table of an earlier layout into today's, and prints `migrated`; or `current` where it has today's already.\n",
    "\n",
    "The game, the numbers of the positions and all that is known of them stay, and so does the number of pages. What ",
    "stops it loses nothing: the file has the table in the one layout or in the other, so give the command again. A ",
    "table of layout 1 is copied within the file. If there is no room for that, it is answered by `refused E7`, and the ",
    "table stays as it was.",
);

const GROW_ABOUT: &str = "Gives a table more pages";

const GROW_LONG_ABOUT: &str = concat!(
    "Gives a table more pages, by which it keeps all that is in it, and prints `grown`.\n",
    "\n",
    "A table in which no page is free answers `refused E7` to work. N is how many pages it has then, more than it has ",
    "now: else that is answered by `refused E6`. The file gets longer where it is too short. If the power fails meanwhile, the ",
    "table has as many pages as before or N, and nothing in it is lost. With `--reserve` the device gives room for all ",
    "of them first.",
);

const CERTIFY_ABOUT: &str = "Writes the certificate of a value, which shows it without the table";

const CERTIFY_LONG_ABOUT: &str = concat!(
    "Writes the certificate of the value of a position on standard output: a text which shows that value without the table.\n",
    "\n",
    "NUMBER is the position, 0, the start, if it is left out. The certificate has the game's text, the position, its value, and those ",
    "positions of the table that show it; standard error says how many. `check` says whether a certificate shows its value. A value that ",
    "is open is answered by `refused S8`. The table is asked, and not changed.",
);

/// The command `create`, as words spell it.
pub fn create_command<'a>(alloc: Global) -> Result<Command<'a>, AllocError>
    ensures { IfOk result (HasApp (leaf (shape_in create))) }
{
    named(alloc, "create", CREATE_ABOUT, CREATE_LONG_ABOUT)
        .arg(file_word(alloc))?
        .arg(pages_word(alloc))?
        .arg(reserve_word(alloc))
}

/// The command `load`, as words spell it.
pub fn load_command<'a>(alloc: Global) -> Result<Command<'a>, AllocError>
    ensures { IfOk result (HasApp (leaf (shape_in load))) }
{
    named(alloc, "load", LOAD_ABOUT, LOAD_LONG_ABOUT)
        .arg(file_word(alloc))?
        .arg(game_word(alloc))?
        .arg(goal_word(alloc))
}

/// The command `session`, as words spell it.
pub fn session_command<'a>(alloc: Global) -> Result<Command<'a>, AllocError>
    ensures { IfOk result (HasApp (leaf (shape_in session))) }
{
    named(alloc, "session", SESSION_ABOUT, SESSION_LONG_ABOUT)
        .after_help(LINES)
        .arg(file_word(alloc))?
        .arg(quiet_word(alloc))
}

/// The command `look`, as words spell it.
pub fn look_command<'a>(alloc: Global) -> Result<Command<'a>, AllocError>
    ensures { IfOk result (HasApp (leaf (shape_in look))) }
{
    named(alloc, "look", LOOK_ABOUT, LOOK_LONG_ABOUT)
        .after_help(LINES)
        .arg(file_word(alloc))?
        .arg(quiet_word(alloc))
}

/// The command `audit`, as words spell it.
pub fn audit_command<'a>(alloc: Global) -> Result<Command<'a>, AllocError>
    ensures { IfOk result (HasApp (leaf (shape_in audit))) }
{
    named(alloc, "audit", AUDIT_ABOUT, AUDIT_LONG_ABOUT)
        .arg(file_word(alloc))?
        .arg(about_word(alloc))
}

/// The game that a table has to be about.
fn about_word<'a>(alloc: Global) -> Arg<'a>
    ensures { HasRule about_word result }
{
    free_word(
        alloc,
        "game",
        "The file with the text of the game that the table has to be about",
    )
    .long("game")
    .value_name("GAME")
}

/// The command `game`, as words spell it.
pub fn game_command<'a>(alloc: Global) -> Result<Command<'a>, AllocError>
    ensures { IfOk result (HasApp (leaf (shape_in game))) }
{
    named(alloc, "game", GAME_ABOUT, GAME_LONG_ABOUT).arg(file_word(alloc))
}

/// The command `migrate`, as words spell it.
pub fn migrate_command<'a>(alloc: Global) -> Result<Command<'a>, AllocError>
    ensures { IfOk result (HasApp (leaf (shape_in migrate))) }
{
    named(alloc, "migrate", MIGRATE_ABOUT, MIGRATE_LONG_ABOUT).arg(file_word(alloc))
}

/// The command `grow`, as words spell it.
pub fn grow_command<'a>(alloc: Global) -> Result<Command<'a>, AllocError>
    ensures { IfOk result (HasApp (leaf (shape_in grow))) }
{
    named(alloc, "grow", GROW_ABOUT, GROW_LONG_ABOUT)
        .arg(file_word(alloc))?
        .arg(pages_word(alloc))?
        .arg(reserve_word(alloc))
}

/// The command `certify`, as words spell it.
pub fn certify_command<'a>(alloc: Global) -> Result<Command<'a>, AllocError>
    ensures { IfOk result (HasApp (leaf (shape_in certify))) }
{
    named(alloc, "certify", CERTIFY_ABOUT, CERTIFY_LONG_ABOUT)
        .arg(file_word(alloc))?
        .arg(free_word(
            alloc,
            "NUMBER",
            "The number of the position, 0 if it is left out",
        ))
}

/// The word for the file of a table.
fn file_word<'a>(alloc: Global) -> Arg<'a>
    ensures { HasRule file_word result }
{
    required_word(alloc, "FILE", "The file with the table")
}

/// The word that leaves out the sentences on standard error.
fn reserve_word<'a>(alloc: Global) -> Arg<'a>
    ensures { HasRule reserve_word result }
{
    Arg::new(alloc, "reserve")
        .help("Writes zeros first, so that the device has room for all pages")
        .action(ArgAction::SetTrue)
        .long("reserve")
}

fn quiet_word<'a>(alloc: Global) -> Arg<'a>
    ensures { HasRule quiet_word result }
{
    Arg::new(alloc, "quiet")
        .help("Says nothing on standard error of what is refused")
        .action(ArgAction::SetTrue)
        .long("quiet")
}

/// How many pages a table has: what `page_counts::pages_of` takes, which is asked once the words are parsed.
fn pages_word<'a>(alloc: Global) -> Arg<'a>
    ensures { HasRule pages_word result }
{
    required_word(
        alloc,
        "pages",
        "How many pages of 4,096 bytes the table has: 16 to 1,048,576; or how many bytes, as 64M",
    )
    .long("pages")
    .value_name("N")
}

/// How many points a player needs, a number of the type `u32` within bounds: what `value_parser!(u32).range(1..=1_000_000)` gives, said at
/// once, since a range takes long to prove.
fn goal_word<'a>(alloc: Global) -> Arg<'a>
    ensures { HasRule goal_word result }
{
    let help = "How many points win the game, 1 to 1,000,000: who has them while the other has not";
    free_word(alloc, "goal", help)
        .long("goal")
        .value_name("K")
        .value_parser(goals())
}

/// The bounds of a goal.
fn goals<'a>() -> ValueParser<'a>
    ensures { result ≡ Signed (pos 1) (pos 1000000) }
{
    ValueParser::signed(1, i64::from(MAX_POINTS))
}
