//! The command line.
ghost use Rattle.std.specs.Prelude.{IfErr, IfOk, map, string_bytes};
ghost use Rattle.clap.specs.Values.{kind_of};
ghost use Rattle.clap.specs.Words.{App, Shape, new_app, subcommand_rows_of, with_subcommand};
ghost use Rattle.command_line.specs.Commands.{AskNothing, EndsAs, FailAs, HasApp, HasRule, leaf};
ghost use Rattle.command_line.specs.Statuses.{IsStatusOfWords};
ghost use Rattle.command_line.specs.Words.{AsksBy, Mean, alone_program, free, game_word, needed, program};

use crate::asked_words::asked_in;
use crate::game_words::{actions_command, check_command, moves_command};
use crate::table_words::{
    audit_command, certify_command, create_command, game_command, grow_command, load_command,
    look_command, migrate_command, session_command,
};
use clap::error::ErrorKind;
use clap::{Arg, ArgAction, ArgMatches, Command, Error};
use rbg_game::goal::Goal;
use std::alloc::{AllocError, Global};

/// What the words of a command line ask for.
#[derive(Drop)]
pub enum Words {
    /// The moves of the start of the game in this file, or of the position with this text; `-` is for those on standard input.
    Moves {
        game: String,
        at: Option<String>,
    },
    /// The numbered actions of the game in this file.
    Actions {
        game: String,
    },
    /// A new table of this many pages in this file, with room for all of them on the device or not.
    Create {
        file: String,
        pages: u32,
        is_reserved: bool,
    },
    /// Loads the game of a text, with this goal, if there is one, into the table of a file.
    Load {
        file: String,
        game: String,
        goal: Option<Goal>,
    },
    /// A session over the table of this file, with or without sentences on standard error.
    Session {
        file: String,
        is_quiet: bool,
    },
    /// Questions about the table of this file, with or without those sentences.
    Look {
        file: String,
        is_quiet: bool,
    },
    /// The text of the game in the table of this file.
    Game {
        file: String,
    },
    /// Whether the table of this file is right, and about the game in the other file, if one is given.
    Audit {
        file: String,
        game: Option<String>,
    },
    /// Brings the table of this file into today's layout.
    Migrate {
        file: String,
    },
    /// This many pages for the table of this file, more than it has, with room for all of them on the device or not.
    Grow {
        file: String,
        pages: u32,
        is_reserved: bool,
    },
    /// The certificate of the value of this position of the table of this file.
    Certify {
        file: String,
        number: u32,
    },
    /// Whether the certificate in this file shows its value, of the game in the other file, if one is given.
    Check {
        certificate: String,
        game: Option<String>,
    },
}

/// Why there is nothing to do: help was asked for, or the words are no command.
#[derive(Drop)]
pub struct Refusal {
    /// 0 for help and the version, 2 for words that are no command, 5 for want of memory.
    pub status: u8,
    /// What is printed: help and the version on standard output, else on standard error.
    pub text: String,
}

const VERSION: &str = "0.1.0";

const ABOUT: &str = "Solves small two-player board games exactly";

const LONG_ABOUT: &str = concat!(
    "Solves small two-player board games exactly.\n",
    "\n",
    "A game is a text in a profile of the low-level language of Regular Boardgames.",
);

const AFTER_HELP: &str = concat!(
    "Examples:\n",
    "  rbgsolve moves games/take.rbg\n",
    "    prints  1@v 2@v => white 2 v e 0,0,3\n",
    "  rbgsolve create take.table --pages 16\n",
    "  rbgsolve load take.table games/take.rbg\n",
    "  echo work 256 | rbgsolve session take.table\n",
    "    prints  units 14 known 7 expanded 7 settled 7 processed 7 finished\n",
    "  echo value 0 | rbgsolve session take.table\n",
    "    prints  black in 3\n",
    "\n",
    "A command that cannot be done is answered by `refused` and a code, which docs/REFUSALS.md lists.\n",
    "A run takes its table: while one works on it, others end with status 4. Audits and looks may run side by side.",
);

const NO_PAGES: &str =
    "`--pages` takes 1 to 1048576 pages of 4,096 bytes, or as many bytes with K, M or G behind the number, as 64M";

const NO_NUMBER: &str = "the number of a position is one to ten digits, at most 4294967295";

const NO_GOAL: &str = "the number behind `--goal` is one to ten digits";

const NO_WORD: &str = "a word is missing";

/// The command that the words ask for; the first word is the program's name.
pub fn words_of(alloc: Global, words: &[String]) -> Result<Words, Refusal>
    ensures ok { IfOk result (Mean (map string_bytes words.now)) }
    ensures err { IfErr result (λ refusal. IsStatusOfWords (map string_bytes words.now) refusal.status) }
{
    match parsed(alloc, words) {
        Ok(words) => Ok(words),
        Err(error) => Err(refusal_of(alloc, error)),
    }
}

/// What the words ask for.
fn parsed<'a>(alloc: Global, words: &'a [String]) -> Result<Words, Error>
    ensures ok { IfOk result (Mean (map string_bytes words.now)) }
    ensures err { IfErr result (λ error. FailAs (map string_bytes words.now) (kind_of error)) }
{
    let mut command: Command<'a> = command(alloc)?;
    match command.try_get_matches_from_mut(words) {
        Ok(matches) => asked_or_wrong(alloc, &mut command, &matches),
        Err(error) => Err(error),
    }
}

/// What the command that was given asks for, or what is wrong with its words.
fn asked_or_wrong(
    alloc: Global,
    command: &mut Command<'_>,
    matches: &ArgMatches<'_>,
) -> Result<Words, Error>
    ensures ok { IfOk result (AsksBy (subcommand_rows_of matches.now)) }
    ensures err { IfErr result (λ error. AskNothing (subcommand_rows_of matches.now) (kind_of error)) }
{
    match asked_in(alloc, matches)? {
        Some(asked) => Ok(asked),
        None => Err(command.error(ErrorKind::ValueValidation, why_none(matches))?),
    }
}

/// What is wrong with the words of a command that ask for nothing.
fn why_none(matches: &ArgMatches<'_>) -> &'static str {
    match matches.subcommand_name() {
        Some("create" | "grow") => NO_PAGES,
        Some("certify") => NO_NUMBER,
        Some("load") => NO_GOAL,
        _ => NO_WORD,
    }
}

/// The program's command.
fn command<'a>(alloc: Global) -> Result<Command<'a>, AllocError>
    ensures { IfOk result (HasApp program) }
{
    let command = with(whole_command(alloc), create_command(alloc))?;
    let command = with(command, load_command(alloc))?;
    let command = with(command, session_command(alloc))?;
    let command = with(command, look_command(alloc))?;
    let command = with(command, game_command(alloc))?;
    let command = with(command, audit_command(alloc))?;
    let command = with(command, migrate_command(alloc))?;
    let command = with(command, grow_command(alloc))?;
    let command = with(command, moves_command(alloc))?;
    let command = with(command, actions_command(alloc))?;
    let command = with(command, certify_command(alloc))?;
    with(command, check_command(alloc))
}

/// A command, and what help says of it, at the short and at length.
pub(crate) fn named<'a>(
    alloc: Global,
    name: &'a str,
    about: &'a str,
    long_about: &'a str,
) -> Command<'a>
    ensures { HasApp (new_app name.now) result }
{
    Command::new(alloc, name)
        .about(about)
        .long_about(long_about)
}

/// The program's command but for what can be done.
fn whole_command<'a>(alloc: Global) -> Command<'a>
    ensures { HasApp (leaf alone_program) result }
{
    named(alloc, "rbgsolve", ABOUT, LONG_ABOUT)
        .version(VERSION)
        .after_help(AFTER_HELP)
        .subcommand_required(true)
        .arg_required_else_help(true)
}

/// The command with one more thing that can be done.
fn with<'a>(
    command: Command<'a>,
    more: Result<Command<'a>, AllocError>,
) -> Result<Command<'a>, AllocError>
    ensures { (app : App) (shape : Shape) → HasApp app command.entry → IfOk more.entry (HasApp (leaf shape))
        → IfOk result (HasApp (with_subcommand app shape)) }
{
    command.subcommand(more?)
}

/// A word that has to be given, and what help says of it.
pub(crate) fn required_word<'a>(alloc: Global, id: &'a str, help: &'a str) -> Arg<'a>
    ensures { HasRule (needed id.now) result }
{
    Arg::new(alloc, id)
        .help(help)
        .required(true)
        .action(ArgAction::Set)
}

/// A word that may be left out, and what help says of it.
pub(crate) fn free_word<'a>(alloc: Global, id: &'a str, help: &'a str) -> Arg<'a>
    ensures { HasRule (free id.now) result }
{
    Arg::new(alloc, id).help(help).action(ArgAction::Set)
}

/// The word for the file of a game.
pub(crate) fn game_word<'a>(alloc: Global) -> Arg<'a>
    ensures { HasRule game_word result }
{
    required_word(alloc, "GAME", "The file with the game text")
}

/// The status and the text of an error.
fn refusal_of(alloc: Global, error: Error) -> Refusal
    ensures { EndsAs (kind_of error) result.status }
{
    let status = match error.kind() {
        ErrorKind::OutOfMemory => 5,
        _ if error.use_stderr() => 2,
        _ => 0,
    };
    match error.to_string(alloc) {
        Ok(text) => Refusal { status, text },
        Err(_) => Refusal {
            status: 5,
            text: String::new(alloc),
        },
    }
}
