//! The words of the commands on the text of a game, and on a certificate.

ghost use Rattle.std.specs.Prelude.{IfOk};
ghost use Rattle.command_line.specs.Commands.{HasApp, HasRule, leaf};
ghost use Rattle.command_line.specs.Words.{actions, check, moves, position_word, shape_in};

use crate::words::{free_word, game_word, named, required_word};
use clap::{Arg, Command};
use std::alloc::{AllocError, Global};

const MOVES_ABOUT: &str = "Prints the legal moves of a position of a game";

const MOVES_LONG_ABOUT: &str = concat!(
    "Prints the legal moves of a position of a game, one a line: MOVE => POSITION.\n",
    "\n",
    "MOVE lists what the move does, each as the number of the action and, behind @, the vertex where it is done. ",
    "POSITION is who has the turn, the place in the rules, the current vertex, the pieces by vertices, and the two ",
    "scores and the variables. A position without a legal move is answered by `ended`.\n",
    "\n",
    "Without `--at` the position is the game's start. With `--at -` positions are read from standard input, one a line, ",
    "and each is answered before the next is read: its moves, and an empty line.",
);

const ACTIONS_ABOUT: &str = "Prints the actions of a game with their numbers";

const ACTIONS_LONG_ABOUT: &str = concat!(
    "Prints the actions of a game's rules, one a line: NUMBER LINE:COLUMN ACTION.\n",
    "\n",
    "NUMBER is the one by which `moves` shows the action. LINE and COLUMN are where it begins in the text, and ACTION is how it stands ",
    "there, in one line. A pattern is one action, and each assignment of a list is one.",
);

const CHECK_ABOUT: &str = "Says whether a certificate shows its value, without a table";

const CHECK_LONG_ABOUT: &str = concat!(
    "Says whether a certificate shows the value that it claims, without a table, whoever made it.\n",
    "\n",
    "A certificate has the text of a game, a position of it, its value, and positions that show it. If it prints ",
    "`certified white in 10`, then by the rules of that game white wins the position in exactly ten moves; if it prints `certified drawn`, ",
    "nobody wins it. The position, and how many positions were looked at, stand behind that. A certificate that shows nothing is answered ",
    "by `refused` and a code, C1 to C8, and standard error says which line of it is why.\n",
    "\n",
    "With GAME the text in the certificate has to be that of GAME, byte for byte.",
);

/// The command `moves`, as words spell it.
pub fn moves_command<'a>(alloc: Global) -> Result<Command<'a>, AllocError>
    ensures { IfOk result (HasApp (leaf (shape_in moves))) }
{
    named(alloc, "moves", MOVES_ABOUT, MOVES_LONG_ABOUT)
        .arg(game_word(alloc))?
        .arg(position_word(alloc))
}

/// The position whose moves are asked for.
fn position_word<'a>(alloc: Global) -> Arg<'a>
    ensures { HasRule position_word result }
{
    let help =
        "The text of the position, as `white 2 v e 0,0,3`; `-` stands for those on standard input";
    free_word(alloc, "at", help)
        .long("at")
        .value_name("POSITION")
}

/// The command `actions`, as words spell it.
pub fn actions_command<'a>(alloc: Global) -> Result<Command<'a>, AllocError>
    ensures { IfOk result (HasApp (leaf (shape_in actions))) }
{
    named(alloc, "actions", ACTIONS_ABOUT, ACTIONS_LONG_ABOUT).arg(game_word(alloc))
}

/// The command `check`, as words spell it.
pub fn check_command<'a>(alloc: Global) -> Result<Command<'a>, AllocError>
    ensures { IfOk result (HasApp (leaf (shape_in check))) }
{
    named(alloc, "check", CHECK_ABOUT, CHECK_LONG_ABOUT)
        .arg(required_word(alloc, "CERTIFICATE", "The file with the certificate"))?
        .arg(free_word(
            alloc,
            "GAME",
            "The file with the text of the game that it has to be about",
        ))
}
