//! What the command line says is done here: the words are read, and each command is handed on.

use crate::certificates::{certify_file, check_certificate};
use crate::files::{audit_file, create_file, grow_file, load_file, migrate_file};
use crate::games::{actions_of_game, moves_of_game};
use crate::room::Size;
use crate::sessions::{look_at_file, session_of_file};
use crate::streams::Streams;
use crate::text_files::{audit_file_of, text_of_file};
use command_line::words::{Refusal, Words, words_of};
use explanations::explain::{Explanation, explain};
use numbered_actions::lines::{LineColumn, line_column};
use rbg_game::limits::MAX_TEXT_BYTES;
use rbg_read::fault::GameFault;
use root_pair::MAGIC;
use solver::SolverFault;
use std::alloc::Global;
use std::fmt::Display;
use std::fs;
use std::io::{self, Read};

/// As many bytes as are read of a game text: one more than the limit, so that a longer text is seen
/// to be too long.
const READ_LIMIT: u64 = MAX_TEXT_BYTES as u64 + 1;

/// Does what the command line says, and gives the exit status. Nothing that it opens gets the descriptor of a standard stream, also where
/// the program was started with one of them closed.
pub fn run(rt: &HostRuntime) -> u8 {
    let Ok(streams) = Streams::hold(rt) else {
        return status_of_refused(rt, SolverFault::Disk);
    };
    let status = run_words(rt);
    streams.let_go();
    status
}

fn run_words(rt: &HostRuntime) -> u8 {
    let alloc = rt.alloc();
    let words = match given_words(rt, alloc) {
        Ok(words) => words,
        Err(error) if error.kind() == io::ErrorKind::OutOfMemory => {
            return status_of_refused(rt, SolverFault::OutOfMemory);
        }
        Err(_) => {
            tell(
                rt,
                "a word of the command line is not UTF-8: give files names that are",
            );
            return 2;
        }
    };
    match words_of(alloc, &words) {
        Ok(Words::Moves { game, at }) => moves_of_game(rt, alloc, &game, at.as_deref()),
        Ok(Words::Actions { game }) => actions_of_game(rt, alloc, &game),
        Ok(
            Words::Create {
                file,
                pages,
                is_reserved,
            },
        ) => create_file(rt, alloc, &file, Size { pages, is_reserved }),
        Ok(Words::Load { file, game, goal }) => load_file(rt, alloc, &file, &game, goal),
        Ok(Words::Session { file, is_quiet }) => session_of_file(rt, alloc, &file, is_quiet),
        Ok(Words::Look { file, is_quiet }) => look_at_file(rt, alloc, &file, is_quiet),
        Ok(Words::Game { file }) => text_of_file(rt, alloc, &file),
        Ok(Words::Audit { file, game }) => match game.as_deref() {
            Some(game) => audit_file_of(rt, alloc, &file, game),
            None => audit_file(rt, alloc, &file),
        },
        Ok(Words::Migrate { file }) => migrate_file(rt, alloc, &file),
        Ok(
            Words::Grow {
                file,
                pages,
                is_reserved,
            },
        ) => grow_file(rt, alloc, &file, Size { pages, is_reserved }),
        Ok(Words::Certify { file, number }) => certify_file(rt, alloc, &file, number),
        Ok(Words::Check { certificate, game }) => {
            check_certificate(rt, alloc, &certificate, game.as_deref())
        }
        Err(refusal) => show(rt, &refusal),
    }
}

/// Shows help, or why the words are no command, and gives the exit status.
fn show(rt: &HostRuntime, refusal: &Refusal) -> u8 {
    let shown = if refusal.status == 0 {
        rt.print(&refusal.text)
    } else {
        rt.eprint(&refusal.text)
    };
    match shown {
        Ok(()) => refusal.status,
        Err(_) => 4,
    }
}

fn given_words(rt: &HostRuntime, alloc: Global) -> io::Result<Vec<String>> {
    let words = std::env::args(rt)?.collect(alloc)?;
    Ok(words)
}

/// Says `refused` with the code on standard output.
pub fn status_of_refused(rt: &HostRuntime, fault: SolverFault) -> u8 {
    let code = fault.code();
    match println!(rt; "refused {code}") {
        Ok(()) => fault.status(),
        Err(_) => 4,
    }
}

/// Says on standard error why the text is no game.
pub fn tell_game_fault(rt: &HostRuntime, alloc: Global, game: &str, text: &[u8], fault: GameFault) {
    if text.starts_with(&MAGIC) {
        tell(
            rt,
            format_args!(
                "{game}: this is a table, not the text of a game: `rbgsolve game FILE` prints the text of its game"
            ),
        );
        return;
    }
    if let Ok(Explanation { at, message }) = explain(alloc, text, fault) {
        let LineColumn { line, column } = line_column(text, at);
        tell(rt, format_args!("{game}:{line}:{column}: {message}"));
    }
}

/// A line on standard error, whether or not it arrives there.
pub fn tell<D: Display + Drop>(rt: &HostRuntime, line: D) {
    let _told = rt.eprintln(line);
}

pub fn read_start(rt: &HostRuntime, name: &str, text: &mut Vec<u8>) -> io::Result<()> {
    let file = fs::File::open(rt, name)?;
    file.take(READ_LIMIT).read_to_end(text)?;
    Ok(())
}
