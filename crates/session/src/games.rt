//! The commands on the text of a game, for which there need be no table.

use crate::moves_by_line::moves_by_line;
use crate::program::{read_start, status_of_refused, tell, tell_game_fault};
use session_lines::actions::actions_to;
use session_lines::moves::{moves_at, moves_to};
use session_lines::rulebook::Rulebook;
use solver::SolverFault;
use std::alloc::Global;
use std::io::{self, BufWriter, ErrorKind};

/// What stands for the position where the positions are read from standard input.
const FROM_INPUT: &str = "-";

/// Writes the moves of the start of a game, or of the position with this text, or of those on standard input.
pub fn moves_of_game(rt: &HostRuntime, alloc: Global, game: &str, at: Option<&str>) -> u8 {
    let text = match text_of_game(rt, alloc, game) {
        Ok(text) => text,
        Err(status) => return status,
    };
    let Ok(mut out) = BufWriter::new(alloc, io::writer(rt)) else {
        return status_of_refused(rt, SolverFault::OutOfMemory);
    };
    let status = match at {
        Some(FROM_INPUT) => return moves_of_input(rt, alloc, game, &text),
        Some(at) => moves_at(alloc, &text, at.as_bytes(), &mut out),
        None => moves_to(alloc, &text, &mut out),
    };
    if status == 1 {
        tell_why(rt, alloc, game, &text, at);
    }
    status
}

/// Writes the numbered actions of a game.
pub fn actions_of_game(rt: &HostRuntime, alloc: Global, game: &str) -> u8 {
    let text = match text_of_game(rt, alloc, game) {
        Ok(text) => text,
        Err(status) => return status,
    };
    let Ok(mut out) = BufWriter::new(alloc, io::writer(rt)) else {
        return status_of_refused(rt, SolverFault::OutOfMemory);
    };
    let status = actions_to(alloc, &text, &mut out);
    if status == 1
        && let Err(fault) = Rulebook::read(alloc, &text)
    {
        tell_refused_game(rt, alloc, game, &text, fault);
    }
    status
}

/// The text in the file of a game; or the status, once it was said why there is none.
pub fn text_of_game(rt: &HostRuntime, alloc: Global, game: &str) -> Result<Vec<u8>, u8> {
    let mut text = Vec::new(alloc);
    match read_start(rt, game, &mut text) {
        Ok(()) => Ok(text),
        Err(error) if error.kind() == ErrorKind::OutOfMemory => {
            Err(status_of_refused(rt, SolverFault::OutOfMemory))
        }
        Err(_) => {
            let status = status_of_refused(rt, SolverFault::Disk);
            tell(rt, format_args!("{game}: the file cannot be read"));
            Err(status)
        }
    }
}

/// Says on standard error why the moves were refused.
fn tell_why(rt: &HostRuntime, alloc: Global, game: &str, text: &[u8], at: Option<&str>) {
    match (Rulebook::read(alloc, text), at) {
        (Ok(book), Some(at)) if book.position(at.as_bytes()).is_none() => tell(
            rt,
            format_args!("{game}: `{at}` is the text of no position of the game"),
        ),
        (Ok(_), at) => {
            let from = at.unwrap_or("the start");
            tell(
                rt,
                format_args!(
                    "{game}: the search from {from} reaches more than 65,536 configurations"
                ),
            );
        }
        (Err(fault), _) => tell_refused_game(rt, alloc, game, text, fault),
    }
}

/// Says on standard error why the text is no game, where it is none.
fn tell_refused_game(rt: &HostRuntime, alloc: Global, game: &str, text: &[u8], fault: SolverFault) {
    if let SolverFault::Game(why) = fault {
        tell_game_fault(rt, alloc, game, text, why);
    }
}

/// Writes the moves of the positions on standard input.
fn moves_of_input(rt: &HostRuntime, alloc: Global, game: &str, text: &[u8]) -> u8 {
    let book = match Rulebook::read(alloc, text) {
        Ok(book) => book,
        Err(fault) => {
            let status = status_of_refused(rt, fault);
            tell_refused_game(rt, alloc, game, text, fault);
            return status;
        }
    };
    let Ok(mut out) = BufWriter::new(alloc, io::writer(rt)) else {
        return status_of_refused(rt, SolverFault::OutOfMemory);
    };
    moves_by_line(alloc, &book, &mut rt.stdin(), &mut out)
}
