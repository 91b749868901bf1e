//! What a session keeps from one line to the next, and its answer to a line.
ghost use Rattle.std.specs.Prelude.{◌≡◌, [], Some, None, ◌<◌, ◌≤◌, IsTrue, IfOk, OnErr};
ghost use Rattle.solver.specs.Solvers.{state, IsReady};
ghost use Rattle.session_lines.specs.declared.input.Asked.TheVariants.{Quit};
ghost use Rattle.session.specs.Cut.{HasRead};
ghost use Rattle.session.specs.Seen.{seen};
ghost use Rattle.session.specs.Sessions.{LineOutcome, IsAnswered, IsLineAnswered, IsLookAnswered};
ghost use Rattle.session.specs.Sessions.{first_listings, listings_kept, session_state};

use crate::line_by_line::Lines;
use game_file::Versions;
use session_lines::input::{Asked, Line};
use session_lines::listings::put_listing;
use session_lines::looks::put_looked;
use session_lines::moments::Moments;
use session_lines::questions::put_answer;
use solver::{FileSolver, Listing};
use std::alloc::Global;
use std::io::{self, Write};

/// What a session may do, and what it keeps.
pub enum Manner<V> {
    /// It works, asks and keeps listings; those that are open stand here.
    Work(Vec<Listing<V>>),
    /// It only looks.
    Look,
}

/// What a session keeps from one line to the next: what it may do, and the line that is being read.
pub struct Dialogue<V> {
    pub alloc: Global,
    pub manner: Manner<V>,
    pub line: Line,
}

/// A dialogue of which no line is read yet.
pub fn begun<V>(alloc: Global, lines: Lines) -> Dialogue<V>
    ensures kept { listings_kept result.manner ≡ first_listings lines }
    ensures none { HasRead result.line [] }
{
    let manner = match lines {
        Lines::Session => Manner::Work(Vec::new(alloc)),
        Lines::Look => Manner::Look,
    };
    Dialogue {
        alloc,
        manner,
        line: Line::new(alloc),
    }
}

/// Ends all listings that are open.
pub fn give_back<F: Versions>(solver: &mut FileSolver<F>, open: Vec<Listing<F::Version>>)
    ensures ready { IsReady solver.old → IsReady solver.new }
    ensures state { IsReady solver.old → IsTrue (state solver.old).disk.honest → state solver.new ≡ state solver.old }
{
    let mut listings = open;
    while let Some(listing) = listings.pop() {
        solver.list_end(listing);
    }
    listings.destroy_empty();
}

/// Writes the reply to what a line asks. Gives the status where the session ends with it.
pub fn answer<F: Versions, W: Write, E: Write>(
    alloc: Global,
    solver: &mut FileSolver<F>,
    manner: &mut Manner<F::Version>,
    asked: Asked<'_>,
    out: &mut W,
    told: &mut E,
    moments: &mut Moments<FileSolver<F>, W>,
) -> Option<u8>
    ensures ready { IsReady solver.old → IsReady solver.new }
    ensures honest { IsReady solver.old → IsTrue (state solver.old).disk.honest
        → IsTrue (state solver.new).disk.honest }
    ensures came { IsReady solver.old → IsTrue (state solver.old).disk.honest → LineOutcome
        (λ status text. IsAnswered F.stores F.state F.is_version F.are_two F.is_used_up F.lasts asked.entry
        solver.old.file solver.new.file (listings_kept manner.old) (listings_kept manner.new) status text)
        ((asked.entry ≡ Quit) × (session_state solver.new.file manner.new ≡ session_state solver.old.file manner.old))
        (state solver.new).disk
        (seen state W.contents out.old moments.old) (seen state W.contents out.new moments.new) result }
{
    match manner {
        Manner::Work(listings) => answer_session(
            alloc, solver, listings, asked, out, told, moments,
        ),
        Manner::Look => answer_look(alloc, solver, asked, out, told, moments),
    }
}

/// Writes the reply of a session, of which these listings are open. Gives the status where the session ends with it.
fn answer_session<F: Versions, W: Write, E: Write>(
    alloc: Global,
    solver: &mut FileSolver<F>,
    listings: &mut Vec<Listing<F::Version>>,
    asked: Asked<'_>,
    out: &mut W,
    told: &mut E,
    moments: &mut Moments<FileSolver<F>, W>,
) -> Option<u8>
    ensures ready { IsReady solver.old → IsReady solver.new }
    ensures honest { IsReady solver.old → IsTrue (state solver.old).disk.honest
        → IsTrue (state solver.new).disk.honest }
    ensures came { IsReady solver.old → IsTrue (state solver.old).disk.honest → LineOutcome
        (λ status text. IsLineAnswered F.stores F.state F.is_version F.are_two F.is_used_up F.lasts
        solver.old.file solver.new.file listings.old.items listings.new.items status text asked.entry)
        ((asked.entry ≡ Quit) × (solver.new ≡ solver.old) × (listings.new ≡ listings.old)) (state solver.new).disk
        (seen state W.contents out.old moments.old) (seen state W.contents out.new moments.new) result }
{
    match asked {
        Asked::Quit => Some(0),
        Asked::Listing(about) => ended_by(put_listing(
            alloc, solver, listings, about, out, told, moments,
        )),
        asked => ended_by(put_answer(alloc, solver, asked, out, told, moments)),
    }
}

/// Writes the reply of a look. Gives the status where it ends with it.
fn answer_look<F: Versions, W: Write, E: Write>(
    alloc: Global,
    solver: &mut FileSolver<F>,
    asked: Asked<'_>,
    out: &mut W,
    told: &mut E,
    moments: &mut Moments<FileSolver<F>, W>,
) -> Option<u8>
    ensures ready { IsReady solver.old → IsReady solver.new }
    ensures honest { IsReady solver.old → IsTrue (state solver.old).disk.honest
        → IsTrue (state solver.new).disk.honest }
    ensures came { IsReady solver.old → LineOutcome
        (λ status text. IsLookAnswered F.stores F.state F.is_version F.are_two F.is_used_up F.lasts
        asked.entry solver.old.file solver.new.file status text)
        ((asked.entry ≡ Quit) × (solver.new ≡ solver.old)) (state solver.new).disk
        (seen state W.contents out.old moments.old) (seen state W.contents out.new moments.new) result }
{
    match asked {
        Asked::Quit => Some(0),
        asked => ended_by(put_looked(alloc, solver, asked, out, told, moments)),
    }
}

/// The status with which a session ends behind a reply, if it does: a refusal by more than 1, and 4 where the output
/// failed.
fn ended_by(replied: io::Result<u8>) -> Option<u8>
    ensures written { IfOk replied (λ status. (1 < status → result ≡ Some status) × (status ≤ 1 → result ≡ None)) }
    ensures unwritten { OnErr replied (result ≡ Some 4) }
{
    match replied {
        Ok(status) => (status > 1).then_some(status),
        Err(_) => Some(4),
    }
}
