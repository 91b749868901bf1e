//! What is told of a command on a table's file: one line, with the exit status that belongs to it.
ghost use Rattle.std.specs.Prelude.{◌≡◌, ◌∷◌, ◌++◌, [], ℕ, List, OnErr, OnOk, Some};
ghost use Rattle.std.specs.Io.KnownBytes.{Appends};
ghost use Rattle.session_lines.specs.Answered.{status_of_reply};
ghost use Rattle.session_lines.specs.Parts.{AppendsPart};
ghost use Rattle.session.specs.Commands.{came_of, refused as refused_for, IsLineOf, IsPrinted};
ghost use Rattle.session.specs.Commands.{refusal_in, refusal_of, status_of_came, status_of_verdict, word_of_migration};

use audit::Verdict;
use recover::Migration;
use retrograde::Counts;
use session_lines::puts::{put_line, put_refused, put_reply};
use session_lines::verdicts::put_verdict;
use solver::{Reply, SolverFault};
use std::io::{self, Write};

/// What is told of a command, once it is done.
#[derive(Clone, Copy, Drop)]
pub enum Told {
    /// The empty table was made.
    Made,
    /// It was refused.
    Refused(SolverFault),
    /// The reply to it.
    Replied(Reply),
    /// The verdict of an audit, and how far the table is.
    Audited(Verdict, Counts),
    /// The table is about another game than the one that was meant.
    Another,
    /// The table was brought into today's layout, or had it.
    Brought(Migration),
    /// The table has got more pages.
    Grown,
}

/// What came of a command on a file.
#[derive(Clone, Copy, Drop)]
pub struct Outcome {
    /// The exit status, which is 4 where the output failed.
    pub status: u8,
    /// Why the command was refused, if it was.
    pub refused: Option<SolverFault>,
}

/// Writes the line that tells it. It takes no memory.
pub(crate) fn said<W: Write>(out: &mut W, told: Told) -> Outcome
    ensures refused { result.refused ≡ refusal_of (came_of told) }
    ensures told { IsPrinted (W.contents out.old) (W.contents out.new) (came_of told) result.status }
{
    let refused = refusal_of(told);
    let status = match put_told(out, told) {
        Ok(()) => status_of_told(told),
        Err(_) => 4,
    };
    Outcome { status, refused }
}

/// Writes the line of a refusal.
pub fn said_refused<W: Write>(out: &mut W, fault: SolverFault) -> Outcome
    ensures refused { result.refused ≡ Some fault }
    ensures told { IsPrinted (W.contents out.old) (W.contents out.new) (refused_for fault) result.status }
{
    said(out, Told::Refused(fault))
}

/// Writes the line at once.
fn put_told<W: Write>(out: &mut W, told: Told) -> io::Result<()>
    ensures all { OnOk result ((line : List ℕ) × IsLineOf (came_of told) line × Appends (W.contents out.old) (W.contents out.new) line) }
    ensures part { OnErr result ((line : List ℕ) × IsLineOf (came_of told) line
        × AppendsPart (W.contents out.old) (W.contents out.new) line) }
{
    match told {
        Told::Made => put_line(out, b"created\n"),
        Told::Refused(fault) => put_refused(out, fault),
        Told::Replied(reply) => put_reply(out, reply),
        Told::Audited(verdict, counts) => put_verdict(out, verdict, counts),
        Told::Another => put_line(out, b"audit wrong game\n"),
        Told::Brought(which) => put_line(out, line_of(which)),
        Told::Grown => put_line(out, b"grown\n"),
    }
}

/// The line of a table that was brought into today's layout.
fn line_of(which: Migration) -> &'static [u8]
    ensures { result.now ≡ word_of_migration which ++ 10 ∷ [] }
{
    match which {
        Migration::Migrated => b"migrated\n",
        Migration::Current => b"current\n",
    }
}

/// The exit status that belongs to it.
fn status_of_told(told: Told) -> u8
    ensures { result ≡ status_of_came (came_of told) }
{
    match told {
        Told::Made | Told::Brought(_) | Told::Grown => 0,
        Told::Refused(fault) => fault.status(),
        Told::Replied(reply) => status_of_reply(reply),
        Told::Audited(verdict, _) => status_of_verdict(verdict),
        Told::Another => 1,
    }
}

/// The exit status of a verdict: 1 where the table is wrong.
fn status_of_verdict(verdict: Verdict) -> u8
    ensures { result ≡ status_of_verdict verdict }
{
    match verdict {
        Verdict::Right => 0,
        Verdict::Wrong(_, _) => 1,
    }
}

/// The exit status of a reply.
fn status_of_reply(reply: Reply) -> u8
    ensures { result ≡ status_of_reply reply }
{
    match reply {
        Reply::Refused(fault) => fault.status(),
        Reply::Loaded | Reply::Worked(_, _) => 0,
    }
}

/// Why the command was refused, if it was.
fn refusal_of(told: Told) -> Option<SolverFault>
    ensures { result ≡ refusal_of (came_of told) }
{
    match told {
        Told::Refused(fault) => Some(fault),
        Told::Replied(reply) => refusal_in(reply),
        Told::Made | Told::Audited(_, _) | Told::Another | Told::Brought(_) | Told::Grown => None,
    }
}

/// Why a reply refuses, if it does.
fn refusal_in(reply: Reply) -> Option<SolverFault>
    ensures { result ≡ refusal_in reply }
{
    match reply {
        Reply::Refused(fault) => Some(fault),
        Reply::Loaded | Reply::Worked(_, _) => None,
    }
}
