//! The line of an audit.
ghost use Rattle.std.specs.Prelude.{◌≡◌, ℕ, List, OnOk, OnErr};
ghost use Rattle.std.specs.Io.KnownBytes.{Appends};
ghost use Rattle.session_lines.specs.Parts.{AppendsPart};
ghost use Rattle.session_lines.specs.Verdicts.{code_of_reason, wrong_line, IsRightLine, IsVerdictLine};

use crate::puts::{put_bytes, put_line};
use crate::replies::put_field;
use audit::{Reason, Verdict};
use retrograde::Counts;
use std::io::{self, Write};

/// The code of the condition that fails.
fn code_of(reason: Reason) -> &'static str
    ensures { result.now ≡ code_of_reason reason }
{
    match reason {
        Reason::A1 => "A1",
        Reason::A2 => "A2",
        Reason::A3 => "A3",
        Reason::A4 => "A4",
        Reason::A5 => "A5",
        Reason::A6 => "A6",
        Reason::A7 => "A7",
    }
}

/// Writes that a table with these counts is right.
fn put_right<W: Write>(out: &mut W, counts: Counts) -> io::Result<()>
    ensures all { OnOk result ((line : List ℕ) × IsRightLine counts line × Appends (W.contents out.old) (W.contents out.new) line) }
    ensures part { OnErr result ((line : List ℕ) × IsRightLine counts line × AppendsPart (W.contents out.old) (W.contents out.new) line) }
{
    let Counts {
        known,
        expanded,
        settled,
        processed,
    } = counts;
    if expanded == known && processed == settled {
        put_line(out, b"audit right finished\n")
    } else {
        put_line(out, b"audit right open\n")
    }
}

/// Writes the verdict of a table with these counts at once.
pub fn put_verdict<W: Write>(out: &mut W, verdict: Verdict, counts: Counts) -> io::Result<()>
    ensures all { OnOk result ((line : List ℕ) × IsVerdictLine counts verdict line × Appends (W.contents out.old) (W.contents out.new) line) }
    ensures part { OnErr result ((line : List ℕ) × IsVerdictLine counts verdict line × AppendsPart (W.contents out.old) (W.contents out.new) line) }
{
    match verdict {
        Verdict::Right => put_right(out, counts),
        Verdict::Wrong(number, reason) => put_wrong(out, number, reason),
    }
}

/// Writes that a table is wrong at this number, by this condition.
fn put_wrong<W: Write>(out: &mut W, number: u32, reason: Reason) -> io::Result<()>
    ensures all { OnOk result (Appends (W.contents out.old) (W.contents out.new) (wrong_line number reason)) }
    ensures part { OnErr result (AppendsPart (W.contents out.old) (W.contents out.new) (wrong_line number reason)) }
{
    put_field(out, b"audit wrong ", number)?;
    put_bytes(out, b" ")?;
    put_bytes(out, code_of(reason).as_bytes())?;
    put_line(out, b"\n")
}
