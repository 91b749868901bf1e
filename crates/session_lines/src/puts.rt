//! Replies and refusals, written as lines.

ghost use Rattle.std.specs.Prelude.{ℕ, List, OnOk, OnErr};
ghost use Rattle.std.specs.Fmt.{decimal};
ghost use Rattle.std.specs.Io.KnownBytes.{Appends};
ghost use Rattle.session_lines.specs.Parts.{AppendsPart};
ghost use Rattle.session_lines.specs.Told.{behind_code, fault_line, IsReplyLine};

use crate::replies::put_work;
use itoa::Buffer;
use solver::{Reply, SolverFault};
use std::io::{self, ErrorKind, Write};

/// Writes these bytes. Where the output fails, it holds a part of them, from the first on, as `write_all` does not promise.
pub fn put_bytes<W: Write>(out: &mut W, bytes: &[u8]) -> io::Result<()>
    ensures all { OnOk result (Appends (W.contents out.old) (W.contents out.new) bytes.now) }
    ensures part { OnErr result (AppendsPart (W.contents out.old) (W.contents out.new) bytes.now) }
{
    let mut done = 0;
    // An output that took a byte in each turn would be written for longer than any machine runs.
    for _turn in 0..u64::MAX {
        if done == bytes.len() {
            return Ok(());
        }
        match out.write(&bytes[done..]) {
            Ok(0) => return Err(io::Error::new(ErrorKind::WriteZero, "no byte was taken")),
            Ok(count) => done += count,
            Err(error) if error.kind() == ErrorKind::Interrupted => {}
            Err(error) => return Err(error),
        }
    }
    Err(io::Error::new(ErrorKind::WriteZero, "too few bytes were taken"))
}

/// Writes a number.
pub fn put_decimal<W: Write>(out: &mut W, number: u32) -> io::Result<()>
    ensures all { OnOk result (Appends (W.contents out.old) (W.contents out.new) (decimal number)) }
    ensures part { OnErr result (AppendsPart (W.contents out.old) (W.contents out.new) (decimal number)) }
{
    let mut digits = Buffer::new();
    put_bytes(out, digits.format(number).as_bytes())
}

/// Writes a line at once.
pub fn put_line<W: Write>(out: &mut W, line: &[u8]) -> io::Result<()>
    ensures all { OnOk result (Appends (W.contents out.old) (W.contents out.new) line.now) }
    ensures part { OnErr result (AppendsPart (W.contents out.old) (W.contents out.new) line.now) }
{
    put_bytes(out, line)?;
    out.flush()
}

/// Writes the line of a reply at once: `loaded`, the work that was done, or the refusal. It takes no memory.
pub fn put_reply<W: Write>(out: &mut W, reply: Reply) -> io::Result<()>
    ensures all { OnOk result ((line : List ℕ) × IsReplyLine reply line × Appends (W.contents out.old) (W.contents out.new) line) }
    ensures part { OnErr result ((line : List ℕ) × IsReplyLine reply line × AppendsPart (W.contents out.old) (W.contents out.new) line) }
{
    match reply {
        Reply::Loaded => put_line(out, b"loaded\n"),
        Reply::Worked(units, counts) => put_work(out, units, counts),
        Reply::Refused(fault) => put_refused(out, fault),
    }
}

/// Writes what stands after the code of a refusal: the position at which the keeper can choose.
fn put_position<W: Write>(out: &mut W, fault: SolverFault) -> io::Result<()>
    ensures all { OnOk result (Appends (W.contents out.old) (W.contents out.new) (behind_code fault)) }
    ensures part { OnErr result (AppendsPart (W.contents out.old) (W.contents out.new) (behind_code fault)) }
{
    match fault {
        SolverFault::KeeperChooses(number) => {
            put_bytes(out, b" ")?;
            put_decimal(out, number)
        }
        _ => Ok(()),
    }
}

/// Writes `refused` and the code at once; after S3 the number of the position. It takes no memory.
pub fn put_refused<W: Write>(out: &mut W, fault: SolverFault) -> io::Result<()>
    ensures all { OnOk result (Appends (W.contents out.old) (W.contents out.new) (fault_line fault)) }
    ensures part { OnErr result (AppendsPart (W.contents out.old) (W.contents out.new) (fault_line fault)) }
{
    put_bytes(out, b"refused ")?;
    put_bytes(out, fault.code().as_bytes())?;
    put_position(out, fault)?;
    put_line(out, b"\n")
}
