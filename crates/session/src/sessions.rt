//! The commands `session` and `look`: lines of standard input, answered on the table of a file.

use crate::files::{TO_CHANGE, TO_READ, disk_over, refused_opening};
use crate::line_by_line::{Lines, lines_over};
use crate::open::{Purpose, opened};
use crate::program::status_of_refused;
use file_disk::FileDisk;
use recover::TableFile;
use session_lines::moments::Moments;
use solver::SolverFault;
use std::alloc::Global;
use std::io::{self, BufWriter};

/// A session over the table of a file, on standard input and output. A quiet one says nothing on standard error of what is refused.
pub fn session_of_file(rt: &HostRuntime, alloc: Global, name: &str, is_quiet: bool) -> u8 {
    match opened(rt, name, Purpose::Change) {
        Ok(file) => match disk_over(rt, alloc, name, file) {
            Ok(disk) => answer(rt, alloc, disk, Lines::Session, is_quiet),
            Err(outcome) => outcome.status,
        },
        Err(why) => refused_opening(rt, name, why, TO_CHANGE),
    }
}

/// Answers questions about the table of a file. The file is opened to be read alone, and taken as for an audit: many may look at once, but none
/// beside a run that may change it.
pub fn look_at_file(rt: &HostRuntime, alloc: Global, name: &str, is_quiet: bool) -> u8 {
    match opened(rt, name, Purpose::Ask) {
        Ok(file) => match disk_over(rt, alloc, name, file) {
            Ok(disk) => answer(rt, alloc, disk, Lines::Look, is_quiet),
            Err(outcome) => outcome.status,
        },
        Err(why) => refused_opening(rt, name, why, TO_READ),
    }
}

/// Answers the lines of standard input on standard output.
fn answer(rt: &HostRuntime, alloc: Global, disk: FileDisk, lines: Lines, is_quiet: bool) -> u8 {
    let Ok(mut out) = BufWriter::new(alloc, io::writer(rt)) else {
        return status_of_refused(rt, SolverFault::OutOfMemory);
    };
    let mut input = rt.stdin();
    let (status, _disk) = if is_quiet {
        lines_over::<TableFile<FileDisk>, _, _, _>(
            alloc,
            disk,
            lines,
            &mut input,
            &mut out,
            &mut io::sink(),
            &mut Moments::new(),
        )
    } else {
        lines_over::<TableFile<FileDisk>, _, _, _>(
            alloc,
            disk,
            lines,
            &mut input,
            &mut out,
            &mut rt.stderr(),
            &mut Moments::new(),
        )
    };
    status
}
