//! The commands on a certificate: it is written from a table, and checked without one.

use crate::files::{TO_READ, disk_over, refused_opening, tell_refusal};
use crate::games::text_of_game;
use crate::open::{Purpose, opened};
use crate::program::{status_of_refused, tell, tell_game_fault};
use crate::told::said_refused;
use certificate::{CertificateFault, MAX_CERTIFICATE_BYTES, Refusal, check_to, text_of};
use certificate_writer::{Progress, Written, write_certificate};
use file_disk::FileDisk;
use recover::TableFile;
use solver::{FileSolver, SolverFault};
use std::alloc::Global;
use std::fs;
use std::io::{self, BufWriter, ErrorKind, Read, Write};

/// As many bytes as are read of a certificate: one more than the limit, so that a longer one is seen to be too long.
const READ_LIMIT: u64 = MAX_CERTIFICATE_BYTES as u64 + 1;

/// Writes the certificate of the value of this position of the table of a file. The file is opened to be read alone, as for a look.
pub fn certify_file(rt: &HostRuntime, alloc: Global, name: &str, number: u32) -> u8 {
    let file = match opened(rt, name, Purpose::Ask) {
        Ok(file) => file,
        Err(why) => return refused_opening(rt, name, why, TO_READ),
    };
    let disk = match disk_over(rt, alloc, name, file) {
        Ok(disk) => disk,
        Err(outcome) => return outcome.status,
    };
    let mut progress = Telling {
        out: rt.stderr(),
        name,
    };
    match certificate_on(alloc, disk, number, &mut progress) {
        Ok(written) => put_written(rt, alloc, name, &written),
        Err(fault) => put_refused(rt, alloc, name, fault),
    }
}

/// Tells how far a certificate is, a line each time.
#[derive(Drop)]
struct Telling<'a, W: Write> {
    out: W,
    name: &'a str,
}

impl<W: Write> Progress for Telling<'_, W> {
    fn looked_at(&mut self, count: u64) {
        let name = self.name;
        let _told = writeln!(self.out, "{name}: {count} positions looked at");
    }
}

/// The certificate of the value of this position of the table of a disk.
fn certificate_on<P: Progress>(
    alloc: Global,
    disk: FileDisk,
    number: u32,
    progress: &mut P,
) -> Result<Written, SolverFault> {
    match FileSolver::<TableFile<FileDisk>>::open(alloc, disk) {
        Ok(solver) => {
            let (written, _disk) = write_certificate(alloc, solver, number, progress);
            written
        }
        Err(refused) => Err(refused.fault),
    }
}

/// Writes a certificate, and says how large it is.
fn put_written(rt: &HostRuntime, alloc: Global, name: &str, written: &Written) -> u8 {
    let Ok(mut out) = BufWriter::new(alloc, io::writer(rt)) else {
        return status_of_refused(rt, SolverFault::OutOfMemory);
    };
    if out.write_all(&written.bytes).is_err() || out.flush().is_err() {
        return 4;
    }
    let (bytes, listed) = (written.bytes.len(), written.listed);
    tell(
        rt,
        format_args!("{name}: {bytes} bytes, {listed} positions in the lists"),
    );
    0
}

/// Says why there is no certificate.
fn put_refused(rt: &HostRuntime, alloc: Global, name: &str, fault: SolverFault) -> u8 {
    let Ok(mut out) = BufWriter::new(alloc, io::writer(rt)) else {
        return status_of_refused(rt, SolverFault::OutOfMemory);
    };
    let outcome = said_refused(&mut out, fault);
    tell_refusal(rt, name, fault);
    outcome.status
}

/// Says whether the certificate in a file shows its value, of the game in the other file, if one is given.
pub fn check_certificate(rt: &HostRuntime, alloc: Global, name: &str, game: Option<&str>) -> u8 {
    let bytes = match bytes_of_file(rt, alloc, name) {
        Ok(bytes) => bytes,
        Err(status) => return status,
    };
    match game {
        Some(game) => match text_of_game(rt, alloc, game) {
            Ok(text) => check_bytes(rt, alloc, name, &bytes, Some(&text)),
            Err(status) => status,
        },
        None => check_bytes(rt, alloc, name, &bytes, None),
    }
}

/// Checks a certificate, and says what came of it.
fn check_bytes(
    rt: &HostRuntime,
    alloc: Global,
    name: &str,
    bytes: &[u8],
    text: Option<&[u8]>,
) -> u8 {
    let Ok(mut out) = BufWriter::new(alloc, io::writer(rt)) else {
        return status_of_refused(rt, SolverFault::OutOfMemory);
    };
    let answer = check_to(alloc, bytes, text, &mut out);
    if answer.status == 1
        && let Some(refusal) = answer.refusal
    {
        tell_line(rt, alloc, name, bytes, refusal);
    }
    answer.status
}

/// Says at which line a certificate is refused, and why.
fn tell_line(rt: &HostRuntime, alloc: Global, name: &str, bytes: &[u8], refusal: Refusal) {
    let line = refusal.line(bytes);
    let fault = refusal.fault;
    tell(rt, format_args!("{name}:{line}: {fault}"));
    if let CertificateFault::NoGame(why) = fault {
        tell_game_fault(rt, alloc, "the text", text_of(bytes), why);
    }
}

/// The bytes of a certificate's file; or the status, once it was said why there are none.
fn bytes_of_file(rt: &HostRuntime, alloc: Global, name: &str) -> Result<Vec<u8>, u8> {
    let mut bytes = Vec::new(alloc);
    match read_bytes(rt, name, &mut bytes) {
        Ok(()) => Ok(bytes),
        Err(error) if error.kind() == ErrorKind::OutOfMemory => {
            Err(status_of_refused(rt, SolverFault::OutOfMemory))
        }
        Err(_) => {
            let status = status_of_refused(rt, SolverFault::Disk);
            tell(rt, format_args!("{name}: the file cannot be read"));
            Err(status)
        }
    }
}

fn read_bytes(rt: &HostRuntime, name: &str, bytes: &mut Vec<u8>) -> io::Result<()> {
    let file = fs::File::open(rt, name)?;
    file.take(READ_LIMIT).read_to_end(bytes)?;
    Ok(())
}
