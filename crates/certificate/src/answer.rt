//! The answer to a certificate, as it is printed.
ghost use Rattle.std.specs.Prelude.{◌≡◌, ◌⊎◌, ℕ, List, OnOk, option_map};
ghost use Rattle.std.specs.Io.KnownBytes.{Appends};
ghost use Rattle.certificate.specs.Answers.{IsCertificateAnswer, refusal_line, shown_lines, status_of};

use crate::certified::{Certified, check};
use crate::fault::{CertificateFault, Refusal};
use std::alloc::Global;
use std::io::{self, Write};

/// What came of a certificate.
#[derive(Clone, Copy, Drop)]
pub struct Answer {
    /// The exit status: 0 where it shows its value, 5 for want of memory, 4 where the output failed, and else 1.
    pub status: u8,
    /// Why it was refused, if it was.
    pub refusal: Option<Refusal>,
}

/// Checks a certificate, and writes what it shows, or `refused` and a code. If a text of a game is given beside it, that of the certificate
/// has to be the same, byte for byte.
pub fn check_to<W: Write>(
    alloc: Global,
    certificate: &[u8],
    text: Option<&[u8]>,
    out: &mut W,
) -> Answer
    ensures { (result.status ≡ 4) ⊎ ((written : List ℕ) × IsCertificateAnswer certificate.now (option_map (λ given. given.now) text.entry)
        result.status written
        × Appends (W.contents out.old) (W.contents out.new) written) }
{
    match check(alloc, certificate, text) {
        Ok(shown) => Answer {
            status: said_shown(out, &shown),
            refusal: None,
        },
        Err(refusal) => Answer {
            status: said_refused(out, refusal.fault),
            refusal: Some(refusal),
        },
    }
}

/// Writes what a certificate shows, and gives the status: 0, or 4 where the output fails.
fn said_shown<W: Write>(out: &mut W, shown: &Certified<'_>) -> u8
    ensures { (result ≡ 4) ⊎ ((result ≡ 0) × Appends (W.contents out.old) (W.contents out.new)
        (shown_lines shown.now.value.now shown.now.position.now shown.now.looked)) }
{
    match put_shown(out, shown) {
        Ok(()) => 0,
        Err(_) => 4,
    }
}

/// Writes why a certificate is refused, and gives the status that goes with it, or 4 where the output fails.
fn said_refused<W: Write>(out: &mut W, fault: CertificateFault) -> u8
    ensures { (result ≡ 4) ⊎ ((result ≡ status_of fault) × Appends (W.contents out.old) (W.contents out.new) (refusal_line fault)) }
{
    match put_refusal(out, fault) {
        Ok(()) => status_of(fault),
        Err(_) => 4,
    }
}

/// The exit status of a refusal: 5 for want of memory, else 1.
fn status_of(fault: CertificateFault) -> u8
    ensures { result ≡ status_of fault }
{
    match fault {
        CertificateFault::OutOfMemory => 5,
        _ => 1,
    }
}

/// Writes what a certificate shows at once.
fn put_shown<W: Write>(out: &mut W, shown: &Certified<'_>) -> io::Result<()>
    ensures { OnOk result (Appends (W.contents out.old) (W.contents out.new)
        (shown_lines shown.now.value.now shown.now.position.now shown.now.looked)) }
{
    let looked = shown.looked;
    out.write_all(b"certified ")?;
    out.write_all(shown.value)?;
    out.write_all(b"\nposition ")?;
    out.write_all(shown.position)?;
    write!(out, "\nlooked {looked}\n")?;
    out.flush()
}

/// Writes `refused` and the code at once.
fn put_refusal<W: Write>(out: &mut W, fault: CertificateFault) -> io::Result<()>
    ensures { OnOk result (Appends (W.contents out.old) (W.contents out.new) (refusal_line fault)) }
{
    out.write_all(b"refused ")?;
    out.write_all(fault.code().as_bytes())?;
    out.write_all(b"\n")?;
    out.flush()
}
