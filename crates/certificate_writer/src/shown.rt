//! Whether a certificate that was made shows its claim.
ghost use Rattle.std.specs.Prelude.{◌≡◌, IsTrue, OnOk, Some};
ghost use Rattle.certificate.specs.Right.{ShowsThis};

use crate::told::Told;
use certificate::{CertificateFault, Certified, check};
use solver::SolverFault;
use std::alloc::Global;

/// That these bytes are a certificate which shows what the table tells: S4, E8, and S6 where they are none.
pub fn needs_shown(alloc: Global, bytes: &[u8], told: &Told) -> Result<(), SolverFault>
    ensures { OnOk result (ShowsThis bytes.now (Some told.now.text.items) told.now.position.items told.now.claimed) }
{
    match check(alloc, bytes, Some(&told.text)) {
        Ok(shown) if is_this(&shown, told) => Ok(()),
        Ok(_) => Err(SolverFault::Inconsistent),
        Err(refusal) => Err(fault_of(refusal.fault)),
    }
}

/// Whether a certificate shows this value of this position.
fn is_this(shown: &Certified<'_>, told: &Told) -> bool
    ensures position { IsTrue result → shown.now.position.now ≡ told.now.position.items }
    ensures claimed { IsTrue result → shown.now.claimed ≡ told.now.claimed }
{
    shown.position == told.position.as_slice() && shown.claimed == told.claimed
}

/// Why there is no certificate, where the one that was made is refused.
fn fault_of(fault: CertificateFault) -> SolverFault {
    match fault {
        CertificateFault::TooWide => SolverFault::TooWide,
        CertificateFault::OutOfMemory => SolverFault::OutOfMemory,
        _ => SolverFault::Inconsistent,
    }
}
