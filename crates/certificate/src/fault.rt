//! Why a certificate is refused.
ghost use Rattle.std.specs.Prelude.{◌≡◌};
ghost use Rattle.certificate.specs.Codes.{fault_code};

use legal_moves::MoveFault;
use numbered_actions::lines::line_column;
use rbg_read::fault::GameFault;
use std::alloc::AllocError;
use thiserror::Error;

/// Why a certificate is refused.
#[derive(Clone, Copy, Debug, PartialEq, Eq, Drop, Error)]
pub enum CertificateFault {
    #[error("this is no line of a certificate as it has to stand here")]
    Malformed,
    #[error("the text in it is no game")]
    NoGame(GameFault),
    #[error("it is about another game")]
    OtherGame,
    #[error("this is no position of the game")]
    NoPosition,
    #[error("this does not follow from the other lines of its list")]
    DoesNotFollow,
    #[error("the lists do not show the value")]
    NotShown,
    #[error("the search for the moves of this position reaches more than 65,536 configurations")]
    TooWide,
    #[error("memory ran out")]
    OutOfMemory,
}

impl CertificateFault {
    ghost use Rattle.std.specs.Prelude.{◌≡◌};
    ghost use Rattle.certificate.specs.Codes.{fault_code};

    /// The code that the program prints.
    pub fn code(self) -> &'static str
        ensures { result.now ≡ fault_code self }
    {
        match self {
            CertificateFault::Malformed => "C1",
            CertificateFault::NoGame(_) => "C2",
            CertificateFault::OtherGame => "C3",
            CertificateFault::NoPosition => "C4",
            CertificateFault::DoesNotFollow => "C5",
            CertificateFault::NotShown => "C6",
            CertificateFault::TooWide => "C7",
            CertificateFault::OutOfMemory => "C8",
        }
    }
}

impl From<AllocError> for CertificateFault {
    ghost use Rattle.std.specs.Prelude.{◌≡◌};
    ghost use Rattle.certificate.specs.declared.fault.CertificateFault.TheVariants.{OutOfMemory};

    ghost from_gives = { λ _ fault. fault ≡ OutOfMemory };

    fn from(_error: AllocError) -> CertificateFault {
        CertificateFault::OutOfMemory
    }
}

impl From<MoveFault> for CertificateFault {
    ghost use Rattle.std.specs.Prelude.{◌≡◌};
    ghost use Rattle.certificate.specs.lemmas.Faults.{of_search};

    ghost from_gives = { λ why fault. fault ≡ of_search why };

    fn from(why: MoveFault) -> CertificateFault {
        match why {
            MoveFault::TooWide => CertificateFault::TooWide,
            MoveFault::OutOfMemory => CertificateFault::OutOfMemory,
        }
    }
}

impl From<GameFault> for CertificateFault {
    ghost use Rattle.std.specs.Prelude.{◌≡◌};
    ghost use Rattle.certificate.specs.lemmas.Faults.{of_text};

    ghost from_gives = { λ why fault. fault ≡ of_text why };

    fn from(why: GameFault) -> CertificateFault {
        match why {
            GameFault::OutOfMemory => CertificateFault::OutOfMemory,
            why => CertificateFault::NoGame(why),
        }
    }
}

/// A refusal, and at which line of the certificate: so many lines below the one that has so many bytes from its beginning to the end.
#[derive(Clone, Copy, Debug, PartialEq, Eq, Drop)]
pub struct Refusal {
    pub fault: CertificateFault,
    pub left: usize,
    pub below: usize,
}

impl Refusal {
    /// A refusal at the line that has so many bytes from its beginning to the end.
    pub fn at(fault: CertificateFault, rest: &[u8]) -> Refusal
        ensures { result.fault ≡ fault }
    {
        Refusal {
            fault,
            left: rest.len(),
            below: 0,
        }
    }

    /// The number of the line, from 1, in the certificate that was refused.
    pub fn line(self, certificate: &[u8]) -> usize {
        let at = certificate.len().saturating_sub(self.left);
        line_column(certificate, at).line.saturating_add(self.below)
    }
}

impl From<AllocError> for Refusal {
    ghost use Rattle.std.specs.Prelude.{◌≡◌};
    ghost use Rattle.certificate.specs.declared.fault.CertificateFault.TheVariants.{OutOfMemory};

    ghost from_gives = { λ _ refusal. refusal.fault ≡ OutOfMemory };

    fn from(_error: AllocError) -> Refusal {
        Refusal {
            fault: CertificateFault::OutOfMemory,
            left: 0,
            below: 0,
        }
    }
}
