//! Why a text is no game.

use rbg_text::fault::ReadError;
use std::alloc::{AllocError, AllocFailed};
use thiserror::Error;

/// Why a text is no game, in the order of the codes G1 to G10.
#[derive(Clone, Copy, Debug, PartialEq, Eq, Drop, Error)]
pub enum GameFault {
    /// Some byte begins no token, or the tokens do not fit the grammar.
    #[error("the text is not in the grammar")]
    Syntax,
    /// A section stands twice, or one but the variables is missing.
    #[error("a section is missing or stands twice")]
    Section,
    #[error("there are not exactly two players")]
    NotTwoPlayers,
    #[error("a name is used that is not declared")]
    UnknownName,
    #[error("a name is declared twice")]
    RepeatedName,
    /// A bound or a number is over the limit.
    #[error("a bound or a number is too large")]
    BoundTooLarge,
    /// There is too much of something, or it nests too deep.
    #[error("the game is too large")]
    TooLarge,
    #[error("an expression can become too large")]
    ExpressionTooLarge,
    #[error("a pattern has a switch in it")]
    SwitchInPattern,
    #[error("out of memory")]
    OutOfMemory,
}

impl GameFault {
    ghost use Rattle.std.specs.Prelude.{◌≡◌};
    ghost use Rattle.rbg_read.specs.Codes.{fault_code};

    /// The code that the program prints.
    pub fn code(self) -> &'static str
        ensures { result.now ≡ fault_code self }
    {
        match self {
            GameFault::Syntax => "G1",
            GameFault::Section => "G2",
            GameFault::NotTwoPlayers => "G3",
            GameFault::UnknownName => "G4",
            GameFault::RepeatedName => "G5",
            GameFault::BoundTooLarge => "G6",
            GameFault::TooLarge => "G7",
            GameFault::ExpressionTooLarge => "G8",
            GameFault::SwitchInPattern => "G9",
            GameFault::OutOfMemory => "G10",
        }
    }
}

impl From<ReadError> for GameFault {
    ghost use Rattle.std.specs.Prelude.{◌≡◌};
    ghost use Rattle.rbg_read.specs.ReadFaults.{fault_of};

    ghost from_gives = { λ error fault. fault ≡ fault_of error };

    fn from(error: ReadError) -> GameFault {
        match error {
            ReadError::Memory => GameFault::OutOfMemory,
            ReadError::Syntax => GameFault::Syntax,
        }
    }
}

impl From<AllocError> for GameFault {
    ghost use Rattle.std.specs.Prelude.{◌≡◌};
    ghost use Rattle.rbg_read.specs.declared.fault.GameFault.TheVariants.{OutOfMemory};

    ghost from_gives = { λ _ fault. fault ≡ OutOfMemory };

    fn from(_error: AllocError) -> GameFault {
        GameFault::OutOfMemory
    }
}

impl<T: Drop> From<AllocFailed<T>> for GameFault {
    ghost use Rattle.std.specs.Prelude.{◌≡◌};
    ghost use Rattle.rbg_read.specs.declared.fault.GameFault.TheVariants.{OutOfMemory};

    ghost from_gives = { λ _ fault. fault ≡ OutOfMemory };

    fn from(_error: AllocFailed<T>) -> GameFault {
        GameFault::OutOfMemory
    }
}
