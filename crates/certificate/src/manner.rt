//! What the lines of a list say.
ghost use Rattle.std.specs.Prelude.{◌≡◌};
ghost use Rattle.certificate.specs.Format.{words_of};

/// What the lines of a list say.
#[derive(Clone, Copy, PartialEq, Eq, Debug, Drop)]
pub enum Manner {
    /// A player wins each position in at most so many moves as stand behind it.
    AtMost,
    /// In at least so many.
    AtLeast,
    /// Never; no number stands behind the position.
    Never,
}

/// The rank of each position of a safe set.
pub const NEVER: u32 = 1;

impl Manner {
    ghost use Rattle.std.specs.Prelude.{◌≡◌};
    ghost use Rattle.certificate.specs.Format.{words_of};

    /// The words in front of the player's name.
    pub fn words(self) -> &'static [u8]
        ensures { result.now ≡ words_of self }
    {
        match self {
            Manner::AtMost => b"at most ",
            Manner::AtLeast => b"at least ",
            Manner::Never => b"never ",
        }
    }
}
