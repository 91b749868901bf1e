//! A line of an input that is to be the text of a position.
ghost use Rattle.std.specs.Prelude.{◌≡◌, ◌≢◌, ◌∷◌, ◌++◌, [], ℕ, List, OnOk, false, true};
ghost use Rattle.session.specs.ByLine.{HasTaken};

use rbg_game::limits::MAX_TEXT_BYTES;
use std::alloc::{AllocError, Global};

/// More bytes than any position's text has: 128 names of pieces, those of a role and a vertex, and the numbers.
pub const MOST_BYTES: usize = 131 * MAX_TEXT_BYTES;

/// The bytes of a line so far; where they are too many for a position, the first of them.
#[derive(Drop)]
pub struct PositionLine {
    pub(crate) bytes: Vec<u8>,
    pub(crate) is_too_long: bool,
}

impl PositionLine {
    /// No byte has come.
    pub fn new(alloc: Global) -> Self
        ensures { HasTaken result [] }
    {
        PositionLine {
            bytes: Vec::new(alloc),
            is_too_long: false,
        }
    }

    /// One byte more.
    pub fn push(&mut self, byte: u8) -> Result<(), AllocError>
        ensures { (bytes : List ℕ) → HasTaken self.old bytes → OnOk result (HasTaken self.new (bytes ++ byte ∷ [])) }
    {
        if self.bytes.len() >= MOST_BYTES {
            self.is_too_long = true;
            return Ok(());
        }
        self.bytes.push(byte)?;
        Ok(())
    }

    /// The next line begins.
    pub fn clear(&mut self)
        ensures { HasTaken self.new [] }
    {
        self.bytes.clear();
        self.is_too_long = false;
    }

    /// Whether no byte has come.
    pub fn is_empty(&self) -> bool
        ensures empty { (bytes : List ℕ) → HasTaken self.now bytes → result ≡ true → bytes ≡ [] }
        ensures some { (bytes : List ℕ) → HasTaken self.now bytes → result ≡ false → bytes ≢ [] }
    {
        self.bytes.is_empty()
    }
}
