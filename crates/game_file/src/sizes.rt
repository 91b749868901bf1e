//! The numbers that go with the bytes of a table.

use retrograde::Counts;

/// How much a table has of each part.
#[derive(Clone, Copy, PartialEq, Eq, Debug, Drop)]
pub struct Sizes {
    /// Bytes of the game text.
    pub text: u32,
    /// Bytes of each packed position.
    pub packed: u32,
    pub counts: Counts,
    /// How many edges there are.
    pub edges: u64,
}
