//! How many positions a table may have, and how many pages it may take.

/// The most positions that a table may have.
pub const MAX_POSITIONS: u32 = 1 << 24;

/// The most pages that one entry takes that is written to a table in a file: two on each of 24 levels of its tree, and one for a
/// new root.
pub const PAGES_PER_ENTRY: u32 = 49;
