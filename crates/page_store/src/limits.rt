//! How many pages a table has.

/// The fewest pages of a table.
pub const MIN_PAGES: u32 = 16;

/// The most pages that a store has, the system page counted: what a disk has beyond them is not used.
pub const MAX_PAGES: u32 = 1_048_576;
