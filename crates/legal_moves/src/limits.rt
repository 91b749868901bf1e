//! The limits of a search.

/// The most configurations that a search visits: a position whose search needs more is too wide.
pub const WIDEST: usize = 65_536;

/// The most steps of a pattern that looks alone, whose search is never too wide: with the opening there are 512 numbers, at 128 vertices.
pub const FEW_STEPS: usize = 511;

/// How many jumps there are at most in the rows of all patterns, with what shifts lead to on the way; and as many in those of the rules.
pub const MOST_JUMPS: usize = 262_144;

/// A row of jumps goes through fewer numbers and vertices than this, that where it begins among them.
pub const MOST_MET: usize = 128;
