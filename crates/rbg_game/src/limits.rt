//! The limits of a game and of its text.

/// The most bytes of a text.
pub const MAX_TEXT_BYTES: usize = 65_536;

/// How deep the brackets of a text may nest.
pub const MAX_NESTING: usize = 64;

/// The most vertices of a board.
pub const MAX_VERTICES: usize = 128;

/// The most labels of a board.
pub const MAX_LABELS: usize = 64;

/// The most pieces.
pub const MAX_PIECES: usize = 64;

/// The most variables, beside those of the two players.
pub const MAX_VARIABLES: usize = 32;

/// The most numbered actions of the rules.
pub const MAX_ACTIONS: usize = 4_096;

/// The greatest number in a text, and the greatest bound of a variable.
pub const MAX_NUMBER: u32 = 1_000_000;

/// The most points of a goal.
pub const MAX_POINTS: u32 = 1_000_000;
