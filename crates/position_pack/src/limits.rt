//! The limit of a packed position.

/// The most bytes that a packed position has room for: by the limits of a game it has 234 at most.
pub const MAX_PACKED: usize = 240;
