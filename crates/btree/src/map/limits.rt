//! How deep a map can be.

/// The most levels of a map: no map has more than 21, as `laws::a_map_is_shallow` says, since there are no more pages.
pub const MAX_LEVELS: usize = 24;
