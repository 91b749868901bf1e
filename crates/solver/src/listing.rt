//! What is handed out for a listing.

/// A listing: a version of the table, and how many of its rows were given. It is given back by `list_end`, and cannot be dropped.
pub struct Listing<V> {
    pub(crate) version: V,
    pub(crate) next: u32,
}
