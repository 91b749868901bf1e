//! What happens to a file of bytes.

/// Something that happened to a file, or may have happened.
#[derive(Clone, Copy, Debug, PartialEq, Eq, Drop)]
pub enum FileEvent {
    /// From this place on this many bytes were to be written: all of them were, or some, or none.
    Wrote(u64, usize),
    /// What reads give was made durable.
    Synced,
    /// It was to have this many bytes.
    Resized(u64),
}
