//! Why a file is not opened.

use thiserror::Error;

/// A file cannot be used as a disk.
#[derive(Clone, Copy, Debug, PartialEq, Eq, Error)]
pub enum FileRefused {
    #[error("the length of the file cannot be had")]
    NoLength,
    #[error("memory ran out")]
    OutOfMemory,
}
