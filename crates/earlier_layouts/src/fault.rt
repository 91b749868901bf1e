//! Why a table was not copied.
use table::TableFault;
use thiserror::Error;

/// Why a table was not copied. The table that was read is as it was; what is left of the other, which is given up, the clause
/// `left` says.
#[derive(Clone, Copy, PartialEq, Eq, Debug, Drop, Error)]
pub enum CopyFault {
    /// The table that is read gave no answer.
    #[error("{0}")]
    From(TableFault),
    /// The table that is written gave no answer.
    #[error("{0}")]
    To(TableFault),
    /// The table that is written counts something else than was written, so a device under it does not keep to its word.
    #[error("the copy is inconsistent")]
    Inconsistent,
}
