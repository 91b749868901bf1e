//! The two packings.

/// How positions are packed: packing 1 by whole bytes, packing 2 by as few bits as each field needs.
#[derive(Clone, Copy, Debug, PartialEq, Eq)]
pub enum PackingKind {
    Bytes,
    Bits,
}
