//! The limit of a certificate.

/// The most bytes that a certificate may have.
pub const MAX_CERTIFICATE_BYTES: usize = 268_435_456;
