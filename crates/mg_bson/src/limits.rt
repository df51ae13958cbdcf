//! The limits of a document.

/// The most levels of a document. A document is one level, and each document, array or scope
/// inside it adds one.
pub const MAX_LEVELS: u32 = 100;

/// The most bytes that a document is encoded in.
pub const MAX_DOCUMENT_BYTES: usize = 48_000_000;
