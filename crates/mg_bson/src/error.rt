//! Why a document is not read, written or changed.
ghost use Rattle.std.specs.Prelude.{◌≡◌};
ghost use Rattle.mg_bson.specs.declared.error.BsonError.TheVariants.{OutOfMemory};

use std::alloc::{AllocError, AllocFailed};
use thiserror::Error;

/// Why a document is not read, written or changed. Its text is the name of the variant.
///
///     match to_bytes(alloc, &document) {
///         Ok(raw) => ..,
///         Err(BsonError::TooLarge) => ..,
///         Err(error) => ..,
///     }
#[derive(Clone, Copy, Debug, PartialEq, Eq, Error)]
pub enum BsonError {
    /// Memory ran out.
    #[error("OutOfMemory")]
    OutOfMemory,
    /// The bytes are no document, or one of more than [`MAX_LEVELS`](crate::MAX_LEVELS) levels.
    /// [`Malformation::of`](crate::Malformation::of) tells where and why.
    #[error("Malformed")]
    Malformed,
    /// The document takes more than [`MAX_DOCUMENT_BYTES`](crate::MAX_DOCUMENT_BYTES) bytes.
    #[error("TooLarge")]
    TooLarge,
    /// The document has more than [`MAX_LEVELS`](crate::MAX_LEVELS) levels.
    #[error("TooDeep")]
    TooDeep,
    /// A name, or a text of a regular expression, holds the character 0, which ends it in the
    /// bytes.
    #[error("BadName")]
    BadName,
}

impl From<AllocError> for BsonError {
    ghost from_gives = { λ _ e. e ≡ OutOfMemory };

    fn from(_e: AllocError) -> BsonError {
        BsonError::OutOfMemory
    }
}

impl<T: Drop> From<AllocFailed<T>> for BsonError {
    ghost from_gives = { λ _ e. e ≡ OutOfMemory };

    fn from(_e: AllocFailed<T>) -> BsonError {
        BsonError::OutOfMemory
    }
}
