//! How large names, documents and replies may be.
ghost use Rattle.std.specs.Prelude.{◌≡◌, IfOk};
ghost use Rattle.mg_bson.specs.Bytes.{bytes};
ghost use Rattle.mg_server.specs.Rules.{may_be_given, may_stay};

use mg_bson::{BsonError, Document, RawDocumentBuf, to_bytes};
use mg_link::OutOfMemory;
use std::alloc::Global;

/// The most bytes of the name of a database or a collection.
pub(crate) const MAX_NAME: usize = 65_536;

/// The most bytes of a stored document.
pub const MAX_DOCUMENT: usize = 16_777_216;

/// The most levels of an inserted document: as many as fit the event in a reply.
pub const MAX_INSERTED_LEVELS: u32 = 96;

/// The most levels of a document that a reply gives.
const MAX_GIVEN_LEVELS: u32 = 97;

/// The most bytes of the documents of a batch together.
pub const MAX_BATCH: usize = 16_777_216;

/// The most bytes of a reply.
pub(crate) const MAX_REPLY: usize = 47_000_000;

/// Whether a reply may give the document.
pub fn may_be_given(document: &Document) -> bool
    ensures { result ≡ may_be_given document.now }
{
    document.is_within(MAX_GIVEN_LEVELS)
}

/// Whether the document, encoded so, may stand in a collection.
pub fn encoded_may_stay(encoded: &RawDocumentBuf, document: &Document) -> bool
    ensures { encoded.now ≡ bytes document.now → result ≡ may_stay document.now }
{
    encoded.as_bytes().len() <= MAX_DOCUMENT && may_be_given(document)
}

/// Whether the document may stand in a collection.
pub(crate) fn may_stay(alloc: Global, document: &Document) -> Result<bool, OutOfMemory>
    ensures { IfOk result (λ b. b ≡ may_stay document.now) }
{
    match to_bytes(alloc, document) {
        Ok(encoded) => Ok(encoded_may_stay(&encoded, document)),
        Err(BsonError::TooLarge) => Ok(false),
        Err(BsonError::TooDeep) => Ok(false),
        Err(_) => Err(OutOfMemory),
    }
}
