//! Copies that own their parts, and encodings.
ghost use Rattle.std.specs.Prelude.{◌≡◌, ◌≤◌, length, IfOk, OnOk};
ghost use Rattle.mg_bson.specs.Bytes.{bytes};
ghost use Rattle.mg_bson.specs.Raw.{fields};
ghost use Rattle.mg_bson.specs.RawView.{value};
ghost use Rattle.mg_bson.specs.View.{tree};
ghost use Rattle.mg_bson.specs.Writable.{max_len};

use mg_bson::{Bson, Document, RawDocument, RawDocumentBuf, RawValue, to_bytes, to_document};
use mg_link::OutOfMemory;
use std::alloc::Global;

/// The bytes of a document that is known to be one that can be encoded.
pub fn encoded(alloc: Global, document: &Document) -> Result<RawDocumentBuf, OutOfMemory>
    ensures bytes { IfOk result (λ r. r ≡ bytes document.now) }
    ensures read_back { IfOk result (λ r. fields r ≡ document.now) }
    ensures short { OnOk result (length (bytes document.now) ≤ max_len) }
{
    match to_bytes(alloc, document) {
        Ok(bytes) => Ok(bytes),
        Err(_) => Err(OutOfMemory),
    }
}

/// A copy that owns its bytes.
pub fn copy(alloc: Global, raw: &RawDocument<'_>) -> Result<RawDocumentBuf, OutOfMemory>
    ensures { IfOk result (λ r. r ≡ raw.now) }
{
    match raw.to_buf(alloc) {
        Ok(owned) => Ok(owned),
        Err(_) => Err(OutOfMemory),
    }
}

/// A copy of a value that is lent.
pub fn owned(alloc: Global, found: &RawValue<'_>) -> Result<Bson, OutOfMemory>
    ensures { IfOk result (λ v. tree v ≡ value found.now) }
{
    match found.to_value(alloc) {
        Ok(owned) => Ok(owned),
        Err(_) => Err(OutOfMemory),
    }
}

/// The document as a tree.
pub fn tree_of(alloc: Global, raw: RawDocument<'_>) -> Result<Document, OutOfMemory>
    ensures { IfOk result (λ d. d ≡ fields raw.entry) }
{
    match to_document(alloc, raw) {
        Ok(document) => Ok(document),
        Err(_) => Err(OutOfMemory),
    }
}
