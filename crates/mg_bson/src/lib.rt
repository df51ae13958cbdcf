//! BSON documents, after the specification at <https://bsonspec.org/spec.html>.
//!
//! A [`Document`] is a tree that owns its parts. [`to_bytes`] encodes it as a [`RawDocumentBuf`],
//! the bytes of a document. [`RawDocumentBuf::from_bytes`] and [`RawDocument::from_bytes`] check
//! received bytes once, at all levels and not just their frame, so they take the time of a walk.
//! From then on a [`RawDocument`] lends their values with no memory and no refusal.
//! [`to_document`] decodes them.
//!
//! In a contract a [`Document`] is its list of names and values, and the bytes of a document are a
//! list of numbers. The two are related by `bytes`, the encoding, and `doc`, the decoding;
//! [`laws`] has what holds of them.
#![tactic(auto)]

mod access;
mod check;
mod clone;
mod decode;
mod documents;
mod each;
mod equal;
mod error;
mod from;
mod kind;
pub mod laws;
mod lend;
mod levels;
mod limits;
mod malformed;
mod measure;
mod name;
mod object_id;
mod raw;
mod read;
mod scan;
mod span;
mod tree;
mod write;

pub use access::ValueAccessError;
pub use decode::to_document;
pub use documents::RawDocuments;
pub use error::BsonError;
pub use kind::Kind;
pub use limits::{MAX_DOCUMENT_BYTES, MAX_LEVELS};
pub use malformed::{Malformation, MalformedReason};
pub use object_id::ObjectId;
pub use raw::{RawArray, RawDocument, RawDocumentBuf, RawItems, RawIter, RawValue};
pub use tree::{
    Array, ArrayIter, Binary, Bson, CodeWithScope, DateTime, DbPointer, Document, DocumentIter,
    DocumentKeys, Regex, Timestamp,
};
pub use write::to_bytes;
