//! The reply that a batch came in.
ghost use Rattle.std.specs.Prelude.{◌≡◌, ◌↔◌, IfErr, IfOk, IsTrue, MatchResult, Ok, None, Some, codes, option_map};
ghost use Rattle.mg_bson.specs.Raw.{fields, items};
ghost use Rattle.mg_bson.specs.Spans.{array_inside};
ghost use Rattle.mg_bson.specs.Walks.{before};
ghost use Rattle.mg_ops.specs.Cursors.{batch_at};
ghost use Rattle.mg_cursor.specs.Batches.{BreaksBatch, HasItems, NoBatchIn, batch_in, documents_of, items_of, missing_in};

use mg_bson::{RawArray, RawDocument, RawDocumentBuf, RawDocuments};
use mg_link::{Error, ErrorKind, Malformed, plain};
use std::alloc::AllocError;
use std::marker::Model;

/// A batch of documents, in the reply that it came in. In a contract it is the bytes of the reply.
///
///     let batch = RawBatch::new(reply);
///     for value in &batch.doc_slices()? { .. }
#[derive(Debug)]
pub struct RawBatch {
    reply: RawDocumentBuf,
}

// By hand, so that letting one go is one call.
impl Drop for RawBatch {
    fn drop(self) {
        let RawBatch { reply: _ } = self;
    }
}

impl Model for RawBatch {
    ghost use Rattle.std.specs.Prelude.{List, ℕ};

    ghost Value = { List ℕ };

    ghost view = { λ b. b.reply };
}

impl Clone for RawBatch {
    ghost is_clone = { λ b c. c ≡ b };

    fn clone(&self) -> Result<RawBatch, AllocError> {
        let reply = self.reply.clone()?;
        Ok(RawBatch { reply })
    }
}

// The batch of a reply.
fn batch_of<'a>(reply: &RawDocument<'a>) -> Option<RawArray<'a>>
    ensures bytes { result ≡ batch_in reply.now }
    ensures values { option_map items result ≡ items_of (fields reply.now) }
{
    match reply.array_inside("cursor", "firstBatch") {
        Some(batch) => Some(batch),
        None => reply.array_inside("cursor", "nextBatch"),
    }
}

// What is missing in a reply without a batch.
fn missing(reply: &RawDocument<'_>) -> Malformed
    ensures { result ≡ missing_in (fields reply.now) }
{
    match reply.get("cursor") {
        Some(found) => match found.as_document() {
            Some(_) => Malformed::NoBatch,
            None => Malformed::NoCursor,
        },
        None => Malformed::NoCursor,
    }
}

// The documents of a reply's batch, which are not looked at.
fn slices_of<'a>(reply: &RawDocument<'a>) -> Result<RawArray<'a>, Error>
    ensures bytes { MatchResult result (λ a. batch_in reply.now ≡ Some a) (λ e. batch_in reply.now ≡ None) }
    ensures values { MatchResult result (λ a. batch_at (fields reply.now) ≡ Ok (items a)) (λ e. NoBatchIn (fields reply.now) e) }
{
    match batch_of(reply) {
        Some(batch) => Ok(batch),
        None => Err(plain(ErrorKind::InvalidResponse(missing(reply)))),
    }
}

// Whether its batch has an item.
fn holds_items(reply: &RawDocument<'_>) -> bool
    ensures { IsTrue result ↔ HasItems reply.now }
{
    match slices_of(reply) {
        Ok(batch) => !batch.is_empty(),
        Err(_error) => false,
    }
}

// The name that its batch has.
fn first_name(reply: &RawDocument<'_>) -> &'static str
    ensures { array_inside (codes "cursor") result.now reply.now ≡ batch_in reply.now }
{
    match reply.array_inside("cursor", "firstBatch") {
        Some(_batch) => "firstBatch",
        None => "nextBatch",
    }
}

// Its documents, before the first of them; none where it has no batch, or an item of that is no document.
fn walk_of(reply: RawDocumentBuf) -> Option<RawDocuments>
    ensures { result ≡ option_map (before reply) (documents_of reply) }
{
    let name = first_name(&reply.as_raw());
    RawDocuments::new(reply, "cursor", name)
}

// The same, and what is malformed where there are none.
fn documents_in(reply: RawDocumentBuf) -> Result<RawDocuments, Error>
    ensures ok { IfOk result (λ d. option_map (before reply) (documents_of reply) ≡ Some d) }
    ensures err { IfErr result (λ e. BreaksBatch reply e) }
{
    let _batch = match slices_of(&reply.as_raw()) {
        Ok(batch) => batch,
        Err(error) => return Err(error),
    };
    match walk_of(reply) {
        Some(documents) => Ok(documents),
        None => Err(plain(ErrorKind::InvalidResponse(Malformed::BadItem))),
    }
}

impl RawBatch {
    /// The batch of a reply, which may be any document.
    pub fn new(reply: RawDocumentBuf) -> RawBatch
        ensures { result ≡ reply }
    {
        RawBatch { reply }
    }

    /// Lends the documents of the batch, a part of the reply's own bytes. They are not looked at. Without a cursor, or without a
    /// batch in it, the reply is malformed. It takes no memory.
    pub fn doc_slices(&self) -> Result<RawArray<'_>, Error>
        ensures bytes { MatchResult result (λ a. batch_in self.now ≡ Some a) (λ e. batch_in self.now ≡ None) }
        ensures values { MatchResult result (λ a. batch_at (fields self.now) ≡ Ok (items a)) (λ e. NoBatchIn (fields self.now) e) }
    {
        slices_of(&self.reply.as_raw())
    }

    /// Lends the whole reply. It takes no memory.
    pub fn as_raw_document(&self) -> RawDocument<'_>
        ensures { result ≡ self.now }
    {
        self.reply.as_raw()
    }

    /// Whether the batch has an item.
    pub fn has_items(&self) -> bool
        ensures { IsTrue result ↔ HasItems self.now }
    {
        holds_items(&self.reply.as_raw())
    }

    // The documents of the batch, before the first of them.
    pub(crate) fn into_documents(self) -> Result<RawDocuments, Error>
        ensures ok { IfOk result (λ d. option_map (before self) (documents_of self) ≡ Some d) }
        ensures err { IfErr result (λ e. BreaksBatch self e) }
    {
        let RawBatch { reply } = self;
        documents_in(reply)
    }
}
