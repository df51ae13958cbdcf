//! The replies of the store, as documents.
ghost use Rattle.std.specs.Prelude.{◌≡◌, ◌<◌, ◌^◌, pos, IfOk, OnOk, map, string_bytes};
ghost use Rattle.mg_bson.specs.Find.{with_field, with_item};
ghost use Rattle.mg_bson.specs.Literal.{◌⇒◌⨾◌, empty, word};
ghost use Rattle.mg_bson.specs.Tree.{array, document, field, int32, string, timestamp};
ghost use Rattle.mg_bson.specs.View.{tree};
ghost use Rattle.mg_link.specs.Namespace.{space};
ghost use Rattle.mg_server.specs.Rules.{cursor_fields, done_reply, errors_field, number_of, refusal, stamp_of, token_fields, token_of, updated_reply, words_of, deleted_reply};
ghost use Rattle.mg_query.specs.Replies.{Written, killed_with, found_with};

use crate::limits::MAX_REPLY;
use mg_bson::{Array, Bson, BsonError, Document, RawDocumentBuf, Timestamp, to_bytes};
use mg_link::{Namespace, OutOfMemory};
use std::alloc::Global;

/// The document with a field more at its end.
pub(crate) fn with(mut document: Document, name: &str, value: Bson) -> Result<Document, OutOfMemory>
    ensures { IfOk result (λ d. d ≡ with_field document name.now (tree value)) }
{
    match document.append(name, value) {
        Ok(()) => Ok(document),
        Err(_) => Err(OutOfMemory),
    }
}

/// The document with a text more at its end.
pub(crate) fn with_text(
    alloc: Global,
    document: Document,
    name: &str,
    value: &str,
) -> Result<Document, OutOfMemory>
    ensures { IfOk result (λ d. d ≡ with_field document name.now (string value.now)) }
{
    let value = text(alloc, value)?;
    with(document, name, value)
}

/// Adds an item at the end.
pub fn put_item(array: &mut Array, value: Bson) -> Result<(), OutOfMemory>
    ensures { OnOk result (array.new ≡ with_item array.old (tree value)) }
{
    match array.push(value) {
        Ok(()) => Ok(()),
        Err(_) => Err(OutOfMemory),
    }
}

fn text(alloc: Global, text: &str) -> Result<Bson, OutOfMemory>
    ensures { IfOk result (λ t. tree t ≡ string text.now) }
{
    Ok(Bson::String(String::from_str(alloc, text)?))
}

/// A count, as Int32 where it fits.
pub(crate) fn count(n: u64) -> Bson
    ensures { n < 2 ^ 63 → tree result ≡ number_of n }
{
    match i32::try_from(n) {
        Ok(n) => Bson::Int32(n),
        Err(_) => Bson::Int64(i64::try_from(n).unwrap_or(i64::MAX)),
    }
}

/// The token of a place in the list of changes.
pub fn token(alloc: Global, place: u64) -> Result<Document, OutOfMemory>
    ensures { IfOk result (λ d. d ≡ token_fields place) }
{
    let digits = hex::encode(alloc, place.to_be_bytes().as_slice())?;
    with(Document::new(alloc), "_data", Bson::String(digits))
}

/// The time behind so many entries, which stays at the greatest number of seconds.
pub fn time(entries: u64) -> Timestamp
    ensures { timestamp result.time result.increment ≡ stamp_of entries }
{
    Timestamp {
        time: entries.min(4_294_967_295) as u32,
        increment: 1,
    }
}

/// The texts as an array.
fn words_of(alloc: Global, labels: &[String]) -> Result<Array, OutOfMemory>
    ensures { IfOk result (λ a. a ≡ words_of (map string_bytes labels.now)) }
{
    let mut words = Array::new(alloc);
    for label in labels {
        let word = text(alloc, label.as_str())?;
        put_item(&mut words, word)?;
    }
    Ok(words)
}

/// The reply that refuses a command.
pub fn refusal(alloc: Global, code: i32, labels: &[String]) -> Result<Document, OutOfMemory>
    ensures { IfOk result (λ d. d ≡ refusal code (map string_bytes labels.now)) }
{
    let reply = with(Document::new(alloc), "ok", Bson::Int32(0))?;
    let reply = with_text(alloc, reply, "errmsg", "refused")?;
    let reply = with(reply, "code", Bson::Int32(code))?;
    let reply = with_text(alloc, reply, "codeName", "Refused")?;
    let labels = words_of(alloc, labels)?;
    with(reply, "errorLabels", Bson::Array(labels))
}

/// The id and the namespace of a cursor.
fn begun_cursor(alloc: Global, id: i64, ns: &Namespace) -> Result<Document, OutOfMemory>
    ensures { IfOk result (λ d. d ≡ cursor_fields id (space ns.now) empty) }
{
    let full_name = format!(in alloc; "{ns}")?;
    let cursor = with(Document::new(alloc), "id", Bson::Int64(id))?;
    with(cursor, "ns", Bson::String(full_name))
}

/// The part of a reply that holds a batch, under this name, and the token behind it.
fn cursor(
    alloc: Global,
    id: i64,
    ns: &Namespace,
    batch: &str,
    events: Array,
    place: u64,
) -> Result<Document, OutOfMemory>
    ensures { IfOk result (λ d. d ≡ cursor_fields id (space ns.now) (field batch.now (array events) ("postBatchResumeToken" ⇒ token_of place ⨾ empty))) }
{
    let cursor = begun_cursor(alloc, id, ns)?;
    let cursor = with(cursor, batch, Bson::Array(events))?;
    let token = token(alloc, place)?;
    with(cursor, "postBatchResumeToken", Bson::Document(token))
}

/// The reply to the aggregate that opens a watch.
pub fn opened(
    alloc: Global,
    id: i64,
    ns: &Namespace,
    events: Array,
    place: u64,
    now: Timestamp,
) -> Result<Document, OutOfMemory>
    ensures { IfOk result (λ d. d ≡ ("cursor" ⇒ document (cursor_fields id (space ns.now) ("firstBatch" ⇒ array events ⨾ "postBatchResumeToken" ⇒ token_of place ⨾ empty)) ⨾ "operationTime" ⇒ timestamp now.time now.increment ⨾ "ok" ⇒ int32 (pos 1) ⨾ empty)) }
{
    let cursor = cursor(alloc, id, ns, "firstBatch", events, place)?;
    let reply = with(Document::new(alloc), "cursor", Bson::Document(cursor))?;
    let reply = with(reply, "operationTime", Bson::Timestamp(now))?;
    with(reply, "ok", Bson::Int32(1))
}

/// The reply to a getMore.
pub fn next_batch(
    alloc: Global,
    id: i64,
    ns: &Namespace,
    events: Array,
    place: u64,
) -> Result<Document, OutOfMemory>
    ensures { IfOk result (λ d. d ≡ ("cursor" ⇒ document (cursor_fields id (space ns.now) ("nextBatch" ⇒ array events ⨾ "postBatchResumeToken" ⇒ token_of place ⨾ empty)) ⨾ "ok" ⇒ int32 (pos 1) ⨾ empty)) }
{
    let cursor = cursor(alloc, id, ns, "nextBatch", events, place)?;
    let reply = with(Document::new(alloc), "cursor", Bson::Document(cursor))?;
    with(reply, "ok", Bson::Int32(1))
}

/// The reply to a query, or to its getMore: a batch of documents, under this name.
pub fn found(
    alloc: Global,
    id: i64,
    ns: &Namespace,
    batch: &str,
    documents: Array,
) -> Result<Document, OutOfMemory>
    ensures { IfOk result (λ d. d ≡ found_with id (space ns.now) batch.now documents) }
{
    let cursor = begun_cursor(alloc, id, ns)?;
    let cursor = with(cursor, batch, Bson::Array(documents))?;
    let reply = with(Document::new(alloc), "cursor", Bson::Document(cursor))?;
    with(reply, "ok", Bson::Int32(1))
}

/// The reply to an insert: how many documents were appended, and which were not.
pub fn inserted(alloc: Global, n: u64, errors: Array) -> Result<Document, OutOfMemory>
    ensures { n < 2 ^ 63 → IfOk result (λ d. d ≡ ("n" ⇒ number_of n ⨾ errors_field errors ("ok" ⇒ int32 (pos 1) ⨾ empty))) }
{
    let reply = with(Document::new(alloc), "n", count(n))?;
    if errors.is_empty() {
        return with(reply, "ok", Bson::Int32(1));
    }
    let reply = with(reply, "writeErrors", Bson::Array(errors))?;
    with(reply, "ok", Bson::Int32(1))
}

/// One document of an insert that was not appended.
pub fn write_error(alloc: Global, index: i32, code: i32) -> Result<Document, OutOfMemory>
    ensures { IfOk result (λ d. d ≡ ("index" ⇒ int32 index ⨾ "code" ⇒ int32 code ⨾ "errmsg" ⇒ word "refused" ⨾ empty)) }
{
    let error = with(Document::new(alloc), "index", Bson::Int32(index))?;
    let error = with(error, "code", Bson::Int32(code))?;
    with_text(alloc, error, "errmsg", "refused")
}

/// The reply to an update: how many documents it was for, and how many it changed.
pub fn updated(alloc: Global, n: u64, changed: u64) -> Result<Document, OutOfMemory>
    ensures { n < 2 ^ 63 → changed < 2 ^ 63 → IfOk result (λ d. d ≡ updated_reply n changed) }
{
    let reply = with(Document::new(alloc), "n", count(n))?;
    let reply = with(reply, "nModified", count(changed))?;
    with(reply, "ok", Bson::Int32(1))
}

/// The reply to a delete.
pub fn deleted(alloc: Global, n: u64) -> Result<Document, OutOfMemory>
    ensures { n < 2 ^ 63 → IfOk result (λ d. d ≡ deleted_reply n) }
{
    let reply = with(Document::new(alloc), "n", count(n))?;
    with(reply, "ok", Bson::Int32(1))
}

/// The reply that tells of success alone.
pub fn done(alloc: Global) -> Result<Document, OutOfMemory>
    ensures { IfOk result (λ d. d ≡ done_reply) }
{
    with(Document::new(alloc), "ok", Bson::Int32(1))
}

/// The reply to a killCursors.
pub fn killed(alloc: Global, killed: Array, not_found: Array) -> Result<Document, OutOfMemory>
    ensures { IfOk result (λ d. d ≡ killed_with killed not_found) }
{
    let reply = with(Document::new(alloc), "cursorsKilled", Bson::Array(killed))?;
    let reply = with(reply, "cursorsNotFound", Bson::Array(not_found))?;
    let reply = with(reply, "cursorsAlive", Bson::Array(Array::new(alloc)))?;
    let reply = with(reply, "cursorsUnknown", Bson::Array(Array::new(alloc)))?;
    with(reply, "ok", Bson::Int32(1))
}

/// The bytes of a reply, or none where it is larger or deeper than a reply may be. Its names are of checked documents, so
/// that each can be written.
pub fn bytes_of(alloc: Global, reply: &Document) -> Result<Option<RawDocumentBuf>, OutOfMemory>
    ensures { IfOk result (Written reply.now) }
{
    match to_bytes(alloc, reply) {
        Ok(bytes) => {
            if bytes.as_bytes().len() > MAX_REPLY {
                return Ok(None);
            }
            Ok(Some(bytes))
        }
        Err(BsonError::TooLarge) => Ok(None),
        Err(BsonError::TooDeep) => Ok(None),
        Err(_) => Err(OutOfMemory),
    }
}
