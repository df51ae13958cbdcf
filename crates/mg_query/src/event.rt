//! The events of changes, as documents. Each has the token and the time of its entry, which stands before the place that it
//! is given.
ghost use Rattle.std.specs.Prelude.{◌≡◌, IfOk, Some, codes};
ghost use Rattle.mg_bson.specs.Find.{get};
ghost use Rattle.mg_bson.specs.Literal.{◌⇒◌⨾◌, empty};
ghost use Rattle.mg_bson.specs.Tree.{Fields, array, document, no_items, string};
ghost use Rattle.mg_bson.specs.View.{tree};
ghost use Rattle.mg_link.specs.Namespace.{space};
ghost use Rattle.mg_server.specs.Rules.{deleted_event, document_event, dropped_event, insert_event, invalidate_event, stamp_of, token_of};

use crate::reply::{time, token, with, with_text};
use mg_bson::{Array, Bson, Document};
use mg_link::{Namespace, OutOfMemory};
use std::alloc::Global;

/// The names of a collection, as they stand in an event.
fn names_of(alloc: Global, ns: &Namespace) -> Result<Document, OutOfMemory>
    ensures { IfOk result (λ d. d ≡ ("db" ⇒ string (space ns.now).db ⨾ "coll" ⇒ string (space ns.now).coll ⨾ empty)) }
{
    let db = ns.db.clone()?;
    let coll = ns.coll.clone()?;
    let names = with(Document::new(alloc), "db", Bson::String(db))?;
    with(names, "coll", Bson::String(coll))
}

/// The document of an `_id` alone.
fn key_document(alloc: Global, id: Bson) -> Result<Document, OutOfMemory>
    ensures { IfOk result (λ d. d ≡ ("_id" ⇒ tree id ⨾ empty)) }
{
    with(Document::new(alloc), "_id", id)
}

/// What each event says first.
fn timed_event(alloc: Global, place: u64, kind: &str) -> Result<Document, OutOfMemory>
    ensures { IfOk result (λ d. d ≡ ("_id" ⇒ token_of place ⨾ "operationType" ⇒ string kind.now ⨾ "clusterTime" ⇒ stamp_of place ⨾ empty)) }
{
    let token = token(alloc, place)?;
    let event = with(Document::new(alloc), "_id", Bson::Document(token))?;
    let event = with_text(alloc, event, "operationType", kind)?;
    with(event, "clusterTime", Bson::Timestamp(time(place)))
}

/// What the event of a change of this kind says before it comes to the document.
fn begun_event(
    alloc: Global,
    place: u64,
    kind: &str,
    ns: &Namespace,
) -> Result<Document, OutOfMemory>
    ensures { IfOk result (λ d. d ≡ ("_id" ⇒ token_of place ⨾ "operationType" ⇒ string kind.now ⨾ "clusterTime" ⇒ stamp_of place
        ⨾ "ns" ⇒ document ("db" ⇒ string (space ns.now).db ⨾ "coll" ⇒ string (space ns.now).coll ⨾ empty) ⨾ empty)) }
{
    let event = timed_event(alloc, place, kind)?;
    let names = names_of(alloc, ns)?;
    with(event, "ns", Bson::Document(names))
}

/// What the event of a change of this kind to the document with this `_id` says before it comes to what changed.
fn keyed_event(
    alloc: Global,
    place: u64,
    kind: &str,
    ns: &Namespace,
    id: Bson,
) -> Result<Document, OutOfMemory>
    ensures { IfOk result (λ e. (d : Fields) → get (codes "_id") d ≡ Some (tree id) → e ≡ document_event place kind.now (space ns.now) d empty) }
{
    let key = key_document(alloc, id)?;
    let event = begun_event(alloc, place, kind, ns)?;
    with(event, "documentKey", Bson::Document(key))
}

/// The event of a document that was inserted, whose entry stands before this place.
pub fn insert_event(
    alloc: Global,
    place: u64,
    ns: &Namespace,
    id: Bson,
    inserted: Document,
) -> Result<Document, OutOfMemory>
    ensures { IfOk result (λ d. d ≡ insert_event place (space ns.now) (tree id) inserted) }
{
    let event = keyed_event(alloc, place, "insert", ns, id)?;
    with(event, "fullDocument", Bson::Document(inserted))
}

/// The event of a document in which these fields were set anew.
pub fn updated_event(
    alloc: Global,
    place: u64,
    ns: &Namespace,
    id: Bson,
    updated: Document,
) -> Result<Document, OutOfMemory>
    ensures { IfOk result (λ e. (d : Fields) → get (codes "_id") d ≡ Some (tree id) → e ≡ document_event place (codes "update") (space ns.now) d ("updateDescription" ⇒ document ("updatedFields" ⇒ document updated ⨾ "removedFields" ⇒ array no_items ⨾ empty) ⨾ empty)) }
{
    let told = with(
        Document::new(alloc),
        "updatedFields",
        Bson::Document(updated),
    )?;
    let told = with(told, "removedFields", Bson::Array(Array::new(alloc)))?;
    let event = keyed_event(alloc, place, "update", ns, id)?;
    with(event, "updateDescription", Bson::Document(told))
}

/// The event of a document in whose place this one was put.
pub fn replaced_event(
    alloc: Global,
    place: u64,
    ns: &Namespace,
    id: Bson,
    put: Document,
) -> Result<Document, OutOfMemory>
    ensures { IfOk result (λ e. (d : Fields) → get (codes "_id") d ≡ Some (tree id) → e ≡ document_event place (codes "replace") (space ns.now) d ("fullDocument" ⇒ document put ⨾ empty)) }
{
    let event = keyed_event(alloc, place, "replace", ns, id)?;
    with(event, "fullDocument", Bson::Document(put))
}

/// The event of a document that was deleted.
pub fn deleted_event(
    alloc: Global,
    place: u64,
    ns: &Namespace,
    id: Bson,
) -> Result<Document, OutOfMemory>
    ensures { IfOk result (λ e. (d : Fields) → get (codes "_id") d ≡ Some (tree id) → e ≡ deleted_event place (space ns.now) d) }
{
    keyed_event(alloc, place, "delete", ns, id)
}

/// The event of a collection that was dropped, whose entry stands before this place.
pub fn dropped_event(alloc: Global, place: u64, ns: &Namespace) -> Result<Document, OutOfMemory>
    ensures { IfOk result (λ d. d ≡ dropped_event place (space ns.now)) }
{
    begun_event(alloc, place, "drop", ns)
}

/// The event by which watches of a collection end.
pub fn invalidate_event(alloc: Global, place: u64) -> Result<Document, OutOfMemory>
    ensures { IfOk result (λ d. d ≡ invalidate_event place) }
{
    timed_event(alloc, place, "invalidate")
}
