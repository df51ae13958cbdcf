//! The events of change streams.
ghost use Rattle.std.specs.Prelude.{◌≡◌, IfOk};
ghost use Rattle.mg_bson.specs.Raw.{fields};
ghost use Rattle.mg_records.specs.ChangeEvents.{documents_of, event, event_documents, event_affected, event_of, event_times, affected_of, change_space, change_space_of, times_of};
ghost use Rattle.mg_records.specs.EventWords.{operation_word};
ghost use Rattle.mg_records.specs.Readings.{Gives};

use crate::copy::{copied_document, copied_text};
use crate::event_words::{ChangeNamespaceType, OperationType};
use crate::fault::{Fault, error_of};
use crate::read_raw::ReadRaw;
use crate::update_description::UpdateDescription;
use crate::value::{ReadValue, needed, optional};
use mg_bson::{DateTime, Document, RawDocument, RawValue, Timestamp};
use mg_link::Error;
use mg_options::ResumeToken;
use std::alloc::{AllocError, Global};

/// What an event is of: a database, or a collection of it (change streams specification, `ns`).
#[derive(PartialEq, Eq)]
pub struct ChangeNamespace {
    /// The name of the database.
    pub db: String,
    /// The name of the collection.
    pub coll: Option<String>,
}

// By hand, so that letting one go is one call.
impl Drop for ChangeNamespace {
    fn drop(self) {
        let ChangeNamespace { db: _, coll: _ } = self;
    }
}

/// An event of a change stream (change streams specification, "Response Format").
#[derive(PartialEq, Eq)]
pub struct ChangeStreamEvent<T> {
    /// The token of its place.
    pub id: ResumeToken,
    /// What happened.
    pub operation_type: OperationType,
    /// What it happened to.
    pub ns: Option<ChangeNamespace>,
    /// What kind of collection was made.
    pub ns_type: Option<ChangeNamespaceType>,
    /// The new name, where one was given.
    pub to: Option<ChangeNamespace>,
    /// The session of the transaction that it was part of.
    pub lsid: Option<Document>,
    /// The number of that transaction.
    pub txn_number: Option<i64>,
    /// What names the document that was changed.
    pub document_key: Option<Document>,
    /// What an update changed.
    pub update_description: Option<UpdateDescription>,
    /// The time of the server's log.
    pub cluster_time: Option<Timestamp>,
    /// The time of the server's clock.
    pub wall_time: Option<DateTime>,
    /// The whole document, as it is after the change.
    pub full_document: Option<T>,
    /// The whole document, as it was before the change.
    pub full_document_before_change: Option<T>,
}

// By hand, so that letting one go is one call.
impl<T: Drop> Drop for ChangeStreamEvent<T> {
    fn drop(self) {
        let ChangeStreamEvent {
            id: _,
            operation_type: _,
            ns: _,
            ns_type: _,
            to: _,
            lsid: _,
            txn_number: _,
            document_key: _,
            update_description: _,
            cluster_time: _,
            wall_time: _,
            full_document: _,
            full_document_before_change: _,
        } = self;
    }
}

// When it happened.
#[derive(Clone, Copy)]
struct Times {
    txn_number: Option<i64>,
    cluster_time: Option<Timestamp>,
    wall_time: Option<DateTime>,
}

// What it happened to, and what an update changed there.
struct Affected {
    ns: Option<ChangeNamespace>,
    to: Option<ChangeNamespace>,
    ns_type: Option<ChangeNamespaceType>,
    update_description: Option<UpdateDescription>,
}

// By hand, so that letting one go is one call.
impl Drop for Affected {
    fn drop(self) {
        let Affected {
            ns: _,
            to: _,
            ns_type: _,
            update_description: _,
        } = self;
    }
}

// The documents of an event.
struct Documents {
    lsid: Option<Document>,
    document_key: Option<Document>,
    full_document: Option<Document>,
    full_document_before_change: Option<Document>,
}

// By hand, so that letting one go is one call.
impl Drop for Documents {
    fn drop(self) {
        let Documents {
            lsid: _,
            document_key: _,
            full_document: _,
            full_document_before_change: _,
        } = self;
    }
}

fn change_space_of(alloc: Global, raw: &RawDocument<'_>) -> Result<ChangeNamespace, Fault>
    ensures { Gives change_space result (change_space_of (fields raw.now)) }
{
    let db = needed(alloc, raw, "db")?;
    let coll = optional(alloc, raw, "coll")?;
    Ok(ChangeNamespace { db, coll })
}

fn times_of(alloc: Global, raw: &RawDocument<'_>) -> Result<Times, Fault>
    ensures { Gives event_times result (times_of (fields raw.now)) }
{
    let txn_number = optional(alloc, raw, "txnNumber")?;
    let cluster_time = optional(alloc, raw, "clusterTime")?;
    let wall_time = optional(alloc, raw, "wallTime")?;
    Ok(Times {
        txn_number,
        cluster_time,
        wall_time,
    })
}

fn affected_of(alloc: Global, raw: &RawDocument<'_>) -> Result<Affected, Fault>
    ensures { Gives event_affected result (affected_of (fields raw.now)) }
{
    let ns = optional(alloc, raw, "ns")?;
    let to = optional(alloc, raw, "to")?;
    let update_description = optional(alloc, raw, "updateDescription")?;
    let ns_type = optional(alloc, raw, "nsType")?;
    Ok(Affected {
        ns,
        to,
        ns_type,
        update_description,
    })
}

fn documents_of(alloc: Global, raw: &RawDocument<'_>) -> Result<Documents, Fault>
    ensures { Gives event_documents result (documents_of (fields raw.now)) }
{
    let lsid = optional(alloc, raw, "lsid")?;
    let document_key = optional(alloc, raw, "documentKey")?;
    let full_document = optional(alloc, raw, "fullDocument")?;
    let full_document_before_change = optional(alloc, raw, "fullDocumentBeforeChange")?;
    Ok(Documents {
        lsid,
        document_key,
        full_document,
        full_document_before_change,
    })
}

// The event of its parts.
fn event_from(
    id: ResumeToken,
    operation_type: OperationType,
    mut affected: Affected,
    mut documents: Documents,
    times: Times,
) -> ChangeStreamEvent<Document>
    ensures { event result ≡ record {
      id = id;
      operation_type = operation_word operation_type;
      affected = event_affected affected;
      documents = event_documents documents;
      times = event_times times;
    } }
{
    ChangeStreamEvent {
        id,
        operation_type,
        ns: affected.ns.take(),
        ns_type: affected.ns_type.take(),
        to: affected.to.take(),
        lsid: documents.lsid.take(),
        txn_number: times.txn_number,
        document_key: documents.document_key.take(),
        update_description: affected.update_description.take(),
        cluster_time: times.cluster_time,
        wall_time: times.wall_time,
        full_document: documents.full_document.take(),
        full_document_before_change: documents.full_document_before_change.take(),
    }
}

fn event_of(alloc: Global, raw: &RawDocument<'_>) -> Result<ChangeStreamEvent<Document>, Fault>
    ensures { Gives event result (event_of (fields raw.now)) }
{
    let times = times_of(alloc, raw)?;
    let id = needed(alloc, raw, "_id")?;
    let affected = affected_of(alloc, raw)?;
    let documents = documents_of(alloc, raw)?;
    let operation_type = needed(alloc, raw, "operationType")?;
    Ok(event_from(id, operation_type, affected, documents, times))
}

impl ReadValue for ChangeNamespace {
    ghost use Rattle.mg_records.specs.ChangeEvents.{ChangeSpace, change_space, change_space_by};

    ghost Seen = { ChangeSpace };

    ghost seen = { change_space };

    ghost reads = { change_space_by };

    fn read_value(alloc: Global, value: &RawValue<'_>) -> Result<ChangeNamespace, Fault> {
        match value.as_document() {
            Some(inner) => change_space_of(alloc, &inner),
            None => Err(Fault::Broken),
        }
    }
}

impl ReadRaw for ChangeNamespace {
    ghost use Rattle.mg_bson.specs.Raw.{fields};
    ghost use Rattle.mg_records.specs.ChangeEvents.{ChangeSpace, change_space, change_space_of};
    ghost use Rattle.mg_records.specs.Readings.{recorded};

    ghost Record = { ChangeSpace };

    ghost seen = { change_space };

    ghost stands_for = { λ bytes. recorded (change_space_of (fields bytes)) };

    fn read_raw(alloc: Global, raw: RawDocument<'_>) -> Result<ChangeNamespace, Error> {
        match change_space_of(alloc, &raw) {
            Ok(found) => Ok(found),
            Err(fault) => Err(error_of(fault)),
        }
    }
}

impl ReadRaw for ChangeStreamEvent<Document> {
    ghost use Rattle.mg_bson.specs.Raw.{fields};
    ghost use Rattle.mg_records.specs.ChangeEvents.{Event, event, event_of};
    ghost use Rattle.mg_records.specs.Readings.{recorded};

    ghost Record = { Event };

    ghost seen = { event };

    ghost stands_for = { λ bytes. recorded (event_of (fields bytes)) };

    fn read_raw(alloc: Global, raw: RawDocument<'_>) -> Result<ChangeStreamEvent<Document>, Error> {
        match event_of(alloc, &raw) {
            Ok(found) => Ok(found),
            Err(fault) => Err(error_of(fault)),
        }
    }
}

impl Clone for ChangeNamespace {
    ghost is_clone = { λ a b. change_space b ≡ change_space a };

    fn clone(&self) -> Result<ChangeNamespace, AllocError> {
        let db = self.db.clone()?;
        let coll = copied_text(&self.coll)?;
        Ok(ChangeNamespace { db, coll })
    }
}

fn copied_affected(source: &ChangeStreamEvent<Document>) -> Result<Affected, AllocError>
    ensures { IfOk result (λ n. event_affected n ≡ (event source.now).affected) }
{
    let ns = source.ns.clone()?;
    let to = source.to.clone()?;
    let update_description = source.update_description.clone()?;
    let ns_type = source.ns_type.clone()?;
    Ok(Affected {
        ns,
        to,
        ns_type,
        update_description,
    })
}

fn copied_documents(source: &ChangeStreamEvent<Document>) -> Result<Documents, AllocError>
    ensures { IfOk result (λ d. event_documents d ≡ (event source.now).documents) }
{
    let lsid = copied_document(&source.lsid)?;
    let document_key = copied_document(&source.document_key)?;
    let full_document = copied_document(&source.full_document)?;
    let full_document_before_change = copied_document(&source.full_document_before_change)?;
    Ok(Documents {
        lsid,
        document_key,
        full_document,
        full_document_before_change,
    })
}

impl Clone for ChangeStreamEvent<Document> {
    ghost is_clone = { λ a b. event b ≡ event a };

    fn clone(&self) -> Result<ChangeStreamEvent<Document>, AllocError> {
        let times = Times {
            txn_number: self.txn_number,
            cluster_time: self.cluster_time,
            wall_time: self.wall_time,
        };
        let id = self.id.clone()?;
        let affected = copied_affected(self)?;
        let documents = copied_documents(self)?;
        let operation_type = self.operation_type.clone()?;
        Ok(event_from(id, operation_type, affected, documents, times))
    }
}
