//! Jobs from JSON.
ghost use Rattle.std.specs.Prelude.{codes, string_bytes};
ghost use Rattle.serde_json.specs.View.{view, items_view};
ghost use Rattle.mg_bson.specs.View.{tree};
ghost use Rattle.mg_link.specs.Namespace.{space, target};
ghost use Rattle.mg_script.specs.Plan.{pieces, task, tasks, begin};
ghost use Rattle.mg_script.specs.Reads.{Gives, each};
ghost use Rattle.mg_script.specs.Parts.{bytes_at, text_at};
ghost use Rattle.mg_script.specs.Values.{value_at, document_at};
ghost use Rattle.mg_script.specs.Script.{space_at, whole_target, target_at, database_at, inserted, insert_of, time_at, begin_by, begin_of, begin_at, filter_at, batch_at, followed, follow_of, id_at, bucket_at, uploaded, put_of, get_of, task_of, tasks_of};

use crate::database_name::DatabaseName;
use crate::fault::{Place, ScriptError};
use crate::parts::{
    array_at, bytes_at, has_dot, has_only, is_some, member_at, number_at, single_at, small_number,
    text_at, text_or,
};
use crate::script::{Job, Start};
use crate::value::{document_of, value_of};
use mg_bson::{Bson, Document};
use mg_link::{Namespace, OperationTarget};
use mg_options::ResumeToken;
use serde_json::Value;
use std::alloc::Global;

// ---- names

fn space_at(alloc: Global, text: &str, place: Place) -> Result<Namespace, ScriptError>
    ensures { Gives space result (space_at place text.now) }
{
    match Namespace::from_str(alloc, text)? {
        Some(namespace) => Ok(namespace),
        None => Err(ScriptError::Fault(place)),
    }
}

/// The database of the name, or the cluster where the name is empty.
fn whole_target(alloc: Global, text: &str, place: Place) -> Result<OperationTarget, ScriptError>
    ensures { Gives target result (whole_target place text.now) }
{
    if has_dot(text) {
        return Err(ScriptError::Fault(place));
    }
    if text.len() > 0 {
        Ok(OperationTarget::Database(String::from_str(alloc, text)?))
    } else {
        Ok(OperationTarget::Cluster)
    }
}

fn target_at(alloc: Global, text: &str, place: Place) -> Result<OperationTarget, ScriptError>
    ensures { Gives target result (target_at place text.now) }
{
    match Namespace::from_str(alloc, text)? {
        Some(namespace) => Ok(OperationTarget::Collection(namespace)),
        None => whole_target(alloc, text, place),
    }
}

fn database_at(alloc: Global, value: &Value, place: Place) -> Result<DatabaseName, ScriptError>
    ensures { Gives (λ n. n) result (database_at place (view value.now)) }
{
    let text = text_at(value, "db", place)?;
    match DatabaseName::new(String::from_str(alloc, text)?) {
        Some(name) => Ok(name),
        None => Err(ScriptError::Fault(place)),
    }
}

// ---- insert

fn documents_of(alloc: Global, values: &[Value], place: Place) -> Result<Vec<Document>, ScriptError>
    ensures { Gives (λ v. v.items) result
        (each (λ n. document_at place) 0 (items_view values.now)) }
{
    let mut documents = Vec::new(alloc);
    for value in values {
        let document = document_of(alloc, value, place)?;
        documents.push(document)?;
    }
    Ok(documents)
}

/// The namespace and the documents of an insert.
#[tactic(auto, unfolding(crate::specs::Script::inserted))]
fn inserted(value: &Value, place: Place) -> Result<(&str, &[Value]), ScriptError>
    ensures { Gives (λ i. (i.0.now, items_view i.1.now)) result (inserted place (view value.now)) }
{
    if !has_only(value, &["docs", "job", "ns"]) {
        return Err(ScriptError::Fault(place));
    }
    let ns = text_at(value, "ns", place)?;
    let docs = array_at(value, "docs", place)?;
    if !is_some(docs) {
        return Err(ScriptError::Fault(place));
    }
    Ok((ns, docs))
}

#[tactic(auto, unfolding(crate::specs::Script::insert_of))]
fn insert_of(alloc: Global, value: &Value, place: Place) -> Result<Job, ScriptError>
    ensures { Gives task result (insert_of place (view value.now)) }
{
    let (ns, docs) = inserted(value, place)?;
    let ns = space_at(alloc, ns, place)?;
    let docs = documents_of(alloc, docs, place)?;
    Ok(Job::Insert { ns, docs })
}

// ---- follow

fn time_at(alloc: Global, value: &Value, place: Place) -> Result<Start, ScriptError>
    ensures { Gives begin result (time_at place (view value.now)) }
{
    let value = value_of(alloc, value, place)?;
    let time = value.as_timestamp();
    drop(value);
    match time {
        Some(time) => Ok(Start::At(time)),
        None => Err(ScriptError::Fault(place)),
    }
}

fn token_of(alloc: Global, value: &Value, place: Place) -> Result<ResumeToken, ScriptError>
    ensures { Gives (λ t. t) result (value_at place (view value.now)) }
{
    let value = value_of(alloc, value, place)?;
    let token = ResumeToken::from_value(&value);
    drop(value);
    match token {
        Ok(token) => Ok(token),
        // A copy fails for want of memory alone.
        Err(_) => Err(ScriptError::OutOfMemory),
    }
}

/// The start that a member of this name gives.
fn start_by(alloc: Global, name: &str, value: &Value, place: Place) -> Result<Start, ScriptError>
    ensures { Gives begin result (begin_by place name.now (view value.now)) }
{
    if name == "resumeAfter" {
        Ok(Start::ResumeAfter(token_of(alloc, value, place)?))
    } else if name == "startAfter" {
        Ok(Start::StartAfter(token_of(alloc, value, place)?))
    } else if name == "startAt" {
        time_at(alloc, value, place)
    } else {
        Err(ScriptError::Fault(place))
    }
}

fn start_of(alloc: Global, value: &Value, place: Place) -> Result<Start, ScriptError>
    ensures { Gives begin result (begin_of place (view value.now)) }
{
    let (name, value) = single_at(value, place)?;
    start_by(alloc, name, value, place)
}

fn start_at(alloc: Global, value: &Value, place: Place) -> Result<Start, ScriptError>
    ensures { Gives begin result (begin_at place (view value.now)) }
{
    match value.get("start") {
        Some(start) => start_of(alloc, start, place),
        None => Ok(Start::Nowhere),
    }
}

fn filter_at(alloc: Global, value: &Value, place: Place) -> Result<Option<Document>, ScriptError>
    ensures { Gives (λ d. d) result (filter_at place (view value.now)) }
{
    match value.get("match") {
        Some(filter) => Ok(Some(document_of(alloc, filter, place)?)),
        None => Ok(None),
    }
}

fn batch_at(value: &Value, place: Place) -> Result<Option<u32>, ScriptError>
    ensures { Gives (λ n. n) result (batch_at place (view value.now)) }
{
    match value.get("batch") {
        Some(batch) => match small_number(batch) {
            Some(n) => Ok(Some(n)),
            None => Err(ScriptError::Fault(place)),
        },
        None => Ok(None),
    }
}

/// The name, the number of calls and the greatest batch of a follow.
#[tactic(auto, unfolding(crate::specs::Script::followed))]
fn followed(value: &Value, place: Place) -> Result<(&str, u32, Option<u32>), ScriptError>
    ensures { Gives (λ f. (f.0.now, f.1, f.2)) result (followed place (view value.now)) }
{
    if !has_only(value, &["batch", "calls", "job", "match", "on", "start"]) {
        return Err(ScriptError::Fault(place));
    }
    let on = text_at(value, "on", place)?;
    let calls = number_at(value, "calls", place)?;
    if calls > 1_048_576 {
        return Err(ScriptError::Fault(place));
    }
    let batch = batch_at(value, place)?;
    Ok((on, calls, batch))
}

#[tactic(auto, unfolding(crate::specs::Script::follow_of))]
fn follow_of(alloc: Global, value: &Value, place: Place) -> Result<Job, ScriptError>
    ensures { Gives task result (follow_of place (view value.now)) }
{
    let (on, calls, batch) = followed(value, place)?;
    let target = target_at(alloc, on, place)?;
    let start = start_at(alloc, value, place)?;
    let filter = filter_at(alloc, value, place)?;
    Ok(Job::Follow {
        target,
        calls,
        start,
        filter,
        batch,
    })
}

// ---- put and get

fn id_at(alloc: Global, value: &Value, place: Place) -> Result<Bson, ScriptError>
    ensures { Gives tree result (id_at place (view value.now)) }
{
    let id = member_at(value, "id", place)?;
    value_of(alloc, id, place)
}

/// The database and the name of a bucket.
#[tactic(auto, unfolding(crate::specs::Script::bucket_at))]
fn bucket_at(
    alloc: Global,
    value: &Value,
    place: Place,
) -> Result<(DatabaseName, String), ScriptError>
    ensures { Gives (λ b. (b.0, string_bytes b.1)) result
        (bucket_at place (view value.now)) }
{
    let db = database_at(alloc, value, place)?;
    let bucket = text_or(value, "bucket", "fs", place)?;
    Ok((db, String::from_str(alloc, bucket)?))
}

fn name_at(alloc: Global, value: &Value, place: Place) -> Result<String, ScriptError>
    ensures { Gives string_bytes result (text_at place (codes "name") (view value.now)) }
{
    let name = text_at(value, "name", place)?;
    Ok(String::from_str(alloc, name)?)
}

fn pieces_of(alloc: Global, values: &[Value], place: Place) -> Result<Vec<Vec<u8>>, ScriptError>
    ensures { Gives (λ v. pieces v.items) result
        (each (λ n. bytes_at place) 0 (items_view values.now)) }
{
    let mut pieces = Vec::new(alloc);
    for value in values {
        let piece = bytes_at(alloc, value, place)?;
        pieces.push(piece)?;
    }
    Ok(pieces)
}

/// The bytes of a chunk and the pieces of a put.
#[tactic(auto, unfolding(crate::specs::Script::uploaded))]
fn uploaded(value: &Value, place: Place) -> Result<(u32, &[Value]), ScriptError>
    ensures { Gives (λ u. (u.0, items_view u.1.now)) result (uploaded place (view value.now)) }
{
    if !has_only(
        value,
        &["bucket", "chunk", "db", "id", "job", "name", "pieces"],
    ) {
        return Err(ScriptError::Fault(place));
    }
    let chunk = number_at(value, "chunk", place)?;
    let pieces = array_at(value, "pieces", place)?;
    Ok((chunk, pieces))
}

#[tactic(auto, unfolding(crate::specs::Script::put_of))]
fn put_of(alloc: Global, value: &Value, place: Place) -> Result<Job, ScriptError>
    ensures { Gives task result (put_of place (view value.now)) }
{
    let (chunk, pieces) = uploaded(value, place)?;
    let (db, bucket) = bucket_at(alloc, value, place)?;
    let name = name_at(alloc, value, place)?;
    let pieces = pieces_of(alloc, pieces, place)?;
    let id = id_at(alloc, value, place)?;
    Ok(Job::Put {
        db,
        bucket,
        name,
        id,
        chunk,
        pieces,
    })
}

#[tactic(auto, unfolding(crate::specs::Script::get_of))]
fn get_of(alloc: Global, value: &Value, place: Place) -> Result<Job, ScriptError>
    ensures { Gives task result (get_of place (view value.now)) }
{
    if !has_only(value, &["bucket", "db", "id", "job", "read"]) {
        return Err(ScriptError::Fault(place));
    }
    let read = number_at(value, "read", place)?;
    let (db, bucket) = bucket_at(alloc, value, place)?;
    let id = id_at(alloc, value, place)?;
    Ok(Job::Get {
        db,
        bucket,
        id,
        read,
    })
}

// ---- all jobs

#[tactic(auto, unfolding(crate::specs::Script::task_of))]
fn job_of(alloc: Global, value: &Value, place: Place) -> Result<Job, ScriptError>
    ensures { Gives task result (task_of place (view value.now)) }
{
    let job = text_at(value, "job", place)?;
    if job == "insert" {
        insert_of(alloc, value, place)
    } else if job == "follow" {
        follow_of(alloc, value, place)
    } else if job == "put" {
        put_of(alloc, value, place)
    } else if job == "get" {
        get_of(alloc, value, place)
    } else {
        Err(ScriptError::Fault(place))
    }
}

/// The jobs that JSON values are.
#[tactic(auto, unfolding(crate::specs::Script::tasks_of))]
pub(crate) fn jobs_of(alloc: Global, values: &[Value]) -> Result<Vec<Job>, ScriptError>
    ensures { Gives (λ v. tasks v.items) result (tasks_of (items_view values.now)) }
{
    let mut jobs = Vec::new(alloc);
    for (i, value) in values.iter().enumerate() {
        let job = job_of(alloc, value, Place::Job(i))?;
        jobs.push(job)?;
    }
    Ok(jobs)
}
