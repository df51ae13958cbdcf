//! The documents that a query finds.
ghost use Rattle.std.specs.Prelude.{◌≡◌, IfOk, Some, codes, drop, map, take};
ghost use Rattle.std.specs.List.{filter};
ghost use Rattle.mg_bson.specs.Find.{get, without};
ghost use Rattle.mg_bson.specs.Raw.{fields};
ghost use Rattle.mg_bson.specs.RawView.{value};
ghost use Rattle.mg_server.specs.Query.{id_alone};
ghost use Rattle.mg_query.specs.Asking.{held, matches_keys};
ghost use Rattle.mg_query.specs.Numbering.{KeepsIds, KeepsIdsThere, stored, there};
ghost use Rattle.mg_query.specs.Querying.{Results, all_done, done, held_stage, lent};
ghost use Rattle.mg_query.specs.Selecting.{selecting};

use crate::collection::Collection;
use crate::copies::{copy, encoded, owned, tree_of};
use crate::filter::Condition;
use crate::lookup::chosen_in;
use crate::refusal::Stop;
use crate::reply::with;
use crate::selection::Selection;
use crate::sort::sorted;
use crate::stages::Stage;
use mg_bson::{Document, RawDocumentBuf, RawValue};
use mg_link::OutOfMemory;
use std::alloc::Global;

/// Copies of the documents that are selected.
fn admitted(
    alloc: Global,
    selection: &Selection<'_>,
    documents: &[RawDocumentBuf],
) -> Result<Vec<RawDocumentBuf>, OutOfMemory>
    ensures { IfOk result (λ r. map fields r.items ≡ filter (matches_keys (selecting selection.now)) (map fields documents.now)) }
{
    let mut admitted = Vec::new(alloc);
    for document in documents {
        let document = document.as_raw();
        if selection.admits(alloc, &document)? {
            admitted.push(copy(alloc, &document)?)?;
        }
    }
    Ok(admitted)
}

/// Copies of the documents that meet each condition.
fn selected(
    alloc: Global,
    conditions: &Vec<Condition>,
    documents: &[RawDocumentBuf],
) -> Result<Vec<RawDocumentBuf>, OutOfMemory>
    ensures { IfOk result (λ r. map fields r.items ≡ filter (matches_keys (map held conditions.now.items)) (map fields documents.now)) }
{
    let selection = Selection::new(alloc, conditions)?;
    admitted(alloc, &selection, documents)
}

/// The documents behind the first so many.
fn behind(documents: Vec<RawDocumentBuf>, n: u64) -> Result<Vec<RawDocumentBuf>, OutOfMemory>
    ensures { IfOk result (λ r. r.items ≡ drop n documents.items) }
{
    let mut documents = documents;
    let from = n.min(documents.len() as u64) as usize;
    Ok(documents.split_off(from)?)
}

/// The first so many documents.
fn front(documents: Vec<RawDocumentBuf>, n: u64) -> Vec<RawDocumentBuf>
    ensures { result.items ≡ take n documents.items }
{
    let mut documents = documents;
    let upto = n.min(documents.len() as u64) as usize;
    documents.truncate(upto);
    documents
}

fn id_document(alloc: Global, id: &RawValue<'_>) -> Result<Document, OutOfMemory>
    ensures { IfOk result (λ d. d ≡ id_alone (Some (value id.now))) }
{
    let id = owned(alloc, id)?;
    with(Document::new(alloc), "_id", id)
}

/// The document with its `_id` alone.
fn with_id_alone(alloc: Global, document: &RawDocumentBuf) -> Result<RawDocumentBuf, OutOfMemory>
    ensures { IfOk result (λ r. fields r ≡ id_alone (get (codes "_id") (fields document.now))) }
{
    let shown = match document.as_raw().get("_id") {
        Some(id) => id_document(alloc, &id)?,
        None => Document::new(alloc),
    };
    encoded(alloc, &shown)
}

/// The document without its `_id`.
fn without_id(alloc: Global, document: &RawDocumentBuf) -> Result<RawDocumentBuf, OutOfMemory>
    ensures { IfOk result (λ r. fields r ≡ without (codes "_id") (fields document.now)) }
{
    let mut shown = tree_of(alloc, document.as_raw())?;
    let _id = shown.remove("_id");
    encoded(alloc, &shown)
}

fn with_ids_alone(
    alloc: Global,
    documents: &[RawDocumentBuf],
) -> Result<Vec<RawDocumentBuf>, OutOfMemory>
    ensures { IfOk result (λ r. map fields r.items ≡ map (λ d. id_alone (get (codes "_id") d)) (map fields documents.now)) }
{
    let mut shown = Vec::new(alloc);
    for document in documents {
        shown.push(with_id_alone(alloc, document)?)?;
    }
    Ok(shown)
}

fn without_ids(
    alloc: Global,
    documents: &[RawDocumentBuf],
) -> Result<Vec<RawDocumentBuf>, OutOfMemory>
    ensures { IfOk result (λ r. map fields r.items ≡ map (without (codes "_id")) (map fields documents.now)) }
{
    let mut shown = Vec::new(alloc);
    for document in documents {
        shown.push(without_id(alloc, document)?)?;
    }
    Ok(shown)
}

/// What one stage makes of the documents.
fn staged(
    alloc: Global,
    stage: &Stage,
    documents: Vec<RawDocumentBuf>,
) -> Result<Vec<RawDocumentBuf>, Stop>
    ensures { Results result (done (held_stage stage.now) (map fields documents.items)) }
{
    match stage {
        Stage::Select(conditions) => Ok(selected(alloc, conditions, documents.as_slice())?),
        Stage::Sort(keys) => sorted(keys, documents),
        Stage::Skip(n) => Ok(behind(documents, *n)?),
        Stage::Limit(n) => Ok(front(documents, *n)),
        Stage::ShowId => Ok(with_ids_alone(alloc, documents.as_slice())?),
        Stage::HideId => Ok(without_ids(alloc, documents.as_slice())?),
    }
}

/// What the stages make of documents that were found so far.
pub fn further(
    alloc: Global,
    stages: &[Stage],
    found: Vec<RawDocumentBuf>,
) -> Result<Vec<RawDocumentBuf>, Stop>
    ensures { Results result (all_done (map held_stage stages.now) (map fields found.items)) }
{
    let mut found = found;
    for stage in stages {
        found = staged(alloc, stage, found)?;
    }
    Ok(found)
}

/// Copies of documents that are lent.
fn copies(alloc: Global, documents: &[&RawDocumentBuf]) -> Result<Vec<RawDocumentBuf>, OutOfMemory>
    ensures { IfOk result (λ r. map fields r.items ≡ lent documents.now) }
{
    let mut copies = Vec::new(alloc);
    for document in documents {
        copies.push(copy(alloc, &document.as_raw())?)?;
    }
    Ok(copies)
}

/// Copies of the documents of a collection.
fn all(alloc: Global, collection: &Collection) -> Result<Vec<RawDocumentBuf>, OutOfMemory>
    ensures { IfOk result (λ r. map fields r.items ≡ stored collection.now) }
{
    let lent = collection.lent(alloc)?;
    copies(alloc, lent.as_slice())
}

/// Copies of those documents of a collection that meet each condition.
fn met(
    alloc: Global,
    conditions: &Vec<Condition>,
    collection: &Collection,
) -> Result<Vec<RawDocumentBuf>, OutOfMemory>
    ensures { KeepsIds collection.now → IfOk result (λ r. map fields r.items ≡ filter (matches_keys (map held conditions.now.items)) (stored collection.now)) }
{
    let chosen = chosen_in(alloc, conditions, true, collection)?;
    copies(alloc, chosen.as_slice())
}

/// What the first stage makes of the documents of a collection. A selection copies no others.
fn begun(alloc: Global, stage: &Stage, collection: &Collection) -> Result<Vec<RawDocumentBuf>, Stop>
    ensures { KeepsIds collection.now → Results result (done (held_stage stage.now) (stored collection.now)) }
{
    match stage {
        Stage::Select(conditions) => Ok(met(alloc, conditions, collection)?),
        _ => staged(alloc, stage, all(alloc, collection)?),
    }
}

/// What the stages make of the documents of a collection, one after another.
pub fn through(
    alloc: Global,
    stages: &[Stage],
    collection: Option<&Collection>,
) -> Result<Vec<RawDocumentBuf>, Stop>
    ensures { KeepsIdsThere collection.entry → Results result (all_done (map held_stage stages.now) (there collection.entry)) }
{
    let Some(collection) = collection else {
        return further(alloc, stages, Vec::new(alloc));
    };
    match stages {
        [] => Ok(all(alloc, collection)?),
        [first, rest @ ..] => further(alloc, rest, begun(alloc, first, collection)?),
    }
}
