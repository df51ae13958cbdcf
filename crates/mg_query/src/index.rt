//! The indexes of collections.
ghost use Rattle.std.specs.Prelude.{◌≡◌, ◌∷◌, IfOk, OnOk, map, option_and_then, option_map};
ghost use Rattle.std.specs.List.{list_all, list_any};
ghost use Rattle.std.specs.Str.{bytes_eq};
ghost use Rattle.mg_bson.specs.Find.{as_document};
ghost use Rattle.mg_bson.specs.Raw.{fields, items};
ghost use Rattle.mg_bson.specs.RawView.{value};
ghost use Rattle.mg_server.specs.Commands as commands;
ghost use Rattle.mg_server.specs.Query.{id_index, index_listed};
ghost use Rattle.mg_server.specs.Rules.{may_stay};
ghost use Rattle.mg_server.specs.State as state;
ghost use Rattle.mg_server.specs.Write.{with_index, with_indexes};
ghost use Rattle.mg_query.specs.Indexing.{index_held, indexes_among};
ghost use Rattle.mg_query.specs.Numbering.{indexes_there};

use crate::collection::Collection;
use crate::copies::{copy, encoded, tree_of};
use crate::limits::may_stay;
use crate::reading::{document_at, has_only, text_at};
use crate::reply::with;
use mg_bson::{Bson, Document, RawArray, RawDocument, RawDocumentBuf, RawValue};
use mg_link::OutOfMemory;
use std::alloc::Global;

/// The name of the index that each collection has.
const ID_INDEX: &str = "_id_";

/// An index by its name, and the names that it is by.
pub struct Index {
    pub(crate) name: String,
    pub(crate) key: RawDocumentBuf,
}

// By hand, so that letting one go is one call.
impl Drop for Index {
    fn drop(self) {
        let Index { name: _, key: _ } = self;
    }
}

/// The index that a document describes.
fn index_of(alloc: Global, document: &RawDocument<'_>) -> Result<Option<Index>, OutOfMemory>
    ensures { IfOk result (λ i. option_map index_held i ≡ commands.index_of (fields document.now)) }
{
    if !has_only(document, &["key", "name"]) {
        return Ok(None);
    }
    let Some(name) = text_at(document, "name") else {
        return Ok(None);
    };
    let Some(key) = document_at(document, "key") else {
        return Ok(None);
    };
    let name = String::from_str(alloc, name)?;
    let key = copy(alloc, &key)?;
    Ok(Some(Index { name, key }))
}

/// The index that a value describes, where it is a document.
fn index_in(alloc: Global, found: &RawValue<'_>) -> Result<Option<Index>, OutOfMemory>
    ensures { IfOk result (λ i. option_map index_held i ≡ option_and_then commands.index_of (as_document (value found.now))) }
{
    match found.as_document() {
        Some(document) => index_of(alloc, &document),
        None => Ok(None),
    }
}

/// The indexes of an array, where each of its values describes one.
pub(crate) fn indexes_in(
    alloc: Global,
    array: &RawArray<'_>,
) -> Result<Option<Vec<Index>>, OutOfMemory>
    ensures { IfOk result (λ is. option_map (λ v. map index_held v.items) is ≡ indexes_among (items array.now)) }
{
    let mut indexes = Vec::new(alloc);
    let mut left = array.iter();
    'items: while let Some(item) = left.next() {
        let Some(index) = index_in(alloc, &item)? else {
            return Ok(None);
        };
        indexes.push(index)?;
    }
    Ok(Some(indexes))
}

/// Whether an index of the name is there.
fn is_named(indexes: &[Index], name: &str) -> bool
    ensures { result ≡ list_any (λ (j : state.Index). bytes_eq j.name name.now) (id_index ∷ map index_held indexes.now) }
{
    if ID_INDEX == name {
        return true;
    }
    for index in indexes {
        if index.name.as_str() == name {
            return true;
        }
    }
    false
}

/// A copy that owns its parts.
fn copy_of(alloc: Global, index: &Index) -> Result<Index, OutOfMemory>
    ensures { IfOk result (λ i. index_held i ≡ index_held index.now) }
{
    let name = index.name.clone()?;
    let key = copy(alloc, &index.key.as_raw())?;
    Ok(Index { name, key })
}

/// Adds an index whose name is not there.
fn add_index(alloc: Global, indexes: &mut Vec<Index>, index: &Index) -> Result<(), OutOfMemory>
    ensures { OnOk result (map index_held indexes.new.items ≡ with_index (map index_held indexes.old.items) (index_held index.now)) }
{
    if is_named(indexes.as_slice(), index.name.as_str()) {
        return Ok(());
    }
    let copied = copy_of(alloc, index)?;
    indexes.push(copied)?;
    Ok(())
}

/// What a listing says of an index.
fn listed(alloc: Global, index: &Index) -> Result<Document, OutOfMemory>
    ensures { IfOk result (λ d. d ≡ index_listed (index_held index.now)) }
{
    let name = index.name.clone()?;
    let key = tree_of(alloc, index.key.as_raw())?;
    let listed = with(Document::new(alloc), "v", Bson::Int32(2))?;
    let listed = with(listed, "key", Bson::Document(key))?;
    with(listed, "name", Bson::String(name))
}

/// The index that each collection has.
fn id_index(alloc: Global) -> Result<Index, OutOfMemory>
    ensures { IfOk result (λ i. index_held i ≡ id_index) }
{
    let name = String::from_str(alloc, ID_INDEX)?;
    let key = with(Document::new(alloc), "_id", Bson::Int32(1))?;
    let key = encoded(alloc, &key)?;
    Ok(Index { name, key })
}

/// What a list says of an index that may stay, which can always be encoded.
fn encoded_listed(alloc: Global, index: &Index) -> Result<RawDocumentBuf, OutOfMemory>
    ensures { IfOk result (λ r. fields r ≡ index_listed (index_held index.now)) }
{
    let document = listed(alloc, index)?;
    encoded(alloc, &document)
}

/// What a list says of the indexes of a collection, with that of `_id` in front.
pub fn indexes_listed(alloc: Global, indexes: &[Index]) -> Result<Vec<RawDocumentBuf>, OutOfMemory>
    ensures { IfOk result (λ ds. map fields ds.items ≡ map index_listed (id_index ∷ map index_held indexes.now)) }
{
    let first = id_index(alloc)?;
    let mut documents = Vec::new(alloc);
    documents.push(encoded_listed(alloc, &first)?)?;
    for index in indexes {
        documents.push(encoded_listed(alloc, index)?)?;
    }
    Ok(documents)
}

/// Copies of the indexes of a collection, none where it is not there.
fn copies_of(alloc: Global, collection: Option<&Collection>) -> Result<Vec<Index>, OutOfMemory>
    ensures { IfOk result (λ is. map index_held is.items ≡ indexes_there collection.entry) }
{
    match collection {
        Some(collection) => copied(alloc, &collection.indexes),
        None => Ok(Vec::new(alloc)),
    }
}

fn copied(alloc: Global, indexes: &[Index]) -> Result<Vec<Index>, OutOfMemory>
    ensures { IfOk result (λ is. map index_held is.items ≡ map index_held indexes.now) }
{
    let mut copies = Vec::new(alloc);
    for index in indexes {
        let copied = copy_of(alloc, index)?;
        copies.push(copied)?;
    }
    Ok(copies)
}

/// The indexes of a collection once it has these as well.
pub fn with_indexes(
    alloc: Global,
    collection: Option<&Collection>,
    more: &[Index],
) -> Result<Vec<Index>, OutOfMemory>
    ensures { IfOk result (λ is. map index_held is.items ≡ with_indexes (indexes_there collection.entry) (map index_held more.now)) }
{
    let mut indexes = copies_of(alloc, collection)?;
    for index in more {
        add_index(alloc, &mut indexes, index)?;
    }
    Ok(indexes)
}

/// Whether each of the indexes may stand in a collection.
pub fn all_may_stay(alloc: Global, indexes: &[Index]) -> Result<bool, OutOfMemory>
    ensures { IfOk result (λ b. b ≡ list_all (λ (i : state.Index). may_stay (index_listed i)) (map index_held indexes.now)) }
{
    for index in indexes {
        let document = listed(alloc, index)?;
        if !may_stay(alloc, &document)? {
            return Ok(false);
        }
    }
    Ok(true)
}
