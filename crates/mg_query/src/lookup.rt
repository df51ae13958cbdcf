//! The documents of a collection that a filter is for.
ghost use Rattle.std.specs.Prelude.{◌≡◌, ◌++◌, IfOk, IfSome, OnOk, map, true};
ghost use Rattle.mg_bson.specs.Find.{get};
ghost use Rattle.mg_bson.specs.Tree.{Fields};
ghost use Rattle.mg_query.specs.Asking.{has_key, held, matches_keys};
ghost use Rattle.mg_query.specs.Collecting.{Covers, looked_up};
ghost use Rattle.mg_query.specs.Grouping.{paired};
ghost use Rattle.mg_query.specs.Numbering.{KeepsIds, stored, KeepsIdsThere, there};
ghost use Rattle.mg_query.specs.Querying.{chosen_by, lent};
ghost use Rattle.mg_query.specs.Selecting.{selecting};

use crate::collection::Collection;
use crate::filter::Condition;
use crate::groups::followed;
use crate::selection::Selection;
use mg_bson::RawDocumentBuf;
use mg_link::OutOfMemory;
use std::alloc::Global;
use std::collections::BTreeSet;

/// The encodings of which a document has one under the name, where a condition says so.
fn keys_at<'a>(conditions: &'a Vec<Condition>, name: &str) -> Option<&'a Vec<Vec<u8>>>
    ensures { IfSome result (λ ks. (d : Fields) → matches_keys (map held conditions.now.items) d ≡ true → has_key (map (λ k. k.items) ks.now.items) (get name.now d) ≡ true) }
{
    for condition in conditions {
        if condition.name.as_str() == name {
            return Some(&condition.keys);
        }
    }
    None
}

/// Adds the first encoding followed by each of the others.
fn add_pairs(
    pairs: &mut Vec<Vec<u8>>,
    first: &Vec<u8>,
    others: &Vec<Vec<u8>>,
) -> Result<(), OutOfMemory>
    ensures { OnOk result (map (λ k. k.items) pairs.new.items ≡ map (λ k. k.items) pairs.old.items ++ map (λ k. first.now.items ++ k.items) others.now.items) }
{
    for other in others {
        let both = followed(first, other)?;
        pairs.push(both)?;
    }
    Ok(())
}

/// Each of these encodings followed by each of the others.
fn paired(
    alloc: Global,
    firsts: &Vec<Vec<u8>>,
    others: &Vec<Vec<u8>>,
) -> Result<Vec<Vec<u8>>, OutOfMemory>
    ensures { IfOk result (λ ks. map (λ k. k.items) ks.items ≡ paired firsts.now.items others.now.items) }
{
    let mut pairs = Vec::new(alloc);
    for first in firsts {
        add_pairs(&mut pairs, first, others)?;
    }
    Ok(pairs)
}

/// Numbers among which are those of all documents that meet each condition, where a condition names files.
fn numbers_of_files(
    alloc: Global,
    conditions: &Vec<Condition>,
    collection: &Collection,
) -> Result<Option<BTreeSet<u64>>, OutOfMemory>
    ensures { KeepsIds collection.now → IfOk result (λ ns. IfSome ns (Covers (map held conditions.now.items) collection.now)) }
{
    let Some(files) = keys_at(conditions, "files_id") else {
        return Ok(None);
    };
    let Some(places) = keys_at(conditions, "n") else {
        return collection.grouped(alloc, files);
    };
    let pairs = paired(alloc, files, places)?;
    collection.grouped(alloc, &pairs)
}

/// Numbers among which are those of all documents that meet each condition, where a condition names ids or files.
fn numbers_of(
    alloc: Global,
    conditions: &Vec<Condition>,
    collection: &Collection,
) -> Result<Option<BTreeSet<u64>>, OutOfMemory>
    ensures { KeepsIds collection.now → IfOk result (λ ns. IfSome ns (Covers (map held conditions.now.items) collection.now)) }
{
    match keys_at(conditions, "_id") {
        Some(keys) => Ok(Some(collection.numbers(alloc, keys)?)),
        None => numbers_of_files(alloc, conditions, collection),
    }
}

/// Of the documents with these numbers all that are selected, or the first of them.
fn chosen_among<'a>(
    alloc: Global,
    selection: &Selection<'_>,
    many: bool,
    collection: &'a Collection,
    numbers: &BTreeSet<u64>,
) -> Result<Vec<&'a RawDocumentBuf>, OutOfMemory>
    ensures { IfOk result (λ ds. lent ds.items ≡ chosen_by (selecting selection.now) many (looked_up numbers.now.keys collection.now.documents.entries)) }
{
    let mut chosen = Vec::new(alloc);
    for number in numbers {
        let Some(document) = collection.documents.get(number) else {
            continue;
        };
        if selection.admits(alloc, &document.as_raw())? {
            chosen.push(document)?;
            if !many {
                return Ok(chosen);
            }
        }
    }
    Ok(chosen)
}

/// Of all documents those that are selected, or the first of them.
fn chosen_of_all<'a>(
    alloc: Global,
    selection: &Selection<'_>,
    many: bool,
    collection: &'a Collection,
) -> Result<Vec<&'a RawDocumentBuf>, OutOfMemory>
    ensures { IfOk result (λ ds. lent ds.items ≡ chosen_by (selecting selection.now) many (stored collection.now)) }
{
    let mut chosen = Vec::new(alloc);
    for document in collection.documents.values() {
        if selection.admits(alloc, &document.as_raw())? {
            chosen.push(document)?;
            if !many {
                return Ok(chosen);
            }
        }
    }
    Ok(chosen)
}

/// The documents that meet each condition, lent: all or the first of them. Where ids or files are named
/// no others are tried.
pub(crate) fn chosen_in<'a>(
    alloc: Global,
    conditions: &Vec<Condition>,
    many: bool,
    collection: &'a Collection,
) -> Result<Vec<&'a RawDocumentBuf>, OutOfMemory>
    ensures { KeepsIds collection.now → IfOk result (λ ds. lent ds.items ≡ chosen_by (map held conditions.now.items) many (stored collection.now)) }
{
    let selection = Selection::new(alloc, conditions)?;
    match numbers_of(alloc, conditions, collection)? {
        Some(numbers) => chosen_among(alloc, &selection, many, collection, &numbers),
        None => chosen_of_all(alloc, &selection, many, collection),
    }
}

/// The documents of a collection that meet each condition, lent: all or the first of them; none where the collection is
/// not there.
pub fn chosen<'a>(
    alloc: Global,
    conditions: &Vec<Condition>,
    many: bool,
    collection: Option<&'a Collection>,
) -> Result<Vec<&'a RawDocumentBuf>, OutOfMemory>
    ensures { KeepsIdsThere collection.entry → IfOk result (λ ds. lent ds.items ≡ chosen_by (map held conditions.now.items) many (there collection.entry)) }
{
    match collection {
        Some(collection) => chosen_in(alloc, conditions, many, collection),
        None => Ok(Vec::new(alloc)),
    }
}
