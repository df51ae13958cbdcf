//! What the fields of a command hold.
ghost use Rattle.std.specs.Prelude.{◌≡◌, None, codes, map, is_some, IfOk, option_and_then, option_map};
ghost use Rattle.mg_bson.specs.Find.{as_document, get};
ghost use Rattle.mg_bson.specs.Raw.{fields, items, items_left};
ghost use Rattle.mg_bson.specs.RawView.{value};
ghost use Rattle.mg_link.specs.Numbers.{as_integer, count_of};
ghost use Rattle.mg_server.specs.Commands.{batch_size, documents_in, flag_or, has_only, ignored, is_name_among, one_at, one_in, optional_count, target_by, text_of, whole_target};
ghost use Rattle.mg_link.specs.Namespace.{has_dot, database, space, target};
ghost use Rattle.mg_server.specs.State.{is_space};
ghost use Rattle.mg_server.specs.Rules.{array_at, id_of, ids_in, name_at, named_database, named_space, target_at, watch_space};
ghost use Rattle.mg_query.specs.Asking.{documents_among, ids_among, is_single, lent_space, lent_target, only_document};
ghost use Rattle.mg_query.specs.Wanted.{IsEnd, limit_many};

use crate::limits::MAX_NAME;
use mg_bson::{RawArray, RawDocument, RawItems, RawValue};
use mg_link::{Namespace, OperationTarget, OutOfMemory};
use std::alloc::Global;

/// A namespace, lent from the command that names it.
#[derive(Clone, Copy)]
pub struct LentSpace<'a> {
    pub(crate) db: &'a str,
    pub(crate) coll: &'a str,
}

/// What a watch is aimed at, lent from the command that names it.
#[derive(Clone, Copy)]
pub enum LentTarget<'a> {
    /// A collection.
    Collection(LentSpace<'a>),
    /// All collections of a database.
    Database(&'a str),
    /// All databases.
    Cluster,
}

/// A namespace of its own.
pub fn namespace(alloc: Global, lent: LentSpace<'_>) -> Result<Namespace, OutOfMemory>
    ensures { IfOk result (λ n. space n ≡ lent_space lent.entry) }
{
    let db = String::from_str(alloc, lent.db)?;
    let coll = String::from_str(alloc, lent.coll)?;
    Ok(Namespace { db, coll })
}

/// A target of its own.
pub fn target(alloc: Global, lent: LentTarget<'_>) -> Result<OperationTarget, OutOfMemory>
    ensures { IfOk result (λ t. target t ≡ lent_target lent.entry) }
{
    match lent {
        LentTarget::Collection(space) => {
            Ok(OperationTarget::Collection(namespace(alloc, space)?))
        }
        LentTarget::Database(db) => Ok(OperationTarget::Database(String::from_str(alloc, db)?)),
        LentTarget::Cluster => Ok(OperationTarget::Cluster),
    }
}

/// The namespace that a watch of a whole database has.
fn whole_namespace(alloc: Global, db: &str) -> Result<Namespace, OutOfMemory>
    ensures { IfOk result (λ n. space n ≡ watch_space (database db.now)) }
{
    let db = String::from_str(alloc, db)?;
    let coll = String::from_str(alloc, "$cmd.aggregate")?;
    Ok(Namespace { db, coll })
}

/// The namespace that the cursor of a watch has.
pub fn watch_namespace(alloc: Global, aimed: &OperationTarget) -> Result<Namespace, OutOfMemory>
    ensures { IfOk result (λ n. space n ≡ watch_space (target aimed.now)) }
{
    match aimed {
        OperationTarget::Collection(ns) => Ok(ns.clone()?),
        OperationTarget::Database(db) => whole_namespace(alloc, db),
        OperationTarget::Cluster => whole_namespace(alloc, "admin"),
    }
}

/// Whether both name one collection.
pub fn is_same_space(one: &Namespace, other: &Namespace) -> bool
    ensures { result ≡ is_space (space one.now) (space other.now) }
{
    one == other
}

fn is_among(name: &str, names: &[&str]) -> bool
    ensures { result ≡ is_name_among name.now (map (λ n. n.now) names.now) }
{
    for known in names {
        if name == *known {
            return true;
        }
    }
    false
}

/// Whether any command may have a field of the name, which changes nothing here.
fn is_ignored(name: &str) -> bool
    ensures { result ≡ is_name_among name.now ignored }
{
    is_among(
        name,
        &[
            "$db",
            "lsid",
            "txnNumber",
            "startTransaction",
            "autocommit",
            "readConcern",
            "writeConcern",
            "$readPreference",
            "comment",
            "maxTimeMS",
            "allowDiskUse",
            "noCursorTimeout",
            "bypassDocumentValidation",
            "showExpandedEvents",
            "nameOnly",
        ],
    )
}

/// Whether each field has one of the names, or one that changes nothing.
pub(crate) fn has_only(document: &RawDocument<'_>, names: &[&str]) -> bool
    ensures { result ≡ has_only (map (λ n. n.now) names.now) (fields document.now) }
{
    let mut left = document.iter();
    'fields: while let Some((name, _)) = left.next() {
        if !is_among(name, names) && !is_ignored(name) {
            return false;
        }
    }
    true
}

/// Whether the text has a dot.
pub(crate) fn has_dot(text: &str) -> bool
    ensures { result ≡ has_dot text.now }
{
    for byte in text.as_bytes() {
        if *byte == b'.' {
            return true;
        }
    }
    false
}

/// The text of the field.
pub fn text_at<'a>(document: &RawDocument<'a>, field: &str) -> Option<&'a str>
    ensures { option_map (λ s. s.now) result ≡ text_of field.now (fields document.now) }
{
    let found = document.get(field)?;
    found.as_str()
}

/// The document of the field.
pub(crate) fn document_at<'a>(document: &RawDocument<'a>, field: &str) -> Option<RawDocument<'a>>
    ensures { option_map fields result ≡ option_and_then as_document (get field.now (fields document.now)) }
{
    let found = document.get(field)?;
    found.as_document()
}

/// The id of the field.
pub(crate) fn id_at(document: &RawDocument<'_>, field: &str) -> Option<i64>
    ensures { result ≡ option_and_then id_of (get field.now (fields document.now)) }
{
    let found = document.get(field)?;
    id_of(&found)
}

/// The text of the field, where it may name a database or a collection.
fn name_at<'a>(command: &RawDocument<'a>, field: &str) -> Option<&'a str>
    ensures { option_map (λ s. s.now) result ≡ name_at field.now (fields command.now) }
{
    let name = text_at(command, field)?;
    if 0 < name.len() && name.len() <= MAX_NAME {
        Some(name)
    } else {
        None
    }
}

/// The namespace of the collection that the field names.
#[tactic(auto, unfolding(mg_server::specs::Rules::named_space))]
pub(crate) fn space_at<'a>(command: &RawDocument<'a>, field: &str) -> Option<LentSpace<'a>>
    ensures { option_map lent_space result ≡ named_space field.now (fields command.now) }
{
    let db = name_at(command, "$db")?;
    if has_dot(db) {
        return None;
    }
    let coll = name_at(command, field)?;
    Some(LentSpace { db, coll })
}

/// The database of the command.
pub(crate) fn database_at<'a>(command: &RawDocument<'a>) -> Option<&'a str>
    ensures { option_map (λ s. s.now) result ≡ named_database (fields command.now) }
{
    let db = name_at(command, "$db")?;
    if has_dot(db) { None } else { Some(db) }
}

/// A whole database, or the cluster where the changes of all are asked for, which only `admin` may.
fn whole_target<'a>(all: bool, db: &'a str) -> Option<LentTarget<'a>>
    ensures { option_map lent_target result ≡ whole_target all db.now }
{
    if !all {
        return Some(LentTarget::Database(db));
    }
    if db == "admin" {
        Some(LentTarget::Cluster)
    } else {
        None
    }
}

/// What an aggregate that names no collection is aimed at.
fn whole_at<'a>(command: &RawDocument<'a>, all: bool, db: &'a str) -> Option<LentTarget<'a>>
    ensures { option_map lent_target result ≡ target_by all db.now None (option_and_then as_integer (get (codes "aggregate") (fields command.now))) }
{
    let found = command.get("aggregate")?;
    let number = integer_of(&found)?;
    if number == 1 {
        whole_target(all, db)
    } else {
        None
    }
}

/// What an aggregate that opens a watch is aimed at.
pub(crate) fn target_at<'a>(command: &RawDocument<'a>, all: bool) -> Option<LentTarget<'a>>
    ensures { option_map lent_target result ≡ target_at (fields command.now) all }
{
    let db = database_at(command)?;
    match name_at(command, "aggregate") {
        Some(coll) => Some(LentTarget::Collection(LentSpace { db, coll })),
        None => whole_at(command, all, db),
    }
}

/// A whole number, in 32 or 64 bits.
pub(crate) fn integer_of(found: &RawValue<'_>) -> Option<i64>
    ensures { result ≡ as_integer (value found.now) }
{
    match found {
        RawValue::Int32(n) => Some(i64::from(*n)),
        RawValue::Int64(n) => Some(*n),
        _ => None,
    }
}

/// A number that is not negative.
pub(crate) fn count_of(found: &RawValue<'_>) -> Option<u64>
    ensures { result ≡ count_of (value found.now) }
{
    let n = integer_of(found)?;
    u64::try_from(n).ok()
}

/// The id of a cursor, which is not negative.
pub fn id_of(found: &RawValue<'_>) -> Option<i64>
    ensures { result ≡ id_of (value found.now) }
{
    let id = integer_of(found)?;
    if id < 0 { None } else { Some(id) }
}

/// The number of the field, where it is there at all.
pub(crate) fn count_at(document: &RawDocument<'_>, field: &str) -> Option<Option<u64>>
    ensures { result ≡ optional_count (get field.now (fields document.now)) }
{
    match document.get(field) {
        None => Some(None),
        Some(found) => match count_of(&found) {
            None => None,
            Some(n) => Some(Some(n)),
        },
    }
}

/// The batch size that the field `cursor` of a command asks for.
#[tactic(auto, unfolding(mg_server::specs::Commands::batch_size))]
pub(crate) fn batch_size(command: &RawDocument<'_>) -> Option<Option<u64>>
    ensures { result ≡ batch_size (fields command.now) }
{
    let cursor = document_at(command, "cursor")?;
    if !has_only(&cursor, &["batchSize"]) {
        return None;
    }
    count_at(&cursor, "batchSize")
}

/// The array of the field.
pub(crate) fn array_at<'a>(document: &RawDocument<'a>, field: &str) -> Option<RawArray<'a>>
    ensures { option_map items result ≡ array_at field.now (fields document.now) }
{
    let found = document.get(field)?;
    found.as_array()
}

/// Whether no item is left. One that is left is passed.
pub(crate) fn is_end(items: &mut RawItems<'_>) -> bool
    ensures { IsEnd result (items_left items.old) }
{
    items.next().is_none()
}

/// The one document of an array.
fn one_in<'a>(array: &RawArray<'a>) -> Option<RawDocument<'a>>
    ensures { option_map fields result ≡ one_in (items array.now) }
{
    let mut left = array.iter();
    let first = left.next()?;
    if !is_end(&mut left) {
        return None;
    }
    first.as_document()
}

/// The one document of the array of the field.
pub(crate) fn one_at<'a>(document: &RawDocument<'a>, field: &str) -> Option<RawDocument<'a>>
    ensures { option_map fields result ≡ one_at field.now (fields document.now) }
{
    let array = array_at(document, field)?;
    one_in(&array)
}

/// Whether a limit is for all documents, as 0 is. A limit of 1 is for the first.
pub(crate) fn many_of(limit: Option<RawValue<'_>>) -> Option<bool>
    ensures { result ≡ limit_many (option_map value limit.entry) }
{
    match count_of(&limit?)? {
        0 => Some(true),
        1 => Some(false),
        _ => None,
    }
}

/// The truth value, or the default where there is none.
pub(crate) fn flag_or(default: bool, found: Option<RawValue<'_>>) -> Option<bool>
    ensures { result ≡ flag_or default (option_map value found.entry) }
{
    match found {
        None => Some(default),
        Some(found) => found.as_bool(),
    }
}

fn are_documents(array: &RawArray<'_>) -> bool
    ensures { result ≡ is_some (documents_in (items array.now)) }
{
    let mut left = array.iter();
    'items: while let Some(item) = left.next() {
        if item.as_document().is_none() {
            return false;
        }
    }
    true
}

/// The array, where each of its values is a document.
#[tactic(auto, using(crate::proofs::Asking::all_documents))]
pub(crate) fn documents_of<'a>(array: RawArray<'a>) -> Option<RawArray<'a>>
    ensures { option_map (λ a. documents_among (items a)) result ≡ documents_in (items array.entry) }
{
    if are_documents(&array) {
        Some(array)
    } else {
        None
    }
}

fn are_ids(array: &RawArray<'_>) -> bool
    ensures { result ≡ is_some (ids_in (items array.now)) }
{
    let mut left = array.iter();
    'items: while let Some(item) = left.next() {
        if id_of(&item).is_none() {
            return false;
        }
    }
    true
}

/// The array, where each of its values is an id.
#[tactic(auto, using(crate::proofs::Asking::all_ids))]
pub(crate) fn ids_of<'a>(array: RawArray<'a>) -> Option<RawArray<'a>>
    ensures { option_map (λ a. ids_among (items a)) result ≡ ids_in (items array.entry) }
{
    if are_ids(&array) { Some(array) } else { None }
}

/// Whether the document has just one field.
pub(crate) fn is_single(document: &RawDocument<'_>) -> bool
    ensures { result ≡ is_single (fields document.now) }
{
    let mut left = document.iter();
    match left.next() {
        Some(_) => left.next().is_none(),
        None => false,
    }
}

/// The document of the only field, where that has the name.
pub(crate) fn only_document<'a>(stage: &RawDocument<'a>, name: &str) -> Option<RawDocument<'a>>
    ensures { option_map fields result ≡ only_document name.now (fields stage.now) }
{
    if !is_single(stage) {
        return None;
    }
    document_at(stage, name)
}
