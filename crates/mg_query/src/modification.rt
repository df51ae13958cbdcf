//! What an update makes of a document.
ghost use Rattle.std.specs.Prelude.{◌≡◌, Some, IfOk, codes, false, if◌then◌else◌, option_map};
ghost use Rattle.std.specs.Str.{bytes_eq};
ghost use Rattle.mg_bson.specs.Find as find;
ghost use Rattle.mg_bson.specs.Raw.{fields};
ghost use Rattle.mg_bson.specs.View.{tree};
ghost use Rattle.mg_bson.specs.Find.{get, with_field};
ghost use Rattle.mg_server.specs.Commands.{begin_without_dollar, may_set, modification_of};
ghost use Rattle.mg_server.specs.Write.{modified, with_fields, with_id};
ghost use Rattle.mg_server.specs.Rules.{same_id, set_anew};
ghost use Rattle.mg_query.specs.Modifying.{lent_modification, AltersOr, EncodesOr};

use crate::copies::{encoded, owned, tree_of};
use crate::filter::{begins_with_dollar, is_top_name, key_of, raw_key};
use crate::reading::only_document;
use crate::refusal::{Refusal, Stop};
use crate::reply::with;
use mg_bson::{Bson, BsonError, Document, RawDocument, RawDocumentBuf, to_bytes};
use mg_link::OutOfMemory;
use std::alloc::Global;

/// What an update makes of a document, lent from its command: it sets fields, or puts another document in its place.
pub enum Modification<'a> {
    /// These fields get these values.
    Set(RawDocument<'a>),
    /// This document is put in the place of the old one, whose `_id` stays.
    Put(RawDocument<'a>),
}

// By hand, so that letting one go is one call.
impl Drop for Modification<'_> {
    fn drop(self) {
        match self {
            Modification::Set(_) => {}
            Modification::Put(_) => {}
        }
    }
}

/// Whether each name is at the top and not `_id`.
fn may_set(document: &RawDocument<'_>) -> bool
    ensures { result ≡ may_set (fields document.now) }
{
    let mut left = document.iter();
    'fields: while let Some((name, _)) = left.next() {
        if name == "_id" || !is_top_name(name) {
            return false;
        }
    }
    true
}

/// Whether no name is that of an operator.
fn begin_without_dollar(document: &RawDocument<'_>) -> bool
    ensures { result ≡ begin_without_dollar (fields document.now) }
{
    let mut left = document.iter();
    'fields: while let Some((name, _)) = left.next() {
        if begins_with_dollar(name) {
            return false;
        }
    }
    true
}

/// The modification that a document describes: `{ $set: fields }`, or a document without operators.
#[tactic(auto, using(crate::proofs::Modifying::modification_is))]
pub(crate) fn modification_of<'a>(document: RawDocument<'a>) -> Option<Modification<'a>>
    ensures { option_map lent_modification result ≡ modification_of (fields document.entry) }
{
    if let Some(set) = only_document(&document, "$set") {
        return if may_set(&set) {
            Some(Modification::Set(set))
        } else {
            None
        };
    }
    if begin_without_dollar(&document) {
        Some(Modification::Put(document))
    } else {
        None
    }
}

/// The document with this value in place of the first of the name, or at the end.
fn put(mut document: Document, name: &str, value: Bson) -> Result<Document, OutOfMemory>
    ensures { IfOk result (λ d. d ≡ find.put name.now (tree value) document) }
{
    match document.insert(name, value) {
        Ok(_) => Ok(document),
        Err(_) => Err(OutOfMemory),
    }
}

/// The document with each of the fields in place of that of its name, or behind the others.
pub fn with_fields(
    alloc: Global,
    new: &RawDocument<'_>,
    document: Document,
) -> Result<Document, OutOfMemory>
    ensures { IfOk result (λ d. d ≡ with_fields (fields new.now) document) }
{
    let mut document = document;
    let mut left = new.iter();
    'fields: while let Some((name, found)) = left.next() {
        let value = owned(alloc, &found)?;
        document = put(document, name, value)?;
    }
    Ok(document)
}

/// Whether the name is that of the first `_id`.
fn is_first_id(passed: bool, name: &str) -> bool
    ensures { result ≡ (if passed then false else bytes_eq name.now (codes "_id")) }
{
    !passed && name == "_id"
}

/// The document without its first `_id`, behind this one, which stays.
fn with_id(alloc: Global, id: Bson, new: &RawDocument<'_>) -> Result<Document, OutOfMemory>
    ensures { IfOk result (λ d. d ≡ with_id (Some (tree id)) (fields new.now)) }
{
    let front = with(Document::new(alloc), "_id", id)?;
    let mut document = front;
    let mut passed = false;
    let mut left = new.iter();
    'fields: while let Some((name, found)) = left.next() {
        if is_first_id(passed, name) {
            passed = true;
            continue;
        }
        let value = owned(alloc, &found)?;
        document = with(document, name, value)?;
    }
    Ok(document)
}

/// What the modification makes of a stored document. Each of those has an `_id`.
pub(crate) fn modified(
    alloc: Global,
    modification: &Modification<'_>,
    document: &RawDocumentBuf,
) -> Result<Document, OutOfMemory>
    ensures { IfOk result (λ d. d ≡ modified (lent_modification modification.now) (fields document.now)) }
{
    match modification {
        Modification::Set(new) => with_fields(alloc, new, tree_of(alloc, document.as_raw())?),
        Modification::Put(new) => match document.as_raw().get("_id") {
            Some(id) => with_id(alloc, owned(alloc, &id)?, new),
            None => Err(OutOfMemory),
        },
    }
}

/// A document as an update makes it, and its encoding.
pub struct Altered {
    /// The document.
    pub document: Document,
    /// Its bytes.
    pub encoded: RawDocumentBuf,
}

// By hand, so that letting one go is one call.
impl Drop for Altered {
    fn drop(self) {
        let Altered {
            document: _,
            encoded: _,
        } = self;
    }
}

impl Altered {
    /// The document and its bytes.
    pub fn into_parts(self) -> (Document, RawDocumentBuf)
        ensures document { result.0 ≡ self.document }
        ensures encoded { result.1 ≡ self.encoded }
    {
        let Altered { document, encoded } = self;
        (document, encoded)
    }
}

/// The encoding of a document, or the refusal of one that is too large for that.
fn encoded_anew(alloc: Global, document: &Document) -> Result<RawDocumentBuf, Stop>
    ensures { EncodesOr document.now result }
{
    match to_bytes(alloc, document) {
        Ok(encoded) => Ok(encoded),
        Err(BsonError::TooLarge) => Err(Stop::Refused(Refusal::BadRequest)),
        Err(_) => Err(Stop::Memory),
    }
}

/// What the modification makes of a stored document, none where it leaves that equal. One that is too large to be encoded
/// is refused.
pub fn alter(
    alloc: Global,
    modification: &Modification<'_>,
    document: &RawDocumentBuf,
) -> Result<Option<Altered>, Stop>
    ensures { AltersOr (lent_modification modification.now) (fields document.now) result }
{
    let before = encoded(alloc, &tree_of(alloc, document.as_raw())?)?;
    let document = modified(alloc, modification, document)?;
    let encoded = encoded_anew(alloc, &document)?;
    if before == encoded {
        return Ok(None);
    }
    Ok(Some(Altered { document, encoded }))
}

/// Whether the document has this value there.
fn has_value(
    alloc: Global,
    document: &RawDocument<'_>,
    name: &str,
    value: &Bson,
) -> Result<bool, OutOfMemory>
    ensures { IfOk result (λ b. b ≡ same_id (tree value.now) (get name.now (fields document.now))) }
{
    let Some(found) = document.get(name) else {
        return Ok(false);
    };
    let here = raw_key(alloc, &found)?;
    let key = key_of(alloc, value.clone()?)?;
    Ok(here == key)
}

/// These fields, and another where the document has another value there.
fn with_anew(
    alloc: Global,
    anew: Document,
    document: &RawDocument<'_>,
    name: &str,
    value: &Bson,
) -> Result<Document, OutOfMemory>
    ensures { IfOk result (λ d. d ≡ (if same_id (tree value.now) (get name.now (fields document.now)) then anew else with_field anew name.now (tree value.now))) }
{
    if has_value(alloc, document, name, value)? {
        return Ok(anew);
    }
    with(anew, name, value.clone()?)
}

/// Those of the fields that the document has with another value, or has not, in their order.
pub fn set_anew(
    alloc: Global,
    sets: &Document,
    document: &RawDocument<'_>,
) -> Result<Document, OutOfMemory>
    ensures { IfOk result (λ d. d ≡ set_anew (fields document.now) sets.now) }
{
    let mut anew = Document::new(alloc);
    let mut left = sets.iter();
    'fields: while let Some((name, value)) = left.next() {
        anew = with_anew(alloc, anew, document, name, value)?;
    }
    Ok(anew)
}
