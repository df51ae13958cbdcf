//! What an insert appends.
ghost use Rattle.mg_store.specs.declared.insert.Rejected.TheVariants.{Memory};
ghost use Rattle.std.specs.Prelude.{◌≡◌, ◌<◌, ◌≤◌, ◌+◌, ◌^◌, ◌++◌, List, [], suc, length, vec_len, vec_capacity, IfOk, OnOk, codes};
ghost use Rattle.mg_bson.specs.Find.{get};
ghost use Rattle.mg_bson.specs.Raw.{items};
ghost use Rattle.mg_bson.specs.Tree.{Fields, no_items};
ghost use Rattle.mg_link.specs.Namespace.{space};
ghost use Rattle.mg_server.specs.Rules.{inserting, write_error};
ghost use Rattle.mg_query.specs.Asking.{documents_among};
ghost use Rattle.mg_query.specs.Numbering.{KeepsIdsThere, holds_id, there};
ghost use Rattle.mg_store.specs.Inserting.{AcceptsOr, Adds, Appends, Encodes, Fits, GivesEntry, GivesId, GivesKey, Lists, Takes, new_documents};

use crate::change::{ChangeEntry, entry_of};
use mg_bson::{Array, Bson, BsonError, Document, RawArray, RawDocumentBuf, to_bytes};
use mg_link::{Namespace, OutOfMemory};
use mg_query::reply::{put_item, write_error};
use mg_query::{
    Collection, KeyedDocument, MAX_DOCUMENT, MAX_INSERTED_LEVELS, insert_event, key_of, tree_of,
};
use std::alloc::{AllocError, AllocFailed, Global};
use std::collections::BTreeSet;

/// The code for a document that cannot be stored.
const BAD_DOCUMENT: i32 = 9;

/// The code for an `_id` that is there already.
const DUPLICATE_ID: i32 = 11000;

/// Moves items to the end of a vector that has room for them.
pub(crate) fn append_reserved<T: Drop>(items: &mut Vec<T>, more: &mut Vec<T>)
    requires { vec_len items.old + vec_len more.old ≤ vec_capacity items.old }
    ensures { items.new.items ≡ items.old.items ++ more.old.items }
{
    match items.append(more) {
        Ok(()) => {}
        Err(_) => unreachable!(),
    }
}

/// What an insert is to append, the ids of that, and what it answers.
pub(crate) struct Appended {
    pub(crate) documents: Vec<KeyedDocument>,
    pub(crate) ids: BTreeSet<Vec<u8>>,
    pub(crate) entries: Vec<ChangeEntry>,
    pub(crate) errors: Array,
}

// By hand, so that letting one go is one call.
impl Drop for Appended {
    fn drop(self) {
        let Appended {
            documents: _,
            ids: _,
            entries: _,
            errors: _,
        } = self;
    }
}

/// Why a document is not appended.
#[derive(Clone, Copy, Debug, PartialEq, Eq)]
enum Rejected {
    Memory,
    Refused(i32),
}

impl From<OutOfMemory> for Rejected {
    ghost from_gives = { λ _ e. e ≡ Memory };

    fn from(_e: OutOfMemory) -> Rejected {
        Rejected::Memory
    }
}

impl From<AllocError> for Rejected {
    ghost from_gives = { λ _ e. e ≡ Memory };

    fn from(_e: AllocError) -> Rejected {
        Rejected::Memory
    }
}

impl<T: Drop> From<AllocFailed<T>> for Rejected {
    ghost from_gives = { λ _ e. e ≡ Memory };

    fn from(_e: AllocFailed<T>) -> Rejected {
        Rejected::Memory
    }
}

/// The encoding of a document that may be stored.
fn storable(alloc: Global, document: &Document) -> Result<RawDocumentBuf, Rejected>
    ensures { Encodes result document.now }
{
    match to_bytes(alloc, document) {
        Ok(bytes) => {
            if bytes.as_bytes().len() > MAX_DOCUMENT || !document.is_within(MAX_INSERTED_LEVELS) {
                return Err(Rejected::Refused(BAD_DOCUMENT));
            }
            Ok(bytes)
        }
        Err(BsonError::TooLarge) => Err(Rejected::Refused(BAD_DOCUMENT)),
        Err(BsonError::TooDeep) => Err(Rejected::Refused(BAD_DOCUMENT)),
        Err(_) => Err(Rejected::Memory),
    }
}

/// A copy of the `_id` of a document.
fn given_id(document: &Document) -> Result<Bson, Rejected>
    ensures { GivesId result (get (codes "_id") document.now) }
{
    match document.get("_id") {
        Some(id) => Ok(id.clone()?),
        None => Err(Rejected::Refused(BAD_DOCUMENT)),
    }
}

/// The encoding of the `_id` of a document.
fn given_key(alloc: Global, document: &Document) -> Result<Vec<u8>, Rejected>
    ensures { GivesKey result (get (codes "_id") document.now) }
{
    let id = given_id(document)?;
    let key = key_of(alloc, id)?;
    Ok(key)
}

/// The entry of a document, which stands before this place.
fn inserted_entry(
    alloc: Global,
    place: u64,
    ns: &Namespace,
    document: Document,
) -> Result<ChangeEntry, Rejected>
    ensures { GivesEntry place (space ns.now) document result }
{
    let id = given_id(&document)?;
    let event = insert_event(alloc, place, ns, id, document)?;
    let entry = entry_of(alloc, ns, &event)?;
    Ok(entry)
}

impl Appended {
    /// What is to be appended where there is nothing.
    pub(crate) fn new(alloc: Global) -> Appended
        ensures fits { (before : List Fields) → Fits before result }
        ensures none { new_documents result ≡ [] }
        ensures no_entries { result.entries.items ≡ [] }
        ensures no_errors { result.errors ≡ no_items }
    {
        Appended {
            documents: Vec::new(alloc),
            ids: BTreeSet::new(alloc),
            entries: Vec::new(alloc),
            errors: Array::new(alloc),
        }
    }

    /// What is to be appended: documents and their entries.
    pub(crate) fn into_parts(self) -> (Vec<KeyedDocument>, Vec<ChangeEntry>)
        ensures documents { result.0 ≡ self.documents }
        ensures entries { result.1 ≡ self.entries }
    {
        let Appended {
            documents,
            ids: _,
            entries,
            errors: _,
        } = self;
        (documents, entries)
    }

    /// Appends a document behind what is there already. Its entry stands before the place.
    fn accept(
        &mut self,
        alloc: Global,
        collection: Option<&Collection>,
        place: u64,
        ns: &Namespace,
        document: Document,
    ) -> Result<(), Rejected>
        ensures { KeepsIdsThere collection.entry → Fits (there collection.entry) self.old → AcceptsOr (there collection.entry) place (space ns.now) document self.old self.new result }
    {
        let bytes = storable(alloc, &document)?;
        let key = given_key(alloc, &document)?;
        if holds(collection, &key) || self.ids.contains(&key) {
            return Err(Rejected::Refused(DUPLICATE_ID));
        }
        let entry = inserted_entry(alloc, place, ns, document)?;
        Ok(self.add(key, bytes, entry)?)
    }

    /// Adds a document, the encoding of its `_id`, and its entry.
    fn add(
        &mut self,
        key: Vec<u8>,
        document: RawDocumentBuf,
        entry: ChangeEntry,
    ) -> Result<(), OutOfMemory>
        ensures { OnOk result (Adds key document entry self.old self.new) }
    {
        self.ids.insert(key.clone()?)?;
        self.documents.push(KeyedDocument { key, document })?;
        self.entries.push(entry)?;
        Ok(())
    }

    /// Lists the write error of the document with this number. More than can be numbered are want of memory.
    fn fail(&mut self, alloc: Global, index: u64, code: i32) -> Result<(), OutOfMemory>
        ensures { OnOk result (Lists (write_error index code) self.old self.new) }
    {
        let Ok(index) = i32::try_from(index) else {
            return Err(OutOfMemory);
        };
        let error = write_error(alloc, index, code)?;
        put_item(&mut self.errors, Bson::Document(error))
    }

    /// Appends a document, or lists its write error. Whether it was appended.
    fn take(
        &mut self,
        alloc: Global,
        collection: Option<&Collection>,
        entries: u64,
        ns: &Namespace,
        index: u64,
        document: Document,
    ) -> Result<bool, OutOfMemory>
        requires { entries < 2 ^ 63 }
        ensures { KeepsIdsThere collection.entry → Fits (there collection.entry) self.old → IfOk result (Takes (there collection.entry) (suc (entries + length self.old.entries.items)) index (space ns.now) document self.old self.new) }
    {
        let place = entries + self.entries.len() as u64 + 1;
        match self.accept(alloc, collection, place, ns, document) {
            Ok(()) => Ok(true),
            Err(Rejected::Memory) => Err(OutOfMemory),
            Err(Rejected::Refused(code)) => {
                self.fail(alloc, index, code)?;
                Ok(false)
            }
        }
    }
}

fn holds(collection: Option<&Collection>, key: &Vec<u8>) -> bool
    ensures { KeepsIdsThere collection.entry → result ≡ holds_id key.now.items (there collection.entry) }
{
    match collection {
        Some(collection) => collection.has_id(key),
        None => false,
    }
}

/// Goes through the documents of an insert. An ordered one stops at the first that is refused.
pub(crate) fn append_all(
    alloc: Global,
    collection: Option<&Collection>,
    entries: u64,
    ns: &Namespace,
    documents: &RawArray<'_>,
    ordered: bool,
) -> Result<Appended, OutOfMemory>
    requires { entries < 2 ^ 63 }
    ensures { KeepsIdsThere collection.entry → IfOk result (Appends (there collection.entry) entries (inserting (space ns.now) ordered 0 entries (there collection.entry) (documents_among (items documents.now)))) }
{
    let mut appended = Appended::new(alloc);
    let mut index = 0u64;
    let mut left = documents.iter();
    'documents: while let Some(item) = left.next() {
        let Some(raw) = item.as_document() else {
            continue;
        };
        let document = tree_of(alloc, raw)?;
        let taken = appended.take(alloc, collection, entries, ns, index, document)?;
        if ordered && !taken {
            return Ok(appended);
        }
        let Some(next) = index.checked_add(1) else {
            return Err(OutOfMemory);
        };
        index = next;
    }
    Ok(appended)
}
