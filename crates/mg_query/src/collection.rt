//! The documents of a collection, by their numbers and by their ids.
ghost use Rattle.std.specs.declared.alloc.Global.{Global};
ghost use Rattle.std.specs.Prelude.{◌≡◌, ◌++◌, ◌<◌, ℕ, Vec, [], false, true, map, nat_lt, IfOk, IfSome, OnOk, OnErr};
ghost use Rattle.std.specs.BTreeSet.{IsOrdered, contains};
ghost use Rattle.std.specs.List.{filter, list_any};
ghost use Rattle.std.specs.Ordering.{nat_cmp};
ghost use Rattle.mg_bson.specs.Raw.{fields};
ghost use Rattle.mg_query.specs.Collecting.{exchange_document, without_document, AreKeyed, exchange_documents, without_documents};
ghost use Rattle.mg_query.specs.Grouping.{stands};
ghost use Rattle.mg_query.specs.Numbering.{HaveNewIds, Grows, GrowsBySome, IsExact, IsKeyed, KeepsAll, KeepsIds, Pushes, document_of, holds_id, is_number, number_in, stored, stored_bytes};

use crate::groups::Groups;
use crate::index::Index;
use mg_bson::RawDocumentBuf;
use mg_link::OutOfMemory;
use std::alloc::Global;
use std::collections::{BTreeMap, BTreeSet};

/// A document, and the encoding of its `_id`.
pub struct KeyedDocument {
    /// The encoding.
    pub key: Vec<u8>,
    /// The document.
    pub document: RawDocumentBuf,
}

// By hand, so that letting one go is one call.
impl Drop for KeyedDocument {
    fn drop(self) {
        let KeyedDocument {
            key: _,
            document: _,
        } = self;
    }
}

impl KeyedDocument {
    fn into_parts(self) -> (Vec<u8>, RawDocumentBuf)
        ensures key { result.0 ≡ self.key }
        ensures document { result.1 ≡ self.document }
    {
        let KeyedDocument { key, document } = self;
        (key, document)
    }
}

/// The documents of a collection, and the indexes beside that of `_id`.
pub struct Collection {
    /// The documents by their numbers, in the order in which they came. No number is given twice.
    pub(crate) documents: BTreeMap<u64, RawDocumentBuf>,
    /// The number of each by the encoding of its `_id`.
    pub(crate) ids: BTreeMap<Vec<u8>, u64>,
    /// The numbers of chunks by their files.
    groups: Groups,
    /// The number of the next document.
    next: u64,
    /// The indexes beside that of `_id`, in the order in which they came.
    pub indexes: Vec<Index>,
}

// By hand, so that letting one go is one call.
impl Drop for Collection {
    fn drop(self) {
        let Collection {
            documents: _,
            ids: _,
            groups: _,
            next: _,
            indexes: _,
        } = self;
    }
}

impl Collection {
    /// A collection with no document.
    pub fn new(alloc: Global) -> Collection
        ensures none { stored result ≡ [] }
        ensures ids { KeepsIds result }
        ensures no_indexes { result.indexes.items ≡ [] }
    {
        Collection {
            documents: BTreeMap::new(alloc),
            ids: BTreeMap::new(alloc),
            groups: Groups::new(alloc),
            next: 0,
            indexes: Vec::new(alloc),
        }
    }

    /// The documents, in the order in which they came.
    pub fn lent(&self, alloc: Global) -> Result<Vec<&RawDocumentBuf>, OutOfMemory>
        ensures { IfOk result (λ ds. map (λ d. d.now) ds.items ≡ stored_bytes self.now) }
    {
        let mut lent = Vec::new(alloc);
        for document in self.documents.values() {
            lent.push(document)?;
        }
        Ok(lent)
    }

    /// Whether one of the documents has the `_id` with this encoding.
    pub fn has_id(&self, key: &Vec<u8>) -> bool
        ensures { KeepsIds self.now → result ≡ holds_id key.now.items (stored self.now) }
    {
        self.ids.contains_key(key)
    }

    /// The numbers of the documents with these ids.
    pub(crate) fn numbers(
        &self,
        alloc: Global,
        keys: &Vec<Vec<u8>>,
    ) -> Result<BTreeSet<u64>, OutOfMemory>
        ensures { IfOk result (λ ns. IsOrdered nat_cmp ns × ((m : ℕ) → contains nat_cmp ns m ≡ list_any (λ (k : Vec ℕ Global). is_number (number_in self.now.ids k.items) m) keys.now.items)) }
    {
        let mut numbers = BTreeSet::new(alloc);
        for key in keys {
            let Some(number) = self.ids.get(key) else {
                continue;
            };
            numbers.insert(*number)?;
        }
        Ok(numbers)
    }

    /// The numbers of all documents that have one of these encodings for a group, and of others maybe, where each
    /// document stands in its groups.
    pub(crate) fn grouped(
        &self,
        alloc: Global,
        keys: &Vec<Vec<u8>>,
    ) -> Result<Option<BTreeSet<u64>>, OutOfMemory>
        ensures { IfOk result (λ o. IfSome o (λ ns. IsOrdered nat_cmp ns × (self.now.groups.is_whole ≡ true) × ((m : ℕ) → m < self.now.next → list_any (λ (k : Vec ℕ Global). stands self.now.groups k.items m) keys.now.items ≡ true → contains nat_cmp ns m ≡ true))) }
    {
        if !self.groups.is_whole {
            return Ok(None);
        }
        Ok(Some(self.groups.numbers(alloc, keys, self.next)?))
    }

    /// Puts a document behind the others, none of which has its `_id`. An error changes nothing. More than can be
    /// numbered are want of memory.
    fn push(&mut self, key: Vec<u8>, document: RawDocumentBuf) -> Result<(), OutOfMemory>
        ensures ok { OnOk result (KeepsIds self.old → IsKeyed key.items (fields document) → holds_id key.items (stored self.old) ≡ false → IsExact document → Pushes document self.old self.new) }
        ensures err { OnErr result (KeepsIds self.old → KeepsAll self.old self.new) }
        ensures indexes { self.new.indexes ≡ self.old.indexes }
    {
        let number = self.next;
        let Some(next) = number.checked_add(1) else {
            return Err(OutOfMemory);
        };
        let alloc = *key.allocator();
        self.groups.put(alloc, &document.as_raw(), number)?;
        self.documents.insert(number, document)?;
        match self.ids.insert(key, number) {
            Ok(_) => {}
            Err(_) => {
                let _document = self.documents.remove(&number);
                return Err(OutOfMemory);
            }
        }
        self.next = next;
        Ok(())
    }

    /// Puts documents behind the others, as far as memory is there.
    fn push_all(&mut self, documents: Vec<KeyedDocument>) -> Result<(), OutOfMemory>
        ensures ok { OnOk result (KeepsIds self.old → HaveNewIds (stored self.old) documents.items → Grows (map document_of documents.items) self.old self.new) }
        ensures err { OnErr result (KeepsIds self.old → HaveNewIds (stored self.old) documents.items → GrowsBySome self.old self.new) }
        ensures indexes { self.new.indexes ≡ self.old.indexes }
    {
        for keyed in documents {
            let (key, document) = keyed.into_parts();
            self.push(key, document)?;
        }
        Ok(())
    }

    /// Leaves the documents with numbers below this one.
    fn truncate(&mut self, number: u64)
        ensures ids { KeepsIds self.old → KeepsIds self.new }
        ensures documents { self.new.documents.entries ≡ filter (λ e. nat_lt e.0 number) self.old.documents.entries }
        ensures indexes { self.new.indexes ≡ self.old.indexes }
    {
        self.ids.retain(|_, given| *given < number);
        self.documents.retain(|given, _| *given < number);
        self.groups.truncate(number);
    }

    /// Appends documents, none of whose ids are there. An error changes nothing.
    pub fn append(&mut self, documents: Vec<KeyedDocument>) -> Result<(), OutOfMemory>
        ensures ok { OnOk result (KeepsIds self.old → HaveNewIds (stored self.old) documents.items → stored self.new ≡ stored self.old ++ map document_of documents.items) }
        ensures err { OnErr result (KeepsIds self.old → HaveNewIds (stored self.old) documents.items → stored self.new ≡ stored self.old) }
        ensures ids { KeepsIds self.old → HaveNewIds (stored self.old) documents.items → KeepsIds self.new }
        ensures indexes { self.new.indexes ≡ self.old.indexes }
    {
        let next = self.next;
        match self.push_all(documents) {
            Ok(()) => Ok(()),
            Err(error) => {
                self.truncate(next);
                Err(error)
            }
        }
    }

    /// The collection has these indexes from now on.
    pub fn put_indexes(&mut self, indexes: Vec<Index>)
        ensures { self.new ≡ record self.old { indexes = indexes } }
    {
        let _old = std::mem::replace(&mut self.indexes, indexes);
    }

    /// Puts a document in the place of the one with the same `_id`. Where there is none nothing changes.
    fn change(&mut self, key: &Vec<u8>, document: RawDocumentBuf)
        ensures documents { KeepsIds self.old → stored self.new ≡ exchange_document key.now.items (fields document) (stored self.old) }
        ensures ids { KeepsIds self.old → IsKeyed key.now.items (fields document) → IsExact document → KeepsIds self.new }
        ensures indexes { self.new.indexes ≡ self.old.indexes }
    {
        let Some(number) = self.ids.get(key) else {
            return;
        };
        let Some(held) = self.documents.get_mut(number) else {
            return;
        };
        let alloc = *key.allocator();
        self.groups
            .change(alloc, &held.as_raw(), &document.as_raw(), *number);
        let _old = std::mem::replace(held, document);
    }

    /// Removes the document with this `_id`. Where there is none nothing changes.
    fn remove(&mut self, key: &Vec<u8>)
        ensures documents { KeepsIds self.old → stored self.new ≡ without_document key.now.items (stored self.old) }
        ensures ids { KeepsIds self.old → KeepsIds self.new }
        ensures indexes { self.new.indexes ≡ self.old.indexes }
    {
        let Some(number) = self.ids.remove(key) else {
            return;
        };
        let Some(document) = self.documents.remove(&number) else {
            return;
        };
        self.groups
            .take(*key.allocator(), &document.as_raw(), number);
    }

    /// Puts documents in the places of those with the same ids. One whose `_id` is not there is left out.
    pub fn change_all(&mut self, documents: Vec<KeyedDocument>)
        ensures documents { KeepsIds self.old → AreKeyed documents.items → stored self.new ≡ exchange_documents documents.items (stored self.old) }
        ensures ids { KeepsIds self.old → AreKeyed documents.items → KeepsIds self.new }
        ensures indexes { self.new.indexes ≡ self.old.indexes }
    {
        for keyed in documents {
            let (key, document) = keyed.into_parts();
            self.change(&key, document);
        }
    }

    /// Removes the documents with these ids, which are given by their encodings.
    pub fn remove_all(&mut self, ids: &Vec<Vec<u8>>)
        ensures documents { KeepsIds self.old → stored self.new ≡ without_documents ids.now.items (stored self.old) }
        ensures ids { KeepsIds self.old → KeepsIds self.new }
        ensures indexes { self.new.indexes ≡ self.old.indexes }
    {
        for id in ids {
            self.remove(id);
        }
    }
}
