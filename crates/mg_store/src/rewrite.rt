//! What updates and deletes change.
ghost use Rattle.std.specs.Prelude.{◌≡◌, ◌<◌, ◌^◌, ◌++◌, ◌∷◌, [], List, Some, codes, IfOk, OnOk};
ghost use Rattle.mg_bson.specs.Find.{get};
ghost use Rattle.mg_bson.specs.Raw.{fields};
ghost use Rattle.mg_bson.specs.Tree.{Fields};
ghost use Rattle.mg_bson.specs.View.{tree};
ghost use Rattle.mg_link.specs.Namespace.{space};
ghost use Rattle.mg_server.specs.Rules.{modified_event};
ghost use Rattle.mg_server.specs.Write.{modified};
ghost use Rattle.mg_query.specs.Numbering.{IsKeyed};
ghost use Rattle.mg_query.specs.Modifying.{lent_modification, Alters};
ghost use Rattle.mg_query.specs.Querying.{lent};
ghost use Rattle.mg_store.specs.Rewriting.{ChangesOr, GivesEvent, MakesAllOr, MakesOr, RemovesAllOr, RemovesOr};

use crate::change::{ChangeEntry, entry_of};
use mg_bson::{Bson, Document, RawDocumentBuf};
use mg_link::{Namespace, OutOfMemory};
use mg_query::{
    Altered, KeyedDocument, Modification, Refusal, Stop, alter, deleted_event, encoded_may_stay,
    key_of, may_be_given, owned, replaced_event, set_anew, updated_event, with_fields,
};
use std::alloc::Global;

/// A copy of the `_id` of a stored document. Each of those has one.
fn stored_id(alloc: Global, document: &RawDocumentBuf) -> Result<Bson, OutOfMemory>
    ensures { IfOk result (λ id. get (codes "_id") (fields document.now) ≡ Some (tree id)) }
{
    match document.as_raw().get("_id") {
        Some(found) => owned(alloc, &found),
        None => Err(OutOfMemory),
    }
}

/// The encoding of the `_id` of a stored document.
fn stored_key(alloc: Global, document: &RawDocumentBuf) -> Result<Vec<u8>, OutOfMemory>
    ensures { IfOk result (λ k. IsKeyed k.items (fields document.now)) }
{
    let id = stored_id(alloc, document)?;
    key_of(alloc, id)
}

/// The event of a document of which the modification makes this one.
fn modified_event(
    alloc: Global,
    place: u64,
    ns: &Namespace,
    modification: &Modification<'_>,
    document: &RawDocumentBuf,
    made: Document,
) -> Result<Document, OutOfMemory>
    ensures { made ≡ modified (lent_modification modification.now) (fields document.now) → IfOk result (λ e. e ≡ modified_event place (space ns.now) (lent_modification modification.now) (fields document.now)) }
{
    let id = stored_id(alloc, document)?;
    match modification {
        Modification::Set(new) => {
            let sets = with_fields(alloc, new, Document::new(alloc))?;
            let anew = set_anew(alloc, &sets, &document.as_raw())?;
            updated_event(alloc, place, ns, id, anew)
        }
        Modification::Put(_) => replaced_event(alloc, place, ns, id, made),
    }
}

/// The entry of an event, or the refusal of one that no reply may give.
fn given_entry(alloc: Global, ns: &Namespace, event: &Document) -> Result<ChangeEntry, Stop>
    ensures { GivesEvent (space ns.now) event.now result }
{
    if !may_be_given(event) {
        return Err(Stop::Refused(Refusal::BadRequest));
    }
    let entry = entry_of(alloc, ns, event)?;
    Ok(entry)
}

/// The new documents of an update, under their ids, and their entries.
pub(crate) struct Changes {
    pub(crate) documents: Vec<KeyedDocument>,
    pub(crate) entries: Vec<ChangeEntry>,
}

// By hand, so that letting one go is one call.
impl Drop for Changes {
    fn drop(self) {
        let Changes {
            documents: _,
            entries: _,
        } = self;
    }
}

impl Changes {
    fn new(alloc: Global) -> Changes
        ensures documents { result.documents.items ≡ [] }
        ensures entries { result.entries.items ≡ [] }
    {
        Changes {
            documents: Vec::new(alloc),
            entries: Vec::new(alloc),
        }
    }

    pub(crate) fn into_parts(self) -> (Vec<KeyedDocument>, Vec<ChangeEntry>)
        ensures documents { result.0 ≡ self.documents }
        ensures entries { result.1 ≡ self.entries }
    {
        let Changes { documents, entries } = self;
        (documents, entries)
    }

    fn add(
        &mut self,
        key: Vec<u8>,
        document: RawDocumentBuf,
        entry: ChangeEntry,
    ) -> Result<(), OutOfMemory>
        ensures documents { OnOk result (self.new.documents.items ≡ self.old.documents.items ++ record { key = key; document = document } ∷ []) }
        ensures entries { OnOk result (self.new.entries.items ≡ self.old.entries.items ++ entry ∷ []) }
    {
        self.documents.push(KeyedDocument { key, document })?;
        self.entries.push(entry)?;
        Ok(())
    }

    /// Adds a document that the modification alters; its entry stands before this place.
    fn change(
        &mut self,
        alloc: Global,
        place: u64,
        ns: &Namespace,
        modification: &Modification<'_>,
        document: &RawDocumentBuf,
        altered: Altered,
    ) -> Result<(), Stop>
        ensures { Alters (lent_modification modification.now) (fields document.now) (Some altered) → ChangesOr place (space ns.now) (lent_modification modification.now) (fields document.now) self.old self.new result }
    {
        let (made, encoded) = altered.into_parts();
        if !encoded_may_stay(&encoded, &made) {
            return Err(Stop::Refused(Refusal::BadRequest));
        }
        let key = stored_key(alloc, document)?;
        let event = modified_event(alloc, place, ns, modification, document, made)?;
        let entry = given_entry(alloc, ns, &event)?;
        Ok(self.add(key, encoded, entry)?)
    }

    /// Adds what the modification makes of a document, where that differs.
    fn take(
        &mut self,
        alloc: Global,
        entries: u64,
        ns: &Namespace,
        modification: &Modification<'_>,
        document: &RawDocumentBuf,
    ) -> Result<(), Stop>
        requires { entries < 2 ^ 63 }
        ensures { (olds : List Fields) → MakesOr entries (space ns.now) (lent_modification modification.now) olds (fields document.now) self.old self.new result }
    {
        let place = entries + self.entries.len() as u64 + 1;
        match alter(alloc, modification, document)? {
            Some(altered) => self.change(alloc, place, ns, modification, document, altered),
            None => Ok(()),
        }
    }
}

/// What the modification makes of documents, behind so many entries.
pub(crate) fn changes_of(
    alloc: Global,
    entries: u64,
    ns: &Namespace,
    modification: &Modification<'_>,
    documents: &[&RawDocumentBuf],
) -> Result<Changes, Stop>
    requires { entries < 2 ^ 63 }
    ensures { MakesAllOr entries (space ns.now) (lent_modification modification.now) (lent documents.now) result }
{
    let mut changes = Changes::new(alloc);
    for document in documents {
        changes.take(alloc, entries, ns, modification, document)?;
    }
    Ok(changes)
}

/// The ids of documents that are removed, and the entries of their removal.
pub(crate) struct Removals {
    pub(crate) ids: Vec<Vec<u8>>,
    pub(crate) entries: Vec<ChangeEntry>,
}

// By hand, so that letting one go is one call.
impl Drop for Removals {
    fn drop(self) {
        let Removals { ids: _, entries: _ } = self;
    }
}

impl Removals {
    fn new(alloc: Global) -> Removals
        ensures ids { result.ids.items ≡ [] }
        ensures entries { result.entries.items ≡ [] }
    {
        Removals {
            ids: Vec::new(alloc),
            entries: Vec::new(alloc),
        }
    }

    pub(crate) fn into_parts(self) -> (Vec<Vec<u8>>, Vec<ChangeEntry>)
        ensures ids { result.0 ≡ self.ids }
        ensures entries { result.1 ≡ self.entries }
    {
        let Removals { ids, entries } = self;
        (ids, entries)
    }

    fn add(&mut self, id: Vec<u8>, entry: ChangeEntry) -> Result<(), OutOfMemory>
        ensures ids { OnOk result (self.new.ids.items ≡ self.old.ids.items ++ id ∷ []) }
        ensures entries { OnOk result (self.new.entries.items ≡ self.old.entries.items ++ entry ∷ []) }
    {
        self.ids.push(id)?;
        self.entries.push(entry)?;
        Ok(())
    }

    /// Adds a document.
    fn take(
        &mut self,
        alloc: Global,
        entries: u64,
        ns: &Namespace,
        document: &RawDocumentBuf,
    ) -> Result<(), Stop>
        requires { entries < 2 ^ 63 }
        ensures { (olds : List Fields) → RemovesOr entries (space ns.now) olds (fields document.now) self.old self.new result }
    {
        let place = entries + self.entries.len() as u64 + 1;
        let key = stored_key(alloc, document)?;
        let id = stored_id(alloc, document)?;
        let event = deleted_event(alloc, place, ns, id)?;
        let entry = given_entry(alloc, ns, &event)?;
        Ok(self.add(key, entry)?)
    }
}

/// What the removal of documents comes to, behind so many entries.
pub(crate) fn removals_of(
    alloc: Global,
    entries: u64,
    ns: &Namespace,
    documents: &[&RawDocumentBuf],
) -> Result<Removals, Stop>
    requires { entries < 2 ^ 63 }
    ensures { RemovesAllOr entries (space ns.now) (lent documents.now) result }
{
    let mut removals = Removals::new(alloc);
    for document in documents {
        removals.take(alloc, entries, ns, document)?;
    }
    Ok(removals)
}
