//! What commands are answered that change what is stored.
ghost use Rattle.std.specs.Prelude.{◌≡◌, ℕ, map, List};
ghost use Rattle.mg_bson.specs.Raw.{items};
ghost use Rattle.mg_server.specs.Filter as filter;
ghost use Rattle.mg_link.specs.Namespace.{space};
ghost use Rattle.mg_server.specs.Commands.{KeepsId};
ghost use Rattle.mg_server.specs.Rules.{create_collection, create_indexes, insert, drop_collection, update, delete};
ghost use Rattle.mg_server.specs.State.{State};
ghost use Rattle.mg_query.specs.Asking.{documents_among, held, keyed};
ghost use Rattle.mg_query.specs.Indexing.{index_held};
ghost use Rattle.mg_query.specs.Modifying.{lent_modification};
ghost use Rattle.mg_store.specs.Contents.{Represents, Settles};

use crate::change::dropped_entries;
use crate::content::{Content, Effect};
use crate::insert::{Appended, append_all};
use crate::perform::{Answer, answered};
use crate::rewrite::{changes_of, removals_of};
use mg_bson::{Array, RawArray};
use mg_link::Namespace;
use mg_query::{
    Condition, Index, Modification, Refusal, Stop, all_may_stay, chosen, reply, with_indexes,
};
use std::alloc::Global;

impl Content {
    pub(crate) fn answer_insert(
        &self,
        alloc: Global,
        ns: Namespace,
        documents: &RawArray<'_>,
        ordered: bool,
    ) -> Result<Answer, Stop>
        ensures { (s : State) (given : ℕ) → Represents self.now s given → Settles s given (insert (space ns) (documents_among (items documents.now)) ordered) result }
    {
        let entries = self.changes.len() as u64;
        let collection = self.collections.get(&ns);
        let mut appended = append_all(alloc, collection, entries, &ns, documents, ordered)?;
        let errors = std::mem::replace(&mut appended.errors, Array::new(alloc));
        let document = reply::inserted(alloc, appended.documents.len() as u64, errors)?;
        answered(alloc, document, Effect::Insert { ns, appended })
    }

    pub(crate) fn answer_create(&self, alloc: Global, ns: Namespace) -> Result<Answer, Stop>
        ensures { (s : State) (given : ℕ) → Represents self.now s given → Settles s given (create_collection (space ns)) result }
    {
        if self.collections.contains_key(&ns) {
            return Err(Stop::Refused(Refusal::CollectionExists));
        }
        let appended = Appended::new(alloc);
        let document = reply::done(alloc)?;
        answered(alloc, document, Effect::Insert { ns, appended })
    }

    pub(crate) fn answer_create_indexes(
        &self,
        alloc: Global,
        ns: Namespace,
        more: &Vec<Index>,
    ) -> Result<Answer, Stop>
        ensures { (s : State) (given : ℕ) → Represents self.now s given → Settles s given (create_indexes (space ns) (map index_held more.now.items)) result }
    {
        let indexes = with_indexes(alloc, self.collections.get(&ns), more.as_slice())?;
        if !all_may_stay(alloc, indexes.as_slice())? {
            return Err(Stop::Refused(Refusal::BadRequest));
        }
        let document = reply::done(alloc)?;
        answered(alloc, document, Effect::Indexes { ns, indexes })
    }

    pub(crate) fn answer_drop(&self, alloc: Global, ns: Namespace) -> Result<Answer, Stop>
        ensures { (s : State) (given : ℕ) → Represents self.now s given → Settles s given (drop_collection (space ns)) result }
    {
        if !self.collections.contains_key(&ns) {
            return Err(Stop::Refused(Refusal::NoSuchCollection));
        }
        let entries = dropped_entries(alloc, self.changes.len() as u64, &ns)?;
        let document = reply::done(alloc)?;
        answered(alloc, document, Effect::Drop { ns, entries })
    }

    pub(crate) fn answer_update(
        &self,
        alloc: Global,
        ns: Namespace,
        conditions: &Vec<Condition>,
        modification: &Modification<'_>,
        many: bool,
    ) -> Result<Answer, Stop>
        ensures { (s : State) (given : ℕ) (cs : List filter.Condition) → Represents self.now s given → map held conditions.now.items ≡ map keyed cs → KeepsId (lent_modification modification.now) → Settles s given (update (space ns) cs (lent_modification modification.now) many) result }
    {
        let entries = self.changes.len() as u64;
        let these = chosen(alloc, conditions, many, self.collections.get(&ns))?;
        let changes = changes_of(alloc, entries, &ns, modification, these.as_slice())?;
        let n = these.len() as u64;
        let changed = changes.documents.len() as u64;
        let document = reply::updated(alloc, n, changed)?;
        answered(alloc, document, Effect::Change { ns, changes })
    }

    pub(crate) fn answer_delete(
        &self,
        alloc: Global,
        ns: Namespace,
        conditions: &Vec<Condition>,
        many: bool,
    ) -> Result<Answer, Stop>
        ensures { (s : State) (given : ℕ) (cs : List filter.Condition) → Represents self.now s given → map held conditions.now.items ≡ map keyed cs → Settles s given (delete (space ns) cs many) result }
    {
        let entries = self.changes.len() as u64;
        let these = chosen(alloc, conditions, many, self.collections.get(&ns))?;
        let removals = removals_of(alloc, entries, &ns, these.as_slice())?;
        let n = these.len() as u64;
        let document = reply::deleted(alloc, n)?;
        answered(alloc, document, Effect::Remove { ns, removals })
    }
}
