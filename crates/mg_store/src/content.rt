//! What the store holds, and what commands do to it.
ghost use Rattle.mg_store.specs.declared.content.Effect.TheVariants.{Drop, Insert, Indexes, Change, Remove};
ghost use Rattle.std.specs.Prelude.{◌≡◌, ℕ, ℤ, None, [], OnOk, OnErr, if◌then◌else◌};
ghost use Rattle.std.specs.BTreeMap.{get, keys};
ghost use Rattle.std.specs.Ordering.{int_cmp};
ghost use Rattle.mg_server.specs.Rules.{is_id_among};
ghost use Rattle.mg_server.specs.State.{State, nothing};
ghost use Rattle.mg_store.specs.Contents.{Leads, Represents};

use crate::change::ChangeEntry;
use crate::cursor::Cursor;
use crate::insert::{Appended, append_reserved};
use crate::rewrite::{Changes, Removals};
use mg_link::{Namespace, OutOfMemory};
use mg_query::{Collection, Index};
use std::alloc::Global;
use std::collections::BTreeMap;

/// What the store holds, but for its history.
pub(crate) struct Content {
    pub(crate) collections: BTreeMap<Namespace, Collection>,
    pub(crate) changes: Vec<ChangeEntry>,
    pub(crate) cursors: BTreeMap<i64, Cursor>,
    /// How many ids were ever given to cursors.
    pub(crate) given: i64,
}

// By hand, so that letting one go is one call.
impl Drop for Content {
    fn drop(self) {
        let Content {
            collections: _,
            changes: _,
            cursors: _,
            given: _,
        } = self;
    }
}

/// What a command does besides its reply.
pub(crate) enum Effect {
    Nothing,
    Insert {
        ns: Namespace,
        appended: Appended,
    },
    Open {
        id: i64,
        cursor: Cursor,
    },
    Move {
        id: i64,
        place: u64,
    },
    /// So many of the documents of a query are given.
    Take {
        id: i64,
        count: u64,
    },
    Kill {
        ids: Vec<i64>,
    },
    Close {
        id: i64,
    },
    Indexes {
        ns: Namespace,
        indexes: Vec<Index>,
    },
    Change {
        ns: Namespace,
        changes: Changes,
    },
    Remove {
        ns: Namespace,
        removals: Removals,
    },
    Drop {
        ns: Namespace,
        entries: Vec<ChangeEntry>,
    },
}

// By hand, so that letting one go is one call.
impl Drop for Effect {
    fn drop(self) {
        match self {
            Effect::Nothing => {}
            Effect::Insert { ns: _, appended: _ } => {}
            Effect::Open { id: _, cursor: _ } => {}
            Effect::Move { id: _, place: _ } => {}
            Effect::Take { id: _, count: _ } => {}
            Effect::Kill { ids: _ } => {}
            Effect::Close { id: _ } => {}
            Effect::Indexes { ns: _, indexes: _ } => {}
            Effect::Drop { ns: _, entries: _ } => {}
            Effect::Change { ns: _, changes: _ } => {}
            Effect::Remove { ns: _, removals: _ } => {}
        }
    }
}

/// Removes the cursors with these ids.
fn remove_cursors(cursors: &mut BTreeMap<i64, Cursor>, ids: &Vec<i64>)
    ensures { (other : ℤ) → get int_cmp cursors.new other ≡ (if is_id_among other ids.now.items then None else get int_cmp cursors.old other) }
{
    for id in ids {
        let _cursor = cursors.remove(id);
    }
}

impl Content {
    pub(crate) fn new(alloc: Global) -> Content
        ensures none { keys result.cursors ≡ [] }
        ensures empty { Represents result nothing 0 }
    {
        Content {
            collections: BTreeMap::new(alloc),
            changes: Vec::new(alloc),
            cursors: BTreeMap::new(alloc),
            given: 0,
        }
    }

    /// Appends the documents of an insert and their entries.
    fn append(&mut self, ns: Namespace, appended: Appended) -> Result<(), OutOfMemory>
        ensures ok { OnOk result ((s : State) (given : ℕ) (s' : State) (given' : ℕ) → Represents self.old s given → Leads (Insert ns appended) s given s' given' → Represents self.new s' given') }
        ensures err { OnErr result ((s : State) (given : ℕ) (s' : State) (given' : ℕ) → Represents self.old s given → Leads (Insert ns appended) s given s' given' → Represents self.new s given) }
        ensures cursors { self.new.cursors ≡ self.old.cursors }
    {
        let (documents, mut entries) = appended.into_parts();
        self.changes.reserve(entries.len())?;
        match self.collections.get_mut(&ns) {
            Some(collection) => collection.append(documents)?,
            None => {
                let mut collection = Collection::new(*documents.allocator());
                collection.append(documents)?;
                self.collections.insert(ns, collection)?;
            }
        }
        append_reserved(&mut self.changes, &mut entries);
        Ok(())
    }

    /// Gives these indexes to a collection, which is made where it is not there.
    fn index(&mut self, ns: Namespace, indexes: Vec<Index>) -> Result<(), OutOfMemory>
        ensures ok { OnOk result ((s : State) (given : ℕ) (s' : State) (given' : ℕ) → Represents self.old s given → Leads (Indexes ns indexes) s given s' given' → Represents self.new s' given') }
        ensures err { OnErr result ((s : State) (given : ℕ) (s' : State) (given' : ℕ) → Represents self.old s given → Leads (Indexes ns indexes) s given s' given' → Represents self.new s given) }
        ensures cursors { self.new.cursors ≡ self.old.cursors }
    {
        match self.collections.get_mut(&ns) {
            Some(collection) => collection.put_indexes(indexes),
            None => {
                let mut collection = Collection::new(*indexes.allocator());
                collection.put_indexes(indexes);
                self.collections.insert(ns, collection)?;
            }
        }
        Ok(())
    }

    /// Takes a collection out, and logs that with these entries.
    fn take_out(&mut self, ns: Namespace, mut entries: Vec<ChangeEntry>) -> Result<(), OutOfMemory>
        ensures ok { OnOk result ((s : State) (given : ℕ) (s' : State) (given' : ℕ) → Represents self.old s given → Leads (Drop ns entries) s given s' given' → Represents self.new s' given') }
        ensures err { OnErr result ((s : State) (given : ℕ) (s' : State) (given' : ℕ) → Represents self.old s given → Leads (Drop ns entries) s given s' given' → Represents self.new s given) }
        ensures cursors { self.new.cursors ≡ self.old.cursors }
    {
        self.changes.reserve(entries.len())?;
        let _dropped = self.collections.remove(&ns);
        append_reserved(&mut self.changes, &mut entries);
        Ok(())
    }

    /// Changes the documents of an update, and appends their entries.
    fn change(&mut self, ns: Namespace, changes: Changes) -> Result<(), OutOfMemory>
        ensures ok { OnOk result ((s : State) (given : ℕ) (s' : State) (given' : ℕ) → Represents self.old s given → Leads (Change ns changes) s given s' given' → Represents self.new s' given') }
        ensures err { OnErr result ((s : State) (given : ℕ) → Represents self.old s given → Represents self.new s given) }
        ensures cursors { self.new.cursors ≡ self.old.cursors }
    {
        let (documents, mut entries) = changes.into_parts();
        self.changes.reserve(entries.len())?;
        match self.collections.get_mut(&ns) {
            Some(collection) => collection.change_all(documents),
            None => {}
        }
        append_reserved(&mut self.changes, &mut entries);
        Ok(())
    }

    /// Removes the documents of a delete, and appends its entries.
    fn remove(&mut self, ns: Namespace, removals: Removals) -> Result<(), OutOfMemory>
        ensures ok { OnOk result ((s : State) (given : ℕ) (s' : State) (given' : ℕ) → Represents self.old s given → Leads (Remove ns removals) s given s' given' → Represents self.new s' given') }
        ensures err { OnErr result ((s : State) (given : ℕ) → Represents self.old s given → Represents self.new s given) }
        ensures cursors { self.new.cursors ≡ self.old.cursors }
    {
        let (ids, mut entries) = removals.into_parts();
        self.changes.reserve(entries.len())?;
        match self.collections.get_mut(&ns) {
            Some(collection) => collection.remove_all(&ids),
            None => {}
        }
        append_reserved(&mut self.changes, &mut entries);
        Ok(())
    }
}

impl Effect {
    /// Does what a command does. An error changes nothing.
    pub(crate) fn commit(self, content: &mut Content) -> Result<(), OutOfMemory>
        ensures ok { OnOk result ((s : State) (given : ℕ) (s' : State) (given' : ℕ) → Represents content.old s given → Leads self s given s' given' → Represents content.new s' given') }
        ensures err { OnErr result ((s : State) (given : ℕ) (s' : State) (given' : ℕ) → Represents content.old s given → Leads self s given s' given' → Represents content.new s given) }
        ensures same { OnErr result (keys content.new.cursors ≡ keys content.old.cursors) }
    {
        match self {
            Effect::Nothing => Ok(()),
            Effect::Insert { ns, appended } => content.append(ns, appended),
            Effect::Open { id, cursor } => {
                content.cursors.insert(id, cursor)?;
                content.given = id;
                Ok(())
            }
            Effect::Move { id, place } => {
                if let Some(cursor) = content.cursors.get_mut(&id) {
                    cursor.place = place;
                }
                Ok(())
            }
            Effect::Take { id, count } => {
                if let Some(cursor) = content.cursors.get_mut(&id) {
                    cursor.place = cursor.place.saturating_add(count);
                }
                Ok(())
            }
            Effect::Kill { ids } => {
                remove_cursors(&mut content.cursors, &ids);
                Ok(())
            }
            Effect::Indexes { ns, indexes } => content.index(ns, indexes),
            Effect::Drop { ns, entries } => content.take_out(ns, entries),
            Effect::Close { id } => {
                let _cursor = content.cursors.remove(&id);
                Ok(())
            }
            Effect::Change { ns, changes } => content.change(ns, changes),
            Effect::Remove { ns, removals } => content.remove(ns, removals),
        }
    }
}
