//! Commands that change what is stored; what inserts, updates and deletes ask for.
ghost use Rattle.std.specs.Prelude.{◌≡◌, IfOk, map, option_map};
ghost use Rattle.mg_bson.specs.Raw.{fields};
ghost use Rattle.mg_server.specs.Rules.{insert_request, update_request, delete_request};
ghost use Rattle.mg_query.specs.Asking.{held, lent_space};
ghost use Rattle.mg_query.specs.Wanted.{lent_request, wanted, update, updating_by, updating_of, lent_updating, deleting_by, deleting_of, lent_deleting};
ghost use Rattle.mg_query.specs.Modifying.{lent_modification};

use crate::filter::{Condition, conditions_of};
use crate::index::Index;
use crate::modification::{Modification, modification_of};
use crate::reading::{
    LentSpace, array_at, document_at, documents_of, flag_or, has_only, many_of, one_at, space_at,
};
use crate::request::Request;
use mg_bson::{RawArray, RawDocument};
use mg_link::OutOfMemory;
use std::alloc::Global;

/// A command that changes what is stored.
#[derive(Drop)]
pub enum Write<'a> {
    /// Documents are appended to a collection.
    Insert {
        /// The collection.
        space: LentSpace<'a>,
        /// The documents.
        documents: RawArray<'a>,
        /// Whether the first that is refused ends it.
        ordered: bool,
    },
    /// A collection is made.
    Create {
        /// The collection.
        space: LentSpace<'a>,
    },
    /// A collection gets indexes.
    CreateIndexes {
        /// The collection.
        space: LentSpace<'a>,
        /// The indexes that it is to have besides its own.
        indexes: Vec<Index>,
    },
    /// A collection is taken away.
    Drop {
        /// The collection.
        space: LentSpace<'a>,
    },
    /// Documents of a collection are changed.
    Update {
        /// The collection.
        space: LentSpace<'a>,
        /// The conditions that they meet.
        filter: Vec<Condition>,
        /// What is made of each.
        modification: Modification<'a>,
        /// Whether all are changed, or the first.
        many: bool,
    },
    /// Documents of a collection are removed.
    Delete {
        /// The collection.
        space: LentSpace<'a>,
        /// The conditions that they meet.
        filter: Vec<Condition>,
        /// Whether all are removed, or the first.
        many: bool,
    },
}

#[tactic(auto, unfolding(mg_server::specs::Rules::insert_request))]
pub(crate) fn insert_of<'a>(command: &RawDocument<'a>) -> Option<Request<'a>>
    ensures { option_map lent_request result ≡ option_map wanted (insert_request (fields command.now)) }
{
    if !has_only(command, &["insert", "documents", "ordered"]) {
        return None;
    }
    let space = space_at(command, "insert")?;
    let documents = documents_of(array_at(command, "documents")?)?;
    let ordered = flag_or(true, command.get("ordered"))?;
    Some(Request::Write(Write::Insert {
        space,
        documents,
        ordered,
    }))
}

/// What an update asks for but its conditions.
struct Updating<'a> {
    space: LentSpace<'a>,
    filter: RawDocument<'a>,
    modification: Modification<'a>,
    many: bool,
}

// By hand, so that letting one go is one call.
impl Drop for Updating<'_> {
    fn drop(self) {
        let Updating {
            space: _,
            filter: _,
            modification: _,
            many: _,
        } = self;
    }
}

impl<'a> Updating<'a> {
    /// The request of the update whose filter has these conditions.
    fn update_with(self, filter: Vec<Condition>) -> Request<'a>
        ensures { lent_request result ≡ update (lent_space self.entry.space) (map held filter.items) (lent_modification self.entry.modification) self.entry.many }
    {
        let Updating {
            space,
            filter: _,
            modification,
            many,
        } = self;
        Request::Write(Write::Update {
            space,
            filter,
            modification,
            many,
        })
    }
}

/// The update of a collection that a document describes.
#[tactic(auto, unfolding(crate::specs::Wanted::updating_by))]
fn updating_by<'a>(space: LentSpace<'a>, update: &RawDocument<'a>) -> Option<Updating<'a>>
    ensures { option_map lent_updating result ≡ updating_by (lent_space space.entry) (fields update.now) }
{
    if !has_only(update, &["q", "u", "multi"]) {
        return None;
    }
    let filter = document_at(update, "q")?;
    let modification = modification_of(document_at(update, "u")?)?;
    let many = flag_or(false, update.get("multi"))?;
    Some(Updating {
        space,
        filter,
        modification,
        many,
    })
}

#[tactic(auto, unfolding(crate::specs::Wanted::updating_of))]
fn updating_of<'a>(command: &RawDocument<'a>) -> Option<Updating<'a>>
    ensures { option_map lent_updating result ≡ updating_of (fields command.now) }
{
    if !has_only(command, &["update", "updates", "ordered"]) {
        return None;
    }
    let space = space_at(command, "update")?;
    let update = one_at(command, "updates")?;
    updating_by(space, &update)
}

pub(crate) fn update_of<'a>(
    alloc: Global,
    command: &RawDocument<'a>,
) -> Result<Option<Request<'a>>, OutOfMemory>
    ensures { IfOk result (λ r. option_map lent_request r ≡ option_map wanted (update_request (fields command.now))) }
{
    let Some(updating) = updating_of(command) else {
        return Ok(None);
    };
    match conditions_of(alloc, &updating.filter)? {
        Some(filter) => Ok(Some(updating.update_with(filter))),
        None => Ok(None),
    }
}

/// What a delete asks for but its conditions.
#[derive(Drop)]
struct Deleting<'a> {
    space: LentSpace<'a>,
    filter: RawDocument<'a>,
    many: bool,
}

/// The delete from a collection that a document describes.
#[tactic(auto, unfolding(crate::specs::Wanted::deleting_by))]
fn deleting_by<'a>(space: LentSpace<'a>, delete: &RawDocument<'a>) -> Option<Deleting<'a>>
    ensures { option_map lent_deleting result ≡ deleting_by (lent_space space.entry) (fields delete.now) }
{
    if !has_only(delete, &["q", "limit"]) {
        return None;
    }
    let filter = document_at(delete, "q")?;
    let many = many_of(delete.get("limit"))?;
    Some(Deleting {
        space,
        filter,
        many,
    })
}

#[tactic(auto, unfolding(crate::specs::Wanted::deleting_of))]
fn deleting_of<'a>(command: &RawDocument<'a>) -> Option<Deleting<'a>>
    ensures { option_map lent_deleting result ≡ deleting_of (fields command.now) }
{
    if !has_only(command, &["delete", "deletes", "ordered"]) {
        return None;
    }
    let space = space_at(command, "delete")?;
    let delete = one_at(command, "deletes")?;
    deleting_by(space, &delete)
}

pub(crate) fn delete_of<'a>(
    alloc: Global,
    command: &RawDocument<'a>,
) -> Result<Option<Request<'a>>, OutOfMemory>
    ensures { IfOk result (λ r. option_map lent_request r ≡ option_map wanted (delete_request (fields command.now))) }
{
    let Some(deleting) = deleting_of(command) else {
        return Ok(None);
    };
    match conditions_of(alloc, &deleting.filter)? {
        Some(filter) => Ok(Some(Request::Write(Write::Delete {
            space: deleting.space,
            filter,
            many: deleting.many,
        }))),
        None => Ok(None),
    }
}
