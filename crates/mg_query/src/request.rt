//! What a command asks of the store.
ghost use Rattle.std.specs.Prelude.{◌≡◌, option_map};
ghost use Rattle.mg_bson.specs.Raw.{fields};
ghost use Rattle.mg_server.specs.Rules.{kill_request, more_request, request_of, some_size};
ghost use Rattle.mg_query.specs.Wanted.{Asks, OrBadRequest, lent_request, wanted};

use crate::catalog::{create_indexes_of, create_of, drop_of, list_collections_of, list_indexes_of};
use crate::filter::Condition;
use crate::query::{Plan, aggregate_of, find_of};
use crate::reading::{
    LentSpace, LentTarget, array_at, count_at, has_only, id_at, ids_of, space_at,
};
use crate::refusal::{Refusal, Stop};
use crate::watch::LentStart;
use crate::write::{Write, delete_of, insert_of, update_of};
use mg_bson::{RawArray, RawDocument};
use std::alloc::Global;

/// A command, taken apart.
#[derive(Drop)]
pub enum Request<'a> {
    /// A query.
    Find {
        /// The collection.
        space: LentSpace<'a>,
        /// What is done with its documents.
        plan: Plan,
    },
    /// A watch is opened.
    Watch {
        /// What it is aimed at.
        target: LentTarget<'a>,
        /// The conditions that the events meet which it sees.
        filter: Vec<Condition>,
        /// Where it begins.
        start: LentStart<'a>,
        /// Whether it goes on with one that was there before, which is not to have ended.
        resumes: bool,
        /// The most events of a batch, where the command says.
        batch_size: Option<u64>,
    },
    /// The next batch of a cursor.
    GetMore {
        /// The id of the cursor.
        id: i64,
        /// The namespace that it is to have.
        space: LentSpace<'a>,
        /// The most documents of a batch, where the command says.
        batch_size: Option<u64>,
    },
    /// Cursors are closed.
    KillCursors {
        /// Their ids.
        ids: RawArray<'a>,
    },
    /// The collections of a database.
    ListCollections {
        /// The database.
        db: &'a str,
        /// What is done with what the list says of each.
        plan: Plan,
    },
    /// The indexes of a collection.
    ListIndexes {
        /// The collection.
        space: LentSpace<'a>,
        /// The most indexes of a batch, where the command says.
        batch_size: Option<u64>,
    },
    /// What is stored changes.
    Write(Write<'a>),
}

/// A size of 0 counts as none given.
fn some_size(size: Option<u64>) -> Option<u64>
    ensures { result ≡ some_size size }
{
    match size {
        Some(0) => None,
        _ => size,
    }
}

#[tactic(auto, unfolding(mg_server::specs::Rules::more_request))]
fn get_more_of<'a>(command: &RawDocument<'a>) -> Option<Request<'a>>
    ensures { option_map lent_request result ≡ option_map wanted (more_request (fields command.now)) }
{
    if !has_only(command, &["getMore", "collection", "batchSize"]) {
        return None;
    }
    let id = id_at(command, "getMore")?;
    let space = space_at(command, "collection")?;
    let size = count_at(command, "batchSize")?;
    Some(Request::GetMore {
        id,
        space,
        batch_size: some_size(size),
    })
}

#[tactic(auto, unfolding(mg_server::specs::Rules::kill_request))]
fn kill_cursors_of<'a>(command: &RawDocument<'a>) -> Option<Request<'a>>
    ensures { option_map lent_request result ≡ option_map wanted (kill_request (fields command.now)) }
{
    if !has_only(command, &["killCursors", "cursors"]) {
        return None;
    }
    let _space = space_at(command, "killCursors")?;
    let ids = ids_of(array_at(command, "cursors")?)?;
    Some(Request::KillCursors { ids })
}

fn or_bad_request<'a>(request: Option<Request<'a>>) -> Result<Request<'a>, Stop>
    ensures { OrBadRequest result request.entry }
{
    match request {
        Some(request) => Ok(request),
        None => Err(Stop::Refused(Refusal::BadRequest)),
    }
}

/// What the command asks for. Its first field names it.
pub fn request_of<'a>(alloc: Global, command: &RawDocument<'a>) -> Result<Request<'a>, Stop>
    ensures { Asks result (request_of (fields command.now)) }
{
    let name = match command.iter().next() {
        Some((name, _)) => name,
        None => return Err(Stop::Refused(Refusal::UnknownCommand)),
    };
    if name == "insert" {
        or_bad_request(insert_of(command))
    } else if name == "aggregate" {
        or_bad_request(aggregate_of(alloc, command)?)
    } else if name == "getMore" {
        or_bad_request(get_more_of(command))
    } else if name == "killCursors" {
        or_bad_request(kill_cursors_of(command))
    } else if name == "find" {
        or_bad_request(find_of(alloc, command)?)
    } else if name == "create" {
        or_bad_request(create_of(command))
    } else if name == "createIndexes" {
        or_bad_request(create_indexes_of(alloc, command)?)
    } else if name == "drop" {
        or_bad_request(drop_of(command))
    } else if name == "listCollections" {
        or_bad_request(list_collections_of(alloc, command)?)
    } else if name == "listIndexes" {
        or_bad_request(list_indexes_of(command))
    } else if name == "update" {
        or_bad_request(update_of(alloc, command)?)
    } else if name == "delete" {
        or_bad_request(delete_of(alloc, command)?)
    } else {
        Err(Stop::Refused(Refusal::UnknownCommand))
    }
}
