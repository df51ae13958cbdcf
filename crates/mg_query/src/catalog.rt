//! What commands on collections and their indexes ask for.
ghost use Rattle.std.specs.Prelude.{◌≡◌, IfOk, option_map};
ghost use Rattle.mg_bson.specs.Raw.{fields};
ghost use Rattle.mg_server.specs.Commands.{optional_size};
ghost use Rattle.mg_server.specs.Rules.{create_request, indexes_request, drop_request, list_collections_request, list_indexes_request};
ghost use Rattle.mg_query.specs.Wanted.{lent_request, wanted, indexing_of, lent_indexing, lent_plan, collections_list_of, indexes_list_of, listed_database, listing_plan};

use crate::index::indexes_in;
use crate::query::Plan;
use crate::reading::{LentSpace, array_at, batch_size, database_at, has_only, space_at};
use crate::request::Request;
use crate::stages::listing_stages;
use crate::write::Write;
use mg_bson::{RawArray, RawDocument};
use mg_link::OutOfMemory;
use std::alloc::Global;

#[tactic(auto, unfolding(mg_server::specs::Rules::create_request))]
pub(crate) fn create_of<'a>(command: &RawDocument<'a>) -> Option<Request<'a>>
    ensures { option_map lent_request result ≡ option_map wanted (create_request (fields command.now)) }
{
    if !has_only(command, &["create"]) {
        return None;
    }
    let space = space_at(command, "create")?;
    Some(Request::Write(Write::Create { space }))
}

/// The collection that gets indexes, and what describes them.
#[derive(Drop)]
struct Indexing<'a> {
    space: LentSpace<'a>,
    indexes: RawArray<'a>,
}

#[tactic(auto, unfolding(crate::specs::Wanted::indexing_of))]
fn indexing_of<'a>(command: &RawDocument<'a>) -> Option<Indexing<'a>>
    ensures { option_map lent_indexing result ≡ indexing_of (fields command.now) }
{
    if !has_only(command, &["createIndexes", "indexes"]) {
        return None;
    }
    let space = space_at(command, "createIndexes")?;
    let indexes = array_at(command, "indexes")?;
    Some(Indexing { space, indexes })
}

pub(crate) fn create_indexes_of<'a>(
    alloc: Global,
    command: &RawDocument<'a>,
) -> Result<Option<Request<'a>>, OutOfMemory>
    ensures { IfOk result (λ r. option_map lent_request r ≡ option_map wanted (indexes_request (fields command.now))) }
{
    let Some(indexing) = indexing_of(command) else {
        return Ok(None);
    };
    match indexes_in(alloc, &indexing.indexes)? {
        Some(indexes) => Ok(Some(Request::Write(Write::CreateIndexes {
            space: indexing.space,
            indexes,
        }))),
        None => Ok(None),
    }
}

#[tactic(auto, unfolding(mg_server::specs::Rules::drop_request))]
pub(crate) fn drop_of<'a>(command: &RawDocument<'a>) -> Option<Request<'a>>
    ensures { option_map lent_request result ≡ option_map wanted (drop_request (fields command.now)) }
{
    if !has_only(command, &["drop"]) {
        return None;
    }
    let space = space_at(command, "drop")?;
    Some(Request::Write(Write::Drop { space }))
}

/// The batch size that the field `cursor` asks for, where it is there.
fn optional_size(command: &RawDocument<'_>) -> Option<Option<u64>>
    ensures { result ≡ optional_size (fields command.now) }
{
    match command.get("cursor") {
        Some(_) => batch_size(command),
        None => Some(None),
    }
}

/// The database of a list of collections whose fields are all known.
fn listed_database<'a>(command: &RawDocument<'a>) -> Option<&'a str>
    ensures { option_map (λ d. d.now) result ≡ listed_database (fields command.now) }
{
    if !has_only(command, &["listCollections", "filter", "cursor"]) {
        return None;
    }
    database_at(command)
}

/// What a list of collections does.
fn listing_plan(alloc: Global, command: &RawDocument<'_>) -> Result<Option<Plan>, OutOfMemory>
    ensures { IfOk result (λ p. option_map lent_plan p ≡ listing_plan (fields command.now)) }
{
    let Some(stages) = listing_stages(alloc, command)? else {
        return Ok(None);
    };
    match optional_size(command) {
        Some(batch_size) => Ok(Some(Plan {
            stages,
            single: false,
            batch_size,
        })),
        None => Ok(None),
    }
}

fn list_collections_parts<'a>(
    alloc: Global,
    command: &RawDocument<'a>,
) -> Result<Option<Request<'a>>, OutOfMemory>
    ensures { IfOk result (λ r. option_map lent_request r ≡ collections_list_of (fields command.now)) }
{
    let Some(db) = listed_database(command) else {
        return Ok(None);
    };
    match listing_plan(alloc, command)? {
        Some(plan) => Ok(Some(Request::ListCollections { db, plan })),
        None => Ok(None),
    }
}

pub(crate) fn list_collections_of<'a>(
    alloc: Global,
    command: &RawDocument<'a>,
) -> Result<Option<Request<'a>>, OutOfMemory>
    ensures { IfOk result (λ r. option_map lent_request r ≡ option_map wanted (list_collections_request (fields command.now))) }
{
    list_collections_parts(alloc, command)
}

#[tactic(auto, unfolding(crate::specs::Wanted::indexes_list_of))]
fn list_indexes_parts<'a>(command: &RawDocument<'a>) -> Option<Request<'a>>
    ensures { option_map lent_request result ≡ indexes_list_of (fields command.now) }
{
    if !has_only(command, &["listIndexes", "cursor"]) {
        return None;
    }
    let space = space_at(command, "listIndexes")?;
    let batch_size = optional_size(command)?;
    Some(Request::ListIndexes { space, batch_size })
}

pub(crate) fn list_indexes_of<'a>(command: &RawDocument<'a>) -> Option<Request<'a>>
    ensures { option_map lent_request result ≡ option_map wanted (list_indexes_request (fields command.now)) }
{
    list_indexes_parts(command)
}
