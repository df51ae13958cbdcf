//! What finds and aggregates ask for.
ghost use Rattle.std.specs.Prelude.{◌≡◌, IfOk, option_map};
ghost use Rattle.mg_bson.specs.Raw.{fields};
ghost use Rattle.mg_server.specs.Rules.{find_request, aggregate_request, pipeline_request};
ghost use Rattle.mg_query.specs.Asking.{lent_space};
ghost use Rattle.mg_query.specs.Wanted.{lent_request, wanted, find_space, found_of, giving_of, lent_plan, plan_of, pipeline_plan, pipeline_space, piped_of};

use crate::reading::{LentSpace, array_at, batch_size, count_at, flag_or, has_only, space_at};
use crate::request::Request;
use crate::stages::{Stage, find_stages, pipeline_stages};
use crate::watch::watch_of;
use mg_bson::RawDocument;
use mg_link::OutOfMemory;
use std::alloc::Global;

/// What a query does with the documents of its source, and how it gives them.
pub struct Plan {
    /// What is done with the documents, one stage after another.
    pub stages: Vec<Stage>,
    /// Whether one batch is asked for.
    pub single: bool,
    /// The most documents of a batch, where the command says.
    pub batch_size: Option<u64>,
}

// By hand, so that letting one go is one call.
impl Drop for Plan {
    fn drop(self) {
        let Plan {
            stages: _,
            single: _,
            batch_size: _,
        } = self;
    }
}

/// The flag and the size of a find, which say how it gives what it finds.
fn giving_of(command: &RawDocument<'_>) -> Option<(bool, Option<u64>)>
    ensures { result ≡ giving_of (fields command.now) }
{
    let single = flag_or(false, command.get("singleBatch"))?;
    let batch_size = count_at(command, "batchSize")?;
    Some((single, batch_size))
}

/// What a find does.
#[tactic(auto, unfolding(crate::specs::Wanted::plan_of))]
fn plan_of(alloc: Global, command: &RawDocument<'_>) -> Result<Option<Plan>, OutOfMemory>
    ensures { IfOk result (λ p. option_map lent_plan p ≡ plan_of (fields command.now)) }
{
    let Some(stages) = find_stages(alloc, command)? else {
        return Ok(None);
    };
    match giving_of(command) {
        Some((single, batch_size)) => Ok(Some(Plan {
            stages,
            single,
            batch_size,
        })),
        None => Ok(None),
    }
}

/// The collection of a find whose fields are all known.
fn find_space<'a>(command: &RawDocument<'a>) -> Option<LentSpace<'a>>
    ensures { option_map lent_space result ≡ find_space (fields command.now) }
{
    if !has_only(
        command,
        &[
            "find",
            "filter",
            "sort",
            "skip",
            "limit",
            "singleBatch",
            "batchSize",
            "projection",
        ],
    ) {
        return None;
    }
    space_at(command, "find")
}

#[tactic(auto, unfolding(crate::specs::Wanted::found_of))]
fn find_parts<'a>(
    alloc: Global,
    command: &RawDocument<'a>,
) -> Result<Option<Request<'a>>, OutOfMemory>
    ensures { IfOk result (λ r. option_map lent_request r ≡ found_of (fields command.now)) }
{
    let Some(space) = find_space(command) else {
        return Ok(None);
    };
    match plan_of(alloc, command)? {
        Some(plan) => Ok(Some(Request::Find { space, plan })),
        None => Ok(None),
    }
}

pub(crate) fn find_of<'a>(
    alloc: Global,
    command: &RawDocument<'a>,
) -> Result<Option<Request<'a>>, OutOfMemory>
    ensures { IfOk result (λ r. option_map lent_request r ≡ option_map wanted (find_request (fields command.now))) }
{
    find_parts(alloc, command)
}

/// The collection of a pipeline whose fields are all known.
fn pipeline_space<'a>(command: &RawDocument<'a>) -> Option<LentSpace<'a>>
    ensures { option_map lent_space result ≡ pipeline_space (fields command.now) }
{
    if !has_only(command, &["aggregate", "pipeline", "cursor"]) {
        return None;
    }
    space_at(command, "aggregate")
}

/// What a pipeline does.
fn pipeline_plan(alloc: Global, command: &RawDocument<'_>) -> Result<Option<Plan>, OutOfMemory>
    ensures { IfOk result (λ p. option_map lent_plan p ≡ pipeline_plan (fields command.now)) }
{
    let Some(pipeline) = array_at(command, "pipeline") else {
        return Ok(None);
    };
    let Some(stages) = pipeline_stages(alloc, &pipeline)? else {
        return Ok(None);
    };
    match batch_size(command) {
        Some(batch_size) => Ok(Some(Plan {
            stages,
            single: false,
            batch_size,
        })),
        None => Ok(None),
    }
}

fn pipeline_parts<'a>(
    alloc: Global,
    command: &RawDocument<'a>,
) -> Result<Option<Request<'a>>, OutOfMemory>
    ensures { IfOk result (λ r. option_map lent_request r ≡ piped_of (fields command.now)) }
{
    let Some(space) = pipeline_space(command) else {
        return Ok(None);
    };
    match pipeline_plan(alloc, command)? {
        Some(plan) => Ok(Some(Request::Find { space, plan })),
        None => Ok(None),
    }
}

fn pipeline_of<'a>(
    alloc: Global,
    command: &RawDocument<'a>,
) -> Result<Option<Request<'a>>, OutOfMemory>
    ensures { IfOk result (λ r. option_map lent_request r ≡ option_map wanted (pipeline_request (fields command.now))) }
{
    pipeline_parts(alloc, command)
}

/// An aggregate opens a watch, or is a query.
pub(crate) fn aggregate_of<'a>(
    alloc: Global,
    command: &RawDocument<'a>,
) -> Result<Option<Request<'a>>, OutOfMemory>
    ensures { IfOk result (λ r. option_map lent_request r ≡ option_map wanted (aggregate_request (fields command.now))) }
{
    match watch_of(alloc, command)? {
        Some(request) => Ok(Some(request)),
        None => pipeline_of(alloc, command),
    }
}
