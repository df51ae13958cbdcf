//! What an aggregate asks for that opens a watch.
ghost use Rattle.std.specs.Prelude.{◌≡◌, IfOk, None, Some, map, option_map, if◌then◌else◌};
ghost use Rattle.mg_bson.specs.Raw.{fields, items, items_left};
ghost use Rattle.mg_bson.specs.RawView.{value};
ghost use Rattle.mg_server.specs.Commands.{as_time, start_of};
ghost use Rattle.mg_server.specs.Rules.{watch_request};
ghost use Rattle.mg_server.specs.State.{after, at_time};
ghost use Rattle.mg_query.specs.Asking.{held, keyed, lent_target};
ghost use Rattle.mg_query.specs.Wanted.{conditions_at, filter_behind, lent_request, lent_opening, lent_stages, lent_start, opening_of, opening_with, stages_at, stages_of, wanted, watch};

use crate::filter::{Condition, conditions_of};
use crate::reading::{
    LentTarget, array_at, batch_size, flag_or, has_only, is_end, only_document, target_at,
};
use crate::request::Request;
use mg_bson::{RawArray, RawDocument, RawItems, RawValue, Timestamp};
use mg_link::OutOfMemory;
use std::alloc::Global;

/// Where a watch begins, lent from its command.
pub enum LentStart<'a> {
    /// At the end of the changes.
    Nowhere,
    /// Behind the entry with this token.
    After(RawValue<'a>),
    /// At the first entry with this time or a later one.
    AtTime(Timestamp),
}

// By hand, so that letting one go is one call.
impl Drop for LentStart<'_> {
    fn drop(self) {
        match self {
            LentStart::Nowhere => {}
            LentStart::After(_) => {}
            LentStart::AtTime(_) => {}
        }
    }
}

/// The stages of a pipeline that opens a watch: the options of the first, and the filter of a second.
struct Stages<'a> {
    options: RawDocument<'a>,
    filter: Option<RawDocument<'a>>,
}

// By hand, so that letting one go is one call.
impl Drop for Stages<'_> {
    fn drop(self) {
        let Stages {
            options: _,
            filter: _,
        } = self;
    }
}

/// The filter of the stages that are left: none, or one `$match`.
fn filter_of<'a>(stages: &mut RawItems<'a>) -> Option<Option<RawDocument<'a>>>
    ensures { option_map (λ f. option_map fields f) result ≡ filter_behind (items_left stages.old) }
{
    let Some(stage) = stages.next() else {
        return Some(None);
    };
    if !is_end(stages) {
        return None;
    }
    let stage = stage.as_document()?;
    let filter = only_document(&stage, "$match")?;
    Some(Some(filter))
}

/// The stages of a pipeline, where they open a watch.
#[tactic(auto, unfolding(crate::specs::Wanted::stages_of))]
fn stages_of<'a>(pipeline: &RawArray<'a>) -> Option<Stages<'a>>
    ensures { option_map lent_stages result ≡ stages_of (items pipeline.now) }
{
    let mut stages = pipeline.iter();
    let first = stages.next()?;
    let first = first.as_document()?;
    let options = only_document(&first, "$changeStream")?;
    let filter = filter_of(&mut stages)?;
    Some(Stages { options, filter })
}

/// The stages of the pipeline of a command, where they open a watch.
fn stages_at<'a>(command: &RawDocument<'a>) -> Option<Stages<'a>>
    ensures { option_map lent_stages result ≡ stages_at (fields command.now) }
{
    let pipeline = array_at(command, "pipeline")?;
    stages_of(&pipeline)
}

/// A start at a time.
fn start_at<'a>(found: &RawValue<'a>) -> Option<LentStart<'a>>
    ensures { option_map lent_start result ≡ option_map at_time (as_time (value found.now)) }
{
    match found {
        RawValue::Timestamp(time) => Some(LentStart::AtTime(*time)),
        _ => None,
    }
}

/// The start behind a token, where no other is given.
fn start_after<'a>(token: RawValue<'a>, others: bool) -> Option<LentStart<'a>>
    ensures { option_map lent_start result ≡ (if others then None else Some (after (value token.entry))) }
{
    if others {
        None
    } else {
        Some(LentStart::After(token))
    }
}

/// The start that the options name; more than one is none.
fn start_of<'a>(options: &RawDocument<'a>) -> Option<LentStart<'a>>
    ensures { option_map lent_start result ≡ start_of (fields options.now) }
{
    let start = options.get("startAfter");
    let time = options.get("startAtOperationTime");
    if let Some(token) = options.get("resumeAfter") {
        return start_after(token, start.is_some() || time.is_some());
    }
    if let Some(token) = start {
        return start_after(token, time.is_some());
    }
    match time {
        Some(found) => start_at(&found),
        None => Some(LentStart::Nowhere),
    }
}

/// What an aggregate asks for but its conditions.
struct Opening<'a> {
    target: LentTarget<'a>,
    stages: Stages<'a>,
    start: LentStart<'a>,
    resumes: bool,
    batch_size: Option<u64>,
}

// By hand, so that letting one go is one call.
impl Drop for Opening<'_> {
    fn drop(self) {
        let Opening {
            target: _,
            stages: _,
            start: _,
            resumes: _,
            batch_size: _,
        } = self;
    }
}

impl<'a> Opening<'a> {
    /// The request of the opening whose filter has these conditions.
    fn watch_with(self, filter: Vec<Condition>) -> Request<'a>
        ensures { lent_request result ≡ watch (lent_target self.entry.target) (map held filter.items) (lent_start self.entry.start) self.entry.resumes self.entry.batch_size }
    {
        let Opening {
            target,
            stages: _,
            start,
            resumes,
            batch_size,
        } = self;
        Request::Watch {
            target,
            filter,
            start,
            resumes,
            batch_size,
        }
    }
}

/// What a command with these stages opens.
fn opening_with<'a>(command: &RawDocument<'a>, stages: Stages<'a>) -> Option<Opening<'a>>
    ensures { option_map lent_opening result ≡ opening_with (fields command.now) (lent_stages stages.entry) }
{
    if !has_only(
        &stages.options,
        &[
            "resumeAfter",
            "startAfter",
            "startAtOperationTime",
            "allChangesForCluster",
        ],
    ) {
        return None;
    }
    let all = flag_or(false, stages.options.get("allChangesForCluster"))?;
    let target = target_at(command, all)?;
    let start = start_of(&stages.options)?;
    let resumes = stages.options.get("resumeAfter").is_some();
    let batch_size = batch_size(command)?;
    Some(Opening {
        target,
        stages,
        start,
        resumes,
        batch_size,
    })
}

#[tactic(auto, unfolding(crate::specs::Wanted::opening_of))]
fn opening_of<'a>(command: &RawDocument<'a>) -> Option<Opening<'a>>
    ensures { option_map lent_opening result ≡ opening_of (fields command.now) }
{
    if !has_only(command, &["aggregate", "pipeline", "cursor"]) {
        return None;
    }
    let stages = stages_at(command)?;
    opening_with(command, stages)
}

/// The conditions of the stages: those of their filter, and none where there is no filter.
fn conditions_in(alloc: Global, stages: &Stages<'_>) -> Result<Option<Vec<Condition>>, OutOfMemory>
    ensures { IfOk result (λ cs. option_map (λ v. map held v.items) cs ≡ option_map (map keyed) (conditions_at (option_map fields stages.now.filter))) }
{
    match &stages.filter {
        Some(filter) => conditions_of(alloc, filter),
        None => Ok(Some(Vec::new(alloc))),
    }
}

pub(crate) fn watch_of<'a>(
    alloc: Global,
    command: &RawDocument<'a>,
) -> Result<Option<Request<'a>>, OutOfMemory>
    ensures { IfOk result (λ r. option_map lent_request r ≡ option_map wanted (watch_request (fields command.now))) }
{
    let Some(opening) = opening_of(command) else {
        return Ok(None);
    };
    match conditions_in(alloc, &opening.stages)? {
        Some(filter) => Ok(Some(opening.watch_with(filter))),
        None => Ok(None),
    }
}
