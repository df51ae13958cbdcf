//! What a query does with the documents of its source, as a command asks for it.
ghost use Rattle.std.specs.Prelude.{◌≡◌, IfOk, codes, map, option_and_then, option_map};
ghost use Rattle.mg_bson.specs.Find.{as_document, get};
ghost use Rattle.mg_bson.specs.Raw.{fields, items};
ghost use Rattle.mg_bson.specs.RawView.{value};
ghost use Rattle.mg_server.specs.Commands.{find_stages, keys_of, limiting, projection_of, rising_by, selecting, showing, showing_by, skipping, sorting, stage_by, stage_of, stages_by};
ghost use Rattle.mg_query.specs.Querying.{doing, held_key, held_stages, joined_stages, one_key, one_stage, pipeline_doing};

use crate::filter::{Condition, conditions_of, is_top_name};
use crate::reading::{count_of, integer_of, is_single};
use mg_bson::{RawArray, RawDocument, RawValue};
use mg_link::OutOfMemory;
use std::alloc::Global;

/// A name to sort by, from the lowest value or from the highest.
pub struct Key {
    pub(crate) name: String,
    pub(crate) rising: bool,
}

// By hand, so that letting one go is one call.
impl Drop for Key {
    fn drop(self) {
        let Key { name: _, rising: _ } = self;
    }
}

/// One step from documents to documents.
pub enum Stage {
    /// Those that meet each condition.
    Select(Vec<Condition>),
    /// All of them, in the order of these names.
    Sort(Vec<Key>),
    /// Those behind the first so many.
    Skip(u64),
    /// The first so many.
    Limit(u64),
    /// The `_id` of each.
    ShowId,
    /// Each without its `_id`.
    HideId,
}

// By hand, so that letting one go is one call.
impl Drop for Stage {
    fn drop(self) {
        match self {
            Stage::Select(_) => {}
            Stage::Sort(_) => {}
            Stage::Skip(_) => {}
            Stage::Limit(_) => {}
            Stage::ShowId => {}
            Stage::HideId => {}
        }
    }
}

/// What a value of a command makes of the documents.
#[derive(Drop)]
pub(crate) enum Read {
    /// It has no meaning.
    Bad,
    /// It leaves them.
    Nothing,
    Stage(Stage),
}

/// The filter, as a stage.
fn selecting(alloc: Global, found: &RawValue<'_>) -> Result<Read, OutOfMemory>
    ensures { IfOk result (λ r. one_stage r ≡ option_map (map doing) (selecting (value found.now))) }
{
    let Some(filter) = found.as_document() else {
        return Ok(Read::Bad);
    };
    match conditions_of(alloc, &filter)? {
        Some(conditions) => Ok(Read::Stage(Stage::Select(conditions))),
        None => Ok(Read::Bad),
    }
}

/// Upwards by 1, downwards by -1.
fn rising_by(n: i64) -> Option<bool>
    ensures { result ≡ rising_by n }
{
    if n == 1 {
        Some(true)
    } else if n == -1 {
        Some(false)
    } else {
        None
    }
}

fn key_of(alloc: Global, name: &str, found: &RawValue<'_>) -> Result<Option<Key>, OutOfMemory>
    ensures { IfOk result (λ k. option_map held_key k ≡ one_key name.now (value found.now)) }
{
    if !is_top_name(name) {
        return Ok(None);
    }
    let Some(n) = integer_of(found) else {
        return Ok(None);
    };
    let Some(rising) = rising_by(n) else {
        return Ok(None);
    };
    let name = String::from_str(alloc, name)?;
    Ok(Some(Key { name, rising }))
}

/// The names to sort by, where each has a direction.
fn keys_of(alloc: Global, names: &RawDocument<'_>) -> Result<Option<Vec<Key>>, OutOfMemory>
    ensures { IfOk result (λ ks. option_map (λ v. map held_key v.items) ks ≡ keys_of (fields names.now)) }
{
    let mut keys = Vec::new(alloc);
    let mut left = names.iter();
    'fields: while let Some((name, found)) = left.next() {
        let Some(key) = key_of(alloc, name, &found)? else {
            return Ok(None);
        };
        keys.push(key)?;
    }
    Ok(Some(keys))
}

/// One to three names to sort by, as a stage.
fn sorting(alloc: Global, found: &RawValue<'_>) -> Result<Read, OutOfMemory>
    ensures { IfOk result (λ r. one_stage r ≡ option_map (map doing) (sorting (value found.now))) }
{
    let Some(names) = found.as_document() else {
        return Ok(Read::Bad);
    };
    let Some(keys) = keys_of(alloc, &names)? else {
        return Ok(Read::Bad);
    };
    if keys.is_empty() || 3 < keys.len() {
        return Ok(Read::Bad);
    }
    Ok(Read::Stage(Stage::Sort(keys)))
}

fn skipping(found: &RawValue<'_>) -> Read
    ensures { one_stage result ≡ option_map (map doing) (skipping (value found.now)) }
{
    match count_of(found) {
        Some(n) => Read::Stage(Stage::Skip(n)),
        None => Read::Bad,
    }
}

/// A limit of 0 is none.
fn limiting(found: &RawValue<'_>) -> Read
    ensures { one_stage result ≡ option_map (map doing) (limiting (value found.now)) }
{
    match count_of(found) {
        Some(0) => Read::Nothing,
        Some(n) => Read::Stage(Stage::Limit(n)),
        None => Read::Bad,
    }
}

/// 1 shows the `_id` alone, and 0 hides it.
fn showing_by(n: i64) -> Read
    ensures { one_stage result ≡ option_map (map doing) (showing_by n) }
{
    if n == 1 {
        Read::Stage(Stage::ShowId)
    } else if n == 0 {
        Read::Stage(Stage::HideId)
    } else {
        Read::Bad
    }
}

/// The projection, `{ _id: 1 }` or `{ _id: 0 }`.
fn projection_of(document: &RawDocument<'_>) -> Read
    ensures { one_stage result ≡ option_map (map doing) (projection_of (fields document.now)) }
{
    if !is_single(document) {
        return Read::Bad;
    }
    let Some(found) = document.get("_id") else {
        return Read::Bad;
    };
    match integer_of(&found) {
        Some(n) => showing_by(n),
        None => Read::Bad,
    }
}

fn showing(found: &RawValue<'_>) -> Read
    ensures { one_stage result ≡ option_map (map doing) (showing (value found.now)) }
{
    match found.as_document() {
        Some(document) => projection_of(&document),
        None => Read::Bad,
    }
}

/// The stage of this name.
pub(crate) fn stage_by(alloc: Global, name: &str, found: &RawValue<'_>) -> Result<Read, OutOfMemory>
    ensures { IfOk result (λ r. one_stage r ≡ option_map (map doing) (stage_by name.now (value found.now))) }
{
    if name == "$match" {
        selecting(alloc, found)
    } else if name == "$sort" {
        sorting(alloc, found)
    } else if name == "$skip" {
        Ok(skipping(found))
    } else if name == "$limit" {
        Ok(limiting(found))
    } else if name == "$project" {
        Ok(showing(found))
    } else {
        Ok(Read::Bad)
    }
}

/// The stages, and what was read behind them; none where that has no meaning.
pub(crate) fn with_stage(
    stages: Option<Vec<Stage>>,
    read: Read,
) -> Result<Option<Vec<Stage>>, OutOfMemory>
    ensures { IfOk result (λ r. held_stages r ≡ joined_stages (held_stages stages) (one_stage read)) }
{
    let Some(mut stages) = stages else {
        return Ok(None);
    };
    match read {
        Read::Bad => Ok(None),
        Read::Nothing => Ok(Some(stages)),
        Read::Stage(stage) => {
            stages.push(stage)?;
            Ok(Some(stages))
        }
    }
}

/// The stages, and the one of this name behind them where its value is there.
fn with_optional(
    alloc: Global,
    stages: Option<Vec<Stage>>,
    name: &str,
    found: Option<RawValue<'_>>,
) -> Result<Option<Vec<Stage>>, OutOfMemory>
    ensures { IfOk result (λ r. held_stages r ≡ joined_stages (held_stages stages) (option_map (map doing) (stages_by (stage_by name.now) (option_map value found.entry)))) }
{
    match found {
        Some(found) => with_stage(stages, stage_by(alloc, name, &found)?),
        None => Ok(stages),
    }
}

/// One stage of a pipeline: the document of its only field.
fn stage_of(alloc: Global, item: &RawValue<'_>) -> Result<Read, OutOfMemory>
    ensures { IfOk result (λ r. one_stage r ≡ option_map (map doing) (option_and_then stage_of (as_document (value item.now)))) }
{
    let Some(stage) = item.as_document() else {
        return Ok(Read::Bad);
    };
    if !is_single(&stage) {
        return Ok(Read::Bad);
    }
    match stage.iter().next() {
        Some((name, found)) => stage_by(alloc, name, &found),
        None => Ok(Read::Bad),
    }
}

/// What a pipeline does, in its order.
pub(crate) fn pipeline_stages(
    alloc: Global,
    pipeline: &RawArray<'_>,
) -> Result<Option<Vec<Stage>>, OutOfMemory>
    ensures { IfOk result (λ r. held_stages r ≡ pipeline_doing (items pipeline.now)) }
{
    let mut stages = Some(Vec::new(alloc));
    let mut left = pipeline.iter();
    'items: while let Some(item) = left.next() {
        let read = stage_of(alloc, &item)?;
        stages = with_stage(stages, read)?;
    }
    Ok(stages)
}

/// What a find does, in the order of its stages.
pub(crate) fn find_stages(
    alloc: Global,
    command: &RawDocument<'_>,
) -> Result<Option<Vec<Stage>>, OutOfMemory>
    ensures { IfOk result (λ r. held_stages r ≡ option_map (map doing) (find_stages (fields command.now))) }
{
    let stages = Some(Vec::new(alloc));
    let stages = with_optional(alloc, stages, "$match", command.get("filter"))?;
    let stages = with_optional(alloc, stages, "$sort", command.get("sort"))?;
    let stages = with_optional(alloc, stages, "$skip", command.get("skip"))?;
    let stages = with_optional(alloc, stages, "$limit", command.get("limit"))?;
    with_optional(alloc, stages, "$project", command.get("projection"))
}

/// What a list of collections does: its filter, where it has one.
pub(crate) fn listing_stages(
    alloc: Global,
    command: &RawDocument<'_>,
) -> Result<Option<Vec<Stage>>, OutOfMemory>
    ensures { IfOk result (λ r. held_stages r ≡ option_map (map doing) (stages_by selecting (get (codes "filter") (fields command.now)))) }
{
    let stages = Some(Vec::new(alloc));
    with_optional(alloc, stages, "$match", command.get("filter"))
}
