//! The script that bytes are.
ghost use Rattle.std.specs.Prelude.{◌≡◌, length};
ghost use Rattle.serde_json.specs.View.{view, items_view};
ghost use Rattle.mg_script.specs.Plan.{tasks, plan};
ghost use Rattle.mg_script.specs.Reads.{Gives};
ghost use Rattle.mg_script.specs.Script.{turn_of, turns_of, wire_at, ids_at, moment_at, scalars_at, lists_of, plan_of, data_of, script_of, first_missing, missing};

use crate::fault::{Place, ScriptError};
use crate::parse_fate::fates_of;
use crate::parse_job::jobs_of;
use crate::parts::{
    are_few, array_at, array_or, has_only, lower_bytes, natural_number, small_number,
};
use crate::script::{Job, Script};
use mg_bson::DateTime;
use serde_json::Value;
use std::alloc::Global;

// ---- the scalar fields

fn wire_at(value: &Value, place: Place) -> Result<i32, ScriptError>
    ensures { Gives (λ n. n) result (wire_at place (view value.now)) }
{
    match value.get("wire") {
        Some(wire) => match natural_number(wire) {
            Some(n) => Ok(n),
            None => Err(ScriptError::Fault(place)),
        },
        None => Ok(21),
    }
}

fn ids_at(value: &Value, place: Place) -> Result<[u8; 3], ScriptError>
    ensures { Gives (λ b. b) result (ids_at place (view value.now)) }
{
    match value.get("ids") {
        Some(ids) => match ids.as_str() {
            Some(text) => match lower_bytes::<3>(text) {
                Some(bytes) => Ok(bytes),
                None => Err(ScriptError::Fault(place)),
            },
            None => Err(ScriptError::Fault(place)),
        },
        None => Ok([0, 0, 0]),
    }
}

fn moment_at(value: &Value, place: Place) -> Result<DateTime, ScriptError>
    ensures { Gives (λ t. t.millis) result (moment_at place (view value.now)) }
{
    match value.get("moment") {
        Some(moment) => match moment.as_i64() {
            Some(millis) => Ok(DateTime { millis }),
            None => Err(ScriptError::Fault(place)),
        },
        None => Ok(DateTime { millis: 0 }),
    }
}

/// The wire version, the first bytes of ids and the time of new records.
#[tactic(auto, unfolding(crate::specs::Script::scalars_at))]
fn scalars_at(value: &Value, place: Place) -> Result<(i32, [u8; 3], DateTime), ScriptError>
    ensures { Gives (λ s. (s.0, s.1, s.2.millis)) result (scalars_at place (view value.now)) }
{
    let wire = wire_at(value, place)?;
    let ids = ids_at(value, place)?;
    let moment = moment_at(value, place)?;
    Ok((wire, ids, moment))
}

// ---- the lists

/// The lists of a script, none too long.
#[derive(Drop)]
struct Lists<'v> {
    jobs: &'v [Value],
    order: &'v [Value],
    fates: &'v [Value],
}

#[tactic(auto, unfolding(crate::specs::Script::lists_of))]
fn lists_of(value: &Value) -> Result<Lists<'_>, ScriptError>
    ensures { Gives (λ l. record { jobs = items_view l.jobs.now; order = items_view l.order.now; fates = items_view l.fates.now }) result (lists_of (view value.now)) }
{
    let jobs = array_at(value, "jobs", Place::Top)?;
    let order = array_at(value, "order", Place::Top)?;
    let fates = array_or(value, "fates", Place::Top)?;
    if !are_few(jobs, 65_536) {
        return Err(ScriptError::Fault(Place::Top));
    }
    if !are_few(order, 1_048_576) {
        return Err(ScriptError::Fault(Place::Top));
    }
    if !are_few(fates, 1_048_576) {
        return Err(ScriptError::Fault(Place::Top));
    }
    Ok(Lists { jobs, order, fates })
}

fn turn_of(value: &Value, place: Place) -> Result<u32, ScriptError>
    ensures { Gives (λ n. n) result (turn_of place (view value.now)) }
{
    match small_number(value) {
        Some(n) => Ok(n),
        None => Err(ScriptError::Fault(place)),
    }
}

#[tactic(auto, unfolding(crate::specs::Script::turns_of))]
fn order_of(alloc: Global, values: &[Value]) -> Result<Vec<u32>, ScriptError>
    ensures { Gives (λ v. v.items) result (turns_of (items_view values.now)) }
{
    let mut order = Vec::new(alloc);
    for (i, value) in values.iter().enumerate() {
        let turn = turn_of(value, Place::Order(i))?;
        order.push(turn)?;
    }
    Ok(order)
}

// ---- the whole

#[tactic(auto, unfolding(crate::specs::Script::plan_of))]
fn script_from(alloc: Global, value: &Value) -> Result<Script, ScriptError>
    ensures { Gives plan result (plan_of (view value.now)) }
{
    if !has_only(value, &["fates", "ids", "jobs", "moment", "order", "wire"]) {
        return Err(ScriptError::Fault(Place::Top));
    }
    let lists = lists_of(value)?;
    let (wire, ids, moment) = scalars_at(value, Place::Top)?;
    let jobs = jobs_of(alloc, lists.jobs)?;
    let order = order_of(alloc, lists.order)?;
    let fates = fates_of(alloc, lists.fates)?;
    Ok(Script {
        jobs,
        order,
        fates,
        wire,
        ids,
        moment,
    })
}

#[tactic(auto, unfolding(crate::specs::Script::data_of))]
fn value_from(alloc: Global, bytes: &[u8]) -> Result<Value, ScriptError>
    ensures { Gives view result (data_of bytes.now) }
{
    match Value::from_slice(alloc, bytes) {
        Ok(value) => Ok(value),
        Err(e) => if e.is_memory() {
            Err(ScriptError::OutOfMemory)
        } else {
            Err(ScriptError::Fault(Place::NotJson))
        },
    }
}

/// The script that the bytes are, or the first place where they are none.
///
/// The text is JSON (RFC 8259) of an object of `jobs`, at most 65,536 of them, `order`, at most 1,048,576 numbers, and
/// where they are given `fates`, at most 1,048,576 of them, `wire`, `ids` and `moment`. Of two members with one name the
/// last one stands. That each number of `order` names a job is not looked at.
pub fn parse_script(alloc: Global, bytes: &[u8]) -> Result<Script, ScriptError>
    ensures { Gives plan result (script_of bytes.now) }
{
    let value = value_from(alloc, bytes)?;
    script_from(alloc, &value)
}

// ---- numbers that name no job

fn count_of(jobs: &[Job]) -> usize
    ensures { result ≡ length (tasks jobs.now) }
{
    jobs.len()
}

/// The first number that is not below the count.
#[tactic(auto, unfolding(crate::specs::Script::first_missing))]
pub fn first_missing(order: &[u32], count: usize) -> Option<u32>
    ensures { result ≡ first_missing count order.now }
{
    for n in order {
        if (*n as usize) >= count {
            return Some(*n);
        }
    }
    None
}

/// The first number of the order that names no job.
pub fn missing(script: &Script) -> Option<u32>
    ensures { result ≡ missing (plan script.now) }
{
    let count = count_of(script.jobs.as_slice());
    first_missing(script.order.as_slice(), count)
}
