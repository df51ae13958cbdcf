//! Fates from JSON.
ghost use Rattle.std.specs.Prelude.{map, string_bytes};
ghost use Rattle.serde_json.specs.View.{view, items_view};
ghost use Rattle.mg_script.specs.Plan.{lot, fated, fates};
ghost use Rattle.mg_script.specs.Reads.{Gives, each};
ghost use Rattle.mg_script.specs.Script.{label_of, labels_at, code_at, refusal_of, plain_of, lot_of, fate_of, fates_of};

use crate::fault::{Place, ScriptError};
use crate::parts::{are_few, array_or, has_only, int32_number, number_or, text_or};
use mg_store::{Fate, FateKind};
use serde_json::Value;
use std::alloc::Global;

fn label_of(alloc: Global, value: &Value, place: Place) -> Result<String, ScriptError>
    ensures { Gives string_bytes result (label_of place (view value.now)) }
{
    match value.as_str() {
        Some(text) => Ok(String::from_str(alloc, text)?),
        None => Err(ScriptError::Fault(place)),
    }
}

fn texts_of(alloc: Global, values: &[Value], place: Place) -> Result<Vec<String>, ScriptError>
    ensures { Gives (λ v. map string_bytes v.items) result
        (each (λ n. label_of place) 0 (items_view values.now)) }
{
    let mut labels = Vec::new(alloc);
    for value in values {
        let label = label_of(alloc, value, place)?;
        labels.push(label)?;
    }
    Ok(labels)
}

fn labels_at(alloc: Global, value: &Value, place: Place) -> Result<Vec<String>, ScriptError>
    ensures { Gives (λ v. map string_bytes v.items) result (labels_at place (view value.now)) }
{
    let labels = array_or(value, "labels", place)?;
    if !are_few(labels, 1_048_576) {
        return Err(ScriptError::Fault(place));
    }
    texts_of(alloc, labels, place)
}

fn code_at(value: &Value, place: Place) -> Result<i32, ScriptError>
    ensures { Gives (λ n. n) result (code_at place (view value.now)) }
{
    match value.get("code") {
        Some(code) => match int32_number(code) {
            Some(n) => Ok(n),
            None => Err(ScriptError::Fault(place)),
        },
        None => Ok(0),
    }
}

#[tactic(auto, unfolding(crate::specs::Script::refusal_of))]
fn refusal_of(alloc: Global, value: &Value, place: Place) -> Result<FateKind, ScriptError>
    ensures { Gives lot result (refusal_of place (view value.now)) }
{
    let code = code_at(value, place)?;
    let labels = labels_at(alloc, value, place)?;
    Ok(FateKind::Refuse { code, labels })
}

/// A kind that has no code and no labels.
#[tactic(auto, unfolding(crate::specs::Script::plain_of))]
fn plain_of(kind: &str, value: &Value, place: Place) -> Result<FateKind, ScriptError>
    ensures { Gives lot result (plain_of place kind.now (view value.now)) }
{
    if !has_only(value, &["kind", "pend"]) {
        return Err(ScriptError::Fault(place));
    }
    if kind == "keep" {
        Ok(FateKind::Keep)
    } else if kind == "lose" {
        Ok(FateKind::Lose)
    } else if kind == "drop" {
        Ok(FateKind::Drop)
    } else {
        Err(ScriptError::Fault(place))
    }
}

fn kind_of(alloc: Global, kind: &str, value: &Value, place: Place) -> Result<FateKind, ScriptError>
    ensures { Gives lot result (lot_of place kind.now (view value.now)) }
{
    if kind == "refuse" {
        refusal_of(alloc, value, place)
    } else {
        plain_of(kind, value, place)
    }
}

#[tactic(auto, unfolding(crate::specs::Script::fate_of))]
fn fate_of(alloc: Global, value: &Value, place: Place) -> Result<Fate, ScriptError>
    ensures { Gives fated result (fate_of place (view value.now)) }
{
    if !has_only(value, &["code", "kind", "labels", "pend"]) {
        return Err(ScriptError::Fault(place));
    }
    let pend = number_or(value, "pend", place)?;
    let kind = text_or(value, "kind", "keep", place)?;
    let kind = kind_of(alloc, kind, value, place)?;
    Ok(Fate { pend, kind })
}

/// The fates that JSON values are.
#[tactic(auto, unfolding(crate::specs::Script::fates_of))]
pub(crate) fn fates_of(alloc: Global, values: &[Value]) -> Result<Vec<Fate>, ScriptError>
    ensures { Gives (λ v. fates v.items) result (fates_of (items_view values.now)) }
{
    let mut fates = Vec::new(alloc);
    for (i, value) in values.iter().enumerate() {
        let fate = fate_of(alloc, value, Place::Fate(i))?;
        fates.push(fate)?;
    }
    Ok(fates)
}
