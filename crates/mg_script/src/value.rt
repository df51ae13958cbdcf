//! Values of documents from JSON.
ghost use Rattle.std.specs.Prelude.{◌≡◌, IfOk, IfErr, option_map};
ghost use Rattle.serde_json.specs.View.{view, number_view, items_view, members_view};
ghost use Rattle.mg_bson.specs.View.{tree};
ghost use Rattle.mg_link.specs.Errors.{plain};
ghost use Rattle.mg_link.specs.declared.error.ErrorKind.TheVariants as kinds;
ghost use Rattle.mg_script.specs.Reads.{Gives};
ghost use Rattle.mg_script.specs.Values.{value_at, items_at, fields_at, whole, whole_at, object_id_at, binary_at, date_at, int64_at, timestamp_at, wrapper, wrapped_at, document_at, value_of};

use crate::fault::{Place, ScriptError};
use crate::parts::{
    bytes_at, has_only, is_among, lower_bytes, number_at, only_member, printed_number,
};
use mg_bson::{Array, Binary, Bson, DateTime, Document, ObjectId, Timestamp};
use mg_link::Error;
use serde_json::{Map, Number, Value};
use std::alloc::{AllocError, Global};

/// The number, in 32 bits where it fits.
fn whole_number(n: i64) -> Bson
    ensures { tree result ≡ whole n }
{
    if n >= -2_147_483_648 && n <= 2_147_483_647 {
        Bson::Int32(n as i32)
    } else {
        Bson::Int64(n)
    }
}

fn whole_of(number: &Number, place: Place) -> Result<Bson, ScriptError>
    ensures { Gives tree result (whole_at place (number_view number.now)) }
{
    match number.as_i64() {
        Some(n) => Ok(whole_number(n)),
        None => Err(ScriptError::Fault(place)),
    }
}

// ---- objects of one member that stand for another value than a document

fn object_id_of(value: &Value, place: Place) -> Result<Bson, ScriptError>
    ensures { Gives tree result (object_id_at place (view value.now)) }
{
    match value.as_str() {
        Some(text) => match lower_bytes::<12>(text) {
            Some(bytes) => Ok(Bson::ObjectId(ObjectId(bytes))),
            None => Err(ScriptError::Fault(place)),
        },
        None => Err(ScriptError::Fault(place)),
    }
}

fn binary_of(alloc: Global, value: &Value, place: Place) -> Result<Bson, ScriptError>
    ensures { Gives tree result (binary_at place (view value.now)) }
{
    let bytes = bytes_at(alloc, value, place)?;
    Ok(Bson::Binary(Binary { subtype: 0, bytes }))
}

fn date_of(value: &Value, place: Place) -> Result<Bson, ScriptError>
    ensures { Gives tree result (date_at place (view value.now)) }
{
    match value.as_i64() {
        Some(millis) => Ok(Bson::DateTime(DateTime { millis })),
        None => Err(ScriptError::Fault(place)),
    }
}

fn int64_of(alloc: Global, value: &Value, place: Place) -> Result<Bson, ScriptError>
    ensures { Gives tree result (int64_at place (view value.now)) }
{
    match value.as_str() {
        Some(text) => match printed_number(alloc, text)? {
            Some(n) => Ok(Bson::Int64(n)),
            None => Err(ScriptError::Fault(place)),
        },
        None => Err(ScriptError::Fault(place)),
    }
}

fn timestamp_of(value: &Value, place: Place) -> Result<Bson, ScriptError>
    ensures { Gives tree result (timestamp_at place (view value.now)) }
{
    if !has_only(value, &["i", "t"]) {
        return Err(ScriptError::Fault(place));
    }
    let increment = number_at(value, "i", place)?;
    let time = number_at(value, "t", place)?;
    Ok(Bson::Timestamp(Timestamp { time, increment }))
}

/// The only member of an object, where its name says that it stands for such a value.
fn wrapper(members: &Map<String, Value>) -> Option<(&str, &Value)>
    ensures { option_map (λ m. (m.0.now, view m.1.now)) result
        ≡ wrapper (members_view members.now.entries) }
{
    match only_member(members) {
        Some((name, value)) => if is_among(
            name,
            &["$oid", "$bytes", "$date", "$int64", "$timestamp"],
        ) {
            Some((name, value))
        } else {
            None
        },
        None => None,
    }
}

/// The value that the member stands for.
fn wrapped_value(
    alloc: Global,
    name: &str,
    value: &Value,
    place: Place,
) -> Result<Bson, ScriptError>
    ensures { Gives tree result (wrapped_at place name.now (view value.now)) }
{
    if name == "$oid" {
        object_id_of(value, place)
    } else if name == "$bytes" {
        binary_of(alloc, value, place)
    } else if name == "$date" {
        date_of(value, place)
    } else if name == "$int64" {
        int64_of(alloc, value, place)
    } else {
        timestamp_of(value, place)
    }
}

// ---- all values

/// The value that a JSON value stands for.
#[cycle(value)]
pub(crate) fn value_of(alloc: Global, value: &Value, place: Place) -> Result<Bson, ScriptError>
    ensures { Gives tree result (value_at place (view value.now)) }
{
    match value {
        Value::Null => Ok(Bson::Null),
        Value::Bool(b) => Ok(Bson::Boolean(*b)),
        Value::Number(number) => whole_of(number, place),
        Value::String(text) => Ok(Bson::String(text.clone()?)),
        Value::Array(items) => Ok(Bson::Array(items_of(alloc, items, place)?)),
        Value::Object(members) => match wrapper(members) {
            Some((name, value)) => wrapped_value(alloc, name, value, place),
            None => Ok(Bson::Document(fields_of(alloc, members, place)?)),
        },
    }
}

#[cycle(value)]
fn items_of(alloc: Global, items: &Vec<Value>, place: Place) -> Result<Array, ScriptError>
    ensures { Gives (λ a. a) result (items_at place (items_view items.now.items)) }
{
    let mut array = Array::new(alloc);
    for item in items {
        let value = value_of(alloc, item, place)?;
        array.push(value)?;
    }
    Ok(array)
}

#[cycle(value)]
fn fields_of(
    alloc: Global,
    members: &Map<String, Value>,
    place: Place,
) -> Result<Document, ScriptError>
    ensures { Gives (λ d. d) result (fields_at place (members_view members.now.entries)) }
{
    let mut document = Document::new(alloc);
    for (name, member) in members.iter() {
        let value = value_of(alloc, member, place)?;
        document.append(name.as_str(), value)?;
    }
    Ok(document)
}

/// The document that a JSON value stands for.
pub(crate) fn document_of(
    alloc: Global,
    value: &Value,
    place: Place,
) -> Result<Document, ScriptError>
    ensures { Gives (λ d. d) result (document_at place (view value.now)) }
{
    match value_of(alloc, value, place)?.into_document() {
        Ok(document) => Ok(document),
        Err(_) => Err(ScriptError::Fault(place)),
    }
}

/// The value that a JSON value stands for, or none where a script may not have it. A number is whole and fits 64 bits.
/// An object of one field `$oid`, `$bytes`, `$date`, `$int64` or `$timestamp` stands for that value, and any other object
/// is the document of its fields, in the byte order of their names. It fails for want of memory alone.
pub fn value_from_json(alloc: Global, value: &Value) -> Result<Option<Bson>, Error>
    ensures value { IfOk result (λ v. option_map tree v ≡ value_of (view value.now)) }
    ensures err { IfErr result (λ e. e ≡ plain kinds.OutOfMemory) }
{
    match value_of(alloc, value, Place::Top) {
        Ok(value) => Ok(Some(value)),
        Err(ScriptError::Fault(_)) => Ok(None),
        Err(ScriptError::OutOfMemory) => Err(Error::from(AllocError)),
    }
}
