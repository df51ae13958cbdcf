//! Values as JSON.
ghost use Rattle.std.specs.Prelude.{◌≡◌, IfOk, string_bytes};
ghost use Rattle.serde_json.specs.Data.{no_members, object, put as with_member};
ghost use Rattle.serde_json.specs.View.{view, items_view, members_view};
ghost use Rattle.mg_bson.specs.Tree as bson;
ghost use Rattle.mg_bson.specs.View.{tree, items_of};
ghost use Rattle.mg_json.specs.Json.{tagged, hex_json, text_json, flag_json, int64_json, binary_json, regex_json, pointer_json, timestamp_json, scoped_json, json_of, items_json, fields_json, value_text};

use mg_bson::{Binary, Bson, DbPointer, Document, Regex, Timestamp};
use serde_json::{Map, Value, put};
use std::alloc::{AllocError, Global};

// ---- objects of one field, by which a kind is told

fn tagged(alloc: Global, name: &str, value: Value) -> Result<Value, AllocError>
    ensures { IfOk result (λ v. view v ≡ tagged name.now (view value)) }
{
    let mut members = Map::new(alloc);
    put(&mut members, alloc, name, value)?;
    Ok(Value::Object(members))
}

fn hex_json(alloc: Global, name: &str, bytes: &[u8]) -> Result<Value, AllocError>
    ensures { IfOk result (λ v. view v ≡ hex_json name.now bytes.now) }
{
    let digits = hex::encode(alloc, bytes)?;
    tagged(alloc, name, Value::String(digits))
}

fn text_json(alloc: Global, name: &str, text: &str) -> Result<Value, AllocError>
    ensures { IfOk result (λ v. view v ≡ text_json name.now text.now) }
{
    let text = String::from_str(alloc, text)?;
    tagged(alloc, name, Value::String(text))
}

fn flag_json(alloc: Global, name: &str) -> Result<Value, AllocError>
    ensures { IfOk result (λ v. view v ≡ flag_json name.now) }
{
    tagged(alloc, name, Value::Bool(true))
}

fn int64_json(alloc: Global, n: i64) -> Result<Value, AllocError>
    ensures { IfOk result (λ v. view v ≡ int64_json n) }
{
    let digits = n.to_string(alloc)?;
    tagged(alloc, "$int64", Value::String(digits))
}

// ---- kinds of more than one part

/// An object of two members.
fn two(
    alloc: Global,
    first: &str,
    value: Value,
    second: &str,
    other: Value,
) -> Result<Value, AllocError>
    ensures { IfOk result (λ v. view v ≡ object (with_member second.now (view other)
        (with_member first.now (view value) no_members))) }
{
    let mut members = Map::new(alloc);
    let Ok(()) = put(&mut members, alloc, first, value) else {
        drop(other);
        return Err(AllocError);
    };
    put(&mut members, alloc, second, other)?;
    Ok(Value::Object(members))
}

fn binary_json(alloc: Global, binary: &Binary) -> Result<Value, AllocError>
    ensures { IfOk result (λ v. view v ≡ binary_json binary.now.subtype binary.now.bytes.items) }
{
    let bytes = binary.bytes.as_slice();
    if binary.subtype == 0 {
        return hex_json(alloc, "$bytes", bytes);
    }
    let bytes = Value::String(hex::encode(alloc, bytes)?);
    let subtype = Value::from(binary.subtype);
    let parts = two(alloc, "bytes", bytes, "subtype", subtype)?;
    tagged(alloc, "$binary", parts)
}

fn regex_json(alloc: Global, regex: &Regex) -> Result<Value, AllocError>
    ensures { IfOk result
        (λ v. view v ≡ regex_json (string_bytes regex.now.pattern) (string_bytes regex.now.options)) }
{
    let options = regex.options.clone()?;
    let pattern = regex.pattern.clone()?;
    let (options, pattern) = (Value::String(options), Value::String(pattern));
    let parts = two(alloc, "options", options, "pattern", pattern)?;
    tagged(alloc, "$regex", parts)
}

fn pointer_json(alloc: Global, pointer: &DbPointer) -> Result<Value, AllocError>
    ensures { IfOk result
        (λ v. view v ≡ pointer_json (string_bytes pointer.now.namespace) pointer.now.id.0) }
{
    let id = hex::encode(alloc, &pointer.id.0)?;
    let namespace = pointer.namespace.clone()?;
    let (id, namespace) = (Value::String(id), Value::String(namespace));
    let parts = two(alloc, "id", id, "ref", namespace)?;
    tagged(alloc, "$dbPointer", parts)
}

fn timestamp_json(alloc: Global, timestamp: Timestamp) -> Result<Value, AllocError>
    ensures { IfOk result (λ v. view v ≡ timestamp_json timestamp.time timestamp.increment) }
{
    let increment = Value::from(timestamp.increment);
    let time = Value::from(timestamp.time);
    let parts = two(alloc, "i", increment, "t", time)?;
    tagged(alloc, "$timestamp", parts)
}

fn scoped_json(alloc: Global, code: &str, scope: Map<String, Value>) -> Result<Value, AllocError>
    ensures { IfOk result (λ v. view v ≡ scoped_json code.now (members_view scope.entries)) }
{
    let code = Value::String(String::from_str(alloc, code)?);
    let parts = two(alloc, "code", code, "scope", Value::Object(scope))?;
    tagged(alloc, "$codeScope", parts)
}

// ---- all kinds

/// The JSON value that a value prints as.
#[cycle(json)]
fn json_value(alloc: Global, value: &Bson) -> Result<Value, AllocError>
    ensures { IfOk result (λ v. view v ≡ json_of (tree value.now)) }
{
    match value {
        Bson::Double(bytes) => hex_json(alloc, "$double", bytes),
        Bson::String(text) => Value::try_from_str(alloc, text.as_str()),
        Bson::Document(document) => Ok(Value::Object(json_members(alloc, document)?)),
        Bson::Array(array) => Ok(Value::Array(json_items(alloc, array.as_slice())?)),
        Bson::Binary(binary) => binary_json(alloc, binary),
        Bson::Undefined => flag_json(alloc, "$undefined"),
        Bson::ObjectId(id) => hex_json(alloc, "$oid", &id.0),
        Bson::Boolean(b) => Ok(Value::Bool(*b)),
        Bson::DateTime(time) => tagged(alloc, "$date", Value::from(time.millis)),
        Bson::Null => Ok(Value::Null),
        Bson::Regex(regex) => regex_json(alloc, regex),
        Bson::DbPointer(pointer) => pointer_json(alloc, pointer),
        Bson::Code(text) => text_json(alloc, "$code", text.as_str()),
        Bson::Symbol(text) => text_json(alloc, "$symbol", text.as_str()),
        Bson::CodeWithScope(code) => {
            let scope = json_members(alloc, &code.scope)?;
            scoped_json(alloc, code.code.as_str(), scope)
        }
        Bson::Int32(n) => Ok(Value::from(*n)),
        Bson::Timestamp(timestamp) => timestamp_json(alloc, *timestamp),
        Bson::Int64(n) => int64_json(alloc, *n),
        Bson::Decimal128(bytes) => hex_json(alloc, "$decimal", bytes),
        Bson::MinKey => flag_json(alloc, "$minKey"),
        Bson::MaxKey => flag_json(alloc, "$maxKey"),
    }
}

#[cycle(json)]
fn json_items(alloc: Global, items: &[Bson]) -> Result<Vec<Value>, AllocError>
    ensures { IfOk result (λ v. items_view v.items ≡ items_json (items_of items.now)) }
{
    let mut values = Vec::new(alloc);
    for item in items {
        values.push(json_value(alloc, item)?)?;
    }
    Ok(values)
}

#[cycle(json)]
fn json_members(alloc: Global, document: &Document) -> Result<Map<String, Value>, AllocError>
    ensures { IfOk result (λ m. members_view m.entries ≡ fields_json document.now no_members) }
{
    let mut members = Map::new(alloc);
    let mut fields = document.iter();
    while let Some((name, field)) = fields.next() {
        let value = json_value(alloc, field)?;
        put(&mut members, alloc, name, value)?;
    }
    Ok(members)
}

/// The compact JSON text (RFC 8259) of a value. A kind that JSON lacks is an object of one field
/// whose name begins with `$`; an object's fields stand in the byte order of their names, and of
/// fields with one name the last stands. It fails for want of memory alone.
pub fn value_text(alloc: Global, value: &Bson) -> Result<String, AllocError>
    ensures { IfOk result (λ s. string_bytes s ≡ value_text (tree value.now)) }
{
    let json = json_value(alloc, value)?;
    json.to_string(alloc)
}

fn document_json(alloc: Global, document: &Document) -> Result<Value, AllocError>
    ensures { IfOk result (λ v. view v ≡ json_of (bson.document document.now)) }
{
    Ok(Value::Object(json_members(alloc, document)?))
}

/// The compact JSON text of a document, as `value_text` gives it of a value: an object of its
/// fields. It fails for want of memory alone.
pub fn document_text(alloc: Global, document: &Document) -> Result<String, AllocError>
    ensures { IfOk result (λ s. string_bytes s ≡ value_text (bson.document document.now)) }
{
    let json = document_json(alloc, document)?;
    json.to_string(alloc)
}
