//! Checked bytes as a document that owns its parts.
ghost use Rattle.std.specs.Prelude.{◌≡◌, IfOk, IfErr, true, string_bytes};
ghost use Rattle.mg_bson.specs.Tree.{binary, regex, db_pointer, scoped};
ghost use Rattle.mg_bson.specs.Raw.{fields, items};
ghost use Rattle.mg_bson.specs.RawView.{value};
ghost use Rattle.mg_bson.specs.Plain.{is_plain};
ghost use Rattle.mg_bson.specs.View.{tree};
ghost use Rattle.mg_bson.specs.declared.error.BsonError.TheVariants.{OutOfMemory};

use crate::error::BsonError;
use crate::object_id::ObjectId;
use crate::raw::{RawArray, RawDocument, RawValue};
use crate::tree::{Array, Binary, Bson, CodeWithScope, DbPointer, Document, Regex};
use std::alloc::Global;

/// The document that the checked bytes spell, which owns its parts. Only memory can fail.
pub fn to_document(alloc: Global, raw: RawDocument<'_>) -> Result<Document, BsonError>
    ensures ok { IfOk result (λ d. d ≡ fields raw.entry) }
    ensures err { IfErr result (λ e. e ≡ OutOfMemory) }
{
    read_document(alloc, &raw)
}

#[cycle(decode)]
fn read_document(alloc: Global, raw: &RawDocument<'_>) -> Result<Document, BsonError>
    ensures ok { IfOk result (λ d. d ≡ fields raw.now) }
    ensures err { IfErr result (λ e. e ≡ OutOfMemory) }
{
    let mut document = Document::new(alloc);
    let mut left = raw.iter();
    while let Some((name, value)) = left.next() {
        document.append(name, read_value(alloc, &value)?)?;
    }
    Ok(document)
}

#[cycle(decode)]
fn read_array(alloc: Global, raw: &RawArray<'_>) -> Result<Array, BsonError>
    ensures ok { IfOk result (λ a. a ≡ items raw.now) }
    ensures err { IfErr result (λ e. e ≡ OutOfMemory) }
{
    let mut array = Array::new(alloc);
    let mut left = raw.iter();
    while let Some(value) = left.next() {
        array.push(read_value(alloc, &value)?)?;
    }
    Ok(array)
}

#[cycle(decode)]
pub(crate) fn read_value(alloc: Global, raw: &RawValue<'_>) -> Result<Bson, BsonError>
    ensures ok { IfOk result (λ b. tree b ≡ value raw.now) }
    ensures err { IfErr result (λ e. e ≡ OutOfMemory) }
{
    match raw {
        RawValue::Document(d) => read_document(alloc, d).map(Bson::Document),
        RawValue::Array(a) => read_array(alloc, a).map(Bson::Array),
        RawValue::CodeWithScope(code, scope) => read_scoped(alloc, code, scope),
        _ => read_plain(alloc, raw),
    }
}

#[cycle(decode)]
fn read_scoped(alloc: Global, code: &str, scope: &RawDocument<'_>) -> Result<Bson, BsonError>
    ensures ok { IfOk result (λ b. tree b ≡ scoped code.now (fields scope.now)) }
    ensures err { IfErr result (λ e. e ≡ OutOfMemory) }
{
    let code = read_text(alloc, code)?;
    let scope = read_document(alloc, scope)?;
    Ok(Bson::CodeWithScope(Box::new(alloc, CodeWithScope { code, scope })?))
}

// A value that holds no others.
fn read_plain(alloc: Global, raw: &RawValue<'_>) -> Result<Bson, BsonError>
    requires { is_plain (value raw.now) ≡ true }
    ensures ok { IfOk result (λ b. tree b ≡ value raw.now) }
    ensures err { IfErr result (λ e. e ≡ OutOfMemory) }
{
    match raw {
        RawValue::Double(v) => Ok(Bson::Double(*v)),
        RawValue::String(text) => read_text(alloc, text).map(Bson::String),
        RawValue::Binary(subtype, bytes) => read_binary(alloc, *subtype, bytes),
        RawValue::Undefined => Ok(Bson::Undefined),
        RawValue::ObjectId(id) => Ok(Bson::ObjectId(*id)),
        RawValue::Boolean(b) => Ok(Bson::Boolean(*b)),
        RawValue::DateTime(t) => Ok(Bson::DateTime(*t)),
        RawValue::Null => Ok(Bson::Null),
        RawValue::Regex(pattern, options) => read_regex(alloc, pattern, options),
        RawValue::DbPointer(namespace, id) => read_pointer(alloc, namespace, *id),
        RawValue::Code(text) => read_text(alloc, text).map(Bson::Code),
        RawValue::Symbol(text) => read_text(alloc, text).map(Bson::Symbol),
        RawValue::Int32(n) => Ok(Bson::Int32(*n)),
        RawValue::Timestamp(t) => Ok(Bson::Timestamp(*t)),
        RawValue::Int64(n) => Ok(Bson::Int64(*n)),
        RawValue::Decimal128(v) => Ok(Bson::Decimal128(*v)),
        RawValue::MinKey => Ok(Bson::MinKey),
        RawValue::MaxKey => Ok(Bson::MaxKey),
        RawValue::Document(_) | RawValue::Array(_) | RawValue::CodeWithScope(_, _) => {
            unreachable!()
        }
    }
}

fn read_text(alloc: Global, text: &str) -> Result<String, BsonError>
    ensures ok { IfOk result (λ s. string_bytes s ≡ text.now) }
    ensures err { IfErr result (λ e. e ≡ OutOfMemory) }
{
    Ok(String::from_str(alloc, text)?)
}

fn read_binary(alloc: Global, subtype: u8, bytes: &[u8]) -> Result<Bson, BsonError>
    ensures ok { IfOk result (λ b. tree b ≡ binary subtype bytes.now) }
    ensures err { IfErr result (λ e. e ≡ OutOfMemory) }
{
    let bytes = Vec::from_slice(alloc, bytes)?;
    Ok(Bson::Binary(Binary { subtype, bytes }))
}

fn read_regex(alloc: Global, pattern: &str, options: &str) -> Result<Bson, BsonError>
    ensures ok { IfOk result (λ b. tree b ≡ regex pattern.now options.now) }
    ensures err { IfErr result (λ e. e ≡ OutOfMemory) }
{
    let pattern = read_text(alloc, pattern)?;
    let options = read_text(alloc, options)?;
    Ok(Bson::Regex(Box::new(alloc, Regex { pattern, options })?))
}

fn read_pointer(alloc: Global, namespace: &str, id: ObjectId) -> Result<Bson, BsonError>
    ensures ok { IfOk result (λ b. tree b ≡ db_pointer namespace.now id.0) }
    ensures err { IfErr result (λ e. e ≡ OutOfMemory) }
{
    let namespace = read_text(alloc, namespace)?;
    Ok(Bson::DbPointer(Box::new(alloc, DbPointer { namespace, id })?))
}
