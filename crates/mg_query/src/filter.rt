//! Filters, which hold their values as encodings.
ghost use Rattle.std.specs.Prelude.{◌≡◌, ◌∷◌, [], IfOk, OnOk, map, option_map};
ghost use Rattle.mg_bson.specs.Bytes.{bytes};
ghost use Rattle.mg_bson.specs.Raw.{fields, items};
ghost use Rattle.mg_bson.specs.RawView.{value};
ghost use Rattle.mg_bson.specs.Tree.{document, field, no_fields};
ghost use Rattle.mg_bson.specs.View.{tree};
ghost use Rattle.mg_bson.specs.Writable.{IsWritable};
ghost use Rattle.mg_server.specs.Filter.{begins_with_dollar, condition_of, conditions_of, document_values, is_top_name, key, operator_values, values_of};
ghost use Rattle.mg_query.specs.Asking.{begins_operator, held, keyed, keys_of};

use crate::reading::{has_dot, is_single};
use crate::reply::with;
use mg_bson::{Bson, Document, RawArray, RawDocument, RawValue, to_bytes};
use mg_link::OutOfMemory;
use std::alloc::Global;

/// A name, and the encodings of the values of which a document has one there.
pub struct Condition {
    pub(crate) name: String,
    pub(crate) keys: Vec<Vec<u8>>,
}

// By hand, so that letting one go is one call.
impl Drop for Condition {
    fn drop(self) {
        let Condition { name: _, keys: _ } = self;
    }
}

/// The encoding of a value, its kind included: that of the document which holds it under an empty name. What is too
/// large to be encoded is want of memory.
pub fn key_of(alloc: Global, found: Bson) -> Result<Vec<u8>, OutOfMemory>
    ensures key { IfOk result (λ k. k.items ≡ key (tree found)) }
    ensures writable { OnOk result (IsWritable (field [] (tree found) no_fields)) }
{
    let document = with(Document::new(alloc), "", found)?;
    match to_bytes(alloc, &document) {
        Ok(bytes) => Ok(bytes.into_bytes()),
        Err(_) => Err(OutOfMemory),
    }
}

/// The encoding of a value that is lent.
pub fn raw_key(alloc: Global, found: &RawValue<'_>) -> Result<Vec<u8>, OutOfMemory>
    ensures key { IfOk result (λ k. k.items ≡ key (value found.now)) }
    ensures writable { OnOk result (IsWritable (field [] (value found.now) no_fields)) }
{
    match found.to_value(alloc) {
        Ok(owned) => key_of(alloc, owned),
        Err(_) => Err(OutOfMemory),
    }
}

fn one_key(alloc: Global, found: &RawValue<'_>) -> Result<Vec<Vec<u8>>, OutOfMemory>
    ensures { IfOk result (λ ks. map (λ k. k.items) ks.items ≡ key (value found.now) ∷ []) }
{
    let key = raw_key(alloc, found)?;
    let mut keys = Vec::new(alloc);
    keys.push(key)?;
    Ok(keys)
}

fn keys_in(alloc: Global, array: &RawArray<'_>) -> Result<Vec<Vec<u8>>, OutOfMemory>
    ensures { IfOk result (λ ks. map (λ k. k.items) ks.items ≡ keys_of (items array.now)) }
{
    let mut keys = Vec::new(alloc);
    let mut left = array.iter();
    'items: while let Some(item) = left.next() {
        let key = raw_key(alloc, &item)?;
        keys.push(key)?;
    }
    Ok(keys)
}

/// Whether the name is that of an operator.
pub(crate) fn begins_with_dollar(name: &str) -> bool
    ensures { result ≡ begins_with_dollar name.now }
{
    match name.as_bytes() {
        [first, ..] => *first == b'$',
        [] => false,
    }
}

/// Whether it is a name at the top of a document.
pub(crate) fn is_top_name(name: &str) -> bool
    ensures { result ≡ is_top_name name.now }
{
    !begins_with_dollar(name) && !has_dot(name)
}

/// The encodings of the values of an operator, where it has a meaning.
fn operator_keys(
    alloc: Global,
    name: &str,
    operand: &RawValue<'_>,
) -> Result<Option<Vec<Vec<u8>>>, OutOfMemory>
    ensures { IfOk result (λ ks. option_map (λ v. map (λ k. k.items) v.items) ks ≡ option_map keys_of (operator_values name.now (value operand.now))) }
{
    if name == "$eq" {
        Ok(Some(one_key(alloc, operand)?))
    } else if name == "$in" {
        match operand.as_array() {
            Some(array) => Ok(Some(keys_in(alloc, &array)?)),
            None => Ok(None),
        }
    } else {
        Ok(None)
    }
}

/// Whether the first name of the document is that of an operator.
fn begins_operator(document: &RawDocument<'_>) -> bool
    ensures { result ≡ begins_operator (fields document.now) }
{
    match document.iter().next() {
        Some((name, _)) => begins_with_dollar(name),
        None => false,
    }
}

/// The encodings of the values that a document in a filter stands for.
fn document_keys(
    alloc: Global,
    inner: &RawDocument<'_>,
    found: &RawValue<'_>,
) -> Result<Option<Vec<Vec<u8>>>, OutOfMemory>
    requires { value found.now ≡ document (fields inner.now) }
    ensures { IfOk result (λ ks. option_map (λ v. map (λ k. k.items) v.items) ks ≡ option_map keys_of (document_values (fields inner.now))) }
{
    if !begins_operator(inner) {
        return Ok(Some(one_key(alloc, found)?));
    }
    if !is_single(inner) {
        return Ok(None);
    }
    match inner.iter().next() {
        Some((name, operand)) => operator_keys(alloc, name, &operand),
        None => Ok(None),
    }
}

/// The encodings of the values that a value in a filter stands for.
#[tactic(auto, using(crate::proofs::Asking::plain_values, crate::proofs::Asking::document_is))]
fn value_keys(alloc: Global, found: &RawValue<'_>) -> Result<Option<Vec<Vec<u8>>>, OutOfMemory>
    ensures { IfOk result (λ ks. option_map (λ v. map (λ k. k.items) v.items) ks ≡ option_map keys_of (values_of (value found.now))) }
{
    match found.as_document() {
        Some(document) => document_keys(alloc, &document, found),
        None => Ok(Some(one_key(alloc, found)?)),
    }
}

fn condition_of(
    alloc: Global,
    name: &str,
    found: &RawValue<'_>,
) -> Result<Option<Condition>, OutOfMemory>
    ensures { IfOk result (λ c. option_map held c ≡ option_map keyed (condition_of name.now (value found.now))) }
{
    if !is_top_name(name) {
        return Ok(None);
    }
    let Some(keys) = value_keys(alloc, found)? else {
        return Ok(None);
    };
    let name = String::from_str(alloc, name)?;
    Ok(Some(Condition { name, keys }))
}

/// The conditions of a filter, where each of its names has one.
pub(crate) fn conditions_of(
    alloc: Global,
    filter: &RawDocument<'_>,
) -> Result<Option<Vec<Condition>>, OutOfMemory>
    ensures { IfOk result (λ cs. option_map (λ v. map held v.items) cs ≡ option_map (map keyed) (conditions_of (fields filter.now))) }
{
    let mut conditions = Vec::new(alloc);
    let mut left = filter.iter();
    'fields: while let Some((name, found)) = left.next() {
        let Some(condition) = condition_of(alloc, name, &found)? else {
            return Ok(None);
        };
        conditions.push(condition)?;
    }
    Ok(Some(conditions))
}
