//! What is read off one JSON value.
ghost use Rattle.std.specs.Prelude.{◌≡◌, map, option_map, nat_le, nat_lt, IfOk};
ghost use Rattle.std.specs.List.{list_all};
ghost use Rattle.serde_json.specs.Events.{items_len};
ghost use Rattle.serde_json.specs.View.{view, items_view, members_view};
ghost use Rattle.mg_link.specs.Namespace.{has_dot};
ghost use Rattle.mg_script.specs.Reads.{Gives};
ghost use Rattle.mg_script.specs.Parts.{is_among, are_among, has_only, only_member, int32_number, natural_number, small_number, is_lower_digit, lower_bytes, printed_number, member_at, array_at, array_or, text_at, text_or, number_at, number_or, single_at, bytes_at};

use crate::fault::{Place, ScriptError};
use hex::FromHexError;
use serde_json::{Map, Value};
use std::alloc::{AllocError, Global};

// ---- objects

/// Whether the name is one of these.
pub(crate) fn is_among(name: &str, names: &[&str]) -> bool
    ensures { result ≡ is_among name.now (map (λ n. n.now) names.now) }
{
    for known in names {
        if name == *known {
            return true;
        }
    }
    false
}

fn are_among(members: &Map<String, Value>, names: &[&str]) -> bool
    ensures { result ≡ are_among (members_view members.now.entries) (map (λ n. n.now) names.now) }
{
    for (name, _) in members.iter() {
        if !is_among(name.as_str(), names) {
            return false;
        }
    }
    true
}

/// Whether the value is an object whose members all have one of these names.
pub(crate) fn has_only(value: &Value, names: &[&str]) -> bool
    ensures { result ≡ has_only (map (λ n. n.now) names.now) (view value.now) }
{
    match value {
        Value::Object(members) => are_among(members, names),
        _ => false,
    }
}

/// The member of an object that has just one.
pub(crate) fn only_member(members: &Map<String, Value>) -> Option<(&str, &Value)>
    ensures { option_map (λ m. (m.0.now, view m.1.now)) result
        ≡ only_member (members_view members.now.entries) }
{
    if members.len() != 1 {
        return None;
    }
    match members.iter().next() {
        Some((name, value)) => Some((name.as_str(), value)),
        None => None,
    }
}

// ---- numbers

/// A whole number from -2,147,483,648 to 2,147,483,647.
pub(crate) fn int32_number(value: &Value) -> Option<i32>
    ensures { result ≡ int32_number (view value.now) }
{
    match value.as_i64() {
        Some(n) => if n >= -2_147_483_648 && n <= 2_147_483_647 {
            Some(n as i32)
        } else {
            None
        },
        None => None,
    }
}

/// A whole number from 0 to 2,147,483,647.
pub(crate) fn natural_number(value: &Value) -> Option<i32>
    ensures { result ≡ natural_number (view value.now) }
{
    match int32_number(value) {
        Some(n) => if n >= 0 { Some(n) } else { None },
        None => None,
    }
}

/// A whole number from 0 to 4,294,967,295.
pub(crate) fn small_number(value: &Value) -> Option<u32>
    ensures { result ≡ small_number (view value.now) }
{
    match value.as_u64() {
        Some(n) => if n < 1 << 32 { Some(n as u32) } else { None },
        None => None,
    }
}

// ---- texts

/// Whether the text has a dot.
pub(crate) fn has_dot(text: &str) -> bool
    ensures { result ≡ has_dot text.now }
{
    for byte in text.as_bytes() {
        if *byte == b'.' {
            return true;
        }
    }
    false
}

fn is_lower_digit(byte: u8) -> bool
    ensures { result ≡ is_lower_digit byte }
{
    (byte >= b'0' && byte <= b'9') || (byte >= b'a' && byte <= b'f')
}

fn are_lower_digits(text: &str) -> bool
    ensures { result ≡ list_all is_lower_digit text.now }
{
    text.as_bytes().iter().all(|b| is_lower_digit(*b))
}

/// The bytes of pairs of hexadecimal digits, of which letters are lower case.
pub(crate) fn lower_bytes<const N: usize>(text: &str) -> Option<[u8; N]>
    ensures { result ≡ lower_bytes N text.now }
{
    if !are_lower_digits(text) {
        return None;
    }
    let mut bytes = [0; N];
    match hex::decode_to_slice(text, &mut bytes) {
        Ok(()) => Some(bytes),
        Err(_) => None,
    }
}

/// The number of 64 bits that prints as the text.
pub(crate) fn printed_number(alloc: Global, text: &str) -> Result<Option<i64>, AllocError>
    ensures { IfOk result (λ n. n ≡ printed_number text.now) }
{
    let Ok(n) = text.parse::<i64>() else {
        return Ok(None);
    };
    let digits = n.to_string(alloc)?;
    if text == digits.as_str() {
        Ok(Some(n))
    } else {
        Ok(None)
    }
}

// ---- members by name

/// The value of the name.
pub(crate) fn member_at<'v>(
    value: &'v Value,
    name: &str,
    place: Place,
) -> Result<&'v Value, ScriptError>
    ensures { Gives (λ v. view v.now) result (member_at place name.now (view value.now)) }
{
    match value.get(name) {
        Some(member) => Ok(member),
        None => Err(ScriptError::Fault(place)),
    }
}

/// The array of the name.
pub(crate) fn array_at<'v>(
    value: &'v Value,
    name: &str,
    place: Place,
) -> Result<&'v [Value], ScriptError>
    ensures { Gives (λ v. items_view v.now) result (array_at place name.now (view value.now)) }
{
    match value.get(name) {
        Some(member) => match member.as_array() {
            Some(items) => Ok(items.as_slice()),
            None => Err(ScriptError::Fault(place)),
        },
        None => Err(ScriptError::Fault(place)),
    }
}

/// The array of the name, or an empty one where there is none.
pub(crate) fn array_or<'v>(
    value: &'v Value,
    name: &str,
    place: Place,
) -> Result<&'v [Value], ScriptError>
    ensures { Gives (λ v. items_view v.now) result (array_or place name.now (view value.now)) }
{
    match value.get(name) {
        Some(member) => match member.as_array() {
            Some(items) => Ok(items.as_slice()),
            None => Err(ScriptError::Fault(place)),
        },
        None => Ok(Default::default()),
    }
}

/// Whether there are at most so many items.
#[tactic(auto, using(crate::proofs::Steps::lengths))]
pub(crate) fn are_few(items: &[Value], limit: usize) -> bool
    ensures { result ≡ nat_le (items_len (items_view items.now)) limit }
{
    items.len() <= limit
}

/// Whether there is an item.
#[tactic(auto, using(crate::proofs::Steps::lengths))]
pub(crate) fn is_some(items: &[Value]) -> bool
    ensures { result ≡ nat_lt 0 (items_len (items_view items.now)) }
{
    items.len() > 0
}

/// The text of the name.
pub(crate) fn text_at<'v>(
    value: &'v Value,
    name: &str,
    place: Place,
) -> Result<&'v str, ScriptError>
    ensures { Gives (λ s. s.now) result (text_at place name.now (view value.now)) }
{
    match value.get(name) {
        Some(member) => match member.as_str() {
            Some(text) => Ok(text),
            None => Err(ScriptError::Fault(place)),
        },
        None => Err(ScriptError::Fault(place)),
    }
}

/// The text of the name, or the default where there is none.
pub(crate) fn text_or<'v>(
    value: &'v Value,
    name: &str,
    default: &'v str,
    place: Place,
) -> Result<&'v str, ScriptError>
    ensures { Gives (λ s. s.now) result (text_or place name.now default.now (view value.now)) }
{
    match value.get(name) {
        Some(member) => match member.as_str() {
            Some(text) => Ok(text),
            None => Err(ScriptError::Fault(place)),
        },
        None => Ok(default),
    }
}

/// The small number of the name.
pub(crate) fn number_at(value: &Value, name: &str, place: Place) -> Result<u32, ScriptError>
    ensures { Gives (λ n. n) result (number_at place name.now (view value.now)) }
{
    match value.get(name) {
        Some(member) => match small_number(member) {
            Some(n) => Ok(n),
            None => Err(ScriptError::Fault(place)),
        },
        None => Err(ScriptError::Fault(place)),
    }
}

/// The small number of the name, or 0 where there is none.
pub(crate) fn number_or(value: &Value, name: &str, place: Place) -> Result<u32, ScriptError>
    ensures { Gives (λ n. n) result (number_or place name.now (view value.now)) }
{
    match value.get(name) {
        Some(member) => match small_number(member) {
            Some(n) => Ok(n),
            None => Err(ScriptError::Fault(place)),
        },
        None => Ok(0),
    }
}

/// The member of an object that has just one.
pub(crate) fn single_at(value: &Value, place: Place) -> Result<(&str, &Value), ScriptError>
    ensures { Gives (λ m. (m.0.now, view m.1.now)) result (single_at place (view value.now)) }
{
    match value.as_object() {
        Some(members) => match only_member(members) {
            Some(member) => Ok(member),
            None => Err(ScriptError::Fault(place)),
        },
        None => Err(ScriptError::Fault(place)),
    }
}

/// The bytes of a text of pairs of hexadecimal digits, in either case.
pub(crate) fn bytes_at(alloc: Global, value: &Value, place: Place) -> Result<Vec<u8>, ScriptError>
    ensures { Gives (λ v. v.items) result (bytes_at place (view value.now)) }
{
    match value.as_str() {
        Some(text) => match hex::decode(alloc, text) {
            Ok(bytes) => Ok(bytes),
            Err(FromHexError::OutOfMemory) => Err(ScriptError::OutOfMemory),
            Err(_) => Err(ScriptError::Fault(place)),
        },
        None => Err(ScriptError::Fault(place)),
    }
}
