//! Bytes, taken apart one level at a time. Nothing is known of them beforehand.
ghost use Rattle.std.specs.Prelude.{◌≡◌, ◌≤◌, ◌<◌, length, option_map, is_some, IfSome, IsTrue, Some, true};
ghost use Rattle.std.specs.Str.{IsUtf8};
ghost use Rattle.std.specs.Int.{w32, w64, cast_signed};
ghost use Rattle.mg_bson.specs.Raw.{AreFields};
ghost use Rattle.mg_bson.specs.Reading.{le32_at, le64_at, utf8_of, ahead, two_texts, extent, element_at, body_at, text_at, boolean_at, binary_at, regex_at, pointer_at, text_and_rest, scope_parts};
ghost use Rattle.mg_bson.specs.Tree.{boolean, binary, regex, db_pointer};
ghost use Rattle.mg_bson.specs.ReadView.{element_view, element_with, ended_text};

use crate::kind::Kind;
use crate::scan::{cut_and_look, cut_at_zero};
use std::str;

// An element, and the bytes behind it. The kind stands last, so that a move copies whole words.
#[derive(Clone, Copy)]
pub(crate) struct Element<'a> {
    pub(crate) name: &'a str,
    pub(crate) value: &'a [u8],
    pub(crate) rest: &'a [u8],
    pub(crate) kind: Kind,
}

#[inline(always)]
pub(crate) fn u32_at(bytes: &[u8]) -> u32
    requires { 4 ≤ length bytes.now }
    ensures { result ≡ le32_at bytes.now }
{
    u32::from_le_bytes(array_of(&bytes[..4]))
}

#[inline(always)]
pub(crate) fn u64_at(bytes: &[u8]) -> u64
    requires { 8 ≤ length bytes.now }
    ensures { result ≡ le64_at bytes.now }
{
    u64::from_le_bytes(array_of(&bytes[..8]))
}

#[inline(always)]
pub(crate) fn i32_at(bytes: &[u8]) -> i32
    requires { 4 ≤ length bytes.now }
    ensures { result ≡ cast_signed w32 (le32_at bytes.now) }
{
    u32_at(bytes).cast_signed()
}

#[inline(always)]
pub(crate) fn i64_at(bytes: &[u8]) -> i64
    requires { 8 ≤ length bytes.now }
    ensures { result ≡ cast_signed w64 (le64_at bytes.now) }
{
    u64_at(bytes).cast_signed()
}

// The text of bytes that are known to be one, and are not tested again.
#[inline(always)]
fn known_text(bytes: &[u8]) -> &str
    requires { IsUtf8 bytes.now }
    ensures { result.now ≡ bytes.now }
{
    unsafe { str::from_utf8_unchecked(bytes) }
}

// The bytes, where they are a text.
#[inline(always)]
fn checked_text(bytes: &[u8]) -> Option<&str>
    ensures { option_map (λ s. s.now) result ≡ utf8_of bytes.now }
{
    str::from_utf8(bytes).ok()
}

// The bytes, where they are a text. ASCII is not tested again.
#[inline(always)]
fn looked_at_text(bytes: &[u8], is_ascii: bool) -> Option<&str>
    requires { IsTrue is_ascii → IsUtf8 bytes.now }
    ensures { option_map (λ s. s.now) result ≡ utf8_of bytes.now }
{
    if is_ascii {
        Some(known_text(bytes))
    } else {
        checked_text(bytes)
    }
}

// The text that a 0 ends, and the bytes behind it.
#[tactic(auto, unfolding(crate::specs::ReadView::ended_text))]
fn ended_text_of(bytes: &[u8]) -> Option<(&str, &[u8])>
    ensures { option_map (λ p. (p.0.now, p.1.now)) result ≡ ended_text bytes.now }
{
    let (text, behind, is_ascii) = cut_and_look(bytes)?;
    let text = looked_at_text(text, is_ascii)?;
    Some((text, behind))
}

// The number in front, and some more: how long a value is that its length begins.
#[inline(always)]
#[tactic(auto, unfolding(crate::specs::Reading::ahead))]
fn number_ahead(more: usize, bytes: &[u8]) -> Option<usize>
    requires { more < 1000 }
    ensures { result ≡ ahead more bytes.now }
{
    if bytes.len() < 4 {
        return None;
    }
    Some(u32_at(bytes) as usize + more)
}

// How long two texts are, each ended by a 0.
#[tactic(auto, unfolding(crate::specs::Reading::two_texts))]
fn two_texts_of(bytes: &[u8]) -> Option<usize>
    ensures { result ≡ two_texts bytes.now }
{
    let (first, behind) = cut_at_zero(bytes)?;
    let (second, _) = cut_at_zero(behind)?;
    Some(first.len() + second.len() + 2)
}

// How many bytes a value of the kind takes.
#[inline(always)]
fn extent_of(kind: Kind, bytes: &[u8]) -> Option<usize>
    ensures { result ≡ extent kind bytes.now }
{
    match kind {
        Kind::Undefined | Kind::Null | Kind::MinKey | Kind::MaxKey => Some(0),
        Kind::Boolean => Some(1),
        Kind::Int32 => Some(4),
        Kind::Double | Kind::DateTime | Kind::Timestamp | Kind::Int64 => Some(8),
        Kind::ObjectId => Some(12),
        Kind::Decimal128 => Some(16),
        Kind::String | Kind::Code | Kind::Symbol => number_ahead(4, bytes),
        Kind::Document | Kind::Array | Kind::CodeWithScope => number_ahead(0, bytes),
        Kind::Binary => number_ahead(5, bytes),
        Kind::DbPointer => number_ahead(16, bytes),
        Kind::Regex => two_texts_of(bytes),
    }
}

// The element of the kind and the name whose value the bytes begin with.
#[inline(always)]
fn element_before<'a>(kind: Kind, name: &'a str, bytes: &'a [u8]) -> Option<Element<'a>>
    ensures { option_map element_view result ≡ element_with kind name.now bytes.now }
{
    let len = extent_of(kind, bytes)?;
    if bytes.len() < len {
        return None;
    }
    let (value, rest) = bytes.split_at(len);
    Some(Element {
        name,
        value,
        rest,
        kind,
    })
}

// The element in front, whose value is not read yet.
#[inline(always)]
#[tactic(auto, unfolding(crate::specs::Reading::element_at))]
pub(crate) fn split_element(bytes: &[u8]) -> Option<Element<'_>>
    ensures { option_map element_view result ≡ element_at bytes.now }
{
    let (byte, behind) = match bytes {
        [] => return None,
        [byte, behind @ ..] => (*byte, behind),
    };
    let kind = Kind::from_byte(byte)?;
    let (name, after, is_ascii) = cut_and_look(behind)?;
    let name = looked_at_text(name, is_ascii)?;
    element_before(kind, name, after)
}

// The element in front of bytes that were checked before. Its name is not tested again.
#[inline(always)]
#[tactic(auto, unfolding(crate::specs::Reading::element_at))]
pub(crate) fn split_known(bytes: &[u8]) -> Option<Element<'_>>
    requires { AreFields bytes.now }
    ensures { option_map element_view result ≡ element_at bytes.now }
{
    let (byte, behind) = match bytes {
        [] => return None,
        [byte, behind @ ..] => (*byte, behind),
    };
    let kind = Kind::from_byte(byte)?;
    let (name, after) = cut_at_zero(behind)?;
    element_before(kind, known_text(name), after)
}

// The elements of a document, between its length and its last byte.
#[inline(always)]
#[tactic(auto, unfolding(crate::specs::Reading::body_at))]
pub(crate) fn body_of(bytes: &[u8]) -> Option<&[u8]>
    ensures { option_map (λ b. b.now) result ≡ body_at bytes.now }
{
    let len = bytes.len();
    if len < 5 {
        return None;
    }
    if len >= 0x8000_0000 {
        return None;
    }
    if u32_at(bytes) as usize != len {
        return None;
    }
    if bytes[len - 1] != 0 {
        return None;
    }
    Some(&bytes[4..len - 1])
}

#[inline(always)]
#[tactic(auto, unfolding(crate::specs::Reading::text_at))]
pub(crate) fn text_of(bytes: &[u8]) -> Option<&str>
    ensures { option_map (λ s. s.now) result ≡ text_at bytes.now }
{
    let len = bytes.len();
    if len < 5 {
        return None;
    }
    if u32_at(bytes) as usize + 4 != len {
        return None;
    }
    if bytes[len - 1] != 0 {
        return None;
    }
    checked_text(&bytes[4..len - 1])
}

// The text of bytes that were found to be one before, and are not tested again.
#[inline(always)]
#[tactic(auto, using(crate::proofs::Known::text_long))]
pub(crate) fn known_text_of(bytes: &[u8]) -> &str
    requires { is_some (text_at bytes.now) ≡ true }
    ensures { text_at bytes.now ≡ Some result.now }
{
    known_text(&bytes[4..bytes.len() - 1])
}

#[inline(always)]
pub(crate) fn boolean_of(bytes: &[u8]) -> Option<bool>
    ensures { option_map boolean result ≡ boolean_at bytes.now }
{
    match bytes {
        [0] => Some(false),
        [1] => Some(true),
        _ => None,
    }
}

#[inline(always)]
#[tactic(auto, unfolding(crate::specs::Reading::binary_at))]
pub(crate) fn binary_of(bytes: &[u8]) -> Option<(u8, &[u8])>
    ensures { option_map (λ p. binary p.0 p.1.now) result ≡ binary_at bytes.now }
{
    if bytes.len() < 5 {
        return None;
    }
    if u32_at(bytes) as usize + 5 != bytes.len() {
        return None;
    }
    let (head, rest) = bytes.split_at(5);
    Some((head[4], rest))
}

pub(crate) fn regex_of(bytes: &[u8]) -> Option<(&str, &str)>
    ensures { option_map (λ p. regex p.0.now p.1.now) result ≡ regex_at bytes.now }
{
    let (pattern, behind) = ended_text_of(bytes)?;
    let (options, rest) = ended_text_of(behind)?;
    if !rest.is_empty() {
        return None;
    }
    Some((pattern, options))
}

#[tactic(auto, unfolding(crate::specs::Reading::pointer_at))]
pub(crate) fn pointer_of(bytes: &[u8]) -> Option<(&str, &[u8])>
    ensures read { option_map (λ p. db_pointer p.0.now p.1.now) result ≡ pointer_at bytes.now }
    ensures id { IfSome result (λ p. length p.1.now ≡ 12) }
{
    if bytes.len() < 12 {
        return None;
    }
    let (front, id) = bytes.split_at(bytes.len() - 12);
    let namespace = text_of(front)?;
    Some((namespace, id))
}

#[tactic(auto, unfolding(crate::specs::Reading::text_and_rest))]
fn text_and_rest_of(bytes: &[u8]) -> Option<(&str, &[u8])>
    ensures { option_map (λ p. (p.0.now, p.1.now)) result ≡ text_and_rest bytes.now }
{
    let len = number_ahead(4, bytes)?;
    if bytes.len() < len {
        return None;
    }
    let (front, rest) = bytes.split_at(len);
    let text = text_of(front)?;
    Some((text, rest))
}

// The code, and the bytes of its scope.
#[tactic(auto, unfolding(crate::specs::Reading::scope_parts))]
pub(crate) fn scope_of(bytes: &[u8]) -> Option<(&str, &[u8])>
    ensures { option_map (λ p. (p.0.now, p.1.now)) result ≡ scope_parts bytes.now }
{
    if bytes.len() < 4 {
        return None;
    }
    if u32_at(bytes) as usize != bytes.len() {
        return None;
    }
    text_and_rest_of(&bytes[4..])
}

// The bytes as an array of just so many.
#[inline(always)]
pub(crate) fn array_of<const N: usize>(bytes: &[u8]) -> [u8; N]
    requires { length bytes.now ≡ N }
    ensures { result ≡ bytes.now }
{
    match <[u8; N]>::try_from(bytes) {
        Ok(array) => array,
        Err(_) => unreachable!(),
    }
}
