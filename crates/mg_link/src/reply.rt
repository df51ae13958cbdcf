//! What replies to commands say.
ghost use Rattle.std.specs.Prelude.{◌≡◌, IfOk, map, string_bytes};
ghost use Rattle.mg_bson.specs.Raw.{fields, items};
ghost use Rattle.mg_bson.specs.RawView.{value};
ghost use Rattle.mg_link.specs.Reply.{code_of, labels_of, refusal_of, succeeds_if, text_at, texts_of, verdict_by, verdict_of};
ghost use Rattle.mg_link.specs.Failures.{ErrorTells};

use crate::error::{CommandError, Error, ErrorKind, OutOfMemory};
use crate::labels::Labels;
use mg_bson::{RawArray, RawDocument, RawValue};
use std::alloc::Global;

/// What a reply says of its command.
#[derive(Clone, Copy, Debug, PartialEq, Eq)]
pub enum Verdict {
    /// Its `ok` is 1: Int32 1, Int64 1 or the double 1.
    Success,
    /// Its `ok` is another Int32, Int64 or double.
    Refusal,
    /// It has no `ok`, or one of another kind.
    NoOk,
}

// The bytes of the double 1, the lowest first.
const ONE: [u8; 8] = [0, 0, 0, 0, 0, 0, 240, 63];

// What a value of `ok` says.
fn verdict_by(found: &RawValue<'_>) -> Verdict
    ensures { result ≡ verdict_by (value found.now) }
{
    match found {
        RawValue::Int32(n) => succeeds_if(*n == 1),
        RawValue::Int64(n) => succeeds_if(*n == 1),
        RawValue::Double(bits) => succeeds_if(*bits == ONE),
        _ => Verdict::NoOk,
    }
}

fn succeeds_if(yes: bool) -> Verdict
    ensures { result ≡ succeeds_if yes }
{
    if yes {
        Verdict::Success
    } else {
        Verdict::Refusal
    }
}

/// What the reply says of its command.
#[tactic(auto, unfolding(crate::specs::Reply::verdict_of))]
pub fn verdict_of(reply: &RawDocument<'_>) -> Verdict
    ensures { result ≡ verdict_of (fields reply.now) }
{
    match reply.get("ok") {
        Some(found) => verdict_by(&found),
        None => Verdict::NoOk,
    }
}

/// The code of a refusal, 0 where it has no Int32 of that name.
#[tactic(auto, unfolding(crate::specs::Reply::code_of))]
pub fn code_of(reply: &RawDocument<'_>) -> i32
    ensures { result ≡ code_of (fields reply.now) }
{
    match reply.get("code") {
        Some(found) => found.as_i32().unwrap_or(0),
        None => 0,
    }
}

// The text of this name, or an empty one.
fn text_at(alloc: Global, reply: &RawDocument<'_>, name: &str) -> Result<String, OutOfMemory>
    ensures { IfOk result (λ text. string_bytes text ≡ text_at name.now (fields reply.now)) }
{
    let text = match reply.get(name) {
        Some(found) => found.as_str().unwrap_or(""),
        None => "",
    };
    Ok(String::from_str(alloc, text)?)
}

// The texts among the items.
fn texts_of(alloc: Global, list: &RawArray<'_>) -> Result<Vec<String>, OutOfMemory>
    ensures { IfOk result (λ texts. map string_bytes texts.items ≡ texts_of (items list.now)) }
{
    let mut texts = Vec::new(alloc);
    let mut left = list.iter();
    'items: while let Some(found) = left.next() {
        if let Some(text) = found.as_str() {
            texts.push(String::from_str(alloc, text)?)?;
        }
    }
    Ok(texts)
}

// The labels of a refusal.
#[tactic(auto, unfolding(crate::specs::Reply::labels_of))]
fn labels_of(alloc: Global, reply: &RawDocument<'_>) -> Result<Labels, OutOfMemory>
    ensures { IfOk result (λ labels. labels ≡ labels_of (fields reply.now)) }
{
    let list = match reply.get("errorLabels") {
        Some(found) => found.as_array(),
        None => None,
    };
    match list {
        Some(list) => Ok(Labels::from_vec(texts_of(alloc, &list)?)),
        None => Ok(Labels::none()),
    }
}

/// The error of a reply that refuses, over a link of this wire version: its code, name, message and labels. An error of
/// this call itself comes only for want of memory.
#[tactic(auto, unfolding(crate::specs::Reply::refusal_of))]
pub fn refusal(alloc: Global, reply: &RawDocument<'_>, wire: i32) -> Result<Error, OutOfMemory>
    ensures { IfOk result (λ e. ErrorTells (refusal_of (fields reply.now)) wire e) }
{
    let code_name = text_at(alloc, reply, "codeName")?;
    let message = text_at(alloc, reply, "errmsg")?;
    let labels = labels_of(alloc, reply)?;
    let refusal = CommandError {
        code: code_of(reply),
        code_name,
        message,
    };
    Ok(Error {
        kind: ErrorKind::Command(refusal),
        labels,
        wire_version: Some(wire),
    })
}
