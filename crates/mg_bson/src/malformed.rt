//! Where bytes are no document, and why: a second look, at bytes that the check refuses.
ghost use Rattle.std.specs.Prelude.{◌≡◌, IfSome, MatchOption, None, is_some, true, false};
ghost use Rattle.mg_bson.specs.Malformed.{IsFaulty, IsMalformed};
ghost use Rattle.mg_bson.specs.Raw.{IsDocument};
ghost use Rattle.mg_bson.specs.Reading.{doc, doc_at, fields_at};

use crate::check::is_value;
use crate::limits::MAX_LEVELS;
use crate::read::{body_of, split_element};

/// Why bytes are no document.
///
///     if malformation.reason == MalformedReason::Frame { .. }
#[derive(Clone, Copy, Debug, PartialEq, Eq)]
pub enum MalformedReason {
    /// There are fewer than five bytes, or 2^31 and more; the length in front is not theirs; or the last is not 0.
    Frame,
    /// An element has no kind, no name that is a text, or fewer bytes than its value takes.
    Element,
    /// The bytes of an element's value are none of its kind, or hold too many levels.
    Value,
}

/// Where bytes are no document, and why.
///
///     match RawDocument::from_bytes(&bytes) {
///         Ok(raw) => ..,
///         Err(_) => Malformation::of(&bytes),
///     }
#[derive(Clone, Copy, Debug, PartialEq, Eq)]
pub struct Malformation {
    /// Where the first element of the document begins that is at fault, in bytes from its front; 0 for its frame.
    pub place: usize,
    /// What is wrong there.
    pub reason: MalformedReason,
}

impl Malformation {
    /// What is wrong with the bytes, and nothing where they are a document. A fault inside a value is told as one of the
    /// outermost value that holds it. It takes no memory.
    pub fn of(bytes: &[u8]) -> Option<Malformation>
        ensures found { MatchOption result (IsDocument bytes.now) (λ m. IsMalformed m.reason m.place bytes.now) }
        ensures refused { IfSome result (λ _. doc bytes.now ≡ None) }
    {
        match body_of(bytes) {
            None => Some(Malformation {
                place: 0,
                reason: MalformedReason::Frame,
            }),
            Some(body) => first_fault(body),
        }
    }
}

// The first element that is none, or whose value is none of its kind.
fn first_fault(body: &[u8]) -> Option<Malformation>
    ensures { MatchOption result (is_some (fields_at (doc_at 99) body.now) ≡ true)
        (λ m. IsFaulty m.reason m.place body.now × (is_some (fields_at (doc_at 99) body.now) ≡ false)) }
{
    let mut rest = body;
    while !rest.is_empty() {
        // The length of the document stands in front of its elements.
        let place = body.len() - rest.len() + 4;
        match split_element(rest) {
            None => {
                let reason = MalformedReason::Element;
                return Some(Malformation { place, reason });
            }
            Some(element) => {
                if !is_value(element.kind, element.value, MAX_LEVELS - 1) {
                    let reason = MalformedReason::Value;
                    return Some(Malformation { place, reason });
                }
                rest = element.rest;
            }
        }
    }
    None
}
