//! Where values lie in the bytes of a document.
ghost use Rattle.std.specs.Prelude.{◌≡◌, ◌≤◌, length, option_and_then, option_map, IfSome, is_some};
ghost use Rattle.mg_bson.specs.Raw.{AreFields, IsDocument, IsValue};
ghost use Rattle.mg_bson.specs.Reading.{body_at};
ghost use Rattle.mg_bson.specs.Spans.{array_inside, array_named, between, document_named, documents_left, value_named};

use crate::kind::Kind;
use crate::read::{body_of, split_known};

// A part of a document's bytes: from one place up to another.
#[derive(Clone, Copy, Debug, PartialEq, Eq)]
pub(crate) struct Span {
    pub(crate) from: usize,
    pub(crate) upto: usize,
}

// The first value of the name: where it lies, and its kind.
#[tactic(auto, unfolding(crate::specs::Spans::value_named))]
fn span_named(bytes: &[u8], name: &str) -> Option<(Span, Kind)>
    requires { IsDocument bytes.now }
    ensures value { option_map (λ r. record { kind = r.1; bytes = between r.0.from r.0.upto bytes.now }) result ≡ value_named name.now bytes.now }
    ensures read { IfSome result (λ r. IsValue (record { kind = r.1; bytes = between r.0.from r.0.upto bytes.now })) }
    ensures within { IfSome result (λ r. (r.0.from ≤ r.0.upto) × (r.0.upto ≤ length bytes.now)) }
{
    let mut left = body_of(bytes)?;
    while let Some(element) = split_known(left) {
        if element.name == name {
            let upto = bytes.len() - 1 - element.rest.len();
            let from = upto - element.value.len();
            return Some((Span { from, upto }, element.kind));
        }
        left = element.rest;
    }
    None
}

// The first value of the name, where it is a document.
fn document_span(bytes: &[u8], name: &str) -> Option<Span>
    requires { IsDocument bytes.now }
    ensures document { option_map (λ s. between s.from s.upto bytes.now) result ≡ document_named name.now bytes.now }
    ensures read { IfSome result (λ s. IsDocument (between s.from s.upto bytes.now)) }
    ensures within { IfSome result (λ s. (s.from ≤ s.upto) × (s.upto ≤ length bytes.now)) }
{
    let (span, kind) = span_named(bytes, name)?;
    match kind {
        Kind::Document => Some(span),
        _ => None,
    }
}

// The first value of the name, where it is an array.
fn array_span(bytes: &[u8], name: &str) -> Option<Span>
    requires { IsDocument bytes.now }
    ensures array { option_map (λ s. between s.from s.upto bytes.now) result ≡ array_named name.now bytes.now }
    ensures read { IfSome result (λ s. IsDocument (between s.from s.upto bytes.now)) }
    ensures within { IfSome result (λ s. (s.from ≤ s.upto) × (s.upto ≤ length bytes.now)) }
{
    let (span, kind) = span_named(bytes, name)?;
    match kind {
        Kind::Array => Some(span),
        _ => None,
    }
}

// The array of a name, inside the document of another name.
pub(crate) fn span_inside(bytes: &[u8], outer: &str, name: &str) -> Option<Span>
    requires { IsDocument bytes.now }
    ensures array { option_map (λ s. between s.from s.upto bytes.now) result ≡ array_inside outer.now name.now bytes.now }
    ensures read { IfSome result (λ s. IsDocument (between s.from s.upto bytes.now)) }
    ensures within { IfSome result (λ s. (s.from ≤ s.upto) × (s.upto ≤ length bytes.now)) }
{
    let document = document_span(bytes, outer)?;
    let array = array_span(&bytes[document.from..document.upto], name)?;
    Some(Span {
        from: document.from + array.from,
        upto: document.from + array.upto,
    })
}

// The elements of that array: all between its length and its last byte.
pub(crate) fn elements_inside(bytes: &[u8], outer: &str, name: &str) -> Option<Span>
    requires { IsDocument bytes.now }
    ensures elements { option_map (λ s. between s.from s.upto bytes.now) result ≡ option_and_then body_at (array_inside outer.now name.now bytes.now) }
    ensures fields { IfSome result (λ s. AreFields (between s.from s.upto bytes.now)) }
    ensures within { IfSome result (λ s. (s.from ≤ s.upto) × (s.upto ≤ length bytes.now)) }
{
    let array = span_inside(bytes, outer, name)?;
    Some(Span {
        from: array.from + 4,
        upto: array.upto - 1,
    })
}

// Whether each of the elements is a document.
#[tactic(auto, unfolding(crate::specs::Spans::documents_left))]
pub(crate) fn are_documents(elements: &[u8]) -> bool
    requires { AreFields elements.now }
    ensures { result ≡ is_some (documents_left elements.now) }
{
    let mut left = elements;
    while let Some(element) = split_known(left) {
        match element.kind {
            Kind::Document => left = element.rest,
            _ => return false,
        }
    }
    true
}
