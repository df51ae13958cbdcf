//! Whether bytes are a document.
ghost use Rattle.std.specs.Prelude.{◌≡◌, is_some};
ghost use Rattle.mg_bson.specs.Reading.{fields_at, value_at, doc_at};

use crate::kind::Kind;
use crate::read::{
    binary_of, body_of, boolean_of, pointer_of, regex_of, scope_of, split_element, text_of,
};

// Whether the bytes are a document of at most so many levels. A recursion of 100 levels needs no
// memory but the stack.
#[cycle(check)]
pub(crate) fn is_document(bytes: &[u8], levels: u32) -> bool
    ensures { result ≡ is_some (doc_at levels bytes.now) }
{
    if levels == 0 {
        return false;
    }
    match body_of(bytes) {
        None => false,
        Some(body) => are_fields(body, levels - 1),
    }
}

// Whether the bytes are elements, inside which there are at most so many levels.
#[cycle(check)]
fn are_fields(bytes: &[u8], levels: u32) -> bool
    ensures { result ≡ is_some (fields_at (doc_at levels) bytes.now) }
{
    let mut rest = bytes;
    while !rest.is_empty() {
        match split_element(rest) {
            None => return false,
            Some(element) => {
                if !is_value(element.kind, element.value, levels) {
                    return false;
                }
                rest = element.rest;
            }
        }
    }
    true
}

// Whether the bytes are one value of the kind.
#[cycle(check)]
pub(crate) fn is_value(kind: Kind, bytes: &[u8], levels: u32) -> bool
    ensures { result ≡ is_some (value_at (doc_at levels) kind bytes.now) }
{
    match kind {
        Kind::Double | Kind::DateTime | Kind::Timestamp | Kind::Int64 => bytes.len() == 8,
        Kind::String | Kind::Code | Kind::Symbol => text_of(bytes).is_some(),
        Kind::Document | Kind::Array => is_document(bytes, levels),
        Kind::Binary => binary_of(bytes).is_some(),
        Kind::Undefined | Kind::Null | Kind::MinKey | Kind::MaxKey => bytes.is_empty(),
        Kind::ObjectId => bytes.len() == 12,
        Kind::Boolean => boolean_of(bytes).is_some(),
        Kind::Regex => regex_of(bytes).is_some(),
        Kind::DbPointer => pointer_of(bytes).is_some(),
        Kind::CodeWithScope => match scope_of(bytes) {
            None => false,
            Some((_, scope)) => is_document(scope, levels),
        },
        Kind::Int32 => bytes.len() == 4,
        Kind::Decimal128 => bytes.len() == 16,
    }
}
