use super::{owned, raw_at, written};
use mg_bson::RawDocuments;
use std::alloc::Global;
use std::process::Abort;

// A document each, and behind it the documents of the array `b` inside its document `a`, in hexadecimal digits: a point stands
// behind the last one. None are those of another value, or of an array with another value.
pub(super) const ROWS: &str =
    r#"walk 2700000010620007000000036100100000000a6300046200050000000000036100050000000000
walk 2f00000010620007000000036100180000000a63000462000d00000003300005000000000000036100050000000000~0500000000.
walk 4900000010620007000000036100320000000a6300046200270000000330000c00000010780001000000000331000500000000033200080000000a7900000000036100050000000000~0c0000001078000100000000 0500000000 080000000a790000.
walk 3900000010620007000000036100220000000a6300046200170000000330000c00000010780001000000000a31000000036100050000000000~none
walk 150000000361000d00000003620005000000000000~none
walk 0d000000046100050000000000~none
walk 0500000000~none"#;

/// The documents in order. Behind the last one no more come.
pub(super) fn walk(rt: &impl Abort, alloc: Global, digits: &str) -> String {
    let Some(documents) = RawDocuments::new(raw_at(rt, alloc, digits), "a", "b") else {
        return owned(rt, alloc, "none");
    };
    let mut documents = documents;
    let mut text = String::new(alloc);
    for _ in 0..9 {
        if !documents.advance() {
            break;
        }
        if let Some(document) = documents.current() {
            let digits = written(rt, hex::encode(alloc, document.as_bytes()));
            let end = if documents.is_last() { "." } else { " " };
            write!(text, "{digits}{end}").expect(rt, "memory");
        }
    }
    if documents.advance() || documents.current().is_some() {
        text.push_str(" and more").expect(rt, "memory");
    }
    text
}
