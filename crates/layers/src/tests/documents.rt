use super::{document_at, failed, json_value, one_field, owned, raw_at, shown, with};
use crate::parted;
use mg_bson::{Bson, DateTime, Document, ObjectId, RawDocument, RawValue, to_bytes};
use std::alloc::Global;
use std::process::Abort;

// A document, the reader and the name, and what it finds; without a name, what it lends of the value `x`; a document of plain
// values, its bytes, and the document changed in its place.
pub(super) const ROWS: &str =
    r#"read 10000000017800000000000000f03f00 double x~Ok([0, 0, 0, 0, 0, 0, 240, 63])
read 0f0000000278000300000068690000 str x~Ok("hi")
read 0d000000037800050000000000 document x~Ok(Document { fields: [] })
read 0d000000047800050000000000 array x~Ok(Array { items: [] })
read 0f0000000578000200000000010200 binary x~Ok(Binary { subtype: 0, bytes: [1, 2] })
read 140000000778000102030405060708090a0b0c00 object_id x~Ok(ObjectId([1, 2, 3, 4, 5, 6, 7, 8, 9, 10, 11, 12]))
read 090000000878000100 bool x~Ok(true)
read 10000000097800ffffffffffffffff00 datetime x~Ok(DateTime { millis: -1 })
read 0c0000001078000100000000 i32 x~Ok(1)
read 1000000011780001000000feffffff00 timestamp x~Ok(Timestamp { time: 4294967294, increment: 1 })
read 10000000127800fdffffffffffffff00 i64 x~Ok(-3)
read 18000000137800000102030405060708090a0b0c0d0e0f00 decimal128 x~Ok([0, 1, 2, 3, 4, 5, 6, 7, 8, 9, 10, 11, 12, 13, 14, 15])
read 080000000a780000 null x~true
read 0c0000001078000100000000 null x~false
read 080000000a780000 null y~false
read 0c0000001078000100000000 i64 x~Err(UnexpectedType)
read 0c0000001078000100000000 decimal128 x~Err(UnexpectedType)
read 080000000a780000 str x~Err(UnexpectedType)
read 10000000107800010000000878000100 bool x~Err(UnexpectedType)
read 0c0000001078000100000000 i32 y~Err(NotPresent)
read 0500000000 document x~Err(NotPresent)
read 10000000017800000000000000f03f00 double~Some([0, 0, 0, 0, 0, 0, 240, 63])
read 0f0000000578000200000000010200 binary~Some((0, [1, 2]))
read 140000000778000102030405060708090a0b0c00 object_id~Some(ObjectId([1, 2, 3, 4, 5, 6, 7, 8, 9, 10, 11, 12]))
read 18000000137800000102030405060708090a0b0c0d0e0f00 decimal128~Some([0, 1, 2, 3, 4, 5, 6, 7, 8, 9, 10, 11, 12, 13, 14, 15])
read 080000000a780000 null~true
read 0c0000001078000100000000 null~false
read 0c0000001078000100000000 decimal128~None
read 0c0000001078000100000000 double~None
read 0c0000001078000100000000 binary~None
read 0c0000001078000100000000 object_id~None
through document~n=Int32(7);a=Array(Array { items: [Boolean(true), Int64(-1)] });t=DateTime(DateTime { millis: 5 });a name of more than 23 bytes=ObjectId(ObjectId([1, 1, 1, 1, 1, 1, 1, 1, 1, 1, 1, 1]));Boolean(true);Int64(-1);
through bytes~n;a;t;a name of more than 23 bytes;Boolean(true);Int64(-1);
through changed~Ok(8) true"#;

// How what the reader finds prints.
fn found_by(
    rt: &impl Abort,
    alloc: Global,
    reader: &str,
    document: &Document,
    name: &str,
) -> String {
    match reader {
        "double" => shown(rt, alloc, &document.get_double(name)),
        "str" => shown(rt, alloc, &document.get_str(name)),
        "document" => shown(rt, alloc, &document.get_document(name)),
        "array" => shown(rt, alloc, &document.get_array(name)),
        "binary" => shown(rt, alloc, &document.get_binary(name)),
        "object_id" => shown(rt, alloc, &document.get_object_id(name)),
        "bool" => shown(rt, alloc, &document.get_bool(name)),
        "datetime" => shown(rt, alloc, &document.get_datetime(name)),
        "i32" => shown(rt, alloc, &document.get_i32(name)),
        "timestamp" => shown(rt, alloc, &document.get_timestamp(name)),
        "i64" => shown(rt, alloc, &document.get_i64(name)),
        "decimal128" => shown(rt, alloc, &document.get_decimal128(name)),
        "null" => shown(rt, alloc, &document.is_null(name)),
        _ => owned(rt, alloc, "no such reader"),
    }
}

// How what is lent of a value prints.
fn lent_by(rt: &impl Abort, alloc: Global, reader: &str, value: &RawValue<'_>) -> String {
    match reader {
        "double" => shown(rt, alloc, &value.as_double()),
        "binary" => shown(rt, alloc, &value.as_binary()),
        "object_id" => shown(rt, alloc, &value.as_object_id()),
        "decimal128" => shown(rt, alloc, &value.as_decimal128()),
        "null" => shown(rt, alloc, &value.is_null()),
        _ => owned(rt, alloc, "no such reader"),
    }
}

/// How what the reader finds of a name prints, or without a name what it lends of the value `x`.
pub(super) fn read(rt: &impl Abort, alloc: Global, line: &str) -> String {
    let (digits, rest) = parted(line);
    let (reader, name) = parted(rest);
    if !name.is_empty() {
        return match document_at(rt, alloc, digits) {
            Ok(document) => found_by(rt, alloc, reader, &document, name),
            Err(error) => failed(rt, alloc, error),
        };
    }
    let raw = raw_at(rt, alloc, digits);
    match raw.as_raw().get("x") {
        Some(value) => lent_by(rt, alloc, reader, &value),
        None => String::new(alloc),
    }
}

// A document of plain values.
fn plain(rt: &impl Abort, alloc: Global) -> Document {
    let list = json_value(rt, alloc, r#"[true,{"$int64":"-1"}]"#);
    let document = with(rt, one_field(rt, alloc, "n", Bson::from(7)), "a", list);
    let document = with(rt, document, "t", Bson::from(DateTime { millis: 5 }));
    let id = Bson::from(ObjectId([1; 12]));
    with(rt, document, "a name of more than 23 bytes", id)
}

// The names and values in order, and the values of the arrays among them.
fn listed(rt: &impl Abort, alloc: Global, document: &Document) -> String {
    let mut text = String::new(alloc);
    for (name, value) in document {
        write!(text, "{name}={value:?};").expect(rt, "memory");
    }
    if let Ok(items) = document.get_array("a") {
        for value in items {
            write!(text, "{value:?};").expect(rt, "memory");
        }
    }
    text
}

// The same of the bytes.
fn listed_raw(rt: &impl Abort, alloc: Global, document: &RawDocument<'_>) -> String {
    let mut text = String::new(alloc);
    for (name, _) in document {
        write!(text, "{name};").expect(rt, "memory");
    }
    if let Some(RawValue::Array(items)) = &document.get("a") {
        for value in items {
            write!(text, "{value:?};").expect(rt, "memory");
        }
    }
    text
}

// What is read of a name whose value was changed in its place, and whether a name that is absent has none.
fn changed(rt: &impl Abort, alloc: Global, document: &mut Document) -> String {
    if let Some(value) = document.get_mut("n") {
        *value = Bson::from(8);
    }
    let is_absent = document.get_mut("m").is_none();
    let mut text = shown(rt, alloc, &document.get_i32("n"));
    write!(text, " {is_absent}").expect(rt, "memory");
    text
}

/// What a document, or its bytes, hold in order, or what it holds where it was changed in its place.
pub(super) fn gone_through(rt: &impl Abort, alloc: Global, about: &str) -> String {
    let mut document = plain(rt, alloc);
    match about {
        "document" => listed(rt, alloc, &document),
        "bytes" => {
            let raw = to_bytes(alloc, &document).expect(rt, "memory");
            listed_raw(rt, alloc, &raw.as_raw())
        }
        _ => changed(rt, alloc, &mut document),
    }
}
