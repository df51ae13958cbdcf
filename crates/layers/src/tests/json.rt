use super::raw_at;
use mg_json::value_text;
use std::alloc::Global;
use std::process::Abort;

// A document for each kind, a row each: its bytes, and its value of the name `x` as JSON.
pub(super) const ROWS: &str =
    r#"json 10000000017800000000000000f03f00~{"$double":"000000000000f03f"}
json 0800000006780000~{"$undefined":true}
json 14000000077800000102030405060708090aff00~{"$oid":"000102030405060708090aff"}
json 090000000878000000~false
json 10000000097800ffffffffffffffff00~{"$date":-1}
json 080000000a780000~null
json 0c000000107800f9ffffff00~-7
json 10000000117800ffffffff0100000000~{"$timestamp":{"i":4294967295,"t":1}}
json 10000000127800000000000000008000~{"$int64":"-9223372036854775808"}
json 180000001378001010101010101010101010101010101000~{"$decimal":"10101010101010101010101010101010"}
json 08000000ff780000~{"$minKey":true}
json 080000007f780000~{"$maxKey":true}
json 100000000278000400000061220a0000~"a\"\n"
json 0f00000005780002000000000aff00~{"$bytes":"0aff"}
json 0f00000005780002000000050aff00~{"$binary":{"bytes":"0aff","subtype":5}}
json 0d0000000b78005e6100690000~{"$regex":{"options":"i","pattern":"^a"}}
json 1e0000000c7800060000006170702e6300000102030405060708090aff00~{"$dbPointer":{"id":"000102030405060708090aff","ref":"app.c"}}
json 100000000d7800040000006628290000~{"$code":"f()"}
json 0e0000000e780002000000730000~{"$symbol":"s"}
json 220000000378001a0000001062000100000010610002000000106100030000000000~{"a":3,"b":1}
json 2d000000047800250000000a30000331001a000000106200010000001061000200000010610003000000000000~[null,{"a":3,"b":1}]
json 2e0000000f78002600000004000000662829001a0000001062000100000010610002000000106100030000000000~{"$codeScope":{"code":"f()","scope":{"a":3,"b":1}}}"#;

/// The JSON of the value of the name `x` of a document.
pub(super) fn json(rt: &impl Abort, alloc: Global, digits: &str) -> String {
    let raw = raw_at(rt, alloc, digits);
    match raw.as_raw().get("x") {
        Some(value) => {
            let value = value.to_value(alloc).expect(rt, "memory");
            value_text(alloc, &value).expect(rt, "memory")
        }
        None => String::new(alloc),
    }
}
