use super::{
    bytes_at, copied, document_at, failed, json_value, one_field, owned, shown, with, written,
};
use crate::parted;
use mg_bson::{
    Binary, Bson, BsonError, Document, Malformation, ObjectId, RawDocument, RawDocumentBuf,
    RawValue, Regex, to_bytes,
};
use std::alloc::Global;
use std::process::Abort;

// A vector is the bytes of a document of each kind, and how its value of the name `x` prints. A renamed one is an array whose
// names are no numbers in order, and what is written in its place. Bytes that are refused are no document, and behind them
// stands why. A fault is the place and the reason of the first fault of bytes; one inside a value is one of the outermost value
// that holds it. A letter is a document of a name of 15 to 17 or 31 to 33 bytes, in two parts: between these its one letter of
// two bytes is left out. An id is a text, and the object id that it is, with its digits and as it prints. A sample is what comes
// of changes or copies of a document.
pub(super) const ROWS: &str = r#"vector 0500000000~None
vector 10000000017800000000000000f03f00~Some(Double([0, 0, 0, 0, 0, 0, 240, 63]))
vector 0d000000027800010000000000~Some(String(""))
vector 0f0000000278000300000068690000~Some(String("hi"))
vector 160000000278000a000000c3a9e29883f09f98800000~Some(String("é☃😀"))
vector 10000000027800040000006100620000~Some(String("a\0b"))
vector 0d000000037800050000000000~Some(Document(Document { fields: [] }))
vector 1100000003780009000000087900010000~Some(Document(Document { fields: [Field { name: "y", value: Boolean(true) }] }))
vector 0d000000047800050000000000~Some(Array(Array { items: [] }))
vector 170000000478000f0000000a3000103100010000000000~Some(Array(Array { items: [Null, Int32(1)] }))
vector 0d000000057800000000000000~Some(Binary(Binary { subtype: 0, bytes: [] }))
vector 0f0000000578000200000000010200~Some(Binary(Binary { subtype: 0, bytes: [1, 2] }))
vector 13000000057800060000000202000000010200~Some(Binary(Binary { subtype: 2, bytes: [2, 0, 0, 0, 1, 2] }))
vector 120000000578000500000002090000000100~Some(Binary(Binary { subtype: 2, bytes: [9, 0, 0, 0, 1] }))
vector 0e00000005780001000000ff0700~Some(Binary(Binary { subtype: 255, bytes: [7] }))
vector 0800000006780000~Some(Undefined)
vector 140000000778000102030405060708090a0b0c00~Some(ObjectId(ObjectId([1, 2, 3, 4, 5, 6, 7, 8, 9, 10, 11, 12])))
vector 090000000878000000~Some(Boolean(false))
vector 090000000878000100~Some(Boolean(true))
vector 10000000097800ffffffffffffffff00~Some(DateTime(DateTime { millis: -1 }))
vector 080000000a780000~Some(Null)
vector 0a0000000b7800000000~Some(Regex(Regex { pattern: "", options: "" }))
vector 0e0000000b7800c3a900696d0000~Some(Regex(Regex { pattern: "é", options: "im" }))
vector 1b0000000c7800030000006200000102030405060708090a0b0c00~Some(DbPointer(DbPointer { namespace: "b\0", id: ObjectId([1, 2, 3, 4, 5, 6, 7, 8, 9, 10, 11, 12]) }))
vector 0f0000000d78000300000066000000~Some(Code("f\0"))
vector 0f0000000e78000300000073000000~Some(Symbol("s\0"))
vector 180000000f78001000000003000000660000050000000000~Some(CodeWithScope(CodeWithScope { code: "f\0", scope: Document { fields: [] } }))
vector 190000000f7800110000000100000000080000000a79000000~Some(CodeWithScope(CodeWithScope { code: "", scope: Document { fields: [Field { name: "y", value: Null }] } }))
vector 0c0000001078000100000000~Some(Int32(1))
vector 0c0000001078000000008000~Some(Int32(-2147483648))
vector 1000000011780001000000feffffff00~Some(Timestamp(Timestamp { time: 4294967294, increment: 1 }))
vector 10000000127800000000000001000000~Some(Int64(1099511627776))
vector 10000000127800fdffffffffffffff00~Some(Int64(-3))
vector 180000001378000000000000000000000000000000403000~Some(Decimal128([0, 0, 0, 0, 0, 0, 0, 0, 0, 0, 0, 0, 0, 0, 64, 48]))
vector 08000000ff780000~Some(MinKey)
vector 080000007f780000~Some(MaxKey)
vector 10000000107800010000000878000100~Some(Int32(1))
vector 0b0000000a0006c3a90000~None
renamed 130000000478000b0000000a37000a61000000 130000000478000b0000000a30000a31000000
renamed 140000000478000c0000000a000a000a30000000 160000000478000e0000000a30000a31000a32000000
renamed 150000000478000d0000000ac3a9000a3031000000 130000000478000b0000000a30000a31000000
refused 04000000 a length and no end
refused  no bytes
refused 0000000000 a length of 0
refused 0400000000 a length one too small
refused 0600000000 a length one too large
refused ffffffff00 a length below 0
refused 0500008000 a length whose top bit is set
refused 0500000001 an end that is not 0
refused 050000000000 a byte after the end
refused 0c00000010780001000000 the end missing
refused 0b00000010780001000000 the end missing, and the length too
refused 0b0000001078000100000000 the length of a fuller document one too small
refused 0d0000001078000100000000 the length of a fuller document one too large
refused 0800000000780000 the kind 0, which is none
refused 0800000014780000 the kind 20, which is none
refused 0800000020780000 the kind 32, which is none
refused 080000007e780000 the kind 126, which is none
refused 0800000080780000 the kind 128, which is none
refused 08000000fe780000 the kind 254, which is none
refused 080000000a787800 a name without its 0
refused 080000000aff0000 a name with a byte that begins no character
refused 080000000a800000 a name with a byte that only follows
refused 080000000ac30000 a name with a character cut short
refused 090000000ac0800000 a name with a 0 in two bytes
refused 0a0000000aeda0800000 a name with a surrogate
refused 0b0000000af49080800000 a name with a character too high
refused 0f0000000178000101010101010100 one byte too few of a floating point number
refused 1100000001780001010101010101010000 one byte too many of a floating point number
refused 13000000077800010101010101010101010100 one byte too few of a object id
refused 150000000778000101010101010101010101010000 one byte too many of a object id
refused 0f0000000978000101010101010100 one byte too few of a time in milliseconds
refused 1100000009780001010101010101010000 one byte too many of a time in milliseconds
refused 0b00000010780001010100 one byte too few of a number of 32 bits
refused 0d000000107800010101010000 one byte too many of a number of 32 bits
refused 0f0000001178000101010101010100 one byte too few of a time of the log
refused 1100000011780001010101010101010000 one byte too many of a time of the log
refused 0f0000001278000101010101010100 one byte too few of a number of 64 bits
refused 1100000012780001010101010101010000 one byte too many of a number of 64 bits
refused 1700000013780001010101010101010101010101010100 one byte too few of a decimal
refused 19000000137800010101010101010101010101010101010000 one byte too many of a decimal
refused 090000000678000000 a byte behind undefined
refused 090000000a78000000 a byte behind null
refused 09000000ff78000000 a byte behind the least key
refused 090000007f78000000 a byte behind the greatest key
refused 0800000008780000 a boolean without its byte
refused 090000000878000200 a boolean of 2
refused 09000000087800ff00 a boolean of 255
refused 0f0000000278000200000068690000 the length of a string one too small
refused 0f0000000278000400000068690000 the length of a string one too large
refused 0f0000000278000000000068690000 the length of a string of 0
refused 0f000000027800ffffffff68690000 the length of a string below 0
refused 0f000000027800ffffff7f68690000 the length of a string of all bits but one
refused 0f0000000278000300000068690100 a string without its 0
refused 0f00000002780003000000c3280000 a string that is not UTF-8
refused 0e00000002780002000000c30000 a string that ends in a character
refused 0f0000000d78000200000068690000 the length of a code one too small
refused 0f0000000d78000400000068690000 the length of a code one too large
refused 0f0000000d78000000000068690000 the length of a code of 0
refused 0f0000000d7800ffffffff68690000 the length of a code below 0
refused 0f0000000d7800ffffff7f68690000 the length of a code of all bits but one
refused 0f0000000d78000300000068690100 a code without its 0
refused 0f0000000d780003000000c3280000 a code that is not UTF-8
refused 0e0000000d780002000000c30000 a code that ends in a character
refused 0f0000000e78000200000068690000 the length of a symbol one too small
refused 0f0000000e78000400000068690000 the length of a symbol one too large
refused 0f0000000e78000000000068690000 the length of a symbol of 0
refused 0f0000000e7800ffffffff68690000 the length of a symbol below 0
refused 0f0000000e7800ffffff7f68690000 the length of a symbol of all bits but one
refused 0f0000000e78000300000068690100 a symbol without its 0
refused 0f0000000e780003000000c3280000 a symbol that is not UTF-8
refused 0e0000000e780002000000c30000 a symbol that ends in a character
refused 1b0000000c7800020000006869000102030405060708090a0b0c00 the length of a namespace one too small
refused 1b0000000c7800040000006869000102030405060708090a0b0c00 the length of a namespace one too large
refused 1b0000000c7800000000006869000102030405060708090a0b0c00 the length of a namespace of 0
refused 1b0000000c7800ffffffff6869000102030405060708090a0b0c00 the length of a namespace below 0
refused 1b0000000c7800ffffff7f6869000102030405060708090a0b0c00 the length of a namespace of all bits but one
refused 1b0000000c7800030000006869010102030405060708090a0b0c00 a namespace without its 0
refused 1b0000000c780003000000c328000102030405060708090a0b0c00 a namespace that is not UTF-8
refused 1a0000000c780002000000c3000102030405060708090a0b0c00 a namespace that ends in a character
refused 190000000c78000200000062000102030405060708090a0b00 one byte too few of a pointer's id
refused 1b0000000c78000200000062000102030405060708090a0b0c0100 one byte too many of a pointer's id
refused 1100000003780008000000083000010000 the length of an inner document one too small
refused 110000000378000a000000083000010000 the length of an inner document one too large
refused 1100000003780004000000083000010000 the length of an inner document below all bytes
refused 1100000003780000000000083000010000 the length of an inner document of 0
refused 11000000037800ffffffff083000010000 the length of an inner document below 0
refused 1100000003780009000000083000010100 an inner document whose end is not 0
refused 10000000037800080000000aff000000 a name that is not UTF-8 in an inner document
refused 160000000378000e00000002300002000000ff000000 a text that is not UTF-8 in an inner document
refused 1100000003780009000000083000020000 a boolean of 2 in an inner document
refused 1100000004780008000000083000010000 the length of an inner array one too small
refused 110000000478000a000000083000010000 the length of an inner array one too large
refused 1100000004780004000000083000010000 the length of an inner array below all bytes
refused 1100000004780000000000083000010000 the length of an inner array of 0
refused 11000000047800ffffffff083000010000 the length of an inner array below 0
refused 1100000004780009000000083000010100 an inner array whose end is not 0
refused 10000000047800080000000aff000000 a name that is not UTF-8 in an inner array
refused 160000000478000e00000002300002000000ff000000 a text that is not UTF-8 in an inner array
refused 1100000004780009000000083000020000 a boolean of 2 in an inner array
refused 0f0000000578000100000000010200 the length of a binary one too small
refused 0f0000000578000300000000010200 the length of a binary one too large
refused 0f000000057800ffffffff00010200 the length of a binary below 0
refused 0f000000057800fcffffff00010200 the length of a binary that makes the value one byte long
refused 0f000000057800fbffffff00010200 the length of a binary that makes the value empty
refused 0c0000000578000000000000 a binary without its subtype
refused 0c0000000b7800ff00690000 a pattern that is not UTF-8
refused 0c0000000b78006100ff0000 options that are not UTF-8
refused 090000000b78006100 a pattern and no options
refused 0a0000000b7800610000 a pattern, and options that only the end ends
refused 0e0000000b7800610069006a0000 a regular expression of three texts
refused 1a0000000f780011000000020000006600080000000a79000000 the length of a code with scope one too small
refused 1a0000000f780013000000020000006600080000000a79000000 the length of a code with scope one too large
refused 1a0000000f780003000000020000006600080000000a79000000 the length of a code with scope below its own
refused 1a0000000f780000000000020000006600080000000a79000000 the length of a code with scope of 0
refused 1a0000000f7800ffffffff020000006600080000000a79000000 the length of a code with scope below 0
refused 1a0000000f780012000000010000006600080000000a79000000 the length of its code one too small
refused 1a0000000f780012000000030000006600080000000a79000000 the length of its code one too large
refused 1a0000000f780012000000000000006600080000000a79000000 the length of its code of 0
refused 1a0000000f780012000000ffffffff6600080000000a79000000 the length of its code below 0
refused 1a0000000f780012000000020000006601080000000a79000000 its code without its 0
refused 1a0000000f78001200000002000000ff00080000000a79000000 its code not UTF-8
refused 1a0000000f780012000000020000006600070000000a79000000 the length of its scope one too small
refused 1a0000000f780012000000020000006600090000000a79000000 the length of its scope one too large
refused 1a0000000f780012000000020000006600ffffffff0a79000000 the length of its scope below 0
refused 1a0000000f780012000000020000006600080000000a79000100 its scope whose end is not 0
refused 1a0000000f780012000000020000006600080000000aff000000 a name of its scope not UTF-8
refused 200000000f7800180000000200000066000e00000002790002000000ff000000 a text of its scope not UTF-8
refused 120000000f78000a00000002000000660000 no scope
refused 1b0000000f780013000000020000006600080000000a7900000000 a byte behind its scope
fault 0500000000 no elements~None
fault 170000000a61000362000c000000106300010000000000 two elements~None
fault  no bytes~0:Frame
fault 05000000 a length and no end~0:Frame
fault 0600000000 a length one too large~0:Frame
fault 070000000a610000 a length one too small~0:Frame
fault 050000000000 a byte behind the end~0:Frame
fault 080000000a610001 a last byte that is not 0~0:Frame
fault 0a0000000861000200 a wrong length before a boolean of 2~0:Frame
fault 0800000014610000 a kind that there is not~4:Element
fault 080000000a616100 a name without its 0~4:Element
fault 080000000aff0000 a name that is not UTF-8~4:Element
fault 0b00000010610001000000 a number cut short~4:Element
fault 0f0000000261000400000068690000 a text that ends behind the document~4:Element
fault 0d000000036100060000000000 a document that ends behind the one around it~4:Element
fault 0b0000000b610062006300 options without their 0~4:Element
fault 090000000861000200 a boolean of 2~4:Value
fault 0e00000002610002000000ff0000 a text that is not UTF-8~4:Value
fault 0f0000000261000200000068690000 a text that its length ends too early~4:Value
fault 10000000036100080000000a62000100 an inner document whose end is not 0~4:Value
fault 0c0000000a61000862000200 a boolean of 2 in the second element~7:Value
fault 10000000106263000100000014620000 a kind that there is not in the second element~12:Element
fault 130000000a610010626300010000000aff0000 a name that is not UTF-8 in the third element~15:Element
fault 1800000010626300010000000ac3a9001062630001000000 a number cut short in the third element~16:Element
fault 0f0000000a61000862000214630000 a boolean of 2 before a kind that there is not~7:Value
fault 0f0000000a61001462000863000200 a kind that there is not before a boolean of 2~7:Element
fault 0d000000106100010000000000 a number one byte too long~11:Element
fault 220000000a6100036200170000000a61000363000c0000000a610008640002000000 a boolean of 2 two levels down~7:Value
fault 1b00000010626300010000000462000b0000000a30001431000000 a kind that there is not in an array~12:Value
fault 250000000a610010626300010000000f620012000000020000006600080000000aff000000 a name that is not UTF-8 in a scope~15:Value
letter 160000000a 6e6e6e6e6e6e6e6e6e6e6e6e6e0000
letter 160000000a6e 6e6e6e6e6e6e6e6e6e6e6e6e0000
letter 160000000a6e6e 6e6e6e6e6e6e6e6e6e6e6e0000
letter 160000000a6e6e6e 6e6e6e6e6e6e6e6e6e6e0000
letter 160000000a6e6e6e6e 6e6e6e6e6e6e6e6e6e0000
letter 160000000a6e6e6e6e6e 6e6e6e6e6e6e6e6e0000
letter 160000000a6e6e6e6e6e6e 6e6e6e6e6e6e6e0000
letter 160000000a6e6e6e6e6e6e6e 6e6e6e6e6e6e0000
letter 160000000a6e6e6e6e6e6e6e6e 6e6e6e6e6e0000
letter 160000000a6e6e6e6e6e6e6e6e6e 6e6e6e6e0000
letter 160000000a6e6e6e6e6e6e6e6e6e6e 6e6e6e0000
letter 160000000a6e6e6e6e6e6e6e6e6e6e6e 6e6e0000
letter 160000000a6e6e6e6e6e6e6e6e6e6e6e6e 6e0000
letter 160000000a6e6e6e6e6e6e6e6e6e6e6e6e6e 0000
letter 170000000a 6e6e6e6e6e6e6e6e6e6e6e6e6e6e0000
letter 170000000a6e 6e6e6e6e6e6e6e6e6e6e6e6e6e0000
letter 170000000a6e6e 6e6e6e6e6e6e6e6e6e6e6e6e0000
letter 170000000a6e6e6e 6e6e6e6e6e6e6e6e6e6e6e0000
letter 170000000a6e6e6e6e 6e6e6e6e6e6e6e6e6e6e0000
letter 170000000a6e6e6e6e6e 6e6e6e6e6e6e6e6e6e0000
letter 170000000a6e6e6e6e6e6e 6e6e6e6e6e6e6e6e0000
letter 170000000a6e6e6e6e6e6e6e 6e6e6e6e6e6e6e0000
letter 170000000a6e6e6e6e6e6e6e6e 6e6e6e6e6e6e0000
letter 170000000a6e6e6e6e6e6e6e6e6e 6e6e6e6e6e0000
letter 170000000a6e6e6e6e6e6e6e6e6e6e 6e6e6e6e0000
letter 170000000a6e6e6e6e6e6e6e6e6e6e6e 6e6e6e0000
letter 170000000a6e6e6e6e6e6e6e6e6e6e6e6e 6e6e0000
letter 170000000a6e6e6e6e6e6e6e6e6e6e6e6e6e 6e0000
letter 170000000a6e6e6e6e6e6e6e6e6e6e6e6e6e6e 0000
letter 180000000a 6e6e6e6e6e6e6e6e6e6e6e6e6e6e6e0000
letter 180000000a6e 6e6e6e6e6e6e6e6e6e6e6e6e6e6e0000
letter 180000000a6e6e 6e6e6e6e6e6e6e6e6e6e6e6e6e0000
letter 180000000a6e6e6e 6e6e6e6e6e6e6e6e6e6e6e6e0000
letter 180000000a6e6e6e6e 6e6e6e6e6e6e6e6e6e6e6e0000
letter 180000000a6e6e6e6e6e 6e6e6e6e6e6e6e6e6e6e0000
letter 180000000a6e6e6e6e6e6e 6e6e6e6e6e6e6e6e6e0000
letter 180000000a6e6e6e6e6e6e6e 6e6e6e6e6e6e6e6e0000
letter 180000000a6e6e6e6e6e6e6e6e 6e6e6e6e6e6e6e0000
letter 180000000a6e6e6e6e6e6e6e6e6e 6e6e6e6e6e6e0000
letter 180000000a6e6e6e6e6e6e6e6e6e6e 6e6e6e6e6e0000
letter 180000000a6e6e6e6e6e6e6e6e6e6e6e 6e6e6e6e0000
letter 180000000a6e6e6e6e6e6e6e6e6e6e6e6e 6e6e6e0000
letter 180000000a6e6e6e6e6e6e6e6e6e6e6e6e6e 6e6e0000
letter 180000000a6e6e6e6e6e6e6e6e6e6e6e6e6e6e 6e0000
letter 180000000a6e6e6e6e6e6e6e6e6e6e6e6e6e6e6e 0000
letter 260000000a 6e6e6e6e6e6e6e6e6e6e6e6e6e6e6e6e6e6e6e6e6e6e6e6e6e6e6e6e6e0000
letter 260000000a6e 6e6e6e6e6e6e6e6e6e6e6e6e6e6e6e6e6e6e6e6e6e6e6e6e6e6e6e6e0000
letter 260000000a6e6e 6e6e6e6e6e6e6e6e6e6e6e6e6e6e6e6e6e6e6e6e6e6e6e6e6e6e6e0000
letter 260000000a6e6e6e 6e6e6e6e6e6e6e6e6e6e6e6e6e6e6e6e6e6e6e6e6e6e6e6e6e6e0000
letter 260000000a6e6e6e6e 6e6e6e6e6e6e6e6e6e6e6e6e6e6e6e6e6e6e6e6e6e6e6e6e6e0000
letter 260000000a6e6e6e6e6e 6e6e6e6e6e6e6e6e6e6e6e6e6e6e6e6e6e6e6e6e6e6e6e6e0000
letter 260000000a6e6e6e6e6e6e 6e6e6e6e6e6e6e6e6e6e6e6e6e6e6e6e6e6e6e6e6e6e6e0000
letter 260000000a6e6e6e6e6e6e6e 6e6e6e6e6e6e6e6e6e6e6e6e6e6e6e6e6e6e6e6e6e6e0000
letter 260000000a6e6e6e6e6e6e6e6e 6e6e6e6e6e6e6e6e6e6e6e6e6e6e6e6e6e6e6e6e6e0000
letter 260000000a6e6e6e6e6e6e6e6e6e 6e6e6e6e6e6e6e6e6e6e6e6e6e6e6e6e6e6e6e6e0000
letter 260000000a6e6e6e6e6e6e6e6e6e6e 6e6e6e6e6e6e6e6e6e6e6e6e6e6e6e6e6e6e6e0000
letter 260000000a6e6e6e6e6e6e6e6e6e6e6e 6e6e6e6e6e6e6e6e6e6e6e6e6e6e6e6e6e6e0000
letter 260000000a6e6e6e6e6e6e6e6e6e6e6e6e 6e6e6e6e6e6e6e6e6e6e6e6e6e6e6e6e6e0000
letter 260000000a6e6e6e6e6e6e6e6e6e6e6e6e6e 6e6e6e6e6e6e6e6e6e6e6e6e6e6e6e6e0000
letter 260000000a6e6e6e6e6e6e6e6e6e6e6e6e6e6e 6e6e6e6e6e6e6e6e6e6e6e6e6e6e6e0000
letter 260000000a6e6e6e6e6e6e6e6e6e6e6e6e6e6e6e 6e6e6e6e6e6e6e6e6e6e6e6e6e6e0000
letter 260000000a6e6e6e6e6e6e6e6e6e6e6e6e6e6e6e6e 6e6e6e6e6e6e6e6e6e6e6e6e6e0000
letter 260000000a6e6e6e6e6e6e6e6e6e6e6e6e6e6e6e6e6e 6e6e6e6e6e6e6e6e6e6e6e6e0000
letter 260000000a6e6e6e6e6e6e6e6e6e6e6e6e6e6e6e6e6e6e 6e6e6e6e6e6e6e6e6e6e6e0000
letter 260000000a6e6e6e6e6e6e6e6e6e6e6e6e6e6e6e6e6e6e6e 6e6e6e6e6e6e6e6e6e6e0000
letter 260000000a6e6e6e6e6e6e6e6e6e6e6e6e6e6e6e6e6e6e6e6e 6e6e6e6e6e6e6e6e6e0000
letter 260000000a6e6e6e6e6e6e6e6e6e6e6e6e6e6e6e6e6e6e6e6e6e 6e6e6e6e6e6e6e6e0000
letter 260000000a6e6e6e6e6e6e6e6e6e6e6e6e6e6e6e6e6e6e6e6e6e6e 6e6e6e6e6e6e6e0000
letter 260000000a6e6e6e6e6e6e6e6e6e6e6e6e6e6e6e6e6e6e6e6e6e6e6e 6e6e6e6e6e6e0000
letter 260000000a6e6e6e6e6e6e6e6e6e6e6e6e6e6e6e6e6e6e6e6e6e6e6e6e 6e6e6e6e6e0000
letter 260000000a6e6e6e6e6e6e6e6e6e6e6e6e6e6e6e6e6e6e6e6e6e6e6e6e6e 6e6e6e6e0000
letter 260000000a6e6e6e6e6e6e6e6e6e6e6e6e6e6e6e6e6e6e6e6e6e6e6e6e6e6e 6e6e6e0000
letter 260000000a6e6e6e6e6e6e6e6e6e6e6e6e6e6e6e6e6e6e6e6e6e6e6e6e6e6e6e 6e6e0000
letter 260000000a6e6e6e6e6e6e6e6e6e6e6e6e6e6e6e6e6e6e6e6e6e6e6e6e6e6e6e6e 6e0000
letter 260000000a6e6e6e6e6e6e6e6e6e6e6e6e6e6e6e6e6e6e6e6e6e6e6e6e6e6e6e6e6e 0000
letter 270000000a 6e6e6e6e6e6e6e6e6e6e6e6e6e6e6e6e6e6e6e6e6e6e6e6e6e6e6e6e6e6e0000
letter 270000000a6e 6e6e6e6e6e6e6e6e6e6e6e6e6e6e6e6e6e6e6e6e6e6e6e6e6e6e6e6e6e0000
letter 270000000a6e6e 6e6e6e6e6e6e6e6e6e6e6e6e6e6e6e6e6e6e6e6e6e6e6e6e6e6e6e6e0000
letter 270000000a6e6e6e 6e6e6e6e6e6e6e6e6e6e6e6e6e6e6e6e6e6e6e6e6e6e6e6e6e6e6e0000
letter 270000000a6e6e6e6e 6e6e6e6e6e6e6e6e6e6e6e6e6e6e6e6e6e6e6e6e6e6e6e6e6e6e0000
letter 270000000a6e6e6e6e6e 6e6e6e6e6e6e6e6e6e6e6e6e6e6e6e6e6e6e6e6e6e6e6e6e6e0000
letter 270000000a6e6e6e6e6e6e 6e6e6e6e6e6e6e6e6e6e6e6e6e6e6e6e6e6e6e6e6e6e6e6e0000
letter 270000000a6e6e6e6e6e6e6e 6e6e6e6e6e6e6e6e6e6e6e6e6e6e6e6e6e6e6e6e6e6e6e0000
letter 270000000a6e6e6e6e6e6e6e6e 6e6e6e6e6e6e6e6e6e6e6e6e6e6e6e6e6e6e6e6e6e6e0000
letter 270000000a6e6e6e6e6e6e6e6e6e 6e6e6e6e6e6e6e6e6e6e6e6e6e6e6e6e6e6e6e6e6e0000
letter 270000000a6e6e6e6e6e6e6e6e6e6e 6e6e6e6e6e6e6e6e6e6e6e6e6e6e6e6e6e6e6e6e0000
letter 270000000a6e6e6e6e6e6e6e6e6e6e6e 6e6e6e6e6e6e6e6e6e6e6e6e6e6e6e6e6e6e6e0000
letter 270000000a6e6e6e6e6e6e6e6e6e6e6e6e 6e6e6e6e6e6e6e6e6e6e6e6e6e6e6e6e6e6e0000
letter 270000000a6e6e6e6e6e6e6e6e6e6e6e6e6e 6e6e6e6e6e6e6e6e6e6e6e6e6e6e6e6e6e0000
letter 270000000a6e6e6e6e6e6e6e6e6e6e6e6e6e6e 6e6e6e6e6e6e6e6e6e6e6e6e6e6e6e6e0000
letter 270000000a6e6e6e6e6e6e6e6e6e6e6e6e6e6e6e 6e6e6e6e6e6e6e6e6e6e6e6e6e6e6e0000
letter 270000000a6e6e6e6e6e6e6e6e6e6e6e6e6e6e6e6e 6e6e6e6e6e6e6e6e6e6e6e6e6e6e0000
letter 270000000a6e6e6e6e6e6e6e6e6e6e6e6e6e6e6e6e6e 6e6e6e6e6e6e6e6e6e6e6e6e6e0000
letter 270000000a6e6e6e6e6e6e6e6e6e6e6e6e6e6e6e6e6e6e 6e6e6e6e6e6e6e6e6e6e6e6e0000
letter 270000000a6e6e6e6e6e6e6e6e6e6e6e6e6e6e6e6e6e6e6e 6e6e6e6e6e6e6e6e6e6e6e0000
letter 270000000a6e6e6e6e6e6e6e6e6e6e6e6e6e6e6e6e6e6e6e6e 6e6e6e6e6e6e6e6e6e6e0000
letter 270000000a6e6e6e6e6e6e6e6e6e6e6e6e6e6e6e6e6e6e6e6e6e 6e6e6e6e6e6e6e6e6e0000
letter 270000000a6e6e6e6e6e6e6e6e6e6e6e6e6e6e6e6e6e6e6e6e6e6e 6e6e6e6e6e6e6e6e0000
letter 270000000a6e6e6e6e6e6e6e6e6e6e6e6e6e6e6e6e6e6e6e6e6e6e6e 6e6e6e6e6e6e6e0000
letter 270000000a6e6e6e6e6e6e6e6e6e6e6e6e6e6e6e6e6e6e6e6e6e6e6e6e 6e6e6e6e6e6e0000
letter 270000000a6e6e6e6e6e6e6e6e6e6e6e6e6e6e6e6e6e6e6e6e6e6e6e6e6e 6e6e6e6e6e0000
letter 270000000a6e6e6e6e6e6e6e6e6e6e6e6e6e6e6e6e6e6e6e6e6e6e6e6e6e6e 6e6e6e6e0000
letter 270000000a6e6e6e6e6e6e6e6e6e6e6e6e6e6e6e6e6e6e6e6e6e6e6e6e6e6e6e 6e6e6e0000
letter 270000000a6e6e6e6e6e6e6e6e6e6e6e6e6e6e6e6e6e6e6e6e6e6e6e6e6e6e6e6e 6e6e0000
letter 270000000a6e6e6e6e6e6e6e6e6e6e6e6e6e6e6e6e6e6e6e6e6e6e6e6e6e6e6e6e6e 6e0000
letter 270000000a6e6e6e6e6e6e6e6e6e6e6e6e6e6e6e6e6e6e6e6e6e6e6e6e6e6e6e6e6e6e 0000
letter 280000000a 6e6e6e6e6e6e6e6e6e6e6e6e6e6e6e6e6e6e6e6e6e6e6e6e6e6e6e6e6e6e6e0000
letter 280000000a6e 6e6e6e6e6e6e6e6e6e6e6e6e6e6e6e6e6e6e6e6e6e6e6e6e6e6e6e6e6e6e0000
letter 280000000a6e6e 6e6e6e6e6e6e6e6e6e6e6e6e6e6e6e6e6e6e6e6e6e6e6e6e6e6e6e6e6e0000
letter 280000000a6e6e6e 6e6e6e6e6e6e6e6e6e6e6e6e6e6e6e6e6e6e6e6e6e6e6e6e6e6e6e6e0000
letter 280000000a6e6e6e6e 6e6e6e6e6e6e6e6e6e6e6e6e6e6e6e6e6e6e6e6e6e6e6e6e6e6e6e0000
letter 280000000a6e6e6e6e6e 6e6e6e6e6e6e6e6e6e6e6e6e6e6e6e6e6e6e6e6e6e6e6e6e6e6e0000
letter 280000000a6e6e6e6e6e6e 6e6e6e6e6e6e6e6e6e6e6e6e6e6e6e6e6e6e6e6e6e6e6e6e6e0000
letter 280000000a6e6e6e6e6e6e6e 6e6e6e6e6e6e6e6e6e6e6e6e6e6e6e6e6e6e6e6e6e6e6e6e0000
letter 280000000a6e6e6e6e6e6e6e6e 6e6e6e6e6e6e6e6e6e6e6e6e6e6e6e6e6e6e6e6e6e6e6e0000
letter 280000000a6e6e6e6e6e6e6e6e6e 6e6e6e6e6e6e6e6e6e6e6e6e6e6e6e6e6e6e6e6e6e6e0000
letter 280000000a6e6e6e6e6e6e6e6e6e6e 6e6e6e6e6e6e6e6e6e6e6e6e6e6e6e6e6e6e6e6e6e0000
letter 280000000a6e6e6e6e6e6e6e6e6e6e6e 6e6e6e6e6e6e6e6e6e6e6e6e6e6e6e6e6e6e6e6e0000
letter 280000000a6e6e6e6e6e6e6e6e6e6e6e6e 6e6e6e6e6e6e6e6e6e6e6e6e6e6e6e6e6e6e6e0000
letter 280000000a6e6e6e6e6e6e6e6e6e6e6e6e6e 6e6e6e6e6e6e6e6e6e6e6e6e6e6e6e6e6e6e0000
letter 280000000a6e6e6e6e6e6e6e6e6e6e6e6e6e6e 6e6e6e6e6e6e6e6e6e6e6e6e6e6e6e6e6e0000
letter 280000000a6e6e6e6e6e6e6e6e6e6e6e6e6e6e6e 6e6e6e6e6e6e6e6e6e6e6e6e6e6e6e6e0000
letter 280000000a6e6e6e6e6e6e6e6e6e6e6e6e6e6e6e6e 6e6e6e6e6e6e6e6e6e6e6e6e6e6e6e0000
letter 280000000a6e6e6e6e6e6e6e6e6e6e6e6e6e6e6e6e6e 6e6e6e6e6e6e6e6e6e6e6e6e6e6e0000
letter 280000000a6e6e6e6e6e6e6e6e6e6e6e6e6e6e6e6e6e6e 6e6e6e6e6e6e6e6e6e6e6e6e6e0000
letter 280000000a6e6e6e6e6e6e6e6e6e6e6e6e6e6e6e6e6e6e6e 6e6e6e6e6e6e6e6e6e6e6e6e0000
letter 280000000a6e6e6e6e6e6e6e6e6e6e6e6e6e6e6e6e6e6e6e6e 6e6e6e6e6e6e6e6e6e6e6e0000
letter 280000000a6e6e6e6e6e6e6e6e6e6e6e6e6e6e6e6e6e6e6e6e6e 6e6e6e6e6e6e6e6e6e6e0000
letter 280000000a6e6e6e6e6e6e6e6e6e6e6e6e6e6e6e6e6e6e6e6e6e6e 6e6e6e6e6e6e6e6e6e0000
letter 280000000a6e6e6e6e6e6e6e6e6e6e6e6e6e6e6e6e6e6e6e6e6e6e6e 6e6e6e6e6e6e6e6e0000
letter 280000000a6e6e6e6e6e6e6e6e6e6e6e6e6e6e6e6e6e6e6e6e6e6e6e6e 6e6e6e6e6e6e6e0000
letter 280000000a6e6e6e6e6e6e6e6e6e6e6e6e6e6e6e6e6e6e6e6e6e6e6e6e6e 6e6e6e6e6e6e0000
letter 280000000a6e6e6e6e6e6e6e6e6e6e6e6e6e6e6e6e6e6e6e6e6e6e6e6e6e6e 6e6e6e6e6e0000
letter 280000000a6e6e6e6e6e6e6e6e6e6e6e6e6e6e6e6e6e6e6e6e6e6e6e6e6e6e6e 6e6e6e6e0000
letter 280000000a6e6e6e6e6e6e6e6e6e6e6e6e6e6e6e6e6e6e6e6e6e6e6e6e6e6e6e6e 6e6e6e0000
letter 280000000a6e6e6e6e6e6e6e6e6e6e6e6e6e6e6e6e6e6e6e6e6e6e6e6e6e6e6e6e6e 6e6e0000
letter 280000000a6e6e6e6e6e6e6e6e6e6e6e6e6e6e6e6e6e6e6e6e6e6e6e6e6e6e6e6e6e6e 6e0000
letter 280000000a6e6e6e6e6e6e6e6e6e6e6e6e6e6e6e6e6e6e6e6e6e6e6e6e6e6e6e6e6e6e6e 0000
id 00010f107f809fa0abcdefff~ObjectId([0, 1, 15, 16, 127, 128, 159, 160, 171, 205, 239, 255]) 00010f107f809fa0abcdefff 00010f107f809fa0abcdefff
id 00010F107f809fA0abcdefFF~ObjectId([0, 1, 15, 16, 127, 128, 159, 160, 171, 205, 239, 255]) 00010f107f809fa0abcdefff 00010f107f809fa0abcdefff
id ~none
id 00010f107f809fa0abcdeff~none
id 00010f107f809fa0abcdefff00~none
id 00010g107f809fa0abcdefff~none
sample changes~Some(Int32(1)) None Some(Int64(3)) Some("b") Document { fields: [Field { name: "b", value: Array(Array { items: [Int32(7), String("s")] }) }, Field { name: "a", value: Int32(2) }, Field { name: "c", value: Null }] }
sample list~Array(Array { items: [Int32(7), String("s")] })"#;

// The kinds of values that stand in each other, and what comes of 100 and of 101 levels; how many bytes a binary has, and why
// its document is not written, and has no length; the same of a bad name and of a bad pattern, and what that prints as.
pub(super) const LIMITS: &str =
    r#"limit levels 3~true [Some(TooDeep), Some(TooDeep)] Some(Malformed) 4:Value
limit levels 4~true [Some(TooDeep), Some(TooDeep)] Some(Malformed) 4:Value
limit levels 15~true [Some(TooDeep), Some(TooDeep)] Some(Malformed) 4:Value
limit size 47999987~[None, None]
limit size 47999988~[Some(TooLarge), Some(TooLarge)]
limit name~[Some(BadName), Some(BadName)]
limit pattern~[Some(BadName), Some(BadName)]
limit printed~BadName"#;

// The hexadecimal digits of the bytes of a document, or why it has none.
fn digits_of(rt: &impl Abort, alloc: Global, document: &Document) -> String {
    match to_bytes(alloc, document) {
        Ok(bytes) => written(rt, hex::encode(alloc, bytes.as_bytes())),
        Err(error) => shown(rt, alloc, &error),
    }
}

// How the value of the name `x` of a document prints, how long the document is, and its digits where these are others.
fn encoded(rt: &impl Abort, alloc: Global, digits: &str, document: &Document) -> String {
    let again = digits_of(rt, alloc, document);
    let len = document.encoded_len().unwrap_or(0);
    if again.as_str() == digits && len.saturating_mul(2) == digits.len() {
        shown(rt, alloc, &document.get("x"))
    } else {
        again
    }
}

/// How a document is read, written and measured.
pub(super) fn vector(rt: &impl Abort, alloc: Global, digits: &str) -> String {
    match document_at(rt, alloc, digits) {
        Ok(document) => encoded(rt, alloc, digits, &document),
        Err(error) => failed(rt, alloc, error),
    }
}

// What a document is written as that was read and copied, where that is not what is wanted.
fn rewritten(rt: &impl Abort, alloc: Global, digits: &str, wanted: &str) -> String {
    let again = match document_at(rt, alloc, digits) {
        Ok(document) => digits_of(rt, alloc, &copied(rt, document)),
        Err(error) => failed(rt, alloc, error),
    };
    if again.as_str() == wanted {
        String::new(alloc)
    } else {
        again
    }
}

/// What a document is written as that was read and copied, where that is not as it was read.
pub(super) fn kept(rt: &impl Abort, alloc: Global, line: &str) -> String {
    let (digits, _) = parted(line);
    rewritten(rt, alloc, digits, digits)
}

/// What it is written as, where that is not what stands behind it.
pub(super) fn renamed(rt: &impl Abort, alloc: Global, line: &str) -> String {
    let (digits, rest) = parted(line);
    rewritten(rt, alloc, digits, parted(rest).0)
}

/// Whether bytes are taken for a document, lent or kept, where they are.
pub(super) fn refused(rt: &impl Abort, alloc: Global, line: &str) -> String {
    let bytes = bytes_at(rt, alloc, parted(line).0);
    let is_lent = RawDocument::from_bytes(&bytes).is_ok();
    let is_refused = matches!(RawDocumentBuf::from_bytes(bytes), Err(BsonError::Malformed));
    owned(rt, alloc, if is_refused && !is_lent { "" } else { "taken" })
}

/// The place and the reason of the first fault of bytes.
pub(super) fn fault(rt: &impl Abort, alloc: Global, bytes: &[u8]) -> String {
    match Malformation::of(bytes) {
        Some(found) => {
            let (place, reason) = (found.place, found.reason);
            written(rt, format!(in alloc; "{place}:{reason:?}"))
        }
        None => owned(rt, alloc, "None"),
    }
}

// A line with this between its two parts.
fn joined(rt: &impl Abort, alloc: Global, line: &str, middle: &str) -> String {
    let (front, behind) = parted(line);
    written(rt, format!(in alloc; "{front}{middle}{behind}"))
}

/// What is found where a letter of a name is whole, and where half of it is another one. With its letter whole a name is kept, and
/// with half of it no document is there.
pub(super) fn letter(rt: &impl Abort, alloc: Global, line: &str) -> String {
    let mut text = kept(rt, alloc, joined(rt, alloc, line, "c3a9").as_str());
    let first = refused(rt, alloc, joined(rt, alloc, line, "c36e").as_str());
    let second = refused(rt, alloc, joined(rt, alloc, line, "6ea9").as_str());
    write!(text, "{first}{second}").expect(rt, "memory");
    text
}

// The bytes of a document around those of the document in its value of the kind: a document, an array or code with its scope.
fn around(rt: &impl Abort, alloc: Global, kind: u8, inner: &[u8]) -> Vec<u8> {
    let is_code = kind == 15;
    let beside: u64 = if is_code { 9 } else { 0 };
    let value_len = (inner.len() as u64).wrapping_add(beside);
    let len = value_len.wrapping_add(8).to_le_bytes();
    let mut outer = Vec::from_slice(alloc, &len[..4]).expect(rt, "memory");
    outer.extend_from_slice(&[kind, 48, 0]).expect(rt, "memory");
    if is_code {
        let len = value_len.to_le_bytes();
        outer.extend_from_slice(&len[..4]).expect(rt, "memory");
        outer
            .extend_from_slice(&[1, 0, 0, 0, 0])
            .expect(rt, "memory");
    }
    outer.extend_from_slice(inner).expect(rt, "memory");
    outer.push(0).expect(rt, "memory");
    outer
}

// The bytes of the document of so many levels.
fn nested_bytes(rt: &impl Abort, alloc: Global, kind: u8, levels: u32) -> Vec<u8> {
    let mut bytes = Vec::from_slice(alloc, &[5, 0, 0, 0, 0]).expect(rt, "memory");
    for _ in 1..levels {
        bytes = around(rt, alloc, kind, &bytes);
    }
    bytes
}

// Why a document of one field is not written, and why it has no length.
fn faults_of(rt: &impl Abort, alloc: Global, name: &str, value: Bson) -> String {
    let document = one_field(rt, alloc, name, value);
    let unwritten = to_bytes(alloc, &document).err();
    let unmeasured = document.encoded_len().err();
    written(rt, format!(in alloc; "[{unwritten:?}, {unmeasured:?}]"))
}

// Why a document of one level more than 100 is not written and has no length, and why and where it is not read.
fn faults_of_101(rt: &impl Abort, alloc: Global, kind: u8, deepest: Document) -> String {
    let mut text = faults_of(rt, alloc, "0", Bson::Document(deepest));
    let too_deep = nested_bytes(rt, alloc, kind, 101);
    let fault = fault(rt, alloc, &too_deep);
    let unread = RawDocumentBuf::from_bytes(too_deep).err();
    write!(text, " {unread:?} {fault}").expect(rt, "memory");
    text
}

// Whether a document of 100 levels is written as it was read, and what becomes of one of 101.
fn levels_of(rt: &impl Abort, alloc: Global, kind: u8) -> String {
    let digits = hex::encode(alloc, &nested_bytes(rt, alloc, kind, 100));
    let digits = written(rt, digits);
    match document_at(rt, alloc, digits.as_str()) {
        Ok(deepest) => {
            let is_same = digits_of(rt, alloc, &deepest).as_str() == digits.as_str();
            let faults = faults_of_101(rt, alloc, kind, deepest);
            written(rt, format!(in alloc; "{is_same} {faults}"))
        }
        Err(error) => failed(rt, alloc, error),
    }
}

// The faults of a binary of so many bytes. Its document has 13 bytes more.
fn size_of(rt: &impl Abort, alloc: Global, len: u32) -> String {
    let bytes = vec![in alloc; 0; len as usize].expect(rt, "memory");
    faults_of(rt, alloc, "x", Bson::Binary(Binary { subtype: 0, bytes }))
}

// The faults of a regular expression whose pattern holds the character 0.
fn bad_pattern(rt: &impl Abort, alloc: Global) -> String {
    let pattern = owned(rt, alloc, "a\0");
    let options = String::new(alloc);
    let regex = Box::new(alloc, Regex { pattern, options }).expect(rt, "memory");
    faults_of(rt, alloc, "x", Bson::Regex(regex))
}

/// What comes of a limit of documents, or of a bad name or a bad pattern.
pub(super) fn limit(rt: &impl Abort, alloc: Global, line: &str) -> String {
    let (about, number) = parted(line);
    match about {
        "levels" => levels_of(rt, alloc, number.parse::<u8>().expect(rt, "a kind")),
        "size" => size_of(rt, alloc, number.parse::<u32>().expect(rt, "a size")),
        "name" => faults_of(rt, alloc, "a\0b", Bson::Null),
        "pattern" => bad_pattern(rt, alloc),
        "printed" => written(rt, format!(in alloc; "{}", BsonError::BadName)),
        _ => owned(rt, alloc, "no such limit"),
    }
}

/// The object id that a text is, with its digits and as it prints.
pub(super) fn id(rt: &impl Abort, alloc: Global, text: &str) -> String {
    match ObjectId::parse_str(text) {
        Some(id) => {
            let digits = written(rt, id.to_hex(alloc));
            written(rt, format!(in alloc; "{id:?} {digits} {id}"))
        }
        None => owned(rt, alloc, "none"),
    }
}

// The document `{ a: 1, b: [7, "s"], a: 2 }`.
fn sampled(rt: &impl Abort, alloc: Global) -> Document {
    let list = json_value(rt, alloc, r#"[7,"s"]"#);
    let document = with(rt, one_field(rt, alloc, "a", Bson::Int32(1)), "b", list);
    with(rt, document, "a", Bson::Int32(2))
}

// What stood in the place of a value, what stood where a name is new, what is taken out by its name, the first name behind that,
// and what is left.
fn changed(rt: &impl Abort, alloc: Global, document: &mut Document) -> String {
    let mut text = String::new(alloc);
    let stood = document.insert("a", Bson::Int64(3));
    write!(text, "{:?} ", stood.expect(rt, "memory")).expect(rt, "memory");
    let new = document.insert("c", Bson::Null);
    write!(text, "{:?} ", new.expect(rt, "memory")).expect(rt, "memory");
    write!(text, "{:?} ", document.remove("a")).expect(rt, "memory");
    write!(text, "{:?} ", document.keys().next()).expect(rt, "memory");
    write!(text, "{document:?}").expect(rt, "memory");
    text
}

// The list of the name `b`, by copies of what is lent.
fn list_in(rt: &impl Abort, alloc: Global, document: &RawDocument<'_>) -> Bson {
    let lent = document.clone().expect(rt, "memory");
    match &lent.get("b") {
        Some(RawValue::Array(list)) => {
            let list = RawValue::Array(list.clone().expect(rt, "memory"));
            list.to_value(alloc).expect(rt, "memory")
        }
        _ => Bson::Null,
    }
}

/// What comes of changes of a document, or of copies of its bytes.
pub(super) fn sample(rt: &impl Abort, alloc: Global, about: &str) -> String {
    let mut document = sampled(rt, alloc);
    if about == "changes" {
        return changed(rt, alloc, &mut document);
    }
    let raw = to_bytes(alloc, &document).expect(rt, "a document");
    let copy = raw.as_raw().to_buf(alloc).expect(rt, "memory");
    shown(rt, alloc, &list_in(rt, alloc, &copy.as_raw()))
}
