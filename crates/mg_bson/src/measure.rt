//! How many bytes documents are encoded in, found without encoding them. What cannot be encoded is refused here.
ghost use Rattle.std.specs.Prelude.{◌≡◌, ◌≢◌, ◌+◌, ◌<◌, ◌≤◌, ◌^◌, ◌++◌, ◌∷◌, [], ◌||◌, length, OnOk, IfOk, IfErr, false, true, decimal, string_bytes};
ghost use Rattle.std.specs.Str.{IsUtf8};
ghost use Rattle.mg_bson.specs.Bytes.{framed, measured, text_bytes, value_bytes, fields_bytes, items_bytes, bytes, tree_depth, fields_depth, items_depth, levels as levels_of};
ghost use Rattle.mg_bson.specs.Writable.{IsName, IsSound, AreSound, AreSoundItems, IsWritable, max_len, Refuses, has_zero, has_bad_name, fields_have_bad_name, items_have_bad_name};
ghost use Rattle.mg_bson.specs.Writing.{StopsAt};
ghost use Rattle.mg_bson.specs.Plain.{is_plain};
ghost use Rattle.mg_bson.specs.View.{tree, fields_of, items_of};

use crate::error::BsonError;
use crate::limits::{MAX_DOCUMENT_BYTES, MAX_LEVELS};
use crate::tree::{Array, Bson, CodeWithScope, DbPointer, Document, Field, Regex, Timestamp};

// So many bytes more, where they are within the limit.
fn more(len: usize, bytes: usize) -> Result<usize, BsonError>
    ensures ok { IfOk result (λ n. (n ≡ len + bytes) × (n ≤ max_len)) }
    ensures err { IfErr result (λ e. StopsAt e (len + bytes) 0 0 false) }
{
    if bytes > MAX_DOCUMENT_BYTES || len > MAX_DOCUMENT_BYTES - bytes {
        return Err(BsonError::TooLarge);
    }
    Ok(len + bytes)
}

// Bytes as they stand.
fn measure_bytes(len: usize, bytes: &[u8]) -> Result<usize, BsonError>
    ensures ok { IfOk result (λ n. n ≡ len + length bytes.now) }
    ensures err { IfErr result (λ e. StopsAt e (len + length bytes.now) 0 0 false) }
{
    more(len, bytes.len())
}

// Whether the text holds the character 0.
fn holds_zero(text: &str) -> bool
    ensures { result ≡ has_zero text.now }
{
    text.as_bytes().contains(&0)
}

#[tactic(auto, using(crate::proofs::Numbers::lengths))]
fn measure_text(len: usize, text: &str) -> Result<usize, BsonError>
    ensures ok { IfOk result (λ n. n ≡ len + length (text_bytes text.now)) }
    ensures err { IfErr result (λ e. StopsAt e (len + length (text_bytes text.now)) 0 0 false) }
{
    more(len, text.len() + 5)
}

// The kind and the name of an element.
fn measure_head(len: usize, name: &str) -> Result<usize, BsonError>
    ensures ok { IfOk result (λ n. n ≡ len + (length name.now + 2)) }
    ensures name { OnOk result (IsName name.now) }
    ensures err { IfErr result (λ e. StopsAt e (len + (length name.now + 2)) 0 0 (has_zero name.now)) }
{
    if holds_zero(name) {
        return Err(BsonError::BadName);
    }
    more(len, name.len() + 2)
}

// How many digits the number is written with.
fn digits_len(n: usize) -> usize
    ensures value { result ≡ length (decimal n) }
    ensures short { result ≤ 20 }
{
    let mut len = 1;
    let mut front = n;
    while front >= 10 {
        front /= 10;
        len += 1;
    }
    len
}

// The kind and the name of an element of an array, whose name is its number.
fn measure_numbered(len: usize, i: usize) -> Result<usize, BsonError>
    ensures ok { IfOk result (λ n. n ≡ len + (length (decimal i) + 2)) }
    ensures err { IfErr result (λ e. StopsAt e (len + (length (decimal i) + 2)) 0 0 false) }
{
    more(len, digits_len(i) + 2)
}

// A text that a 0 ends.
fn measure_ended(len: usize, text: &str) -> Result<usize, BsonError>
    ensures ok { IfOk result (λ n. n ≡ len + (length text.now + 1)) }
    ensures name { OnOk result (IsName text.now) }
    ensures err { IfErr result (λ e. StopsAt e (len + (length text.now + 1)) 0 0 (has_zero text.now)) }
{
    if holds_zero(text) {
        return Err(BsonError::BadName);
    }
    more(len, text.len() + 1)
}

#[tactic(auto, using(crate::proofs::Numbers::lengths))]
fn measure_regex(len: usize, regex: &Regex) -> Result<usize, BsonError>
    ensures ok { IfOk result (λ n. n ≡ len + length (string_bytes regex.now.pattern ++ 0 ∷ (string_bytes regex.now.options ++ 0 ∷ []))) }
    ensures names { OnOk result (IsName (string_bytes regex.now.pattern) × IsName (string_bytes regex.now.options)) }
    ensures err { IfErr result (λ e. StopsAt e (len + (length (string_bytes regex.now.pattern) + length (string_bytes regex.now.options) + 2))
        0 0 (has_zero (string_bytes regex.now.pattern) || has_zero (string_bytes regex.now.options))) }
{
    let behind = measure_ended(len, regex.pattern.as_str())?;
    measure_ended(behind, regex.options.as_str())
}

#[tactic(auto, using(crate::proofs::Numbers::lengths))]
fn measure_pointer(len: usize, pointer: &DbPointer) -> Result<usize, BsonError>
    ensures ok { IfOk result (λ n. n ≡ len + length (text_bytes (string_bytes pointer.now.namespace) ++ pointer.now.id.0)) }
    ensures sound { OnOk result (IsUtf8 (string_bytes pointer.now.namespace) × (length pointer.now.id.0 ≡ 12)) }
    ensures err { IfErr result (λ e. StopsAt e (len + length (text_bytes (string_bytes pointer.now.namespace) ++ pointer.now.id.0)) 0 0 false) }
{
    let behind = measure_text(len, pointer.namespace.as_str())?;
    measure_bytes(behind, &pointer.id.0)
}

// A number is counted by its bytes, for what is ensured of them tells that it fits its type.
fn measure_timestamp(len: usize, t: Timestamp) -> Result<usize, BsonError>
    ensures ok { IfOk result (λ n. n ≡ len + 8) }
    ensures err { IfErr result (λ e. StopsAt e (len + 8) 0 0 false) }
    ensures sound { (t.time < 2 ^ 32) × (t.increment < 2 ^ 32) }
{
    let behind = measure_bytes(len, &t.increment.to_le_bytes())?;
    measure_bytes(behind, &t.time.to_le_bytes())
}

// A value that holds no others. Numbers are counted as in `measure_timestamp`.
#[tactic(auto, using(crate::proofs::Numbers::lengths))]
fn measure_plain(len: usize, value: &Bson) -> Result<usize, BsonError>
    requires { is_plain (tree value.now) ≡ true }
    ensures ok { IfOk result (λ n. n ≡ len + length (value_bytes (tree value.now))) }
    ensures sound { OnOk result (IsSound (tree value.now)) }
    ensures err { IfErr result (λ e. StopsAt e (len + length (value_bytes (tree value.now))) 0 0 (has_bad_name (tree value.now))) }
{
    match value {
        Bson::Double(v) => measure_bytes(len, v),
        Bson::String(text) | Bson::Code(text) | Bson::Symbol(text) => measure_text(
            len,
            text.as_str(),
        ),
        Bson::Binary(b) => more(len, b.bytes.len() + 5),
        Bson::ObjectId(id) => measure_bytes(len, &id.0),
        Bson::Boolean(_) => more(len, 1),
        Bson::DateTime(t) => measure_bytes(len, &t.millis.to_le_bytes()),
        Bson::Regex(r) => measure_regex(len, r),
        Bson::DbPointer(p) => measure_pointer(len, p),
        Bson::Int32(n) => measure_bytes(len, &n.to_le_bytes()),
        Bson::Timestamp(t) => measure_timestamp(len, *t),
        Bson::Int64(n) => measure_bytes(len, &n.to_le_bytes()),
        Bson::Decimal128(v) => measure_bytes(len, v),
        Bson::Undefined | Bson::Null | Bson::MinKey | Bson::MaxKey => Ok(len),
        Bson::Document(_) | Bson::Array(_) | Bson::CodeWithScope(_) => unreachable!(),
    }
}

#[cycle(measure)]
#[tactic(auto, using(crate::proofs::Numbers::lengths))]
fn measure_document(len: usize, document: &Document, levels: u32) -> Result<usize, BsonError>
    ensures ok { IfOk result (λ n. n ≡ len + length (bytes document.now)) }
    ensures sound { OnOk result (AreSound document.now × (levels_of document.now ≤ levels)) }
    ensures within { IfOk result (λ n. n ≤ max_len) }
    ensures err { IfErr result (λ e. StopsAt e (len + length (bytes document.now))
        levels (levels_of document.now) (fields_have_bad_name document.now)) }
{
    if levels == 0 {
        return Err(BsonError::TooDeep);
    }
    let front = more(len, 4)?;
    let end = measure_fields(front, &document.fields, levels - 1)?;
    more(end, 1)
}

#[cycle(measure)]
#[tactic(auto, using(crate::proofs::Numbers::lengths))]
fn measure_fields(len: usize, fields: &[Field], levels: u32) -> Result<usize, BsonError>
    ensures ok { IfOk result (λ n. n ≡ len + length (fields_bytes (fields_of fields.now))) }
    ensures sound { OnOk result (AreSound (fields_of fields.now) × (fields_depth (fields_of fields.now) ≤ levels)) }
    ensures err { IfErr result (λ e. StopsAt e (len + length (fields_bytes (fields_of fields.now)))
        levels (fields_depth (fields_of fields.now)) (fields_have_bad_name (fields_of fields.now))) }
{
    let mut end = len;
    for field in fields {
        let head = measure_head(end, field.name.as_str())?;
        end = measure_value(head, &field.value, levels)?;
    }
    Ok(end)
}

#[cycle(measure)]
#[tactic(auto, using(crate::proofs::Numbers::lengths))]
fn measure_array(len: usize, array: &Array, levels: u32) -> Result<usize, BsonError>
    ensures ok { IfOk result (λ n. n ≡ len + length (framed (items_bytes 0 array.now))) }
    ensures sound { OnOk result (AreSoundItems array.now × (items_depth array.now + 1 ≤ levels)) }
    ensures err { IfErr result (λ e. StopsAt e (len + length (framed (items_bytes 0 array.now)))
        levels (items_depth array.now + 1) (items_have_bad_name array.now)) }
{
    if levels == 0 {
        return Err(BsonError::TooDeep);
    }
    let front = more(len, 4)?;
    let end = measure_items(front, &array.items, levels - 1)?;
    more(end, 1)
}

#[cycle(measure)]
#[tactic(auto, using(crate::proofs::Numbers::lengths))]
fn measure_items(len: usize, items: &[Bson], levels: u32) -> Result<usize, BsonError>
    ensures ok { IfOk result (λ n. n ≡ len + length (items_bytes 0 (items_of items.now))) }
    ensures sound { OnOk result (AreSoundItems (items_of items.now) × (items_depth (items_of items.now) ≤ levels)) }
    ensures err { IfErr result (λ e. StopsAt e (len + length (items_bytes 0 (items_of items.now)))
        levels (items_depth (items_of items.now)) (items_have_bad_name (items_of items.now))) }
{
    let mut end = len;
    for (i, item) in items.iter().enumerate() {
        let head = measure_numbered(end, i)?;
        end = measure_value(head, item, levels)?;
    }
    Ok(end)
}

#[cycle(measure)]
#[tactic(auto, using(crate::proofs::Numbers::lengths))]
fn measure_value(len: usize, value: &Bson, levels: u32) -> Result<usize, BsonError>
    ensures ok { IfOk result (λ n. n ≡ len + length (value_bytes (tree value.now))) }
    ensures sound { OnOk result (IsSound (tree value.now) × (tree_depth (tree value.now) ≤ levels)) }
    ensures err { IfErr result (λ e. StopsAt e (len + length (value_bytes (tree value.now)))
        levels (tree_depth (tree value.now)) (has_bad_name (tree value.now))) }
{
    match value {
        Bson::Document(d) => measure_document(len, d, levels),
        Bson::Array(a) => measure_array(len, a, levels),
        Bson::CodeWithScope(c) => measure_scoped(len, c, levels),
        _ => measure_plain(len, value),
    }
}

#[cycle(measure)]
#[tactic(auto, using(crate::proofs::Numbers::lengths))]
fn measure_scoped(len: usize, value: &CodeWithScope, levels: u32) -> Result<usize, BsonError>
    ensures ok { IfOk result (λ n. n ≡ len + length (measured (text_bytes (string_bytes value.now.code) ++ bytes value.now.scope))) }
    ensures sound { OnOk result (IsUtf8 (string_bytes value.now.code) × AreSound value.now.scope × (levels_of value.now.scope ≤ levels)) }
    ensures err { IfErr result (λ e. StopsAt e (len + length (measured (text_bytes (string_bytes value.now.code) ++ bytes value.now.scope)))
        levels (levels_of value.now.scope) (fields_have_bad_name value.now.scope)) }
{
    let front = more(len, 4)?;
    let text = measure_text(front, value.code.as_str())?;
    measure_document(text, &value.scope, levels)
}

impl Document {
    /// How many bytes the document is encoded in. It takes no memory, and fails just where [`to_bytes`](crate::to_bytes) does
    /// with ample memory.
    ///
    ///     let len = document.encoded_len()?;
    pub fn encoded_len(&self) -> Result<usize, BsonError>
        ensures length { IfOk result (λ n. n ≡ length (bytes self.now)) }
        ensures writable { OnOk result (IsWritable self.now) }
        ensures err { IfErr result (λ e. Refuses e self.now) }
        ensures memory { IfErr result (λ e. e ≢ BsonError.OutOfMemory) }
    {
        measure_document(0, self, MAX_LEVELS)
    }
}
