//! Documents as bytes. A document is measured first, so its memory is asked for once, and all that can be refused has been.
//! Then it is written in one pass: a length is put in once what it measures stands behind it.
ghost use Rattle.std.specs.Prelude.{◌≡◌, ◌+◌, ◌≤◌, ◌++◌, ◌∷◌, [], take, drop, length, OnOk, IfOk, IfErr, true, decimal, string_bytes};
ghost use Rattle.std.specs.Int.{w32, w64, cast_unsigned};
ghost use Rattle.mg_bson.specs.Bytes.{le32, le64, framed, measured, text_bytes, element, value_bytes, items_bytes, bytes};
ghost use Rattle.mg_bson.specs.Writable.{IsWritable, Refuses};
ghost use Rattle.mg_bson.specs.Plain.{is_plain};
ghost use Rattle.mg_bson.specs.View.{tree};
ghost use Rattle.mg_bson.specs.Raw.{fields};
ghost use Rattle.mg_bson.specs.declared.error.BsonError.TheVariants.{OutOfMemory};

use crate::error::BsonError;
use crate::kind::Kind;
use crate::raw::RawDocumentBuf;
use crate::tree::{Array, Binary, Bson, CodeWithScope, DbPointer, Document, Regex, Timestamp};
use std::alloc::{AllocError, Global};

// The four bytes of a length. None that is written is too large for them. A cast would ask for a proof that it loses
// nothing.
#[tactic(auto, unfolding(crate::specs::Bytes::le32))]
fn length_bytes(len: usize) -> [u8; 4]
    ensures { result ≡ le32 len }
{
    let bytes = (len as u64).to_le_bytes();
    [bytes[0], bytes[1], bytes[2], bytes[3]]
}

// Bytes as they stand.
fn put(out: &mut Vec<u8>, bytes: &[u8]) -> Result<(), AllocError>
    ensures { OnOk result (out.new.items ≡ out.old.items ++ bytes.now) }
{
    out.extend_from_slice(bytes)
}

// Four bytes for a length that is put in once what it measures stands behind it.
fn put_gap(out: &mut Vec<u8>) -> Result<(), AllocError>
    ensures { OnOk result (out.new.items ≡ out.old.items ++ le32 0) }
{
    put(out, &length_bytes(0))
}

// A text that a 0 ends.
fn put_ended(out: &mut Vec<u8>, text: &str) -> Result<(), AllocError>
    ensures { OnOk result (out.new.items ≡ out.old.items ++ (text.now ++ 0 ∷ [])) }
{
    put(out, text.as_bytes())?;
    put(out, &[0])
}

// A text behind its length.
fn put_text(out: &mut Vec<u8>, text: &str) -> Result<(), AllocError>
    ensures { OnOk result (out.new.items ≡ out.old.items ++ text_bytes text.now) }
{
    put(out, &length_bytes(text.len() + 1))?;
    put_ended(out, text)
}

fn put_binary(out: &mut Vec<u8>, binary: &Binary) -> Result<(), AllocError>
    ensures { OnOk result (out.new.items ≡ out.old.items ++ (le32 (length binary.now.bytes.items) ++ binary.now.subtype ∷ binary.now.bytes.items)) }
{
    put(out, &length_bytes(binary.bytes.len()))?;
    put(out, &[binary.subtype])?;
    put(out, &binary.bytes)
}

#[tactic(auto, unfolding(crate::specs::Bytes::le32))]
fn put_i32(out: &mut Vec<u8>, n: i32) -> Result<(), AllocError>
    ensures { OnOk result (out.new.items ≡ out.old.items ++ le32 (cast_unsigned w32 n)) }
{
    put(out, &n.to_le_bytes())
}

#[tactic(auto, unfolding(crate::specs::Bytes::le64))]
fn put_i64(out: &mut Vec<u8>, n: i64) -> Result<(), AllocError>
    ensures { OnOk result (out.new.items ≡ out.old.items ++ le64 (cast_unsigned w64 n)) }
{
    put(out, &n.to_le_bytes())
}

#[tactic(auto, unfolding(crate::specs::Bytes::le32))]
fn put_timestamp(out: &mut Vec<u8>, t: Timestamp) -> Result<(), AllocError>
    ensures { OnOk result (out.new.items ≡ out.old.items ++ (le32 t.increment ++ le32 t.time)) }
{
    put(out, &t.increment.to_le_bytes())?;
    put(out, &t.time.to_le_bytes())
}

// The kind and the name of an element.
fn put_head(out: &mut Vec<u8>, kind: Kind, name: &str) -> Result<(), AllocError>
    ensures { OnOk result (out.new.items ≡ out.old.items ++ element kind name.now []) }
{
    put(out, &[kind.byte()])?;
    put_ended(out, name)
}

// The digits of a number.
fn put_decimal(out: &mut Vec<u8>, n: usize) -> Result<(), AllocError>
    ensures { OnOk result (out.new.items ≡ out.old.items ++ decimal n) }
{
    if n >= 10 {
        put_decimal(out, n / 10)?;
    }
    put(out, &[b'0' + (n % 10) as u8])
}

// The kind and the name of an element of an array, whose name is its number.
fn put_numbered(out: &mut Vec<u8>, kind: Kind, i: usize) -> Result<(), AllocError>
    ensures { OnOk result (out.new.items ≡ out.old.items ++ element kind (decimal i) []) }
{
    put(out, &[kind.byte()])?;
    put_decimal(out, i)?;
    put(out, &[0])
}

fn put_regex(out: &mut Vec<u8>, regex: &Regex) -> Result<(), AllocError>
    ensures { OnOk result (out.new.items ≡ out.old.items ++ (string_bytes regex.now.pattern ++ 0 ∷ (string_bytes regex.now.options ++ 0 ∷ []))) }
{
    put_ended(out, regex.pattern.as_str())?;
    put_ended(out, regex.options.as_str())
}

fn put_pointer(out: &mut Vec<u8>, pointer: &DbPointer) -> Result<(), AllocError>
    ensures { OnOk result (out.new.items ≡ out.old.items ++ (text_bytes (string_bytes pointer.now.namespace) ++ pointer.now.id.0)) }
{
    put_text(out, pointer.namespace.as_str())?;
    put(out, &pointer.id.0)
}

// A value that holds no others.
fn put_plain(out: &mut Vec<u8>, value: &Bson) -> Result<(), AllocError>
    requires { is_plain (tree value.now) ≡ true }
    ensures { OnOk result (out.new.items ≡ out.old.items ++ value_bytes (tree value.now)) }
{
    match value {
        Bson::Double(v) => put(out, v),
        Bson::String(text) | Bson::Code(text) | Bson::Symbol(text) => put_text(out, text.as_str()),
        Bson::Binary(b) => put_binary(out, b),
        Bson::ObjectId(id) => put(out, &id.0),
        Bson::Boolean(b) => put(out, &[u8::from(*b)]),
        Bson::DateTime(t) => put_i64(out, t.millis),
        Bson::Regex(r) => put_regex(out, r),
        Bson::DbPointer(p) => put_pointer(out, p),
        Bson::Int32(n) => put_i32(out, *n),
        Bson::Timestamp(t) => put_timestamp(out, *t),
        Bson::Int64(n) => put_i64(out, *n),
        Bson::Decimal128(v) => put(out, v),
        Bson::Undefined | Bson::Null | Bson::MinKey | Bson::MaxKey => Ok(()),
        Bson::Document(_) | Bson::Array(_) | Bson::CodeWithScope(_) => unreachable!(),
    }
}

// Puts the length in at `start`.
fn patch(out: &mut [u8], start: usize, len: usize)
    requires { start + 4 ≤ length out.old }
    ensures { out.new ≡ take start out.old ++ (le32 len ++ drop (start + 4) out.old) }
{
    out[start..start + 4].copy_from_slice(&length_bytes(len));
}

// Ends a document that began at `start`, with four bytes there for its length.
fn end_document(out: &mut Vec<u8>, start: usize) -> Result<(), AllocError>
    requires { start + 4 ≤ length out.old.items }
    ensures { OnOk result (out.new.items ≡ take start out.old.items ++ framed (drop (start + 4) out.old.items)) }
{
    put(out, &[0])?;
    let len = out.len() - start;
    patch(out, start, len);
    Ok(())
}

// Writes the length of what begins at `start`, with four bytes there for it.
fn end_measured(out: &mut Vec<u8>, start: usize)
    requires { start + 4 ≤ length out.old.items }
    ensures { out.new.items ≡ take start out.old.items ++ measured (drop (start + 4) out.old.items) }
{
    let len = out.len() - start;
    patch(out, start, len);
}

// The recursion is as deep as the document, which was found to have at most `MAX_LEVELS` levels.
#[cycle(write)]
fn write_document(out: &mut Vec<u8>, document: &Document) -> Result<(), AllocError>
    ensures { OnOk result (out.new.items ≡ out.old.items ++ bytes document.now) }
{
    let start = out.len();
    put_gap(out)?;
    for field in &document.fields {
        put_head(out, field.value.kind(), field.name.as_str())?;
        write_value(out, &field.value)?;
    }
    end_document(out, start)
}

#[cycle(write)]
fn write_array(out: &mut Vec<u8>, array: &Array) -> Result<(), AllocError>
    ensures { OnOk result (out.new.items ≡ out.old.items ++ framed (items_bytes 0 array.now)) }
{
    let start = out.len();
    put_gap(out)?;
    for (i, item) in array.items.iter().enumerate() {
        put_numbered(out, item.kind(), i)?;
        write_value(out, item)?;
    }
    end_document(out, start)
}

#[cycle(write)]
fn write_value(out: &mut Vec<u8>, value: &Bson) -> Result<(), AllocError>
    ensures { OnOk result (out.new.items ≡ out.old.items ++ value_bytes (tree value.now)) }
{
    match value {
        Bson::Document(d) => write_document(out, d),
        Bson::Array(a) => write_array(out, a),
        Bson::CodeWithScope(c) => write_scoped(out, c),
        _ => put_plain(out, value),
    }
}

#[cycle(write)]
fn write_scoped(out: &mut Vec<u8>, value: &CodeWithScope) -> Result<(), AllocError>
    ensures { OnOk result (out.new.items ≡ out.old.items ++ measured (text_bytes (string_bytes value.now.code) ++ bytes value.now.scope)) }
{
    let start = out.len();
    put_gap(out)?;
    put_text(out, value.code.as_str())?;
    write_document(out, &value.scope)?;
    end_measured(out, start);
    Ok(())
}

/// Encodes the document. It is too large past [`MAX_DOCUMENT_BYTES`](crate::MAX_DOCUMENT_BYTES) bytes, and too deep past
/// [`MAX_LEVELS`](crate::MAX_LEVELS) levels. A name, or a text of a regular expression, that holds the character 0 is
/// a bad name. Where several of these hold, the first that is met is answered, and before any memory is asked for. Behind
/// that only memory can fail. The document is gone through twice: it is measured, and then written.
///
///     let raw = to_bytes(alloc, &document)?;
///     let bytes = raw.as_bytes();
pub fn to_bytes(alloc: Global, document: &Document) -> Result<RawDocumentBuf, BsonError>
    ensures bytes { IfOk result (λ r. r ≡ bytes document.now) }
    ensures writable { OnOk result (IsWritable document.now) }
    ensures read_back { IfOk result (λ r. fields r ≡ document.now) }
    ensures err { IfErr result (λ e. Refuses e document.now) }
    ensures memory { IfErr result (λ e. e ≡ OutOfMemory → IsWritable document.now) }
{
    let len = document.encoded_len()?;
    let mut out = Vec::with_capacity(alloc, len)?;
    write_document(&mut out, document)?;
    Ok(RawDocumentBuf::checked(out))
}
