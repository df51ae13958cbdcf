//! Documents as bytes that were checked once, and what is lent of them.
ghost use Rattle.std.specs.Prelude.{◌≡◌, ◌↔◌, drop, length, IsTrue, IfOk, IfErr, IfSome, MatchOption, MatchResult, None, option_map, ⊤};
ghost use Rattle.std.specs.Cmp.{partial_equiv_from_equiv};
ghost use Rattle.std.specs.Cmp.Lexicographic.{nat_list_eq_equiv};
ghost use Rattle.std.specs.Str.{bytes_eq};
ghost use Rattle.mg_bson.specs.Tree.{no_fields, field, no_items, item};
ghost use Rattle.mg_bson.specs.Find.{get, as_document, as_array, as_int32, as_int64, as_string, as_binary, as_boolean, as_timestamp, as_double, as_object_id, as_date_time, as_decimal128, is_null, items_length};
ghost use Rattle.mg_bson.specs.Raw.{IsDocument, IsValue, fields, fields_left, items, items_left, spelled};
ghost use Rattle.mg_bson.specs.ReadView.{spelling};
ghost use Rattle.mg_bson.specs.View.{tree};
ghost use Rattle.mg_bson.specs.RawView.{value};
ghost use Rattle.mg_bson.specs.Reading.{doc, doc_at, le32_at, binary_at, regex_at, pointer_at, value_at};
ghost use Rattle.mg_bson.specs.declared.error.BsonError.TheVariants.{Malformed, OutOfMemory};
ghost use Rattle.mg_bson.specs.declared.kind.Kind.TheVariants.{CodeWithScope};

use crate::check::is_document;
use crate::decode::read_value;
use crate::error::BsonError;
use crate::kind::Kind;
use crate::limits::MAX_LEVELS;
use crate::object_id::ObjectId;
use crate::read::{
    Element, array_of, binary_of, body_of, boolean_of, i32_at, i64_at, known_text_of, pointer_of,
    regex_of, scope_of, split_known, u32_at,
};
use crate::tree::{Bson, DateTime, Timestamp};
use std::alloc::{AllocError, Global};
use std::marker::Model;

/// The bytes of a document, all levels of which were checked. In a contract it is those bytes, and
/// `fields` is what they spell.
///
///     let raw = RawDocumentBuf::from_bytes(bytes)?;
///     let document = to_document(alloc, raw.as_raw())?;
#[derive(Debug, Drop)]
pub struct RawDocumentBuf {
    bytes: Vec<u8>,
}

impl Model for RawDocumentBuf {
    ghost use Rattle.std.specs.Prelude.{List, ℕ};
    ghost use Rattle.mg_bson.specs.Raw.{IsDocument};

    ghost Value = { List ℕ };

    ghost view = { λ r. r.bytes.items };

    ghost invariant = { λ r. IsDocument r.bytes.items };
}

/// A document that is lent from checked bytes. In a contract it is its bytes, and `fields` is what
/// they spell.
///
///     for (name, value) in &document { .. }
///     let Some(value) = document.get("ok") else { .. };
#[derive(Debug, Drop)]
pub struct RawDocument<'a> {
    bytes: &'a [u8],
}

impl<'a> Model for RawDocument<'a> {
    ghost use Rattle.std.specs.Prelude.{List, ℕ};
    ghost use Rattle.mg_bson.specs.Raw.{IsDocument};

    ghost Value = { List ℕ };

    ghost view = { λ r. r.bytes.now };

    ghost invariant = { λ r. IsDocument r.bytes.now };
}

/// The elements of a lent document that are left, in order. In a contract it is their bytes, and
/// `fields_left` is what they spell.
///
///     for (name, value) in document.iter() { .. }
#[derive(Drop)]
pub struct RawIter<'a> {
    rest: &'a [u8],
}

impl<'a> Model for RawIter<'a> {
    ghost use Rattle.std.specs.Prelude.{List, ℕ};
    ghost use Rattle.mg_bson.specs.Raw.{AreFields};

    ghost Value = { List ℕ };

    ghost view = { λ r. r.rest.now };

    ghost invariant = { λ r. AreFields r.rest.now };
}

/// A value that is lent from checked bytes: one variant for each variant of
/// [`Bson`](crate::Bson). In a contract `value` is the tree that it stands for.
///
///     match &value {
///         RawValue::Int32(n) => i64::from(*n),
///         RawValue::Int64(n) => *n,
///         _ => 0,
///     }
#[derive(Debug)]
pub enum RawValue<'a> {
    /// A floating point number, as its eight bytes, the lowest first.
    Double([u8; 8]),
    /// A text in UTF-8.
    String(&'a str),
    /// A document inside the document.
    Document(RawDocument<'a>),
    /// A list of values.
    Array(RawArray<'a>),
    /// The subtype, and the bytes.
    Binary(u8, &'a [u8]),
    /// The undefined value, of an old form.
    Undefined,
    /// The id of a document.
    ObjectId(ObjectId),
    /// True or false.
    Boolean(bool),
    /// A time in milliseconds.
    DateTime(DateTime),
    /// The null value.
    Null,
    /// A regular expression, and its options.
    Regex(&'a str, &'a str),
    /// The namespace and the id of another document, of an old form.
    DbPointer(&'a str, ObjectId),
    /// JavaScript code.
    Code(&'a str),
    /// A symbol, of an old form.
    Symbol(&'a str),
    /// JavaScript code with its variables, of an old form.
    CodeWithScope(&'a str, RawDocument<'a>),
    /// A whole number of 32 bits.
    Int32(i32),
    /// A time of the server's log of operations.
    Timestamp(Timestamp),
    /// A whole number of 64 bits.
    Int64(i64),
    /// A decimal floating point number, as its 16 bytes, the lowest first.
    Decimal128([u8; 16]),
    /// The value below all others.
    MinKey,
    /// The value above all others.
    MaxKey,
}

// By hand, so that letting one go is one call.
impl Drop for RawValue<'_> {
    fn drop(self) {
        match self {
            RawValue::Double(_)
            | RawValue::String(_)
            | RawValue::Document(_)
            | RawValue::Array(_)
            | RawValue::Binary(_, _)
            | RawValue::Undefined
            | RawValue::ObjectId(_)
            | RawValue::Boolean(_)
            | RawValue::DateTime(_)
            | RawValue::Null
            | RawValue::Regex(_, _)
            | RawValue::DbPointer(_, _)
            | RawValue::Code(_)
            | RawValue::Symbol(_)
            | RawValue::CodeWithScope(_, _)
            | RawValue::Int32(_)
            | RawValue::Timestamp(_)
            | RawValue::Int64(_)
            | RawValue::Decimal128(_)
            | RawValue::MinKey
            | RawValue::MaxKey => {}
        }
    }
}

/// An array that is lent from checked bytes: a document whose names may be any texts, since an
/// item is told by its place. In a contract it is its bytes, and `items` is what they spell.
///
///     for value in &array { .. }
#[derive(Debug, Drop)]
pub struct RawArray<'a> {
    bytes: &'a [u8],
}

impl<'a> Model for RawArray<'a> {
    ghost use Rattle.std.specs.Prelude.{List, ℕ};
    ghost use Rattle.mg_bson.specs.Raw.{IsDocument};

    ghost Value = { List ℕ };

    ghost view = { λ r. r.bytes.now };

    ghost invariant = { λ r. IsDocument r.bytes.now };
}

/// The values of a lent array that are left, in order. In a contract it is the bytes of their
/// elements, and `items_left` is what they spell.
///
///     for value in array.iter() { .. }
#[derive(Drop)]
pub struct RawItems<'a> {
    left: RawIter<'a>,
}

impl<'a> Model for RawItems<'a> {
    ghost use Rattle.std.specs.Prelude.{List, ℕ};

    ghost Value = { List ℕ };

    ghost view = { λ r. r.left };
}

impl<'a> RawArray<'a> {
    // The bytes, which the caller knows to be a document.
    #[inline(always)]
    pub(crate) fn checked(bytes: &'a [u8]) -> RawArray<'a>
        requires { IsDocument bytes.now }
        ensures { result ≡ bytes.now }
    {
        RawArray { bytes }
    }

    /// Goes through the values in order.
    pub fn iter(&self) -> RawItems<'a>
        ensures { items_left result ≡ items self.now }
    {
        let document = RawDocument { bytes: self.bytes };
        RawItems {
            left: document.iter(),
        }
    }

    /// Whether there is no value.
    pub fn is_empty(&self) -> bool
        ensures { IsTrue result ↔ (items self.now ≡ no_items) }
    {
        self.iter().next().is_none()
    }

    /// How many values there are. Each of them is passed over unread.
    pub fn len(&self) -> usize
        ensures { result ≡ items_length (items self.now) }
    {
        // No array has more values than bytes, so the count fits.
        let _bytes = self.bytes;
        let mut count = 0;
        let mut left = self.iter().left;
        while let Some(_) = left.next_element() {
            count += 1;
        }
        count
    }
}

impl<'a> RawItems<'a> {
    /// The next value, if one is left.
    #[inline(always)]
    pub fn next(&mut self) -> Option<RawValue<'a>>
        ensures { MatchOption result ((items_left self.old ≡ no_items) × (items_left self.new ≡ no_items))
            (λ v. items_left self.old ≡ item (value v) (items_left self.new)) }
    {
        match self.left.next() {
            Some((_, value)) => Some(value),
            None => None,
        }
    }
}

impl RawDocumentBuf {
    /// Checks that the bytes are one document, at all its levels, and keeps them. They are
    /// malformed exactly where they are none, or have more than
    /// [`MAX_LEVELS`](crate::MAX_LEVELS) levels. It takes no memory but the bytes.
    ///
    /// Bytes that are refused are let go. Who wants to know where they are at fault, or to keep
    /// them, asks [`RawDocument::from_bytes`] and [`Malformation::of`](crate::Malformation::of)
    /// first.
    pub fn from_bytes(bytes: Vec<u8>) -> Result<RawDocumentBuf, BsonError>
        ensures { MatchResult result
            (λ r. (r ≡ bytes.items) × IsDocument bytes.items)
            (λ e. (e ≡ Malformed) × (doc bytes.items ≡ None)) }
    {
        if is_document(&bytes, MAX_LEVELS) {
            Ok(RawDocumentBuf { bytes })
        } else {
            Err(BsonError::Malformed)
        }
    }

    // The bytes, which the caller knows to be a document.
    pub(crate) fn checked(bytes: Vec<u8>) -> RawDocumentBuf
        requires { IsDocument bytes.items }
        ensures { result ≡ bytes.items }
    {
        RawDocumentBuf { bytes }
    }

    /// Lends the document.
    pub fn as_raw(&self) -> RawDocument<'_>
        ensures { result ≡ self.now }
    {
        RawDocument { bytes: &self.bytes }
    }

    /// Lends the bytes.
    pub fn as_bytes(&self) -> &[u8]
        ensures { result.now ≡ self.now }
    {
        &self.bytes
    }

    /// The bytes, without a copy.
    pub fn into_bytes(self) -> Vec<u8>
        ensures bytes { result.items ≡ self }
        ensures document { IsDocument result.items }
    {
        self.bytes
    }
}

impl Clone for RawDocumentBuf {
    ghost is_clone = { λ v w. w ≡ v };

    fn clone(&self) -> Result<RawDocumentBuf, AllocError> {
        let bytes = self.bytes.clone()?;
        Ok(RawDocumentBuf { bytes })
    }
}

impl PartialEq for RawDocumentBuf {
    ghost eq = { bytes_eq };

    ghost laws = { partial_equiv_from_equiv nat_list_eq_equiv };

    fn eq(&self, other: &RawDocumentBuf) -> bool {
        self.bytes == other.bytes
    }
}

impl Eq for RawDocumentBuf {
    ghost laws = { nat_list_eq_equiv };
}

impl<'a> Clone for RawDocument<'a> {
    ghost is_clone = { λ v w. w ≡ v };

    ghost is_infallible = { λ _. ⊤ };

    /// Lends the same bytes. It takes no memory: its `Result` is never an error.
    fn clone(&self) -> Result<RawDocument<'a>, AllocError> {
        Ok(RawDocument { bytes: self.bytes })
    }
}

impl<'a> Clone for RawArray<'a> {
    ghost is_clone = { λ v w. w ≡ v };

    ghost is_infallible = { λ _. ⊤ };

    /// Lends the same bytes. It takes no memory: its `Result` is never an error.
    fn clone(&self) -> Result<RawArray<'a>, AllocError> {
        Ok(RawArray { bytes: self.bytes })
    }
}

impl<'a> Clone for RawIter<'a> {
    ghost is_clone = { λ v w. w ≡ v };

    ghost is_infallible = { λ _. ⊤ };

    /// The same elements once more. It takes no memory: its `Result` is never an error.
    ///
    ///     let again = left.clone()?;
    fn clone(&self) -> Result<RawIter<'a>, AllocError> {
        Ok(RawIter { rest: self.rest })
    }
}

impl<'a> Clone for RawItems<'a> {
    ghost is_clone = { λ v w. w ≡ v };

    ghost is_infallible = { λ _. ⊤ };

    /// The same values once more. It takes no memory: its `Result` is never an error.
    ///
    ///     let again = left.clone()?;
    fn clone(&self) -> Result<RawItems<'a>, AllocError> {
        let left = self.left.clone()?;
        Ok(RawItems { left })
    }
}

impl<'a> Clone for RawValue<'a> {
    ghost is_clone = { λ v w. w ≡ v };

    ghost is_infallible = { λ _. ⊤ };

    /// Lends the same value. It takes no memory: its `Result` is never an error.
    ///
    ///     let same = value.clone()?;
    fn clone(&self) -> Result<RawValue<'a>, AllocError> {
        Ok(match self {
            RawValue::Double(v) => RawValue::Double(*v),
            RawValue::String(text) => RawValue::String(text),
            RawValue::Document(d) => RawValue::Document(RawDocument { bytes: d.bytes }),
            RawValue::Array(a) => RawValue::Array(RawArray { bytes: a.bytes }),
            RawValue::Binary(subtype, bytes) => RawValue::Binary(*subtype, bytes),
            RawValue::Undefined => RawValue::Undefined,
            RawValue::ObjectId(id) => RawValue::ObjectId(*id),
            RawValue::Boolean(b) => RawValue::Boolean(*b),
            RawValue::DateTime(t) => RawValue::DateTime(*t),
            RawValue::Null => RawValue::Null,
            RawValue::Regex(pattern, options) => RawValue::Regex(pattern, options),
            RawValue::DbPointer(namespace, id) => RawValue::DbPointer(namespace, *id),
            RawValue::Code(text) => RawValue::Code(text),
            RawValue::Symbol(text) => RawValue::Symbol(text),
            RawValue::CodeWithScope(code, scope) => RawValue::CodeWithScope(
                code,
                RawDocument { bytes: scope.bytes },
            ),
            RawValue::Int32(n) => RawValue::Int32(*n),
            RawValue::Timestamp(t) => RawValue::Timestamp(*t),
            RawValue::Int64(n) => RawValue::Int64(*n),
            RawValue::Decimal128(v) => RawValue::Decimal128(*v),
            RawValue::MinKey => RawValue::MinKey,
            RawValue::MaxKey => RawValue::MaxKey,
        })
    }
}

impl<'a> RawDocument<'a> {
    /// Checks that the bytes are one document, at all its levels, and lends it where they stand. They are malformed exactly
    /// where [`RawDocumentBuf::from_bytes`] finds them so. It takes no memory.
    ///
    ///     let raw = RawDocument::from_bytes(&bytes)?;
    pub fn from_bytes(bytes: &'a [u8]) -> Result<RawDocument<'a>, BsonError>
        ensures { MatchResult result
            (λ r. (r ≡ bytes.now) × IsDocument bytes.now)
            (λ e. (e ≡ Malformed) × (doc bytes.now ≡ None)) }
    {
        if is_document(bytes, MAX_LEVELS) {
            Ok(RawDocument { bytes })
        } else {
            Err(BsonError::Malformed)
        }
    }

    // The bytes, which the caller knows to be a document.
    #[inline(always)]
    pub(crate) fn checked(bytes: &'a [u8]) -> RawDocument<'a>
        requires { IsDocument bytes.now }
        ensures { result ≡ bytes.now }
    {
        RawDocument { bytes }
    }

    /// Lends the bytes of the document, those of its length and its end included.
    pub fn as_bytes(&self) -> &'a [u8]
        ensures bytes { result.now ≡ self.now }
        ensures document { IsDocument self.now }
    {
        self.bytes
    }

    /// A copy that owns its bytes. Only memory can fail.
    pub fn to_buf(&self, alloc: Global) -> Result<RawDocumentBuf, BsonError>
        ensures ok { IfOk result (λ r. r ≡ self.now) }
        ensures err { IfErr result (λ e. e ≡ OutOfMemory) }
    {
        let bytes = Vec::from_slice(alloc, self.bytes)?;
        Ok(RawDocumentBuf { bytes })
    }

    /// Goes through the names and values in order.
    pub fn iter(&self) -> RawIter<'a>
        ensures { fields_left result ≡ fields self.now }
    {
        match body_of(self.bytes) {
            Some(rest) => RawIter { rest },
            None => RawIter { rest: &[] },
        }
    }

    /// The first value of the name. Values of other names are passed over unread.
    pub fn get(&self, name: &str) -> Option<RawValue<'a>>
        ensures { option_map value result ≡ get name.now (fields self.now) }
    {
        let mut left = self.iter();
        while let Some(element) = left.next_element() {
            if element.name == name {
                let (_, value) = open(element.name, element.kind, element.value)?;
                return Some(value);
            }
        }
        None
    }
}

impl<'a> RawIter<'a> {
    // The next element, whose value is not opened.
    #[inline(always)]
    fn next_element(&mut self) -> Option<Element<'a>>
        ensures { MatchOption result ((fields_left self.old ≡ no_fields) × (fields_left self.new ≡ no_fields))
            (λ e. IsValue (spelling e) × (fields_left self.old ≡ field e.name.now (spelled (spelling e)) (fields_left self.new))) }
    {
        let element = split_known(self.rest)?;
        self.rest = element.rest;
        Some(element)
    }

    /// The next name and value, if one is left.
    #[inline(always)]
    pub fn next(&mut self) -> Option<(&'a str, RawValue<'a>)>
        ensures { MatchOption result ((fields_left self.old ≡ no_fields) × (fields_left self.new ≡ no_fields))
            (λ r. fields_left self.old ≡ field r.0.now (value r.1) (fields_left self.new)) }
    {
        let element = self.next_element()?;
        open(element.name, element.kind, element.value)
    }
}

// The name, and the value of the kind that the bytes spell: in one, so that the value is made where it is wanted.
#[inline(always)]
fn open<'a>(name: &'a str, kind: Kind, bytes: &'a [u8]) -> Option<(&'a str, RawValue<'a>)>
    requires { IsValue (record { kind = kind; bytes = bytes.now }) }
    ensures name { IfSome result (λ r. r.0.now ≡ name.now) }
    ensures value { option_map (λ r. value r.1) result ≡ value_at (doc_at 99) kind bytes.now }
{
    match kind {
        Kind::Double => Some((name, RawValue::Double(array_of(bytes)))),
        Kind::String => Some((name, RawValue::String(known_text_of(bytes)))),
        Kind::Document => Some((name, RawValue::Document(RawDocument { bytes }))),
        Kind::Array => Some((name, RawValue::Array(RawArray { bytes }))),
        Kind::Binary => open_binary(name, bytes),
        Kind::Undefined => Some((name, RawValue::Undefined)),
        Kind::ObjectId => Some((name, RawValue::ObjectId(ObjectId(array_of(bytes))))),
        Kind::Boolean => Some((name, RawValue::Boolean(boolean_of(bytes)?))),
        Kind::DateTime => {
            let millis = i64_at(bytes);
            Some((name, RawValue::DateTime(DateTime { millis })))
        }
        Kind::Null => Some((name, RawValue::Null)),
        Kind::Regex => open_regex(name, bytes),
        Kind::DbPointer => open_pointer(name, bytes),
        Kind::Code => Some((name, RawValue::Code(known_text_of(bytes)))),
        Kind::Symbol => Some((name, RawValue::Symbol(known_text_of(bytes)))),
        Kind::CodeWithScope => open_scope(name, bytes),
        Kind::Int32 => Some((name, RawValue::Int32(i32_at(bytes)))),
        Kind::Timestamp => Some((name, RawValue::Timestamp(timestamp_at(bytes)))),
        Kind::Int64 => Some((name, RawValue::Int64(i64_at(bytes)))),
        Kind::Decimal128 => Some((name, RawValue::Decimal128(array_of(bytes)))),
        Kind::MinKey => Some((name, RawValue::MinKey)),
        Kind::MaxKey => Some((name, RawValue::MaxKey)),
    }
}

#[inline(always)]
fn open_binary<'a>(name: &'a str, bytes: &'a [u8]) -> Option<(&'a str, RawValue<'a>)>
    ensures name { IfSome result (λ r. r.0.now ≡ name.now) }
    ensures value { option_map (λ r. value r.1) result ≡ binary_at bytes.now }
{
    let (subtype, bytes) = binary_of(bytes)?;
    Some((name, RawValue::Binary(subtype, bytes)))
}

#[inline(always)]
fn open_regex<'a>(name: &'a str, bytes: &'a [u8]) -> Option<(&'a str, RawValue<'a>)>
    ensures name { IfSome result (λ r. r.0.now ≡ name.now) }
    ensures value { option_map (λ r. value r.1) result ≡ regex_at bytes.now }
{
    let (pattern, options) = regex_of(bytes)?;
    Some((name, RawValue::Regex(pattern, options)))
}

#[inline(always)]
fn open_pointer<'a>(name: &'a str, bytes: &'a [u8]) -> Option<(&'a str, RawValue<'a>)>
    ensures name { IfSome result (λ r. r.0.now ≡ name.now) }
    ensures value { option_map (λ r. value r.1) result ≡ pointer_at bytes.now }
{
    let (namespace, id) = pointer_of(bytes)?;
    let id = ObjectId(array_of(id));
    Some((name, RawValue::DbPointer(namespace, id)))
}

#[inline(always)]
fn open_scope<'a>(name: &'a str, bytes: &'a [u8]) -> Option<(&'a str, RawValue<'a>)>
    requires { IsValue (record { kind = CodeWithScope; bytes = bytes.now }) }
    ensures name { IfSome result (λ r. r.0.now ≡ name.now) }
    ensures value { option_map (λ r. value r.1) result ≡ value_at (doc_at 99) CodeWithScope bytes.now }
{
    let (code, scope) = scope_of(bytes)?;
    let scope = RawDocument { bytes: scope };
    Some((name, RawValue::CodeWithScope(code, scope)))
}

// The increment, and the seconds behind it.
#[inline(always)]
fn timestamp_at(bytes: &[u8]) -> Timestamp
    requires { length bytes.now ≡ 8 }
    ensures { (result.time ≡ le32_at (drop 4 bytes.now)) × (result.increment ≡ le32_at bytes.now) }
{
    Timestamp {
        time: u32_at(&bytes[4..]),
        increment: u32_at(bytes),
    }
}

impl<'a> RawValue<'a> {
    /// The text of a string, and nothing of another kind.
    pub fn as_str(&self) -> Option<&'a str>
        ensures { option_map (λ s. s.now) result ≡ as_string (value self.now) }
    {
        match self {
            RawValue::String(text) => Some(text),
            _ => None,
        }
    }

    /// The number of 32 bits, and nothing of another kind.
    pub fn as_i32(&self) -> Option<i32>
        ensures { result ≡ as_int32 (value self.now) }
    {
        match self {
            RawValue::Int32(n) => Some(*n),
            _ => None,
        }
    }

    /// The number of 64 bits, and nothing of another kind.
    pub fn as_i64(&self) -> Option<i64>
        ensures { result ≡ as_int64 (value self.now) }
    {
        match self {
            RawValue::Int64(n) => Some(*n),
            _ => None,
        }
    }

    /// The truth value, and nothing of another kind.
    pub fn as_bool(&self) -> Option<bool>
        ensures { result ≡ as_boolean (value self.now) }
    {
        match self {
            RawValue::Boolean(b) => Some(*b),
            _ => None,
        }
    }

    /// The time of the log of operations, and nothing of another kind.
    pub fn as_timestamp(&self) -> Option<Timestamp>
        ensures { option_map (λ t. (t.time, t.increment)) result ≡ as_timestamp (value self.now) }
    {
        match self {
            RawValue::Timestamp(t) => Some(*t),
            _ => None,
        }
    }

    /// The subtype and the bytes, and nothing of another kind.
    pub fn as_binary(&self) -> Option<(u8, &'a [u8])>
        ensures { option_map (λ p. (p.0, p.1.now)) result ≡ as_binary (value self.now) }
    {
        match self {
            RawValue::Binary(subtype, bytes) => Some((*subtype, bytes)),
            _ => None,
        }
    }

    /// The document inside, and nothing of another kind.
    pub fn as_document(&self) -> Option<RawDocument<'a>>
        ensures { option_map fields result ≡ as_document (value self.now) }
    {
        match self {
            RawValue::Document(d) => Some(RawDocument { bytes: d.bytes }),
            _ => None,
        }
    }

    /// The list of values, and nothing of another kind.
    pub fn as_array(&self) -> Option<RawArray<'a>>
        ensures { option_map items result ≡ as_array (value self.now) }
    {
        match self {
            RawValue::Array(a) => Some(RawArray { bytes: a.bytes }),
            _ => None,
        }
    }

    /// The eight bytes of a floating point number, the lowest first, and nothing of another kind.
    pub fn as_double(&self) -> Option<[u8; 8]>
        ensures { result ≡ as_double (value self.now) }
    {
        match self {
            RawValue::Double(v) => Some(*v),
            _ => None,
        }
    }

    /// The id, and nothing of another kind.
    pub fn as_object_id(&self) -> Option<ObjectId>
        ensures { option_map (λ id. id.0) result ≡ as_object_id (value self.now) }
    {
        match self {
            RawValue::ObjectId(id) => Some(*id),
            _ => None,
        }
    }

    /// The time in milliseconds, and nothing of another kind.
    pub fn as_date_time(&self) -> Option<DateTime>
        ensures { option_map (λ t. t.millis) result ≡ as_date_time (value self.now) }
    {
        match self {
            RawValue::DateTime(t) => Some(*t),
            _ => None,
        }
    }

    /// The 16 bytes of a decimal floating point number, the lowest first, and nothing of another kind.
    ///
    ///     let Some(bytes) = value.as_decimal128() else { .. };
    pub fn as_decimal128(&self) -> Option<[u8; 16]>
        ensures { result ≡ as_decimal128 (value self.now) }
    {
        match self {
            RawValue::Decimal128(v) => Some(*v),
            _ => None,
        }
    }

    /// Whether the value is null.
    pub fn is_null(&self) -> bool
        ensures { result ≡ is_null (value self.now) }
    {
        matches!(self, RawValue::Null)
    }

    /// A copy that owns its parts. Only memory can fail.
    pub fn to_value(&self, alloc: Global) -> Result<Bson, BsonError>
        ensures ok { IfOk result (λ v. tree v ≡ value self.now) }
        ensures err { IfErr result (λ e. e ≡ OutOfMemory) }
    {
        read_value(alloc, self)
    }
}
