//! Documents as trees that own their parts.
ghost use Rattle.std.specs.Prelude.{◌≡◌, ◌↔◌, IsTrue, [], ◌∷◌, MatchOption, IfOk, IfErr, OnOk, OnErr, Some, None, option_map, ⊤};
ghost use Rattle.mg_bson.specs.Tree.{no_fields, field, no_items, item};
ghost use Rattle.mg_bson.specs.Find.{get, put, without, fields_length, with_item, with_field, names, items_length, item_at, is_null, as_double, as_string, as_document, as_array, as_binary, as_object_id, as_boolean, as_date_time, as_int32, as_timestamp, as_int64, as_decimal128};
ghost use Rattle.mg_bson.specs.View.{tree, items_of, place};
ghost use Rattle.mg_bson.specs.Bytes.{kind_of};
ghost use Rattle.mg_bson.specs.declared.error.BsonError.TheVariants.{OutOfMemory};

use crate::error::BsonError;
use crate::kind::Kind;
use crate::name::Name;
use crate::object_id::ObjectId;
use std::alloc::{AllocError, Global};
use std::marker::Model;
use std::mem;

/// Bytes and what they are for.
///
///     let bytes = Vec::from_slice(alloc, &[1, 2])?;
///     document.append("key", Bson::from(Binary { subtype: 0, bytes }))?;
#[derive(Clone, Debug, PartialEq, Eq, Drop)]
pub struct Binary {
    /// The subtype of the BSON specification: 0 for bytes of no further meaning.
    pub subtype: u8,
    /// The bytes as they stand, those of the old subtype 2 too.
    pub bytes: Vec<u8>,
}

/// A time in milliseconds since the start of 1970 in UTC.
///
///     document.append("at", Bson::from(DateTime { millis: 1_700_000_000_000 }))?;
#[derive(Clone, Copy, Debug, PartialEq, Eq, PartialOrd, Ord, Hash)]
pub struct DateTime {
    /// The milliseconds, below 0 before 1970.
    pub millis: i64,
}

/// A time of the server's log of operations.
///
///     document.append("clusterTime", Bson::from(Timestamp { time: 1_700_000_000, increment: 1 }))?;
#[derive(Clone, Copy, Debug, PartialEq, Eq, PartialOrd, Ord, Hash)]
pub struct Timestamp {
    /// Seconds since the start of 1970 in UTC.
    pub time: u32,
    /// The place among the operations of that second.
    pub increment: u32,
}

/// A regular expression as text, which is not looked into.
///
///     let regex = Regex { pattern, options };
///     document.append("name", Bson::Regex(Box::new(alloc, regex)?))?;
#[derive(Clone, Debug, PartialEq, Eq, Drop)]
pub struct Regex {
    /// The expression. It can be encoded if it does not hold the character 0.
    pub pattern: String,
    /// Its options, one letter each. They can be encoded if they do not hold the character 0.
    pub options: String,
}

/// A reference to a document of another collection, of an old form.
///
///     let pointer = DbPointer { namespace, id };
///     document.append("ref", Bson::DbPointer(Box::new(alloc, pointer)?))?;
#[derive(Clone, Debug, PartialEq, Eq, Drop)]
pub struct DbPointer {
    /// The database and the collection, with a dot between them.
    pub namespace: String,
    /// The id of the document.
    pub id: ObjectId,
}

/// JavaScript code, and the values of its free variables.
///
///     let code = CodeWithScope { code, scope: Document::new(alloc) };
///     document.append("f", Bson::CodeWithScope(Box::new(alloc, code)?))?;
#[cycle(tree)]
#[derive(Debug, PartialEq, Eq, Drop)]
pub struct CodeWithScope {
    /// The code, which is not looked into.
    pub code: String,
    /// The variables.
    pub scope: Document,
}

/// A value of a document: one variant for each kind of element of the BSON specification. The rare kinds with two parts
/// stand in a box, so that the others take less room.
///
///     match value {
///         Bson::Int32(n) => i64::from(*n),
///         Bson::Int64(n) => *n,
///         _ => 0,
///     }
#[cycle(tree)]
#[derive(Debug)]
pub enum Bson {
    /// A floating point number: the eight bytes of IEEE 754's binary64, the lowest first, as they stand in a document.
    /// `f64::to_le_bytes` gives them.
    Double([u8; 8]),
    /// A text in UTF-8.
    String(String),
    /// A document inside the document.
    Document(Document),
    /// A list of values.
    Array(Array),
    /// Bytes.
    Binary(Binary),
    /// The undefined value, of an old form.
    Undefined,
    /// The id of a document.
    ObjectId(ObjectId),
    /// True or false.
    Boolean(bool),
    /// A time in milliseconds.
    DateTime(DateTime),
    /// The null value.
    Null,
    /// A regular expression.
    Regex(Box<Regex>),
    /// A reference to another document, of an old form.
    DbPointer(Box<DbPointer>),
    /// JavaScript code.
    Code(String),
    /// A symbol, of an old form.
    Symbol(String),
    /// JavaScript code with its variables, of an old form.
    CodeWithScope(Box<CodeWithScope>),
    /// A whole number of 32 bits.
    Int32(i32),
    /// A time of the server's log of operations.
    Timestamp(Timestamp),
    /// A whole number of 64 bits.
    Int64(i64),
    /// A decimal floating point number: the 16 bytes of IEEE 754's decimal128 in its binary integer form, the lowest
    /// first, as they stand in a document.
    Decimal128([u8; 16]),
    /// The value below all others.
    MinKey,
    /// The value above all others.
    MaxKey,
}

// By hand, so that letting one go is one call.
impl Drop for Bson {
    #[cycle(drops)]
    fn drop(self) {
        match self {
            Bson::Double(_) => {}
            Bson::String(_) => {}
            Bson::Document(_) => {}
            Bson::Array(_) => {}
            Bson::Binary(_) => {}
            Bson::Undefined => {}
            Bson::ObjectId(_) => {}
            Bson::Boolean(_) => {}
            Bson::DateTime(_) => {}
            Bson::Null => {}
            Bson::Regex(_) => {}
            Bson::DbPointer(_) => {}
            Bson::Code(_) => {}
            Bson::Symbol(_) => {}
            Bson::CodeWithScope(_) => {}
            Bson::Int32(_) => {}
            Bson::Timestamp(_) => {}
            Bson::Int64(_) => {}
            Bson::Decimal128(_) => {}
            Bson::MinKey => {}
            Bson::MaxKey => {}
        }
    }
}

// A name and its value.
#[cycle(tree)]
#[derive(Debug, Drop)]
pub(crate) struct Field {
    pub(crate) name: Name,
    pub(crate) value: Bson,
}

/// A document: a list of pairs of a name and a value. A name may stand in it more than once.
///
/// In a contract it is that list. `==` says whether the lists are the same, in the same order.
///
///     let mut document = Document::new(alloc);
///     document.append("name", Bson::String(String::from_str(alloc, "Ada")?))?;
///     document.append("born", Bson::from(1815))?;
///     for (name, value) in &document { .. }
///     let born = document.get_i32("born");  // Ok(1815)
#[cycle(tree)]
#[derive(Debug)]
pub struct Document {
    pub(crate) fields: Vec<Field>,
}

// By hand, so that letting one go is one call.
impl Drop for Document {
    #[cycle(drops)]
    fn drop(self) {
        let Document { fields: _ } = self;
    }
}

/// A list of values. In a contract it is that list.
///
///     let mut items = Array::new(alloc);
///     items.push(Bson::from(1))?;
///     for value in &items { .. }
#[cycle(tree)]
#[derive(Debug)]
pub struct Array {
    pub(crate) items: Vec<Bson>,
}

// By hand, so that letting one go is one call.
impl Drop for Array {
    #[cycle(drops)]
    fn drop(self) {
        let Array { items: _ } = self;
    }
}

impl Model for Document {
    ghost use Rattle.mg_bson.specs.Tree.{Fields, fields_size};
    ghost use Rattle.mg_bson.specs.Coded.{coded_fields};

    ghost Value = { Fields };

    ghost coded = { coded_fields };

    ghost use Rattle.mg_bson.specs.View.{fields_of};

    ghost view = { λ d. fields_of d.fields.items };

    ghost size = { fields_size };

    ghost use Rattle.mg_bson.specs.Falls.{fields_fall};

    ghost size_decreases = { λ a h. fields_fall a.fields.items };
}

impl Model for Array {
    ghost use Rattle.mg_bson.specs.Tree.{Items, items_size};
    ghost use Rattle.mg_bson.specs.Coded.{coded_items};

    ghost Value = { Items };

    ghost coded = { coded_items };

    ghost use Rattle.mg_bson.specs.View.{items_of};

    ghost view = { λ a. items_of a.items.items };

    ghost size = { items_size };

    ghost use Rattle.mg_bson.specs.Falls.{items_fall};

    ghost size_decreases = { λ a h. items_fall a.items.items };
}

impl Bson {
    /// The kind of the value.
    pub fn kind(&self) -> Kind
        ensures { result ≡ kind_of (tree self.now) }
    {
        match self {
            Bson::Double(_) => Kind::Double,
            Bson::String(_) => Kind::String,
            Bson::Document(_) => Kind::Document,
            Bson::Array(_) => Kind::Array,
            Bson::Binary(_) => Kind::Binary,
            Bson::Undefined => Kind::Undefined,
            Bson::ObjectId(_) => Kind::ObjectId,
            Bson::Boolean(_) => Kind::Boolean,
            Bson::DateTime(_) => Kind::DateTime,
            Bson::Null => Kind::Null,
            Bson::Regex(_) => Kind::Regex,
            Bson::DbPointer(_) => Kind::DbPointer,
            Bson::Code(_) => Kind::Code,
            Bson::Symbol(_) => Kind::Symbol,
            Bson::CodeWithScope(_) => Kind::CodeWithScope,
            Bson::Int32(_) => Kind::Int32,
            Bson::Timestamp(_) => Kind::Timestamp,
            Bson::Int64(_) => Kind::Int64,
            Bson::Decimal128(_) => Kind::Decimal128,
            Bson::MinKey => Kind::MinKey,
            Bson::MaxKey => Kind::MaxKey,
        }
    }

    /// The eight bytes of a floating point number, the lowest first, and nothing of another kind.
    pub fn as_double(&self) -> Option<[u8; 8]>
        ensures { result ≡ as_double (tree self.now) }
    {
        match self {
            Bson::Double(v) => Some(*v),
            _ => None,
        }
    }

    /// The text of a string, and nothing of another kind.
    pub fn as_str(&self) -> Option<&str>
        ensures { option_map (λ s. s.now) result ≡ as_string (tree self.now) }
    {
        match self {
            Bson::String(text) => Some(text.as_str()),
            _ => None,
        }
    }

    /// The document inside, and nothing of another kind.
    pub fn as_document(&self) -> Option<&Document>
        ensures { option_map (λ d. d.now) result ≡ as_document (tree self.now) }
    {
        match self {
            Bson::Document(d) => Some(d),
            _ => None,
        }
    }

    /// The document inside. A value of another kind is handed back as the error.
    ///
    ///     let Ok(document) = value.into_document() else { .. };
    pub fn into_document(self) -> Result<Document, Bson>
        ensures ok { IfOk result (λ d. as_document (tree self) ≡ Some d) }
        ensures err { IfErr result (λ v. (v ≡ self) × (as_document (tree self) ≡ None)) }
    {
        match self {
            Bson::Document(document) => Ok(document),
            other => Err(other),
        }
    }

    /// The list of values, and nothing of another kind.
    pub fn as_array(&self) -> Option<&Array>
        ensures { option_map (λ a. a.now) result ≡ as_array (tree self.now) }
    {
        match self {
            Bson::Array(a) => Some(a),
            _ => None,
        }
    }

    /// The bytes and their subtype, and nothing of another kind.
    pub fn as_binary(&self) -> Option<&Binary>
        ensures { option_map (λ b. (b.now.subtype, b.now.bytes.items)) result ≡ as_binary (tree self.now) }
    {
        match self {
            Bson::Binary(b) => Some(b),
            _ => None,
        }
    }

    /// The id, and nothing of another kind.
    pub fn as_object_id(&self) -> Option<ObjectId>
        ensures { option_map (λ id. id.0) result ≡ as_object_id (tree self.now) }
    {
        match self {
            Bson::ObjectId(id) => Some(*id),
            _ => None,
        }
    }

    /// The truth value, and nothing of another kind.
    pub fn as_bool(&self) -> Option<bool>
        ensures { result ≡ as_boolean (tree self.now) }
    {
        match self {
            Bson::Boolean(b) => Some(*b),
            _ => None,
        }
    }

    /// The time in milliseconds, and nothing of another kind.
    pub fn as_date_time(&self) -> Option<DateTime>
        ensures { option_map (λ t. t.millis) result ≡ as_date_time (tree self.now) }
    {
        match self {
            Bson::DateTime(t) => Some(*t),
            _ => None,
        }
    }

    /// The number of 32 bits, and nothing of another kind.
    pub fn as_i32(&self) -> Option<i32>
        ensures { result ≡ as_int32 (tree self.now) }
    {
        match self {
            Bson::Int32(n) => Some(*n),
            _ => None,
        }
    }

    /// The time of the log of operations, and nothing of another kind.
    pub fn as_timestamp(&self) -> Option<Timestamp>
        ensures { option_map (λ t. (t.time, t.increment)) result ≡ as_timestamp (tree self.now) }
    {
        match self {
            Bson::Timestamp(t) => Some(*t),
            _ => None,
        }
    }

    /// The number of 64 bits, and nothing of another kind.
    pub fn as_i64(&self) -> Option<i64>
        ensures { result ≡ as_int64 (tree self.now) }
    {
        match self {
            Bson::Int64(n) => Some(*n),
            _ => None,
        }
    }

    /// The 16 bytes of a decimal floating point number, the lowest first, and nothing of another kind.
    ///
    ///     let Some(bytes) = value.as_decimal128() else { .. };
    pub fn as_decimal128(&self) -> Option<[u8; 16]>
        ensures { result ≡ as_decimal128 (tree self.now) }
    {
        match self {
            Bson::Decimal128(v) => Some(*v),
            _ => None,
        }
    }

    /// Whether the value is null.
    pub fn is_null(&self) -> bool
        ensures { result ≡ is_null (tree self.now) }
    {
        matches!(self, Bson::Null)
    }
}

/// The pairs of a document that are left, in order. In a contract it is the document of them.
///
///     for (name, value) in document.iter() { .. }
#[derive(Drop)]
pub struct DocumentIter<'a> {
    rest: &'a [Field],
}

impl<'a> Model for DocumentIter<'a> {
    ghost use Rattle.mg_bson.specs.Tree.{Fields};
    ghost use Rattle.mg_bson.specs.Coded.{coded_fields};

    ghost Value = { Fields };

    ghost coded = { coded_fields };

    ghost use Rattle.mg_bson.specs.View.{fields_of};

    ghost view = { λ i. fields_of i.rest.now };
}

impl<'a> DocumentIter<'a> {
    /// The next pair, if one is left.
    pub fn next(&mut self) -> Option<(&'a str, &'a Bson)>
        ensures { MatchOption result ((self.old ≡ no_fields) × (self.new ≡ no_fields))
            (λ r. self.old ≡ field r.0.now (tree r.1.now) self.new) }
    {
        match self.rest {
            [] => None,
            [first, rest @ ..] => {
                self.rest = rest;
                Some((first.name.as_str(), &first.value))
            }
        }
    }
}

impl<'a> Clone for DocumentIter<'a> {
    ghost is_clone = { λ v w. w ≡ v };

    ghost is_infallible = { λ _. ⊤ };

    /// The same pairs once more. It takes no memory: its `Result` is never an error.
    ///
    ///     let again = left.clone()?;
    fn clone(&self) -> Result<DocumentIter<'a>, AllocError> {
        Ok(DocumentIter { rest: self.rest })
    }
}

/// The names of a document that are left, in order. In a contract it is the list of them.
///
///     for name in document.keys() { .. }
#[derive(Drop)]
pub struct DocumentKeys<'a> {
    left: DocumentIter<'a>,
}

impl<'a> Model for DocumentKeys<'a> {
    ghost use Rattle.std.specs.Prelude.{List, ℕ};
    ghost use Rattle.mg_bson.specs.Find.{names};

    ghost Value = { List (List ℕ) };

    ghost view = { λ k. names k.left };
}

impl<'a> DocumentKeys<'a> {
    /// The next name, if one is left.
    pub fn next(&mut self) -> Option<&'a str>
        ensures { MatchOption result ((self.old ≡ []) × (self.new ≡ [])) (λ k. self.old ≡ k.now ∷ self.new) }
    {
        match self.left.next() {
            Some((name, _)) => Some(name),
            None => None,
        }
    }
}

impl<'a> Clone for DocumentKeys<'a> {
    ghost is_clone = { λ v w. w ≡ v };

    ghost is_infallible = { λ _. ⊤ };

    /// The same names once more. It takes no memory: its `Result` is never an error.
    ///
    ///     let again = left.clone()?;
    fn clone(&self) -> Result<DocumentKeys<'a>, AllocError> {
        let left = self.left.clone()?;
        Ok(DocumentKeys { left })
    }
}

impl Document {
    /// The empty document. It takes no memory.
    pub fn new(alloc: Global) -> Document
        ensures { result ≡ no_fields }
    {
        Document {
            fields: Vec::new(alloc),
        }
    }

    /// How many pairs there are.
    pub fn len(&self) -> usize
        ensures { result ≡ fields_length self.now }
    {
        self.fields.len()
    }

    /// Whether there is no pair.
    pub fn is_empty(&self) -> bool
        ensures { IsTrue result ↔ (self.now ≡ no_fields) }
    {
        self.fields.is_empty()
    }

    /// Goes through the pairs in order.
    pub fn iter(&self) -> DocumentIter<'_>
        ensures { result ≡ self.now }
    {
        DocumentIter { rest: &self.fields }
    }

    /// Goes through the names in order.
    pub fn keys(&self) -> DocumentKeys<'_>
        ensures { result ≡ names self.now }
    {
        DocumentKeys { left: self.iter() }
    }

    /// The first value of the name.
    pub fn get(&self, name: &str) -> Option<&Bson>
        ensures { option_map (λ v. tree v.now) result ≡ get name.now self.now }
    {
        let i = place_of(&self.fields, name)?;
        Some(&self.fields[i].value)
    }

    /// Puts the value in place of the first one of the name, and gives the old one. Where the name
    /// is absent, the pair goes to the end. Only memory can fail, and then nothing has changed.
    pub fn insert(&mut self, name: &str, value: Bson) -> Result<Option<Bson>, BsonError>
        ensures ok { OnOk result (self.new ≡ put name.now (tree value) self.old) }
        ensures old { IfOk result (λ old. option_map tree old ≡ get name.now self.old) }
        ensures err { IfErr result (λ e. (e ≡ OutOfMemory) × (self.new ≡ self.old)) }
    {
        match place_of(&self.fields, name) {
            Some(i) => {
                let field = &mut self.fields[i];
                Ok(Some(mem::replace(&mut field.value, value)))
            }
            None => {
                self.append(name, value)?;
                Ok(None)
            }
        }
    }

    /// Puts the pair at the end, whether or not the name stands in the document already. Only
    /// memory can fail, and then nothing has changed.
    pub fn append(&mut self, name: &str, value: Bson) -> Result<(), BsonError>
        ensures ok { OnOk result (self.new ≡ with_field self.old name.now (tree value)) }
        ensures err { IfErr result (λ e. e ≡ OutOfMemory) }
        ensures same { OnErr result (self.new ≡ self.old) }
    {
        let Ok(name) = Name::from_str(*self.fields.allocator(), name) else {
            drop(value);
            return Err(BsonError::OutOfMemory);
        };
        self.fields.push(Field { name, value })?;
        Ok(())
    }

    /// Takes out the first pair of the name, and gives its value. The others keep their order.
    pub fn remove(&mut self, name: &str) -> Option<Bson>
        ensures rest { self.new ≡ without name.now self.old }
        ensures removed { option_map tree result ≡ get name.now self.old }
    {
        let i = place_of(&self.fields, name)?;
        Some(self.fields.remove(i).value)
    }
}

// Where the first field of the name stands.
pub(crate) fn place_of(fields: &[Field], name: &str) -> Option<usize>
    ensures { result ≡ place name.now fields.now }
{
    fields.iter().position(|field| field.name.as_str() == name)
}

/// The values of an array that are left, in order. In a contract it is the list of them.
///
///     for value in array.iter() { .. }
#[derive(Drop)]
pub struct ArrayIter<'a> {
    rest: &'a [Bson],
}

impl<'a> Model for ArrayIter<'a> {
    ghost use Rattle.mg_bson.specs.Tree.{Items};
    ghost use Rattle.mg_bson.specs.Coded.{coded_items};

    ghost Value = { Items };

    ghost coded = { coded_items };

    ghost use Rattle.mg_bson.specs.View.{items_of};

    ghost view = { λ i. items_of i.rest.now };
}

impl<'a> ArrayIter<'a> {
    /// The next value, if one is left.
    pub fn next(&mut self) -> Option<&'a Bson>
        ensures { MatchOption result ((self.old ≡ no_items) × (self.new ≡ no_items)) (λ v. self.old ≡ item (tree v.now) self.new) }
    {
        match self.rest {
            [] => None,
            [first, rest @ ..] => {
                self.rest = rest;
                Some(first)
            }
        }
    }
}

impl<'a> Clone for ArrayIter<'a> {
    ghost is_clone = { λ v w. w ≡ v };

    ghost is_infallible = { λ _. ⊤ };

    /// The same values once more. It takes no memory: its `Result` is never an error.
    ///
    ///     let again = left.clone()?;
    fn clone(&self) -> Result<ArrayIter<'a>, AllocError> {
        Ok(ArrayIter { rest: self.rest })
    }
}

impl Array {
    /// The empty array. It takes no memory.
    pub fn new(alloc: Global) -> Array
        ensures { result ≡ no_items }
    {
        Array {
            items: Vec::new(alloc),
        }
    }

    /// How many values there are.
    pub fn len(&self) -> usize
        ensures { result ≡ items_length self.now }
    {
        self.items.len()
    }

    /// Whether there is no value.
    pub fn is_empty(&self) -> bool
        ensures { IsTrue result ↔ (self.now ≡ no_items) }
    {
        self.items.is_empty()
    }

    /// The value at the index, from 0, if there are that many.
    pub fn get(&self, index: usize) -> Option<&Bson>
        ensures { option_map (λ v. tree v.now) result ≡ item_at index self.now }
    {
        self.items.get(index)
    }

    /// The values as a slice.
    pub fn as_slice(&self) -> &[Bson]
        ensures { items_of result.now ≡ self.now }
    {
        &self.items
    }

    /// Goes through the values in order.
    pub fn iter(&self) -> ArrayIter<'_>
        ensures { result ≡ self.now }
    {
        ArrayIter { rest: &self.items }
    }

    /// Puts the value at the end. Only memory can fail, and then nothing has changed.
    pub fn push(&mut self, value: Bson) -> Result<(), BsonError>
        ensures ok { OnOk result (self.new ≡ with_item self.old (tree value)) }
        ensures err { IfErr result (λ e. (e ≡ OutOfMemory) × (self.new ≡ self.old)) }
    {
        self.items.push(value)?;
        Ok(())
    }
}
