//! The kinds of values.
ghost use Rattle.std.specs.Prelude.{◌≡◌};
ghost use Rattle.mg_bson.specs.Kind.{kind_byte, kind_at};

/// The kind of a value, which one byte tells in the bytes of a document ("element" of the BSON
/// specification).
///
///     let is_number = matches!(value.kind(), Kind::Double | Kind::Int32 | Kind::Int64);
#[derive(Clone, Copy, Debug, PartialEq, Eq)]
pub enum Kind {
    /// `01`: a floating point number.
    Double,
    /// `02`: a text.
    String,
    /// `03`: a document.
    Document,
    /// `04`: a list of values.
    Array,
    /// `05`: bytes.
    Binary,
    /// `06`: the undefined value, of an old form.
    Undefined,
    /// `07`: the id of a document.
    ObjectId,
    /// `08`: true or false.
    Boolean,
    /// `09`: a time in milliseconds.
    DateTime,
    /// `0A`: the null value.
    Null,
    /// `0B`: a regular expression.
    Regex,
    /// `0C`: a reference to another document, of an old form.
    DbPointer,
    /// `0D`: JavaScript code.
    Code,
    /// `0E`: a symbol, of an old form.
    Symbol,
    /// `0F`: JavaScript code with its variables, of an old form.
    CodeWithScope,
    /// `10`: a whole number of 32 bits.
    Int32,
    /// `11`: a time of the server's log of operations.
    Timestamp,
    /// `12`: a whole number of 64 bits.
    Int64,
    /// `13`: a decimal floating point number.
    Decimal128,
    /// `FF`: the value below all others.
    MinKey,
    /// `7F`: the value above all others.
    MaxKey,
}

impl Kind {
    // The kind of the byte.
    #[tactic(auto, unfolding(crate::specs::Kind::kind_at))]
    #[inline(always)]
    pub(crate) fn from_byte(byte: u8) -> Option<Kind>
        ensures { result ≡ kind_at byte }
    {
        match byte {
            1 => Some(Kind::Double),
            2 => Some(Kind::String),
            3 => Some(Kind::Document),
            4 => Some(Kind::Array),
            5 => Some(Kind::Binary),
            6 => Some(Kind::Undefined),
            7 => Some(Kind::ObjectId),
            8 => Some(Kind::Boolean),
            9 => Some(Kind::DateTime),
            10 => Some(Kind::Null),
            11 => Some(Kind::Regex),
            12 => Some(Kind::DbPointer),
            13 => Some(Kind::Code),
            14 => Some(Kind::Symbol),
            15 => Some(Kind::CodeWithScope),
            16 => Some(Kind::Int32),
            17 => Some(Kind::Timestamp),
            18 => Some(Kind::Int64),
            19 => Some(Kind::Decimal128),
            255 => Some(Kind::MinKey),
            127 => Some(Kind::MaxKey),
            _ => None,
        }
    }

    // The byte of the kind.
    pub(crate) fn byte(self) -> u8
        ensures { result ≡ kind_byte self }
    {
        match self {
            Kind::Double => 1,
            Kind::String => 2,
            Kind::Document => 3,
            Kind::Array => 4,
            Kind::Binary => 5,
            Kind::Undefined => 6,
            Kind::ObjectId => 7,
            Kind::Boolean => 8,
            Kind::DateTime => 9,
            Kind::Null => 10,
            Kind::Regex => 11,
            Kind::DbPointer => 12,
            Kind::Code => 13,
            Kind::Symbol => 14,
            Kind::CodeWithScope => 15,
            Kind::Int32 => 16,
            Kind::Timestamp => 17,
            Kind::Int64 => 18,
            Kind::Decimal128 => 19,
            Kind::MinKey => 255,
            Kind::MaxKey => 127,
        }
    }
}
