//! Object ids, and their text of hexadecimal digits.
ghost use Rattle.std.specs.Prelude.{◌≡◌, ◌↔◌, Ok, Some, IfOk, IfSome, IsSome, length, string_bytes};
ghost use Rattle.std.specs.List.{AllPass};
ghost use Rattle.hex.specs.Hex.{decode_of, encode_lower, is_hex_digit};

use hex::FromHex;
use std::alloc::{AllocError, Global};
use std::{fmt, str};

/// The twelve bytes of an object id, as they stand in a document. It prints as 24 hexadecimal
/// digits in lower case.
///
///     let Some(id) = ObjectId::parse_str("0123456789abcdef01234567") else { .. };
///     document.append("_id", Bson::from(id))?;
#[derive(Clone, Copy, Debug, PartialEq, Eq, PartialOrd, Ord, Hash)]
pub struct ObjectId(pub [u8; 12]);

impl ObjectId {
    /// Reads 24 hexadecimal digits, in lower or upper case. Any other text is none.
    pub fn parse_str(text: &str) -> Option<ObjectId>
        ensures value { IfSome result (λ id. decode_of text.now ≡ Ok id.0) }
        ensures found { IsSome result ↔ ((length text.now ≡ 24) × AllPass is_hex_digit text.now) }
    {
        match <[u8; 12] as FromHex>::from_hex(text) {
            Ok(bytes) => Some(ObjectId(bytes)),
            Err(_) => None,
        }
    }

    /// The 24 digits of the id, in lower case, as a text of its own. It is read as the same id.
    pub fn to_hex(self, alloc: Global) -> Result<String, AllocError>
        ensures digits { IfOk result (λ text. string_bytes text ≡ encode_lower self.0) }
        ensures read_back { IfOk result (λ text. decode_of (string_bytes text) ≡ Ok self.0) }
    {
        digits_of(alloc, self.0.as_slice())
    }
}

// The digits of the bytes, in lower case.
fn digits_of(alloc: Global, bytes: &[u8]) -> Result<String, AllocError>
    ensures digits { IfOk result (λ text. string_bytes text ≡ encode_lower bytes.now) }
    ensures read_back { IfOk result (λ text. decode_of (string_bytes text) ≡ Ok bytes.now) }
{
    hex::encode(alloc, bytes)
}

impl fmt::Display for ObjectId {
    ghost output = { λ id. Some (encode_lower id.0) };

    fn fmt<W: fmt::Write>(&self, f: &mut fmt::Formatter<W>) -> fmt::Result {
        let mut digits = [0; 24];
        hex::encode_to_slice(self.0.as_slice(), &mut digits).map_err(|_| fmt::Error)?;
        f.write_str(str::from_utf8(&digits).map_err(|_| fmt::Error)?)
    }
}
