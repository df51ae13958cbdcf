//! The places that tokens name.
ghost use Rattle.std.specs.Prelude.{◌≡◌, ◌<◌, ◌^◌, ℕ, Some, IfOk};
ghost use Rattle.std.specs.Int.{w64, to_be_bytes};
ghost use Rattle.hex.specs.Hex.{encode_lower};
ghost use Rattle.mg_bson.specs.RawView.{value};
ghost use Rattle.mg_server.specs.Rules.{token_of, token_place};

use mg_bson::{Bson, RawValue};
use mg_link::OutOfMemory;
use mg_query::reply::token;
use mg_query::{key_of, raw_key, text_at};
use std::alloc::Global;

/// The number that the text of a token spells.
fn number_of(digits: &str) -> Option<u64>
    ensures { (place : ℕ) → place < 2 ^ 64 → digits.now ≡ encode_lower (to_be_bytes w64 place) → result ≡ Some place }
{
    let mut bytes = [0u8; 8];
    match hex::decode_to_slice(digits, &mut bytes) {
        Ok(()) => Some(u64::from_be_bytes(bytes)),
        Err(_) => None,
    }
}

/// The number that a token spells.
fn spelled_place(found: &RawValue<'_>) -> Option<u64>
    ensures { (place : ℕ) → place < 2 ^ 64 → value found.now ≡ token_of place → result ≡ Some place }
{
    let token = found.as_document()?;
    let digits = text_at(&token, "_data")?;
    number_of(digits)
}

/// The place up to the end that the token names, which is to be spelled just as the store does.
pub(crate) fn place_of(
    alloc: Global,
    found: &RawValue<'_>,
    end: u64,
) -> Result<Option<u64>, OutOfMemory>
    ensures { IfOk result (λ place. place ≡ token_place end (value found.now)) }
{
    let given = raw_key(alloc, found)?;
    let Some(place) = spelled_place(found) else {
        return Ok(None);
    };
    if place > end {
        return Ok(None);
    }
    let own = key_of(alloc, Bson::Document(token(alloc, place)?))?;
    Ok(if own == given { Some(place) } else { None })
}
