//! Chunks as they are received: each is to have the number and the length that its record says.
ghost use Rattle.std.specs.Prelude.{◌≡◌, ◌↔◌, ◌+◌, ◌≤◌, ◌^◌, Ok, Err, IfErr, IfOk, IsTrue, MatchResult, codes, option_and_then, option_map, pos, true};
ghost use Rattle.std.specs.Ordering.{int_eq};
ghost use Rattle.mg_bson.specs.Find.{as_binary};
ghost use Rattle.mg_bson.specs.Raw.{fields, items};
ghost use Rattle.mg_bson.specs.RawView.{value};
ghost use Rattle.mg_bson.specs.Tree.{Items, item};
ghost use Rattle.mg_link.specs.Numbers.{number_at};
ghost use Rattle.mg_chunks.specs.Broken.{broken};
ghost use Rattle.mg_chunks.specs.Chunks.{all_judged, data_of, judged, missing_chunk, of_subtype_0, sized_as, wrong_size};
ghost use Rattle.mg_chunks.specs.Judging.{IsPlaceBehind, JudgesOne, TakesChunk, judged_if, sized_if};

use crate::sizes::{FileSizes, expected_chunk_length};
use mg_bson::{RawArray, RawDocument, RawValue};
use mg_link::{Error, ErrorKind, GridFsErrorKind, Malformed, plain};

/// How far a read has come.
#[derive(Clone, Copy)]
pub struct ReadPlace {
    /// How many chunks were received.
    pub taken: u32,
    /// How many bytes are missing.
    pub missing: usize,
}

/// Whether as many chunks were received as the file has.
pub fn has_all_chunks(taken: u32, count: u32) -> bool
    ensures { IsTrue result ↔ (taken ≡ count) }
{
    taken == count
}

/// The error of a document that breaks its grammar.
pub fn broken(how: Malformed) -> Error
    ensures { result ≡ broken how }
{
    plain(ErrorKind::InvalidResponse(how))
}

/// The error of a chunk that is missing.
pub fn missing_chunk(n: u32) -> Error
    ensures { result ≡ missing_chunk n }
{
    plain(ErrorKind::GridFs(GridFsErrorKind::MissingChunk(n)))
}

/// The error of a chunk of another length.
fn wrong_size(n: u32, actual: u64, expected: u32) -> Error
    ensures { result ≡ wrong_size n actual expected }
{
    plain(ErrorKind::GridFs(GridFsErrorKind::WrongSizeChunk {
        n,
        actual,
        expected,
    }))
}

// The number of a chunk.
fn number_of(chunk: &RawDocument<'_>) -> Option<i32>
    ensures { result ≡ number_at (codes "n") (fields chunk.now) }
{
    match chunk.get("n") {
        Some(number) => number.as_i32(),
        None => None,
    }
}

// The bytes of a binary of subtype 0.
fn bytes_of<'a>(field: &RawValue<'a>) -> Option<&'a [u8]>
    ensures { option_map (λ b. b.now) result ≡ option_and_then of_subtype_0 (as_binary (value field.now)) }
{
    match field.as_binary() {
        Some(found) => of_subtype_0(found.0, found.1),
        None => None,
    }
}

// The bytes, where the subtype is 0.
fn of_subtype_0(subtype: u8, bytes: &[u8]) -> Option<&[u8]>
    ensures { option_map (λ b. b.now) result ≡ of_subtype_0 (subtype, bytes.now) }
{
    if subtype == 0 { Some(bytes) } else { None }
}

/// The bytes of a chunk, a part of the reply's own bytes.
pub fn data_of<'a>(chunk: &RawDocument<'a>) -> Option<&'a [u8]>
    ensures { option_map (λ b. b.now) result ≡ data_of (fields chunk.now) }
{
    match chunk.get("data") {
        Some(data) => bytes_of(&data),
        None => None,
    }
}

// Whether a number is this one.
fn is_number(number: i32, n: u32) -> bool
    ensures same { result ≡ int_eq number (pos n) }
    ensures small { IsTrue result → n + 1 ≤ 2 ^ 31 }
{
    match u32::try_from(number) {
        Ok(found) => found == n,
        Err(_error) => false,
    }
}

// The bytes of a chunk, if they are as many as it is to have.
fn as_long<'a>(n: u32, bytes: &'a [u8], expected: u32) -> Result<&'a [u8], Error>
    ensures { MatchResult result (λ b. sized_as n bytes.now (Ok expected) ≡ Ok b.now) (λ e. sized_as n bytes.now (Ok expected) ≡ Err e) }
{
    let length = bytes.len() as u64;
    if length == u64::from(expected) {
        Ok(bytes)
    } else {
        Err(wrong_size(n, length, expected))
    }
}

// The same of one that has this number, or another.
fn sized<'a>(file: &FileSizes, n: u32, same: bool, bytes: &'a [u8]) -> Result<&'a [u8], Error>
    ensures judged { MatchResult result (λ b. sized_if file.now n bytes.now same ≡ Ok b.now) (λ e. sized_if file.now n bytes.now same ≡ Err e) }
    ensures so { IfOk result (λ b. same ≡ true) }
{
    if !same {
        return Err(missing_chunk(n));
    }
    let length = file.length;
    let size = file.chunk_size;
    match expected_chunk_length(length, size, n) {
        Ok(expected) => as_long(n, bytes, expected),
        Err(error) => Err(error),
    }
}

// The same, where its bytes are there.
fn judge_bytes<'a>(
    file: &FileSizes,
    n: u32,
    same: bool,
    chunk: &RawDocument<'a>,
) -> Result<&'a [u8], Error>
    ensures judged { MatchResult result (λ b. judged_if file.now n same (data_of (fields chunk.now)) ≡ Ok b.now) (λ e. judged_if file.now n same (data_of (fields chunk.now)) ≡ Err e) }
    ensures so { IfOk result (λ b. same ≡ true) }
{
    match data_of(chunk) {
        Some(bytes) => sized(file, n, same, bytes),
        None => Err(broken(Malformed::BadChunk)),
    }
}

// The bytes of a chunk that is to have this number.
fn judge<'a>(file: &FileSizes, n: u32, chunk: &RawDocument<'a>) -> Result<&'a [u8], Error>
    ensures judged { MatchResult result (λ b. judged file.now n (fields chunk.now) ≡ Ok b.now) (λ e. judged file.now n (fields chunk.now) ≡ Err e) }
    // Its number is less than 2,147,483,648.
    ensures small { IfOk result (λ b. n + 1 ≤ 2 ^ 31) }
{
    match number_of(chunk) {
        Some(number) => judge_bytes(file, n, is_number(number, n), chunk),
        None => Err(broken(Malformed::BadChunk)),
    }
}

// Looks at the next chunk.
fn judge_next(
    file: &FileSizes,
    place: ReadPlace,
    chunk: &RawDocument<'_>,
) -> Result<ReadPlace, Error>
    ensures ok { IfOk result (TakesChunk file.now place (fields chunk.now)) }
    ensures err { IfErr result (λ e. judged file.now place.taken (fields chunk.now) ≡ Err e) }
{
    match judge(file, place.taken, chunk) {
        Ok(bytes) => {
            let taken = place.taken + 1;
            let missing = place.missing.saturating_sub(bytes.len());
            Ok(ReadPlace { taken, missing })
        }
        Err(error) => Err(error),
    }
}

// The same, where the item is a document.
fn judge_item(file: &FileSizes, place: ReadPlace, found: &RawValue<'_>) -> Result<ReadPlace, Error>
    ensures ok { IfOk result (JudgesOne file.now place (value found.now)) }
    ensures err { IfErr result (λ e. (more : Items) → all_judged file.now place.taken (item (value found.now) more) ≡ Err e) }
{
    match found.as_document() {
        Some(document) => judge_next(file, place, &document),
        None => Err(broken(Malformed::BadItem)),
    }
}

/// Looks at each chunk of a batch, in order, and at no byte of them. It takes no memory.
pub fn judge_all(
    file: &FileSizes,
    place: ReadPlace,
    batch: &RawArray<'_>,
) -> Result<ReadPlace, Error>
    requires { place.taken ≤ 2 ^ 31 }
    ensures ok { IfOk result (IsPlaceBehind file.now place (items batch.now)) }
    ensures err { IfErr result (λ e. all_judged file.now place.taken (items batch.now) ≡ Err e) }
{
    let mut place = place;
    let mut left = batch.iter();
    'items: while let Some(found) = left.next() {
        place = judge_item(file, place, &found)?;
    }
    Ok(place)
}
