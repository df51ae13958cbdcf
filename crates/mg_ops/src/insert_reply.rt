//! What the reply to an insert says.
ghost use Rattle.std.specs.Prelude.{IfOk, IfErr, codes, map, option_map, string_bytes};
ghost use Rattle.mg_bson.specs.Find.{get};
ghost use Rattle.mg_bson.specs.Raw.{fields, items};
ghost use Rattle.mg_bson.specs.RawView.{value};
ghost use Rattle.mg_ops.specs.Failing.{FailsBy, Gives};
ghost use Rattle.mg_ops.specs.Writes.{Inserted, NotInserted, changed_of, code_of, count_by, count_of, failure, failure_at, failures_of, index_of, item_error, message_of, with_concern, write_errors_at, write_errors_in};

use crate::fault::{Fault, error_of};
use mg_bson::{RawArray, RawDocument, RawValue};
use mg_link::{Error, ErrorKind, IndexedFailure, Malformed, plain};
use std::alloc::Global;

// A number that is not negative.
fn count_by(found: &Option<RawValue<'_>>) -> Result<u64, Fault>
    ensures { Gives (λ n. n) result (count_by (option_map value found.now)) }
{
    let n = match found {
        Some(RawValue::Int32(n)) => i64::from(*n),
        Some(RawValue::Int64(n)) => *n,
        _ => return Err(Fault::Broken(Malformed::BadCount)),
    };
    match u64::try_from(n) {
        Ok(n) => Ok(n),
        Err(_) => Err(Fault::Broken(Malformed::BadCount)),
    }
}

// The number of written documents.
#[tactic(auto, unfolding(crate::specs::Writes::count_of))]
pub(crate) fn count_of(reply: &RawDocument<'_>) -> Result<u64, Fault>
    ensures { Gives (λ n. n) result (count_of (fields reply.now)) }
{
    count_by(&reply.get("n"))
}

// The number of changed documents.
#[tactic(auto, unfolding(crate::specs::Writes::changed_of))]
pub(crate) fn changed_of(reply: &RawDocument<'_>) -> Result<u64, Fault>
    ensures { Gives (λ n. n) result (changed_of (fields reply.now)) }
{
    count_by(&reply.get("nModified"))
}

#[tactic(auto, unfolding(crate::specs::Writes::message_of))]
fn message_of(alloc: Global, listed: &RawDocument<'_>) -> Result<String, Fault>
    ensures { Gives string_bytes result (message_of (fields listed.now)) }
{
    match listed.get("errmsg") {
        None => Ok(String::new(alloc)),
        Some(found) => match found.as_str() {
            Some(message) => Ok(String::from_str(alloc, message)?),
            None => Err(Fault::Broken(Malformed::BadItem)),
        },
    }
}

#[tactic(auto, unfolding(crate::specs::Writes::code_of))]
fn code_of(listed: &RawDocument<'_>) -> Result<i32, Fault>
    ensures { Gives (λ n. n) result (code_of (fields listed.now)) }
{
    match listed.get("code") {
        Some(found) => match found.as_i32() {
            Some(code) => Ok(code),
            None => Err(Fault::Broken(Malformed::BadItem)),
        },
        None => Err(Fault::Broken(Malformed::BadItem)),
    }
}

#[tactic(auto, unfolding(crate::specs::Writes::index_of))]
fn index_of(listed: &RawDocument<'_>) -> Result<u32, Fault>
    ensures { Gives (λ n. n) result (index_of (fields listed.now)) }
{
    let index = match listed.get("index") {
        Some(found) => found.as_i32(),
        None => None,
    };
    match index {
        Some(index) => match u32::try_from(index) {
            Ok(index) => Ok(index),
            Err(_) => Err(Fault::Broken(Malformed::BadItem)),
        },
        None => Err(Fault::Broken(Malformed::BadItem)),
    }
}

fn failure_at(alloc: Global, index: u32, listed: &RawDocument<'_>) -> Result<IndexedFailure, Fault>
    ensures { Gives failure result (failure_at index (fields listed.now)) }
{
    let code = code_of(listed)?;
    let message = message_of(alloc, listed)?;
    Ok(IndexedFailure {
        index,
        code,
        message,
    })
}

fn write_error_of(alloc: Global, item: &RawValue<'_>) -> Result<IndexedFailure, Fault>
    ensures { Gives failure result (item_error (value item.now)) }
{
    match item.as_document() {
        Some(failure) => failure_at(alloc, index_of(&failure)?, &failure),
        None => Err(Fault::Broken(Malformed::BadItem)),
    }
}

fn write_errors_in(alloc: Global, list: &RawArray<'_>) -> Result<Vec<IndexedFailure>, Fault>
    ensures { Gives (λ v. map failure v.items) result (write_errors_in (items list.now)) }
{
    let mut failures = Vec::new(alloc);
    let mut left = list.iter();
    'errors: while let Some(item) = left.next() {
        failures.push(write_error_of(alloc, &item)?)?;
    }
    Ok(failures)
}

// The write errors of a reply.
fn write_errors(alloc: Global, reply: &RawDocument<'_>) -> Result<Vec<IndexedFailure>, Fault>
    ensures { Gives (λ v. map failure v.items) result (write_errors_at (get (codes "writeErrors") (fields reply.now))) }
{
    match reply.get("writeErrors") {
        None => Ok(Vec::new(alloc)),
        Some(found) => match found.as_array() {
            Some(list) => write_errors_in(alloc, &list),
            None => Err(Fault::Broken(Malformed::BadItem)),
        },
    }
}

// Puts the write concern error of a reply behind the others.
fn add_concern_error(
    alloc: Global,
    failures: Vec<IndexedFailure>,
    index: u32,
    reply: &RawDocument<'_>,
) -> Result<Vec<IndexedFailure>, Fault>
    ensures { Gives (λ v. map failure v.items) result
        (with_concern (map failure failures.items) index (get (codes "writeConcernError") (fields reply.now))) }
{
    let mut all = failures;
    match reply.get("writeConcernError") {
        None => Ok(all),
        Some(found) => match found.as_document() {
            Some(failure) => {
                all.push(failure_at(alloc, index, &failure)?)?;
                Ok(all)
            }
            None => Err(Fault::Broken(Malformed::BadItem)),
        },
    }
}

// The write errors, and behind them the write concern error with this index.
#[tactic(auto, unfolding(crate::specs::Writes::failures_of))]
pub(crate) fn failures_of(
    alloc: Global,
    index: u32,
    reply: &RawDocument<'_>,
) -> Result<Vec<IndexedFailure>, Fault>
    ensures { Gives (λ v. map failure v.items) result (failures_of index (fields reply.now)) }
{
    let failures = write_errors(alloc, reply)?;
    add_concern_error(alloc, failures, index, reply)
}

/// Reads the reply to an insert of so many documents: how many were written, or what failed.
pub fn read_inserted(alloc: Global, reply: &RawDocument<'_>, count: usize) -> Result<u64, Error>
    ensures ok { IfOk result (λ n. Inserted count (fields reply.now) n) }
    ensures err { IfErr result (λ e. FailsBy (NotInserted count (fields reply.now)) e) }
{
    let written = match count_of(reply) {
        Ok(written) => written,
        Err(fault) => return Err(error_of(fault)),
    };
    let index = u32::try_from(count).unwrap_or(u32::MAX);
    match failures_of(alloc, index, reply) {
        Ok(failures) => {
            if failures.is_empty() {
                Ok(written)
            } else {
                Err(plain(ErrorKind::InsertMany(failures)))
            }
        }
        Err(fault) => Err(error_of(fault)),
    }
}
