//! What a proof cannot see of the layers below jobs, by rows: each has a kind, gives something, and says behind its mark what is
//! found of it.

mod bson;
mod changes;
mod commands;
mod corpus;
mod documents;
mod json;
mod limits;
mod link;
mod mem_link;
mod options;
mod queries;
mod read_raw;
mod records;
mod replies;
mod sessions;
mod store;
mod unprinted;
mod walks;
mod words;

use crate::parted;
use mg_bson::{Bson, Document, RawDocumentBuf, to_document};
use mg_link::{Error, Namespace};
use std::alloc::{AllocError, Global};
use std::fmt::{Debug, Display};
use std::process::Abort;

/// A text that was made.
fn written(rt: &impl Abort, text: Result<String, AllocError>) -> String {
    text.expect(rt, "memory")
}

/// A text that its caller owns.
fn owned(rt: &impl Abort, alloc: Global, text: &str) -> String {
    written(rt, String::from_str(alloc, text))
}

/// What a value prints as, with the names of its parts.
fn shown(rt: &impl Abort, alloc: Global, value: &impl Debug) -> String {
    written(rt, format!(in alloc; "{value:?}"))
}

/// What an error prints as.
fn failed(rt: &impl Abort, alloc: Global, error: Error) -> String {
    written(rt, format!(in alloc; "{error}"))
}

/// What a value prints as, or the error in its place.
fn printed<T: Display + Drop>(rt: &impl Abort, alloc: Global, read: Result<T, Error>) -> String {
    match read {
        Ok(value) => written(rt, format!(in alloc; "{value}")),
        Err(error) => failed(rt, alloc, error),
    }
}

/// A copy of a value, which is let go.
fn copied<T: Clone + Drop>(rt: &impl Abort, value: T) -> T {
    value.clone().expect(rt, "memory")
}

/// A text as a value.
fn text(rt: &impl Abort, alloc: Global, text: &str) -> Bson {
    Bson::String(owned(rt, alloc, text))
}

/// The value that a JSON text stands for.
fn json_value(rt: &impl Abort, alloc: Global, json: &str) -> Bson {
    crate::json_value(alloc, json).expect(rt, "a JSON text")
}

/// The document of one field.
fn one_field(rt: &impl Abort, alloc: Global, name: &str, value: Bson) -> Document {
    crate::one_field(alloc, name, value).expect(rt, "memory")
}

/// The document with one field more.
fn with(rt: &impl Abort, document: Document, name: &str, value: Bson) -> Document {
    crate::with(document, name, value).expect(rt, "memory")
}

/// The document `{ x: n }`.
fn keys(rt: &impl Abort, alloc: Global, n: i32) -> Document {
    one_field(rt, alloc, "x", Bson::Int32(n))
}

/// A pipeline of one stage, whose value is 1.
fn stage(rt: &impl Abort, alloc: Global, name: &str) -> Vec<Document> {
    vec![in alloc; one_field(rt, alloc, name, Bson::Int32(1))].expect(rt, "memory")
}

/// A collection of the database `db`.
fn collection(rt: &impl Abort, alloc: Global, coll: &str) -> Namespace {
    crate::collection(alloc, coll).expect(rt, "memory")
}

/// The namespace `db.coll`.
fn namespace(rt: &impl Abort, alloc: Global) -> Namespace {
    collection(rt, alloc, "coll")
}

/// The bytes that digits stand for.
fn bytes_at(rt: &impl Abort, alloc: Global, digits: &str) -> Vec<u8> {
    crate::bytes_at(alloc, digits).expect(rt, "digits")
}

/// The bytes of a document that digits stand for.
fn raw_at(rt: &impl Abort, alloc: Global, digits: &str) -> RawDocumentBuf {
    RawDocumentBuf::from_bytes(bytes_at(rt, alloc, digits)).expect(rt, "the digits of a document")
}

/// The document that digits stand for, where they are those of one.
fn document_at(rt: &impl Abort, alloc: Global, digits: &str) -> Result<Document, Error> {
    let raw = RawDocumentBuf::from_bytes(bytes_at(rt, alloc, digits))?;
    Ok(to_document(alloc, raw.as_raw())?)
}

// What is found of what a row gives about documents.
fn found_of_documents(rt: &impl Abort, alloc: Global, kind: &str, given: &str) -> String {
    match kind {
        "vector" => bson::vector(rt, alloc, given),
        "kept" => bson::kept(rt, alloc, given),
        "renamed" => bson::renamed(rt, alloc, given),
        "refused" => bson::refused(rt, alloc, given),
        "fault" => bson::fault(rt, alloc, &bytes_at(rt, alloc, parted(given).0)),
        "letter" => bson::letter(rt, alloc, given),
        "limit" => bson::limit(rt, alloc, given),
        "id" => bson::id(rt, alloc, given),
        "sample" => bson::sample(rt, alloc, given),
        "read" => documents::read(rt, alloc, given),
        "through" => documents::gone_through(rt, alloc, given),
        "walk" => walks::walk(rt, alloc, given),
        "json" => json::json(rt, alloc, given),
        _ => owned(rt, alloc, "no such kind of row"),
    }
}

// What is found of what a row gives about options and operations.
fn found_of_operations(rt: &impl Abort, alloc: Global, kind: &str, given: &str) -> String {
    match kind {
        "record" => records::record(rt, alloc, given),
        "copy" => unprinted::copy(rt, alloc, given),
        "command" => commands::command(rt, alloc, given),
        "retry" => sessions::retry(rt, alloc, given),
        "handle" => sessions::handle(rt, alloc, given),
        "stream" => options::stream(rt, alloc, given),
        "reply" => replies::reply(rt, alloc, given),
        "word" => words::word(rt, alloc, given),
        "reading" => read_raw::reading(rt, alloc, given),
        _ => found_of_documents(rt, alloc, kind, given),
    }
}

// What is found of what a row gives.
fn found(rt: &impl Abort, alloc: Global, kind: &str, given: &str) -> String {
    match kind {
        "call" => link::call(rt, alloc, given),
        "error" => link::error(rt, alloc, given),
        "resumable" => link::resumable(rt, alloc, given),
        "namespace" => link::namespace(rt, alloc, given),
        "fates" => mem_link::fates(rt, alloc),
        "aside" => mem_link::aside(rt, alloc, given),
        "steps" => store::steps(rt, alloc, given),
        "names" => limits::names(rt, alloc, given),
        "batches" => limits::batches(rt, alloc, given),
        "killed" => limits::killed(rt, alloc, given),
        "levels" => limits::levels(rt, alloc, given),
        "sizes" => limits::sizes(rt, alloc),
        _ => found_of_operations(rt, alloc, kind, given),
    }
}

// Tells the rows of which something else is found than stands behind the mark, and what.
fn tell_differences(rt: &impl Abort, alloc: Global, rows: &str, told: &mut String) {
    for row in rows.lines() {
        let (about, wanted) = row.split_once('~').unwrap_or((row, ""));
        let (kind, given) = parted(about);
        let found = found(rt, alloc, kind, given);
        if found.as_str() != wanted {
            write!(told, "\n{row}\nbut found: {found}").expect(rt, "memory");
        }
    }
}

// Fails a test of rows of which something else is found than they say, and tells all of them.
fn are_found(rt: &impl Abort, alloc: Global, tables: &[&str]) {
    let mut told = String::new(alloc);
    for rows in tables {
        tell_differences(rt, alloc, rows, &mut told);
    }
    assert!(rt; told.is_empty(), "{told}");
}

#[test]
fn rows_of_documents(rt: HostRuntime) {
    are_found(
        &rt,
        rt.alloc(),
        &[
            bson::ROWS,
            corpus::ROWS,
            documents::ROWS,
            walks::ROWS,
            json::ROWS,
        ],
    );
}

#[test]
fn rows_of_limits_of_documents(rt: HostRuntime) {
    are_found(&rt, rt.alloc(), &[bson::LIMITS]);
}

#[test]
fn rows_of_operations(rt: HostRuntime) {
    are_found(
        &rt,
        rt.alloc(),
        &[
            records::ROWS,
            unprinted::ROWS,
            commands::ROWS,
            sessions::ROWS,
            options::ROWS,
            replies::ROWS,
            words::ROWS,
            read_raw::ROWS,
        ],
    );
}

#[test]
fn rows_of_links(rt: HostRuntime) {
    are_found(&rt, rt.alloc(), &[link::ROWS, mem_link::ROWS, store::ROWS]);
}

#[test]
fn rows_of_limits_of_the_store(rt: HostRuntime) {
    are_found(&rt, rt.alloc(), &[limits::NAMES, limits::LEVELS]);
}

#[test]
fn rows_of_sizes(rt: HostRuntime) {
    are_found(&rt, rt.alloc(), &[limits::STEPS]);
}

#[test]
fn rows_of_batches(rt: HostRuntime) {
    are_found(&rt, rt.alloc(), &[limits::BATCHES]);
}

#[test]
fn rows_of_killed_cursors(rt: HostRuntime) {
    are_found(&rt, rt.alloc(), &[limits::KILLED]);
}
