//! Values that tests are made of.
use mg_bson::{Bson, BsonError, Document, RawDocument, RawDocumentBuf, to_bytes, to_document};
use mg_json::document_text;
use mg_link::{Error, Namespace};
use mg_ops::{Find, Insert};
use mg_options::{FindOptions, InsertManyOptions};
use mg_script::value_from_json;
use serde_json::Value;
use std::alloc::{AllocError, Global};

/// What stands before the first space of a text, and behind it.
pub fn parted(text: &str) -> (&str, &str) {
    match text.split_once(' ') {
        Some(parts) => parts,
        None => (text, ""),
    }
}

/// A text whose middle is repeated.
pub fn repeated(
    alloc: Global,
    first: &str,
    middle: &str,
    times: u32,
    last: &str,
) -> Result<String, AllocError> {
    let mut text = String::from_str(alloc, first)?;
    for _ in 0..times {
        text.push_str(middle)?;
    }
    text.push_str(last)?;
    Ok(text)
}

// A text that was formatted. A caller that ends with it lets go of what it holds once.
fn written(text: Result<String, AllocError>) -> Result<String, Error> {
    Ok(text?)
}

/// A collection of a database.
pub fn named(alloc: Global, db: &str, coll: &str) -> Result<Namespace, Error> {
    let db = String::from_str(alloc, db)?;
    let coll = String::from_str(alloc, coll)?;
    Ok(Namespace { db, coll })
}

/// A collection of the database `db`.
pub fn collection(alloc: Global, coll: &str) -> Result<Namespace, Error> {
    named(alloc, "db", coll)
}

/// The namespace `db.coll`.
pub fn namespace(alloc: Global) -> Result<Namespace, Error> {
    collection(alloc, "coll")
}

/// An insert into a collection.
pub fn insert(alloc: Global, coll: &str, documents: Vec<Document>) -> Result<Insert, Error> {
    Ok(Insert {
        ns: collection(alloc, coll)?,
        documents,
        options: InsertManyOptions::builder(),
    })
}

/// A find in a collection.
pub fn find(
    alloc: Global,
    coll: &str,
    filter: Document,
    options: FindOptions,
) -> Result<Find, Error> {
    Ok(Find {
        ns: collection(alloc, coll)?,
        filter,
        options,
    })
}

/// The document of one field.
pub fn one_field(alloc: Global, name: &str, value: Bson) -> Result<Document, Error> {
    let mut document = Document::new(alloc);
    document.append(name, value)?;
    Ok(document)
}

/// The document with one field more. It takes the document whole, so that its caller holds none where this fails.
pub fn with(document: Document, name: &str, value: Bson) -> Result<Document, Error> {
    let mut document = document;
    document.append(name, value)?;
    Ok(document)
}

/// The value that a JSON text stands for. The fields of a document are in the order of their names.
pub fn json_value(alloc: Global, text: &str) -> Result<Bson, Error> {
    let Ok(read) = Value::from_slice(alloc, text.as_bytes()) else {
        return Err(Error::from(BsonError::Malformed));
    };
    match value_from_json(alloc, &read)? {
        Some(value) => Ok(value),
        None => Err(Error::from(BsonError::Malformed)),
    }
}

/// The bytes of the document that a JSON text stands for.
pub fn json_bytes(alloc: Global, text: &str) -> Result<RawDocumentBuf, Error> {
    match json_value(alloc, text)?.into_document() {
        Ok(document) => Ok(to_bytes(alloc, &document)?),
        Err(_) => Err(Error::from(BsonError::Malformed)),
    }
}

/// The bytes that digits stand for.
pub fn bytes_at(alloc: Global, digits: &str) -> Result<Vec<u8>, Error> {
    match hex::decode(alloc, digits) {
        Ok(bytes) => Ok(bytes),
        Err(_) => Err(Error::from(BsonError::Malformed)),
    }
}

/// A document as its JSON text.
pub fn document_word(alloc: Global, document: RawDocument<'_>) -> Result<String, Error> {
    let document = to_document(alloc, document)?;
    let json = document_text(alloc, &document)?;
    written(format!(in alloc; "/{json}"))
}
