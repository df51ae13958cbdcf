use super::{copied, failed, json_value, text, written};
use crate::parted;
use mg_bson::{Bson, DateTime, Document, RawDocumentBuf, to_bytes};
use mg_link::Error;
use mg_records::{
    ChangeNamespace, ChangeStreamEvent, CollectionSpecification, FilesCollectionDocument,
    IndexModel, ReadRaw, TruncatedArray, UpdateDescription,
};
use std::alloc::Global;
use std::fmt::Debug;
use std::process::Abort;

// Each row is what a document is read as, its fields, and what comes of it. A number of 32 bits stands behind `i`, one of
// 64 behind `l`, and a time behind `t`; `value_of` has the words of other values.
pub(super) const ROWS: &str =
    r#"reading event _id=doc operationType=insert ns=place nsType=view to=place lsid=doc txnNumber=l5 documentKey=doc updateDescription=update clusterTime=stamp wallTime=t9 fullDocument=doc fullDocumentBeforeChange=doc~insert Some("db") Some("view") Some(5) Some(Timestamp { time: 6, increment: 7 }) Some(DateTime { millis: 9 }) Some(Document { fields: [Field { name: "x", value: Int32(1) }] }) Some(Document { fields: [Field { name: "x", value: Int32(1) }] }) Some(Document { fields: [Field { name: "x", value: Int32(1) }] }) Some(Document { fields: [Field { name: "x", value: Int32(1) }] }) Some(1)
reading event _id=i1 operationType=create~create None None None None None None None None None None
reading event _id=i1 operationType=drop ns=null wallTime=null fullDocument=null txnNumber=null~drop None None None None None None None None None None
reading event operationType=insert~invalid response: bad record
reading event _id=null operationType=insert~invalid response: bad record
reading event _id=doc~invalid response: bad record
reading event _id=doc operationType=i1~invalid response: bad record
reading event _id=doc operationType=null~invalid response: bad record
reading event _id=doc operationType=drop nsType=View~drop None Some("View") None None None None None None None None
reading event _id=doc operationType=drop ns=database to=database~drop Some("db") None None None None None None None None None
reading event _id=doc operationType=insert txnNumber=i5~invalid response: bad record
reading event _id=doc operationType=insert ns=doc~invalid response: bad record
reading event _id=doc operationType=insert updateDescription=doc~invalid response: bad record
reading file _id=i7 length=i5 chunkSize=i4 uploadDate=t9 filename=name metadata=doc more=i1~FilesCollectionDocument { id: Int32(7), length: 5, chunk_size_bytes: 4, upload_date: DateTime { millis: 9 }, filename: Some("name"), metadata: Some(Document { fields: [Field { name: "x", value: Int32(1) }] }) }
reading file _id=doc length=l5 chunkSize=i4 uploadDate=t9 filename=null~FilesCollectionDocument { id: Document(Document { fields: [Field { name: "x", value: Int32(1) }] }), length: 5, chunk_size_bytes: 4, upload_date: DateTime { millis: 9 }, filename: None, metadata: None }
reading file _id=null length=i5 chunkSize=i4 uploadDate=t9 metadata=null~FilesCollectionDocument { id: Null, length: 5, chunk_size_bytes: 4, upload_date: DateTime { millis: 9 }, filename: None, metadata: None }
reading file _id=i7 length=double chunkSize=i4 uploadDate=t9~invalid response: bad record
reading file _id=i7 length=i5 chunkSize=i4 uploadDate=t9 metadata=i1~invalid response: bad record
reading file _id=i7 length=i5 chunkSize=i0 uploadDate=t9~invalid response: chunk size 0
reading file _id=i7 length=i0 chunkSize=i0 uploadDate=t9~invalid response: chunk size 0
reading file _id=i7 length=i5 chunkSize=i0~invalid response: bad record
reading file _id=i7 length=i5 chunkSize=i-1 uploadDate=t9~invalid response: bad record
reading file _id=i7 length=i5 chunkSize=l4 uploadDate=t9~invalid response: bad record
reading file _id=i7 length=i-1 chunkSize=i4 uploadDate=t9~invalid response: bad record
reading file _id=i7 length=l-1 chunkSize=i4 uploadDate=t9~invalid response: bad record
reading file _id=i7 length=l-1 chunkSize=i0 uploadDate=t9~invalid response: bad record
reading file length=i5 chunkSize=i4 uploadDate=t9~invalid response: bad record
reading file _id=i7 length=i5 chunkSize=i4 uploadDate=t9 filename=i1~invalid response: bad record
reading index key=doc name=name~IndexModel { keys: Document { fields: [Field { name: "x", value: Int32(1) }] }, name: Some("name") }
reading index key=doc name=null~IndexModel { keys: Document { fields: [Field { name: "x", value: Int32(1) }] }, name: None }
reading index key=doc~IndexModel { keys: Document { fields: [Field { name: "x", value: Int32(1) }] }, name: None }
reading index name=name~invalid response: bad record
reading index key=i1~invalid response: bad record
reading index key=doc name=i1~invalid response: bad record
reading collection name=name type=view more=null~CollectionSpecification { name: "name", collection_type: "view" }
reading collection name=name~invalid response: bad record
reading collection type=view~invalid response: bad record
reading collection name=i1 type=view~invalid response: bad record
reading document a=i1 b=null~Document { fields: [Field { name: "a", value: Int32(1) }, Field { name: "b", value: Null }] }
reading space db=name~name None
reading space db=name coll=null~name None
reading space db=name coll=name~name Some("name")
reading space coll=name~invalid response: bad record
reading change updatedFields=doc removedFields=names~Document { fields: [Field { name: "x", value: Int32(1) }] } ["a.b"]
reading change updatedFields=doc removedFields=names truncatedArrays=null disambiguatedPaths=doc~Document { fields: [Field { name: "x", value: Int32(1) }] } ["a.b"]
reading change updatedFields=doc~invalid response: bad record
reading change updatedFields=doc removedFields=numbers~invalid response: bad record
reading cut field=name newSize=i1~name 1
reading cut field=name newSize=l1~invalid response: bad record
reading bytes~RawDocumentBuf { bytes: [5, 0, 0, 0, 0] }"#;

// What an update changed.
const UPDATE: &str =
    r#"{"removedFields":["a.b"],"truncatedArrays":[{"field":"c","newSize":1}],"updatedFields":{}}"#;

// A number, by the letter of its kind.
fn numbered(rt: &impl Abort, alloc: Global, word: &str) -> Bson {
    let (letter, digits) = word.split_at_checked(1).unwrap_or(("", word));
    let number = digits.parse::<i64>().unwrap_or(0);
    match letter {
        "i" => json_value(rt, alloc, digits),
        "l" => Bson::Int64(number),
        "t" => Bson::DateTime(DateTime { millis: number }),
        _ => text(rt, alloc, word),
    }
}

fn value_of(rt: &impl Abort, alloc: Global, word: &str) -> Bson {
    match word {
        "null" => Bson::Null,
        "doc" => json_value(rt, alloc, r#"{"x":1}"#),
        "place" => json_value(rt, alloc, r#"{"coll":"coll","db":"db"}"#),
        "update" => json_value(rt, alloc, UPDATE),
        "stamp" => json_value(rt, alloc, r#"{"$timestamp":{"i":7,"t":6}}"#),
        "database" => json_value(rt, alloc, r#"{"db":"db"}"#),
        "names" => json_value(rt, alloc, r#"["a.b"]"#),
        "numbers" => json_value(rt, alloc, "[1]"),
        "double" => Bson::Double([0; 8]),
        "insert" | "name" => text(rt, alloc, word),
        _ => numbered(rt, alloc, word),
    }
}

// The bytes of a document of these fields.
fn raw_of(rt: &impl Abort, alloc: Global, fields: &str) -> RawDocumentBuf {
    let mut document = Document::new(alloc);
    for field in fields.split(' ') {
        if let Some((name, word)) = field.split_once('=') {
            document
                .append(name, value_of(rt, alloc, word))
                .expect(rt, "memory");
        }
    }
    to_bytes(alloc, &document).expect(rt, "a document")
}

// The name of the database that an event is of.
fn database(event: &ChangeStreamEvent<Document>) -> Option<&str> {
    Some(event.ns.as_ref()?.db.as_str())
}

// What kind of collection was made.
fn made(event: &ChangeStreamEvent<Document>) -> Option<&str> {
    Some(event.ns_type.as_ref()?.as_word())
}

// How many fields an update removed.
fn removed(event: &ChangeStreamEvent<Document>) -> Option<usize> {
    Some(event.update_description.as_ref()?.removed_fields.len())
}

// What an event tells: what was done and where, when, and of which documents.
fn told(rt: &impl Abort, alloc: Global, event: &ChangeStreamEvent<Document>) -> String {
    let operation = event.operation_type.as_word();
    let (db, kind, removed) = (database(event), made(event), removed(event));
    let (number, time, wall) = (&event.txn_number, &event.cluster_time, &event.wall_time);
    let (key, session) = (&event.document_key, &event.lsid);
    let (whole, before) = (&event.full_document, &event.full_document_before_change);
    let when = format!(in alloc; "{operation} {db:?} {kind:?} {number:?} {time:?} {wall:?}");
    let mut text = written(rt, when);
    write!(
        text,
        " {session:?} {key:?} {whole:?} {before:?} {removed:?}"
    )
    .expect(rt, "memory");
    text
}

// A copy of the record that a document is read as.
fn read<T: ReadRaw + Clone + Drop>(
    rt: &impl Abort,
    alloc: Global,
    raw: &RawDocumentBuf,
) -> Result<T, Error> {
    match T::read_raw(alloc, raw.as_raw()) {
        Ok(record) => Ok(copied(rt, record)),
        Err(error) => Err(error),
    }
}

fn event(rt: &impl Abort, alloc: Global, raw: &RawDocumentBuf) -> String {
    match read::<ChangeStreamEvent<Document>>(rt, alloc, raw) {
        Ok(event) => told(rt, alloc, &event),
        Err(error) => failed(rt, alloc, error),
    }
}

// A copy of a record that prints whole.
fn whole<T: ReadRaw + Clone + Debug + Drop>(
    rt: &impl Abort,
    alloc: Global,
    raw: &RawDocumentBuf,
) -> String {
    match read::<T>(rt, alloc, raw) {
        Ok(copy) => written(rt, format!(in alloc; "{copy:?}")),
        Err(error) => failed(rt, alloc, error),
    }
}

fn space(rt: &impl Abort, alloc: Global, raw: &RawDocumentBuf) -> String {
    match read::<ChangeNamespace>(rt, alloc, raw) {
        Ok(space) => written(rt, format!(in alloc; "{} {:?}", space.db, space.coll)),
        Err(error) => failed(rt, alloc, error),
    }
}

fn change(rt: &impl Abort, alloc: Global, raw: &RawDocumentBuf) -> String {
    match read::<UpdateDescription>(rt, alloc, raw) {
        Ok(change) => {
            let (updated, removed) = (&change.updated_fields, &change.removed_fields);
            written(rt, format!(in alloc; "{updated:?} {removed:?}"))
        }
        Err(error) => failed(rt, alloc, error),
    }
}

fn cut(rt: &impl Abort, alloc: Global, raw: &RawDocumentBuf) -> String {
    match read::<TruncatedArray>(rt, alloc, raw) {
        Ok(cut) => written(rt, format!(in alloc; "{} {}", cut.field, cut.new_size)),
        Err(error) => failed(rt, alloc, error),
    }
}

/// What a document of these fields is read as.
pub(super) fn reading(rt: &impl Abort, alloc: Global, line: &str) -> String {
    let (kind, fields) = parted(line);
    let raw = raw_of(rt, alloc, fields);
    match kind {
        "event" => event(rt, alloc, &raw),
        "file" => whole::<FilesCollectionDocument>(rt, alloc, &raw),
        "index" => whole::<IndexModel>(rt, alloc, &raw),
        "collection" => whole::<CollectionSpecification>(rt, alloc, &raw),
        "space" => space(rt, alloc, &raw),
        "change" => change(rt, alloc, &raw),
        "cut" => cut(rt, alloc, &raw),
        "document" => whole::<Document>(rt, alloc, &raw),
        _ => whole::<RawDocumentBuf>(rt, alloc, &raw),
    }
}
