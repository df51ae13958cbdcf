use super::{json_value, one_field, owned, text, with, written};
use crate::{named, parted, repeated};
use mg_bson::{Array, Bson, Document, RawDocument, to_bytes};
use mg_link::Namespace;
use mg_store::Store;
use std::alloc::Global;
use std::process::Abort;

// A command, how many bytes the names of its database and its collection have, and what it is answered.
pub(super) const NAMES: &str = r#"names insert 3 65536~done
names insert 3 65537~refused 9
names insert 65536 1~done
names insert 65537 1~refused 9
names watch 65536 65536~0
names watch 65536 65537~refused 9
names list 65536 0~0
names list 65537 0~refused 9"#;

// A find or a watch of so many documents of so many bytes, and how many each of three batches has. Some fit a batch just where
// they have 16,777,216 bytes together; one fits always, and 101 are the most where no size is asked for. An event has 164 bytes
// beside its document.
pub(super) const BATCHES: &str = r#"batches find 4 8388608~2 2 refused 43
batches find 3 8388609~1 1 1
batches find 2 16777216~1 1 refused 43
batches find 203 22~101 101 1
batches watch 4 8388444~2 2 0
batches watch 3 8388445~1 1 1
batches watch 2 16777216~1 1 0
batches watch 203 22~101 101 1"#;

// The reply lists each id in 64 bits, those of open cursors apart: so with so many open cursors and so many ids it has 47,000,000
// bytes, and one more.
pub(super) const KILLED: &str = r#"killed 16 2830065~done
killed 26 2830068~refused 9"#;

// A command whose document, modification, value or key has so many levels, to a store of one document. An event that a document
// stands in is one level deeper than it, one that tells of set fields three deeper than their values, and a list of indexes one
// deeper than their keys. The deepest of each kind makes a command of 100 levels.
pub(super) const LEVELS: &str = r#"levels insert 98~a write error
levels insert 97~a write error
levels insert 96~done
levels insert 90~done
levels replace 97~refused 9
levels replace 96~done
levels replace 90~done
levels set 95~refused 9
levels set 94~done
levels set 90~done
levels index 97~refused 9
levels index 96~done"#;

// That the steps of `SIZES` are answered as they say, one after the other.
pub(super) const STEPS: &str = "sizes";

// Commands to one store, in turn, that bring a document or an index to so many bytes: what each is answered, how many changes
// there are then, and how many bytes the last document has. What a list says of an index has 40 bytes beside its name.
const SIZES: &str = r#"index 16777217 -> refused 9, 0 changes, 0 bytes
create 0 -> done, 0 changes, 0 bytes
index 16777216 -> done, 0 changes, 0 bytes
insert 16777217 -> a write error, 0 changes, 0 bytes
insert 16777216 -> done, 1 changes, 16777216 bytes
replace 22 -> done, 2 changes, 22 bytes
replace 16777217 -> refused 9, 2 changes, 22 bytes
replace 16777216 -> done, 3 changes, 16777216 bytes
set 16777217 -> refused 9, 3 changes, 16777216 bytes
replace 22 -> done, 4 changes, 22 bytes
set 16777216 -> done, 5 changes, 16777216 bytes"#;

// A text that brings a document to so many bytes, of which so many stand beside it.
fn padding(rt: &impl Abort, alloc: Global, bytes: u32, beside: u32) -> Bson {
    let times = bytes.saturating_sub(beside);
    Bson::String(written(rt, repeated(alloc, "", "a", times, "")))
}

// A document of so many bytes: its `_id`, and a text that brings it there.
fn padded(rt: &impl Abort, alloc: Global, id: i32, bytes: u32) -> Document {
    let document = one_field(rt, alloc, "_id", Bson::Int32(id));
    with(rt, document, "p", padding(rt, alloc, bytes, 22))
}

// A command of this name to a collection.
fn command_to(rt: &impl Abort, alloc: Global, name: &str, coll: &str) -> Document {
    let command = one_field(rt, alloc, name, text(rt, alloc, coll));
    with(rt, command, "$db", text(rt, alloc, "app"))
}

// The same with a field more, whose value is a JSON text.
fn command_with(
    rt: &impl Abort,
    alloc: Global,
    name: &str,
    coll: &str,
    field: &str,
    json: &str,
) -> Document {
    let command = command_to(rt, alloc, name, coll);
    with(rt, command, field, json_value(rt, alloc, json))
}

// How many items the array of this name has.
fn count_at(document: &RawDocument<'_>, name: &str) -> Option<usize> {
    let items = document.get(name)?.as_array()?;
    Some(items.len())
}

// How many documents the batch of a reply has.
fn batch_of(reply: &RawDocument<'_>) -> Option<usize> {
    let cursor = reply.get("cursor")?.as_document()?;
    match count_at(&cursor, "firstBatch") {
        Some(count) => Some(count),
        None => count_at(&cursor, "nextBatch"),
    }
}

fn code_of(reply: &RawDocument<'_>) -> Option<i32> {
    reply.get("code")?.as_i32()
}

// What a reply tells: a refusal, a write error, how many documents its batch has, or that it was done.
fn told(rt: &impl Abort, alloc: Global, reply: &RawDocument<'_>) -> String {
    if let Some(code) = code_of(reply) {
        return written(rt, format!(in alloc; "refused {code}"));
    }
    if reply.get("writeErrors").is_some() {
        return owned(rt, alloc, "a write error");
    }
    match batch_of(reply) {
        Some(count) => written(rt, format!(in alloc; "{count}")),
        None => owned(rt, alloc, "done"),
    }
}

fn answer_to(rt: &impl Abort, alloc: Global, store: &mut Store, command: &Document) -> String {
    let command = to_bytes(alloc, command).expect(rt, "a command");
    let receipt = store.perform(command.as_raw()).expect(rt, "an answer");
    told(rt, alloc, &receipt.reply.as_raw())
}

// The stages of a watch from the first change on.
const WATCH: &str = r#"[{"$changeStream":{"startAtOperationTime":{"$timestamp":{"i":1,"t":1}}}}]"#;

// An aggregate that watches a collection from its first change on.
fn watch_of(rt: &impl Abort, alloc: Global, coll: &str) -> Document {
    let command = command_with(rt, alloc, "aggregate", coll, "pipeline", WATCH);
    with(rt, command, "cursor", json_value(rt, alloc, "{}"))
}

// An insert into a collection, a watch of it, or a list of collections.
fn command_about(rt: &impl Abort, alloc: Global, name: &str, coll: &str) -> Document {
    match name {
        "insert" => command_with(
            rt,
            alloc,
            "insert",
            coll,
            "documents",
            r#"[{"_id":0,"p":""}]"#,
        ),
        "watch" => watch_of(rt, alloc, coll),
        _ => one_field(rt, alloc, "listCollections", Bson::Int32(1)),
    }
}

// The number that digits say.
fn number_of(digits: &str) -> u32 {
    digits.parse::<u32>().unwrap_or(0)
}

/// What a command with names of so many bytes is answered.
pub(super) fn names(rt: &impl Abort, alloc: Global, line: &str) -> String {
    let (name, sizes) = parted(line);
    let (db, coll) = parted(sizes);
    let coll = written(rt, repeated(alloc, "", "c", number_of(coll), ""));
    let mut command = command_about(rt, alloc, name, coll.as_str());
    let db = written(rt, repeated(alloc, "", "d", number_of(db), ""));
    let _old = command.insert("$db", Bson::String(db)).expect(rt, "memory");
    answer_to(rt, alloc, &mut Store::new(alloc), &command)
}

// A store of so many documents of so many bytes.
fn filled(rt: &impl Abort, alloc: Global, count: i32, bytes: u32) -> Store {
    let mut documents = Array::new(alloc);
    for id in 0..count {
        documents
            .push(Bson::Document(padded(rt, alloc, id, bytes)))
            .expect(rt, "memory");
    }
    let insert = command_to(rt, alloc, "insert", "c");
    let insert = with(rt, insert, "documents", Bson::Array(documents));
    let mut store = Store::new(alloc);
    let _done = answer_to(rt, alloc, &mut store, &insert);
    store
}

// A getMore of the cursor 1.
fn get_more(rt: &impl Abort, alloc: Global) -> Document {
    let more = one_field(rt, alloc, "getMore", Bson::Int64(1));
    let more = with(rt, more, "collection", text(rt, alloc, "c"));
    with(rt, more, "$db", text(rt, alloc, "app"))
}

/// How many of so many documents, or of the events of their inserts, each of three batches has.
pub(super) fn batches(rt: &impl Abort, alloc: Global, line: &str) -> String {
    let (name, sizes) = parted(line);
    let (count, bytes) = parted(sizes);
    let count = count.parse::<i32>().unwrap_or(0);
    let mut store = filled(rt, alloc, count, number_of(bytes));
    let opening = match name {
        "find" => command_with(rt, alloc, "find", "c", "filter", "{}"),
        _ => watch_of(rt, alloc, "c"),
    };
    let more = get_more(rt, alloc);
    let mut told = answer_to(rt, alloc, &mut store, &opening);
    write!(told, " {}", answer_to(rt, alloc, &mut store, &more)).expect(rt, "memory");
    write!(told, " {}", answer_to(rt, alloc, &mut store, &more)).expect(rt, "memory");
    told
}

// A command that kills the cursors with the first so many ids.
fn kill_of(rt: &impl Abort, alloc: Global, count: i32) -> Document {
    let mut ids = Array::new(alloc);
    for id in 0..count {
        ids.push(Bson::Int32(id)).expect(rt, "memory");
    }
    let command = command_to(rt, alloc, "killCursors", "c");
    with(rt, command, "cursors", Bson::Array(ids))
}

/// What a command is answered that kills so many cursors, of which so many are open.
pub(super) fn killed(rt: &impl Abort, alloc: Global, line: &str) -> String {
    let (open, count) = parted(line);
    let count = count.parse::<i32>().unwrap_or(0);
    let mut store = Store::new(alloc);
    let watch = watch_of(rt, alloc, "c");
    for _ in 0..number_of(open) {
        let _opened = answer_to(rt, alloc, &mut store, &watch);
    }
    answer_to(rt, alloc, &mut store, &kill_of(rt, alloc, count))
}

// The name of a command, and of the field that says what it does.
fn place_of(name: &str) -> (&'static str, &'static str) {
    match name {
        "insert" => ("insert", "documents"),
        "index" => ("createIndexes", "indexes"),
        _ => ("update", "updates"),
    }
}

// The mark stands for a document of one level less than the document, the modification, the value or the key that it is in.
fn deep_form(name: &str) -> &'static str {
    match name {
        "insert" => r#"[{"_id":{"$int64":"1"},"d":@}]"#,
        "replace" => r#"[{"q":{},"u":{"d":@}}]"#,
        "set" => r#"[{"q":{},"u":{"$set":{"d":{"d":@}}}}]"#,
        _ => r#"[{"key":{"d":@},"name":"deep"}]"#,
    }
}

/// What a command is answered whose document, modification, value or key has so many levels.
pub(super) fn levels(rt: &impl Abort, alloc: Global, line: &str) -> String {
    let (name, levels) = parted(line);
    let times = number_of(levels).saturating_sub(2);
    let opened = written(rt, repeated(alloc, "", r#"{"d":"#, times, "{}"));
    let nested = written(rt, repeated(alloc, opened.as_str(), "}", times, ""));
    let json = deep_form(name).replace(alloc, "@", nested.as_str());
    let json = written(rt, json);
    let (command, field) = place_of(name);
    let command = command_with(rt, alloc, command, "c", field, json.as_str());
    answer_to(rt, alloc, &mut filled(rt, alloc, 1, 22), &command)
}

// An update of the first document by this modification.
fn update_of(rt: &impl Abort, alloc: Global, modification: Document) -> Document {
    let update = one_field(rt, alloc, "q", json_value(rt, alloc, "{}"));
    with(rt, update, "u", Bson::Document(modification))
}

// A document, an update or an index, by which so many bytes are stored.
fn sized(rt: &impl Abort, alloc: Global, name: &str, bytes: u32) -> Document {
    match name {
        "insert" => padded(rt, alloc, 0, bytes),
        "replace" => update_of(rt, alloc, padded(rt, alloc, 0, bytes)),
        "set" => {
            let text = one_field(rt, alloc, "p", padding(rt, alloc, bytes, 22));
            update_of(
                rt,
                alloc,
                one_field(rt, alloc, "$set", Bson::Document(text)),
            )
        }
        _ => {
            let index = one_field(rt, alloc, "key", json_value(rt, alloc, r#"{"a":1}"#));
            with(rt, index, "name", padding(rt, alloc, bytes, 40))
        }
    }
}

// A command that makes a document or an index of so many bytes, or the collection.
fn sized_command(rt: &impl Abort, alloc: Global, line: &str) -> Document {
    let (name, bytes) = parted(line);
    if name == "create" {
        return command_to(rt, alloc, "create", "c");
    }
    let mut list = Array::new(alloc);
    list.push(Bson::Document(sized(rt, alloc, name, number_of(bytes))))
        .expect(rt, "memory");
    let (command, field) = place_of(name);
    with(
        rt,
        command_to(rt, alloc, command, "c"),
        field,
        Bson::Array(list),
    )
}

// How many bytes the last document of a collection has.
fn last_bytes(rt: &impl Abort, store: &Store, ns: &Namespace) -> usize {
    match store.documents(ns).expect(rt, "memory").last() {
        Some(document) => document.as_bytes().len(),
        None => 0,
    }
}

// What a command is answered, how many changes there are then, and how many bytes the last document of the collection has.
fn answered(rt: &impl Abort, alloc: Global, store: &mut Store, line: &str) -> String {
    let mut told = answer_to(rt, alloc, store, &sized_command(rt, alloc, line));
    let ns = named(alloc, "app", "c").expect(rt, "memory");
    let bytes = last_bytes(rt, store, &ns);
    let changes = store.changes().len();
    write!(told, ", {changes} changes, {bytes} bytes").expect(rt, "memory");
    told
}

/// The commands of `SIZES` that are answered otherwise, a line each, and how.
pub(super) fn sizes(rt: &impl Abort, alloc: Global) -> String {
    let mut store = Store::new(alloc);
    let mut lines = String::new(alloc);
    for line in SIZES.lines() {
        let (command, wanted) = line.split_once(" -> ").unwrap_or((line, ""));
        let found = answered(rt, alloc, &mut store, command);
        if found.as_str() != wanted {
            write!(lines, "{command} -> {found}\n").expect(rt, "memory");
        }
    }
    lines
}
