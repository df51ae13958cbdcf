use super::records::{body_or_error, body_text};
use super::sessions::session_of;
use super::{collection, copied, keys, namespace, one_field, owned, records, stage, text, with};
use crate::parted;
use mg_bson::{Binary, Bson, Document, to_document};
use mg_link::{
    ClientSession, OperationTarget, ReadConcern, ReadConcernLevel, ReadPreference,
    SelectionCriteria, WriteConcern,
};
use mg_ops::{
    Aggregate, ChangeStreamAggregate, Create, CreateIndexes, Delete, DropCollection, Find, GetMore,
    Insert, KillCursors, ListCollections, ListIndexes, Operation, RawOutput, RunCommand,
    RunCursorCommand, Update, WatchArgs,
};
use mg_options::{
    AggregateOptions, ChangeStreamOptions, CreateIndexOptions, CursorType, DeleteOptions,
    DropCollectionOptions, FindOptions, InsertManyOptions, ListCollectionsOptions,
    ListIndexesOptions, RunCommandOptions, RunCursorCommandOptions, UpdateModifications,
};
use std::alloc::Global;
use std::process::Abort;

// Each row is an operation, how it is built, the state of its session where it has one, and what is built: the names of its
// fields in order, and its JSON text.
pub(super) const ROWS: &str =
    r#"command find awaited -~find singleBatch tailable awaitData batchSize comment limit filter $db readConcern $readPreference {"$db":"db","$readPreference":{"mode":"nearest"},"awaitData":true,"batchSize":5,"comment":"c","filter":{"x":1},"find":"coll","limit":{"$int64":"7"},"readConcern":{"level":"local"},"singleBatch":true,"tailable":true}
command find tailable -~find tailable batchSize limit filter $db {"$db":"db","batchSize":6,"filter":{"x":1},"find":"coll","limit":{"$int64":"5"},"tailable":true}
command aggregate collection -~aggregate pipeline cursor allowDiskUse bypassDocumentValidation collation comment hint maxTimeMS let $db readConcern writeConcern $readPreference {"$db":"db","$readPreference":{"mode":"nearest"},"aggregate":"coll","allowDiskUse":true,"bypassDocumentValidation":false,"collation":{"locale":"en"},"comment":"c","cursor":{"batchSize":5},"hint":{"x":1},"let":{"x":2},"maxTimeMS":6,"pipeline":[{"$skip":1}],"readConcern":{"level":"local"},"writeConcern":{"j":true}}
command aggregate merge -~aggregate pipeline cursor allowDiskUse bypassDocumentValidation collation comment hint maxTimeMS let $db readConcern writeConcern $readPreference {"$db":"db","$readPreference":{"mode":"nearest"},"aggregate":"coll","allowDiskUse":true,"bypassDocumentValidation":false,"collation":{"locale":"en"},"comment":"c","cursor":{},"hint":{"x":1},"let":{"x":2},"maxTimeMS":6,"pipeline":[{"$merge":1}],"readConcern":{"level":"local"},"writeConcern":{"j":true}}
command aggregate cluster -~aggregate pipeline cursor allowDiskUse bypassDocumentValidation collation comment hint maxTimeMS let $db readConcern writeConcern $readPreference {"$db":"admin","$readPreference":{"mode":"nearest"},"aggregate":1,"allowDiskUse":true,"bypassDocumentValidation":false,"collation":{"locale":"en"},"comment":"c","cursor":{"batchSize":5},"hint":{"x":1},"let":{"x":2},"maxTimeMS":6,"pipeline":[{"$skip":1}],"readConcern":{"level":"local"},"writeConcern":{"j":true}}
command list names -~listCollections nameOnly filter cursor comment $db {"$db":"db","comment":"c","cursor":{"batchSize":5},"filter":{"name":1},"listCollections":1,"nameOnly":true}
command list types -~listCollections nameOnly filter cursor comment $db {"$db":"db","comment":"c","cursor":{"batchSize":5},"filter":{"type":1},"listCollections":1,"nameOnly":false}
command list indexes -~listIndexes cursor maxTimeMS comment $db {"$db":"db","comment":"c","cursor":{"batchSize":5},"listIndexes":"coll","maxTimeMS":6}
command given command -~x $db $readPreference {"$db":"db","$readPreference":{"mode":"nearest"},"x":1}
command given cursor -~x $db $readPreference {"$db":"db","$readPreference":{"mode":"nearest"},"x":1}
command given excessive -~invalid batch size
command given more -~getMore collection batchSize maxTimeMS comment $db {"$db":"db","batchSize":5,"collection":"coll","comment":"c","getMore":{"$int64":"9"},"maxTimeMS":2147483647}
command given plain-more -~getMore collection $db {"$db":"db","collection":"coll","getMore":{"$int64":"9"}}
command given sizeless -~getMore collection $db {"$db":"db","collection":"coll","getMore":{"$int64":"9"}}
command write insert -~insert documents ordered bypassDocumentValidation comment $db writeConcern {"$db":"db","bypassDocumentValidation":true,"comment":"c","documents":[{"x":1}],"insert":"coll","ordered":false,"writeConcern":{"j":true}}
command write used -~insert documents ordered bypassDocumentValidation comment $db writeConcern {"$db":"db","bypassDocumentValidation":true,"comment":"c","documents":[{"x":1}],"insert":"coll","ordered":false,"writeConcern":{"j":true}}
command write none -~no documents to insert
command write slow -~number out of range
command write delete -~delete deletes ordered let comment $db writeConcern {"$db":"db","comment":3,"delete":"coll","deletes":[{"collation":{"alternate":"non-ignorable","backwards":false,"caseFirst":"off","caseLevel":true,"locale":"en","maxVariable":"space","normalization":true,"numericOrdering":false,"strength":2},"hint":{"x":1},"limit":1,"q":{"x":1}}],"let":{"x":2},"ordered":true,"writeConcern":{"j":true}}
command write update -~update updates ordered $db writeConcern {"$db":"db","ordered":true,"update":"coll","updates":[{"multi":true,"q":{"x":1},"u":{"x":2}}],"writeConcern":{"j":true}}
command write one -~update updates ordered $db writeConcern {"$db":"db","ordered":true,"update":"coll","updates":[{"q":{"x":1},"u":{"x":2}}],"writeConcern":{"j":true}}
command write pipeline -~update updates ordered $db writeConcern {"$db":"db","ordered":true,"update":"coll","updates":[{"q":{"x":1},"u":[{"x":2}]}],"writeConcern":{"j":true}}
command space create -~create $db writeConcern {"$db":"db","create":"coll","writeConcern":{"j":true}}
command space drop -~drop $db writeConcern {"$db":"db","drop":"coll","writeConcern":{"j":true}}
command space indexes -~createIndexes indexes maxTimeMS $db writeConcern {"$db":"db","createIndexes":"coll","indexes":[{"key":{"filename":1,"uploadDate":{"$int64":"-1"}},"name":"filename_1_uploadDate_-1"}],"maxTimeMS":6,"writeConcern":{"j":true}}
command space nameless -~number out of range
command short raised -~find batchSize limit filter $db {"$db":"db","batchSize":6,"filter":{},"find":"c","limit":{"$int64":"5"}}
command short single -~find singleBatch limit filter $db {"$db":"db","filter":{},"find":"c","limit":{"$int64":"1"},"singleBatch":true}
command short excessive -~invalid batch size
command short least -~invalid limit
command short zero -~find batchSize limit filter $db {"$db":"db","batchSize":1,"filter":{},"find":"c","limit":{"$int64":"0"}}
command short patient -~getMore collection maxTimeMS $db {"$db":"db","collection":"c","getMore":{"$int64":"9"},"maxTimeMS":2147483647}
command short out -~aggregate pipeline cursor $db {"$db":"db","aggregate":"c","cursor":{},"pipeline":[{"$out":"d"}]}
command short large -~the document cannot be written"#;

/// A write is to be in the journal.
pub(super) fn journaled() -> WriteConcern {
    WriteConcern {
        w: None,
        w_timeout: None,
        journal: Some(true),
    }
}

pub(super) fn local() -> ReadConcern {
    ReadConcern {
        level: ReadConcernLevel::Local,
    }
}

pub(super) fn nearest() -> SelectionCriteria {
    SelectionCriteria::ReadPreference(ReadPreference::Nearest)
}

/// The command of an operation, or the error in its place.
pub(super) fn built<O: Operation + Drop>(
    rt: &impl Abort,
    alloc: Global,
    operation: O,
    session: Option<&ClientSession>,
) -> String {
    body_or_error(rt, alloc, operation.build(alloc, 21, session))
}

// A tailable find has a limit that is the size of its batches.
fn find_options(rt: &impl Abort, alloc: Global, way: &str) -> FindOptions {
    match way {
        "awaited" => {
            FindOptions::builder()
                .limit(-7)
                .batch_size(5)
                .cursor_type(CursorType::TailableAwait)
                .max_await_time(9)
                .comment(text(rt, alloc, "c"))
                .read_concern(local())
                .selection_criteria(nearest())
        }
        "tailable" => {
            FindOptions::builder()
                .limit(5)
                .batch_size(5)
                .cursor_type(CursorType::Tailable)
        }
        _ => {
            FindOptions::builder()
                .read_concern(local())
                .selection_criteria(nearest())
        }
    }
}

/// A find with options of this name. Without one it reads what is local at any server.
pub(super) fn find(rt: &impl Abort, alloc: Global, way: &str) -> Find {
    Find {
        ns: namespace(rt, alloc),
        filter: keys(rt, alloc, 1),
        options: find_options(rt, alloc, way),
    }
}

/// A watch of a collection.
pub(super) fn watch(rt: &impl Abort, alloc: Global) -> ChangeStreamAggregate {
    ChangeStreamAggregate {
        args: WatchArgs {
            pipeline: Vec::new(alloc),
            target: OperationTarget::Collection(namespace(rt, alloc)),
            options: ChangeStreamOptions::builder(),
        },
        resume: None,
    }
}

fn aggregate(rt: &impl Abort, alloc: Global, way: &str) -> Aggregate {
    let target = match way {
        "cluster" => OperationTarget::Cluster,
        _ => OperationTarget::Collection(namespace(rt, alloc)),
    };
    let options = match way {
        "journaled" => AggregateOptions::builder().write_concern(journaled()),
        _ => records::aggregate(rt, alloc),
    };
    Aggregate {
        target,
        pipeline: stage(rt, alloc, if way == "merge" { "$merge" } else { "$skip" }),
        options,
    }
}

// What reads by an operation of its own.
fn reads(
    rt: &impl Abort,
    alloc: Global,
    session: Option<&ClientSession>,
    operation: &str,
    way: &str,
) -> String {
    match (operation, way) {
        ("find", "raw") => built(rt, alloc, RawOutput(find(rt, alloc, way)), session),
        ("find", _) => built(rt, alloc, find(rt, alloc, way), session),
        (_, "watch") => built(rt, alloc, watch(rt, alloc), session),
        _ => built(rt, alloc, aggregate(rt, alloc, way), session),
    }
}

fn lists(rt: &impl Abort, alloc: Global, session: Option<&ClientSession>, way: &str) -> String {
    if way == "indexes" || way == "plain-indexes" {
        let options = match way {
            "indexes" => records::list_indexes(rt, alloc),
            _ => ListIndexesOptions::builder(),
        };
        let ns = namespace(rt, alloc);
        return built(rt, alloc, ListIndexes { ns, options }, session);
    }
    let options = match way {
        "names" => records::list_collections(rt, alloc, "name"),
        "types" => records::list_collections(rt, alloc, "type"),
        _ => ListCollectionsOptions::builder(),
    };
    let list = ListCollections {
        db: owned(rt, alloc, "db"),
        name_only: true,
        options,
    };
    built(rt, alloc, list, session)
}

// A command that gives a cursor.
fn cursor_command(rt: &impl Abort, alloc: Global, way: &str) -> RunCursorCommand {
    let options = match way {
        "plain" => RunCursorCommandOptions::builder(),
        _ => {
            RunCursorCommandOptions::builder()
                .selection_criteria(nearest())
                .batch_size(if way == "cursor" { 5 } else { 2_147_483_648 })
        }
    };
    RunCursorCommand {
        db: owned(rt, alloc, "db"),
        command: keys(rt, alloc, 1),
        options,
    }
}

// A getMore of everything, of no documents, of no size, or with the time of a watch that waits longer than the server can.
fn get_more(rt: &impl Abort, alloc: Global, way: &str) -> GetMore {
    let (batch_size, max_time) = match way {
        "more" => (Some(5), Some(2_147_483_648)),
        "sizeless" => (Some(0), None),
        "patient" => (Some(0), Some(2_147_483_648)),
        _ => (None, None),
    };
    let is_full = way == "more";
    GetMore {
        ns: collection(rt, alloc, if way == "patient" { "c" } else { "coll" }),
        id: 9,
        batch_size,
        max_time,
        comment: if is_full {
            Some(text(rt, alloc, "c"))
        } else {
            None
        },
    }
}

fn given(rt: &impl Abort, alloc: Global, session: Option<&ClientSession>, way: &str) -> String {
    match way {
        "command" => {
            let options = RunCommandOptions::builder()
                .selection_criteria(nearest())
                .build();
            let run = RunCommand {
                db: owned(rt, alloc, "db"),
                command: keys(rt, alloc, 1),
                options: copied(rt, options),
            };
            built(rt, alloc, run, session)
        }
        "cursor" | "excessive" | "plain" => built(
            rt,
            alloc,
            cursor_command(rt, alloc, way),
            session,
        ),
        "kill" => {
            let kill = KillCursors {
                ns: namespace(rt, alloc),
                ids: vec![in alloc; 9].expect(rt, "memory"),
            };
            built(rt, alloc, kill, session)
        }
        _ => built(rt, alloc, get_more(rt, alloc, way), session),
    }
}

// An insert of one document, or of none.
fn insert(rt: &impl Abort, alloc: Global, way: &str) -> Insert {
    let options = match way {
        "ordered" => InsertManyOptions::builder().write_concern(journaled()),
        "slow" => records::insert(rt, alloc).write_concern(slow()),
        _ => records::insert(rt, alloc),
    };
    let mut documents = Vec::new(alloc);
    if way != "none" {
        documents.push(keys(rt, alloc, 1)).expect(rt, "memory");
    }
    Insert {
        ns: namespace(rt, alloc),
        documents,
        options,
    }
}

// A write is to be safe within more milliseconds than an Int64 counts.
fn slow() -> WriteConcern {
    WriteConcern {
        w: None,
        w_timeout: Some(u64::MAX),
        journal: None,
    }
}

// The command in the bytes for which an insert is used up.
fn used(rt: &impl Abort, alloc: Global) -> String {
    let raw = insert(rt, alloc, "used").into_bytes(alloc);
    let raw = raw.expect(rt, "a command");
    body_text(
        rt,
        alloc,
        to_document(alloc, raw.as_raw()).expect(rt, "memory"),
    )
}

fn delete(rt: &impl Abort, alloc: Global, way: &str) -> Delete {
    Delete {
        ns: namespace(rt, alloc),
        filter: keys(rt, alloc, 1),
        many: false,
        options: match way {
            "delete" => records::delete(rt, alloc),
            _ => DeleteOptions::builder().write_concern(journaled()),
        },
    }
}

/// An update of one document, or of many. A plain one asks for nothing.
pub(super) fn update(rt: &impl Abort, alloc: Global, way: &str) -> Update {
    let modification = keys(rt, alloc, 2);
    let modifications = match way {
        "pipeline" => {
            let pipeline = vec![in alloc; modification].expect(rt, "memory");
            UpdateModifications::from(pipeline)
        }
        _ => UpdateModifications::from(modification),
    };
    Update {
        ns: namespace(rt, alloc),
        filter: keys(rt, alloc, 1),
        modifications: copied(rt, modifications),
        many: way == "update",
        write_concern: if way == "plain" {
            None
        } else {
            Some(journaled())
        },
    }
}

fn writes(rt: &impl Abort, alloc: Global, session: Option<&ClientSession>, way: &str) -> String {
    match way {
        "used" => used(rt, alloc),
        "insert" | "ordered" | "none" | "slow" => built(rt, alloc, insert(rt, alloc, way), session),
        "delete" | "deleted" => built(rt, alloc, delete(rt, alloc, way), session),
        _ => built(rt, alloc, update(rt, alloc, way), session),
    }
}

// Indexes of one key, or of two, the second with the value of one that goes down, or with none.
fn create_indexes(rt: &impl Abort, alloc: Global, way: &str) -> CreateIndexes {
    if way == "plain-indexes" {
        return CreateIndexes {
            ns: namespace(rt, alloc),
            keys: keys(rt, alloc, 1),
            options: CreateIndexOptions::builder(),
        };
    }
    let value = match way {
        "indexes" => Bson::Int64(-1),
        _ => Bson::Null,
    };
    let keys = with(
        rt,
        one_field(rt, alloc, "filename", Bson::Int32(1)),
        "uploadDate",
        value,
    );
    CreateIndexes {
        ns: namespace(rt, alloc),
        keys,
        options: CreateIndexOptions::builder()
            .max_time(6)
            .write_concern(journaled()),
    }
}

fn spaces(rt: &impl Abort, alloc: Global, session: Option<&ClientSession>, way: &str) -> String {
    match way {
        "create" => {
            let create = Create {
                ns: namespace(rt, alloc),
                write_concern: Some(journaled()),
            };
            built(rt, alloc, create, session)
        }
        "drop" | "dropped" => {
            let options = match way {
                "drop" => DropCollectionOptions::builder().write_concern(journaled()),
                _ => DropCollectionOptions::builder(),
            };
            let dropped = DropCollection {
                ns: namespace(rt, alloc),
                options: copied(rt, options),
            };
            built(rt, alloc, dropped, session)
        }
        _ => built(rt, alloc, create_indexes(rt, alloc, way), session),
    }
}

// A find of all documents, with a limit and a size of its batches.
fn find_up_to(rt: &impl Abort, alloc: Global, limit: &str) -> Find {
    let options = match limit {
        "raised" => FindOptions::builder().limit(5).batch_size(5),
        "single" => FindOptions::builder().limit(-1),
        "excessive" => {
            FindOptions::builder()
                .limit(2_147_483_647)
                .batch_size(2_147_483_647)
        }
        "least" => FindOptions::builder().limit(i64::MIN),
        _ => FindOptions::builder().limit(0).batch_size(0),
    };
    Find {
        ns: collection(rt, alloc, "c"),
        filter: Document::new(alloc),
        options,
    }
}

// An aggregate that writes its documents into another collection.
fn aggregate_out(rt: &impl Abort, alloc: Global) -> Aggregate {
    let stage = one_field(rt, alloc, "$out", text(rt, alloc, "d"));
    Aggregate {
        target: OperationTarget::Collection(collection(rt, alloc, "c")),
        pipeline: vec![in alloc; stage].expect(rt, "memory"),
        options: AggregateOptions::builder().batch_size(5),
    }
}

// An insert of a document that is too large by its binary.
fn insert_large(rt: &impl Abort, alloc: Global) -> Insert {
    let bytes = vec![in alloc; 0; 16_777_216].expect(rt, "memory");
    let document = one_field(rt, alloc, "_id", Bson::Binary(Binary { subtype: 0, bytes }));
    Insert {
        ns: namespace(rt, alloc),
        documents: vec![in alloc; document].expect(rt, "memory"),
        options: InsertManyOptions::builder(),
    }
}

fn shorts(rt: &impl Abort, alloc: Global, way: &str) -> String {
    match way {
        "large" => built(rt, alloc, insert_large(rt, alloc), None),
        "patient" => built(rt, alloc, get_more(rt, alloc, way), None),
        "out" => built(rt, alloc, aggregate_out(rt, alloc), None),
        _ => built(rt, alloc, find_up_to(rt, alloc, way), None),
    }
}

/// The command of an operation, by how it is built and the state of its session.
pub(super) fn command(rt: &impl Abort, alloc: Global, line: &str) -> String {
    let (operation, rest) = parted(line);
    let (way, state) = parted(rest);
    let session = session_of(rt, alloc, state);
    let session = session.as_ref();
    match operation {
        "find" | "aggregate" => reads(rt, alloc, session, operation, way),
        "list" => lists(rt, alloc, session, way),
        "given" => given(rt, alloc, session, way),
        "write" => writes(rt, alloc, session, way),
        "space" => spaces(rt, alloc, session, way),
        _ => shorts(rt, alloc, way),
    }
}
