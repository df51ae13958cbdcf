use super::commands::nearest;
use super::{copied, failed, namespace, owned, printed, shown, stage, text, written};
use crate::{document_word, json_bytes, parted};
use mg_bson::{Bson, Document, RawDocumentBuf};
use mg_link::{Error, OperationTarget};
use mg_ops::{
    Aggregate, ChangeStreamAggregate, Create, CursorSpecification, Delete, Find, GetMore,
    GetMoreResult, Operation, RawOutput, RunCursorCommand, Update, WatchArgs, doc_slices,
};
use mg_options::{
    AggregateOptions, ChangeStreamOptions, CursorType, DeleteOptions, FindOptions,
    RunCursorCommandOptions, UpdateModifications,
};
use std::alloc::Global;
use std::process::Abort;

// Each row is an operation, the reply to it, and what comes of it: a key or a collection that is there, a write concern that
// was not met, counts, cursors, an id of 32 bits where one of 64 belongs, and the last batch of a cursor.
pub(super) const ROWS: &str =
    r#"reply delete {"n":0,"ok":1,"writeErrors":[{"code":11000,"errmsg":"refused","index":0}]}~write failed with code 11000: refused
reply create {"n":0,"ok":1,"writeErrors":[{"code":48,"errmsg":"refused","index":0}]}~write failed with code 48: refused
reply $merge {"cursor":{"firstBatch":[],"id":{"$int64":"0"},"ns":"db.coll"},"writeConcernError":{"code":64}}~write failed with code 64: 
reply $match {"cursor":{"firstBatch":[],"id":{"$int64":"0"},"ns":"db.coll"},"writeConcernError":{"code":64}}~None None false
reply update {"n":2,"nModified":{"$int64":"1"}}~UpdateCounts { matched: 2, modified: 1 }
reply find {"cursor":{"firstBatch":[],"id":{"$int64":"7"},"ns":"db.coll"}}~Some(6) Some(9) true
reply watch {"cursor":{"firstBatch":[],"id":{"$int64":"7"},"ns":"db.coll"}}~Some(5) Some(9) true
reply run {"cursor":{"firstBatch":[],"id":{"$int64":"7"},"ns":"db.coll"}}~Some(5) Some(6) true
reply find {"cursor":{"firstBatch":[],"id":7,"ns":"db.coll"}}~invalid response: bad cursor id
reply raw {"cursor":{"firstBatch":[],"id":7,"ns":"db.coll"}}~/{"cursor":{"firstBatch":[],"id":7,"ns":"db.coll"}}
reply more {"cursor":{"firstBatch":[{"x":1},{"x":2}],"id":{"$int64":"0"},"ns":"db.coll"},"ok":1}~0 true true 2"#;

// The size and time of the getMores of a cursor, and whether they have a comment.
fn cursor_word(
    rt: &impl Abort,
    alloc: Global,
    opened: Result<CursorSpecification, Error>,
) -> String {
    match opened {
        Ok(opened) => {
            let more = opened.info.get_more().expect(rt, "memory");
            let has_comment = more.comment.is_some();
            written(
                rt,
                format!(in alloc; "{:?} {:?} {has_comment}", more.batch_size, more.max_time),
            )
        }
        Err(error) => failed(rt, alloc, error),
    }
}

fn deleted(rt: &impl Abort, alloc: Global, reply: RawDocumentBuf) -> String {
    let delete = Delete {
        ns: namespace(rt, alloc),
        filter: Document::new(alloc),
        many: true,
        options: DeleteOptions::builder(),
    };
    printed(rt, alloc, delete.read(alloc, reply))
}

fn created(rt: &impl Abort, alloc: Global, reply: RawDocumentBuf) -> String {
    let create = Create {
        ns: namespace(rt, alloc),
        write_concern: None,
    };
    match create.read(alloc, reply) {
        Ok(()) => String::new(alloc),
        Err(error) => failed(rt, alloc, error),
    }
}

// An aggregate of one stage.
fn aggregated(rt: &impl Abort, alloc: Global, reply: RawDocumentBuf, name: &str) -> String {
    let aggregate = Aggregate {
        target: OperationTarget::Cluster,
        pipeline: stage(rt, alloc, name),
        options: AggregateOptions::builder(),
    };
    cursor_word(rt, alloc, aggregate.read(alloc, reply))
}

// How many documents an update found, and how many it changed.
fn updated(rt: &impl Abort, alloc: Global, reply: RawDocumentBuf) -> String {
    let update = Update {
        ns: namespace(rt, alloc),
        filter: Document::new(alloc),
        modifications: UpdateModifications::from(Document::new(alloc)),
        many: true,
        write_concern: None,
    };
    match update.read(alloc, reply) {
        Ok(counts) => shown(rt, alloc, &counts),
        Err(error) => failed(rt, alloc, error),
    }
}

// The id of a batch, whether its cursor is exhausted and has no token, and how many documents came.
fn batch_word(rt: &impl Abort, alloc: Global, gave: &GetMoreResult) -> String {
    let count = match doc_slices(&gave.raw_reply.as_raw()) {
        Ok(documents) => documents.len(),
        Err(_) => 0,
    };
    let has_no_token = gave.post_batch_resume_token.is_none();
    let (id, is_exhausted) = (gave.id, gave.exhausted);
    written(
        rt,
        format!(in alloc; "{id} {is_exhausted} {has_no_token} {count}"),
    )
}

fn more(rt: &impl Abort, alloc: Global, reply: RawDocumentBuf) -> String {
    let get_more = GetMore {
        ns: namespace(rt, alloc),
        id: 1,
        batch_size: None,
        max_time: None,
        comment: None,
    };
    match get_more.read(alloc, reply) {
        Ok(gave) => batch_word(rt, alloc, &gave),
        Err(error) => failed(rt, alloc, error),
    }
}

// A find of at most five documents, in batches of five.
fn five(rt: &impl Abort, alloc: Global) -> Find {
    Find {
        ns: namespace(rt, alloc),
        filter: Document::new(alloc),
        options: FindOptions::builder()
            .limit(5)
            .batch_size(5)
            .max_await_time(9)
            .comment(text(rt, alloc, "c")),
    }
}

fn watched(rt: &impl Abort, alloc: Global, reply: RawDocumentBuf) -> String {
    let args = WatchArgs {
        pipeline: Vec::new(alloc),
        target: OperationTarget::Cluster,
        options: ChangeStreamOptions::builder()
            .max_await_time(9)
            .batch_size(5)
            .comment(text(rt, alloc, "c")),
    };
    let aggregate = ChangeStreamAggregate { args, resume: None };
    match aggregate.read(alloc, reply) {
        Ok((opened, _)) => cursor_word(rt, alloc, Ok(opened)),
        Err(error) => failed(rt, alloc, error),
    }
}

// A command that gives a cursor.
fn ran(rt: &impl Abort, alloc: Global, reply: RawDocumentBuf) -> String {
    let options = RunCursorCommandOptions::builder()
        .selection_criteria(nearest())
        .cursor_type(CursorType::TailableAwait)
        .batch_size(5)
        .max_time(6)
        .comment(Bson::Int32(1))
        .build();
    let run = RunCursorCommand {
        db: owned(rt, alloc, "db"),
        command: Document::new(alloc),
        options: copied(rt, options),
    };
    cursor_word(rt, alloc, run.read(alloc, reply))
}

/// What comes of a reply to an operation.
pub(super) fn reply(rt: &impl Abort, alloc: Global, line: &str) -> String {
    let (operation, json) = parted(line);
    let reply = json_bytes(alloc, json).expect(rt, "a JSON text");
    match operation {
        "delete" => deleted(rt, alloc, reply),
        "create" => created(rt, alloc, reply),
        "update" => updated(rt, alloc, reply),
        "find" => cursor_word(rt, alloc, five(rt, alloc).read(alloc, reply)),
        "watch" => watched(rt, alloc, reply),
        "run" => ran(rt, alloc, reply),
        "more" => more(rt, alloc, reply),
        "raw" => match RawOutput(five(rt, alloc)).read(alloc, reply) {
            Ok(output) => document_word(alloc, output.as_raw()).expect(rt, "memory"),
            Err(error) => failed(rt, alloc, error),
        },
        stage => aggregated(rt, alloc, reply, stage),
    }
}
