use super::commands::{built, local, nearest};
use super::records::{body_text, english};
use super::{copied, failed, namespace, one_field, stage, text, written};
use mg_bson::{Bson, Document, Timestamp};
use mg_link::OperationTarget;
use mg_ops::{ChangeStreamAggregate, ChangeStreamData, WatchArgs, resume_options};
use mg_options::{
    ChangeStreamOptions, FullDocumentBeforeChangeType, FullDocumentType, ResumeToken,
};
use std::alloc::Global;
use std::process::Abort;

// Each row is where the options stand, or that a stream resumes before or behind a document, and what comes of them.
pub(super) const ROWS: &str =
    r#"stream stage~fullDocument fullDocumentBeforeChange resumeAfter startAtOperationTime startAfter allChangesForCluster showExpandedEvents comment {"allChangesForCluster":true,"comment":"c","fullDocument":"updateLookup","fullDocumentBeforeChange":"required","resumeAfter":{"_data":1},"showExpandedEvents":true,"startAfter":{"_data":4},"startAtOperationTime":{"$timestamp":{"i":3,"t":2}}}
stream aggregate~cursor collation comment {"collation":{"locale":"en"},"comment":"c","cursor":{"batchSize":5}}
stream watch~aggregate pipeline cursor collation comment $db readConcern $readPreference {"$db":"db","$readPreference":{"mode":"nearest"},"aggregate":"coll","collation":{"locale":"en"},"comment":"c","cursor":{"batchSize":5},"pipeline":[{"$changeStream":{"allChangesForCluster":true,"comment":"c","fullDocument":"updateLookup","fullDocumentBeforeChange":"required","resumeAfter":{"_data":1},"showExpandedEvents":true,"startAfter":{"_data":4},"startAtOperationTime":{"$timestamp":{"i":3,"t":2}}}},{"$skip":1}],"readConcern":{"level":"local"}}
stream resumed before~None Some(2)
stream resumed behind~Some(2) None"#;

fn token(rt: &impl Abort, alloc: Global, value: &Bson) -> ResumeToken {
    ResumeToken::from_value(value).expect(rt, "memory")
}

fn token_in(rt: &impl Abort, alloc: Global, n: i32) -> ResumeToken {
    let data = one_field(rt, alloc, "_data", Bson::Int32(n));
    token(rt, alloc, &Bson::Document(data))
}

// Options of which everything is given.
fn all_given(rt: &impl Abort, alloc: Global) -> ChangeStreamOptions {
    let time = Timestamp {
        time: 2,
        increment: 3,
    };
    ChangeStreamOptions::builder()
        .full_document(FullDocumentType::UpdateLookup)
        .full_document_before_change(FullDocumentBeforeChangeType::Required)
        .resume_after(token_in(rt, alloc, 1))
        .start_at_operation_time(time)
        .start_after(token_in(rt, alloc, 4))
        .all_changes_for_cluster(true)
        .show_expanded_events(true)
        .comment(text(rt, alloc, "c"))
        .max_await_time(9)
        .batch_size(5)
        .collation(english(rt, alloc))
        .read_concern(local())
        .selection_criteria(nearest())
        .build()
}

// The command of a watch with these options, which passes over one event.
fn watch(rt: &impl Abort, alloc: Global, options: ChangeStreamOptions) -> String {
    let args = WatchArgs {
        pipeline: stage(rt, alloc, "$skip"),
        target: OperationTarget::Collection(namespace(rt, alloc)),
        options,
    };
    built(
        rt,
        alloc,
        ChangeStreamAggregate { args, resume: None },
        None,
    )
}

fn number_of(rt: &impl Abort, token: Option<&ResumeToken>) -> Option<i32> {
    token?.to_value().expect(rt, "memory").as_i32()
}

// Behind which tokens a stream resumes and starts again that started behind 1 and came to 2.
fn resumed(rt: &impl Abort, alloc: Global, document_returned: bool) -> String {
    let args = WatchArgs {
        pipeline: Vec::new(alloc),
        target: OperationTarget::Cluster,
        options: ChangeStreamOptions::builder().start_after(token(rt, alloc, &Bson::Int32(1))),
    };
    let state = ChangeStreamData {
        initial_operation_time: None,
        resume_token: Some(token(rt, alloc, &Bson::Int32(2))),
        document_returned,
    };
    let options = resume_options(&args, &state, 21).expect(rt, "memory");
    let resumes = number_of(rt, options.resume_after.as_ref());
    let starts = number_of(rt, options.start_after.as_ref());
    written(rt, format!(in alloc; "{resumes:?} {starts:?}"))
}

// What stands in the stage of a watch, or in its aggregate.
fn fields(rt: &impl Abort, alloc: Global, place: &str) -> String {
    let options = copied(rt, all_given(rt, alloc));
    let mut body = Document::new(alloc);
    let put = match place {
        "stage" => options.append_fields(alloc, &mut body),
        _ => {
            let aggregate = options.aggregate_options().expect(rt, "memory");
            aggregate.append_fields(alloc, &mut body)
        }
    };
    match put {
        Ok(()) => body_text(rt, alloc, body),
        Err(error) => failed(rt, alloc, error),
    }
}

/// What options of a stream put into a command, and into that by which it resumes.
pub(super) fn stream(rt: &impl Abort, alloc: Global, place: &str) -> String {
    match place {
        "resumed before" => resumed(rt, alloc, false),
        "resumed behind" => resumed(rt, alloc, true),
        "watch" => watch(rt, alloc, copied(rt, all_given(rt, alloc))),
        _ => fields(rt, alloc, place),
    }
}
