use super::commands::{journaled, local, nearest};
use super::{copied, failed, keys, one_field, owned, text};
use crate::parted;
use mg_bson::{Bson, Document};
use mg_json::document_text;
use mg_link::{
    Acknowledgment, Error, ReadConcern, ReadPreference, SelectionCriteria, WriteConcern,
};
use mg_options::{
    AggregateOptions, Collation, CollationAlternate, CollationCaseFirst, CollationMaxVariable,
    CollationStrength, CommitQuorum, CreateIndexOptions, DeleteOptions, FindOneOptions,
    FindOptions, GridFsFindOneOptions, GridFsFindOptions, Hint, InsertManyOptions,
    InsertOneOptions, ListCollectionsOptions, ListIndexesOptions, append_concerns,
};
use mg_records::{DistinctOptions, DropIndexOptions, EstimatedDocumentCountOptions};
use std::alloc::Global;
use std::process::Abort;

// Each row is a record of options, how it is given, and what it puts into a body: the names in order, and the JSON text.
pub(super) const ROWS: &str =
    r#"record find all~allowDiskUse allowPartialResults batchSize comment hint limit max maxScan maxTimeMS min noCursorTimeout projection returnKey showRecordId skip sort collation let {"allowDiskUse":true,"allowPartialResults":false,"batchSize":5,"collation":{"locale":"en"},"comment":"c","hint":"h","let":{"x":5},"limit":{"$int64":"7"},"max":{"x":1},"maxScan":{"$int64":"8"},"maxTimeMS":2147483647,"min":{"x":2},"noCursorTimeout":true,"projection":{"x":3},"returnKey":false,"showRecordId":true,"skip":{"$int64":"9"},"sort":{"x":4}}
record find one~allowPartialResults comment hint limit max maxScan maxTimeMS min projection returnKey showRecordId skip sort collation let {"allowPartialResults":true,"collation":{"locale":"en"},"comment":6,"hint":{"x":1},"let":{"x":2},"limit":{"$int64":"1"},"max":{"x":4},"maxScan":{"$int64":"8"},"maxTimeMS":7,"min":{"x":5},"projection":{"x":6},"returnKey":true,"showRecordId":false,"skip":{"$int64":"9"},"sort":{"x":3}}
record find file~limit maxTimeMS skip sort {"limit":{"$int64":"1"},"maxTimeMS":6,"skip":{"$int64":"2"},"sort":{}}
record find files~allowDiskUse batchSize limit maxTimeMS skip sort {"allowDiskUse":true,"batchSize":5,"limit":{"$int64":"3"},"maxTimeMS":6,"skip":{"$int64":"2"},"sort":{}}
record find least~invalid limit
record find long~maxTimeMS {"maxTimeMS":{"$int64":"2147483648"}}
record find longest~number out of range
record find large~invalid batch size
record write aggregate~allowDiskUse cursor bypassDocumentValidation collation comment hint maxTimeMS let {"allowDiskUse":true,"bypassDocumentValidation":false,"collation":{"locale":"en"},"comment":"c","cursor":{"batchSize":5},"hint":{"x":1},"let":{"x":2},"maxTimeMS":6}
record write insert~bypassDocumentValidation ordered comment {"bypassDocumentValidation":true,"comment":"c","ordered":false}
record write delete~collation hint let comment {"collation":{"alternate":"non-ignorable","backwards":false,"caseFirst":"off","caseLevel":true,"locale":"en","maxVariable":"space","normalization":true,"numericOrdering":false,"strength":2},"comment":3,"hint":{"x":1},"let":{"x":2}}
record write collation~locale strength caseLevel caseFirst numericOrdering alternate maxVariable normalization backwards {"alternate":"non-ignorable","backwards":false,"caseFirst":"off","caseLevel":true,"locale":"en","maxVariable":"space","normalization":true,"numericOrdering":false,"strength":2}
record index nodes~commitQuorum maxTimeMS comment {"comment":"c","commitQuorum":3,"maxTimeMS":6}
record index word~commitQuorum maxTimeMS comment {"comment":"c","commitQuorum":"votingMembers","maxTimeMS":6}
record index many~number out of range
record index drop~maxTimeMS comment {"comment":"c","maxTimeMS":6}
record index list~maxTimeMS comment {"comment":"c","maxTimeMS":6}
record list collections~filter cursor comment {"comment":"c","cursor":{"batchSize":5},"filter":{"x":1}}
record list estimate~maxTimeMS comment {"comment":"c","maxTimeMS":6}
record list distinct~maxTimeMS collation comment hint {"collation":{"locale":"en"},"comment":"c","hint":{"x":1},"maxTimeMS":6}
record concerns nothing~{}
record concerns secondary~readConcern writeConcern $readPreference {"$readPreference":{"mode":"secondaryPreferred"},"readConcern":{"level":"majority"},"writeConcern":{"j":true,"w":"majority","wtimeout":7}}
record concerns primary~readConcern writeConcern {"readConcern":{"level":"own"},"writeConcern":{"j":true,"w":"dc1","wtimeout":7}}"#;

/// The names of a document, in order, and what it prints as.
pub(super) fn body_text(rt: &impl Abort, alloc: Global, body: Document) -> String {
    let mut text = String::new(alloc);
    for (name, _) in &body {
        write!(text, "{name} ").expect(rt, "memory");
    }
    let json = document_text(alloc, &body).expect(rt, "memory");
    text.push_str(json.as_str()).expect(rt, "memory");
    text
}

/// The same of a body that was made, or the error in its place.
pub(super) fn body_or_error(
    rt: &impl Abort,
    alloc: Global,
    body: Result<Document, Error>,
) -> String {
    match body {
        Ok(body) => body_text(rt, alloc, body),
        Err(error) => failed(rt, alloc, error),
    }
}

/// How texts are compared, an index, variables, and an order.
pub(super) fn common(rt: &impl Abort, alloc: Global) -> (Collation, Hint, Document, Document) {
    (
        english(rt, alloc),
        Hint::Keys(keys(rt, alloc, 1)),
        keys(rt, alloc, 2),
        keys(rt, alloc, 3),
    )
}

/// How English texts are compared.
pub(super) fn english(rt: &impl Abort, alloc: Global) -> Collation {
    Collation::builder(owned(rt, alloc, "en"))
}

// A collation of which everything is given.
fn collation(rt: &impl Abort, alloc: Global) -> Collation {
    Collation::builder(String::new(alloc))
        .locale(owned(rt, alloc, "en"))
        .strength(CollationStrength::Secondary)
        .case_level(true)
        .case_first(CollationCaseFirst::Off)
        .numeric_ordering(false)
        .alternate(CollationAlternate::NonIgnorable)
        .max_variable(CollationMaxVariable::Space)
        .normalization(true)
        .backwards(false)
        .build()
}

fn find(rt: &impl Abort, alloc: Global) -> FindOptions {
    FindOptions::builder()
        .allow_disk_use(true)
        .allow_partial_results(false)
        .batch_size(5)
        .comment(text(rt, alloc, "c"))
        .hint(Hint::Name(owned(rt, alloc, "h")))
        .limit(-7)
        .max(keys(rt, alloc, 1))
        .min(keys(rt, alloc, 2))
        .max_scan(8)
        .max_time(2_147_483_647)
        .no_cursor_timeout(true)
        .projection(keys(rt, alloc, 3))
        .return_key(false)
        .show_record_id(true)
        .skip(9)
        .sort(keys(rt, alloc, 4))
        .collation(english(rt, alloc))
        .let_vars(keys(rt, alloc, 5))
        .build()
}

// A find of one document, of which everything is given.
fn find_one(rt: &impl Abort, alloc: Global) -> FindOneOptions {
    let (rules, hint, let_vars, sort) = common(rt, alloc);
    FindOneOptions::builder()
        .allow_partial_results(true)
        .collation(rules)
        .comment(Bson::Int32(6))
        .hint(hint)
        .max(keys(rt, alloc, 4))
        .max_scan(8)
        .max_time(7)
        .min(keys(rt, alloc, 5))
        .projection(keys(rt, alloc, 6))
        .read_concern(local())
        .return_key(true)
        .selection_criteria(nearest())
        .show_record_id(false)
        .skip(9)
        .sort(sort)
        .let_vars(let_vars)
        .build()
}

// Options of finds of files.
fn find_files(rt: &impl Abort, alloc: Global, way: &str) -> FindOptions {
    if way == "file" {
        let options = GridFsFindOneOptions::builder()
            .max_time(6)
            .skip(2)
            .sort(Document::new(alloc))
            .build();
        return FindOptions::from(FindOneOptions::from(copied(rt, options)));
    }
    let options = GridFsFindOptions::builder()
        .allow_disk_use(true)
        .batch_size(5)
        .limit(3)
        .max_time(6)
        .skip(2)
        .sort(Document::new(alloc))
        .build();
    FindOptions::from(copied(rt, options))
}

fn finds(rt: &impl Abort, alloc: Global, way: &str) -> FindOptions {
    match way {
        "all" => find(rt, alloc),
        "one" => FindOptions::from(copied(rt, find_one(rt, alloc))),
        "file" | "files" => find_files(rt, alloc, way),
        "least" => FindOptions::builder().limit(i64::MIN),
        "long" => FindOptions::builder().max_time(2_147_483_648),
        "longest" => FindOptions::builder().max_time(u64::MAX),
        _ => FindOptions::builder().batch_size(2_147_483_648),
    }
}

/// Options of an aggregate of which everything is given.
pub(super) fn aggregate(rt: &impl Abort, alloc: Global) -> AggregateOptions {
    AggregateOptions::builder()
        .allow_disk_use(true)
        .batch_size(5)
        .bypass_document_validation(false)
        .collation(english(rt, alloc))
        .comment(text(rt, alloc, "c"))
        .hint(Hint::Keys(keys(rt, alloc, 1)))
        .max_time(6)
        .let_vars(keys(rt, alloc, 2))
        .max_await_time(9)
        .read_concern(local())
        .selection_criteria(nearest())
        .write_concern(journaled())
        .build()
}

/// Options of an insert of which everything is given, from those of an insert of one document.
pub(super) fn insert(rt: &impl Abort, alloc: Global) -> InsertManyOptions {
    let one = InsertOneOptions::builder()
        .bypass_document_validation(true)
        .write_concern(journaled())
        .comment(text(rt, alloc, "c"))
        .build();
    InsertManyOptions::from_insert_one_options(copied(rt, one)).ordered(false)
}

/// Options of a delete of which everything is given.
pub(super) fn delete(rt: &impl Abort, alloc: Global) -> DeleteOptions {
    DeleteOptions::builder()
        .collation(collation(rt, alloc))
        .hint(Hint::Keys(keys(rt, alloc, 1)))
        .let_vars(keys(rt, alloc, 2))
        .comment(Bson::Int32(3))
        .write_concern(journaled())
        .build()
}

fn writes(rt: &impl Abort, alloc: Global, way: &str, body: &mut Document) -> Result<(), Error> {
    match way {
        "aggregate" => copied(rt, aggregate(rt, alloc)).append_fields(alloc, body),
        "insert" => copied(rt, insert(rt, alloc)).append_fields(alloc, body),
        "delete" => copied(rt, delete(rt, alloc)).append_fields(alloc, body),
        _ => copied(rt, collation(rt, alloc)).append_fields(alloc, body),
    }
}

/// Options of a list of indexes of which everything is given.
pub(super) fn list_indexes(rt: &impl Abort, alloc: Global) -> ListIndexesOptions {
    ListIndexesOptions::builder()
        .max_time(6)
        .comment(text(rt, alloc, "c"))
        .batch_size(5)
}

fn create_index(rt: &impl Abort, alloc: Global, quorum: CommitQuorum) -> CreateIndexOptions {
    CreateIndexOptions::builder()
        .commit_quorum(quorum)
        .max_time(6)
        .comment(text(rt, alloc, "c"))
}

fn indexes(rt: &impl Abort, alloc: Global, way: &str, body: &mut Document) -> Result<(), Error> {
    let quorum = match way {
        "nodes" => CommitQuorum::Nodes(3),
        "word" => CommitQuorum::VotingMembers,
        "many" => CommitQuorum::Nodes(2_147_483_648),
        "drop" => {
            let options = DropIndexOptions::builder()
                .max_time(6)
                .comment(text(rt, alloc, "c"))
                .write_concern(journaled())
                .build();
            return copied(rt, options).append_fields(alloc, body);
        }
        _ => return copied(rt, list_indexes(rt, alloc)).append_fields(alloc, body),
    };
    copied(rt, create_index(rt, alloc, quorum)).append_fields(alloc, body)
}

/// Options of a list of the collections that a filter of this name selects.
pub(super) fn list_collections(
    rt: &impl Abort,
    alloc: Global,
    name: &str,
) -> ListCollectionsOptions {
    ListCollectionsOptions::builder()
        .filter(one_field(rt, alloc, name, Bson::Int32(1)))
        .batch_size(5)
        .comment(text(rt, alloc, "c"))
}

fn lists(rt: &impl Abort, alloc: Global, way: &str, body: &mut Document) -> Result<(), Error> {
    match way {
        "collections" => copied(rt, list_collections(rt, alloc, "x")).append_fields(alloc, body),
        "estimate" => {
            let options = EstimatedDocumentCountOptions::builder()
                .max_time(6)
                .comment(text(rt, alloc, "c"))
                .selection_criteria(nearest())
                .read_concern(local())
                .build();
            copied(rt, options).append_fields(alloc, body)
        }
        _ => {
            let options = DistinctOptions::builder()
                .max_time(6)
                .collation(english(rt, alloc))
                .comment(text(rt, alloc, "c"))
                .hint(Hint::Keys(keys(rt, alloc, 1)))
                .selection_criteria(nearest())
                .read_concern(local())
                .build();
            copied(rt, options).append_fields(alloc, body)
        }
    }
}

// The concerns of a command, by their words.
fn concerns(
    rt: &impl Abort,
    alloc: Global,
    word: &str,
    w: &str,
    mode: ReadPreference,
    body: &mut Document,
) -> Result<(), Error> {
    let reads = Some(ReadConcern::from_word(alloc, word).expect(rt, "memory"));
    let writes = Some(WriteConcern {
        w: Some(Acknowledgment::from_word(alloc, w).expect(rt, "memory")),
        w_timeout: Some(7),
        journal: Some(true),
    });
    let asks = Some(SelectionCriteria::ReadPreference(mode));
    append_concerns(alloc, body, &reads, &writes, asks)
}

fn all_concerns(
    rt: &impl Abort,
    alloc: Global,
    way: &str,
    body: &mut Document,
) -> Result<(), Error> {
    match way {
        "nothing" => {
            append_concerns(alloc, body, &None, &None, None)?;
            FindOptions::builder().append_fields(alloc, body)?;
            AggregateOptions::builder().append_fields(alloc, body)
        }
        "secondary" => {
            let mode = ReadPreference::SecondaryPreferred;
            concerns(rt, alloc, "majority", "majority", mode, body)
        }
        _ => concerns(rt, alloc, "own", "dc1", ReadPreference::Primary, body),
    }
}

/// What a record of options puts into a body.
pub(super) fn record(rt: &impl Abort, alloc: Global, given: &str) -> String {
    let (record, way) = parted(given);
    let mut body = Document::new(alloc);
    let put = match record {
        "find" => copied(rt, finds(rt, alloc, way)).append_fields(alloc, &mut body),
        "write" => writes(rt, alloc, way, &mut body),
        "index" => indexes(rt, alloc, way, &mut body),
        "list" => lists(rt, alloc, way, &mut body),
        _ => all_concerns(rt, alloc, way, &mut body),
    };
    match put {
        Ok(()) => body_text(rt, alloc, body),
        Err(error) => failed(rt, alloc, error),
    }
}
