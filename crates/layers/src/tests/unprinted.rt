use super::commands::{journaled, local, nearest};
use super::records::{common, english};
use super::{copied, keys, owned, shown, written};
use mg_bson::{Bson, Document};
use mg_options::{
    CollectionOptions, GridFsBucketOptions, GridFsDownloadByNameOptions, GridFsUploadOptions, Hint,
    ReturnDocument,
};
use mg_records::{
    CountOptions, FindOneAndDeleteOptions, FindOneAndReplaceOptions, FindOneAndUpdateOptions,
    ReplaceOptions, UpdateOptions,
};
use std::alloc::Global;
use std::fmt::Debug;
use std::process::Abort;

// Each row is a record that puts nothing into a body, and some of what a copy of it holds. That each call and the copy keep
// each field is proved; that memory for a copy of all that a record owns is found is not, so what it owns is given.
pub(super) const ROWS: &str = r#"copy collection~Some(ReadPreference(Nearest)) true
copy update~Some([Document { fields: [Field { name: "x", value: Int32(4) }] }]) Some(Int32(5))
copy replace~Some(true) Some(Int32(6))
copy find_and_delete~Some(Document { fields: [Field { name: "x", value: Int32(4) }] }) Some(Int32(5))
copy find_and_replace~Some(Document { fields: [Field { name: "x", value: Int32(4) }] }) Some(Int32(5))
copy find_and_update~Some([Document { fields: [Field { name: "x", value: Int32(4) }] }]) Some(Int32(5))
copy count~Some(8) Some(Int32(5))
copy bucket~Some("b") Some(4)
copy upload~Some(4) Some(Document { fields: [Field { name: "x", value: Int32(1) }] })
copy by_name~Some(-2)"#;

// Two fields, as they print.
fn fields<A: Debug, B: Debug>(rt: &impl Abort, alloc: Global, one: &A, other: &B) -> String {
    written(rt, format!(in alloc; "{one:?} {other:?}"))
}

// The filters of an array's items.
fn filters(rt: &impl Abort, alloc: Global) -> Vec<Document> {
    vec![in alloc; keys(rt, alloc, 4)].expect(rt, "memory")
}

fn update(rt: &impl Abort, alloc: Global) -> String {
    let (rules, hint, let_vars, sort) = common(rt, alloc);
    let options = UpdateOptions::builder()
        .array_filters(filters(rt, alloc))
        .collation(rules)
        .hint(hint)
        .let_vars(let_vars)
        .comment(Bson::Int32(5))
        .sort(sort);
    let copy = copied(rt, options);
    fields(rt, alloc, &copy.array_filters, &copy.comment)
}

// A replacement, as the options of an update.
fn replace(rt: &impl Abort, alloc: Global) -> String {
    let (rules, hint, let_vars, sort) = common(rt, alloc);
    let options = ReplaceOptions::builder()
        .upsert(true)
        .collation(rules)
        .hint(hint)
        .let_vars(let_vars)
        .comment(Bson::Int32(6))
        .sort(sort);
    let copy = UpdateOptions::from_replace_options(copied(rt, options));
    fields(rt, alloc, &copy.upsert, &copy.comment)
}

fn find_and_delete(rt: &impl Abort, alloc: Global) -> String {
    let (rules, hint, let_vars, sort) = common(rt, alloc);
    let options = FindOneAndDeleteOptions::builder()
        .projection(keys(rt, alloc, 4))
        .sort(sort)
        .collation(rules)
        .hint(hint)
        .let_vars(let_vars)
        .comment(Bson::Int32(5));
    let copy = copied(rt, options);
    fields(rt, alloc, &copy.projection, &copy.comment)
}

fn find_and_replace(rt: &impl Abort, alloc: Global) -> String {
    let (rules, hint, let_vars, sort) = common(rt, alloc);
    let options = FindOneAndReplaceOptions::builder()
        .projection(keys(rt, alloc, 4))
        .return_document(ReturnDocument::After)
        .sort(sort)
        .collation(rules)
        .hint(hint)
        .let_vars(let_vars)
        .comment(Bson::Int32(5));
    let copy = copied(rt, options);
    fields(rt, alloc, &copy.projection, &copy.comment)
}

fn find_and_update(rt: &impl Abort, alloc: Global) -> String {
    let (rules, hint, let_vars, sort) = common(rt, alloc);
    let options = FindOneAndUpdateOptions::builder()
        .array_filters(filters(rt, alloc))
        .projection(keys(rt, alloc, 7))
        .sort(sort)
        .collation(rules)
        .hint(hint)
        .let_vars(let_vars)
        .comment(Bson::Int32(5));
    let copy = copied(rt, options);
    fields(rt, alloc, &copy.array_filters, &copy.comment)
}

// Records of a collection and of a bucket.
fn bucket(rt: &impl Abort, alloc: Global, record: &str) -> String {
    match record {
        "bucket" => {
            let options = GridFsBucketOptions::builder()
                .bucket_name(owned(rt, alloc, "b"))
                .chunk_size_bytes(4)
                .write_concern(journaled())
                .read_concern(local());
            let copy = copied(rt, options);
            fields(rt, alloc, &copy.bucket_name, &copy.chunk_size_bytes)
        }
        "upload" => {
            let options = GridFsUploadOptions::builder()
                .chunk_size_bytes(4)
                .metadata(keys(rt, alloc, 1));
            let copy = copied(rt, options);
            fields(rt, alloc, &copy.chunk_size_bytes, &copy.metadata)
        }
        "by_name" => {
            let options = GridFsDownloadByNameOptions::builder().revision(-2);
            shown(rt, alloc, &copied(rt, options).revision)
        }
        _ => {
            let options = CollectionOptions::builder()
                .selection_criteria(nearest())
                .read_concern(local())
                .write_concern(journaled());
            let copy = copied(rt, options);
            fields(
                rt,
                alloc,
                &copy.selection_criteria,
                &copy.write_concern.is_some(),
            )
        }
    }
}

fn count(rt: &impl Abort, alloc: Global) -> String {
    let options = CountOptions::builder()
        .hint(Hint::Keys(keys(rt, alloc, 1)))
        .skip(8)
        .collation(english(rt, alloc))
        .selection_criteria(nearest())
        .read_concern(local())
        .comment(Bson::Int32(5));
    let copy = copied(rt, options);
    fields(rt, alloc, &copy.skip, &copy.comment)
}

/// Some of what a copy of a record holds.
pub(super) fn copy(rt: &impl Abort, alloc: Global, record: &str) -> String {
    match record {
        "update" => update(rt, alloc),
        "replace" => replace(rt, alloc),
        "find_and_delete" => find_and_delete(rt, alloc),
        "find_and_replace" => find_and_replace(rt, alloc),
        "find_and_update" => find_and_update(rt, alloc),
        "count" => count(rt, alloc),
        _ => bucket(rt, alloc, record),
    }
}
