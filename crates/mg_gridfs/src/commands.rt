//! The commands of uploads and downloads, ready to be sent.
ghost use Rattle.std.specs.Prelude.{◌≡◌, ◌⊎◌, IfOk, IfErr, [], ◌∷◌, None, false, true};
ghost use Rattle.mg_bson.specs.View.{tree};
ghost use Rattle.mg_link.specs.Errors.{plain};
ghost use Rattle.mg_exec.specs.ExecView.{reads};
ghost use Rattle.mg_link.specs.Namespace.{space};
ghost use Rattle.mg_link.specs.declared.error.ErrorKind.TheVariants as kinds;
ghost use Rattle.mg_ops.specs.Bodies.{find_body};
ghost use Rattle.mg_ops.specs.Failing.{CannotBeSent, FailsBy};
ghost use Rattle.mg_gridfs.specs.Buckets.{bucket_of};
ghost use Rattle.mg_chunks.specs.Filters.{of_file};
ghost use Rattle.mg_gridfs.specs.Commands.{CannotSend, CannotStore, IsEncoded, IsNewRequest, SameReading, any_lines, by_id, chunks_lines, creation_lines, deletion_lines, found_lines, in_order, index_lines, insertion, listed_lines, listing_lines, reading_options, record_lines};

use crate::bucket::GridFsBucket;
use crate::indexes::Place;
use mg_bson::{Bson, Document};
use mg_chunks::of_file;
use mg_exec::{Exec, Retry};
use mg_link::{Error, Namespace};
use mg_ops::{Create, CreateIndexes, Delete, Find, Insert, ListIndexes, Operation, encode};
use mg_options::{
    CreateIndexOptions, DeleteOptions, FindOptions, InsertManyOptions, ListIndexesOptions,
    copy_given,
};
use std::alloc::{AllocError, Global};

// The command of an operation without a session.
fn request<O: Operation>(bucket: &GridFsBucket, operation: &O, wire: i32) -> Result<Exec, Error>
    ensures ok { IfOk result (λ s. IsEncoded (O.command operation.now wire None) (reads (O.retried operation.now None)) s) }
    ensures err { IfErr result (λ e. FailsBy (λ e. O.unfit operation.now e ⊎ CannotBeSent (O.command operation.now wire None) e) e) }
{
    let command = encode(bucket.allocator(), operation, wire, None)?;
    Ok(Exec::start(command, operation.retry(None)))
}

// Asks whether the bucket holds a file: for one record with its id alone, from the primary.
pub(crate) fn find_any(bucket: &GridFsBucket, wire: i32) -> Result<Exec, Error>
    ensures ok { IfOk result (λ s. IsNewRequest true (any_lines (bucket_of bucket.now)) s) }
    ensures err { IfErr result (λ e. FailsBy (CannotSend (any_lines (bucket_of bucket.now))) e) }
{
    let mut id = Document::new(bucket.allocator());
    id.append("_id", Bson::Int32(1))?;
    let mut options = FindOptions::builder().limit(-1).projection(id);
    copy_given(&bucket.read_concern, &mut options.read_concern)?;
    let find = Find {
        ns: bucket.files().clone()?,
        filter: Document::new(bucket.allocator()),
        options,
    };
    request(bucket, &find, wire)
}

// Creates a collection.
pub(crate) fn create(bucket: &GridFsBucket, place: Place, wire: i32) -> Result<Exec, Error>
    ensures ok { IfOk result (λ s. IsNewRequest false (creation_lines (bucket_of bucket.now) place) s) }
    ensures err { IfErr result (λ e. FailsBy (CannotSend (creation_lines (bucket_of bucket.now) place)) e) }
{
    let mut create = Create {
        ns: place.collection(bucket).clone()?,
        write_concern: None,
    };
    copy_given(&bucket.write_concern, &mut create.write_concern)?;
    request(bucket, &create, wire)
}

// Lists the indexes of a collection.
pub(crate) fn list_indexes(bucket: &GridFsBucket, place: Place, wire: i32) -> Result<Exec, Error>
    ensures ok { IfOk result (λ s. IsNewRequest true (listing_lines (bucket_of bucket.now) place) s) }
    ensures err { IfErr result (λ e. FailsBy (CannotSend (listing_lines (bucket_of bucket.now) place)) e) }
{
    let list = ListIndexes {
        ns: place.collection(bucket).clone()?,
        options: ListIndexesOptions::builder(),
    };
    request(bucket, &list, wire)
}

// Creates the index of a collection.
pub(crate) fn create_index(bucket: &GridFsBucket, place: Place, wire: i32) -> Result<Exec, Error>
    ensures ok { IfOk result (λ s. IsNewRequest false (index_lines (bucket_of bucket.now) place) s) }
    ensures err { IfErr result (λ e. FailsBy (CannotSend (index_lines (bucket_of bucket.now) place)) e) }
{
    let mut create = CreateIndexes {
        ns: place.collection(bucket).clone()?,
        keys: place.keys(bucket.allocator())?,
        options: CreateIndexOptions::builder(),
    };
    copy_given(&bucket.write_concern, &mut create.options.write_concern)?;
    request(bucket, &create, wire)
}

// Inserts documents into a collection of the bucket.
fn insert(
    bucket: &GridFsBucket,
    collection: &Namespace,
    documents: Vec<Document>,
) -> Result<Exec, Error>
    ensures ok { IfOk result (λ s. IsNewRequest false (insertion (bucket_of bucket.now) (space collection.now) documents.items) s) }
    ensures err { IfErr result (λ e. FailsBy (CannotStore (insertion (bucket_of bucket.now) (space collection.now) documents.items) documents.items) e) }
{
    let mut options = InsertManyOptions::builder();
    copy_given(&bucket.write_concern, &mut options.write_concern)?;
    let insert = Insert {
        ns: collection.clone()?,
        documents,
        options,
    };
    let command = insert.into_bytes(bucket.allocator())?;
    Ok(Exec::start(command, Retry::None))
}

// Inserts chunks.
pub(crate) fn insert_chunks(bucket: &GridFsBucket, documents: Vec<Document>) -> Result<Exec, Error>
    ensures ok { IfOk result (λ s. IsNewRequest false (chunks_lines (bucket_of bucket.now) documents.items) s) }
    ensures err { IfErr result (λ e. FailsBy (CannotStore (chunks_lines (bucket_of bucket.now) documents.items) documents.items) e) }
{
    insert(bucket, bucket.chunks(), documents)
}

// A document alone.
pub(crate) fn one(alloc: Global, document: Document) -> Result<Vec<Document>, Error>
    ensures ok { IfOk result (λ v. v.items ≡ document ∷ []) }
    ensures err { IfErr result (λ e. e ≡ plain kinds.OutOfMemory) }
{
    let mut documents = Vec::new(alloc);
    documents.push(document)?;
    Ok(documents)
}

// Inserts the record of a file.
pub(crate) fn insert_record(bucket: &GridFsBucket, document: Document) -> Result<Exec, Error>
    ensures ok { IfOk result (λ s. IsNewRequest false (record_lines (bucket_of bucket.now) document) s) }
    ensures err { IfErr result (λ e. FailsBy (CannotStore (record_lines (bucket_of bucket.now) document) (document ∷ [])) e) }
{
    let documents = one(bucket.allocator(), document)?;
    insert(bucket, bucket.files(), documents)
}

// Removes all chunks of a file.
pub(crate) fn delete_chunks(bucket: &GridFsBucket, id: &Bson, wire: i32) -> Result<Exec, Error>
    ensures ok { IfOk result (λ s. IsNewRequest false (deletion_lines (bucket_of bucket.now) (tree id.now)) s) }
    ensures err { IfErr result (λ e. FailsBy (CannotSend (deletion_lines (bucket_of bucket.now) (tree id.now))) e) }
{
    let mut options = DeleteOptions::builder();
    copy_given(&bucket.write_concern, &mut options.write_concern)?;
    let delete = Delete {
        ns: bucket.chunks().clone()?,
        filter: of_file(bucket.allocator(), id)?,
        many: true,
        options,
    };
    request(bucket, &delete, wire)
}

// ---- downloads

// The options of a read: what is read, and who may be asked.
fn reading_options(bucket: &GridFsBucket) -> Result<FindOptions, AllocError>
    ensures { IfOk result (λ o. SameReading (reading_options (bucket_of bucket.now)) o) }
{
    let mut options = FindOptions::builder();
    copy_given(&bucket.read_concern, &mut options.read_concern)?;
    options.selection_criteria = bucket.selection_criteria;
    Ok(options)
}

// The filter of the record of a file.
fn by_id(bucket: &GridFsBucket, id: &Bson) -> Result<Document, Error>
    ensures ok { IfOk result (λ d. d ≡ by_id (tree id.now)) }
    ensures err { IfErr result (λ e. e ≡ plain kinds.OutOfMemory) }
{
    let mut equal = Document::new(bucket.allocator());
    equal.append("$eq", id.clone()?)?;
    let mut filter = Document::new(bucket.allocator());
    filter.append("_id", Bson::Document(equal))?;
    Ok(filter)
}

// The order of chunks by their numbers.
fn in_order(bucket: &GridFsBucket) -> Result<Document, Error>
    ensures ok { IfOk result (λ d. d ≡ in_order) }
    ensures err { IfErr result (λ e. e ≡ plain kinds.OutOfMemory) }
{
    let mut order = Document::new(bucket.allocator());
    order.append("n", Bson::Int32(1))?;
    Ok(order)
}

// Asks for documents of a collection.
fn find(
    bucket: &GridFsBucket,
    collection: &Namespace,
    filter: Document,
    options: FindOptions,
    wire: i32,
) -> Result<Exec, Error>
    ensures ok { IfOk result (λ s. IsNewRequest true (find_body (space collection.now) filter options None) s) }
    ensures err { IfErr result (λ e. FailsBy (CannotSend (find_body (space collection.now) filter options None)) e) }
{
    let find = Find {
        ns: collection.clone()?,
        filter,
        options,
    };
    let command = encode(bucket.allocator(), &find, wire, None)?;
    Ok(Exec::start(command, find.retry(None)))
}

// Asks for the record of a file.
pub(crate) fn find_record(bucket: &GridFsBucket, id: &Bson, wire: i32) -> Result<Exec, Error>
    ensures ok { IfOk result (λ s. IsNewRequest true (found_lines (bucket_of bucket.now) (tree id.now)) s) }
    ensures err { IfErr result (λ e. FailsBy (CannotSend (found_lines (bucket_of bucket.now) (tree id.now))) e) }
{
    let filter = by_id(bucket, id)?;
    let plain = reading_options(bucket)?;
    let options = plain.limit(-1);
    find(bucket, bucket.files(), filter, options, wire)
}

// Asks for the chunks of a file, in the order of their numbers.
pub(crate) fn find_chunks(bucket: &GridFsBucket, id: &Bson, wire: i32) -> Result<Exec, Error>
    ensures ok { IfOk result (λ s. IsNewRequest true (listed_lines (bucket_of bucket.now) (tree id.now)) s) }
    ensures err { IfErr result (λ e. FailsBy (CannotSend (listed_lines (bucket_of bucket.now) (tree id.now))) e) }
{
    let filter = of_file(bucket.allocator(), id)?;
    let order = in_order(bucket)?;
    let plain = reading_options(bucket)?;
    let options = plain.sort(order);
    find(bucket, bucket.chunks(), filter, options, wire)
}
