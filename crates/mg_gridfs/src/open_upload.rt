//! Uploads that are to be opened.
ghost use Rattle.std.specs.Prelude.{◌≡◌, ◌⊎◌, ◌≤◌, ◌^◌, IfOk, IfErr, OnErr, OnOk, Some, option_map};
ghost use Rattle.mg_bson.specs.Tree.{object_id};
ghost use Rattle.mg_bson.specs.View.{tree};
ghost use Rattle.mg_link.specs.Errors.{plain};
ghost use Rattle.mg_link.specs.declared.error.BadArgument.TheVariants as argument;
ghost use Rattle.mg_link.specs.declared.error.ErrorKind.TheVariants as kinds;
ghost use Rattle.mg_ops.specs.Drawn.{AreLater, one_unless_there};
ghost use Rattle.mg_ops.specs.Failing.{FailsBy};
ghost use Rattle.mg_gridfs.specs.Buckets.{HasNoSize, IsDraft, IsNewOpening, IsSize, bucket_of, destination_of, opening_of};
ghost use Rattle.mg_gridfs.specs.Uploads.{id_by};
ghost use Rattle.mg_gridfs.specs.UploadView.{IsOpened, IsUpload, upload_of};

use crate::aim::Aim;
use crate::bucket::GridFsBucket;
use crate::stream::GridFsUploadStream;
use mg_bson::{Bson, Document};
use mg_link::{BadArgument, Error, ErrorKind, IdSource, plain};
use mg_options::GridFsUploadOptions;
use std::alloc::{AllocError, Global};

/// The greatest size of a chunk: the greatest Int32.
const GREATEST_SIZE: u32 = 2_147_483_647;

// Where an upload goes, and the name of the file.
#[derive(Drop)]
pub(crate) struct Draft {
    pub(crate) bucket: GridFsBucket,
    pub(crate) filename: String,
}

/// An upload that is to be opened. It gets an id of its own where none is given, and chunks of the size of its bucket.
///
///     let upload = bucket.open_upload_stream("notes.txt").chunk_size_bytes(1024).open(&mut ids)?;
pub struct OpenUploadStream {
    alloc: Global,
    // None where memory ran out as it was copied.
    draft: Option<Draft>,
    id: Option<Bson>,
    options: GridFsUploadOptions,
}

// By hand, so that letting one go is one call.
impl Drop for OpenUploadStream {
    fn drop(self) {
        let OpenUploadStream {
            alloc: _,
            draft: _,
            id: _,
            options: _,
        } = self;
    }
}

// Copies of the bucket and the name.
fn drafted(alloc: Global, bucket: &GridFsBucket, filename: &str) -> Result<Draft, AllocError>
    ensures { IfOk result (λ d. IsDraft (bucket_of bucket.now) filename.now (destination_of d)) }
{
    let filename = String::from_str(alloc, filename)?;
    let bucket = bucket.clone()?;
    Ok(Draft { bucket, filename })
}

// The size of the chunks, where a record can name it.
fn checked_size(size: u32) -> Result<u32, Error>
    ensures ok { IfOk result (λ n. (n ≡ size) × IsSize n) }
    ensures err { IfErr result (λ e. ((size ≡ 0) ⊎ (2 ^ 31 ≤ size)) × (e ≡ plain (kinds.InvalidArgument argument.ChunkSize))) }
{
    if size == 0 {
        return Err(plain(ErrorKind::InvalidArgument(BadArgument::ChunkSize)));
    }
    if size > GREATEST_SIZE {
        return Err(plain(ErrorKind::InvalidArgument(BadArgument::ChunkSize)));
    }
    Ok(size)
}

// The id that is given, or else the next of the source.
fn id_of<I: IdSource>(ids: &mut I, id: Option<Bson>) -> Bson
    ensures given { tree result ≡ id_by (option_map tree id) (object_id (I.ids ids.old 0)) }
    ensures drawn { AreLater (I.ids ids.old) (one_unless_there (option_map tree id)) (I.ids ids.new) }
{
    match id {
        Some(id) => id,
        None => Bson::ObjectId(ids.next_id()),
    }
}

impl OpenUploadStream {
    pub(crate) fn new(alloc: Global, bucket: &GridFsBucket, filename: &str) -> OpenUploadStream
        ensures { IsNewOpening (bucket_of bucket.now) filename.now (opening_of result) }
    {
        OpenUploadStream {
            alloc,
            draft: drafted(alloc, bucket, filename).ok(),
            id: None,
            options: GridFsUploadOptions::builder(),
        }
    }

    /// Gives the id of the file.
    pub fn id(mut self, value: Bson) -> OpenUploadStream
        ensures { opening_of result ≡ record (opening_of self) { id = Some (tree value) } }
    {
        self.id = Some(value);
        self
    }

    /// Gives `chunk_size_bytes`.
    pub fn chunk_size_bytes(mut self, value: u32) -> OpenUploadStream
        ensures { opening_of result ≡ record (opening_of self) { size = Some value } }
    {
        self.options.chunk_size_bytes = Some(value);
        self
    }

    /// Gives `metadata`.
    pub fn metadata(mut self, value: Document) -> OpenUploadStream
        ensures { opening_of result ≡ record (opening_of self) { metadata = Some value } }
    {
        self.options.metadata = Some(value);
        self
    }

    /// Gives all options in place of those that were given.
    pub fn with_options(mut self, value: GridFsUploadOptions) -> OpenUploadStream
        ensures { opening_of result ≡ record (opening_of self) { size = value.chunk_size_bytes; metadata = value.metadata } }
    {
        self.options = value;
        self
    }

    /// Opens the upload, which sends nothing. It fails where the size of the chunks is 0 or past 2,147,483,647, or where memory ran
    /// out as the bucket was copied; then no id is drawn.
    pub fn open<I: IdSource>(self, ids: &mut I) -> Result<GridFsUploadStream, Error>
        ensures ok { IfOk result (λ s. IsOpened (opening_of self) (I.ids ids.old) (upload_of s)) }
        ensures sound { IfOk result (λ s. IsUpload s) }
        ensures drawn { OnOk result (AreLater (I.ids ids.old) (one_unless_there (opening_of self).id) (I.ids ids.new)) }
        ensures err { IfErr result (λ e. FailsBy (HasNoSize (opening_of self)) e) }
        ensures undrawn { OnErr result (ids.new ≡ ids.old) }
    {
        let OpenUploadStream {
            alloc,
            draft,
            id,
            mut options,
        } = self;
        let Some(draft) = draft else {
            return Err(plain(ErrorKind::OutOfMemory));
        };
        let Draft { bucket, filename } = draft;
        let size = checked_size(options.chunk_size_bytes.unwrap_or(bucket.chunk_size_bytes))?;
        let id = id_of(ids, id);
        let metadata = options.metadata.take();
        Ok(GridFsUploadStream::new(Aim {
            alloc,
            bucket,
            id,
            size,
            filename,
            metadata,
        }))
    }
}
