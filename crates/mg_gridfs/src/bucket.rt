//! Buckets.
ghost use Rattle.std.specs.Prelude.{◌≡◌, ◌++◌, IfOk, IfErr, option_copied, option_map, string_bytes, unwrap_or};
ghost use Rattle.mg_bson.specs.View.{tree};
ghost use Rattle.mg_link.specs.Errors.{plain};
ghost use Rattle.mg_link.specs.Namespace.{space};
ghost use Rattle.mg_link.specs.declared.error.ErrorKind.TheVariants as kinds;
ghost use Rattle.mg_gridfs.specs.Buckets.{IsNewOpening, bucket_by, bucket_of, default_name, given_or, opening_of};
ghost use Rattle.mg_gridfs.specs.DownloadView.{finding_of};
ghost use Rattle.mg_gridfs.specs.Findings.{IsNewFinding, IsSoundFinding};

use crate::open_download::OpenDownloadStream;
use crate::open_upload::OpenUploadStream;
use mg_bson::Bson;
use mg_link::{Error, Namespace, ReadConcern, SelectionCriteria, WriteConcern};
use mg_options::{GridFsBucketOptions, copy_given};
use std::alloc::{AllocError, Global};

/// The name of a bucket that has none.
const DEFAULT_NAME: &str = "fs";

/// How many bytes a chunk has where no other number is given: 255 KiB.
const DEFAULT_CHUNK_SIZE: u32 = 261_120;

/// A database, and what its buckets take from it.
pub struct DatabaseDefaults {
    /// The name of the database.
    pub name: String,
    /// What data is read.
    pub read_concern: Option<ReadConcern>,
    /// How far writes are to have come.
    pub write_concern: Option<WriteConcern>,
    /// Which servers may be asked.
    pub selection_criteria: Option<SelectionCriteria>,
}

// By hand, so that letting one go is one call.
impl Drop for DatabaseDefaults {
    fn drop(self) {
        let DatabaseDefaults {
            name: _,
            read_concern: _,
            write_concern: _,
            selection_criteria: _,
        } = self;
    }
}

/// A bucket of files: a collection of records, one for each file, and a collection of their chunks (GridFS specification).
///
///     let bucket = GridFsBucket::new(alloc, database, GridFsBucketOptions::builder().build())?;
///     let mut upload = bucket.open_upload_stream("notes.txt").open(&mut ids)?;
pub struct GridFsBucket {
    alloc: Global,
    files: Namespace,
    chunks: Namespace,
    pub(crate) chunk_size_bytes: u32,
    pub(crate) write_concern: Option<WriteConcern>,
    pub(crate) read_concern: Option<ReadConcern>,
    pub(crate) selection_criteria: Option<SelectionCriteria>,
}

// By hand, so that letting one go is one call.
impl Drop for GridFsBucket {
    fn drop(self) {
        let GridFsBucket {
            alloc: _,
            files: _,
            chunks: _,
            chunk_size_bytes: _,
            write_concern: _,
            read_concern: _,
            selection_criteria: _,
        } = self;
    }
}

// The collection of this bucket whose name ends so.
fn collection(alloc: Global, db: &str, bucket: &str, end: &str) -> Result<Namespace, AllocError>
    ensures { IfOk result (λ n. space n ≡ record { db = db.now; coll = bucket.now ++ end.now }) }
{
    let db = String::from_str(alloc, db)?;
    let mut coll = String::from_str(alloc, bucket)?;
    coll.push_str(end)?;
    Ok(Namespace { db, coll })
}

// What the bucket is called.
fn name_in(options: &GridFsBucketOptions) -> &str
    ensures { result.now ≡ unwrap_or (option_map string_bytes options.now.bucket_name) default_name }
{
    match &options.bucket_name {
        Some(name) => name.as_str(),
        None => DEFAULT_NAME,
    }
}

// What is given, or else what is given otherwise.
fn given_or<T: Drop>(given: Option<T>, other: Option<T>) -> Option<T>
    ensures { result ≡ given_or given other }
{
    match given {
        Some(value) => Some(value),
        None => other,
    }
}

impl GridFsBucket {
    /// A bucket of the database. Its name, the size of its chunks, its concerns and its criteria are those of the options; what
    /// these do not give is `fs`, 261,120, and what the database has. Only memory can fail.
    pub fn new(
        alloc: Global,
        db: DatabaseDefaults,
        options: GridFsBucketOptions,
    ) -> Result<GridFsBucket, Error>
        ensures ok { IfOk result (λ b. bucket_of b ≡ bucket_by db options) }
        ensures err { IfErr result (λ e. e ≡ plain kinds.OutOfMemory) }
    {
        let mut db = db;
        let mut options = options;
        let name = name_in(&options);
        let files = collection(alloc, db.name.as_str(), name, ".files")?;
        let chunks = collection(alloc, db.name.as_str(), name, ".chunks")?;
        Ok(GridFsBucket {
            alloc,
            files,
            chunks,
            chunk_size_bytes: options.chunk_size_bytes.unwrap_or(DEFAULT_CHUNK_SIZE),
            write_concern: given_or(options.write_concern.take(), db.write_concern.take()),
            read_concern: given_or(options.read_concern.take(), db.read_concern.take()),
            selection_criteria: given_or(options.selection_criteria, db.selection_criteria),
        })
    }

    /// What data its reads ask for.
    pub fn read_concern(&self) -> Option<&ReadConcern>
        ensures { option_copied result ≡ (bucket_of self.now).reads }
    {
        self.read_concern.as_ref()
    }

    /// How far its writes are to have come.
    pub fn write_concern(&self) -> Option<&WriteConcern>
        ensures { option_copied result ≡ (bucket_of self.now).writes }
    {
        self.write_concern.as_ref()
    }

    /// Which servers its reads may ask.
    pub fn selection_criteria(&self) -> Option<&SelectionCriteria>
        ensures { option_copied result ≡ (bucket_of self.now).asks }
    {
        self.selection_criteria.as_ref()
    }

    /// The collection of the records of its files.
    pub fn files(&self) -> &Namespace
        ensures { space result.now ≡ (bucket_of self.now).files }
    {
        &self.files
    }

    /// The collection of the chunks of its files.
    pub fn chunks(&self) -> &Namespace
        ensures { space result.now ≡ (bucket_of self.now).chunks }
    {
        &self.chunks
    }

    /// An upload of a file of this name, which is to be opened. It sends nothing, and copies the bucket; where that finds no memory,
    /// the opening fails.
    pub fn open_upload_stream(&self, filename: &str) -> OpenUploadStream
        ensures { IsNewOpening (bucket_of self.now) filename.now (opening_of result) }
    {
        OpenUploadStream::new(self.alloc, self, filename)
    }

    /// A download of the file of this id, which is to be opened. It sends nothing until it is polled, and copies the bucket; where that
    /// finds no memory, the opening fails.
    pub fn open_download_stream(&self, id: Bson) -> OpenDownloadStream
        ensures new { IsNewFinding (bucket_of self.now) (tree id) (finding_of result) }
        ensures sound { IsSoundFinding (finding_of result) }
    {
        OpenDownloadStream::new(self.alloc, self, id)
    }

    // Where its memory comes from.
    pub(crate) fn allocator(&self) -> Global {
        self.alloc
    }
}

impl Clone for GridFsBucket {
    ghost use Rattle.mg_gridfs.specs.Buckets.{SameBucket, bucket_of};

    ghost is_clone = { λ a b. SameBucket (bucket_of a) (bucket_of b) };

    fn clone(&self) -> Result<GridFsBucket, AllocError> {
        let mut copy = GridFsBucket {
            alloc: self.alloc,
            files: self.files.clone()?,
            chunks: self.chunks.clone()?,
            chunk_size_bytes: self.chunk_size_bytes,
            write_concern: None,
            read_concern: None,
            selection_criteria: self.selection_criteria,
        };
        copy_given(&self.write_concern, &mut copy.write_concern)?;
        copy_given(&self.read_concern, &mut copy.read_concern)?;
        Ok(copy)
    }
}
