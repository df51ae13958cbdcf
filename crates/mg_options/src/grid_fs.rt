//! The options of buckets.
ghost use Rattle.std.specs.Prelude.{◌≡◌, Some, None};
ghost use Rattle.mg_options.specs.Conversions.{find_of_files, find_one_of_files};

use crate::copy::copy_given;
use crate::find::{FindOneOptions, FindOptions};
use mg_bson::Document;
use mg_link::{ReadConcern, SelectionCriteria, WriteConcern};
use std::alloc::AllocError;

/// What a bucket is called, and how it is read and written.
#[derive(Default)]
pub struct GridFsBucketOptions {
    /// The name of the bucket; `fs` where none is given.
    pub bucket_name: Option<String>,
    /// How many bytes a chunk has; 261,120 where none are given.
    pub chunk_size_bytes: Option<u32>,
    /// How far writes are to have come.
    pub write_concern: Option<WriteConcern>,
    /// What data is read.
    pub read_concern: Option<ReadConcern>,
    /// Which servers may be asked.
    pub selection_criteria: Option<SelectionCriteria>,
}

// By hand, so that letting one go is one call.
impl Drop for GridFsBucketOptions {
    fn drop(self) {
        let GridFsBucketOptions {
            bucket_name: _,
            chunk_size_bytes: _,
            write_concern: _,
            read_concern: _,
            selection_criteria: _,
        } = self;
    }
}

impl GridFsBucketOptions {
    /// Nothing is given.
    pub fn builder() -> GridFsBucketOptions
        ensures { result ≡ record {
          bucket_name = None;
          chunk_size_bytes = None;
          write_concern = None;
          read_concern = None;
          selection_criteria = None;
        } }
    {
        GridFsBucketOptions::default()
    }

    /// Gives `bucket_name`.
    pub fn bucket_name(mut self, value: String) -> GridFsBucketOptions
        ensures { result ≡ record self { bucket_name = Some value } }
    {
        self.bucket_name = Some(value);
        self
    }

    /// Gives `chunk_size_bytes`.
    pub fn chunk_size_bytes(mut self, value: u32) -> GridFsBucketOptions
        ensures { result ≡ record self { chunk_size_bytes = Some value } }
    {
        self.chunk_size_bytes = Some(value);
        self
    }

    /// Gives `write_concern`.
    pub fn write_concern(mut self, value: WriteConcern) -> GridFsBucketOptions
        ensures { result ≡ record self { write_concern = Some value } }
    {
        self.write_concern = Some(value);
        self
    }

    /// Gives `read_concern`.
    pub fn read_concern(mut self, value: ReadConcern) -> GridFsBucketOptions
        ensures { result ≡ record self { read_concern = Some value } }
    {
        self.read_concern = Some(value);
        self
    }

    /// Gives `selection_criteria`.
    pub fn selection_criteria(mut self, value: SelectionCriteria) -> GridFsBucketOptions
        ensures { result ≡ record self { selection_criteria = Some value } }
    {
        self.selection_criteria = Some(value);
        self
    }

    /// The record as it was given.
    pub fn build(self) -> GridFsBucketOptions
        ensures { result ≡ self }
    {
        self
    }
}

impl Clone for GridFsBucketOptions {
    ghost use Rattle.mg_options.specs.Copies.{SameGridFsBucketOptions};

    ghost is_clone = { SameGridFsBucketOptions };

    fn clone(&self) -> Result<GridFsBucketOptions, AllocError> {
        let mut copy = GridFsBucketOptions {
            bucket_name: None,
            chunk_size_bytes: self.chunk_size_bytes,
            write_concern: None,
            read_concern: None,
            selection_criteria: self.selection_criteria,
        };
        copy_given(&self.bucket_name, &mut copy.bucket_name)?;
        copy_given(&self.write_concern, &mut copy.write_concern)?;
        copy_given(&self.read_concern, &mut copy.read_concern)?;
        Ok(copy)
    }
}

/// How a file is uploaded.
#[derive(Default)]
pub struct GridFsUploadOptions {
    /// How many bytes a chunk has; those of the bucket where none are given.
    pub chunk_size_bytes: Option<u32>,
    /// A document that is kept with the file.
    pub metadata: Option<Document>,
}

// By hand, so that letting one go is one call.
impl Drop for GridFsUploadOptions {
    fn drop(self) {
        let GridFsUploadOptions {
            chunk_size_bytes: _,
            metadata: _,
        } = self;
    }
}

impl GridFsUploadOptions {
    /// Nothing is given.
    pub fn builder() -> GridFsUploadOptions
        ensures { result ≡ record {
          chunk_size_bytes = None;
          metadata = None;
        } }
    {
        GridFsUploadOptions::default()
    }

    /// Gives `chunk_size_bytes`.
    pub fn chunk_size_bytes(mut self, value: u32) -> GridFsUploadOptions
        ensures { result ≡ record self { chunk_size_bytes = Some value } }
    {
        self.chunk_size_bytes = Some(value);
        self
    }

    /// Gives `metadata`.
    pub fn metadata(mut self, value: Document) -> GridFsUploadOptions
        ensures { result ≡ record self { metadata = Some value } }
    {
        self.metadata = Some(value);
        self
    }

    /// The record as it was given.
    pub fn build(self) -> GridFsUploadOptions
        ensures { result ≡ self }
    {
        self
    }
}

impl Clone for GridFsUploadOptions {
    ghost use Rattle.mg_options.specs.Copies.{SameGridFsUploadOptions};

    ghost is_clone = { SameGridFsUploadOptions };

    fn clone(&self) -> Result<GridFsUploadOptions, AllocError> {
        let mut copy = GridFsUploadOptions {
            chunk_size_bytes: self.chunk_size_bytes,
            metadata: None,
        };
        copy_given(&self.metadata, &mut copy.metadata)?;
        Ok(copy)
    }
}

/// Which file of a name is downloaded; the newest where nothing is given.
#[derive(Default)]
pub struct GridFsDownloadByNameOptions {
    /// Which of the files of one name: 0 is the oldest, 1 the next; -1 is the newest, -2 the one before it.
    pub revision: Option<i32>,
}

// By hand, so that letting one go is one call.
impl Drop for GridFsDownloadByNameOptions {
    fn drop(self) {
        let GridFsDownloadByNameOptions { revision: _ } = self;
    }
}

impl GridFsDownloadByNameOptions {
    /// Nothing is given.
    pub fn builder() -> GridFsDownloadByNameOptions
        ensures { result ≡ record {
          revision = None;
        } }
    {
        GridFsDownloadByNameOptions::default()
    }

    /// Gives `revision`.
    pub fn revision(mut self, value: i32) -> GridFsDownloadByNameOptions
        ensures { result ≡ record self { revision = Some value } }
    {
        self.revision = Some(value);
        self
    }

    /// The record as it was given.
    pub fn build(self) -> GridFsDownloadByNameOptions
        ensures { result ≡ self }
    {
        self
    }
}

impl Clone for GridFsDownloadByNameOptions {
    ghost use Rattle.mg_options.specs.Copies.{SameGridFsDownloadByNameOptions};

    ghost is_clone = { SameGridFsDownloadByNameOptions };

    fn clone(&self) -> Result<GridFsDownloadByNameOptions, AllocError> {
        Ok(GridFsDownloadByNameOptions {
            revision: self.revision,
        })
    }
}

/// How files are found.
#[derive(Default)]
pub struct GridFsFindOptions {
    /// Whether the server may write what does not fit its memory to its disk.
    pub allow_disk_use: Option<bool>,
    /// The most files of a batch.
    pub batch_size: Option<u32>,
    /// The most files.
    pub limit: Option<i64>,
    /// The most milliseconds that the server may work on it.
    pub max_time: Option<u64>,
    /// How many files are passed over first.
    pub skip: Option<u64>,
    /// The order of the files.
    pub sort: Option<Document>,
}

// By hand, so that letting one go is one call.
impl Drop for GridFsFindOptions {
    fn drop(self) {
        let GridFsFindOptions {
            allow_disk_use: _,
            batch_size: _,
            limit: _,
            max_time: _,
            skip: _,
            sort: _,
        } = self;
    }
}

impl GridFsFindOptions {
    /// Nothing is given.
    pub fn builder() -> GridFsFindOptions
        ensures { result ≡ record {
          allow_disk_use = None;
          batch_size = None;
          limit = None;
          max_time = None;
          skip = None;
          sort = None;
        } }
    {
        GridFsFindOptions::default()
    }

    /// Gives `allow_disk_use`.
    pub fn allow_disk_use(mut self, value: bool) -> GridFsFindOptions
        ensures { result ≡ record self { allow_disk_use = Some value } }
    {
        self.allow_disk_use = Some(value);
        self
    }

    /// Gives `batch_size`.
    pub fn batch_size(mut self, value: u32) -> GridFsFindOptions
        ensures { result ≡ record self { batch_size = Some value } }
    {
        self.batch_size = Some(value);
        self
    }

    /// Gives `limit`.
    pub fn limit(mut self, value: i64) -> GridFsFindOptions
        ensures { result ≡ record self { limit = Some value } }
    {
        self.limit = Some(value);
        self
    }

    /// Gives `max_time`.
    pub fn max_time(mut self, value: u64) -> GridFsFindOptions
        ensures { result ≡ record self { max_time = Some value } }
    {
        self.max_time = Some(value);
        self
    }

    /// Gives `skip`.
    pub fn skip(mut self, value: u64) -> GridFsFindOptions
        ensures { result ≡ record self { skip = Some value } }
    {
        self.skip = Some(value);
        self
    }

    /// Gives `sort`.
    pub fn sort(mut self, value: Document) -> GridFsFindOptions
        ensures { result ≡ record self { sort = Some value } }
    {
        self.sort = Some(value);
        self
    }

    /// The record as it was given.
    pub fn build(self) -> GridFsFindOptions
        ensures { result ≡ self }
    {
        self
    }
}

/// How one file is found.
#[derive(Default)]
pub struct GridFsFindOneOptions {
    /// The most milliseconds that the server may work on it.
    pub max_time: Option<u64>,
    /// How many files are passed over first.
    pub skip: Option<u64>,
    /// The order of the files.
    pub sort: Option<Document>,
}

// By hand, so that letting one go is one call.
impl Drop for GridFsFindOneOptions {
    fn drop(self) {
        let GridFsFindOneOptions {
            max_time: _,
            skip: _,
            sort: _,
        } = self;
    }
}

impl GridFsFindOneOptions {
    /// Nothing is given.
    pub fn builder() -> GridFsFindOneOptions
        ensures { result ≡ record {
          max_time = None;
          skip = None;
          sort = None;
        } }
    {
        GridFsFindOneOptions::default()
    }

    /// Gives `max_time`.
    pub fn max_time(mut self, value: u64) -> GridFsFindOneOptions
        ensures { result ≡ record self { max_time = Some value } }
    {
        self.max_time = Some(value);
        self
    }

    /// Gives `skip`.
    pub fn skip(mut self, value: u64) -> GridFsFindOneOptions
        ensures { result ≡ record self { skip = Some value } }
    {
        self.skip = Some(value);
        self
    }

    /// Gives `sort`.
    pub fn sort(mut self, value: Document) -> GridFsFindOneOptions
        ensures { result ≡ record self { sort = Some value } }
    {
        self.sort = Some(value);
        self
    }

    /// The record as it was given.
    pub fn build(self) -> GridFsFindOneOptions
        ensures { result ≡ self }
    {
        self
    }
}

impl GridFsFindOptions {
    // As the options of a find.
    fn into_find(self) -> FindOptions
        ensures { result ≡ find_of_files self }
    {
        let GridFsFindOptions {
            allow_disk_use,
            batch_size,
            limit,
            max_time,
            skip,
            sort,
        } = self;
        FindOptions {
            allow_disk_use,
            allow_partial_results: None,
            batch_size,
            comment: None,
            hint: None,
            limit,
            max: None,
            max_scan: None,
            max_time,
            min: None,
            no_cursor_timeout: None,
            projection: None,
            return_key: None,
            show_record_id: None,
            skip,
            sort,
            collation: None,
            let_vars: None,
            cursor_type: None,
            max_await_time: None,
            read_concern: None,
            selection_criteria: None,
        }
    }
}

impl Clone for GridFsFindOptions {
    ghost use Rattle.mg_options.specs.Copies.{SameGridFsFindOptions};

    ghost is_clone = { SameGridFsFindOptions };

    fn clone(&self) -> Result<GridFsFindOptions, AllocError> {
        let mut copy = GridFsFindOptions {
            allow_disk_use: self.allow_disk_use,
            batch_size: self.batch_size,
            limit: self.limit,
            max_time: self.max_time,
            skip: self.skip,
            sort: None,
        };
        copy_given(&self.sort, &mut copy.sort)?;
        Ok(copy)
    }
}

impl From<GridFsFindOptions> for FindOptions {
    ghost from_gives = { λ o p. p ≡ find_of_files o };

    fn from(options: GridFsFindOptions) -> FindOptions {
        options.into_find()
    }
}

impl GridFsFindOneOptions {
    // As the options of a find of one document.
    fn into_find_one(self) -> FindOneOptions
        ensures { result ≡ find_one_of_files self }
    {
        let GridFsFindOneOptions {
            max_time,
            skip,
            sort,
        } = self;
        FindOneOptions {
            allow_partial_results: None,
            collation: None,
            comment: None,
            hint: None,
            max: None,
            max_scan: None,
            max_time,
            min: None,
            projection: None,
            read_concern: None,
            return_key: None,
            selection_criteria: None,
            show_record_id: None,
            skip,
            sort,
            let_vars: None,
        }
    }
}

impl Clone for GridFsFindOneOptions {
    ghost use Rattle.mg_options.specs.Copies.{SameGridFsFindOneOptions};

    ghost is_clone = { SameGridFsFindOneOptions };

    fn clone(&self) -> Result<GridFsFindOneOptions, AllocError> {
        let mut copy = GridFsFindOneOptions {
            max_time: self.max_time,
            skip: self.skip,
            sort: None,
        };
        copy_given(&self.sort, &mut copy.sort)?;
        Ok(copy)
    }
}

impl From<GridFsFindOneOptions> for FindOneOptions {
    ghost from_gives = { λ o p. p ≡ find_one_of_files o };

    fn from(options: GridFsFindOneOptions) -> FindOneOptions {
        options.into_find_one()
    }
}
