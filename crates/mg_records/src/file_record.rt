//! What the files collection of a bucket holds.
ghost use Rattle.std.specs.Prelude.{◌≡◌, Ok, IfOk, IfErr};
ghost use Rattle.mg_bson.specs.Raw.{fields};
ghost use Rattle.mg_chunks.specs.Sizes.{chunk_count_of, chunk_length_of};
ghost use Rattle.mg_records.specs.FileRecords.{file_fields, file_numbers, file_record, numbers};
ghost use Rattle.mg_chunks.specs.Broken.{Breaks};
ghost use Rattle.mg_records.specs.Readings.{Gives};

use crate::copy::{copied_document, copied_text};
use crate::fault::{Fault, error_of};
use crate::read_raw::ReadRaw;
use crate::value::{needed, optional};
use mg_bson::{Bson, DateTime, Document, RawDocument};
use mg_chunks::{broken, expected_chunk_length, n_from_vals};
use mg_link::{Error, Malformed};
use std::alloc::{AllocError, Global};

/// The record of a file (GridFS specification, "files collection documents").
#[derive(Debug, PartialEq, Eq)]
pub struct FilesCollectionDocument {
    /// The id of the file.
    pub id: Bson,
    /// How many bytes it has.
    pub length: u64,
    /// How many bytes each of its chunks has, but for the last.
    pub chunk_size_bytes: u32,
    /// When it was stored.
    pub upload_date: DateTime,
    /// Its name.
    pub filename: Option<String>,
    /// What else is known of it.
    pub metadata: Option<Document>,
}

// By hand, so that letting one go is one call.
impl Drop for FilesCollectionDocument {
    fn drop(self) {
        let FilesCollectionDocument {
            id: _,
            length: _,
            chunk_size_bytes: _,
            upload_date: _,
            filename: _,
            metadata: _,
        } = self;
    }
}

impl FilesCollectionDocument {
    /// How many chunks the file has. It fails where they have no bytes, or are more than a u32 counts.
    pub fn n(&self) -> Result<u32, Error>
        ensures ok { IfOk result (λ n. chunk_count_of self.now.length self.now.chunk_size_bytes ≡ Ok n) }
        ensures err { IfErr result (λ e. Breaks (chunk_count_of self.now.length self.now.chunk_size_bytes) e) }
    {
        FilesCollectionDocument::n_from_vals(self.length, self.chunk_size_bytes)
    }

    /// How many chunks of this size hold so many bytes. It fails where they have no bytes, or are more than a u32 counts.
    pub fn n_from_vals(length: u64, size: u32) -> Result<u32, Error>
        ensures ok { IfOk result (λ n. chunk_count_of length size ≡ Ok n) }
        ensures err { IfErr result (λ e. Breaks (chunk_count_of length size) e) }
    {
        n_from_vals(length, size)
    }

    /// How many bytes the chunk of this number has, from 0, of so many bytes in chunks of this size: the rest in the last
    /// one, where a rest is left, and the full size in each other, also in one past the end. It fails as `n_from_vals` does.
    pub fn expected_chunk_length_from_vals(length: u64, size: u32, n: u32) -> Result<u32, Error>
        ensures ok { IfOk result (λ bytes. chunk_length_of length size n ≡ Ok bytes) }
        ensures err { IfErr result (λ e. Breaks (chunk_length_of length size n) e) }
    {
        expected_chunk_length(length, size, n)
    }
}

// The numbers of a record, whose chunks may have no bytes.
#[derive(Clone, Copy)]
struct FileNumbers {
    length: u64,
    chunk_size: u32,
    upload_date: DateTime,
}

fn file_numbers(alloc: Global, raw: &RawDocument<'_>) -> Result<FileNumbers, Fault>
    ensures { Gives numbers result (file_numbers (fields raw.now)) }
{
    let length = needed(alloc, raw, "length")?;
    let chunk_size = needed(alloc, raw, "chunkSize")?;
    let upload_date = needed(alloc, raw, "uploadDate")?;
    Ok(FileNumbers {
        length,
        chunk_size,
        upload_date,
    })
}

fn file_fields(alloc: Global, raw: &RawDocument<'_>) -> Result<FilesCollectionDocument, Fault>
    ensures { Gives file_record result (file_fields (fields raw.now)) }
{
    let numbers = file_numbers(alloc, raw)?;
    let filename = optional(alloc, raw, "filename")?;
    let metadata = optional(alloc, raw, "metadata")?;
    let id = needed(alloc, raw, "_id")?;
    Ok(FilesCollectionDocument {
        id,
        length: numbers.length,
        chunk_size_bytes: numbers.chunk_size,
        upload_date: numbers.upload_date,
        filename,
        metadata,
    })
}

impl ReadRaw for FilesCollectionDocument {
    ghost use Rattle.mg_bson.specs.Raw.{fields};
    ghost use Rattle.mg_records.specs.FileRecords.{FileRecord, file_record_of, file_record};

    ghost Record = { FileRecord };

    ghost seen = { file_record };

    ghost stands_for = { λ bytes. file_record_of (fields bytes) };

    fn read_raw(alloc: Global, raw: RawDocument<'_>) -> Result<FilesCollectionDocument, Error> {
        let found = match file_fields(alloc, &raw) {
            Ok(found) => found,
            Err(fault) => return Err(error_of(fault)),
        };
        if found.chunk_size_bytes == 0 {
            return Err(broken(Malformed::ChunkSizeZero));
        }
        Ok(found)
    }
}

impl Clone for FilesCollectionDocument {
    ghost is_clone = { λ a b. file_record b ≡ file_record a };

    fn clone(&self) -> Result<FilesCollectionDocument, AllocError> {
        let filename = copied_text(&self.filename)?;
        let metadata = copied_document(&self.metadata)?;
        let id = self.id.clone()?;
        Ok(FilesCollectionDocument {
            id,
            length: self.length,
            chunk_size_bytes: self.chunk_size_bytes,
            upload_date: self.upload_date,
            filename,
            metadata,
        })
    }
}
