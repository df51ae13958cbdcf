//! Why an operation failed.
ghost use Rattle.std.specs.Prelude.{◌≡◌, ◌↔◌, IsTrue};
ghost use Rattle.mg_link.specs.Labels.{has_label};
ghost use Rattle.mg_link.specs.Errors.{bson_kind, command_code, plain};
ghost use Rattle.mg_link.specs.Resumable.{is_resumable, refusal_resumes, spoken_for};
ghost use Rattle.mg_link.specs.declared.error.ErrorKind.TheVariants as kinds;

use crate::codes::is_among;
use crate::history::{HistoryStep, Receipt};
use crate::labels::Labels;
use mg_bson::{Bson, BsonError};
use std::alloc::{AllocError, AllocFailed};

/// Memory ran out. Nothing else is known of it.
#[derive(Clone, Copy, Debug, PartialEq, Eq)]
pub struct OutOfMemory;

/// A failure, with what the server said beside it.
#[cycle(error)]
pub struct Error {
    /// What failed.
    pub kind: ErrorKind,
    /// The labels of the reply that refused, and none otherwise.
    pub labels: Labels,
    /// The wire version of the link, where a reply on a link was the cause.
    pub wire_version: Option<i32>,
}

// By hand, so that letting one go is one call.
impl Drop for Error {
    #[cycle(drops)]
    fn drop(self) {
        let Error {
            kind: _,
            labels: _,
            wire_version: _,
        } = self;
    }
}

/// What failed.
#[cycle(error)]
#[derive(Drop)]
pub enum ErrorKind {
    /// Memory ran out.
    OutOfMemory,
    /// The link answered a fault.
    Io,
    /// A reply whose `ok` is not 1.
    Command(CommandError),
    /// The write error, or the write concern error, of a write that is no insert.
    Write(WriteFailure),
    /// The write errors of an insert, in the order of the reply, and behind them its write concern error.
    InsertMany(Vec<IndexedFailure>),
    /// A document that was received breaks its grammar.
    InvalidResponse(Malformed),
    /// Received bytes are no document.
    BsonDeserialization,
    /// A document or command to be sent is too large or too deep, or holds a name that cannot be written.
    BsonSerialization,
    /// The event in hand has no `_id`.
    MissingResumeToken,
    /// An argument is outside its stated range.
    InvalidArgument(BadArgument),
    /// A file of a bucket could not be read or written.
    GridFs(GridFsErrorKind),
    /// The number of the next chunk of a file would pass 2,147,483,647.
    FileTooLarge,
    /// One call got 1,000 empty replies in a row.
    EmptyBatches,
    /// A call that collects documents met the 1,048,577th.
    TooManyDocuments,
    /// This number in a list of turns names no job.
    NoSuchJob(u32),
    /// What a worker was told differs from what the server did.
    ReceiptMismatch(Box<Mismatch>),
}

/// A refusal by the server.
#[derive(Drop)]
pub struct CommandError {
    /// The code, 0 where the reply has none.
    pub code: i32,
    /// The name of the code.
    pub code_name: String,
    /// What the server says of it.
    pub message: String,
}

/// A write that the server did not do, or did not make safe.
#[derive(Drop)]
pub struct WriteFailure {
    /// The code of the failure.
    pub code: i32,
    /// What the server says of it.
    pub message: String,
}

/// One document of an insert that was not written.
#[derive(Drop)]
pub struct IndexedFailure {
    /// The number of the document in its command, from 0.
    pub index: u32,
    /// The code of the failure.
    pub code: i32,
    /// What the server says of it.
    pub message: String,
}

/// How a received document breaks its grammar.
#[derive(Clone, Copy, Debug, PartialEq, Eq)]
pub enum Malformed {
    /// `ok` is missing, or of another kind than a number.
    NoOk,
    /// `cursor` is missing or no document.
    NoCursor,
    /// The cursor's id is missing or no Int64.
    BadId,
    /// The cursor's namespace is missing or none.
    BadNs,
    /// The cursor has no batch.
    NoBatch,
    /// An item of a list is not of the kind that it has to be.
    BadItem,
    /// A record lacks a field, or has one of another kind.
    BadRecord,
    /// A chunk lacks a field, or has one of another kind.
    BadChunk,
    /// The record of a file has chunks of no bytes.
    ChunkSizeZero,
    /// The record of a file has more chunks than a u32 counts.
    TooManyChunks,
    /// A count is missing or negative.
    BadCount,
}

/// Which argument is outside its stated range.
#[derive(Drop)]
pub enum BadArgument {
    /// No collation has this strength.
    CollationStrength(u32),
    /// No collation has this word for its case first.
    CollationCaseFirst(String),
    /// No collation has this word for its alternate.
    CollationAlternate(String),
    /// No collation has this word for its max variable.
    CollationMaxVariable(String),
    /// No word for the document that is to be returned.
    ReturnDocument(String),
    /// A batch size that the server does not take.
    BatchSize,
    /// A limit that the server does not take.
    Limit,
    /// A number that does not fit the kind that it is printed as.
    Number,
    /// A chunk size of 0, or past what a record holds.
    ChunkSize,
    /// A read of no bytes.
    ReadSize,
    /// An insert of no documents.
    NoDocuments,
    /// A read concern of its own inside a transaction.
    ReadConcernInTransaction,
}

/// A file of a bucket, by what it was asked for.
#[derive(Drop)]
pub enum GridFsFileIdentifier {
    /// By its `_id`.
    Id(Bson),
    /// By its name.
    Filename(String),
}

/// Why a file of a bucket could not be read or written.
#[cycle(error)]
#[derive(Drop)]
pub enum GridFsErrorKind {
    /// The bucket has no such file.
    FileNotFound(GridFsFileIdentifier),
    /// The name has no such revision.
    RevisionNotFound(i32),
    /// The chunk of this number is missing.
    MissingChunk(u32),
    /// A chunk has another length than its record says.
    WrongSizeChunk {
        /// The number of the chunk.
        n: u32,
        /// How many bytes it has.
        actual: u64,
        /// How many bytes it is to have.
        expected: u32,
    },
    /// The upload was closed or aborted, or failed.
    UploadStreamClosed,
    /// The upload was closed while a write was going on.
    WriteInProgress,
    /// The chunks of an upload that failed or was aborted could not be removed.
    AbortError {
        /// What the upload failed with, and nothing where it was aborted.
        original: Option<Box<Error>>,
        /// Why its chunks could not be removed.
        delete: Box<Error>,
    },
}

/// The first receipt of a worker that differs from the server's history.
pub struct Mismatch {
    /// The number of the worker, from 0.
    pub worker: u32,
    /// The position that its receipt names.
    pub position: u64,
    /// The receipt.
    pub receipt: Receipt,
    /// The step at that position, where there is one for this receipt.
    pub found: Option<HistoryStep>,
}

// By hand, so that letting one go is one call.
impl Drop for Mismatch {
    fn drop(self) {
        let Mismatch {
            worker: _,
            position: _,
            receipt: _,
            found: _,
        } = self;
    }
}

impl Error {
    /// Whether the link answered a fault.
    pub fn is_network_error(&self) -> bool
        ensures { IsTrue result ↔ (self.now.kind ≡ ErrorKind.Io) }
    {
        matches!(self.kind, ErrorKind::Io)
    }

    /// Whether the server gave this label.
    pub fn contains_label(&self, label: &str) -> bool
        ensures { result ≡ has_label label.now self.now.labels }
    {
        self.labels.contains(label)
    }

    /// The code of a refusal.
    pub fn sdam_code(&self) -> Option<i32>
        ensures { result ≡ command_code self.now.kind }
    {
        match &self.kind {
            ErrorKind::Command(refusal) => Some(refusal.code),
            _ => None,
        }
    }

    /// Whether a change stream may go on after this error, as the drivers' specification of change streams says.
    pub fn is_resumable(&self) -> bool
        ensures { result ≡ is_resumable self.now.kind self.now.labels self.now.wire_version }
    {
        match &self.kind {
            ErrorKind::Io | ErrorKind::InvalidResponse(_) | ErrorKind::BsonDeserialization => true,
            ErrorKind::Command(refusal) => {
                refusal_resumes(refusal.code, &self.labels, self.wire_version)
            }
            _ => false,
        }
    }
}

/// The codes after which a change stream resumes where no label speaks for it.
const RESUMABLE_CODES: [i32; 17] = [
    6, 7, 63, 89, 91, 133, 150, 189, 234, 262, 9001, 10107, 11600, 11602, 13388, 13435, 13436,
];

/// The code of a refusal by a server that has no such cursor.
const CURSOR_NOT_FOUND: i32 = 43;

/// The first wire version at which servers give the label below.
const LABELS_FROM: i32 = 9;

/// The label of a refusal after which a change stream resumes.
const RESUMABLE_LABEL: &str = "ResumableChangeStreamError";

// Whether a change stream goes on after a refusal.
#[tactic(auto, unfolding(crate::specs::Resumable::refusal_resumes))]
fn refusal_resumes(code: i32, labels: &Labels, wire_version: Option<i32>) -> bool
    ensures { result ≡ refusal_resumes code labels.now wire_version }
{
    if code == CURSOR_NOT_FOUND {
        true
    } else {
        is_spoken_for(code, labels, wire_version)
    }
}

// Whether the code, or from wire version 9 on the label, speaks for a resumption.
#[tactic(auto, unfolding(crate::specs::Resumable::spoken_for))]
fn is_spoken_for(code: i32, labels: &Labels, wire_version: Option<i32>) -> bool
    ensures { result ≡ spoken_for code labels.now wire_version }
{
    match wire_version {
        None => false,
        Some(wire) => {
            if wire < LABELS_FROM {
                is_among(code, &RESUMABLE_CODES)
            } else {
                labels.contains(RESUMABLE_LABEL)
            }
        }
    }
}

/// An error of this kind that no reply was the cause of.
pub fn plain(kind: ErrorKind) -> Error
    ensures { result ≡ plain kind }
{
    Error {
        kind,
        labels: Labels::none(),
        wire_version: None,
    }
}

impl From<AllocError> for OutOfMemory {
    ghost from_gives = { λ _ e. e ≡ record {} };

    fn from(_e: AllocError) -> OutOfMemory {
        OutOfMemory
    }
}

impl<T: Drop> From<AllocFailed<T>> for OutOfMemory {
    ghost from_gives = { λ _ e. e ≡ record {} };

    fn from(_e: AllocFailed<T>) -> OutOfMemory {
        OutOfMemory
    }
}

impl From<AllocError> for Error {
    ghost from_gives = { λ _ e. e ≡ plain kinds.OutOfMemory };

    fn from(_e: AllocError) -> Error {
        plain(ErrorKind::OutOfMemory)
    }
}

impl<T: Drop> From<AllocFailed<T>> for Error {
    ghost from_gives = { λ _ e. e ≡ plain kinds.OutOfMemory };

    fn from(_e: AllocFailed<T>) -> Error {
        plain(ErrorKind::OutOfMemory)
    }
}

impl From<OutOfMemory> for Error {
    ghost from_gives = { λ _ e. e ≡ plain kinds.OutOfMemory };

    fn from(_e: OutOfMemory) -> Error {
        plain(ErrorKind::OutOfMemory)
    }
}

impl From<Malformed> for Error {
    ghost from_gives = { λ m e. e ≡ plain (kinds.InvalidResponse m) };

    fn from(e: Malformed) -> Error {
        plain(ErrorKind::InvalidResponse(e))
    }
}

impl From<BsonError> for Error {
    ghost from_gives = { λ b e. e ≡ plain (bson_kind b) };

    fn from(e: BsonError) -> Error {
        plain(match e {
            BsonError::OutOfMemory => ErrorKind::OutOfMemory,
            BsonError::Malformed => ErrorKind::BsonDeserialization,
            BsonError::TooLarge => ErrorKind::BsonSerialization,
            BsonError::TooDeep => ErrorKind::BsonSerialization,
            BsonError::BadName => ErrorKind::BsonSerialization,
        })
    }
}
