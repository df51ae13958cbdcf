//! How errors are printed.
ghost use Rattle.mg_link.specs.ErrorText.{argument_text, error_text};

use crate::error::{
    BadArgument, CommandError, Error, ErrorKind, GridFsErrorKind, GridFsFileIdentifier, Malformed,
    Mismatch, OutOfMemory, WriteFailure,
};
use std::fmt::{self, Display};

impl fmt::Display for OutOfMemory {
    fn fmt<W: fmt::Write>(&self, f: &mut fmt::Formatter<W>) -> fmt::Result {
        f.write_str("out of memory")
    }
}

impl fmt::Display for CommandError {
    fn fmt<W: fmt::Write>(&self, f: &mut fmt::Formatter<W>) -> fmt::Result {
        let CommandError {
            code,
            code_name,
            message,
        } = self;
        if code_name.is_empty() {
            write!(f, "refused with code {code}: {message}")
        } else {
            write!(f, "refused with code {code} ({code_name}): {message}")
        }
    }
}

impl fmt::Display for WriteFailure {
    fn fmt<W: fmt::Write>(&self, f: &mut fmt::Formatter<W>) -> fmt::Result {
        write!(f, "write failed with code {}: {}", self.code, self.message)
    }
}

impl fmt::Display for Malformed {
    fn fmt<W: fmt::Write>(&self, f: &mut fmt::Formatter<W>) -> fmt::Result {
        f.write_str(match self {
            Malformed::NoOk => "no ok",
            Malformed::NoCursor => "no cursor",
            Malformed::BadId => "bad cursor id",
            Malformed::BadNs => "bad namespace",
            Malformed::NoBatch => "no batch",
            Malformed::BadItem => "bad item",
            Malformed::BadRecord => "bad record",
            Malformed::BadChunk => "bad chunk",
            Malformed::ChunkSizeZero => "chunk size 0",
            Malformed::TooManyChunks => "too many chunks",
            Malformed::BadCount => "bad count",
        })
    }
}

impl fmt::Display for BadArgument {
    ghost output = { argument_text };

    fn fmt<W: fmt::Write>(&self, f: &mut fmt::Formatter<W>) -> fmt::Result {
        let (words, given) = match self {
            BadArgument::CollationStrength(n) => {
                return write!(f, "invalid collation strength: {n}");
            }
            BadArgument::CollationCaseFirst(s) => ("invalid CollationCaseFirst: ", s.as_str()),
            BadArgument::CollationAlternate(s) => ("invalid collation alternate: ", s.as_str()),
            BadArgument::CollationMaxVariable(s) => {
                ("invalid collation max variable: ", s.as_str())
            }
            BadArgument::ReturnDocument(s) => ("Unknown return document value: ", s.as_str()),
            BadArgument::BatchSize => ("invalid batch size", ""),
            BadArgument::Limit => ("invalid limit", ""),
            BadArgument::Number => ("number out of range", ""),
            BadArgument::ChunkSize => ("invalid chunk size", ""),
            BadArgument::ReadSize => ("invalid read size", ""),
            BadArgument::NoDocuments => ("no documents to insert", ""),
            BadArgument::ReadConcernInTransaction => ("read concern inside a transaction", ""),
        };
        write!(f, "{words}{given}")
    }
}

impl fmt::Display for GridFsFileIdentifier {
    fn fmt<W: fmt::Write>(&self, f: &mut fmt::Formatter<W>) -> fmt::Result {
        match self {
            GridFsFileIdentifier::Id(_) => f.write_str("file with this id"),
            GridFsFileIdentifier::Filename(name) => write!(f, "file named {name}"),
        }
    }
}

impl fmt::Display for GridFsErrorKind {
    #[cycle(texts)]
    fn fmt<W: fmt::Write>(&self, f: &mut fmt::Formatter<W>) -> fmt::Result {
        match self {
            GridFsErrorKind::FileNotFound(file) => write!(f, "no {file}"),
            GridFsErrorKind::RevisionNotFound(n) => write!(f, "no revision {n}"),
            GridFsErrorKind::MissingChunk(n) => write!(f, "chunk {n} is missing"),
            GridFsErrorKind::WrongSizeChunk {
                n,
                actual,
                expected,
            } => write!(f, "chunk {n} has {actual} bytes and not {expected}"),
            GridFsErrorKind::UploadStreamClosed => f.write_str("the upload is closed"),
            GridFsErrorKind::WriteInProgress => f.write_str("a write is going on"),
            GridFsErrorKind::AbortError {
                original: Some(original),
                delete,
            } => write!(
                f,
                "the upload failed ({original}), and its chunks could not be removed ({delete})"
            ),
            GridFsErrorKind::AbortError {
                original: None,
                delete,
            } => write!(
                f,
                "the upload was aborted, and its chunks could not be removed ({delete})"
            ),
        }
    }
}

impl fmt::Display for Mismatch {
    fn fmt<W: fmt::Write>(&self, f: &mut fmt::Formatter<W>) -> fmt::Result {
        write!(
            f,
            "receipt mismatch: worker {} position {}",
            self.worker, self.position
        )
    }
}

impl fmt::Display for Error {
    ghost output = { error_text };

    #[cycle(texts)]
    fn fmt<W: fmt::Write>(&self, f: &mut fmt::Formatter<W>) -> fmt::Result {
        f.write_str(match &self.kind {
            ErrorKind::Command(refusal) => return refusal.fmt(f),
            ErrorKind::Write(failure) => return failure.fmt(f),
            ErrorKind::InsertMany(failures) => {
                return write!(f, "insert failed, with {} failures", failures.len());
            }
            ErrorKind::InvalidResponse(fault) => return write!(f, "invalid response: {fault}"),
            ErrorKind::InvalidArgument(argument) => return argument.fmt(f),
            ErrorKind::GridFs(failure) => return failure.fmt(f),
            ErrorKind::NoSuchJob(n) => return write!(f, "no such job: {n}"),
            ErrorKind::ReceiptMismatch(mismatch) => return mismatch.fmt(f),
            ErrorKind::OutOfMemory => "out of memory",
            ErrorKind::Io => "the link failed",
            ErrorKind::BsonDeserialization => "received bytes are no document",
            ErrorKind::BsonSerialization => "the document cannot be written",
            ErrorKind::MissingResumeToken => "the event has no _id",
            ErrorKind::FileTooLarge => "the file has too many chunks",
            ErrorKind::EmptyBatches => "1000 empty replies in a row",
            ErrorKind::TooManyDocuments => "more than 1048576 documents",
        })
    }
}

// A document has no printed form of its own, so an error shows its text.
impl fmt::Debug for Error {
    fn fmt<W: fmt::Write>(&self, f: &mut fmt::Formatter<W>) -> fmt::Result {
        Display::fmt(self, f)
    }
}

impl std::error::Error for OutOfMemory {}

impl std::error::Error for Error {}
