use super::{copied, owned, written};
use crate::parted;
use mg_bson::{Bson, BsonError, Document, RawDocumentBuf, to_bytes};
use mg_link::{
    BadArgument, CommandError, CountedIds, Error, ErrorKind, GridFsErrorKind, GridFsFileIdentifier,
    IdSource, IndexedFailure, Labels, Log, LoggedCall, Malformed, MemSink, MemSource, Mismatch,
    Namespace, OperationTarget, Receipt, Seen, Sink, Source, StdSink, StdSource, WriteFailure,
    plain, read_all, write_all,
};
use std::alloc::Global;
use std::process::Abort;

// Ends over memory and over slices, ids and a log, and what calls of them give; errors that are no refusals: whether each is
// one of the network, whether a stream goes on behind it, whether it has a label, and its code, where the errors inside do
// not speak for the one around them; kinds of errors, and what each prints as; a code and a label, and whether a stream goes
// on below wire version 9 and from it on; texts, and the parts of the names that they are, with what a copy prints as.
pub(super) const ROWS: &str = r#"call memory-reads~/Ok(2)/Err(Fault)/Ok([108, 108, 111])
call slice-reads~/Ok(2)/Ok([108, 108, 111])/Ok([])
call memory-writes~/Ok(())/Err(WriteFailed)/Ok(()) [104, 101, 108, 108, 111, 33]
call slice-writes~/Ok(())/Err(WriteFailed)
call ids~010203040000000000000000 010203040000000000000001
call log~true 1 true
call io~true true false None
call aborted~false false false None
error memory~out of memory
error io~the link failed
error garbled~received bytes are no document
error unfit~the document cannot be written
error nameless~the event has no _id
error large~the file has too many chunks
error empty~1000 empty replies in a row
error many~more than 1048576 documents
error job~no such job: 3
error reply~invalid response: no ok
error strength~invalid collation strength: 6
error nothing~no documents to insert
error revision~no revision -5
error size~chunk 0 has 3 bytes and not 4
error refused~refused with code 10107 (NotWritablePrimary): not master
error unwritten~write failed with code 9: not master
error uninserted~insert failed, with 1 failures
error id~no file with this id
error name~no file named f
error mismatch~receipt mismatch: worker 2 position 5
error aborted~the upload was aborted, and its chunks could not be removed (the link failed)
error malformed~received bytes are no document
error failed~the upload failed (a write is going on), and its chunks could not be removed (the link failed)
resumable 43 -~true true
resumable 63 -~true false
resumable 91 -~true false
resumable 134 -~false false
resumable 0 ResumableChangeStreamError~false true
resumable 91 RetryableWriteError~true false
namespace app.fs.files~app fs.files app.fs.files true
namespace ~none
namespace app~none
namespace .c~none
namespace app.~none
namespace .~none"#;

// What a read, a read to the end, and one behind it give.
fn reads<S: Source>(rt: &impl Abort, alloc: Global, source: &mut S, buf: &mut [u8]) -> String {
    let mut told = String::new(alloc);
    write!(told, "/{:?}", source.read(buf)).expect(rt, "memory");
    write!(told, "/{:?}", read_all(alloc, source)).expect(rt, "memory");
    write!(told, "/{:?}", read_all(alloc, source)).expect(rt, "memory");
    told
}

// What the write of each word gives.
fn writes<K: Sink>(rt: &impl Abort, alloc: Global, sink: &mut K, words: &str) -> String {
    let mut told = String::new(alloc);
    for word in words.split(' ') {
        let wrote = write_all(sink, word.as_bytes());
        write!(told, "/{wrote:?}").expect(rt, "memory");
    }
    told
}

// A source in memory, whose second read meets a fault.
fn memory_reads(rt: &impl Abort, alloc: Global) -> String {
    let bytes = Vec::from_slice(alloc, b"hello").expect(rt, "memory");
    let failing = vec![in alloc; 1].expect(rt, "memory");
    reads(
        rt,
        alloc,
        &mut MemSource::new(bytes, 2, failing),
        &mut [0u8; 4],
    )
}

// A sink in memory, whose fourth write meets a fault, and what was written.
fn memory_writes(rt: &impl Abort, alloc: Global) -> String {
    let failing = vec![in alloc; 3].expect(rt, "memory");
    let mut sink = MemSink::new(alloc, 2, failing);
    let mut told = writes(rt, alloc, &mut sink, "hello you !");
    write!(told, " {:?}", sink.bytes()).expect(rt, "memory");
    told
}

fn slice_writes(rt: &impl Abort, alloc: Global) -> String {
    let mut room = [0u8; 4];
    writes(rt, alloc, &mut StdSink::new(room.as_mut_slice()), "hi you")
}

// The first ids behind these bytes.
fn counted(rt: &impl Abort, alloc: Global) -> String {
    let mut ids = CountedIds::new([1, 2, 3, 4]);
    let (first, second) = (ids.next_id(), ids.next_id());
    written(rt, format!(in alloc; "{first} {second}"))
}

// The bytes of the document that has no fields.
fn empty_bytes(rt: &impl Abort, alloc: Global) -> RawDocumentBuf {
    to_bytes(alloc, &Document::new(alloc)).expect(rt, "memory")
}

// Whether a log is empty, how many calls it has then, and whether a fault was seen of the last.
fn logged(rt: &impl Abort, alloc: Global) -> String {
    let mut log = Log::new(alloc);
    let is_empty = log.is_empty();
    let call = LoggedCall {
        command: empty_bytes(rt, alloc),
        position: Some(0),
        seen: Seen::Waiting,
    };
    match log.push(call) {
        Ok(()) => log.see(0, Seen::Fault),
        Err(_) => return owned(rt, alloc, "no memory"),
    }
    let is_fault = match log.calls().last() {
        Some(call) => matches!(&call.seen, Seen::Fault),
        None => false,
    };
    written(rt, format!(in alloc; "{is_empty} {} {is_fault}", log.len()))
}

// What an error says of itself.
fn answers_of(rt: &impl Abort, alloc: Global, name: &str) -> String {
    let error = error_of(rt, alloc, name);
    let is_lost = error.is_network_error();
    let goes_on = error.is_resumable();
    let is_labelled = error.contains_label("RetryableWriteError");
    let code = error.sdam_code();
    written(
        rt,
        format!(in alloc; "{is_lost} {goes_on} {is_labelled} {code:?}"),
    )
}

/// What calls of ends, ids, a log and an error give.
pub(super) fn call(rt: &impl Abort, alloc: Global, about: &str) -> String {
    match about {
        "memory-reads" => memory_reads(rt, alloc),
        "slice-reads" => {
            reads(
                rt,
                alloc,
                &mut StdSource::new(b"hello".as_slice()),
                &mut [0u8; 2],
            )
        }
        "memory-writes" => memory_writes(rt, alloc),
        "slice-writes" => slice_writes(rt, alloc),
        "ids" => counted(rt, alloc),
        "log" => logged(rt, alloc),
        name => answers_of(rt, alloc, name),
    }
}

// A kind that has no part of its own, or only a number.
fn plain_kind(name: &str) -> ErrorKind {
    match name {
        "memory" => ErrorKind::OutOfMemory,
        "io" => ErrorKind::Io,
        "garbled" => ErrorKind::BsonDeserialization,
        "unfit" => ErrorKind::BsonSerialization,
        "nameless" => ErrorKind::MissingResumeToken,
        "large" => ErrorKind::FileTooLarge,
        "empty" => ErrorKind::EmptyBatches,
        "many" => ErrorKind::TooManyDocuments,
        "reply" => ErrorKind::InvalidResponse(Malformed::NoOk),
        "strength" => ErrorKind::InvalidArgument(BadArgument::CollationStrength(6)),
        "nothing" => ErrorKind::InvalidArgument(BadArgument::NoDocuments),
        "revision" => ErrorKind::GridFs(GridFsErrorKind::RevisionNotFound(-5)),
        "size" => ErrorKind::GridFs(GridFsErrorKind::WrongSizeChunk {
            n: 0,
            actual: 3,
            expected: 4,
        }),
        "id" => {
            let id = GridFsFileIdentifier::Id(Bson::Int32(7));
            ErrorKind::GridFs(GridFsErrorKind::FileNotFound(id))
        }
        _ => ErrorKind::NoSuchJob(3),
    }
}

// An upload that was aborted, or that failed, and the link failed while its chunks were to be removed.
fn chunks_left(rt: &impl Abort, alloc: Global, has_failed: bool) -> ErrorKind {
    let delete = Box::new(alloc, plain(ErrorKind::Io)).expect(rt, "memory");
    let original = if has_failed {
        let failed = plain(ErrorKind::GridFs(GridFsErrorKind::WriteInProgress));
        Some(Box::new(alloc, failed).expect(rt, "memory"))
    } else {
        None
    };
    ErrorKind::GridFs(GridFsErrorKind::AbortError { original, delete })
}

fn mismatched(rt: &impl Abort, alloc: Global) -> ErrorKind {
    let mismatch = Mismatch {
        worker: 2,
        position: 5,
        receipt: Receipt {
            position: 5,
            command: empty_bytes(rt, alloc),
            reply: empty_bytes(rt, alloc),
        },
        found: None,
    };
    ErrorKind::ReceiptMismatch(Box::new(alloc, mismatch).expect(rt, "memory"))
}

// A kind of a server's failure.
fn server_kind(rt: &impl Abort, alloc: Global, name: &str) -> ErrorKind {
    let message = owned(rt, alloc, "not master");
    match name {
        "refused" => ErrorKind::Command(CommandError {
            code: 10107,
            code_name: owned(rt, alloc, "NotWritablePrimary"),
            message,
        }),
        "unwritten" => ErrorKind::Write(WriteFailure { code: 9, message }),
        _ => {
            let failure = IndexedFailure {
                index: 1,
                code: 9,
                message,
            };
            ErrorKind::InsertMany(vec![in alloc; failure].expect(rt, "memory"))
        }
    }
}

// The error of this name.
fn error_of(rt: &impl Abort, alloc: Global, name: &str) -> Error {
    match name {
        "malformed" => Error::from(BsonError::Malformed),
        "mismatch" => plain(mismatched(rt, alloc)),
        "refused" | "unwritten" | "uninserted" => plain(server_kind(rt, alloc, name)),
        "name" => {
            let name = GridFsFileIdentifier::Filename(owned(rt, alloc, "f"));
            plain(ErrorKind::GridFs(GridFsErrorKind::FileNotFound(name)))
        }
        "aborted" => plain(chunks_left(rt, alloc, false)),
        "failed" => plain(chunks_left(rt, alloc, true)),
        _ => plain(plain_kind(name)),
    }
}

/// What the error of this name prints as.
pub(super) fn error(rt: &impl Abort, alloc: Global, name: &str) -> String {
    let error = error_of(rt, alloc, name);
    written(rt, format!(in alloc; "{error}"))
}

// Whether a change stream goes on after a refusal.
fn goes_on(rt: &impl Abort, alloc: Global, code: i32, label: &str, wire: i32) -> bool {
    let labels = vec![in alloc; owned(rt, alloc, label)].expect(rt, "memory");
    let error = Error {
        kind: ErrorKind::Command(CommandError {
            code,
            code_name: String::new(alloc),
            message: String::new(alloc),
        }),
        labels: Labels::from_vec(labels),
        wire_version: Some(wire),
    };
    error.is_resumable()
}

/// Whether a stream goes on after a refusal below wire version 9 and from it on.
pub(super) fn resumable(rt: &impl Abort, alloc: Global, line: &str) -> String {
    let (code, label) = parted(line);
    let code = code.parse::<i32>().unwrap_or(0);
    let (below, from) = (
        goes_on(rt, alloc, code, label, 8),
        goes_on(rt, alloc, code, label, 9),
    );
    written(rt, format!(in alloc; "{below} {from}"))
}

/// The parts of a name, the name, and whether a copy of it as a target is equal.
pub(super) fn namespace(rt: &impl Abort, alloc: Global, text: &str) -> String {
    let Some(name) = Namespace::from_str(alloc, text).expect(rt, "memory") else {
        return owned(rt, alloc, "none");
    };
    let mut told = String::new(alloc);
    write!(told, "{} {} {name} ", name.db, name.coll).expect(rt, "memory");
    let target = OperationTarget::Collection(copied(rt, name));
    let is_same = target.clone().expect(rt, "memory") == target;
    write!(told, "{is_same}").expect(rt, "memory");
    told
}
