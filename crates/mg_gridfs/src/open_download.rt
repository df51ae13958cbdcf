//! Downloads that are to be opened.
ghost use Rattle.std.specs.Prelude.{◌≡◌, IfErr, IfOk, None, Ok, List, ℕ, option_map, true};
ghost use Rattle.mg_bson.specs.Raw.{fields, items};
ghost use Rattle.mg_bson.specs.Tree.{Items};
ghost use Rattle.mg_bson.specs.View.{tree};
ghost use Rattle.mg_link.specs.Acts.{EndsAtOnce, FailsByFault, IsOut, Pended, Tickets, ticket_after};
ghost use Rattle.mg_link.specs.Exec.{ticket_of};
ghost use Rattle.mg_server.specs.Files.{Bucket};
ghost use Rattle.mg_link.specs.Link.{Later};
ghost use Rattle.mg_link.specs.Moment.{LinkKeeps, moment, step_ending};
ghost use Rattle.mg_ops.specs.Cursors.{BreaksIn, Cursor, Gave, cursor_of};
ghost use Rattle.mg_ops.specs.Failing.{FailsBy};
ghost use Rattle.mg_chunks.specs.Found.{HasFirst};
ghost use Rattle.mg_chunks.specs.Sizes.{chunk_count_of};
ghost use Rattle.mg_records.specs.FileRecords.{file_record};
ghost use Rattle.mg_gridfs.specs.Buckets.{bucket_of};
ghost use Rattle.mg_gridfs.specs.Commands.{IsRequest, found_lines};
ghost use Rattle.mg_gridfs.specs.Downloaded.{OpeningKnows};
ghost use Rattle.mg_gridfs.specs.Downloads.{download_ticket};
ghost use Rattle.mg_gridfs.specs.DownloadView.{IsBeginning, IsDownload, IsSoundBehind, KeepsAim, KeepsWanted, download_of, finding_at, finding_of, looking_of, opened_as, ticket_in};
ghost use Rattle.mg_gridfs.specs.Findings.{BeginsFind, BreaksFirst, BreaksRecord, FindsOn, GivesFirst, HearsRecord, IsListed, IsListing, IsNewFinding, IsNotFound, IsSoundFinding, ListsOn, Opens, OpensFile, ReadsRecord, finding_ticket, ticket_by};
ghost use Rattle.mg_gridfs.specs.ReadCauses.{OpeningCaused};

use crate::bucket::GridFsBucket;
use crate::check::opened;
use crate::commands::{find_chunks, find_record};
use crate::download::GridFsDownloadStream;
use mg_bson::{Bson, RawArray, RawDocument, RawDocumentBuf};
use mg_chunks::{broken, first_document};
use mg_cursor::{NewCursor, RawBatchCursor};
use mg_exec::Exec;
use mg_link::{Action, Error, ErrorKind, GridFsErrorKind, GridFsFileIdentifier, Link, Step, plain};
use mg_ops::{GetMoreResult, doc_slices, read_more};
use mg_records::{FilesCollectionDocument, ReadRaw};
use std::alloc::Global;

// How far an opening has come.
#[derive(Drop)]
pub(crate) enum Opening {
    // Memory ran out as the bucket was copied.
    Nowhere,
    Begin(GridFsBucket),
    // The record is asked for.
    Record(GridFsBucket, Exec),
    // The chunks of the file with this record, which are to be so many.
    Chunks(GridFsBucket, Exec, FilesCollectionDocument, u32),
}

/// A download that is to be opened: it asks for the record of the file, and then, unless the file has no bytes, for its chunks.
///
///     let mut opening = bucket.open_download_stream(id);
///     while let Step::Pending(next) = opening.poll(&mut link) { opening = next; }
pub struct OpenDownloadStream {
    alloc: Global,
    id: Bson,
    stage: Opening,
}

// By hand, so that letting one go is one call.
impl Drop for OpenDownloadStream {
    fn drop(self) {
        let OpenDownloadStream {
            alloc: _,
            id: _,
            stage: _,
        } = self;
    }
}

// Whose file is to be found.
struct Wanted {
    alloc: Global,
    bucket: GridFsBucket,
    id: Bson,
}

// By hand, so that letting one go is one call.
impl Drop for Wanted {
    fn drop(self) {
        let Wanted {
            alloc: _,
            bucket: _,
            id: _,
        } = self;
    }
}

// The first document of a batch as a record, where the batch has one.
fn record_of(
    alloc: Global,
    first: Option<RawDocument<'_>>,
) -> Result<Option<FilesCollectionDocument>, Error>
    ensures ok { IfOk result (λ f. (batch : Items) → HasFirst batch (option_map fields first.entry) → GivesFirst batch (option_map file_record f)) }
    ensures err { IfErr result (λ e. (batch : Items) → HasFirst batch (option_map fields first.entry) → FailsBy (BreaksFirst batch) e) }
{
    match first {
        Some(document) => match FilesCollectionDocument::read_raw(alloc, document) {
            Ok(file) => Ok(Some(file)),
            Err(error) => Err(error),
        },
        None => Ok(None),
    }
}

// The first record of a batch.
fn first_of(alloc: Global, batch: &RawArray<'_>) -> Result<Option<FilesCollectionDocument>, Error>
    ensures ok { IfOk result (λ f. GivesFirst (items batch.now) (option_map file_record f)) }
    ensures err { IfErr result (λ e. FailsBy (BreaksFirst (items batch.now)) e) }
{
    match first_document(batch) {
        Ok(first) => record_of(alloc, first),
        Err(error) => Err(error),
    }
}

// That of the batch of a reply.
fn first_record(
    alloc: Global,
    reply: &RawDocument<'_>,
) -> Result<Option<FilesCollectionDocument>, Error>
    ensures ok { IfOk result (λ f. (said : Cursor) → cursor_of (fields reply.now) ≡ Ok said → GivesFirst said.batch (option_map file_record f)) }
    ensures err { IfErr result (λ e. (said : Cursor) → cursor_of (fields reply.now) ≡ Ok said → FailsBy (BreaksFirst said.batch) e) }
{
    match doc_slices(reply) {
        Ok(batch) => first_of(alloc, &batch),
        Err(how) => Err(broken(how)),
    }
}

// That of a reply that was read.
fn gave_record(alloc: Global, gave: GetMoreResult) -> Result<Option<FilesCollectionDocument>, Error>
    ensures ok { IfOk result (λ f. (reply : List ℕ) → Gave reply gave → ReadsRecord reply (option_map file_record f)) }
    ensures err { IfErr result (λ e. (reply : List ℕ) → Gave reply gave → FailsBy (BreaksRecord reply) e) }
{
    first_record(alloc, &gave.raw_reply.as_raw())
}

// The record that a reply gives, where it gives one.
fn read_record(
    alloc: Global,
    reply: RawDocumentBuf,
) -> Result<Option<FilesCollectionDocument>, Error>
    ensures ok { IfOk result (λ f. ReadsRecord reply (option_map file_record f)) }
    ensures err { IfErr result (λ e. FailsBy (BreaksRecord reply) e) }
{
    match read_more(alloc, reply) {
        Ok(gave) => gave_record(alloc, gave),
        Err(error) => Err(error),
    }
}

// There is no file with this id.
fn not_found(id: Bson) -> Error
    ensures { IsNotFound (tree id) result }
{
    let identifier = GridFsFileIdentifier::Id(id);
    plain(ErrorKind::GridFs(GridFsErrorKind::FileNotFound(identifier)))
}

// The reply to the list of chunks.
fn hear_chunks(
    alloc: Global,
    file: FilesCollectionDocument,
    count: u32,
    reply: RawDocumentBuf,
) -> Result<GridFsDownloadStream, Error>
    ensures ok { IfOk result (λ s. IsListed (file_record file) count reply (download_of s)) }
    ensures err { IfErr result (λ e. FailsBy (BreaksIn (fields reply)) e) }
    ensures sound { IfOk result (λ s. chunk_count_of file.length file.chunk_size_bytes ≡ Ok count → IsDownload s × (download_ticket (download_of s) ≡ None)) }
{
    match read_more(alloc, reply) {
        Ok(gave) => {
            let cursor = RawBatchCursor::new_cursor(alloc, opened(gave));
            Ok(GridFsDownloadStream::new(alloc, file, count, cursor))
        }
        Err(error) => Err(error),
    }
}

// Where an opening in this bucket begins.
fn beginning(bucket: &GridFsBucket) -> Opening
    ensures { IsBeginning (bucket_of bucket.now) result }
{
    match bucket.clone() {
        Ok(copy) => Opening::Begin(copy),
        Err(_) => Opening::Nowhere,
    }
}

impl Wanted {
    // The record is asked for.
    fn finding(self, exec: Exec) -> OpenDownloadStream
        ensures { result ≡ record { alloc = self.alloc; id = self.id; stage = Opening.Record self.bucket exec } }
    {
        let Wanted { alloc, bucket, id } = self;
        OpenDownloadStream {
            alloc,
            id,
            stage: Opening::Record(bucket, exec),
        }
    }

    // The chunks are asked for.
    fn listing(self, exec: Exec, file: FilesCollectionDocument, count: u32) -> OpenDownloadStream
        ensures { result ≡ record { alloc = self.alloc; id = self.id; stage = Opening.Chunks self.bucket exec file count } }
    {
        let Wanted { alloc, bucket, id } = self;
        OpenDownloadStream {
            alloc,
            id,
            stage: Opening::Chunks(bucket, exec, file, count),
        }
    }

    // Asks for the record.
    fn begin<L: Link>(self, link: &mut L) -> Step<OpenDownloadStream, GridFsDownloadStream>
        // The tickets of others, the counts, the wire version and the promptness of the link.
        ensures keeps { LinkKeeps (moment (L.awaited link.old) (L.log link.old) (L.faults link.old) (L.pends link.old) (L.wire link.old) (L.prompt link.old))
            (moment (L.awaited link.new) (L.log link.new) (L.faults link.new) (L.pends link.new) (L.wire link.new) (L.prompt link.new))
            (None) (ticket_after ticket_in result) (step_ending result) }
        ensures begins { BeginsFind (L.awaited link.old) (L.awaited link.new) (L.log link.old) (L.log link.new) (L.wire link.old) (bucket_of self.bucket) (tree self.id) (opened_as result) }
        ensures same { KeepsWanted (bucket_of self.bucket) (tree self.id) result }
        ensures sound { IsSoundBehind result }
    {
        match find_record(&self.bucket, &self.id, link.wire_version()) {
            Ok(exec) => self.find(link, exec),
            Err(error) => Step::Failed(error),
        }
    }

    // Waits for the record.
    fn find<L: Link>(
        self,
        link: &mut L,
        exec: Exec,
    ) -> Step<OpenDownloadStream, GridFsDownloadStream>
        requires { IsOut (L.awaited link.old) (ticket_of exec) }
        // The tickets of others, the counts, the wire version and the promptness of the link.
        ensures keeps { LinkKeeps (moment (L.awaited link.old) (L.log link.old) (L.faults link.old) (L.pends link.old) (L.wire link.old) (L.prompt link.old))
            (moment (L.awaited link.new) (L.log link.new) (L.faults link.new) (L.pends link.new) (L.wire link.new) (L.prompt link.new))
            (ticket_of exec) (ticket_after ticket_in result) (step_ending result) }
        ensures finds { FindsOn (L.awaited link.old) (L.awaited link.new) (L.log link.old) (L.log link.new) (L.wire link.old) (bucket_of self.bucket) (tree self.id) exec (opened_as result) }
        ensures same { KeepsWanted (bucket_of self.bucket) (tree self.id) result }
        ensures sound { IsRequest true (found_lines (bucket_of self.bucket) (tree self.id)) exec → IsSoundBehind result }
    {
        match exec.poll(link) {
            Step::Pending(exec) => Step::Pending(self.finding(exec)),
            Step::Done(reply) => self.hear(link, reply),
            Step::Failed(error) => Step::Failed(error),
        }
    }

    // The reply to the find of the record.
    fn hear<L: Link>(
        self,
        link: &mut L,
        reply: RawDocumentBuf,
    ) -> Step<OpenDownloadStream, GridFsDownloadStream>
        // The tickets of others, the counts, the wire version and the promptness of the link.
        ensures keeps { LinkKeeps (moment (L.awaited link.old) (L.log link.old) (L.faults link.old) (L.pends link.old) (L.wire link.old) (L.prompt link.old))
            (moment (L.awaited link.new) (L.log link.new) (L.faults link.new) (L.pends link.new) (L.wire link.new) (L.prompt link.new))
            (None) (ticket_after ticket_in result) (step_ending result) }
        ensures hears { HearsRecord (L.awaited link.old) (L.awaited link.new) (L.log link.old) (L.log link.new) (L.wire link.old) (bucket_of self.bucket) (tree self.id) reply (opened_as result) }
        ensures same { KeepsWanted (bucket_of self.bucket) (tree self.id) result }
        ensures sound { IsSoundBehind result }
    {
        match read_record(self.alloc, reply) {
            Ok(found) => self.turn(link, found),
            Err(error) => Step::Failed(error),
        }
    }

    // The record that the reply gave, if it gave one.
    fn turn<L: Link>(
        self,
        link: &mut L,
        found: Option<FilesCollectionDocument>,
    ) -> Step<OpenDownloadStream, GridFsDownloadStream>
        // The tickets of others, the counts, the wire version and the promptness of the link.
        ensures keeps { LinkKeeps (moment (L.awaited link.old) (L.log link.old) (L.faults link.old) (L.pends link.old) (L.wire link.old) (L.prompt link.old))
            (moment (L.awaited link.new) (L.log link.new) (L.faults link.new) (L.pends link.new) (L.wire link.new) (L.prompt link.new))
            (None) (ticket_after ticket_in result) (step_ending result) }
        ensures hears { (reply : List ℕ) → ReadsRecord reply (option_map file_record found)
            → HearsRecord (L.awaited link.old) (L.awaited link.new) (L.log link.old) (L.log link.new) (L.wire link.old) (bucket_of self.bucket) (tree self.id) reply (opened_as result) }
        ensures same { KeepsWanted (bucket_of self.bucket) (tree self.id) result }
        ensures sound { IsSoundBehind result }
    {
        match found {
            Some(file) => self.received(link, file),
            None => Step::Failed(self.missing()),
        }
    }

    // There is no such file.
    fn missing(self) -> Error
        ensures { IsNotFound (tree self.id) result }
    {
        let Wanted {
            alloc: _,
            bucket: _,
            id,
        } = self;
        not_found(id)
    }

    // The record was received.
    fn received<L: Link>(
        self,
        link: &mut L,
        file: FilesCollectionDocument,
    ) -> Step<OpenDownloadStream, GridFsDownloadStream>
        // The tickets of others, the counts, the wire version and the promptness of the link.
        ensures keeps { LinkKeeps (moment (L.awaited link.old) (L.log link.old) (L.faults link.old) (L.pends link.old) (L.wire link.old) (L.prompt link.old))
            (moment (L.awaited link.new) (L.log link.new) (L.faults link.new) (L.pends link.new) (L.wire link.new) (L.prompt link.new))
            (None) (ticket_after ticket_in result) (step_ending result) }
        ensures opens { OpensFile (L.awaited link.old) (L.awaited link.new) (L.log link.old) (L.log link.new) (L.wire link.old) (bucket_of self.bucket) (file_record file) (opened_as result) }
        ensures same { KeepsWanted (bucket_of self.bucket) (tree self.id) result }
        ensures sound { IsSoundBehind result }
    {
        match file.n() {
            Ok(count) => self.ask(link, file, count),
            Err(error) => Step::Failed(error),
        }
    }

    // Asks for the chunks of the file, unless it has none.
    fn ask<L: Link>(
        self,
        link: &mut L,
        file: FilesCollectionDocument,
        count: u32,
    ) -> Step<OpenDownloadStream, GridFsDownloadStream>
        requires { chunk_count_of file.length file.chunk_size_bytes ≡ Ok count }
        // The tickets of others, the counts, the wire version and the promptness of the link.
        ensures keeps { LinkKeeps (moment (L.awaited link.old) (L.log link.old) (L.faults link.old) (L.pends link.old) (L.wire link.old) (L.prompt link.old))
            (moment (L.awaited link.new) (L.log link.new) (L.faults link.new) (L.pends link.new) (L.wire link.new) (L.prompt link.new))
            (None) (ticket_after ticket_in result) (step_ending result) }
        ensures opens { OpensFile (L.awaited link.old) (L.awaited link.new) (L.log link.old) (L.log link.new) (L.wire link.old) (bucket_of self.bucket) (file_record file) (opened_as result) }
        ensures same { KeepsWanted (bucket_of self.bucket) (tree self.id) result }
        ensures sound { IsSoundBehind result }
    {
        if file.length == 0 {
            return Step::Done(GridFsDownloadStream::empty(self.alloc, file));
        }
        match find_chunks(&self.bucket, &file.id, link.wire_version()) {
            Ok(exec) => self.list(link, exec, file, count),
            Err(error) => Step::Failed(error),
        }
    }

    // Waits for the list of chunks.
    fn list<L: Link>(
        self,
        link: &mut L,
        exec: Exec,
        file: FilesCollectionDocument,
        count: u32,
    ) -> Step<OpenDownloadStream, GridFsDownloadStream>
        requires { IsOut (L.awaited link.old) (ticket_of exec) }
        // The tickets of others, the counts, the wire version and the promptness of the link.
        ensures keeps { LinkKeeps (moment (L.awaited link.old) (L.log link.old) (L.faults link.old) (L.pends link.old) (L.wire link.old) (L.prompt link.old))
            (moment (L.awaited link.new) (L.log link.new) (L.faults link.new) (L.pends link.new) (L.wire link.new) (L.prompt link.new))
            (ticket_of exec) (ticket_after ticket_in result) (step_ending result) }
        ensures lists { ListsOn (L.awaited link.old) (L.awaited link.new) (L.log link.old) (L.log link.new) (L.wire link.old) (file_record file) count exec (opened_as result) }
        ensures same { KeepsWanted (bucket_of self.bucket) (tree self.id) result }
        ensures sound { IsListing (bucket_of self.bucket) (file_record file) count exec → IsSoundBehind result }
    {
        match exec.poll(link) {
            Step::Pending(exec) => Step::Pending(self.listing(exec, file, count)),
            Step::Done(reply) => match self.hear_list(file, count, reply) {
                Ok(download) => Step::Done(download),
                Err(error) => Step::Failed(error),
            },
            Step::Failed(error) => Step::Failed(error),
        }
    }

    // The reply to its list of chunks.
    fn hear_list(
        self,
        file: FilesCollectionDocument,
        count: u32,
        reply: RawDocumentBuf,
    ) -> Result<GridFsDownloadStream, Error>
        ensures ok { IfOk result (λ s. IsListed (file_record file) count reply (download_of s)) }
        ensures err { IfErr result (λ e. FailsBy (BreaksIn (fields reply)) e) }
        ensures sound { IfOk result (λ s. chunk_count_of file.length file.chunk_size_bytes ≡ Ok count → IsDownload s × (download_ticket (download_of s) ≡ None)) }
    {
        hear_chunks(self.alloc, file, count, reply)
    }
}

// Goes on from where an opening stands.
fn go_on<L: Link>(
    link: &mut L,
    alloc: Global,
    id: Bson,
    stage: Opening,
) -> Step<OpenDownloadStream, GridFsDownloadStream>
    requires { IsOut (L.awaited link.old) (ticket_by (looking_of stage)) }
    // The tickets of others, the counts, the wire version and the promptness of the link.
    ensures keeps { LinkKeeps (moment (L.awaited link.old) (L.log link.old) (L.faults link.old) (L.pends link.old) (L.wire link.old) (L.prompt link.old))
        (moment (L.awaited link.new) (L.log link.new) (L.faults link.new) (L.pends link.new) (L.wire link.new) (L.prompt link.new))
        (ticket_by (looking_of stage)) (ticket_after ticket_in result) (step_ending result) }
    ensures opens { Opens (L.awaited link.old) (L.awaited link.new) (L.log link.old) (L.log link.new) (L.wire link.old) (finding_at id stage) (opened_as result) }
    ensures same { KeepsAim (finding_at id stage) result }
    ensures sound { IsSoundFinding (finding_at id stage) → IsSoundBehind result }
{
    match stage {
        Opening::Nowhere => Step::Failed(plain(ErrorKind::OutOfMemory)),
        Opening::Begin(bucket) => Wanted { alloc, bucket, id }.begin(link),
        Opening::Record(bucket, exec) => Wanted { alloc, bucket, id }.find(link, exec),
        Opening::Chunks(bucket, exec, file, count) => {
            Wanted { alloc, bucket, id }.list(link, exec, file, count)
        }
    }
}

impl OpenDownloadStream {
    pub(crate) fn new(alloc: Global, bucket: &GridFsBucket, id: Bson) -> OpenDownloadStream
        ensures new { IsNewFinding (bucket_of bucket.now) (tree id) (finding_of result) }
        ensures sound { IsSoundFinding (finding_of result) }
    {
        OpenDownloadStream {
            alloc,
            id,
            stage: beginning(bucket),
        }
    }

    /// The number of the ticket that it holds, while it waits for a reply.
    pub fn ticket_number(&self) -> Option<u64>
        ensures { result ≡ finding_ticket (finding_of self.now) }
    {
        match &self.stage {
            Opening::Nowhere => None,
            Opening::Begin(_) => None,
            Opening::Record(_, exec) => exec.ticket_number(),
            Opening::Chunks(_, exec, _, _) => exec.ticket_number(),
        }
    }
}

impl Action for OpenDownloadStream {
    type Output = GridFsDownloadStream;

    ghost use Rattle.mg_gridfs.specs.DownloadView.{IsSoundBehind, finding_of, opened_as, ticket_in};
    ghost use Rattle.mg_gridfs.specs.Findings.{IsSoundFinding, Opens};
    ghost use Rattle.mg_gridfs.specs.ReadCauses.{OpeningCaused};

    ghost ticket = { ticket_in };

    ghost does = { λ old new log log' wire s r. Opens old new log log' wire (finding_of s) (opened_as r) × (IsSoundFinding (finding_of s) → IsSoundBehind r)
        × (IsSoundFinding (finding_of s) → OpeningCaused old new log log' wire (finding_of s) (opened_as r)) };

    fn poll<L: Link>(self, link: &mut L) -> Step<OpenDownloadStream, GridFsDownloadStream>
        requires { IsOut (L.awaited link.old) (ticket_in self) }
        ensures tickets { Tickets (L.awaited link.old) (L.awaited link.new) (ticket_in self) (ticket_after ticket_in result) }
        ensures pended { Pended ticket_in result (L.pends link.old) (L.pends link.new) }
        ensures lost { FailsByFault result (L.faults link.old) (L.faults link.new) }
        ensures prompt { L.prompt link.old → EndsAtOnce result }
        ensures later { Later (L.faults link.old) (L.faults link.new) (L.pends link.old) (L.pends link.new)
            (L.wire link.old) (L.wire link.new) (L.prompt link.old) (L.prompt link.new) }
        // Which commands it sent, and what came of them.
        ensures opens { Opens (L.awaited link.old) (L.awaited link.new) (L.log link.old) (L.log link.new) (L.wire link.old) (finding_of self) (opened_as result) }
        ensures same { KeepsAim (finding_of self) result }
        // What is on its way is its own, and the download is sound.
        ensures sound { IsSoundFinding (finding_of self) → IsSoundBehind result }
        // What in the log is the cause of the answer, over all polls.
        ensures caused { IsSoundFinding (finding_of self) → OpeningCaused (L.awaited link.old) (L.awaited link.new) (L.log link.old) (L.log link.new) (L.wire link.old) (finding_of self) (opened_as result) }
        // Over an honest link: which record and which chunks are read.
        ensures known { IsSoundFinding (finding_of self) → (at : Bucket) → OpeningKnows (L.awaited link.old) (L.awaited link.new) (L.log link.old) (L.log link.new) at (finding_of self) (opened_as result) }
    {
        let OpenDownloadStream { alloc, id, stage } = self;
        go_on(link, alloc, id, stage)
    }
}
