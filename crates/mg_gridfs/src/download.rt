//! Downloads.
ghost use Rattle.std.specs.Prelude.{◌≡◌, ◌↔◌, ◌<◌, ◌≤◌, ◌^◌, ◌++◌, [], IfErr, IfOk, IsTrue, OnErr, OnOk, Ok, ℕ, List, length, None, Some};
ghost use Rattle.mg_link.specs.Acts.{IsOut};
ghost use Rattle.mg_link.specs.Errors.{plain};
ghost use Rattle.mg_server.specs.Files.{Bucket};
ghost use Rattle.mg_link.specs.Moment.{LinkKeeps, moment, step_ending};
ghost use Rattle.mg_link.specs.declared.error.ErrorKind.TheVariants as kinds;
ghost use Rattle.mg_cursor.specs.Batches.{BreaksBatch, documents_of};
ghost use Rattle.mg_cursor.specs.Client.{ClientCursor, HasNext, client_ticket};
ghost use Rattle.mg_cursor.specs.View.{behind_of, current_of};
ghost use Rattle.mg_chunks.specs.Sizes.{chunk_count_of};
ghost use Rattle.mg_records.specs.FileRecords.{file_record};
ghost use Rattle.mg_gridfs.specs.Downloaded.{ReadKnows};
ghost use Rattle.mg_gridfs.specs.Downloads.{IsAtRest, IsFree, IsSoundDownload, download_ticket, empty_download, idle, most_empty, new_download, reads, spoiled_at};
ghost use Rattle.mg_gridfs.specs.DownloadView.{HoldsBytes, IsDownload, IsLater, bytes_in, download_of, hand_of};
ghost use Rattle.mg_gridfs.specs.Fetching.{CountsEmpty, Differs, FetchTurns, FetchesOn, GivesAs, HasChunks, KeepsBatch, LooksAt, PassesOn, ReadsAs, TakesAs, TurnFalls, fetching_of, fetching_ticket, turn_ending, turn_ticket};
ghost use Rattle.mg_gridfs.specs.ReadCauses.{ReadCaused};
ghost use Rattle.mg_gridfs.specs.Reads.{Fills, FillsFront, IsWithin, LeavesRead, ReadsNothing, read_ending};

use crate::hand::Hand;
use crate::polls::ReadPoll;
use mg_chunks::{FileSizes, ReadPlace, has_all_chunks, judge_all, missing_chunk};
use mg_cursor::{BatchBuffer, NextPoll, RawBatch, RawBatchCursor};
use mg_link::{Error, ErrorKind, Link, Step, plain};
use mg_records::FilesCollectionDocument;
use std::alloc::Global;
use std::mem;

/// The most empty replies in a row that a read takes.
const MOST_EMPTY: u32 = 1000;

// A read that goes on.
#[derive(Drop)]
pub(crate) struct Reading {
    pub(crate) cursor: RawBatchCursor,
    // How many bytes are missing of those that its first poll had room for.
    pub(crate) missing: usize,
    // How many replies were empty, since one was not.
    pub(crate) empty: u32,
}

// What a download is doing between two polls.
#[derive(Drop)]
pub(crate) enum State {
    Idle(RawBatchCursor),
    Reading(Reading),
    // All bytes were given.
    Ended,
    // A read failed.
    Failed,
}

// What one more batch comes to.
#[derive(Drop)]
enum Turn {
    Goes(Reading),
    Waits(Reading),
    Ends(RawBatchCursor),
    Fails(Error),
}

/// A file that is read. Its chunks are asked for as they are needed, and a byte is copied once, from the reply that it came in into the
/// room that it is read into.
///
/// Each chunk is looked at as it arrives: it is to have the number and the length that the record of the file says, and at the end
/// they are counted. Behind an error a download reads nothing more. One that is dropped sends nothing.
///
///     loop {
///         match download.poll_read(&mut link, &mut room) {
///             ReadPoll::Pending => {}
///             ReadPoll::Read(0) => break,
///             ReadPoll::Read(n) => bytes.extend_from_slice(&room[..n])?,
///             ReadPoll::Failed(error) => return Err(error),
///         }
///     }
pub struct GridFsDownloadStream {
    alloc: Global,
    file: FilesCollectionDocument,
    // How many chunks it is to have, and how many were received.
    count: u32,
    taken: u32,
    hand: Hand,
    state: State,
}

// By hand, so that letting one go is one call.
impl Drop for GridFsDownloadStream {
    fn drop(self) {
        let GridFsDownloadStream {
            alloc: _,
            file: _,
            count: _,
            taken: _,
            hand: _,
            state: _,
        } = self;
    }
}

impl GridFsDownloadStream {
    // A file whose chunks, so many, are listed by this cursor.
    pub(crate) fn new(
        alloc: Global,
        file: FilesCollectionDocument,
        count: u32,
        cursor: RawBatchCursor,
    ) -> GridFsDownloadStream
        ensures started { download_of result ≡ new_download (file_record file) count cursor }
        ensures sound { chunk_count_of file.length file.chunk_size_bytes ≡ Ok count → IsFree cursor → IsAtRest cursor.doing → IsDownload result }
    {
        let hand = Hand::new(alloc);
        GridFsDownloadStream {
            alloc,
            file,
            count,
            taken: 0,
            hand,
            state: State::Idle(cursor),
        }
    }

    // A file without bytes.
    pub(crate) fn empty(alloc: Global, file: FilesCollectionDocument) -> GridFsDownloadStream
        requires { chunk_count_of file.length file.chunk_size_bytes ≡ Ok 0 }
        ensures started { download_of result ≡ empty_download (file_record file) }
        ensures sound { IsDownload result }
    {
        let hand = Hand::new(alloc);
        GridFsDownloadStream {
            alloc,
            file,
            count: 0,
            taken: 0,
            hand,
            state: State::Ended,
        }
    }

    /// The record of the file.
    pub fn file(&self) -> &FilesCollectionDocument
        ensures { file_record result.now ≡ (download_of self.now).file }
    {
        &self.file
    }

    /// The number of the ticket that it holds, while it waits for a reply.
    pub fn ticket_number(&self) -> Option<u64>
        ensures { result ≡ download_ticket (download_of self.now) }
    {
        match &self.state {
            State::Idle(cursor) => cursor.ticket_number(),
            State::Reading(reading) => reading.cursor.ticket_number(),
            State::Ended => None,
            State::Failed => None,
        }
    }

    /// Reads bytes of the file into the room, and says how many. Where bytes are in hand, these are given, and nothing is sent. Else
    /// batches of chunks are taken until as many bytes are in hand as there is room for, or until the cursor ends. A read goes on
    /// over several polls while a reply pends, and awaits as many bytes as its first poll had room for.
    ///
    /// It reads 0 bytes behind the end of the file, behind an error, and into no room.
    ///
    /// It fails where a batch cannot be had ([`RawBatchCursor::poll_next`] says why), with what is malformed in a chunk, with
    /// [`GridFsErrorKind::MissingChunk`](mg_link::GridFsErrorKind::MissingChunk) where a chunk has another number than the next, with
    /// [`GridFsErrorKind::WrongSizeChunk`](mg_link::GridFsErrorKind::WrongSizeChunk) where it has another length than it is to have,
    /// and with [`ErrorKind::EmptyBatches`] at the 1,000th empty reply in a row. Where fewer or more chunks came than the file is to
    /// have, the read of the last bytes fails with the missing chunk of their count. Then the download has ended.
    pub fn poll_read<L: Link>(&mut self, link: &mut L, room: &mut [u8]) -> ReadPoll
        requires held { IsOut (L.awaited link.old) (download_ticket (download_of self.old)) }
        requires sound { IsDownload self.old }
        // The tickets of others, the counts, the wire version and the promptness of the link.
        ensures keeps { LinkKeeps (moment (L.awaited link.old) (L.log link.old) (L.faults link.old) (L.pends link.old) (L.wire link.old) (L.prompt link.old))
            (moment (L.awaited link.new) (L.log link.new) (L.faults link.new) (L.pends link.new) (L.wire link.new) (L.prompt link.new))
            (download_ticket (download_of self.old)) (download_ticket (download_of self.new)) (read_ending result) }
        ensures sound { IsDownload self.new }
        // Which batches it took, what it gave, and how the download stands behind that.
        ensures reads { ReadsAs (L.awaited link.old) (L.awaited link.new) (L.log link.old) (L.log link.new) (L.wire link.old) room.old room.new (download_of self.old) (download_of self.new) result }
        ensures within { IsWithin (length room.old) result }
        ensures same_room { length room.new ≡ length room.old }
        // What stands behind an error.
        ensures leaves { LeavesRead (download_of self.new) result }
        // No byte is read only where all were given, behind an error, or into no room.
        ensures nothing { ReadsNothing (length room.old) (download_of self.old) (download_of self.new) result }
        // What in the log is the cause of the answer, over all polls of a read.
        ensures caused { ReadCaused (L.awaited link.old) (L.awaited link.new) (L.log link.old) (L.log link.new) (L.wire link.old) (download_of self.old) (download_of self.new) result }
        // Over an honest link: what was read is the front of the bytes of the file, and at its end all of them.
        ensures known { (at : Bucket) → ReadKnows (L.awaited link.old) (L.awaited link.new) (L.log link.old) (L.log link.new) at (download_of self.old) (download_of self.new) room.new result }
    {
        self.read(link, room)
    }

    // The same: which batches it took, and what it gave.
    fn read<L: Link>(&mut self, link: &mut L, room: &mut [u8]) -> ReadPoll
        requires held { IsOut (L.awaited link.old) (download_ticket (download_of self.old)) }
        requires sound { IsDownload self.old }
        // The tickets of others, the counts, the wire version and the promptness of the link.
        ensures keeps { LinkKeeps (moment (L.awaited link.old) (L.log link.old) (L.faults link.old) (L.pends link.old) (L.wire link.old) (L.prompt link.old))
            (moment (L.awaited link.new) (L.log link.new) (L.faults link.new) (L.pends link.new) (L.wire link.new) (L.prompt link.new))
            (download_ticket (download_of self.old)) (download_ticket (download_of self.new)) (read_ending result) }
        ensures reads { ReadsAs (L.awaited link.old) (L.awaited link.new) (L.log link.old) (L.log link.new) (L.wire link.old) room.old room.new (download_of self.old) (download_of self.new) result }
        ensures holds { HoldsBytes self.new.hand }
    {
        let length = room.len();
        if length == 0 {
            return ReadPoll::Read(0);
        }
        match mem::replace(&mut self.state, State::Failed) {
            State::Idle(cursor) => self.begin(link, cursor, room),
            State::Reading(reading) => self.go_on(link, reading, room),
            State::Ended => {
                self.enter(State::Ended);
                ReadPoll::Read(0)
            }
            State::Failed => ReadPoll::Read(0),
        }
    }

    // Puts a state in its place.
    fn enter(&mut self, state: State)
        ensures { self.new ≡ record self.old { state = state } }
    {
        drop(mem::replace(&mut self.state, state));
    }

    // Ends behind an error, and lets go of what is in hand.
    fn spoil(&mut self)
        ensures spoiled { download_of self.new ≡ spoiled_at (download_of self.old) }
        ensures holds { HoldsBytes self.new.hand }
    {
        let none = Hand::new(self.alloc);
        drop(mem::replace(&mut self.hand, none));
        self.enter(State::Failed);
    }

    // A new read.
    fn begin<L: Link>(&mut self, link: &mut L, cursor: RawBatchCursor, room: &mut [u8]) -> ReadPoll
        requires sound { IsSoundDownload (fetching_of self.old (idle cursor)) }
        requires holds { HoldsBytes self.old.hand }
        requires some { 0 < length room.old }
        // The tickets of others, the counts, the wire version and the promptness of the link.
        ensures keeps { LinkKeeps (moment (L.awaited link.old) (L.log link.old) (L.faults link.old) (L.pends link.old) (L.wire link.old) (L.prompt link.old))
            (moment (L.awaited link.new) (L.log link.new) (L.faults link.new) (L.pends link.new) (L.wire link.new) (L.prompt link.new))
            (None) (download_ticket (download_of self.new)) (read_ending result) }
        ensures reads { ReadsAs (L.awaited link.old) (L.awaited link.new) (L.log link.old) (L.log link.new) (L.wire link.old) room.old room.new (fetching_of self.old (idle cursor)) (download_of self.new) result }
        ensures holds { HoldsBytes self.new.hand }
    {
        if !self.hand.is_empty() {
            return self.give(cursor, room);
        }
        let missing = room.len();
        let reading = Reading {
            cursor,
            missing,
            empty: 0,
        };
        self.go_on(link, reading, room)
    }

    // Goes on with a read.
    fn go_on<L: Link>(&mut self, link: &mut L, reading: Reading, room: &mut [u8]) -> ReadPoll
        requires held { IsOut (L.awaited link.old) (client_ticket reading.cursor) }
        requires sound { IsSoundDownload (fetching_of self.old (reads reading.cursor reading.missing reading.empty)) }
        requires holds { HoldsBytes self.old.hand }
        requires some { 0 < length room.old }
        // The tickets of others, the counts, the wire version and the promptness of the link.
        ensures keeps { LinkKeeps (moment (L.awaited link.old) (L.log link.old) (L.faults link.old) (L.pends link.old) (L.wire link.old) (L.prompt link.old))
            (moment (L.awaited link.new) (L.log link.new) (L.faults link.new) (L.pends link.new) (L.wire link.new) (L.prompt link.new))
            (client_ticket reading.cursor) (download_ticket (download_of self.new)) (read_ending result) }
        ensures fills { (given : List ℕ) × Fills (L.awaited link.old) (L.awaited link.new) (L.log link.old) (L.log link.new) (L.wire link.old) (length room.old) (fetching_of self.old (reads reading.cursor reading.missing reading.empty)) (download_of self.new) given result
            × FillsFront room.old room.new given result }
        ensures holds { HoldsBytes self.new.hand }
    {
        match self.fetch(link, reading) {
            Step::Pending(reading) => {
                self.enter(State::Reading(reading));
                ReadPoll::Pending
            }
            Step::Done(cursor) => self.give(cursor, room),
            Step::Failed(error) => {
                self.spoil();
                ReadPoll::Failed(error)
            }
        }
    }

    // Takes batches until as many bytes are in hand as were missing, or until the cursor ends.
    fn fetch<L: Link>(&mut self, link: &mut L, reading: Reading) -> Step<Reading, RawBatchCursor>
        requires held { IsOut (L.awaited link.old) (client_ticket reading.cursor) }
        requires sound { IsSoundDownload (fetching_of self.old (reads reading.cursor reading.missing reading.empty)) }
        requires holds { HoldsBytes self.old.hand }
        // The tickets of others, the counts, the wire version and the promptness of the link.
        ensures keeps { LinkKeeps (moment (L.awaited link.old) (L.log link.old) (L.faults link.old) (L.pends link.old) (L.wire link.old) (L.prompt link.old))
            (moment (L.awaited link.new) (L.log link.new) (L.faults link.new) (L.pends link.new) (L.wire link.new) (L.prompt link.new))
            (client_ticket reading.cursor) (fetching_ticket result) (step_ending result) }
        ensures fetches { FetchesOn (L.awaited link.old) (L.awaited link.new) (L.log link.old) (L.log link.new) (L.wire link.old) (fetching_of self.old (reads reading.cursor reading.missing reading.empty)) self.new result }
        ensures holds { HoldsBytes self.new.hand }
    {
        let mut reading = reading;
        'batches: loop {
            match self.turn(link, reading) {
                Turn::Goes(next) => reading = next,
                Turn::Waits(reading) => return Step::Pending(reading),
                Turn::Ends(cursor) => return Step::Done(cursor),
                Turn::Fails(error) => return Step::Failed(error),
            }
        }
    }

    // One more batch, where bytes are missing.
    fn turn<L: Link>(&mut self, link: &mut L, reading: Reading) -> Turn
        requires held { IsOut (L.awaited link.old) (client_ticket reading.cursor) }
        requires sound { IsSoundDownload (fetching_of self.old (reads reading.cursor reading.missing reading.empty)) }
        requires holds { HoldsBytes self.old.hand }
        // The tickets of others, the counts, the wire version and the promptness of the link.
        ensures keeps { LinkKeeps (moment (L.awaited link.old) (L.log link.old) (L.faults link.old) (L.pends link.old) (L.wire link.old) (L.prompt link.old))
            (moment (L.awaited link.new) (L.log link.new) (L.faults link.new) (L.pends link.new) (L.wire link.new) (L.prompt link.new))
            (client_ticket reading.cursor) (turn_ticket result) (turn_ending result) }
        ensures turns { FetchTurns (L.awaited link.old) (L.awaited link.new) (L.log link.old) (L.log link.new) (L.wire link.old) (fetching_of self.old (reads reading.cursor reading.missing reading.empty)) self.new result }
        ensures sound { (next : Reading) → result ≡ Turn.Goes next → IsSoundDownload (fetching_of self.new (reads next.cursor next.missing next.empty)) }
        ensures falls { TurnFalls reading.missing reading.empty result }
        ensures holds { HoldsBytes self.new.hand }
    {
        let Reading {
            cursor,
            missing,
            empty,
        } = reading;
        let mut cursor = cursor;
        if missing == 0 {
            return Turn::Ends(cursor);
        }
        match cursor.poll_next(link) {
            NextPoll::Pending => Turn::Waits(Reading {
                cursor,
                missing,
                empty,
            }),
            NextPoll::Batch(batch) => self.hear(cursor, missing, empty, batch),
            NextPoll::End => Turn::Ends(cursor),
            NextPoll::Failed(error) => Turn::Fails(error),
        }
    }

    // A batch came.
    fn hear(&mut self, cursor: RawBatchCursor, missing: usize, empty: u32, batch: RawBatch) -> Turn
        requires few { self.old.taken ≤ 2 ^ 31 }
        requires short { 0 < missing }
        requires room { empty < most_empty }
        requires holds { HoldsBytes self.old.hand }
        ensures takes { TakesAs cursor missing empty batch (fetching_of self.old (reads cursor missing empty)) self.new result }
        ensures falls { TurnFalls missing empty result }
        ensures holds { HoldsBytes self.new.hand }
    {
        match self.look(missing, &batch) {
            Ok(place) => self.sort(cursor, missing, empty, place, batch),
            Err(error) => Turn::Fails(error),
        }
    }

    // Its chunks are in order, up to this place.
    fn sort(
        &mut self,
        cursor: RawBatchCursor,
        missing: usize,
        empty: u32,
        place: ReadPlace,
        batch: RawBatch,
    ) -> Turn
        requires looks { LooksAt (download_of self.old) missing batch place }
        requires short { 0 < missing }
        requires room { empty < most_empty }
        requires holds { HoldsBytes self.old.hand }
        ensures takes { TakesAs cursor missing empty batch (fetching_of self.old (reads cursor missing empty)) self.new result }
        ensures falls { TurnFalls missing empty result }
        ensures holds { HoldsBytes self.new.hand }
    {
        if is_same(place.taken, self.taken) {
            return count_empty(cursor, missing, empty);
        }
        match self.keep(place.taken, batch) {
            Ok(()) => Turn::Goes(Reading {
                cursor,
                missing: place.missing,
                empty: 0,
            }),
            Err(error) => Turn::Fails(error),
        }
    }

    // Looks at the chunks of a batch.
    fn look(&self, missing: usize, batch: &RawBatch) -> Result<ReadPlace, Error>
        requires { self.now.taken ≤ 2 ^ 31 }
        ensures ok { IfOk result (λ p. LooksAt (download_of self.now) missing batch.now p) }
        ensures err { IfErr result (λ e. Differs (download_of self.now) batch.now e) }
    {
        match batch.doc_slices() {
            Ok(chunks) => {
                let place = ReadPlace {
                    taken: self.taken,
                    missing,
                };
                let sizes = FileSizes {
                    length: self.file.length,
                    chunk_size: self.file.chunk_size_bytes,
                };
                judge_all(&sizes, place, &chunks)
            }
            Err(error) => Err(error),
        }
    }

    // Takes a batch whose chunks are in order, up to this one.
    fn keep(&mut self, taken: u32, batch: RawBatch) -> Result<(), Error>
        requires holds { HoldsBytes self.old.hand }
        requires chunks { HasChunks batch }
        ensures ok { OnOk result (KeepsBatch self.old self.new taken batch) }
        ensures err { IfErr result (λ e. e ≡ plain kinds.OutOfMemory) }
        ensures same { OnErr result (download_of self.new ≡ download_of self.old) }
        ensures holds { HoldsBytes self.new.hand }
    {
        match filled(batch) {
            Ok(chunks) => self.store(taken, chunks),
            Err(error) => Err(error),
        }
    }

    // Puts chunks behind those in hand.
    fn store(&mut self, taken: u32, chunks: BatchBuffer) -> Result<(), Error>
        requires holds { HoldsBytes self.old.hand }
        requires later { IsLater chunks }
        ensures ok { OnOk result (download_of self.new ≡ record (download_of self.old) { taken = taken; ahead = hand_of self.old.hand ++ bytes_in chunks }) }
        ensures err { IfErr result (λ e. e ≡ plain kinds.OutOfMemory) }
        ensures same { OnErr result (download_of self.new ≡ download_of self.old) }
        ensures holds { HoldsBytes self.new.hand }
    {
        match self.hand.take(chunks) {
            Ok(()) => {
                self.taken = taken;
                Ok(())
            }
            Err(_) => Err(plain(ErrorKind::OutOfMemory)),
        }
    }

    // Gives bytes that are in hand. Where none is left, and the cursor has no next, the chunks are counted.
    fn give(&mut self, cursor: RawBatchCursor, room: &mut [u8]) -> ReadPoll
        requires { HoldsBytes self.old.hand }
        ensures gives { GivesAs cursor room.old room.new (download_of self.old) (download_of self.new) result }
        ensures holds { HoldsBytes self.new.hand }
    {
        let count = self.hand.give(room);
        if self.hand.is_empty() {
            return self.pass(cursor, count);
        }
        self.enter(State::Idle(cursor));
        ReadPoll::Read(count)
    }

    // So many bytes were given, and none is left in hand.
    fn pass(&mut self, cursor: RawBatchCursor, count: usize) -> ReadPoll
        requires holds { HoldsBytes self.old.hand }
        requires empty { hand_of self.old.hand ≡ [] }
        ensures passes { PassesOn cursor (download_of self.old) count (download_of self.new) result }
        ensures holds { HoldsBytes self.new.hand }
    {
        if cursor.has_next() {
            self.enter(State::Idle(cursor));
            return ReadPoll::Read(count);
        }
        self.end(count)
    }

    // The cursor has ended: the chunks are counted.
    fn end(&mut self, count: usize) -> ReadPoll
        requires holds { HoldsBytes self.old.hand }
        requires empty { hand_of self.old.hand ≡ [] }
        ensures ends { (cursor : ClientCursor) → (HasNext cursor → ⊥) → PassesOn cursor (download_of self.old) count (download_of self.new) result }
        ensures holds { HoldsBytes self.new.hand }
    {
        if has_all_chunks(self.taken, self.count) {
            self.enter(State::Ended);
            return ReadPoll::Read(count);
        }
        let taken = self.taken;
        self.spoil();
        ReadPoll::Failed(missing_chunk(taken))
    }
}

// Whether two numbers are the same.
fn is_same(a: u32, b: u32) -> bool
    ensures { IsTrue result ↔ (a ≡ b) }
{
    a == b
}

// The chunks of a batch, before the first of them.
fn filled(batch: RawBatch) -> Result<BatchBuffer, Error>
    ensures ok { IfOk result (λ b. (documents_of batch ≡ Some (behind_of b)) × (current_of b ≡ None)) }
    ensures err { IfErr result (λ e. BreaksBatch batch e) }
{
    let mut chunks = BatchBuffer::new();
    match chunks.fill(batch) {
        Ok(()) => Ok(chunks),
        Err(error) => Err(error),
    }
}

// One more empty reply, unless it is one too many.
fn count_empty(cursor: RawBatchCursor, missing: usize, empty: u32) -> Turn
    requires { empty < most_empty }
    ensures { CountsEmpty cursor missing empty result }
{
    let more = empty + 1;
    if more >= MOST_EMPTY {
        return Turn::Fails(plain(ErrorKind::EmptyBatches));
    }
    Turn::Goes(Reading {
        cursor,
        missing,
        empty: more,
    })
}
