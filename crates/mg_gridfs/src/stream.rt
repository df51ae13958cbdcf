//! Uploads.
ghost use Rattle.std.specs.Prelude.{◌≡◌, ℕ, None, Some, OnErr, OnOk, IfErr, IfOk, if◌then◌else◌, option_map};
ghost use Rattle.mg_bson.specs.View.{tree};
ghost use Rattle.mg_link.specs.Acts.{IsOut};
ghost use Rattle.mg_link.specs.Errors.{plain};
ghost use Rattle.mg_server.specs.Files.{Bucket};
ghost use Rattle.mg_link.specs.Moment.{LinkKeeps, moment};
ghost use Rattle.mg_link.specs.declared.error.ErrorKind.TheVariants as kinds;
ghost use Rattle.mg_ops.specs.Drawn.{AreLater};
ghost use Rattle.mg_gridfs.specs.Buckets.{IsSize};
ghost use Rattle.mg_gridfs.specs.Calls.{Abandons, Aborts, Closes, Drives, LeavesEnd, LeavesWrite, TakesFlush, Writes, abort_phase, close_phase, end_ending, ended_by, ending_beside, stream_closed, write_ending, write_in_progress, wrote_by};
ghost use Rattle.mg_gridfs.specs.Causes.{AbortCaused, CloseCaused, WriteCaused};
ghost use Rattle.mg_gridfs.specs.Cursors.{LeavesOthers};
ghost use Rattle.mg_gridfs.specs.Steps.{Stepped};
ghost use Rattle.mg_gridfs.specs.Storing.{AbortStores, CloseStores, WriteStores};
ghost use Rattle.mg_gridfs.specs.Uploads.{HasBounds, IsOfCall, IsSoundPhase, IsSoundUpload, abort, begins, close, error_behind, fills, fresh_upload, phase_ticket, upload_error, upload_ticket, write};
ghost use Rattle.mg_gridfs.specs.UploadView.{HasBuffer, IsUpload, aim_of, back_phase, doing_of, phase_of, upload_of, worker_of};

use crate::aim::Aim;
use crate::polls::{Step2, WritePoll};
use crate::stage::{Back, Stage};
use crate::steps::Upload;
use mg_bson::{Bson, DateTime};
use mg_link::{Error, ErrorKind, GridFsErrorKind, IdSource, Link, Step, plain};
use std::mem;

// What an upload is doing between two polls.
#[derive(Drop)]
enum State {
    Idle,
    // A write of so many bytes goes on.
    Writing(usize, Stage),
    Closing(Stage),
    Aborting(Back),
    Closed,
}

/// A file that is uploaded in pieces. Full chunks are inserted as they are written; the rest and the record of the file come as the
/// upload is closed. Before its first chunk is inserted it makes sure of the indexes of the bucket, once.
///
/// One that is dropped sends nothing, and its chunks stay: [`poll_abort`](GridFsUploadStream::poll_abort) removes them. An upload that
/// failed leaves none, unless memory ran out or the removal failed, and takes no call.
///
///     while let WritePoll::Pending = upload.poll_write(&mut link, &mut ids, bytes) { .. }
///     while let Step2::Pending = upload.poll_close(&mut link, &mut ids, now) { .. }
pub struct GridFsUploadStream {
    upload: Upload,
    state: State,
}

// By hand, so that letting one go is one call.
impl Drop for GridFsUploadStream {
    fn drop(self) {
        let GridFsUploadStream {
            upload: _,
            state: _,
        } = self;
    }
}

// The error of a call that is taken no more.
fn stream_closed() -> Error
    ensures { result ≡ stream_closed }
{
    plain(ErrorKind::GridFs(GridFsErrorKind::UploadStreamClosed))
}

// The error of a close while a write goes on.
fn write_in_progress() -> Error
    ensures { result ≡ write_in_progress }
{
    plain(ErrorKind::GridFs(GridFsErrorKind::WriteInProgress))
}

// The stage with which a close goes on, or the state in which it is taken no more.
fn closing_stage(state: State, moment: DateTime) -> Result<Stage, State>
    ensures ok { IfOk result (λ s. close_phase moment.millis (doing_of state) ≡ Some (phase_of s)) }
    ensures err { IfErr result (λ kept. (kept ≡ state) × (close_phase moment.millis (doing_of state) ≡ None)) }
{
    match state {
        State::Idle => Ok(Stage::Rest(moment)),
        State::Writing(_piece, stage) => {
            let back = stage.give_up(Some(write_in_progress()));
            Ok(Stage::Back(back))
        }
        State::Closing(stage) => Ok(stage),
        State::Aborting(back) => Err(State::Aborting(back)),
        State::Closed => Err(State::Closed),
    }
}

// The stage with which a write begins.
fn first_stage(checked: bool) -> Stage
    ensures { phase_of result ≡ (if checked then fills else begins) }
{
    if checked { Stage::Fill } else { Stage::Begin }
}

// The way back with which an abort goes on, unless the upload has ended.
fn way_back(state: State) -> Option<Back>
    ensures { option_map back_phase result ≡ abort_phase (doing_of state) }
{
    match state {
        State::Idle => Some(Back::Undo(None)),
        State::Writing(_piece, stage) => Some(stage.give_up(None)),
        State::Closing(stage) => Some(stage.give_up(None)),
        State::Aborting(back) => Some(back),
        State::Closed => None,
    }
}

impl GridFsUploadStream {
    pub(crate) fn new(aim: Aim) -> GridFsUploadStream
        requires { IsSize aim.size }
        ensures started { upload_of result ≡ fresh_upload (aim_of aim) }
        ensures sound { IsUpload result }
    {
        GridFsUploadStream {
            upload: Upload::new(aim),
            state: State::Idle,
        }
    }

    /// The id of the file.
    pub fn id(&self) -> &Bson
        ensures { tree result.now ≡ (upload_of self.now).aim.id }
    {
        &self.upload.aim.id
    }

    /// The number of the ticket that it holds, while it waits for a reply.
    pub fn ticket_number(&self) -> Option<u64>
        ensures { result ≡ upload_ticket (upload_of self.now) }
    {
        match &self.state {
            State::Idle => None,
            State::Writing(_, stage) => stage.ticket_number(),
            State::Closing(stage) => stage.ticket_number(),
            State::Aborting(back) => back.ticket_number(),
            State::Closed => None,
        }
    }

    /// Takes all of the bytes, and inserts the chunks that are full with them. While a reply pends the caller hands the same bytes
    /// again; others are not looked at.
    ///
    /// Where memory runs out as the bytes are taken, none is, and nothing has changed. Where an insert fails, or the number of a chunk
    /// would pass 2,147,483,647, the chunks of the file are removed, and the first error is answered, or both where that fails too.
    /// Behind such an error, and behind one of the index check, the upload is closed. A write while it is being closed or aborted, or
    /// behind its end, fails with [`GridFsErrorKind::UploadStreamClosed`] and changes nothing.
    pub fn poll_write<L: Link, I: IdSource>(
        &mut self,
        link: &mut L,
        ids: &mut I,
        bytes: &[u8],
    ) -> WritePoll
        requires held { IsOut (L.awaited link.old) (upload_ticket (upload_of self.old)) }
        requires sound { IsUpload self.old }
        // The tickets of others, the counts, the wire version and the promptness of the link.
        ensures keeps { LinkKeeps (moment (L.awaited link.old) (L.log link.old) (L.faults link.old) (L.pends link.old) (L.wire link.old) (L.prompt link.old))
            (moment (L.awaited link.new) (L.log link.new) (L.faults link.new) (L.pends link.new) (L.wire link.new) (L.prompt link.new))
            (upload_ticket (upload_of self.old)) (upload_ticket (upload_of self.new)) (ending_beside (write_ending result) (upload_error (upload_of self.old))) }
        ensures sound { IsUpload self.new }
        // Which bytes it took, which commands it sent, step by step, and how the upload stands behind what it heard.
        ensures writes { (drawn : ℕ) × AreLater (I.ids ids.old) drawn (I.ids ids.new)
            × Writes (L.awaited link.old) (L.awaited link.new) (L.log link.old) (L.log link.new) (L.wire link.old) (I.ids ids.old) drawn (upload_of self.old) (upload_of self.new) bytes.now result }
        // What stands behind an error.
        ensures leaves { LeavesWrite (upload_of self.old) (upload_of self.new) result }
        // What in the log is the cause of the answer, over all polls of a call.
        ensures caused { WriteCaused (L.awaited link.old) (L.awaited link.new) (L.log link.old) (L.log link.new) (L.wire link.old) (upload_of self.old) (upload_of self.new) result }
        // Over an honest link, where nobody else touches the file: its chunks and the bytes behind are the cut of all bytes taken.
        ensures stored { (at : Bucket) → WriteStores (L.awaited link.old) (L.awaited link.new) (L.log link.old) (L.log link.new) (L.wire link.old) at (upload_of self.old) (upload_of self.new) bytes.now result }
        // Over a link that tells its log: the cursors of others are left alone.
        ensures passes { LeavesOthers (L.awaited link.old) (L.awaited link.new) (L.log link.old) (L.log link.new) (upload_of self.old) (upload_of self.new) }
    {
        self.any_write(link, ids, bytes)
    }

    /// Inserts what is left as the last chunk, where something is, and then the record of the file, with the moment of the first
    /// poll. A close while a write goes on takes the reply on its way, removes the chunks of the file, and fails with
    /// [`GridFsErrorKind::WriteInProgress`].
    ///
    /// It fails as a write does. Behind its end, whatever that is, the upload is closed; a close there, or while it is being aborted,
    /// fails with [`GridFsErrorKind::UploadStreamClosed`] and changes nothing.
    pub fn poll_close<L: Link, I: IdSource>(
        &mut self,
        link: &mut L,
        ids: &mut I,
        time: DateTime,
    ) -> Step2
        requires held { IsOut (L.awaited link.old) (upload_ticket (upload_of self.old)) }
        requires sound { IsUpload self.old }
        // The tickets of others, the counts, the wire version and the promptness of the link.
        ensures keeps { LinkKeeps (moment (L.awaited link.old) (L.log link.old) (L.faults link.old) (L.pends link.old) (L.wire link.old) (L.prompt link.old))
            (moment (L.awaited link.new) (L.log link.new) (L.faults link.new) (L.pends link.new) (L.wire link.new) (L.prompt link.new))
            (upload_ticket (upload_of self.old)) (upload_ticket (upload_of self.new)) (ending_beside (end_ending result) (upload_error (upload_of self.old))) }
        ensures sound { IsUpload self.new }
        // Which commands it sent, step by step, and how the upload stands behind what it heard.
        ensures closes { (drawn : ℕ) × AreLater (I.ids ids.old) drawn (I.ids ids.new)
            × Closes (L.awaited link.old) (L.awaited link.new) (L.log link.old) (L.log link.new) (L.wire link.old) (I.ids ids.old) drawn time.millis (upload_of self.old) (upload_of self.new) result }
        // What stands behind an error.
        ensures leaves { LeavesEnd close (upload_of self.old) (upload_of self.new) result }
        // What in the log is the cause of the answer, over all polls of a call.
        ensures caused { CloseCaused (L.awaited link.old) (L.awaited link.new) (L.log link.old) (L.log link.new) (L.wire link.old) (upload_of self.old) (upload_of self.new) result }
        // Over an honest link, where nobody else touches the file: once it is done the file is whole.
        ensures stored { (at : Bucket) → CloseStores (L.awaited link.old) (L.awaited link.new) (L.log link.old) (L.log link.new) (L.wire link.old) at (upload_of self.old) (upload_of self.new) result }
        // Over a link that tells its log: the cursors of others are left alone.
        ensures passes { LeavesOthers (L.awaited link.old) (L.awaited link.new) (L.log link.old) (L.log link.new) (upload_of self.old) (upload_of self.new) }
    {
        self.any_close(link, ids, time)
    }

    /// Takes a reply on its way, whatever it is, and removes the chunks of the file. It fails where that fails, or with
    /// [`GridFsErrorKind::UploadStreamClosed`] where the upload is closed. From its first poll on the upload takes no other call.
    pub fn poll_abort<L: Link>(&mut self, link: &mut L) -> Step2
        requires held { IsOut (L.awaited link.old) (upload_ticket (upload_of self.old)) }
        requires sound { IsUpload self.old }
        // The tickets of others, the counts, the wire version and the promptness of the link.
        ensures keeps { LinkKeeps (moment (L.awaited link.old) (L.log link.old) (L.faults link.old) (L.pends link.old) (L.wire link.old) (L.prompt link.old))
            (moment (L.awaited link.new) (L.log link.new) (L.faults link.new) (L.pends link.new) (L.wire link.new) (L.prompt link.new))
            (upload_ticket (upload_of self.old)) (upload_ticket (upload_of self.new)) (end_ending result) }
        ensures sound { IsUpload self.new }
        // Which commands it sent, step by step, and how the upload stands behind what it heard.
        ensures aborts { Aborts (L.awaited link.old) (L.awaited link.new) (L.log link.old) (L.log link.new) (L.wire link.old) (upload_of self.old) (upload_of self.new) result }
        // What stands behind an error.
        ensures leaves { LeavesEnd abort (upload_of self.old) (upload_of self.new) result }
        // What in the log is the cause of the answer, over all polls of a call.
        ensures caused { AbortCaused (L.awaited link.old) (L.awaited link.new) (L.log link.old) (L.log link.new) (L.wire link.old) (upload_of self.old) (upload_of self.new) result }
        // Over an honest link, where nobody else touches the file: once it is done no chunk of it is left.
        ensures stored { (at : Bucket) → AbortStores (L.awaited link.old) (L.awaited link.new) (L.log link.old) (L.log link.new) (L.wire link.old) at (upload_of self.old) (upload_of self.new) result }
        // Over a link that tells its log: the cursors of others are left alone.
        ensures passes { LeavesOthers (L.awaited link.old) (L.awaited link.new) (L.log link.old) (L.log link.new) (upload_of self.old) (upload_of self.new) }
    {
        self.any_abort(link)
    }

    /// Does nothing: what is left does not fill a chunk. It fails where the upload is closed.
    pub fn poll_flush(&self) -> Result<(), Error>
        ensures ok { OnOk result (TakesFlush (upload_of self.now).doing) }
        ensures err { OnErr result (TakesFlush (upload_of self.now).doing → ⊥) }
        ensures closed { IfErr result (λ e. e ≡ stream_closed) }
    {
        match &self.state {
            State::Idle => Ok(()),
            State::Writing(_, _) => Ok(()),
            State::Closing(_) => Ok(()),
            State::Aborting(_) => Ok(()),
            State::Closed => Err(stream_closed()),
        }
    }

    // A poll of a write, by how far the upload has come.
    fn any_write<L: Link, I: IdSource>(
        &mut self,
        link: &mut L,
        ids: &mut I,
        bytes: &[u8],
    ) -> WritePoll
        requires held { IsOut (L.awaited link.old) (upload_ticket (upload_of self.old)) }
        requires sound { IsUpload self.old }
        // The tickets of others, the counts, the wire version and the promptness of the link.
        ensures keeps { LinkKeeps (moment (L.awaited link.old) (L.log link.old) (L.faults link.old) (L.pends link.old) (L.wire link.old) (L.prompt link.old))
            (moment (L.awaited link.new) (L.log link.new) (L.faults link.new) (L.pends link.new) (L.wire link.new) (L.prompt link.new))
            (upload_ticket (upload_of self.old)) (upload_ticket (upload_of self.new)) (ending_beside (write_ending result) (upload_error (upload_of self.old))) }
        ensures writes { (drawn : ℕ) × AreLater (I.ids ids.old) drawn (I.ids ids.new)
            × Writes (L.awaited link.old) (L.awaited link.new) (L.log link.old) (L.log link.new) (L.wire link.old) (I.ids ids.old) drawn (upload_of self.old) (upload_of self.new) bytes.now result }
        ensures buffer { HasBuffer self.new.upload }
    {
        match mem::replace(&mut self.state, State::Closed) {
            State::Idle => self.start(link, ids, bytes),
            State::Writing(piece, stage) => self.write(link, ids, piece, stage),
            State::Closing(stage) => self.refuse_write(State::Closing(stage)),
            State::Aborting(back) => self.refuse_write(State::Aborting(back)),
            State::Closed => self.refuse_write(State::Closed),
        }
    }

    // A poll of a close, by how far the upload has come.
    fn any_close<L: Link, I: IdSource>(
        &mut self,
        link: &mut L,
        ids: &mut I,
        time: DateTime,
    ) -> Step2
        requires held { IsOut (L.awaited link.old) (upload_ticket (upload_of self.old)) }
        requires sound { IsUpload self.old }
        // The tickets of others, the counts, the wire version and the promptness of the link.
        ensures keeps { LinkKeeps (moment (L.awaited link.old) (L.log link.old) (L.faults link.old) (L.pends link.old) (L.wire link.old) (L.prompt link.old))
            (moment (L.awaited link.new) (L.log link.new) (L.faults link.new) (L.pends link.new) (L.wire link.new) (L.prompt link.new))
            (upload_ticket (upload_of self.old)) (upload_ticket (upload_of self.new)) (ending_beside (end_ending result) (upload_error (upload_of self.old))) }
        ensures closes { (drawn : ℕ) × AreLater (I.ids ids.old) drawn (I.ids ids.new)
            × Closes (L.awaited link.old) (L.awaited link.new) (L.log link.old) (L.log link.new) (L.wire link.old) (I.ids ids.old) drawn time.millis (upload_of self.old) (upload_of self.new) result }
        ensures buffer { HasBuffer self.new.upload }
    {
        match closing_stage(mem::replace(&mut self.state, State::Closed), time) {
            Ok(stage) => self.close(link, ids, stage),
            Err(state) => self.refuse_end(state),
        }
    }

    // A poll of an abort, by how far the upload has come.
    fn any_abort<L: Link>(&mut self, link: &mut L) -> Step2
        requires held { IsOut (L.awaited link.old) (upload_ticket (upload_of self.old)) }
        requires sound { IsUpload self.old }
        // The tickets of others, the counts, the wire version and the promptness of the link.
        ensures keeps { LinkKeeps (moment (L.awaited link.old) (L.log link.old) (L.faults link.old) (L.pends link.old) (L.wire link.old) (L.prompt link.old))
            (moment (L.awaited link.new) (L.log link.new) (L.faults link.new) (L.pends link.new) (L.wire link.new) (L.prompt link.new))
            (upload_ticket (upload_of self.old)) (upload_ticket (upload_of self.new)) (end_ending result) }
        ensures aborts { Aborts (L.awaited link.old) (L.awaited link.new) (L.log link.old) (L.log link.new) (L.wire link.old) (upload_of self.old) (upload_of self.new) result }
        ensures buffer { HasBuffer self.new.upload }
    {
        match way_back(mem::replace(&mut self.state, State::Closed)) {
            Some(back) => self.abort(link, back),
            None => self.refuse_end(State::Closed),
        }
    }

    // Puts a state in its place.
    fn enter(&mut self, state: State)
        ensures { self.new ≡ record self.old { state = state } }
    {
        drop(mem::replace(&mut self.state, state));
    }

    // A write that is taken no more.
    fn refuse_write(&mut self, state: State) -> WritePoll
        ensures entered { self.new ≡ record self.old { state = state } }
        ensures refused { result ≡ WritePoll.Failed stream_closed }
    {
        self.enter(state);
        WritePoll::Failed(stream_closed())
    }

    // A close or an abort that is taken no more.
    fn refuse_end(&mut self, state: State) -> Step2
        ensures entered { self.new ≡ record self.old { state = state } }
        ensures refused { result ≡ Step2.Failed stream_closed }
    {
        self.enter(state);
        Step2::Failed(stream_closed())
    }

    // A new write: takes the bytes, and inserts the chunks that are full with them.
    fn start<L: Link, I: IdSource>(&mut self, link: &mut L, ids: &mut I, bytes: &[u8]) -> WritePoll
        requires sound { IsSoundUpload (worker_of self.old.upload) × HasBuffer self.old.upload }
        requires closed { self.old.state ≡ State.Closed }
        // The tickets of others, the counts, the wire version and the promptness of the link.
        ensures keeps { LinkKeeps (moment (L.awaited link.old) (L.log link.old) (L.faults link.old) (L.pends link.old) (L.wire link.old) (L.prompt link.old))
            (moment (L.awaited link.new) (L.log link.new) (L.faults link.new) (L.pends link.new) (L.wire link.new) (L.prompt link.new))
            (None) (upload_ticket (upload_of self.new)) (write_ending result) }
        ensures writes { (drawn : ℕ) × AreLater (I.ids ids.old) drawn (I.ids ids.new)
            × Writes (L.awaited link.old) (L.awaited link.new) (L.log link.old) (L.log link.new) (L.wire link.old) (I.ids ids.old) drawn (worker_of self.old.upload) (upload_of self.new) bytes.now result }
        ensures buffer { HasBuffer self.new.upload }
    {
        if !self.upload.take(bytes) {
            return self.not_taken();
        }
        if !self.upload.has_chunk() {
            return self.kept(bytes.len());
        }
        let stage = first_stage(self.upload.checked);
        self.write(link, ids, bytes.len(), stage)
    }

    // Memory ran out as the bytes of a write were taken.
    fn not_taken(&mut self) -> WritePoll
        ensures entered { self.new ≡ record self.old { state = State.Idle } }
        ensures failed { result ≡ WritePoll.Failed (plain kinds.OutOfMemory) }
    {
        self.enter(State::Idle);
        WritePoll::Failed(plain(ErrorKind::OutOfMemory))
    }

    // The bytes of a write fill no chunk.
    fn kept(&mut self, piece: usize) -> WritePoll
        ensures entered { self.new ≡ record self.old { state = State.Idle } }
        ensures wrote { result ≡ WritePoll.Wrote piece }
    {
        self.enter(State::Idle);
        WritePoll::Wrote(piece)
    }

    // Goes on with a write.
    fn write<L: Link, I: IdSource>(
        &mut self,
        link: &mut L,
        ids: &mut I,
        piece: usize,
        stage: Stage,
    ) -> WritePoll
        requires held { IsOut (L.awaited link.old) (phase_ticket (phase_of stage)) }
        requires sound { HasBounds (worker_of self.old.upload) × IsSoundPhase (worker_of self.old.upload) (phase_of stage) × HasBuffer self.old.upload }
        requires call { IsOfCall (write piece) (phase_of stage) }
        requires closed { self.old.state ≡ State.Closed }
        // The tickets of others, the counts, the wire version and the promptness of the link.
        ensures keeps { LinkKeeps (moment (L.awaited link.old) (L.log link.old) (L.faults link.old) (L.pends link.old) (L.wire link.old) (L.prompt link.old))
            (moment (L.awaited link.new) (L.log link.new) (L.faults link.new) (L.pends link.new) (L.wire link.new) (L.prompt link.new))
            (phase_ticket (phase_of stage)) (upload_ticket (upload_of self.new)) (ending_beside (write_ending result) (error_behind (phase_of stage))) }
        ensures drives { (drawn : ℕ) × AreLater (I.ids ids.old) drawn (I.ids ids.new)
            × (s : Stepped) × Drives (L.awaited link.old) (L.awaited link.new) (L.log link.old) (L.log link.new) (L.wire link.old) (I.ids ids.old) drawn (write piece) (worker_of self.old.upload) (upload_of self.new) (phase_of stage) s × (result ≡ wrote_by piece s) }
        ensures buffer { HasBuffer self.new.upload }
    {
        match self.upload.drive(link, ids, stage) {
            Step::Pending(stage) => {
                self.enter(State::Writing(piece, stage));
                WritePoll::Pending
            }
            Step::Done(()) => {
                self.enter(State::Idle);
                WritePoll::Wrote(piece)
            }
            Step::Failed(error) => WritePoll::Failed(error),
        }
    }

    // Goes on with a close.
    fn close<L: Link, I: IdSource>(&mut self, link: &mut L, ids: &mut I, stage: Stage) -> Step2
        requires held { IsOut (L.awaited link.old) (phase_ticket (phase_of stage)) }
        requires sound { HasBounds (worker_of self.old.upload) × IsSoundPhase (worker_of self.old.upload) (phase_of stage) × HasBuffer self.old.upload }
        requires call { IsOfCall close (phase_of stage) }
        requires closed { self.old.state ≡ State.Closed }
        // The tickets of others, the counts, the wire version and the promptness of the link.
        ensures keeps { LinkKeeps (moment (L.awaited link.old) (L.log link.old) (L.faults link.old) (L.pends link.old) (L.wire link.old) (L.prompt link.old))
            (moment (L.awaited link.new) (L.log link.new) (L.faults link.new) (L.pends link.new) (L.wire link.new) (L.prompt link.new))
            (phase_ticket (phase_of stage)) (upload_ticket (upload_of self.new)) (ending_beside (end_ending result) (error_behind (phase_of stage))) }
        ensures drives { (drawn : ℕ) × AreLater (I.ids ids.old) drawn (I.ids ids.new)
            × (s : Stepped) × Drives (L.awaited link.old) (L.awaited link.new) (L.log link.old) (L.log link.new) (L.wire link.old) (I.ids ids.old) drawn close (worker_of self.old.upload) (upload_of self.new) (phase_of stage) s × (result ≡ ended_by s) }
        ensures buffer { HasBuffer self.new.upload }
    {
        match self.upload.drive(link, ids, stage) {
            Step::Pending(stage) => {
                self.enter(State::Closing(stage));
                Step2::Pending
            }
            Step::Done(()) => Step2::Done,
            Step::Failed(error) => Step2::Failed(error),
        }
    }

    // Goes on with an abort.
    fn abort<L: Link>(&mut self, link: &mut L, back: Back) -> Step2
        requires held { IsOut (L.awaited link.old) (phase_ticket (back_phase back)) }
        requires sound { HasBounds (worker_of self.old.upload) × IsSoundPhase (worker_of self.old.upload) (back_phase back) × HasBuffer self.old.upload }
        requires call { IsOfCall abort (back_phase back) }
        requires closed { self.old.state ≡ State.Closed }
        // The tickets of others, the counts, the wire version and the promptness of the link.
        ensures keeps { LinkKeeps (moment (L.awaited link.old) (L.log link.old) (L.faults link.old) (L.pends link.old) (L.wire link.old) (L.prompt link.old))
            (moment (L.awaited link.new) (L.log link.new) (L.faults link.new) (L.pends link.new) (L.wire link.new) (L.prompt link.new))
            (phase_ticket (back_phase back)) (upload_ticket (upload_of self.new)) (end_ending result) }
        ensures drives { (s : Stepped) × Abandons (L.awaited link.old) (L.awaited link.new) (L.log link.old) (L.log link.new) (L.wire link.old) (worker_of self.old.upload) (upload_of self.new) (back_phase back) s × (result ≡ ended_by s) }
        ensures buffer { HasBuffer self.new.upload }
    {
        match self.upload.back(link, back) {
            Step::Pending(back) => {
                self.enter(State::Aborting(back));
                Step2::Pending
            }
            Step::Done(()) => Step2::Done,
            Step::Failed(error) => Step2::Failed(error),
        }
    }
}
