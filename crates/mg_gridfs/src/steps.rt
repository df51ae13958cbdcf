//! The steps of an upload: chunks first, and the record last; on the way back its chunks are removed.
ghost use Rattle.std.specs.Prelude.{◌≡◌, ◌⊎◌, ◌<◌, ◌≤◌, ◌+◌, ◌*◌, ◌^◌, ℕ, List, [], ◌∷◌, drop, false, length, nat_le, take, None, Some, IfErr, IfOk, OnErr, if◌then◌else◌};
ghost use Rattle.mg_bson.specs.Bytes.{bytes};
ghost use Rattle.mg_bson.specs.View.{tree};
ghost use Rattle.mg_link.specs.Acts.{IsOut};
ghost use Rattle.mg_link.specs.Errors.{plain};
ghost use Rattle.mg_link.specs.Exec.{ticket_of};
ghost use Rattle.mg_link.specs.Moment.{LinkKeeps, moment, step_ending};
ghost use Rattle.mg_link.specs.declared.error.ErrorKind.TheVariants as kinds;
ghost use Rattle.mg_ops.specs.Drawn.{AreLater};
ghost use Rattle.mg_ops.specs.Failing.{CannotBeSent, FailsBy};
ghost use Rattle.mg_ops.specs.Limits.{max_documents};
ghost use Rattle.mg_chunks.specs.Buffers.{held_of};
ghost use Rattle.mg_chunks.specs.Closings.{next_in_close};
ghost use Rattle.mg_gridfs.specs.Calls.{ending_beside, with_bytes};
ghost use Rattle.mg_gridfs.specs.Commands.{CannotStore, IsNewRequest, chunk_document, record_lines};
ghost use Rattle.mg_gridfs.specs.Steps.{CannotEnd, CannotFill, FailsToUndo, IsAbortOf, undone_by};
ghost use Rattle.mg_gridfs.specs.Turns.{BacksOn, BeginsOn, BeginsPortion, BuildsLast, BuildsPortion, DrivesOn, SameButBytes, TakesPortion, TurnFalls, TurnsOn, back_ticket, step_ticket, turn_ending, turn_ticket};
ghost use Rattle.mg_gridfs.specs.Uploads.{HasBounds, IsShort, IsSoundPhase, checks, ends, error_behind, fills, inserts, lasts, phase_ticket, record_of, records, removes, rests, undoes};
ghost use Rattle.mg_gridfs.specs.UploadView.{HasBuffer, back_phase, back_stopped, check_of, ending_view, phase_of, stopped_by, worker_of};

use crate::aim::Aim;
use crate::check::{CheckTurn, Checking};
use crate::chunks::{chunk_document, record_document};
use crate::commands::{delete_chunks, insert_chunks, insert_record, one};
use crate::stage::{Back, Ending, Stage, Turn};
use mg_bson::{DateTime, Document, ObjectId};
use mg_chunks::{Buffer, Closing, last_number, next_in_close};
use mg_cursor::is_memory;
use mg_exec::Exec;
use mg_link::{Action, Error, ErrorKind, GridFsErrorKind, IdSource, Link, Step, plain};
use mg_ops::{documents_together, read_deleted, read_inserted};
use std::alloc::{AllocError, Global};

// An upload without what it is doing.
pub(crate) struct Upload {
    pub(crate) aim: Aim,
    // Whether the indexes were checked.
    pub(crate) checked: bool,
    // How many full chunks were inserted.
    sent: u32,
    // The bytes taken that stand in no command yet.
    pub(crate) buffer: Buffer,
}

// By hand, so that letting one go is one call.
impl Drop for Upload {
    fn drop(self) {
        let Upload {
            aim: _,
            checked: _,
            sent: _,
            buffer: _,
        } = self;
    }
}

// The first of the next full chunks as a document, and how many go with it into one command.
#[derive(Drop)]
struct Begun {
    first: Document,
    count: u32,
}

// The next full chunks as documents, and how many they are.
#[derive(Drop)]
struct Taken {
    documents: Vec<Document>,
    count: u32,
}

// The next full chunks in a command, and how many they are.
#[derive(Drop)]
struct Portion {
    exec: Exec,
    count: u32,
}

// Both errors as one: what the upload failed with, where it is not aborted, and why its chunks were not removed.
fn both(
    alloc: Global,
    original: Option<Error>,
    delete: Error,
) -> Result<GridFsErrorKind, AllocError>
    ensures { IfOk result (λ k. IsAbortOf original delete (kinds.GridFs k)) }
{
    let delete = Box::new(alloc, delete)?;
    match original {
        Some(error) => {
            let original = Some(Box::new(alloc, error)?);
            Ok(GridFsErrorKind::AbortError { original, delete })
        }
        None => Ok(GridFsErrorKind::AbortError {
            original: None,
            delete,
        }),
    }
}

// What is answered where the chunks were not removed.
fn not_undone(alloc: Global, original: Option<Error>, delete: Error) -> Error
    ensures { FailsToUndo original delete result }
{
    if is_memory(&delete) {
        return delete;
    }
    match both(alloc, original, delete) {
        Ok(kind) => plain(ErrorKind::GridFs(kind)),
        Err(_error) => plain(ErrorKind::OutOfMemory),
    }
}

// What is answered once the chunks are removed: the first error, or that the abort is done.
fn undone(original: Option<Error>) -> Step<Back, ()>
    ensures { back_stopped result ≡ undone_by original }
{
    match original {
        Some(error) => Step::Failed(error),
        None => Step::Done(()),
    }
}

// The way back as the stage of a call.
fn on_the_way_back(step: Step<Back, ()>) -> Step<Stage, ()>
    ensures { stopped_by result ≡ back_stopped step }
{
    match step {
        Step::Pending(back) => Step::Pending(Stage::Back(back)),
        Step::Done(()) => Step::Done(()),
        Step::Failed(error) => Step::Failed(error),
    }
}

// The next id, which has twelve bytes.
fn drawn<I: IdSource>(ids: &mut I) -> ObjectId
    ensures id { result.0 ≡ I.ids ids.old 0 }
    ensures twelve { length (I.ids ids.old 0) ≡ 12 }
    ensures later { AreLater (I.ids ids.old) 1 (I.ids ids.new) }
{
    ids.next_id()
}

// The length of a document in bytes.
fn length_of(document: &Document) -> Result<usize, Error>
    ensures ok { IfOk result (λ n. n ≡ length (bytes document.now)) }
    ensures err { IfErr result (λ e. FailsBy (CannotBeSent document.now) e) }
{
    Ok(document.encoded_len()?)
}

// So many of the full chunks go into one command where so many fit.
fn as_many(fitting: usize, held: usize) -> u32
    requires some { 1 ≤ fitting }
    requires few { fitting ≤ max_documents }
    requires there { 1 ≤ held }
    ensures some { 1 ≤ result }
    ensures fits { result ≤ fitting }
    ensures held { result ≤ held }
    ensures most { (result ≡ fitting) ⊎ (result ≡ held) }
{
    if held < fitting {
        return held as u32;
    }
    fitting as u32
}

impl Upload {
    // Nothing was taken.
    pub(crate) fn new(aim: Aim) -> Upload
        requires { 0 < aim.size }
        ensures aim { result.aim ≡ aim }
        ensures unchecked { result.checked ≡ false }
        ensures unsent { result.sent ≡ 0 }
        ensures untaken { held_of result.buffer ≡ [] }
        ensures buffer { HasBuffer result }
    {
        let buffer = Buffer::new(aim.alloc, aim.size as usize);
        Upload {
            aim,
            checked: false,
            sent: 0,
            buffer,
        }
    }

    // How many bytes it has, where less than a chunk is left.
    fn length(&self) -> u64
        requires sound { HasBounds (worker_of self.now) }
        requires short { IsShort (worker_of self.now) }
        requires buffer { HasBuffer self.now }
        ensures { result ≡ (worker_of self.now).sent * (worker_of self.now).aim.size + length (worker_of self.now).behind }
    {
        let full = self.sent as u64 * self.aim.size as u64;
        full + self.buffer.rest_len() as u64
    }

    // ---- the way back

    // Goes on with the way back, until a reply pends or to its end.
    pub(crate) fn back<L: Link>(&self, link: &mut L, back: Back) -> Step<Back, ()>
        requires held { IsOut (L.awaited link.old) (phase_ticket (back_phase back)) }
        requires sound { IsSoundPhase (worker_of self.now) (back_phase back) }
        // The tickets of others, the counts, the wire version and the promptness of the link.
        ensures keeps { LinkKeeps (moment (L.awaited link.old) (L.log link.old) (L.faults link.old) (L.pends link.old) (L.wire link.old) (L.prompt link.old))
            (moment (L.awaited link.new) (L.log link.new) (L.faults link.new) (L.pends link.new) (L.wire link.new) (L.prompt link.new))
            (phase_ticket (back_phase back)) (back_ticket result) (ending_beside (step_ending result) (error_behind (back_phase back))) }
        ensures backs { BacksOn (L.awaited link.old) (L.awaited link.new) (L.log link.old) (L.log link.new) (L.wire link.old) (worker_of self.now) (back_phase back) result }
    {
        match back {
            Back::Land(flight, error) => match flight.land(link) {
                Some(flight) => Step::Pending(Back::Land(flight, error)),
                None => self.undo(link, error),
            },
            Back::Undo(error) => self.undo(link, error),
            Back::Remove(exec, error) => self.remove(link, exec, error),
        }
    }

    // Removes the chunks.
    fn undo<L: Link>(&self, link: &mut L, error: Option<Error>) -> Step<Back, ()>
        // The tickets of others, the counts, the wire version and the promptness of the link.
        ensures keeps { LinkKeeps (moment (L.awaited link.old) (L.log link.old) (L.faults link.old) (L.pends link.old) (L.wire link.old) (L.prompt link.old))
            (moment (L.awaited link.new) (L.log link.new) (L.faults link.new) (L.pends link.new) (L.wire link.new) (L.prompt link.new))
            (None) (back_ticket result) (ending_beside (step_ending result) error) }
        ensures backs { BacksOn (L.awaited link.old) (L.awaited link.new) (L.log link.old) (L.log link.new) (L.wire link.old) (worker_of self.now) (undoes error) result }
    {
        match delete_chunks(&self.aim.bucket, &self.aim.id, link.wire_version()) {
            Ok(exec) => self.remove(link, exec, error),
            Err(delete) => Step::Failed(not_undone(self.aim.alloc, error, delete)),
        }
    }

    // Waits for the reply to the deletion.
    fn remove<L: Link>(&self, link: &mut L, exec: Exec, error: Option<Error>) -> Step<Back, ()>
        requires { IsOut (L.awaited link.old) (ticket_of exec) }
        // The tickets of others, the counts, the wire version and the promptness of the link.
        ensures keeps { LinkKeeps (moment (L.awaited link.old) (L.log link.old) (L.faults link.old) (L.pends link.old) (L.wire link.old) (L.prompt link.old))
            (moment (L.awaited link.new) (L.log link.new) (L.faults link.new) (L.pends link.new) (L.wire link.new) (L.prompt link.new))
            (ticket_of exec) (back_ticket result) (ending_beside (step_ending result) error) }
        ensures backs { BacksOn (L.awaited link.old) (L.awaited link.new) (L.log link.old) (L.log link.new) (L.wire link.old) (worker_of self.now) (removes exec error) result }
    {
        match exec.poll(link) {
            Step::Pending(exec) => Step::Pending(Back::Remove(exec, error)),
            Step::Done(reply) => match read_deleted(self.aim.alloc, &reply.as_raw()) {
                Ok(_n) => undone(error),
                Err(delete) => Step::Failed(not_undone(self.aim.alloc, error, delete)),
            },
            Step::Failed(delete) => Step::Failed(not_undone(self.aim.alloc, error, delete)),
        }
    }

    // A write failed: its error is answered once the chunks are removed.
    fn fail<L: Link>(&self, link: &mut L, error: Error) -> Turn
        // The tickets of others, the counts, the wire version and the promptness of the link.
        ensures keeps { LinkKeeps (moment (L.awaited link.old) (L.log link.old) (L.faults link.old) (L.pends link.old) (L.wire link.old) (L.prompt link.old))
            (moment (L.awaited link.new) (L.log link.new) (L.faults link.new) (L.pends link.new) (L.wire link.new) (L.prompt link.new))
            (None) (turn_ticket result) (ending_beside (turn_ending result) (Some error)) }
        ensures fails { (given : ℕ → List ℕ) → TurnsOn (L.awaited link.old) (L.awaited link.new) (L.log link.old) (L.log link.new) (L.wire link.old) given 0 (worker_of self.now) (worker_of self.now) (undoes (Some error)) result }
    {
        Turn::Stops(on_the_way_back(self.undo(link, Some(error))))
    }

    // ---- the way ahead

    // The indexes are checked.
    fn begin<L: Link>(&self, link: &L) -> Turn
        ensures { BeginsOn (worker_of self.now) result }
    {
        match Checking::begin(&self.aim.bucket, link.wire_version()) {
            Ok(check) => Turn::Goes(Stage::Check(check)),
            Err(error) => Turn::Stops(Step::Failed(error)),
        }
    }

    // Goes on with the check.
    fn check<L: Link>(&mut self, link: &mut L, check: Checking) -> Turn
        requires held { IsOut (L.awaited link.old) (phase_ticket (checks (check_of check))) }
        requires sound { IsSoundPhase (worker_of self.old) (checks (check_of check)) }
        // The tickets of others, the counts, the wire version and the promptness of the link.
        ensures keeps { LinkKeeps (moment (L.awaited link.old) (L.log link.old) (L.faults link.old) (L.pends link.old) (L.wire link.old) (L.prompt link.old))
            (moment (L.awaited link.new) (L.log link.new) (L.faults link.new) (L.pends link.new) (L.wire link.new) (L.prompt link.new))
            (phase_ticket (checks (check_of check))) (turn_ticket result) (turn_ending result) }
        ensures turns { (given : ℕ → List ℕ) → TurnsOn (L.awaited link.old) (L.awaited link.new) (L.log link.old) (L.log link.new) (L.wire link.old) given 0 (worker_of self.old) (worker_of self.new) (checks (check_of check)) result }
        ensures buffer { self.new.buffer ≡ self.old.buffer }
        ensures aim { self.new.aim ≡ self.old.aim }
    {
        match check.step(&self.aim.bucket, link) {
            CheckTurn::Goes(check) => Turn::Goes(Stage::Check(check)),
            CheckTurn::Pends(check) => Turn::Stops(Step::Pending(Stage::Check(check))),
            CheckTurn::Passes => {
                self.checked = true;
                Turn::Goes(Stage::Fill)
            }
            CheckTurn::Fails(error) => Turn::Stops(Step::Failed(error)),
        }
    }

    // The next full chunk, which has this place among those of its command.
    fn next_chunk<I: IdSource>(&mut self, ids: &mut I, place: u32) -> Result<Document, Error>
        requires buffer { HasBuffer self.old }
        requires full { self.old.aim.size ≤ length (held_of self.old.buffer) }
        requires small { self.old.sent + place < 2 ^ 31 }
        ensures chunk { IfOk result (λ d. d ≡ chunk_document (I.ids ids.old 0) (tree self.old.aim.id) (self.old.sent + place) (take self.old.aim.size (held_of self.old.buffer))) }
        ensures err { IfErr result (λ e. e ≡ plain kinds.OutOfMemory) }
        ensures left { held_of self.new.buffer ≡ drop self.old.aim.size (held_of self.old.buffer) }
        ensures same { SameButBytes (worker_of self.old) (worker_of self.new) × HasBuffer self.new }
        ensures drawn { AreLater (I.ids ids.old) 1 (I.ids ids.new) }
        ensures twelve { length (I.ids ids.old 0) ≡ 12 }
    {
        let alloc = self.aim.alloc;
        match self.buffer.pop() {
            Some(bytes) => {
                let id = drawn(ids);
                let number = self.sent + place;
                chunk_document(alloc, id, &self.aim.id, number, bytes)
            }
            None => unreachable!(),
        }
    }

    // The first of the next full chunks, and how many go with it into one command.
    fn begin_chunks<I: IdSource>(&mut self, ids: &mut I) -> Result<Begun, Error>
        requires buffer { HasBuffer self.old }
        requires sound { HasBounds (worker_of self.old) }
        requires full { self.old.aim.size ≤ length (held_of self.old.buffer) }
        ensures ok { IfOk result (λ b. BeginsPortion (I.ids ids.old) (I.ids ids.new) (worker_of self.old) (worker_of self.new) b) }
        ensures err { IfErr result (λ e. FailsBy (CannotFill (worker_of self.old) (I.ids ids.old)) e) }
        ensures same { SameButBytes (worker_of self.old) (worker_of self.new) × HasBuffer self.new }
        ensures drawn { OnErr result ((n : ℕ) × (n * self.old.aim.size ≤ length (held_of self.old.buffer)) × AreLater (I.ids ids.old) n (I.ids ids.new)) }
    {
        last_number(self.sent, 1)?;
        let held = self.buffer.full_chunks();
        let first = self.next_chunk(ids, 0)?;
        let length = length_of(&first)?;
        let count = as_many(documents_together(length), held);
        let _last = last_number(self.sent, count)?;
        Ok(Begun { first, count })
    }

    // The next full chunks, as many as one command inserts.
    fn next_chunks<I: IdSource>(&mut self, ids: &mut I) -> Result<Taken, Error>
        requires buffer { HasBuffer self.old }
        requires sound { HasBounds (worker_of self.old) }
        requires full { self.old.aim.size ≤ length (held_of self.old.buffer) }
        ensures ok { IfOk result (λ t. TakesPortion (I.ids ids.old) (I.ids ids.new) (worker_of self.old) (worker_of self.new) t) }
        ensures err { IfErr result (λ e. FailsBy (CannotFill (worker_of self.old) (I.ids ids.old)) e) }
        ensures same { SameButBytes (worker_of self.old) (worker_of self.new) × HasBuffer self.new }
        ensures drawn { OnErr result ((n : ℕ) × (n * self.old.aim.size ≤ length (held_of self.old.buffer)) × AreLater (I.ids ids.old) n (I.ids ids.new)) }
    {
        let Begun { first, count } = self.begin_chunks(ids)?;
        let mut documents = one(self.aim.alloc, first)?;
        for place in 1..count {
            let next = self.next_chunk(ids, place)?;
            documents.push(next)?;
        }
        Ok(Taken { documents, count })
    }

    // The insert of the next full chunks.
    fn next_portion<I: IdSource>(&mut self, ids: &mut I) -> Result<Portion, Error>
        requires buffer { HasBuffer self.old }
        requires sound { HasBounds (worker_of self.old) }
        requires full { self.old.aim.size ≤ length (held_of self.old.buffer) }
        ensures ok { IfOk result (λ p. BuildsPortion (I.ids ids.old) (I.ids ids.new) (worker_of self.old) (worker_of self.new) p) }
        ensures err { IfErr result (λ e. FailsBy (CannotFill (worker_of self.old) (I.ids ids.old)) e) }
        ensures same { SameButBytes (worker_of self.old) (worker_of self.new) × HasBuffer self.new }
        ensures drawn { OnErr result ((n : ℕ) × (n * self.old.aim.size ≤ length (held_of self.old.buffer)) × AreLater (I.ids ids.old) n (I.ids ids.new)) }
    {
        let Taken { documents, count } = self.next_chunks(ids)?;
        let exec = insert_chunks(&self.aim.bucket, documents)?;
        Ok(Portion { exec, count })
    }

    // The full chunks are inserted, as many as are left.
    fn fill<L: Link, I: IdSource>(&mut self, link: &mut L, ids: &mut I) -> Turn
        requires buffer { HasBuffer self.old }
        requires sound { HasBounds (worker_of self.old) }
        // The tickets of others, the counts, the wire version and the promptness of the link.
        ensures keeps { LinkKeeps (moment (L.awaited link.old) (L.log link.old) (L.faults link.old) (L.pends link.old) (L.wire link.old) (L.prompt link.old))
            (moment (L.awaited link.new) (L.log link.new) (L.faults link.new) (L.pends link.new) (L.wire link.new) (L.prompt link.new))
            (None) (turn_ticket result) (turn_ending result) }
        ensures turns { (drawn : ℕ) × AreLater (I.ids ids.old) drawn (I.ids ids.new) × TurnsOn (L.awaited link.old) (L.awaited link.new) (L.log link.old) (L.log link.new) (L.wire link.old) (I.ids ids.old) drawn (worker_of self.old) (worker_of self.new) fills result }
        ensures same { SameButBytes (worker_of self.old) (worker_of self.new) × HasBuffer self.new }
    {
        if !self.has_chunk() {
            return Turn::Stops(Step::Done(()));
        }
        match self.next_portion(ids) {
            Ok(Portion { exec, count }) => Turn::Goes(Stage::Insert(exec, count)),
            Err(error) => self.fail(link, error),
        }
    }

    // Waits for the reply to an insert of full chunks.
    fn insert<L: Link>(&mut self, link: &mut L, exec: Exec, count: u32) -> Turn
        requires held { IsOut (L.awaited link.old) (ticket_of exec) }
        requires sound { IsSoundPhase (worker_of self.old) (inserts exec count) }
        // The tickets of others, the counts, the wire version and the promptness of the link.
        ensures keeps { LinkKeeps (moment (L.awaited link.old) (L.log link.old) (L.faults link.old) (L.pends link.old) (L.wire link.old) (L.prompt link.old))
            (moment (L.awaited link.new) (L.log link.new) (L.faults link.new) (L.pends link.new) (L.wire link.new) (L.prompt link.new))
            (ticket_of exec) (turn_ticket result) (turn_ending result) }
        ensures turns { (given : ℕ → List ℕ) → TurnsOn (L.awaited link.old) (L.awaited link.new) (L.log link.old) (L.log link.new) (L.wire link.old) given 0 (worker_of self.old) (worker_of self.new) (inserts exec count) result }
        ensures buffer { self.new.buffer ≡ self.old.buffer }
        ensures aim { self.new.aim ≡ self.old.aim }
    {
        match exec.poll(link) {
            Step::Pending(exec) => Turn::Stops(Step::Pending(Stage::Insert(exec, count))),
            Step::Done(reply) => {
                match read_inserted(self.aim.alloc, &reply.as_raw(), count as usize) {
                    Ok(_n) => {
                        let sent = self.sent + count;
                        self.sent = sent;
                        Turn::Goes(Stage::Fill)
                    }
                    Err(error) => self.fail(link, error),
                }
            }
            Step::Failed(error) => self.fail(link, error),
        }
    }

    // The insert of what is left, as the last chunk.
    fn last_portion<I: IdSource>(&mut self, ids: &mut I) -> Result<Exec, Error>
        requires buffer { HasBuffer self.old }
        requires short { IsShort (worker_of self.old) }
        ensures ok { IfOk result (λ s. BuildsLast (I.ids ids.old) (I.ids ids.new) (worker_of self.old) (worker_of self.new) s) }
        ensures err { IfErr result (λ e. FailsBy (CannotEnd (worker_of self.old) (chunk_document (I.ids ids.old 0) (tree self.old.aim.id) self.old.sent (held_of self.old.buffer) ∷ [])) e) }
        ensures same { SameButBytes (worker_of self.old) (worker_of self.new) × HasBuffer self.new }
        ensures drawn { OnErr result ((n : ℕ) × (n ≤ 1) × AreLater (I.ids ids.old) n (I.ids ids.new)) }
    {
        last_number(self.sent, 1)?;
        let alloc = self.aim.alloc;
        let bytes = self.buffer.take_rest();
        let id = drawn(ids);
        let document = chunk_document(alloc, id, &self.aim.id, self.sent, bytes)?;
        let documents = one(alloc, document)?;
        insert_chunks(&self.aim.bucket, documents)
    }

    // What a close stores next, where the bytes left fill no chunk.
    fn closing(&self) -> Closing
        requires buffer { HasBuffer self.now }
        requires short { IsShort (worker_of self.now) }
        ensures { result ≡ next_in_close (length (worker_of self.now).behind) }
    {
        next_in_close(self.buffer.rest_len())
    }

    // What is left is inserted as the last chunk, where something is.
    fn rest<L: Link, I: IdSource>(&mut self, link: &mut L, ids: &mut I, time: DateTime) -> Turn
        requires buffer { HasBuffer self.old }
        requires sound { HasBounds (worker_of self.old) }
        requires short { IsShort (worker_of self.old) }
        // The tickets of others, the counts, the wire version and the promptness of the link.
        ensures keeps { LinkKeeps (moment (L.awaited link.old) (L.log link.old) (L.faults link.old) (L.pends link.old) (L.wire link.old) (L.prompt link.old))
            (moment (L.awaited link.new) (L.log link.new) (L.faults link.new) (L.pends link.new) (L.wire link.new) (L.prompt link.new))
            (None) (turn_ticket result) (turn_ending result) }
        ensures turns { (drawn : ℕ) × AreLater (I.ids ids.old) drawn (I.ids ids.new) × TurnsOn (L.awaited link.old) (L.awaited link.new) (L.log link.old) (L.log link.new) (L.wire link.old) (I.ids ids.old) drawn (worker_of self.old) (worker_of self.new) (rests time.millis) result }
        ensures same { SameButBytes (worker_of self.old) (worker_of self.new) × HasBuffer self.new }
    {
        let length = self.length();
        let ending = Ending {
            length,
            moment: time,
        };
        match self.closing() {
            Closing::Record => Turn::Goes(Stage::End(ending)),
            Closing::LastChunk => match self.last_portion(ids) {
                Ok(exec) => Turn::Goes(Stage::Last(exec, ending)),
                Err(error) => self.fail(link, error),
            },
        }
    }

    // Waits for the reply to the insert of the last chunk.
    fn last<L: Link>(&self, link: &mut L, exec: Exec, ending: Ending) -> Turn
        requires { IsOut (L.awaited link.old) (ticket_of exec) }
        // The tickets of others, the counts, the wire version and the promptness of the link.
        ensures keeps { LinkKeeps (moment (L.awaited link.old) (L.log link.old) (L.faults link.old) (L.pends link.old) (L.wire link.old) (L.prompt link.old))
            (moment (L.awaited link.new) (L.log link.new) (L.faults link.new) (L.pends link.new) (L.wire link.new) (L.prompt link.new))
            (ticket_of exec) (turn_ticket result) (turn_ending result) }
        ensures turns { (given : ℕ → List ℕ) → TurnsOn (L.awaited link.old) (L.awaited link.new) (L.log link.old) (L.log link.new) (L.wire link.old) given 0 (worker_of self.now) (worker_of self.now) (lasts exec (ending_view ending)) result }
    {
        match exec.poll(link) {
            Step::Pending(exec) => Turn::Stops(Step::Pending(Stage::Last(exec, ending))),
            Step::Done(reply) => match read_inserted(self.aim.alloc, &reply.as_raw(), 1) {
                Ok(_n) => Turn::Goes(Stage::End(ending)),
                Err(error) => self.fail(link, error),
            },
            Step::Failed(error) => self.fail(link, error),
        }
    }

    // The insert of the record.
    fn record_insert(&self, ending: Ending) -> Result<Exec, Error>
        requires length { ending.length < 2 ^ 63 }
        requires sound { HasBounds (worker_of self.now) }
        ensures ok { IfOk result (λ s. IsNewRequest false (record_lines (worker_of self.now).aim.bucket (record_of (worker_of self.now).aim (ending_view ending))) s) }
        ensures err { IfErr result (λ e. FailsBy (CannotStore (record_lines (worker_of self.now).aim.bucket (record_of (worker_of self.now).aim (ending_view ending))) (record_of (worker_of self.now).aim (ending_view ending) ∷ [])) e) }
    {
        let document = record_document(&self.aim, ending)?;
        insert_record(&self.aim.bucket, document)
    }

    // The record is inserted.
    fn end<L: Link>(&self, link: &mut L, ending: Ending) -> Turn
        requires length { ending.length < 2 ^ 63 }
        requires sound { HasBounds (worker_of self.now) }
        // The tickets of others, the counts, the wire version and the promptness of the link.
        ensures keeps { LinkKeeps (moment (L.awaited link.old) (L.log link.old) (L.faults link.old) (L.pends link.old) (L.wire link.old) (L.prompt link.old))
            (moment (L.awaited link.new) (L.log link.new) (L.faults link.new) (L.pends link.new) (L.wire link.new) (L.prompt link.new))
            (None) (turn_ticket result) (turn_ending result) }
        ensures turns { (given : ℕ → List ℕ) → TurnsOn (L.awaited link.old) (L.awaited link.new) (L.log link.old) (L.log link.new) (L.wire link.old) given 0 (worker_of self.now) (worker_of self.now) (ends (ending_view ending)) result }
    {
        match self.record_insert(ending) {
            Ok(exec) => Turn::Goes(Stage::Record(exec, ending)),
            Err(error) => self.fail(link, error),
        }
    }

    // Waits for the reply to the insert of the record.
    fn keep<L: Link>(&self, link: &mut L, exec: Exec, ending: Ending) -> Turn
        requires { IsOut (L.awaited link.old) (ticket_of exec) }
        // The tickets of others, the counts, the wire version and the promptness of the link.
        ensures keeps { LinkKeeps (moment (L.awaited link.old) (L.log link.old) (L.faults link.old) (L.pends link.old) (L.wire link.old) (L.prompt link.old))
            (moment (L.awaited link.new) (L.log link.new) (L.faults link.new) (L.pends link.new) (L.wire link.new) (L.prompt link.new))
            (ticket_of exec) (turn_ticket result) (turn_ending result) }
        ensures turns { (given : ℕ → List ℕ) → TurnsOn (L.awaited link.old) (L.awaited link.new) (L.log link.old) (L.log link.new) (L.wire link.old) given 0 (worker_of self.now) (worker_of self.now) (records exec (ending_view ending)) result }
    {
        match exec.poll(link) {
            Step::Pending(exec) => Turn::Stops(Step::Pending(Stage::Record(exec, ending))),
            Step::Done(reply) => match read_inserted(self.aim.alloc, &reply.as_raw(), 1) {
                Ok(_n) => Turn::Stops(Step::Done(())),
                Err(error) => self.fail(link, error),
            },
            Step::Failed(error) => self.fail(link, error),
        }
    }

    // ---- all of it

    // One step, which sends one command at most, with the way back behind it where it fails.
    fn step<L: Link, I: IdSource>(&mut self, link: &mut L, ids: &mut I, stage: Stage) -> Turn
        requires held { IsOut (L.awaited link.old) (phase_ticket (phase_of stage)) }
        requires sound { HasBounds (worker_of self.old) × IsSoundPhase (worker_of self.old) (phase_of stage) }
        requires buffer { HasBuffer self.old }
        // The tickets of others, the counts, the wire version and the promptness of the link.
        ensures keeps { LinkKeeps (moment (L.awaited link.old) (L.log link.old) (L.faults link.old) (L.pends link.old) (L.wire link.old) (L.prompt link.old))
            (moment (L.awaited link.new) (L.log link.new) (L.faults link.new) (L.pends link.new) (L.wire link.new) (L.prompt link.new))
            (phase_ticket (phase_of stage)) (turn_ticket result) (ending_beside (turn_ending result) (error_behind (phase_of stage))) }
        ensures turns { (drawn : ℕ) × AreLater (I.ids ids.old) drawn (I.ids ids.new) × TurnsOn (L.awaited link.old) (L.awaited link.new) (L.log link.old) (L.log link.new) (L.wire link.old) (I.ids ids.old) drawn (worker_of self.old) (worker_of self.new) (phase_of stage) result }
        ensures buffer { HasBuffer self.new }
        ensures falls { TurnFalls (worker_of self.old) (phase_of stage) (worker_of self.new) result }
    {
        match stage {
            Stage::Begin => self.begin(link),
            Stage::Check(check) => self.check(link, check),
            Stage::Fill => self.fill(link, ids),
            Stage::Insert(exec, count) => self.insert(link, exec, count),
            Stage::Rest(moment) => self.rest(link, ids, moment),
            Stage::Last(exec, ending) => self.last(link, exec, ending),
            Stage::End(ending) => self.end(link, ending),
            Stage::Record(exec, ending) => self.keep(link, exec, ending),
            Stage::Back(back) => Turn::Stops(on_the_way_back(self.back(link, back))),
        }
    }

    // Goes on until a reply pends, or to the end of the call.
    pub(crate) fn drive<L: Link, I: IdSource>(
        &mut self,
        link: &mut L,
        ids: &mut I,
        stage: Stage,
    ) -> Step<Stage, ()>
        requires held { IsOut (L.awaited link.old) (phase_ticket (phase_of stage)) }
        requires sound { HasBounds (worker_of self.old) × IsSoundPhase (worker_of self.old) (phase_of stage) }
        requires buffer { HasBuffer self.old }
        // The tickets of others, the counts, the wire version and the promptness of the link.
        ensures keeps { LinkKeeps (moment (L.awaited link.old) (L.log link.old) (L.faults link.old) (L.pends link.old) (L.wire link.old) (L.prompt link.old))
            (moment (L.awaited link.new) (L.log link.new) (L.faults link.new) (L.pends link.new) (L.wire link.new) (L.prompt link.new))
            (phase_ticket (phase_of stage)) (step_ticket result) (ending_beside (step_ending result) (error_behind (phase_of stage))) }
        ensures drives { (drawn : ℕ) × AreLater (I.ids ids.old) drawn (I.ids ids.new) × DrivesOn (L.awaited link.old) (L.awaited link.new) (L.log link.old) (L.log link.new) (L.wire link.old) (I.ids ids.old) drawn (worker_of self.old) (worker_of self.new) (phase_of stage) result }
        ensures buffer { HasBuffer self.new }
    {
        let mut stage = stage;
        'steps: loop {
            match self.step(link, ids, stage) {
                Turn::Goes(next) => stage = next,
                Turn::Stops(step) => return step,
            }
        }
    }

    // Takes bytes behind the others. Where memory runs out it takes none.
    pub(crate) fn take(&mut self, bytes: &[u8]) -> bool
        requires { HasBuffer self.old }
        ensures taken { worker_of self.new ≡ (if result then with_bytes bytes.now (worker_of self.old) else worker_of self.old) }
        ensures buffer { HasBuffer self.new }
    {
        match self.buffer.take(bytes) {
            Ok(()) => true,
            Err(_error) => false,
        }
    }

    // Whether a full chunk is held.
    pub(crate) fn has_chunk(&self) -> bool
        requires { HasBuffer self.now }
        ensures { result ≡ nat_le (worker_of self.now).aim.size (length (worker_of self.now).behind) }
    {
        self.buffer.full_chunks() > 0
    }
}
