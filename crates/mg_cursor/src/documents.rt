//! The documents of a cursor, one machine for all cursors that give them.
ghost use Rattle.std.specs.Prelude.{◌≡◌, ◌↔◌, ◌⊎◌, ℕ, IsTrue, Bool, false, true, is_some};
ghost use Rattle.mg_link.specs.Acts.{IsOut};
ghost use Rattle.mg_link.specs.Causes.{one_if};
ghost use Rattle.mg_link.specs.Moment.{LinkKeeps, moment};
ghost use Rattle.mg_server.specs.Reader.{ReadMoved, Reader};
ghost use Rattle.mg_ops.specs.Naming.{IsNamed};
ghost use Rattle.mg_link.specs.Errors.{plain};
ghost use Rattle.mg_link.specs.declared.error.ErrorKind.TheVariants as kind;
ghost use Rattle.mg_cursor.specs.Client.{IsSound, PlainIf, client_ticket, new_client, pinned_to};
ghost use Rattle.mg_cursor.specs.Closing.{closed};
ghost use Rattle.mg_cursor.specs.Documents.{AdvancesOnce, Fills, HasMore, ReadsAs, new_documents, try_ending};
ghost use Rattle.mg_cursor.specs.Reading.{reader_of, told_advance, told_item, told_try};
ghost use Rattle.mg_cursor.specs.Seeking.{CopiesIf, CountsOne, EndsSeeking, ItemLeaves, KeepsCount, KeepsCountBy, MayEnd, SeekCaused, SeekLeaves, SeeksDocument, SeeksItem, TriesAdvance, TryLeaves, advance_ending, ended_as, item_ending, kept_behind, times};
ghost use Rattle.mg_cursor.specs.View.{document_cursor};
ghost use Rattle.mg_cursor.specs.declared.polls.ItemPoll.TheVariants as polled;

use crate::batches::Batches;
use crate::buffer::BatchBuffer;
use crate::closing::Closing;
use crate::polls::{AdvancePoll, ItemPoll, NextPoll, TryPoll};
use crate::raw_batch::RawBatch;
use crate::results::AdvanceResult;
use mg_bson::RawDocument;
use mg_link::{ClientSessionHandle, Error, ErrorKind, Link, plain};
use mg_ops::CursorSpecification;
use mg_records::ReadRaw;
use std::alloc::Global;

/// So many empty replies in a row are too many for one call.
const TOO_MANY: u32 = 1000;

// A cursor that gives its documents one by one.
pub(crate) struct Documents {
    pub(crate) batches: Batches,
    pub(crate) buffer: BatchBuffer,
    // How many empty replies in a row a call got that goes on.
    empty: u32,
}

// By hand, so that letting one go is one call.
impl Drop for Documents {
    fn drop(self) {
        let Documents {
            batches: _,
            buffer: _,
            empty: _,
        } = self;
    }
}

impl Documents {
    // Before the first document of an opening.
    pub(crate) fn new(alloc: Global, specification: CursorSpecification) -> Documents
        ensures { document_cursor result ≡ new_documents (new_client specification) }
    {
        Documents {
            batches: Batches::new(alloc, specification),
            buffer: BatchBuffer::new(),
            empty: 0,
        }
    }

    pub(crate) fn pin(&mut self, id: u64)
        ensures { document_cursor self.new ≡ record (document_cursor self.old) { cursor = pinned_to id (document_cursor self.old).cursor } }
    {
        self.batches.pin(id);
    }

    // A call with one advance.
    pub(crate) fn poll_try_advance<H: ClientSessionHandle, L: Link>(
        &mut self,
        handle: &mut H,
        link: &mut L,
    ) -> TryPoll
        requires { IsOut (L.awaited link.old) (client_ticket (document_cursor self.old).cursor) }
        // The tickets of others, the counts, the wire version and the promptness of the link.
        ensures keeps { LinkKeeps (moment (L.awaited link.old) (L.log link.old) (L.faults link.old) (L.pends link.old) (L.wire link.old) (L.prompt link.old))
            (moment (L.awaited link.new) (L.log link.new) (L.faults link.new) (L.pends link.new) (L.wire link.new) (L.prompt link.new))
            (client_ticket (document_cursor self.old).cursor) (client_ticket (document_cursor self.new).cursor) (try_ending result) }
        // Which commands it sent, what it gave, and how the cursor stands behind that.
        ensures tries { (started : Bool) × TriesAdvance (L.awaited link.old) (L.awaited link.new) (L.log link.old) (L.log link.new) (L.wire link.old) (H.asked handle.old) started (document_cursor self.old) (document_cursor self.new) result
            × (handle.new ≡ times (one_if started) H.told handle.old) }
        // Whether a document is current.
        ensures current { TryLeaves result (document_cursor self.new).current }
        // What is on its way is the getMore of this cursor.
        ensures sound { (plain : Bool) → IsSound plain (document_cursor self.old).cursor → PlainIf plain (H.asked handle.old) → IsSound plain (document_cursor self.new).cursor }
        // What in the log is the cause of the answer, over all polls of a call.
        ensures caused { (plain : Bool) → IsSound plain (document_cursor self.old).cursor → SeekCaused (L.awaited link.old) (L.awaited link.new) (L.log link.old) (L.log link.new) (L.wire link.old) (H.asked handle.old) (document_cursor self.old) (document_cursor self.new) (try_ending result) }
        // Over an honest link it is a list with a place.
        ensures list { (plain : Bool) → IsSound plain (document_cursor self.old).cursor → IsNamed (document_cursor self.old).cursor.space → (r : Reader)
            → ReadMoved (L.log link.old) (L.log link.new) (reader_of (L.awaited link.old) (document_cursor self.old) r) (reader_of (L.awaited link.new) (document_cursor self.new) (told_try result (document_cursor self.new).current r)) }
    {
        let poll = self.try_advance(handle, link);
        self.leave(&poll);
        poll
    }

    // A call that advances up to a document.
    pub(crate) fn poll_advance<H: ClientSessionHandle, L: Link>(
        &mut self,
        handle: &mut H,
        link: &mut L,
    ) -> AdvancePoll
        requires { IsOut (L.awaited link.old) (client_ticket (document_cursor self.old).cursor) }
        // The tickets of others, the counts, the wire version and the promptness of the link.
        ensures keeps { LinkKeeps (moment (L.awaited link.old) (L.log link.old) (L.faults link.old) (L.pends link.old) (L.wire link.old) (L.prompt link.old))
            (moment (L.awaited link.new) (L.log link.new) (L.faults link.new) (L.pends link.new) (L.wire link.new) (L.prompt link.new))
            (client_ticket (document_cursor self.old).cursor) (client_ticket (document_cursor self.new).cursor) (advance_ending result) }
        // Which commands it sent, how many empty replies it got, and how the cursor stands behind that.
        ensures seeks { (empties starts : ℕ) × SeeksDocument empties (L.awaited link.old) (L.awaited link.new) (L.log link.old) (L.log link.new) (L.wire link.old) (H.asked handle.old) starts (document_cursor self.old) (document_cursor self.new) result
            × (handle.new ≡ times starts H.told handle.old) }
        // Whether a document is current.
        ensures current { SeekLeaves result (document_cursor self.new).current }
        // What is on its way is the getMore of this cursor.
        ensures sound { (plain : Bool) → IsSound plain (document_cursor self.old).cursor → PlainIf plain (H.asked handle.old) → IsSound plain (document_cursor self.new).cursor }
        // What in the log is the cause of the answer, over all polls of a call.
        ensures caused { (plain : Bool) → IsSound plain (document_cursor self.old).cursor → SeekCaused (L.awaited link.old) (L.awaited link.new) (L.log link.old) (L.log link.new) (L.wire link.old) (H.asked handle.old) (document_cursor self.old) (document_cursor self.new) (advance_ending result) }
        // Over an honest link it is a list with a place.
        ensures list { (plain : Bool) → IsSound plain (document_cursor self.old).cursor → IsNamed (document_cursor self.old).cursor.space → (r : Reader)
            → ReadMoved (L.log link.old) (L.log link.new) (reader_of (L.awaited link.old) (document_cursor self.old) r) (reader_of (L.awaited link.new) (document_cursor self.new) (told_advance result (document_cursor self.new).current r)) }
    {
        'replies: loop {
            let poll = self.try_advance(handle, link);
            if !self.goes_on(&poll) {
                return self.end(poll);
            }
        }
    }

    // A call that advances up to a document, and copies it.
    pub(crate) fn poll_next<H: ClientSessionHandle, L: Link>(
        &mut self,
        handle: &mut H,
        link: &mut L,
    ) -> ItemPoll
        requires { IsOut (L.awaited link.old) (client_ticket (document_cursor self.old).cursor) }
        // The tickets of others, the counts, the wire version and the promptness of the link.
        ensures keeps { LinkKeeps (moment (L.awaited link.old) (L.log link.old) (L.faults link.old) (L.pends link.old) (L.wire link.old) (L.prompt link.old))
            (moment (L.awaited link.new) (L.log link.new) (L.faults link.new) (L.pends link.new) (L.wire link.new) (L.prompt link.new))
            (client_ticket (document_cursor self.old).cursor) (client_ticket (document_cursor self.new).cursor) (item_ending result) }
        // Which commands it sent, what it gave, and how the cursor stands behind that.
        ensures seeks { (empties starts : ℕ) × SeeksItem empties (L.awaited link.old) (L.awaited link.new) (L.log link.old) (L.log link.new) (L.wire link.old) (H.asked handle.old) starts (document_cursor self.old) (document_cursor self.new) result
            × (handle.new ≡ times starts H.told handle.old) }
        // The current document.
        ensures current { ItemLeaves result (document_cursor self.new).current }
        // What is on its way is the getMore of this cursor.
        ensures sound { (plain : Bool) → IsSound plain (document_cursor self.old).cursor → PlainIf plain (H.asked handle.old) → IsSound plain (document_cursor self.new).cursor }
        // What in the log is the cause of the answer, over all polls of a call.
        ensures caused { (plain : Bool) → IsSound plain (document_cursor self.old).cursor → SeekCaused (L.awaited link.old) (L.awaited link.new) (L.log link.old) (L.log link.new) (L.wire link.old) (H.asked handle.old) (document_cursor self.old) (document_cursor self.new) (item_ending result) }
        // Over an honest link it is a list with a place.
        ensures list { (plain : Bool) → IsSound plain (document_cursor self.old).cursor → IsNamed (document_cursor self.old).cursor.space → (r : Reader)
            → ReadMoved (L.log link.old) (L.log link.new) (reader_of (L.awaited link.old) (document_cursor self.old) r) (reader_of (L.awaited link.new) (document_cursor self.new) (told_item result (document_cursor self.new).current r)) }
    {
        match self.poll_advance(handle, link) {
            AdvancePoll::Pending => ItemPoll::Pending,
            AdvancePoll::Ready(_there) => self.item(),
            AdvancePoll::Failed(error) => ItemPoll::Failed(error),
        }
    }

    pub(crate) fn current(&self) -> Option<RawDocument<'_>>
        ensures { result ≡ (document_cursor self.now).current }
    {
        self.buffer.current()
    }

    pub(crate) fn has_current(&self) -> bool
        ensures { result ≡ is_some (document_cursor self.now).current }
    {
        self.buffer.current().is_some()
    }

    // The current document as a record.
    pub(crate) fn read_current<T: ReadRaw>(&self) -> Result<T, Error>
        requires { is_some (document_cursor self.now).current ≡ true }
        ensures { ReadsAs T.stands_for T.seen (document_cursor self.now).current result }
    {
        match self.buffer.current() {
            Some(document) => T::read_raw(self.batches.allocator(), document),
            None => unreachable!(),
        }
    }

    pub(crate) fn has_next(&self) -> bool
        ensures { IsTrue result ↔ HasMore (document_cursor self.now) }
    {
        if self.has_current() {
            return true;
        }
        if !self.buffer.is_last() {
            return true;
        }
        self.batches.has_next()
    }

    pub(crate) fn ticket_number(&self) -> Option<u64>
        ensures { result ≡ client_ticket (document_cursor self.now).cursor }
    {
        self.batches.ticket_number()
    }

    pub(crate) fn close(self) -> Closing
        requires { IsSound false (document_cursor self).cursor }
        ensures { result ≡ closed (document_cursor self).cursor }
    {
        let Documents {
            batches,
            buffer: _,
            empty: _,
        } = self;
        batches.close()
    }

    // The next document received, or else the first of the next batch.
    fn try_advance<H: ClientSessionHandle, L: Link>(
        &mut self,
        handle: &mut H,
        link: &mut L,
    ) -> TryPoll
        requires { IsOut (L.awaited link.old) (client_ticket (document_cursor self.old).cursor) }
        // The tickets of others, the counts, the wire version and the promptness of the link.
        ensures keeps { LinkKeeps (moment (L.awaited link.old) (L.log link.old) (L.faults link.old) (L.pends link.old) (L.wire link.old) (L.prompt link.old))
            (moment (L.awaited link.new) (L.log link.new) (L.faults link.new) (L.pends link.new) (L.wire link.new) (L.prompt link.new))
            (client_ticket (document_cursor self.old).cursor) (client_ticket (document_cursor self.new).cursor) (try_ending result) }
        ensures tries { (started : Bool) × AdvancesOnce (L.awaited link.old) (L.awaited link.new) (L.log link.old) (L.log link.new) (L.wire link.old) (H.asked handle.old) started (document_cursor self.old) (document_cursor self.new) result
            × (handle.new ≡ times (one_if started) H.told handle.old) }
        // What is on its way is the getMore of this cursor.
        ensures sound { (plain : Bool) → IsSound plain (document_cursor self.old).cursor → PlainIf plain (H.asked handle.old) → IsSound plain (document_cursor self.new).cursor }
    {
        if self.buffer.advance() {
            return TryPoll::Ready(AdvanceResult::Advanced(()));
        }
        match self.batches.poll_next(handle, link) {
            NextPoll::Pending => TryPoll::Pending,
            NextPoll::Batch(batch) => self.take(batch),
            NextPoll::End => TryPoll::Ready(AdvanceResult::Exhausted),
            NextPoll::Failed(error) => TryPoll::Failed(error),
        }
    }

    // The first document of a batch.
    fn take(&mut self, batch: RawBatch) -> TryPoll
        ensures { Fills (document_cursor self.old) (document_cursor self.old).cursor batch (document_cursor self.new) result }
    {
        match self.buffer.fill(batch) {
            Ok(()) => {
                if self.buffer.advance() {
                    TryPoll::Ready(AdvanceResult::Advanced(()))
                } else {
                    TryPoll::Ready(AdvanceResult::Waiting)
                }
            }
            Err(error) => TryPoll::Failed(error),
        }
    }

    // Whether the call goes on behind an advance: behind an empty reply, which is counted, unless it is one too many.
    fn goes_on(&mut self, poll: &TryPoll) -> bool
        ensures { KeepsCount poll.now (document_cursor self.old) (document_cursor self.new) result }
    {
        match poll {
            TryPoll::Pending => false,
            TryPoll::Ready(advance) => self.goes_behind(advance),
            TryPoll::Failed(_) => false,
        }
    }

    // The same, where no reply pends.
    fn goes_behind(&mut self, advance: &AdvanceResult<()>) -> bool
        ensures { KeepsCountBy advance.now (document_cursor self.old) (document_cursor self.new) result }
    {
        match advance {
            AdvanceResult::Advanced(_) => false,
            AdvanceResult::Exhausted => false,
            AdvanceResult::Waiting => self.count(),
        }
    }

    // Counts an empty reply, unless it is one too many.
    fn count(&mut self) -> bool
        ensures { CountsOne result (document_cursor self.old) (document_cursor self.new) }
    {
        if self.empty >= TOO_MANY - 1 {
            return false;
        }
        self.empty += 1;
        true
    }

    // What the last advance of a call comes to. A call that has ended leaves no count.
    fn end(&mut self, poll: TryPoll) -> AdvancePoll
        requires { MayEnd poll (document_cursor self.old) }
        ensures { EndsSeeking poll (document_cursor self.old) (document_cursor self.new) result }
    {
        match poll {
            TryPoll::Pending => AdvancePoll::Pending,
            TryPoll::Ready(advance) => {
                self.empty = 0;
                ended(advance)
            }
            TryPoll::Failed(error) => {
                self.empty = 0;
                AdvancePoll::Failed(error)
            }
        }
    }

    // A call that has ended leaves no count.
    fn leave(&mut self, poll: &TryPoll)
        ensures { document_cursor self.new ≡ kept_behind poll.now (document_cursor self.old) }
    {
        match poll {
            TryPoll::Pending => {}
            TryPoll::Ready(_) => self.empty = 0,
            TryPoll::Failed(_) => self.empty = 0,
        }
    }

    // What a call that advanced up to a document answers: a copy of it, where there is one.
    fn item(&self) -> ItemPoll
        ensures { CopiesIf (is_some (document_cursor self.now).current) (document_cursor self.now) result }
    {
        match self.buffer.current() {
            Some(document) => copied(self.batches.allocator(), &document),
            None => ItemPoll::End,
        }
    }
}

// What a call answers by its last advance.
fn ended(advance: AdvanceResult<()>) -> AdvancePoll
    ensures { result ≡ ended_as advance }
{
    match advance {
        AdvanceResult::Advanced(()) => AdvancePoll::Ready(true),
        AdvanceResult::Exhausted => AdvancePoll::Ready(false),
        AdvanceResult::Waiting => AdvancePoll::Failed(plain(ErrorKind::EmptyBatches)),
    }
}

// A copy of a document.
fn copied(alloc: Global, document: &RawDocument<'_>) -> ItemPoll
    ensures { (result ≡ polled.Item document.now) ⊎ (result ≡ polled.Failed (plain kind.OutOfMemory)) }
{
    match document.to_buf(alloc) {
        Ok(copy) => ItemPoll::Item(copy),
        Err(_) => ItemPoll::Failed(plain(ErrorKind::OutOfMemory)),
    }
}
