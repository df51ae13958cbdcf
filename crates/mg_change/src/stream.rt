//! A change stream over any link.
ghost use Rattle.std.specs.Prelude.{◌≡◌, ◌↔◌, ◌++◌, ℕ, IsTrue, List, Option, None, false};
ghost use Rattle.mg_bson.specs.Tree.{Fields};
ghost use Rattle.mg_link.specs.Acts.{IsOut};
ghost use Rattle.mg_server.specs.Follow.{Moved};
ghost use Rattle.mg_link.specs.Moment.{LinkKeeps, moment};
ghost use Rattle.mg_server.specs.State.{Start, Watch};
ghost use Rattle.mg_change.specs.Causes.{CallCaused, TryCaused};
ghost use Rattle.mg_change.specs.ClientStreams.{Asks, IsAlive, lends_nothing, stream_ticket, stream_token};
ghost use Rattle.mg_change.specs.ClosingStreams.{LandsFor, closed_stream, stream_closing_ticket};
ghost use Rattle.mg_change.specs.Following.{event_told, follow_of, try_told};
ghost use Rattle.mg_change.specs.SeekCauses.{SeekCaused};
ghost use Rattle.mg_change.specs.Sent.{CallSent, SeekSent, TrySent};
ghost use Rattle.mg_change.specs.StreamCalls.{CallCopies, CallLends, LeavesCall, LeavesSeek, LeavesTry, SeeksEvent, event_ending, try_ending};
ghost use Rattle.mg_change.specs.StreamView.{IsPlainStream, OwnsToken, stream_of};

use crate::changes::Changes;
use crate::closing::Closing;
use crate::event_poll::EventPoll;
use mg_bson::RawDocument;
use mg_cursor::TryPoll;
use mg_link::{ImplicitClientSessionHandle, Link};
use mg_options::TokenRef;
use std::marker::PhantomData;

/// A stream of the changes of a collection, a database or the cluster. It goes on behind its resume token after
/// faults of the link and refusals that pass (change streams specification). Events are
/// lent from the batch that they came in; [`ReadRaw`](mg_cursor::ReadRaw) reads one as a `T`.
///
/// One that is dropped sends nothing: [`close`](ChangeStream::close) kills its cursor.
pub struct ChangeStream<T> {
    pub(crate) changes: Changes,
    pub(crate) event: PhantomData<T>,
}

// By hand, so that letting one go is one call.
impl<T> Drop for ChangeStream<T> {
    fn drop(self) {
        let ChangeStream {
            changes: _,
            event: _,
        } = self;
    }
}

impl<T> ChangeStream<T> {
    /// Goes on to the next event, which [`current`](ChangeStream::current) lends then: `Waiting` where a batch came empty, `Exhausted`
    /// where the server holds no cursor. A call goes on over several polls while replies pend; it sends at most one getMore,
    /// two aggregates and one killCursors. It takes no memory for an event that was received.
    ///
    /// It fails with [`ErrorKind::MissingResumeToken`](mg_link::ErrorKind::MissingResumeToken) where the next event has no `_id`,
    /// which is passed over; with the failure of an aggregate that resumes the stream, or what is malformed in the reply to it; where a
    /// command cannot be sent; with a refusal of a getMore that does not resume; and for want of memory. After a failure the token and the
    /// events that were not given stay. Where a batch may be lost, the next call first resumes behind the token.
    pub fn poll_advance_if_any<L: Link>(&mut self, link: &mut L) -> TryPoll
        requires held { IsOut (L.awaited link.old) (stream_ticket (stream_of self.old)) }
        // What is on its way is its own.
        requires sound { IsPlainStream self.old }
        // The tickets of others, the counts, the wire version and the promptness of the link.
        ensures keeps { LinkKeeps (moment (L.awaited link.old) (L.log link.old) (L.faults link.old) (L.pends link.old) (L.wire link.old) (L.prompt link.old))
            (moment (L.awaited link.new) (L.log link.new) (L.faults link.new) (L.pends link.new) (L.wire link.new) (L.prompt link.new))
            (stream_ticket (stream_of self.old)) (stream_ticket (stream_of self.new)) (try_ending result) }
        ensures sound { IsPlainStream self.new }
        // Which commands it sent, what it gave, and how the stream stands behind that.
        ensures does { (steps starts : ℕ) × CallLends steps (L.awaited link.old) (L.awaited link.new) (L.log link.old) (L.log link.new) (L.wire link.old) None starts (stream_of self.old) (stream_of self.new) result }
        // A call that has ended leaves nothing on its way; nothing is answered only where nothing is owed or in hand.
        ensures leaves { LeavesTry result (stream_of self.new) }
        // At most one getMore, two aggregates and one killCursors in a call, of the cursor that these replaced.
        ensures sent { TrySent (L.awaited link.old) (L.log link.old) (L.log link.new) (L.wire link.old) None (stream_of self.old) (stream_of self.new) result }
        // What in the log is the cause of the answer, over all polls of a call.
        ensures caused { TryCaused (L.awaited link.old) (L.awaited link.new) (L.log link.old) (L.log link.new) (L.wire link.old) None (stream_of self.old) (stream_of self.new) result }
        // Over an honest link it gives the entries that it watches, each once and in their order.
        ensures moved { (w : Watch) (start : Start) → Asks (stream_of self.old).aggregate.args w start → (opened : Option ℕ) (answered : List Fields)
            → Moved (L.log link.old) (L.log link.new) (follow_of (L.awaited link.old) w start (stream_of self.old) opened answered)
            (follow_of (L.awaited link.new) w start (stream_of self.new) opened (answered ++ try_told result (stream_of self.new).current)) }
    {
        let mut handle = ImplicitClientSessionHandle(None);
        self.changes.poll_advance_if_any(&mut handle, link)
    }

    /// A copy of the next event, or none where nothing is there. Its token is copied beside it. A call goes on over several polls while
    /// replies pend; it sends at most one getMore, two aggregates and one killCursors.
    ///
    /// It fails as [`poll_advance_if_any`](ChangeStream::poll_advance_if_any) does, and where memory runs out as the event is copied;
    /// then the event is next still.
    pub fn poll_next_if_any<L: Link>(&mut self, link: &mut L) -> EventPoll
        requires held { IsOut (L.awaited link.old) (stream_ticket (stream_of self.old)) }
        // What is on its way is its own.
        requires sound { IsPlainStream self.old }
        // The tickets of others, the counts, the wire version and the promptness of the link.
        ensures keeps { LinkKeeps (moment (L.awaited link.old) (L.log link.old) (L.faults link.old) (L.pends link.old) (L.wire link.old) (L.prompt link.old))
            (moment (L.awaited link.new) (L.log link.new) (L.faults link.new) (L.pends link.new) (L.wire link.new) (L.prompt link.new))
            (stream_ticket (stream_of self.old)) (stream_ticket (stream_of self.new)) (event_ending result) }
        ensures sound { IsPlainStream self.new }
        // A token of its own stays its own.
        ensures owned { OwnsToken self.old → OwnsToken self.new }
        // Which commands it sent, what it gave, and how the stream stands behind that.
        ensures does { (steps starts : ℕ) × CallCopies steps (L.awaited link.old) (L.awaited link.new) (L.log link.old) (L.log link.new) (L.wire link.old) None starts (stream_of self.old) (stream_of self.new) result }
        // A call that has ended leaves nothing on its way; nothing is answered only where nothing is owed or in hand.
        ensures leaves { LeavesCall result (stream_of self.new) }
        // At most one getMore, two aggregates and one killCursors in a call, of the cursor that these replaced.
        ensures sent { CallSent (L.awaited link.old) (L.log link.old) (L.log link.new) (L.wire link.old) None (stream_of self.old) (stream_of self.new) result }
        // What in the log is the cause of the answer, over all polls of a call.
        ensures caused { CallCaused (L.awaited link.old) (L.awaited link.new) (L.log link.old) (L.log link.new) (L.wire link.old) None (stream_of self.old) (stream_of self.new) result }
        // Over an honest link it gives the entries that it watches, each once and in their order.
        ensures moved { (w : Watch) (start : Start) → Asks (stream_of self.old).aggregate.args w start → (opened : Option ℕ) (answered : List Fields)
            → Moved (L.log link.old) (L.log link.new) (follow_of (L.awaited link.old) w start (stream_of self.old) opened answered)
            (follow_of (L.awaited link.new) w start (stream_of self.new) opened (answered ++ event_told result)) }
    {
        let mut handle = ImplicitClientSessionHandle(None);
        self.changes.poll_next_if_any(&mut handle, link)
    }

    /// A copy of the next event; none only where the server holds no cursor, nothing is in hand and no resumption is owed. A call
    /// goes on over several polls while replies pend.
    ///
    /// It fails as [`poll_next_if_any`](ChangeStream::poll_next_if_any) does, and with
    /// [`ErrorKind::EmptyBatches`](mg_link::ErrorKind::EmptyBatches) at the 1,000th empty reply in a row, and at the 1,000th
    /// resumption that gave no event and left the cursor open.
    pub fn poll_next<L: Link>(&mut self, link: &mut L) -> EventPoll
        requires held { IsOut (L.awaited link.old) (stream_ticket (stream_of self.old)) }
        // What is on its way is its own.
        requires sound { IsPlainStream self.old }
        // The tickets of others, the counts, the wire version and the promptness of the link.
        ensures keeps { LinkKeeps (moment (L.awaited link.old) (L.log link.old) (L.faults link.old) (L.pends link.old) (L.wire link.old) (L.prompt link.old))
            (moment (L.awaited link.new) (L.log link.new) (L.faults link.new) (L.pends link.new) (L.wire link.new) (L.prompt link.new))
            (stream_ticket (stream_of self.old)) (stream_ticket (stream_of self.new)) (event_ending result) }
        ensures sound { IsPlainStream self.new }
        // A token of its own stays its own.
        ensures owned { OwnsToken self.old → OwnsToken self.new }
        // Which commands it sent, how many empty replies it got, what it gave, and how the stream stands behind that.
        ensures does { (empties starts : ℕ) × SeeksEvent empties (L.awaited link.old) (L.awaited link.new) (L.log link.old) (L.log link.new) (L.wire link.old) None starts (lends_nothing (stream_of self.old)) (stream_of self.new) result }
        // A call that has ended leaves nothing on its way; nothing is answered only where nothing is owed or in hand.
        ensures leaves { LeavesSeek result (stream_of self.new) }
        // getMores of its cursors, aggregates that resume it, and killings of the cursors that these replaced, and nothing else.
        ensures sent { SeekSent (L.awaited link.old) (L.log link.old) (L.log link.new) (L.wire link.old) None (stream_of self.old) }
        // What in the log is the cause of the answer, over all polls of a call.
        ensures caused { SeekCaused (L.awaited link.old) (L.awaited link.new) (L.log link.old) (L.log link.new) (L.wire link.old) None (stream_of self.old) (stream_of self.new) result }
        // Over an honest link it gives the entries that it watches, each once and in their order.
        ensures moved { (w : Watch) (start : Start) → Asks (stream_of self.old).aggregate.args w start → (opened : Option ℕ) (answered : List Fields)
            → Moved (L.log link.old) (L.log link.new) (follow_of (L.awaited link.old) w start (stream_of self.old) opened answered)
            (follow_of (L.awaited link.new) w start (stream_of self.new) opened (answered ++ event_told result)) }
    {
        let mut handle = ImplicitClientSessionHandle(None);
        self.changes.poll_next(&mut handle, link)
    }

    /// The event that the last call gave, a part of the reply's own bytes; none where it gave none.
    pub fn current(&self) -> Option<RawDocument<'_>>
        ensures { result ≡ (stream_of self.now).current }
    {
        self.changes.current()
    }

    /// The token behind the last event that was given, or behind a batch that came empty. It is lent, and lies in the reply in hand
    /// where it can.
    pub fn resume_token(&self) -> Option<TokenRef<'_>>
        ensures { result ≡ stream_token (stream_of self.now) }
    {
        self.changes.resume_token()
    }

    /// Whether the server may have more: it holds the cursor, or a resumption is owed.
    pub fn is_alive(&self) -> bool
        ensures { IsTrue result ↔ IsAlive (stream_of self.now) }
    {
        self.changes.is_alive()
    }

    /// The number of the ticket that it holds, while it waits for a reply.
    pub fn ticket_number(&self) -> Option<u64>
        ensures { result ≡ stream_ticket (stream_of self.now) }
    {
        self.changes.ticket_number()
    }

    /// The same stream, whose events are read as another type.
    pub fn with_type<D>(self) -> ChangeStream<D>
        ensures same { stream_of result ≡ stream_of self }
        ensures sound { IsPlainStream self → IsPlainStream result }
        ensures owned { OwnsToken self → OwnsToken result }
    {
        let ChangeStream { changes, event: _ } = self;
        ChangeStream {
            changes,
            event: PhantomData,
        }
    }

    /// Closes the stream. Nothing is sent until the closing is polled. Its token goes with the closing
    /// ([`Closing::hand_over`](crate::Closing::hand_over)).
    pub fn close(self) -> Closing
        requires sound { IsPlainStream self }
        ensures closed { result ≡ closed_stream result.lent (stream_of self) }
        // A reply that is waited for is waited for still.
        ensures ticket { stream_closing_ticket result ≡ stream_ticket (stream_of self) }
        // A token of its own is handed over without memory.
        ensures owned { OwnsToken self → result.lent ≡ false }
        // What is on its way is of this stream.
        ensures lands_for { (w : Watch) (start : Start) → Asks (stream_of self).aggregate.args w start → LandsFor w start (stream_token (stream_of self)) result }
    {
        let ChangeStream { changes, event: _ } = self;
        changes.close()
    }
}
