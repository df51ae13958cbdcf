//! A change stream, one machine for all streams.
ghost use Rattle.std.specs.Prelude.{◌≡◌, ◌↔◌, ◌++◌, ℕ, Bool, IsTrue, IfErr, OnErr, OnOk, None, false, List, Option, []};
ghost use Rattle.mg_bson.specs.Tree.{Fields};
ghost use Rattle.mg_link.specs.Acts.{IsOut};
ghost use Rattle.mg_link.specs.Causes.{one_if};
ghost use Rattle.mg_link.specs.Errors.{plain};
ghost use Rattle.mg_server.specs.Follow.{Moved};
ghost use Rattle.mg_link.specs.Moment.{LinkKeeps, moment};
ghost use Rattle.mg_server.specs.State.{Start, Watch};
ghost use Rattle.mg_ops.specs.Failing.{FailsBy};
ghost use Rattle.mg_cursor.specs.Client.{MayAsk, PlainIf, rests};
ghost use Rattle.mg_cursor.specs.Polling.{CannotAsk};
ghost use Rattle.mg_cursor.specs.Seeking.{times};
ghost use Rattle.mg_cursor.specs.View.{client_of, current_of};
ghost use Rattle.mg_change.specs.ClientStreams.{Asks, IsAlive, IsOwed, follows, is_renewed, lends_nothing, new_stream, stream_ticket, stream_token, token_known};
ghost use Rattle.mg_change.specs.ClosingStreams.{closed_stream};
ghost use Rattle.mg_change.specs.Following.{event_told, follow_of, try_told};
ghost use Rattle.mg_change.specs.Causes.{CallCaused, TryCaused};
ghost use Rattle.mg_change.specs.SeekCauses.{SeekCaused};
ghost use Rattle.mg_change.specs.Sent.{CallSent, SeekSent, TrySent};
ghost use Rattle.mg_change.specs.Steps.{DoesStep, FailsMore, NoneToBuild, Prepares, LooksAt};
ghost use Rattle.mg_change.specs.StreamCalls.{CallCopies, CallLends, Falls, LeavesCall, LeavesSeek, LeavesTry, SeeksEvent, event_ending, stepped_ending, steps_left, try_ending, without_event};
ghost use Rattle.mg_change.specs.StreamView.{IsOwnPlace, IsPlaced, IsSavedPlace, IsStream, KeepsOwn, SavesWhile, changes_of, doing_of, is_lent, token_lying};

mod answering;
mod resuming;

use crate::closing::Closing;
use crate::counts::Counts;
use crate::event_poll::{EventPoll, Stepped};
pub(crate) use answering::{event_token, saved_token};
use mg_bson::RawDocument;
use mg_cursor::{AdvanceResult, BatchBuffer, Batches, NextPoll, RawBatch, TryPoll};
use mg_exec::Exec;
use mg_link::{ClientSessionHandle, Error, Link};
use mg_ops::{ChangeStreamAggregate, CursorSpecification};
use mg_options::TokenRef;
use mg_steps::{StreamCommand, TokenPlace};
use std::alloc::Global;
use std::mem;

// What is on its way or owed, besides what the cursor asks for.
#[derive(Drop)]
pub(crate) enum Phase {
    // Nothing: the stream goes on with its cursor.
    Follows,
    // A resumption is owed.
    Owes,
    // The aggregate that resumes the stream.
    Resumes(Exec),
    // The closing of the cursor that a resumption replaced.
    Kills(mg_cursor::Closing),
    // Nothing: the first batch of a resumption is in hand.
    Renewed,
}

// A change stream. How it holds its session is handed to each call.
pub(crate) struct Changes {
    alloc: Global,
    // The aggregate that resumes the stream, with what the stream resumes by.
    aggregate: ChangeStreamAggregate,
    batches: Batches,
    buffer: BatchBuffer,
    token: TokenPlace,
    // Whether the last call gave the current event of the buffer.
    lends: bool,
    phase: Phase,
    // What a call that seeks an event got in vain, while it goes on.
    counts: Counts,
}

// By hand, so that letting one go is one call.
impl Drop for Changes {
    fn drop(self) {
        let Changes {
            alloc: _,
            aggregate: _,
            batches: _,
            buffer: _,
            token: _,
            lends: _,
            phase: _,
            counts: _,
        } = self;
    }
}

impl Changes {
    // The stream of an opening, whose first batch is in hand. What it resumes by is in the aggregate.
    pub(crate) fn new(
        alloc: Global,
        aggregate: ChangeStreamAggregate,
        opened: CursorSpecification,
    ) -> Changes
        ensures seen { changes_of result ≡ new_stream aggregate opened }
        ensures saved { IsSavedPlace result.token }
    {
        Changes {
            alloc,
            aggregate,
            batches: Batches::new(alloc, opened),
            buffer: BatchBuffer::new(),
            token: TokenPlace::Saved,
            lends: false,
            phase: Phase::Follows,
            counts: Counts::none(),
        }
    }

    // A call that lends the next event.
    pub(crate) fn poll_advance_if_any<H: ClientSessionHandle, L: Link>(
        &mut self,
        handle: &mut H,
        link: &mut L,
    ) -> TryPoll
        requires held { IsOut (L.awaited link.old) (stream_ticket (changes_of self.old)) }
        // What is on its way is its own, and its token is where it lies.
        requires sound { IsStream false self.old }
        // The tickets of others, the counts, the wire version and the promptness of the link.
        ensures keeps { LinkKeeps (moment (L.awaited link.old) (L.log link.old) (L.faults link.old) (L.pends link.old) (L.wire link.old) (L.prompt link.old))
            (moment (L.awaited link.new) (L.log link.new) (L.faults link.new) (L.pends link.new) (L.wire link.new) (L.prompt link.new))
            (stream_ticket (changes_of self.old)) (stream_ticket (changes_of self.new)) (try_ending result) }
        // Which commands it sent, what it gave, and how the stream stands behind that.
        ensures does { (steps starts : ℕ) × CallLends steps (L.awaited link.old) (L.awaited link.new) (L.log link.old) (L.log link.new) (L.wire link.old) (H.asked handle.old) starts (changes_of self.old) (changes_of self.new) result
            × (handle.new ≡ times starts H.told handle.old) }
        ensures sound { (plain : Bool) → IsStream plain self.old → PlainIf plain (H.asked handle.old) → IsStream plain self.new }
        // A call that has ended leaves nothing on its way.
        ensures leaves { LeavesTry result (changes_of self.new) }
        // At most one getMore, two aggregates and one killCursors in a call, of the cursor that these replaced.
        ensures sent { TrySent (L.awaited link.old) (L.log link.old) (L.log link.new) (L.wire link.old) (H.asked handle.old) (changes_of self.old) (changes_of self.new) result }
        // What in the log is the cause of the answer, over all polls of a call.
        ensures caused { TryCaused (L.awaited link.old) (L.awaited link.new) (L.log link.old) (L.log link.new) (L.wire link.old) (H.asked handle.old) (changes_of self.old) (changes_of self.new) result }
        // Over an honest link it gives the entries that it watches, each once and in their order.
        ensures moved { (w : Watch) (start : Start) → Asks (changes_of self.old).aggregate.args w start → (opened : Option ℕ) (answered : List Fields)
            → Moved (L.log link.old) (L.log link.new) (follow_of (L.awaited link.old) w start (changes_of self.old) opened answered)
            (follow_of (L.awaited link.new) w start (changes_of self.new) opened (answered ++ try_told result (changes_of self.new).current)) }
    {
        self.lends = false;
        'steps: loop {
            match self.step(handle, link) {
                Stepped::Goes => {}
                Stepped::Found => {
                    let poll = self.lend();
                    return self.end(poll);
                }
                Stepped::Gives(poll) => return self.end(poll),
            }
        }
    }

    // A call that copies the next event.
    pub(crate) fn poll_next_if_any<H: ClientSessionHandle, L: Link>(
        &mut self,
        handle: &mut H,
        link: &mut L,
    ) -> EventPoll
        requires held { IsOut (L.awaited link.old) (stream_ticket (changes_of self.old)) }
        // What is on its way is its own, and its token is where it lies.
        requires sound { IsStream false self.old }
        // The tickets of others, the counts, the wire version and the promptness of the link.
        ensures keeps { LinkKeeps (moment (L.awaited link.old) (L.log link.old) (L.faults link.old) (L.pends link.old) (L.wire link.old) (L.prompt link.old))
            (moment (L.awaited link.new) (L.log link.new) (L.faults link.new) (L.pends link.new) (L.wire link.new) (L.prompt link.new))
            (stream_ticket (changes_of self.old)) (stream_ticket (changes_of self.new)) (event_ending result) }
        // Which commands it sent, what it gave, and how the stream stands behind that.
        ensures does { (steps starts : ℕ) × CallCopies steps (L.awaited link.old) (L.awaited link.new) (L.log link.old) (L.log link.new) (L.wire link.old) (H.asked handle.old) starts (changes_of self.old) (changes_of self.new) result
            × (handle.new ≡ times starts H.told handle.old) }
        ensures sound { (plain : Bool) → IsStream plain self.old → PlainIf plain (H.asked handle.old) → IsStream plain self.new }
        // A token that lies in no event that was lent lies in none afterwards.
        ensures owned { KeepsOwn self.old.token self.new.token }
        // A call that has ended leaves nothing on its way.
        ensures leaves { LeavesCall result (changes_of self.new) }
        // At most one getMore, two aggregates and one killCursors in a call, of the cursor that these replaced.
        ensures sent { CallSent (L.awaited link.old) (L.log link.old) (L.log link.new) (L.wire link.old) (H.asked handle.old) (changes_of self.old) (changes_of self.new) result }
        // What in the log is the cause of the answer, over all polls of a call.
        ensures caused { CallCaused (L.awaited link.old) (L.awaited link.new) (L.log link.old) (L.log link.new) (L.wire link.old) (H.asked handle.old) (changes_of self.old) (changes_of self.new) result }
        // Over an honest link it gives the entries that it watches, each once and in their order.
        ensures moved { (w : Watch) (start : Start) → Asks (changes_of self.old).aggregate.args w start → (opened : Option ℕ) (answered : List Fields)
            → Moved (L.log link.old) (L.log link.new) (follow_of (L.awaited link.old) w start (changes_of self.old) opened answered)
            (follow_of (L.awaited link.new) w start (changes_of self.new) opened (answered ++ event_told result)) }
    {
        self.lends = false;
        'steps: loop {
            match self.step(handle, link) {
                Stepped::Goes => {}
                Stepped::Found => {
                    let poll = self.copy();
                    return self.end_call(poll);
                }
                Stepped::Gives(poll) => return self.end_call(without_event(poll)),
            }
        }
    }

    // A call that copies the next event, and goes on behind empty replies of an open cursor.
    pub(crate) fn poll_next<H: ClientSessionHandle, L: Link>(
        &mut self,
        handle: &mut H,
        link: &mut L,
    ) -> EventPoll
        requires held { IsOut (L.awaited link.old) (stream_ticket (changes_of self.old)) }
        // What is on its way is its own, and its token is where it lies.
        requires sound { IsStream false self.old }
        // The tickets of others, the counts, the wire version and the promptness of the link.
        ensures keeps { LinkKeeps (moment (L.awaited link.old) (L.log link.old) (L.faults link.old) (L.pends link.old) (L.wire link.old) (L.prompt link.old))
            (moment (L.awaited link.new) (L.log link.new) (L.faults link.new) (L.pends link.new) (L.wire link.new) (L.prompt link.new))
            (stream_ticket (changes_of self.old)) (stream_ticket (changes_of self.new)) (event_ending result) }
        // Which commands it sent, how many empty replies it got, what it gave, and how the stream stands behind that.
        ensures does { (empties starts : ℕ) × SeeksEvent empties (L.awaited link.old) (L.awaited link.new) (L.log link.old) (L.log link.new) (L.wire link.old) (H.asked handle.old) starts (lends_nothing (changes_of self.old)) (changes_of self.new) result
            × (handle.new ≡ times starts H.told handle.old) }
        ensures sound { (plain : Bool) → IsStream plain self.old → PlainIf plain (H.asked handle.old) → IsStream plain self.new }
        // A token that lies in no event that was lent lies in none afterwards.
        ensures owned { KeepsOwn self.old.token self.new.token }
        // A call that has ended leaves nothing on its way; none is answered only at the end.
        ensures leaves { LeavesSeek result (changes_of self.new) }
        // getMores of its cursors, aggregates that resume it, and killings of the cursors that these replaced, and nothing else.
        ensures sent { SeekSent (L.awaited link.old) (L.log link.old) (L.log link.new) (L.wire link.old) (H.asked handle.old) (changes_of self.old) }
        // What in the log is the cause of the answer, over all polls of a call.
        ensures caused { SeekCaused (L.awaited link.old) (L.awaited link.new) (L.log link.old) (L.log link.new) (L.wire link.old) (H.asked handle.old) (changes_of self.old) (changes_of self.new) result }
        // Over an honest link it gives the entries that it watches, each once and in their order.
        ensures moved { (w : Watch) (start : Start) → Asks (changes_of self.old).aggregate.args w start → (opened : Option ℕ) (answered : List Fields)
            → Moved (L.log link.old) (L.log link.new) (follow_of (L.awaited link.old) w start (changes_of self.old) opened answered)
            (follow_of (L.awaited link.new) w start (changes_of self.new) opened (answered ++ event_told result)) }
    {
        self.lends = false;
        'steps: loop {
            let again = self.is_renewed();
            let stepped = self.step(handle, link);
            if !self.seeks_on(again, &stepped) {
                let poll = self.end_seeking(stepped);
                return self.end_call(poll);
            }
        }
    }

    // The event that the last call gave.
    pub(crate) fn current(&self) -> Option<RawDocument<'_>>
        ensures { result ≡ (changes_of self.now).current }
    {
        if self.lends {
            self.buffer.current()
        } else {
            None
        }
    }

    // The token behind the last event that was given, or behind a batch that came empty.
    pub(crate) fn resume_token(&self) -> Option<TokenRef<'_>>
        ensures { result ≡ stream_token (changes_of self.now) }
    {
        match &self.aggregate.resume {
            Some(_) => self.cached_token(),
            None => None,
        }
    }

    // The token where it lies.
    fn cached_token(&self) -> Option<TokenRef<'_>>
        ensures { result ≡ token_lying self.now.token (token_known self.now.aggregate.resume) (current_of self.now.buffer) (client_of self.now.batches).token }
    {
        match self.token {
            TokenPlace::Saved => saved_token(&self.aggregate),
            TokenPlace::Event => event_token(self.alloc, &self.buffer),
            TokenPlace::Batch => self.batches.token(),
        }
    }

    pub(crate) fn is_alive(&self) -> bool
        ensures { IsTrue result ↔ IsAlive (changes_of self.now) }
    {
        if !self.batches.is_exhausted() {
            return true;
        }
        self.is_owed()
    }

    // Whether a resumption is owed, or on its way.
    fn is_owed(&self) -> bool
        ensures { IsTrue result ↔ IsOwed (doing_of self.now.phase) }
    {
        match &self.phase {
            Phase::Follows => false,
            Phase::Owes => true,
            Phase::Resumes(_) => true,
            Phase::Kills(_) => false,
            Phase::Renewed => false,
        }
    }

    pub(crate) fn ticket_number(&self) -> Option<u64>
        ensures { result ≡ stream_ticket (changes_of self.now) }
    {
        match &self.phase {
            Phase::Follows => self.batches.ticket_number(),
            Phase::Owes => None,
            Phase::Resumes(exec) => exec.ticket_number(),
            Phase::Kills(closing) => closing.ticket_number(),
            Phase::Renewed => None,
        }
    }

    // Closes the stream. Its token goes with the closing, where it need not be copied for that.
    pub(crate) fn close(self) -> Closing
        requires { IsStream false self }
        ensures { result ≡ closed_stream (is_lent self.token) (changes_of self) }
    {
        let Changes {
            alloc,
            aggregate,
            batches,
            buffer,
            token,
            lends: _,
            phase,
            counts: _,
        } = self;
        Closing::new(alloc, aggregate, batches, buffer, token, phase)
    }

    // One step: at most one command.
    fn step<H: ClientSessionHandle, L: Link>(&mut self, handle: &mut H, link: &mut L) -> Stepped
        requires held { IsOut (L.awaited link.old) (stream_ticket (changes_of self.old)) }
        // What is on its way is its own, and its token is where it lies.
        requires sound { IsStream false self.old }
        // No event is lent.
        requires given { (changes_of self.old).current ≡ None }
        // The tickets of others, the counts, the wire version and the promptness of the link.
        ensures keeps { LinkKeeps (moment (L.awaited link.old) (L.log link.old) (L.faults link.old) (L.pends link.old) (L.wire link.old) (L.prompt link.old))
            (moment (L.awaited link.new) (L.log link.new) (L.faults link.new) (L.pends link.new) (L.wire link.new) (L.prompt link.new))
            (stream_ticket (changes_of self.old)) (stream_ticket (changes_of self.new)) (stepped_ending result) }
        ensures does { (started : Bool) × DoesStep (L.awaited link.old) (L.awaited link.new) (L.log link.old) (L.log link.new) (L.wire link.old) (H.asked handle.old) started (changes_of self.old) (changes_of self.new) result
            × (handle.new ≡ times (one_if started) H.told handle.old) }
        ensures placed { IsPlaced self.new }
        ensures owned { KeepsOwn self.old.token self.new.token }
        ensures falls { Falls result (steps_left (doing_of self.old.phase)) (steps_left (doing_of self.new.phase)) }
    {
        match self.take_phase() {
            Phase::Follows => self.follow(handle, link),
            Phase::Owes => self.resume(handle, link),
            Phase::Resumes(exec) => self.wait_for_resumption(handle, link, exec),
            Phase::Kills(closing) => self.kill(link, closing),
            Phase::Renewed => self.renew(),
        }
    }

    // Takes the phase out.
    fn take_phase(&mut self) -> Phase
        ensures taken { result ≡ self.old.phase }
        ensures rest { self.new ≡ record self.old { phase = Phase.Follows } }
    {
        mem::replace(&mut self.phase, Phase::Follows)
    }

    // Goes on to another phase.
    fn enter(&mut self, phase: Phase)
        ensures { self.new ≡ record self.old { phase = phase } }
    {
        drop(mem::replace(&mut self.phase, phase));
    }

    // Whether the first batch of a resumption is looked at next.
    fn is_renewed(&self) -> bool
        ensures { result ≡ is_renewed (changes_of self.now).doing }
    {
        matches!(self.phase, Phase::Renewed)
    }

    // Goes on with the cursor: finds the next event in the batch in hand, or asks for a batch.
    fn follow<H: ClientSessionHandle, L: Link>(&mut self, handle: &mut H, link: &mut L) -> Stepped
        requires held { IsOut (L.awaited link.old) (stream_ticket (changes_of self.old)) }
        // What is on its way is its own, and its token is where it lies.
        requires sound { IsStream false self.old }
        // No event is lent.
        requires given { (changes_of self.old).current ≡ None }
        requires follows { (changes_of self.old).doing ≡ follows }
        // The tickets of others, the counts, the wire version and the promptness of the link.
        ensures keeps { LinkKeeps (moment (L.awaited link.old) (L.log link.old) (L.faults link.old) (L.pends link.old) (L.wire link.old) (L.prompt link.old))
            (moment (L.awaited link.new) (L.log link.new) (L.faults link.new) (L.pends link.new) (L.wire link.new) (L.prompt link.new))
            (stream_ticket (changes_of self.old)) (stream_ticket (changes_of self.new)) (stepped_ending result) }
        ensures does { (started : Bool) × DoesStep (L.awaited link.old) (L.awaited link.new) (L.log link.old) (L.log link.new) (L.wire link.old) (H.asked handle.old) started (changes_of self.old) (changes_of self.new) result
            × (handle.new ≡ times (one_if started) H.told handle.old) }
        ensures placed { IsPlaced self.new }
        ensures owned { KeepsOwn self.old.token self.new.token }
        ensures falls { Falls result 4 (steps_left (doing_of self.new.phase)) }
    {
        if !self.buffer.is_last() {
            return Stepped::Found;
        }
        match self.prepare(handle, link.wire_version()) {
            Ok(()) => self.go_on(handle, link),
            Err(error) => Stepped::Gives(TryPoll::Failed(error)),
        }
    }

    // Takes the batch in hand, or sends the getMore that was built, or waits for its reply.
    fn go_on<H: ClientSessionHandle, L: Link>(&mut self, handle: &mut H, link: &mut L) -> Stepped
        requires held { IsOut (L.awaited link.old) (stream_ticket (changes_of self.old)) }
        requires follows { (changes_of self.old).doing ≡ follows }
        requires none_left { (changes_of self.old).behind ≡ [] }
        requires built { NoneToBuild (changes_of self.old).cursor }
        requires saved { SavesWhile self.old.token (client_of self.old.batches).doing }
        requires placed { IsPlaced self.old }
        // No event is lent.
        requires given { (changes_of self.old).current ≡ None }
        // The tickets of others, the counts, the wire version and the promptness of the link.
        ensures keeps { LinkKeeps (moment (L.awaited link.old) (L.log link.old) (L.faults link.old) (L.pends link.old) (L.wire link.old) (L.prompt link.old))
            (moment (L.awaited link.new) (L.log link.new) (L.faults link.new) (L.pends link.new) (L.wire link.new) (L.prompt link.new))
            (stream_ticket (changes_of self.old)) (stream_ticket (changes_of self.new)) (stepped_ending result) }
        ensures does { (started : Bool) × DoesStep (L.awaited link.old) (L.awaited link.new) (L.log link.old) (L.log link.new) (L.wire link.old) (H.asked handle.old) started (changes_of self.old) (changes_of self.new) result
            × (handle.new ≡ times (one_if started) H.told handle.old) }
        ensures placed { IsPlaced self.new }
        ensures owned { KeepsOwn self.old.token self.new.token }
        ensures falls { Falls result 4 (steps_left (doing_of self.new.phase)) }
    {
        match self.batches.poll_next(handle, link) {
            NextPoll::Pending => Stepped::Gives(TryPoll::Pending),
            NextPoll::Batch(batch) => self.look(batch),
            NextPoll::End => Stepped::Gives(TryPoll::Ready(AdvanceResult::Exhausted)),
            NextPoll::Failed(error) => self.fail(error),
        }
    }

    // Builds the getMore, where one is to be sent now; the token is saved before, since the batch in hand goes.
    fn prepare<H: ClientSessionHandle>(&mut self, handle: &H, wire: i32) -> Result<(), Error>
        requires sound { IsStream false self.old }
        requires follows { (changes_of self.old).doing ≡ follows }
        ensures ready { OnOk result (Prepares (H.asked handle.now) (changes_of self.old) (changes_of self.new)) }
        ensures fails { IfErr result (λ e. FailsBy (CannotAsk (changes_of self.old).cursor (H.asked handle.now)) e) }
        ensures asks { OnErr result (((changes_of self.old).cursor.doing ≡ rests) × MayAsk (changes_of self.old).cursor) }
        ensures stays { OnErr result (changes_of self.new ≡ changes_of self.old) }
        ensures saved { OnOk result (SavesWhile self.new.token (client_of self.new.batches).doing) }
        ensures placed { IsPlaced self.new }
        ensures owned { KeepsOwn self.old.token self.new.token }
    {
        if !self.batches.is_to_ask() {
            return Ok(());
        }
        self.save_token()?;
        self.batches.prepare(handle.asked(), wire)
    }

    // Looks at a batch. The stream resumes behind one that is malformed.
    fn look(&mut self, batch: RawBatch) -> Stepped
        requires follows { (changes_of self.old).doing ≡ follows }
        requires saved { IsSavedPlace self.old.token }
        requires rests { (client_of self.old.batches).doing ≡ rests }
        // No event is lent.
        requires given { (changes_of self.old).current ≡ None }
        ensures looks { LooksAt false (changes_of self.old) (changes_of self.old).cursor batch (changes_of self.new) result }
        ensures placed { IsPlaced self.new }
        ensures owned { IsOwnPlace self.new.token }
    {
        match self.buffer.fill(batch) {
            Ok(()) => self.found(),
            Err(_error) => {
                self.enter(Phase::Owes);
                Stepped::Goes
            }
        }
    }

    // A getMore failed.
    fn fail(&mut self, error: Error) -> Stepped
        requires follows { (changes_of self.old).doing ≡ follows }
        requires none_left { (changes_of self.old).behind ≡ [] }
        ensures fails { FailsMore (changes_of self.old) (changes_of self.old).cursor error (changes_of self.new) result }
        ensures place { self.new.token ≡ self.old.token }
    {
        self.lead(StreamCommand::GetMore, error)
    }
}

// What a call that copies comes to where no event is next.
fn without_event(poll: TryPoll) -> EventPoll
    ensures { result ≡ without_event poll }
{
    match poll {
        TryPoll::Pending => EventPoll::Pending,
        TryPoll::Ready(_) => EventPoll::Ready(None),
        TryPoll::Failed(error) => EventPoll::Failed(error),
    }
}
