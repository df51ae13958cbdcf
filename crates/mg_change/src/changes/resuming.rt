//! The resumption of a stream, behind its token.
ghost use Rattle.std.specs.Prelude.{◌≡◌, ℕ, Bool, List, None, true, []};
ghost use Rattle.mg_link.specs.Acts.{IsOut};
ghost use Rattle.mg_link.specs.Causes.{one_if};
ghost use Rattle.mg_link.specs.Exec.{ticket_of};
ghost use Rattle.mg_link.specs.Moment.{LinkKeeps, moment};
ghost use Rattle.mg_cursor.specs.Client.{at_rest, holds, rests};
ghost use Rattle.mg_cursor.specs.Closing.{IsNotAsking, closing_ticket};
ghost use Rattle.mg_cursor.specs.Seeking.{times};
ghost use Rattle.mg_cursor.specs.View.{client_of};
ghost use Rattle.mg_change.specs.ClientStreams.{IsHolding, owes, renewed, stream_ticket};
ghost use Rattle.mg_change.specs.Steps.{ClosesOne, DoesStep, HearsClosing, HearsResumption, Leads, LooksAt, ReadsResumption, RunsResumption, replaced_by};
ghost use Rattle.mg_change.specs.StreamCalls.{Falls, stepped_ending, steps_left};
ghost use Rattle.mg_change.specs.StreamView.{IsOwnPlace, IsPlaced, IsSavedPlace, changes_of, doing_of};

use super::{Changes, Phase};
use crate::commands::resume;
use crate::event_poll::Stepped;
use crate::opens::tell;
use mg_bson::RawDocumentBuf;
use mg_cursor::{Batches, Closing, RawBatch, TryPoll};
use mg_exec::Exec;
use mg_link::{Action, ClientSessionHandle, Error, Link, Step};
use mg_ops::{CursorSpecification, Operation};
use mg_steps::{AfterFailure, StreamCommand, after_failure, fault_of};
use std::mem;

impl Changes {
    // Sends the aggregate that resumes the stream.
    pub(super) fn resume<H: ClientSessionHandle, L: Link>(
        &mut self,
        handle: &mut H,
        link: &mut L,
    ) -> Stepped
        requires saved { IsSavedPlace self.old.token }
        requires none_left { (changes_of self.old).behind ≡ [] }
        requires quiet { IsNotAsking (changes_of self.old).cursor.doing }
        // The tickets of others, the counts, the wire version and the promptness of the link.
        ensures keeps { LinkKeeps (moment (L.awaited link.old) (L.log link.old) (L.faults link.old) (L.pends link.old) (L.wire link.old) (L.prompt link.old))
            (moment (L.awaited link.new) (L.log link.new) (L.faults link.new) (L.pends link.new) (L.wire link.new) (L.prompt link.new))
            (None) (stream_ticket (changes_of self.new)) (stepped_ending result) }
        ensures does { (started : Bool) × DoesStep (L.awaited link.old) (L.awaited link.new) (L.log link.old) (L.log link.new) (L.wire link.old) (H.asked handle.old) started (record (changes_of self.old) { doing = owes }) (changes_of self.new) result
            × (handle.new ≡ times (one_if started) H.told handle.old) }
        ensures falls { Falls result 3 (steps_left (doing_of self.new.phase)) }
        ensures place { self.new.token ≡ self.old.token }
    {
        match resume(
            self.alloc,
            &self.aggregate,
            link.wire_version(),
            handle.asked(),
        ) {
            Ok(exec) => self.wait_for_resumption(handle, link, exec),
            Err(error) => self.fail_resumption(error),
        }
    }

    // Sends the aggregate or waits for its reply, and tells the session of one that was started.
    pub(super) fn wait_for_resumption<H: ClientSessionHandle, L: Link>(
        &mut self,
        handle: &mut H,
        link: &mut L,
        exec: Exec,
    ) -> Stepped
        requires held { IsOut (L.awaited link.old) (ticket_of exec) }
        requires saved { IsSavedPlace self.old.token }
        requires none_left { (changes_of self.old).behind ≡ [] }
        requires quiet { IsNotAsking (changes_of self.old).cursor.doing }
        // The tickets of others, the counts, the wire version and the promptness of the link.
        ensures keeps { LinkKeeps (moment (L.awaited link.old) (L.log link.old) (L.faults link.old) (L.pends link.old) (L.wire link.old) (L.prompt link.old))
            (moment (L.awaited link.new) (L.log link.new) (L.faults link.new) (L.pends link.new) (L.wire link.new) (L.prompt link.new))
            (ticket_of exec) (stream_ticket (changes_of self.new)) (stepped_ending result) }
        ensures runs { (started : Bool) × RunsResumption (L.awaited link.old) (L.awaited link.new) (L.log link.old) (L.log link.new) (L.wire link.old) started (changes_of self.old) exec (changes_of self.new) result
            × (handle.new ≡ times (one_if started) H.told handle.old) }
        ensures falls { Falls result 2 (steps_left (doing_of self.new.phase)) }
        ensures place { self.new.token ≡ self.old.token }
    {
        let (step, started) = exec.poll_started(link);
        tell(handle, started);
        self.hear(step)
    }

    // What came of a poll of the aggregate.
    fn hear(&mut self, step: Step<Exec, RawDocumentBuf>) -> Stepped
        requires saved { IsSavedPlace self.old.token }
        requires none_left { (changes_of self.old).behind ≡ [] }
        requires quiet { IsNotAsking (changes_of self.old).cursor.doing }
        ensures hears { HearsResumption (changes_of self.old) step (changes_of self.new) result }
        ensures falls { Falls result 2 (steps_left (doing_of self.new.phase)) }
        ensures place { self.new.token ≡ self.old.token }
    {
        match step {
            Step::Pending(exec) => {
                self.enter(Phase::Resumes(exec));
                Stepped::Gives(TryPoll::Pending)
            }
            Step::Done(reply) => self.read(reply),
            Step::Failed(error) => self.fail_resumption(error),
        }
    }

    // Reads the reply to the aggregate.
    fn read(&mut self, reply: RawDocumentBuf) -> Stepped
        requires saved { IsSavedPlace self.old.token }
        requires none_left { (changes_of self.old).behind ≡ [] }
        requires quiet { IsNotAsking (changes_of self.old).cursor.doing }
        ensures reads { ReadsResumption (changes_of self.old) reply (changes_of self.new) result }
        ensures falls { Falls result 2 (steps_left (doing_of self.new.phase)) }
        ensures place { self.new.token ≡ self.old.token }
    {
        match self.aggregate.read(self.alloc, reply) {
            Ok((opened, _)) => {
                self.replace(opened);
                Stepped::Goes
            }
            Err(error) => self.fail_resumption(error),
        }
    }

    // The new cursor replaces the old one, which is to be closed.
    fn replace(&mut self, opened: CursorSpecification)
        requires saved { IsSavedPlace self.old.token }
        requires none_left { (changes_of self.old).behind ≡ [] }
        requires quiet { IsNotAsking (changes_of self.old).cursor.doing }
        ensures replaces { changes_of self.new ≡ replaced_by opened (changes_of self.old) }
        ensures place { self.new.token ≡ self.old.token }
    {
        let batches = Batches::new(self.alloc, opened);
        let old = mem::replace(&mut self.batches, batches);
        self.enter(Phase::Kills(old.close()));
    }

    // Closes the cursor before. Whatever the server says, the first batch of the new one is next.
    pub(super) fn kill<L: Link>(&mut self, link: &mut L, closing: Closing) -> Stepped
        requires { IsOut (L.awaited link.old) (closing_ticket closing) }
        // The tickets of others, the counts, the wire version and the promptness of the link.
        ensures keeps { LinkKeeps (moment (L.awaited link.old) (L.log link.old) (L.faults link.old) (L.pends link.old) (L.wire link.old) (L.prompt link.old))
            (moment (L.awaited link.new) (L.log link.new) (L.faults link.new) (L.pends link.new) (L.wire link.new) (L.prompt link.new))
            (closing_ticket closing) (stream_ticket (changes_of self.new)) (stepped_ending result) }
        ensures closes { ClosesOne (L.awaited link.old) (L.awaited link.new) (L.log link.old) (L.log link.new) (L.wire link.old) closing (changes_of self.old) (changes_of self.new) result }
        ensures falls { Falls result 1 (steps_left (doing_of self.new.phase)) }
        ensures place { self.new.token ≡ self.old.token }
    {
        match closing.poll(link) {
            Step::Pending(closing) => {
                self.enter(Phase::Kills(closing));
                Stepped::Gives(TryPoll::Pending)
            }
            Step::Done(()) => self.go_to_batch(),
            Step::Failed(error) => self.pass(error),
        }
    }

    // The closing failed.
    fn pass(&mut self, error: Error) -> Stepped
        ensures hears { HearsClosing (changes_of self.old) (Step.Failed error) (changes_of self.new) result }
        ensures place { self.new.token ≡ self.old.token }
    {
        self.lead(StreamCommand::KillCursors, error)
    }

    // The first batch of the resumption is next.
    fn go_to_batch(&mut self) -> Stepped
        ensures phase { changes_of self.new ≡ record (changes_of self.old) { doing = renewed } }
        ensures goes { result ≡ Stepped.Goes }
        ensures place { self.new.token ≡ self.old.token }
    {
        self.enter(Phase::Renewed);
        Stepped::Goes
    }

    // Looks at the first batch of a resumption. One that is malformed fails the call, and another resumption is owed.
    pub(super) fn renew(&mut self) -> Stepped
        requires saved { IsSavedPlace self.old.token }
        requires in_hand { IsHolding (changes_of self.old).cursor.doing }
        requires follows { self.old.phase ≡ Phase.Follows }
        // No event is lent.
        requires given { (changes_of self.old).current ≡ None }
        ensures looks { (reply : List ℕ) → (changes_of self.old).cursor.doing ≡ holds reply
            → LooksAt true (changes_of self.old) (at_rest (changes_of self.old).cursor) reply (changes_of self.new) result }
        ensures placed { IsPlaced self.new }
        ensures owned { IsOwnPlace self.new.token }
    {
        match self.batches.take_batch() {
            Some(batch) => self.look_again(batch),
            None => unreachable!(),
        }
    }

    // Looks at this batch.
    fn look_again(&mut self, batch: RawBatch) -> Stepped
        requires saved { IsSavedPlace self.old.token }
        requires rests { (client_of self.old.batches).doing ≡ rests }
        requires follows { self.old.phase ≡ Phase.Follows }
        // No event is lent.
        requires given { (changes_of self.old).current ≡ None }
        ensures looks { LooksAt true (changes_of self.old) (changes_of self.old).cursor batch (changes_of self.new) result }
        ensures placed { IsPlaced self.new }
        ensures owned { IsOwnPlace self.new.token }
    {
        match self.buffer.fill(batch) {
            Ok(()) => self.found(),
            Err(error) => self.owe(error),
        }
    }

    // The aggregate is not built, or it failed, or its reply is malformed: the resumption is owed still.
    fn fail_resumption(&mut self, error: Error) -> Stepped
        ensures phase { changes_of self.new ≡ record (changes_of self.old) { doing = owes } }
        ensures fails { result ≡ Stepped.Gives (TryPoll.Failed error) }
        ensures place { self.new.token ≡ self.old.token }
    {
        self.lead(StreamCommand::Aggregate, error)
    }

    // What the stream does after this command of it failed.
    pub(super) fn lead(&mut self, command: StreamCommand, error: Error) -> Stepped
        ensures leads { Leads command (changes_of self.old) error (changes_of self.new) result }
        ensures place { self.new.token ≡ self.old.token }
    {
        match after_failure(command, fault_of(&error)) {
            AfterFailure::Resumes => {
                self.enter(Phase::Owes);
                Stepped::Goes
            }
            AfterFailure::Owes => self.owe(error),
            AfterFailure::Fails => Stepped::Gives(TryPoll::Failed(error)),
            AfterFailure::PassesOver => self.go_to_batch(),
        }
    }

    // The call fails, and a resumption is owed.
    fn owe(&mut self, error: Error) -> Stepped
        ensures phase { changes_of self.new ≡ record (changes_of self.old) { doing = owes } }
        ensures fails { result ≡ Stepped.Gives (TryPoll.Failed error) }
        ensures place { self.new.token ≡ self.old.token }
    {
        self.enter(Phase::Owes);
        Stepped::Gives(TryPoll::Failed(error))
    }
}
