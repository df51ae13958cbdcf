//! The opening of a change stream, one machine for all openings.
ghost use Rattle.std.specs.Prelude.{◌≡◌, Bool, IfErr, IfOk, None, OnErr, false, if◌then◌else◌, is_some, option_copied};
ghost use Rattle.mg_link.specs.Acts.{IsOut, ticket_after};
ghost use Rattle.mg_link.specs.Causes.{one_if};
ghost use Rattle.mg_link.specs.Errors.{plain};
ghost use Rattle.mg_link.specs.Exec.{ticket_of};
ghost use Rattle.mg_link.specs.Moment.{LinkKeeps, moment, step_ending};
ghost use Rattle.mg_link.specs.declared.error.ErrorKind.TheVariants as kind;
ghost use Rattle.mg_options.specs.Tokens.{first_token};
ghost use Rattle.mg_bson.specs.Raw.{fields};
ghost use Rattle.mg_ops.specs.Cursors.{BreaksIn};
ghost use Rattle.mg_ops.specs.Failing.{FailsBy};
ghost use Rattle.mg_ops.specs.Resuming.{saved_time};
ghost use Rattle.mg_cursor.specs.Client.{PlainIf};
ghost use Rattle.mg_cursor.specs.Seeking.{times};
ghost use Rattle.mg_change.specs.ClientOpenings.{HearsOpening, IsNextSent, KeepsOpening, OpensStream, ReadsOpening, RunsOpening, opening_ticket, seen_step};
ghost use Rattle.mg_change.specs.OpeningView.{IsOpens, opens_of};
ghost use Rattle.mg_change.specs.Steps.{CannotResume};
ghost use Rattle.mg_change.specs.StreamView.{IsOwnPlace, IsSavedPlace, IsStream, changes_of};

use crate::changes::Changes;
use crate::commands::resume;
use mg_bson::{RawDocumentBuf, Timestamp};
use mg_exec::Exec;
use mg_link::{ClientSession, ClientSessionHandle, Error, Link, Step};
use mg_ops::{
    ChangeStreamAggregate, ChangeStreamData, CursorSpecification, Operation, WatchArgs,
    initial_operation_time,
};
use mg_options::{ChangeStreamOptions, ResumeToken};
use std::alloc::Global;

// A change stream that is being opened. How the opening holds its session is handed to each poll.
pub(crate) struct Opens {
    alloc: Global,
    // It remembers nothing yet.
    aggregate: ChangeStreamAggregate,
    // The aggregate on its way, once it is built.
    exec: Option<Exec>,
}

// By hand, so that letting one go is one call.
impl Drop for Opens {
    fn drop(self) {
        let Opens {
            alloc: _,
            aggregate: _,
            exec: _,
        } = self;
    }
}

// What a new stream remembers of its opening.
fn data_of(
    options: &ChangeStreamOptions,
    wire: i32,
    opened: &CursorSpecification,
    time: Option<Timestamp>,
) -> Result<ChangeStreamData, Error>
    ensures token { IfOk result (λ d. d.resume_token ≡ first_token options.now.start_after options.now.resume_after opened.now.is_empty opened.now.post_batch_resume_token) }
    ensures time { IfOk result (λ d. d.initial_operation_time ≡ saved_time options.now wire opened.now.is_empty (is_some opened.now.post_batch_resume_token) time) }
    ensures returned { IfOk result (λ d. d.document_returned ≡ false) }
    ensures err { IfErr result (λ e. e ≡ plain kind.OutOfMemory) }
{
    let is_empty = opened.is_empty;
    let has_token = opened.post_batch_resume_token.is_some();
    let token = match &opened.post_batch_resume_token {
        Some(token) => Some(token.as_ref()),
        None => None,
    };
    Ok(ChangeStreamData {
        initial_operation_time: initial_operation_time(options, wire, is_empty, has_token, time),
        resume_token: ResumeToken::initial(options, is_empty, token)?,
        document_returned: false,
    })
}

impl Opens {
    pub(crate) fn new(alloc: Global, args: WatchArgs) -> Opens
        ensures seen { opens_of result ≡ record { args = args; sending = None } }
        ensures sound { (plain : Bool) → IsOpens plain result }
    {
        Opens {
            alloc,
            aggregate: ChangeStreamAggregate { args, resume: None },
            exec: None,
        }
    }

    pub(crate) fn ticket_number(&self) -> Option<u64>
        ensures { result ≡ opening_ticket (opens_of self.now) }
    {
        match &self.exec {
            Some(exec) => exec.ticket_number(),
            None => None,
        }
    }

    // Sends the aggregate or waits for its reply, and tells the session of one that was started.
    pub(crate) fn poll_in<H: ClientSessionHandle, L: Link>(
        self,
        handle: &mut H,
        link: &mut L,
    ) -> Step<Opens, Changes>
        requires { IsOut (L.awaited link.old) (opening_ticket (opens_of self)) }
        // The tickets of others, the counts, the wire version and the promptness of the link.
        ensures keeps { LinkKeeps (moment (L.awaited link.old) (L.log link.old) (L.faults link.old) (L.pends link.old) (L.wire link.old) (L.prompt link.old))
            (moment (L.awaited link.new) (L.log link.new) (L.faults link.new) (L.pends link.new) (L.wire link.new) (L.prompt link.new))
            (opening_ticket (opens_of self)) (ticket_after (λ o. opening_ticket (opens_of o)) result) (step_ending result) }
        // Which commands it sent, and what came of them.
        ensures opens { self.aggregate.resume ≡ None → (started : Bool) × OpensStream (L.awaited link.old) (L.awaited link.new) (L.log link.old) (L.log link.new) (L.wire link.old) (H.asked handle.old) started (opens_of self) (seen_step opens_of changes_of result)
            × (handle.new ≡ times (one_if started) H.told handle.old) }
        ensures sound { (plain : Bool) → IsOpens plain self → PlainIf plain (H.asked handle.old) → KeepsOpening (IsOpens plain) (IsStream plain) result }
        ensures owned { KeepsOpening (λ o. Unit {0}) (λ s. IsOwnPlace s.token) result }
    {
        let Opens {
            alloc,
            aggregate,
            exec,
        } = self;
        match next_sent(alloc, exec, &aggregate, link.wire_version(), handle.asked()) {
            Ok(exec) => wait(handle, link, alloc, aggregate, exec),
            Err(error) => Step::Failed(error),
        }
    }
}

// The aggregate on its way, or the one that is to be sent.
fn next_sent(
    alloc: Global,
    exec: Option<Exec>,
    aggregate: &ChangeStreamAggregate,
    wire: i32,
    session: Option<&ClientSession>,
) -> Result<Exec, Error>
    ensures ok { IfOk result (λ sending. IsNextSent aggregate.now wire (option_copied session.entry) exec sending) }
    ensures none { OnErr result (exec ≡ None) }
    ensures err { IfErr result (λ e. FailsBy (CannotResume aggregate.now wire (option_copied session.entry)) e) }
{
    match exec {
        Some(exec) => Ok(exec),
        None => resume(alloc, aggregate, wire, session),
    }
}

// Waits for the reply to the aggregate.
fn wait<H: ClientSessionHandle, L: Link>(
    handle: &mut H,
    link: &mut L,
    alloc: Global,
    aggregate: ChangeStreamAggregate,
    exec: Exec,
) -> Step<Opens, Changes>
    requires { IsOut (L.awaited link.old) (ticket_of exec) }
    // The tickets of others, the counts, the wire version and the promptness of the link.
    ensures keeps { LinkKeeps (moment (L.awaited link.old) (L.log link.old) (L.faults link.old) (L.pends link.old) (L.wire link.old) (L.prompt link.old))
        (moment (L.awaited link.new) (L.log link.new) (L.faults link.new) (L.pends link.new) (L.wire link.new) (L.prompt link.new))
        (ticket_of exec) (ticket_after (λ o. opening_ticket (opens_of o)) result) (step_ending result) }
    ensures runs { (started : Bool) × RunsOpening (L.awaited link.old) (L.awaited link.new) (L.log link.old) (L.log link.new) (L.wire link.old) started (record { args = aggregate.args; sending = None }) exec (seen_step opens_of changes_of result)
        × (handle.new ≡ times (one_if started) H.told handle.old) }
    ensures sound { (plain : Bool) → KeepsOpening (λ o. Unit {0}) (IsStream plain) result }
    ensures owned { KeepsOpening (λ o. Unit {0}) (λ s. IsOwnPlace s.token) result }
    ensures first { KeepsOpening (λ o. o.aggregate ≡ aggregate) (λ s. Unit {0}) result }
{
    let (step, started) = exec.poll_started(link);
    tell(handle, started);
    hear(alloc, aggregate, link.wire_version(), step)
}

// Tells the session of a command that was started.
pub(crate) fn tell<H: ClientSessionHandle>(handle: &mut H, started: bool)
    ensures { handle.new ≡ (if started then H.told handle.old else handle.old) }
{
    if started {
        handle.command_started();
    }
}

// What came of a poll of the aggregate.
fn hear(
    alloc: Global,
    aggregate: ChangeStreamAggregate,
    wire: i32,
    step: Step<Exec, RawDocumentBuf>,
) -> Step<Opens, Changes>
    ensures hears { HearsOpening wire (record { args = aggregate.args; sending = None }) step (seen_step opens_of changes_of result) }
    ensures sound { (plain : Bool) → KeepsOpening (λ o. Unit {0}) (IsStream plain) result }
    ensures owned { KeepsOpening (λ o. Unit {0}) (λ s. IsOwnPlace s.token) result }
    ensures first { KeepsOpening (λ o. o.aggregate ≡ aggregate) (λ s. Unit {0}) result }
{
    match step {
        Step::Pending(exec) => Step::Pending(Opens {
            alloc,
            aggregate,
            exec: Some(exec),
        }),
        Step::Done(reply) => match changes_by(alloc, aggregate, wire, reply) {
            Ok(changes) => Step::Done(changes),
            Err(error) => Step::Failed(error),
        },
        Step::Failed(error) => Step::Failed(error),
    }
}

// The stream of the reply. The items of its batch are looked at by the stream's first call.
fn changes_by(
    alloc: Global,
    aggregate: ChangeStreamAggregate,
    wire: i32,
    reply: RawDocumentBuf,
) -> Result<Changes, Error>
    ensures ok { IfOk result (λ s. ReadsOpening wire (record { args = aggregate.args; sending = None }) reply (Step.Done (changes_of s))) }
    ensures saved { IfOk result (λ s. IsSavedPlace s.token) }
    ensures err { IfErr result (λ e. FailsBy (BreaksIn (fields reply)) e) }
{
    let mut aggregate = aggregate;
    let (opened, time) = aggregate.read(alloc, reply)?;
    let data = data_of(&aggregate.args.options, wire, &opened, time)?;
    aggregate.resume = Some(data);
    Ok(Changes::new(alloc, aggregate, opened))
}
