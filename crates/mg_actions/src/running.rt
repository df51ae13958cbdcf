//! An operation that is sent in one call.
ghost use Rattle.std.specs.Prelude.{◌≡◌, ◌⊎◌, Bool, None, max, if◌then◌else◌};
ghost use Rattle.mg_bson.specs.Bytes.{bytes};
ghost use Rattle.mg_exec.specs.ExecView.{reads};
ghost use Rattle.mg_link.specs.Acts.{EndsAtOnce, FailsByFault, Pended, PendsBy, Tickets, ticket_after};
ghost use Rattle.mg_link.specs.Exec.{RunsStarting, ticket_of, unsent};
ghost use Rattle.mg_link.specs.Link.{Later};
ghost use Rattle.mg_ops.specs.Failing.{CannotBeSent};
ghost use Rattle.mg_actions.specs.Running.{CameTo, ReadsReply, RunsAs};

use mg_bson::RawDocumentBuf;
use mg_exec::Exec;
use mg_link::{Action, ClientSessionHandle, Link, Step};
use mg_ops::{Operation, encode};
use std::alloc::Global;

// Tells a session of a command that was started.
fn tell<H: ClientSessionHandle>(session: &mut H, started: bool)
    ensures { session.new ≡ (if started then H.told session.old else session.old) }
{
    if started {
        session.command_started();
    }
}

// What came of a request, with its reply read.
fn heard<O: Operation>(
    alloc: Global,
    operation: &O,
    came: Step<Exec, RawDocumentBuf>,
) -> Step<Exec, O::Output>
    ensures { ReadsReply (O.gives operation.now) (O.fails operation.now) came result }
{
    match came {
        Step::Pending(exec) => Step::Pending(exec),
        Step::Done(reply) => match operation.read(alloc, reply) {
            Ok(output) => Step::Done(output),
            Err(error) => Step::Failed(error),
        },
        Step::Failed(error) => Step::Failed(error),
    }
}

// Sends a command for the first time.
fn begun<H: ClientSessionHandle, L: Link>(
    link: &mut L,
    exec: Exec,
    session: &mut H,
) -> Step<Exec, RawDocumentBuf>
    requires { exec.stage ≡ unsent }
    ensures runs { (started : Bool) × (session.new ≡ (if started then H.told session.old else session.old))
        × RunsStarting (L.awaited link.old) (L.awaited link.new) (L.log link.old) (L.log link.new) (L.wire link.old) exec result started }
    ensures tickets { Tickets (L.awaited link.old) (L.awaited link.new) None (ticket_after ticket_of result) }
    ensures pended { Pended ticket_of result (L.pends link.old) (L.pends link.new) }
    ensures lost { FailsByFault result (L.faults link.old) (L.faults link.new) }
    ensures prompt { L.prompt link.old → EndsAtOnce result }
    ensures later { Later (L.faults link.old) (L.faults link.new) (L.pends link.old) (L.pends link.new)
        (L.wire link.old) (L.wire link.new) (L.prompt link.old) (L.prompt link.new) }
{
    let (step, started) = exec.poll_started(link);
    tell(session, started);
    step
}

// Sends a command for the first time, and polls for its reply.
fn sent<H: ClientSessionHandle, L: Link>(
    link: &mut L,
    exec: Exec,
    session: &mut H,
    polls: u32,
) -> Step<Exec, RawDocumentBuf>
    requires { exec.stage ≡ unsent }
    ensures came { (started : Bool) × (session.new ≡ (if started then H.told session.old else session.old))
        × CameTo (max polls 1) (L.awaited link.old) (L.awaited link.new) (L.log link.old) (L.log link.new) (L.wire link.old)
        (L.faults link.old) (L.faults link.new) (L.prompt link.old) exec started result }
    ensures tickets { Tickets (L.awaited link.old) (L.awaited link.new) None (ticket_after ticket_of result) }
    ensures pended { PendsBy (max polls 1) ticket_of result (L.pends link.old) (L.pends link.new) }
    ensures later { Later (L.faults link.old) (L.faults link.new) (L.pends link.old) (L.pends link.new)
        (L.wire link.old) (L.wire link.new) (L.prompt link.old) (L.prompt link.new) }
{
    match begun(link, exec, session) {
        Step::Pending(waiting) => {
            if polls < 2 {
                Step::Pending(waiting)
            } else {
                waiting.run(link, polls - 1)
            }
        }
        Step::Done(reply) => Step::Done(reply),
        Step::Failed(error) => Step::Failed(error),
    }
}

/// Sends an operation in a session, where one was asked for, and reads the reply: polls until it is there, at most so many times
/// and at least once. The session is told where the command was started. Where the reply pends still, the request is given, which
/// goes on by `run` of [`Action`]; the operation reads its reply.
pub fn run<O: Operation, H: ClientSessionHandle, L: Link>(
    alloc: Global,
    link: &mut L,
    operation: &O,
    session: &mut H,
    polls: u32,
) -> Step<Exec, O::Output>
    // The operation's command, built for this link and session, was sent as such a request is, and its reply was read; or it was
    // not built, and nothing was sent. The session is told once where the command was started, and else not.
    ensures runs { (started : Bool) × (session.new ≡ (if started then H.told session.old else session.old))
        × RunsAs (max polls 1) (L.awaited link.old) (L.awaited link.new) (L.log link.old) (L.log link.new) (L.wire link.old)
        (L.faults link.old) (L.faults link.new) (L.prompt link.old)
        (record { command = bytes (O.command operation.now (L.wire link.old) (H.asked session.old)); retries = reads (O.retried operation.now (H.asked session.old)); stage = unsent })
        (λ e. O.unfit operation.now e ⊎ CannotBeSent (O.command operation.now (L.wire link.old) (H.asked session.old)) e)
        (O.gives operation.now) (O.fails operation.now) started result }
    ensures tickets { Tickets (L.awaited link.old) (L.awaited link.new) None (ticket_after ticket_of result) }
    ensures pended { PendsBy (max polls 1) ticket_of result (L.pends link.old) (L.pends link.new) }
    ensures later { Later (L.faults link.old) (L.faults link.new) (L.pends link.old) (L.pends link.new)
        (L.wire link.old) (L.wire link.new) (L.prompt link.old) (L.prompt link.new) }
{
    let asked = session.asked();
    let retry = operation.retry(asked);
    let encoded = encode(alloc, operation, link.wire_version(), asked);
    match encoded {
        Ok(command) => {
            let came = sent(link, Exec::start(command, retry), session, polls);
            heard(alloc, operation, came)
        }
        Err(error) => Step::Failed(error),
    }
}
