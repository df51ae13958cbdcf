//! One command, which is sent once, or where it may be and the first attempt is lost or refused, once more.
ghost use Rattle.std.specs.Prelude.{◌≡◌, ◌⊎◌, ◌&&◌};
ghost use Rattle.mg_bson.specs.Raw.{fields};
ghost use Rattle.mg_link.specs.declared.reply.Verdict.TheVariants as verdict;
ghost use Rattle.mg_link.specs.Acts.{EndsAtOnce, FailsByFault, IsOut, Pended, Tickets, ticket_after};
ghost use Rattle.mg_link.specs.Link.{Later};
ghost use Rattle.mg_link.specs.Exec.{FailsAs, AttemptGives, Runs, RunsStarting, is_retried_attempt, ticket_of};
ghost use Rattle.mg_exec.specs.Attempts.{Reads, Repeats, Stops, attempt_of, held, stage_held};
ghost use Rattle.mg_link.specs.Exec as exec;
ghost use Rattle.mg_exec.specs.ExecView.{reads, stage_of};

use crate::attempt::{Attempt, Judged, Refused, begin, go_on, judge};
use mg_bson::RawDocumentBuf;
use mg_link::{Action, Error, ErrorKind, Link, OutOfMemory, Step, Ticket, plain, refusal};
use std::marker::Model;

/// Whether a command is sent once more after its first attempt.
#[derive(Clone, Copy, Debug, PartialEq, Eq)]
pub enum Retry {
    /// It never is.
    None,
    /// It is, after a fault of the link or a refusal with one of the codes 6, 7, 89, 91, 134, 189, 262, 9001,
    /// 10107, 11600, 11602, 13435 and 13436 (drivers' specification of retryable reads).
    Read,
}

// How far a command has come.
#[derive(Drop)]
enum Stage {
    Unsent,
    First(Ticket),
    Second(Ticket),
}

/// A command whose reply is waited for.
pub struct Exec {
    command: RawDocumentBuf,
    retry: Retry,
    stage: Stage,
}

// By hand, so that letting one go is one call.
impl Drop for Exec {
    fn drop(self) {
        let Exec {
            command: _,
            retry: _,
            stage: _,
        } = self;
    }
}

impl Model for Exec {
    ghost use Rattle.mg_link.specs.Exec.{Sending};

    ghost Value = { Sending };

    ghost use Rattle.mg_exec.specs.ExecView.{reads, stage_of};

    ghost view = { λ e. record { command = e.command; retries = reads e.retry; stage = stage_of e.stage } };
}

impl Exec {
    /// Nothing is sent until the first poll.
    pub fn start(command: RawDocumentBuf, retry: Retry) -> Exec
        ensures { result ≡ record { command = command; retries = reads retry; stage = exec.unsent } }
    {
        Exec {
            command,
            retry,
            stage: Stage::Unsent,
        }
    }

    /// The number of its ticket, while it waits for a reply.
    pub fn ticket_number(&self) -> Option<u64>
        ensures { result ≡ ticket_of self.now }
    {
        match &self.stage {
            Stage::Unsent => None,
            Stage::First(ticket) => Some(ticket.number()),
            Stage::Second(ticket) => Some(ticket.number()),
        }
    }

    /// A poll, and whether the command was started in it: its session is to be told of that
    /// ([`ClientSession::command_started`](mg_link::ClientSession::command_started)).
    pub fn poll_started<L: Link>(self, link: &mut L) -> (Step<Exec, RawDocumentBuf>, bool)
        requires { IsOut (L.awaited link.old) (ticket_of self) }
        ensures runs { RunsStarting (L.awaited link.old) (L.awaited link.new) (L.log link.old) (L.log link.new) (L.wire link.old) self result.0 result.1 }
        ensures tickets { Tickets (L.awaited link.old) (L.awaited link.new) (ticket_of self) (ticket_after ticket_of result.0) }
        ensures pended { Pended ticket_of result.0 (L.pends link.old) (L.pends link.new) }
        ensures lost { FailsByFault result.0 (L.faults link.old) (L.faults link.new) }
        ensures prompt { L.prompt link.old → EndsAtOnce result.0 }
        ensures later { Later (L.faults link.old) (L.faults link.new) (L.pends link.old) (L.pends link.new)
            (L.wire link.old) (L.wire link.new) (L.prompt link.old) (L.prompt link.new) }
    {
        let Exec {
            command,
            retry,
            stage,
        } = self;
        match stage {
            Stage::Unsent => {
                let attempt = begin(link, command.as_raw());
                let started = attempt.was_sent();
                (settle(link, command, retry, attempt), started)
            }
            Stage::First(ticket) => {
                let attempt = go_on(link, ticket);
                (settle(link, command, retry, attempt), false)
            }
            Stage::Second(ticket) => {
                let attempt = go_on(link, ticket);
                (answer(link, command, retry, true, judge(attempt)), false)
            }
        }
    }
}

// The error of a refusal, or want of memory.
fn refused<L: Link>(link: &L, refused: &Refused) -> Error
    ensures { FailsAs verdict.Refusal (fields refused.now.reply) (L.wire link.now) result }
{
    match refusal(refused.alloc, &refused.reply.as_raw(), link.wire_version()) {
        Ok(error) => error,
        Err(OutOfMemory) => plain(ErrorKind::OutOfMemory),
    }
}

// The stage of an attempt that waits.
fn held(again: bool, ticket: Ticket) -> Stage
    ensures { stage_of result ≡ stage_held again ticket }
{
    if again {
        Stage::Second(ticket)
    } else {
        Stage::First(ticket)
    }
}

// Whether the command is sent once more after this first attempt.
fn repeats(retry: Retry, judged: &Judged) -> bool
    ensures { (attempt : exec.Attempt) → Reads attempt judged.now → result ≡ (reads retry && is_retried_attempt attempt) }
{
    match retry {
        Retry::None => false,
        Retry::Read => judged.is_retried(),
    }
}

// What a poll answers by its last attempt, which was the second where `again` says so.
fn answer<L: Link>(
    link: &L,
    command: RawDocumentBuf,
    retry: Retry,
    again: bool,
    judged: Judged,
) -> Step<Exec, RawDocumentBuf>
    ensures { (attempt : exec.Attempt) → Reads attempt judged → AttemptGives attempt (L.wire link.now) (held command (reads retry) again) result }
{
    match judged {
        Judged::Waits(ticket) => Step::Pending(Exec {
            command,
            retry,
            stage: held(again, ticket),
        }),
        Judged::Success(reply) => Step::Done(reply),
        Judged::Refusal(reply) => Step::Failed(refused(link, &reply)),
        Judged::Lost => Step::Failed(plain(ErrorKind::Io)),
        Judged::Failed(error) => Step::Failed(error),
    }
}

// Goes on from a first attempt: the command is sent once more, or this is the answer.
fn settle<L: Link>(
    link: &mut L,
    command: RawDocumentBuf,
    retry: Retry,
    attempt: Attempt,
) -> Step<Exec, RawDocumentBuf>
    ensures settles { Stops (L.awaited link.old) (L.awaited link.new) (L.log link.old) (L.log link.new) (L.wire link.old)
        command (reads retry) (attempt_of attempt) (L.pends link.old) (L.pends link.new) result
        ⊎ Repeats (L.awaited link.old) (L.awaited link.new) (L.log link.old) (L.log link.new) (L.wire link.old)
        command (reads retry) (attempt_of attempt) (L.faults link.old) (L.faults link.new) (L.pends link.old) (L.pends link.new)
        (L.prompt link.old) result }
    ensures later { Later (L.faults link.old) (L.faults link.new) (L.pends link.old) (L.pends link.new)
        (L.wire link.old) (L.wire link.new) (L.prompt link.old) (L.prompt link.new) }
{
    let judged = judge(attempt);
    if repeats(retry, &judged) {
        drop(judged);
        let again = begin(link, command.as_raw());
        return answer(link, command, retry, true, judge(again));
    }
    answer(link, command, retry, false, judged)
}

impl Action for Exec {
    type Output = RawDocumentBuf;

    ghost ticket = { ticket_of };

    ghost does = { Runs };

    fn poll<L: Link>(self, link: &mut L) -> Step<Exec, RawDocumentBuf>
        requires { IsOut (L.awaited link.old) (ticket_of self) }
        ensures runs { Runs (L.awaited link.old) (L.awaited link.new) (L.log link.old) (L.log link.new) (L.wire link.old) self result }
        ensures tickets { Tickets (L.awaited link.old) (L.awaited link.new) (ticket_of self) (ticket_after ticket_of result) }
        ensures pended { Pended ticket_of result (L.pends link.old) (L.pends link.new) }
        ensures lost { FailsByFault result (L.faults link.old) (L.faults link.new) }
        ensures prompt { L.prompt link.old → EndsAtOnce result }
        ensures later { Later (L.faults link.old) (L.faults link.new) (L.pends link.old) (L.pends link.new)
            (L.wire link.old) (L.wire link.new) (L.prompt link.old) (L.prompt link.new) }
    {
        let (step, _) = self.poll_started(link);
        step
    }
}
