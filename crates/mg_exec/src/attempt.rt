//! One attempt to get the reply to a command.
ghost use Rattle.std.specs.Prelude.{◌≡◌, IsSome};
ghost use Rattle.mg_link.specs.Link.{Later};
ghost use Rattle.mg_link.specs.Exec.{Begins, GoesOn, is_retried_attempt, was_sent};
ghost use Rattle.mg_link.specs.Exec as exec;
ghost use Rattle.mg_bson.specs.Raw.{fields};
ghost use Rattle.mg_link.specs.Codes.{is_among};
ghost use Rattle.mg_link.specs.Reply.{code_of};
ghost use Rattle.mg_link.specs.Retry.{retried_codes};
ghost use Rattle.mg_link.specs.Log.{reply};
ghost use Rattle.mg_exec.specs.Attempts.{HasCounts, IsAtOnce, Reads, attempt_of};

use mg_bson::{RawDocument, RawDocumentBuf};
use mg_link::{
    Error, ErrorKind, Link, LinkError, Malformed, Polled, Ticket, Verdict, code_of, is_among,
    plain, verdict_of,
};
use std::alloc::Global;

/// What came of an attempt so far.
#[derive(Drop)]
pub(crate) enum Attempt {
    /// There was no memory, and nothing was sent.
    NotSent,
    /// The reply is not there yet.
    Waits(Ticket),
    /// The bytes of the reply.
    Reply(Vec<u8>),
    /// The link failed.
    Fault,
    /// The reply is lost for want of memory.
    Memory,
}

/// A reply that refuses, and where memory for its error comes from.
#[derive(Drop)]
pub(crate) struct Refused {
    pub(crate) alloc: Global,
    pub(crate) reply: RawDocumentBuf,
}

/// An attempt whose reply was read.
#[derive(Drop)]
pub(crate) enum Judged {
    /// The reply is not there yet.
    Waits(Ticket),
    /// A reply that tells of success.
    Success(RawDocumentBuf),
    /// A reply that refuses.
    Refusal(Refused),
    /// The link failed.
    Lost,
    /// Another failure.
    Failed(Error),
}

// The codes of refusals after which a read is sent once more.
const RETRIED_CODES: [i32; 13] = [
    6, 7, 89, 91, 134, 189, 262, 9001, 10107, 11600, 11602, 13435, 13436,
];

impl Attempt {
    // Whether the command was sent.
    pub(crate) fn was_sent(&self) -> bool
        ensures { result ≡ was_sent (attempt_of self.now) }
    {
        match self {
            Attempt::NotSent => false,
            Attempt::Waits(_) => true,
            Attempt::Reply(_) => true,
            Attempt::Fault => true,
            Attempt::Memory => true,
        }
    }
}

// Sends the command, and asks for its reply.
pub(crate) fn begin<L: Link>(link: &mut L, command: RawDocument<'_>) -> Attempt
    ensures begins { Begins (L.awaited link.old) (L.awaited link.new) (L.log link.old) (L.log link.new) command.entry (attempt_of result) }
    ensures counts { HasCounts (attempt_of result) (L.faults link.old) (L.faults link.new) (L.pends link.old) (L.pends link.new) }
    ensures prompt { L.prompt link.old → IsAtOnce (attempt_of result) }
    ensures later { Later (L.faults link.old) (L.faults link.new) (L.pends link.old) (L.pends link.new)
        (L.wire link.old) (L.wire link.new) (L.prompt link.old) (L.prompt link.new) }
{
    match link.start(command) {
        Ok(ticket) => go_on(link, ticket),
        Err(LinkError::Fault) => Attempt::Fault,
        Err(LinkError::Memory) => Attempt::NotSent,
    }
}

// Asks for the reply to a call that is out.
pub(crate) fn go_on<L: Link>(link: &mut L, ticket: Ticket) -> Attempt
    requires { IsSome (L.awaited link.old ticket) }
    ensures goes_on { GoesOn (L.awaited link.old) (L.awaited link.new) (L.log link.old) (L.log link.new) ticket (attempt_of result) }
    ensures counts { HasCounts (attempt_of result) (L.faults link.old) (L.faults link.new) (L.pends link.old) (L.pends link.new) }
    ensures prompt { L.prompt link.old → IsAtOnce (attempt_of result) }
    ensures later { Later (L.faults link.old) (L.faults link.new) (L.pends link.old) (L.pends link.new)
        (L.wire link.old) (L.wire link.new) (L.prompt link.old) (L.prompt link.new) }
{
    match link.poll(ticket) {
        Polled::Pending(ticket) => Attempt::Waits(ticket),
        Polled::Reply(bytes) => Attempt::Reply(bytes),
        Polled::Failed => Attempt::Fault,
        Polled::Memory => Attempt::Memory,
    }
}

// Reads the reply.
fn judge_reply(bytes: Vec<u8>) -> Judged
    ensures { Reads (exec.answered (reply bytes.items)) result }
{
    let alloc = *bytes.allocator();
    let reply = match RawDocumentBuf::from_bytes(bytes) {
        Ok(reply) => reply,
        Err(_) => return Judged::Failed(plain(ErrorKind::BsonDeserialization)),
    };
    match verdict_of(&reply.as_raw()) {
        Verdict::Success => Judged::Success(reply),
        Verdict::Refusal => Judged::Refusal(Refused { alloc, reply }),
        Verdict::NoOk => Judged::Failed(plain(ErrorKind::InvalidResponse(Malformed::NoOk))),
    }
}

// Reads what came of an attempt.
pub(crate) fn judge(attempt: Attempt) -> Judged
    ensures { Reads (attempt_of attempt) result }
{
    match attempt {
        Attempt::NotSent => Judged::Failed(plain(ErrorKind::OutOfMemory)),
        Attempt::Waits(ticket) => Judged::Waits(ticket),
        Attempt::Reply(bytes) => judge_reply(bytes),
        Attempt::Fault => Judged::Lost,
        Attempt::Memory => Judged::Failed(plain(ErrorKind::OutOfMemory)),
    }
}

// Whether a read that was refused so is sent once more.
fn is_retried_refusal(reply: &RawDocument<'_>) -> bool
    ensures { result ≡ is_among (code_of (fields reply.now)) retried_codes }
{
    is_among(code_of(reply), &RETRIED_CODES)
}

impl Judged {
    // Whether a read is sent once more after this.
    pub(crate) fn is_retried(&self) -> bool
        ensures { (attempt : exec.Attempt) → Reads attempt self.now → result ≡ is_retried_attempt attempt }
    {
        match self {
            Judged::Waits(_) => false,
            Judged::Success(_) => false,
            Judged::Refusal(refused) => is_retried_refusal(&refused.reply.as_raw()),
            Judged::Lost => true,
            Judged::Failed(_) => false,
        }
    }
}
