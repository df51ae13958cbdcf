//! The opening of a change stream in one call.
ghost use Rattle.std.specs.Prelude.{◌≡◌, Bool, false, max, None, Some, ℕ};
ghost use Rattle.mg_link.specs.Acts.{EndsAtOnce, FailsByFault, PendsBy, Tickets, ticket_after};
ghost use Rattle.mg_link.specs.Link.{Later};
ghost use Rattle.mg_link.specs.Moment.{moment};
ghost use Rattle.mg_cursor.specs.Client.{PlainIf};
ghost use Rattle.mg_cursor.specs.Seeking.{session_moved, times};
ghost use Rattle.mg_change.specs.ClientOpenings.{KeepsOpening, opening_ticket, seen_step};
ghost use Rattle.mg_change.specs.OpenedStreams.{CallOpens, OpenBegins, OpenCaused, OpenKeeps, OpenMoves, OpenSent};
ghost use Rattle.mg_change.specs.OpeningView.{IsOpens, IsPlainOpening, IsSessionOpening, opening_of, opens_of, session_opening_of, session_ticket_in, ticket_in};
ghost use Rattle.mg_change.specs.StreamView.{IsOwnPlace, IsPlainStream, IsSessionStream, IsStream, OwnsSessionToken, OwnsToken, changes_of, session_stream_of, stream_of};

use crate::changes::Changes;
use crate::opening::{Opening, opening_step};
use crate::opens::Opens;
use crate::session_opening::{SessionOpening, session_step};
use crate::session_stream::SessionChangeStream;
use crate::stream::ChangeStream;
use mg_link::{
    ClientSession, ClientSessionHandle, ExplicitClientSessionHandle, ImplicitClientSessionHandle,
    Link, Step,
};
use mg_ops::WatchArgs;
use std::alloc::Global;

impl<T> Opening<T> {
    /// Opens a stream: polls until it is open or its opening fails, at most so many times and at least once. Where its reply pends still,
    /// the opening is given, which goes on by `poll`.
    pub fn open<L: Link>(
        alloc: Global,
        args: WatchArgs,
        link: &mut L,
        polls: u32,
    ) -> Step<Opening<T>, ChangeStream<T>>
        ensures tickets { Tickets (L.awaited link.old) (L.awaited link.new) None (ticket_after ticket_in result) }
        ensures pended { PendsBy (max polls 1) ticket_in result (L.pends link.old) (L.pends link.new) }
        ensures lost { FailsByFault result (L.faults link.old) (L.faults link.new) }
        ensures prompt { L.prompt link.old → EndsAtOnce result }
        ensures later { Later (L.faults link.old) (L.faults link.new) (L.pends link.old) (L.pends link.new)
            (L.wire link.old) (L.wire link.new) (L.prompt link.old) (L.prompt link.new) }
        // What is on its way is its aggregate, and the stream that it gives is sound.
        ensures sound { KeepsOpening IsPlainOpening IsPlainStream result }
        // The token of the stream is its own.
        ensures owned { KeepsOpening (λ o. Unit {0}) OwnsToken result }
        // It has these arguments, and a stream stands between two calls.
        ensures begins { OpenBegins args (seen_step opening_of stream_of result) }
        // The aggregate, at most twice, and nothing else.
        ensures sent { OpenSent (L.log link.old) (L.log link.new) (L.wire link.old) None args }
        // What in the log is the cause of the answer, over all polls.
        ensures caused { OpenCaused (L.awaited link.new) (L.log link.old) (L.log link.new) (L.wire link.old) None args (seen_step opening_of stream_of result) }
        // Over an honest link the stream begins at the place that its start names.
        ensures moved { OpenMoves (L.awaited link.new) (L.log link.old) (L.log link.new) args (seen_step opening_of stream_of result) }
    {
        let mut handle = ImplicitClientSessionHandle(None);
        opening_step(Opens::open_in(alloc, args, &mut handle, link, polls))
    }
}

impl<T> SessionOpening<T> {
    /// Opens a stream in a session: polls until it is open or its opening fails, at most so many times and at least once, and tells the
    /// session of an aggregate that was started. Where its reply pends still, the opening is given, which goes on by `poll_in`.
    pub fn open<L: Link>(
        alloc: Global,
        args: WatchArgs,
        session: &mut ClientSession,
        link: &mut L,
        polls: u32,
    ) -> Step<SessionOpening<T>, SessionChangeStream<T>>
        ensures tickets { Tickets (L.awaited link.old) (L.awaited link.new) None (ticket_after session_ticket_in result) }
        ensures pended { PendsBy (max polls 1) session_ticket_in result (L.pends link.old) (L.pends link.new) }
        ensures lost { FailsByFault result (L.faults link.old) (L.faults link.new) }
        ensures prompt { L.prompt link.old → EndsAtOnce result }
        ensures later { Later (L.faults link.old) (L.faults link.new) (L.pends link.old) (L.pends link.new)
            (L.wire link.old) (L.wire link.new) (L.prompt link.old) (L.prompt link.new) }
        // What is on its way is its aggregate, and the stream that it gives is sound.
        ensures sound { KeepsOpening IsSessionOpening IsSessionStream result }
        // The token of the stream is its own.
        ensures owned { KeepsOpening (λ o. Unit {0}) OwnsSessionToken result }
        // It has these arguments, and a stream stands between two calls.
        ensures begins { OpenBegins args (seen_step session_opening_of session_stream_of result) }
        // The aggregate of this session, at most twice, and nothing else; and how far the session moved on.
        ensures sent { OpenSent (L.log link.old) (L.log link.new) (L.wire link.old) (Some session.old) args }
        ensures told { (started : Bool) × (session.new ≡ session_moved started session.old) }
        // What in the log is the cause of the answer, over all polls.
        ensures caused { OpenCaused (L.awaited link.new) (L.log link.old) (L.log link.new) (L.wire link.old) (Some session.old) args (seen_step session_opening_of session_stream_of result) }
        // Over an honest link the stream begins at the place that its start names.
        ensures moved { OpenMoves (L.awaited link.new) (L.log link.old) (L.log link.new) args (seen_step session_opening_of session_stream_of result) }
    {
        let mut handle = ExplicitClientSessionHandle(session);
        session_step(open_in_session(alloc, args, &mut handle, link, polls))
    }
}

impl Opens {
    // Polls until the stream is open or its opening fails, at most so many times and at least once.
    fn open_in<H: ClientSessionHandle, L: Link>(
        alloc: Global,
        args: WatchArgs,
        handle: &mut H,
        link: &mut L,
        polls: u32,
    ) -> Step<Opens, Changes>
        // The tickets of others, the counts, the wire version and the promptness of the link.
        ensures keeps { OpenKeeps (max polls 1) (moment (L.awaited link.old) (L.log link.old) (L.faults link.old) (L.pends link.old) (L.wire link.old) (L.prompt link.old))
            (moment (L.awaited link.new) (L.log link.new) (L.faults link.new) (L.pends link.new) (L.wire link.new) (L.prompt link.new))
            (λ o. opening_ticket (opens_of o)) result }
        ensures sound { (plain : Bool) → PlainIf plain (H.asked handle.old) → KeepsOpening (IsOpens plain) (IsStream plain) result }
        ensures owned { KeepsOpening (λ o. Unit {0}) (λ s. IsOwnPlace s.token) result }
        ensures opens { CallOpens (L.awaited link.new) (L.log link.old) (L.log link.new) (L.wire link.old) (H.asked handle.old) args (seen_step opens_of changes_of result) }
        ensures told { (starts : ℕ) × (handle.new ≡ times starts H.told handle.old) }
    {
        let mut state = Opens::new(alloc, args);
        'polls: for _round in 1..polls {
            match state.poll_in(handle, link) {
                Step::Pending(next) => state = next,
                Step::Done(changes) => return Step::Done(changes),
                Step::Failed(error) => return Step::Failed(error),
            }
        }
        state.poll_in(handle, link)
    }
}

// Opens it in the session of the handle.
fn open_in_session<L: Link>(
    alloc: Global,
    args: WatchArgs,
    handle: &mut ExplicitClientSessionHandle<'_>,
    link: &mut L,
    polls: u32,
) -> Step<Opens, Changes>
    ensures keeps { OpenKeeps (max polls 1) (moment (L.awaited link.old) (L.log link.old) (L.faults link.old) (L.pends link.old) (L.wire link.old) (L.prompt link.old))
        (moment (L.awaited link.new) (L.log link.new) (L.faults link.new) (L.pends link.new) (L.wire link.new) (L.prompt link.new))
        (λ o. opening_ticket (opens_of o)) result }
    ensures sound { KeepsOpening (IsOpens false) (IsStream false) result }
    ensures owned { KeepsOpening (λ o. Unit {0}) (λ s. IsOwnPlace s.token) result }
    ensures opens { CallOpens (L.awaited link.new) (L.log link.old) (L.log link.new) (L.wire link.old) (Some handle.old.0.now) args (seen_step opens_of changes_of result) }
    ensures told { (started : Bool) × (handle.new.0.now ≡ session_moved started handle.old.0.now) }
    ensures same_session { handle.new.0.ghost_name ≡ handle.old.0.ghost_name }
{
    Opens::open_in(alloc, args, handle, link, polls)
}
