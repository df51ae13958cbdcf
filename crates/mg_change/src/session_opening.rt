//! The opening of a change stream in a session.
ghost use Rattle.std.specs.Prelude.{◌≡◌, Bool, None, Option, Some, false};
ghost use Rattle.mg_link.specs.Acts.{IsOut, ticket_after};
ghost use Rattle.mg_link.specs.Moment.{LinkKeeps, moment, step_ending};
ghost use Rattle.mg_server.specs.State.{Start, Watch};
ghost use Rattle.mg_cursor.specs.Seeking.{session_moved};
ghost use Rattle.mg_change.specs.ClientOpenings.{KeepsOpening, OpensStream, opening_ticket, seen_step};
ghost use Rattle.mg_change.specs.ClientStreams.{Asks};
ghost use Rattle.mg_change.specs.Following.{OpeningMoves};
ghost use Rattle.mg_change.specs.OpeningCauses.{OpeningCaused};
ghost use Rattle.mg_change.specs.OpeningView.{IsOpens, IsSessionOpening, opens_of, session_opening_of, session_opens_in, session_ticket_in};
ghost use Rattle.mg_change.specs.StreamView.{IsOwnPlace, IsSessionStream, IsStream, OwnsSessionToken, changes_of, session_changes_in, session_stream_of};

use crate::changes::Changes;
use crate::opens::Opens;
use crate::session_stream::SessionChangeStream;
use mg_link::{ClientSession, ExplicitClientSessionHandle, Link, Step};
use mg_ops::WatchArgs;
use std::alloc::Global;
use std::marker::PhantomData;

/// A change stream that is being opened in a session, which its aggregate names. Each poll is handed that session. The aggregate is
/// sent with one retry, unless it is part of a transaction. Where it fails there is no stream.
pub struct SessionOpening<T> {
    opens: Opens,
    event: PhantomData<T>,
}

// By hand, so that letting one go is one call.
impl<T> Drop for SessionOpening<T> {
    fn drop(self) {
        let SessionOpening { opens: _, event: _ } = self;
    }
}

impl<T> SessionOpening<T> {
    /// Nothing is sent until the first poll.
    pub fn new(alloc: Global, args: WatchArgs) -> SessionOpening<T>
        ensures opening { session_opening_of result ≡ record { args = args; sending = None } }
        ensures sound { IsSessionOpening result }
    {
        SessionOpening {
            opens: Opens::new(alloc, args),
            event: PhantomData,
        }
    }

    /// The number of the ticket that it holds, while it waits for a reply.
    pub fn ticket_number(&self) -> Option<u64>
        ensures { result ≡ session_ticket_in self.now }
    {
        self.opens.ticket_number()
    }

    /// Goes on until a reply pends, or to the end. It tells the session of an aggregate that was started.
    pub fn poll_in<L: Link>(
        self,
        session: &mut ClientSession,
        link: &mut L,
    ) -> Step<SessionOpening<T>, SessionChangeStream<T>>
        requires { IsOut (L.awaited link.old) (session_ticket_in self) }
        // The tickets of others, the counts, the wire version and the promptness of the link.
        ensures keeps { LinkKeeps (moment (L.awaited link.old) (L.log link.old) (L.faults link.old) (L.pends link.old) (L.wire link.old) (L.prompt link.old))
            (moment (L.awaited link.new) (L.log link.new) (L.faults link.new) (L.pends link.new) (L.wire link.new) (L.prompt link.new))
            (session_ticket_in self) (ticket_after session_ticket_in result) (step_ending result) }
        // What is on its way is its aggregate, and the stream that it gives is sound.
        ensures sound { IsSessionOpening self → KeepsOpening IsSessionOpening IsSessionStream result }
        // The token of the stream is its own.
        ensures owned { KeepsOpening (λ o. Unit {0}) OwnsSessionToken result }
        // Which commands it sent, what came of them, and how far the session moved on.
        ensures opens { IsSessionOpening self → (started : Bool) × OpensStream (L.awaited link.old) (L.awaited link.new) (L.log link.old) (L.log link.new) (L.wire link.old) (Some session.old) started (session_opening_of self) (seen_step session_opening_of session_stream_of result)
            × (session.new ≡ session_moved started session.old) }
        // What in the log is the cause of the answer, over all polls.
        ensures caused { IsSessionOpening self → OpeningCaused (L.awaited link.old) (L.awaited link.new) (L.log link.old) (L.log link.new) (L.wire link.old) (Some session.old) (session_opening_of self) (seen_step session_opening_of session_stream_of result) }
        // Over an honest link the stream begins at the place that its start names.
        ensures moved { IsSessionOpening self → (w : Watch) (start : Start) → Asks (session_opening_of self).args w start
            → OpeningMoves (L.awaited link.old) (L.awaited link.new) (L.log link.old) (L.log link.new) w start (session_opening_of self) (seen_step session_opening_of session_stream_of result) }
    {
        let SessionOpening { opens, event: _ } = self;
        let mut handle = ExplicitClientSessionHandle(session);
        session_step(opens_in_session(opens, &mut handle, link))
    }
}

// Polls its machine, in the session of the handle.
fn opens_in_session<L: Link>(
    opens: Opens,
    handle: &mut ExplicitClientSessionHandle<'_>,
    link: &mut L,
) -> Step<Opens, Changes>
    requires { IsOut (L.awaited link.old) (opening_ticket (opens_of opens)) }
    ensures keeps { LinkKeeps (moment (L.awaited link.old) (L.log link.old) (L.faults link.old) (L.pends link.old) (L.wire link.old) (L.prompt link.old))
        (moment (L.awaited link.new) (L.log link.new) (L.faults link.new) (L.pends link.new) (L.wire link.new) (L.prompt link.new))
        (opening_ticket (opens_of opens)) (ticket_after (λ o. opening_ticket (opens_of o)) result) (step_ending result) }
    ensures opens { opens.aggregate.resume ≡ None → (started : Bool) × OpensStream (L.awaited link.old) (L.awaited link.new) (L.log link.old) (L.log link.new) (L.wire link.old) (Some handle.old.0.now) started (opens_of opens) (seen_step opens_of changes_of result)
        × (handle.new.0.now ≡ session_moved started handle.old.0.now) }
    ensures sound { IsOpens false opens → KeepsOpening (IsOpens false) (IsStream false) result }
    ensures owned { KeepsOpening (λ o. Unit {0}) (λ s. IsOwnPlace s.token) result }
    ensures same_session { opens.aggregate.resume ≡ None → handle.new.0.ghost_name ≡ handle.old.0.ghost_name }
{
    opens.poll_in(handle, link)
}

// What its machine came to.
pub(crate) fn session_step<T>(
    polled: Step<Opens, Changes>,
) -> Step<SessionOpening<T>, SessionChangeStream<T>>
    ensures { seen_step session_opens_in session_changes_in result ≡ polled }
{
    match polled {
        Step::Pending(opens) => Step::Pending(SessionOpening {
            opens,
            event: PhantomData,
        }),
        Step::Done(changes) => Step::Done(SessionChangeStream {
            changes,
            event: PhantomData,
        }),
        Step::Failed(error) => Step::Failed(error),
    }
}
