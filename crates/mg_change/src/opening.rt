//! The opening of a change stream.
ghost use Rattle.std.specs.Prelude.{◌≡◌, Bool, None, Option};
ghost use Rattle.mg_link.specs.Acts.{EndsAtOnce, FailsByFault, IsOut, Pended, Tickets, ticket_after};
ghost use Rattle.mg_link.specs.Link.{Later};
ghost use Rattle.mg_server.specs.State.{Start, Watch};
ghost use Rattle.mg_change.specs.ClientOpenings.{KeepsOpening, OpensStream, seen_step};
ghost use Rattle.mg_change.specs.ClientStreams.{Asks};
ghost use Rattle.mg_change.specs.Following.{OpeningMoves};
ghost use Rattle.mg_change.specs.OpeningCauses.{OpeningCaused};
ghost use Rattle.mg_change.specs.OpeningView.{IsPlainOpening, opening_of, opens_in, ticket_in};
ghost use Rattle.mg_change.specs.StreamView.{IsPlainStream, OwnsToken, changes_in, stream_of};

use crate::changes::Changes;
use crate::opens::Opens;
use crate::stream::ChangeStream;
use mg_link::{Action, ImplicitClientSessionHandle, Link, Step};
use mg_ops::WatchArgs;
use std::alloc::Global;
use std::marker::PhantomData;

/// A change stream that is being opened: its aggregate is sent, with one retry. Where it fails there is no stream.
pub struct Opening<T> {
    opens: Opens,
    event: PhantomData<T>,
}

// By hand, so that letting one go is one call.
impl<T> Drop for Opening<T> {
    fn drop(self) {
        let Opening { opens: _, event: _ } = self;
    }
}

impl<T> Opening<T> {
    /// Nothing is sent until the first poll.
    pub fn new(alloc: Global, args: WatchArgs) -> Opening<T>
        ensures opening { opening_of result ≡ record { args = args; sending = None } }
        ensures sound { IsPlainOpening result }
    {
        Opening {
            opens: Opens::new(alloc, args),
            event: PhantomData,
        }
    }

    /// The number of the ticket that it holds, while it waits for a reply.
    pub fn ticket_number(&self) -> Option<u64>
        ensures { result ≡ ticket_in self.now }
    {
        self.opens.ticket_number()
    }
}

impl<T> Action for Opening<T> {
    type Output = ChangeStream<T>;

    ghost use Rattle.std.specs.Prelude.{Bool, None};
    ghost use Rattle.mg_change.specs.ClientOpenings.{KeepsOpening, OpensStream, seen_step};
    ghost use Rattle.mg_change.specs.OpeningCauses.{OpeningCaused};
    ghost use Rattle.mg_change.specs.OpeningView.{IsPlainOpening, opening_of, ticket_in};
    ghost use Rattle.mg_change.specs.StreamView.{IsPlainStream, stream_of};

    ghost ticket = { ticket_in };

    ghost does = { λ old new log log' wire s r. (IsPlainOpening s → KeepsOpening IsPlainOpening IsPlainStream r)
        × (IsPlainOpening s → (started : Bool) × OpensStream old new log log' wire None started (opening_of s) (seen_step opening_of stream_of r))
        × (IsPlainOpening s → OpeningCaused old new log log' wire None (opening_of s) (seen_step opening_of stream_of r)) };

    fn poll<L: Link>(self, link: &mut L) -> Step<Opening<T>, ChangeStream<T>>
        requires { IsOut (L.awaited link.old) (ticket_in self) }
        ensures tickets { Tickets (L.awaited link.old) (L.awaited link.new) (ticket_in self) (ticket_after ticket_in result) }
        ensures pended { Pended ticket_in result (L.pends link.old) (L.pends link.new) }
        ensures lost { FailsByFault result (L.faults link.old) (L.faults link.new) }
        ensures prompt { L.prompt link.old → EndsAtOnce result }
        ensures later { Later (L.faults link.old) (L.faults link.new) (L.pends link.old) (L.pends link.new)
            (L.wire link.old) (L.wire link.new) (L.prompt link.old) (L.prompt link.new) }
        // What is on its way is its aggregate, and the stream that it gives is sound.
        ensures sound { IsPlainOpening self → KeepsOpening IsPlainOpening IsPlainStream result }
        // The token of the stream is its own.
        ensures owned { KeepsOpening (λ o. Unit {0}) OwnsToken result }
        // Which commands it sent, and what came of them.
        ensures opens { IsPlainOpening self → (started : Bool) × OpensStream (L.awaited link.old) (L.awaited link.new) (L.log link.old) (L.log link.new) (L.wire link.old) None started (opening_of self) (seen_step opening_of stream_of result) }
        // What in the log is the cause of the answer, over all polls.
        ensures caused { IsPlainOpening self → OpeningCaused (L.awaited link.old) (L.awaited link.new) (L.log link.old) (L.log link.new) (L.wire link.old) None (opening_of self) (seen_step opening_of stream_of result) }
        // Over an honest link the stream begins at the place that its start names.
        ensures moved { IsPlainOpening self → (w : Watch) (start : Start) → Asks (opening_of self).args w start
            → OpeningMoves (L.awaited link.old) (L.awaited link.new) (L.log link.old) (L.log link.new) w start (opening_of self) (seen_step opening_of stream_of result) }
    {
        let Opening { opens, event: _ } = self;
        let mut handle = ImplicitClientSessionHandle(None);
        opening_step(opens.poll_in(&mut handle, link))
    }
}

// What its machine came to.
pub(crate) fn opening_step<T>(polled: Step<Opens, Changes>) -> Step<Opening<T>, ChangeStream<T>>
    ensures { seen_step opens_in changes_in result ≡ polled }
{
    match polled {
        Step::Pending(opens) => Step::Pending(Opening {
            opens,
            event: PhantomData,
        }),
        Step::Done(changes) => Step::Done(ChangeStream {
            changes,
            event: PhantomData,
        }),
        Step::Failed(error) => Step::Failed(error),
    }
}
