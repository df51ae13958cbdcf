//! Work over a link that goes on while replies pend.
ghost use Rattle.std.specs.Prelude.{ℕ, max, Option};
ghost use Rattle.mg_link.specs.Acts.{EndsAtOnce, FailsByFault, IsOut, Pended, PendsBy, PollDoes, RunsBy, Tickets, ticket_after};
ghost use Rattle.mg_link.specs.Link.{Later};

use crate::error::Error;
use crate::link::Link;

/// How far an action has come.
#[derive(Drop)]
pub enum Step<S, T> {
    /// A reply pends. The action goes on with this state.
    Pending(S),
    /// The action has ended with this output.
    Done(T),
    /// The action has failed.
    Failed(Error),
}

/// Work over a link. A poll takes its state, and gives it back while a reply pends.
pub trait Action: Sized {
    /// What it gives in the end.
    type Output;

    /// The number of the ticket that it holds.
    ghost ticket: { Self → Option ℕ };

    /// What a poll does to the tickets and the calls of its link, and answers.
    ghost does: { PollDoes Self Self.Output } = { λ old new log log' wire s r. Unit {0} };

    /// Goes on until a reply pends, or to the end.
    fn poll<L: Link>(self, link: &mut L) -> Step<Self, Self::Output>
        requires { IsOut (L.awaited link.old) (ticket self) }
        ensures polled { does (L.awaited link.old) (L.awaited link.new) (L.log link.old) (L.log link.new) (L.wire link.old) self result }
        ensures tickets { Tickets (L.awaited link.old) (L.awaited link.new) (ticket self) (ticket_after ticket result) }
        ensures pended { Pended ticket result (L.pends link.old) (L.pends link.new) }
        ensures lost { FailsByFault result (L.faults link.old) (L.faults link.new) }
        ensures prompt { L.prompt link.old → EndsAtOnce result }
        ensures later { Later (L.faults link.old) (L.faults link.new) (L.pends link.old) (L.pends link.new)
            (L.wire link.old) (L.wire link.new) (L.prompt link.old) (L.prompt link.new) };

    /// Polls until the action ends, at most so many times and at least once.
    final fn run<L: Link>(self, link: &mut L, polls: u32) -> Step<Self, Self::Output>
        requires { IsOut (L.awaited link.old) (ticket self) }
        // It answers what its last poll did, each from the state that the one before gave back; and pends only behind all of them.
        ensures polled { RunsBy does (max polls 1) (L.awaited link.old) (L.awaited link.new) (L.log link.old) (L.log link.new) (L.wire link.old) self result }
        ensures tickets { Tickets (L.awaited link.old) (L.awaited link.new) (ticket self) (ticket_after ticket result) }
        ensures pended { PendsBy (max polls 1) ticket result (L.pends link.old) (L.pends link.new) }
        ensures lost { FailsByFault result (L.faults link.old) (L.faults link.new) }
        ensures prompt { L.prompt link.old → EndsAtOnce result }
        ensures later { Later (L.faults link.old) (L.faults link.new) (L.pends link.old) (L.pends link.new)
            (L.wire link.old) (L.wire link.new) (L.prompt link.old) (L.prompt link.new) }
    {
        let mut state = self;
        'polls: for _round in 1..polls {
            match state.poll(link) {
                Step::Pending(next) => state = next,
                Step::Done(output) => return Step::Done(output),
                Step::Failed(error) => return Step::Failed(error),
            }
        }
        state.poll(link)
    }
}
