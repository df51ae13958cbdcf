//! A link to a server, over which a reply may pend, be lost or be refused.
ghost use Rattle.std.specs.Prelude.{◌≡◌, ℕ, ℤ, Option, List, IsErrOf, IsSome};
ghost use Rattle.mg_link.specs.Causes.{Rose};
ghost use Rattle.mg_link.specs.Log.{Call};
ghost use Rattle.mg_link.specs.Link.{ComesAtOnce, Later, PollMeans, PollPends, SamePolls, StartMeans, StartsAtOnce};

use mg_bson::RawDocument;
use std::marker::Model;

/// Why a command was not started.
#[derive(Clone, Copy, Debug, PartialEq, Eq)]
pub enum LinkError {
    /// The link failed. Whether the server performs the command is not known.
    Fault,
    /// Memory ran out, and nothing was sent.
    Memory,
}

/// A call whose reply has not come.
///
/// It holds one number, and is neither copied nor cloned. It is polled on the link that gave it.
#[derive(Drop)]
pub struct Ticket {
    number: u64,
}

impl Model for Ticket {
    ghost use Rattle.std.specs.Prelude.{ℕ};

    ghost Value = { ℕ };

    ghost view = { λ t. t.number };
}

impl Ticket {
    /// The ticket with this number. Links make them.
    pub fn new(number: u64) -> Ticket
        ensures { result ≡ number }
    {
        Ticket { number }
    }

    /// Its number.
    pub fn number(&self) -> u64
        ensures { result ≡ self.now }
    {
        self.number
    }
}

/// What a poll answers.
#[derive(Drop)]
pub enum Polled {
    /// The reply is not there yet. The ticket is given back.
    Pending(Ticket),
    /// The bytes of the reply.
    Reply(Vec<u8>),
    /// The link failed, and no reply comes.
    Failed,
    /// Memory ran out, and the reply is lost.
    Memory,
}

/// A link to a server.
pub trait Link {
    /// How many faults it answered. The count never falls, and stays at its greatest number.
    ghost faults: { Self → ℕ };

    /// How many polls it answered by a reply that pends. The count rises by one with each, never falls, and may stay at
    /// 2^64 - 1 once it is there.
    ghost pends: { Self → ℕ };

    /// How many polls of the call at each place of the log it answered by a reply that pends.
    ghost polls: { Self → ℕ → ℕ };

    /// Its calls, in the order of their starts, where it tells them.
    ghost log: { Self → Option (List Call) };

    /// The numbers of the tickets that are out, each with the place of its call in the log.
    ghost awaited: { Self → ℕ → Option ℕ };

    /// Holds of a link that never again fails or lets a reply pend.
    ghost prompt: { Self → Type 0 };

    /// The number that `wire_version` answers.
    ghost wire: { Self → ℤ };

    /// Starts a command. A server that is honest performs it now or never.
    fn start(&mut self, command: RawDocument<'_>) -> Result<Ticket, LinkError>
        ensures starts { StartMeans (awaited self.old) (awaited self.new) (log self.old) (log self.new) command.entry result }
        ensures fault { IsErrOf result LinkError.Fault → Rose (faults self.old) (faults self.new) }
        ensures prompt { prompt self.old → StartsAtOnce result }
        ensures pends_same { pends self.new ≡ pends self.old }
        ensures polls_same { SamePolls (polls self.old) (polls self.new) }
        ensures later { Later (faults self.old) (faults self.new) (pends self.old) (pends self.new)
            (wire self.old) (wire self.new) (prompt self.old) (prompt self.new) };

    /// Asks for the reply to a call that is out.
    fn poll(&mut self, ticket: Ticket) -> Polled
        requires { IsSome (awaited self.old ticket) }
        ensures polls { PollMeans (awaited self.old) (awaited self.new) (log self.old) (log self.new) ticket result }
        ensures fault { result ≡ Polled.Failed → Rose (faults self.old) (faults self.new) }
        ensures prompt { prompt self.old → ComesAtOnce result }
        ensures pended { PollPends result (awaited self.old ticket) (pends self.old) (pends self.new) (polls self.old) (polls self.new) }
        ensures later { Later (faults self.old) (faults self.new) (pends self.old) (pends self.new)
            (wire self.old) (wire self.new) (prompt self.old) (prompt self.new) };

    /// The wire version of the server, which no call changes.
    fn wire_version(&self) -> i32
        ensures { result ≡ wire self.now };
}
