//! A link over which the commands of a turn are counted.
ghost use Rattle.std.specs.Prelude.{◌≡◌, ℕ, Option, nat_lt};
ghost use Rattle.mg_link.specs.Link.{Awaited, Polls, LogTold};
ghost use Rattle.mg_turns.specs.Counts.{Counted, IsOwnTurn};

use crate::turned::Turned;
use mg_bson::RawDocument;
use mg_link::{Link, LinkError, Polled, Ticket};
use std::marker::{Brand, Model, PhantomData};

/// What a turn began with, for proofs alone.
pub trait Began {
    /// The calls of the link, where it tells them.
    ghost calls: { LogTold };

    /// Its tickets that were out.
    ghost awaited: { Awaited };

    /// The ticket that the job of the turn held.
    ghost held: { Option ℕ };

    /// The count of its pending replies.
    ghost pends: { ℕ };

    /// How many polls of each call pended.
    ghost polls: { Polls };

    /// Holds where it was prompt.
    ghost prompts: { Type 0 };
}

impl Began for Brand {
    ghost use Rattle.std.specs.Prelude.{None};

    ghost calls = { None };

    ghost awaited = { λ ticket. None };

    ghost held = { None };

    ghost pends = { 0 };

    ghost polls = { λ place. 0 };

    ghost prompts = { ⊥ };
}

/// A link that counts what a turn does over it. To clauses it is the link behind it, and how many of the turn's replies
/// pended. It shows the turn no ticket of another job, and starts nothing while a ticket of the turn is out, nor behind a poll
/// that pended: so only the newest call of its own job is polled in it.
pub struct Counting<L: Link, B: Began> {
    link: L,
    started: u64,
    pended: u64,
    /// The ticket of the turn that is out.
    out: Option<u64>,
    began: PhantomData<B>,
}

impl<L: Link, B: Began> Model for Counting<L, B> {
    ghost use Rattle.std.specs.Prelude.{ℕ};
    ghost use Rattle.mg_turns.specs.Counts.{Counted, IsOwnTurn};

    ghost Value = { L × ℕ };

    ghost view = { λ c. (c.link, c.pended) };

    ghost invariant = { λ c. Counted B.calls (L.log c.link) c.started c.pended B.pends (L.pends c.link) B.prompts (L.prompt c.link)
        × IsOwnTurn B.held B.awaited (L.awaited c.link) B.calls (L.log c.link) c.out c.pended B.polls (L.polls c.link) };
}

impl<L: Link, B: Began> Counting<L, B> {
    /// Nothing is counted yet.
    pub fn new(link: L, held: Option<u64>) -> Counting<L, B>
        requires calls { L.log link ≡ B.calls }
        requires awaited { L.awaited link ≡ B.awaited }
        requires held { held ≡ B.held }
        requires pends { L.pends link ≡ B.pends }
        requires polls { L.polls link ≡ B.polls }
        requires prompts { B.prompts → L.prompt link }
        ensures link { result.0 ≡ link }
        ensures none { result.1 ≡ 0 }
    {
        Counting {
            link,
            started: 0,
            pended: 0,
            out: held,
            began: PhantomData,
        }
    }

    /// The link, and what was counted.
    pub fn into_parts(self) -> (L, Turned)
        ensures link { result.0 ≡ self.0 }
        ensures counted { Counted B.calls (L.log self.0) result.1.started self.1 B.pends (L.pends self.0) B.prompts (L.prompt self.0) }
        ensures own { (out : Option ℕ) × IsOwnTurn B.held B.awaited (L.awaited self.0) B.calls (L.log self.0) out self.1 B.polls (L.polls self.0) }
        ensures pended { result.1.pended ≡ nat_lt 0 self.1 }
    {
        let Counting {
            link,
            started,
            pended,
            out: _,
            began: _,
        } = self;
        (
            link,
            Turned {
                started,
                pended: pended > 0,
            },
        )
    }
}

impl<L: Link, B: Began> Link for Counting<L, B> {
    ghost use Rattle.mg_turns.specs.Counts.{shown};

    ghost faults = { λ c. L.faults c.0 };

    ghost pends = { λ c. c.1 };

    ghost polls = { λ c. L.polls c.0 };

    ghost log = { λ c. L.log c.0 };

    ghost awaited = { λ c. shown B.held B.awaited (L.awaited c.0) };

    ghost prompt = { λ c. L.prompt c.0 };

    ghost wire = { λ c. L.wire c.0 };

    /// A command that could not be counted is not sent, nor one of a turn that waits.
    fn start(&mut self, command: RawDocument<'_>) -> Result<Ticket, LinkError> {
        if self.out.is_some() || self.pended > 0 {
            return Err(LinkError::Memory);
        }
        let Some(started) = self.started.checked_add(1) else {
            return Err(LinkError::Memory);
        };
        match self.link.start(command) {
            Ok(ticket) => {
                self.started = started;
                self.out = Some(ticket.number());
                Ok(ticket)
            }
            Err(LinkError::Fault) => {
                self.started = started;
                Err(LinkError::Fault)
            }
            Err(LinkError::Memory) => Err(LinkError::Memory),
        }
    }

    fn poll(&mut self, ticket: Ticket) -> Polled {
        match self.link.poll(ticket) {
            Polled::Pending(ticket) => {
                self.pended = self.pended.saturating_add(1);
                Polled::Pending(ticket)
            }
            Polled::Reply(bytes) => {
                self.out = None;
                Polled::Reply(bytes)
            }
            Polled::Failed => {
                self.out = None;
                Polled::Failed
            }
            Polled::Memory => {
                self.out = None;
                Polled::Memory
            }
        }
    }

    fn wire_version(&self) -> i32 {
        self.link.wire_version()
    }
}
