//! A link of one's own, with one call at a time.
use mg_bson::RawDocument;
use mg_link::{Link, LinkError, Polled, Ticket};
use mg_store::Store;

/// A way to a server, on which a command waits for its reply.
pub trait Transport {
    /// Sends a command, and gives the bytes of its reply; none where the way failed.
    fn exchange(&mut self, command: RawDocument<'_>) -> Option<Vec<u8>>;
}

/// A server in this process.
impl Transport for Store {
    fn exchange(&mut self, command: RawDocument<'_>) -> Option<Vec<u8>> {
        match self.perform(command) {
            Ok(receipt) => Some(receipt.reply.into_bytes()),
            Err(_) => None,
        }
    }
}

/// A link over a transport. A reply waits here until it is polled, and till then no other command is sent.
pub struct OneCall<T> {
    transport: T,
    reply: Option<Vec<u8>>,
    faults: u64,
    wire: i32,
}

// By hand, so that letting one go is one call.
impl<T: Drop> Drop for OneCall<T> {
    fn drop(self) {
        let OneCall {
            transport: _,
            reply: _,
            faults: _,
            wire: _,
        } = self;
    }
}

impl<T: Transport + Drop> OneCall<T> {
    /// A link to a server of this wire version.
    pub fn new(transport: T, wire: i32) -> OneCall<T> {
        OneCall {
            transport,
            reply: None,
            faults: 0,
            wire,
        }
    }
}

impl<T: Transport + Drop> Link for OneCall<T> {
    ghost use Rattle.std.specs.Prelude.{None};
    ghost use Rattle.example_follower.specs.OneCall.{waits};

    ghost faults = { λ l. l.faults };

    ghost pends = { λ l. 0 };

    ghost polls = { λ l place. 0 };

    ghost log = { λ l. None };

    ghost awaited = { λ l. waits l.reply };

    ghost prompt = { λ l. ⊥ };

    ghost wire = { λ l. l.wire };

    fn start(&mut self, command: RawDocument<'_>) -> Result<Ticket, LinkError> {
        if self.reply.is_some() {
            return Err(LinkError::Memory);
        }
        match self.transport.exchange(command) {
            Some(reply) => {
                self.reply = Some(reply);
                Ok(Ticket::new(0))
            }
            None => {
                self.faults = self.faults.saturating_add(1);
                Err(LinkError::Fault)
            }
        }
    }

    fn poll(&mut self, _ticket: Ticket) -> Polled {
        match self.reply.take() {
            Some(reply) => Polled::Reply(reply),
            None => {
                self.faults = self.faults.saturating_add(1);
                Polled::Failed
            }
        }
    }

    fn wire_version(&self) -> i32 {
        self.wire
    }
}
