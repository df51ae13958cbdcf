//! The log of a link: each call in the order of its start.
ghost use Rattle.std.specs.Prelude.{◌≡◌, ◌<◌, ◌↔◌, [], ◌∷◌, ◌++◌, length, map, IsTrue, OnOk, OnErr, MatchOption};
ghost use Rattle.mg_link.specs.Log.{see};
ghost use Rattle.mg_link.specs.LogView.{call, sight};

use crate::error::OutOfMemory;
use mg_bson::RawDocumentBuf;
use std::alloc::Global;
use std::marker::Model;

/// What the caller has seen of a call so far.
pub enum Seen {
    /// Nothing yet.
    Waiting,
    /// The bytes of the reply, as they came.
    Reply(Vec<u8>),
    /// The link failed.
    Fault,
    /// Memory ran out, and the reply is lost.
    Memory,
}

// By hand, so that letting one go is one call.
impl Drop for Seen {
    fn drop(self) {
        match self {
            Seen::Waiting => {}
            Seen::Reply(_) => {}
            Seen::Fault => {}
            Seen::Memory => {}
        }
    }
}

/// One command that was started on a link.
pub struct LoggedCall {
    /// The command as it was sent.
    pub command: RawDocumentBuf,
    /// The position of its step in the server's history, where it took effect.
    pub position: Option<u64>,
    /// What was seen of it.
    pub seen: Seen,
}

// By hand, so that letting one go is one call.
impl Drop for LoggedCall {
    fn drop(self) {
        let LoggedCall {
            command: _,
            position: _,
            seen: _,
        } = self;
    }
}

/// The log of a link: each call in the order of its start.
#[derive(Drop)]
pub struct Log {
    calls: Vec<LoggedCall>,
}

impl Model for Log {
    ghost use Rattle.std.specs.Prelude.{List, map};
    ghost use Rattle.mg_link.specs.Log.{Call};

    ghost Value = { List Call };

    ghost use Rattle.mg_link.specs.LogView.{call};

    ghost view = { λ l. map call l.calls.items };
}

impl Log {
    /// No calls.
    pub fn new(alloc: Global) -> Log
        ensures { result ≡ [] }
    {
        Log {
            calls: Vec::new(alloc),
        }
    }

    /// Adds a call at the end. Where there is no memory the log stays.
    pub fn push(&mut self, added: LoggedCall) -> Result<(), OutOfMemory>
        ensures ok { OnOk result (self.new ≡ self.old ++ call added ∷ []) }
        ensures err { OnErr result (self.new ≡ self.old) }
    {
        self.calls.push(added)?;
        Ok(())
    }

    /// Takes the newest call back.
    pub fn pop(&mut self) -> Option<LoggedCall>
        ensures { MatchOption result ((self.old ≡ []) × (self.new ≡ [])) (λ last. self.old ≡ self.new ++ call last ∷ []) }
    {
        self.calls.pop()
    }

    /// How many calls were started.
    pub fn len(&self) -> usize
        ensures { result ≡ length self.now }
    {
        self.calls.len()
    }

    /// Whether no call was started.
    pub fn is_empty(&self) -> bool
        ensures { IsTrue result ↔ (self.now ≡ []) }
    {
        self.calls.is_empty()
    }

    /// The calls, in the order of their starts.
    pub fn calls(&self) -> &[LoggedCall]
        ensures { map call result.now ≡ self.now }
    {
        self.calls.as_slice()
    }

    /// Writes down what the call at this place has seen.
    pub fn see(&mut self, place: usize, seen: Seen)
        requires { place < length self.old }
        ensures { self.new ≡ see place (sight seen) self.old }
    {
        self.calls[place].seen = seen;
    }
}
