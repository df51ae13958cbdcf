//! What an operation is: its command, and what its reply says.
ghost use Rattle.std.specs.Prelude.{◌≡◌, ◌⊎◌, IfOk, OnOk, IfErr, ℤ, ℕ, List, Option, option_copied};
ghost use Rattle.mg_bson.specs.Tree.{Fields};
ghost use Rattle.mg_bson.specs.Bytes.{bytes};
ghost use Rattle.mg_bson.specs.Raw.{fields};
ghost use Rattle.mg_bson.specs.Writable.{IsWritable};
ghost use Rattle.mg_link.specs.Session.{Session};
ghost use Rattle.mg_link.specs.declared.error.Error.{Error};
ghost use Rattle.mg_exec.specs.declared.exec.Retry.{Retry};
ghost use Rattle.mg_ops.specs.Failing.{CannotBeSent, FailsBy};

use mg_bson::{Document, RawDocumentBuf, to_bytes};
use mg_exec::Retry;
use mg_link::{ClientSession, Error};
use std::alloc::Global;

/// A command, and how the reply to it is read.
pub trait Operation {
    /// What its reply gives.
    type Output;

    /// Its command over a link of a wire version, in a session where there is one.
    ghost command: { Self → ℤ → Option Session → Fields };

    /// Its arguments are in their ranges, and its documents may be stored.
    ghost sound: { Self → Type 0 };

    /// Why its command is not built.
    ghost unfit: { Self → Error → Type 0 };

    /// Whether it is sent once more after its first attempt, in a session where there is one.
    ghost retried: { Self → Option Session → Retry };

    /// What its output says of a reply.
    ghost gives: { Self → List ℕ → Self.Output → Type 0 };

    /// Why a reply to it is an error.
    ghost fails: { Self → Fields → Error → Type 0 };

    /// Its command over a link of this wire version, in a session that was asked for, where there is one. It is the same in
    /// each call.
    fn build(
        &self,
        alloc: Global,
        wire: i32,
        session: Option<&ClientSession>,
    ) -> Result<Document, Error>
        ensures command { IfOk result (λ d. d ≡ command self.now wire (option_copied session.entry)) }
        ensures sound { OnOk result (sound self.now) }
        ensures err { IfErr result (λ e. FailsBy (unfit self.now) e) };

    /// Whether its command, built with this session, is sent once more after its first attempt.
    fn retry(&self, session: Option<&ClientSession>) -> Retry
        ensures { result ≡ retried self.now (option_copied session.entry) };

    /// Reads a reply whose `ok` counts as 1.
    fn read(&self, alloc: Global, reply: RawDocumentBuf) -> Result<Self::Output, Error>
        ensures ok { IfOk result (λ out. gives self.now reply out) }
        ensures err { IfErr result (λ e. FailsBy (fails self.now (fields reply)) e) };
}

// The bytes of a command.
pub(crate) fn written(alloc: Global, command: &Document) -> Result<RawDocumentBuf, Error>
    ensures bytes { IfOk result (λ r. r ≡ bytes command.now) }
    ensures read_back { IfOk result (λ r. fields r ≡ command.now) }
    ensures writable { OnOk result (IsWritable command.now) }
    ensures err { IfErr result (λ e. FailsBy (CannotBeSent command.now) e) }
{
    Ok(to_bytes(alloc, command)?)
}

/// The bytes of an operation's command over a link of this wire version, in a session where there is one.
pub fn encode<O: Operation>(
    alloc: Global,
    operation: &O,
    wire: i32,
    session: Option<&ClientSession>,
) -> Result<RawDocumentBuf, Error>
    ensures bytes { IfOk result (λ r. r ≡ bytes (O.command operation.now wire (option_copied session.entry))) }
    ensures read_back { IfOk result (λ r. fields r ≡ O.command operation.now wire (option_copied session.entry)) }
    ensures sound { OnOk result (O.sound operation.now × IsWritable (O.command operation.now wire (option_copied session.entry))) }
    ensures err { IfErr result (λ e. FailsBy (λ e. O.unfit operation.now e ⊎ CannotBeSent (O.command operation.now wire (option_copied session.entry)) e) e) }
{
    let command = operation.build(alloc, wire, session)?;
    written(alloc, &command)
}
