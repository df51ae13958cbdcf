//! Why a command is not built, or a reply not read.
ghost use Rattle.std.specs.Prelude.{◌≡◌, OnOk, IfErr};
ghost use Rattle.mg_bson.specs.Raw.{fields};
ghost use Rattle.mg_link.specs.Errors.{plain};
ghost use Rattle.mg_link.specs.Exec.{FailsAs};
ghost use Rattle.mg_link.specs.Reply.{verdict_of};
ghost use Rattle.mg_ops.specs.Failing.{fault_error};
ghost use Rattle.mg_link.specs.declared.reply.Verdict.TheVariants as verdict;

use mg_bson::RawDocument;
use mg_link::{Error, ErrorKind, Malformed, OutOfMemory, Verdict, plain, refusal, verdict_of};
use std::alloc::{AllocError, AllocFailed, Global};

/// Why a part of a reply was not read.
#[derive(Clone, Copy, Debug, PartialEq, Eq)]
pub(crate) enum Fault {
    /// Memory ran out.
    Memory,
    /// The reply breaks its grammar so.
    Broken(Malformed),
}

// The error of a fault.
pub(crate) fn error_of(fault: Fault) -> Error
    ensures { result ≡ fault_error fault }
{
    match fault {
        Fault::Memory => plain(ErrorKind::OutOfMemory),
        Fault::Broken(how) => plain(ErrorKind::InvalidResponse(how)),
    }
}

impl From<AllocError> for Fault {
    ghost use Rattle.mg_ops.specs.declared.fault.Fault.TheVariants as faults;

    ghost from_gives = { λ _ f. f ≡ faults.Memory };

    fn from(_e: AllocError) -> Fault {
        Fault::Memory
    }
}

impl<T: Drop> From<AllocFailed<T>> for Fault {
    ghost use Rattle.mg_ops.specs.declared.fault.Fault.TheVariants as faults;

    ghost from_gives = { λ _ f. f ≡ faults.Memory };

    fn from(_e: AllocFailed<T>) -> Fault {
        Fault::Memory
    }
}

impl From<OutOfMemory> for Fault {
    ghost use Rattle.mg_ops.specs.declared.fault.Fault.TheVariants as faults;

    ghost from_gives = { λ _ f. f ≡ faults.Memory };

    fn from(_e: OutOfMemory) -> Fault {
        Fault::Memory
    }
}

/// Hands a refusal on as its error: a reply whose `ok` is a number other than 1, over a link of this wire version. A
/// reply with no such number is malformed.
pub fn check_reply(alloc: Global, reply: &RawDocument<'_>, wire: i32) -> Result<(), Error>
    ensures ok { OnOk result (verdict_of (fields reply.now) ≡ verdict.Success) }
    ensures err { IfErr result (λ e. FailsAs (verdict_of (fields reply.now)) (fields reply.now) wire e) }
{
    match verdict_of(reply) {
        Verdict::Success => Ok(()),
        Verdict::Refusal => Err(refused(alloc, reply, wire)),
        Verdict::NoOk => Err(plain(ErrorKind::InvalidResponse(Malformed::NoOk))),
    }
}

// The error of a refusal, or want of memory.
fn refused(alloc: Global, reply: &RawDocument<'_>, wire: i32) -> Error
    ensures { FailsAs verdict.Refusal (fields reply.now) wire result }
{
    match refusal(alloc, reply, wire) {
        Ok(error) => error,
        Err(OutOfMemory) => plain(ErrorKind::OutOfMemory),
    }
}
