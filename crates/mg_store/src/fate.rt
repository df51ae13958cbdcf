//! What becomes of a command on a link in memory.
ghost use Rattle.std.specs.Prelude.{◌≡◌, IfOk, true};
ghost use Rattle.mg_store.specs.InMemory.{IsSmall, fate_at, is_small};

use mg_link::OutOfMemory;
use mg_query::reply::{bytes_of, refusal};
use std::alloc::Global;

/// What becomes of a command.
pub struct Fate {
    /// How many polls answer that the reply pends, before the one that answers otherwise.
    pub pend: u32,
    /// What is performed, and what comes back.
    pub kind: FateKind,
}

// By hand, so that letting one go is one call.
impl Drop for Fate {
    fn drop(self) {
        let Fate { pend: _, kind: _ } = self;
    }
}

/// What is performed of a command, and what comes back.
pub enum FateKind {
    /// The command is performed at its start, and its reply comes.
    Keep,
    /// The command is performed at its start. Its reply is lost: a poll answers a fault.
    Lose,
    /// The command is lost. Nothing is performed, and a poll answers a fault.
    Drop,
    /// The command is refused at its start with this code and these labels. The refusal is its step and its reply.
    Refuse {
        /// The code of the refusal.
        code: i32,
        /// Its error labels, in order.
        labels: Vec<String>,
    },
}

// By hand, so that letting one go is one call.
impl Drop for FateKind {
    fn drop(self) {
        match self {
            FateKind::Keep => {}
            FateKind::Lose => {}
            FateKind::Drop => {}
            FateKind::Refuse { code: _, labels: _ } => {}
        }
    }
}

impl FateKind {
    /// Whether the refusal that it names, if any, is no larger than a reply may be.
    pub fn is_small(&self, alloc: Global) -> Result<bool, OutOfMemory>
        ensures exact { IfOk result (λ small. small ≡ is_small self.now) }
        ensures small { IfOk result (λ small. small ≡ true → IsSmall self.now) }
    {
        match self {
            FateKind::Keep => Ok(true),
            FateKind::Lose => Ok(true),
            FateKind::Drop => Ok(true),
            FateKind::Refuse { code, labels } => {
                let reply = refusal(alloc, *code, labels.as_slice())?;
                match bytes_of(alloc, &reply)? {
                    Some(_) => Ok(true),
                    None => Ok(false),
                }
            }
        }
    }
}

/// How many polls of the command of this number pend.
pub(crate) fn pend_at(fates: &[Fate], number: usize) -> u32
    ensures { result ≡ (fate_at fates.now number).pend }
{
    match fates.get(number) {
        Some(fate) => fate.pend,
        None => 0,
    }
}

/// What becomes of the command of this number. A command behind the end of the fates is kept.
pub(crate) fn kind_at<'a>(fates: &'a [Fate], number: usize, kept: &'a FateKind) -> &'a FateKind
    requires { kept.now ≡ FateKind.Keep }
    ensures { result.now ≡ (fate_at fates.now number).kind }
{
    match fates.get(number) {
        Some(fate) => &fate.kind,
        None => kept,
    }
}
