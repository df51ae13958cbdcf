//! Why the store refuses a command.
ghost use Rattle.mg_query.specs.declared.refusal.Stop.TheVariants.{Memory};
ghost use Rattle.std.specs.Prelude.{◌≡◌};
ghost use Rattle.mg_query.specs.Wanted.{refusal_code};

use mg_link::OutOfMemory;
use std::alloc::{AllocError, AllocFailed};

/// Why the store refuses a command.
#[derive(Clone, Copy, Debug, PartialEq, Eq)]
pub enum Refusal {
    /// The store does not know the command.
    UnknownCommand,
    /// A field of the command is missing, unknown, or of another form than the store reads.
    BadRequest,
    /// No open cursor has the id.
    NoSuchCursor,
    /// The token names no place.
    NoSuchToken,
    /// The collection to be created is there.
    CollectionExists,
    /// The collection is not there.
    NoSuchCollection,
}

impl Refusal {
    /// The code that a server gives for it.
    pub fn code(self) -> i32
        ensures { result ≡ refusal_code self }
    {
        match self {
            Refusal::UnknownCommand => 59,
            Refusal::BadRequest => 9,
            Refusal::NoSuchCursor => 43,
            Refusal::NoSuchToken => 260,
            Refusal::CollectionExists => 48,
            Refusal::NoSuchCollection => 26,
        }
    }
}

/// Why a command is not performed.
#[derive(Clone, Copy, Debug, PartialEq, Eq)]
pub enum Stop {
    /// It is refused.
    Refused(Refusal),
    /// There was no memory for it.
    Memory,
}

impl From<AllocError> for Stop {
    ghost from_gives = { λ _ e. e ≡ Memory };

    fn from(_e: AllocError) -> Stop {
        Stop::Memory
    }
}

impl<T: Drop> From<AllocFailed<T>> for Stop {
    ghost from_gives = { λ _ e. e ≡ Memory };

    fn from(_e: AllocFailed<T>) -> Stop {
        Stop::Memory
    }
}

impl From<OutOfMemory> for Stop {
    ghost from_gives = { λ _ e. e ≡ Memory };

    fn from(_e: OutOfMemory) -> Stop {
        Stop::Memory
    }
}
