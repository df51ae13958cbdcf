//! Why a value was not read.
ghost use Rattle.std.specs.Prelude.{◌≡◌};
ghost use Rattle.mg_records.specs.Readings.{fault_error};

use mg_link::{Error, ErrorKind, Malformed, plain};
use std::alloc::{AllocError, AllocFailed};

/// Why a value was not read.
#[derive(Clone, Copy, Debug, PartialEq, Eq)]
pub(crate) enum Fault {
    /// Memory ran out.
    Memory,
    /// The value is missing, or of another kind.
    Broken,
}

// The error of a fault.
pub(crate) fn error_of(fault: Fault) -> Error
    ensures { result ≡ fault_error fault }
{
    match fault {
        Fault::Memory => plain(ErrorKind::OutOfMemory),
        Fault::Broken => plain(ErrorKind::InvalidResponse(Malformed::BadRecord)),
    }
}

impl From<AllocError> for Fault {
    ghost use Rattle.mg_records.specs.declared.fault.Fault.TheVariants as faults;

    ghost from_gives = { λ _ f. f ≡ faults.Memory };

    fn from(_e: AllocError) -> Fault {
        Fault::Memory
    }
}

impl<T: Drop> From<AllocFailed<T>> for Fault {
    ghost use Rattle.mg_records.specs.declared.fault.Fault.TheVariants as faults;

    ghost from_gives = { λ _ f. f ≡ faults.Memory };

    fn from(_e: AllocFailed<T>) -> Fault {
        Fault::Memory
    }
}
