//! Why bytes are no script.
ghost use Rattle.std.specs.Prelude.{◌≡◌, Some};
ghost use Rattle.mg_script.specs.Places.{place_text};
ghost use Rattle.mg_script.specs.declared.fault.ScriptError.TheVariants.{OutOfMemory};

use mg_bson::BsonError;
use std::alloc::{AllocError, AllocFailed};
use std::fmt;

/// Where the first fault of a script stands.
#[derive(Clone, Copy, Debug, PartialEq, Eq)]
pub enum Place {
    /// The bytes are no JSON.
    NotJson,
    /// The outermost object.
    Top,
    /// The job of this number.
    Job(usize),
    /// The entry of `order` of this number.
    Order(usize),
    /// The fate of this number.
    Fate(usize),
}

impl fmt::Display for Place {
    ghost output = { λ p. Some (place_text p) };

    fn fmt<W: fmt::Write>(&self, f: &mut fmt::Formatter<W>) -> fmt::Result {
        match self {
            Place::NotJson => f.write_str("not json"),
            Place::Top => f.write_str("top"),
            Place::Job(n) => write!(f, "job {n}"),
            Place::Order(n) => write!(f, "order {n}"),
            Place::Fate(n) => write!(f, "fate {n}"),
        }
    }
}

/// Why there is no script.
#[derive(Clone, Copy, Debug, PartialEq, Eq)]
pub enum ScriptError {
    /// Memory ran out. Nothing else is known of the bytes.
    OutOfMemory,
    /// The bytes are no script, and this is their first fault.
    Fault(Place),
}

impl From<AllocError> for ScriptError {
    ghost from_gives = { λ _ e. e ≡ OutOfMemory };

    fn from(_e: AllocError) -> ScriptError {
        ScriptError::OutOfMemory
    }
}

impl<T: Drop> From<AllocFailed<T>> for ScriptError {
    ghost from_gives = { λ _ e. e ≡ OutOfMemory };

    fn from(_e: AllocFailed<T>) -> ScriptError {
        ScriptError::OutOfMemory
    }
}

impl From<mg_link::OutOfMemory> for ScriptError {
    ghost from_gives = { λ _ e. e ≡ OutOfMemory };

    fn from(_e: mg_link::OutOfMemory) -> ScriptError {
        ScriptError::OutOfMemory
    }
}

impl From<BsonError> for ScriptError {
    ghost from_gives = { λ _ e. e ≡ OutOfMemory };

    // Making a value fails for want of memory alone.
    fn from(_e: BsonError) -> ScriptError {
        ScriptError::OutOfMemory
    }
}
