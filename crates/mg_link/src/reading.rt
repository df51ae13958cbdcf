//! The whole input.
ghost use Rattle.std.specs.Prelude.{◌≡◌, ◌<◌, ◌≤◌, List, ℕ, length, IfOk};
ghost use Rattle.std.specs.Result.{IsErrOf};
ghost use Rattle.std.specs.Io.KnownBytes.{Consumes};
ghost use Rattle.mg_link.specs.Causes.{Rose};
ghost use Rattle.mg_link.specs.Ends.{ReadWhole, longest};
ghost use Rattle.mg_link.specs.declared.reading.InputError.TheVariants.{Memory, Fault};

use crate::ends::{ReadFailed, Source};
use std::alloc::{AllocError, Global};

// The longest input, in bytes.
const LONGEST: usize = 16_777_216;

/// Why there is no whole input.
#[derive(Clone, Copy, Debug, PartialEq, Eq)]
pub enum InputError {
    /// Memory ran out.
    Memory,
    /// A read failed.
    Fault,
    /// There are more than 16,777,216 bytes.
    TooLong,
}

impl From<AllocError> for InputError {
    ghost from_gives = { λ _ e. e ≡ Memory };

    fn from(_e: AllocError) -> InputError {
        InputError::Memory
    }
}

impl From<ReadFailed> for InputError {
    ghost from_gives = { λ _ e. e ≡ Fault };

    fn from(_e: ReadFailed) -> InputError {
        InputError::Fault
    }
}

/// Reads to the end, which comes within 16,777,216 bytes, or says why there is no whole input.
pub fn read_all<S: Source>(alloc: Global, source: &mut S) -> Result<Vec<u8>, InputError>
    ensures whole { IfOk result (λ v. ReadWhole (S.left source.old) (S.left source.new) v.items) }
    ensures short { IfOk result (λ v. length v.items ≤ longest) }
    ensures fault { IsErrOf result InputError.Fault → Rose (S.faults source.old) (S.faults source.new) }
    ensures too_long { IsErrOf result InputError.TooLong
        → (bytes : List ℕ) × Consumes (S.left source.old) (S.left source.new) bytes × (longest < length bytes) }
    ensures later { S.faults source.old ≤ S.faults source.new }
{
    let mut bytes = Vec::new(alloc);
    let mut buf = [0u8; 4096];
    'reads: while bytes.len() <= LONGEST {
        let count = source.read(&mut buf)?;
        if count == 0 {
            return Ok(bytes);
        }
        bytes.extend_from_slice(&buf[..count])?;
    }
    Err(InputError::TooLong)
}
