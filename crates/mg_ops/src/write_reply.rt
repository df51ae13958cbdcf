//! What the replies to writes say that are no inserts.
ghost use Rattle.std.specs.Prelude.{◌≡◌, Ok, [], OnOk, IfErr};
ghost use Rattle.mg_bson.specs.Raw.{fields};
ghost use Rattle.mg_ops.specs.Failing.{FailsBy};
ghost use Rattle.mg_ops.specs.Writes.{WriteFails, failures_of};

use crate::fault::error_of;
use crate::insert_reply::failures_of;
use mg_bson::RawDocument;
use mg_link::{Error, ErrorKind, WriteFailure, plain};
use std::alloc::Global;

/// Refuses the reply to a write that lists a failure: with the first of them.
pub fn check_written(alloc: Global, reply: &RawDocument<'_>) -> Result<(), Error>
    ensures ok { OnOk result (failures_of 0 (fields reply.now) ≡ Ok []) }
    ensures err { IfErr result (λ e. FailsBy (WriteFails (fields reply.now)) e) }
{
    let failures = match failures_of(alloc, 0, reply) {
        Ok(failures) => failures,
        Err(fault) => return Err(error_of(fault)),
    };
    match failures.as_slice() {
        [] => Ok(()),
        [first, ..] => {
            let message = first.message.clone()?;
            let code = first.code;
            Err(plain(ErrorKind::Write(WriteFailure { code, message })))
        }
    }
}
