//! What an operation does in a session.
ghost use Rattle.std.specs.Prelude.{◌≡◌, IfOk, IfErr, option_copied};
ghost use Rattle.mg_link.specs.Errors.{plain};
ghost use Rattle.mg_link.specs.declared.error.ErrorKind.TheVariants as kinds;
ghost use Rattle.mg_ops.specs.Sessions.{in_session, read_retry};

use crate::body::{Part, SessionFields};
use mg_bson::Document;
use mg_exec::Retry;
use mg_link::{ClientSession, Error};
use std::alloc::Global;

/// A command that ends with its database, with the fields of its session behind it.
#[tactic(auto, using(crate::proofs::Sessions::session_behind))]
pub(crate) fn in_session(
    alloc: Global,
    command: Document,
    session: Option<&ClientSession>,
) -> Result<Document, Error>
    ensures ok { IfOk result (λ d. d ≡ in_session (option_copied session.entry) command) }
    ensures err { IfErr result (λ e. e ≡ plain kinds.OutOfMemory) }
{
    let mut whole = command;
    match (SessionFields { session }).append_to(alloc, &mut whole) {
        Ok(()) => Ok(whole),
        Err(error) => Err(error),
    }
}

/// Whether a read is sent once more: it is, but for one that is part of a transaction.
pub(crate) fn read_retry(session: Option<&ClientSession>) -> Retry
    ensures { result ≡ read_retry (option_copied session.entry) }
{
    match session {
        Some(session) => {
            if session.in_transaction() {
                Retry::None
            } else {
                Retry::Read
            }
        }
        None => Retry::Read,
    }
}
