//! Replies that are not read.
use crate::operation::Operation;
use mg_bson::{Document, RawDocumentBuf};
use mg_exec::Retry;
use mg_link::{ClientSession, Error};
use std::alloc::Global;

/// An operation whose reply is handed on unread.
#[derive(Drop)]
pub struct RawOutput<Op>(pub Op);

impl<Op: Operation> Operation for RawOutput<Op> {
    type Output = RawDocumentBuf;

    ghost use Rattle.std.specs.Prelude.{◌≡◌};

    ghost command = { λ o. Op.command o.0 };

    ghost sound = { λ o. Op.sound o.0 };

    ghost unfit = { λ o. Op.unfit o.0 };

    ghost retried = { λ o. Op.retried o.0 };

    ghost gives = { λ o reply out. out ≡ reply };

    ghost fails = { λ o reply e. ⊥ };

    fn build(
        &self,
        alloc: Global,
        wire: i32,
        session: Option<&ClientSession>,
    ) -> Result<Document, Error> {
        self.0.build(alloc, wire, session)
    }

    fn retry(&self, session: Option<&ClientSession>) -> Retry {
        self.0.retry(session)
    }

    fn read(&self, _alloc: Global, reply: RawDocumentBuf) -> Result<RawDocumentBuf, Error> {
        Ok(reply)
    }
}
