//! The documents of the batch in hand.
ghost use Rattle.std.specs.Prelude.{◌≡◌, ◌↔◌, IfErr, IsTrue, OnErr, OnOk, [], None, Some};
ghost use Rattle.mg_cursor.specs.Batches.{BreaksBatch, documents_of};
ghost use Rattle.mg_bson.specs.Walks.{front_of, without_front};
ghost use Rattle.mg_cursor.specs.View.{AdvancesBy, behind_of, current_of, reply_of};

use crate::raw_batch::RawBatch;
use mg_bson::{RawDocument, RawDocuments};
use mg_link::Error;

/// The reply of a batch, and the place of the current document in it. No document is copied, and no call takes memory.
pub struct BatchBuffer {
    batch: Option<RawDocuments>,
}

// By hand, so that letting one go is one call.
impl Drop for BatchBuffer {
    fn drop(self) {
        let BatchBuffer { batch: _ } = self;
    }
}

impl BatchBuffer {
    /// Nothing is in it.
    pub fn new() -> BatchBuffer
        ensures current { current_of result ≡ None }
        ensures behind { behind_of result ≡ [] }
        ensures reply { reply_of result ≡ None }
    {
        BatchBuffer { batch: None }
    }

    /// Takes a batch, and stands before its first document. A reply without a batch is malformed, and so is a batch with an
    /// item that is no document; then nothing is in the buffer.
    pub fn fill(&mut self, batch: RawBatch) -> Result<(), Error>
        ensures ok { OnOk result (documents_of batch ≡ Some (behind_of self.new)) }
        ensures kept { OnOk result (reply_of self.new ≡ Some batch) }
        ensures err { IfErr result (λ e. BreaksBatch batch e) }
        ensures empty { OnErr result ((behind_of self.new ≡ []) × (reply_of self.new ≡ None)) }
        ensures before { current_of self.new ≡ None }
    {
        match batch.into_documents() {
            Ok(documents) => {
                drop(self.batch.replace(documents));
                Ok(())
            }
            Err(error) => {
                drop(self.batch.take());
                Err(error)
            }
        }
    }

    /// Goes on to the next document, and says whether there is one. Where none is left, none is current.
    #[inline(always)]
    pub fn advance(&mut self) -> bool
        ensures advances { AdvancesBy (behind_of self.old) self.new result }
        ensures reply { reply_of self.new ≡ reply_of self.old }
    {
        match &mut self.batch {
            Some(documents) => documents.advance(),
            None => false,
        }
    }

    /// The document behind the current one, a part of the reply's own bytes.
    pub fn front(&self) -> Option<RawDocument<'_>>
        ensures { result ≡ front_of (behind_of self.now) }
    {
        match &self.batch {
            Some(documents) => documents.front(),
            None => None,
        }
    }

    /// Leaves out the document behind the current one, which stays the current one.
    pub fn pass_over(&mut self)
        ensures current { current_of self.new ≡ current_of self.old }
        ensures behind { behind_of self.new ≡ without_front (behind_of self.old) }
        ensures reply { reply_of self.new ≡ reply_of self.old }
    {
        match &mut self.batch {
            Some(documents) => documents.pass_over(),
            None => {}
        }
    }

    /// The current document, a part of the reply's own bytes.
    #[inline(always)]
    pub fn current(&self) -> Option<RawDocument<'_>>
        ensures { result ≡ current_of self.now }
    {
        match &self.batch {
            Some(documents) => documents.current(),
            None => None,
        }
    }

    /// Whether no document is left behind the current one.
    pub fn is_last(&self) -> bool
        ensures { IsTrue result ↔ (behind_of self.now ≡ []) }
    {
        match &self.batch {
            Some(documents) => documents.is_last(),
            None => true,
        }
    }

    /// The reply of the batch.
    pub fn reply(&self) -> Option<RawDocument<'_>>
        ensures { result ≡ reply_of self.now }
    {
        match &self.batch {
            Some(documents) => Some(documents.as_raw()),
            None => None,
        }
    }
}
