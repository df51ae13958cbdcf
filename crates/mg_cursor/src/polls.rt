//! What the calls of cursors come to.
use crate::raw_batch::RawBatch;
use crate::results::AdvanceResult;
use mg_bson::RawDocumentBuf;
use mg_link::Error;

/// What a poll for the next batch came to.
#[derive(Drop)]
pub enum NextPoll {
    /// A reply pends. The next poll goes on with the call.
    Pending,
    /// The next batch.
    Batch(RawBatch),
    /// The server holds no more, or the connection of the cursor was lost.
    End,
    /// The call failed. The cursor stays usable.
    Failed(Error),
}

/// What a poll for one advance came to.
#[derive(Drop)]
pub enum TryPoll {
    /// A reply pends. The next poll goes on with the call.
    Pending,
    /// The advance has ended.
    Ready(AdvanceResult<()>),
    /// The call failed. The cursor stays usable.
    Failed(Error),
}

/// What a poll for the next document came to.
#[derive(Drop)]
pub enum AdvancePoll {
    /// A reply pends. The next poll goes on with the call.
    Pending,
    /// Whether there is a next document.
    Ready(bool),
    /// The call failed. The cursor stays usable.
    Failed(Error),
}

/// What a poll for a copy of the next document came to.
#[derive(Drop)]
pub enum ItemPoll {
    /// A reply pends. The next poll goes on with the call.
    Pending,
    /// The next document.
    Item(RawDocumentBuf),
    /// The cursor gives no more documents.
    End,
    /// The call failed. The cursor stays usable.
    Failed(Error),
}
