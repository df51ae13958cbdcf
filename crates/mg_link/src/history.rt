//! What a server did.
use mg_bson::RawDocumentBuf;

/// One command that a server performed, and its reply.
#[derive(Drop)]
pub struct HistoryStep {
    /// The command as it came.
    pub command: RawDocumentBuf,
    /// The reply as it was given.
    pub reply: RawDocumentBuf,
}

/// What a store hands out for a command that it performed.
#[derive(Drop)]
pub struct Receipt {
    /// The number of the step in the store's history, from 0.
    pub position: u64,
    /// The command as it came.
    pub command: RawDocumentBuf,
    /// The reply as it was given.
    pub reply: RawDocumentBuf,
}
