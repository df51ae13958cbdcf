//! What a change stream is opened with, and what it remembers.
use mg_bson::{Document, Timestamp};
use mg_link::OperationTarget;
use mg_options::{ChangeStreamOptions, ResumeToken};

/// What is watched.
pub struct WatchArgs {
    /// The stages behind the one that opens the watch.
    pub pipeline: Vec<Document>,
    /// The collection, database or cluster whose changes are watched.
    pub target: OperationTarget,
    /// How the watch is opened.
    pub options: ChangeStreamOptions,
}

// By hand, so that letting one go is one call.
impl Drop for WatchArgs {
    fn drop(self) {
        let WatchArgs {
            pipeline: _,
            target: _,
            options: _,
        } = self;
    }
}

/// What a stream resumes by.
pub struct ChangeStreamData {
    /// The time of the reply to its opening, where nothing else says where it began.
    pub initial_operation_time: Option<Timestamp>,
    /// The token behind its last event.
    pub resume_token: Option<ResumeToken>,
    /// Whether it answered an event.
    pub document_returned: bool,
}

// By hand, so that letting one go is one call.
impl Drop for ChangeStreamData {
    fn drop(self) {
        let ChangeStreamData {
            initial_operation_time: _,
            resume_token: _,
            document_returned: _,
        } = self;
    }
}
