//! What the calls of a stream come to.
use mg_bson::RawDocumentBuf;
use mg_cursor::TryPoll;
use mg_link::Error;

/// What a call for a copy of the next event came to.
#[derive(Drop)]
pub enum EventPoll {
    /// A reply pends. The next poll goes on with the call.
    Pending,
    /// The next event, or none where nothing is there.
    Ready(Option<RawDocumentBuf>),
    /// The call failed. The stream stays usable.
    Failed(Error),
}

// How a call goes on behind a step.
#[derive(Drop)]
pub(crate) enum Stepped {
    // With another step.
    Goes,
    // An event is next.
    Found,
    // It has ended, or a reply pends.
    Gives(TryPoll),
}
