//! Change streams that go on behind their resume token.
//!
//! An [`Opening`] sends the aggregate and gives a [`ChangeStream`], whose calls are polls over a link that is handed in. Its
//! [`Closing`] kills its cursor. A [`SessionOpening`] and a [`SessionChangeStream`] do the same in a session.
#![tactic(auto)]

mod changes;
mod closing;
mod commands;
mod counts;
mod event_poll;
pub mod laws;
mod open;
mod opening;
mod opens;
mod session_opening;
mod session_stream;
mod stream;

pub use closing::Closing;
pub use event_poll::EventPoll;
pub use mg_bson::{Bson, DateTime, Document, RawDocument, RawDocumentBuf, Timestamp};
pub use mg_cursor::{AdvanceResult, ReadRaw, TryPoll};
pub use mg_link::{
    Action, ClientSession, Error, ErrorKind, ExplicitClientSessionHandle, Link, Namespace,
    OperationTarget, ReadConcern, SelectionCriteria, Step,
};
pub use mg_ops::WatchArgs;
pub use mg_options::{
    ChangeStreamOptions, Collation, FullDocumentBeforeChangeType, FullDocumentType, ResumeToken,
    TokenRef,
};
pub use mg_records::{
    ChangeNamespace, ChangeNamespaceType, ChangeStreamEvent, OperationType, TruncatedArray,
    UpdateDescription,
};
pub use opening::Opening;
pub use session_opening::SessionOpening;
pub use session_stream::SessionChangeStream;
pub use stream::ChangeStream;
