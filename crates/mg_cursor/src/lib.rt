//! Cursors over any link.
//!
//! A [`RawBatchCursor`] gives the replies to its getMores one by one, a [`Cursor`] the documents in them; a [`SessionRawBatchCursor`]
//! and a [`SessionCursor`] do the same in a session. A document is lent from the reply that it came in. [`Batches`] and
//! [`BatchBuffer`] are what these types are made of; they are public for streams that stand on them. A [`Closing`] kills a cursor that the server holds still.
#![tactic(auto)]

mod batches;
mod buffer;
mod closing;
mod commands;
mod cursor;
mod documents;
mod fault;
pub mod laws;
mod new_cursor;
mod polls;
mod raw_batch;
mod raw_cursor;
mod results;
mod session_cursor;
mod session_raw;

pub use batches::Batches;
pub use buffer::BatchBuffer;
pub use closing::Closing;
pub use cursor::Cursor;
pub use fault::{ends_cursor, is_memory};
pub use mg_bson::{RawArray, RawDocument, RawDocumentBuf};
pub use mg_link::{
    Action, ClientSession, ClientSessionHandle, Error, ErrorKind, ExplicitClientSessionHandle,
    ImplicitClientSessionHandle, Link, PinnedConnection, Step,
};
pub use mg_ops::{CursorInformation, CursorSpecification};
pub use mg_options::TokenRef;
pub use mg_records::ReadRaw;
pub use new_cursor::NewCursor;
pub use polls::{AdvancePoll, ItemPoll, NextPoll, TryPoll};
pub use raw_batch::RawBatch;
pub use raw_cursor::RawBatchCursor;
pub use results::AdvanceResult;
pub use session_cursor::{SessionCursor, SessionCursorStream};
pub use session_raw::{SessionRawBatchCursor, SessionRawBatchCursorStream};
