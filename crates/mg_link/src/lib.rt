//! The way to a server and what comes back: links and their logs, errors, sessions, ids, and the ends of a program.
#![tactic(auto)]

mod action;
mod codes;
mod concern;
mod ends;
mod error;
mod error_text;
mod history;
mod id_source;
mod labels;
pub mod laws;
mod link;
mod log;
mod memory;
mod namespace;
mod pinned;
mod read_preference;
mod reading;
mod reply;
mod reserved;
mod script_link;
mod session;
mod std_ends;
mod writing;

pub use action::{Action, Step};
pub use codes::is_among;
pub use concern::{Acknowledgment, ReadConcern, ReadConcernLevel, WriteConcern};
pub use ends::{ReadFailed, Sink, Source, WriteFailed};
pub use error::{
    BadArgument, CommandError, Error, ErrorKind, GridFsErrorKind, GridFsFileIdentifier,
    IndexedFailure, Malformed, Mismatch, OutOfMemory, WriteFailure, plain,
};
pub use history::{HistoryStep, Receipt};
pub use id_source::{CountedIds, IdSource};
pub use labels::Labels;
pub use link::{Link, LinkError, Polled, Ticket};
pub use log::{Log, LoggedCall, Seen};
pub use memory::{MemSink, MemSource};
pub use namespace::{Namespace, OperationTarget};
pub use pinned::PinnedConnection;
pub use read_preference::{ReadPreference, SelectionCriteria};
pub use reading::{InputError, read_all};
pub use reply::{Verdict, code_of, refusal, verdict_of};
pub use reserved::push_reserved;
pub use script_link::{ScriptLink, Scripted, ScriptedSeen};
pub use session::{
    ClientSession, ClientSessionHandle, ExplicitClientSessionHandle, ImplicitClientSessionHandle,
    TransactionState,
};
pub use std_ends::{StdSink, StdSource};
pub use writing::write_all;
