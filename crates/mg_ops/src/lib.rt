//! The commands of operations and what their replies say.
//!
//! An [`Operation`] builds its command, always the same one, and reads the reply to it. It sends nothing. [`Inserting`] sends the
//! commands of one insert, one behind another.
#![tactic(auto)]

mod aggregate;
mod body;
mod change_stream;
mod changes;
mod collections;
mod cursor_reply;
mod entry;
mod fault;
mod find;
mod get_more;
mod insert;
mod insert_reply;
mod inserting;
mod kill_cursors;
pub mod laws;
mod lists;
mod looking;
mod operation;
mod parts;
mod pipelines;
mod raw_output;
mod resuming;
mod run_commands;
mod session;
mod write_reply;

pub use aggregate::ChangeStreamAggregate;
pub use change_stream::{ChangeStreamData, WatchArgs};
pub use changes::{Delete, Update, UpdateCounts, read_deleted};
pub use collections::{Create, CreateIndexes, DropCollection};
pub use cursor_reply::{
    CursorInformation, CursorReply, CursorSpecification, GetMoreResult, doc_slices, read_more,
};
pub use fault::check_reply;
pub use find::Find;
pub use get_more::GetMore;
pub use insert::Insert;
pub use insert_reply::read_inserted;
pub use inserting::{Inserting, documents_together};
pub use kill_cursors::KillCursors;
pub use lists::{ListCollections, ListIndexes};
pub use mg_link::OperationTarget;
pub use operation::{Operation, encode};
pub use pipelines::Aggregate;
pub use raw_output::RawOutput;
pub use resuming::{initial_operation_time, resume_options};
pub use run_commands::{RunCommand, RunCursorCommand};
pub use write_reply::check_written;
