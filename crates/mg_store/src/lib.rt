//! A store in memory that answers the commands of a server, and a link to it.
#![tactic(auto)]

mod change;
mod content;
mod cursor;
mod fate;
mod fetching;
mod insert;
mod link;
mod listing;
mod perform;
mod rewrite;
mod store;
mod storing;
mod token;

pub use change::ChangeEntry;
pub use fate::{Fate, FateKind};
pub use link::{MemLink, may_go_aside};
pub use store::Store;
