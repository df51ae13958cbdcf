//! What commands ask of a store, and what stands in it of documents: requests as they are read, filters and the stages of
//! queries, collections with their indexes, what updates make of documents, and replies and events as documents.
#![tactic(auto)]

mod batch;
mod catalog;
mod collection;
mod continuing;
mod copies;
mod event;
mod filter;
mod groups;
mod index;
mod limits;
mod listing;
mod lookup;
mod modification;
mod query;
mod reading;
mod refusal;
pub mod reply;
mod request;
mod results;
mod selection;
mod sort;
mod stages;
mod watch;
mod write;

pub use batch::{Batch, batch_from};
pub use collection::{Collection, KeyedDocument};
pub use continuing::{continued_cursor, ends_cursor, is_cursor_command};
pub use copies::{copy, encoded, owned, tree_of};
pub use event::{
    deleted_event, dropped_event, insert_event, invalidate_event, replaced_event, updated_event,
};
pub use filter::{Condition, key_of, raw_key};
pub use index::{Index, all_may_stay, indexes_listed, with_indexes};
pub use limits::{MAX_BATCH, MAX_DOCUMENT, MAX_INSERTED_LEVELS, encoded_may_stay, may_be_given};
pub use listing::{collections_listed, listing_namespace};
pub use lookup::chosen;
pub use modification::{Altered, Modification, alter, set_anew, with_fields};
pub use query::Plan;
pub use reading::{
    LentSpace, LentTarget, id_of, is_same_space, namespace, target, text_at, watch_namespace,
};
pub use refusal::{Refusal, Stop};
pub use request::{Request, request_of};
pub use results::{further, through};
pub use selection::Selection;
pub use stages::{Key, Stage};
pub use watch::LentStart;
pub use write::Write;
