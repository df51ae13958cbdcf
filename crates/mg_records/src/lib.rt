//! Options of requests that no operation here takes, the records that documents are read as, and the words of events.
#![tactic(auto)]

mod change_event;
mod copy;
mod count;
mod drop_index;
mod event_words;
mod fault;
mod file_record;
mod find_and_modify;
pub mod laws;
mod marks;
mod read_raw;
mod specifications;
mod update;
mod update_description;
mod value;

pub use change_event::{ChangeNamespace, ChangeStreamEvent};
pub use count::{CountOptions, DistinctOptions, EstimatedDocumentCountOptions, Summary};
pub use drop_index::DropIndexOptions;
pub use event_words::{ChangeNamespaceType, OperationType};
pub use file_record::FilesCollectionDocument;
pub use find_and_modify::{
    FindOneAnd, FindOneAndDeleteOptions, FindOneAndReplaceOptions, FindOneAndUpdateOptions,
};
pub use marks::{Count, Deletion, Distinct, Estimate, Looking, Modification, Replacement, Writing};
pub use mg_chunks::last_number;
pub use read_raw::ReadRaw;
pub use specifications::{CollectionSpecification, IndexModel};
pub use update::{ReplaceOptions, UpdateOf, UpdateOptions};
pub use update_description::{TruncatedArray, UpdateDescription};
