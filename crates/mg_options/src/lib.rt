//! The options of operations, their words and collations, and resume tokens.
#![tactic(auto)]

mod aggregate;
mod change_stream;
mod collation;
mod collections;
mod commands;
mod concerns;
mod copy;
mod field;
mod find;
mod full_document;
mod grid_fs;
pub mod laws;
mod printing;
mod token;
mod write_words;
mod writes;

pub use aggregate::AggregateOptions;
pub use change_stream::ChangeStreamOptions;
pub use collation::{
    Collation, CollationAlternate, CollationCaseFirst, CollationMaxVariable, CollationStrength,
};
pub use collections::{
    CollectionOptions, CreateIndexOptions, DropCollectionOptions, ListCollectionsOptions,
    ListIndexesOptions,
};
pub use commands::{RunCommandOptions, RunCursorCommandOptions};
pub use concerns::append_concerns;
pub use copy::copy_given;
pub use field::{Print, append_given, put_given};
pub use find::{FindOneOptions, FindOptions};
pub use full_document::{FullDocumentBeforeChangeType, FullDocumentType};
pub use grid_fs::{
    GridFsBucketOptions, GridFsDownloadByNameOptions, GridFsFindOneOptions, GridFsFindOptions,
    GridFsUploadOptions,
};
pub use printing::Value;
pub use token::{ResumeToken, TokenRef};
pub use write_words::{CommitQuorum, CursorType, Hint, ReturnDocument, UpdateModifications};
pub use writes::{DeleteOptions, InsertManyOptions, InsertOneOptions};
