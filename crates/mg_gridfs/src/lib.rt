//! Files in a bucket, which are cut into chunks.
//!
//! A [`GridFsBucket`] names the two collections of a bucket: that of the records of its files, and that of their chunks. An
//! [`OpenUploadStream`] opens a [`GridFsUploadStream`], whose calls are polls over a link that is handed in: it inserts the chunks of
//! what is written, and the record last. An [`OpenDownloadStream`] is an [`Action`] that finds the record and opens a
//! [`GridFsDownloadStream`], which reads the chunks of the file, and checks them against the record.
#![tactic(auto)]

mod aim;
mod bucket;
mod check;
mod chunks;
mod commands;
mod download;
mod flight;
mod hand;
mod indexes;
pub mod laws;
mod open_download;
mod open_upload;
mod polls;
mod stage;
mod steps;
mod stream;

pub use bucket::{DatabaseDefaults, GridFsBucket};
pub use download::GridFsDownloadStream;
pub use mg_link::{Action, Error, ErrorKind, GridFsErrorKind, IdSource, Link, Step};
pub use mg_options::{GridFsBucketOptions, GridFsUploadOptions};
pub use mg_records::{FilesCollectionDocument, last_number};
pub use open_download::OpenDownloadStream;
pub use open_upload::OpenUploadStream;
pub use polls::{ReadPoll, Step2, WritePoll};
pub use stream::GridFsUploadStream;
