//! The options of change streams.
ghost use Rattle.std.specs.Prelude.{◌≡◌, Some, OnOk, OnErr, IfErr, IfOk};
ghost use Rattle.mg_bson.specs.Find.{joined};
ghost use Rattle.mg_link.specs.Errors.{plain};
ghost use Rattle.mg_link.specs.declared.error.ErrorKind.TheVariants as kinds;
ghost use Rattle.mg_options.specs.Conversions.{aggregate_of_watch};
ghost use Rattle.mg_options.specs.Copies.{SameAggregateOptions};
ghost use Rattle.mg_options.specs.Options.{change_stream_fields, no_options};

use crate::aggregate::AggregateOptions;
use crate::collation::Collation;
use crate::copy::copy_given;
use crate::field::append_given;
use crate::full_document::{FullDocumentBeforeChangeType, FullDocumentType};
use crate::printing::Value;
use crate::token::ResumeToken;
use mg_bson::{Bson, Document, Timestamp};
use mg_link::{Error, ReadConcern, SelectionCriteria};
use std::alloc::{AllocError, Global};

/// How a watch is opened. What is not given is left out of the command.
///
/// At most one of `resume_after`, `start_after` and `start_at_operation_time` is to be given; a server refuses more.
#[derive(Default)]
pub struct ChangeStreamOptions {
    /// Which documents the events of updates hold in full.
    pub full_document: Option<FullDocumentType>,
    /// Whether events hold the documents before their changes.
    pub full_document_before_change: Option<FullDocumentBeforeChangeType>,
    /// Opens the watch behind the entry of this token. A server refuses the token of an invalidate entry.
    pub resume_after: Option<ResumeToken>,
    /// Opens the watch at the first entry that is not earlier than this time.
    pub start_at_operation_time: Option<Timestamp>,
    /// Opens the watch behind the entry of this token, which may be an invalidate entry.
    pub start_after: Option<ResumeToken>,
    /// Whether the changes of every database are watched; the target is the cluster then.
    pub all_changes_for_cluster: Option<bool>,
    /// Whether events of further kinds are shown, with further fields.
    pub show_expanded_events: Option<bool>,
    /// A value that the server writes beside the command, and beside each getMore, into its logs.
    pub comment: Option<Bson>,
    /// The most milliseconds that the server waits for new events.
    pub max_await_time: Option<u64>,
    /// The most documents of a batch.
    pub batch_size: Option<u32>,
    /// How texts are compared.
    pub collation: Option<Collation>,
    /// What data is read.
    pub read_concern: Option<ReadConcern>,
    /// Which servers may be asked.
    pub selection_criteria: Option<SelectionCriteria>,
}

// By hand, so that letting one go is one call.
impl Drop for ChangeStreamOptions {
    fn drop(self) {
        let ChangeStreamOptions {
            full_document: _,
            full_document_before_change: _,
            resume_after: _,
            start_at_operation_time: _,
            start_after: _,
            all_changes_for_cluster: _,
            show_expanded_events: _,
            comment: _,
            max_await_time: _,
            batch_size: _,
            collation: _,
            read_concern: _,
            selection_criteria: _,
        } = self;
    }
}

impl ChangeStreamOptions {
    /// Nothing is given.
    pub fn builder() -> ChangeStreamOptions
        ensures { result ≡ no_options }
    {
        ChangeStreamOptions::default()
    }

    /// Gives `full_document`.
    pub fn full_document(mut self, value: FullDocumentType) -> ChangeStreamOptions
        ensures { result ≡ record self { full_document = Some value } }
    {
        self.full_document = Some(value);
        self
    }

    /// Gives `full_document_before_change`.
    pub fn full_document_before_change(
        mut self,
        value: FullDocumentBeforeChangeType,
    ) -> ChangeStreamOptions
        ensures { result ≡ record self { full_document_before_change = Some value } }
    {
        self.full_document_before_change = Some(value);
        self
    }

    /// Gives `resume_after`.
    pub fn resume_after(mut self, value: ResumeToken) -> ChangeStreamOptions
        ensures { result ≡ record self { resume_after = Some value } }
    {
        self.resume_after = Some(value);
        self
    }

    /// Gives `start_at_operation_time`.
    pub fn start_at_operation_time(mut self, value: Timestamp) -> ChangeStreamOptions
        ensures { result ≡ record self { start_at_operation_time = Some value } }
    {
        self.start_at_operation_time = Some(value);
        self
    }

    /// Gives `start_after`.
    pub fn start_after(mut self, value: ResumeToken) -> ChangeStreamOptions
        ensures { result ≡ record self { start_after = Some value } }
    {
        self.start_after = Some(value);
        self
    }

    /// Gives `all_changes_for_cluster`.
    pub fn all_changes_for_cluster(mut self, value: bool) -> ChangeStreamOptions
        ensures { result ≡ record self { all_changes_for_cluster = Some value } }
    {
        self.all_changes_for_cluster = Some(value);
        self
    }

    /// Gives `show_expanded_events`.
    pub fn show_expanded_events(mut self, value: bool) -> ChangeStreamOptions
        ensures { result ≡ record self { show_expanded_events = Some value } }
    {
        self.show_expanded_events = Some(value);
        self
    }

    /// Gives `comment`.
    pub fn comment(mut self, value: Bson) -> ChangeStreamOptions
        ensures { result ≡ record self { comment = Some value } }
    {
        self.comment = Some(value);
        self
    }

    /// Gives `max_await_time`.
    pub fn max_await_time(mut self, value: u64) -> ChangeStreamOptions
        ensures { result ≡ record self { max_await_time = Some value } }
    {
        self.max_await_time = Some(value);
        self
    }

    /// Gives `batch_size`.
    pub fn batch_size(mut self, value: u32) -> ChangeStreamOptions
        ensures { result ≡ record self { batch_size = Some value } }
    {
        self.batch_size = Some(value);
        self
    }

    /// Gives `collation`.
    pub fn collation(mut self, value: Collation) -> ChangeStreamOptions
        ensures { result ≡ record self { collation = Some value } }
    {
        self.collation = Some(value);
        self
    }

    /// Gives `read_concern`.
    pub fn read_concern(mut self, value: ReadConcern) -> ChangeStreamOptions
        ensures { result ≡ record self { read_concern = Some value } }
    {
        self.read_concern = Some(value);
        self
    }

    /// Gives `selection_criteria`.
    pub fn selection_criteria(mut self, value: SelectionCriteria) -> ChangeStreamOptions
        ensures { result ≡ record self { selection_criteria = Some value } }
    {
        self.selection_criteria = Some(value);
        self
    }

    /// The record as it was given.
    pub fn build(self) -> ChangeStreamOptions
        ensures { result ≡ self }
    {
        self
    }

    /// Those of its options that are options of the aggregate which opens the watch. Only memory can fail.
    pub fn aggregate_options(&self) -> Result<AggregateOptions, Error>
        ensures ok { IfOk result (SameAggregateOptions (aggregate_of_watch self.now)) }
        ensures err { IfErr result (λ e. e ≡ plain kinds.OutOfMemory) }
    {
        let mut options = AggregateOptions {
            allow_disk_use: None,
            batch_size: self.batch_size,
            bypass_document_validation: None,
            collation: None,
            comment: None,
            hint: None,
            max_time: None,
            let_vars: None,
            max_await_time: self.max_await_time,
            read_concern: None,
            selection_criteria: self.selection_criteria,
            write_concern: None,
        };
        copy_given(&self.collation, &mut options.collation)?;
        copy_given(&self.comment, &mut options.comment)?;
        copy_given(&self.read_concern, &mut options.read_concern)?;
        Ok(options)
    }

    /// Puts the options of the stage that opens the watch at the end of its body, those that are given, in their order. Only
    /// memory can fail, and then the body is as it was.
    pub fn append_fields(&self, alloc: Global, body: &mut Document) -> Result<(), Error>
        ensures ok { OnOk result (body.new ≡ joined body.old (change_stream_fields self.now)) }
        ensures same { OnErr result (body.new ≡ body.old) }
        ensures err { IfErr result (λ e. e ≡ plain kinds.OutOfMemory) }
    {
        append_given(
            alloc,
            body,
            &[
                ("fullDocument", Value::FullDocument(&self.full_document)),
                (
                    "fullDocumentBeforeChange",
                    Value::FullDocumentBefore(&self.full_document_before_change),
                ),
                ("resumeAfter", Value::Token(&self.resume_after)),
                (
                    "startAtOperationTime",
                    Value::Time(self.start_at_operation_time),
                ),
                ("startAfter", Value::Token(&self.start_after)),
                (
                    "allChangesForCluster",
                    Value::Flag(self.all_changes_for_cluster),
                ),
                ("showExpandedEvents", Value::Flag(self.show_expanded_events)),
                ("comment", Value::Any(&self.comment)),
            ],
        )
    }
}

impl Clone for ChangeStreamOptions {
    ghost use Rattle.mg_options.specs.Copies.{SameChangeStreamOptions};

    ghost is_clone = { SameChangeStreamOptions };

    fn clone(&self) -> Result<ChangeStreamOptions, AllocError> {
        let resume_after = self.resume_after.clone()?;
        let start_after = self.start_after.clone()?;
        let mut copy = ChangeStreamOptions {
            full_document: None,
            full_document_before_change: None,
            resume_after,
            start_at_operation_time: self.start_at_operation_time,
            start_after,
            all_changes_for_cluster: self.all_changes_for_cluster,
            show_expanded_events: self.show_expanded_events,
            comment: None,
            max_await_time: self.max_await_time,
            batch_size: self.batch_size,
            collation: None,
            read_concern: None,
            selection_criteria: self.selection_criteria,
        };
        copy_given(&self.full_document, &mut copy.full_document)?;
        copy_given(
            &self.full_document_before_change,
            &mut copy.full_document_before_change,
        )?;
        copy_given(&self.comment, &mut copy.comment)?;
        copy_given(&self.collation, &mut copy.collation)?;
        copy_given(&self.read_concern, &mut copy.read_concern)?;
        Ok(copy)
    }
}
