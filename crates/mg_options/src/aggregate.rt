//! The options of aggregates.
ghost use Rattle.std.specs.Prelude.{◌≡◌, Some, None, OnOk, OnErr, IfErr};
ghost use Rattle.mg_bson.specs.Find.{joined};
ghost use Rattle.mg_options.specs.Fields.{FailsBy, fields_in, first_unfit};
ghost use Rattle.mg_options.specs.Records.{aggregate_lines};

use crate::collation::Collation;
use crate::copy::copy_given;
use crate::field::append_given;
use crate::printing::Value;
use crate::write_words::Hint;
use mg_bson::{Bson, Document};
use mg_link::{Error, ReadConcern, SelectionCriteria, WriteConcern};
use std::alloc::{AllocError, Global};

/// How an aggregate runs.
#[derive(Default)]
pub struct AggregateOptions {
    /// Whether the server may write what does not fit its memory to its disk.
    pub allow_disk_use: Option<bool>,
    /// The most documents of a batch.
    pub batch_size: Option<u32>,
    /// Whether documents that break the rules of the collection are taken.
    pub bypass_document_validation: Option<bool>,
    /// How texts are compared.
    pub collation: Option<Collation>,
    /// A value that the server writes beside the command, and beside each getMore, into its logs.
    pub comment: Option<Bson>,
    /// The index to be used.
    pub hint: Option<Hint>,
    /// The most milliseconds that the server may work on it.
    pub max_time: Option<u64>,
    /// Variables that expressions may name.
    pub let_vars: Option<Document>,
    /// The most milliseconds that the server waits for new documents.
    pub max_await_time: Option<u64>,
    /// What data is read.
    pub read_concern: Option<ReadConcern>,
    /// Which servers may be asked.
    pub selection_criteria: Option<SelectionCriteria>,
    /// How far the write is to have come.
    pub write_concern: Option<WriteConcern>,
}

// By hand, so that letting one go is one call.
impl Drop for AggregateOptions {
    fn drop(self) {
        let AggregateOptions {
            allow_disk_use: _,
            batch_size: _,
            bypass_document_validation: _,
            collation: _,
            comment: _,
            hint: _,
            max_time: _,
            let_vars: _,
            max_await_time: _,
            read_concern: _,
            selection_criteria: _,
            write_concern: _,
        } = self;
    }
}

impl AggregateOptions {
    /// Nothing is given.
    pub fn builder() -> AggregateOptions
        ensures { result ≡ record {
          allow_disk_use = None;
          batch_size = None;
          bypass_document_validation = None;
          collation = None;
          comment = None;
          hint = None;
          max_time = None;
          let_vars = None;
          max_await_time = None;
          read_concern = None;
          selection_criteria = None;
          write_concern = None;
        } }
    {
        AggregateOptions::default()
    }

    /// Gives `allow_disk_use`.
    pub fn allow_disk_use(mut self, value: bool) -> AggregateOptions
        ensures { result ≡ record self { allow_disk_use = Some value } }
    {
        self.allow_disk_use = Some(value);
        self
    }

    /// Gives `batch_size`.
    pub fn batch_size(mut self, value: u32) -> AggregateOptions
        ensures { result ≡ record self { batch_size = Some value } }
    {
        self.batch_size = Some(value);
        self
    }

    /// Gives `bypass_document_validation`.
    pub fn bypass_document_validation(mut self, value: bool) -> AggregateOptions
        ensures { result ≡ record self { bypass_document_validation = Some value } }
    {
        self.bypass_document_validation = Some(value);
        self
    }

    /// Gives `collation`.
    pub fn collation(mut self, value: Collation) -> AggregateOptions
        ensures { result ≡ record self { collation = Some value } }
    {
        self.collation = Some(value);
        self
    }

    /// Gives `comment`.
    pub fn comment(mut self, value: Bson) -> AggregateOptions
        ensures { result ≡ record self { comment = Some value } }
    {
        self.comment = Some(value);
        self
    }

    /// Gives `hint`.
    pub fn hint(mut self, value: Hint) -> AggregateOptions
        ensures { result ≡ record self { hint = Some value } }
    {
        self.hint = Some(value);
        self
    }

    /// Gives `max_time`.
    pub fn max_time(mut self, value: u64) -> AggregateOptions
        ensures { result ≡ record self { max_time = Some value } }
    {
        self.max_time = Some(value);
        self
    }

    /// Gives `let_vars`.
    pub fn let_vars(mut self, value: Document) -> AggregateOptions
        ensures { result ≡ record self { let_vars = Some value } }
    {
        self.let_vars = Some(value);
        self
    }

    /// Gives `max_await_time`.
    pub fn max_await_time(mut self, value: u64) -> AggregateOptions
        ensures { result ≡ record self { max_await_time = Some value } }
    {
        self.max_await_time = Some(value);
        self
    }

    /// Gives `read_concern`.
    pub fn read_concern(mut self, value: ReadConcern) -> AggregateOptions
        ensures { result ≡ record self { read_concern = Some value } }
    {
        self.read_concern = Some(value);
        self
    }

    /// Gives `selection_criteria`.
    pub fn selection_criteria(mut self, value: SelectionCriteria) -> AggregateOptions
        ensures { result ≡ record self { selection_criteria = Some value } }
    {
        self.selection_criteria = Some(value);
        self
    }

    /// Gives `write_concern`.
    pub fn write_concern(mut self, value: WriteConcern) -> AggregateOptions
        ensures { result ≡ record self { write_concern = Some value } }
    {
        self.write_concern = Some(value);
        self
    }

    /// The record as it was given.
    pub fn build(self) -> AggregateOptions
        ensures { result ≡ self }
    {
        self
    }

    /// Puts the options of the command at the end of its body, those that are given, in the order of the command. An
    /// argument outside its range is an error; after an error the body is as it was.
    pub fn append_fields(&self, alloc: Global, body: &mut Document) -> Result<(), Error>
        ensures ok { OnOk result (body.new ≡ joined body.old (fields_in (aggregate_lines self.now))) }
        ensures fits { OnOk result (first_unfit (aggregate_lines self.now) ≡ None) }
        ensures same { OnErr result (body.new ≡ body.old) }
        ensures err { IfErr result (λ e. FailsBy (first_unfit (aggregate_lines self.now)) e) }
    {
        self.append_sized(alloc, body, self.batch_size)
    }

    /// As `append_fields`, with this size of a batch in place of the one that was given.
    pub fn append_sized(
        &self,
        alloc: Global,
        body: &mut Document,
        batch_size: Option<u32>,
    ) -> Result<(), Error>
        ensures ok { OnOk result (body.new ≡ joined body.old (fields_in (aggregate_lines (record self.now { batch_size = batch_size })))) }
        ensures fits { OnOk result (first_unfit (aggregate_lines (record self.now { batch_size = batch_size })) ≡ None) }
        ensures same { OnErr result (body.new ≡ body.old) }
        ensures err { IfErr result (λ e. FailsBy (first_unfit (aggregate_lines (record self.now { batch_size = batch_size }))) e) }
    {
        append_given(
            alloc,
            body,
            &[
                ("allowDiskUse", Value::Flag(self.allow_disk_use)),
                ("cursor", Value::Cursor(batch_size)),
                (
                    "bypassDocumentValidation",
                    Value::Flag(self.bypass_document_validation),
                ),
                ("collation", Value::Collation(&self.collation)),
                ("comment", Value::Any(&self.comment)),
                ("hint", Value::Hint(&self.hint)),
                ("maxTimeMS", Value::Millis(self.max_time)),
                ("let", Value::Document(&self.let_vars)),
            ],
        )
    }
}

impl Clone for AggregateOptions {
    ghost use Rattle.mg_options.specs.Copies.{SameAggregateOptions};

    ghost is_clone = { SameAggregateOptions };

    fn clone(&self) -> Result<AggregateOptions, AllocError> {
        let mut copy = AggregateOptions {
            allow_disk_use: self.allow_disk_use,
            batch_size: self.batch_size,
            bypass_document_validation: self.bypass_document_validation,
            collation: None,
            comment: None,
            hint: None,
            max_time: self.max_time,
            let_vars: None,
            max_await_time: self.max_await_time,
            read_concern: None,
            selection_criteria: self.selection_criteria,
            write_concern: None,
        };
        copy_given(&self.collation, &mut copy.collation)?;
        copy_given(&self.comment, &mut copy.comment)?;
        copy_given(&self.hint, &mut copy.hint)?;
        copy_given(&self.let_vars, &mut copy.let_vars)?;
        copy_given(&self.read_concern, &mut copy.read_concern)?;
        copy_given(&self.write_concern, &mut copy.write_concern)?;
        Ok(copy)
    }
}
