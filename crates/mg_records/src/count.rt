//! The options of counts and of distinct values.
ghost use Rattle.std.specs.Prelude.{◌≡◌, Some, None, OnOk, OnErr, IfErr};
ghost use Rattle.mg_bson.specs.Find.{joined};
ghost use Rattle.mg_options.specs.Fields.{FailsBy, fields_in, first_unfit};
ghost use Rattle.mg_records.specs.Records.{distinct_lines, estimated_document_count_lines};

use crate::marks::{Count, Distinct, Estimate, Looking};
use mg_bson::{Bson, Document};
use mg_link::{Error, ReadConcern, SelectionCriteria};
use mg_options::{Collation, Hint, Value, append_given, copy_given};
use std::alloc::{AllocError, Global};
use std::marker::PhantomData;

/// How a collection is summed up by an `M`.
pub struct Summary<M> {
    /// The index to be used, where documents are looked at.
    pub hint: Option<Hint>,
    /// The most documents that are counted, of a count alone.
    pub limit: Option<u64>,
    /// The most milliseconds that the server may work on it.
    pub max_time: Option<u64>,
    /// How many documents are passed over first, of a count alone.
    pub skip: Option<u64>,
    /// How texts are compared, where documents are looked at.
    pub collation: Option<Collation>,
    /// Which servers may be asked.
    pub selection_criteria: Option<SelectionCriteria>,
    /// What data is read.
    pub read_concern: Option<ReadConcern>,
    /// A value that the server writes beside the command into its logs.
    pub comment: Option<Bson>,
    /// What is asked for.
    pub by: PhantomData<M>,
}

/// How documents are counted.
pub type CountOptions = Summary<Count>;

/// How the number of documents is estimated.
pub type EstimatedDocumentCountOptions = Summary<Estimate>;

/// How the distinct values of a field are read.
pub type DistinctOptions = Summary<Distinct>;

// By hand, so that letting one go is one call.
impl<M> Drop for Summary<M> {
    fn drop(self) {
        let Summary {
            hint: _,
            limit: _,
            max_time: _,
            skip: _,
            collation: _,
            selection_criteria: _,
            read_concern: _,
            comment: _,
            by: _,
        } = self;
    }
}

impl<M> Summary<M> {
    /// Nothing is given.
    pub fn builder() -> Summary<M>
        ensures { result ≡ record {
          hint = None;
          limit = None;
          max_time = None;
          skip = None;
          collation = None;
          selection_criteria = None;
          read_concern = None;
          comment = None;
          by = record {};
        } }
    {
        Summary {
            hint: None,
            limit: None,
            max_time: None,
            skip: None,
            collation: None,
            selection_criteria: None,
            read_concern: None,
            comment: None,
            by: PhantomData,
        }
    }

    /// Gives `max_time`.
    pub fn max_time(mut self, value: u64) -> Summary<M>
        ensures { result ≡ record self { max_time = Some value } }
    {
        self.max_time = Some(value);
        self
    }

    /// Gives `selection_criteria`.
    pub fn selection_criteria(mut self, value: SelectionCriteria) -> Summary<M>
        ensures { result ≡ record self { selection_criteria = Some value } }
    {
        self.selection_criteria = Some(value);
        self
    }

    /// Gives `read_concern`.
    pub fn read_concern(mut self, value: ReadConcern) -> Summary<M>
        ensures { result ≡ record self { read_concern = Some value } }
    {
        self.read_concern = Some(value);
        self
    }

    /// Gives `comment`.
    pub fn comment(mut self, value: Bson) -> Summary<M>
        ensures { result ≡ record self { comment = Some value } }
    {
        self.comment = Some(value);
        self
    }

    /// The record as it was given.
    pub fn build(self) -> Summary<M>
        ensures { result ≡ self }
    {
        self
    }
}

impl<M: Looking> Summary<M> {
    /// Gives `hint`.
    pub fn hint(mut self, value: Hint) -> Summary<M>
        ensures { result ≡ record self { hint = Some value } }
    {
        self.hint = Some(value);
        self
    }

    /// Gives `collation`.
    pub fn collation(mut self, value: Collation) -> Summary<M>
        ensures { result ≡ record self { collation = Some value } }
    {
        self.collation = Some(value);
        self
    }
}

impl Summary<Count> {
    /// Gives `limit`.
    pub fn limit(mut self, value: u64) -> CountOptions
        ensures { result ≡ record self { limit = Some value } }
    {
        self.limit = Some(value);
        self
    }

    /// Gives `skip`.
    pub fn skip(mut self, value: u64) -> CountOptions
        ensures { result ≡ record self { skip = Some value } }
    {
        self.skip = Some(value);
        self
    }
}

impl Summary<Estimate> {
    /// Puts the options of the command at the end of its body, those that are given, in the order of the command. An
    /// argument outside its range is an error; after an error the body is as it was.
    pub fn append_fields(&self, alloc: Global, body: &mut Document) -> Result<(), Error>
        ensures ok { OnOk result (body.new ≡ joined body.old (fields_in (estimated_document_count_lines self.now))) }
        ensures fits { OnOk result (first_unfit (estimated_document_count_lines self.now) ≡ None) }
        ensures same { OnErr result (body.new ≡ body.old) }
        ensures err { IfErr result (λ e. FailsBy (first_unfit (estimated_document_count_lines self.now)) e) }
    {
        append_given(
            alloc,
            body,
            &[
                ("maxTimeMS", Value::Millis(self.max_time)),
                ("comment", Value::Any(&self.comment)),
            ],
        )
    }
}

impl Summary<Distinct> {
    /// Puts the options of the command at the end of its body, those that are given, in the order of the command. An
    /// argument outside its range is an error; after an error the body is as it was.
    pub fn append_fields(&self, alloc: Global, body: &mut Document) -> Result<(), Error>
        ensures ok { OnOk result (body.new ≡ joined body.old (fields_in (distinct_lines self.now))) }
        ensures fits { OnOk result (first_unfit (distinct_lines self.now) ≡ None) }
        ensures same { OnErr result (body.new ≡ body.old) }
        ensures err { IfErr result (λ e. FailsBy (first_unfit (distinct_lines self.now)) e) }
    {
        append_given(
            alloc,
            body,
            &[
                ("maxTimeMS", Value::Millis(self.max_time)),
                ("collation", Value::Collation(&self.collation)),
                ("comment", Value::Any(&self.comment)),
                ("hint", Value::Hint(&self.hint)),
            ],
        )
    }
}

impl<M> Default for Summary<M> {
    fn default() -> Summary<M> {
        Summary::builder()
    }
}

impl<M> Clone for Summary<M> {
    ghost use Rattle.mg_records.specs.Copies.{SameSummary};

    ghost is_clone = { SameSummary };

    fn clone(&self) -> Result<Summary<M>, AllocError> {
        let mut copy = Summary::builder();
        copy.limit = self.limit;
        copy.max_time = self.max_time;
        copy.skip = self.skip;
        copy.selection_criteria = self.selection_criteria;
        copy_given(&self.hint, &mut copy.hint)?;
        copy_given(&self.collation, &mut copy.collation)?;
        copy_given(&self.read_concern, &mut copy.read_concern)?;
        copy_given(&self.comment, &mut copy.comment)?;
        Ok(copy)
    }
}
