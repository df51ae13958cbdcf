//! The options of collections and indexes.
ghost use Rattle.std.specs.Prelude.{◌≡◌, Some, None, OnOk, OnErr, IfErr};
ghost use Rattle.mg_bson.specs.Find.{joined};
ghost use Rattle.mg_options.specs.Fields.{FailsBy, fields_in, first_unfit};
ghost use Rattle.mg_options.specs.Records.{create_index_lines, list_collections_lines, list_indexes_lines};

use crate::copy::copy_given;
use crate::field::append_given;
use crate::printing::Value;
use crate::write_words::CommitQuorum;
use mg_bson::{Bson, Document};
use mg_link::{Error, ReadConcern, SelectionCriteria, WriteConcern};
use std::alloc::{AllocError, Global};

/// How a collection is read and written where a call says nothing else.
#[derive(Default)]
pub struct CollectionOptions {
    /// Which servers may be asked.
    pub selection_criteria: Option<SelectionCriteria>,
    /// What data is read.
    pub read_concern: Option<ReadConcern>,
    /// How far writes are to have come.
    pub write_concern: Option<WriteConcern>,
}

// By hand, so that letting one go is one call.
impl Drop for CollectionOptions {
    fn drop(self) {
        let CollectionOptions {
            selection_criteria: _,
            read_concern: _,
            write_concern: _,
        } = self;
    }
}

impl CollectionOptions {
    /// Nothing is given.
    pub fn builder() -> CollectionOptions
        ensures { result ≡ record {
          selection_criteria = None;
          read_concern = None;
          write_concern = None;
        } }
    {
        CollectionOptions::default()
    }

    /// Gives `selection_criteria`.
    pub fn selection_criteria(mut self, value: SelectionCriteria) -> CollectionOptions
        ensures { result ≡ record self { selection_criteria = Some value } }
    {
        self.selection_criteria = Some(value);
        self
    }

    /// Gives `read_concern`.
    pub fn read_concern(mut self, value: ReadConcern) -> CollectionOptions
        ensures { result ≡ record self { read_concern = Some value } }
    {
        self.read_concern = Some(value);
        self
    }

    /// Gives `write_concern`.
    pub fn write_concern(mut self, value: WriteConcern) -> CollectionOptions
        ensures { result ≡ record self { write_concern = Some value } }
    {
        self.write_concern = Some(value);
        self
    }

    /// The record as it was given.
    pub fn build(self) -> CollectionOptions
        ensures { result ≡ self }
    {
        self
    }
}

impl Clone for CollectionOptions {
    ghost use Rattle.mg_options.specs.Copies.{SameCollectionOptions};

    ghost is_clone = { SameCollectionOptions };

    fn clone(&self) -> Result<CollectionOptions, AllocError> {
        let mut copy = CollectionOptions {
            selection_criteria: self.selection_criteria,
            read_concern: None,
            write_concern: None,
        };
        copy_given(&self.read_concern, &mut copy.read_concern)?;
        copy_given(&self.write_concern, &mut copy.write_concern)?;
        Ok(copy)
    }
}

/// How an index is built.
#[derive(Default)]
pub struct CreateIndexOptions {
    /// How many servers are to be ready before the build ends.
    pub commit_quorum: Option<CommitQuorum>,
    /// The most milliseconds that the server may work on it.
    pub max_time: Option<u64>,
    /// A value that the server writes beside the command into its logs.
    pub comment: Option<Bson>,
    /// How far the write is to have come.
    pub write_concern: Option<WriteConcern>,
}

// By hand, so that letting one go is one call.
impl Drop for CreateIndexOptions {
    fn drop(self) {
        let CreateIndexOptions {
            commit_quorum: _,
            max_time: _,
            comment: _,
            write_concern: _,
        } = self;
    }
}

impl CreateIndexOptions {
    /// Nothing is given.
    pub fn builder() -> CreateIndexOptions
        ensures { result ≡ record {
          commit_quorum = None;
          max_time = None;
          comment = None;
          write_concern = None;
        } }
    {
        CreateIndexOptions::default()
    }

    /// Gives `commit_quorum`.
    pub fn commit_quorum(mut self, value: CommitQuorum) -> CreateIndexOptions
        ensures { result ≡ record self { commit_quorum = Some value } }
    {
        self.commit_quorum = Some(value);
        self
    }

    /// Gives `max_time`.
    pub fn max_time(mut self, value: u64) -> CreateIndexOptions
        ensures { result ≡ record self { max_time = Some value } }
    {
        self.max_time = Some(value);
        self
    }

    /// Gives `comment`.
    pub fn comment(mut self, value: Bson) -> CreateIndexOptions
        ensures { result ≡ record self { comment = Some value } }
    {
        self.comment = Some(value);
        self
    }

    /// Gives `write_concern`.
    pub fn write_concern(mut self, value: WriteConcern) -> CreateIndexOptions
        ensures { result ≡ record self { write_concern = Some value } }
    {
        self.write_concern = Some(value);
        self
    }

    /// The record as it was given.
    pub fn build(self) -> CreateIndexOptions
        ensures { result ≡ self }
    {
        self
    }

    /// Puts the options of the command at the end of its body, those that are given, in the order of the command. An
    /// argument outside its range is an error; after an error the body is as it was.
    pub fn append_fields(&self, alloc: Global, body: &mut Document) -> Result<(), Error>
        ensures ok { OnOk result (body.new ≡ joined body.old (fields_in (create_index_lines self.now))) }
        ensures fits { OnOk result (first_unfit (create_index_lines self.now) ≡ None) }
        ensures same { OnErr result (body.new ≡ body.old) }
        ensures err { IfErr result (λ e. FailsBy (first_unfit (create_index_lines self.now)) e) }
    {
        append_given(
            alloc,
            body,
            &[
                ("commitQuorum", Value::Quorum(&self.commit_quorum)),
                ("maxTimeMS", Value::Millis(self.max_time)),
                ("comment", Value::Any(&self.comment)),
            ],
        )
    }
}

impl Clone for CreateIndexOptions {
    ghost use Rattle.mg_options.specs.Copies.{SameCreateIndexOptions};

    ghost is_clone = { SameCreateIndexOptions };

    fn clone(&self) -> Result<CreateIndexOptions, AllocError> {
        let mut copy = CreateIndexOptions {
            commit_quorum: None,
            max_time: self.max_time,
            comment: None,
            write_concern: None,
        };
        copy_given(&self.commit_quorum, &mut copy.commit_quorum)?;
        copy_given(&self.comment, &mut copy.comment)?;
        copy_given(&self.write_concern, &mut copy.write_concern)?;
        Ok(copy)
    }
}

/// How a collection is dropped.
#[derive(Default)]
pub struct DropCollectionOptions {
    /// How far the write is to have come.
    pub write_concern: Option<WriteConcern>,
}

// By hand, so that letting one go is one call.
impl Drop for DropCollectionOptions {
    fn drop(self) {
        let DropCollectionOptions { write_concern: _ } = self;
    }
}

impl DropCollectionOptions {
    /// Nothing is given.
    pub fn builder() -> DropCollectionOptions
        ensures { result ≡ record {
          write_concern = None;
        } }
    {
        DropCollectionOptions::default()
    }

    /// Gives `write_concern`.
    pub fn write_concern(mut self, value: WriteConcern) -> DropCollectionOptions
        ensures { result ≡ record self { write_concern = Some value } }
    {
        self.write_concern = Some(value);
        self
    }

    /// The record as it was given.
    pub fn build(self) -> DropCollectionOptions
        ensures { result ≡ self }
    {
        self
    }
}

impl Clone for DropCollectionOptions {
    ghost use Rattle.mg_options.specs.Copies.{SameDropCollectionOptions};

    ghost is_clone = { SameDropCollectionOptions };

    fn clone(&self) -> Result<DropCollectionOptions, AllocError> {
        let mut copy = DropCollectionOptions {
            write_concern: None,
        };
        copy_given(&self.write_concern, &mut copy.write_concern)?;
        Ok(copy)
    }
}

/// How indexes are listed.
#[derive(Default)]
pub struct ListIndexesOptions {
    /// The most milliseconds that the server may work on it.
    pub max_time: Option<u64>,
    /// A value that the server writes beside the command into its logs.
    pub comment: Option<Bson>,
    /// The most documents of a batch.
    pub batch_size: Option<u32>,
}

// By hand, so that letting one go is one call.
impl Drop for ListIndexesOptions {
    fn drop(self) {
        let ListIndexesOptions {
            max_time: _,
            comment: _,
            batch_size: _,
        } = self;
    }
}

impl ListIndexesOptions {
    /// Nothing is given.
    pub fn builder() -> ListIndexesOptions
        ensures { result ≡ record {
          max_time = None;
          comment = None;
          batch_size = None;
        } }
    {
        ListIndexesOptions::default()
    }

    /// Gives `max_time`.
    pub fn max_time(mut self, value: u64) -> ListIndexesOptions
        ensures { result ≡ record self { max_time = Some value } }
    {
        self.max_time = Some(value);
        self
    }

    /// Gives `comment`.
    pub fn comment(mut self, value: Bson) -> ListIndexesOptions
        ensures { result ≡ record self { comment = Some value } }
    {
        self.comment = Some(value);
        self
    }

    /// Gives `batch_size`.
    pub fn batch_size(mut self, value: u32) -> ListIndexesOptions
        ensures { result ≡ record self { batch_size = Some value } }
    {
        self.batch_size = Some(value);
        self
    }

    /// The record as it was given.
    pub fn build(self) -> ListIndexesOptions
        ensures { result ≡ self }
    {
        self
    }

    /// Puts the options of the command at the end of its body, those that are given, in the order of the command. An
    /// argument outside its range is an error; after an error the body is as it was.
    pub fn append_fields(&self, alloc: Global, body: &mut Document) -> Result<(), Error>
        ensures ok { OnOk result (body.new ≡ joined body.old (fields_in (list_indexes_lines self.now))) }
        ensures fits { OnOk result (first_unfit (list_indexes_lines self.now) ≡ None) }
        ensures same { OnErr result (body.new ≡ body.old) }
        ensures err { IfErr result (λ e. FailsBy (first_unfit (list_indexes_lines self.now)) e) }
    {
        append_given(
            alloc,
            body,
            &[
                ("maxTimeMS", Value::Millis(self.max_time)),
                ("comment", Value::Any(&self.comment)),
            ],
        )
    }
}

impl Clone for ListIndexesOptions {
    ghost use Rattle.mg_options.specs.Copies.{SameListIndexesOptions};

    ghost is_clone = { SameListIndexesOptions };

    fn clone(&self) -> Result<ListIndexesOptions, AllocError> {
        let mut copy = ListIndexesOptions {
            max_time: self.max_time,
            comment: None,
            batch_size: self.batch_size,
        };
        copy_given(&self.comment, &mut copy.comment)?;
        Ok(copy)
    }
}

/// How collections are listed.
#[derive(Default)]
pub struct ListCollectionsOptions {
    /// Which collections are listed.
    pub filter: Option<Document>,
    /// The most documents of a batch.
    pub batch_size: Option<u32>,
    /// A value that the server writes beside the command into its logs.
    pub comment: Option<Bson>,
}

// By hand, so that letting one go is one call.
impl Drop for ListCollectionsOptions {
    fn drop(self) {
        let ListCollectionsOptions {
            filter: _,
            batch_size: _,
            comment: _,
        } = self;
    }
}

impl ListCollectionsOptions {
    /// Nothing is given.
    pub fn builder() -> ListCollectionsOptions
        ensures { result ≡ record {
          filter = None;
          batch_size = None;
          comment = None;
        } }
    {
        ListCollectionsOptions::default()
    }

    /// Gives `filter`.
    pub fn filter(mut self, value: Document) -> ListCollectionsOptions
        ensures { result ≡ record self { filter = Some value } }
    {
        self.filter = Some(value);
        self
    }

    /// Gives `batch_size`.
    pub fn batch_size(mut self, value: u32) -> ListCollectionsOptions
        ensures { result ≡ record self { batch_size = Some value } }
    {
        self.batch_size = Some(value);
        self
    }

    /// Gives `comment`.
    pub fn comment(mut self, value: Bson) -> ListCollectionsOptions
        ensures { result ≡ record self { comment = Some value } }
    {
        self.comment = Some(value);
        self
    }

    /// The record as it was given.
    pub fn build(self) -> ListCollectionsOptions
        ensures { result ≡ self }
    {
        self
    }

    /// Puts the options of the command at the end of its body, those that are given, in the order of the command. An
    /// argument outside its range is an error; after an error the body is as it was.
    pub fn append_fields(&self, alloc: Global, body: &mut Document) -> Result<(), Error>
        ensures ok { OnOk result (body.new ≡ joined body.old (fields_in (list_collections_lines self.now))) }
        ensures fits { OnOk result (first_unfit (list_collections_lines self.now) ≡ None) }
        ensures same { OnErr result (body.new ≡ body.old) }
        ensures err { IfErr result (λ e. FailsBy (first_unfit (list_collections_lines self.now)) e) }
    {
        append_given(
            alloc,
            body,
            &[
                ("filter", Value::Document(&self.filter)),
                ("cursor", Value::Cursor(self.batch_size)),
                ("comment", Value::Any(&self.comment)),
            ],
        )
    }
}

impl Clone for ListCollectionsOptions {
    ghost use Rattle.mg_options.specs.Copies.{SameListCollectionsOptions};

    ghost is_clone = { SameListCollectionsOptions };

    fn clone(&self) -> Result<ListCollectionsOptions, AllocError> {
        let mut copy = ListCollectionsOptions {
            filter: None,
            batch_size: self.batch_size,
            comment: None,
        };
        copy_given(&self.filter, &mut copy.filter)?;
        copy_given(&self.comment, &mut copy.comment)?;
        Ok(copy)
    }
}
