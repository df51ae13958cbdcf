//! The options of changes that give the document back.
ghost use Rattle.std.specs.Prelude.{◌≡◌, Some, None};

use crate::copy::copy_documents;
use crate::marks::{Deletion, Modification, Replacement, Writing};
use mg_bson::{Bson, Document};
use mg_link::WriteConcern;
use mg_options::{Collation, Hint, ReturnDocument, copy_given};
use std::alloc::AllocError;
use std::marker::PhantomData;

/// How a document is given back, and meets an `M`.
pub struct FindOneAnd<M> {
    /// Which items of arrays are changed, of a modification alone.
    pub array_filters: Option<Vec<Document>>,
    /// Whether documents that break the rules of the collection are taken, where a document is written.
    pub bypass_document_validation: Option<bool>,
    /// The most milliseconds that the server may work on it.
    pub max_time: Option<u64>,
    /// Which fields of the documents are answered.
    pub projection: Option<Document>,
    /// Which form of the document is given back, where a document is written.
    pub return_document: Option<ReturnDocument>,
    /// Which document comes first where more than one matches.
    pub sort: Option<Document>,
    /// Whether a document is inserted where none matches, where a document is written.
    pub upsert: Option<bool>,
    /// How far the write is to have come.
    pub write_concern: Option<WriteConcern>,
    /// How texts are compared.
    pub collation: Option<Collation>,
    /// The index to be used.
    pub hint: Option<Hint>,
    /// Variables that expressions may name.
    pub let_vars: Option<Document>,
    /// A value that the server writes beside the command into its logs.
    pub comment: Option<Bson>,
    /// What happens to the document.
    pub then: PhantomData<M>,
}

/// How a document is deleted and given back.
pub type FindOneAndDeleteOptions = FindOneAnd<Deletion>;

/// How a document is replaced and given back.
pub type FindOneAndReplaceOptions = FindOneAnd<Replacement>;

/// How a document is updated and given back.
pub type FindOneAndUpdateOptions = FindOneAnd<Modification>;

// By hand, so that letting one go is one call.
impl<M> Drop for FindOneAnd<M> {
    fn drop(self) {
        let FindOneAnd {
            array_filters: _,
            bypass_document_validation: _,
            max_time: _,
            projection: _,
            return_document: _,
            sort: _,
            upsert: _,
            write_concern: _,
            collation: _,
            hint: _,
            let_vars: _,
            comment: _,
            then: _,
        } = self;
    }
}

impl<M> FindOneAnd<M> {
    /// Nothing is given.
    pub fn builder() -> FindOneAnd<M>
        ensures { result ≡ record {
          array_filters = None;
          bypass_document_validation = None;
          max_time = None;
          projection = None;
          return_document = None;
          sort = None;
          upsert = None;
          write_concern = None;
          collation = None;
          hint = None;
          let_vars = None;
          comment = None;
          then = record {};
        } }
    {
        FindOneAnd {
            array_filters: None,
            bypass_document_validation: None,
            max_time: None,
            projection: None,
            return_document: None,
            sort: None,
            upsert: None,
            write_concern: None,
            collation: None,
            hint: None,
            let_vars: None,
            comment: None,
            then: PhantomData,
        }
    }

    /// Gives `max_time`.
    pub fn max_time(mut self, value: u64) -> FindOneAnd<M>
        ensures { result ≡ record self { max_time = Some value } }
    {
        self.max_time = Some(value);
        self
    }

    /// Gives `projection`.
    pub fn projection(mut self, value: Document) -> FindOneAnd<M>
        ensures { result ≡ record self { projection = Some value } }
    {
        self.projection = Some(value);
        self
    }

    /// Gives `sort`.
    pub fn sort(mut self, value: Document) -> FindOneAnd<M>
        ensures { result ≡ record self { sort = Some value } }
    {
        self.sort = Some(value);
        self
    }

    /// Gives `write_concern`.
    pub fn write_concern(mut self, value: WriteConcern) -> FindOneAnd<M>
        ensures { result ≡ record self { write_concern = Some value } }
    {
        self.write_concern = Some(value);
        self
    }

    /// Gives `collation`.
    pub fn collation(mut self, value: Collation) -> FindOneAnd<M>
        ensures { result ≡ record self { collation = Some value } }
    {
        self.collation = Some(value);
        self
    }

    /// Gives `hint`.
    pub fn hint(mut self, value: Hint) -> FindOneAnd<M>
        ensures { result ≡ record self { hint = Some value } }
    {
        self.hint = Some(value);
        self
    }

    /// Gives `let_vars`.
    pub fn let_vars(mut self, value: Document) -> FindOneAnd<M>
        ensures { result ≡ record self { let_vars = Some value } }
    {
        self.let_vars = Some(value);
        self
    }

    /// Gives `comment`.
    pub fn comment(mut self, value: Bson) -> FindOneAnd<M>
        ensures { result ≡ record self { comment = Some value } }
    {
        self.comment = Some(value);
        self
    }

    /// The record as it was given.
    pub fn build(self) -> FindOneAnd<M>
        ensures { result ≡ self }
    {
        self
    }
}

impl<M: Writing> FindOneAnd<M> {
    /// Gives `bypass_document_validation`.
    pub fn bypass_document_validation(mut self, value: bool) -> FindOneAnd<M>
        ensures { result ≡ record self { bypass_document_validation = Some value } }
    {
        self.bypass_document_validation = Some(value);
        self
    }

    /// Gives `return_document`.
    pub fn return_document(mut self, value: ReturnDocument) -> FindOneAnd<M>
        ensures { result ≡ record self { return_document = Some value } }
    {
        self.return_document = Some(value);
        self
    }

    /// Gives `upsert`.
    pub fn upsert(mut self, value: bool) -> FindOneAnd<M>
        ensures { result ≡ record self { upsert = Some value } }
    {
        self.upsert = Some(value);
        self
    }
}

impl FindOneAnd<Modification> {
    /// Gives `array_filters`.
    pub fn array_filters(mut self, value: Vec<Document>) -> FindOneAndUpdateOptions
        ensures { result ≡ record self { array_filters = Some value } }
    {
        self.array_filters = Some(value);
        self
    }
}

impl<M> Default for FindOneAnd<M> {
    fn default() -> FindOneAnd<M> {
        FindOneAnd::builder()
    }
}

impl<M> Clone for FindOneAnd<M> {
    ghost use Rattle.mg_records.specs.Copies.{SameFindOneAnd};

    ghost is_clone = { SameFindOneAnd };

    fn clone(&self) -> Result<FindOneAnd<M>, AllocError> {
        let mut copy = FindOneAnd::builder();
        copy.bypass_document_validation = self.bypass_document_validation;
        copy.max_time = self.max_time;
        copy.return_document = self.return_document;
        copy.upsert = self.upsert;
        copy_documents(&self.array_filters, &mut copy.array_filters)?;
        copy_given(&self.projection, &mut copy.projection)?;
        copy_given(&self.sort, &mut copy.sort)?;
        copy_given(&self.write_concern, &mut copy.write_concern)?;
        copy_given(&self.collation, &mut copy.collation)?;
        copy_given(&self.hint, &mut copy.hint)?;
        copy_given(&self.let_vars, &mut copy.let_vars)?;
        copy_given(&self.comment, &mut copy.comment)?;
        Ok(copy)
    }
}
