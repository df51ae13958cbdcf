//! The options of updates and replacements.
ghost use Rattle.std.specs.Prelude.{◌≡◌, Some, None};
ghost use Rattle.mg_records.specs.Conversions.{update_of_replace};

use crate::copy::copy_documents;
use crate::marks::{Modification, Replacement};
use mg_bson::{Bson, Document};
use mg_link::WriteConcern;
use mg_options::{Collation, Hint, copy_given};
use std::alloc::AllocError;
use std::marker::PhantomData;

/// How documents are changed by an `M`.
pub struct UpdateOf<M> {
    /// Which items of arrays are changed, of a modification alone.
    pub array_filters: Option<Vec<Document>>,
    /// Whether documents that break the rules of the collection are taken.
    pub bypass_document_validation: Option<bool>,
    /// Whether a document is inserted where none matches.
    pub upsert: Option<bool>,
    /// How texts are compared.
    pub collation: Option<Collation>,
    /// The index to be used.
    pub hint: Option<Hint>,
    /// How far the write is to have come.
    pub write_concern: Option<WriteConcern>,
    /// Variables that expressions may name.
    pub let_vars: Option<Document>,
    /// A value that the server writes beside the command into its logs.
    pub comment: Option<Bson>,
    /// Which document comes first where more than one matches.
    pub sort: Option<Document>,
    /// What is asked for.
    pub by: PhantomData<M>,
}

/// How documents are updated.
pub type UpdateOptions = UpdateOf<Modification>;

/// How a document is replaced.
pub type ReplaceOptions = UpdateOf<Replacement>;

// By hand, so that letting one go is one call.
impl<M> Drop for UpdateOf<M> {
    fn drop(self) {
        let UpdateOf {
            array_filters: _,
            bypass_document_validation: _,
            upsert: _,
            collation: _,
            hint: _,
            write_concern: _,
            let_vars: _,
            comment: _,
            sort: _,
            by: _,
        } = self;
    }
}

impl<M> UpdateOf<M> {
    /// Nothing is given.
    pub fn builder() -> UpdateOf<M>
        ensures { result ≡ record {
          array_filters = None;
          bypass_document_validation = None;
          upsert = None;
          collation = None;
          hint = None;
          write_concern = None;
          let_vars = None;
          comment = None;
          sort = None;
          by = record {};
        } }
    {
        UpdateOf {
            array_filters: None,
            bypass_document_validation: None,
            upsert: None,
            collation: None,
            hint: None,
            write_concern: None,
            let_vars: None,
            comment: None,
            sort: None,
            by: PhantomData,
        }
    }

    /// Gives `bypass_document_validation`.
    pub fn bypass_document_validation(mut self, value: bool) -> UpdateOf<M>
        ensures { result ≡ record self { bypass_document_validation = Some value } }
    {
        self.bypass_document_validation = Some(value);
        self
    }

    /// Gives `upsert`.
    pub fn upsert(mut self, value: bool) -> UpdateOf<M>
        ensures { result ≡ record self { upsert = Some value } }
    {
        self.upsert = Some(value);
        self
    }

    /// Gives `collation`.
    pub fn collation(mut self, value: Collation) -> UpdateOf<M>
        ensures { result ≡ record self { collation = Some value } }
    {
        self.collation = Some(value);
        self
    }

    /// Gives `hint`.
    pub fn hint(mut self, value: Hint) -> UpdateOf<M>
        ensures { result ≡ record self { hint = Some value } }
    {
        self.hint = Some(value);
        self
    }

    /// Gives `write_concern`.
    pub fn write_concern(mut self, value: WriteConcern) -> UpdateOf<M>
        ensures { result ≡ record self { write_concern = Some value } }
    {
        self.write_concern = Some(value);
        self
    }

    /// Gives `let_vars`.
    pub fn let_vars(mut self, value: Document) -> UpdateOf<M>
        ensures { result ≡ record self { let_vars = Some value } }
    {
        self.let_vars = Some(value);
        self
    }

    /// Gives `comment`.
    pub fn comment(mut self, value: Bson) -> UpdateOf<M>
        ensures { result ≡ record self { comment = Some value } }
    {
        self.comment = Some(value);
        self
    }

    /// Gives `sort`.
    pub fn sort(mut self, value: Document) -> UpdateOf<M>
        ensures { result ≡ record self { sort = Some value } }
    {
        self.sort = Some(value);
        self
    }

    /// The record as it was given.
    pub fn build(self) -> UpdateOf<M>
        ensures { result ≡ self }
    {
        self
    }
}

impl UpdateOf<Modification> {
    /// Gives `array_filters`.
    pub fn array_filters(mut self, value: Vec<Document>) -> UpdateOptions
        ensures { result ≡ record self { array_filters = Some value } }
    {
        self.array_filters = Some(value);
        self
    }

    /// The options of a replacement, for an update.
    pub fn from_replace_options(options: ReplaceOptions) -> UpdateOptions
        ensures { result ≡ update_of_replace options }
    {
        options.into_update()
    }
}

impl UpdateOf<Replacement> {
    // As the options of an update.
    fn into_update(self) -> UpdateOptions
        ensures { result ≡ update_of_replace self }
    {
        let UpdateOf {
            array_filters: _,
            bypass_document_validation,
            upsert,
            collation,
            hint,
            write_concern,
            let_vars,
            comment,
            sort,
            by: _,
        } = self;
        UpdateOf {
            array_filters: None,
            bypass_document_validation,
            upsert,
            collation,
            hint,
            write_concern,
            let_vars,
            comment,
            sort,
            by: PhantomData,
        }
    }
}

impl<M> Default for UpdateOf<M> {
    fn default() -> UpdateOf<M> {
        UpdateOf::builder()
    }
}

impl<M> Clone for UpdateOf<M> {
    ghost use Rattle.mg_records.specs.Copies.{SameUpdateOf};

    ghost is_clone = { SameUpdateOf };

    fn clone(&self) -> Result<UpdateOf<M>, AllocError> {
        let mut copy = UpdateOf::builder();
        copy.bypass_document_validation = self.bypass_document_validation;
        copy.upsert = self.upsert;
        copy_documents(&self.array_filters, &mut copy.array_filters)?;
        copy_given(&self.collation, &mut copy.collation)?;
        copy_given(&self.hint, &mut copy.hint)?;
        copy_given(&self.write_concern, &mut copy.write_concern)?;
        copy_given(&self.let_vars, &mut copy.let_vars)?;
        copy_given(&self.comment, &mut copy.comment)?;
        copy_given(&self.sort, &mut copy.sort)?;
        Ok(copy)
    }
}
