//! The options of writes.
ghost use Rattle.std.specs.Prelude.{◌≡◌, Some, None, OnOk, OnErr, IfErr};
ghost use Rattle.mg_bson.specs.Find.{joined};
ghost use Rattle.mg_options.specs.Conversions.{insert_of_one};
ghost use Rattle.mg_options.specs.Fields.{FailsBy, fields_in, first_unfit};
ghost use Rattle.mg_options.specs.Records.{delete_lines, insert_many_lines};

use crate::collation::Collation;
use crate::copy::copy_given;
use crate::field::append_given;
use crate::printing::Value;
use crate::write_words::Hint;
use mg_bson::{Bson, Document};
use mg_link::{Error, WriteConcern};
use std::alloc::{AllocError, Global};

/// How one document is inserted.
#[derive(Default)]
pub struct InsertOneOptions {
    /// Whether documents that break the rules of the collection are taken.
    pub bypass_document_validation: Option<bool>,
    /// How far the write is to have come.
    pub write_concern: Option<WriteConcern>,
    /// A value that the server writes beside the command into its logs.
    pub comment: Option<Bson>,
}

// By hand, so that letting one go is one call.
impl Drop for InsertOneOptions {
    fn drop(self) {
        let InsertOneOptions {
            bypass_document_validation: _,
            write_concern: _,
            comment: _,
        } = self;
    }
}

impl InsertOneOptions {
    /// Nothing is given.
    pub fn builder() -> InsertOneOptions
        ensures { result ≡ record {
          bypass_document_validation = None;
          write_concern = None;
          comment = None;
        } }
    {
        InsertOneOptions::default()
    }

    /// Gives `bypass_document_validation`.
    pub fn bypass_document_validation(mut self, value: bool) -> InsertOneOptions
        ensures { result ≡ record self { bypass_document_validation = Some value } }
    {
        self.bypass_document_validation = Some(value);
        self
    }

    /// Gives `write_concern`.
    pub fn write_concern(mut self, value: WriteConcern) -> InsertOneOptions
        ensures { result ≡ record self { write_concern = Some value } }
    {
        self.write_concern = Some(value);
        self
    }

    /// Gives `comment`.
    pub fn comment(mut self, value: Bson) -> InsertOneOptions
        ensures { result ≡ record self { comment = Some value } }
    {
        self.comment = Some(value);
        self
    }

    /// The record as it was given.
    pub fn build(self) -> InsertOneOptions
        ensures { result ≡ self }
    {
        self
    }
}

/// How documents are inserted.
#[derive(Default)]
pub struct InsertManyOptions {
    /// Whether documents that break the rules of the collection are taken.
    pub bypass_document_validation: Option<bool>,
    /// Whether a write that failed ends the command.
    pub ordered: Option<bool>,
    /// A value that the server writes beside the command into its logs.
    pub comment: Option<Bson>,
    /// How far the write is to have come.
    pub write_concern: Option<WriteConcern>,
}

// By hand, so that letting one go is one call.
impl Drop for InsertManyOptions {
    fn drop(self) {
        let InsertManyOptions {
            bypass_document_validation: _,
            ordered: _,
            comment: _,
            write_concern: _,
        } = self;
    }
}

impl InsertManyOptions {
    /// Nothing is given.
    pub fn builder() -> InsertManyOptions
        ensures { result ≡ record {
          bypass_document_validation = None;
          ordered = None;
          comment = None;
          write_concern = None;
        } }
    {
        InsertManyOptions::default()
    }

    /// Gives `bypass_document_validation`.
    pub fn bypass_document_validation(mut self, value: bool) -> InsertManyOptions
        ensures { result ≡ record self { bypass_document_validation = Some value } }
    {
        self.bypass_document_validation = Some(value);
        self
    }

    /// Gives `ordered`.
    pub fn ordered(mut self, value: bool) -> InsertManyOptions
        ensures { result ≡ record self { ordered = Some value } }
    {
        self.ordered = Some(value);
        self
    }

    /// Gives `comment`.
    pub fn comment(mut self, value: Bson) -> InsertManyOptions
        ensures { result ≡ record self { comment = Some value } }
    {
        self.comment = Some(value);
        self
    }

    /// Gives `write_concern`.
    pub fn write_concern(mut self, value: WriteConcern) -> InsertManyOptions
        ensures { result ≡ record self { write_concern = Some value } }
    {
        self.write_concern = Some(value);
        self
    }

    /// The record as it was given.
    pub fn build(self) -> InsertManyOptions
        ensures { result ≡ self }
    {
        self
    }

    /// Puts the options of the command at the end of its body, those that are given, in the order of the command. An
    /// argument outside its range is an error; after an error the body is as it was.
    pub fn append_fields(&self, alloc: Global, body: &mut Document) -> Result<(), Error>
        ensures ok { OnOk result (body.new ≡ joined body.old (fields_in (insert_many_lines self.now))) }
        ensures fits { OnOk result (first_unfit (insert_many_lines self.now) ≡ None) }
        ensures same { OnErr result (body.new ≡ body.old) }
        ensures err { IfErr result (λ e. FailsBy (first_unfit (insert_many_lines self.now)) e) }
    {
        append_given(
            alloc,
            body,
            &[
                (
                    "bypassDocumentValidation",
                    Value::Flag(self.bypass_document_validation),
                ),
                ("ordered", Value::Flag(self.ordered)),
                ("comment", Value::Any(&self.comment)),
            ],
        )
    }
}

/// How documents are deleted.
#[derive(Default)]
pub struct DeleteOptions {
    /// How texts are compared.
    pub collation: Option<Collation>,
    /// The index to be used.
    pub hint: Option<Hint>,
    /// Variables that expressions may name.
    pub let_vars: Option<Document>,
    /// A value that the server writes beside the command into its logs.
    pub comment: Option<Bson>,
    /// How far the write is to have come.
    pub write_concern: Option<WriteConcern>,
}

// By hand, so that letting one go is one call.
impl Drop for DeleteOptions {
    fn drop(self) {
        let DeleteOptions {
            collation: _,
            hint: _,
            let_vars: _,
            comment: _,
            write_concern: _,
        } = self;
    }
}

impl DeleteOptions {
    /// Nothing is given.
    pub fn builder() -> DeleteOptions
        ensures { result ≡ record {
          collation = None;
          hint = None;
          let_vars = None;
          comment = None;
          write_concern = None;
        } }
    {
        DeleteOptions::default()
    }

    /// Gives `collation`.
    pub fn collation(mut self, value: Collation) -> DeleteOptions
        ensures { result ≡ record self { collation = Some value } }
    {
        self.collation = Some(value);
        self
    }

    /// Gives `hint`.
    pub fn hint(mut self, value: Hint) -> DeleteOptions
        ensures { result ≡ record self { hint = Some value } }
    {
        self.hint = Some(value);
        self
    }

    /// Gives `let_vars`.
    pub fn let_vars(mut self, value: Document) -> DeleteOptions
        ensures { result ≡ record self { let_vars = Some value } }
    {
        self.let_vars = Some(value);
        self
    }

    /// Gives `comment`.
    pub fn comment(mut self, value: Bson) -> DeleteOptions
        ensures { result ≡ record self { comment = Some value } }
    {
        self.comment = Some(value);
        self
    }

    /// Gives `write_concern`.
    pub fn write_concern(mut self, value: WriteConcern) -> DeleteOptions
        ensures { result ≡ record self { write_concern = Some value } }
    {
        self.write_concern = Some(value);
        self
    }

    /// The record as it was given.
    pub fn build(self) -> DeleteOptions
        ensures { result ≡ self }
    {
        self
    }

    /// Puts the options of the command at the end of its body, those that are given, in the order of the command. An
    /// argument outside its range is an error; after an error the body is as it was.
    pub fn append_fields(&self, alloc: Global, body: &mut Document) -> Result<(), Error>
        ensures ok { OnOk result (body.new ≡ joined body.old (fields_in (delete_lines self.now))) }
        ensures fits { OnOk result (first_unfit (delete_lines self.now) ≡ None) }
        ensures same { OnErr result (body.new ≡ body.old) }
        ensures err { IfErr result (λ e. FailsBy (first_unfit (delete_lines self.now)) e) }
    {
        append_given(
            alloc,
            body,
            &[
                ("collation", Value::Collation(&self.collation)),
                ("hint", Value::Hint(&self.hint)),
                ("let", Value::Document(&self.let_vars)),
                ("comment", Value::Any(&self.comment)),
            ],
        )
    }
}

impl Clone for DeleteOptions {
    ghost use Rattle.mg_options.specs.Copies.{SameDeleteOptions};

    ghost is_clone = { SameDeleteOptions };

    fn clone(&self) -> Result<DeleteOptions, AllocError> {
        let mut copy = DeleteOptions {
            collation: None,
            hint: None,
            let_vars: None,
            comment: None,
            write_concern: None,
        };
        copy_given(&self.collation, &mut copy.collation)?;
        copy_given(&self.hint, &mut copy.hint)?;
        copy_given(&self.let_vars, &mut copy.let_vars)?;
        copy_given(&self.comment, &mut copy.comment)?;
        copy_given(&self.write_concern, &mut copy.write_concern)?;
        Ok(copy)
    }
}

impl InsertOneOptions {
    // As the options of an insert of many.
    fn into_many(self) -> InsertManyOptions
        ensures { result ≡ insert_of_one self }
    {
        let InsertOneOptions {
            bypass_document_validation,
            write_concern,
            comment,
        } = self;
        InsertManyOptions {
            bypass_document_validation,
            ordered: None,
            comment,
            write_concern,
        }
    }
}

impl Clone for InsertOneOptions {
    ghost use Rattle.mg_options.specs.Copies.{SameInsertOneOptions};

    ghost is_clone = { SameInsertOneOptions };

    fn clone(&self) -> Result<InsertOneOptions, AllocError> {
        let mut copy = InsertOneOptions {
            bypass_document_validation: self.bypass_document_validation,
            write_concern: None,
            comment: None,
        };
        copy_given(&self.write_concern, &mut copy.write_concern)?;
        copy_given(&self.comment, &mut copy.comment)?;
        Ok(copy)
    }
}

impl InsertManyOptions {
    /// The options of an insert of one document, for an insert of many.
    pub fn from_insert_one_options(options: InsertOneOptions) -> InsertManyOptions
        ensures { result ≡ insert_of_one options }
    {
        options.into_many()
    }
}

impl Clone for InsertManyOptions {
    ghost use Rattle.mg_options.specs.Copies.{SameInsertManyOptions};

    ghost is_clone = { SameInsertManyOptions };

    fn clone(&self) -> Result<InsertManyOptions, AllocError> {
        let mut copy = InsertManyOptions {
            bypass_document_validation: self.bypass_document_validation,
            ordered: self.ordered,
            comment: None,
            write_concern: None,
        };
        copy_given(&self.comment, &mut copy.comment)?;
        copy_given(&self.write_concern, &mut copy.write_concern)?;
        Ok(copy)
    }
}
