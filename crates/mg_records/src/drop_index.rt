//! The options of dropping indexes.
ghost use Rattle.std.specs.Prelude.{◌≡◌, Some, None, OnOk, OnErr, IfErr};
ghost use Rattle.mg_bson.specs.Find.{joined};
ghost use Rattle.mg_options.specs.Fields.{FailsBy, fields_in, first_unfit};
ghost use Rattle.mg_records.specs.Records.{drop_index_lines};

use mg_bson::{Bson, Document};
use mg_link::{Error, WriteConcern};
use mg_options::{Value, append_given, copy_given};
use std::alloc::{AllocError, Global};

/// How an index is dropped.
#[derive(Default)]
pub struct DropIndexOptions {
    /// The most milliseconds that the server may work on it.
    pub max_time: Option<u64>,
    /// A value that the server writes beside the command into its logs.
    pub comment: Option<Bson>,
    /// How far the write is to have come.
    pub write_concern: Option<WriteConcern>,
}

// By hand, so that letting one go is one call.
impl Drop for DropIndexOptions {
    fn drop(self) {
        let DropIndexOptions {
            max_time: _,
            comment: _,
            write_concern: _,
        } = self;
    }
}

impl DropIndexOptions {
    /// Nothing is given.
    pub fn builder() -> DropIndexOptions
        ensures { result ≡ record {
          max_time = None;
          comment = None;
          write_concern = None;
        } }
    {
        DropIndexOptions::default()
    }

    /// Gives `max_time`.
    pub fn max_time(mut self, value: u64) -> DropIndexOptions
        ensures { result ≡ record self { max_time = Some value } }
    {
        self.max_time = Some(value);
        self
    }

    /// Gives `comment`.
    pub fn comment(mut self, value: Bson) -> DropIndexOptions
        ensures { result ≡ record self { comment = Some value } }
    {
        self.comment = Some(value);
        self
    }

    /// Gives `write_concern`.
    pub fn write_concern(mut self, value: WriteConcern) -> DropIndexOptions
        ensures { result ≡ record self { write_concern = Some value } }
    {
        self.write_concern = Some(value);
        self
    }

    /// The record as it was given.
    pub fn build(self) -> DropIndexOptions
        ensures { result ≡ self }
    {
        self
    }

    /// Puts the options of the command at the end of its body, those that are given, in the order of the command. An
    /// argument outside its range is an error; after an error the body is as it was.
    pub fn append_fields(&self, alloc: Global, body: &mut Document) -> Result<(), Error>
        ensures ok { OnOk result (body.new ≡ joined body.old (fields_in (drop_index_lines self.now))) }
        ensures fits { OnOk result (first_unfit (drop_index_lines self.now) ≡ None) }
        ensures same { OnErr result (body.new ≡ body.old) }
        ensures err { IfErr result (λ e. FailsBy (first_unfit (drop_index_lines self.now)) e) }
    {
        append_given(
            alloc,
            body,
            &[
                ("maxTimeMS", Value::Millis(self.max_time)),
                ("comment", Value::Any(&self.comment)),
            ],
        )
    }
}

impl Clone for DropIndexOptions {
    ghost use Rattle.mg_records.specs.Copies.{SameDropIndexOptions};

    ghost is_clone = { SameDropIndexOptions };

    fn clone(&self) -> Result<DropIndexOptions, AllocError> {
        let mut copy = DropIndexOptions {
            max_time: self.max_time,
            comment: None,
            write_concern: None,
        };
        copy_given(&self.comment, &mut copy.comment)?;
        copy_given(&self.write_concern, &mut copy.write_concern)?;
        Ok(copy)
    }
}
