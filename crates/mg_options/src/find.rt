//! The options of finds.
ghost use Rattle.std.specs.Prelude.{◌≡◌, Some, None, OnOk, OnErr, IfErr};
ghost use Rattle.mg_bson.specs.Find.{joined};
ghost use Rattle.mg_options.specs.Conversions.{find_of_one};
ghost use Rattle.mg_options.specs.Fields.{FailsBy, fields_in, first_unfit};
ghost use Rattle.mg_options.specs.Records.{find_lines};

use crate::collation::Collation;
use crate::copy::copy_given;
use crate::field::append_given;
use crate::printing::Value;
use crate::write_words::{CursorType, Hint};
use mg_bson::{Bson, Document};
use mg_link::{Error, ReadConcern, SelectionCriteria};
use std::alloc::{AllocError, Global};

/// How a find runs.
#[derive(Default)]
pub struct FindOptions {
    /// Whether the server may write what does not fit its memory to its disk.
    pub allow_disk_use: Option<bool>,
    /// Whether what some shards have is answered where others cannot be asked.
    pub allow_partial_results: Option<bool>,
    /// The most documents of a batch.
    pub batch_size: Option<u32>,
    /// A value that the server writes beside the command, and beside each getMore, into its logs.
    pub comment: Option<Bson>,
    /// The index to be used.
    pub hint: Option<Hint>,
    /// The most documents. Below 0 they come in a single batch.
    pub limit: Option<i64>,
    /// The bound above the keys of the index, which is not reached.
    pub max: Option<Document>,
    /// The most documents or keys that are looked at.
    pub max_scan: Option<u64>,
    /// The most milliseconds that the server may work on it.
    pub max_time: Option<u64>,
    /// The lowest keys of the index.
    pub min: Option<Document>,
    /// Whether the server keeps the cursor open while it is not asked.
    pub no_cursor_timeout: Option<bool>,
    /// Which fields of the documents are answered.
    pub projection: Option<Document>,
    /// Whether the keys of the index are answered in place of the documents.
    pub return_key: Option<bool>,
    /// Whether each document is answered with its record id.
    pub show_record_id: Option<bool>,
    /// How many documents are passed over first.
    pub skip: Option<u64>,
    /// The order of the documents.
    pub sort: Option<Document>,
    /// How texts are compared.
    pub collation: Option<Collation>,
    /// Variables that expressions may name.
    pub let_vars: Option<Document>,
    /// Whether the cursor stays open at its end.
    pub cursor_type: Option<CursorType>,
    /// The most milliseconds that the server waits for new documents.
    pub max_await_time: Option<u64>,
    /// What data is read.
    pub read_concern: Option<ReadConcern>,
    /// Which servers may be asked.
    pub selection_criteria: Option<SelectionCriteria>,
}

// By hand, so that letting one go is one call.
impl Drop for FindOptions {
    fn drop(self) {
        let FindOptions {
            allow_disk_use: _,
            allow_partial_results: _,
            batch_size: _,
            comment: _,
            hint: _,
            limit: _,
            max: _,
            max_scan: _,
            max_time: _,
            min: _,
            no_cursor_timeout: _,
            projection: _,
            return_key: _,
            show_record_id: _,
            skip: _,
            sort: _,
            collation: _,
            let_vars: _,
            cursor_type: _,
            max_await_time: _,
            read_concern: _,
            selection_criteria: _,
        } = self;
    }
}

impl FindOptions {
    /// Nothing is given.
    pub fn builder() -> FindOptions
        ensures { result ≡ record {
          allow_disk_use = None;
          allow_partial_results = None;
          batch_size = None;
          comment = None;
          hint = None;
          limit = None;
          max = None;
          max_scan = None;
          max_time = None;
          min = None;
          no_cursor_timeout = None;
          projection = None;
          return_key = None;
          show_record_id = None;
          skip = None;
          sort = None;
          collation = None;
          let_vars = None;
          cursor_type = None;
          max_await_time = None;
          read_concern = None;
          selection_criteria = None;
        } }
    {
        FindOptions::default()
    }

    /// Gives `allow_disk_use`.
    pub fn allow_disk_use(mut self, value: bool) -> FindOptions
        ensures { result ≡ record self { allow_disk_use = Some value } }
    {
        self.allow_disk_use = Some(value);
        self
    }

    /// Gives `allow_partial_results`.
    pub fn allow_partial_results(mut self, value: bool) -> FindOptions
        ensures { result ≡ record self { allow_partial_results = Some value } }
    {
        self.allow_partial_results = Some(value);
        self
    }

    /// Gives `batch_size`.
    pub fn batch_size(mut self, value: u32) -> FindOptions
        ensures { result ≡ record self { batch_size = Some value } }
    {
        self.batch_size = Some(value);
        self
    }

    /// Gives `comment`.
    pub fn comment(mut self, value: Bson) -> FindOptions
        ensures { result ≡ record self { comment = Some value } }
    {
        self.comment = Some(value);
        self
    }

    /// Gives `hint`.
    pub fn hint(mut self, value: Hint) -> FindOptions
        ensures { result ≡ record self { hint = Some value } }
    {
        self.hint = Some(value);
        self
    }

    /// Gives `limit`.
    pub fn limit(mut self, value: i64) -> FindOptions
        ensures { result ≡ record self { limit = Some value } }
    {
        self.limit = Some(value);
        self
    }

    /// Gives `max`.
    pub fn max(mut self, value: Document) -> FindOptions
        ensures { result ≡ record self { max = Some value } }
    {
        self.max = Some(value);
        self
    }

    /// Gives `max_scan`.
    pub fn max_scan(mut self, value: u64) -> FindOptions
        ensures { result ≡ record self { max_scan = Some value } }
    {
        self.max_scan = Some(value);
        self
    }

    /// Gives `max_time`.
    pub fn max_time(mut self, value: u64) -> FindOptions
        ensures { result ≡ record self { max_time = Some value } }
    {
        self.max_time = Some(value);
        self
    }

    /// Gives `min`.
    pub fn min(mut self, value: Document) -> FindOptions
        ensures { result ≡ record self { min = Some value } }
    {
        self.min = Some(value);
        self
    }

    /// Gives `no_cursor_timeout`.
    pub fn no_cursor_timeout(mut self, value: bool) -> FindOptions
        ensures { result ≡ record self { no_cursor_timeout = Some value } }
    {
        self.no_cursor_timeout = Some(value);
        self
    }

    /// Gives `projection`.
    pub fn projection(mut self, value: Document) -> FindOptions
        ensures { result ≡ record self { projection = Some value } }
    {
        self.projection = Some(value);
        self
    }

    /// Gives `return_key`.
    pub fn return_key(mut self, value: bool) -> FindOptions
        ensures { result ≡ record self { return_key = Some value } }
    {
        self.return_key = Some(value);
        self
    }

    /// Gives `show_record_id`.
    pub fn show_record_id(mut self, value: bool) -> FindOptions
        ensures { result ≡ record self { show_record_id = Some value } }
    {
        self.show_record_id = Some(value);
        self
    }

    /// Gives `skip`.
    pub fn skip(mut self, value: u64) -> FindOptions
        ensures { result ≡ record self { skip = Some value } }
    {
        self.skip = Some(value);
        self
    }

    /// Gives `sort`.
    pub fn sort(mut self, value: Document) -> FindOptions
        ensures { result ≡ record self { sort = Some value } }
    {
        self.sort = Some(value);
        self
    }

    /// Gives `collation`.
    pub fn collation(mut self, value: Collation) -> FindOptions
        ensures { result ≡ record self { collation = Some value } }
    {
        self.collation = Some(value);
        self
    }

    /// Gives `let_vars`.
    pub fn let_vars(mut self, value: Document) -> FindOptions
        ensures { result ≡ record self { let_vars = Some value } }
    {
        self.let_vars = Some(value);
        self
    }

    /// Gives `cursor_type`.
    pub fn cursor_type(mut self, value: CursorType) -> FindOptions
        ensures { result ≡ record self { cursor_type = Some value } }
    {
        self.cursor_type = Some(value);
        self
    }

    /// Gives `max_await_time`.
    pub fn max_await_time(mut self, value: u64) -> FindOptions
        ensures { result ≡ record self { max_await_time = Some value } }
    {
        self.max_await_time = Some(value);
        self
    }

    /// Gives `read_concern`.
    pub fn read_concern(mut self, value: ReadConcern) -> FindOptions
        ensures { result ≡ record self { read_concern = Some value } }
    {
        self.read_concern = Some(value);
        self
    }

    /// Gives `selection_criteria`.
    pub fn selection_criteria(mut self, value: SelectionCriteria) -> FindOptions
        ensures { result ≡ record self { selection_criteria = Some value } }
    {
        self.selection_criteria = Some(value);
        self
    }

    /// The record as it was given.
    pub fn build(self) -> FindOptions
        ensures { result ≡ self }
    {
        self
    }

    /// Puts the options of the command at the end of its body, those that are given, in the order of the command. An
    /// argument outside its range is an error; after an error the body is as it was.
    pub fn append_fields(&self, alloc: Global, body: &mut Document) -> Result<(), Error>
        ensures ok { OnOk result (body.new ≡ joined body.old (fields_in (find_lines self.now))) }
        ensures fits { OnOk result (first_unfit (find_lines self.now) ≡ None) }
        ensures same { OnErr result (body.new ≡ body.old) }
        ensures err { IfErr result (λ e. FailsBy (first_unfit (find_lines self.now)) e) }
    {
        self.append_sized(alloc, body, self.batch_size)
    }

    /// As `append_fields`, with this size of a batch in place of the one that was given.
    pub fn append_sized(
        &self,
        alloc: Global,
        body: &mut Document,
        batch_size: Option<u32>,
    ) -> Result<(), Error>
        ensures ok { OnOk result (body.new ≡ joined body.old (fields_in (find_lines (record self.now { batch_size = batch_size })))) }
        ensures fits { OnOk result (first_unfit (find_lines (record self.now { batch_size = batch_size })) ≡ None) }
        ensures same { OnErr result (body.new ≡ body.old) }
        ensures err { IfErr result (λ e. FailsBy (first_unfit (find_lines (record self.now { batch_size = batch_size }))) e) }
    {
        append_given(
            alloc,
            body,
            &[
                ("allowDiskUse", Value::Flag(self.allow_disk_use)),
                (
                    "allowPartialResults",
                    Value::Flag(self.allow_partial_results),
                ),
                ("batchSize", Value::Size(batch_size)),
                ("comment", Value::Any(&self.comment)),
                ("hint", Value::Hint(&self.hint)),
                ("limit", Value::Limit(self.limit)),
                ("max", Value::Document(&self.max)),
                ("maxScan", Value::Count(self.max_scan)),
                ("maxTimeMS", Value::Millis(self.max_time)),
                ("min", Value::Document(&self.min)),
                ("noCursorTimeout", Value::Flag(self.no_cursor_timeout)),
                ("projection", Value::Document(&self.projection)),
                ("returnKey", Value::Flag(self.return_key)),
                ("showRecordId", Value::Flag(self.show_record_id)),
                ("skip", Value::Count(self.skip)),
                ("sort", Value::Document(&self.sort)),
                ("collation", Value::Collation(&self.collation)),
                ("let", Value::Document(&self.let_vars)),
            ],
        )
    }
}

impl Clone for FindOptions {
    ghost use Rattle.mg_options.specs.Copies.{SameFindOptions};

    ghost is_clone = { SameFindOptions };

    fn clone(&self) -> Result<FindOptions, AllocError> {
        let mut copy = FindOptions {
            allow_disk_use: self.allow_disk_use,
            allow_partial_results: self.allow_partial_results,
            batch_size: self.batch_size,
            comment: None,
            hint: None,
            limit: self.limit,
            max: None,
            max_scan: self.max_scan,
            max_time: self.max_time,
            min: None,
            no_cursor_timeout: self.no_cursor_timeout,
            projection: None,
            return_key: self.return_key,
            show_record_id: self.show_record_id,
            skip: self.skip,
            sort: None,
            collation: None,
            let_vars: None,
            cursor_type: self.cursor_type,
            max_await_time: self.max_await_time,
            read_concern: None,
            selection_criteria: self.selection_criteria,
        };
        copy_given(&self.comment, &mut copy.comment)?;
        copy_given(&self.hint, &mut copy.hint)?;
        copy_given(&self.max, &mut copy.max)?;
        copy_given(&self.min, &mut copy.min)?;
        copy_given(&self.projection, &mut copy.projection)?;
        copy_given(&self.sort, &mut copy.sort)?;
        copy_given(&self.collation, &mut copy.collation)?;
        copy_given(&self.let_vars, &mut copy.let_vars)?;
        copy_given(&self.read_concern, &mut copy.read_concern)?;
        Ok(copy)
    }
}

/// How a find of one document runs.
#[derive(Default)]
pub struct FindOneOptions {
    /// Whether what some shards have is answered where others cannot be asked.
    pub allow_partial_results: Option<bool>,
    /// How texts are compared.
    pub collation: Option<Collation>,
    /// A value that the server writes beside the command into its logs.
    pub comment: Option<Bson>,
    /// The index to be used.
    pub hint: Option<Hint>,
    /// The bound above the keys of the index, which is not reached.
    pub max: Option<Document>,
    /// The most documents or keys that are looked at.
    pub max_scan: Option<u64>,
    /// The most milliseconds that the server may work on it.
    pub max_time: Option<u64>,
    /// The lowest keys of the index.
    pub min: Option<Document>,
    /// Which fields of the documents are answered.
    pub projection: Option<Document>,
    /// What data is read.
    pub read_concern: Option<ReadConcern>,
    /// Whether the keys of the index are answered in place of the documents.
    pub return_key: Option<bool>,
    /// Which servers may be asked.
    pub selection_criteria: Option<SelectionCriteria>,
    /// Whether each document is answered with its record id.
    pub show_record_id: Option<bool>,
    /// How many documents are passed over first.
    pub skip: Option<u64>,
    /// The order of the documents.
    pub sort: Option<Document>,
    /// Variables that expressions may name.
    pub let_vars: Option<Document>,
}

// By hand, so that letting one go is one call.
impl Drop for FindOneOptions {
    fn drop(self) {
        let FindOneOptions {
            allow_partial_results: _,
            collation: _,
            comment: _,
            hint: _,
            max: _,
            max_scan: _,
            max_time: _,
            min: _,
            projection: _,
            read_concern: _,
            return_key: _,
            selection_criteria: _,
            show_record_id: _,
            skip: _,
            sort: _,
            let_vars: _,
        } = self;
    }
}

impl FindOneOptions {
    /// Nothing is given.
    pub fn builder() -> FindOneOptions
        ensures { result ≡ record {
          allow_partial_results = None;
          collation = None;
          comment = None;
          hint = None;
          max = None;
          max_scan = None;
          max_time = None;
          min = None;
          projection = None;
          read_concern = None;
          return_key = None;
          selection_criteria = None;
          show_record_id = None;
          skip = None;
          sort = None;
          let_vars = None;
        } }
    {
        FindOneOptions::default()
    }

    /// Gives `allow_partial_results`.
    pub fn allow_partial_results(mut self, value: bool) -> FindOneOptions
        ensures { result ≡ record self { allow_partial_results = Some value } }
    {
        self.allow_partial_results = Some(value);
        self
    }

    /// Gives `collation`.
    pub fn collation(mut self, value: Collation) -> FindOneOptions
        ensures { result ≡ record self { collation = Some value } }
    {
        self.collation = Some(value);
        self
    }

    /// Gives `comment`.
    pub fn comment(mut self, value: Bson) -> FindOneOptions
        ensures { result ≡ record self { comment = Some value } }
    {
        self.comment = Some(value);
        self
    }

    /// Gives `hint`.
    pub fn hint(mut self, value: Hint) -> FindOneOptions
        ensures { result ≡ record self { hint = Some value } }
    {
        self.hint = Some(value);
        self
    }

    /// Gives `max`.
    pub fn max(mut self, value: Document) -> FindOneOptions
        ensures { result ≡ record self { max = Some value } }
    {
        self.max = Some(value);
        self
    }

    /// Gives `max_scan`.
    pub fn max_scan(mut self, value: u64) -> FindOneOptions
        ensures { result ≡ record self { max_scan = Some value } }
    {
        self.max_scan = Some(value);
        self
    }

    /// Gives `max_time`.
    pub fn max_time(mut self, value: u64) -> FindOneOptions
        ensures { result ≡ record self { max_time = Some value } }
    {
        self.max_time = Some(value);
        self
    }

    /// Gives `min`.
    pub fn min(mut self, value: Document) -> FindOneOptions
        ensures { result ≡ record self { min = Some value } }
    {
        self.min = Some(value);
        self
    }

    /// Gives `projection`.
    pub fn projection(mut self, value: Document) -> FindOneOptions
        ensures { result ≡ record self { projection = Some value } }
    {
        self.projection = Some(value);
        self
    }

    /// Gives `read_concern`.
    pub fn read_concern(mut self, value: ReadConcern) -> FindOneOptions
        ensures { result ≡ record self { read_concern = Some value } }
    {
        self.read_concern = Some(value);
        self
    }

    /// Gives `return_key`.
    pub fn return_key(mut self, value: bool) -> FindOneOptions
        ensures { result ≡ record self { return_key = Some value } }
    {
        self.return_key = Some(value);
        self
    }

    /// Gives `selection_criteria`.
    pub fn selection_criteria(mut self, value: SelectionCriteria) -> FindOneOptions
        ensures { result ≡ record self { selection_criteria = Some value } }
    {
        self.selection_criteria = Some(value);
        self
    }

    /// Gives `show_record_id`.
    pub fn show_record_id(mut self, value: bool) -> FindOneOptions
        ensures { result ≡ record self { show_record_id = Some value } }
    {
        self.show_record_id = Some(value);
        self
    }

    /// Gives `skip`.
    pub fn skip(mut self, value: u64) -> FindOneOptions
        ensures { result ≡ record self { skip = Some value } }
    {
        self.skip = Some(value);
        self
    }

    /// Gives `sort`.
    pub fn sort(mut self, value: Document) -> FindOneOptions
        ensures { result ≡ record self { sort = Some value } }
    {
        self.sort = Some(value);
        self
    }

    /// Gives `let_vars`.
    pub fn let_vars(mut self, value: Document) -> FindOneOptions
        ensures { result ≡ record self { let_vars = Some value } }
    {
        self.let_vars = Some(value);
        self
    }

    /// The record as it was given.
    pub fn build(self) -> FindOneOptions
        ensures { result ≡ self }
    {
        self
    }
}

impl FindOneOptions {
    // As the options of a find that ends behind one document.
    fn into_find(self) -> FindOptions
        ensures { result ≡ find_of_one self }
    {
        let FindOneOptions {
            allow_partial_results,
            collation,
            comment,
            hint,
            max,
            max_scan,
            max_time,
            min,
            projection,
            read_concern,
            return_key,
            selection_criteria,
            show_record_id,
            skip,
            sort,
            let_vars,
        } = self;
        FindOptions {
            allow_disk_use: None,
            allow_partial_results,
            batch_size: None,
            comment,
            hint,
            limit: Some(-1),
            max,
            max_scan,
            max_time,
            min,
            no_cursor_timeout: None,
            projection,
            return_key,
            show_record_id,
            skip,
            sort,
            collation,
            let_vars,
            cursor_type: None,
            max_await_time: None,
            read_concern,
            selection_criteria,
        }
    }
}

impl Clone for FindOneOptions {
    ghost use Rattle.mg_options.specs.Copies.{SameFindOneOptions};

    ghost is_clone = { SameFindOneOptions };

    fn clone(&self) -> Result<FindOneOptions, AllocError> {
        let mut copy = FindOneOptions {
            allow_partial_results: self.allow_partial_results,
            collation: None,
            comment: None,
            hint: None,
            max: None,
            max_scan: self.max_scan,
            max_time: self.max_time,
            min: None,
            projection: None,
            read_concern: None,
            return_key: self.return_key,
            selection_criteria: self.selection_criteria,
            show_record_id: self.show_record_id,
            skip: self.skip,
            sort: None,
            let_vars: None,
        };
        copy_given(&self.collation, &mut copy.collation)?;
        copy_given(&self.comment, &mut copy.comment)?;
        copy_given(&self.hint, &mut copy.hint)?;
        copy_given(&self.max, &mut copy.max)?;
        copy_given(&self.min, &mut copy.min)?;
        copy_given(&self.projection, &mut copy.projection)?;
        copy_given(&self.read_concern, &mut copy.read_concern)?;
        copy_given(&self.sort, &mut copy.sort)?;
        copy_given(&self.let_vars, &mut copy.let_vars)?;
        Ok(copy)
    }
}

impl From<FindOneOptions> for FindOptions {
    ghost from_gives = { λ o p. p ≡ find_of_one o };

    fn from(options: FindOneOptions) -> FindOptions {
        options.into_find()
    }
}
