//! The options of commands that are given as documents.
ghost use Rattle.std.specs.Prelude.{◌≡◌, Some, None};

use crate::copy::copy_given;
use crate::write_words::CursorType;
use mg_bson::Bson;
use mg_link::SelectionCriteria;
use std::alloc::AllocError;

/// How a command runs.
#[derive(Default)]
pub struct RunCommandOptions {
    /// Which servers may be asked.
    pub selection_criteria: Option<SelectionCriteria>,
}

// By hand, so that letting one go is one call.
impl Drop for RunCommandOptions {
    fn drop(self) {
        let RunCommandOptions {
            selection_criteria: _,
        } = self;
    }
}

impl RunCommandOptions {
    /// Nothing is given.
    pub fn builder() -> RunCommandOptions
        ensures { result ≡ record {
          selection_criteria = None;
        } }
    {
        RunCommandOptions::default()
    }

    /// Gives `selection_criteria`.
    pub fn selection_criteria(mut self, value: SelectionCriteria) -> RunCommandOptions
        ensures { result ≡ record self { selection_criteria = Some value } }
    {
        self.selection_criteria = Some(value);
        self
    }

    /// The record as it was given.
    pub fn build(self) -> RunCommandOptions
        ensures { result ≡ self }
    {
        self
    }
}

impl Clone for RunCommandOptions {
    ghost use Rattle.mg_options.specs.Copies.{SameRunCommandOptions};

    ghost is_clone = { SameRunCommandOptions };

    fn clone(&self) -> Result<RunCommandOptions, AllocError> {
        Ok(RunCommandOptions {
            selection_criteria: self.selection_criteria,
        })
    }
}

/// How a command runs that gives a cursor.
#[derive(Default)]
pub struct RunCursorCommandOptions {
    /// Which servers may be asked.
    pub selection_criteria: Option<SelectionCriteria>,
    /// Whether the cursor stays open at its end.
    pub cursor_type: Option<CursorType>,
    /// The most documents of a batch.
    pub batch_size: Option<u32>,
    /// The most milliseconds that the server may work on it.
    pub max_time: Option<u64>,
    /// A value that the server writes beside the command, and beside each getMore, into its logs.
    pub comment: Option<Bson>,
}

// By hand, so that letting one go is one call.
impl Drop for RunCursorCommandOptions {
    fn drop(self) {
        let RunCursorCommandOptions {
            selection_criteria: _,
            cursor_type: _,
            batch_size: _,
            max_time: _,
            comment: _,
        } = self;
    }
}

impl RunCursorCommandOptions {
    /// Nothing is given.
    pub fn builder() -> RunCursorCommandOptions
        ensures { result ≡ record {
          selection_criteria = None;
          cursor_type = None;
          batch_size = None;
          max_time = None;
          comment = None;
        } }
    {
        RunCursorCommandOptions::default()
    }

    /// Gives `selection_criteria`.
    pub fn selection_criteria(mut self, value: SelectionCriteria) -> RunCursorCommandOptions
        ensures { result ≡ record self { selection_criteria = Some value } }
    {
        self.selection_criteria = Some(value);
        self
    }

    /// Gives `cursor_type`.
    pub fn cursor_type(mut self, value: CursorType) -> RunCursorCommandOptions
        ensures { result ≡ record self { cursor_type = Some value } }
    {
        self.cursor_type = Some(value);
        self
    }

    /// Gives `batch_size`.
    pub fn batch_size(mut self, value: u32) -> RunCursorCommandOptions
        ensures { result ≡ record self { batch_size = Some value } }
    {
        self.batch_size = Some(value);
        self
    }

    /// Gives `max_time`.
    pub fn max_time(mut self, value: u64) -> RunCursorCommandOptions
        ensures { result ≡ record self { max_time = Some value } }
    {
        self.max_time = Some(value);
        self
    }

    /// Gives `comment`.
    pub fn comment(mut self, value: Bson) -> RunCursorCommandOptions
        ensures { result ≡ record self { comment = Some value } }
    {
        self.comment = Some(value);
        self
    }

    /// The record as it was given.
    pub fn build(self) -> RunCursorCommandOptions
        ensures { result ≡ self }
    {
        self
    }
}

impl Clone for RunCursorCommandOptions {
    ghost use Rattle.mg_options.specs.Copies.{SameRunCursorCommandOptions};

    ghost is_clone = { SameRunCursorCommandOptions };

    fn clone(&self) -> Result<RunCursorCommandOptions, AllocError> {
        let mut copy = RunCursorCommandOptions {
            selection_criteria: self.selection_criteria,
            cursor_type: self.cursor_type,
            batch_size: self.batch_size,
            max_time: self.max_time,
            comment: None,
        };
        copy_given(&self.comment, &mut copy.comment)?;
        Ok(copy)
    }
}
