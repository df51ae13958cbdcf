//! Commands that are given as documents.
ghost use Rattle.std.specs.Prelude.{◌≡◌, None, OnOk, IfOk, IfErr, option_copied, string_bytes};
ghost use Rattle.mg_bson.specs.Find.{joined};
ghost use Rattle.mg_options.specs.Fields.{FailsBy, fields_in, first_unfit};
ghost use Rattle.mg_ops.specs.Bodies.{run_lines};
ghost use Rattle.mg_ops.specs.Failing.{HasBadSize};
ghost use Rattle.mg_ops.specs.Limits.{SizeFits};

use crate::body::{Listed, append_all};
use crate::cursor_reply::{CursorSpecification, read_cursor};
use crate::entry::Entry;
use crate::operation::Operation;
use crate::parts::size;
use mg_bson::{Document, RawDocumentBuf, to_document};
use mg_exec::Retry;
use mg_link::{ClientSession, Error, SelectionCriteria};
use mg_options::{RunCommandOptions, RunCursorCommandOptions, Value};
use std::alloc::Global;

/// Runs a command on a database.
pub struct RunCommand {
    /// The name of the database.
    pub db: String,
    /// The command, which is sent as it stands.
    pub command: Document,
    /// How it runs.
    pub options: RunCommandOptions,
}

// By hand, so that letting one go is one call.
impl Drop for RunCommand {
    fn drop(self) {
        let RunCommand {
            db: _,
            command: _,
            options: _,
        } = self;
    }
}

/// Runs a command on a database that replies with a cursor.
pub struct RunCursorCommand {
    /// The name of the database.
    pub db: String,
    /// The command, which is sent as it stands.
    pub command: Document,
    /// How it runs, and how the next batches of its cursor are asked for.
    pub options: RunCursorCommandOptions,
}

// By hand, so that letting one go is one call.
impl Drop for RunCursorCommand {
    fn drop(self) {
        let RunCursorCommand {
            db: _,
            command: _,
            options: _,
        } = self;
    }
}

// The command with its database and its session behind it.
fn command(
    alloc: Global,
    given: &Document,
    db: &String,
    asks: Option<SelectionCriteria>,
    session: Option<&ClientSession>,
) -> Result<Document, Error>
    ensures ok { IfOk result (λ d. d ≡ joined given.now (fields_in (run_lines (string_bytes db.now) asks (option_copied session.entry)))) }
    ensures fits { OnOk result (first_unfit (run_lines (string_bytes db.now) asks None) ≡ None) }
    ensures err { IfErr result (λ e. FailsBy (first_unfit (run_lines (string_bytes db.now) asks None)) e) }
{
    let mut command = given.clone()?;
    append_all(
        alloc,
        &mut command,
        &Listed { list: &[] },
        Entry::Text(db),
        session,
        &[("$readPreference", Entry::Option(Value::Selection(asks)))],
    )?;
    Ok(command)
}

impl Operation for RunCommand {
    type Output = Document;

    ghost use Rattle.std.specs.Prelude.{◌≡◌, None, string_bytes};
    ghost use Rattle.mg_bson.specs.Find.{joined};
    ghost use Rattle.mg_bson.specs.Raw.{fields};
    ghost use Rattle.mg_exec.specs.declared.exec.Retry.TheVariants as retries;
    ghost use Rattle.mg_options.specs.Fields.{Refuses, fields_in, first_unfit};
    ghost use Rattle.mg_ops.specs.Bodies.{run_lines};

    ghost command = { λ o wire session. joined o.command (fields_in (run_lines (string_bytes o.db) o.options.selection_criteria session)) };

    ghost sound = { λ o. first_unfit (run_lines (string_bytes o.db) o.options.selection_criteria None) ≡ None };

    ghost unfit = { λ o. Refuses (first_unfit (run_lines (string_bytes o.db) o.options.selection_criteria None)) };

    ghost retried = { λ o session. retries.None };

    ghost gives = { λ o reply out. out ≡ fields reply };

    ghost fails = { λ o reply e. ⊥ };

    fn build(
        &self,
        alloc: Global,
        _wire: i32,
        session: Option<&ClientSession>,
    ) -> Result<Document, Error> {
        command(
            alloc,
            &self.command,
            &self.db,
            self.options.selection_criteria,
            session,
        )
    }

    fn retry(&self, _session: Option<&ClientSession>) -> Retry {
        Retry::None
    }

    fn read(&self, alloc: Global, reply: RawDocumentBuf) -> Result<Document, Error> {
        Ok(to_document(alloc, reply.as_raw())?)
    }
}

// Refuses a size of batches that a server does not take.
fn check_size(batch_size: Option<u32>) -> Result<(), Error>
    ensures ok { OnOk result (SizeFits batch_size) }
    ensures err { IfErr result (λ e. HasBadSize batch_size e) }
{
    match batch_size {
        Some(n) => {
            let _size = size(n)?;
            Ok(())
        }
        None => Ok(()),
    }
}

impl Operation for RunCursorCommand {
    type Output = CursorSpecification;

    ghost use Rattle.std.specs.Prelude.{◌≡◌, ◌⊎◌, None, string_bytes};
    ghost use Rattle.mg_bson.specs.Find.{joined};
    ghost use Rattle.mg_exec.specs.declared.exec.Retry.TheVariants as retries;
    ghost use Rattle.mg_options.specs.Fields.{Refuses, fields_in, first_unfit};
    ghost use Rattle.mg_ops.specs.Bodies.{run_lines};
    ghost use Rattle.mg_ops.specs.Cursors.{BreaksIn, OpensWith};
    ghost use Rattle.mg_ops.specs.Failing.{HasBadSize};
    ghost use Rattle.mg_ops.specs.Limits.{SizeFits};

    ghost command = { λ o wire session. joined o.command (fields_in (run_lines (string_bytes o.db) o.options.selection_criteria session)) };

    ghost sound = { λ o. SizeFits o.options.batch_size × (first_unfit (run_lines (string_bytes o.db) o.options.selection_criteria None) ≡ None) };

    ghost unfit = { λ o e. HasBadSize o.options.batch_size e ⊎ Refuses (first_unfit (run_lines (string_bytes o.db) o.options.selection_criteria None)) e };

    ghost retried = { λ o session. retries.None };

    ghost gives = { λ o. OpensWith o.options.batch_size o.options.max_time o.options.comment };

    ghost fails = { λ o. BreaksIn };

    fn build(
        &self,
        alloc: Global,
        _wire: i32,
        session: Option<&ClientSession>,
    ) -> Result<Document, Error> {
        check_size(self.options.batch_size)?;
        command(
            alloc,
            &self.command,
            &self.db,
            self.options.selection_criteria,
            session,
        )
    }

    fn retry(&self, _session: Option<&ClientSession>) -> Retry {
        Retry::None
    }

    fn read(&self, alloc: Global, reply: RawDocumentBuf) -> Result<CursorSpecification, Error> {
        let o = &self.options;
        read_cursor(alloc, o.batch_size, o.max_time, &o.comment, reply)
    }
}
