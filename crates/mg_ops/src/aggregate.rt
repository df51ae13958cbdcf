//! The aggregate that opens a change stream, or resumes it.
ghost use Rattle.std.specs.Prelude.{◌≡◌, OnOk, IfOk, IfErr, option_copied, option_map};
ghost use Rattle.mg_bson.specs.Raw.{fields};
ghost use Rattle.mg_link.specs.Namespace.{target};
ghost use Rattle.mg_options.specs.Fields.{fields_in};
ghost use Rattle.mg_ops.specs.Bodies.{watch_body};
ghost use Rattle.mg_ops.specs.Cursors.{operation_time, time_parts};
ghost use Rattle.mg_ops.specs.Failing.{FailsBy, HasBadSize};
ghost use Rattle.mg_ops.specs.Limits.{SizeFits};
ghost use Rattle.mg_ops.specs.Resuming.{options_for};

use crate::body::{Listed, body};
use crate::change_stream::{ChangeStreamData, WatchArgs};
use crate::cursor_reply::{CursorSpecification, read_cursor};
use crate::entry::Entry;
use crate::operation::Operation;
use crate::resuming::resume_options;
use crate::session::read_retry;
use mg_bson::{Document, RawDocument, RawDocumentBuf, Timestamp};
use mg_exec::Retry;
use mg_link::{ClientSession, Error};
use mg_options::{ChangeStreamOptions, Value};
use std::alloc::Global;

/// Opens a change stream, or resumes it.
pub struct ChangeStreamAggregate {
    /// What is watched.
    pub args: WatchArgs,
    /// What the stream resumes by, where it is not its first opening.
    pub resume: Option<ChangeStreamData>,
}

// By hand, so that letting one go is one call.
impl Drop for ChangeStreamAggregate {
    fn drop(self) {
        let ChangeStreamAggregate { args: _, resume: _ } = self;
    }
}

// The command with these options.
fn command<'a>(
    alloc: Global,
    args: &'a WatchArgs,
    options: &'a ChangeStreamOptions,
    session: Option<&ClientSession>,
) -> Result<Document, Error>
    ensures ok { IfOk result (λ d. d ≡ fields_in (watch_body (target args.now.target) args.now.pipeline.items options.now (option_copied session.entry))) }
    ensures fits { OnOk result (SizeFits options.now.batch_size) }
    ensures err { IfErr result (λ e. FailsBy (HasBadSize options.now.batch_size) e) }
{
    let front = Listed {
        list: &[
            ("aggregate", Entry::AggregateOn(&args.target)),
            ("pipeline", Entry::Watch(options, &args.pipeline)),
            ("cursor", Entry::Cursor(options.batch_size, &args.pipeline)),
            (
                "collation",
                Entry::Option(Value::Collation(&options.collation)),
            ),
            ("comment", Entry::Option(Value::Any(&options.comment))),
        ],
    };
    body(
        alloc,
        &front,
        Entry::DatabaseOf(&args.target),
        session,
        &[
            (
                "readConcern",
                Entry::Option(Value::ReadConcern(&options.read_concern)),
            ),
            (
                "$readPreference",
                Entry::Option(Value::Selection(options.selection_criteria)),
            ),
        ],
    )
}

// The time of a reply.
#[tactic(auto, unfolding(crate::specs::Cursors::operation_time))]
fn operation_time(reply: &RawDocument<'_>) -> Option<Timestamp>
    ensures { option_map time_parts result ≡ operation_time (fields reply.now) }
{
    match reply.get("operationTime") {
        Some(found) => found.as_timestamp(),
        None => None,
    }
}

impl ChangeStreamAggregate {
    // The command over a link of this wire version.
    fn command_at(
        &self,
        alloc: Global,
        wire: i32,
        session: Option<&ClientSession>,
    ) -> Result<Document, Error>
        ensures ok { IfOk result (λ d. d ≡ fields_in (watch_body (target self.now.args.target) self.now.args.pipeline.items (options_for self.now.args.options self.now.resume wire) (option_copied session.entry))) }
        ensures fits { OnOk result (SizeFits self.now.args.options.batch_size) }
        ensures err { IfErr result (λ e. FailsBy (HasBadSize self.now.args.options.batch_size) e) }
    {
        match &self.resume {
            None => command(alloc, &self.args, &self.args.options, session),
            Some(state) => {
                let options = resume_options(&self.args, state, wire)?;
                command(alloc, &self.args, &options, session)
            }
        }
    }
}

impl Operation for ChangeStreamAggregate {
    type Output = (CursorSpecification, Option<Timestamp>);

    ghost use Rattle.mg_link.specs.Namespace.{target};
    ghost use Rattle.mg_options.specs.Fields.{fields_in};
    ghost use Rattle.mg_ops.specs.Bodies.{watch_body};
    ghost use Rattle.mg_ops.specs.Cursors.{BreaksIn, OpensWithTime};
    ghost use Rattle.mg_ops.specs.Failing.{HasBadSize};
    ghost use Rattle.mg_ops.specs.Limits.{SizeFits};
    ghost use Rattle.mg_ops.specs.Resuming.{options_for};
    ghost use Rattle.mg_ops.specs.Sessions.{read_retry};

    ghost command = { λ o wire session. fields_in (watch_body (target o.args.target) o.args.pipeline.items (options_for o.args.options o.resume wire) session) };

    ghost sound = { λ o. SizeFits o.args.options.batch_size };

    ghost unfit = { λ o. HasBadSize o.args.options.batch_size };

    ghost retried = { λ o. read_retry };

    ghost gives = { λ o. OpensWithTime o.args.options.batch_size o.args.options.max_await_time o.args.options.comment };

    ghost fails = { λ o. BreaksIn };

    fn build(
        &self,
        alloc: Global,
        wire: i32,
        session: Option<&ClientSession>,
    ) -> Result<Document, Error> {
        self.command_at(alloc, wire, session)
    }

    fn retry(&self, session: Option<&ClientSession>) -> Retry {
        read_retry(session)
    }

    fn read(
        &self,
        alloc: Global,
        reply: RawDocumentBuf,
    ) -> Result<(CursorSpecification, Option<Timestamp>), Error> {
        let o = &self.args.options;
        let time = operation_time(&reply.as_raw());
        let specification = read_cursor(alloc, o.batch_size, o.max_await_time, &o.comment, reply)?;
        Ok((specification, time))
    }
}
