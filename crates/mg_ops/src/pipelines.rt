//! Aggregates.
use crate::body::{Listed, Part, Then, body};
use crate::cursor_reply::{CursorSpecification, read_cursor};
use crate::entry::Entry;
use crate::looking::writes_out;
use crate::operation::Operation;
use crate::session::read_retry;
use crate::write_reply::check_written;
use mg_bson::{Document, RawDocumentBuf};
use mg_exec::Retry;
use mg_link::{ClientSession, Error, OperationTarget};
use mg_options::{AggregateOptions, Value};
use std::alloc::Global;

/// Runs documents through a pipeline.
pub struct Aggregate {
    /// The collection, database or cluster whose documents go in.
    pub target: OperationTarget,
    /// The stages. Where the last is `$out` or `$merge`, the documents are written and no batch is asked for.
    pub pipeline: Vec<Document>,
    /// How the aggregate runs.
    pub options: AggregateOptions,
}

// By hand, so that letting one go is one call.
impl Drop for Aggregate {
    fn drop(self) {
        let Aggregate {
            target: _,
            pipeline: _,
            options: _,
        } = self;
    }
}

// Options without the size of batches, which stands in front of them.
#[derive(Clone, Copy)]
struct SizelessAggregate<'a> {
    options: &'a AggregateOptions,
}

impl Part for SizelessAggregate<'_> {
    ghost use Rattle.std.specs.Prelude.{None};
    ghost use Rattle.mg_options.specs.Records.{aggregate_lines};

    ghost shows = { λ p. aggregate_lines (record p.options.now { batch_size = None }) };

    fn append_to(&self, alloc: Global, body: &mut Document) -> Result<(), Error> {
        self.options.append_sized(alloc, body, None)
    }
}

impl Operation for Aggregate {
    type Output = CursorSpecification;

    ghost use Rattle.std.specs.Prelude.{◌≡◌, None, if◌then◌else◌};
    ghost use Rattle.mg_link.specs.Namespace.{target};
    ghost use Rattle.mg_exec.specs.declared.exec.Retry.TheVariants as retries;
    ghost use Rattle.mg_options.specs.Fields.{Refuses, fields_in, first_unfit};
    ghost use Rattle.mg_ops.specs.Bodies.{aggregate_body, writes_out};
    ghost use Rattle.mg_ops.specs.Sessions.{read_retry};
    ghost use Rattle.mg_ops.specs.Writes.{AggregateFails, AggregateOpens};

    ghost command = { λ o wire session. fields_in (aggregate_body (target o.target) o.pipeline.items o.options session) };

    ghost sound = { λ o. first_unfit (aggregate_body (target o.target) o.pipeline.items o.options None) ≡ None };

    ghost unfit = { λ o. Refuses (first_unfit (aggregate_body (target o.target) o.pipeline.items o.options None)) };

    ghost retried = { λ o session. if writes_out o.pipeline.items then retries.None else read_retry session };

    ghost gives = { λ o. AggregateOpens (writes_out o.pipeline.items) o.options };

    ghost fails = { λ o. AggregateFails (writes_out o.pipeline.items) };

    fn build(
        &self,
        alloc: Global,
        _wire: i32,
        session: Option<&ClientSession>,
    ) -> Result<Document, Error> {
        let o = &self.options;
        let front = Listed {
            list: &[
                ("aggregate", Entry::AggregateOn(&self.target)),
                ("pipeline", Entry::Documents(&self.pipeline)),
                ("cursor", Entry::Cursor(o.batch_size, &self.pipeline)),
            ],
        };
        let options = SizelessAggregate { options: o };
        body(
            alloc,
            &Then {
                first: &front,
                rest: &options,
            },
            Entry::DatabaseOf(&self.target),
            session,
            &[
                (
                    "readConcern",
                    Entry::Option(Value::ReadConcern(&o.read_concern)),
                ),
                (
                    "writeConcern",
                    Entry::Option(Value::WriteConcern(&o.write_concern)),
                ),
                (
                    "$readPreference",
                    Entry::Option(Value::Selection(o.selection_criteria)),
                ),
            ],
        )
    }

    fn retry(&self, session: Option<&ClientSession>) -> Retry {
        if writes_out(&self.pipeline) {
            Retry::None
        } else {
            read_retry(session)
        }
    }

    fn read(&self, alloc: Global, reply: RawDocumentBuf) -> Result<CursorSpecification, Error> {
        let o = &self.options;
        let specification = read_cursor(alloc, o.batch_size, o.max_await_time, &o.comment, reply)?;
        if writes_out(&self.pipeline) {
            check_written(alloc, &specification.initial_reply.as_raw())?;
        }
        Ok(specification)
    }
}
