//! Finds.
ghost use Rattle.std.specs.Prelude.{◌≡◌};
ghost use Rattle.mg_ops.specs.Bodies.{find_size, raised};

use crate::body::{Listed, Part, Then, body};
use crate::cursor_reply::{CursorSpecification, read_cursor};
use crate::entry::Entry;
use crate::operation::Operation;
use crate::session::read_retry;
use mg_bson::{Document, RawDocumentBuf};
use mg_exec::Retry;
use mg_link::{ClientSession, Error, Namespace};
use mg_options::{FindOptions, Value};
use std::alloc::Global;

/// Finds the documents of a collection that match a filter.
pub struct Find {
    /// The collection.
    pub ns: Namespace,
    /// What is to hold of the documents.
    pub filter: Document,
    /// How the find runs. A batch of as many documents as the limit allows is asked for with one more.
    pub options: FindOptions,
}

// By hand, so that letting one go is one call.
impl Drop for Find {
    fn drop(self) {
        let Find {
            ns: _,
            filter: _,
            options: _,
        } = self;
    }
}

// Options with the size of batches that is sent.
#[derive(Clone, Copy)]
struct SizedFind<'a> {
    options: &'a FindOptions,
}

impl Part for SizedFind<'_> {
    ghost use Rattle.mg_options.specs.Records.{find_lines};
    ghost use Rattle.mg_ops.specs.Bodies.{find_size};

    ghost shows = { λ p. find_lines (record p.options.now { batch_size = find_size p.options.now }) };

    fn append_to(&self, alloc: Global, body: &mut Document) -> Result<(), Error> {
        self.options
            .append_sized(alloc, body, find_size(self.options))
    }
}

// A batch of all that the limit allows would leave the cursor open: one more is asked for.
fn raised(limit: Option<i64>, n: u32) -> u32
    ensures { result ≡ raised limit n }
{
    match limit {
        Some(limit) => {
            if limit == i64::from(n) {
                n.saturating_add(1)
            } else {
                n
            }
        }
        None => n,
    }
}

// The size of its batches.
fn find_size(options: &FindOptions) -> Option<u32>
    ensures { result ≡ find_size options.now }
{
    match options.batch_size {
        Some(n) => Some(raised(options.limit, n)),
        None => None,
    }
}

impl Operation for Find {
    type Output = CursorSpecification;

    ghost use Rattle.std.specs.Prelude.{◌≡◌, None};
    ghost use Rattle.mg_link.specs.Namespace.{space};
    ghost use Rattle.mg_options.specs.Fields.{Refuses, fields_in, first_unfit};
    ghost use Rattle.mg_ops.specs.Bodies.{find_body, find_size};
    ghost use Rattle.mg_ops.specs.Cursors.{BreaksIn, OpensWith};
    ghost use Rattle.mg_ops.specs.Sessions.{read_retry};

    ghost command = { λ o wire session. fields_in (find_body (space o.ns) o.filter o.options session) };

    ghost sound = { λ o. first_unfit (find_body (space o.ns) o.filter o.options None) ≡ None };

    ghost unfit = { λ o. Refuses (first_unfit (find_body (space o.ns) o.filter o.options None)) };

    ghost retried = { λ o. read_retry };

    ghost gives = { λ o. OpensWith (find_size o.options) o.options.max_await_time o.options.comment };

    ghost fails = { λ o. BreaksIn };

    fn build(
        &self,
        alloc: Global,
        _wire: i32,
        session: Option<&ClientSession>,
    ) -> Result<Document, Error> {
        let o = &self.options;
        let flags = Listed {
            list: &[
                ("find", Entry::Text(&self.ns.coll)),
                ("singleBatch", Entry::Single(o.limit)),
                ("tailable", Entry::Tailable(o.cursor_type)),
                ("awaitData", Entry::AwaitData(o.cursor_type)),
            ],
        };
        let options = SizedFind { options: o };
        let filter = Listed {
            list: &[("filter", Entry::Document(&self.filter))],
        };
        let rest = Then {
            first: &options,
            rest: &filter,
        };
        body(
            alloc,
            &Then {
                first: &flags,
                rest: &rest,
            },
            Entry::Text(&self.ns.db),
            session,
            &[
                (
                    "readConcern",
                    Entry::Option(Value::ReadConcern(&o.read_concern)),
                ),
                (
                    "$readPreference",
                    Entry::Option(Value::Selection(o.selection_criteria)),
                ),
            ],
        )
    }

    fn retry(&self, session: Option<&ClientSession>) -> Retry {
        read_retry(session)
    }

    fn read(&self, alloc: Global, reply: RawDocumentBuf) -> Result<CursorSpecification, Error> {
        let size = find_size(&self.options);
        read_cursor(
            alloc,
            size,
            self.options.max_await_time,
            &self.options.comment,
            reply,
        )
    }
}
