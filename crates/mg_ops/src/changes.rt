//! Updates and deletes.
ghost use Rattle.std.specs.Prelude.{◌≡◌, IfOk, IfErr};
ghost use Rattle.mg_bson.specs.Raw.{fields};
ghost use Rattle.mg_ops.specs.Failing.{FailsBy, Gives};
ghost use Rattle.mg_ops.specs.Updates.{counted};
ghost use Rattle.mg_ops.specs.Writes.{FailedAs, Wrote, count_of, counts_of};

use crate::body::{InOrder, Listed, One, Then, body};
use crate::entry::Entry;
use crate::fault::{Fault, error_of};
use crate::insert_reply::{changed_of, count_of};
use crate::operation::Operation;
use crate::write_reply::check_written;
use mg_bson::{Document, RawDocument, RawDocumentBuf};
use mg_exec::Retry;
use mg_link::{ClientSession, Error, Namespace, WriteConcern};
use mg_options::{DeleteOptions, UpdateModifications, Value};
use std::alloc::Global;

/// Removes documents from a collection.
pub struct Delete {
    /// The collection.
    pub ns: Namespace,
    /// What is to hold of the documents.
    pub filter: Document,
    /// Whether all of them are removed, and not the first alone.
    pub many: bool,
    /// How they are removed.
    pub options: DeleteOptions,
}

// By hand, so that letting one go is one call.
impl Drop for Delete {
    fn drop(self) {
        let Delete {
            ns: _,
            filter: _,
            many: _,
            options: _,
        } = self;
    }
}

/// Changes documents of a collection.
pub struct Update {
    /// The collection.
    pub ns: Namespace,
    /// What is to hold of the documents.
    pub filter: Document,
    /// How they are changed.
    pub modifications: UpdateModifications,
    /// Whether all of them are changed, and not the first alone.
    pub many: bool,
    /// How far the write is to come.
    pub write_concern: Option<WriteConcern>,
}

// By hand, so that letting one go is one call.
impl Drop for Update {
    fn drop(self) {
        let Update {
            ns: _,
            filter: _,
            modifications: _,
            many: _,
            write_concern: _,
        } = self;
    }
}

/// How many documents an update met.
#[derive(Clone, Copy, Debug, PartialEq, Eq)]
pub struct UpdateCounts {
    /// How many it found.
    pub matched: u64,
    /// How many of them it changed.
    pub modified: u64,
}

// The counts of the reply to an update.
fn counts_of(reply: &RawDocument<'_>) -> Result<UpdateCounts, Fault>
    ensures { Gives counted result (counts_of (fields reply.now)) }
{
    let matched = count_of(reply)?;
    let modified = changed_of(reply)?;
    Ok(UpdateCounts { matched, modified })
}

/// Reads the reply to a deletion: how many documents were removed, or what failed.
pub fn read_deleted(alloc: Global, reply: &RawDocument<'_>) -> Result<u64, Error>
    ensures ok { IfOk result (λ n. Wrote (count_of (fields reply.now)) (fields reply.now) n) }
    ensures err { IfErr result (λ e. FailsBy (FailedAs (count_of (fields reply.now)) (fields reply.now)) e) }
{
    let n = match count_of(reply) {
        Ok(n) => n,
        Err(fault) => return Err(error_of(fault)),
    };
    check_written(alloc, reply)?;
    Ok(n)
}

// Reads the reply to an update.
fn read_updated(alloc: Global, reply: &RawDocument<'_>) -> Result<UpdateCounts, Error>
    ensures ok { IfOk result (λ u. Wrote (counts_of (fields reply.now)) (fields reply.now) (counted u)) }
    ensures err { IfErr result (λ e. FailsBy (FailedAs (counts_of (fields reply.now)) (fields reply.now)) e) }
{
    let counts = match counts_of(reply) {
        Ok(counts) => counts,
        Err(fault) => return Err(error_of(fault)),
    };
    check_written(alloc, reply)?;
    Ok(counts)
}

impl Operation for Delete {
    type Output = u64;

    ghost use Rattle.std.specs.Prelude.{◌≡◌, None};
    ghost use Rattle.mg_bson.specs.Raw.{fields};
    ghost use Rattle.mg_link.specs.Namespace.{space};
    ghost use Rattle.mg_exec.specs.declared.exec.Retry.TheVariants as retries;
    ghost use Rattle.mg_options.specs.Fields.{Refuses, fields_in, first_unfit};
    ghost use Rattle.mg_ops.specs.Bodies.{delete_body};
    ghost use Rattle.mg_ops.specs.Writes.{FailedAs, Wrote, count_of};

    ghost command = { λ o wire session. fields_in (delete_body (space o.ns) o.filter o.many o.options session) };

    ghost sound = { λ o. first_unfit (delete_body (space o.ns) o.filter o.many o.options None) ≡ None };

    ghost unfit = { λ o. Refuses (first_unfit (delete_body (space o.ns) o.filter o.many o.options None)) };

    ghost retried = { λ o session. retries.None };

    ghost gives = { λ o reply n. Wrote (count_of (fields reply)) (fields reply) n };

    ghost fails = { λ o reply e. FailedAs (count_of reply) reply e };

    fn build(
        &self,
        alloc: Global,
        _wire: i32,
        session: Option<&ClientSession>,
    ) -> Result<Document, Error> {
        let o = &self.options;
        let front = Listed {
            list: &[("delete", Entry::Text(&self.ns.coll))],
        };
        let one = One {
            name: "deletes",
            list: &[
                ("q", Entry::Document(&self.filter)),
                ("limit", Entry::Limit(self.many)),
                ("collation", Entry::Option(Value::Collation(&o.collation))),
                ("hint", Entry::Option(Value::Hint(&o.hint))),
            ],
        };
        let back = Listed {
            list: &[
                ("ordered", Entry::Ordered(None)),
                ("let", Entry::Option(Value::Document(&o.let_vars))),
                ("comment", Entry::Option(Value::Any(&o.comment))),
            ],
        };
        let rest = Then {
            first: &one,
            rest: &back,
        };
        body(
            alloc,
            &Then {
                first: &front,
                rest: &rest,
            },
            Entry::Text(&self.ns.db),
            session,
            &[(
                "writeConcern",
                Entry::Option(Value::WriteConcern(&o.write_concern)),
            )],
        )
    }

    fn retry(&self, _session: Option<&ClientSession>) -> Retry {
        Retry::None
    }

    fn read(&self, alloc: Global, reply: RawDocumentBuf) -> Result<u64, Error> {
        read_deleted(alloc, &reply.as_raw())
    }
}

impl Operation for Update {
    type Output = UpdateCounts;

    ghost use Rattle.std.specs.Prelude.{◌≡◌, None};
    ghost use Rattle.mg_bson.specs.Raw.{fields};
    ghost use Rattle.mg_link.specs.Namespace.{space};
    ghost use Rattle.mg_exec.specs.declared.exec.Retry.TheVariants as retries;
    ghost use Rattle.mg_options.specs.Fields.{Refuses, fields_in, first_unfit};
    ghost use Rattle.mg_ops.specs.Bodies.{update_body};
    ghost use Rattle.mg_ops.specs.Updates.{counted};
    ghost use Rattle.mg_ops.specs.Writes.{FailedAs, Wrote, counts_of};

    ghost command = { λ o wire session. fields_in (update_body (space o.ns) o.filter o.modifications o.many o.write_concern session) };

    ghost sound = { λ o. first_unfit (update_body (space o.ns) o.filter o.modifications o.many o.write_concern None) ≡ None };

    ghost unfit = { λ o. Refuses (first_unfit (update_body (space o.ns) o.filter o.modifications o.many o.write_concern None)) };

    ghost retried = { λ o session. retries.None };

    ghost gives = { λ o reply u. Wrote (counts_of (fields reply)) (fields reply) (counted u) };

    ghost fails = { λ o reply e. FailedAs (counts_of reply) reply e };

    fn build(
        &self,
        alloc: Global,
        _wire: i32,
        session: Option<&ClientSession>,
    ) -> Result<Document, Error> {
        let front = Listed {
            list: &[("update", Entry::Text(&self.ns.coll))],
        };
        let one = One {
            name: "updates",
            list: &[
                ("q", Entry::Document(&self.filter)),
                ("u", Entry::Modifications(&self.modifications)),
                ("multi", Entry::Multi(self.many)),
            ],
        };
        let rest = Then {
            first: &one,
            rest: &InOrder,
        };
        body(
            alloc,
            &Then {
                first: &front,
                rest: &rest,
            },
            Entry::Text(&self.ns.db),
            session,
            &[(
                "writeConcern",
                Entry::Option(Value::WriteConcern(&self.write_concern)),
            )],
        )
    }

    fn retry(&self, _session: Option<&ClientSession>) -> Retry {
        Retry::None
    }

    fn read(&self, alloc: Global, reply: RawDocumentBuf) -> Result<UpdateCounts, Error> {
        read_updated(alloc, &reply.as_raw())
    }
}
