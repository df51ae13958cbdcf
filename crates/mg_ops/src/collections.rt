//! Collections and their indexes.
use crate::body::{Listed, One, Part, Then, body};
use crate::entry::Entry;
use crate::operation::Operation;
use crate::write_reply::check_written;
use mg_bson::{Document, RawDocumentBuf};
use mg_exec::Retry;
use mg_link::{ClientSession, Error, Namespace, WriteConcern};
use mg_options::{CreateIndexOptions, DropCollectionOptions, Value};
use std::alloc::Global;

/// Creates a collection.
pub struct Create {
    /// The collection.
    pub ns: Namespace,
    /// How far the write is to come.
    pub write_concern: Option<WriteConcern>,
}

// By hand, so that letting one go is one call.
impl Drop for Create {
    fn drop(self) {
        let Create {
            ns: _,
            write_concern: _,
        } = self;
    }
}

/// Drops a collection.
pub struct DropCollection {
    /// The collection.
    pub ns: Namespace,
    /// How it is dropped.
    pub options: DropCollectionOptions,
}

// By hand, so that letting one go is one call.
impl Drop for DropCollection {
    fn drop(self) {
        let DropCollection { ns: _, options: _ } = self;
    }
}

/// Creates an index of a collection. Its name is made of its keys: names and values, joined by underscores.
pub struct CreateIndexes {
    /// The collection.
    pub ns: Namespace,
    /// The keys. The value of each is a text or a whole number.
    pub keys: Document,
    /// How the index is built.
    pub options: CreateIndexOptions,
}

// By hand, so that letting one go is one call.
impl Drop for CreateIndexes {
    fn drop(self) {
        let CreateIndexes {
            ns: _,
            keys: _,
            options: _,
        } = self;
    }
}

impl Part for CreateIndexOptions {
    ghost use Rattle.mg_options.specs.Records.{create_index_lines};

    ghost shows = { create_index_lines };

    fn append_to(&self, alloc: Global, body: &mut Document) -> Result<(), Error> {
        self.append_fields(alloc, body)
    }
}

impl Operation for Create {
    type Output = ();

    ghost use Rattle.std.specs.Prelude.{◌≡◌, [], Ok, None};
    ghost use Rattle.mg_bson.specs.Raw.{fields};
    ghost use Rattle.mg_link.specs.Namespace.{space};
    ghost use Rattle.mg_exec.specs.declared.exec.Retry.TheVariants as retries;
    ghost use Rattle.mg_options.specs.Fields.{Refuses, fields_in, first_unfit};
    ghost use Rattle.mg_ops.specs.Bodies.{create_body};
    ghost use Rattle.mg_ops.specs.Writes.{WriteFails, failures_of};

    ghost command = { λ o wire session. fields_in (create_body (space o.ns) o.write_concern session) };

    ghost sound = { λ o. first_unfit (create_body (space o.ns) o.write_concern None) ≡ None };

    ghost unfit = { λ o. Refuses (first_unfit (create_body (space o.ns) o.write_concern None)) };

    ghost retried = { λ o session. retries.None };

    ghost gives = { λ o reply out. failures_of 0 (fields reply) ≡ Ok [] };

    ghost fails = { λ o. WriteFails };

    fn build(
        &self,
        alloc: Global,
        _wire: i32,
        session: Option<&ClientSession>,
    ) -> Result<Document, Error> {
        body(
            alloc,
            &Listed {
                list: &[("create", Entry::Text(&self.ns.coll))],
            },
            Entry::Text(&self.ns.db),
            session,
            &[(
                "writeConcern",
                Entry::Option(Value::WriteConcern(&self.write_concern)),
            )],
        )
    }

    fn retry(&self, _session: Option<&ClientSession>) -> Retry {
        Retry::None
    }

    fn read(&self, alloc: Global, reply: RawDocumentBuf) -> Result<(), Error> {
        check_written(alloc, &reply.as_raw())
    }
}

impl Operation for DropCollection {
    type Output = ();

    ghost use Rattle.std.specs.Prelude.{◌≡◌, [], Ok, None};
    ghost use Rattle.mg_bson.specs.Raw.{fields};
    ghost use Rattle.mg_link.specs.Namespace.{space};
    ghost use Rattle.mg_exec.specs.declared.exec.Retry.TheVariants as retries;
    ghost use Rattle.mg_options.specs.Fields.{Refuses, fields_in, first_unfit};
    ghost use Rattle.mg_ops.specs.Bodies.{drop_body};
    ghost use Rattle.mg_ops.specs.Writes.{WriteFails, failures_of};

    ghost command = { λ o wire session. fields_in (drop_body (space o.ns) o.options.write_concern session) };

    ghost sound = { λ o. first_unfit (drop_body (space o.ns) o.options.write_concern None) ≡ None };

    ghost unfit = { λ o. Refuses (first_unfit (drop_body (space o.ns) o.options.write_concern None)) };

    ghost retried = { λ o session. retries.None };

    ghost gives = { λ o reply out. failures_of 0 (fields reply) ≡ Ok [] };

    ghost fails = { λ o. WriteFails };

    fn build(
        &self,
        alloc: Global,
        _wire: i32,
        session: Option<&ClientSession>,
    ) -> Result<Document, Error> {
        let concern = &self.options.write_concern;
        body(
            alloc,
            &Listed {
                list: &[("drop", Entry::Text(&self.ns.coll))],
            },
            Entry::Text(&self.ns.db),
            session,
            &[("writeConcern", Entry::Option(Value::WriteConcern(concern)))],
        )
    }

    fn retry(&self, _session: Option<&ClientSession>) -> Retry {
        Retry::None
    }

    fn read(&self, alloc: Global, reply: RawDocumentBuf) -> Result<(), Error> {
        check_written(alloc, &reply.as_raw())
    }
}

impl Operation for CreateIndexes {
    type Output = ();

    ghost use Rattle.std.specs.Prelude.{◌≡◌, [], Ok, None};
    ghost use Rattle.mg_bson.specs.Raw.{fields};
    ghost use Rattle.mg_link.specs.Namespace.{space};
    ghost use Rattle.mg_exec.specs.declared.exec.Retry.TheVariants as retries;
    ghost use Rattle.mg_options.specs.Fields.{Refuses, fields_in, first_unfit};
    ghost use Rattle.mg_ops.specs.Bodies.{create_indexes_body};
    ghost use Rattle.mg_ops.specs.Writes.{WriteFails, failures_of};

    ghost command = { λ o wire session. fields_in (create_indexes_body (space o.ns) o.keys o.options session) };

    ghost sound = { λ o. first_unfit (create_indexes_body (space o.ns) o.keys o.options None) ≡ None };

    ghost unfit = { λ o. Refuses (first_unfit (create_indexes_body (space o.ns) o.keys o.options None)) };

    ghost retried = { λ o session. retries.None };

    ghost gives = { λ o reply out. failures_of 0 (fields reply) ≡ Ok [] };

    ghost fails = { λ o. WriteFails };

    fn build(
        &self,
        alloc: Global,
        _wire: i32,
        session: Option<&ClientSession>,
    ) -> Result<Document, Error> {
        let o = &self.options;
        let front = Listed {
            list: &[("createIndexes", Entry::Text(&self.ns.coll))],
        };
        let one = One {
            name: "indexes",
            list: &[
                ("key", Entry::Document(&self.keys)),
                ("name", Entry::IndexName(&self.keys)),
            ],
        };
        let rest = Then {
            first: &one,
            rest: o,
        };
        body(
            alloc,
            &Then {
                first: &front,
                rest: &rest,
            },
            Entry::Text(&self.ns.db),
            session,
            &[(
                "writeConcern",
                Entry::Option(Value::WriteConcern(&o.write_concern)),
            )],
        )
    }

    fn retry(&self, _session: Option<&ClientSession>) -> Retry {
        Retry::None
    }

    fn read(&self, alloc: Global, reply: RawDocumentBuf) -> Result<(), Error> {
        check_written(alloc, &reply.as_raw())
    }
}
