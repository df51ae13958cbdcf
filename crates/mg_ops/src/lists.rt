//! Lists of collections and indexes.
use crate::body::{Listed, Part, Then, body};
use crate::cursor_reply::{CursorSpecification, read_cursor};
use crate::entry::Entry;
use crate::operation::Operation;
use crate::session::read_retry;
use mg_bson::{Document, RawDocumentBuf};
use mg_exec::Retry;
use mg_link::{ClientSession, Error, Namespace};
use mg_options::{ListCollectionsOptions, ListIndexesOptions, Value};
use std::alloc::Global;

/// Lists the collections of a database.
pub struct ListCollections {
    /// The name of the database.
    pub db: String,
    /// Whether their names are enough. Where a filter looks at more, more is asked for.
    pub name_only: bool,
    /// How they are listed.
    pub options: ListCollectionsOptions,
}

// By hand, so that letting one go is one call.
impl Drop for ListCollections {
    fn drop(self) {
        let ListCollections {
            db: _,
            name_only: _,
            options: _,
        } = self;
    }
}

/// Lists the indexes of a collection.
pub struct ListIndexes {
    /// The collection.
    pub ns: Namespace,
    /// How they are listed.
    pub options: ListIndexesOptions,
}

// By hand, so that letting one go is one call.
impl Drop for ListIndexes {
    fn drop(self) {
        let ListIndexes { ns: _, options: _ } = self;
    }
}

impl Part for ListCollectionsOptions {
    ghost use Rattle.mg_options.specs.Records.{list_collections_lines};

    ghost shows = { list_collections_lines };

    fn append_to(&self, alloc: Global, body: &mut Document) -> Result<(), Error> {
        self.append_fields(alloc, body)
    }
}

impl Part for ListIndexesOptions {
    ghost use Rattle.mg_options.specs.Records.{list_indexes_lines};

    ghost shows = { list_indexes_lines };

    fn append_to(&self, alloc: Global, body: &mut Document) -> Result<(), Error> {
        self.append_fields(alloc, body)
    }
}

impl Operation for ListCollections {
    type Output = CursorSpecification;

    ghost use Rattle.std.specs.Prelude.{◌≡◌, None, string_bytes};
    ghost use Rattle.mg_options.specs.Fields.{Refuses, fields_in, first_unfit};
    ghost use Rattle.mg_ops.specs.Bodies.{list_collections_body};
    ghost use Rattle.mg_ops.specs.Cursors.{BreaksIn, OpensWith};
    ghost use Rattle.mg_ops.specs.Sessions.{read_retry};

    ghost command = { λ o wire session. fields_in (list_collections_body (string_bytes o.db) o.name_only o.options session) };

    ghost sound = { λ o. first_unfit (list_collections_body (string_bytes o.db) o.name_only o.options None) ≡ None };

    ghost unfit = { λ o. Refuses (first_unfit (list_collections_body (string_bytes o.db) o.name_only o.options None)) };

    ghost retried = { λ o. read_retry };

    ghost gives = { λ o. OpensWith o.options.batch_size None None };

    ghost fails = { λ o. BreaksIn };

    fn build(
        &self,
        alloc: Global,
        _wire: i32,
        session: Option<&ClientSession>,
    ) -> Result<Document, Error> {
        let front = Listed {
            list: &[
                ("listCollections", Entry::Number(1)),
                (
                    "nameOnly",
                    Entry::NameOnly(self.name_only, &self.options.filter),
                ),
            ],
        };
        body(
            alloc,
            &Then {
                first: &front,
                rest: &self.options,
            },
            Entry::Text(&self.db),
            session,
            &[],
        )
    }

    fn retry(&self, session: Option<&ClientSession>) -> Retry {
        read_retry(session)
    }

    fn read(&self, alloc: Global, reply: RawDocumentBuf) -> Result<CursorSpecification, Error> {
        read_cursor(alloc, self.options.batch_size, None, &None, reply)
    }
}

impl Operation for ListIndexes {
    type Output = CursorSpecification;

    ghost use Rattle.std.specs.Prelude.{◌≡◌, None};
    ghost use Rattle.mg_link.specs.Namespace.{space};
    ghost use Rattle.mg_options.specs.Fields.{Refuses, fields_in, first_unfit};
    ghost use Rattle.mg_ops.specs.Bodies.{list_indexes_body};
    ghost use Rattle.mg_ops.specs.Cursors.{BreaksIn, OpensWith};
    ghost use Rattle.mg_ops.specs.Sessions.{read_retry};

    ghost command = { λ o wire session. fields_in (list_indexes_body (space o.ns) o.options session) };

    ghost sound = { λ o. first_unfit (list_indexes_body (space o.ns) o.options None) ≡ None };

    ghost unfit = { λ o. Refuses (first_unfit (list_indexes_body (space o.ns) o.options None)) };

    ghost retried = { λ o. read_retry };

    ghost gives = { λ o. OpensWith o.options.batch_size o.options.max_time None };

    ghost fails = { λ o. BreaksIn };

    fn build(
        &self,
        alloc: Global,
        _wire: i32,
        session: Option<&ClientSession>,
    ) -> Result<Document, Error> {
        let front = Listed {
            list: &[
                ("listIndexes", Entry::Text(&self.ns.coll)),
                (
                    "cursor",
                    Entry::Option(Value::Cursor(self.options.batch_size)),
                ),
            ],
        };
        body(
            alloc,
            &Then {
                first: &front,
                rest: &self.options,
            },
            Entry::Text(&self.ns.db),
            session,
            &[],
        )
    }

    fn retry(&self, session: Option<&ClientSession>) -> Retry {
        read_retry(session)
    }

    fn read(&self, alloc: Global, reply: RawDocumentBuf) -> Result<CursorSpecification, Error> {
        read_cursor(
            alloc,
            self.options.batch_size,
            self.options.max_time,
            &None,
            reply,
        )
    }
}
