//! Inserts.
ghost use Rattle.std.specs.Prelude.{◌≡◌, ◌⊎◌, OnOk, IfOk, IfErr, None, length};
ghost use Rattle.mg_bson.specs.Bytes.{bytes};
ghost use Rattle.mg_bson.specs.Raw.{fields};
ghost use Rattle.mg_link.specs.Errors.{plain};
ghost use Rattle.mg_link.specs.Namespace.{space};
ghost use Rattle.mg_link.specs.declared.error.ErrorKind.TheVariants as kinds;
ghost use Rattle.mg_options.specs.Fields.{Refuses, fields_in, first_unfit};
ghost use Rattle.mg_ops.specs.Bodies.{insert_body, insert_lines};
ghost use Rattle.mg_ops.specs.Failing.{CannotBeInserted, CannotBeSent, CannotInsert, FailsBy};
ghost use Rattle.mg_ops.specs.Limits.{AreStorable, IsStorable, MayInsert, PassesLimit, SomePassLimit, max_stored};

use crate::body::{Listed, append_all, body};
use crate::entry::Entry;
use crate::insert_reply::read_inserted;
use crate::operation::{Operation, written};
use crate::parts::documents_array;
use mg_bson::{Array, Bson, Document, RawDocumentBuf};
use mg_exec::Retry;
use mg_link::{BadArgument, ClientSession, Error, ErrorKind, Namespace, plain};
use mg_options::{InsertManyOptions, Value, put_given};
use std::alloc::Global;

/// The most documents of one command.
pub(crate) const MAX_DOCUMENTS: usize = 100_000;

/// The most bytes of a stored document.
const MAX_STORED: usize = 16_777_216;

/// Inserts documents into a collection, in their order: up to the first that fails, or, where `ordered` is false, all that can be.
pub struct Insert {
    /// The collection.
    pub ns: Namespace,
    /// The documents: at least one, and at most 100,000. Each has an `_id`.
    pub documents: Vec<Document>,
    /// How they are inserted.
    pub options: InsertManyOptions,
}

// By hand, so that letting one go is one call.
impl Drop for Insert {
    fn drop(self) {
        let Insert {
            ns: _,
            documents: _,
            options: _,
        } = self;
    }
}

impl Insert {
    /// The bytes of its command, without a session. Its documents are used up, and none is copied but into these bytes.
    pub fn into_bytes(self, alloc: Global) -> Result<RawDocumentBuf, Error>
        ensures bytes { IfOk result (λ r. r ≡ bytes (fields_in (insert_body (space self.ns) self.documents.items self.options None))) }
        ensures read_back { IfOk result (λ r. fields r ≡ fields_in (insert_body (space self.ns) self.documents.items self.options None)) }
        ensures sound { OnOk result (MayInsert self.documents.items) }
        ensures err { IfErr result (λ e. FailsBy (λ e. CannotInsert (first_unfit (insert_body (space self.ns) self.documents.items self.options None)) self.documents.items e
            ⊎ CannotBeSent (fields_in (insert_body (space self.ns) self.documents.items self.options None)) e) e) }
    {
        check(&self.documents)?;
        let Insert {
            ns,
            documents,
            options,
        } = self;
        let documents = documents_array(alloc, documents)?;
        array_bytes(alloc, &ns, documents, &options)
    }
}

// The bytes of the command that inserts the documents of an array.
fn array_bytes<'a>(
    alloc: Global,
    ns: &'a Namespace,
    documents: Array,
    o: &'a InsertManyOptions,
) -> Result<RawDocumentBuf, Error>
    ensures bytes { IfOk result (λ r. r ≡ bytes (fields_in (insert_lines (space ns.now) documents o.now None))) }
    ensures read_back { IfOk result (λ r. fields r ≡ fields_in (insert_lines (space ns.now) documents o.now None)) }
    ensures err { IfErr result (λ e. FailsBy (λ e. Refuses (first_unfit (insert_lines (space ns.now) documents o.now None)) e
        ⊎ CannotBeSent (fields_in (insert_lines (space ns.now) documents o.now None)) e) e) }
{
    let mut command = Document::new(alloc);
    put_given(alloc, &mut command, &[("insert", Entry::Text(&ns.coll))])?;
    command.append("documents", Bson::Array(documents))?;
    append_all(
        alloc,
        &mut command,
        &Listed {
            list: &[
                ("ordered", Entry::Ordered(o.ordered)),
                (
                    "bypassDocumentValidation",
                    Entry::Option(Value::Flag(o.bypass_document_validation)),
                ),
                ("comment", Entry::Option(Value::Any(&o.comment))),
            ],
        },
        Entry::Text(&ns.db),
        None,
        &[(
            "writeConcern",
            Entry::Option(Value::WriteConcern(&o.write_concern)),
        )],
    )?;
    written(alloc, &command)
}

// Refuses a document that cannot be stored.
fn check_document(value: &Document) -> Result<(), Error>
    ensures ok { OnOk result (IsStorable value.now) }
    ensures err { IfErr result (λ e. FailsBy (λ e. (e ≡ plain kinds.BsonSerialization) × PassesLimit max_stored value.now) e) }
{
    if value.encoded_len()? > MAX_STORED {
        return Err(plain(ErrorKind::BsonSerialization));
    }
    Ok(())
}

// Refuses documents of which one cannot be stored.
fn check_documents(documents: &[Document]) -> Result<(), Error>
    ensures ok { OnOk result (AreStorable documents.now) }
    ensures err { IfErr result (λ e. FailsBy (λ e. (e ≡ plain kinds.BsonSerialization) × SomePassLimit documents.now) e) }
{
    let mut left = documents;
    'documents: while let [first, rest @ ..] = left {
        check_document(first)?;
        left = rest;
    }
    Ok(())
}

// Refuses documents that one command cannot insert.
fn check(documents: &[Document]) -> Result<(), Error>
    ensures ok { OnOk result (MayInsert documents.now) }
    ensures err { IfErr result (λ e. FailsBy (CannotBeInserted documents.now) e) }
{
    if documents.is_empty() {
        return Err(plain(ErrorKind::InvalidArgument(BadArgument::NoDocuments)));
    }
    if documents.len() > MAX_DOCUMENTS {
        return Err(plain(ErrorKind::BsonSerialization));
    }
    check_documents(documents)
}

impl Operation for Insert {
    type Output = u64;

    ghost use Rattle.std.specs.Prelude.{◌≡◌, None, length};
    ghost use Rattle.mg_bson.specs.Raw.{fields};
    ghost use Rattle.mg_link.specs.Namespace.{space};
    ghost use Rattle.mg_exec.specs.declared.exec.Retry.TheVariants as retries;
    ghost use Rattle.mg_options.specs.Fields.{fields_in, first_unfit};
    ghost use Rattle.mg_ops.specs.Bodies.{insert_body};
    ghost use Rattle.mg_ops.specs.Failing.{CannotInsert};
    ghost use Rattle.mg_ops.specs.Limits.{MayInsert};
    ghost use Rattle.mg_ops.specs.Writes.{Inserted, NotInserted};

    ghost command = { λ o wire session. fields_in (insert_body (space o.ns) o.documents.items o.options session) };

    ghost sound = { λ o. MayInsert o.documents.items × (first_unfit (insert_body (space o.ns) o.documents.items o.options None) ≡ None) };

    ghost unfit = { λ o. CannotInsert (first_unfit (insert_body (space o.ns) o.documents.items o.options None)) o.documents.items };

    ghost retried = { λ o session. retries.None };

    ghost gives = { λ o reply n. Inserted (length o.documents.items) (fields reply) n };

    ghost fails = { λ o reply e. NotInserted (length o.documents.items) reply e };

    #[tactic(auto, using(crate::proofs::InsertFailing::cannot_at_all, crate::proofs::InsertFailing::not_by_option))]
    fn build(
        &self,
        alloc: Global,
        _wire: i32,
        session: Option<&ClientSession>,
    ) -> Result<Document, Error> {
        check(&self.documents)?;
        let o = &self.options;
        body(
            alloc,
            &Listed {
                list: &[
                    ("insert", Entry::Text(&self.ns.coll)),
                    ("documents", Entry::Documents(&self.documents)),
                    ("ordered", Entry::Ordered(o.ordered)),
                    (
                        "bypassDocumentValidation",
                        Entry::Option(Value::Flag(o.bypass_document_validation)),
                    ),
                    ("comment", Entry::Option(Value::Any(&o.comment))),
                ],
            },
            Entry::Text(&self.ns.db),
            session,
            &[(
                "writeConcern",
                Entry::Option(Value::WriteConcern(&o.write_concern)),
            )],
        )
    }

    fn retry(&self, _session: Option<&ClientSession>) -> Retry {
        Retry::None
    }

    fn read(&self, alloc: Global, reply: RawDocumentBuf) -> Result<u64, Error> {
        read_inserted(alloc, &reply.as_raw(), self.documents.len())
    }
}
