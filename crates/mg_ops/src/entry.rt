//! The fields of commands.
ghost use Rattle.std.specs.Prelude.{◌≡◌, ◌++◌, ◌&&◌, IfOk, IfErr, [], option_map, string_bytes};
ghost use Rattle.mg_bson.specs.Tree.{array, document, string};
ghost use Rattle.mg_bson.specs.View.{tree};
ghost use Rattle.mg_link.specs.Errors.{plain};
ghost use Rattle.mg_link.specs.declared.error.ErrorKind.TheVariants as kinds;
ghost use Rattle.mg_options.specs.Fields.{FailsBy, given, shown, unfit_of};
ghost use Rattle.mg_options.specs.Tables.{modifications_value};
ghost use Rattle.mg_link.specs.Namespace.{target};
ghost use Rattle.mg_options.specs.Printing.{flag, listed};
ghost use Rattle.mg_ops.specs.Bodies.{awaits_data, delete_limit, is_ordered, is_single, is_tailable, selects_by_name, watch_pipeline, writes_out};
ghost use Rattle.mg_ops.specs.Commands.{aggregate_on, database_of, watch_stage};
ghost use Rattle.mg_ops.specs.Pieces.{cursor_of_size, index_name, key_onto, key_text, keys_onto, only_true, underscored};
ghost use Rattle.mg_ops.specs.Sessions.{autocommit, numbered};

use crate::looking::{selects_by_name, writes_out};
use crate::parts::{put_documents, text};
use mg_bson::{Array, Bson, Document};
use mg_link::{BadArgument, ClientSession, Error, ErrorKind, OperationTarget, plain};
use mg_options::{ChangeStreamOptions, CursorType, Print, UpdateModifications, Value};
use std::alloc::{AllocError, Global};

/// What a field of a command may be.
#[derive(Clone, Copy)]
pub(crate) enum Entry<'a> {
    Text(&'a String),
    Number(i32),
    Document(&'a Document),
    Documents(&'a Vec<Document>),
    Modifications(&'a UpdateModifications),
    /// The name of an index with these keys.
    IndexName(&'a Document),
    /// Whether a find with this limit asks for a single batch.
    Single(Option<i64>),
    /// Whether the cursor stays open at its end.
    Tailable(Option<CursorType>),
    /// Whether the server waits for new documents.
    AwaitData(Option<CursorType>),
    /// What an aggregate names first.
    AggregateOn(&'a OperationTarget),
    /// The database of an aggregate.
    DatabaseOf(&'a OperationTarget),
    /// The pipeline of a watch: the stage that opens it with these options, and those behind it.
    Watch(&'a ChangeStreamOptions, &'a Vec<Document>),
    /// The cursor of an aggregate with batches of this size and these stages.
    Cursor(Option<u32>, &'a Vec<Document>),
    /// Whether names are enough, where they are asked for and a filter looks at no more.
    NameOnly(bool, &'a Option<Document>),
    /// How many documents are removed: all, or one.
    Limit(bool),
    /// Whether all are changed.
    Multi(bool),
    /// Whether an insert ends at the first document that fails, where that is said.
    Ordered(Option<bool>),
    /// The id of a session.
    SessionId(&'a ClientSession),
    /// The number of its transaction, while one goes on.
    TransactionNumber(&'a ClientSession),
    /// Whether a transaction starts.
    StartTransaction(&'a ClientSession),
    /// False while a transaction goes on: its commands do not commit it.
    Autocommit(&'a ClientSession),
    Option(Value<'a>),
}

fn print_document(value: &Document) -> Result<Option<Bson>, Error>
    ensures ok { IfOk result (λ v. shown (document value.now) ≡ given (option_map tree v)) }
    ensures err { IfErr result (λ e. e ≡ plain kinds.OutOfMemory) }
{
    Ok(Some(Bson::Document(value.clone()?)))
}

fn print_documents(alloc: Global, documents: &[Document]) -> Result<Option<Bson>, Error>
    ensures ok { IfOk result (λ v. shown (array (listed document documents.now)) ≡ given (option_map tree v)) }
    ensures err { IfErr result (λ e. e ≡ plain kinds.OutOfMemory) }
{
    let mut array = Array::new(alloc);
    put_documents(&mut array, documents)?;
    Ok(Some(Bson::Array(array)))
}

fn print_modifications(alloc: Global, value: &UpdateModifications) -> Result<Option<Bson>, Error>
    ensures ok { IfOk result (λ v. shown (modifications_value value.now) ≡ given (option_map tree v)) }
    ensures err { IfErr result (λ e. e ≡ plain kinds.OutOfMemory) }
{
    match value {
        UpdateModifications::Document(document) => print_document(document),
        UpdateModifications::Pipeline(stages) => print_documents(alloc, stages),
    }
}

// The stage that opens a watch.
fn watch_stage(alloc: Global, options: &ChangeStreamOptions) -> Result<Document, Error>
    ensures ok { IfOk result (λ d. d ≡ watch_stage options.now) }
    ensures err { IfErr result (λ e. e ≡ plain kinds.OutOfMemory) }
{
    let mut fields = Document::new(alloc);
    options.append_fields(alloc, &mut fields)?;
    let mut stage = Document::new(alloc);
    stage.append("$changeStream", Bson::Document(fields))?;
    Ok(stage)
}

// The pipeline of a watch.
fn print_watch(
    alloc: Global,
    options: &ChangeStreamOptions,
    stages: &[Document],
) -> Result<Option<Bson>, Error>
    ensures ok { IfOk result (λ v. watch_pipeline options.now stages.now ≡ given (option_map tree v)) }
    ensures err { IfErr result (λ e. e ≡ plain kinds.OutOfMemory) }
{
    let mut pipeline = Array::new(alloc);
    pipeline.push(Bson::Document(watch_stage(alloc, options)?))?;
    put_documents(&mut pipeline, stages)?;
    Ok(Some(Bson::Array(pipeline)))
}

// The document of a cursor, with the size of its batches where documents come out of the stages.
fn print_cursor(
    alloc: Global,
    size: Option<u32>,
    stages: &[Document],
) -> Result<Option<Bson>, Error>
    ensures ok { IfOk result (λ v. cursor_of_size (writes_out stages.now) size ≡ given (option_map tree v)) }
    ensures err { IfErr result (λ e. FailsBy (unfit_of (cursor_of_size (writes_out stages.now) size)) e) }
{
    let mut cursor = Document::new(alloc);
    let Some(n) = size else {
        return Ok(Some(Bson::Document(cursor)));
    };
    let Ok(n) = i32::try_from(n) else {
        return Err(plain(ErrorKind::InvalidArgument(BadArgument::BatchSize)));
    };
    if !writes_out(stages) {
        cursor.append("batchSize", Bson::Int32(n))?;
    }
    Ok(Some(Bson::Document(cursor)))
}

// True, or nothing.
fn only_true(holds: bool) -> Option<Bson>
    ensures { flag (only_true holds) ≡ given (option_map tree result) }
{
    if holds {
        Some(Bson::Boolean(true))
    } else {
        None
    }
}

// Whether a single batch is asked for.
fn is_single(limit: Option<i64>) -> bool
    ensures { result ≡ is_single limit }
{
    match limit {
        Some(limit) => limit < 0,
        None => false,
    }
}

fn is_tailable(cursor_type: Option<CursorType>) -> bool
    ensures { result ≡ is_tailable cursor_type }
{
    match cursor_type {
        Some(CursorType::Tailable) | Some(CursorType::TailableAwait) => true,
        Some(CursorType::NonTailable) | None => false,
    }
}

fn awaits_data(cursor_type: Option<CursorType>) -> bool
    ensures { result ≡ awaits_data cursor_type }
{
    match cursor_type {
        Some(CursorType::TailableAwait) => true,
        Some(CursorType::Tailable) | Some(CursorType::NonTailable) | None => false,
    }
}

// What an aggregate names first.
fn print_on(alloc: Global, on: &OperationTarget) -> Result<Option<Bson>, Error>
    ensures ok { IfOk result (λ v. shown (aggregate_on (target on.now)) ≡ given (option_map tree v)) }
    ensures err { IfErr result (λ e. e ≡ plain kinds.OutOfMemory) }
{
    match on {
        OperationTarget::Collection(ns) => print_text(alloc, ns.coll.as_str()),
        OperationTarget::Database(_) => Ok(Some(Bson::Int32(1))),
        OperationTarget::Cluster => Ok(Some(Bson::Int32(1))),
    }
}

// The database of an aggregate.
fn print_database(alloc: Global, on: &OperationTarget) -> Result<Option<Bson>, Error>
    ensures ok { IfOk result (λ v. shown (string (database_of (target on.now))) ≡ given (option_map tree v)) }
    ensures err { IfErr result (λ e. e ≡ plain kinds.OutOfMemory) }
{
    match on {
        OperationTarget::Collection(ns) => print_text(alloc, ns.db.as_str()),
        OperationTarget::Database(db) => print_text(alloc, db.as_str()),
        OperationTarget::Cluster => print_text(alloc, "admin"),
    }
}

// Whether names are enough.
fn name_only(asked: bool, filter: &Option<Document>) -> bool
    ensures { result ≡ (asked && selects_by_name filter.now) }
{
    asked && selects_by_name(filter)
}

// How many documents a deletion may take: all of them where it says 0.
fn delete_limit(many: bool) -> i32
    ensures { result ≡ delete_limit many }
{
    if many { 0 } else { 1 }
}

// Whether an insert ends at the first document that fails: it does, unless it is said otherwise.
fn is_ordered(asked: Option<bool>) -> bool
    ensures { result ≡ is_ordered asked }
{
    asked.unwrap_or(true)
}

// The text with a word behind it. It takes the text whole, so that its caller holds none where this fails.
fn with_word(text: String, word: &str) -> Result<String, AllocError>
    ensures { IfOk result (λ s. string_bytes s ≡ string_bytes text ++ word.now) }
{
    let mut whole = text;
    whole.push_str(word)?;
    Ok(whole)
}

// Two words with an underscore between them.
fn underscored(alloc: Global, first: &str, second: &str) -> Result<String, AllocError>
    ensures { IfOk result (λ s. string_bytes s ≡ underscored first.now second.now) }
{
    let words = String::from_str(alloc, first)?;
    let words = with_word(words, "_")?;
    with_word(words, second)
}

// The value of a key in the name of its index, where it may stand there.
fn key_text(alloc: Global, value: &Bson) -> Result<Option<String>, AllocError>
    ensures { IfOk result (λ t. option_map string_bytes t ≡ key_text (tree value.now)) }
{
    match value {
        Bson::String(text) => Ok(Some(text.clone()?)),
        Bson::Int32(n) => Ok(Some(format!(in alloc; "{n}")?)),
        Bson::Int64(n) => Ok(Some(format!(in alloc; "{n}")?)),
        _ => Ok(None),
    }
}

// The name so far, and a key behind it.
fn key_onto(alloc: Global, front: &str, key: &str, text: &str) -> Result<String, AllocError>
    ensures { IfOk result (λ s. string_bytes s ≡ key_onto front.now key.now text.now) }
{
    if front.is_empty() {
        return underscored(alloc, key, text);
    }
    let front = underscored(alloc, front, key)?;
    underscored(alloc, front.as_str(), text)
}

// The names and values of keys, joined by underscores.
fn keys_text(alloc: Global, keys: &Document) -> Result<Option<String>, AllocError>
    ensures { IfOk result (λ t. option_map string_bytes t ≡ keys_onto [] keys.now) }
{
    let mut name = String::new(alloc);
    let mut left = keys.iter();
    'keys: while let Some((key, value)) = left.next() {
        let Some(text) = key_text(alloc, value)? else {
            return Ok(None);
        };
        name = key_onto(alloc, name.as_str(), key, text.as_str())?;
    }
    Ok(Some(name))
}

fn print_index_name(alloc: Global, keys: &Document) -> Result<Option<Bson>, Error>
    ensures ok { IfOk result (λ v. index_name keys.now ≡ given (option_map tree v)) }
    ensures err { IfErr result (λ e. FailsBy (unfit_of (index_name keys.now)) e) }
{
    match keys_text(alloc, keys)? {
        Some(name) => Ok(Some(Bson::String(name))),
        None => Err(plain(ErrorKind::InvalidArgument(BadArgument::Number))),
    }
}

// The number of the transaction that goes on.
fn numbered(session: &ClientSession) -> Option<Bson>
    ensures { numbered session.now ≡ given (option_map tree result) }
{
    if session.in_transaction() {
        Some(Bson::Int64(session.transaction_number()))
    } else {
        None
    }
}

// False where a transaction goes on.
fn autocommit(session: &ClientSession) -> Option<Bson>
    ensures { autocommit session.now ≡ given (option_map tree result) }
{
    if session.in_transaction() {
        Some(Bson::Boolean(false))
    } else {
        None
    }
}

fn print_text(alloc: Global, word: &str) -> Result<Option<Bson>, Error>
    ensures ok { IfOk result (λ v. shown (string word.now) ≡ given (option_map tree v)) }
    ensures err { IfErr result (λ e. e ≡ plain kinds.OutOfMemory) }
{
    Ok(Some(text(alloc, word)?))
}

impl Print for Entry<'_> {
    ghost use Rattle.mg_ops.specs.Entries.{entry};

    ghost shown = { entry };

    fn print(&self, alloc: Global) -> Result<Option<Bson>, Error> {
        match self {
            Entry::Text(word) => Ok(print_text(alloc, word.as_str())?),
            Entry::Number(n) => Ok(Some(Bson::Int32(*n))),
            Entry::Document(document) => Ok(print_document(document)?),
            Entry::Documents(documents) => Ok(print_documents(alloc, documents)?),
            Entry::Modifications(value) => Ok(print_modifications(alloc, value)?),
            Entry::IndexName(keys) => print_index_name(alloc, keys),
            Entry::Single(limit) => Ok(only_true(is_single(*limit))),
            Entry::Tailable(cursor_type) => Ok(only_true(is_tailable(*cursor_type))),
            Entry::AwaitData(cursor_type) => Ok(only_true(awaits_data(*cursor_type))),
            Entry::AggregateOn(target) => Ok(print_on(alloc, target)?),
            Entry::DatabaseOf(target) => Ok(print_database(alloc, target)?),
            Entry::Watch(options, stages) => Ok(print_watch(alloc, options, stages)?),
            Entry::Cursor(size, stages) => print_cursor(alloc, *size, stages),
            Entry::NameOnly(asked, filter) => Ok(Some(Bson::Boolean(name_only(*asked, filter)))),
            Entry::Limit(many) => Ok(Some(Bson::Int32(delete_limit(*many)))),
            Entry::Multi(many) => Ok(only_true(*many)),
            Entry::Ordered(asked) => Ok(Some(Bson::Boolean(is_ordered(*asked)))),
            Entry::SessionId(session) => Ok(print_document(session.id())?),
            Entry::TransactionNumber(session) => Ok(numbered(session)),
            Entry::StartTransaction(session) => Ok(only_true(session.starts_transaction())),
            Entry::Autocommit(session) => Ok(autocommit(session)),
            Entry::Option(value) => value.print(alloc),
        }
    }
}
