//! The values of options, as documents hold them.
ghost use Rattle.std.specs.Prelude.{◌≡◌, Some, None, IfOk, IfErr, option_map};
ghost use Rattle.mg_bson.specs.Literal.{◌⇒◌⨾◌, empty};
ghost use Rattle.mg_bson.specs.Tree.{document, string};
ghost use Rattle.mg_bson.specs.View.{tree};
ghost use Rattle.mg_link.specs.Concerns.{acknowledged, preference_word, so_many};
ghost use Rattle.mg_link.specs.Errors.{plain};
ghost use Rattle.mg_link.specs.declared.error.ErrorKind.TheVariants as kinds;
ghost use Rattle.mg_options.specs.Collations.{alternate_word, case_first_word, collation_lines, max_variable_word};
ghost use Rattle.mg_options.specs.Fields.{FailsBy, given, lines, nested, shown, unfit_of};
ghost use Rattle.mg_options.specs.Printing.{count, cursor, flag, inner, limit, members, members_of, millis, size, time, value, word, word_value};
ghost use Rattle.mg_options.specs.Shown.{collation, full_document, full_document_before, hint, quorum, read_concern, selection, strength, write_concern};
ghost use Rattle.mg_options.specs.Values.{part};

use crate::collation::{
    Collation, CollationAlternate, CollationCaseFirst, CollationMaxVariable, CollationStrength,
};
use crate::field::{Print, put_given};
use crate::full_document::{FullDocumentBeforeChangeType, FullDocumentType};
use crate::token::ResumeToken;
use crate::write_words::{CommitQuorum, Hint};
use mg_bson::{Bson, Document, Timestamp};
use mg_link::{
    Acknowledgment, BadArgument, Error, ErrorKind, ReadConcern, ReadConcernLevel, ReadPreference,
    SelectionCriteria, WriteConcern, plain,
};
use std::alloc::Global;

// A value of a document that stands inside another.
#[derive(Clone, Copy)]
pub(crate) enum Part<'a> {
    Text(&'a String),
    Flag(Option<bool>),
    Strength(Option<CollationStrength>),
    CaseFirst(Option<CollationCaseFirst>),
    Alternate(Option<CollationAlternate>),
    MaxVariable(Option<CollationMaxVariable>),
    Level(&'a ReadConcernLevel),
    Acknowledgment(&'a Option<Acknowledgment>),
    Millis(Option<u64>),
}

/// A value of an option, to be printed.
#[derive(Clone, Copy)]
pub enum Value<'a> {
    /// True or false.
    Flag(Option<bool>),
    /// The size of a batch, an Int32.
    Size(Option<u32>),
    /// The size of a batch in the document of a cursor.
    Cursor(Option<u32>),
    /// A number, an Int64.
    Count(Option<u64>),
    /// A limit, whose sign is left out: an Int64.
    Limit(Option<i64>),
    /// Milliseconds: an Int32 where they fit, else an Int64.
    Millis(Option<u64>),
    /// A time of the server's log of operations.
    Time(Option<Timestamp>),
    /// A document.
    Document(&'a Option<Document>),
    /// Any value.
    Any(&'a Option<Bson>),
    /// A resume token.
    Token(&'a Option<ResumeToken>),
    /// Which index is to be used.
    Hint(&'a Option<Hint>),
    /// How many servers are to be ready.
    Quorum(&'a Option<CommitQuorum>),
    /// Which documents events hold in full.
    FullDocument(&'a Option<FullDocumentType>),
    /// Which documents events hold as they were before.
    FullDocumentBefore(&'a Option<FullDocumentBeforeChangeType>),
    /// How texts are compared.
    Collation(&'a Option<Collation>),
    /// What data is read.
    ReadConcern(&'a Option<ReadConcern>),
    /// How far a write is to have come.
    WriteConcern(&'a Option<WriteConcern>),
    /// Which servers may be asked. The primary alone is left out, since a server takes it so.
    Selection(Option<SelectionCriteria>),
}

fn refused(argument: BadArgument) -> Error
    ensures { result ≡ plain (kinds.InvalidArgument argument) }
{
    plain(ErrorKind::InvalidArgument(argument))
}

fn text(alloc: Global, word: &str) -> Result<Option<Bson>, Error>
    ensures ok { IfOk result (λ v. option_map tree v ≡ Some (string word.now)) }
    ensures err { IfErr result (λ e. e ≡ plain kinds.OutOfMemory) }
{
    let word = String::from_str(alloc, word)?;
    Ok(Some(Bson::String(word)))
}

fn print_flag(value: Option<bool>) -> Option<Bson>
    ensures { flag value ≡ given (option_map tree result) }
{
    match value {
        Some(flag) => Some(Bson::Boolean(flag)),
        None => None,
    }
}

fn print_time(value: Option<Timestamp>) -> Option<Bson>
    ensures { time value ≡ given (option_map tree result) }
{
    match value {
        Some(time) => Some(Bson::Timestamp(time)),
        None => None,
    }
}

fn print_size(value: Option<u32>) -> Result<Option<Bson>, Error>
    ensures ok { IfOk result (λ v. size value ≡ given (option_map tree v)) }
    ensures err { IfErr result (λ e. FailsBy (unfit_of (size value)) e) }
{
    match value {
        Some(n) => match i32::try_from(n) {
            Ok(n) => Ok(Some(Bson::Int32(n))),
            Err(_) => Err(refused(BadArgument::BatchSize)),
        },
        None => Ok(None),
    }
}

fn print_cursor(alloc: Global, value: Option<u32>) -> Result<Option<Bson>, Error>
    ensures ok { IfOk result (λ v. cursor value ≡ given (option_map tree v)) }
    ensures err { IfErr result (λ e. FailsBy (unfit_of (cursor value)) e) }
{
    let Some(n) = value else {
        return Ok(None);
    };
    match i32::try_from(n) {
        Ok(n) => {
            let mut cursor = Document::new(alloc);
            cursor.append("batchSize", Bson::Int32(n))?;
            Ok(Some(Bson::Document(cursor)))
        }
        Err(_) => Err(refused(BadArgument::BatchSize)),
    }
}

fn print_count(value: Option<u64>) -> Result<Option<Bson>, Error>
    ensures ok { IfOk result (λ v. count value ≡ given (option_map tree v)) }
    ensures err { IfErr result (λ e. FailsBy (unfit_of (count value)) e) }
{
    match value {
        Some(n) => match i64::try_from(n) {
            Ok(n) => Ok(Some(Bson::Int64(n))),
            Err(_) => Err(refused(BadArgument::Number)),
        },
        None => Ok(None),
    }
}

fn print_limit(value: Option<i64>) -> Result<Option<Bson>, Error>
    ensures ok { IfOk result (λ v. limit value ≡ given (option_map tree v)) }
    ensures err { IfErr result (λ e. FailsBy (unfit_of (limit value)) e) }
{
    match value {
        Some(n) => match i64::try_from(n.unsigned_abs()) {
            Ok(n) => Ok(Some(Bson::Int64(n))),
            Err(_) => Err(refused(BadArgument::Limit)),
        },
        None => Ok(None),
    }
}

fn print_millis(value: Option<u64>) -> Result<Option<Bson>, Error>
    ensures ok { IfOk result (λ v. millis value ≡ given (option_map tree v)) }
    ensures err { IfErr result (λ e. FailsBy (unfit_of (millis value)) e) }
{
    let Some(n) = value else {
        return Ok(None);
    };
    if let Ok(n) = i32::try_from(n) {
        return Ok(Some(Bson::Int32(n)));
    }
    match i64::try_from(n) {
        Ok(n) => Ok(Some(Bson::Int64(n))),
        Err(_) => Err(refused(BadArgument::Number)),
    }
}

fn print_document(value: &Option<Document>) -> Result<Option<Bson>, Error>
    ensures ok { IfOk result (λ v. inner value.now ≡ given (option_map tree v)) }
    ensures err { IfErr result (λ e. e ≡ plain kinds.OutOfMemory) }
{
    match value {
        Some(document) => Ok(Some(Bson::Document(document.clone()?))),
        None => Ok(None),
    }
}

fn print_any(any: &Option<Bson>) -> Result<Option<Bson>, Error>
    ensures ok { IfOk result (λ v. value any.now ≡ given (option_map tree v)) }
    ensures err { IfErr result (λ e. e ≡ plain kinds.OutOfMemory) }
{
    match any {
        Some(value) => Ok(Some(value.clone()?)),
        None => Ok(None),
    }
}

fn print_token(value: &Option<ResumeToken>) -> Result<Option<Bson>, Error>
    ensures ok { IfOk result (λ v. given value.now ≡ given (option_map tree v)) }
    ensures err { IfErr result (λ e. e ≡ plain kinds.OutOfMemory) }
{
    match value {
        Some(token) => Ok(Some(token.to_value()?)),
        None => Ok(None),
    }
}

fn print_hint(value: &Option<Hint>) -> Result<Option<Bson>, Error>
    ensures ok { IfOk result (λ v. hint value.now ≡ given (option_map tree v)) }
    ensures err { IfErr result (λ e. e ≡ plain kinds.OutOfMemory) }
{
    match value {
        Some(Hint::Keys(keys)) => Ok(Some(Bson::Document(keys.clone()?))),
        Some(Hint::Name(name)) => Ok(Some(Bson::String(name.clone()?))),
        None => Ok(None),
    }
}

// How many servers.
fn print_nodes(n: u32) -> Result<Option<Bson>, Error>
    ensures ok { IfOk result (λ v. members_of (so_many n) ≡ given (option_map tree v)) }
    ensures err { IfErr result (λ e. FailsBy (unfit_of (members_of (so_many n))) e) }
{
    match i32::try_from(n) {
        Ok(n) => Ok(Some(Bson::Int32(n))),
        Err(_) => Err(refused(BadArgument::Number)),
    }
}

fn print_quorum(alloc: Global, value: &Option<CommitQuorum>) -> Result<Option<Bson>, Error>
    ensures ok { IfOk result (λ v. quorum value.now ≡ given (option_map tree v)) }
    ensures err { IfErr result (λ e. FailsBy (unfit_of (quorum value.now)) e) }
{
    match value {
        Some(CommitQuorum::Nodes(n)) => print_nodes(*n),
        Some(CommitQuorum::VotingMembers) => Ok(text(alloc, "votingMembers")?),
        Some(CommitQuorum::Majority) => Ok(text(alloc, "majority")?),
        Some(CommitQuorum::Custom(word)) => Ok(text(alloc, word.as_str())?),
        None => Ok(None),
    }
}

fn print_acknowledgment(
    alloc: Global,
    value: &Option<Acknowledgment>,
) -> Result<Option<Bson>, Error>
    ensures ok { IfOk result (λ v. members (option_map acknowledged value.now) ≡ given (option_map tree v)) }
    ensures err { IfErr result (λ e. FailsBy (unfit_of (members (option_map acknowledged value.now))) e) }
{
    match value {
        Some(Acknowledgment::Nodes(n)) => print_nodes(*n),
        Some(Acknowledgment::Majority) => Ok(text(alloc, "majority")?),
        Some(Acknowledgment::Custom(word)) => Ok(text(alloc, word.as_str())?),
        None => Ok(None),
    }
}

fn print_full_document(
    alloc: Global,
    value: &Option<FullDocumentType>,
) -> Result<Option<Bson>, Error>
    ensures ok { IfOk result (λ v. full_document value.now ≡ given (option_map tree v)) }
    ensures err { IfErr result (λ e. e ≡ plain kinds.OutOfMemory) }
{
    match value {
        Some(word) => text(alloc, word.as_word()),
        None => Ok(None),
    }
}

fn print_full_document_before(
    alloc: Global,
    value: &Option<FullDocumentBeforeChangeType>,
) -> Result<Option<Bson>, Error>
    ensures ok { IfOk result (λ v. full_document_before value.now ≡ given (option_map tree v)) }
    ensures err { IfErr result (λ e. e ≡ plain kinds.OutOfMemory) }
{
    match value {
        Some(word) => text(alloc, word.as_word()),
        None => Ok(None),
    }
}

// A document of these parts.
fn print_parts(alloc: Global, list: &[(&str, Part<'_>)]) -> Result<Option<Bson>, Error>
    ensures ok { IfOk result (λ v. nested (lines part list.now) ≡ given (option_map tree v)) }
    ensures err { IfErr result (λ e. FailsBy (unfit_of (nested (lines part list.now))) e) }
{
    let mut inside = Document::new(alloc);
    put_given(alloc, &mut inside, list)?;
    Ok(Some(Bson::Document(inside)))
}

fn print_rules(alloc: Global, rules: &Collation) -> Result<Option<Bson>, Error>
    ensures ok { IfOk result (λ v. nested (collation_lines rules.now) ≡ given (option_map tree v)) }
    ensures err { IfErr result (λ e. FailsBy (unfit_of (nested (collation_lines rules.now))) e) }
{
    let mut inside = Document::new(alloc);
    rules.append_fields(alloc, &mut inside)?;
    Ok(Some(Bson::Document(inside)))
}

fn print_collation(alloc: Global, value: &Option<Collation>) -> Result<Option<Bson>, Error>
    ensures ok { IfOk result (λ v. collation value.now ≡ given (option_map tree v)) }
    ensures err { IfErr result (λ e. FailsBy (unfit_of (collation value.now)) e) }
{
    match value {
        Some(rules) => print_rules(alloc, rules),
        None => Ok(None),
    }
}

fn print_read_concern(alloc: Global, value: &Option<ReadConcern>) -> Result<Option<Bson>, Error>
    ensures ok { IfOk result (λ v. read_concern value.now ≡ given (option_map tree v)) }
    ensures err { IfErr result (λ e. FailsBy (unfit_of (read_concern value.now)) e) }
{
    match value {
        Some(concern) => print_parts(alloc, &[("level", Part::Level(&concern.level))]),
        None => Ok(None),
    }
}

fn print_write_concern(alloc: Global, value: &Option<WriteConcern>) -> Result<Option<Bson>, Error>
    ensures ok { IfOk result (λ v. write_concern value.now ≡ given (option_map tree v)) }
    ensures err { IfErr result (λ e. FailsBy (unfit_of (write_concern value.now)) e) }
{
    let Some(concern) = value else {
        return Ok(None);
    };
    print_parts(
        alloc,
        &[
            ("w", Part::Acknowledgment(&concern.w)),
            ("j", Part::Flag(concern.journal)),
            ("wtimeout", Part::Millis(concern.w_timeout)),
        ],
    )
}

// The mode of a read that may ask others than the primary.
fn print_mode(alloc: Global, mode: ReadPreference) -> Result<Option<Bson>, Error>
    ensures ok { IfOk result (λ v. shown (document ("mode" ⇒ word_value (preference_word mode) ⨾ empty)) ≡ given (option_map tree v)) }
    ensures err { IfErr result (λ e. e ≡ plain kinds.OutOfMemory) }
{
    let word = String::from_str(alloc, mode.as_word())?;
    let mut inside = Document::new(alloc);
    inside.append("mode", Bson::String(word))?;
    Ok(Some(Bson::Document(inside)))
}

fn print_selection(alloc: Global, value: Option<SelectionCriteria>) -> Result<Option<Bson>, Error>
    ensures ok { IfOk result (λ v. selection value ≡ given (option_map tree v)) }
    ensures err { IfErr result (λ e. e ≡ plain kinds.OutOfMemory) }
{
    match value {
        Some(SelectionCriteria::ReadPreference(ReadPreference::Primary)) => Ok(None),
        Some(SelectionCriteria::ReadPreference(ReadPreference::PrimaryPreferred)) => {
            print_mode(alloc, ReadPreference::PrimaryPreferred)
        }
        Some(SelectionCriteria::ReadPreference(ReadPreference::Secondary)) => {
            print_mode(alloc, ReadPreference::Secondary)
        }
        Some(SelectionCriteria::ReadPreference(ReadPreference::SecondaryPreferred)) => {
            print_mode(alloc, ReadPreference::SecondaryPreferred)
        }
        Some(SelectionCriteria::ReadPreference(ReadPreference::Nearest)) => {
            print_mode(alloc, ReadPreference::Nearest)
        }
        None => Ok(None),
    }
}

fn print_strength(value: Option<CollationStrength>) -> Option<Bson>
    ensures { strength value ≡ given (option_map tree result) }
{
    match value {
        Some(CollationStrength::Primary) => Some(Bson::Int32(1)),
        Some(CollationStrength::Secondary) => Some(Bson::Int32(2)),
        Some(CollationStrength::Tertiary) => Some(Bson::Int32(3)),
        Some(CollationStrength::Quaternary) => Some(Bson::Int32(4)),
        Some(CollationStrength::Identical) => Some(Bson::Int32(5)),
        None => None,
    }
}

fn print_case_first(alloc: Global, value: Option<CollationCaseFirst>) -> Result<Option<Bson>, Error>
    ensures ok { IfOk result (λ v. word (option_map case_first_word value) ≡ given (option_map tree v)) }
    ensures err { IfErr result (λ e. e ≡ plain kinds.OutOfMemory) }
{
    match value {
        Some(word) => text(alloc, word.as_str()),
        None => Ok(None),
    }
}

fn print_alternate(alloc: Global, value: Option<CollationAlternate>) -> Result<Option<Bson>, Error>
    ensures ok { IfOk result (λ v. word (option_map alternate_word value) ≡ given (option_map tree v)) }
    ensures err { IfErr result (λ e. e ≡ plain kinds.OutOfMemory) }
{
    match value {
        Some(word) => text(alloc, word.as_str()),
        None => Ok(None),
    }
}

fn print_max_variable(
    alloc: Global,
    value: Option<CollationMaxVariable>,
) -> Result<Option<Bson>, Error>
    ensures ok { IfOk result (λ v. word (option_map max_variable_word value) ≡ given (option_map tree v)) }
    ensures err { IfErr result (λ e. e ≡ plain kinds.OutOfMemory) }
{
    match value {
        Some(word) => text(alloc, word.as_str()),
        None => Ok(None),
    }
}

impl Print for Part<'_> {
    ghost use Rattle.mg_options.specs.Values.{part};

    ghost shown = { part };

    fn print(&self, alloc: Global) -> Result<Option<Bson>, Error> {
        match self {
            Part::Text(word) => Ok(text(alloc, word.as_str())?),
            Part::Flag(flag) => Ok(print_flag(*flag)),
            Part::Strength(strength) => Ok(print_strength(*strength)),
            Part::CaseFirst(word) => Ok(print_case_first(alloc, *word)?),
            Part::Alternate(word) => Ok(print_alternate(alloc, *word)?),
            Part::MaxVariable(word) => Ok(print_max_variable(alloc, *word)?),
            Part::Level(level) => Ok(text(alloc, level.as_word())?),
            Part::Acknowledgment(w) => print_acknowledgment(alloc, w),
            Part::Millis(n) => print_millis(*n),
        }
    }
}

impl Print for Value<'_> {
    ghost use Rattle.mg_options.specs.Values.{value_shown};

    ghost shown = { value_shown };

    fn print(&self, alloc: Global) -> Result<Option<Bson>, Error> {
        match self {
            Value::Flag(flag) => Ok(print_flag(*flag)),
            Value::Size(n) => print_size(*n),
            Value::Cursor(n) => print_cursor(alloc, *n),
            Value::Count(n) => print_count(*n),
            Value::Limit(n) => print_limit(*n),
            Value::Millis(n) => print_millis(*n),
            Value::Time(time) => Ok(print_time(*time)),
            Value::Document(document) => Ok(print_document(document)?),
            Value::Any(value) => Ok(print_any(value)?),
            Value::Token(token) => Ok(print_token(token)?),
            Value::Hint(hint) => Ok(print_hint(hint)?),
            Value::Quorum(quorum) => print_quorum(alloc, quorum),
            Value::FullDocument(word) => Ok(print_full_document(alloc, word)?),
            Value::FullDocumentBefore(word) => Ok(print_full_document_before(alloc, word)?),
            Value::Collation(collation) => print_collation(alloc, collation),
            Value::ReadConcern(concern) => print_read_concern(alloc, concern),
            Value::WriteConcern(concern) => print_write_concern(alloc, concern),
            Value::Selection(criteria) => Ok(print_selection(alloc, *criteria)?),
        }
    }
}
