//! The values of records.
ghost use Rattle.std.specs.Prelude.{Option, map, option_map};
ghost use Rattle.mg_bson.specs.Raw.{fields, items};
ghost use Rattle.mg_bson.specs.RawView.{value as raw_value};
ghost use Rattle.mg_bson.specs.Tree.{Tree};
ghost use Rattle.mg_records.specs.Readings.{Gives, each_by, needed, optional};

use crate::event_words::{ChangeNamespaceType, OperationType};
use crate::fault::Fault;
use mg_bson::{Bson, DateTime, Document, RawArray, RawDocument, RawValue, Timestamp, to_document};
use mg_options::ResumeToken;
use std::alloc::Global;

/// What a value of a record may be read as.
pub(crate) trait ReadValue: Sized {
    /// What it is in a contract.
    ghost Seen: { Type 0 };

    /// What this one is there.
    ghost seen: { Self → Seen };

    /// What a value is read as, unless it is of another kind.
    ghost reads: { Tree → Option Seen };

    /// Reads a value.
    fn read_value(alloc: Global, value: &RawValue<'_>) -> Result<Self, Fault>
        ensures { Gives seen result (reads (raw_value value.now)) };
}

// The value of a name, which has to stand there.
pub(crate) fn needed<T: ReadValue>(
    alloc: Global,
    raw: &RawDocument<'_>,
    name: &str,
) -> Result<T, Fault>
    ensures { Gives T.seen result (needed T.reads name.now (fields raw.now)) }
{
    match raw.get(name) {
        Some(found) => T::read_value(alloc, &found),
        None => Err(Fault::Broken),
    }
}

// The value of a name, where it is given: a null counts as absent.
pub(crate) fn optional<T: ReadValue>(
    alloc: Global,
    raw: &RawDocument<'_>,
    name: &str,
) -> Result<Option<T>, Fault>
    ensures { Gives (option_map T.seen) result (optional T.reads name.now (fields raw.now)) }
{
    match raw.get(name) {
        Some(found) => {
            if found.is_null() {
                Ok(None)
            } else {
                Ok(Some(T::read_value(alloc, &found)?))
            }
        }
        None => Ok(None),
    }
}

impl ReadValue for String {
    ghost use Rattle.std.specs.Prelude.{List, ℕ, string_bytes};
    ghost use Rattle.mg_bson.specs.Find.{as_string};

    ghost Seen = { List ℕ };

    ghost seen = { string_bytes };

    ghost reads = { as_string };

    fn read_value(alloc: Global, value: &RawValue<'_>) -> Result<String, Fault> {
        match value.as_str() {
            Some(text) => Ok(String::from_str(alloc, text)?),
            None => Err(Fault::Broken),
        }
    }
}

impl ReadValue for Document {
    ghost use Rattle.mg_bson.specs.Tree.{Fields};
    ghost use Rattle.mg_bson.specs.Find.{as_document};

    ghost Seen = { Fields };

    ghost seen = { λ d. d };

    ghost reads = { as_document };

    fn read_value(alloc: Global, value: &RawValue<'_>) -> Result<Document, Fault> {
        match value.as_document() {
            Some(inner) => match to_document(alloc, inner) {
                Ok(document) => Ok(document),
                Err(_) => Err(Fault::Memory),
            },
            None => Err(Fault::Broken),
        }
    }
}

impl ReadValue for Bson {
    ghost use Rattle.mg_bson.specs.View.{tree};
    ghost use Rattle.mg_records.specs.Readings.{any_value};

    ghost Seen = { Tree };

    ghost seen = { tree };

    ghost reads = { any_value };

    fn read_value(alloc: Global, value: &RawValue<'_>) -> Result<Bson, Fault> {
        match value.to_value(alloc) {
            Ok(value) => Ok(value),
            Err(_) => Err(Fault::Memory),
        }
    }
}

impl ReadValue for DateTime {
    ghost use Rattle.std.specs.Prelude.{ℤ};
    ghost use Rattle.mg_bson.specs.Find.{as_date_time};

    ghost Seen = { ℤ };

    ghost seen = { λ t. t.millis };

    ghost reads = { as_date_time };

    fn read_value(_alloc: Global, value: &RawValue<'_>) -> Result<DateTime, Fault> {
        value.as_date_time().ok_or(Fault::Broken)
    }
}

impl ReadValue for u64 {
    ghost use Rattle.std.specs.Prelude.{ℕ};
    ghost use Rattle.mg_link.specs.Numbers.{count_of};

    ghost Seen = { ℕ };

    ghost seen = { λ n. n };

    ghost reads = { count_of };

    fn read_value(_alloc: Global, value: &RawValue<'_>) -> Result<u64, Fault> {
        let n = match value {
            RawValue::Int32(n) => i64::from(*n),
            RawValue::Int64(n) => *n,
            _ => return Err(Fault::Broken),
        };
        match u64::try_from(n) {
            Ok(n) => Ok(n),
            Err(_) => Err(Fault::Broken),
        }
    }
}

impl ReadValue for u32 {
    ghost use Rattle.std.specs.Prelude.{ℕ};
    ghost use Rattle.mg_records.specs.FileRecords.{small_count};

    ghost Seen = { ℕ };

    ghost seen = { λ n. n };

    ghost reads = { small_count };

    fn read_value(_alloc: Global, value: &RawValue<'_>) -> Result<u32, Fault> {
        match value {
            RawValue::Int32(n) => match u32::try_from(*n) {
                Ok(n) => Ok(n),
                Err(_) => Err(Fault::Broken),
            },
            _ => Err(Fault::Broken),
        }
    }
}

impl ReadValue for i32 {
    ghost use Rattle.std.specs.Prelude.{ℤ};
    ghost use Rattle.mg_bson.specs.Find.{as_int32};

    ghost Seen = { ℤ };

    ghost seen = { λ n. n };

    ghost reads = { as_int32 };

    fn read_value(_alloc: Global, value: &RawValue<'_>) -> Result<i32, Fault> {
        value.as_i32().ok_or(Fault::Broken)
    }
}

impl ReadValue for i64 {
    ghost use Rattle.std.specs.Prelude.{ℤ};
    ghost use Rattle.mg_bson.specs.Find.{as_int64};

    ghost Seen = { ℤ };

    ghost seen = { λ n. n };

    ghost reads = { as_int64 };

    fn read_value(_alloc: Global, value: &RawValue<'_>) -> Result<i64, Fault> {
        value.as_i64().ok_or(Fault::Broken)
    }
}

impl ReadValue for Timestamp {
    ghost use Rattle.std.specs.Prelude.{ℕ};
    ghost use Rattle.mg_bson.specs.Find.{as_timestamp};

    ghost Seen = { ℕ × ℕ };

    ghost seen = { λ t. (t.time, t.increment) };

    ghost reads = { as_timestamp };

    fn read_value(_alloc: Global, value: &RawValue<'_>) -> Result<Timestamp, Fault> {
        value.as_timestamp().ok_or(Fault::Broken)
    }
}

impl ReadValue for ResumeToken {
    ghost use Rattle.mg_records.specs.Readings.{not_null};

    ghost Seen = { Tree };

    ghost seen = { λ t. t };

    ghost reads = { not_null };

    fn read_value(alloc: Global, value: &RawValue<'_>) -> Result<ResumeToken, Fault> {
        if value.is_null() {
            return Err(Fault::Broken);
        }
        match ResumeToken::from_raw(alloc, value) {
            Ok(token) => Ok(token),
            Err(_) => Err(Fault::Memory),
        }
    }
}

impl ReadValue for OperationType {
    ghost use Rattle.mg_link.specs.Words.{Word};
    ghost use Rattle.mg_records.specs.ChangeEvents.{word_by};
    ghost use Rattle.mg_records.specs.EventWords.{operation_word, operations};

    ghost Seen = { Word };

    ghost seen = { operation_word };

    ghost reads = { word_by operation_word operations };

    fn read_value(alloc: Global, value: &RawValue<'_>) -> Result<OperationType, Fault> {
        match value.as_str() {
            Some(word) => match OperationType::from_word(alloc, word) {
                Ok(kind) => Ok(kind),
                Err(_) => Err(Fault::Memory),
            },
            None => Err(Fault::Broken),
        }
    }
}

impl ReadValue for ChangeNamespaceType {
    ghost use Rattle.mg_link.specs.Words.{Word};
    ghost use Rattle.mg_records.specs.ChangeEvents.{word_by};
    ghost use Rattle.mg_records.specs.EventWords.{namespace_type_word, namespace_types};

    ghost Seen = { Word };

    ghost seen = { namespace_type_word };

    ghost reads = { word_by namespace_type_word namespace_types };

    fn read_value(alloc: Global, value: &RawValue<'_>) -> Result<ChangeNamespaceType, Fault> {
        match value.as_str() {
            Some(word) => match ChangeNamespaceType::from_word(alloc, word) {
                Ok(kind) => Ok(kind),
                Err(_) => Err(Fault::Memory),
            },
            None => Err(Fault::Broken),
        }
    }
}

fn each_of<T: ReadValue + Drop>(alloc: Global, list: &RawArray<'_>) -> Result<Vec<T>, Fault>
    ensures { Gives (λ v. map T.seen v.items) result (each_by T.reads (items list.now)) }
{
    let mut values = Vec::new(alloc);
    let mut left = list.iter();
    'values: while let Some(value) = left.next() {
        values.push(T::read_value(alloc, &value)?)?;
    }
    Ok(values)
}

impl<T: ReadValue + Drop> ReadValue for Vec<T> {
    ghost use Rattle.std.specs.Prelude.{List, map};
    ghost use Rattle.mg_records.specs.Readings.{list_by};

    ghost Seen = { List T.Seen };

    ghost seen = { λ v. map T.seen v.items };

    ghost reads = { list_by T.reads };

    fn read_value(alloc: Global, value: &RawValue<'_>) -> Result<Vec<T>, Fault> {
        match value.as_array() {
            Some(list) => each_of(alloc, &list),
            None => Err(Fault::Broken),
        }
    }
}
