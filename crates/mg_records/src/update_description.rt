//! What an update changed.
ghost use Rattle.std.specs.Prelude.{◌≡◌, IfOk, map, option_map, string_bytes};
ghost use Rattle.mg_bson.specs.Raw.{fields};
ghost use Rattle.mg_records.specs.ChangeEvents.{truncated, truncated_of, update, update_of};
ghost use Rattle.mg_records.specs.Readings.{Gives};

use crate::copy::copied_document;
use crate::fault::{Fault, error_of};
use crate::read_raw::ReadRaw;
use crate::value::{ReadValue, needed, optional};
use mg_bson::{Document, RawDocument, RawValue};
use mg_link::Error;
use std::alloc::{AllocError, Global};

/// An array that an update cut short (change streams specification, `truncatedArrays`).
#[derive(PartialEq, Eq, Drop)]
pub struct TruncatedArray {
    /// The path of the array.
    pub field: String,
    /// How many items it has now.
    pub new_size: i32,
}

/// What an update changed (change streams specification, `updateDescription`).
#[derive(PartialEq, Eq)]
pub struct UpdateDescription {
    /// The fields that were set, by their paths.
    pub updated_fields: Document,
    /// The paths of the fields that were removed.
    pub removed_fields: Vec<String>,
    /// The arrays that were cut short.
    pub truncated_arrays: Option<Vec<TruncatedArray>>,
    /// The parts of those paths that can be read in more than one way.
    pub disambiguated_paths: Option<Document>,
}

// By hand, so that letting one go is one call.
impl Drop for UpdateDescription {
    fn drop(self) {
        let UpdateDescription {
            updated_fields: _,
            removed_fields: _,
            truncated_arrays: _,
            disambiguated_paths: _,
        } = self;
    }
}

fn truncated_of(alloc: Global, raw: &RawDocument<'_>) -> Result<TruncatedArray, Fault>
    ensures { Gives truncated result (truncated_of (fields raw.now)) }
{
    let new_size = needed(alloc, raw, "newSize")?;
    let field = needed(alloc, raw, "field")?;
    Ok(TruncatedArray { field, new_size })
}

fn update_of(alloc: Global, raw: &RawDocument<'_>) -> Result<UpdateDescription, Fault>
    ensures { Gives update result (update_of (fields raw.now)) }
{
    let updated_fields = needed(alloc, raw, "updatedFields")?;
    let removed_fields = needed(alloc, raw, "removedFields")?;
    let disambiguated_paths = optional(alloc, raw, "disambiguatedPaths")?;
    let truncated_arrays = optional(alloc, raw, "truncatedArrays")?;
    Ok(UpdateDescription {
        updated_fields,
        removed_fields,
        truncated_arrays,
        disambiguated_paths,
    })
}

impl ReadValue for TruncatedArray {
    ghost use Rattle.mg_records.specs.ChangeEvents.{Truncated, truncated, truncated_by};

    ghost Seen = { Truncated };

    ghost seen = { truncated };

    ghost reads = { truncated_by };

    fn read_value(alloc: Global, value: &RawValue<'_>) -> Result<TruncatedArray, Fault> {
        match value.as_document() {
            Some(inner) => truncated_of(alloc, &inner),
            None => Err(Fault::Broken),
        }
    }
}

impl ReadValue for UpdateDescription {
    ghost use Rattle.mg_records.specs.ChangeEvents.{Update, update, update_by};

    ghost Seen = { Update };

    ghost seen = { update };

    ghost reads = { update_by };

    fn read_value(alloc: Global, value: &RawValue<'_>) -> Result<UpdateDescription, Fault> {
        match value.as_document() {
            Some(inner) => update_of(alloc, &inner),
            None => Err(Fault::Broken),
        }
    }
}

impl ReadRaw for TruncatedArray {
    ghost use Rattle.mg_bson.specs.Raw.{fields};
    ghost use Rattle.mg_records.specs.ChangeEvents.{Truncated, truncated, truncated_of};
    ghost use Rattle.mg_records.specs.Readings.{recorded};

    ghost Record = { Truncated };

    ghost seen = { truncated };

    ghost stands_for = { λ bytes. recorded (truncated_of (fields bytes)) };

    fn read_raw(alloc: Global, raw: RawDocument<'_>) -> Result<TruncatedArray, Error> {
        match truncated_of(alloc, &raw) {
            Ok(found) => Ok(found),
            Err(fault) => Err(error_of(fault)),
        }
    }
}

impl ReadRaw for UpdateDescription {
    ghost use Rattle.mg_bson.specs.Raw.{fields};
    ghost use Rattle.mg_records.specs.ChangeEvents.{Update, update, update_of};
    ghost use Rattle.mg_records.specs.Readings.{recorded};

    ghost Record = { Update };

    ghost seen = { update };

    ghost stands_for = { λ bytes. recorded (update_of (fields bytes)) };

    fn read_raw(alloc: Global, raw: RawDocument<'_>) -> Result<UpdateDescription, Error> {
        match update_of(alloc, &raw) {
            Ok(found) => Ok(found),
            Err(fault) => Err(error_of(fault)),
        }
    }
}

impl Clone for TruncatedArray {
    ghost is_clone = { λ a b. truncated b ≡ truncated a };

    fn clone(&self) -> Result<TruncatedArray, AllocError> {
        let field = self.field.clone()?;
        Ok(TruncatedArray {
            field,
            new_size: self.new_size,
        })
    }
}

#[tactic(auto, using(crate::proofs::Copying::mapped_same))]
fn copied_fields(fields: &Vec<String>) -> Result<Vec<String>, AllocError>
    ensures { IfOk result (λ v. map string_bytes v.items ≡ map string_bytes fields.now.items) }
{
    fields.clone()
}

#[tactic(auto, using(crate::proofs::Copying::mapped_same))]
fn copied_arrays(arrays: &Vec<TruncatedArray>) -> Result<Vec<TruncatedArray>, AllocError>
    ensures { IfOk result (λ v. map truncated v.items ≡ map truncated arrays.now.items) }
{
    arrays.clone()
}

fn copied_where_given(
    arrays: &Option<Vec<TruncatedArray>>,
) -> Result<Option<Vec<TruncatedArray>>, AllocError>
    ensures { IfOk result (λ o. option_map (λ v. map truncated v.items) o ≡ option_map (λ v. map truncated v.items) arrays.now) }
{
    match arrays {
        Some(arrays) => Ok(Some(copied_arrays(arrays)?)),
        None => Ok(None),
    }
}

impl Clone for UpdateDescription {
    ghost is_clone = { λ a b. update b ≡ update a };

    fn clone(&self) -> Result<UpdateDescription, AllocError> {
        let updated_fields = self.updated_fields.clone()?;
        let removed_fields = copied_fields(&self.removed_fields)?;
        let disambiguated_paths = copied_document(&self.disambiguated_paths)?;
        let truncated_arrays = copied_where_given(&self.truncated_arrays)?;
        Ok(UpdateDescription {
            updated_fields,
            removed_fields,
            truncated_arrays,
            disambiguated_paths,
        })
    }
}
