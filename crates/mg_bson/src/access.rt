//! Values of a document, by name and kind.
ghost use Rattle.std.specs.Prelude.{◌≡◌, MatchResult, None, Some};
ghost use Rattle.std.specs.Result.{result_map_both};
ghost use Rattle.mg_bson.specs.Access.{get_as, has_null};
ghost use Rattle.mg_bson.specs.declared.access.ValueAccessError.TheVariants.{NotPresent};
ghost use Rattle.mg_bson.specs.View.{tree};
ghost use Rattle.mg_bson.specs.Find.{get, as_double, as_string, as_document, as_array, as_binary, as_object_id, as_boolean, as_date_time, as_int32, as_timestamp, as_int64, as_decimal128};

use crate::object_id::ObjectId;
use crate::tree::{Array, Binary, Bson, DateTime, Document, Timestamp};
use thiserror::Error;

/// Why a document has no value of a name and a kind. Its text is the name of the variant.
///
///     match document.get_i32("n") {
///         Ok(n) => ..,
///         Err(ValueAccessError::NotPresent) => ..,
///         Err(ValueAccessError::UnexpectedType) => ..,
///     }
#[derive(Clone, Copy, Debug, PartialEq, Eq, Error)]
pub enum ValueAccessError {
    /// The name does not stand in the document.
    #[error("NotPresent")]
    NotPresent,
    /// The first value of the name is of another kind.
    #[error("UnexpectedType")]
    UnexpectedType,
}

/// The first value of a name, read as one kind. Each takes no memory, and copies no text.
///
///     let mut reply = Document::new(alloc);
///     reply.append("ok", Bson::from(1))?;
///     reply.get_i32("ok");  // Ok(1)
///     reply.get_str("ok");  // Err(UnexpectedType)
///     reply.get_i32("n");   // Err(NotPresent)
impl Document {
    // The first value of the name, of any kind.
    fn present(&self, name: &str) -> Result<&Bson, ValueAccessError>
        ensures { MatchResult result (λ v. get name.now self.now ≡ Some (tree v.now)) (λ e. (e ≡ NotPresent) × (get name.now self.now ≡ None)) }
    {
        self.get(name).ok_or(ValueAccessError::NotPresent)
    }

    /// The eight bytes of a floating point number, the lowest first.
    pub fn get_double(&self, name: &str) -> Result<[u8; 8], ValueAccessError>
        ensures { result ≡ get_as as_double name.now self.now }
    {
        let value = self.present(name)?;
        value.as_double().ok_or(ValueAccessError::UnexpectedType)
    }

    /// The text of a string.
    pub fn get_str(&self, name: &str) -> Result<&str, ValueAccessError>
        ensures { result_map_both (λ v. v.now) (λ e. e) result ≡ get_as as_string name.now self.now }
    {
        let value = self.present(name)?;
        value.as_str().ok_or(ValueAccessError::UnexpectedType)
    }

    /// The document inside.
    pub fn get_document(&self, name: &str) -> Result<&Document, ValueAccessError>
        ensures { result_map_both (λ v. v.now) (λ e. e) result ≡ get_as as_document name.now self.now }
    {
        let value = self.present(name)?;
        value.as_document().ok_or(ValueAccessError::UnexpectedType)
    }

    /// The list of values.
    pub fn get_array(&self, name: &str) -> Result<&Array, ValueAccessError>
        ensures { result_map_both (λ v. v.now) (λ e. e) result ≡ get_as as_array name.now self.now }
    {
        let value = self.present(name)?;
        value.as_array().ok_or(ValueAccessError::UnexpectedType)
    }

    /// The bytes and their subtype.
    pub fn get_binary(&self, name: &str) -> Result<&Binary, ValueAccessError>
        ensures { result_map_both (λ b. (b.now.subtype, b.now.bytes.items)) (λ e. e) result ≡ get_as as_binary name.now self.now }
    {
        let value = self.present(name)?;
        value.as_binary().ok_or(ValueAccessError::UnexpectedType)
    }

    /// The id.
    pub fn get_object_id(&self, name: &str) -> Result<ObjectId, ValueAccessError>
        ensures { result_map_both (λ id. id.0) (λ e. e) result ≡ get_as as_object_id name.now self.now }
    {
        let value = self.present(name)?;
        value.as_object_id().ok_or(ValueAccessError::UnexpectedType)
    }

    /// The truth value.
    pub fn get_bool(&self, name: &str) -> Result<bool, ValueAccessError>
        ensures { result ≡ get_as as_boolean name.now self.now }
    {
        let value = self.present(name)?;
        value.as_bool().ok_or(ValueAccessError::UnexpectedType)
    }

    /// The time in milliseconds.
    pub fn get_datetime(&self, name: &str) -> Result<DateTime, ValueAccessError>
        ensures { result_map_both (λ t. t.millis) (λ e. e) result ≡ get_as as_date_time name.now self.now }
    {
        let value = self.present(name)?;
        value.as_date_time().ok_or(ValueAccessError::UnexpectedType)
    }

    /// The number of 32 bits.
    pub fn get_i32(&self, name: &str) -> Result<i32, ValueAccessError>
        ensures { result ≡ get_as as_int32 name.now self.now }
    {
        let value = self.present(name)?;
        value.as_i32().ok_or(ValueAccessError::UnexpectedType)
    }

    /// The time of the log of operations.
    pub fn get_timestamp(&self, name: &str) -> Result<Timestamp, ValueAccessError>
        ensures { result_map_both (λ t. (t.time, t.increment)) (λ e. e) result ≡ get_as as_timestamp name.now self.now }
    {
        let value = self.present(name)?;
        value.as_timestamp().ok_or(ValueAccessError::UnexpectedType)
    }

    /// The number of 64 bits.
    pub fn get_i64(&self, name: &str) -> Result<i64, ValueAccessError>
        ensures { result ≡ get_as as_int64 name.now self.now }
    {
        let value = self.present(name)?;
        value.as_i64().ok_or(ValueAccessError::UnexpectedType)
    }

    /// The 16 bytes of a decimal floating point number, the lowest first.
    ///
    ///     let bytes = document.get_decimal128("price")?;
    pub fn get_decimal128(&self, name: &str) -> Result<[u8; 16], ValueAccessError>
        ensures { result ≡ get_as as_decimal128 name.now self.now }
    {
        let value = self.present(name)?;
        value
            .as_decimal128()
            .ok_or(ValueAccessError::UnexpectedType)
    }

    /// Whether the first value of the name is null. It is not where the name is absent.
    ///
    ///     let is_open = document.is_null("closed");
    pub fn is_null(&self, name: &str) -> bool
        ensures { result ≡ has_null name.now self.now }
    {
        match self.get(name) {
            Some(value) => value.is_null(),
            None => false,
        }
    }
}
