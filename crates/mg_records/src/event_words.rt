//! The words of the events of change streams.
ghost use Rattle.std.specs.Prelude.{◌≡◌, IfOk, IfErr};
ghost use Rattle.mg_link.specs.Errors.{plain};
ghost use Rattle.mg_link.specs.Words.{IsKept, text};
ghost use Rattle.mg_link.specs.declared.error.ErrorKind.TheVariants as kinds;
ghost use Rattle.mg_records.specs.EventWords.{namespace_type_word, namespace_types, operation_word, operations};

use mg_link::Error;
use std::alloc::{AllocError, Global};

/// What happened (change streams specification, `operationType`).
#[derive(PartialEq, Eq, Drop)]
pub enum OperationType {
    /// A document was inserted.
    Insert,
    /// Fields of a document were changed.
    Update,
    /// A document was replaced.
    Replace,
    /// A document was deleted.
    Delete,
    /// A collection was dropped.
    Drop,
    /// A collection was renamed.
    Rename,
    /// A database was dropped.
    DropDatabase,
    /// The stream ended, since what it watches is no longer there.
    Invalidate,
    /// A word that this list does not have.
    Other(String),
}

/// What kind of collection was made (change streams specification, `nsType`).
#[derive(PartialEq, Eq, Drop)]
pub enum ChangeNamespaceType {
    /// A plain collection.
    Collection,
    /// A collection of measurements.
    Timeseries,
    /// A view.
    View,
    /// A word that this list does not have.
    Other(String),
}

impl OperationType {
    /// The value of this word; a word that the list does not have is kept. Only memory can fail.
    pub fn from_word(alloc: Global, word: &str) -> Result<OperationType, Error>
        ensures ok { IfOk result (IsKept operation_word operations word.now) }
        ensures err { IfErr result (λ e. e ≡ plain kinds.OutOfMemory) }
    {
        Ok(match word {
            "insert" => OperationType::Insert,
            "update" => OperationType::Update,
            "replace" => OperationType::Replace,
            "delete" => OperationType::Delete,
            "drop" => OperationType::Drop,
            "rename" => OperationType::Rename,
            "dropDatabase" => OperationType::DropDatabase,
            "invalidate" => OperationType::Invalidate,
            _ => OperationType::Other(String::from_str(alloc, word)?),
        })
    }

    /// Its word.
    pub fn as_word(&self) -> &str
        ensures { result.now ≡ text (operation_word self.now) }
    {
        match self {
            OperationType::Insert => "insert",
            OperationType::Update => "update",
            OperationType::Replace => "replace",
            OperationType::Delete => "delete",
            OperationType::Drop => "drop",
            OperationType::Rename => "rename",
            OperationType::DropDatabase => "dropDatabase",
            OperationType::Invalidate => "invalidate",
            OperationType::Other(word) => word.as_str(),
        }
    }
}

impl ChangeNamespaceType {
    /// The value of this word; a word that the list does not have is kept. Only memory can fail.
    pub fn from_word(alloc: Global, word: &str) -> Result<ChangeNamespaceType, Error>
        ensures ok { IfOk result (IsKept namespace_type_word namespace_types word.now) }
        ensures err { IfErr result (λ e. e ≡ plain kinds.OutOfMemory) }
    {
        Ok(match word {
            "Collection" => ChangeNamespaceType::Collection,
            "Timeseries" => ChangeNamespaceType::Timeseries,
            "View" => ChangeNamespaceType::View,
            _ => ChangeNamespaceType::Other(String::from_str(alloc, word)?),
        })
    }

    /// Its word.
    pub fn as_word(&self) -> &str
        ensures { result.now ≡ text (namespace_type_word self.now) }
    {
        match self {
            ChangeNamespaceType::Collection => "Collection",
            ChangeNamespaceType::Timeseries => "Timeseries",
            ChangeNamespaceType::View => "View",
            ChangeNamespaceType::Other(word) => word.as_str(),
        }
    }
}

impl Clone for OperationType {
    ghost is_clone = { λ a b. operation_word b ≡ operation_word a };

    fn clone(&self) -> Result<OperationType, AllocError> {
        Ok(match self {
            OperationType::Insert => OperationType::Insert,
            OperationType::Update => OperationType::Update,
            OperationType::Replace => OperationType::Replace,
            OperationType::Delete => OperationType::Delete,
            OperationType::Drop => OperationType::Drop,
            OperationType::Rename => OperationType::Rename,
            OperationType::DropDatabase => OperationType::DropDatabase,
            OperationType::Invalidate => OperationType::Invalidate,
            OperationType::Other(word) => OperationType::Other(word.clone()?),
        })
    }
}

impl Clone for ChangeNamespaceType {
    ghost is_clone = { λ a b. namespace_type_word b ≡ namespace_type_word a };

    fn clone(&self) -> Result<ChangeNamespaceType, AllocError> {
        Ok(match self {
            ChangeNamespaceType::Collection => ChangeNamespaceType::Collection,
            ChangeNamespaceType::Timeseries => ChangeNamespaceType::Timeseries,
            ChangeNamespaceType::View => ChangeNamespaceType::View,
            ChangeNamespaceType::Other(word) => ChangeNamespaceType::Other(word.clone()?),
        })
    }
}
