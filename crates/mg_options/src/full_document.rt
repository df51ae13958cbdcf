//! Which documents the events of a change stream hold in full.
ghost use Rattle.std.specs.Prelude.{◌≡◌, IfOk, IfErr};
ghost use Rattle.mg_link.specs.Errors.{plain};
ghost use Rattle.mg_link.specs.Words.{IsKept, text};
ghost use Rattle.mg_link.specs.declared.error.ErrorKind.TheVariants as kinds;
ghost use Rattle.mg_options.specs.Tables.{full_document_before_word, full_document_word, full_documents, full_documents_before};

use mg_link::Error;
use std::alloc::{AllocError, Global};

/// Whether the event of an update holds the document behind it (change streams specification, `fullDocument`).
#[derive(PartialEq, Eq, Drop)]
pub enum FullDocumentType {
    /// As it is found when the event is handed out.
    UpdateLookup,
    /// As it was behind the update, where the server kept it.
    WhenAvailable,
    /// As it was behind the update; without it the event is an error.
    Required,
    /// A word that this list does not have.
    Other(String),
}

/// Whether an event holds the document before its change (change streams specification, `fullDocumentBeforeChange`).
#[derive(PartialEq, Eq, Drop)]
pub enum FullDocumentBeforeChangeType {
    /// Where the server kept it.
    WhenAvailable,
    /// Always; without it the event is an error.
    Required,
    /// Never.
    Off,
    /// A word that this list does not have.
    Other(String),
}

impl FullDocumentType {
    /// The value of this word; a word that the list does not have is kept. Only memory can fail.
    pub fn from_word(alloc: Global, word: &str) -> Result<FullDocumentType, Error>
        ensures ok { IfOk result (IsKept full_document_word full_documents word.now) }
        ensures err { IfErr result (λ e. e ≡ plain kinds.OutOfMemory) }
    {
        Ok(match word {
            "updateLookup" => FullDocumentType::UpdateLookup,
            "whenAvailable" => FullDocumentType::WhenAvailable,
            "required" => FullDocumentType::Required,
            _ => FullDocumentType::Other(String::from_str(alloc, word)?),
        })
    }

    /// Its word.
    pub fn as_word(&self) -> &str
        ensures { result.now ≡ text (full_document_word self.now) }
    {
        match self {
            FullDocumentType::UpdateLookup => "updateLookup",
            FullDocumentType::WhenAvailable => "whenAvailable",
            FullDocumentType::Required => "required",
            FullDocumentType::Other(word) => word.as_str(),
        }
    }
}

impl FullDocumentBeforeChangeType {
    /// The value of this word; a word that the list does not have is kept. Only memory can fail.
    pub fn from_word(alloc: Global, word: &str) -> Result<FullDocumentBeforeChangeType, Error>
        ensures ok { IfOk result (IsKept full_document_before_word full_documents_before word.now) }
        ensures err { IfErr result (λ e. e ≡ plain kinds.OutOfMemory) }
    {
        Ok(match word {
            "whenAvailable" => FullDocumentBeforeChangeType::WhenAvailable,
            "required" => FullDocumentBeforeChangeType::Required,
            "off" => FullDocumentBeforeChangeType::Off,
            _ => FullDocumentBeforeChangeType::Other(String::from_str(alloc, word)?),
        })
    }

    /// Its word.
    pub fn as_word(&self) -> &str
        ensures { result.now ≡ text (full_document_before_word self.now) }
    {
        match self {
            FullDocumentBeforeChangeType::WhenAvailable => "whenAvailable",
            FullDocumentBeforeChangeType::Required => "required",
            FullDocumentBeforeChangeType::Off => "off",
            FullDocumentBeforeChangeType::Other(word) => word.as_str(),
        }
    }
}

impl Clone for FullDocumentType {
    ghost is_clone = { λ a b. full_document_word b ≡ full_document_word a };

    fn clone(&self) -> Result<FullDocumentType, AllocError> {
        Ok(match self {
            FullDocumentType::UpdateLookup => FullDocumentType::UpdateLookup,
            FullDocumentType::WhenAvailable => FullDocumentType::WhenAvailable,
            FullDocumentType::Required => FullDocumentType::Required,
            FullDocumentType::Other(word) => FullDocumentType::Other(word.clone()?),
        })
    }
}

impl Clone for FullDocumentBeforeChangeType {
    ghost is_clone = { λ a b. full_document_before_word b ≡ full_document_before_word a };

    fn clone(&self) -> Result<FullDocumentBeforeChangeType, AllocError> {
        Ok(match self {
            FullDocumentBeforeChangeType::WhenAvailable => {
                FullDocumentBeforeChangeType::WhenAvailable
            }
            FullDocumentBeforeChangeType::Required => FullDocumentBeforeChangeType::Required,
            FullDocumentBeforeChangeType::Off => FullDocumentBeforeChangeType::Off,
            FullDocumentBeforeChangeType::Other(word) => {
                FullDocumentBeforeChangeType::Other(word.clone()?)
            }
        })
    }
}
