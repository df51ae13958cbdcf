//! How far a read or a write is to have come.
ghost use Rattle.std.specs.Prelude.{◌≡◌, IfOk, IfErr};
ghost use Rattle.mg_link.specs.Concerns.{IsAcknowledged, acknowledged, concerned, level_word, levels};
ghost use Rattle.mg_link.specs.Errors.{plain};
ghost use Rattle.mg_link.specs.Words.{IsKept, text};
ghost use Rattle.mg_link.specs.declared.error.ErrorKind.TheVariants as kinds;

use crate::error::Error;
use std::alloc::{AllocError, Global};

/// What data a read may return (drivers' specification of read and write concern, "ReadConcern").
#[derive(PartialEq, Eq, Drop)]
pub enum ReadConcernLevel {
    /// The newest data of the server that is asked.
    Local,
    /// Data that most of the servers have.
    Majority,
    /// Data that most of the servers have, with all writes that ended before the read began.
    Linearizable,
    /// The newest data of the server that is asked, without a look at its shards.
    Available,
    /// Data of one moment that most of the servers have.
    Snapshot,
    /// A word that this list does not have.
    Custom(String),
}

/// What data a read may return.
#[derive(PartialEq, Eq, Drop)]
pub struct ReadConcern {
    /// Its level.
    pub level: ReadConcernLevel,
}

/// Which servers are to have a write before it is answered (drivers' specification of read and write concern, `w`).
#[derive(PartialEq, Eq, Drop)]
pub enum Acknowledgment {
    /// So many servers. A command holds at most 2,147,483,647.
    Nodes(u32),
    /// Most of the servers.
    Majority,
    /// The servers that a setting of this name tells.
    Custom(String),
}

/// How far a write is to have come before it is answered. What is not given is left to the server.
#[derive(PartialEq, Eq, Default)]
pub struct WriteConcern {
    /// Which servers are to have it.
    pub w: Option<Acknowledgment>,
    /// How many milliseconds the server waits for them.
    pub w_timeout: Option<u64>,
    /// Whether it is to stand in their journals.
    pub journal: Option<bool>,
}

// By hand, so that letting one go is one call.
impl Drop for WriteConcern {
    fn drop(self) {
        let WriteConcern {
            w: _,
            w_timeout: _,
            journal: _,
        } = self;
    }
}

impl ReadConcernLevel {
    /// The level of the word; a word that the list does not have is kept. Only memory can fail.
    pub fn from_word(alloc: Global, word: &str) -> Result<ReadConcernLevel, Error>
        ensures ok { IfOk result (IsKept level_word levels word.now) }
        ensures err { IfErr result (λ e. e ≡ plain kinds.OutOfMemory) }
    {
        Ok(match word {
            "local" => ReadConcernLevel::Local,
            "majority" => ReadConcernLevel::Majority,
            "linearizable" => ReadConcernLevel::Linearizable,
            "available" => ReadConcernLevel::Available,
            "snapshot" => ReadConcernLevel::Snapshot,
            _ => ReadConcernLevel::Custom(String::from_str(alloc, word)?),
        })
    }

    /// Its word.
    pub fn as_word(&self) -> &str
        ensures { result.now ≡ text (level_word self.now) }
    {
        match self {
            ReadConcernLevel::Local => "local",
            ReadConcernLevel::Majority => "majority",
            ReadConcernLevel::Linearizable => "linearizable",
            ReadConcernLevel::Available => "available",
            ReadConcernLevel::Snapshot => "snapshot",
            ReadConcernLevel::Custom(word) => word.as_str(),
        }
    }
}

impl ReadConcern {
    /// The concern of the level of this word. Only memory can fail.
    pub fn from_word(alloc: Global, word: &str) -> Result<ReadConcern, Error>
        ensures ok { IfOk result (λ c. IsKept level_word levels word.now c.level) }
        ensures err { IfErr result (λ e. e ≡ plain kinds.OutOfMemory) }
    {
        let level = ReadConcernLevel::from_word(alloc, word)?;
        Ok(ReadConcern { level })
    }

    /// The word of its level.
    pub fn as_word(&self) -> &str
        ensures { result.now ≡ text (level_word self.now.level) }
    {
        self.level.as_word()
    }
}

impl Acknowledgment {
    /// `majority`, or the setting of this name. Only memory can fail.
    pub fn from_word(alloc: Global, word: &str) -> Result<Acknowledgment, Error>
        ensures ok { IfOk result (λ a. IsAcknowledged word.now a) }
        ensures err { IfErr result (λ e. e ≡ plain kinds.OutOfMemory) }
    {
        Ok(match word {
            "majority" => Acknowledgment::Majority,
            _ => Acknowledgment::Custom(String::from_str(alloc, word)?),
        })
    }
}

impl Clone for ReadConcernLevel {
    ghost is_clone = { λ l m. level_word m ≡ level_word l };

    fn clone(&self) -> Result<ReadConcernLevel, AllocError> {
        Ok(match self {
            ReadConcernLevel::Local => ReadConcernLevel::Local,
            ReadConcernLevel::Majority => ReadConcernLevel::Majority,
            ReadConcernLevel::Linearizable => ReadConcernLevel::Linearizable,
            ReadConcernLevel::Available => ReadConcernLevel::Available,
            ReadConcernLevel::Snapshot => ReadConcernLevel::Snapshot,
            ReadConcernLevel::Custom(word) => ReadConcernLevel::Custom(word.clone()?),
        })
    }
}

impl Clone for ReadConcern {
    ghost is_clone = { λ c d. level_word d.level ≡ level_word c.level };

    fn clone(&self) -> Result<ReadConcern, AllocError> {
        let level = self.level.clone()?;
        Ok(ReadConcern { level })
    }
}

impl Clone for Acknowledgment {
    ghost is_clone = { λ a b. acknowledged b ≡ acknowledged a };

    fn clone(&self) -> Result<Acknowledgment, AllocError> {
        Ok(match self {
            Acknowledgment::Nodes(n) => Acknowledgment::Nodes(*n),
            Acknowledgment::Majority => Acknowledgment::Majority,
            Acknowledgment::Custom(word) => Acknowledgment::Custom(word.clone()?),
        })
    }
}

impl Clone for WriteConcern {
    ghost is_clone = { λ c d. concerned d ≡ concerned c };

    fn clone(&self) -> Result<WriteConcern, AllocError> {
        let w = match &self.w {
            Some(w) => Some(w.clone()?),
            None => None,
        };
        Ok(WriteConcern {
            w,
            w_timeout: self.w_timeout,
            journal: self.journal,
        })
    }
}
