//! What commands are aimed at.
ghost use Rattle.std.specs.Prelude.{◌≡◌, Some, IfOk, option_map};
ghost use Rattle.mg_link.specs.Namespace.{full_name, space, space_of, target};

use crate::error::OutOfMemory;
use std::alloc::{AllocError, Global};
use std::fmt;

/// The full name of a collection: `db` is the name of its database, `coll` its own.
#[derive(Debug, PartialEq, Eq, PartialOrd, Ord, Drop)]
pub struct Namespace {
    /// The name of the database.
    pub db: String,
    /// The name of the collection.
    pub coll: String,
}

/// What an aggregate or a watch is aimed at.
#[derive(PartialEq, Eq)]
pub enum OperationTarget {
    /// A whole database.
    Database(String),
    /// One collection.
    Collection(Namespace),
    /// Every database of the server.
    Cluster,
}

// By hand, so that letting one go is one call.
impl Drop for OperationTarget {
    fn drop(self) {
        match self {
            OperationTarget::Database(_) => {}
            OperationTarget::Collection(_) => {}
            OperationTarget::Cluster => {}
        }
    }
}

impl Namespace {
    /// The namespace whose full name the text is: it is split at its first dot, and both parts are not empty.
    pub fn from_str(alloc: Global, text: &str) -> Result<Option<Namespace>, OutOfMemory>
        ensures { IfOk result (λ n. option_map space n ≡ space_of text.now) }
    {
        match text.split_once('.') {
            Some((db, coll)) if !db.is_empty() && !coll.is_empty() => {
                let db = String::from_str(alloc, db)?;
                let coll = String::from_str(alloc, coll)?;
                Ok(Some(Namespace { db, coll }))
            }
            _ => Ok(None),
        }
    }
}

impl fmt::Display for Namespace {
    ghost output = { λ n. Some (full_name (space n)) };

    fn fmt<W: fmt::Write>(&self, f: &mut fmt::Formatter<W>) -> fmt::Result {
        write!(f, "{}.{}", self.db, self.coll)
    }
}

impl Clone for Namespace {
    ghost is_clone = { λ n m. space m ≡ space n };

    fn clone(&self) -> Result<Namespace, AllocError> {
        let db = self.db.clone()?;
        let coll = self.coll.clone()?;
        Ok(Namespace { db, coll })
    }
}

impl Clone for OperationTarget {
    ghost is_clone = { λ t u. target u ≡ target t };

    fn clone(&self) -> Result<OperationTarget, AllocError> {
        match self {
            OperationTarget::Database(db) => {
                let db = db.clone()?;
                Ok(OperationTarget::Database(db))
            }
            OperationTarget::Collection(namespace) => {
                let namespace = namespace.clone()?;
                Ok(OperationTarget::Collection(namespace))
            }
            OperationTarget::Cluster => Ok(OperationTarget::Cluster),
        }
    }
}
