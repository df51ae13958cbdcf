//! What lists of collections and of indexes hold.
ghost use Rattle.std.specs.Prelude.{◌≡◌};
ghost use Rattle.mg_bson.specs.Raw.{fields};
ghost use Rattle.mg_records.specs.Readings.{Gives};
ghost use Rattle.mg_records.specs.Specifications.{collection, collection_of, index, index_of};

use crate::copy::copied_text;
use crate::fault::{Fault, error_of};
use crate::read_raw::ReadRaw;
use crate::value::{needed, optional};
use mg_bson::{Document, RawDocument};
use mg_link::Error;
use std::alloc::{AllocError, Global};

/// A collection of a database (enumerating collections specification).
#[derive(Debug, PartialEq, Eq, Drop)]
pub struct CollectionSpecification {
    /// Its name.
    pub name: String,
    /// What kind of collection it is, as `collection` or `view`.
    pub collection_type: String,
}

/// An index of a collection (index management specification).
#[derive(Debug, PartialEq, Eq)]
pub struct IndexModel {
    /// The fields that it is over.
    pub keys: Document,
    /// Its name.
    pub name: Option<String>,
}

// By hand, so that letting one go is one call.
impl Drop for IndexModel {
    fn drop(self) {
        let IndexModel { keys: _, name: _ } = self;
    }
}

fn collection_of(alloc: Global, raw: &RawDocument<'_>) -> Result<CollectionSpecification, Fault>
    ensures { Gives collection result (collection_of (fields raw.now)) }
{
    let name = needed(alloc, raw, "name")?;
    let collection_type = needed(alloc, raw, "type")?;
    Ok(CollectionSpecification {
        name,
        collection_type,
    })
}

fn index_of(alloc: Global, raw: &RawDocument<'_>) -> Result<IndexModel, Fault>
    ensures { Gives index result (index_of (fields raw.now)) }
{
    let keys = needed(alloc, raw, "key")?;
    let name = optional(alloc, raw, "name")?;
    Ok(IndexModel { keys, name })
}

impl ReadRaw for CollectionSpecification {
    ghost use Rattle.mg_bson.specs.Raw.{fields};
    ghost use Rattle.mg_records.specs.Readings.{recorded};
    ghost use Rattle.mg_records.specs.Specifications.{ListedCollection, collection, collection_of};

    ghost Record = { ListedCollection };

    ghost seen = { collection };

    ghost stands_for = { λ bytes. recorded (collection_of (fields bytes)) };

    fn read_raw(alloc: Global, raw: RawDocument<'_>) -> Result<CollectionSpecification, Error> {
        match collection_of(alloc, &raw) {
            Ok(found) => Ok(found),
            Err(fault) => Err(error_of(fault)),
        }
    }
}

impl ReadRaw for IndexModel {
    ghost use Rattle.mg_bson.specs.Raw.{fields};
    ghost use Rattle.mg_records.specs.Readings.{recorded};
    ghost use Rattle.mg_records.specs.Specifications.{ListedIndex, index, index_of};

    ghost Record = { ListedIndex };

    ghost seen = { index };

    ghost stands_for = { λ bytes. recorded (index_of (fields bytes)) };

    fn read_raw(alloc: Global, raw: RawDocument<'_>) -> Result<IndexModel, Error> {
        match index_of(alloc, &raw) {
            Ok(found) => Ok(found),
            Err(fault) => Err(error_of(fault)),
        }
    }
}

impl Clone for CollectionSpecification {
    ghost is_clone = { λ a b. collection b ≡ collection a };

    fn clone(&self) -> Result<CollectionSpecification, AllocError> {
        let name = self.name.clone()?;
        let collection_type = self.collection_type.clone()?;
        Ok(CollectionSpecification {
            name,
            collection_type,
        })
    }
}

impl Clone for IndexModel {
    ghost is_clone = { λ a b. index b ≡ index a };

    fn clone(&self) -> Result<IndexModel, AllocError> {
        let keys = self.keys.clone()?;
        let name = copied_text(&self.name)?;
        Ok(IndexModel { keys, name })
    }
}
