//! Lists of collections.
ghost use Rattle.std.specs.Prelude.{◌≡◌, IfOk, map};
ghost use Rattle.std.specs.BTreeMap.{keys};
ghost use Rattle.std.specs.List.Sorted.{IsStrictlySortedBy};
ghost use Rattle.mg_bson.specs.Raw.{fields};
ghost use Rattle.mg_link.specs.Namespace.{space};
ghost use Rattle.mg_server.specs.Query.{of_database};
ghost use Rattle.mg_server.specs.Rules.{query_space};
ghost use Rattle.mg_server.specs.State.{space_cmp};
ghost use Rattle.mg_query.specs.Listing.{name_listed, names_listed};

use crate::collection::Collection;
use crate::copies::encoded;
use crate::reply::with_text;
use mg_bson::{Document, RawDocumentBuf};
use mg_link::{Namespace, OutOfMemory};
use std::alloc::Global;
use std::collections::BTreeMap;

/// What a list says of a collection.
fn listed(alloc: Global, ns: &Namespace) -> Result<Document, OutOfMemory>
    ensures { IfOk result (λ d. d ≡ name_listed (space ns.now)) }
{
    let listed = with_text(alloc, Document::new(alloc), "name", ns.coll.as_str())?;
    with_text(alloc, listed, "type", "collection")
}

/// What a list says of the collections of a database, in the order of their names.
pub fn collections_listed(
    alloc: Global,
    collections: &BTreeMap<Namespace, Collection>,
    db: &str,
) -> Result<Vec<RawDocumentBuf>, OutOfMemory>
    ensures these { IfOk result (λ ds. map fields ds.items ≡ names_listed db.now (map space (keys collections.now))) }
    ensures ordered { IfOk result (λ ds. IsStrictlySortedBy space_cmp (map space (keys collections.now))) }
{
    let mut documents = Vec::new(alloc);
    for ns in collections.keys() {
        if db == ns.db.as_str() {
            documents.push(encoded(alloc, &listed(alloc, ns)?)?)?;
        }
    }
    Ok(documents)
}

/// The namespace that the cursor of a list of collections has.
pub fn listing_namespace(alloc: Global, db: &str) -> Result<Namespace, OutOfMemory>
    ensures { IfOk result (λ n. space n ≡ query_space (of_database db.now)) }
{
    let db = String::from_str(alloc, db)?;
    let coll = String::from_str(alloc, "$cmd.listCollections")?;
    Ok(Namespace { db, coll })
}
