//! An insert, over any link.
ghost use Rattle.std.specs.Prelude.{◌≡◌};

use crate::follow::POLLS;
use mg_actions::run;
use mg_bson::{Bson, Document};
use mg_link::{Error, ErrorKind, ImplicitClientSessionHandle, Link, Namespace, Step, plain};
use mg_ops::Insert;
use mg_options::InsertManyOptions;
use std::alloc::Global;

/// The insert of one document, which has this `_id` alone.
fn insert_of(alloc: Global, ns: &Namespace, id: &str) -> Result<Insert, Error> {
    let id = String::from_str(alloc, id)?;
    let mut document = Document::new(alloc);
    document.append("_id", Bson::String(id))?;
    let mut documents = Vec::new(alloc);
    documents.push(document)?;
    let ns = ns.clone()?;
    Ok(Insert {
        ns,
        documents,
        options: InsertManyOptions::builder(),
    })
}

/// Inserts a document with this `_id`, and gives how many were inserted.
pub fn insert<L: Link>(alloc: Global, link: &mut L, ns: &Namespace, id: &str) -> Result<u64, Error>
    ensures { L.wire link.new ≡ L.wire link.old }
{
    let insert = insert_of(alloc, ns, id)?;
    let mut no_session = ImplicitClientSessionHandle(None);
    match run(alloc, link, &insert, &mut no_session, POLLS) {
        Step::Pending(_) => Err(plain(ErrorKind::Io)),
        Step::Done(inserted) => Ok(inserted),
        Step::Failed(error) => Err(error),
    }
}
