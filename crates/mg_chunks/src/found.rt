//! What a find gave.
ghost use Rattle.std.specs.Prelude.{IfErr, IfOk, option_map};
ghost use Rattle.mg_bson.specs.Raw.{fields, items};
ghost use Rattle.mg_bson.specs.RawView.{value};
ghost use Rattle.mg_bson.specs.Tree.{Items, item};
ghost use Rattle.mg_chunks.specs.Found.{IsNoDocument, HasFirst};

use crate::judging::broken;
use mg_bson::{RawArray, RawDocument, RawValue};
use mg_link::{Error, Malformed};

// The first item of a batch as a document.
fn document_of<'a>(found: &RawValue<'a>) -> Result<Option<RawDocument<'a>>, Error>
    ensures ok { IfOk result (λ o. (more : Items) → HasFirst (item (value found.now) more) (option_map fields o)) }
    ensures err { IfErr result (λ e. (more : Items) → IsNoDocument (item (value found.now) more) e) }
{
    match found.as_document() {
        Some(document) => Ok(Some(document)),
        None => Err(broken(Malformed::BadItem)),
    }
}

/// The first document of a batch, if the batch has an item. It fails where its first item is no document.
pub fn first_document<'a>(batch: &RawArray<'a>) -> Result<Option<RawDocument<'a>>, Error>
    ensures ok { IfOk result (λ o. HasFirst (items batch.now) (option_map fields o)) }
    ensures err { IfErr result (λ e. IsNoDocument (items batch.now) e) }
{
    let mut left = batch.iter();
    match left.next() {
        Some(found) => document_of(&found),
        None => Ok(None),
    }
}
