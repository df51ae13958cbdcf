//! Copies of values that may be absent.
ghost use Rattle.std.specs.Prelude.{◌≡◌, IfOk, OnOk, option_map, string_bytes};
ghost use Rattle.mg_options.specs.Copies.{SameIn};

use mg_bson::Document;
use std::alloc::AllocError;
use std::mem;

pub(crate) fn copied_text(text: &Option<String>) -> Result<Option<String>, AllocError>
    ensures { IfOk result (λ t. option_map string_bytes t ≡ option_map string_bytes text.now) }
{
    match text {
        Some(text) => Ok(Some(text.clone()?)),
        None => Ok(None),
    }
}

pub(crate) fn copied_document(document: &Option<Document>) -> Result<Option<Document>, AllocError>
    ensures { IfOk result (λ d. d ≡ document.now) }
{
    match document {
        Some(document) => Ok(Some(document.clone()?)),
        None => Ok(None),
    }
}

#[tactic(auto, using(mg_options::proofs::Copying::all_same))]
fn documents_of(documents: &Vec<Document>) -> Result<Vec<Document>, AllocError>
    ensures { IfOk result (λ v. v.items ≡ documents.now.items) }
{
    documents.clone()
}

// Puts a copy of what is given into its place, or nothing where nothing is given.
pub(crate) fn copy_documents(
    given: &Option<Vec<Document>>,
    place: &mut Option<Vec<Document>>,
) -> Result<(), AllocError>
    ensures { OnOk result (SameIn (λ v. v.items) given.now place.new) }
{
    let copy = match given {
        Some(documents) => Some(documents_of(documents)?),
        None => None,
    };
    drop(mem::replace(place, copy));
    Ok(())
}
