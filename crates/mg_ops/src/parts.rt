//! Parts of commands.
ghost use Rattle.std.specs.Prelude.{◌≡◌, OnOk, IfOk, IfErr, Some};
ghost use Rattle.mg_bson.specs.Tree.{string, document, int64};
ghost use Rattle.mg_bson.specs.Find.{items_joined, with_item};
ghost use Rattle.mg_bson.specs.View.{tree};
ghost use Rattle.mg_link.specs.Errors.{plain};
ghost use Rattle.mg_link.specs.declared.error.ErrorKind.TheVariants as kinds;
ghost use Rattle.mg_options.specs.Printing.{listed};
ghost use Rattle.mg_ops.specs.Commands.{size_value};
ghost use Rattle.mg_ops.specs.Failing.{HasBadSize};
ghost use Rattle.mg_ops.specs.Limits.{SizeFits};

use mg_bson::{Array, Bson, Document};
use mg_link::{BadArgument, Error, ErrorKind, plain};
use std::alloc::Global;
use std::collections::VecDeque;

pub(crate) fn text(alloc: Global, text: &str) -> Result<Bson, Error>
    ensures ok { IfOk result (λ v. tree v ≡ string text.now) }
    ensures err { IfErr result (λ e. e ≡ plain kinds.OutOfMemory) }
{
    Ok(Bson::String(String::from_str(alloc, text)?))
}

// The size of a batch.
pub(crate) fn size(n: u32) -> Result<Bson, Error>
    ensures ok { IfOk result (λ v. tree v ≡ size_value n) }
    ensures fits { OnOk result (SizeFits (Some n)) }
    ensures err { IfErr result (λ e. HasBadSize (Some n) e) }
{
    match i32::try_from(n) {
        Ok(n) => Ok(Bson::Int32(n)),
        Err(_) => Err(plain(ErrorKind::InvalidArgument(BadArgument::BatchSize))),
    }
}

fn put_document(array: &mut Array, value: &Document) -> Result<(), Error>
    ensures ok { OnOk result (array.new ≡ with_item array.old (document value.now)) }
    ensures err { IfErr result (λ e. e ≡ plain kinds.OutOfMemory) }
{
    let value = value.clone()?;
    Ok(array.push(Bson::Document(value))?)
}

// Puts copies of the documents at the end, in their order.
pub(crate) fn put_documents(array: &mut Array, documents: &[Document]) -> Result<(), Error>
    ensures ok { OnOk result (array.new ≡ items_joined array.old (listed document documents.now)) }
    ensures err { IfErr result (λ e. e ≡ plain kinds.OutOfMemory) }
{
    for value in documents {
        put_document(array, value)?;
    }
    Ok(())
}

// The documents as an array. None is copied.
pub(crate) fn documents_array(alloc: Global, documents: Vec<Document>) -> Result<Array, Error>
    ensures ok { IfOk result (λ a. a ≡ listed document documents.items) }
    ensures err { IfErr result (λ e. e ≡ plain kinds.OutOfMemory) }
{
    let mut array = Array::new(alloc);
    let mut left = VecDeque::from_vec(documents);
    'documents: while let Some(document) = left.pop_front() {
        array.push(Bson::Document(document))?;
    }
    Ok(array)
}

fn put_id(array: &mut Array, id: i64) -> Result<(), Error>
    ensures ok { OnOk result (array.new ≡ with_item array.old (int64 id)) }
    ensures err { IfErr result (λ e. e ≡ plain kinds.OutOfMemory) }
{
    Ok(array.push(Bson::Int64(id))?)
}

// Ids of cursors, in their order.
pub(crate) fn ids(alloc: Global, ids: &[i64]) -> Result<Array, Error>
    ensures ok { IfOk result (λ a. a ≡ listed int64 ids.now) }
    ensures err { IfErr result (λ e. e ≡ plain kinds.OutOfMemory) }
{
    let mut array = Array::new(alloc);
    for id in ids {
        put_id(&mut array, *id)?;
    }
    Ok(array)
}
