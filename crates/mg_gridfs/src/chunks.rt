//! The documents of a file: its chunks and its record.
ghost use Rattle.std.specs.Prelude.{◌≡◌, ◌<◌, ◌^◌, IfOk, IfErr, OnOk, codes};
ghost use Rattle.mg_bson.specs.View.{tree};
ghost use Rattle.mg_link.specs.Errors.{plain};
ghost use Rattle.mg_link.specs.declared.error.ErrorKind.TheVariants as kinds;
ghost use Rattle.mg_ops.specs.Given.{behind};
ghost use Rattle.mg_gridfs.specs.Commands.{chunk_document, metadata_value};
ghost use Rattle.mg_gridfs.specs.Uploads.{record_of};
ghost use Rattle.mg_gridfs.specs.UploadView.{aim_of, ending_view};

use crate::aim::Aim;
use crate::stage::Ending;
use mg_bson::{Binary, Bson, Document, ObjectId};
use mg_link::Error;
use std::alloc::Global;

// The chunk of this number, which its bytes move into.
pub(crate) fn chunk_document(
    alloc: Global,
    id: ObjectId,
    file: &Bson,
    n: u32,
    bytes: Vec<u8>,
) -> Result<Document, Error>
    requires { n < 2 ^ 31 }
    ensures ok { IfOk result (λ d. d ≡ chunk_document id.0 (tree file.now) n bytes.items) }
    ensures err { IfErr result (λ e. e ≡ plain kinds.OutOfMemory) }
{
    let mut chunk = Document::new(alloc);
    chunk.append("_id", Bson::ObjectId(id))?;
    chunk.append("files_id", file.clone()?)?;
    chunk.append("n", Bson::Int32(n as i32))?;
    chunk.append("data", Bson::Binary(Binary { subtype: 0, bytes }))?;
    Ok(chunk)
}

// Puts what else is known of a file behind its other fields, where something is.
fn put_metadata(fields: &mut Document, metadata: &Option<Document>) -> Result<(), Error>
    ensures ok { OnOk result (fields.new ≡ behind fields.old (codes "metadata") (metadata_value metadata.now)) }
    ensures err { IfErr result (λ e. e ≡ plain kinds.OutOfMemory) }
{
    match metadata {
        Some(known) => Ok(fields.append("metadata", Bson::Document(known.clone()?))?),
        None => Ok(()),
    }
}

// The record of a file that ends so.
pub(crate) fn record_document(aim: &Aim, ending: Ending) -> Result<Document, Error>
    requires length { ending.length < 2 ^ 63 }
    requires size { aim.now.size < 2 ^ 31 }
    ensures ok { IfOk result (λ d. d ≡ record_of (aim_of aim.now) (ending_view ending)) }
    ensures err { IfErr result (λ e. e ≡ plain kinds.OutOfMemory) }
{
    let mut fields = Document::new(aim.alloc);
    fields.append("_id", aim.id.clone()?)?;
    fields.append("length", Bson::Int64(ending.length as i64))?;
    fields.append("chunkSize", Bson::Int32(aim.size as i32))?;
    fields.append("uploadDate", Bson::DateTime(ending.moment))?;
    fields.append("filename", Bson::String(aim.filename.clone()?))?;
    put_metadata(&mut fields, &aim.metadata)?;
    Ok(fields)
}
