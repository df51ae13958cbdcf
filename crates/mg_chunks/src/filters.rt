//! The filter of the chunks of a file.
ghost use Rattle.std.specs.Prelude.{◌≡◌, IfErr, IfOk};
ghost use Rattle.mg_bson.specs.View.{tree};
ghost use Rattle.mg_link.specs.Errors.{plain};
ghost use Rattle.mg_link.specs.declared.error.ErrorKind.TheVariants as kinds;
ghost use Rattle.mg_chunks.specs.Filters.{of_file};

use mg_bson::{Bson, Document};
use mg_link::Error;
use std::alloc::Global;

/// The filter of all chunks of the file with this id.
pub fn of_file(alloc: Global, id: &Bson) -> Result<Document, Error>
    ensures ok { IfOk result (λ d. d ≡ of_file (tree id.now)) }
    ensures err { IfErr result (λ e. e ≡ plain kinds.OutOfMemory) }
{
    let mut equal = Document::new(alloc);
    equal.append("$eq", id.clone()?)?;
    let mut filter = Document::new(alloc);
    filter.append("files_id", Bson::Document(equal))?;
    Ok(filter)
}
