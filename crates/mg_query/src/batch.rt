//! Batches of the documents that a query found.
ghost use Rattle.std.specs.Prelude.{◌≡◌, IfOk, drop, length, map};
ghost use Rattle.mg_bson.specs.Bytes.{bytes};
ghost use Rattle.mg_bson.specs.Raw.{fields};
ghost use Rattle.mg_query.specs.Querying.{GivesDocuments};

use crate::copies::tree_of;
use crate::limits::MAX_BATCH;
use crate::reply::put_item;
use mg_bson::{Array, Bson, Document, RawDocumentBuf, to_bytes};
use mg_link::OutOfMemory;
use std::alloc::Global;

/// The documents of a batch.
#[derive(Drop)]
pub struct Batch {
    /// The documents.
    pub documents: Array,
    /// How many they are.
    pub count: u64,
    /// Whether none is left behind them.
    pub is_last: bool,
}

/// The length of a document as a reply has it. What was found can always be encoded.
fn length_of(alloc: Global, document: &Document) -> Result<usize, OutOfMemory>
    ensures { IfOk result (λ n. n ≡ length (bytes document.now)) }
{
    match to_bytes(alloc, document) {
        Ok(bytes) => Ok(bytes.as_bytes().len()),
        Err(_) => Err(OutOfMemory),
    }
}

/// The batch that begins behind the first so many documents: at most so many, and not more than fit a batch, but for the
/// first.
pub fn batch_from(
    alloc: Global,
    documents: &[RawDocumentBuf],
    from: usize,
    size: u64,
) -> Result<Batch, OutOfMemory>
    ensures { IfOk result (GivesDocuments (drop from (map fields documents.now)) size) }
{
    let mut given = Array::new(alloc);
    let mut room = MAX_BATCH;
    let mut left = size;
    for place in from..documents.len() {
        if left == 0 {
            return Ok(Batch {
                documents: given,
                count: size,
                is_last: false,
            });
        }
        let document = tree_of(alloc, documents[place].as_raw())?;
        let len = length_of(alloc, &document)?;
        if left < size && room < len {
            return Ok(Batch {
                documents: given,
                count: size - left,
                is_last: false,
            });
        }
        put_item(&mut given, Bson::Document(document))?;
        room = room.saturating_sub(len);
        left -= 1;
    }
    Ok(Batch {
        documents: given,
        count: size - left,
        is_last: true,
    })
}
