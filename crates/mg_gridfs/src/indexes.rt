//! The indexes of a bucket (GridFS specification, "Index Creation").
ghost use Rattle.std.specs.Prelude.{◌≡◌, IfOk, IfErr, option_map};
ghost use Rattle.mg_bson.specs.View.{tree};
ghost use Rattle.mg_link.specs.Errors.{plain};
ghost use Rattle.mg_link.specs.Namespace.{space};
ghost use Rattle.mg_link.specs.declared.error.ErrorKind.TheVariants as kinds;
ghost use Rattle.mg_gridfs.specs.Buckets.{bucket_of};
ghost use Rattle.mg_gridfs.specs.Indexes.{are_keys, first_key, keys_of, rises, second_key, space_in};

use crate::bucket::GridFsBucket;
use mg_bson::{Bson, Document};
use mg_link::{Error, Namespace};
use std::alloc::Global;

// The collection that an index is of: that of the records of files, or that of their chunks.
#[derive(Clone, Copy, Debug, PartialEq, Eq)]
pub(crate) enum Place {
    Files,
    Chunks,
}

// The bytes of the double 1, the lowest first.
const ONE: [u8; 8] = [0, 0, 0, 0, 0, 0, 240, 63];

// Whether this is a key in rising order: the number 1 of any kind.
fn rises(value: Option<&Bson>) -> bool
    ensures { result ≡ rises (option_map (λ v. tree v.now) value.entry) }
{
    match value {
        Some(Bson::Int32(n)) => *n == 1,
        Some(Bson::Int64(n)) => *n == 1,
        Some(Bson::Double(bits)) => *bits == ONE,
        _ => false,
    }
}

impl Place {
    // The name of the first key.
    fn first(self) -> &'static str
        ensures { result.now ≡ first_key self }
    {
        match self {
            Place::Files => "filename",
            Place::Chunks => "files_id",
        }
    }

    // The name of the second key.
    fn second(self) -> &'static str
        ensures { result.now ≡ second_key self }
    {
        match self {
            Place::Files => "uploadDate",
            Place::Chunks => "n",
        }
    }

    // Its keys.
    pub(crate) fn keys(self, alloc: Global) -> Result<Document, Error>
        ensures ok { IfOk result (λ d. d ≡ keys_of self) }
        ensures err { IfErr result (λ e. e ≡ plain kinds.OutOfMemory) }
    {
        let mut keys = Document::new(alloc);
        keys.append(self.first(), Bson::Int32(1))?;
        keys.append(self.second(), Bson::Int32(1))?;
        Ok(keys)
    }

    // Whether an index with these keys does for it: they are as many, and each has an equal value.
    pub(crate) fn has_keys(self, keys: &Document) -> bool
        ensures { result ≡ are_keys self keys.now }
    {
        keys.len() == 2 && rises(keys.get(self.first())) && rises(keys.get(self.second()))
    }

    // Its collection.
    pub(crate) fn collection(self, bucket: &GridFsBucket) -> &Namespace
        ensures { space result.now ≡ space_in (bucket_of bucket.now) self }
    {
        match self {
            Place::Files => bucket.files(),
            Place::Chunks => bucket.chunks(),
        }
    }
}
