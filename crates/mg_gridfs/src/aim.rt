//! What is uploaded, and where it goes.
use crate::bucket::GridFsBucket;
use mg_bson::{Bson, Document};
use std::alloc::Global;

/// A file that is uploaded.
pub(crate) struct Aim {
    pub(crate) alloc: Global,
    pub(crate) bucket: GridFsBucket,
    pub(crate) id: Bson,
    /// How many bytes each chunk has, but for the last.
    pub(crate) size: u32,
    pub(crate) filename: String,
    pub(crate) metadata: Option<Document>,
}

// By hand, so that letting one go is one call.
impl Drop for Aim {
    fn drop(self) {
        let Aim {
            alloc: _,
            bucket: _,
            id: _,
            size: _,
            filename: _,
            metadata: _,
        } = self;
    }
}
