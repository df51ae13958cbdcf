//! What a script asks for.
use crate::database_name::DatabaseName;
use mg_bson::{Bson, DateTime, Document, Timestamp};
use mg_link::{Namespace, OperationTarget};
use mg_options::ResumeToken;
use mg_store::Fate;

/// One thing to do against the server, a call at a time.
pub enum Job {
    /// Inserts documents in one call.
    Insert {
        /// The collection that they go into.
        ns: Namespace,
        /// The documents, at least one.
        docs: Vec<Document>,
    },
    /// Opens a change stream, asks it for events, and closes it.
    Follow {
        /// What is watched.
        target: OperationTarget,
        /// How many calls ask for an event.
        calls: u32,
        /// Where the stream begins.
        start: Start,
        /// The filter that events have to match, where there is one.
        filter: Option<Document>,
        /// The greatest number of events in a batch, where it is given.
        batch: Option<u32>,
    },
    /// Writes a file, piece by piece.
    Put {
        /// The database of the bucket.
        db: DatabaseName,
        /// The name of the bucket.
        bucket: String,
        /// The name of the file.
        name: String,
        /// The `_id` of the file.
        id: Bson,
        /// The bytes of each chunk but the last.
        chunk: u32,
        /// What the file holds, cut as it is written.
        pieces: Vec<Vec<u8>>,
    },
    /// Reads a file, piece by piece.
    Get {
        /// The database of the bucket.
        db: DatabaseName,
        /// The name of the bucket.
        bucket: String,
        /// The `_id` of the file.
        id: Bson,
        /// The most bytes of one read.
        read: u32,
    },
}

// By hand, as those of the next types, so that letting one go is one call.
impl Drop for Job {
    fn drop(self) {
        match self {
            Job::Insert { ns: _, docs: _ } => {}
            Job::Follow {
                target: _,
                calls: _,
                start: _,
                filter: _,
                batch: _,
            } => {}
            Job::Put {
                db: _,
                bucket: _,
                name: _,
                id,
                chunk: _,
                pieces: _,
            } => drop(id),
            Job::Get {
                db: _,
                bucket: _,
                id,
                read: _,
            } => drop(id),
        }
    }
}

/// Where a change stream begins.
pub enum Start {
    /// At the server's present end.
    Nowhere,
    /// Behind the event of this token.
    ResumeAfter(ResumeToken),
    /// Behind the event of this token, which may be the last one of a stream that ended.
    StartAfter(ResumeToken),
    /// Before the first event that is not older than this time.
    At(Timestamp),
}

impl Drop for Start {
    fn drop(self) {
        match self {
            Start::Nowhere => {}
            Start::ResumeAfter(_) => {}
            Start::StartAfter(_) => {}
            Start::At(_) => {}
        }
    }
}

/// A script, read whole.
pub struct Script {
    /// The jobs, numbered from 0.
    pub jobs: Vec<Job>,
    /// The numbers of the jobs that get a turn, in order.
    pub order: Vec<u32>,
    /// What becomes of each command, in the order of their starts. Later ones are kept.
    pub fates: Vec<Fate>,
    /// The wire version of the link.
    pub wire: i32,
    /// The first bytes of each id that is drawn.
    pub ids: [u8; 3],
    /// The time that new records get.
    pub moment: DateTime,
}

impl Drop for Script {
    fn drop(self) {
        let Script {
            jobs: _,
            order: _,
            fates: _,
            wire: _,
            ids: _,
            moment: _,
        } = self;
    }
}
