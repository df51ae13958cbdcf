//! What became of each job.
use crate::script::Script;
use mg_bson::RawDocumentBuf;
use mg_link::{Error, Log};
use mg_options::ResumeToken;
use mg_store::Store;
use mg_turns::Turned;

/// What a job, or a part of one, came to.
pub enum Ended<T> {
    /// Its turns were too few.
    Unfinished,
    /// It ended well and gave this.
    Gave(T),
    /// It failed.
    Failed(Error),
}

// By hand, as those of the next types, so that letting one go is one call.
impl<T: Drop> Drop for Ended<T> {
    fn drop(self) {
        match self {
            Ended::Unfinished => {}
            Ended::Gave(_) => {}
            Ended::Failed(_) => {}
        }
    }
}

/// What one call of a follow answered.
pub enum Answer {
    /// An event, as it came.
    Event(RawDocumentBuf),
    /// The server had nothing new.
    Nothing,
    /// The call failed.
    Failed(Error),
}

impl Drop for Answer {
    fn drop(self) {
        match self {
            Answer::Event(_) => {}
            Answer::Nothing => {}
            Answer::Failed(_) => {}
        }
    }
}

/// What became of a job.
pub enum Outcome {
    /// Of an insert: the number of its documents.
    Insert(Ended<u64>),
    /// Of a follow.
    Follow {
        /// The opening of its stream.
        opened: Ended<()>,
        /// What its calls answered, in order.
        answers: Vec<Answer>,
        /// The stream's token after the last answered call, where it has one.
        token: Option<ResumeToken>,
        /// Whether the stream could go on after the last answered call.
        alive: bool,
        /// The closing of its stream.
        closed: Ended<()>,
    },
    /// Of a put: the length of its file.
    Put(Ended<u64>),
    /// Of a get.
    Get {
        /// The bytes that were read.
        bytes: Vec<u8>,
        /// The reading.
        ended: Ended<()>,
    },
}

impl Drop for Outcome {
    fn drop(self) {
        match self {
            Outcome::Insert(_) => {}
            Outcome::Follow {
                opened: _,
                answers: _,
                token: _,
                alive: _,
                closed: _,
            } => {}
            Outcome::Put(_) => {}
            Outcome::Get { bytes: _, ended: _ } => {}
        }
    }
}

/// The outcomes of jobs after their turns.
#[derive(Drop)]
pub struct Played {
    /// One for each job, in their order.
    pub outcomes: Vec<Outcome>,
    /// One for each turn, in their order.
    pub turns: Vec<Turned>,
}

/// A run to the end of its order.
pub struct Run {
    /// The script that was run.
    pub script: Script,
    /// What became of each job.
    pub outcomes: Vec<Outcome>,
    /// The server's store after the run.
    pub store: Store,
    /// The calls of each link.
    pub logs: Vec<Log>,
    /// The notes of each link's turns.
    pub turns: Vec<Vec<Turned>>,
}

impl Drop for Run {
    fn drop(self) {
        let Run {
            script: _,
            outcomes: _,
            store: _,
            logs: _,
            turns: _,
        } = self;
    }
}
