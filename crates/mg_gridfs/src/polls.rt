//! What the calls of uploads and downloads come to.
use mg_link::Error;

/// What a poll of a write came to.
#[derive(Drop)]
pub enum WritePoll {
    /// A reply pends. The next poll goes on with the write, with the bytes that its first poll took.
    Pending,
    /// So many bytes were taken: all of the piece.
    Wrote(usize),
    /// The write failed.
    Failed(Error),
}

/// What a poll of a close or of an abort came to.
#[derive(Drop)]
pub enum Step2 {
    /// A reply pends. The next poll goes on.
    Pending,
    /// The file is stored, or its chunks are removed.
    Done,
    /// The call failed.
    Failed(Error),
}

/// What a poll of a read came to.
#[derive(Drop)]
pub enum ReadPoll {
    /// A reply pends. The next poll goes on with the read.
    Pending,
    /// So many bytes were read: none behind the end of the file, behind an error, and into no room.
    Read(usize),
    /// The read failed, and the download has ended.
    Failed(Error),
}
