//! What the close of an upload stores.
ghost use Rattle.std.specs.Prelude.{◌≡◌};
ghost use Rattle.mg_chunks.specs.Closings.{next_in_close};

/// What the close of an upload stores next.
#[derive(Clone, Copy)]
pub enum Closing {
    /// What is left, as the last chunk.
    LastChunk,
    /// The record of the file.
    Record,
}

/// What a close stores next where so many bytes are left behind the full chunks: the record comes behind all chunks.
pub fn next_in_close(left: usize) -> Closing
    ensures { result ≡ next_in_close left }
{
    if left > 0 {
        Closing::LastChunk
    } else {
        Closing::Record
    }
}
