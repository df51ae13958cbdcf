//! What is decided of the chunks of a file, over numbers, bytes and documents: how many they are and how long each is, how bytes are
//! cut into them, whether those received are in order, and which of them a filter selects. Nothing here sends.
#![tactic(auto)]

mod buffer;
mod closing;
mod filters;
mod found;
mod judging;
mod sizes;

pub use buffer::Buffer;
pub use closing::{Closing, next_in_close};
pub use filters::of_file;
pub use found::first_document;
pub use judging::{ReadPlace, broken, data_of, has_all_chunks, judge_all, missing_chunk};
pub use sizes::{FileSizes, expected_chunk_length, last_number, n_from_vals};
