//! What the tests of all layers share, and the tests of the layers that jobs stand on.
#![tactic(auto)]

mod samples;
#[cfg(test)]
mod tests;

pub use samples::{
    bytes_at, collection, document_word, find, insert, json_bytes, json_value, named, namespace,
    one_field, parted, repeated, with,
};
