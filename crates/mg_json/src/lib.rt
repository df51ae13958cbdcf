//! Documents and their values as JSON texts, in a form of their own: it is no Extended JSON.
#![tactic(auto)]

mod json;

pub use json::{document_text, value_text};
