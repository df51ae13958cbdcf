//! How a command is sent, and tried again.
#![tactic(auto)]

mod attempt;
mod exec;

pub use exec::{Exec, Retry};
