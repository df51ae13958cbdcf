//! What the program reads before it runs jobs, and what it says where it runs none.
#![tactic(auto)]

mod read;
mod refusal;

pub use read::read_script;
pub use refusal::{RunRefusal, refuse, say};
