//! Operations as a user sends them.
#![tactic(auto)]

mod running;

pub use running::run;
