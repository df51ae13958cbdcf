//! What is counted of a turn: a link that hands each call on, and notes what a turn did over it.
#![tactic(auto)]

mod counting;
mod turned;

pub use counting::{Began, Counting};
pub use turned::Turned;
