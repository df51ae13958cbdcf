//! What comes next, for cursors and for change streams that resume: decisions over words and numbers.
#![tactic(auto)]

mod cursors;
mod failures;
mod resuming;
mod token;

pub use cursors::{has_next, is_over, is_to_kill};
pub use failures::{AfterFailure, Fault, StreamCommand, after_failure, fault_of};
pub use resuming::{Resumption, Standing, TIMES_FROM, resumption_of};
pub use token::{TokenPlace, place_behind, place_empty};
