//! What a server holds, may reply and shows, for the proofs of those who ask it: definitions, and what holds of them.
#![tactic(auto)]

pub mod laws;
