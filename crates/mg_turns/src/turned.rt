//! The note of a turn.

/// What one turn of a job did.
#[derive(Clone, Copy, Debug, PartialEq, Eq)]
pub struct Turned {
    /// How many commands it started.
    pub started: u64,
    /// Whether its last poll found no reply yet.
    pub pended: bool,
}
