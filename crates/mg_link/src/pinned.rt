//! The connection that a cursor is bound to.
ghost use Rattle.std.specs.Prelude.{◌≡◌};
ghost use Rattle.mg_link.specs.Pinned.{invalidated, is_invalid};

/// The connection that a cursor is bound to, by its number. It is a state alone: a link has no connections.
#[derive(Clone, Copy, Debug, PartialEq, Eq)]
pub enum PinnedConnection {
    /// The commands of the cursor go over this one.
    Valid(u64),
    /// This one was lost, and nothing goes over it any more.
    Invalid(u64),
    /// The cursor is bound to none.
    Unpinned,
}

impl PinnedConnection {
    /// Whether the connection was lost.
    pub fn is_invalid(&self) -> bool
        ensures { result ≡ is_invalid self.now }
    {
        match self {
            PinnedConnection::Valid(_) => false,
            PinnedConnection::Invalid(_) => true,
            PinnedConnection::Unpinned => false,
        }
    }

    /// What it is once its connection is lost.
    pub fn invalidated(self) -> PinnedConnection
        ensures { result ≡ invalidated self }
    {
        match self {
            PinnedConnection::Valid(id) => PinnedConnection::Invalid(id),
            PinnedConnection::Invalid(id) => PinnedConnection::Invalid(id),
            PinnedConnection::Unpinned => PinnedConnection::Unpinned,
        }
    }
}
