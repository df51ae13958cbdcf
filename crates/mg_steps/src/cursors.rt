//! Whether a cursor is asked, is killed, or has more to give.
ghost use Rattle.std.specs.Prelude.{◌↔◌, IsTrue};
ghost use Rattle.mg_steps.specs.Cursors.{HasNext, IsOver, KillsIf};

use mg_link::PinnedConnection;

/// Whether no command of a cursor is sent any more: the server holds it no longer, which its id 0 says, or the connection that it is bound to
/// was lost.
pub fn is_over(id: i64, connection: PinnedConnection) -> bool
    ensures { IsTrue result ↔ IsOver id connection }
{
    if id == 0 {
        return true;
    }
    connection.is_invalid()
}

/// Whether a cursor that is closed is killed: a command of it may still be sent.
pub fn is_to_kill(id: i64, connection: PinnedConnection) -> bool
    ensures { KillsIf result id connection }
{
    !is_over(id, connection)
}

/// Whether a cursor may give more: the server may hold more, or the reply in hand holds documents, which may be the last one.
pub fn has_next(id: i64, holds_documents: bool) -> bool
    ensures { IsTrue result ↔ HasNext id (IsTrue holds_documents) }
{
    if id == 0 {
        return holds_documents;
    }
    true
}
