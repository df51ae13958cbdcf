//! A cursor of a session that gives its batches.
ghost use Rattle.std.specs.Prelude.{◌≡◌, ◌↔◌, IsTrue, Bool, Some, pos};
ghost use Rattle.mg_link.specs.Acts.{IsOut};
ghost use Rattle.mg_link.specs.Moment.{LinkKeeps, moment};
ghost use Rattle.mg_server.specs.Reader.{ReadMoved, Reader};
ghost use Rattle.mg_ops.specs.Naming.{IsNamed};
ghost use Rattle.mg_cursor.specs.Causes.{NextCaused};
ghost use Rattle.mg_cursor.specs.Client.{HasNext, client_ticket, pinned_to};
ghost use Rattle.mg_cursor.specs.Closing.{closed};
ghost use Rattle.mg_cursor.specs.Polling.{PollsNext, next_ending};
ghost use Rattle.mg_cursor.specs.Reading.{reader_in, told_next};
ghost use Rattle.mg_cursor.specs.Seeking.{session_moved};

use crate::batches::Batches;
use crate::closing::Closing;
use crate::new_cursor::NewCursor;
use crate::polls::NextPoll;
use mg_link::{ClientSession, ExplicitClientSessionHandle, Link};
use mg_ops::CursorSpecification;
use std::alloc::Global;
use std::marker::Model;

/// A cursor of a session. Its batches are asked for by a [`stream`](SessionRawBatchCursor::stream) of it, and its getMores name the
/// session.
///
/// One that is dropped sends nothing: [`close`](SessionRawBatchCursor::close) kills it.
pub struct SessionRawBatchCursor {
    batches: Batches,
}

// By hand, so that letting one go is one call.
impl Drop for SessionRawBatchCursor {
    fn drop(self) {
        let SessionRawBatchCursor { batches: _ } = self;
    }
}

impl Model for SessionRawBatchCursor {
    ghost use Rattle.std.specs.Prelude.{false};
    ghost use Rattle.mg_cursor.specs.Client.{ClientCursor, IsSound};
    ghost use Rattle.mg_cursor.specs.ClientCode.{coded_client};
    ghost use Rattle.mg_cursor.specs.View.{client_of};

    ghost Value = { ClientCursor };

    ghost coded = { coded_client };

    ghost view = { λ c. client_of c.batches };

    ghost invariant = { λ c. IsSound false (client_of c.batches) };
}

/// A cursor, and the session that its getMores name, which it tells of each command that was started. The cursor goes on where
/// the stream left it.
pub struct SessionRawBatchCursorStream<'c, 's> {
    /// The cursor.
    pub cursor: &'c mut SessionRawBatchCursor,
    /// The session.
    pub session: ExplicitClientSessionHandle<'s>,
}

// By hand, as that of `SessionCursorStream`.
impl Drop for SessionRawBatchCursorStream<'_, '_> {
    fn drop(self)
        ensures cursor { self.exit.0.now ≡ self.entry.cursor.now }
        ensures session { self.exit.1.0.0.now ≡ self.entry.session.0.now }
    {
        let SessionRawBatchCursorStream {
            cursor: _,
            session: ExplicitClientSessionHandle(_),
        } = self;
    }
}

impl NewCursor for SessionRawBatchCursor {
    ghost use Rattle.std.specs.Prelude.{◌≡◌};
    ghost use Rattle.mg_cursor.specs.Client.{new_client};

    ghost is_opened = { λ s c. c ≡ new_client s };

    fn new_cursor(alloc: Global, specification: CursorSpecification) -> SessionRawBatchCursor {
        SessionRawBatchCursor {
            batches: Batches::new(alloc, specification),
        }
    }
}

impl SessionRawBatchCursor {
    /// Binds the cursor to the connection of this number.
    pub fn pin(&mut self, id: u64)
        ensures { self.new ≡ pinned_to id self.old }
    {
        self.batches.pin(id);
    }

    // The next batch, asked for in the session of the handle.
    fn poll_next<L: Link>(
        &mut self,
        handle: &mut ExplicitClientSessionHandle<'_>,
        link: &mut L,
    ) -> NextPoll
        requires { IsOut (L.awaited link.old) (client_ticket self.old) }
        ensures keeps { LinkKeeps (moment (L.awaited link.old) (L.log link.old) (L.faults link.old) (L.pends link.old) (L.wire link.old) (L.prompt link.old))
            (moment (L.awaited link.new) (L.log link.new) (L.faults link.new) (L.pends link.new) (L.wire link.new) (L.prompt link.new))
            (client_ticket self.old) (client_ticket self.new) (next_ending result) }
        ensures polls { (started : Bool) × PollsNext (L.awaited link.old) (L.awaited link.new) (L.log link.old) (L.log link.new) (L.wire link.old) (Some handle.old.0.now) started self.old self.new result
            × (handle.new.0.now ≡ session_moved started handle.old.0.now) }
        ensures caused { NextCaused (L.awaited link.old) (L.awaited link.new) (L.log link.old) (L.log link.new) (L.wire link.old) (Some handle.old.0.now) self.old self.new result }
        ensures list { IsNamed self.old.space → (r : Reader)
            → ReadMoved (L.log link.old) (L.log link.new) (reader_in (L.awaited link.old) self.old r) (reader_in (L.awaited link.new) self.new (told_next result r)) }
        ensures same_session { handle.new.0.ghost_name ≡ handle.old.0.ghost_name }
    {
        self.batches.poll_next(handle, link)
    }

    /// The cursor with the session that it was opened in.
    pub fn stream<'s>(
        &mut self,
        session: &'s mut ClientSession,
    ) -> SessionRawBatchCursorStream<'_, 's>
        ensures cursor { result.cursor.now ≡ self.old }
        ensures session { result.session.0.now ≡ session.old }
        ensures same_cursor { result.cursor.ghost_name ≡ self.entry.ghost_name }
        ensures same_session { result.session.0.ghost_name ≡ session.entry.ghost_name }
    {
        SessionRawBatchCursorStream {
            cursor: self,
            session: ExplicitClientSessionHandle(session),
        }
    }

    /// Whether the server may hold more, or the reply in hand holds documents.
    pub fn has_next(&self) -> bool
        ensures { IsTrue result ↔ HasNext self.now }
    {
        self.batches.has_next()
    }

    /// Whether the server holds the cursor no longer.
    pub fn is_exhausted(&self) -> bool
        ensures { IsTrue result ↔ (self.now.id ≡ pos 0) }
    {
        self.batches.is_exhausted()
    }

    /// The number of the ticket that it holds, while it waits for a reply.
    pub fn ticket_number(&self) -> Option<u64>
        ensures { result ≡ client_ticket self.now }
    {
        self.batches.ticket_number()
    }

    /// Closes the cursor. Nothing is sent until the closing is polled; its killCursors names no session.
    pub fn close(self) -> Closing
        ensures { result ≡ closed self }
    {
        let SessionRawBatchCursor { batches } = self;
        batches.close()
    }
}

impl SessionRawBatchCursorStream<'_, '_> {
    /// The next batch, as [`RawBatchCursor::poll_next`](crate::RawBatchCursor::poll_next) gives it.
    pub fn poll_next<L: Link>(&mut self, link: &mut L) -> NextPoll
        requires { IsOut (L.awaited link.old) (client_ticket self.old.cursor.now) }
        // The tickets of others, the counts, the wire version and the promptness of the link.
        ensures keeps { LinkKeeps (moment (L.awaited link.old) (L.log link.old) (L.faults link.old) (L.pends link.old) (L.wire link.old) (L.prompt link.old))
            (moment (L.awaited link.new) (L.log link.new) (L.faults link.new) (L.pends link.new) (L.wire link.new) (L.prompt link.new))
            (client_ticket self.old.cursor.now) (client_ticket self.new.cursor.now) (next_ending result) }
        // Which commands it sent, how the cursor stands behind what it heard, and whether the session was told of a command.
        ensures polls { (started : Bool) × PollsNext (L.awaited link.old) (L.awaited link.new) (L.log link.old) (L.log link.new) (L.wire link.old) (Some self.old.session.0.now) started self.old.cursor.now self.new.cursor.now result
            × (self.new.session.0.now ≡ session_moved started self.old.session.0.now) }
        // What in the log is the cause of the answer, over all polls of a call.
        ensures caused { NextCaused (L.awaited link.old) (L.awaited link.new) (L.log link.old) (L.log link.new) (L.wire link.old) (Some self.old.session.0.now) self.old.cursor.now self.new.cursor.now result }
        // Over an honest link it is a list with a place.
        ensures list { IsNamed self.old.cursor.now.space → (r : Reader)
            → ReadMoved (L.log link.old) (L.log link.new) (reader_in (L.awaited link.old) self.old.cursor.now r) (reader_in (L.awaited link.new) self.new.cursor.now (told_next result r)) }
        // It lends from the same cursor and session still.
        ensures same_cursor { self.new.cursor.ghost_name ≡ self.old.cursor.ghost_name }
        ensures same_session { self.new.session.0.ghost_name ≡ self.old.session.0.ghost_name }
    {
        self.cursor.poll_next(&mut self.session, link)
    }
}
