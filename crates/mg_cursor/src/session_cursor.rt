//! A cursor of a session that gives its documents.
ghost use Rattle.std.specs.Prelude.{◌≡◌, ◌↔◌, ℕ, IsTrue, Bool, Some, true, is_some};
ghost use Rattle.mg_link.specs.Causes.{one_if};
ghost use Rattle.mg_link.specs.Session.{after_command};
ghost use Rattle.mg_link.specs.Acts.{IsOut};
ghost use Rattle.mg_link.specs.Moment.{LinkKeeps, moment};
ghost use Rattle.mg_server.specs.Reader.{ReadMoved, Reader};
ghost use Rattle.mg_ops.specs.Naming.{IsNamed};
ghost use Rattle.mg_cursor.specs.Client.{client_ticket, pinned_to};
ghost use Rattle.mg_cursor.specs.Closing.{closed};
ghost use Rattle.mg_cursor.specs.Documents.{HasMore, ReadsAs, try_ending};
ghost use Rattle.mg_cursor.specs.Reading.{reader_of, told_advance, told_item, told_try};
ghost use Rattle.mg_cursor.specs.Seeking.{ItemLeaves, SeekCaused, SeekLeaves, SeeksDocument, SeeksItem, TriesAdvance, TryLeaves, advance_ending, item_ending, times};

use crate::closing::Closing;
use crate::documents::Documents;
use crate::new_cursor::NewCursor;
use crate::polls::{AdvancePoll, ItemPoll, TryPoll};
use mg_bson::RawDocument;
use mg_link::{ClientSession, Error, ExplicitClientSessionHandle, Link};
use mg_ops::CursorSpecification;
use mg_records::ReadRaw;
use std::alloc::Global;
use std::marker::{Model, PhantomData};

/// A cursor of a session, whose documents are given one by one. Each call is handed the session that the cursor was opened in, or a
/// [`stream`](SessionCursor::stream) of it holds both; its getMores name the session.
///
/// One that is dropped sends nothing: [`close`](SessionCursor::close) kills it.
pub struct SessionCursor<T> {
    documents: Documents,
    document: PhantomData<T>,
}

// By hand, so that letting one go is one call.
impl<T> Drop for SessionCursor<T> {
    fn drop(self) {
        let SessionCursor {
            documents: _,
            document: _,
        } = self;
    }
}

impl<T> Model for SessionCursor<T> {
    ghost use Rattle.std.specs.Prelude.{false};
    ghost use Rattle.mg_cursor.specs.Client.{IsSound};
    ghost use Rattle.mg_cursor.specs.Documents.{DocumentCursor, coded_documents};
    ghost use Rattle.mg_cursor.specs.View.{document_cursor};

    ghost Value = { DocumentCursor };

    ghost coded = { coded_documents };

    ghost view = { λ c. document_cursor c.documents };

    ghost invariant = { λ c. IsSound false (document_cursor c.documents).cursor };
}

/// A cursor, and the session that its getMores name, which it tells of each command that was started. The cursor goes on where
/// the stream left it.
pub struct SessionCursorStream<'c, 's, T> {
    /// The cursor.
    pub cursor: &'c mut SessionCursor<T>,
    /// The session.
    pub session: ExplicitClientSessionHandle<'s>,
}

impl<T> Drop for SessionCursorStream<'_, '_, T> {
    fn drop(self)
        ensures cursor { self.exit.0.now ≡ self.entry.cursor.now }
        ensures session { self.exit.1.0.0.now ≡ self.entry.session.0.now }
    {
        let SessionCursorStream {
            cursor: _,
            session: ExplicitClientSessionHandle(_),
        } = self;
    }
}

impl<T> NewCursor for SessionCursor<T> {
    ghost use Rattle.std.specs.Prelude.{◌≡◌};
    ghost use Rattle.mg_cursor.specs.Client.{new_client};
    ghost use Rattle.mg_cursor.specs.Documents.{new_documents};

    ghost is_opened = { λ s c. c ≡ new_documents (new_client s) };

    fn new_cursor(alloc: Global, specification: CursorSpecification) -> SessionCursor<T> {
        SessionCursor {
            documents: Documents::new(alloc, specification),
            document: PhantomData,
        }
    }
}

impl<T> SessionCursor<T> {
    /// One advance: the next document received becomes the current one, which takes no memory and always succeeds; where none is
    /// left, one batch is asked for. An empty one is [`AdvanceResult::Waiting`](crate::AdvanceResult::Waiting).
    ///
    /// It fails as [`RawBatchCursor::poll_next`](crate::RawBatchCursor::poll_next) does, and where an item of a batch is no document.
    /// Then no document is current and none is left, and the cursor stays usable; the batch that was asked for may be lost.
    pub fn poll_try_advance<L: Link>(
        &mut self,
        session: &mut ClientSession,
        link: &mut L,
    ) -> TryPoll
        requires { IsOut (L.awaited link.old) (client_ticket self.old.cursor) }
        // The tickets of others, the counts, the wire version and the promptness of the link.
        ensures keeps { LinkKeeps (moment (L.awaited link.old) (L.log link.old) (L.faults link.old) (L.pends link.old) (L.wire link.old) (L.prompt link.old))
            (moment (L.awaited link.new) (L.log link.new) (L.faults link.new) (L.pends link.new) (L.wire link.new) (L.prompt link.new))
            (client_ticket self.old.cursor) (client_ticket self.new.cursor) (try_ending result) }
        // Which commands it sent, what it gave, and how the cursor stands behind that.
        ensures tries { (started : Bool) × TriesAdvance (L.awaited link.old) (L.awaited link.new) (L.log link.old) (L.log link.new) (L.wire link.old) (Some session.old) started self.old self.new result
            × (session.new ≡ times (one_if started) after_command session.old) }
        // Whether a document is current.
        ensures current { TryLeaves result self.new.current }
        // What in the log is the cause of the answer, over all polls of a call.
        ensures caused { SeekCaused (L.awaited link.old) (L.awaited link.new) (L.log link.old) (L.log link.new) (L.wire link.old) (Some session.old) self.old self.new (try_ending result) }
        // Over an honest link it is a list with a place.
        ensures list { IsNamed self.old.cursor.space → (r : Reader)
            → ReadMoved (L.log link.old) (L.log link.new) (reader_of (L.awaited link.old) self.old r) (reader_of (L.awaited link.new) self.new (told_try result self.new.current r)) }
    {
        let mut handle = ExplicitClientSessionHandle(session);
        self.try_advance_in(&mut handle, link)
    }

    /// Advances up to the next document, and says whether there is one. While a reply pends a call goes on over several polls.
    ///
    /// It fails as [`poll_try_advance`](SessionCursor::poll_try_advance) does, and with [`ErrorKind::EmptyBatches`](mg_link::ErrorKind::EmptyBatches)
    /// at the 1,000th empty reply in a row. The cursor stays usable.
    pub fn poll_advance<L: Link>(
        &mut self,
        session: &mut ClientSession,
        link: &mut L,
    ) -> AdvancePoll
        requires { IsOut (L.awaited link.old) (client_ticket self.old.cursor) }
        // The tickets of others, the counts, the wire version and the promptness of the link.
        ensures keeps { LinkKeeps (moment (L.awaited link.old) (L.log link.old) (L.faults link.old) (L.pends link.old) (L.wire link.old) (L.prompt link.old))
            (moment (L.awaited link.new) (L.log link.new) (L.faults link.new) (L.pends link.new) (L.wire link.new) (L.prompt link.new))
            (client_ticket self.old.cursor) (client_ticket self.new.cursor) (advance_ending result) }
        // Which commands it sent, how many empty replies it got, and how the cursor stands behind that.
        ensures seeks { (empties starts : ℕ) × SeeksDocument empties (L.awaited link.old) (L.awaited link.new) (L.log link.old) (L.log link.new) (L.wire link.old) (Some session.old) starts self.old self.new result
            × (session.new ≡ times starts after_command session.old) }
        // Whether a document is current.
        ensures current { SeekLeaves result self.new.current }
        // What in the log is the cause of the answer, over all polls of a call.
        ensures caused { SeekCaused (L.awaited link.old) (L.awaited link.new) (L.log link.old) (L.log link.new) (L.wire link.old) (Some session.old) self.old self.new (advance_ending result) }
        // Over an honest link it is a list with a place.
        ensures list { IsNamed self.old.cursor.space → (r : Reader)
            → ReadMoved (L.log link.old) (L.log link.new) (reader_of (L.awaited link.old) self.old r) (reader_of (L.awaited link.new) self.new (told_advance result self.new.current r)) }
    {
        let mut handle = ExplicitClientSessionHandle(session);
        self.advance_in(&mut handle, link)
    }

    /// Advances up to the next document, and copies it. Where the copy finds no memory, the document is the current one and counts as
    /// given.
    pub fn poll_next<L: Link>(&mut self, session: &mut ClientSession, link: &mut L) -> ItemPoll
        requires { IsOut (L.awaited link.old) (client_ticket self.old.cursor) }
        // The tickets of others, the counts, the wire version and the promptness of the link.
        ensures keeps { LinkKeeps (moment (L.awaited link.old) (L.log link.old) (L.faults link.old) (L.pends link.old) (L.wire link.old) (L.prompt link.old))
            (moment (L.awaited link.new) (L.log link.new) (L.faults link.new) (L.pends link.new) (L.wire link.new) (L.prompt link.new))
            (client_ticket self.old.cursor) (client_ticket self.new.cursor) (item_ending result) }
        // Which commands it sent, what it gave, and how the cursor stands behind that.
        ensures seeks { (empties starts : ℕ) × SeeksItem empties (L.awaited link.old) (L.awaited link.new) (L.log link.old) (L.log link.new) (L.wire link.old) (Some session.old) starts self.old self.new result
            × (session.new ≡ times starts after_command session.old) }
        // The current document.
        ensures current { ItemLeaves result self.new.current }
        // What in the log is the cause of the answer, over all polls of a call.
        ensures caused { SeekCaused (L.awaited link.old) (L.awaited link.new) (L.log link.old) (L.log link.new) (L.wire link.old) (Some session.old) self.old self.new (item_ending result) }
        // Over an honest link it is a list with a place.
        ensures list { IsNamed self.old.cursor.space → (r : Reader)
            → ReadMoved (L.log link.old) (L.log link.new) (reader_of (L.awaited link.old) self.old r) (reader_of (L.awaited link.new) self.new (told_item result self.new.current r)) }
    {
        let mut handle = ExplicitClientSessionHandle(session);
        self.next_in(&mut handle, link)
    }

    /// The cursor with the session that it was opened in.
    pub fn stream<'s>(&mut self, session: &'s mut ClientSession) -> SessionCursorStream<'_, 's, T>
        ensures cursor { result.cursor.now ≡ self.old }
        ensures session { result.session.0.now ≡ session.old }
        ensures same_cursor { result.cursor.ghost_name ≡ self.entry.ghost_name }
        ensures same_session { result.session.0.ghost_name ≡ session.entry.ghost_name }
    {
        SessionCursorStream {
            cursor: self,
            session: ExplicitClientSessionHandle(session),
        }
    }

    /// Binds the cursor to the connection of this number.
    pub fn pin(&mut self, id: u64)
        ensures { self.new ≡ record self.old { cursor = pinned_to id self.old.cursor } }
    {
        self.documents.pin(id);
    }

    /// The document that the last advance gave, a part of the reply's own bytes. It takes no memory.
    pub fn current(&self) -> Option<RawDocument<'_>>
        ensures { result ≡ self.now.current }
    {
        self.documents.current()
    }

    /// Whether the last advance gave a document.
    pub fn has_current(&self) -> bool
        ensures { result ≡ is_some self.now.current }
    {
        self.documents.has_current()
    }

    /// Whether a document is current, one that was received is left, or the server may hold more.
    pub fn has_next(&self) -> bool
        ensures { IsTrue result ↔ HasMore self.now }
    {
        self.documents.has_next()
    }

    /// The current document, read as a record. It fails where memory runs out, or where the document is no such record.
    pub fn deserialize_current(&self) -> Result<T, Error>
    where
        T: ReadRaw,
        requires { is_some self.now.current ≡ true }
        ensures { ReadsAs T.stands_for T.seen self.now.current result }
    {
        self.documents.read_current()
    }

    /// The same cursor, whose documents are read as other records.
    pub fn with_type<D: ReadRaw>(self) -> SessionCursor<D>
        ensures { result ≡ self }
    {
        let SessionCursor {
            documents,
            document: _,
        } = self;
        SessionCursor {
            documents,
            document: PhantomData,
        }
    }

    /// The number of the ticket that it holds, while it waits for a reply.
    pub fn ticket_number(&self) -> Option<u64>
        ensures { result ≡ client_ticket self.now.cursor }
    {
        self.documents.ticket_number()
    }

    /// Closes the cursor. Nothing is sent until the closing is polled.
    pub fn close(self) -> Closing
        ensures { result ≡ closed self.cursor }
    {
        let SessionCursor {
            documents,
            document: _,
        } = self;
        documents.close()
    }

    // A call with one advance, in the session of the handle.
    fn try_advance_in<L: Link>(
        &mut self,
        handle: &mut ExplicitClientSessionHandle<'_>,
        link: &mut L,
    ) -> TryPoll
        requires { IsOut (L.awaited link.old) (client_ticket self.old.cursor) }
        ensures keeps { LinkKeeps (moment (L.awaited link.old) (L.log link.old) (L.faults link.old) (L.pends link.old) (L.wire link.old) (L.prompt link.old))
            (moment (L.awaited link.new) (L.log link.new) (L.faults link.new) (L.pends link.new) (L.wire link.new) (L.prompt link.new))
            (client_ticket self.old.cursor) (client_ticket self.new.cursor) (try_ending result) }
        ensures tries { (started : Bool) × TriesAdvance (L.awaited link.old) (L.awaited link.new) (L.log link.old) (L.log link.new) (L.wire link.old) (Some handle.old.0.now) started self.old self.new result
            × (handle.new.0.now ≡ times (one_if started) after_command handle.old.0.now) }
        ensures current { TryLeaves result self.new.current }
        ensures caused { SeekCaused (L.awaited link.old) (L.awaited link.new) (L.log link.old) (L.log link.new) (L.wire link.old) (Some handle.old.0.now) self.old self.new (try_ending result) }
        ensures list { IsNamed self.old.cursor.space → (r : Reader)
            → ReadMoved (L.log link.old) (L.log link.new) (reader_of (L.awaited link.old) self.old r) (reader_of (L.awaited link.new) self.new (told_try result self.new.current r)) }
        ensures same_session { handle.new.0.ghost_name ≡ handle.old.0.ghost_name }
    {
        self.documents.poll_try_advance(handle, link)
    }

    // A call that advances up to a document, in the session of the handle.
    fn advance_in<L: Link>(
        &mut self,
        handle: &mut ExplicitClientSessionHandle<'_>,
        link: &mut L,
    ) -> AdvancePoll
        requires { IsOut (L.awaited link.old) (client_ticket self.old.cursor) }
        ensures keeps { LinkKeeps (moment (L.awaited link.old) (L.log link.old) (L.faults link.old) (L.pends link.old) (L.wire link.old) (L.prompt link.old))
            (moment (L.awaited link.new) (L.log link.new) (L.faults link.new) (L.pends link.new) (L.wire link.new) (L.prompt link.new))
            (client_ticket self.old.cursor) (client_ticket self.new.cursor) (advance_ending result) }
        ensures seeks { (empties starts : ℕ) × SeeksDocument empties (L.awaited link.old) (L.awaited link.new) (L.log link.old) (L.log link.new) (L.wire link.old) (Some handle.old.0.now) starts self.old self.new result
            × (handle.new.0.now ≡ times starts after_command handle.old.0.now) }
        ensures current { SeekLeaves result self.new.current }
        ensures caused { SeekCaused (L.awaited link.old) (L.awaited link.new) (L.log link.old) (L.log link.new) (L.wire link.old) (Some handle.old.0.now) self.old self.new (advance_ending result) }
        ensures list { IsNamed self.old.cursor.space → (r : Reader)
            → ReadMoved (L.log link.old) (L.log link.new) (reader_of (L.awaited link.old) self.old r) (reader_of (L.awaited link.new) self.new (told_advance result self.new.current r)) }
        ensures same_session { handle.new.0.ghost_name ≡ handle.old.0.ghost_name }
    {
        self.documents.poll_advance(handle, link)
    }

    // A call that advances up to a document and copies it, in the session of the handle.
    fn next_in<L: Link>(
        &mut self,
        handle: &mut ExplicitClientSessionHandle<'_>,
        link: &mut L,
    ) -> ItemPoll
        requires { IsOut (L.awaited link.old) (client_ticket self.old.cursor) }
        ensures keeps { LinkKeeps (moment (L.awaited link.old) (L.log link.old) (L.faults link.old) (L.pends link.old) (L.wire link.old) (L.prompt link.old))
            (moment (L.awaited link.new) (L.log link.new) (L.faults link.new) (L.pends link.new) (L.wire link.new) (L.prompt link.new))
            (client_ticket self.old.cursor) (client_ticket self.new.cursor) (item_ending result) }
        ensures seeks { (empties starts : ℕ) × SeeksItem empties (L.awaited link.old) (L.awaited link.new) (L.log link.old) (L.log link.new) (L.wire link.old) (Some handle.old.0.now) starts self.old self.new result
            × (handle.new.0.now ≡ times starts after_command handle.old.0.now) }
        ensures current { ItemLeaves result self.new.current }
        ensures caused { SeekCaused (L.awaited link.old) (L.awaited link.new) (L.log link.old) (L.log link.new) (L.wire link.old) (Some handle.old.0.now) self.old self.new (item_ending result) }
        ensures list { IsNamed self.old.cursor.space → (r : Reader)
            → ReadMoved (L.log link.old) (L.log link.new) (reader_of (L.awaited link.old) self.old r) (reader_of (L.awaited link.new) self.new (told_item result self.new.current r)) }
        ensures same_session { handle.new.0.ghost_name ≡ handle.old.0.ghost_name }
    {
        self.documents.poll_next(handle, link)
    }
}

impl<T> SessionCursorStream<'_, '_, T> {
    /// One advance: the next document received becomes the current one, which takes no memory and always succeeds; where none is
    /// left, one batch is asked for. An empty one is [`AdvanceResult::Waiting`](crate::AdvanceResult::Waiting).
    ///
    /// It fails as [`RawBatchCursor::poll_next`](crate::RawBatchCursor::poll_next) does, and where an item of a batch is no document.
    /// Then no document is current and none is left, and the cursor stays usable; the batch that was asked for may be lost.
    pub fn poll_try_advance<L: Link>(&mut self, link: &mut L) -> TryPoll
        requires { IsOut (L.awaited link.old) (client_ticket self.old.cursor.now.cursor) }
        // The tickets of others, the counts, the wire version and the promptness of the link.
        ensures keeps { LinkKeeps (moment (L.awaited link.old) (L.log link.old) (L.faults link.old) (L.pends link.old) (L.wire link.old) (L.prompt link.old))
            (moment (L.awaited link.new) (L.log link.new) (L.faults link.new) (L.pends link.new) (L.wire link.new) (L.prompt link.new))
            (client_ticket self.old.cursor.now.cursor) (client_ticket self.new.cursor.now.cursor) (try_ending result) }
        // Which commands it sent, what it gave, and how the cursor stands behind that.
        ensures tries { (started : Bool) × TriesAdvance (L.awaited link.old) (L.awaited link.new) (L.log link.old) (L.log link.new) (L.wire link.old) (Some self.old.session.0.now) started self.old.cursor.now self.new.cursor.now result
            × (self.new.session.0.now ≡ times (one_if started) after_command self.old.session.0.now) }
        // Whether a document is current.
        ensures current { TryLeaves result self.new.cursor.now.current }
        // What in the log is the cause of the answer, over all polls of a call.
        ensures caused { SeekCaused (L.awaited link.old) (L.awaited link.new) (L.log link.old) (L.log link.new) (L.wire link.old) (Some self.old.session.0.now) self.old.cursor.now self.new.cursor.now (try_ending result) }
        // Over an honest link it is a list with a place.
        ensures list { IsNamed self.old.cursor.now.cursor.space → (r : Reader)
            → ReadMoved (L.log link.old) (L.log link.new) (reader_of (L.awaited link.old) self.old.cursor.now r) (reader_of (L.awaited link.new) self.new.cursor.now (told_try result self.new.cursor.now.current r)) }
        // It lends from the same cursor and session still.
        ensures same_cursor { self.new.cursor.ghost_name ≡ self.old.cursor.ghost_name }
        ensures same_session { self.new.session.0.ghost_name ≡ self.old.session.0.ghost_name }
    {
        self.cursor.try_advance_in(&mut self.session, link)
    }

    /// Advances up to the next document, and says whether there is one. While a reply pends a call goes on over several polls.
    ///
    /// It fails as [`poll_try_advance`](SessionCursorStream::poll_try_advance) does, and with [`ErrorKind::EmptyBatches`](mg_link::ErrorKind::EmptyBatches)
    /// at the 1,000th empty reply in a row. The cursor stays usable.
    pub fn poll_advance<L: Link>(&mut self, link: &mut L) -> AdvancePoll
        requires { IsOut (L.awaited link.old) (client_ticket self.old.cursor.now.cursor) }
        // The tickets of others, the counts, the wire version and the promptness of the link.
        ensures keeps { LinkKeeps (moment (L.awaited link.old) (L.log link.old) (L.faults link.old) (L.pends link.old) (L.wire link.old) (L.prompt link.old))
            (moment (L.awaited link.new) (L.log link.new) (L.faults link.new) (L.pends link.new) (L.wire link.new) (L.prompt link.new))
            (client_ticket self.old.cursor.now.cursor) (client_ticket self.new.cursor.now.cursor) (advance_ending result) }
        // Which commands it sent, how many empty replies it got, and how the cursor stands behind that.
        ensures seeks { (empties starts : ℕ) × SeeksDocument empties (L.awaited link.old) (L.awaited link.new) (L.log link.old) (L.log link.new) (L.wire link.old) (Some self.old.session.0.now) starts self.old.cursor.now self.new.cursor.now result
            × (self.new.session.0.now ≡ times starts after_command self.old.session.0.now) }
        // Whether a document is current.
        ensures current { SeekLeaves result self.new.cursor.now.current }
        // What in the log is the cause of the answer, over all polls of a call.
        ensures caused { SeekCaused (L.awaited link.old) (L.awaited link.new) (L.log link.old) (L.log link.new) (L.wire link.old) (Some self.old.session.0.now) self.old.cursor.now self.new.cursor.now (advance_ending result) }
        // Over an honest link it is a list with a place.
        ensures list { IsNamed self.old.cursor.now.cursor.space → (r : Reader)
            → ReadMoved (L.log link.old) (L.log link.new) (reader_of (L.awaited link.old) self.old.cursor.now r) (reader_of (L.awaited link.new) self.new.cursor.now (told_advance result self.new.cursor.now.current r)) }
        // It lends from the same cursor and session still.
        ensures same_cursor { self.new.cursor.ghost_name ≡ self.old.cursor.ghost_name }
        ensures same_session { self.new.session.0.ghost_name ≡ self.old.session.0.ghost_name }
    {
        self.cursor.advance_in(&mut self.session, link)
    }

    /// Advances up to the next document, and copies it. Where the copy finds no memory, the document is the current one and counts as
    /// given.
    pub fn poll_next<L: Link>(&mut self, link: &mut L) -> ItemPoll
        requires { IsOut (L.awaited link.old) (client_ticket self.old.cursor.now.cursor) }
        // The tickets of others, the counts, the wire version and the promptness of the link.
        ensures keeps { LinkKeeps (moment (L.awaited link.old) (L.log link.old) (L.faults link.old) (L.pends link.old) (L.wire link.old) (L.prompt link.old))
            (moment (L.awaited link.new) (L.log link.new) (L.faults link.new) (L.pends link.new) (L.wire link.new) (L.prompt link.new))
            (client_ticket self.old.cursor.now.cursor) (client_ticket self.new.cursor.now.cursor) (item_ending result) }
        // Which commands it sent, what it gave, and how the cursor stands behind that.
        ensures seeks { (empties starts : ℕ) × SeeksItem empties (L.awaited link.old) (L.awaited link.new) (L.log link.old) (L.log link.new) (L.wire link.old) (Some self.old.session.0.now) starts self.old.cursor.now self.new.cursor.now result
            × (self.new.session.0.now ≡ times starts after_command self.old.session.0.now) }
        // The current document.
        ensures current { ItemLeaves result self.new.cursor.now.current }
        // What in the log is the cause of the answer, over all polls of a call.
        ensures caused { SeekCaused (L.awaited link.old) (L.awaited link.new) (L.log link.old) (L.log link.new) (L.wire link.old) (Some self.old.session.0.now) self.old.cursor.now self.new.cursor.now (item_ending result) }
        // Over an honest link it is a list with a place.
        ensures list { IsNamed self.old.cursor.now.cursor.space → (r : Reader)
            → ReadMoved (L.log link.old) (L.log link.new) (reader_of (L.awaited link.old) self.old.cursor.now r) (reader_of (L.awaited link.new) self.new.cursor.now (told_item result self.new.cursor.now.current r)) }
        // It lends from the same cursor and session still.
        ensures same_cursor { self.new.cursor.ghost_name ≡ self.old.cursor.ghost_name }
        ensures same_session { self.new.session.0.ghost_name ≡ self.old.session.0.ghost_name }
    {
        self.cursor.next_in(&mut self.session, link)
    }

    /// The document that the last advance gave, a part of the reply's own bytes. It takes no memory.
    pub fn current(&self) -> Option<RawDocument<'_>>
        ensures { result ≡ self.now.cursor.now.current }
    {
        self.cursor.current()
    }

    /// Whether the last advance gave a document.
    pub fn has_current(&self) -> bool
        ensures { result ≡ is_some self.now.cursor.now.current }
    {
        self.cursor.has_current()
    }

    /// Whether a document is current, one that was received is left, or the server may hold more.
    pub fn has_next(&self) -> bool
        ensures { IsTrue result ↔ HasMore self.now.cursor.now }
    {
        self.cursor.has_next()
    }

    /// The current document, read as a record. It fails where memory runs out, or where the document is no such record.
    pub fn deserialize_current(&self) -> Result<T, Error>
    where
        T: ReadRaw,
        requires { is_some self.now.cursor.now.current ≡ true }
        ensures { ReadsAs T.stands_for T.seen self.now.cursor.now.current result }
    {
        self.cursor.deserialize_current()
    }
}
