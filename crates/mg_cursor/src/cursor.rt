//! A cursor that gives its documents.
ghost use Rattle.std.specs.Prelude.{◌≡◌, ◌↔◌, ℕ, IsTrue, Bool, None, true, is_some};
ghost use Rattle.mg_link.specs.Acts.{IsOut};
ghost use Rattle.mg_link.specs.Moment.{LinkKeeps, moment};
ghost use Rattle.mg_server.specs.Reader.{ReadMoved, Reader};
ghost use Rattle.mg_ops.specs.Naming.{IsNamed};
ghost use Rattle.mg_cursor.specs.Client.{client_ticket, pinned_to};
ghost use Rattle.mg_cursor.specs.Closing.{closed};
ghost use Rattle.mg_cursor.specs.Documents.{HasMore, ReadsAs, try_ending};
ghost use Rattle.mg_cursor.specs.Reading.{reader_of, told_advance, told_item, told_try};
ghost use Rattle.mg_cursor.specs.Seeking.{ItemLeaves, SeekCaused, SeekLeaves, SeeksDocument, SeeksItem, TriesAdvance, TryLeaves, advance_ending, item_ending};

use crate::closing::Closing;
use crate::documents::Documents;
use crate::new_cursor::NewCursor;
use crate::polls::{AdvancePoll, ItemPoll, TryPoll};
use mg_bson::RawDocument;
use mg_link::{Error, ImplicitClientSessionHandle, Link};
use mg_ops::CursorSpecification;
use mg_records::ReadRaw;
use std::alloc::Global;
use std::marker::{Model, PhantomData};

/// A cursor whose documents are given one by one, and may be read as records of a type. Its batches stay in the replies that they
/// came in, and a document is lent from there.
///
/// One that is dropped sends nothing: [`close`](Cursor::close) kills it.
///
///     let mut cursor: Cursor<Document> = Cursor::new_cursor(alloc, specification);
///     while let AdvancePoll::Ready(true) = cursor.poll_advance(&mut link) {
///         let document = cursor.deserialize_current()?;
///     }
pub struct Cursor<T> {
    documents: Documents,
    document: PhantomData<T>,
}

// By hand, so that letting one go is one call.
impl<T> Drop for Cursor<T> {
    fn drop(self) {
        let Cursor {
            documents: _,
            document: _,
        } = self;
    }
}

impl<T> Model for Cursor<T> {
    ghost use Rattle.std.specs.Prelude.{true};
    ghost use Rattle.mg_cursor.specs.Client.{IsSound};
    ghost use Rattle.mg_cursor.specs.Documents.{DocumentCursor, coded_documents};
    ghost use Rattle.mg_cursor.specs.View.{document_cursor};

    ghost Value = { DocumentCursor };

    ghost coded = { coded_documents };

    ghost view = { λ c. document_cursor c.documents };

    ghost invariant = { λ c. IsSound true (document_cursor c.documents).cursor };
}

impl<T> NewCursor for Cursor<T> {
    ghost use Rattle.std.specs.Prelude.{◌≡◌};
    ghost use Rattle.mg_cursor.specs.Client.{new_client};
    ghost use Rattle.mg_cursor.specs.Documents.{new_documents};

    ghost is_opened = { λ s c. c ≡ new_documents (new_client s) };

    fn new_cursor(alloc: Global, specification: CursorSpecification) -> Cursor<T> {
        Cursor {
            documents: Documents::new(alloc, specification),
            document: PhantomData,
        }
    }
}

impl<T> Cursor<T> {
    /// One advance: the next document received becomes the current one, which takes no memory and always succeeds; where none is
    /// left, one batch is asked for. An empty one is [`AdvanceResult::Waiting`](crate::AdvanceResult::Waiting).
    ///
    /// It fails as [`RawBatchCursor::poll_next`](crate::RawBatchCursor::poll_next) does, and where an item of a batch is no document.
    /// Then no document is current and none is left, and the cursor stays usable; the batch that was asked for may be lost.
    pub fn poll_try_advance<L: Link>(&mut self, link: &mut L) -> TryPoll
        requires { IsOut (L.awaited link.old) (client_ticket self.old.cursor) }
        // The tickets of others, the counts, the wire version and the promptness of the link.
        ensures keeps { LinkKeeps (moment (L.awaited link.old) (L.log link.old) (L.faults link.old) (L.pends link.old) (L.wire link.old) (L.prompt link.old))
            (moment (L.awaited link.new) (L.log link.new) (L.faults link.new) (L.pends link.new) (L.wire link.new) (L.prompt link.new))
            (client_ticket self.old.cursor) (client_ticket self.new.cursor) (try_ending result) }
        // Which commands it sent, what it gave, and how the cursor stands behind that.
        ensures tries { (started : Bool) × TriesAdvance (L.awaited link.old) (L.awaited link.new) (L.log link.old) (L.log link.new) (L.wire link.old) None started self.old self.new result }
        // Whether a document is current.
        ensures current { TryLeaves result self.new.current }
        // What in the log is the cause of the answer, over all polls of a call.
        ensures caused { SeekCaused (L.awaited link.old) (L.awaited link.new) (L.log link.old) (L.log link.new) (L.wire link.old) None self.old self.new (try_ending result) }
        // Over an honest link it is a list with a place.
        ensures list { IsNamed self.old.cursor.space → (r : Reader)
            → ReadMoved (L.log link.old) (L.log link.new) (reader_of (L.awaited link.old) self.old r) (reader_of (L.awaited link.new) self.new (told_try result self.new.current r)) }
    {
        let mut handle = ImplicitClientSessionHandle(None);
        self.documents.poll_try_advance(&mut handle, link)
    }

    /// Advances up to the next document, and says whether there is one. While a reply pends a call goes on over several polls.
    ///
    /// It fails as [`poll_try_advance`](Cursor::poll_try_advance) does, and with [`ErrorKind::EmptyBatches`](mg_link::ErrorKind::EmptyBatches)
    /// at the 1,000th empty reply in a row. The cursor stays usable.
    pub fn poll_advance<L: Link>(&mut self, link: &mut L) -> AdvancePoll
        requires { IsOut (L.awaited link.old) (client_ticket self.old.cursor) }
        // The tickets of others, the counts, the wire version and the promptness of the link.
        ensures keeps { LinkKeeps (moment (L.awaited link.old) (L.log link.old) (L.faults link.old) (L.pends link.old) (L.wire link.old) (L.prompt link.old))
            (moment (L.awaited link.new) (L.log link.new) (L.faults link.new) (L.pends link.new) (L.wire link.new) (L.prompt link.new))
            (client_ticket self.old.cursor) (client_ticket self.new.cursor) (advance_ending result) }
        // Which commands it sent, how many empty replies it got, and how the cursor stands behind that.
        ensures seeks { (empties starts : ℕ) × SeeksDocument empties (L.awaited link.old) (L.awaited link.new) (L.log link.old) (L.log link.new) (L.wire link.old) None starts self.old self.new result }
        // Whether a document is current.
        ensures current { SeekLeaves result self.new.current }
        // What in the log is the cause of the answer, over all polls of a call.
        ensures caused { SeekCaused (L.awaited link.old) (L.awaited link.new) (L.log link.old) (L.log link.new) (L.wire link.old) None self.old self.new (advance_ending result) }
        // Over an honest link it is a list with a place.
        ensures list { IsNamed self.old.cursor.space → (r : Reader)
            → ReadMoved (L.log link.old) (L.log link.new) (reader_of (L.awaited link.old) self.old r) (reader_of (L.awaited link.new) self.new (told_advance result self.new.current r)) }
    {
        let mut handle = ImplicitClientSessionHandle(None);
        self.documents.poll_advance(&mut handle, link)
    }

    /// Advances up to the next document, and copies it. Where the copy finds no memory, the document is the current one and counts as
    /// given.
    pub fn poll_next<L: Link>(&mut self, link: &mut L) -> ItemPoll
        requires { IsOut (L.awaited link.old) (client_ticket self.old.cursor) }
        // The tickets of others, the counts, the wire version and the promptness of the link.
        ensures keeps { LinkKeeps (moment (L.awaited link.old) (L.log link.old) (L.faults link.old) (L.pends link.old) (L.wire link.old) (L.prompt link.old))
            (moment (L.awaited link.new) (L.log link.new) (L.faults link.new) (L.pends link.new) (L.wire link.new) (L.prompt link.new))
            (client_ticket self.old.cursor) (client_ticket self.new.cursor) (item_ending result) }
        // Which commands it sent, what it gave, and how the cursor stands behind that.
        ensures seeks { (empties starts : ℕ) × SeeksItem empties (L.awaited link.old) (L.awaited link.new) (L.log link.old) (L.log link.new) (L.wire link.old) None starts self.old self.new result }
        // The current document.
        ensures current { ItemLeaves result self.new.current }
        // What in the log is the cause of the answer, over all polls of a call.
        ensures caused { SeekCaused (L.awaited link.old) (L.awaited link.new) (L.log link.old) (L.log link.new) (L.wire link.old) None self.old self.new (item_ending result) }
        // Over an honest link it is a list with a place.
        ensures list { IsNamed self.old.cursor.space → (r : Reader)
            → ReadMoved (L.log link.old) (L.log link.new) (reader_of (L.awaited link.old) self.old r) (reader_of (L.awaited link.new) self.new (told_item result self.new.current r)) }
    {
        let mut handle = ImplicitClientSessionHandle(None);
        self.documents.poll_next(&mut handle, link)
    }

    /// Binds the cursor to the connection of this number.
    pub fn pin(&mut self, id: u64)
        ensures { self.new ≡ record self.old { cursor = pinned_to id self.old.cursor } }
    {
        self.documents.pin(id);
    }

    /// The document that the last advance gave, a part of the reply's own bytes. It takes no memory.
    pub fn current(&self) -> Option<RawDocument<'_>>
        ensures { result ≡ self.now.current }
    {
        self.documents.current()
    }

    /// Whether the last advance gave a document.
    pub fn has_current(&self) -> bool
        ensures { result ≡ is_some self.now.current }
    {
        self.documents.has_current()
    }

    /// Whether a document is current, one that was received is left, or the server may hold more.
    pub fn has_next(&self) -> bool
        ensures { IsTrue result ↔ HasMore self.now }
    {
        self.documents.has_next()
    }

    /// The current document, read as a record. It fails where memory runs out, or where the document is no such record.
    pub fn deserialize_current(&self) -> Result<T, Error>
    where
        T: ReadRaw,
        requires { is_some self.now.current ≡ true }
        ensures { ReadsAs T.stands_for T.seen self.now.current result }
    {
        self.documents.read_current()
    }

    /// The same cursor, whose documents are read as other records.
    pub fn with_type<D: ReadRaw>(self) -> Cursor<D>
        ensures { result ≡ self }
    {
        let Cursor {
            documents,
            document: _,
        } = self;
        Cursor {
            documents,
            document: PhantomData,
        }
    }

    /// The number of the ticket that it holds, while it waits for a reply.
    pub fn ticket_number(&self) -> Option<u64>
        ensures { result ≡ client_ticket self.now.cursor }
    {
        self.documents.ticket_number()
    }

    /// Closes the cursor. Nothing is sent until the closing is polled.
    pub fn close(self) -> Closing
        ensures { result ≡ closed self.cursor }
    {
        let Cursor {
            documents,
            document: _,
        } = self;
        documents.close()
    }
}
