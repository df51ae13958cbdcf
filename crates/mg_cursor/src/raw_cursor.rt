//! A cursor that gives its batches.
ghost use Rattle.std.specs.Prelude.{◌≡◌, ◌↔◌, IsTrue, Bool, None, pos};
ghost use Rattle.mg_link.specs.Acts.{IsOut};
ghost use Rattle.mg_link.specs.Moment.{LinkKeeps, moment};
ghost use Rattle.mg_server.specs.Reader.{ReadMoved, Reader};
ghost use Rattle.mg_ops.specs.Naming.{IsNamed};
ghost use Rattle.mg_cursor.specs.Causes.{NextCaused};
ghost use Rattle.mg_cursor.specs.Client.{HasNext, client_ticket, pinned_to};
ghost use Rattle.mg_cursor.specs.Closing.{closed};
ghost use Rattle.mg_cursor.specs.Polling.{PollsNext, next_ending};
ghost use Rattle.mg_cursor.specs.Reading.{reader_in, told_next};

use crate::batches::Batches;
use crate::closing::Closing;
use crate::new_cursor::NewCursor;
use crate::polls::NextPoll;
use mg_link::{ImplicitClientSessionHandle, Link};
use mg_ops::CursorSpecification;
use std::alloc::Global;
use std::marker::Model;

/// A cursor whose batches are handed out one by one, as the replies that they came in.
///
/// One that is dropped sends nothing: [`close`](RawBatchCursor::close) kills it.
///
///     let mut cursor = RawBatchCursor::new_cursor(alloc, specification);
///     while let NextPoll::Batch(batch) = cursor.poll_next(&mut link) {
///         for value in &batch.doc_slices()? { .. }
///     }
pub struct RawBatchCursor {
    batches: Batches,
}

// By hand, so that letting one go is one call.
impl Drop for RawBatchCursor {
    fn drop(self) {
        let RawBatchCursor { batches: _ } = self;
    }
}

impl Model for RawBatchCursor {
    ghost use Rattle.std.specs.Prelude.{true};
    ghost use Rattle.mg_cursor.specs.Client.{ClientCursor, IsSound};
    ghost use Rattle.mg_cursor.specs.ClientCode.{coded_client};
    ghost use Rattle.mg_cursor.specs.View.{client_of};

    ghost Value = { ClientCursor };

    ghost coded = { coded_client };

    ghost view = { λ c. client_of c.batches };

    ghost invariant = { λ c. IsSound true (client_of c.batches) };
}

impl NewCursor for RawBatchCursor {
    ghost use Rattle.std.specs.Prelude.{◌≡◌};
    ghost use Rattle.mg_cursor.specs.Client.{new_client};

    ghost is_opened = { λ s c. c ≡ new_client s };

    fn new_cursor(alloc: Global, specification: CursorSpecification) -> RawBatchCursor {
        RawBatchCursor {
            batches: Batches::new(alloc, specification),
        }
    }
}

impl RawBatchCursor {
    /// Binds the cursor to the connection of this number.
    pub fn pin(&mut self, id: u64)
        ensures { self.new ≡ pinned_to id self.old }
    {
        self.batches.pin(id);
    }

    /// The next batch. A call goes on over several polls while its reply pends, and sends at most one getMore.
    ///
    /// It ends where the server holds the cursor no longer and its last batch was handed out, and where the connection that the
    /// cursor is bound to was lost. It fails with [`ErrorKind::Io`](mg_link::ErrorKind::Io) where the link did, with the refusal
    /// of the server, with what is malformed in a reply, with a size of batches or a command that cannot be sent, or for want of
    /// memory. Then the batch that was asked for may be lost, and the next call asks for the one behind it, unless the server holds
    /// the cursor no longer or the connection that it is bound to was lost.
    pub fn poll_next<L: Link>(&mut self, link: &mut L) -> NextPoll
        requires { IsOut (L.awaited link.old) (client_ticket self.old) }
        // The tickets of others, the counts, the wire version and the promptness of the link.
        ensures keeps { LinkKeeps (moment (L.awaited link.old) (L.log link.old) (L.faults link.old) (L.pends link.old) (L.wire link.old) (L.prompt link.old))
            (moment (L.awaited link.new) (L.log link.new) (L.faults link.new) (L.pends link.new) (L.wire link.new) (L.prompt link.new))
            (client_ticket self.old) (client_ticket self.new) (next_ending result) }
        // Which commands it sent, and how the cursor stands behind what it heard.
        ensures polls { (started : Bool) × PollsNext (L.awaited link.old) (L.awaited link.new) (L.log link.old) (L.log link.new) (L.wire link.old) None started self.old self.new result }
        // What in the log is the cause of the answer, over all polls of a call.
        ensures caused { NextCaused (L.awaited link.old) (L.awaited link.new) (L.log link.old) (L.log link.new) (L.wire link.old) None self.old self.new result }
        // Over an honest link it is a list with a place.
        ensures list { IsNamed self.old.space → (r : Reader)
            → ReadMoved (L.log link.old) (L.log link.new) (reader_in (L.awaited link.old) self.old r) (reader_in (L.awaited link.new) self.new (told_next result r)) }
    {
        let mut handle = ImplicitClientSessionHandle(None);
        self.batches.poll_next(&mut handle, link)
    }

    /// Whether the server may hold more, or the reply in hand holds documents.
    pub fn has_next(&self) -> bool
        ensures { IsTrue result ↔ HasNext self.now }
    {
        self.batches.has_next()
    }

    /// Whether the server holds the cursor no longer.
    pub fn is_exhausted(&self) -> bool
        ensures { IsTrue result ↔ (self.now.id ≡ pos 0) }
    {
        self.batches.is_exhausted()
    }

    /// The number of the ticket that it holds, while it waits for a reply.
    pub fn ticket_number(&self) -> Option<u64>
        ensures { result ≡ client_ticket self.now }
    {
        self.batches.ticket_number()
    }

    /// Closes the cursor. Nothing is sent until the closing is polled.
    pub fn close(self) -> Closing
        ensures { result ≡ closed self }
    {
        let RawBatchCursor { batches } = self;
        batches.close()
    }
}
