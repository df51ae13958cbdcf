//! The batches of a cursor, one machine for all cursors.
ghost use Rattle.std.specs.Prelude.{◌≡◌, ◌↔◌, IfErr, IfOk, IsTrue, OnErr, OnOk, Bool, None, false, option_copied, pos, if◌then◌else◌};
ghost use Rattle.mg_bson.specs.Tree.{Items};
ghost use Rattle.mg_link.specs.Acts.{IsOut};
ghost use Rattle.mg_link.specs.Exec.{Sending, ticket_of};
ghost use Rattle.mg_link.specs.Moment.{LinkKeeps, moment};
ghost use Rattle.mg_link.specs.Namespace.{space};
ghost use Rattle.mg_server.specs.Reader.{ReadMoved, Reader};
ghost use Rattle.mg_steps.specs.Cursors.{KillsIf};
ghost use Rattle.mg_ops.specs.Failing.{CannotBeSent, FailsBy};
ghost use Rattle.mg_ops.specs.Naming.{IsNamed};
ghost use Rattle.mg_cursor.specs.Causes.{NextCaused};
ghost use Rattle.mg_cursor.specs.Client.{HasNext, HoldsItems, IsNew, IsOver, IsSound, MayAsk, PlainIf, asking_by, behind_kind, behind_reply, client_ticket, get_more, kill, new_client, pinned_behind, pinned_to, reply_in, rests, without_reply};
ghost use Rattle.mg_cursor.specs.Closing.{LandsIn, closed};
ghost use Rattle.mg_cursor.specs.Polling.{CannotAsk, Hears, PollsNext, ReadsReply, RunsMore, next_ending};
ghost use Rattle.mg_cursor.specs.Reading.{reader_in, told_next};
ghost use Rattle.mg_cursor.specs.View.{client_of, doing_of, told_by};

use crate::closing::Closing;
use crate::commands::{ask, kill};
use crate::fault::ends_cursor;
use crate::polls::NextPoll;
use crate::raw_batch::RawBatch;
use mg_bson::RawDocumentBuf;
use mg_exec::Exec;
use mg_link::{
    Action, ClientSession, ClientSessionHandle, Error, Link, Namespace, PinnedConnection, Step,
};
use mg_ops::{CursorInformation, CursorSpecification, GetMoreResult, read_more};
use mg_options::{ResumeToken, TokenRef};
use mg_steps::{has_next, is_over, is_to_kill};
use std::alloc::Global;
use std::mem;

// What is in hand, or on its way.
#[derive(Drop)]
pub(crate) enum Flight {
    Nothing,
    // A reply whose batch was not handed out.
    Reply(RawBatch),
    // The getMore of the next batch.
    More(Exec),
}

/// The batches of a cursor, which are asked for one by one. All cursors are made of it, and it is public for streams that stand
/// on it; how they hold their session is handed to each call.
pub struct Batches {
    alloc: Global,
    // The cursor, whose id is 0 where the server holds it no longer.
    cursor: CursorInformation,
    pinned: PinnedConnection,
    // The token behind the newest batch.
    token: Option<ResumeToken>,
    flight: Flight,
}

// By hand, so that letting one go is one call.
impl Drop for Batches {
    fn drop(self) {
        let Batches {
            alloc: _,
            cursor: _,
            pinned: _,
            token: _,
            flight: _,
        } = self;
    }
}

impl Batches {
    /// The batches of a cursor that was opened so, the first of which is in hand. It is bound to no connection. It takes no memory.
    pub fn new(alloc: Global, specification: CursorSpecification) -> Batches
        ensures { client_of result ≡ new_client specification }
    {
        let CursorSpecification {
            info,
            initial_reply,
            is_empty: _,
            post_batch_resume_token,
        } = specification;
        Batches {
            alloc,
            cursor: info,
            pinned: PinnedConnection::Unpinned,
            token: post_batch_resume_token,
            flight: Flight::Reply(RawBatch::new(initial_reply)),
        }
    }

    /// Binds the cursor to the connection of this number.
    pub fn pin(&mut self, id: u64)
        ensures { client_of self.new ≡ pinned_to id (client_of self.old) }
    {
        self.pinned = PinnedConnection::Valid(id);
    }

    /// The next batch. A call goes on over several polls while its reply pends, and sends at most one getMore.
    ///
    /// It fails with [`ErrorKind::Io`](mg_link::ErrorKind::Io) where the link did, with the refusal of the server, with what is
    /// malformed in a reply, with a size of batches or a command that cannot be sent, or for want of memory. Then the batch that was
    /// asked for may be lost; the next call asks for the one behind it, unless the server holds the cursor no longer or the
    /// connection that it is bound to was lost.
    pub fn poll_next<H: ClientSessionHandle, L: Link>(
        &mut self,
        handle: &mut H,
        link: &mut L,
    ) -> NextPoll
        requires { IsOut (L.awaited link.old) (client_ticket (client_of self.old)) }
        // The tickets of others, the counts, the wire version and the promptness of the link.
        ensures keeps { LinkKeeps (moment (L.awaited link.old) (L.log link.old) (L.faults link.old) (L.pends link.old) (L.wire link.old) (L.prompt link.old))
            (moment (L.awaited link.new) (L.log link.new) (L.faults link.new) (L.pends link.new) (L.wire link.new) (L.prompt link.new))
            (client_ticket (client_of self.old)) (client_ticket (client_of self.new)) (next_ending result) }
        // Which commands it sent, how the cursor stands behind what it heard, and whether the session is told of a command.
        ensures polls { (started : Bool) × PollsNext (L.awaited link.old) (L.awaited link.new) (L.log link.old) (L.log link.new) (L.wire link.old) (H.asked handle.old) started (client_of self.old) (client_of self.new) result
            × (handle.new ≡ (if started then H.told handle.old else handle.old)) }
        // What is on its way is the getMore of this cursor.
        ensures sound { (plain : Bool) → IsSound plain (client_of self.old) → PlainIf plain (H.asked handle.old) → IsSound plain (client_of self.new) }
        // What in the log is the cause of the answer, over all polls of a call.
        ensures caused { (plain : Bool) → IsSound plain (client_of self.old) → NextCaused (L.awaited link.old) (L.awaited link.new) (L.log link.old) (L.log link.new) (L.wire link.old) (H.asked handle.old) (client_of self.old) (client_of self.new) result }
        // Over an honest link it is a list with a place.
        ensures list { (plain : Bool) → IsSound plain (client_of self.old) → IsNamed (client_of self.old).space → (r : Reader)
            → ReadMoved (L.log link.old) (L.log link.new) (reader_in (L.awaited link.old) (client_of self.old) r) (reader_in (L.awaited link.new) (client_of self.new) (told_next result r)) }
    {
        match self.take() {
            Flight::Nothing => self.begin(handle, link),
            Flight::Reply(batch) => NextPoll::Batch(batch),
            Flight::More(exec) => self.go_on(handle, link, exec),
        }
    }

    /// Whether a getMore is to be built: nothing is in hand or on its way, the server holds the cursor, and the connection that it is bound to was
    /// not lost.
    pub fn is_to_ask(&self) -> bool
        ensures { IsTrue result ↔ (((client_of self.now).doing ≡ rests) × MayAsk (client_of self.now)) }
    {
        if self.is_over() {
            return false;
        }
        match &self.flight {
            Flight::Nothing => true,
            Flight::Reply(_) => false,
            Flight::More(_) => false,
        }
    }

    /// Builds the getMore, which the next call of [`poll_next`](Batches::poll_next) or [`land`](Batches::land), or the first poll of a closing,
    /// sends. It fails with a size of batches or a command that cannot be sent, or for want of memory, and then nothing has changed.
    pub fn prepare(&mut self, session: Option<&ClientSession>, wire: i32) -> Result<(), Error>
        requires { ((client_of self.old).doing ≡ rests) × MayAsk (client_of self.old) }
        ensures built { OnOk result ((sending : Sending) × IsNew (get_more (client_of self.old) (option_copied session.entry)) sending × (client_of self.new ≡ asking_by sending (client_of self.old))) }
        ensures err { IfErr result (λ e. FailsBy (CannotAsk (client_of self.old) (option_copied session.entry)) e) }
        ensures stays { OnErr result (client_of self.new ≡ client_of self.old) }
    {
        let exec = ask(self.alloc, &self.cursor, wire, session)?;
        self.flight = Flight::More(exec);
        Ok(())
    }

    /// Hands out the reply in hand, where there is one. Nothing is sent.
    pub fn take_batch(&mut self) -> Option<RawBatch>
        ensures batch { result ≡ reply_in (client_of self.old).doing }
        ensures rest { client_of self.new ≡ record (client_of self.old) { doing = without_reply (client_of self.old).doing } }
    {
        match self.take() {
            Flight::Nothing => None,
            Flight::Reply(batch) => Some(batch),
            Flight::More(exec) => {
                self.flight = Flight::More(exec);
                None
            }
        }
    }

    /// Whether the server may hold more, or the reply in hand holds documents.
    pub fn has_next(&self) -> bool
        ensures { IsTrue result ↔ HasNext (client_of self.now) }
    {
        has_next(self.cursor.id, self.holds_items())
    }

    /// Whether the server holds the cursor no longer.
    pub fn is_exhausted(&self) -> bool
        ensures { IsTrue result ↔ ((client_of self.now).id ≡ pos 0) }
    {
        self.cursor.id == 0
    }

    /// The id of the cursor, 0 where the server holds it no longer.
    pub fn id(&self) -> i64
        ensures { result ≡ (client_of self.now).id }
    {
        self.cursor.id
    }

    /// The namespace that its commands name.
    pub fn namespace(&self) -> &Namespace
        ensures { space result.now ≡ (client_of self.now).space }
    {
        &self.cursor.ns
    }

    /// The token behind the newest batch.
    pub fn token(&self) -> Option<TokenRef<'_>>
        ensures { result ≡ (client_of self.now).token }
    {
        match &self.token {
            Some(token) => Some(token.as_ref()),
            None => None,
        }
    }

    /// Takes that token out. It takes no memory.
    pub fn take_token(&mut self) -> Option<ResumeToken>
        ensures token { result ≡ (client_of self.old).token }
        ensures rest { client_of self.new ≡ record (client_of self.old) { token = None } }
    {
        self.token.take()
    }

    /// The number of the ticket that it holds, while it waits for a reply.
    pub fn ticket_number(&self) -> Option<u64>
        ensures { result ≡ client_ticket (client_of self.now) }
    {
        match &self.flight {
            Flight::Nothing => None,
            Flight::Reply(_) => None,
            Flight::More(exec) => exec.ticket_number(),
        }
    }

    // Where its memory comes from.
    pub(crate) fn allocator(&self) -> Global {
        self.alloc
    }

    /// Closes the cursor. Nothing is sent until the closing is polled.
    pub fn close(self) -> Closing
        requires { IsSound false (client_of self) }
        ensures { result ≡ closed (client_of self) }
    {
        Closing::new(self)
    }

    /// Whether no command of it is sent any more: the server holds it no longer, or the connection that it is bound to was lost.
    pub(crate) fn is_over(&self) -> bool
        ensures { IsTrue result ↔ IsOver (client_of self.now) }
    {
        is_over(self.cursor.id, self.pinned)
    }

    // Whether it is killed as it is closed.
    pub(crate) fn is_to_kill(&self) -> bool
        ensures { KillsIf result (client_of self.now).id (client_of self.now).pinned }
    {
        is_to_kill(self.cursor.id, self.pinned)
    }

    // Its killCursors.
    pub(crate) fn kill_command(&self, wire: i32) -> Result<Exec, Error>
        ensures ok { IfOk result (λ s. IsNew (kill (client_of self.now)) s) }
        ensures err { IfErr result (λ e. FailsBy (CannotBeSent (kill (client_of self.now))) e) }
    {
        kill(self.alloc, &self.cursor, wire)
    }

    /// Waits for the reply to the getMore that is on its way, and sends one that was built. Where there is none, a reply in hand is let go, and
    /// nothing more comes. It fails as [`poll_next`](Batches::poll_next) does.
    pub fn land<L: Link>(&mut self, link: &mut L) -> NextPoll
        requires { IsOut (L.awaited link.old) (client_ticket (client_of self.old)) }
        // The tickets of others, the counts, the wire version and the promptness of the link.
        ensures keeps { LinkKeeps (moment (L.awaited link.old) (L.log link.old) (L.faults link.old) (L.pends link.old) (L.wire link.old) (L.prompt link.old))
            (moment (L.awaited link.new) (L.log link.new) (L.faults link.new) (L.pends link.new) (L.wire link.new) (L.prompt link.new))
            (client_ticket (client_of self.old)) (client_ticket (client_of self.new)) (next_ending result) }
        // What comes of the getMore on its way, and nothing else is sent.
        ensures lands { LandsIn (L.awaited link.old) (L.awaited link.new) (L.log link.old) (L.log link.new) (L.wire link.old) (client_of self.old) (client_of self.new) result }
        ensures sound { IsSound false (client_of self.old) → IsSound false (client_of self.new) }
    {
        match self.take() {
            Flight::Nothing => NextPoll::End,
            Flight::Reply(_) => NextPoll::End,
            Flight::More(exec) => {
                let step = exec.poll(link);
                self.hear(step)
            }
        }
    }

    // Whether a reply in hand holds documents.
    fn holds_items(&self) -> bool
        ensures { IsTrue result ↔ HoldsItems (doing_of self.now.flight) }
    {
        match &self.flight {
            Flight::Nothing => false,
            Flight::Reply(batch) => batch.has_items(),
            Flight::More(_) => false,
        }
    }

    // Takes out what is in hand or on its way.
    fn take(&mut self) -> Flight
        ensures taken { result ≡ self.old.flight }
        ensures rest { self.new ≡ record self.old { flight = Flight.Nothing } }
    {
        mem::replace(&mut self.flight, Flight::Nothing)
    }

    // Asks for the next batch, unless nothing is asked for any more.
    fn begin<H: ClientSessionHandle, L: Link>(&mut self, handle: &mut H, link: &mut L) -> NextPoll
        requires { self.old.flight ≡ Flight.Nothing }
        // The tickets of others, the counts, the wire version and the promptness of the link.
        ensures keeps { LinkKeeps (moment (L.awaited link.old) (L.log link.old) (L.faults link.old) (L.pends link.old) (L.wire link.old) (L.prompt link.old))
            (moment (L.awaited link.new) (L.log link.new) (L.faults link.new) (L.pends link.new) (L.wire link.new) (L.prompt link.new))
            (None) (client_ticket (client_of self.new)) (next_ending result) }
        ensures polls { (started : Bool) × PollsNext (L.awaited link.old) (L.awaited link.new) (L.log link.old) (L.log link.new) (L.wire link.old) (H.asked handle.old) started (client_of self.old) (client_of self.new) result
            × (handle.new ≡ (if started then H.told handle.old else handle.old)) }
    {
        if self.is_over() {
            return NextPoll::End;
        }
        match ask(
            self.alloc,
            &self.cursor,
            link.wire_version(),
            handle.asked(),
        ) {
            Ok(exec) => self.go_on(handle, link, exec),
            Err(error) => NextPoll::Failed(error),
        }
    }

    // Sends a getMore or waits for its reply, and tells the session of one that was started.
    fn go_on<H: ClientSessionHandle, L: Link>(
        &mut self,
        handle: &mut H,
        link: &mut L,
        exec: Exec,
    ) -> NextPoll
        requires held { IsOut (L.awaited link.old) (ticket_of exec) }
        requires idle { self.old.flight ≡ Flight.Nothing }
        // The tickets of others, the counts, the wire version and the promptness of the link.
        ensures keeps { LinkKeeps (moment (L.awaited link.old) (L.log link.old) (L.faults link.old) (L.pends link.old) (L.wire link.old) (L.prompt link.old))
            (moment (L.awaited link.new) (L.log link.new) (L.faults link.new) (L.pends link.new) (L.wire link.new) (L.prompt link.new))
            (ticket_of exec) (client_ticket (client_of self.new)) (next_ending result) }
        ensures asks { (started : Bool) × RunsMore (L.awaited link.old) (L.awaited link.new) (L.log link.old) (L.log link.new) (L.wire link.old) started (client_of self.old) exec (client_of self.new) result
            × (handle.new ≡ (if started then H.told handle.old else handle.old)) }
    {
        let (step, started) = exec.poll_started(link);
        tell(handle, started);
        self.hear(step)
    }

    // What came of a poll of its getMore.
    fn hear(&mut self, step: Step<Exec, RawDocumentBuf>) -> NextPoll
        requires { self.old.flight ≡ Flight.Nothing }
        ensures { Hears (client_of self.old) step (client_of self.new) result }
    {
        match step {
            Step::Pending(exec) => {
                self.flight = Flight::More(exec);
                NextPoll::Pending
            }
            Step::Done(reply) => self.read(reply),
            Step::Failed(error) => {
                self.note(&error);
                NextPoll::Failed(error)
            }
        }
    }

    // Reads the reply to a getMore.
    fn read(&mut self, reply: RawDocumentBuf) -> NextPoll
        requires { self.old.flight ≡ Flight.Nothing }
        ensures { ReadsReply (client_of self.old) reply (client_of self.new) result }
    {
        match read_more(self.alloc, reply) {
            Ok(gave) => NextPoll::Batch(self.keep(gave)),
            Err(error) => NextPoll::Failed(error),
        }
    }

    // Keeps what a reply tells of the cursor.
    fn keep(&mut self, gave: GetMoreResult) -> RawBatch
        requires { self.old.flight ≡ Flight.Nothing }
        ensures batch { result ≡ gave.raw_reply }
        ensures kept { (batch : Items) → client_of self.new ≡ behind_reply (told_by gave batch) (client_of self.old) }
    {
        let GetMoreResult {
            raw_reply,
            exhausted: _,
            post_batch_resume_token,
            ns,
            id,
        } = gave;
        self.cursor.id = id;
        self.cursor.ns = ns;
        self.pinned = pinned_behind(id, self.pinned);
        drop(mem::replace(&mut self.token, post_batch_resume_token));
        RawBatch::new(raw_reply)
    }

    // Notes what an error says of the cursor: that the server holds it no longer, or that its connection was lost.
    fn note(&mut self, error: &Error)
        ensures { client_of self.new ≡ behind_kind error.now.kind (client_of self.old) }
    {
        if ends_cursor(error) {
            self.cursor.id = 0;
            self.pinned = PinnedConnection::Unpinned;
        } else if error.is_network_error() {
            self.pinned = self.pinned.invalidated();
        }
    }
}

// Tells the session of a command that was started.
fn tell<H: ClientSessionHandle>(handle: &mut H, started: bool)
    ensures { handle.new ≡ (if started then H.told handle.old else handle.old) }
{
    if started {
        handle.command_started();
    }
}

// The connection of a cursor with this id. One that the server holds no longer is bound to none.
fn pinned_behind(id: i64, pinned: PinnedConnection) -> PinnedConnection
    ensures { result ≡ pinned_behind id pinned }
{
    if id == 0 {
        PinnedConnection::Unpinned
    } else {
        pinned
    }
}
