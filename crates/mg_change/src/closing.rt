//! The closing of a change stream.
ghost use Rattle.std.specs.Prelude.{◌≡◌, ◌≢◌, ◌++◌, ℕ, [], IfErr, IfOk, List, OnErr, OnOk, None, Option, Some, option_and_then, pos, true};
ghost use Rattle.mg_bson.specs.Tree.{Fields, Tree};
ghost use Rattle.mg_link.specs.Acts.{EndsAtOnce, FailsByFault, IsOut, Pended, Tickets, ticket_after};
ghost use Rattle.mg_link.specs.Errors.{plain};
ghost use Rattle.mg_link.specs.Exec.{ticket_of};
ghost use Rattle.mg_server.specs.Follow.{Moved};
ghost use Rattle.mg_link.specs.Link.{Later};
ghost use Rattle.mg_link.specs.Moment.{LinkKeeps, moment, step_ending};
ghost use Rattle.mg_server.specs.State.{Start, Watch};
ghost use Rattle.mg_link.specs.declared.error.ErrorKind.TheVariants as kind;
ghost use Rattle.mg_cursor.specs.Client.{client_ticket};
ghost use Rattle.mg_cursor.specs.Closing.{IsNotAsking, closing_ticket};
ghost use Rattle.mg_cursor.specs.View.{client_of, current_of};
ghost use Rattle.mg_change.specs.ClientStreams.{id_in, token_known};
ghost use Rattle.mg_change.specs.ClosingCauses.{ClosingCaused};
ghost use Rattle.mg_change.specs.ClosingStreams.{BehindOpening, ClosesStream, IsSoundClosing, IsToKill, KillsLeft, Landing, LandsFor, PassesOver, RunsKill, handed_over, ids_left, landing_of, landing_ticket, lands, lands_aggregate, lands_replaced, stream_closing_ticket, unless_none};
ghost use Rattle.mg_change.specs.ClosingView.{IsClosingIn, closing_in, landing_in, remains_token};
ghost use Rattle.mg_change.specs.Following.{OnPending, follow_closed, follow_closing};
ghost use Rattle.mg_change.specs.StreamView.{SavesWhile, doing_of, is_lent, token_lying, with_token};

use crate::changes::{Phase, event_token, saved_token};
use crate::commands::kill;
use mg_bson::RawDocumentBuf;
use mg_cursor::{BatchBuffer, Batches, NextPoll, is_memory};
use mg_exec::Exec;
use mg_link::{Action, Error, Link, Step};
use mg_ops::{ChangeStreamAggregate, Operation};
use mg_options::{ResumeToken, TokenRef};
use mg_steps::TokenPlace;
use std::alloc::Global;
use std::marker::Model;

// What is on its way as a stream is closed, besides a getMore of its cursor.
#[derive(Drop)]
pub(crate) enum Underway {
    Lands,
    // The aggregate of a resumption, whose cursor is to be killed too.
    Aggregate(Exec),
    // The closing of the cursor that a resumption replaced.
    Replaced(mg_cursor::Closing),
    // The killCursors of this closing.
    Last(Exec),
}

// What is left of a stream that is being closed.
pub(crate) struct Remains {
    alloc: Global,
    aggregate: ChangeStreamAggregate,
    batches: Batches,
    // The batch in hand, in which the token may lie.
    buffer: BatchBuffer,
    token: TokenPlace,
    // The id of a cursor that a resumption on its way opened, or 0.
    opened: i64,
}

// By hand, so that letting one go is one call.
impl Drop for Remains {
    fn drop(self) {
        let Remains {
            alloc: _,
            aggregate: _,
            batches: _,
            buffer: _,
            token: _,
            opened: _,
        } = self;
    }
}

impl Remains {
    // The token where it lies.
    fn known_token(&self) -> Option<TokenRef<'_>>
        ensures { result ≡ remains_token self.now }
    {
        match self.token {
            TokenPlace::Saved => saved_token(&self.aggregate),
            TokenPlace::Event => event_token(self.alloc, &self.buffer),
            TokenPlace::Batch => self.batches.token(),
        }
    }

    // Hands the token over.
    fn hand_over(&mut self) -> Result<Option<ResumeToken>, Error>
        ensures token { IfOk result (λ token. token ≡ remains_token self.old) }
        ensures err { IfErr result (λ e. (e ≡ plain kind.OutOfMemory) × (is_lent self.old.token ≡ true)) }
        ensures kept { OnErr result (self.new ≡ self.old) }
        ensures gone { OnOk result (self.new.token ≡ TokenPlace.Saved) }
        ensures rest { OnOk result ((landing : Landing) → closing_in self.new landing ≡ handed_over (client_of self.new.batches).token (closing_in self.old landing)) }
    {
        match self.token {
            TokenPlace::Saved => Ok(take_saved(&mut self.aggregate)),
            TokenPlace::Event => self.hand_copy(),
            TokenPlace::Batch => Ok(self.take_behind()),
        }
    }

    // Hands a copy of the token over, which lies in an event that was lent.
    fn hand_copy(&mut self) -> Result<Option<ResumeToken>, Error>
        requires { self.old.token ≡ TokenPlace.Event }
        ensures token { IfOk result (λ token. token ≡ option_and_then id_in (current_of self.old.buffer)) }
        ensures err { IfErr result (λ e. (e ≡ plain kind.OutOfMemory) × (is_lent self.old.token ≡ true)) }
        ensures kept { OnErr result (self.new ≡ self.old) }
        ensures gone { OnOk result (self.new.token ≡ TokenPlace.Saved) }
        ensures rest { OnOk result ((landing : Landing) → closing_in self.new landing ≡ handed_over (client_of self.new.batches).token (closing_in self.old landing)) }
    {
        match copied_token(event_token(self.alloc, &self.buffer)) {
            Ok(token) => {
                self.forget();
                Ok(token)
            }
            Err(error) => Err(error),
        }
    }

    // Takes the token out that lies behind the batch. No memory is taken.
    fn take_behind(&mut self) -> Option<ResumeToken>
        ensures token { result ≡ (client_of self.old.batches).token }
        ensures gone { self.new.token ≡ TokenPlace.Saved }
        ensures rest { (landing : Landing) → closing_in self.new landing ≡ handed_over (client_of self.new.batches).token (closing_in self.old landing) }
    {
        let token = self.batches.take_token();
        self.forget();
        token
    }

    // Leaves no token but the cursor's.
    fn forget(&mut self)
        ensures gone { self.new.token ≡ TokenPlace.Saved }
        ensures kept { self.new.batches ≡ self.old.batches }
        ensures rest { (landing : Landing) → closing_in self.new landing ≡ handed_over (client_of self.old.batches).token (closing_in self.old landing) }
    {
        self.token = TokenPlace::Saved;
        drop(take_saved(&mut self.aggregate));
    }
}

// A copy of a token that is lent.
fn copied_token(lent: Option<TokenRef<'_>>) -> Result<Option<ResumeToken>, Error>
    ensures ok { IfOk result (λ token. token ≡ lent.entry) }
    ensures err { IfErr result (λ e. e ≡ plain kind.OutOfMemory) }
{
    match lent {
        Some(token) => owned_token(&token),
        None => Ok(None),
    }
}

fn owned_token(token: &TokenRef<'_>) -> Result<Option<ResumeToken>, Error>
    ensures ok { IfOk result (λ copy. copy ≡ Some token.now) }
    ensures err { IfErr result (λ e. e ≡ plain kind.OutOfMemory) }
{
    match token.to_owned() {
        Ok(copy) => Ok(Some(copy)),
        Err(error) => Err(error),
    }
}

// Takes the saved token out.
fn take_saved(aggregate: &mut ChangeStreamAggregate) -> Option<ResumeToken>
    ensures token { result ≡ token_known aggregate.old.resume }
    ensures gone { aggregate.new ≡ with_token None aggregate.old }
{
    match &mut aggregate.resume {
        Some(known) => known.resume_token.take(),
        None => None,
    }
}

/// A change stream that is being closed. A request on its way ends first; its failure is passed over, but for want of memory.
/// Then one killCursors is sent for the stream's cursor and for one that this request opened, unless the server holds neither.
///
/// It fails where that killCursors fails or cannot be sent, and for want of memory. Behind a failure the server may hold the cursors
/// still.
pub struct Closing {
    remains: Remains,
    underway: Underway,
}

// By hand, so that letting one go is one call.
impl Drop for Closing {
    fn drop(self) {
        let Closing {
            remains: _,
            underway: _,
        } = self;
    }
}

impl Model for Closing {
    ghost use Rattle.mg_change.specs.ClosingCode.{coded_stream_closing};
    ghost use Rattle.mg_change.specs.ClosingStreams.{ClosingStream};
    ghost use Rattle.mg_change.specs.ClosingView.{IsClosingIn, closing_in, landing_in};

    ghost Value = { ClosingStream };

    ghost coded = { coded_stream_closing };

    ghost view = { λ k. closing_in k.remains (landing_in k.underway) };

    ghost invariant = { λ k. IsClosingIn k.remains (landing_in k.underway) };
}

// What is on its way.
fn underway_of(phase: Phase) -> Underway
    ensures { landing_in result ≡ landing_of (doing_of phase) }
{
    match phase {
        Phase::Follows => Underway::Lands,
        Phase::Owes => Underway::Lands,
        Phase::Resumes(exec) => Underway::Aggregate(exec),
        Phase::Kills(closing) => Underway::Replaced(closing),
        Phase::Renewed => Underway::Lands,
    }
}

// Waits for the getMore on its way, where there is one, and then kills what is left.
fn land<L: Link>(link: &mut L, remains: Remains) -> Step<Closing, ()>
    requires held { IsOut (L.awaited link.old) (client_ticket (client_of remains.batches)) }
    requires sound { IsClosingIn remains lands }
    // The tickets of others, the counts, the wire version and the promptness of the link.
    ensures keeps { LinkKeeps (moment (L.awaited link.old) (L.log link.old) (L.faults link.old) (L.pends link.old) (L.wire link.old) (L.prompt link.old))
        (moment (L.awaited link.new) (L.log link.new) (L.faults link.new) (L.pends link.new) (L.wire link.new) (L.prompt link.new))
        (client_ticket (client_of remains.batches)) (ticket_after stream_closing_ticket result) (step_ending result) }
    ensures closes { ClosesStream (L.awaited link.old) (L.awaited link.new) (L.log link.old) (L.log link.new) (L.wire link.old) (closing_in remains lands) result }
{
    let mut remains = remains;
    match remains.batches.land(link) {
        NextPoll::Pending => {
            let still = Closing {
                remains,
                underway: Underway::Lands,
            };
            Step::Pending(still)
        }
        NextPoll::Batch(_batch) => kill_left(link, remains),
        NextPoll::End => kill_left(link, remains),
        NextPoll::Failed(error) => pass(link, remains, error),
    }
}

// Waits for the reply to the aggregate of a resumption.
fn land_aggregate<L: Link>(link: &mut L, remains: Remains, exec: Exec) -> Step<Closing, ()>
    requires held { IsOut (L.awaited link.old) (ticket_of exec) }
    requires sound { IsSoundClosing (closing_in remains (lands_aggregate exec)) }
    // The tickets of others, the counts, the wire version and the promptness of the link.
    ensures keeps { LinkKeeps (moment (L.awaited link.old) (L.log link.old) (L.faults link.old) (L.pends link.old) (L.wire link.old) (L.prompt link.old))
        (moment (L.awaited link.new) (L.log link.new) (L.faults link.new) (L.pends link.new) (L.wire link.new) (L.prompt link.new))
        (ticket_of exec) (ticket_after stream_closing_ticket result) (step_ending result) }
    ensures closes { ClosesStream (L.awaited link.old) (L.awaited link.new) (L.log link.old) (L.log link.new) (L.wire link.old) (closing_in remains (lands_aggregate exec)) result }
{
    match exec.poll(link) {
        Step::Pending(exec) => {
            let still = Closing {
                remains,
                underway: Underway::Aggregate(exec),
            };
            Step::Pending(still)
        }
        Step::Done(reply) => aggregate_came(link, remains, reply),
        Step::Failed(error) => pass(link, remains, error),
    }
}

// The reply to the aggregate of a resumption came.
fn aggregate_came<L: Link>(
    link: &mut L,
    remains: Remains,
    reply: RawDocumentBuf,
) -> Step<Closing, ()>
    requires { IsNotAsking (client_of remains.batches).doing }
    // The tickets of others, the counts, the wire version and the promptness of the link.
    ensures keeps { LinkKeeps (moment (L.awaited link.old) (L.log link.old) (L.faults link.old) (L.pends link.old) (L.wire link.old) (L.prompt link.old))
        (moment (L.awaited link.new) (L.log link.new) (L.faults link.new) (L.pends link.new) (L.wire link.new) (L.prompt link.new))
        (None) (ticket_after stream_closing_ticket result) (step_ending result) }
    ensures behind { BehindOpening (L.awaited link.old) (L.awaited link.new) (L.log link.old) (L.log link.new) (L.wire link.old) (closing_in remains lands) reply result }
{
    let mut remains = remains;
    match remains.aggregate.read(remains.alloc, reply) {
        Ok((opened, _)) => {
            remains.opened = opened.info.id;
            kill_left(link, remains)
        }
        Err(error) => pass(link, remains, error),
    }
}

// Waits for the closing of the cursor before.
fn land_replaced<L: Link>(
    link: &mut L,
    remains: Remains,
    closing: mg_cursor::Closing,
) -> Step<Closing, ()>
    requires held { IsOut (L.awaited link.old) (closing_ticket closing) }
    requires sound { IsSoundClosing (closing_in remains (lands_replaced closing)) }
    // The tickets of others, the counts, the wire version and the promptness of the link.
    ensures keeps { LinkKeeps (moment (L.awaited link.old) (L.log link.old) (L.faults link.old) (L.pends link.old) (L.wire link.old) (L.prompt link.old))
        (moment (L.awaited link.new) (L.log link.new) (L.faults link.new) (L.pends link.new) (L.wire link.new) (L.prompt link.new))
        (closing_ticket closing) (ticket_after stream_closing_ticket result) (step_ending result) }
    ensures closes { ClosesStream (L.awaited link.old) (L.awaited link.new) (L.log link.old) (L.log link.new) (L.wire link.old) (closing_in remains (lands_replaced closing)) result }
{
    match closing.poll(link) {
        Step::Pending(closing) => {
            let still = Closing {
                remains,
                underway: Underway::Replaced(closing),
            };
            Step::Pending(still)
        }
        Step::Done(_over) => kill_left(link, remains),
        Step::Failed(error) => pass(link, remains, error),
    }
}

// What was on its way failed, which only want of memory makes the answer.
fn pass<L: Link>(link: &mut L, remains: Remains, error: Error) -> Step<Closing, ()>
    requires { IsNotAsking (client_of remains.batches).doing }
    // The tickets of others, the counts, the wire version and the promptness of the link.
    ensures keeps { LinkKeeps (moment (L.awaited link.old) (L.log link.old) (L.faults link.old) (L.pends link.old) (L.wire link.old) (L.prompt link.old))
        (moment (L.awaited link.new) (L.log link.new) (L.faults link.new) (L.pends link.new) (L.wire link.new) (L.prompt link.new))
        (None) (ticket_after stream_closing_ticket result) (step_ending result) }
    ensures passes { PassesOver (L.awaited link.old) (L.awaited link.new) (L.log link.old) (L.log link.new) (L.wire link.old) (closing_in remains lands) error result }
{
    if is_memory(&error) {
        return Step::Failed(error);
    }
    kill_left(link, remains)
}

// Kills the cursors that the server holds, in one command.
fn kill_left<L: Link>(link: &mut L, remains: Remains) -> Step<Closing, ()>
    requires { IsNotAsking (client_of remains.batches).doing }
    // The tickets of others, the counts, the wire version and the promptness of the link.
    ensures keeps { LinkKeeps (moment (L.awaited link.old) (L.log link.old) (L.faults link.old) (L.pends link.old) (L.wire link.old) (L.prompt link.old))
        (moment (L.awaited link.new) (L.log link.new) (L.faults link.new) (L.pends link.new) (L.wire link.new) (L.prompt link.new))
        (None) (ticket_after stream_closing_ticket result) (step_ending result) }
    ensures kills { KillsLeft (L.awaited link.old) (L.awaited link.new) (L.log link.old) (L.log link.new) (L.wire link.old) (closing_in remains lands) result }
{
    match ids_of(remains.alloc, remains.batches.id(), remains.opened) {
        Ok(ids) => kill_all(link, remains, ids),
        Err(error) => Step::Failed(error),
    }
}

// Kills these, which are those that the server holds.
fn kill_all<L: Link>(link: &mut L, remains: Remains, ids: Vec<i64>) -> Step<Closing, ()>
    requires quiet { IsNotAsking (client_of remains.batches).doing }
    requires left { ids.items ≡ ids_left (closing_in remains lands) }
    // The tickets of others, the counts, the wire version and the promptness of the link.
    ensures keeps { LinkKeeps (moment (L.awaited link.old) (L.log link.old) (L.faults link.old) (L.pends link.old) (L.wire link.old) (L.prompt link.old))
        (moment (L.awaited link.new) (L.log link.new) (L.faults link.new) (L.pends link.new) (L.wire link.new) (L.prompt link.new))
        (None) (ticket_after stream_closing_ticket result) (step_ending result) }
    ensures kills { KillsLeft (L.awaited link.old) (L.awaited link.new) (L.log link.old) (L.log link.new) (L.wire link.old) (closing_in remains lands) result }
{
    if ids.is_empty() {
        return Step::Done(());
    }
    match kill(
        remains.alloc,
        remains.batches.namespace(),
        ids,
        link.wire_version(),
    ) {
        Ok(exec) => wait(link, remains, exec),
        Err(error) => Step::Failed(error),
    }
}

// Waits for the reply to the killCursors of this closing.
fn wait<L: Link>(link: &mut L, remains: Remains, exec: Exec) -> Step<Closing, ()>
    requires held { IsOut (L.awaited link.old) (ticket_of exec) }
    requires killing { IsToKill (closing_in remains lands) exec }
    // The tickets of others, the counts, the wire version and the promptness of the link.
    ensures keeps { LinkKeeps (moment (L.awaited link.old) (L.log link.old) (L.faults link.old) (L.pends link.old) (L.wire link.old) (L.prompt link.old))
        (moment (L.awaited link.new) (L.log link.new) (L.faults link.new) (L.pends link.new) (L.wire link.new) (L.prompt link.new))
        (ticket_of exec) (ticket_after stream_closing_ticket result) (step_ending result) }
    ensures runs { RunsKill (L.awaited link.old) (L.awaited link.new) (L.log link.old) (L.log link.new) (L.wire link.old) (closing_in remains lands) exec result }
{
    match exec.poll(link) {
        Step::Pending(exec) => {
            let still = Closing {
                remains,
                underway: Underway::Last(exec),
            };
            Step::Pending(still)
        }
        Step::Done(_reply) => Step::Done(()),
        Step::Failed(error) => Step::Failed(error),
    }
}

// Waits for what is on its way.
fn go_on<L: Link>(link: &mut L, remains: Remains, underway: Underway) -> Step<Closing, ()>
    requires held { IsOut (L.awaited link.old) (landing_ticket (client_of remains.batches) (landing_in underway)) }
    requires sound { IsClosingIn remains (landing_in underway) }
    // The tickets of others, the counts, the wire version and the promptness of the link.
    ensures keeps { LinkKeeps (moment (L.awaited link.old) (L.log link.old) (L.faults link.old) (L.pends link.old) (L.wire link.old) (L.prompt link.old))
        (moment (L.awaited link.new) (L.log link.new) (L.faults link.new) (L.pends link.new) (L.wire link.new) (L.prompt link.new))
        (landing_ticket (client_of remains.batches) (landing_in underway)) (ticket_after stream_closing_ticket result) (step_ending result) }
    ensures closes { ClosesStream (L.awaited link.old) (L.awaited link.new) (L.log link.old) (L.log link.new) (L.wire link.old) (closing_in remains (landing_in underway)) result }
{
    match underway {
        Underway::Lands => land(link, remains),
        Underway::Aggregate(exec) => land_aggregate(link, remains, exec),
        Underway::Replaced(closing) => land_replaced(link, remains, closing),
        Underway::Last(exec) => wait(link, remains, exec),
    }
}

// The number of the ticket that is held.
fn held(batches: &Batches, underway: &Underway) -> Option<u64>
    ensures { result ≡ landing_ticket (client_of batches.now) (landing_in underway.now) }
{
    match underway {
        Underway::Lands => batches.ticket_number(),
        Underway::Aggregate(exec) => exec.ticket_number(),
        Underway::Replaced(closing) => closing.ticket_number(),
        Underway::Last(exec) => exec.ticket_number(),
    }
}

// The ids of the cursors that the server holds.
fn ids_of(alloc: Global, id: i64, opened: i64) -> Result<Vec<i64>, Error>
    ensures ok { IfOk result (λ ids. ids.items ≡ unless_none id ++ unless_none opened) }
    ensures room { IfErr result (λ e. e ≡ plain kind.OutOfMemory) }
    ensures some { OnErr result (unless_none id ++ unless_none opened ≢ []) }
{
    let mut ids = Vec::new(alloc);
    if id != 0 {
        ids.push(id)?;
    }
    if opened != 0 {
        ids.push(opened)?;
    }
    Ok(ids)
}

impl Closing {
    // Nothing is sent until the first poll.
    pub(crate) fn new(
        alloc: Global,
        aggregate: ChangeStreamAggregate,
        batches: Batches,
        buffer: BatchBuffer,
        token: TokenPlace,
        phase: Phase,
    ) -> Closing
        requires sound { IsSoundClosing (record { token = token_lying token (token_known aggregate.resume) (current_of buffer) (client_of batches).token; lent = is_lent token; cursor = client_of batches; opened = pos 0; doing = landing_of (doing_of phase) }) }
        // Its token is saved while a getMore is on its way.
        requires saves { SavesWhile token (client_of batches).doing }
        ensures { result ≡ record { token = token_lying token (token_known aggregate.resume) (current_of buffer) (client_of batches).token; lent = is_lent token; cursor = client_of batches; opened = pos 0; doing = landing_of (doing_of phase) } }
    {
        Closing {
            remains: Remains {
                alloc,
                aggregate,
                batches,
                buffer,
                token,
                opened: 0,
            },
            underway: underway_of(phase),
        }
    }

    /// The token of the stream, which is lent. It may lie in the batch in hand.
    pub fn resume_token(&self) -> Option<TokenRef<'_>>
        ensures { result ≡ self.now.token }
    {
        self.remains.known_token()
    }

    /// Hands the token over. It fails, for want of memory, only where the token lies in an event that was lent, of which it is
    /// copied; then the closing has it still. Behind it the closing has none.
    pub fn hand_over(&mut self) -> Result<Option<ResumeToken>, Error>
        ensures token { IfOk result (λ token. token ≡ self.old.token) }
        ensures err { IfErr result (λ e. (e ≡ plain kind.OutOfMemory) × (self.old.lent ≡ true)) }
        ensures kept { OnErr result (self.new ≡ self.old) }
        ensures gone { OnOk result (self.new ≡ handed_over self.new.cursor.token self.old) }
    {
        self.remains.hand_over()
    }

    /// The number of the ticket that it holds, while it waits for a reply.
    pub fn ticket_number(&self) -> Option<u64>
        ensures { result ≡ stream_closing_ticket self.now }
    {
        held(&self.remains.batches, &self.underway)
    }
}

impl Action for Closing {
    type Output = ();

    ghost use Rattle.mg_change.specs.ClosingCauses.{ClosingCaused};
    ghost use Rattle.mg_change.specs.ClosingStreams.{ClosesStream, stream_closing_ticket};

    ghost ticket = { stream_closing_ticket };

    ghost does = { λ old new log log' wire s r. ClosesStream old new log log' wire s r × ClosingCaused old new log log' wire s r };

    fn poll<L: Link>(self, link: &mut L) -> Step<Closing, ()>
        requires { IsOut (L.awaited link.old) (stream_closing_ticket self) }
        ensures tickets { Tickets (L.awaited link.old) (L.awaited link.new) (stream_closing_ticket self) (ticket_after stream_closing_ticket result) }
        ensures pended { Pended stream_closing_ticket result (L.pends link.old) (L.pends link.new) }
        ensures lost { FailsByFault result (L.faults link.old) (L.faults link.new) }
        ensures prompt { L.prompt link.old → EndsAtOnce result }
        ensures later { Later (L.faults link.old) (L.faults link.new) (L.pends link.old) (L.pends link.new)
            (L.wire link.old) (L.wire link.new) (L.prompt link.old) (L.prompt link.new) }
        // Which commands it sent, and what came of them.
        ensures closes { ClosesStream (L.awaited link.old) (L.awaited link.new) (L.log link.old) (L.log link.new) (L.wire link.old) self result }
        // What in the log is the cause of the answer, over all polls.
        ensures caused { ClosingCaused (L.awaited link.old) (L.awaited link.new) (L.log link.old) (L.log link.new) (L.wire link.old) self result }
        // Over an honest link no cursor of the stream is left behind it.
        ensures moved { (w : Watch) (start : Start) (token : Option Tree) → LandsFor w start token self → (opened : Option ℕ) (answered : List Fields)
            → Moved (L.log link.old) (L.log link.new) (follow_closing (L.awaited link.old) w start token self opened answered) (follow_closed (L.awaited link.new) w start token opened answered result) }
        // What is on its way is of the same stream still.
        ensures lands_for { (w : Watch) (start : Start) (token : Option Tree) → LandsFor w start token self → OnPending result (LandsFor w start token) }
    {
        let Closing { remains, underway } = self;
        go_on(link, remains, underway)
    }
}
