//! A link to a store in this process.
ghost use Rattle.std.specs.Prelude.{◌≡◌, ◌<◌, ◌≤◌, [], Some, IfOk, IsErrOf, IsSome, OnErr, length, map, not, string_bytes, true, vec_len};
ghost use Rattle.mg_bson.specs.Raw.{fields};
ghost use Rattle.mg_link.specs.Causes.{Rose};
ghost use Rattle.mg_server.specs.Kept.{IsReply, state_of_kept};
ghost use Rattle.mg_link.specs.Link.{ComesAtOnce, Later, PollMeans, PollPends, SamePolls, StartMeans, StartsAtOnce, StaysPrompt};
ghost use Rattle.mg_link.specs.Places.{out_at, polls_in};
ghost use Rattle.mg_server.specs.Rules.{refusal};
ghost use Rattle.mg_query.specs.Continued.{is_cursor_command};
ghost use Rattle.mg_store.specs.InMemory.{IsPromptLink, IsSmall, NamesNone, Performed, StartedAs, Takes, by_rules, fate_at, faults_in, pended_after, pends_in, position_behind};
ghost use Rattle.mg_store.specs.Sending.{HandsOver, HeardAt, Hearing, Honest, PolledAt, Sent, pended_of};
ghost use Rattle.mg_store.specs.Stored.{AreOpen, Performs};

use crate::fate::{Fate, FateKind, kind_at, pend_at};
use crate::store::{Store, steps_taken};
use mg_bson::{RawDocument, RawDocumentBuf};
use mg_link::{
    Link, LinkError, Log, LoggedCall, OutOfMemory, Polled, Receipt, Seen, Ticket, push_reserved,
};
use mg_query::{copy, is_cursor_command};
use std::alloc::Global;
use std::marker::Model;

/// What is kept for a call beside the log.
pub(crate) struct Wait {
    /// How many of its polls answered that the reply pends.
    pended: u32,
    /// The reply that is to come; none where none comes, and where it has come.
    reply: Option<RawDocumentBuf>,
}

// By hand, so that letting one go is one call.
impl Drop for Wait {
    fn drop(self) {
        let Wait {
            pended: _,
            reply: _,
        } = self;
    }
}

/// What a poll of a call hears.
#[derive(Drop)]
pub(crate) enum Hears {
    Nothing,
    Answer(RawDocumentBuf),
    Loss,
}

impl Wait {
    /// Polls the call, where so many of its polls pend.
    fn hear(&mut self, pend: u32) -> Hears
        ensures { Hearing pend self.old self.new result }
    {
        if self.pended < pend {
            self.pended += 1;
            return Hears::Nothing;
        }
        match self.reply.take() {
            Some(reply) => Hears::Answer(reply),
            None => Hears::Loss,
        }
    }
}

/// Refuses a command, and gives the reply. An error changes nothing.
fn refuse(
    store: &mut Store,
    command: RawDocument<'_>,
    code: i32,
    labels: &Vec<String>,
) -> Result<RawDocumentBuf, OutOfMemory>
    requires { IsSmall (FateKind.Refuse code labels.now) }
    ensures performed { IfOk result (Performed (λ _. refusal code (map string_bytes labels.now.items)) store.old store.new command.entry) }
    ensures err { OnErr result (store.new ≡ store.old) }
{
    store.refuse_with(&command, code, labels.as_slice())
}

/// Performs of a command what its fate says, and gives the reply that is to come. An error changes nothing.
fn take_effect(
    store: &mut Store,
    command: RawDocument<'_>,
    kind: &FateKind,
) -> Result<Option<RawDocumentBuf>, OutOfMemory>
    requires { IsSmall kind.now }
    ensures takes { IfOk result (Takes kind.now store.old store.new command.entry) }
    ensures err { OnErr result (store.new ≡ store.old) }
{
    match kind {
        FateKind::Keep => Ok(Some(store.answer(&command)?)),
        FateKind::Lose => {
            let _lost = store.answer(&command)?;
            Ok(None)
        }
        FateKind::Drop => Ok(None),
        FateKind::Refuse { code, labels } => Ok(Some(refuse(store, command, *code, labels)?)),
    }
}

/// The position that the step of a command gets.
fn position_behind(store: &Store, kind: &FateKind) -> Option<u64>
    ensures { result ≡ position_behind kind.now store.now.history }
{
    match kind {
        FateKind::Keep => Some(steps_taken(store)),
        FateKind::Lose => Some(steps_taken(store)),
        FateKind::Drop => None,
        FateKind::Refuse { code: _, labels: _ } => Some(steps_taken(store)),
    }
}

/// Sends a command. An error changes nothing.
fn send(
    alloc: Global,
    store: &mut Store,
    log: &mut Log,
    waits: &mut Vec<Wait>,
    command: RawDocument<'_>,
    kind: &FateKind,
) -> Result<(), OutOfMemory>
    requires { IsSmall kind.now }
    ensures sent { IfOk result (λ _. Sent kind.now command.entry store.old store.new log.old log.new waits.old.items waits.new.items) }
    ensures err { OnErr result ((store.new ≡ store.old) × (log.new ≡ log.old) × (waits.new.items ≡ waits.old.items)) }
{
    waits.reserve(1)?;
    log.push(LoggedCall {
        command: copy(alloc, &command)?,
        position: position_behind(store, kind),
        seen: Seen::Waiting,
    })?;
    match take_effect(store, command, kind) {
        Ok(reply) => {
            push_reserved(waits, Wait { pended: 0, reply });
            Ok(())
        }
        Err(OutOfMemory) => {
            let _call = log.pop();
            Err(OutOfMemory)
        }
    }
}

/// Starts a command, which gets the ticket with its place.
fn start_over(
    alloc: Global,
    store: &mut Store,
    log: &mut Log,
    waits: &mut Vec<Wait>,
    fates: &[Fate],
    command: RawDocument<'_>,
) -> Result<Ticket, LinkError>
    requires honest { Honest store.old.history log.old waits.old.items fates.now }
    ensures honest { Honest store.new.history log.new waits.new.items fates.now }
    ensures starts { StartMeans (out_at log.old) (out_at log.new) (Some log.old) (Some log.new) command.entry result }
    ensures sent { StartedAs result (fate_at fates.now (length log.old)).kind command.entry store.old store.new log.old log.new (pended_of waits.old.items) (pended_of waits.new.items) }
    ensures faults { faults_in log.new ≡ faults_in log.old }
    ensures pends { pends_in (pended_of waits.new.items) ≡ pends_in (pended_of waits.old.items) }
    ensures polls { SamePolls (polls_in (pended_of waits.old.items)) (polls_in (pended_of waits.new.items)) }
    ensures prompt { IsPromptLink fates.now log.old (pended_of waits.old.items) → IsPromptLink fates.now log.new (pended_of waits.new.items) }
{
    let place = log.len();
    let kept = FateKind::Keep;
    let kind = kind_at(fates, place, &kept);
    match send(alloc, store, log, waits, command, kind) {
        Ok(()) => Ok(Ticket::new(place as u64)),
        Err(OutOfMemory) => Err(LinkError::Memory),
    }
}

/// Polls the call at this place, where so many of its polls pend.
fn hear_at(waits: &mut Vec<Wait>, place: usize, pend: u32) -> Hears
    requires { place < vec_len waits.old }
    ensures { HeardAt pend waits.old.items waits.new.items place result }
{
    let wait = &mut waits[place];
    wait.hear(pend)
}

/// Hands a reply over, and writes it down. Where there is no memory for both the reply is lost.
fn hand_over(log: &mut Log, place: usize, reply: RawDocumentBuf) -> Polled
    requires { place < length log.old }
    ensures { HandsOver result reply log.old log.new place }
{
    let bytes = reply.into_bytes();
    match bytes.clone() {
        Ok(kept) => {
            log.see(place, Seen::Reply(kept));
            Polled::Reply(bytes)
        }
        Err(_) => {
            log.see(place, Seen::Memory);
            Polled::Memory
        }
    }
}

/// Polls the call of a ticket.
fn poll_at(log: &mut Log, waits: &mut Vec<Wait>, fates: &[Fate], ticket: Ticket) -> Polled
    requires out { IsSome (out_at log.old ticket) }
    requires counted { vec_len waits.old ≡ length log.old }
    ensures { PolledAt result (fate_at fates.now ticket).pend waits.old.items waits.new.items log.old log.new ticket }
{
    let place = ticket.number() as usize;
    match hear_at(waits, place, pend_at(fates, place)) {
        Hears::Nothing => Polled::Pending(ticket),
        Hears::Answer(reply) => hand_over(log, place, reply),
        Hears::Loss => {
            log.see(place, Seen::Fault);
            Polled::Failed
        }
    }
}

/// Polls the call of a ticket, and keeps what holds of the link.
fn poll_over(
    _store: &Store,
    log: &mut Log,
    waits: &mut Vec<Wait>,
    fates: &[Fate],
    ticket: Ticket,
) -> Polled
    requires out { IsSome (out_at log.old ticket) }
    requires honest { Honest _store.now.history log.old waits.old.items fates.now }
    ensures honest { Honest _store.now.history log.new waits.new.items fates.now }
    ensures polls { PollMeans (out_at log.old) (out_at log.new) (Some log.old) (Some log.new) ticket result }
    ensures fault { result ≡ Polled.Failed → Rose (faults_in log.old) (faults_in log.new) }
    ensures at_once { IsPromptLink fates.now log.old (pended_of waits.old.items) → ComesAtOnce result }
    ensures pended { PollPends result (out_at log.old ticket) (pends_in (pended_of waits.old.items)) (pends_in (pended_of waits.new.items))
        (polls_in (pended_of waits.old.items)) (polls_in (pended_of waits.new.items)) }
    ensures counts { pended_of waits.new.items ≡ pended_after result ticket (pended_of waits.old.items) }
    ensures faults_later { faults_in log.old ≤ faults_in log.new }
    ensures pends_later { pends_in (pended_of waits.old.items) ≤ pends_in (pended_of waits.new.items) }
    ensures prompt { IsPromptLink fates.now log.old (pended_of waits.old.items) → StaysPrompt (IsPromptLink fates.now log.new (pended_of waits.new.items)) (faults_in log.old) (faults_in log.new) (pends_in (pended_of waits.old.items)) (pends_in (pended_of waits.new.items)) }
{
    poll_at(log, waits, fates, ticket)
}

/// Whether a command may go aside of a link (`MemLink::aside`): it is no `getMore` and no `killCursors`. No other command is
/// about cursors, and so it names none.
pub fn may_go_aside(command: &RawDocument<'_>) -> bool
    ensures exact { result ≡ not (is_cursor_command (fields command.now)) }
    ensures names { result ≡ true → NamesNone command.now }
{
    !is_cursor_command(command)
}

/// Performs a command for nobody on this link.
fn aside_over(
    store: &mut Store,
    _log: &Log,
    _waits: &Vec<Wait>,
    _fates: &[Fate],
    command: RawDocument<'_>,
) -> Result<Receipt, OutOfMemory>
    requires names { NamesNone command }
    requires honest { Honest store.old.history _log.now _waits.now.items _fates.now }
    ensures honest { Honest store.new.history _log.now _waits.now.items _fates.now }
    ensures step { IfOk result (λ r. Performs store.old store.new command.entry r) }
    ensures reply { IfOk result (λ r. IsReply (by_rules command.entry store.old.history) r.reply) }
    ensures err { OnErr result (store.new ≡ store.old) }
{
    store.perform(command)
}

/// A link to a store in this process. What becomes of the command of each number, from 0, is the fate of that number;
/// each command behind the end of the fates is performed and answered at once.
pub struct MemLink {
    alloc: Global,
    store: Store,
    log: Log,
    waits: Vec<Wait>,
    fates: Vec<Fate>,
    wire: i32,
}

// By hand, so that letting one go is one call.
impl Drop for MemLink {
    fn drop(self) {
        let MemLink {
            alloc: _,
            store: _,
            log: _,
            waits: _,
            fates: _,
            wire: _,
        } = self;
    }
}

impl Model for MemLink {
    ghost use Rattle.mg_store.specs.InMemory.{InMemory};
    ghost use Rattle.mg_store.specs.Sending.{Honest, pended_of};

    ghost Value = { InMemory };

    ghost view = { λ m. record { stored = m.store; calls = m.log; pended = pended_of m.waits.items; fates = m.fates.items; wire = m.wire } };

    ghost invariant = { λ m. Honest m.store.history m.log m.waits.items m.fates.items };
}

impl MemLink {
    ghost use Rattle.mg_server.specs.History.{IsLegal};
    ghost use Rattle.mg_server.specs.Kept.{IsByRules, steps_of};
    ghost use Rattle.mg_server.specs.Prompt.{HoldsBackNone};
    ghost use Rattle.mg_server.specs.Standing.{Stands};
    ghost use Rattle.mg_store.specs.InMemory.{AreAsFates, AreKept, ArePlaced, AreSmall, IsPromptLink};

    /// A link to this store, over which nothing was sent, with these fates and this wire version. Each refusal that a
    /// fate names is to have at most 47,000,000 bytes as a reply.
    pub fn new(alloc: Global, store: Store, fates: Vec<Fate>, wire: i32) -> MemLink
        requires { AreSmall fates.items }
        ensures new { result ≡ record { stored = store; calls = []; pended = []; fates = fates.items; wire = wire } }
        ensures prompt { AreKept 0 fates.items → IsPromptLink fates.items [] [] }
    {
        MemLink {
            alloc,
            store,
            log: Log::new(alloc),
            waits: Vec::new(alloc),
            fates,
            wire,
        }
    }

    /// The store behind the link.
    pub fn store(&self) -> &Store
        ensures { result.now ≡ self.now.stored }
    {
        &self.store
    }

    /// The calls so far, in the order of their starts. They stand in the legal history of the store, and each is as its
    /// fate says, except that it may see want of memory in place of its reply.
    pub fn log(&self) -> &Log
        ensures calls { result.now ≡ self.now.calls }
        ensures by_rules { IsByRules self.now.stored.history }
        ensures legal { IsLegal (steps_of self.now.stored.history) }
        ensures cursors { AreOpen (state_of_kept self.now.stored.history) self.now.stored.open_ids }
        ensures stands { Stands self.now.calls (steps_of self.now.stored.history) }
        ensures within { ArePlaced self.now.stored.history self.now.calls }
        ensures fates { AreAsFates self.now.stored.history self.now.fates self.now.calls self.now.pended }
    {
        // For the proof alone: a store tells with its history that it is legal, and which cursors are open.
        self.store.history();
        &self.log
    }

    /// The store and the log, which stands in the store's legal history.
    pub fn into_parts(self) -> (Store, Log)
        ensures store { result.0 ≡ self.stored }
        ensures calls { result.1 ≡ self.calls }
        ensures by_rules { IsByRules self.stored.history }
        ensures legal { IsLegal (steps_of self.stored.history) }
        ensures cursors { AreOpen (state_of_kept self.stored.history) self.stored.open_ids }
        ensures prompt { HoldsBackNone (steps_of self.stored.history) }
        ensures stands { Stands self.calls (steps_of self.stored.history) }
        ensures within { ArePlaced self.stored.history self.calls }
        ensures fates { AreAsFates self.stored.history self.fates self.calls self.pended }
    {
        let MemLink {
            alloc: _,
            store,
            log,
            waits: _,
            fates: _,
            wire: _,
        } = self;
        // For the proof alone: a store tells with its history that it is by the rules and legal, and which cursors are open.
        store.history();
        (store, log)
    }

    /// Has the store perform a command that is nobody's on this link: it is a step of the history and no call of the log.
    /// It is to name no cursor, as a `getMore` and a `killCursors` do (`may_go_aside`). Where memory runs out nothing changes.
    pub fn aside(&mut self, command: RawDocument<'_>) -> Result<Receipt, OutOfMemory>
        requires { NamesNone command }
        ensures step { IfOk result (λ r. Performs self.old.stored self.new.stored command.entry r) }
        ensures reply { IfOk result (λ r. IsReply (by_rules command.entry self.old.stored.history) r.reply) }
        ensures rest { self.new ≡ record self.old { stored = self.new.stored } }
        ensures err { OnErr result (self.new ≡ self.old) }
    {
        aside_over(
            &mut self.store,
            &self.log,
            &self.waits,
            &self.fates,
            command,
        )
    }
}

impl Link for MemLink {
    ghost use Rattle.std.specs.Prelude.{Some};
    ghost use Rattle.mg_link.specs.Places.{out_at, polls_in};
    ghost use Rattle.mg_store.specs.InMemory.{IsPromptLink, faults_in, pends_in};

    ghost faults = { λ m. faults_in m.calls };

    ghost pends = { λ m. pends_in m.pended };

    ghost polls = { λ m. polls_in m.pended };

    ghost log = { λ m. Some m.calls };

    ghost awaited = { λ m. out_at m.calls };

    ghost prompt = { λ m. IsPromptLink m.fates m.calls m.pended };

    ghost wire = { λ m. m.wire };

    fn start(&mut self, command: RawDocument<'_>) -> Result<Ticket, LinkError>
        ensures starts { StartMeans (out_at self.old.calls) (out_at self.new.calls) (Some self.old.calls) (Some self.new.calls) command.entry result }
        ensures fault { IsErrOf result LinkError.Fault → Rose (faults_in self.old.calls) (faults_in self.new.calls) }
        ensures prompt { IsPromptLink self.old.fates self.old.calls self.old.pended → StartsAtOnce result }
        ensures pends_same { pends_in self.new.pended ≡ pends_in self.old.pended }
        ensures polls_same { SamePolls (polls_in self.old.pended) (polls_in self.new.pended) }
        ensures later { Later (faults_in self.old.calls) (faults_in self.new.calls) (pends_in self.old.pended) (pends_in self.new.pended)
            self.old.wire self.new.wire (IsPromptLink self.old.fates self.old.calls self.old.pended) (IsPromptLink self.new.fates self.new.calls self.new.pended) }
        ensures sent { StartedAs result (fate_at self.old.fates (length self.old.calls)).kind command.entry self.old.stored self.new.stored self.old.calls self.new.calls self.old.pended self.new.pended }
        ensures rest { (self.new.fates ≡ self.old.fates) × (self.new.wire ≡ self.old.wire) }
    {
        start_over(
            self.alloc,
            &mut self.store,
            &mut self.log,
            &mut self.waits,
            &self.fates,
            command,
        )
    }

    fn poll(&mut self, ticket: Ticket) -> Polled
        requires { IsSome (out_at self.old.calls ticket) }
        ensures polls { PollMeans (out_at self.old.calls) (out_at self.new.calls) (Some self.old.calls) (Some self.new.calls) ticket result }
        ensures fault { result ≡ Polled.Failed → Rose (faults_in self.old.calls) (faults_in self.new.calls) }
        ensures prompt { IsPromptLink self.old.fates self.old.calls self.old.pended → ComesAtOnce result }
        ensures pended { PollPends result (out_at self.old.calls ticket) (pends_in self.old.pended) (pends_in self.new.pended) (polls_in self.old.pended) (polls_in self.new.pended) }
        ensures later { Later (faults_in self.old.calls) (faults_in self.new.calls) (pends_in self.old.pended) (pends_in self.new.pended)
            self.old.wire self.new.wire (IsPromptLink self.old.fates self.old.calls self.old.pended) (IsPromptLink self.new.fates self.new.calls self.new.pended) }
        ensures counts { self.new.pended ≡ pended_after result ticket self.old.pended }
        ensures rest { (self.new.stored ≡ self.old.stored) × (self.new.fates ≡ self.old.fates) × (self.new.wire ≡ self.old.wire) }
    {
        poll_over(
            &self.store,
            &mut self.log,
            &mut self.waits,
            &self.fates,
            ticket,
        )
    }

    fn wire_version(&self) -> i32 {
        self.wire
    }
}
