//! A link for tests, which answers by a list.
ghost use Rattle.std.specs.Prelude.{◌≡◌, ◌≤◌, ◌++◌, ◌∷◌, [], Some, IfOk, IsErrOf, IsSome, OnErr, OnOk, length};
ghost use Rattle.mg_link.specs.Causes.{Rose};
ghost use Rattle.mg_link.specs.Link.{Ends, PollMeans, PollPends, SamePolls, StartMeans};
ghost use Rattle.mg_link.specs.LogView.{sight};
ghost use Rattle.mg_link.specs.Places.{IsAnswer, out_at, polls_in};
ghost use Rattle.mg_link.specs.Scripted.{IsOneReply, commands_of};

use crate::error::OutOfMemory;
use crate::link::{Link, LinkError, Polled, Ticket};
use crate::log::{Log, LoggedCall, Seen};
use crate::reserved::push_reserved;
use mg_bson::{RawDocument, RawDocumentBuf};
use std::marker::Model;

/// How one command is answered.
#[derive(Drop)]
pub struct Scripted {
    /// How many polls answer that the reply pends.
    pub pend: u32,
    /// What the poll behind them answers.
    pub seen: ScriptedSeen,
}

/// What a command is answered in the end.
#[derive(Drop)]
pub enum ScriptedSeen {
    /// These bytes.
    Reply(Vec<u8>),
    /// A fault of the link.
    Fault,
    /// Want of memory.
    Memory,
}

// What a poll hears: the bytes for its caller, and for the log.
#[derive(Drop)]
pub(crate) enum Heard {
    Reply(Vec<u8>, Vec<u8>),
    Fault,
    Memory,
}

/// A link for tests. The command of each number, from 0, is answered by the entry of that number, and each command
/// behind the end of the list by the last entry. Where the list is empty each start answers a fault.
///
/// It tells its log, whose calls have no positions.
#[derive(Drop)]
pub struct ScriptLink {
    script: Vec<Scripted>,
    wire: i32,
    commands: Vec<RawDocumentBuf>,
    polled: Vec<u32>,
    log: Log,
    faults: u64,
    pends: u64,
}

impl Model for ScriptLink {
    ghost use Rattle.std.specs.Prelude.{◌≡◌, length};
    ghost use Rattle.mg_link.specs.Scripted.{Scripting, commands_of};

    ghost Value = { Scripting };

    ghost view = { λ l. record { calls = l.log; pended = l.polled.items; faults = l.faults; pends = l.pends; wire = l.wire } };

    ghost invariant = { λ l. (l.commands.items ≡ commands_of l.log) × (length l.polled.items ≡ length l.log) };
}

// Adds a call. An `Err` changes nothing.
fn add(
    commands: &mut Vec<RawDocumentBuf>,
    polled: &mut Vec<u32>,
    log: &mut Log,
    command: &RawDocument<'_>,
    seen: Seen,
) -> Result<(), OutOfMemory>
    ensures commands { OnOk result (commands.new.items ≡ commands.old.items ++ command.now ∷ []) }
    ensures polled { OnOk result (polled.new.items ≡ polled.old.items ++ 0 ∷ []) }
    ensures log { OnOk result (log.new ≡ log.old ++ record { command = command.now; position = None; seen = sight seen } ∷ []) }
    ensures err { OnErr result ((commands.new.items ≡ commands.old.items) × (polled.new.items ≡ polled.old.items) × (log.new ≡ log.old)) }
{
    commands.reserve(1)?;
    polled.reserve(1)?;
    let alloc = *commands.allocator();
    let Ok(kept) = command.to_buf(alloc) else {
        return Err(OutOfMemory);
    };
    let Ok(logged) = command.to_buf(alloc) else {
        return Err(OutOfMemory);
    };
    log.push(LoggedCall {
        command: logged,
        position: None,
        seen,
    })?;
    push_reserved(commands, kept);
    push_reserved(polled, 0);
    Ok(())
}

// The entry that answers the command of this number.
fn entry(script: &[Scripted], place: usize) -> Option<&Scripted> {
    match script.get(place) {
        Some(entry) => Some(entry),
        None => script.last(),
    }
}

// How many polls of the command of this number pend.
fn pend_at(script: &[Scripted], place: usize) -> u32 {
    match entry(script, place) {
        Some(entry) => entry.pend,
        None => 0,
    }
}

// The bytes, twice.
fn copies(bytes: &Vec<u8>) -> Result<(Vec<u8>, Vec<u8>), OutOfMemory>
    ensures { IfOk result (λ p. p.1.items ≡ p.0.items) }
{
    let told = bytes.clone()?;
    let kept = bytes.clone()?;
    Ok((told, kept))
}

// What the poll of a call hears in the end.
fn hear(script: &[Scripted], place: usize) -> Heard
    ensures { IsOneReply result }
{
    let Some(entry) = entry(script, place) else {
        return Heard::Fault;
    };
    match &entry.seen {
        ScriptedSeen::Reply(bytes) => match copies(bytes) {
            Ok((told, kept)) => Heard::Reply(told, kept),
            Err(OutOfMemory) => Heard::Memory,
        },
        ScriptedSeen::Fault => Heard::Fault,
        ScriptedSeen::Memory => Heard::Memory,
    }
}

// Starts a command, which gets the ticket with its place.
fn start_over(
    script: &[Scripted],
    commands: &mut Vec<RawDocumentBuf>,
    polled: &mut Vec<u32>,
    log: &mut Log,
    faults: &mut u64,
    command: &RawDocument<'_>,
) -> Result<Ticket, LinkError>
    requires same { commands.old.items ≡ commands_of log.old }
    requires counted { length polled.old.items ≡ length log.old }
    ensures same { commands.new.items ≡ commands_of log.new }
    ensures counted { length polled.new.items ≡ length log.new }
    ensures polls_same { SamePolls (polls_in polled.old.items) (polls_in polled.new.items) }
    ensures starts { StartMeans (out_at log.old) (out_at log.new) (Some log.old) (Some log.new) command.now result }
    ensures fault { IsErrOf result LinkError.Fault → Rose faults.old faults.new }
    ensures later { faults.old ≤ faults.new }
{
    let place = log.len();
    match entry(script, place) {
        Some(_) => match add(commands, polled, log, command, Seen::Waiting) {
            Ok(()) => Ok(Ticket::new(place as u64)),
            Err(OutOfMemory) => Err(LinkError::Memory),
        },
        None => match add(commands, polled, log, command, Seen::Fault) {
            Ok(()) => {
                *faults = faults.saturating_add(1);
                Err(LinkError::Fault)
            }
            Err(OutOfMemory) => Err(LinkError::Memory),
        },
    }
}

// Writes down what the call of a ticket has seen.
fn finish(log: &mut Log, number: u64, seen: Seen)
    requires out { IsSome (out_at log.old number) }
    requires answer { IsAnswer (sight seen) }
    ensures ends { Ends (out_at log.old) (out_at log.new) (Some log.old) (Some log.new) number (sight seen) }
    ensures commands { commands_of log.new ≡ commands_of log.old }
    ensures counted { length log.new ≡ length log.old }
{
    log.see(number as usize, seen);
}

// Polls the call of a ticket.
fn poll_over(
    script: &[Scripted],
    polled: &mut Vec<u32>,
    log: &mut Log,
    faults: &mut u64,
    pends: &mut u64,
    ticket: Ticket,
) -> Polled
    requires out { IsSome (out_at log.old ticket) }
    requires counted { length polled.old.items ≡ length log.old }
    ensures commands { commands_of log.new ≡ commands_of log.old }
    ensures counted { length polled.new.items ≡ length log.new }
    ensures polls { PollMeans (out_at log.old) (out_at log.new) (Some log.old) (Some log.new) ticket result }
    ensures fault { result ≡ Polled.Failed → Rose faults.old faults.new }
    ensures pended { PollPends result (out_at log.old ticket) pends.old pends.new (polls_in polled.old.items) (polls_in polled.new.items) }
    ensures faults_later { faults.old ≤ faults.new }
    ensures pends_later { pends.old ≤ pends.new }
{
    let number = ticket.number();
    let place = number as usize;
    if polled[place] < pend_at(script, place) {
        polled[place] += 1;
        *pends = pends.saturating_add(1);
        return Polled::Pending(ticket);
    }
    match hear(script, place) {
        Heard::Reply(told, kept) => {
            finish(log, number, Seen::Reply(kept));
            Polled::Reply(told)
        }
        Heard::Fault => {
            *faults = faults.saturating_add(1);
            finish(log, number, Seen::Fault);
            Polled::Failed
        }
        Heard::Memory => {
            finish(log, number, Seen::Memory);
            Polled::Memory
        }
    }
}

impl ScriptLink {
    ghost use Rattle.std.specs.Prelude.{◌≡◌, []};
    ghost use Rattle.mg_link.specs.Scripted.{commands_of};

    /// A link over which nothing was sent, with this wire version.
    pub fn new(list: Vec<Scripted>, wire: i32) -> ScriptLink
        ensures { result ≡ record { calls = []; pended = []; faults = 0; pends = 0; wire = wire } }
    {
        let alloc = *list.allocator();
        ScriptLink {
            script: list,
            wire,
            commands: Vec::new(alloc),
            polled: Vec::new(alloc),
            log: Log::new(alloc),
            faults: 0,
            pends: 0,
        }
    }

    /// The commands that were sent, in their order.
    pub fn commands(&self) -> &[RawDocumentBuf]
        ensures { result.now ≡ commands_of self.now.calls }
    {
        self.commands.as_slice()
    }
}

impl Link for ScriptLink {
    ghost use Rattle.std.specs.Prelude.{Some};
    ghost use Rattle.mg_link.specs.Places.{out_at, polls_in};

    ghost faults = { λ l. l.faults };

    ghost pends = { λ l. l.pends };

    ghost polls = { λ l. polls_in l.pended };

    ghost log = { λ l. Some l.calls };

    ghost awaited = { λ l. out_at l.calls };

    ghost prompt = { λ l. ⊥ };

    ghost wire = { λ l. l.wire };

    fn start(&mut self, command: RawDocument<'_>) -> Result<Ticket, LinkError> {
        start_over(
            &self.script,
            &mut self.commands,
            &mut self.polled,
            &mut self.log,
            &mut self.faults,
            &command,
        )
    }

    fn poll(&mut self, ticket: Ticket) -> Polled {
        poll_over(
            &self.script,
            &mut self.polled,
            &mut self.log,
            &mut self.faults,
            &mut self.pends,
            ticket,
        )
    }

    fn wire_version(&self) -> i32 {
        self.wire
    }
}
