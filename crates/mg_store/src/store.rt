//! The store.
ghost use Rattle.std.specs.Prelude.{◌≡◌, ◌<◌, ◌≤◌, ◌++◌, [], ◌∷◌, length, map, suc, pos, string_bytes, IfOk, OnErr};
ghost use Rattle.mg_bson.specs.Bytes.{bytes};
ghost use Rattle.mg_bson.specs.Raw.{fields};
ghost use Rattle.mg_server.specs.History.{IsLegal};
ghost use Rattle.mg_server.specs.Kept.{IsByRules, IsReply, given_of, state_of_kept, steps_of};
ghost use Rattle.mg_link.specs.Namespace.{space};
ghost use Rattle.mg_server.specs.Prompt.{HoldsBackNone};
ghost use Rattle.mg_server.specs.Rules.{answer_of, refusal};
ghost use Rattle.mg_server.specs.Step.{documents_of};
ghost use Rattle.mg_store.specs.Contents.{MayKeep};
ghost use Rattle.mg_store.specs.Holding.{AreExact, entries_from};
ghost use Rattle.mg_store.specs.InMemory.{Performed, by_rules};
ghost use Rattle.mg_store.specs.Stored.{AreOpen, Performs, Stored, kept_of};

use crate::change::ChangeEntry;
use crate::content::Content;
use crate::perform::{Answer, closing, refused};
use mg_bson::{RawDocument, RawDocumentBuf};
use mg_link::{HistoryStep, Namespace, OutOfMemory, Receipt, push_reserved};
use mg_query::{continued_cursor, copy, ends_cursor};
use std::alloc::Global;
use std::marker::Model;

/// A store in memory. It performs one command after another, and keeps the history of its steps.
pub struct Store {
    alloc: Global,
    content: Content,
    history: Vec<HistoryStep>,
}

// By hand, so that letting one go is one call.
impl Drop for Store {
    fn drop(self) {
        let Store {
            alloc: _,
            content: _,
            history: _,
        } = self;
    }
}

impl Model for Store {
    ghost use Rattle.mg_store.specs.Contents.{HasKept};
    ghost use Rattle.mg_store.specs.Stored.{Stored, steps_of};
    ghost use Rattle.std.specs.BTreeMap.{keys};

    ghost Value = { Stored };

    ghost view = { λ s. record { history = steps_of s.history.items; open_ids = keys s.content.cursors } };

    ghost invariant = { λ s. HasKept s.content (steps_of s.history.items) };
}

impl Store {
    /// An empty store, with no step in its history.
    pub fn new(alloc: Global) -> Store
        ensures { result ≡ record { history = []; open_ids = [] } }
    {
        Store {
            alloc,
            content: Content::new(alloc),
            history: Vec::new(alloc),
        }
    }

    /// Performs a command and keeps the step. The reply is that of the store's rules, and a refusal is a reply. Where
    /// memory runs out nothing changes.
    pub fn perform(&mut self, command: RawDocument<'_>) -> Result<Receipt, OutOfMemory>
        ensures step { IfOk result (λ r. Performs self.old self.new command.entry r) }
        ensures reply { IfOk result (λ r. IsReply (answer_of (state_of_kept self.old.history) (pos (suc (given_of self.old.history))) (fields command.entry)).reply r.reply) }
        ensures err { OnErr result (self.new ≡ self.old) }
    {
        let position = steps_taken(self);
        let kept = copy(self.alloc, &command)?;
        let reply = self.answer(&command)?;
        Ok(Receipt {
            position,
            command: kept,
            reply,
        })
    }

    /// Performs a command and keeps the step: its reply.
    pub(crate) fn answer(
        &mut self,
        command: &RawDocument<'_>,
    ) -> Result<RawDocumentBuf, OutOfMemory>
        ensures performed { IfOk result (Performed (by_rules command.now) self.old self.new command.now) }
        ensures err { OnErr result (self.new ≡ self.old) }
    {
        let answer = self.content.answer(self.alloc, command)?;
        self.keep(command, answer)
    }

    /// Does what the answer does, and keeps the step: its reply. Where memory runs out nothing changes.
    fn keep(
        &mut self,
        command: &RawDocument<'_>,
        answer: Answer,
    ) -> Result<RawDocumentBuf, OutOfMemory>
        requires { MayKeep self.old.history command.now answer }
        ensures step { IfOk result (λ r. self.new.history ≡ self.old.history ++ record { command = command.now; reply = r } ∷ []) }
        ensures reply { IfOk result (λ r. r ≡ answer.reply) }
        ensures err { OnErr result (self.new ≡ self.old) }
    {
        let step = step_of(self.alloc, command, &answer.reply)?;
        let Answer { reply, effect } = answer;
        self.history.reserve(1)?;
        effect.commit(&mut self.content)?;
        push_reserved(&mut self.history, step);
        Ok(reply)
    }

    /// Refuses a command with this code and these labels, and keeps the step. The reply has at most 47,000,000 bytes. A
    /// getMore that names a cursor and its collection, and is refused with code 43 or 237, leaves the store without that
    /// cursor, and nothing else changes but the history. Where memory runs out nothing changes.
    pub fn refuse(
        &mut self,
        command: RawDocument<'_>,
        code: i32,
        labels: &[String],
    ) -> Result<Receipt, OutOfMemory>
        requires { length (bytes (refusal code (map string_bytes labels.now))) ≤ 47000000 }
        ensures step { IfOk result (λ r. Performs self.old self.new command.entry r) }
        ensures reply { IfOk result (λ r. IsReply (refusal code (map string_bytes labels.now)) r.reply) }
        ensures err { OnErr result (self.new ≡ self.old) }
    {
        let position = steps_taken(self);
        let kept = copy(self.alloc, &command)?;
        let reply = self.refuse_with(&command, code, labels)?;
        Ok(Receipt {
            position,
            command: kept,
            reply,
        })
    }

    /// Refuses a command with this code and these labels, and keeps the step: its reply.
    pub(crate) fn refuse_with(
        &mut self,
        command: &RawDocument<'_>,
        code: i32,
        labels: &[String],
    ) -> Result<RawDocumentBuf, OutOfMemory>
        requires { length (bytes (refusal code (map string_bytes labels.now))) ≤ 47000000 }
        ensures performed { IfOk result (Performed (λ _. refusal code (map string_bytes labels.now)) self.old self.new command.now) }
        ensures err { OnErr result (self.new ≡ self.old) }
    {
        let Answer { reply, effect: _ } = refused(self.alloc, code, labels)?;
        let effect = closing(ends_cursor(code), continued_cursor(command));
        self.keep(command, Answer { reply, effect })
    }

    /// The documents of a collection, in the order of their inserts; none where the collection is not there. Each has the
    /// bytes of its encoding.
    pub fn documents(&self, ns: &Namespace) -> Result<Vec<&RawDocumentBuf>, OutOfMemory>
        ensures shown { IfOk result (λ ds. map (λ d. fields d.now) ds.items ≡ documents_of (state_of_kept self.now.history) (space ns.now)) }
        ensures encoded { IfOk result (λ ds. map (λ d. d.now) ds.items ≡ map bytes (documents_of (state_of_kept self.now.history) (space ns.now))) }
    {
        match self.content.collections.get(ns) {
            Some(collection) => collection.lent(self.alloc),
            None => Ok(Vec::new(self.alloc)),
        }
    }

    /// The list of changes, in order: each with its kind, its namespace and its event, whose token and time are those of its
    /// place. The event of each has the bytes of its document.
    pub fn changes(&self) -> &[ChangeEntry]
        ensures entries { entries_from 0 result.now ≡ (state_of_kept self.now.history).changes }
        ensures encoded { AreExact result.now }
    {
        self.content.changes.as_slice()
    }

    /// The steps that were taken, in order: a legal history, where each reply is that of the rules or a chosen refusal. The
    /// state that it leads to has just the open cursors.
    pub fn history(&self) -> &[HistoryStep]
        ensures steps { map kept_of result.now ≡ self.now.history }
        ensures by_rules { IsByRules self.now.history }
        ensures legal { IsLegal (steps_of self.now.history) }
        ensures cursors { AreOpen (state_of_kept self.now.history) self.now.open_ids }
        // It holds nothing back from a caller none of whose steps it refused.
        ensures prompt { HoldsBackNone (steps_of self.now.history) }
    {
        // For the proof alone: the ids of the open cursors are those of the map.
        self.content.cursors.keys();
        self.history.as_slice()
    }

    /// The ids of the open cursors, ascending.
    pub fn open_cursors(&self) -> Result<Vec<i64>, OutOfMemory>
        ensures ids { IfOk result (λ ids. ids.items ≡ self.now.open_ids) }
        ensures cursors { AreOpen (state_of_kept self.now.history) self.now.open_ids }
    {
        Ok(self.content.cursors.keys().copied().collect(self.alloc)?)
    }
}

/// How many steps the store took.
pub(crate) fn steps_taken(store: &Store) -> u64
    ensures { result ≡ length store.now.history }
{
    store.history().len() as u64
}

/// The step of a command and its reply, of copies of both.
fn step_of(
    alloc: Global,
    command: &RawDocument<'_>,
    reply: &RawDocumentBuf,
) -> Result<HistoryStep, OutOfMemory>
    ensures { IfOk result (λ s. (s.command ≡ command.now) × (s.reply ≡ reply.now)) }
{
    let command = copy(alloc, command)?;
    let reply = copy(alloc, &reply.as_raw())?;
    Ok(HistoryStep { command, reply })
}
