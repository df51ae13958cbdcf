//! The insert of a list of documents, cut into commands.
ghost use Rattle.std.specs.Prelude.{◌≡◌, ◌≢◌, ◌⊎◌, ◌<◌, ◌≤◌, ◌+◌, ◌*◌, None, length, slice_get, IfErr, IfOk, IfSome};
ghost use Rattle.std.specs.Option.{option_flatten};
ghost use Rattle.mg_link.specs.Namespace.{space};
ghost use Rattle.mg_link.specs.Acts.{EndsAtOnce, FailsByFault, IsOut, Pended, Tickets, ticket_after};
ghost use Rattle.mg_link.specs.Exec.{ticket_of};
ghost use Rattle.mg_link.specs.Link.{Later};
ghost use Rattle.mg_link.specs.Errors.{plain};
ghost use Rattle.mg_link.specs.declared.error.ErrorKind.TheVariants as kinds;
ghost use Rattle.mg_server.specs.Owner.{PassesPlain};
ghost use Rattle.mg_ops.specs.Failing.{CannotBeSent, FailsBy};
ghost use Rattle.mg_ops.specs.Limits.{max_documents};
ghost use Rattle.mg_ops.specs.InsertSends.{HearsOnce, NextOnce, SendsOn};
ghost use Rattle.mg_ops.specs.InsertCauses.{CannotEncode, CannotGoOn, FitTogether, HearsCaused, InsertCaused, IsBuilt, IsLength, NextCaused, max_piece};
ghost use Rattle.mg_ops.specs.Inserts.{HeardAtOnce, HeardLost, HeardPends, HeardPlain, HeldPlain, IsPlain, NextFewer, NextNotIo, NextPlain, NextTicket, SendsPlain, StepPlain, heard_ticket, insert_ticket, left_of};
ghost use Rattle.mg_ops.specs.Drawn.{AreLater, lacking, lacks, sent_for, with_ids};
ghost use Rattle.mg_ops.specs.Underway.{GivesCount, HearsSent, Inserts, IsBatch, IsNextOf, IsSameList, IsStarted, SendsNext, sent_of, with_id};

use crate::insert::{Insert, MAX_DOCUMENTS};
use crate::operation::{Operation, encode};
use mg_bson::{Bson, BsonError, Document, ObjectId};
use mg_exec::{Exec, Retry};
use mg_link::{Action, Error, ErrorKind, IdSource, Link, Namespace, Step, plain};
use mg_options::InsertManyOptions;
use std::alloc::Global;

/// The most bytes of the documents of one insert command together.
const MAX_BATCH: usize = 47_000_000;

/// How many documents of so many bytes each one command inserts: at least one, at most 100,000, and else as many as have at most
/// 47,000,000 bytes together.
pub fn documents_together(length: usize) -> usize
    ensures some { 1 ≤ result }
    ensures few { result ≤ max_documents }
    ensures together { (result * length ≤ max_piece) ⊎ (result ≡ 1) }
    ensures most { (max_piece < (result + 1) * length) ⊎ (result ≡ max_documents) }
{
    if length == 0 {
        return MAX_DOCUMENTS;
    }
    let fitting = MAX_BATCH / length;
    if fitting == 0 {
        return 1;
    }
    if fitting > MAX_DOCUMENTS {
        return MAX_DOCUMENTS;
    }
    fitting
}

/// The documents of one command, and how many of the list it and the earlier ones hold.
#[derive(Drop)]
struct Batch {
    documents: Vec<Document>,
    upto: usize,
}

/// Draws an id for a document that has none.
fn drawn_for<I: IdSource>(ids: &mut I, document: &Document) -> Option<ObjectId>
    ensures sent { with_id result document.now ≡ sent_for (I.ids ids.old 0) document.now }
    ensures drawn { AreLater (I.ids ids.old) (lacks document.now) (I.ids ids.new) }
{
    match document.get("_id") {
        Some(_) => None,
        None => Some(ids.next_id()),
    }
}

/// Draws an id for each document that has none, in their order, also where there is no place to keep them: memory does not
/// change which ids come next.
fn draw<I: IdSource>(
    alloc: Global,
    ids: &mut I,
    documents: &[Document],
) -> Result<Vec<Option<ObjectId>>, Error>
    ensures sent { IfOk result (λ drawn. sent_of drawn.items documents.now ≡ with_ids (I.ids ids.old) 0 documents.now) }
    ensures drawn { AreLater (I.ids ids.old) (lacking documents.now) (I.ids ids.new) }
    ensures err { IfErr result (λ e. e ≡ plain kinds.OutOfMemory) }
{
    let mut drawn = Vec::new(alloc);
    let mut fits = true;
    for document in documents {
        let id = drawn_for(ids, document);
        fits = fits && drawn.push(id).is_ok();
    }
    if fits {
        Ok(drawn)
    } else {
        Err(plain(ErrorKind::OutOfMemory))
    }
}

/// A copy of the document, with a drawn id as its first field.
fn with_id(alloc: Global, document: &Document, id: Option<ObjectId>) -> Result<Document, Error>
    ensures ok { IfOk result (λ d. d ≡ with_id id document.now) }
    ensures err { IfErr result (λ e. e.kind ≢ ErrorKind.Io) }
    ensures fails { IfErr result (λ e. e ≡ plain kinds.OutOfMemory) }
{
    let Some(id) = id else {
        let copy = document.clone()?;
        return Ok(copy);
    };
    let mut copy = Document::new(alloc);
    copy.append("_id", Bson::ObjectId(id))?;
    let mut left = document.iter();
    while let Some((name, value)) = left.next() {
        copy.append(name, value.clone()?)?;
    }
    Ok(copy)
}

/// The length of a document in bytes, or none where it is longer than any document may be.
fn length_of(document: &Document) -> Result<Option<usize>, Error>
    ensures ok { IfOk result (λ length. IsLength document.now length) }
    ensures err { IfErr result (λ e. e.kind ≢ ErrorKind.Io) }
    ensures fails { IfErr result (λ e. FailsBy (CannotBeSent document.now) e) }
{
    match document.encoded_len() {
        Ok(length) => Ok(Some(length)),
        Err(BsonError::TooLarge) => Ok(None),
        Err(error) => Err(Error::from(error)),
    }
}

/// The id that was drawn for the document at this place, where one was.
fn id_at(drawn: &[Option<ObjectId>], place: usize) -> Option<ObjectId>
    ensures { result ≡ option_flatten (slice_get drawn.now place) }
{
    if place < drawn.len() {
        drawn[place]
    } else {
        None
    }
}

/// The documents of the next command: as many as fit it, and at least one.
fn batch_from(
    alloc: Global,
    documents: &[Document],
    drawn: &[Option<ObjectId>],
    from: usize,
) -> Result<Batch, Error>
    requires { from < length documents.now }
    ensures further { IfOk result (λ b. (from < b.upto) × (b.upto ≤ length documents.now)) }
    ensures few { IfOk result (λ b. b.upto ≤ from + max_documents) }
    ensures together { IfOk result (λ b. FitTogether b.documents.items) }
    ensures these { IfOk result (λ b. IsBatch drawn.now documents.now from b.documents.items b.upto) }
    ensures err { IfErr result (λ e. e.kind ≢ ErrorKind.Io) }
    ensures fails { IfErr result (λ e. FailsBy (CannotEncode (sent_of drawn.now documents.now)) e) }
{
    let mut batch = Vec::new(alloc);
    let mut room = MAX_BATCH;
    for i in from..documents.len() {
        if i - from == MAX_DOCUMENTS {
            return Ok(Batch {
                documents: batch,
                upto: i,
            });
        }
        let document = with_id(alloc, &documents[i], id_at(drawn, i))?;
        let length = length_of(&document)?.unwrap_or(usize::MAX);
        if length > room && i > from {
            return Ok(Batch {
                documents: batch,
                upto: i,
            });
        }
        room = room.saturating_sub(length);
        batch.push(document)?;
    }
    Ok(Batch {
        documents: batch,
        upto: documents.len(),
    })
}

/// A command of an insert whose reply was not read yet.
#[derive(Drop)]
struct Command {
    exec: Exec,
    insert: Insert,
}

/// The documents of an insert, and how many of them stand in commands that were built.
struct Batches<'a> {
    alloc: Global,
    ns: &'a Namespace,
    documents: &'a [Document],
    drawn: Vec<Option<ObjectId>>,
    upto: usize,
}

// By hand, so that letting one go is one call.
impl Drop for Batches<'_> {
    fn drop(self) {
        let Batches {
            alloc: _,
            ns: _,
            documents: _,
            drawn: _,
            upto: _,
        } = self;
    }
}

/// What is to be sent next.
#[derive(Drop)]
enum Next {
    Send(Command),
    /// No document is left.
    Finished,
    /// The next command was not built.
    Stopped(Error),
}

/// What a poll of a command came to.
#[derive(Drop)]
enum Heard {
    Pending(Command),
    Inserted,
    Failed(Error),
}

impl<'a> Batches<'a> {
    /// Builds the next command, where documents are left.
    fn next(&mut self, wire: i32) -> Result<Option<Command>, Error>
        ensures unsent { IfOk result (λ o. IfSome o (λ c. ticket_of c.exec ≡ None)) }
        ensures plain { IfOk result (λ o. IfSome o (λ c. IsPlain c.exec.command)) }
        ensures further { IfOk result (λ o. IfSome o (λ c. (self.old.upto < self.new.upto) × (self.old.upto < length self.old.documents.now))) }
        ensures same { IsSameList self.old self.new }
        ensures next { IfOk result (λ o. IsNextOf self.old self.new o) }
        ensures built { IfOk result (λ o. IfSome o (λ c. IsBuilt self.old self.new.upto c)) }
        ensures err { IfErr result (λ e. e.kind ≢ ErrorKind.Io) }
        ensures fails { IfErr result (λ e. FailsBy (CannotGoOn self.old) e) }
    {
        if self.upto >= self.documents.len() {
            return Ok(None);
        }
        let batch = batch_from(self.alloc, self.documents, self.drawn.as_slice(), self.upto)?;
        let insert = Insert {
            ns: self.ns.clone()?,
            documents: batch.documents,
            options: InsertManyOptions {
                bypass_document_validation: None,
                ordered: None,
                comment: None,
                write_concern: None,
            },
        };
        let command = encode(self.alloc, &insert, wire, None)?;
        self.upto = batch.upto;
        let exec = Exec::start(command, Retry::None);
        Ok(Some(Command { exec, insert }))
    }

    /// The command that waits for its reply, or else the next one, where documents are left.
    fn current(&mut self, waiting: Option<Command>, wire: i32) -> Next
        ensures ticket { NextTicket waiting result }
        ensures same { IsSameList self.old self.new }
        ensures plain { HeldPlain waiting → NextPlain result }
        ensures fewer { NextFewer (left_of self.old.documents.now self.old.upto waiting) (left_of self.new.documents.now self.new.upto None) result }
        ensures sends { SendsNext self.old self.new waiting result }
        ensures err { NextNotIo result }
        ensures caused { NextCaused self.old self.new waiting result }
        ensures once { NextOnce self.old self.new waiting result }
    {
        let Some(command) = waiting else {
            return match self.next(wire) {
                Ok(Some(command)) => Next::Send(command),
                Ok(None) => Next::Finished,
                Err(error) => Next::Stopped(error),
            };
        };
        Next::Send(command)
    }

    /// Goes on with a command.
    fn hear<L: Link>(&self, link: &mut L, command: Command) -> Heard
        requires { IsOut (L.awaited link.old) (ticket_of command.exec) }
        ensures tickets { Tickets (L.awaited link.old) (L.awaited link.new) (ticket_of command.exec) (heard_ticket result) }
        ensures plain { IsPlain command.exec.command → PassesPlain (L.log link.old) (L.log link.new) × HeardPlain result }
        ensures sent { HearsSent (L.awaited link.old) (L.awaited link.new) (L.log link.old) (L.log link.new) command result }
        ensures caused { HearsCaused (L.awaited link.old) (L.awaited link.new) (L.log link.old) (L.log link.new) (L.wire link.old) command result }
        ensures once { HearsOnce (L.log link.old) (L.log link.new) command result }
        ensures pended { HeardPends result (L.pends link.old) (L.pends link.new) }
        ensures lost { HeardLost result (L.faults link.old) (L.faults link.new) }
        ensures prompt { L.prompt link.old → HeardAtOnce result }
        ensures later { Later (L.faults link.old) (L.faults link.new) (L.pends link.old) (L.pends link.new)
            (L.wire link.old) (L.wire link.new) (L.prompt link.old) (L.prompt link.new) }
    {
        let Command { exec, insert } = command;
        match exec.poll(link) {
            Step::Pending(exec) => Heard::Pending(Command { exec, insert }),
            Step::Failed(error) => Heard::Failed(error),
            Step::Done(reply) => match insert.read(self.alloc, reply) {
                Ok(_) => Heard::Inserted,
                Err(error) => Heard::Failed(error),
            },
        }
    }
}

/// An insert of documents in their order, cut into commands that keep the limits, which goes on while replies pend. It
/// gives their number; of none it gives 0 and sends nothing. One without `_id` gets a drawn one as its first field. After a
/// failure the commands before it took effect.
pub struct Inserting<'a> {
    batches: Batches<'a>,
    command: Option<Command>,
}

// By hand, so that letting one go is one call.
impl Drop for Inserting<'_> {
    fn drop(self) {
        let Inserting {
            batches: _,
            command: _,
        } = self;
    }
}

impl<'a> Inserting<'a> {
    /// An insert of these documents. Their missing ids are drawn at once, also where memory runs out, and nothing is sent.
    pub fn start<I: IdSource>(
        alloc: Global,
        ids: &mut I,
        ns: &'a Namespace,
        documents: &'a [Document],
    ) -> Result<Inserting<'a>, Error>
        ensures ticket { IfOk result (λ i. insert_ticket i ≡ None) }
        ensures plain { IfOk result (λ i. SendsPlain i) }
        ensures started { IfOk result (λ i. IsStarted (space ns.now) (with_ids (I.ids ids.old) 0 documents.now) i) }
        ensures drawn { AreLater (I.ids ids.old) (lacking documents.now) (I.ids ids.new) }
        ensures err { IfErr result (λ e. e ≡ plain kinds.OutOfMemory) }
    {
        let drawn = draw(alloc, ids, documents)?;
        Ok(Inserting {
            batches: Batches {
                alloc,
                ns,
                documents,
                drawn,
                upto: 0,
            },
            command: None,
        })
    }
}

impl Inserting<'_> {
    /// The number of the ticket that it holds, while it waits for a reply.
    pub fn ticket_number(&self) -> Option<u64>
        ensures { result ≡ insert_ticket self.now }
    {
        match &self.command {
            Some(command) => command.exec.ticket_number(),
            None => None,
        }
    }
}

impl<'a> Action for Inserting<'a> {
    type Output = u64;

    ghost ticket = { insert_ticket };

    fn poll<L: Link>(self, link: &mut L) -> Step<Inserting<'a>, u64>
        requires { IsOut (L.awaited link.old) (insert_ticket self) }
        ensures tickets { Tickets (L.awaited link.old) (L.awaited link.new) (insert_ticket self.entry) (ticket_after insert_ticket result) }
        ensures pended { Pended insert_ticket result (L.pends link.old) (L.pends link.new) }
        ensures lost { FailsByFault result (L.faults link.old) (L.faults link.new) }
        ensures prompt { L.prompt link.old → EndsAtOnce result }
        ensures later { Later (L.faults link.old) (L.faults link.new) (L.pends link.old) (L.pends link.new)
            (L.wire link.old) (L.wire link.new) (L.prompt link.old) (L.prompt link.new) }
        ensures plain { SendsPlain self.entry → PassesPlain (L.log link.old) (L.log link.new) × StepPlain result }
        // In the end the number of the documents is given.
        ensures number { GivesCount self.entry result }
        // Where the log is told, calls of it inserted the documents in order, each with its `_id`, but for those of the command
        // that is underway; and in the end all of them.
        ensures inserts { Inserts (L.awaited link.old) (L.awaited link.new) (L.log link.old) (L.log link.new) self.entry result }
        // Where the log is told, an error is want of memory, or has its cause in the reply to one of its commands, in one that was
        // lost, or in documents that cannot be sent.
        ensures caused { InsertCaused (L.awaited link.old) (L.awaited link.new) (L.log link.old) (L.log link.new) (L.wire link.old) self.entry result }
        // Where the log is told, each next piece of the documents was sent once, in order, and nothing else: also where the names may not
        // be, and where it fails.
        ensures sends { SendsOn (L.log link.old) (L.log link.new) self.entry result }
    {
        let Inserting {
            mut batches,
            mut command,
        } = self;
        'commands: loop {
            let next = match batches.current(command, link.wire_version()) {
                Next::Send(next) => next,
                Next::Finished => return Step::Done(batches.documents.len() as u64),
                Next::Stopped(error) => return Step::Failed(error),
            };
            match batches.hear(link, next) {
                Heard::Pending(waiting) => {
                    return Step::Pending(Inserting {
                        batches,
                        command: Some(waiting),
                    });
                }
                Heard::Inserted => command = None,
                Heard::Failed(error) => return Step::Failed(error),
            }
        }
    }
}
