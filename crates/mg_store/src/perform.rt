//! What a command is answered.
ghost use Rattle.std.specs.Prelude.{◌≡◌, ℕ, IfOk, map, string_bytes};
ghost use Rattle.mg_server.specs.Rules.{refusal};
ghost use Rattle.mg_server.specs.State.{State, AreInOrder};
ghost use Rattle.mg_query.specs.Wanted.{lent_write};
ghost use Rattle.mg_store.specs.Answering.{AnswersAs, AnswersRefusal};
ghost use Rattle.mg_store.specs.Contents.{AnswersAsked, AnswersBy, AnswersOr, Represents, closing};

use crate::content::{Content, Effect};
use crate::cursor::Watch;
use mg_bson::{Document, RawDocument, RawDocumentBuf};
use mg_link::OutOfMemory;
use mg_query::{Refusal, Request, Stop, Write, namespace, reply, request_of, target};
use std::alloc::Global;

/// A reply, and what the command does.
#[derive(Drop)]
pub(crate) struct Answer {
    pub(crate) reply: RawDocumentBuf,
    pub(crate) effect: Effect,
}

/// The answer of a refusal, which does nothing.
pub(crate) fn refused(alloc: Global, code: i32, labels: &[String]) -> Result<Answer, OutOfMemory>
    ensures { IfOk result (AnswersRefusal (refusal code (map string_bytes labels.now))) }
{
    let document = reply::refusal(alloc, code, labels)?;
    match reply::bytes_of(alloc, &document)? {
        Some(reply) => Ok(Answer {
            reply,
            effect: Effect::Nothing,
        }),
        None => Err(OutOfMemory),
    }
}

/// What a refusal does to the cursor that the command goes on with, where it ends that.
pub(crate) fn closing(ends: bool, found: Option<i64>) -> Effect
    ensures { result ≡ closing ends found }
{
    match found {
        Some(id) if ends => Effect::Close { id },
        _ => Effect::Nothing,
    }
}

/// The answer, or a refusal where the reply is no document of the size that one may have.
pub(crate) fn answered(alloc: Global, document: Document, effect: Effect) -> Result<Answer, Stop>
    ensures { AnswersAs result document effect }
{
    match reply::bytes_of(alloc, &document)? {
        Some(reply) => Ok(Answer { reply, effect }),
        None => Err(Stop::Refused(Refusal::BadRequest)),
    }
}

impl Content {
    /// What a command that changes what is stored is answered.
    fn answer_write(&self, alloc: Global, write: Write<'_>) -> Result<Answer, Stop>
        ensures { (s : State) (given : ℕ) → Represents self.now s given → AnswersAsked s given (lent_write write.entry) result }
    {
        match write {
            Write::Insert {
                space,
                documents,
                ordered,
            } => self.answer_insert(alloc, namespace(alloc, space)?, &documents, ordered),
            Write::Create { space } => self.answer_create(alloc, namespace(alloc, space)?),
            Write::CreateIndexes { space, indexes } => {
                self.answer_create_indexes(alloc, namespace(alloc, space)?, &indexes)
            }
            Write::Drop { space } => self.answer_drop(alloc, namespace(alloc, space)?),
            Write::Update {
                space,
                filter,
                modification,
                many,
            } => {
                let ns = namespace(alloc, space)?;
                self.answer_update(alloc, ns, &filter, &modification, many)
            }
            Write::Delete {
                space,
                filter,
                many,
            } => self.answer_delete(alloc, namespace(alloc, space)?, &filter, many),
        }
    }

    fn answer_request(&self, alloc: Global, command: &RawDocument<'_>) -> Result<Answer, Stop>
        ensures { (s : State) (given : ℕ) → Represents self.now s given → AreInOrder s.collections → AnswersOr s given command.now result }
    {
        match request_of(alloc, command)? {
            Request::Find { space, plan } => {
                self.answer_find(alloc, namespace(alloc, space)?, &plan)
            }
            Request::Watch {
                target: aimed,
                filter,
                start,
                resumes,
                batch_size,
            } => {
                let target = target(alloc, aimed)?;
                self.answer_watch(alloc, Watch { target, filter }, &start, resumes, batch_size)
            }
            Request::GetMore {
                id,
                space,
                batch_size,
            } => self.answer_get_more(alloc, id, &namespace(alloc, space)?, batch_size),
            Request::KillCursors { ids } => self.answer_kill(alloc, &ids),
            Request::ListCollections { db, plan } => {
                self.answer_list_collections(alloc, db, &plan)
            }
            Request::ListIndexes { space, batch_size } => {
                self.answer_list_indexes(alloc, namespace(alloc, space)?, batch_size)
            }
            Request::Write(write) => self.answer_write(alloc, write),
        }
    }

    /// What the command is answered. Nothing changes yet.
    pub(crate) fn answer(
        &self,
        alloc: Global,
        command: &RawDocument<'_>,
    ) -> Result<Answer, OutOfMemory>
        ensures { (s : State) (given : ℕ) → Represents self.now s given → AreInOrder s.collections → IfOk result (AnswersBy s given command.now) }
    {
        match self.answer_request(alloc, command) {
            Ok(answer) => Ok(answer),
            Err(Stop::Memory) => Err(OutOfMemory),
            Err(Stop::Refused(refusal)) => refused(alloc, refusal.code(), &[]),
        }
    }
}
