//! Replies with a cursor.
ghost use Rattle.std.specs.Prelude.{◌≡◌, Ok, Err, IfOk, IfErr, MatchResult, option_map, option_and_then, codes};
ghost use Rattle.mg_bson.specs.Find.{as_int64, get};
ghost use Rattle.mg_bson.specs.Raw.{fields, items};
ghost use Rattle.mg_bson.specs.RawView.{value};
ghost use Rattle.mg_bson.specs.View.{tree};
ghost use Rattle.mg_server.specs.Commands.{array_in, as_token, batch_items, text_of, token_in};
ghost use Rattle.mg_link.specs.Namespace.{space, space_of};
ghost use Rattle.mg_link.specs.declared.error.Malformed.TheVariants as malformed;
ghost use Rattle.mg_ops.specs.Commands.{more_command};
ghost use Rattle.mg_ops.specs.Cursors.{BreaksIn, Gave, Opens, OpensWith, batch_at, cursor_in, cursor_of, found, found_cursor, asking_command};
ghost use Rattle.mg_ops.specs.Failing.{FailsBy, Gives};

use crate::fault::{Fault, error_of};
use crate::get_more::GetMore;
use mg_bson::{Bson, RawArray, RawDocument, RawDocumentBuf, RawValue};
use mg_link::{Error, Malformed, Namespace};
use mg_options::ResumeToken;
use std::alloc::{AllocError, Global};

/// A cursor, and how its batches are asked for.
pub struct CursorInformation {
    /// The namespace that its getMores name.
    pub ns: Namespace,
    /// Its id, or 0 where the server holds none.
    pub id: i64,
    /// The most documents of a batch.
    pub batch_size: Option<u32>,
    /// The most milliseconds that the server may wait for a batch.
    pub max_time: Option<u64>,
    /// A value that the server writes beside each getMore into its logs.
    pub comment: Option<Bson>,
}

// By hand, so that letting one go is one call.
impl Drop for CursorInformation {
    fn drop(self) {
        let CursorInformation {
            ns: _,
            id: _,
            batch_size: _,
            max_time: _,
            comment: _,
        } = self;
    }
}

impl CursorInformation {
    /// The getMore that asks for its next batch. Only memory can fail.
    pub fn get_more(&self) -> Result<GetMore, AllocError>
        ensures command { IfOk result (λ g. more_command g.id (space g.ns) g.batch_size g.max_time (option_map tree g.comment) ≡ asking_command self.now) }
        ensures size { IfOk result (λ g. g.batch_size ≡ self.now.batch_size) }
    {
        Ok(GetMore {
            ns: self.ns.clone()?,
            id: self.id,
            batch_size: self.batch_size,
            max_time: self.max_time,
            comment: copied(&self.comment)?,
        })
    }
}

/// What the reply to an opening gave.
#[derive(Drop)]
pub struct CursorSpecification {
    /// The cursor.
    pub info: CursorInformation,
    /// The whole reply, whose batch is the cursor's first.
    pub initial_reply: RawDocumentBuf,
    /// Whether the first batch is empty.
    pub is_empty: bool,
    /// The token behind the first batch.
    pub post_batch_resume_token: Option<ResumeToken>,
}

/// What the reply to a getMore gave.
#[derive(Drop)]
pub struct GetMoreResult {
    /// The whole reply.
    pub raw_reply: RawDocumentBuf,
    /// Whether the server holds the cursor no longer.
    pub exhausted: bool,
    /// The token behind the batch.
    pub post_batch_resume_token: Option<ResumeToken>,
    /// The namespace of the cursor.
    pub ns: Namespace,
    /// The id of the cursor, or 0 where the server holds none.
    pub id: i64,
}

/// What a reply tells of its cursor.
#[derive(Drop)]
pub struct CursorReply {
    /// The id of the cursor, or 0 where the server holds none.
    pub id: i64,
    /// The namespace of the cursor.
    pub ns: Namespace,
    /// The token behind the batch.
    pub post_batch_resume_token: Option<ResumeToken>,
}

// The cursor of a reply, and its batch as it lies there.
#[derive(Drop)]
pub(crate) struct Found<'a> {
    pub(crate) cursor: CursorReply,
    pub(crate) batch: RawArray<'a>,
}

fn id_of(cursor: &RawDocument<'_>) -> Result<i64, Fault>
    ensures { Gives (λ n. n) result (found malformed.BadId (option_and_then as_int64 (get (codes "id") (fields cursor.now)))) }
{
    match cursor.get("id") {
        Some(found) => match found.as_i64() {
            Some(id) => Ok(id),
            None => Err(Fault::Broken(Malformed::BadId)),
        },
        None => Err(Fault::Broken(Malformed::BadId)),
    }
}

fn ns_of(alloc: Global, cursor: &RawDocument<'_>) -> Result<Namespace, Fault>
    ensures { Gives space result (found malformed.BadNs (option_and_then space_of (text_of (codes "ns") (fields cursor.now)))) }
{
    let name = match cursor.get("ns") {
        Some(found) => found.as_str(),
        None => None,
    };
    let Some(name) = name else {
        return Err(Fault::Broken(Malformed::BadNs));
    };
    match Namespace::from_str(alloc, name)? {
        Some(ns) => Ok(ns),
        None => Err(Fault::Broken(Malformed::BadNs)),
    }
}

// A token that is a document; another kind counts as none.
fn as_token(alloc: Global, found: &RawValue<'_>) -> Result<Option<ResumeToken>, Fault>
    ensures ok { IfOk result (λ t. t ≡ as_token (value found.now)) }
    ensures err { IfErr result (λ f. f ≡ Fault.Memory) }
{
    match found {
        RawValue::Document(_) => match ResumeToken::from_raw(alloc, found) {
            Ok(token) => Ok(Some(token)),
            Err(_) => Err(Fault::Memory),
        },
        _ => Ok(None),
    }
}

fn token_of(alloc: Global, cursor: &RawDocument<'_>) -> Result<Option<ResumeToken>, Fault>
    ensures ok { IfOk result (λ t. t ≡ token_in (fields cursor.now)) }
    ensures err { IfErr result (λ f. f ≡ Fault.Memory) }
{
    match cursor.get("postBatchResumeToken") {
        Some(found) => as_token(alloc, &found),
        None => Ok(None),
    }
}

fn array_of<'a>(cursor: &RawDocument<'a>, name: &str) -> Option<RawArray<'a>>
    ensures { option_map items result ≡ array_in name.now (fields cursor.now) }
{
    match cursor.get(name) {
        Some(found) => found.as_array(),
        None => None,
    }
}

fn batch_of<'a>(cursor: &RawDocument<'a>) -> Result<RawArray<'a>, Fault>
    ensures { Gives items result (found malformed.NoBatch (batch_items (fields cursor.now))) }
{
    match array_of(cursor, "firstBatch") {
        Some(batch) => Ok(batch),
        None => match array_of(cursor, "nextBatch") {
            Some(batch) => Ok(batch),
            None => Err(Fault::Broken(Malformed::NoBatch)),
        },
    }
}

fn cursor_in<'a>(alloc: Global, cursor: &RawDocument<'a>) -> Result<Found<'a>, Fault>
    ensures { Gives found_cursor result (cursor_in (fields cursor.now)) }
{
    let id = id_of(cursor)?;
    let ns = ns_of(alloc, cursor)?;
    let post_batch_resume_token = token_of(alloc, cursor)?;
    let batch = batch_of(cursor)?;
    Ok(Found {
        cursor: CursorReply {
            id,
            ns,
            post_batch_resume_token,
        },
        batch,
    })
}

// The cursor and the batch of a reply, in the order of the checks: cursor, id, namespace, token, batch.
#[tactic(auto, unfolding(crate::specs::Cursors::cursor_of))]
fn cursor_of<'a>(alloc: Global, reply: &RawDocument<'a>) -> Result<Found<'a>, Fault>
    ensures { Gives found_cursor result (cursor_of (fields reply.now)) }
{
    let cursor = match reply.get("cursor") {
        Some(found) => found.as_document(),
        None => None,
    };
    match cursor {
        Some(cursor) => cursor_in(alloc, &cursor),
        None => Err(Fault::Broken(Malformed::NoCursor)),
    }
}

// Reads the reply to an opening whose batches have at most so many documents.
fn read_opening(
    alloc: Global,
    batch_size: Option<u32>,
    reply: RawDocumentBuf,
) -> Result<CursorSpecification, Error>
    ensures ok { IfOk result (λ out. Opens batch_size reply out) }
    ensures err { IfErr result (λ e. FailsBy (BreaksIn (fields reply)) e) }
{
    let raw = reply.as_raw();
    let Found { cursor, batch } = match cursor_of(alloc, &raw) {
        Ok(found) => found,
        Err(fault) => return Err(error_of(fault)),
    };
    let is_empty = batch.is_empty();
    let CursorReply {
        id,
        ns,
        post_batch_resume_token,
    } = cursor;
    Ok(CursorSpecification {
        info: CursorInformation {
            ns,
            id,
            batch_size,
            max_time: None,
            comment: None,
        },
        initial_reply: reply,
        is_empty,
        post_batch_resume_token,
    })
}

// A copy of a comment.
fn copied(comment: &Option<Bson>) -> Result<Option<Bson>, AllocError>
    ensures { IfOk result (λ c. option_map tree c ≡ option_map tree comment.now) }
{
    match comment {
        Some(value) => Ok(Some(value.clone()?)),
        None => Ok(None),
    }
}

// Reads the reply to an opening, whose getMores wait so long and have this comment.
pub(crate) fn read_cursor(
    alloc: Global,
    batch_size: Option<u32>,
    max_time: Option<u64>,
    comment: &Option<Bson>,
    reply: RawDocumentBuf,
) -> Result<CursorSpecification, Error>
    ensures ok { IfOk result (λ out. OpensWith batch_size max_time comment.now reply out) }
    ensures err { IfErr result (λ e. FailsBy (BreaksIn (fields reply)) e) }
{
    let mut specification = read_opening(alloc, batch_size, reply)?;
    specification.info.max_time = max_time;
    specification.info.comment = copied(comment)?;
    Ok(specification)
}

/// Reads the reply to a getMore. It answers what the operation [`GetMore`] does.
pub fn read_more(alloc: Global, reply: RawDocumentBuf) -> Result<GetMoreResult, Error>
    ensures ok { IfOk result (λ out. Gave reply out) }
    ensures err { IfErr result (λ e. FailsBy (BreaksIn (fields reply)) e) }
{
    let raw = reply.as_raw();
    let Found { cursor, batch: _ } = match cursor_of(alloc, &raw) {
        Ok(found) => found,
        Err(fault) => return Err(error_of(fault)),
    };
    let CursorReply {
        id,
        ns,
        post_batch_resume_token,
    } = cursor;
    Ok(GetMoreResult {
        raw_reply: reply,
        exhausted: id == 0,
        post_batch_resume_token,
        ns,
        id,
    })
}

/// Lends the batch of a reply. Without a cursor, or without a batch in it, the reply is malformed.
#[tactic(auto, unfolding(crate::specs::Cursors::batch_at))]
pub fn doc_slices<'a>(reply: &RawDocument<'a>) -> Result<RawArray<'a>, Malformed>
    ensures { MatchResult result (λ a. batch_at (fields reply.now) ≡ Ok (items a)) (λ m. batch_at (fields reply.now) ≡ Err m) }
{
    let cursor = match reply.get("cursor") {
        Some(found) => found.as_document(),
        None => None,
    };
    let Some(cursor) = cursor else {
        return Err(Malformed::NoCursor);
    };
    match array_of(&cursor, "firstBatch") {
        Some(batch) => Ok(batch),
        None => match array_of(&cursor, "nextBatch") {
            Some(batch) => Ok(batch),
            None => Err(Malformed::NoBatch),
        },
    }
}
