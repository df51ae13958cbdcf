ghost use Rattle.std.specs.Prelude.{IfOk, IsSome};
ghost use Rattle.mg_link.specs.Places.{out_at};
ghost use Rattle.mg_store.specs.InMemory.{AreSmall};

use super::{namespace, one_field, owned, shown, written};
use crate::{document_word, insert};
use mg_bson::{Bson, Document, RawDocumentBuf, to_bytes};
use mg_link::{Link, Polled, Ticket};
use mg_ops::encode;
use mg_store::{Fate, FateKind, MemLink, Store, may_go_aside};
use std::alloc::{AllocError, Global};
use std::process::Abort;

// What comes of six commands in turn, over a link with these fates; the first name of a command, and whether it may go aside.
pub(super) const ROWS: &str =
    r#"fates six~0/{"n":1,"ok":1} Some(0) 1 2/lost Some(1) 2 1/lost None 2 3/{"code":91,"codeName":"Refused","errmsg":"refused","errorLabels":[],"ok":0} Some(2) 2 0/{"n":1,"ok":1} Some(3) 3 0/{"n":1,"ok":1} Some(4) 4 5 steps
aside getMore~false
aside killCursors~false
aside getmore~true
aside insert~true
aside aggregate~true
aside ~true"#;

// An insert of a document with this id.
fn insert_of(rt: &impl Abort, alloc: Global, id: i32) -> RawDocumentBuf {
    let document = one_field(rt, alloc, "_id", Bson::Int32(id));
    let documents = vec![in alloc; document].expect(rt, "memory");
    let insert = insert(alloc, "coll", documents).expect(rt, "memory");
    encode(alloc, &insert, 21, None).expect(rt, "a command")
}

// A reply behind so many polls.
fn reply_word(rt: &impl Abort, alloc: Global, count: u32, bytes: Vec<u8>) -> String {
    let reply = RawDocumentBuf::from_bytes(bytes).expect(rt, "a document");
    let word = document_word(alloc, reply.as_raw()).expect(rt, "memory");
    written(rt, format!(in alloc; "{count}{word}"))
}

// How many polls of a call pend, 8 at most, and what comes of it.
fn polls_to_end(rt: &impl Abort, alloc: Global, link: &mut MemLink, first: Ticket) -> String
    requires { IsSome (out_at link.old.calls first) }
{
    let mut ticket = first;
    'polls: for count in 0..9 {
        match link.poll(ticket) {
            Polled::Pending(given) => ticket = given,
            Polled::Reply(bytes) => return reply_word(rt, alloc, count, bytes),
            Polled::Failed => return written(rt, format!(in alloc; "{count}/lost")),
            Polled::Memory => return written(rt, format!(in alloc; "{count}/memory")),
        }
    }
    owned(rt, alloc, "pending")
}

// One fate of each kind.
fn fates_of(alloc: Global) -> Result<Vec<Fate>, AllocError>
    ensures { IfOk result (λ fates. AreSmall fates.items) }
{
    let refusal = FateKind::Refuse {
        code: 91,
        labels: Vec::new(alloc),
    };
    let mut fates = Vec::new(alloc);
    fates.push(Fate {
        pend: 0,
        kind: FateKind::Keep,
    })?;
    fates.push(Fate {
        pend: 2,
        kind: FateKind::Lose,
    })?;
    fates.push(Fate {
        pend: 1,
        kind: FateKind::Drop,
    })?;
    fates.push(Fate {
        pend: 3,
        kind: refusal,
    })?;
    Ok(fates)
}

// How many polls of an insert pend, and what comes of it.
fn sent(rt: &impl Abort, alloc: Global, link: &mut MemLink, id: i32) -> String {
    let command = insert_of(rt, alloc, id);
    match link.start(command.as_raw()) {
        Ok(ticket) => polls_to_end(rt, alloc, link, ticket),
        Err(_) => owned(rt, alloc, "not started"),
    }
}

// Where the step of the last call stands.
fn last_position(link: &MemLink) -> Option<u64> {
    match link.log().calls().last() {
        Some(call) => call.position,
        None => None,
    }
}

/// What comes of each of six inserts, where its step stands, and how many documents there are then.
pub(super) fn fates(rt: &impl Abort, alloc: Global) -> String {
    let Ok(fates) = fates_of(alloc) else {
        return owned(rt, alloc, "no memory");
    };
    let mut link = MemLink::new(alloc, Store::new(alloc), fates, 21);
    let ns = namespace(rt, alloc);
    let mut seen = String::new(alloc);
    for id in 1..7 {
        let came = sent(rt, alloc, &mut link, id);
        let position = last_position(&link);
        let documents = link.store().documents(&ns).expect(rt, "memory").len();
        write!(seen, "{came} {position:?} {documents} ").expect(rt, "memory");
    }
    write!(seen, "{} steps", link.store().history().len()).expect(rt, "memory");
    seen
}

/// Whether a command with this first name may go aside.
pub(super) fn aside(rt: &impl Abort, alloc: Global, name: &str) -> String {
    let command = if name.is_empty() {
        Document::new(alloc)
    } else {
        one_field(rt, alloc, name, Bson::Int32(1))
    };
    let bytes = to_bytes(alloc, &command).expect(rt, "a command");
    shown(rt, alloc, &may_go_aside(&bytes.as_raw()))
}
