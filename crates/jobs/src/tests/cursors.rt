ghost use Rattle.mg_cursor.specs.Client.{client_ticket};
ghost use Rattle.mg_link.specs.Acts.{IsOut};
ghost use Rattle.mg_link.specs.Places.{out_at};

use super::scripted::{
    advance_word, end_word, error_word, lent_word, link_of, reply_at, shown, tell_commands,
};
use super::{owned, tell, written};
use layers::{bytes_at, find, json_bytes, one_field};
use mg_bson::{Bson, Document, RawDocument, RawDocumentBuf};
use mg_cursor::{
    AdvancePoll, Cursor, ItemPoll, NewCursor, NextPoll, RawBatch, RawBatchCursor, SessionCursor,
    SessionRawBatchCursor,
};
use mg_exec::Exec;
use mg_link::{Action, ClientSession, Error, ErrorKind, ScriptLink, Step, plain};
use mg_ops::{CursorSpecification, Find, Operation, encode};
use mg_options::FindOptions;
use mg_store::{MemLink, Store, may_go_aside};
use std::alloc::Global;
use std::process::Abort;

// ---- replies

/// Each line is a word, and the reply that opens a cursor: its id, and a batch of so many documents, or of one and an item
/// that is no document.
const FIRSTS: &str = r#"00 {"cursor":{"id":{"$int64":"0"},"ns":"db.coll","firstBatch":[]},"ok":1}
01 {"cursor":{"id":{"$int64":"0"},"ns":"db.coll","firstBatch":[{"x":1}]},"ok":1}
02 {"cursor":{"id":{"$int64":"0"},"ns":"db.coll","firstBatch":[{"x":1},{"x":2}]},"ok":1}
0m {"cursor":{"id":{"$int64":"0"},"ns":"db.coll","firstBatch":[{"x":1},2]},"ok":1}
10 {"cursor":{"id":{"$int64":"1"},"ns":"db.coll","firstBatch":[]},"ok":1}
11 {"cursor":{"id":{"$int64":"1"},"ns":"db.coll","firstBatch":[{"x":1}]},"ok":1}"#;

/// Each line is a word of a script, and what a command is answered there: such a batch, a success of nothing, a cursor that is
/// not there, a fault, or want of memory.
const REPLIES: &str = r#"10 {"cursor":{"id":{"$int64":"1"},"ns":"db.coll","nextBatch":[]},"ok":1}
k. {"code":0,"ok":1}
00 {"cursor":{"id":{"$int64":"0"},"ns":"db.coll","nextBatch":[]},"ok":1}
01 {"cursor":{"id":{"$int64":"0"},"ns":"db.coll","nextBatch":[{"x":1}]},"ok":1}
02 {"cursor":{"id":{"$int64":"0"},"ns":"db.coll","nextBatch":[{"x":1},{"x":2}]},"ok":1}
12 {"cursor":{"id":{"$int64":"1"},"ns":"db.coll","nextBatch":[{"x":1},{"x":2}]},"ok":1}
1m {"cursor":{"id":{"$int64":"1"},"ns":"db.coll","nextBatch":[{"x":1},2]},"ok":1}
f. memory
g. {"code":43,"ok":0}
l. fault"#;

// What an opening gives whose reply has this first batch.
fn specification(rt: &(impl Abort + AllocGlobal), first: &str) -> CursorSpecification {
    let alloc = rt.alloc();
    let reply = json_bytes(alloc, reply_at(FIRSTS, first)).expect(rt, "JSON of a reply");
    let find = find(alloc, "coll", Document::new(alloc), FindOptions::builder());
    let find = find.expect(rt, "memory");
    find.read(alloc, reply).expect(rt, "a reply with a cursor")
}

// ---- what calls come to

fn item_word(rt: &(impl Abort + AllocGlobal), poll: ItemPoll) -> String {
    let word = match poll {
        ItemPoll::Pending => "/pending",
        ItemPoll::Item(document) => return shown(rt, document.as_raw()),
        ItemPoll::End => "/end",
        ItemPoll::Failed(error) => return error_word(rt, &error),
    };
    owned(rt, word)
}

// What a call that seeks a document came to: the one that is lent then.
fn seek_word(
    rt: &(impl Abort + AllocGlobal),
    poll: AdvancePoll,
    lent: Option<RawDocument<'_>>,
) -> String {
    let word = match poll {
        AdvancePoll::Pending => "/pending",
        AdvancePoll::Ready(true) => return lent_word(rt, lent),
        AdvancePoll::Ready(false) => "/end",
        AdvancePoll::Failed(error) => return error_word(rt, &error),
    };
    owned(rt, word)
}

// ---- runs

// One poll of a call, or a look at the cursor.
fn poll_word(
    rt: &(impl Abort + AllocGlobal),
    cursor: &mut Cursor<Document>,
    link: &mut ScriptLink,
    step: u8,
) -> String
    requires out { IsOut (out_at link.old.calls) (client_ticket cursor.old.cursor) }
    ensures out { IsOut (out_at link.new.calls) (client_ticket cursor.new.cursor) }
{
    match step {
        b't' | b'p' => advance_word(rt, cursor.poll_try_advance(link), cursor.current()),
        b'a' => seek_word(rt, cursor.poll_advance(link), cursor.current()),
        b'n' => item_word(rt, cursor.poll_next(link)),
        b'l' => {
            cursor.pin(3);
            owned(rt, "/pinned")
        }
        b'h' => written(rt, format!(in rt.alloc(); "/{}", cursor.has_next())),
        _ => lent_word(rt, cursor.current()),
    }
}

// Takes the steps, each to its end but a `p`, which is one poll: what was answered.
fn steps_words(
    rt: &(impl Abort + AllocGlobal),
    cursor: &mut Cursor<Document>,
    link: &mut ScriptLink,
    steps: &str,
) -> String
    requires out { IsOut (out_at link.old.calls) (client_ticket cursor.old.cursor) }
    ensures out { IsOut (out_at link.new.calls) (client_ticket cursor.new.cursor) }
{
    let mut seen = String::new(rt.alloc());
    let mut place: usize = 0;
    'polls: for _count in 0..100 {
        let Some(step) = steps.as_bytes().get(place) else {
            return seen;
        };
        let word = poll_word(rt, cursor, link, *step);
        if *step == b'p' || word.as_str() != "/pending" {
            seen.push_str(word.as_str()).expect(rt, "memory");
            place = place.saturating_add(1);
        }
    }
    seen
}

/// A cursor with a first batch takes steps over a link that is to be answered so, and is closed: what was answered, and which
/// commands were sent.
pub(super) fn ran(rt: &(impl Abort + AllocGlobal), given: &str, pend: u32) -> String {
    let (first, rest) = given.split_once('|').unwrap_or((given, ""));
    let (script, steps) = rest.split_once('|').unwrap_or((rest, ""));
    let mut link = link_of(rt, REPLIES, script, pend);
    let mut cursor: Cursor<Document> = Cursor::new_cursor(rt.alloc(), specification(rt, first));
    let mut told = steps_words(rt, &mut cursor, &mut link, steps);
    tell(
        rt,
        &mut told,
        end_word(rt, cursor.close().run(&mut link, 9)),
    );
    tell_commands(rt, &mut told, &link);
    told
}

/// Each line is the first batch of a cursor, how its commands are answered, its steps, and what comes of them.
pub(super) const RUNS: &str = r#"02|l.|tttt~/{"x":1}/{"x":2}/end/end/done
02|l.|nn.n~/{"x":1}/{"x":2}/{"x":2}/end/done
02|l.|hthth.t.h~/true/{"x":1}/true/{"x":2}/true/{"x":2}/end/none/false/done
0m|l.|hth.~/true/invalid response: bad item/false/none/done
00|l.|hth~/false/waiting/false/done
11|12 00|aaaa~/{"x":1}/{"x":1}/{"x":2}/end/done/getMore 1/getMore 1
11|10 10 01|aaa~/{"x":1}/{"x":1}/end/done/getMore 1/getMore 1/getMore 1
11|k.|t~/{"x":1}/done/killCursors [{"$int64":"1"}]
11|l.|t~/{"x":1}/the link failed/killCursors [{"$int64":"1"}]
11|l. 12 k.|ttttt~/{"x":1}/the link failed/{"x":1}/{"x":2}/invalid response: no cursor/done/getMore 1/getMore 1/getMore 1/killCursors [{"$int64":"1"}]
11|g. k.|tttt~/{"x":1}/refused with code 43: /end/end/done/getMore 1
11|l. k.|ltttt~/pinned/{"x":1}/the link failed/end/end/done/getMore 1
11|1m 12 k.|ttttt~/{"x":1}/invalid response: bad item/{"x":1}/{"x":2}/invalid response: no cursor/done/getMore 1/getMore 1/getMore 1/killCursors [{"$int64":"1"}]"#;

/// The same of cursors that are closed while a reply pends, and of one that meets a thousand empty batches, twice.
pub(super) const PENDING: &str =
    r#"11|12+ k.|pp~/{"x":1}/pending/done/getMore 1/killCursors [{"$int64":"1"}]
11|02+ k.|pp~/{"x":1}/pending/done/getMore 1
11|f.+ k.|pp~/{"x":1}/pending/out of memory/getMore 1
11|l.+ k.|pp~/{"x":1}/pending/done/getMore 1/killCursors [{"$int64":"1"}]
11|l.+ k.|lpp~/pinned/{"x":1}/pending/done/getMore 1
11|g.+ k.|pp~/{"x":1}/pending/done/getMore 1
10|10<1998* 10> k.|aa~/1000 empty replies in a row/1000 empty replies in a row/done<1999*/getMore 1>/killCursors [{"$int64":"1"}]"#;

// ---- each cursor once

// The first document, and what it is read as.
fn read_word(
    rt: &(impl Abort + AllocGlobal),
    specification: CursorSpecification,
    link: &mut ScriptLink,
) -> String {
    let mut cursor: Cursor<Document> = Cursor::new_cursor(rt.alloc(), specification);
    match cursor.poll_next(link) {
        ItemPoll::Item(copy) => {
            let document = cursor.deserialize_current().expect(rt, "a document");
            let mut word = item_word(rt, ItemPoll::Item(copy));
            write!(word, " {:?}", document.get_i32("x")).expect(rt, "memory");
            word
        }
        poll => item_word(rt, poll),
    }
}

// Whether a batch, and a copy of it, hold a document.
fn batch_word(rt: &(impl Abort + AllocGlobal), poll: NextPoll) -> String {
    match poll {
        NextPoll::Batch(batch) => {
            let copy = batch.clone().expect(rt, "memory");
            let said = format!(in rt.alloc(); "{} {}", batch.has_items(), copy.has_items());
            written(rt, said)
        }
        _ => owned(rt, "none"),
    }
}

// How many documents the batch of a reply has.
fn counted(rt: &(impl Abort + AllocGlobal), first: &str) -> String {
    let reply = json_bytes(rt.alloc(), reply_at(FIRSTS, first)).expect(rt, "JSON of a reply");
    let batch = RawBatch::new(reply);
    let documents = batch.doc_slices().expect(rt, "a batch");
    written(rt, format!(in rt.alloc(); "{}", documents.len()))
}

// What a call of a cursor in a session, or of its stream, comes to.
fn called_in(
    rt: &(impl Abort + AllocGlobal),
    specification: CursorSpecification,
    session: &mut ClientSession,
    link: &mut ScriptLink,
    call: &str,
) -> String {
    let mut cursor: SessionCursor<Document> = SessionCursor::new_cursor(rt.alloc(), specification);
    match call {
        "advance" => advance_word(rt, cursor.poll_try_advance(session, link), cursor.current()),
        "seek" => seek_word(rt, cursor.poll_advance(session, link), cursor.current()),
        "copy" => item_word(rt, cursor.poll_next(session, link)),
        "advance-stream" => {
            let mut stream = cursor.stream(session);
            advance_word(rt, stream.poll_try_advance(link), stream.current())
        }
        _ => {
            let mut stream = cursor.stream(session);
            seek_word(rt, stream.poll_advance(link), stream.current())
        }
    }
}

/// What the first call of a cursor, which gets no reply but the one that opened it, comes to.
pub(super) fn called(rt: &(impl Abort + AllocGlobal), call: &str) -> String {
    let mut link = link_of(rt, REPLIES, "", 0);
    let mut session = session(rt);
    let specification = specification(rt, "01");
    match call {
        "slices" => counted(rt, "02"),
        "read" => read_word(rt, specification, &mut link),
        "batch" => {
            let mut cursor = RawBatchCursor::new_cursor(rt.alloc(), specification);
            batch_word(rt, cursor.poll_next(&mut link))
        }
        "batch-in" => {
            let mut cursor = SessionRawBatchCursor::new_cursor(rt.alloc(), specification);
            batch_word(rt, cursor.stream(&mut session).poll_next(&mut link))
        }
        _ => called_in(rt, specification, &mut session, &mut link, call),
    }
}

/// The first call of each cursor, and how many documents a batch has.
pub(super) const CALLS: &str = r#"slices~2
read~/{"x":1} Ok(1)
batch~true true
batch-in~true true
advance~/{"x":1}
seek~/{"x":1}
copy~/{"x":1}
advance-stream~/{"x":1}
seek-stream~/{"x":1}"#;

// ---- over a store

/// An insert of six documents into `db.coll`, and one of a document with an `x`.
const SIX: &str =
    "0301000002696e736572740005000000636f6c6c0004646f63756d656e747300d600000003300020000000105f6964000000000002666f6f00090000006120737472696e67000003310026000000105f6964000100000002666f6f000f000000616e6f7468657220737472696e67000003320024000000105f6964000200000002666f6f000d0000006d6f726520737472696e6773000003330023000000105f6964000300000002666f6f000c0000007374726969696969696e67000003340019000000105f6964000400000002666f6f000200000073000003350019000000105f6964000500000002666f6f00020000003100000002246462000300000064620000";

const ONE: &str =
    "4a00000002696e736572740005000000636f6c6c0004646f63756d656e7473001d00000003300015000000105f6964000000000010780001000000000002246462000300000064620000";

/// A session of its own.
pub(super) fn session(rt: &(impl Abort + AllocGlobal)) -> ClientSession {
    let id = one_field(rt.alloc(), "id", Bson::Int32(7)).expect(rt, "memory");
    ClientSession::new(id)
}

// Has the store do a command by nobody's call, unless it may not.
fn put_aside(rt: &(impl Abort + AllocGlobal), link: &mut MemLink, digits: &str) {
    let bytes = bytes_at(rt.alloc(), digits).expect(rt, "digits");
    let bytes = RawDocumentBuf::from_bytes(bytes).expect(rt, "a document");
    let command = bytes.as_raw();
    if !may_go_aside(&command) {
        return;
    }
    link.aside(command).expect(rt, "memory");
}

// All documents in the order of their ids, two in a batch.
fn sorted(rt: &(impl Abort + AllocGlobal)) -> Find {
    let by_id = one_field(rt.alloc(), "_id", Bson::Int32(1)).expect(rt, "memory");
    let options = FindOptions::builder().batch_size(2).sort(by_id);
    find(rt.alloc(), "coll", Document::new(rt.alloc()), options).expect(rt, "memory")
}

// The document of an `x`, without its id.
fn projected(rt: &(impl Abort + AllocGlobal)) -> Find {
    let projection = one_field(rt.alloc(), "_id", Bson::Int32(0)).expect(rt, "memory");
    let filter = one_field(rt.alloc(), "x", Bson::Int32(1)).expect(rt, "memory");
    let options = FindOptions::builder().projection(projection);
    find(rt.alloc(), "coll", filter, options).expect(rt, "memory")
}

// What a find opens over the link, in a session where there is one.
fn opened_by(
    alloc: Global,
    link: &mut MemLink,
    find: Find,
    session: Option<&ClientSession>,
) -> Result<CursorSpecification, Error> {
    let command = encode(alloc, &find, 21, session)?;
    let exec = Exec::start(command, find.retry(session));
    match exec.run(link, 1) {
        Step::Pending(_) => Err(plain(ErrorKind::Io)),
        Step::Done(reply) => find.read(alloc, reply),
        Step::Failed(error) => Err(error),
    }
}

// The documents that a cursor gives, and its end.
fn given_by(
    rt: &(impl Abort + AllocGlobal),
    cursor: &mut Cursor<Document>,
    link: &mut MemLink,
) -> String
    requires { IsOut (out_at link.old.calls) (client_ticket cursor.old.cursor) }
{
    let mut seen = String::new(rt.alloc());
    'documents: for _count in 0..7 {
        tell(rt, &mut seen, item_word(rt, cursor.poll_next(link)));
    }
    seen
}

// The same in a session.
fn given_in(
    rt: &(impl Abort + AllocGlobal),
    cursor: &mut SessionCursor<Document>,
    session: &mut ClientSession,
    link: &mut MemLink,
) -> String
    requires { IsOut (out_at link.old.calls) (client_ticket cursor.old.cursor) }
{
    let mut seen = String::new(rt.alloc());
    let mut stream = cursor.stream(session);
    'documents: for _count in 0..7 {
        tell(rt, &mut seen, item_word(rt, stream.poll_next(link)));
    }
    seen
}

/// What a find gives over a store of six documents, in a session too, or of one.
pub(super) fn found(rt: &(impl Abort + AllocGlobal), way: &str) -> String {
    let alloc = rt.alloc();
    let mut link = MemLink::new(alloc, Store::new(alloc), Vec::new(alloc), 21);
    if way == "projected" {
        put_aside(rt, &mut link, ONE);
        let opened = opened_by(alloc, &mut link, projected(rt), None).expect(rt, "a cursor");
        return given_by(rt, &mut Cursor::new_cursor(alloc, opened), &mut link);
    }
    put_aside(rt, &mut link, SIX);
    if way == "sorted" {
        let opened = opened_by(alloc, &mut link, sorted(rt), None).expect(rt, "a cursor");
        return given_by(rt, &mut Cursor::new_cursor(alloc, opened), &mut link);
    }
    let mut session = session(rt);
    let opened = opened_by(alloc, &mut link, sorted(rt), Some(&session)).expect(rt, "a cursor");
    given_in(
        rt,
        &mut SessionCursor::new_cursor(alloc, opened),
        &mut session,
        &mut link,
    )
}

/// Each line is a find, and what it gives.
pub(super) const FINDS: &str =
    r#"sorted~/{"_id":0,"foo":"a string"}/{"_id":1,"foo":"another string"}/{"_id":2,"foo":"more strings"}/{"_id":3,"foo":"striiiiiing"}/{"_id":4,"foo":"s"}/{"_id":5,"foo":"1"}/end
session~/{"_id":0,"foo":"a string"}/{"_id":1,"foo":"another string"}/{"_id":2,"foo":"more strings"}/{"_id":3,"foo":"striiiiiing"}/{"_id":4,"foo":"s"}/{"_id":5,"foo":"1"}/end
projected~/{"x":1}/end/end/end/end/end/end"#;
