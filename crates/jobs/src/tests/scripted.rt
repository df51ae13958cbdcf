use super::{owned, tell, written};
use layers::{bytes_at, document_word, json_bytes, parted};
use mg_bson::{RawDocument, RawValue};
use mg_change::EventPoll;
use mg_cursor::{AdvanceResult, TryPoll};
use mg_jobs::json_text;
use mg_link::{Error, ScriptLink, Scripted, ScriptedSeen, Step};
use std::process::Abort;

// ---- answers

/// Each line is a word of a script, and what a command of a stream or of a file is answered there. For streams: batches of the
/// cursors 0, 1 and 2, of nothing, an event, an event without `_id` and one behind it, the same behind an event, or an item that
/// is no document; a success of nothing; a cursor that is not there; a fault; or want of memory. For a watch of a collection that
/// is dropped, as the store in memory answers it: an opening at the start of its changes and one behind its end, what its own
/// stream sees, what that of its database sees and then no more, and a refusal of its token. For files: a success with a count;
/// a record that is found, or none; an index of the files or of the chunks, whose values are numbers of other kinds than those of
/// an index that is created; a collection that is there; a failure that is listed; want of memory; a fault; a record of ten bytes
/// in chunks of four; and the first two of these chunks.
pub(super) const REPLIES: &str = r#"l. fault
1- {"cursor":{"firstBatch":[],"ns":"db.coll","id":{"$int64":"1"}},"ok":1,"operationTime":{"$timestamp":{"i":1,"t":7}}}
k. {"code":0,"ok":1}
2- {"cursor":{"firstBatch":[],"ns":"db.coll","id":{"$int64":"2"}},"ok":1,"operationTime":{"$timestamp":{"i":1,"t":7}}}
0- {"cursor":{"firstBatch":[],"ns":"db.coll","id":{"$int64":"0"}},"ok":1,"operationTime":{"$timestamp":{"i":1,"t":7}}}
1e {"cursor":{"firstBatch":[{"_id":2}],"ns":"db.coll","id":{"$int64":"1"}},"ok":1,"operationTime":{"$timestamp":{"i":1,"t":7}}}
2e {"cursor":{"firstBatch":[{"_id":2}],"ns":"db.coll","id":{"$int64":"2"}},"ok":1,"operationTime":{"$timestamp":{"i":1,"t":7}}}
1n {"cursor":{"firstBatch":[{"x":1},{"_id":2}],"ns":"db.coll","id":{"$int64":"1"}},"ok":1,"operationTime":{"$timestamp":{"i":1,"t":7}}}
1b {"cursor":{"firstBatch":[{"_id":3},{"x":1},{"_id":2}],"ns":"db.coll","id":{"$int64":"1"}},"ok":1,"operationTime":{"$timestamp":{"i":1,"t":7}}}
0b {"cursor":{"firstBatch":[{"_id":3},{"x":1},{"_id":2}],"ns":"db.coll","id":{"$int64":"0"}},"ok":1,"operationTime":{"$timestamp":{"i":1,"t":7}}}
1m {"cursor":{"firstBatch":[5],"ns":"db.coll","id":{"$int64":"1"}},"ok":1,"operationTime":{"$timestamp":{"i":1,"t":7}}}
f. memory
g. {"code":43,"ok":0}
1 {"n":1,"ok":1}
r {"cursor":{"firstBatch":[{"_id":1}],"id":{"$int64":"0"},"ns":"db.fs.files"},"ok":1}
e {"cursor":{"firstBatch":[],"id":{"$int64":"0"},"ns":"db.fs.files"},"ok":1}
f 9a00000003637572736f720085000000126964000000000000000000026e73000c00000064622e66732e66696c657300046669727374426174636800540000000330004c00000010760002000000036b6579002b0000001266696c656e616d650001000000000000000175706c6f61644461746500000000000000f03f00026e616d6500060000006f7468657200000000106f6b000100000000
c 9100000003637572736f72007c000000126964000000000000000000026e73000c00000064622e66732e66696c6573000466697273744261746368004b0000000330004300000010760002000000036b657900220000001266696c65735f6964000100000000000000016e00000000000000f03f00026e616d6500060000006f7468657200000000106f6b000100000000
t {"code":48,"errmsg":"there","ok":0}
d {"n":0,"ok":1,"writeErrors":[{"code":11000,"errmsg":"there","index":0}]}
m memory
l fault
wo {"cursor":{"firstBatch":[],"id":{"$int64":"1"},"ns":"db.coll","postBatchResumeToken":{"_data":"0000000000000000"}},"ok":1,"operationTime":{"$timestamp":{"i":1,"t":0}}}
wb {"cursor":{"firstBatch":[],"id":{"$int64":"1"},"ns":"db.coll","postBatchResumeToken":{"_data":"0000000000000003"}},"ok":1,"operationTime":{"$timestamp":{"i":1,"t":3}}}
wi {"cursor":{"id":{"$int64":"0"},"nextBatch":[{"_id":{"_data":"0000000000000001"},"clusterTime":{"$timestamp":{"i":1,"t":1}},"documentKey":{"_id":2},"fullDocument":{"_id":2},"ns":{"coll":"coll","db":"db"},"operationType":"insert"},{"_id":{"_data":"0000000000000002"},"clusterTime":{"$timestamp":{"i":1,"t":2}},"ns":{"coll":"coll","db":"db"},"operationType":"drop"},{"_id":{"_data":"0000000000000003"},"clusterTime":{"$timestamp":{"i":1,"t":3}},"operationType":"invalidate"}],"ns":"db.coll","postBatchResumeToken":{"_data":"0000000000000003"}},"ok":1}
wd {"cursor":{"id":{"$int64":"1"},"nextBatch":[{"_id":{"_data":"0000000000000001"},"clusterTime":{"$timestamp":{"i":1,"t":1}},"documentKey":{"_id":2},"fullDocument":{"_id":2},"ns":{"coll":"coll","db":"db"},"operationType":"insert"},{"_id":{"_data":"0000000000000002"},"clusterTime":{"$timestamp":{"i":1,"t":2}},"ns":{"coll":"coll","db":"db"},"operationType":"drop"}],"ns":"db.coll","postBatchResumeToken":{"_data":"0000000000000003"}},"ok":1}
wn {"cursor":{"id":{"$int64":"1"},"nextBatch":[],"ns":"db.coll","postBatchResumeToken":{"_data":"0000000000000003"}},"ok":1}
no {"code":260,"codeName":"Refused","errmsg":"refused","errorLabels":[],"ok":0}
rf {"cursor":{"firstBatch":[{"_id":5,"chunkSize":4,"length":{"$int64":"10"},"uploadDate":{"$date":0}}],"id":{"$int64":"0"},"ns":"db.fs.files"},"ok":1}
rc {"cursor":{"firstBatch":[{"_id":0,"data":{"$bytes":"61626364"},"files_id":5,"n":0},{"_id":1,"data":{"$bytes":"65666768"},"files_id":5,"n":1}],"id":{"$int64":"0"},"ns":"db.fs.chunks"},"ok":1}"#;

/// What a word of a script stands for in a table of replies, or itself.
pub(super) fn reply_at<'a>(replies: &'a str, word: &'a str) -> &'a str {
    for line in replies.lines() {
        let (name, reply) = parted(line);
        if name == word {
            return reply;
        }
    }
    word
}

/// The bytes of a reply, which stands as the JSON text of a document, or as digits.
pub(super) fn reply_bytes(rt: &(impl Abort + AllocGlobal), reply: &str) -> Vec<u8> {
    if reply.starts_with('{') {
        let document = json_bytes(rt.alloc(), reply).expect(rt, "JSON of a document");
        return document.into_bytes();
    }
    bytes_at(rt.alloc(), reply).expect(rt, "digits")
}

// What a command is answered: a fault, want of memory, or a reply.
fn answer_of(rt: &(impl Abort + AllocGlobal), replies: &str, word: &str, pend: u32) -> Scripted {
    let (word, more) = match word.split_once('+') {
        Some((word, _)) => (word, 1),
        None => (word, 0),
    };
    let seen = match reply_at(replies, word) {
        "fault" => ScriptedSeen::Fault,
        "memory" => ScriptedSeen::Memory,
        reply => ScriptedSeen::Reply(reply_bytes(rt, reply)),
    };
    Scripted {
        pend: pend.saturating_add(more),
        seen,
    }
}

/// A link whose commands are answered by the words of a script, each as a table of replies says. Each answer pends so often, and
/// one with a `+` behind its word once more. No words answer nothing.
pub(super) fn link_of(
    rt: &(impl Abort + AllocGlobal),
    replies: &str,
    script: &str,
    pend: u32,
) -> ScriptLink {
    let mut list = Vec::new(rt.alloc());
    for word in script.split(' ') {
        if !word.is_empty() {
            list.push(answer_of(rt, replies, word, pend))
                .expect(rt, "memory");
        }
    }
    ScriptLink::new(list, 21)
}

// ---- commands

// The options of the stage that opens a watch.
fn stage_of<'a>(command: &RawDocument<'a>) -> Option<RawValue<'a>> {
    let stages = command.get("pipeline")?.as_array()?;
    let stage = stages.iter().next()?.as_document()?;
    stage.get("$changeStream")
}

// What a command is about: the options of a watch, the cursors that it kills, or what stands behind its name.
fn subject_of<'a>(command: &RawDocument<'a>, named: RawValue<'a>) -> RawValue<'a> {
    match stage_of(command) {
        Some(options) => options,
        None => command.get("cursors").unwrap_or(named),
    }
}

// A number of 64 bits as its digits, and another value as its JSON text.
fn value_word(rt: &(impl Abort + AllocGlobal), value: &RawValue<'_>) -> String {
    match value.as_i64() {
        Some(n) => written(rt, format!(in rt.alloc(); "{n}")),
        None => {
            let value = value.to_value(rt.alloc()).expect(rt, "a value");
            json_text(rt.alloc(), &value).expect(rt, "memory")
        }
    }
}

// The name of a command, what it is about, and whether it names a session.
fn command_word(rt: &(impl Abort + AllocGlobal), command: &RawDocument<'_>) -> String {
    let Some((name, named)) = command.iter().next() else {
        return String::new(rt.alloc());
    };
    let subject = value_word(rt, &subject_of(command, named));
    let session = match command.get("lsid") {
        Some(_) => " in a session",
        None => "",
    };
    written(rt, format!(in rt.alloc(); "/{name} {subject}{session}"))
}

/// Tells which commands were sent.
pub(super) fn tell_commands(rt: &(impl Abort + AllocGlobal), told: &mut String, link: &ScriptLink) {
    for command in link.commands() {
        tell(rt, told, command_word(rt, &command.as_raw()));
    }
}

// ---- what calls come to

/// What an error prints as.
pub(super) fn error_word(rt: &(impl Abort + AllocGlobal), error: &Error) -> String {
    written(rt, format!(in rt.alloc(); "/{error}"))
}

/// A document as its JSON text.
pub(super) fn shown(rt: &(impl Abort + AllocGlobal), document: RawDocument<'_>) -> String {
    document_word(rt.alloc(), document).expect(rt, "a document")
}

/// The document that is lent.
pub(super) fn lent_word(rt: &(impl Abort + AllocGlobal), lent: Option<RawDocument<'_>>) -> String {
    match lent {
        Some(document) => shown(rt, document),
        None => owned(rt, "/none"),
    }
}

/// What an advance came to: the document that is lent then.
pub(super) fn advance_word(
    rt: &(impl Abort + AllocGlobal),
    poll: TryPoll,
    lent: Option<RawDocument<'_>>,
) -> String {
    let word = match poll {
        TryPoll::Pending => "/pending",
        TryPoll::Ready(AdvanceResult::Advanced(())) => return lent_word(rt, lent),
        TryPoll::Ready(AdvanceResult::Exhausted) => "/end",
        TryPoll::Ready(AdvanceResult::Waiting) => "/waiting",
        TryPoll::Failed(error) => return error_word(rt, &error),
    };
    owned(rt, word)
}

/// What a call for a copy of the next event came to.
pub(super) fn event_word(rt: &(impl Abort + AllocGlobal), poll: EventPoll) -> String {
    let word = match poll {
        EventPoll::Pending => "/pending",
        EventPoll::Ready(None) => "/nothing",
        EventPoll::Ready(Some(event)) => return shown(rt, event.as_raw()),
        EventPoll::Failed(error) => return error_word(rt, &error),
    };
    owned(rt, word)
}

/// How an action without output, or whose output nobody looks at, has ended.
pub(super) fn end_word<S: Drop, T: Drop>(
    rt: &(impl Abort + AllocGlobal),
    step: Step<S, T>,
) -> String {
    match step {
        Step::Pending(_) => owned(rt, "/pending"),
        Step::Done(_) => owned(rt, "/done"),
        Step::Failed(error) => error_word(rt, &error),
    }
}
