use super::scripted::{end_word, link_of, reply_bytes, tell_commands};
use super::{owned, small, written};
use layers::{json_bytes, parted};
use mg_bson::RawDocumentBuf;
use mg_exec::{Exec, Retry};
use mg_link::{Action, Step, verdict_of};
use std::process::Abort;

fn ping(rt: &(impl Abort + AllocGlobal)) -> RawDocumentBuf {
    json_bytes(rt.alloc(), r#"{"ping":1}"#).expect(rt, "JSON of a document")
}

/// Each line is a word of a script, and what a command is answered there: a success, no `ok`, bytes that are no document, or a refusal by
/// its code.
const REPLIES: &str = r#"done {"ok":1}
no-ok {}
garbled 0500000001
6 {"code":6,"codeName":"Name","errmsg":"not now","errorLabels":["RetryableError",5],"ok":0}
7 {"code":7,"codeName":"Name","errmsg":"not now","errorLabels":["RetryableError",5],"ok":0}
89 {"code":89,"codeName":"Name","errmsg":"not now","errorLabels":["RetryableError",5],"ok":0}
91 {"code":91,"codeName":"Name","errmsg":"not now","errorLabels":["RetryableError",5],"ok":0}
134 {"code":134,"codeName":"Name","errmsg":"not now","errorLabels":["RetryableError",5],"ok":0}
189 {"code":189,"codeName":"Name","errmsg":"not now","errorLabels":["RetryableError",5],"ok":0}
262 {"code":262,"codeName":"Name","errmsg":"not now","errorLabels":["RetryableError",5],"ok":0}
9001 {"code":9001,"codeName":"Name","errmsg":"not now","errorLabels":["RetryableError",5],"ok":0}
10107 {"code":10107,"codeName":"Name","errmsg":"not now","errorLabels":["RetryableError",5],"ok":0}
11600 {"code":11600,"codeName":"Name","errmsg":"not now","errorLabels":["RetryableError",5],"ok":0}
11602 {"code":11602,"codeName":"Name","errmsg":"not now","errorLabels":["RetryableError",5],"ok":0}
13435 {"code":13435,"codeName":"Name","errmsg":"not now","errorLabels":["RetryableError",5],"ok":0}
13436 {"code":13436,"codeName":"Name","errmsg":"not now","errorLabels":["RetryableError",5],"ok":0}
63 {"code":63,"codeName":"Name","errmsg":"not now","errorLabels":["RetryableError",5],"ok":0}
133 {"code":133,"codeName":"Name","errmsg":"not now","errorLabels":["RetryableError",5],"ok":0}"#;

/// What a ping comes to that is sent so often at most and polled so often at most, once where nothing says how often, and which
/// commands were sent.
pub(super) fn pinged(rt: &(impl Abort + AllocGlobal), given: &str, pend: u32) -> String {
    let (sent, script) = given.split_once('|').unwrap_or((given, ""));
    let (times, polls) = parted(sent);
    let retry = match times {
        "twice" => Retry::Read,
        _ => Retry::None,
    };
    let mut link = link_of(rt, REPLIES, script, pend);
    let exec = Exec::start(ping(rt), retry);
    let mut told = end_word(rt, exec.run(&mut link, small(polls)));
    tell_commands(rt, &mut told, &link);
    told
}

/// Each line is how often a ping is sent at most, what it is answered, and what comes of it.
pub(super) const PINGS: &str = "twice|6 done~/done/ping 1/ping 1
twice|7 done~/done/ping 1/ping 1
twice|89 done~/done/ping 1/ping 1
twice|91 done~/done/ping 1/ping 1
twice|134 done~/done/ping 1/ping 1
twice|189 done~/done/ping 1/ping 1
twice|262 done~/done/ping 1/ping 1
twice|9001 done~/done/ping 1/ping 1
twice|10107 done~/done/ping 1/ping 1
twice|11600 done~/done/ping 1/ping 1
twice|11602 done~/done/ping 1/ping 1
twice|13435 done~/done/ping 1/ping 1
twice|13436 done~/done/ping 1/ping 1
twice|63 done~/refused with code 63 (Name): not now/ping 1
twice|133 done~/refused with code 133 (Name): not now/ping 1
twice|fault done~/done/ping 1/ping 1
once|fault done~/the link failed/ping 1
twice|memory done~/out of memory/ping 1
twice|garbled done~/received bytes are no document/ping 1
twice|no-ok done~/invalid response: no ok/ping 1";

/// The same with how often it is polled, by a link where each answer pends twice, or that answers nothing.
pub(super) const POLLS: &str = "twice 2|fault done~/pending/ping 1
twice 4|fault done~/pending/ping 1/ping 1
twice 5|fault done~/done/ping 1/ping 1
twice 1|~/the link failed/ping 1/ping 1";

/// What a refusal prints as, whether it has the label, how many it has, and its wire version.
pub(super) fn refused(rt: &(impl Abort + AllocGlobal), code: &str) -> String {
    let mut link = link_of(rt, REPLIES, code, 0);
    match Exec::start(ping(rt), Retry::None).poll(&mut link) {
        Step::Failed(error) => {
            let is_labelled = error.contains_label("RetryableError");
            let labels = error.labels.as_slice().len();
            let said = format!(in rt.alloc();
                "{error} {is_labelled} {labels} {:?}",
                error.wire_version
            );
            written(rt, said)
        }
        _ => owned(rt, "not refused"),
    }
}

/// A refusal by its code, and what it says.
pub(super) const REFUSALS: &str = "63~refused with code 63 (Name): not now true 1 Some(21)";

/// What a reply says.
pub(super) fn verdict(rt: &(impl Abort + AllocGlobal), reply: &str) -> String {
    let reply = RawDocumentBuf::from_bytes(reply_bytes(rt, reply)).expect(rt, "a document");
    written(
        rt,
        format!(in rt.alloc(); "{:?}", verdict_of(&reply.as_raw())),
    )
}

/// Each line is a reply, and what it says: 1 of each kind, then 0, 2, 1.5 and a flag. Numbers with a point stand as bytes.
pub(super) const VERDICTS: &str = r#"{"ok":1}~Success
{"ok":{"$int64":"1"}}~Success
11000000016f6b00000000000000f03f00~Success
{"ok":0}~Refusal
{"ok":{"$int64":"2"}}~Refusal
11000000016f6b00000000000000f83f00~Refusal
{"ok":true}~NoOk"#;
