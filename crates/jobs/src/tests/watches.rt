ghost use Rattle.std.specs.Prelude.{IfOk};
ghost use Rattle.mg_link.specs.Acts.{IsOut};
ghost use Rattle.mg_link.specs.Places.{out_at};
ghost use Rattle.mg_change.specs.ClientStreams.{stream_ticket};
ghost use Rattle.mg_change.specs.OpeningView.{IsSessionOpening, session_ticket_in};
ghost use Rattle.mg_change.specs.StreamView.{IsSessionStream, session_stream_of};

use super::cursors::session;
use super::scripted::{advance_word, end_word, error_word, event_word, link_of, tell_commands};
use super::streams::args;
use super::{owned, scripted, tell, written};
use mg_bson::{Document, RawDocumentBuf};
use mg_change::{ChangeStream, Opening, SessionChangeStream, SessionOpening};
use mg_link::{Action, ClientSession, Error, ErrorKind, ScriptLink, Step, plain};
use std::process::Abort;

// ---- openings in one call

/// Whether a stream that is opened in one call is alive then, or why it was not opened.
pub(super) fn opened(rt: &(impl Abort + AllocGlobal), script: &str) -> String {
    let mut link = link_of(rt, scripted::REPLIES, script, 0);
    let opened: Step<Opening<Document>, ChangeStream<Document>> = Opening::open(
        rt.alloc(),
        args(rt),
        &mut link,
        1,
    );
    match opened {
        Step::Done(stream) => {
            let is_alive = stream.with_type::<RawDocumentBuf>().is_alive();
            written(rt, format!(in rt.alloc(); "{is_alive}"))
        }
        Step::Pending(_) => owned(rt, "/pending"),
        Step::Failed(error) => error_word(rt, &error),
    }
}

/// How the opening is answered, and what comes of it.
pub(super) const OPENED: &str = "no~/refused with code 260 (Refused): refused
1-~true
0-~false
1-+~/pending";

// ---- streams in a session

// Two openings, getMores with an event of this kind or with none, and a success of nothing.
const REPLIES: &str = r#"1 {"cursor":{"firstBatch":[],"id":{"$int64":"1"},"ns":"db.coll"},"ok":1}
2 {"cursor":{"firstBatch":[],"id":{"$int64":"2"},"ns":"db.coll"},"ok":1}
insert {"cursor":{"id":{"$int64":"1"},"nextBatch":[{"_id":1,"operationType":"insert"}],"ns":"db.coll"},"ok":1}
update {"cursor":{"id":{"$int64":"1"},"nextBatch":[{"_id":2,"operationType":"update"}],"ns":"db.coll"},"ok":1}
nothing {"cursor":{"id":{"$int64":"1"},"nextBatch":[],"ns":"db.coll"},"ok":1}
delete {"cursor":{"id":{"$int64":"2"},"nextBatch":[{"_id":3,"operationType":"delete"}],"ns":"db.coll"},"ok":1}
killed {"code":0,"ok":1}"#;

// Polls to the end of the opening.
fn open_in(
    opening: SessionOpening<Document>,
    session: &mut ClientSession,
    link: &mut ScriptLink,
) -> Result<SessionChangeStream<Document>, Error>
    requires out { IsOut (out_at link.old.calls) (session_ticket_in opening) }
    requires sound { IsSessionOpening opening }
    ensures sound { IfOk result (λ s. IsSessionStream s) }
    ensures out { IfOk result (λ s. IsOut (out_at link.new.calls) (stream_ticket (session_stream_of s))) }
{
    match opening.poll_in(session, link) {
        Step::Pending(_) => Err(plain(ErrorKind::Io)),
        Step::Done(stream) => Ok(stream),
        Step::Failed(error) => Err(error),
    }
}

// One poll of a call that gives an event, seeks one or lends one.
fn word_in(
    rt: &(impl Abort + AllocGlobal),
    stream: &mut SessionChangeStream<Document>,
    session: &mut ClientSession,
    link: &mut ScriptLink,
    step: u8,
) -> String
    requires out { IsOut (out_at link.old.calls) (stream_ticket (session_stream_of stream.old)) }
    requires sound { IsSessionStream stream.old }
    ensures out { IsOut (out_at link.new.calls) (stream_ticket (session_stream_of stream.new)) }
    ensures sound { IsSessionStream stream.new }
{
    match step {
        b'a' => {
            let poll = stream.poll_advance_if_any(session, link);
            advance_word(rt, poll, stream.current())
        }
        b'n' => event_word(rt, stream.poll_next(session, link)),
        _ => event_word(rt, stream.poll_next_if_any(session, link)),
    }
}

// Two calls of a stream in a session, one that lends an event and one that seeks an event, and its closing.
fn answers(
    rt: &(impl Abort + AllocGlobal),
    stream: SessionChangeStream<Document>,
    session: &mut ClientSession,
    link: &mut ScriptLink,
) -> String
    requires out { IsOut (out_at link.old.calls) (stream_ticket (session_stream_of stream)) }
    requires sound { IsSessionStream stream }
{
    let mut stream = stream;
    let mut told = word_in(rt, &mut stream, session, link, b'c');
    let second = word_in(rt, &mut stream, session, link, b'c');
    tell(rt, &mut told, second);
    let third = word_in(rt, &mut stream, session, link, b'a');
    tell(rt, &mut told, third);
    let last = word_in(rt, &mut stream, session, link, b'n');
    tell(rt, &mut told, last);
    tell(rt, &mut told, end_word(rt, stream.close().poll(link)));
    told
}

/// What the calls of a stream in a session come to, and which commands were sent.
pub(super) fn followed(rt: &(impl Abort + AllocGlobal), script: &str) -> String {
    let mut link = link_of(rt, REPLIES, script, 0);
    let mut session = session(rt);
    let opening = SessionOpening::new(rt.alloc(), args(rt));
    let mut told = match open_in(opening, &mut session, &mut link) {
        Ok(stream) => answers(rt, stream, &mut session, &mut link),
        Err(error) => error_word(rt, &error),
    };
    tell_commands(rt, &mut told, &link);
    told
}

/// How the commands of such a stream are answered: the aggregate and the killing behind a fault resume it. Behind them, what comes
/// of it.
pub(super) const FOLLOWED: &str =
    r#"1 insert update nothing fault 2 killed delete killed~/nothing/{"_id":1,"operationType":"insert"}/{"_id":2,"operationType":"update"}/{"_id":3,"operationType":"delete"}/done/aggregate {} in a session/getMore 1 in a session/getMore 1 in a session/getMore 1 in a session/getMore 1 in a session/aggregate {"resumeAfter":2} in a session/killCursors [{"$int64":"1"}]/getMore 2 in a session/killCursors [{"$int64":"2"}]"#;
