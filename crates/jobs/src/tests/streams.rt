ghost use Rattle.std.specs.Prelude.{IfOk};
ghost use Rattle.mg_link.specs.Acts.{IsOut};
ghost use Rattle.mg_link.specs.Places.{out_at};
ghost use Rattle.mg_change.specs.ClientStreams.{stream_ticket};
ghost use Rattle.mg_change.specs.OpeningView.{IsPlainOpening, ticket_in};
ghost use Rattle.mg_change.specs.StreamView.{IsPlainStream, stream_of};

use super::scripted::{
    REPLIES, advance_word, end_word, error_word, event_word, link_of, tell_commands,
};
use super::{owned, tell, written};
use layers::namespace;
use mg_bson::Document;
use mg_change::{ChangeStream, Closing, Opening};
use mg_jobs::json_text;
use mg_link::{Action, Error, ErrorKind, OperationTarget, ScriptLink, Step, plain};
use mg_ops::WatchArgs;
use mg_options::{ChangeStreamOptions, TokenRef};
use std::process::Abort;

/// A watch of everything in `db.coll`.
pub(super) fn args(rt: &(impl Abort + AllocGlobal)) -> WatchArgs {
    let ns = namespace(rt.alloc()).expect(rt, "memory");
    WatchArgs {
        pipeline: Vec::new(rt.alloc()),
        target: OperationTarget::Collection(ns),
        options: ChangeStreamOptions::builder(),
    }
}

// Polls to the end of the opening.
fn open(opening: Opening<Document>, link: &mut ScriptLink) -> Result<ChangeStream<Document>, Error>
    requires out { IsOut (out_at link.old.calls) (ticket_in opening) }
    requires sound { IsPlainOpening opening }
    ensures sound { IfOk result (λ s. IsPlainStream s) }
    ensures out { IfOk result (λ s. IsOut (out_at link.new.calls) (stream_ticket (stream_of s))) }
{
    let mut state = opening;
    'polls: for _count in 1..10 {
        match state.poll(link) {
            Step::Pending(next) => state = next,
            Step::Done(stream) => return Ok(stream),
            Step::Failed(error) => return Err(error),
        }
    }
    Err(plain(ErrorKind::Io))
}

fn token_word(rt: &(impl Abort + AllocGlobal), token: Option<TokenRef<'_>>) -> String {
    let Some(token) = token else {
        return owned(rt, "/no token");
    };
    let token = token.to_owned().expect(rt, "memory");
    let value = token.to_value().expect(rt, "a value");
    let json = json_text(rt.alloc(), &value).expect(rt, "memory");
    written(rt, format!(in rt.alloc(); "/token {json}"))
}

// One poll of a call that gives an event, seeks one or lends one, or a look at the token.
fn poll_word(
    rt: &(impl Abort + AllocGlobal),
    stream: &mut ChangeStream<Document>,
    link: &mut ScriptLink,
    step: u8,
) -> String
    requires out { IsOut (out_at link.old.calls) (stream_ticket (stream_of stream.old)) }
    requires sound { IsPlainStream stream.old }
    ensures out { IsOut (out_at link.new.calls) (stream_ticket (stream_of stream.new)) }
    ensures sound { IsPlainStream stream.new }
{
    match step {
        b't' => token_word(rt, stream.resume_token()),
        b'a' => advance_word(rt, stream.poll_advance_if_any(link), stream.current()),
        b'n' => event_word(rt, stream.poll_next(link)),
        _ => event_word(rt, stream.poll_next_if_any(link)),
    }
}

// Takes the steps, each to its end but a `p`, which is one poll: what was answered.
fn steps_words(
    rt: &(impl Abort + AllocGlobal),
    stream: &mut ChangeStream<Document>,
    link: &mut ScriptLink,
    steps: &str,
) -> String
    requires out { IsOut (out_at link.old.calls) (stream_ticket (stream_of stream.old)) }
    requires sound { IsPlainStream stream.old }
    ensures out { IsOut (out_at link.new.calls) (stream_ticket (stream_of stream.new)) }
    ensures sound { IsPlainStream stream.new }
{
    let mut seen = String::new(rt.alloc());
    let mut place: usize = 0;
    'polls: for _count in 0..100 {
        let Some(step) = steps.as_bytes().get(place) else {
            return seen;
        };
        let word = poll_word(rt, stream, link, *step);
        if *step == b'p' || word.as_str() != "/pending" {
            seen.push_str(word.as_str()).expect(rt, "memory");
            place = place.saturating_add(1);
        }
    }
    seen
}

/// A stream is opened over a link that is to be answered so, takes steps and is closed: what was answered, and which commands were
/// sent.
pub(super) fn ran(rt: &(impl Abort + AllocGlobal), given: &str, pend: u32) -> String {
    let (script, steps) = given.split_once('|').unwrap_or((given, ""));
    let mut link = link_of(rt, REPLIES, script, pend);
    let opening = Opening::new(rt.alloc(), args(rt));
    let mut told = match open(opening, &mut link) {
        Ok(mut stream) => {
            let mut seen = steps_words(rt, &mut stream, &mut link, steps);
            let closed = end_word(rt, stream.close().run(&mut link, 9));
            tell(rt, &mut seen, closed);
            seen
        }
        Err(error) => error_word(rt, &error),
    };
    tell_commands(rt, &mut told, &link);
    told
}

/// Each line is how the commands of a stream are answered, its steps, and what comes of them. What a follow of a script does too
/// stands in `answered`.
pub(super) const RUNS: &str =
    r#"1- 1- 1e k.|n~/{"_id":2}/done/aggregate {}/getMore 1/getMore 1/killCursors [{"$int64":"1"}]
1- 0-|nn~/nothing/nothing/done/aggregate {}/getMore 1
1- l. 2- k. 2e k.|n~/{"_id":2}/done/aggregate {}/getMore 1/aggregate {"startAtOperationTime":{"$timestamp":{"i":1,"t":7}}}/killCursors [{"$int64":"1"}]/getMore 2/killCursors [{"$int64":"2"}]
1n k.|atat~/the event has no _id/no token/{"_id":2}/token 2/done/aggregate {}/killCursors [{"$int64":"1"}]
1- 1e k.|aat~/waiting/{"_id":2}/token 2/done/aggregate {}/getMore 1/killCursors [{"$int64":"1"}]
0b|aacta~/{"_id":3}/the event has no _id/{"_id":2}/token 2/end/done/aggregate {}
1e l. 2- k. k.|aa~/{"_id":2}/waiting/done/aggregate {}/getMore 1/aggregate {"resumeAfter":2}/killCursors [{"$int64":"1"}]/killCursors [{"$int64":"2"}]
1- l. l. l. k.|aa~/waiting/the link failed/done/aggregate {}/getMore 1/aggregate {"startAtOperationTime":{"$timestamp":{"i":1,"t":7}}}/aggregate {"startAtOperationTime":{"$timestamp":{"i":1,"t":7}}}/killCursors [{"$int64":"1"}]"#;

/// The same of streams that are closed while a reply pends, and of two that give up behind a thousand empty replies, one to
/// getMores and one to resumptions.
pub(super) const PENDING: &str =
    r#"1- 1-+ k.|cp~/nothing/pending/done/aggregate {}/getMore 1/killCursors [{"$int64":"1"}]
1- 0-+|cp~/nothing/pending/done/aggregate {}/getMore 1
1- l.+ k.|cp~/nothing/pending/done/aggregate {}/getMore 1/killCursors [{"$int64":"1"}]
1- g.+|cp~/nothing/pending/done/aggregate {}/getMore 1
1- f.+|cp~/nothing/pending/out of memory/aggregate {}/getMore 1
1- l. 2-+ k.|cp~/nothing/pending/done/aggregate {}/getMore 1/aggregate {"startAtOperationTime":{"$timestamp":{"i":1,"t":7}}}/killCursors [{"$int64":"1"},{"$int64":"2"}]
1- l. l.+ l. k.|cp~/nothing/pending/done/aggregate {}/getMore 1/aggregate {"startAtOperationTime":{"$timestamp":{"i":1,"t":7}}}/aggregate {"startAtOperationTime":{"$timestamp":{"i":1,"t":7}}}/killCursors [{"$int64":"1"}]
1- l. f.+|cp~/nothing/pending/out of memory/aggregate {}/getMore 1/aggregate {"startAtOperationTime":{"$timestamp":{"i":1,"t":7}}}
1- l. 2- k.+ k.|cp~/nothing/pending/done/aggregate {}/getMore 1/aggregate {"startAtOperationTime":{"$timestamp":{"i":1,"t":7}}}/killCursors [{"$int64":"1"}]/killCursors [{"$int64":"2"}]
1- l. 2- l.+ k.|cp~/nothing/pending/done/aggregate {}/getMore 1/aggregate {"startAtOperationTime":{"$timestamp":{"i":1,"t":7}}}/killCursors [{"$int64":"1"}]/killCursors [{"$int64":"2"}]
1- l. 2- f.+|cp~/nothing/pending/out of memory/aggregate {}/getMore 1/aggregate {"startAtOperationTime":{"$timestamp":{"i":1,"t":7}}}/killCursors [{"$int64":"1"}]
1-<999* 1-> k.|n~/1000 empty replies in a row/done/aggregate {}<999*/getMore 1>/killCursors [{"$int64":"1"}]
1-<1000* l. 1- k.> k.|n~/1000 empty replies in a row/done/aggregate {}<1000*/getMore 1/aggregate {"startAtOperationTime":{"$timestamp":{"i":1,"t":7}}}/killCursors [{"$int64":"1"}]>/killCursors [{"$int64":"1"}]"#;

// ---- tokens of closings

// The token that a closing has, that which it hands over, and the one that it has then.
fn tell_tokens(rt: &(impl Abort + AllocGlobal), told: &mut String, closing: Closing) {
    let mut closing = closing;
    tell(rt, told, token_word(rt, closing.resume_token()));
    let handed = closing.hand_over().expect(rt, "memory");
    let token = match &handed {
        Some(token) => Some(token.as_ref()),
        None => None,
    };
    tell(rt, told, token_word(rt, token));
    tell(rt, told, token_word(rt, closing.resume_token()));
}

/// What the steps of a stream come to whose opening gave an event, and the tokens of its closing.
pub(super) fn handed(rt: &(impl Abort + AllocGlobal), steps: &str) -> String {
    let mut link = link_of(rt, REPLIES, "1e", 0);
    let opening = Opening::new(rt.alloc(), args(rt));
    match open(opening, &mut link) {
        Ok(mut stream) => {
            let mut told = steps_words(rt, &mut stream, &mut link, steps);
            tell_tokens(rt, &mut told, stream.close());
            told
        }
        Err(error) => error_word(rt, &error),
    }
}

/// A look at the token, a copy of the event and the event lent, and what comes of each.
pub(super) const HANDED: &str = r#"t~/no token/no token/no token/no token
c~/{"_id":2}/token 2/token 2/no token
a~/{"_id":2}/token 2/token 2/no token"#;
