//! A follower of a collection, over any link.
ghost use Rattle.std.specs.Prelude.{◌≡◌, IfOk, OnOk, codes};
ghost use Rattle.mg_bson.specs.Find.{get};
ghost use Rattle.mg_bson.specs.Raw.{fields};
ghost use Rattle.mg_link.specs.Acts.{IsOut};
ghost use Rattle.mg_change.specs.ClientStreams.{IsBetween, stream_ticket, stream_token};
ghost use Rattle.mg_change.specs.ClosingStreams.{stream_closing_ticket};
ghost use Rattle.mg_change.specs.StreamView.{IsPlainStream, stream_of};
ghost use Rattle.example_follower.specs.Follower.{Answers, Opens, from_token, kept_token, popped_told};

use mg_bson::to_bytes;
use mg_change::{
    Action, ChangeStream, ChangeStreamOptions, Closing, Document, Error, ErrorKind, EventPoll,
    Link, Namespace, Opening, OperationTarget, RawDocumentBuf, ResumeToken, Step, TokenRef,
    WatchArgs,
};
use mg_link::plain;
use std::alloc::Global;

/// How often a reply may pend before the follower gives up.
pub const POLLS: u32 = 1_000;

/// A watch of a collection, which goes on behind a token where there is one.
pub fn watch_of(
    alloc: Global,
    ns: &Namespace,
    token: Option<ResumeToken>,
) -> Result<WatchArgs, Error>
    ensures { IfOk result (λ args. args.options ≡ from_token token) }
{
    let ns = ns.clone()?;
    let mut options = ChangeStreamOptions::builder();
    options.resume_after = token;
    Ok(WatchArgs {
        pipeline: Vec::new(alloc),
        target: OperationTarget::Collection(ns),
        options,
    })
}

/// Opens a stream, and polls while its reply pends.
pub fn open<L: Link>(
    alloc: Global,
    link: &mut L,
    args: WatchArgs,
) -> Result<ChangeStream<Document>, Error>
    ensures rests { IfOk result (λ stream. IsBetween (stream_of stream)) }
    ensures sound { IfOk result (λ stream. IsPlainStream stream) }
    ensures opens { IfOk result (λ stream. Opens (L.awaited link.new) (L.log link.old) (L.log link.new) args (stream_of stream)) }
{
    match Opening::open(alloc, args, link, POLLS) {
        Step::Pending(_) => Err(plain(ErrorKind::Io)),
        Step::Done(stream) => Ok(stream),
        Step::Failed(error) => Err(error),
    }
}

/// The next event, or none where nothing is there. It polls while a reply pends.
pub fn next<L: Link>(
    stream: &mut ChangeStream<Document>,
    link: &mut L,
) -> Result<Option<RawDocumentBuf>, Error>
    requires held { IsOut (L.awaited link.old) (stream_ticket (stream_of stream.old)) }
    requires sound { IsPlainStream stream.old }
    ensures held { IsOut (L.awaited link.new) (stream_ticket (stream_of stream.new)) }
    ensures sound { IsPlainStream stream.new }
    ensures rests { OnOk result (IsBetween (stream_of stream.new)) }
    ensures answers { Answers (L.awaited link.old) (L.awaited link.new) (L.log link.old) (L.log link.new)
        (stream_of stream.old) (stream_of stream.new) (popped_told result) }
{
    'polls: for _round in 0..POLLS {
        match stream.poll_next_if_any(link) {
            EventPoll::Pending => {}
            EventPoll::Ready(event) => return Ok(event),
            EventPoll::Failed(error) => return Err(error),
        }
    }
    Err(plain(ErrorKind::Io))
}

// The document that keeps this token.
fn document_of(alloc: Global, token: Option<TokenRef<'_>>) -> Result<Document, Error>
    ensures { IfOk result (λ kept. kept ≡ kept_token token.entry) }
{
    let Some(token) = token else {
        return Ok(Document::new(alloc));
    };
    let value = token.to_owned()?.to_value()?;
    let mut document = Document::new(alloc);
    document.append("token", value)?;
    Ok(document)
}

/// The token of a stream as a document that may be kept in a file. Where there is none the document is empty.
pub fn kept(alloc: Global, stream: &ChangeStream<Document>) -> Result<RawDocumentBuf, Error>
    ensures { IfOk result (λ kept. fields kept ≡ kept_token (stream_token (stream_of stream.now))) }
{
    let document = document_of(alloc, stream.resume_token())?;
    Ok(to_bytes(alloc, &document)?)
}

/// The token that such a document keeps.
pub fn token_in(alloc: Global, kept: &RawDocumentBuf) -> Result<Option<ResumeToken>, Error>
    ensures { IfOk result (λ token. token ≡ get (codes "token") (fields kept.now)) }
{
    match kept.as_raw().get("token") {
        Some(token) => Ok(Some(ResumeToken::from_raw(alloc, &token)?)),
        None => Ok(None),
    }
}

/// Closes a stream, so that the server keeps no cursor for it.
pub fn close<L: Link>(link: &mut L, closing: Closing) -> Result<(), Error>
    requires { IsOut (L.awaited link.old) (stream_closing_ticket closing) }
{
    match closing.run(link, POLLS) {
        Step::Pending(_) => Err(plain(ErrorKind::Io)),
        Step::Done(()) => Ok(()),
        Step::Failed(error) => Err(error),
    }
}
