//! Visits: each opens a stream, reports its events and closes it.
ghost use Rattle.std.specs.Prelude.{◌≡◌, ◌++◌, IfOk, OnOk, option_and_then, option_map, string_bytes};
ghost use Rattle.mg_bson.specs.Find.{as_document, as_string, get};
ghost use Rattle.mg_bson.specs.Raw.{fields};
ghost use Rattle.mg_link.specs.Acts.{IsOut};
ghost use Rattle.mg_link.specs.Link.{LogTold};
ghost use Rattle.mg_ops.specs.declared.change_stream.WatchArgs.{WatchArgs};
ghost use Rattle.mg_change.specs.ClientStreams.{IsBetween, stream_ticket};
ghost use Rattle.mg_change.specs.StreamView.{IsPlainStream, stream_of};
ghost use Rattle.example_follower.specs.Follower.{Opens, Reports, ReportsAll, id_of, line_of};

use crate::follow::{close, kept, next, open, token_in, watch_of};
use crate::insert::insert;
use mg_change::{
    ChangeStream, Document, Error, Link, Namespace, RawDocument, RawDocumentBuf, ResumeToken,
};
use std::alloc::Global;

/// The most events of one visit.
const EVENTS: u32 = 1_000_000;

// The document of this name.
fn document_in<'a>(document: &RawDocument<'a>, name: &str) -> Option<RawDocument<'a>>
    ensures { option_map fields result ≡ option_and_then as_document (get name.now (fields document.now)) }
{
    match document.get(name) {
        Some(found) => found.as_document(),
        None => None,
    }
}

// The text of this name.
fn text_in<'a>(document: &RawDocument<'a>, name: &str) -> Option<&'a str>
    ensures { option_map (λ text. text.now) result ≡ option_and_then as_string (get name.now (fields document.now)) }
{
    match document.get(name) {
        Some(found) => found.as_str(),
        None => None,
    }
}

/// The `_id` of the document that an event tells of, where it is a text.
fn id_of<'a>(event: &RawDocument<'a>) -> Option<&'a str>
    ensures { option_map (λ id. id.now) result ≡ id_of (fields event.now) }
{
    match document_in(event, "documentKey") {
        Some(key) => text_in(&key, "_id"),
        None => None,
    }
}

/// Puts the line of an event into the report.
fn tell(event: &RawDocument<'_>, report: &mut String) -> Result<(), Error>
    ensures { OnOk result (string_bytes report.new ≡ string_bytes report.old ++ line_of (fields event.now)) }
{
    report.push_str("order ")?;
    report.push_str(id_of(event).unwrap_or("?"))?;
    Ok(report.push_str("\n")?)
}

/// Takes the events that are there, and puts a line for each into the report.
fn tell_all<L: Link>(
    link: &mut L,
    stream: &mut ChangeStream<Document>,
    report: &mut String,
) -> Result<(), Error>
    requires rests { IsBetween (stream_of stream.old) }
    requires sound { IsPlainStream stream.old }
    ensures held { IsOut (L.awaited link.new) (stream_ticket (stream_of stream.new)) }
    ensures sound { IsPlainStream stream.new }
    ensures rests { OnOk result (IsBetween (stream_of stream.new)) }
    ensures reports { OnOk result (Reports (L.awaited link.old) (L.awaited link.new) (L.log link.old) (L.log link.new) (stream_of stream.old) (stream_of stream.new)
        (string_bytes report.old) (string_bytes report.new)) }
    ensures follows { (log : LogTold) (args : WatchArgs) → Opens (L.awaited link.old) log (L.log link.old) args (stream_of stream.old)
        → OnOk result (ReportsAll log (L.log link.new) args (stream_of stream.new) (string_bytes report.old) (string_bytes report.new)) }
{
    'events: for _event in 0..EVENTS {
        match next(stream, link)? {
            Some(event) => tell(&event.as_raw(), report)?,
            None => return Ok(()),
        }
    }
    Ok(())
}

/// Two orders come while the stream is open.
fn see_two<L: Link>(
    alloc: Global,
    link: &mut L,
    stream: &mut ChangeStream<Document>,
    orders: &Namespace,
    report: &mut String,
) -> Result<(), Error>
    requires rests { IsBetween (stream_of stream.old) }
    requires sound { IsPlainStream stream.old }
    ensures held { IsOut (L.awaited link.new) (stream_ticket (stream_of stream.new)) }
    ensures sound { IsPlainStream stream.new }
{
    // The first call answers from the batch that opened the stream.
    tell_all(link, stream, report)?;
    insert(alloc, link, orders, "tea")?;
    insert(alloc, link, orders, "salt")?;
    tell_all(link, stream, report)
}

/// Closes the stream, whatever went wrong before, and gives its token as it is to be stored.
fn leave<L: Link>(
    alloc: Global,
    link: &mut L,
    stream: ChangeStream<Document>,
    went: Result<(), Error>,
) -> Result<RawDocumentBuf, Error>
    requires out { IsOut (L.awaited link.old) (stream_ticket (stream_of stream)) }
    requires sound { IsPlainStream stream }
{
    let token = kept(alloc, &stream);
    // A cursor that could not be killed ends by the server's own time; the token is good all the same.
    let _closed = close(link, stream.close());
    went?;
    token
}

// Opens a stream on the orders, behind a token where there is one.
fn open_behind<L: Link>(
    alloc: Global,
    link: &mut L,
    orders: &Namespace,
    token: Option<ResumeToken>,
) -> Result<ChangeStream<Document>, Error>
    ensures rests { IfOk result (λ stream. IsBetween (stream_of stream)) }
    ensures sound { IfOk result (λ stream. IsPlainStream stream) }
{
    let args = watch_of(alloc, orders, token)?;
    open(alloc, link, args)
}

/// Follows from now on, while two orders come. Gives the token to be stored.
pub fn first_visit<L: Link>(
    alloc: Global,
    link: &mut L,
    orders: &Namespace,
    report: &mut String,
) -> Result<RawDocumentBuf, Error> {
    report.push_str("from now on\n")?;
    let mut stream = open_behind(alloc, link, orders, None)?;
    let went = see_two(alloc, link, &mut stream, orders, report);
    leave(alloc, link, stream, went)
}

/// Goes on behind the stored token. Gives the token to be stored.
pub fn later_visit<L: Link>(
    alloc: Global,
    link: &mut L,
    orders: &Namespace,
    stored: &RawDocumentBuf,
    report: &mut String,
) -> Result<RawDocumentBuf, Error> {
    report.push_str("behind the stored token\n")?;
    let token = token_in(alloc, stored)?;
    let mut stream = open_behind(alloc, link, orders, token)?;
    let went = tell_all(link, &mut stream, report);
    leave(alloc, link, stream, went)
}
