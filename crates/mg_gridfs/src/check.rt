//! The check of the indexes of a bucket before the first chunk is inserted.
ghost use Rattle.std.specs.Prelude.{◌≡◌, ◌↔◌, ◌||◌, ℕ, false, true, IsTrue, List, Some, None, Ok, IfErr, IfOk, is_some, option_map};
ghost use Rattle.mg_bson.specs.Raw.{fields};
ghost use Rattle.mg_bson.specs.Tree.{no_items};
ghost use Rattle.mg_link.specs.Acts.{IsOut};
ghost use Rattle.mg_link.specs.Errors.{command_code};
ghost use Rattle.mg_link.specs.Exec.{Sending};
ghost use Rattle.mg_link.specs.Moment.{LinkKeeps, moment};
ghost use Rattle.mg_link.specs.declared.action.Step.TheVariants as step;
ghost use Rattle.mg_ops.specs.Cursors as replies;
ghost use Rattle.mg_ops.specs.Cursors.{Gave, OpensWith, cursor_of};
ghost use Rattle.mg_ops.specs.Failing.{FailsBy};
ghost use Rattle.mg_cursor.specs.Client.{client_ticket};
ghost use Rattle.mg_cursor.specs.declared.polls.AdvancePoll.TheVariants as advance;
ghost use Rattle.mg_gridfs.specs.Buckets.{bucket_of};
ghost use Rattle.mg_gridfs.specs.Checks.{Builds, ChecksOn, Creates, EndsList, GoesBehind, HearsAdvance, HearsAny, HearsIndexed, HearsList, IsFreeCheck, IsIdleList, IsSoundCheck, IsSoundTurn, LandsCheck, Looks, check_ending, check_ticket, creates, finds, indexes, landed_ticket, landing_ending, lists, namespace_exists, reads, still_of, turned_ticket};
ghost use Rattle.mg_gridfs.specs.Commands.{CannotSend, IsNewRequest, any_lines, creation_lines, index_lines, listing_lines};
ghost use Rattle.mg_gridfs.specs.UploadView.{HearsAsked, asked_as, check_of, check_turned};

use crate::bucket::GridFsBucket;
use crate::commands::{create, create_index, find_any, list_indexes};
use crate::indexes::Place;
use mg_bson::{RawDocument, RawDocumentBuf};
use mg_cursor::{AdvancePoll, Cursor, NewCursor, TryPoll};
use mg_exec::Exec;
use mg_link::{Action, Error, ErrorKind, Link, Step, plain};
use mg_ops::{
    CursorInformation, CursorSpecification, GetMoreResult, check_written, doc_slices, read_more,
};
use mg_records::IndexModel;

/// The code of a refusal to create a collection that is there.
const NAMESPACE_EXISTS: i32 = 48;

/// The most documents of a list that is collected.
const MOST: u32 = 1_048_576;

// A list of indexes that is read.
#[derive(Drop)]
pub(crate) struct Listing {
    pub(crate) cursor: Cursor<IndexModel>,
    // Whether one of those that were read does.
    pub(crate) found: bool,
    pub(crate) count: u32,
}

// What is asked.
#[derive(Clone, Copy)]
pub(crate) enum Request {
    // Whether the bucket holds a file.
    Find,
    // That a collection is created.
    Create(Place),
    // Its indexes.
    List(Place),
    // That its index is created.
    Index(Place),
}

// What is on its way.
#[derive(Drop)]
pub(crate) enum Checking {
    Ask(Request, Exec),
    Read(Place, Listing),
}

// What a step of a check came to.
#[derive(Drop)]
pub(crate) enum CheckTurn {
    Goes(Checking),
    Pends(Checking),
    Passes,
    Fails(Error),
}

// The creation of a collection comes next.
fn create_next(bucket: &GridFsBucket, place: Place, wire: i32) -> CheckTurn
    ensures { Builds false (creation_lines (bucket_of bucket.now) place) (creates place) (check_turned result) }
{
    match create(bucket, place, wire) {
        Ok(exec) => CheckTurn::Goes(Checking::Ask(Request::Create(place), exec)),
        Err(error) => CheckTurn::Fails(error),
    }
}

// The list of its indexes comes next.
fn list_next(bucket: &GridFsBucket, place: Place, wire: i32) -> CheckTurn
    ensures { Builds true (listing_lines (bucket_of bucket.now) place) (lists place) (check_turned result) }
{
    match list_indexes(bucket, place, wire) {
        Ok(exec) => CheckTurn::Goes(Checking::Ask(Request::List(place), exec)),
        Err(error) => CheckTurn::Fails(error),
    }
}

// The creation of its index comes next.
fn index_next(bucket: &GridFsBucket, place: Place, wire: i32) -> CheckTurn
    ensures { Builds false (index_lines (bucket_of bucket.now) place) (indexes place) (check_turned result) }
{
    match create_index(bucket, place, wire) {
        Ok(exec) => CheckTurn::Goes(Checking::Ask(Request::Index(place), exec)),
        Err(error) => CheckTurn::Fails(error),
    }
}

// The index of this collection is there: the other collection comes next, where it was the first.
fn behind(bucket: &GridFsBucket, place: Place, wire: i32) -> CheckTurn
    ensures { GoesBehind (bucket_of bucket.now) place (check_turned result) }
{
    match place {
        Place::Files => create_next(bucket, Place::Chunks, wire),
        Place::Chunks => CheckTurn::Passes,
    }
}

// Whether the batch of a reply is empty.
fn has_none(reply: &RawDocument<'_>) -> bool
    ensures { (said : replies.Cursor) → cursor_of (fields reply.now) ≡ Ok said → IsTrue result ↔ (said.batch ≡ no_items) }
{
    match doc_slices(reply) {
        Ok(batch) => batch.is_empty(),
        Err(_fault) => true,
    }
}

// Whether the bucket holds a file.
fn hear_any(bucket: &GridFsBucket, reply: RawDocumentBuf, wire: i32) -> CheckTurn
    ensures { HearsAny (bucket_of bucket.now) reply (check_turned result) }
{
    let GetMoreResult {
        raw_reply,
        exhausted: _,
        post_batch_resume_token: _,
        ns: _,
        id: _,
    } = match read_more(bucket.allocator(), reply) {
        Ok(gave) => gave,
        Err(error) => return CheckTurn::Fails(error),
    };
    if has_none(&raw_reply.as_raw()) {
        create_next(bucket, Place::Files, wire)
    } else {
        CheckTurn::Passes
    }
}

// The collection was created.
fn hear_creation(bucket: &GridFsBucket, place: Place, reply: RawDocumentBuf, wire: i32) -> CheckTurn
    ensures { Creates (bucket_of bucket.now) place (step.Done reply) (check_turned result) }
{
    match check_written(bucket.allocator(), &reply.as_raw()) {
        Ok(()) => list_next(bucket, place, wire),
        Err(error) => CheckTurn::Fails(error),
    }
}

// Whether a refusal with this code says that a collection is there.
fn says_there(code: i32) -> bool
    ensures { IsTrue result ↔ (code ≡ namespace_exists) }
{
    code == NAMESPACE_EXISTS
}

// Whether a refusal says that a collection is there.
fn is_there(error: &Error) -> bool
    ensures { IsTrue result ↔ (command_code error.now.kind ≡ Some namespace_exists) }
{
    match error.sdam_code() {
        Some(code) => says_there(code),
        None => false,
    }
}

// The collection was not created, which is no failure where it is there.
fn not_created(bucket: &GridFsBucket, place: Place, error: Error, wire: i32) -> CheckTurn
    ensures { Creates (bucket_of bucket.now) place (step.Failed error) (check_turned result) }
{
    if is_there(&error) {
        return list_next(bucket, place, wire);
    }
    CheckTurn::Fails(error)
}

// A cursor whose batches are asked for in no special manner.
pub(crate) fn opened(gave: GetMoreResult) -> CursorSpecification
    ensures { (reply : List ℕ) → Gave reply gave → OpensWith None None None reply result }
{
    let GetMoreResult {
        raw_reply,
        exhausted: _,
        post_batch_resume_token,
        ns,
        id,
    } = gave;
    let is_empty = has_none(&raw_reply.as_raw());
    CursorSpecification {
        info: CursorInformation {
            ns,
            id,
            batch_size: None,
            max_time: None,
            comment: None,
        },
        initial_reply: raw_reply,
        is_empty,
        post_batch_resume_token,
    }
}

// The list is read from its first batch on.
fn hear_list(bucket: &GridFsBucket, place: Place, reply: RawDocumentBuf) -> CheckTurn
    ensures { HearsList place reply (check_turned result) }
{
    match read_more(bucket.allocator(), reply) {
        Ok(gave) => CheckTurn::Goes(Checking::Read(
            place,
            Listing {
                cursor: Cursor::new_cursor(bucket.allocator(), opened(gave)),
                found: false,
                count: 0,
            },
        )),
        Err(error) => CheckTurn::Fails(error),
    }
}

// Whether one of both holds.
fn either(one: bool, other: bool) -> bool
    ensures { result ≡ (one || other) }
{
    one || other
}

// Looks at the next document of the list, unless it is one too many.
fn look(place: Place, listing: Listing) -> CheckTurn
    requires { is_some listing.cursor.current ≡ true }
    ensures { (document : List ℕ) → listing.cursor.current ≡ Some document → Looks place listing.cursor document listing.found listing.count (check_turned result) }
{
    let Listing {
        cursor,
        found,
        count,
    } = listing;
    if count >= MOST {
        return CheckTurn::Fails(plain(ErrorKind::TooManyDocuments));
    }
    match cursor.deserialize_current() {
        Ok(index) => {
            let has = place.has_keys(&index.keys);
            CheckTurn::Goes(Checking::Read(
                place,
                Listing {
                    cursor,
                    found: either(found, has),
                    count: count + 1,
                },
            ))
        }
        Err(error) => CheckTurn::Fails(error),
    }
}

// At the end of the list the index is created, unless it was found.
fn end_list(bucket: &GridFsBucket, place: Place, found: bool, wire: i32) -> CheckTurn
    ensures { EndsList (bucket_of bucket.now) place found (check_turned result) }
{
    if found {
        behind(bucket, place, wire)
    } else {
        index_next(bucket, place, wire)
    }
}

// The list came to a document, or to its end.
fn advanced(
    bucket: &GridFsBucket,
    place: Place,
    listing: Listing,
    there: bool,
    wire: i32,
) -> CheckTurn
    requires { is_some listing.cursor.current ≡ there }
    ensures { HearsAdvance (bucket_of bucket.now) place listing.cursor listing.found listing.count (advance.Ready there) (check_turned result) }
{
    if there {
        return look(place, listing);
    }
    end_list(bucket, place, listing.found, wire)
}

// The index was created.
fn hear_index(bucket: &GridFsBucket, place: Place, reply: RawDocumentBuf, wire: i32) -> CheckTurn
    ensures { HearsIndexed (bucket_of bucket.now) place reply (check_turned result) }
{
    match check_written(bucket.allocator(), &reply.as_raw()) {
        Ok(()) => behind(bucket, place, wire),
        Err(error) => CheckTurn::Fails(error),
    }
}

// Goes on with the list.
fn read_on<L: Link>(
    bucket: &GridFsBucket,
    link: &mut L,
    place: Place,
    listing: Listing,
) -> CheckTurn
    requires held { IsOut (L.awaited link.old) (check_ticket (reads place listing.cursor listing.found listing.count)) }
    requires free { IsIdleList listing.cursor }
    ensures keeps { LinkKeeps (moment (L.awaited link.old) (L.log link.old) (L.faults link.old) (L.pends link.old) (L.wire link.old) (L.prompt link.old))
        (moment (L.awaited link.new) (L.log link.new) (L.faults link.new) (L.pends link.new) (L.wire link.new) (L.prompt link.new))
        (check_ticket (reads place listing.cursor listing.found listing.count)) (turned_ticket (check_turned result)) (check_ending (check_turned result)) }
    ensures checks { ChecksOn (L.awaited link.old) (L.awaited link.new) (L.log link.old) (L.log link.new) (L.wire link.old) (bucket_of bucket.now) (reads place listing.cursor listing.found listing.count) (check_turned result) }
{
    let mut listing = listing;
    match listing.cursor.poll_advance(link) {
        AdvancePoll::Pending => CheckTurn::Pends(Checking::Read(place, listing)),
        AdvancePoll::Ready(there) => advanced(bucket, place, listing, there, link.wire_version()),
        AdvancePoll::Failed(error) => CheckTurn::Fails(error),
    }
}

// What a reply says.
fn hear_reply(
    bucket: &GridFsBucket,
    request: Request,
    reply: RawDocumentBuf,
    wire: i32,
) -> CheckTurn
    ensures { HearsAsked (bucket_of bucket.now) request (step.Done reply) (check_turned result) }
{
    match request {
        Request::Find => hear_any(bucket, reply, wire),
        Request::Create(place) => hear_creation(bucket, place, reply, wire),
        Request::List(place) => hear_list(bucket, place, reply),
        Request::Index(place) => hear_index(bucket, place, reply, wire),
    }
}

// What a failure says.
fn hear_failure(bucket: &GridFsBucket, request: Request, error: Error, wire: i32) -> CheckTurn
    ensures { HearsAsked (bucket_of bucket.now) request (step.Failed error) (check_turned result) }
{
    match request {
        Request::Find => CheckTurn::Fails(error),
        Request::Create(place) => not_created(bucket, place, error, wire),
        Request::List(place) => CheckTurn::Fails(error),
        Request::Index(place) => CheckTurn::Fails(error),
    }
}

// What came of a poll of a request.
fn hear(
    bucket: &GridFsBucket,
    request: Request,
    came: Step<Exec, RawDocumentBuf>,
    wire: i32,
) -> CheckTurn
    ensures { HearsAsked (bucket_of bucket.now) request came (check_turned result) }
{
    match came {
        Step::Pending(exec) => CheckTurn::Pends(Checking::Ask(request, exec)),
        Step::Done(reply) => hear_reply(bucket, request, reply, wire),
        Step::Failed(error) => hear_failure(bucket, request, error, wire),
    }
}

// What waits still of a request that is given up.
fn left_of(request: Request, exec: Option<Exec>) -> Option<Checking>
    ensures { option_map check_of result ≡ option_map (asked_as request) exec }
{
    match exec {
        Some(exec) => Some(Checking::Ask(request, exec)),
        None => None,
    }
}

// Goes on with a list that is given up.
fn land_list<L: Link>(link: &mut L, place: Place, listing: Listing) -> Option<Checking>
    requires held { IsOut (L.awaited link.old) (client_ticket listing.cursor.cursor) }
    requires free { IsIdleList listing.cursor }
    ensures keeps { LinkKeeps (moment (L.awaited link.old) (L.log link.old) (L.faults link.old) (L.pends link.old) (L.wire link.old) (L.prompt link.old))
        (moment (L.awaited link.new) (L.log link.new) (L.faults link.new) (L.pends link.new) (L.wire link.new) (L.prompt link.new))
        (client_ticket listing.cursor.cursor) (landed_ticket (option_map check_of result)) (landing_ending (option_map check_of result)) }
    ensures lands { LandsCheck (L.awaited link.old) (L.awaited link.new) (L.log link.old) (L.log link.new) (L.wire link.old) (reads place listing.cursor listing.found listing.count) (option_map check_of result) }
{
    let mut listing = listing;
    match listing.cursor.poll_try_advance(link) {
        TryPoll::Pending => Some(Checking::Read(place, listing)),
        TryPoll::Ready(_result) => None,
        TryPoll::Failed(_error) => None,
    }
}

impl Checking {
    // The check begins with its find.
    pub(crate) fn begin(bucket: &GridFsBucket, wire: i32) -> Result<Checking, Error>
        ensures ok { IfOk result (λ c. (sending : Sending) × (check_of c ≡ finds sending) × IsNewRequest true (any_lines (bucket_of bucket.now)) sending) }
        ensures err { IfErr result (λ e. FailsBy (CannotSend (any_lines (bucket_of bucket.now))) e) }
    {
        let exec = find_any(bucket, wire)?;
        Ok(Checking::Ask(Request::Find, exec))
    }

    // The number of the ticket that it holds.
    pub(crate) fn ticket_number(&self) -> Option<u64>
        ensures { result ≡ check_ticket (check_of self.now) }
    {
        match self {
            Checking::Ask(_request, exec) => exec.ticket_number(),
            Checking::Read(_, listing) => listing.cursor.ticket_number(),
        }
    }

    // Polls what is on its way, and says what comes next.
    pub(crate) fn step<L: Link>(self, bucket: &GridFsBucket, link: &mut L) -> CheckTurn
        requires held { IsOut (L.awaited link.old) (check_ticket (check_of self)) }
        requires sound { IsSoundCheck (bucket_of bucket.now) (check_of self) }
        // The tickets of others, the counts, the wire version and the promptness of the link.
        ensures keeps { LinkKeeps (moment (L.awaited link.old) (L.log link.old) (L.faults link.old) (L.pends link.old) (L.wire link.old) (L.prompt link.old))
            (moment (L.awaited link.new) (L.log link.new) (L.faults link.new) (L.pends link.new) (L.wire link.new) (L.prompt link.new))
            (check_ticket (check_of self)) (turned_ticket (check_turned result)) (check_ending (check_turned result)) }
        ensures checks { ChecksOn (L.awaited link.old) (L.awaited link.new) (L.log link.old) (L.log link.new) (L.wire link.old) (bucket_of bucket.now) (check_of self) (check_turned result) }
        ensures sound { IsSoundTurn (bucket_of bucket.now) (check_turned result) }
    {
        match self {
            Checking::Ask(request, exec) => {
                let came = exec.poll(link);
                hear(bucket, request, came, link.wire_version())
            }
            Checking::Read(place, listing) => read_on(bucket, link, place, listing),
        }
    }

    // Polls what is on its way, to whose end the check is given up. It says what waits still.
    pub(crate) fn land<L: Link>(self, link: &mut L) -> Option<Checking>
        requires held { IsOut (L.awaited link.old) (check_ticket (check_of self)) }
        requires free { IsFreeCheck (check_of self) }
        ensures keeps { LinkKeeps (moment (L.awaited link.old) (L.log link.old) (L.faults link.old) (L.pends link.old) (L.wire link.old) (L.prompt link.old))
            (moment (L.awaited link.new) (L.log link.new) (L.faults link.new) (L.pends link.new) (L.wire link.new) (L.prompt link.new))
            (check_ticket (check_of self)) (landed_ticket (option_map check_of result)) (landing_ending (option_map check_of result)) }
        ensures lands { LandsCheck (L.awaited link.old) (L.awaited link.new) (L.log link.old) (L.log link.new) (L.wire link.old) (check_of self) (option_map check_of result) }
    {
        match self {
            Checking::Ask(request, exec) => {
                let came = exec.poll(link);
                left_of(request, still(came))
            }
            Checking::Read(place, listing) => land_list(link, place, listing),
        }
    }
}

// The request, where it waits still.
pub(crate) fn still(came: Step<Exec, RawDocumentBuf>) -> Option<Exec>
    ensures { result ≡ still_of came }
{
    match came {
        Step::Pending(exec) => Some(exec),
        Step::Done(_reply) => None,
        Step::Failed(_error) => None,
    }
}
