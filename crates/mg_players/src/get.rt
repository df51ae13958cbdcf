//! A job that reads a file.
ghost use Rattle.std.specs.Prelude.{◌≡◌, ◌+◌, ◌<◌, ◌≤◌, [], IfErr, IfOk, None, false, length};
ghost use Rattle.mg_link.specs.Acts.{IsOut, Tickets};
ghost use Rattle.mg_link.specs.Errors.{plain};
ghost use Rattle.mg_link.specs.Causes.{Rose};
ghost use Rattle.mg_link.specs.Link.{Later};
ghost use Rattle.mg_link.specs.declared.error.ErrorKind.TheVariants as kinds;
ghost use Rattle.mg_gridfs.specs.Downloads.{download_ticket};
ghost use Rattle.mg_gridfs.specs.DownloadView.{IsDownload, download_of, finding_of, ticket_in};
ghost use Rattle.mg_gridfs.specs.Findings.{IsSoundFinding, finding_ticket, starts};
ghost use Rattle.mg_players.specs.Gets.{FewCalls, GetStageHolds, IsOpeningFor, KeepsRead, OpensAs, done_behind, get_end, gets_ticket, room_of, sought};
ghost use Rattle.mg_players.specs.Losses.{EndLost};
ghost use Rattle.mg_players.specs.Progress.{GetAt, GetGoes};
ghost use Rattle.mg_players.specs.Telling.{GetTurns};

use crate::bucket::bucket_named;
use crate::kind::Kind;
use mg_bson::{Bson, DateTime};
use mg_gridfs::{GridFsDownloadStream, OpenDownloadStream, ReadPoll};
use mg_link::{Action, BadArgument, Error, ErrorKind, IdSource, Link, Step, plain};
use mg_script::{DatabaseName, Ended, Outcome};
use std::alloc::{AllocError, Global};
use std::mem;

/// The most bytes of one read.
const MOST_READ: u32 = 16_777_216;

/// What is to be read.
#[derive(Clone, Copy)]
pub(crate) struct Sought<'a> {
    pub(crate) db: &'a DatabaseName,
    pub(crate) bucket: &'a String,
    pub(crate) id: &'a Bson,
    /// How many bytes a read asks for.
    pub(crate) read: u32,
}

impl<'a> Sought<'a> {
    pub(crate) fn new(
        db: &'a DatabaseName,
        bucket: &'a String,
        id: &'a Bson,
        read: u32,
    ) -> Sought<'a>
        ensures { result ≡ record { db = db.entry; bucket = bucket.entry; id = id.entry; read = read } }
    {
        Sought {
            db,
            bucket,
            id,
            read,
        }
    }
}

/// How far a get has come.
#[derive(Drop)]
enum GetStage {
    /// Nothing was asked for.
    Unsent,
    Opens(OpenDownloadStream),
    /// It reads into this room.
    Reads(GridFsDownloadStream, Vec<u8>),
    Ended(Ended<()>),
}

/// A get that goes on.
pub struct GetPlayer<'a> {
    what: Sought<'a>,
    stage: GetStage,
    /// The bytes that were read.
    bytes: Vec<u8>,
    /// How many calls have ended behind which it went on.
    done: u64,
}

// By hand, so that letting one go is one call.
impl Drop for GetPlayer<'_> {
    fn drop(self) {
        let GetPlayer {
            what: _,
            stage: _,
            bytes: _,
            done: _,
        } = self;
    }
}

/// An opening of the file. Nothing is sent.
fn opening_of(alloc: Global, what: Sought<'_>) -> Result<OpenDownloadStream, Error>
    ensures ok { IfOk result (λ o. IsOpeningFor (sought what.entry) (finding_of o)) }
    ensures new { IfOk result (λ o. (finding_of o).doing ≡ starts) }
    ensures sound { IfOk result (λ o. IsSoundFinding (finding_of o)) }
    ensures err { IfErr result (λ e. e ≡ plain kinds.OutOfMemory) }
{
    let bucket = bucket_named(alloc, what.db, what.bucket)?;
    let id = what.id.clone()?;
    Ok(bucket.open_download_stream(id))
}

/// The room of a read.
fn room_for(alloc: Global, read: u32) -> Result<Vec<u8>, AllocError>
    ensures { IfOk result (λ r. length r.items ≡ room_of read) }
{
    let count = read.min(MOST_READ) as usize;
    vec![in alloc; 0u8; count]
}

/// A get that fails for want of memory.
fn out_of_memory() -> GetStage
    ensures { result ≡ GetStage.Ended (Ended.Failed (plain kinds.OutOfMemory)) }
{
    GetStage::Ended(Ended::Failed(plain(ErrorKind::OutOfMemory)))
}

impl<'a> GetPlayer<'a> {
    /// A get that has sent nothing.
    pub(crate) fn new(alloc: Global, what: Sought<'a>) -> GetPlayer<'a>
        ensures what { result.what ≡ what.entry }
        ensures stage { result.stage ≡ GetStage.Unsent }
        ensures bytes { result.bytes.items ≡ [] }
        ensures done { result.done ≡ 0 }
        ensures at { GetAt result 0 false }
    {
        GetPlayer {
            what,
            stage: GetStage::Unsent,
            bytes: Vec::new(alloc),
            done: 0,
        }
    }

    /// The get at its next stage.
    fn moved_to(self, next: GetStage) -> GetPlayer<'a>
        ensures { result ≡ record self.entry { stage = next } }
    {
        let mut get = self;
        enter(&mut get.stage, next);
        get
    }

    /// One more call has ended, behind which it goes on.
    fn count(&mut self)
        requires { self.old.done ≤ length self.old.bytes.items + 1 }
        ensures { self.new ≡ record self.old { done = self.old.done + 1 } }
    {
        self.done += 1;
    }

    /// Asks for the record of the file, unless a read is to have no room.
    fn begin<L: Link>(&mut self, alloc: Global, link: &mut L) -> GetStage
        requires new { self.old.done ≡ 0 }
        ensures tickets { Tickets (L.awaited link.old) (L.awaited link.new) None (gets_ticket result) }
        ensures holds { GetStageHolds self.old.what.read result }
        ensures turned { GetTurns (L.awaited link.old) (L.awaited link.new) (L.log link.old) (L.log link.new) (L.wire link.old) (record self.old { stage = GetStage.Unsent }) (record self.new { stage = result }) }
        ensures what { self.new.what ≡ self.old.what }
        ensures lost { EndLost (get_end result) → Rose (L.faults link.old) (L.faults link.new) }
        ensures comes { GetGoes (L.pends link.old) (L.pends link.new) GetStage.Unsent (length self.old.bytes.items) self.old.done result (length self.new.bytes.items) self.new.done self.old.what.read }
        ensures few { FewCalls result (length self.new.bytes.items) self.new.done }
        ensures later { Later (L.faults link.old) (L.faults link.new) (L.pends link.old) (L.pends link.new)
            (L.wire link.old) (L.wire link.new) (L.prompt link.old) (L.prompt link.new) }
    {
        if self.what.read == 0 {
            let error = plain(ErrorKind::InvalidArgument(BadArgument::ReadSize));
            return GetStage::Ended(Ended::Failed(error));
        }
        match opening_of(alloc, self.what) {
            Ok(opening) => self.open(alloc, link, opening),
            Err(error) => GetStage::Ended(Ended::Failed(error)),
        }
    }

    /// Waits for the record, and then for the list of the chunks.
    fn open<L: Link>(
        &mut self,
        alloc: Global,
        link: &mut L,
        opening: OpenDownloadStream,
    ) -> GetStage
        requires held { IsOut (L.awaited link.old) (ticket_in opening) }
        requires holds { GetStageHolds self.old.what.read (GetStage.Opens opening) }
        requires new { self.old.done ≡ 0 }
        ensures tickets { Tickets (L.awaited link.old) (L.awaited link.new) (finding_ticket (finding_of opening)) (gets_ticket result) }
        ensures holds { GetStageHolds self.old.what.read result }
        ensures turned { GetTurns (L.awaited link.old) (L.awaited link.new) (L.log link.old) (L.log link.new) (L.wire link.old) (record self.old { stage = GetStage.Opens opening }) (record self.new { stage = result }) }
        ensures what { self.new.what ≡ self.old.what }
        ensures lost { EndLost (get_end result) → Rose (L.faults link.old) (L.faults link.new) }
        ensures comes { GetGoes (L.pends link.old) (L.pends link.new) (GetStage.Opens opening) (length self.old.bytes.items) self.old.done result (length self.new.bytes.items) self.new.done self.old.what.read }
        ensures few { FewCalls result (length self.new.bytes.items) self.new.done }
        ensures later { Later (L.faults link.old) (L.faults link.new) (L.pends link.old) (L.pends link.new)
            (L.wire link.old) (L.wire link.new) (L.prompt link.old) (L.prompt link.new) }
    {
        match opening.poll(link) {
            Step::Pending(opening) => GetStage::Opens(opening),
            Step::Done(download) => self.opened(alloc, download),
            Step::Failed(error) => GetStage::Ended(Ended::Failed(error)),
        }
    }

    /// The first read is next.
    fn opened(&mut self, alloc: Global, download: GridFsDownloadStream) -> GetStage
        requires sound { IsDownload download }
        requires free { download_ticket (download_of download) ≡ None }
        requires some { 0 < self.old.what.read }
        requires new { self.old.done ≡ 0 }
        ensures ticket { gets_ticket result ≡ None }
        ensures holds { GetStageHolds self.old.what.read result }
        ensures stage { OpensAs download result }
        ensures bytes { self.new.bytes.items ≡ self.old.bytes.items }
        ensures done { self.new.done ≡ done_behind result self.old.done }
        ensures what { self.new.what ≡ self.old.what }
        ensures few { FewCalls result (length self.new.bytes.items) self.new.done }
    {
        match room_for(alloc, self.what.read) {
            Ok(room) => {
                self.count();
                GetStage::Reads(download, room)
            }
            Err(_) => out_of_memory(),
        }
    }

    /// Reads on.
    fn read<L: Link>(
        &mut self,
        link: &mut L,
        download: GridFsDownloadStream,
        room: Vec<u8>,
    ) -> GetStage
        requires held { IsOut (L.awaited link.old) (download_ticket (download_of download)) }
        requires holds { GetStageHolds self.old.what.read (GetStage.Reads download room) }
        requires few { self.old.done ≤ length self.old.bytes.items + 1 }
        ensures tickets { Tickets (L.awaited link.old) (L.awaited link.new) (download_ticket (download_of download)) (gets_ticket result) }
        ensures holds { GetStageHolds self.old.what.read result }
        ensures turned { GetTurns (L.awaited link.old) (L.awaited link.new) (L.log link.old) (L.log link.new) (L.wire link.old) (record self.old { stage = GetStage.Reads download room }) (record self.new { stage = result }) }
        ensures what { self.new.what ≡ self.old.what }
        ensures lost { EndLost (get_end result) → Rose (L.faults link.old) (L.faults link.new) }
        ensures comes { GetGoes (L.pends link.old) (L.pends link.new) (GetStage.Reads download room) (length self.old.bytes.items) self.old.done result (length self.new.bytes.items) self.new.done self.old.what.read }
        ensures few { FewCalls result (length self.new.bytes.items) self.new.done }
        ensures later { Later (L.faults link.old) (L.faults link.new) (L.pends link.old) (L.pends link.new)
            (L.wire link.old) (L.wire link.new) (L.prompt link.old) (L.prompt link.new) }
    {
        let mut download = download;
        let mut room = room;
        match download.poll_read(link, &mut room) {
            ReadPoll::Pending => GetStage::Reads(download, room),
            ReadPoll::Read(count) => self.keep(download, room, count),
            ReadPoll::Failed(error) => GetStage::Ended(Ended::Failed(error)),
        }
    }

    /// Keeps so many bytes that were read. Where none was, the file has no more.
    fn keep(&mut self, download: GridFsDownloadStream, room: Vec<u8>, count: usize) -> GetStage
        requires holds { GetStageHolds self.old.what.read (GetStage.Reads download room) }
        requires within { count ≤ length room.items }
        requires free { download_ticket (download_of download) ≡ None }
        requires few { self.old.done ≤ length self.old.bytes.items + 1 }
        ensures ticket { gets_ticket result ≡ None }
        ensures holds { GetStageHolds self.old.what.read result }
        ensures kept { KeepsRead download room count self.old.bytes.items self.new.bytes.items result }
        ensures done { self.new.done ≡ done_behind result self.old.done }
        ensures what { self.new.what ≡ self.old.what }
        ensures few { FewCalls result (length self.new.bytes.items) self.new.done }
    {
        if count == 0 {
            return GetStage::Ended(Ended::Gave(()));
        }
        match self.bytes.extend_from_slice(&room[..count]) {
            Ok(()) => {
                self.count();
                GetStage::Reads(download, room)
            }
            Err(_) => out_of_memory(),
        }
    }
}

impl<'a> Kind for GetPlayer<'a> {
    ghost use Rattle.std.specs.Prelude.{◌≡◌};
    ghost use Rattle.mg_script.specs.declared.outcome.Outcome.TheVariants as outcomes;
    ghost use Rattle.mg_players.specs.Gets.{GetHolds, get_end, get_ended, get_ticket};
    ghost use Rattle.mg_players.specs.Headline.{GetPlays, get_task};
    ghost use Rattle.mg_players.specs.Losses.{EndingLost};
    ghost use Rattle.mg_players.specs.Progress.{GetAt};
    ghost use Rattle.mg_players.specs.Telling.{GetSays};

    ghost task = { get_task };

    ghost ticket = { get_ticket };

    ghost ended = { get_ended };

    ghost holds = { λ wire p. GetHolds p };

    ghost is_ready = { λ p. Unit {0} };

    ghost plays = { GetPlays };

    ghost tells = { GetSays };

    ghost number = { λ p. p.done };

    ghost at = { λ calls p k last. GetAt p k last };

    ghost ready_at = { λ calls p k last. GetAt p k last };

    ghost draws = { λ p. 0 };

    ghost draws_as = { λ ids p supply t. Unit {0} };

    ghost has_ids = { λ p. Unit {0} };

    ghost is_same = { λ p q. q ≡ p };

    ghost says_lost = { λ p. EndingLost (get_end p.stage) };

    ghost gives = { λ p r. r ≡ outcomes.Get p.bytes (get_end p.stage) };

    fn anew(&self, alloc: Global) -> GetPlayer<'a> {
        GetPlayer::new(alloc, self.what)
    }

    fn has_ended(&self) -> bool {
        match self.stage {
            GetStage::Unsent => false,
            GetStage::Opens(_) => false,
            GetStage::Reads(_, _) => false,
            GetStage::Ended(_) => true,
        }
    }

    fn ticket_number(&self) -> Option<u64> {
        match &self.stage {
            GetStage::Unsent => None,
            GetStage::Opens(opening) => opening.ticket_number(),
            GetStage::Reads(download, _) => download.ticket_number(),
            GetStage::Ended(_) => None,
        }
    }

    fn ready<I: IdSource>(&mut self, _alloc: Global, _ids: &mut I) -> Result<(), Error> {
        Ok(())
    }

    fn go<L: Link>(self, alloc: Global, link: &mut L, _moment: DateTime) -> GetPlayer<'a> {
        let mut get = self;
        let stage = mem::replace(&mut get.stage, GetStage::Unsent);
        match stage {
            GetStage::Unsent => {
                let next = get.begin(alloc, link);
                get.moved_to(next)
            }
            GetStage::Opens(opening) => {
                let next = get.open(alloc, link, opening);
                get.moved_to(next)
            }
            GetStage::Reads(download, room) => {
                let next = get.read(link, download, room);
                get.moved_to(next)
            }
            GetStage::Ended(ended) => get.moved_to(GetStage::Ended(ended)),
        }
    }

    fn into_outcome(self, _alloc: Global) -> Result<Outcome, Error> {
        let GetPlayer {
            what: _,
            stage,
            bytes,
            done: _,
        } = self;
        Ok(Outcome::Get {
            bytes,
            ended: end_of(stage),
        })
    }
}

/// What a get came to.
fn end_of(stage: GetStage) -> Ended<()>
    ensures { result ≡ get_end stage }
{
    match stage {
        GetStage::Unsent => Ended::Unfinished,
        GetStage::Opens(_) => Ended::Unfinished,
        GetStage::Reads(_, _) => Ended::Unfinished,
        GetStage::Ended(ended) => ended,
    }
}

/// Puts the next stage in the place of the last one, which is let go by this one call.
fn enter(stage: &mut GetStage, next: GetStage)
    ensures { stage.new ≡ next }
{
    *stage = next;
}
