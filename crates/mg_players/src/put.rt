//! A job that writes a file.
ghost use Rattle.std.specs.Prelude.{◌≡◌, ◌<◌, ◌≤◌, ◌+◌, ◌^◌, ℕ, ℤ, IfErr, IfOk, OnOk, Some, length, slice_get};
ghost use Rattle.mg_link.specs.Acts.{IsOut};
ghost use Rattle.mg_link.specs.Errors.{plain};
ghost use Rattle.mg_link.specs.declared.error.ErrorKind.TheVariants as kinds;
ghost use Rattle.mg_link.specs.Link.{Later};
ghost use Rattle.mg_ops.specs.Drawn.{AreLater};
ghost use Rattle.mg_chunks.specs.Sizes.{chunk_count_of};
ghost use Rattle.mg_gridfs.specs.Uploads.{fresh_upload, upload_ticket};
ghost use Rattle.mg_gridfs.specs.UploadView.{IsUpload, upload_of};
ghost use Rattle.mg_script.specs.Plan.{pieces};
ghost use Rattle.mg_players.specs.Drawing.{put_draws};
ghost use Rattle.mg_players.specs.Kept.{ids_left};
ghost use Rattle.mg_players.specs.Losses.{PutLoses};
ghost use Rattle.mg_players.specs.Progress.{PutGoes};
ghost use Rattle.mg_players.specs.Putting.{Drew, DrewFor, Opens, OpensFrom, PutTurns};
ghost use Rattle.mg_players.specs.Puts.{CannotOpen, HoldsUpload, IsSamePut, NamesFiles, PutHasIds, put_aim, put_end, total, where_counted, writes};

use crate::bucket::bucket_named;
use crate::drawn::{DrawnIds, draw};
use crate::kind::Kind;
use mg_bson::{Bson, DateTime};
use mg_gridfs::{FilesCollectionDocument, GridFsUploadStream, Step2, WritePoll};
use mg_link::{Error, ErrorKind, IdSource, Link, plain};
use mg_script::{DatabaseName, Ended, Outcome};
use std::alloc::Global;
use std::mem;

/// What is to be written, and where.
#[derive(Clone, Copy)]
pub(crate) struct Written<'a> {
    pub(crate) db: &'a DatabaseName,
    pub(crate) bucket: &'a String,
    pub(crate) name: &'a String,
    pub(crate) id: &'a Bson,
    /// How many bytes each chunk has.
    pub(crate) chunk: u32,
    pub(crate) pieces: &'a [Vec<u8>],
}

impl<'a> Written<'a> {
    pub(crate) fn new(
        db: &'a DatabaseName,
        bucket: &'a String,
        name: &'a String,
        id: &'a Bson,
        chunk: u32,
        pieces: &'a [Vec<u8>],
    ) -> Written<'a>
        ensures { result ≡ record { db = db.entry; bucket = bucket.entry; name = name.entry; id = id.entry; chunk = chunk; pieces = pieces.entry } }
    {
        Written {
            db,
            bucket,
            name,
            id,
            chunk,
            pieces,
        }
    }
}

/// How many bytes the pieces have. Where 64 bits do not count them, no memory holds them.
fn length_of(cut: &[Vec<u8>]) -> Result<u64, Error>
    ensures ok { IfOk result (λ n. (n ≡ total (pieces cut.now)) × (n < 2 ^ 64)) }
    ensures err { IfErr result (λ e. (2 ^ 64 ≤ total (pieces cut.now)) × (e ≡ plain kinds.OutOfMemory)) }
{
    let mut total: u64 = 0;
    for piece in cut {
        match total.checked_add(piece.len() as u64) {
            Some(sum) => total = sum,
            None => return Err(plain(ErrorKind::OutOfMemory)),
        }
    }
    Ok(total)
}

/// How many chunks hold so many bytes; none where they have no size, or are more than a file has.
fn chunks_of(length: u64, chunk: u32) -> u32
    ensures { result ≡ where_counted (chunk_count_of length chunk) }
{
    match FilesCollectionDocument::n_from_vals(length, chunk) {
        Ok(count) => count,
        Err(_) => 0,
    }
}

/// An upload of the file, which has sent nothing. Its id is given, so that none is drawn.
fn upload_for(
    alloc: Global,
    what: Written<'_>,
    ids: &mut DrawnIds,
) -> Result<GridFsUploadStream, Error>
    ensures ok { IfOk result (λ s. upload_of s ≡ fresh_upload (put_aim (writes what.entry))) }
    ensures sound { IfOk result (λ s. IsUpload s) }
    ensures named { IfOk result (λ s. NamesFiles (writes what.entry)) }
    ensures err { IfErr result (CannotOpen (writes what.entry)) }
    ensures undrawn { OnOk result ((k : ℕ) → ids_left ids.new k ≡ ids_left ids.old k) }
{
    let bucket = bucket_named(alloc, what.db, what.bucket)?;
    let id = what.id.clone()?;
    bucket
        .open_upload_stream(what.name.as_str())
        .id(id)
        .chunk_size_bytes(what.chunk)
        .open(ids)
}

/// The ids of all chunks of a file, and how many bytes it will have.
#[derive(Drop)]
struct Beginning {
    ids: DrawnIds,
    length: u64,
}

/// An upload that goes on, with the ids of its chunks.
struct Going {
    upload: GridFsUploadStream,
    ids: DrawnIds,
    /// How many bytes the file will have.
    length: u64,
}

// By hand, so that letting one go is one call.
impl Drop for Going {
    fn drop(self) {
        let Going {
            upload: _,
            ids: _,
            length: _,
        } = self;
    }
}

/// How far a put has come.
#[derive(Drop)]
enum PutStage {
    /// It has no ids yet.
    Undrawn,
    /// It drew the ids of its chunks. Its upload is opened next, unless there was no place for them.
    Begins(Result<Beginning, Error>),
    Goes(Going),
    Ended(Ended<u64>),
}

/// A put that goes on.
pub struct PutPlayer<'a> {
    what: Written<'a>,
    stage: PutStage,
    /// How many pieces are written.
    done: usize,
}

// By hand, so that letting one go is one call.
impl Drop for PutPlayer<'_> {
    fn drop(self) {
        let PutPlayer {
            what: _,
            stage: _,
            done: _,
        } = self;
    }
}

/// Draws the ids of all chunks. Nothing is sent.
fn begun<I: IdSource>(alloc: Global, ids: &mut I, what: Written<'_>) -> Result<Beginning, Error>
    ensures drawn { AreLater (I.ids ids.old) (put_draws PutStage.Undrawn (writes what.entry)) (I.ids ids.new) }
    ensures drew { Drew (I.ids ids.old) (writes what.entry) result }
{
    let length = length_of(what.pieces)?;
    let drawn = draw(alloc, ids, chunks_of(length, what.chunk))?;
    Ok(Beginning { ids: drawn, length })
}

/// A put whose upload was opened, or its failure. Nothing is sent.
fn opened(alloc: Global, what: Written<'_>, begun: Beginning) -> PutStage
    ensures { Opens (writes what.entry) begun result }
{
    let Beginning { mut ids, length } = begun;
    match upload_for(alloc, what, &mut ids) {
        Ok(upload) => PutStage::Goes(Going {
            upload,
            ids,
            length,
        }),
        Err(error) => PutStage::Ended(Ended::Failed(error)),
    }
}

/// The same of a put that had a place for its ids.
fn opening(alloc: Global, what: Written<'_>, begun: Result<Beginning, Error>) -> PutStage
    ensures { OpensFrom (writes what.entry) begun result }
{
    match begun {
        Ok(begun) => opened(alloc, what, begun),
        Err(error) => PutStage::Ended(Ended::Failed(error)),
    }
}

impl<'a> PutPlayer<'a> {
    /// A put that has sent nothing.
    pub(crate) fn new(what: Written<'a>) -> PutPlayer<'a>
        ensures stage { result.stage ≡ PutStage.Undrawn }
        ensures done { result.done ≡ 0 }
        ensures what { result.what ≡ what.entry }
    {
        PutPlayer {
            what,
            stage: PutStage::Undrawn,
            done: 0,
        }
    }

    /// Draws the ids of a put that has none yet. Nothing is sent.
    fn draw_ids<I: IdSource>(&mut self, alloc: Global, ids: &mut I)
        ensures drawn { AreLater (I.ids ids.old) (put_draws self.old.stage (writes self.old.what)) (I.ids ids.new) }
        ensures drew { DrewFor (I.ids ids.old) (writes self.old.what) self.old.stage self.new.stage }
        ensures same { IsSamePut self.old self.new }
        ensures has { PutHasIds self.new.stage }
    {
        let next = match mem::replace(&mut self.stage, PutStage::Undrawn) {
            PutStage::Undrawn => PutStage::Begins(begun(alloc, ids, self.what)),
            PutStage::Begins(begun) => PutStage::Begins(begun),
            PutStage::Goes(going) => PutStage::Goes(going),
            PutStage::Ended(ended) => PutStage::Ended(ended),
        };
        enter(&mut self.stage, next);
    }

    /// The put at its next stage, with so many pieces written.
    fn moved_to(self, stage: PutStage, done: usize) -> PutPlayer<'a>
        ensures { result ≡ record self.entry { stage = stage; done = done } }
    {
        let mut put = self;
        enter(&mut put.stage, stage);
        put.done = done;
        put
    }

    /// Writes the next piece, or closes the upload behind the last one.
    fn go_on<L: Link>(self, link: &mut L, going: Going, moment: DateTime) -> PutPlayer<'a>
        requires held { IsOut (L.awaited link.old) (upload_ticket (upload_of going.upload)) }
        requires holds { HoldsUpload going.upload self.done (length (pieces self.what.pieces.now)) }
        ensures turned { PutTurns (L.awaited link.old) (L.awaited link.new) (L.log link.old) (L.log link.new) (L.wire link.old) moment.millis (record self.entry { stage = PutStage.Goes going }) result }
        ensures lost { PutLoses (L.faults link.old) (L.faults link.new) (L.pends link.old) (L.pends link.new) (PutStage.Goes going) result.stage }
        ensures comes { PutGoes (L.pends link.old) (L.pends link.new) (record self.entry { stage = PutStage.Goes going }) result }
        ensures later { Later (L.faults link.old) (L.faults link.new) (L.pends link.old) (L.pends link.new)
            (L.wire link.old) (L.wire link.new) (L.prompt link.old) (L.prompt link.new) }
    {
        let at = self.done;
        let pieces = self.what.pieces;
        if at < pieces.len() {
            let piece = &pieces[at];
            return self.write(link, going, piece.as_slice(), at + 1);
        }
        self.close(link, going, moment)
    }

    /// Writes a piece: the next one. So many are written with it.
    fn write<L: Link>(self, link: &mut L, going: Going, piece: &[u8], next: usize) -> PutPlayer<'a>
        requires held { IsOut (L.awaited link.old) (upload_ticket (upload_of going.upload)) }
        requires holds { HoldsUpload going.upload self.done (length (pieces self.what.pieces.now)) }
        requires there { slice_get (pieces self.what.pieces.now) self.done ≡ Some piece.now }
        requires count { next ≡ self.done + 1 }
        ensures turned { (moment : ℤ) → PutTurns (L.awaited link.old) (L.awaited link.new) (L.log link.old) (L.log link.new) (L.wire link.old) moment (record self.entry { stage = PutStage.Goes going }) result }
        ensures lost { PutLoses (L.faults link.old) (L.faults link.new) (L.pends link.old) (L.pends link.new) (PutStage.Goes going) result.stage }
        ensures comes { PutGoes (L.pends link.old) (L.pends link.new) (record self.entry { stage = PutStage.Goes going }) result }
        ensures later { Later (L.faults link.old) (L.faults link.new) (L.pends link.old) (L.pends link.new)
            (L.wire link.old) (L.wire link.new) (L.prompt link.old) (L.prompt link.new) }
    {
        let mut going = going;
        let done = self.done;
        match going.upload.poll_write(link, &mut going.ids, piece) {
            WritePoll::Pending => self.moved_to(PutStage::Goes(going), done),
            WritePoll::Wrote(_) => self.moved_to(PutStage::Goes(going), next),
            WritePoll::Failed(error) => {
                self.moved_to(PutStage::Ended(Ended::Failed(error)), done)
            }
        }
    }

    /// Closes the upload, whose pieces are all written.
    fn close<L: Link>(self, link: &mut L, going: Going, moment: DateTime) -> PutPlayer<'a>
        requires held { IsOut (L.awaited link.old) (upload_ticket (upload_of going.upload)) }
        requires holds { HoldsUpload going.upload self.done (length (pieces self.what.pieces.now)) }
        requires all { length (pieces self.what.pieces.now) ≤ self.done }
        ensures turned { PutTurns (L.awaited link.old) (L.awaited link.new) (L.log link.old) (L.log link.new) (L.wire link.old) moment.millis (record self.entry { stage = PutStage.Goes going }) result }
        ensures lost { PutLoses (L.faults link.old) (L.faults link.new) (L.pends link.old) (L.pends link.new) (PutStage.Goes going) result.stage }
        ensures comes { PutGoes (L.pends link.old) (L.pends link.new) (record self.entry { stage = PutStage.Goes going }) result }
        ensures later { Later (L.faults link.old) (L.faults link.new) (L.pends link.old) (L.pends link.new)
            (L.wire link.old) (L.wire link.new) (L.prompt link.old) (L.prompt link.new) }
    {
        let mut going = going;
        let done = self.done;
        let length = going.length;
        match going.upload.poll_close(link, &mut going.ids, moment) {
            Step2::Pending => self.moved_to(PutStage::Goes(going), done),
            Step2::Done => self.moved_to(PutStage::Ended(Ended::Gave(length)), done),
            Step2::Failed(error) => self.moved_to(PutStage::Ended(Ended::Failed(error)), done),
        }
    }
}

impl<'a> Kind for PutPlayer<'a> {
    ghost use Rattle.std.specs.Prelude.{◌≡◌, length};
    ghost use Rattle.mg_script.specs.declared.outcome.Outcome.TheVariants as outcomes;
    ghost use Rattle.mg_players.specs.Drawing.{PutDrawsAs, put_draws};
    ghost use Rattle.mg_players.specs.Headline.{PutPlays, put_task};
    ghost use Rattle.mg_players.specs.Losses.{StoringLost};
    ghost use Rattle.mg_players.specs.Progress.{PutAt, PutReady};
    ghost use Rattle.mg_players.specs.Puts.{PutHasIds, PutHolds, put_end, put_ended, put_ticket, writes};
    ghost use Rattle.mg_players.specs.Telling.{PutSays, put_number};

    ghost task = { put_task };

    ghost ticket = { put_ticket };

    ghost ended = { put_ended };

    ghost holds = { λ wire p. PutHolds p };

    ghost is_ready = { λ p. Unit {0} };

    ghost plays = { PutPlays };

    ghost tells = { PutSays };

    ghost number = { λ p. put_number p.done p.stage };

    ghost at = { λ calls p k last. PutAt calls p.stage p.done (length p.what.pieces.now) k last };

    ghost ready_at = { λ calls p k last. PutReady calls p.stage p.done (length p.what.pieces.now) k last };

    ghost draws = { λ p. put_draws p.stage (writes p.what) };

    ghost draws_as = { λ ids p supply t. PutDrawsAs ids p supply };

    ghost has_ids = { λ p. PutHasIds p.stage };

    ghost is_same = { λ p q. q ≡ p };

    ghost says_lost = { λ p. StoringLost p.stage };

    ghost gives = { λ p r. r ≡ outcomes.Put (put_end p.stage) };

    fn anew(&self, _alloc: Global) -> PutPlayer<'a> {
        PutPlayer::new(self.what)
    }

    fn has_ended(&self) -> bool {
        match self.stage {
            PutStage::Undrawn => false,
            PutStage::Begins(_) => false,
            PutStage::Goes(_) => false,
            PutStage::Ended(_) => true,
        }
    }

    fn ticket_number(&self) -> Option<u64> {
        match &self.stage {
            PutStage::Undrawn => None,
            PutStage::Begins(_) => None,
            PutStage::Goes(going) => going.upload.ticket_number(),
            PutStage::Ended(_) => None,
        }
    }

    fn ready<I: IdSource>(&mut self, alloc: Global, ids: &mut I) -> Result<(), Error> {
        self.draw_ids(alloc, ids);
        Ok(())
    }

    fn go<L: Link>(self, alloc: Global, link: &mut L, moment: DateTime) -> PutPlayer<'a> {
        let mut put = self;
        let done = put.done;
        match mem::replace(&mut put.stage, PutStage::Undrawn) {
            PutStage::Undrawn => put,
            PutStage::Begins(begun) => {
                let next = opening(alloc, put.what, begun);
                put.moved_to(next, done)
            }
            PutStage::Goes(going) => put.go_on(link, going, moment),
            PutStage::Ended(ended) => put.moved_to(PutStage::Ended(ended), done),
        }
    }

    fn into_outcome(self, _alloc: Global) -> Result<Outcome, Error> {
        let PutPlayer {
            what: _,
            stage,
            done: _,
        } = self;
        Ok(Outcome::Put(end_of(stage)))
    }
}

/// What a put came to.
fn end_of(stage: PutStage) -> Ended<u64>
    ensures { result ≡ put_end stage }
{
    match stage {
        PutStage::Undrawn => Ended::Unfinished,
        PutStage::Begins(_) => Ended::Unfinished,
        PutStage::Goes(_) => Ended::Unfinished,
        PutStage::Ended(ended) => ended,
    }
}

/// Puts the next stage in the place of the last one, which is let go by this one call.
fn enter(stage: &mut PutStage, next: PutStage)
    ensures { stage.new ≡ next }
{
    *stage = next;
}
