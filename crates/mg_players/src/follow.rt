//! A job that follows changes.
ghost use Rattle.std.specs.Prelude.{◌≡◌, ◌↔◌, ◌-◌, ◌++◌, ◌∷◌, [], IsTrue, None, Some, false, IfErr, IfOk, OnOk};
ghost use Rattle.mg_link.specs.Acts.{IsOut, Tickets};
ghost use Rattle.mg_link.specs.Errors.{plain};
ghost use Rattle.mg_link.specs.declared.error.ErrorKind.TheVariants as kinds;
ghost use Rattle.mg_link.specs.Link.{Later};
ghost use Rattle.mg_change.specs.ClientStreams.{IsAlive, IsBetween, stream_ticket};
ghost use Rattle.mg_change.specs.ClosingStreams.{handed_over, stream_closing_ticket};
ghost use Rattle.mg_change.specs.OpeningView.{IsPlainOpening, ticket_in};
ghost use Rattle.mg_change.specs.StreamView.{IsPlainStream, OwnsToken, stream_of};
ghost use Rattle.mg_ops.specs.Naming.{start_in};
ghost use Rattle.mg_script.specs.Plan.{begin};
ghost use Rattle.mg_players.specs.Follows.{FollowTurns, HasNothing, IsAnswer, IsArgsOf, IsUnfinished, all_changes, begun_options, same_place, stages_of, start_of, token_at};
ghost use Rattle.mg_players.specs.Losses.{FollowLoses};
ghost use Rattle.mg_players.specs.Playing.{HasRoom, IsSameFollow, StageHolds, stage_ticket};
ghost use Rattle.mg_players.specs.Progress.{CloseGoes, FollowAt, FollowGoes, RestGoes, came};
ghost use Rattle.mg_players.specs.Telling.{FollowGoesOn, FollowTells, IsWatchArgs, RestTells, kept};

use crate::kind::Kind;
use mg_bson::{Bson, DateTime, Document};
use mg_change::{ChangeStream, Closing, EventPoll, Opening};
use mg_link::{Action, Error, IdSource, Link, OperationTarget, Step, push_reserved};
use mg_ops::WatchArgs;
use mg_options::{ChangeStreamOptions, ResumeToken, TokenRef};
use mg_script::{Answer, Ended, Outcome, Start};
use std::alloc::Global;
use std::mem;

/// What a follow watches.
#[derive(Clone, Copy)]
pub(crate) struct Watched<'a> {
    pub(crate) target: &'a OperationTarget,
    /// How many calls ask for an event.
    pub(crate) calls: u32,
    pub(crate) start: &'a Start,
    pub(crate) filter: &'a Option<Document>,
    pub(crate) batch_size: Option<u32>,
}

/// The stages behind the one that opens the watch.
fn pipeline_of(alloc: Global, filter: &Option<Document>) -> Result<Vec<Document>, Error>
    ensures stages { IfOk result (λ stages. stages.items ≡ stages_of filter.now) }
    ensures err { IfErr result (λ e. e ≡ plain kinds.OutOfMemory) }
{
    let mut pipeline = Vec::new(alloc);
    if let Some(filter) = filter {
        let mut stage = Document::new(alloc);
        stage.append("$match", Bson::Document(filter.clone()?))?;
        pipeline.push(stage)?;
    }
    Ok(pipeline)
}

/// The options of a watch that begins there.
fn begun_at(start: &Start) -> Result<ChangeStreamOptions, Error>
    ensures starts { IfOk result (λ o. start_in o ≡ Some (start_of (begin start.now))) }
    ensures begun { IfOk result (λ o. o ≡ begun_options (begin start.now)) }
    ensures err { IfErr result (λ e. e ≡ plain kinds.OutOfMemory) }
{
    let mut options = ChangeStreamOptions::builder();
    match start {
        Start::Nowhere => {}
        Start::ResumeAfter(token) => options.resume_after = Some(token.clone()?),
        Start::StartAfter(token) => options.start_after = Some(token.clone()?),
        Start::At(time) => options.start_at_operation_time = Some(*time),
    }
    Ok(options)
}

/// Whether the changes of all databases are asked for.
fn all_changes(target: &OperationTarget) -> Option<bool>
    ensures { result ≡ all_changes (target.now) }
{
    match target {
        OperationTarget::Cluster => Some(true),
        OperationTarget::Database(_) => None,
        OperationTarget::Collection(_) => None,
    }
}

fn watch_args(alloc: Global, watched: Watched<'_>) -> Result<WatchArgs, Error>
    ensures asks { IfOk result (IsArgsOf watched.entry) }
    ensures args { IfOk result (IsWatchArgs watched.entry) }
    ensures err { IfErr result (λ e. e ≡ plain kinds.OutOfMemory) }
{
    let mut options = begun_at(watched.start)?;
    options.batch_size = watched.batch_size;
    options.all_changes_for_cluster = all_changes(watched.target);
    Ok(WatchArgs {
        pipeline: pipeline_of(alloc, watched.filter)?,
        target: watched.target.clone()?,
        options,
    })
}

/// How far the stream of a follow has come.
#[derive(Drop)]
enum Stage {
    Unopened,
    Opens(Opening<Document>),
    Open(ChangeStream<Document>),
    Closes(Closing),
    Ended,
}

/// A follow that goes on.
pub struct FollowPlayer<'a> {
    watched: Watched<'a>,
    stage: Stage,
    /// How many calls are still to ask for an event.
    left: u32,
    opened: Ended<()>,
    answers: Vec<Answer>,
    /// The token after the last answered call, once the stream is closed.
    token: Option<ResumeToken>,
    alive: bool,
    closed: Ended<()>,
}

// By hand, so that letting one go is one call.
impl Drop for FollowPlayer<'_> {
    fn drop(self) {
        let FollowPlayer {
            watched: _,
            stage: _,
            left: _,
            opened: _,
            answers: _,
            token: _,
            alive: _,
            closed: _,
        } = self;
    }
}

impl<'a> FollowPlayer<'a> {
    /// A follow that has sent nothing.
    pub(crate) fn new(alloc: Global, watched: Watched<'a>) -> FollowPlayer<'a>
        ensures stage { result.stage ≡ Stage.Unopened }
        ensures unfinished { IsUnfinished result.opened }
        ensures nothing { HasNothing result }
        ensures watched { result.watched ≡ watched.entry }
        ensures at { FollowAt watched.entry.calls result.stage (came result) 0 false }
    {
        FollowPlayer {
            watched,
            stage: Stage::Unopened,
            left: watched.calls,
            opened: Ended::Unfinished,
            answers: Vec::new(alloc),
            token: None,
            alive: false,
            closed: Ended::Unfinished,
        }
    }

    /// Finds a place for an answer. Nothing is sent, and nothing else changes.
    fn make_room(&mut self) -> Result<(), Error>
        ensures same { IsSameFollow self.old self.new }
        ensures room { OnOk result (HasRoom self.new) }
        ensures err { IfErr result (λ e. e ≡ plain kinds.OutOfMemory) }
    {
        self.answers.reserve(1)?;
        Ok(())
    }

    /// The follow at its next stage.
    fn moved_to(self, next: Stage) -> FollowPlayer<'a>
        ensures { result ≡ record self.entry { stage = next } }
    {
        let mut follow = self;
        enter(&mut follow.stage, next);
        follow
    }

    /// Sends the aggregate that opens the stream.
    fn begin<L: Link>(&mut self, alloc: Global, link: &mut L) -> Stage
        ensures tickets { Tickets (L.awaited link.old) (L.awaited link.new) None (stage_ticket result) }
        ensures holds { StageHolds result }
        ensures turned { FollowGoesOn (L.awaited link.old) (L.awaited link.new) (L.log link.old) (L.log link.new) (L.wire link.old) Stage.Unopened self.old result self.new }
        ensures watched { self.new.watched ≡ self.old.watched }
        ensures lost { FollowLoses (L.faults link.old) (L.faults link.new) (L.pends link.old) (L.pends link.new) self.old self.new }
        ensures comes { FollowGoes (L.pends link.old) (L.pends link.new) Stage.Unopened (came self.old) result (came self.new) }
        ensures later { Later (L.faults link.old) (L.faults link.new) (L.pends link.old) (L.pends link.new)
            (L.wire link.old) (L.wire link.new) (L.prompt link.old) (L.prompt link.new) }
    {
        match watch_args(alloc, self.watched) {
            Ok(args) => self.open(link, Opening::new(alloc, args)),
            Err(error) => {
                note(&mut self.opened, Ended::Failed(error));
                Stage::Ended
            }
        }
    }

    fn open<L: Link>(&mut self, link: &mut L, opening: Opening<Document>) -> Stage
        requires held { IsOut (L.awaited link.old) (ticket_in opening) }
        requires sound { IsPlainOpening opening }
        ensures tickets { Tickets (L.awaited link.old) (L.awaited link.new) (ticket_in opening) (stage_ticket result) }
        ensures holds { StageHolds result }
        ensures turned { FollowGoesOn (L.awaited link.old) (L.awaited link.new) (L.log link.old) (L.log link.new) (L.wire link.old) (Stage.Opens opening) self.old result self.new }
        ensures watched { self.new.watched ≡ self.old.watched }
        ensures lost { FollowLoses (L.faults link.old) (L.faults link.new) (L.pends link.old) (L.pends link.new) self.old self.new }
        ensures comes { FollowGoes (L.pends link.old) (L.pends link.new) (Stage.Opens opening) (came self.old) result (came self.new) }
        ensures later { Later (L.faults link.old) (L.faults link.new) (L.pends link.old) (L.pends link.new)
            (L.wire link.old) (L.wire link.new) (L.prompt link.old) (L.prompt link.new) }
    {
        match opening.poll(link) {
            Step::Pending(opening) => Stage::Opens(opening),
            Step::Done(stream) => {
                note(&mut self.opened, Ended::Gave(()));
                self.alive = stream.is_alive();
                self.go_on(link, stream)
            }
            Step::Failed(error) => {
                note(&mut self.opened, Ended::Failed(error));
                Stage::Ended
            }
        }
    }

    /// Keeps the stream for its next call, or closes it behind its last one.
    fn go_on<L: Link>(&mut self, link: &mut L, stream: ChangeStream<Document>) -> Stage
        requires held { IsOut (L.awaited link.old) (stream_ticket (stream_of stream)) }
        requires sound { IsPlainStream stream }
        requires owned { OwnsToken stream }
        requires rests { IsBetween (stream_of stream) }
        ensures tickets { Tickets (L.awaited link.old) (L.awaited link.new) (stream_ticket (stream_of stream)) (stage_ticket result) }
        ensures holds { StageHolds result }
        ensures turned { FollowTurns (L.awaited link.old) (L.awaited link.new) (L.log link.old) (L.log link.new) (Stage.Open stream) self.old result self.new same_place }
        ensures told { RestTells (L.awaited link.new) (L.log link.old) (L.log link.new) (L.wire link.old) (stream_of stream) (kept self.old) result (kept self.new) }
        ensures watched { self.new.watched ≡ self.old.watched }
        ensures lost { FollowLoses (L.faults link.old) (L.faults link.new) (L.pends link.old) (L.pends link.new) self.old self.new }
        ensures comes { RestGoes (L.pends link.old) (L.pends link.new) (came self.old) result (came self.new) }
        ensures later { Later (L.faults link.old) (L.faults link.new) (L.pends link.old) (L.pends link.new)
            (L.wire link.old) (L.wire link.new) (L.prompt link.old) (L.prompt link.new) }
    {
        if self.left > 0 {
            return Stage::Open(stream);
        }
        let mut closing = stream.close();
        self.token = handed(&mut closing);
        self.close(link, closing)
    }

    /// Asks for an event.
    fn ask<L: Link>(&mut self, link: &mut L, stream: ChangeStream<Document>) -> Stage
        requires held { IsOut (L.awaited link.old) (stream_ticket (stream_of stream)) }
        requires sound { IsPlainStream stream }
        requires owned { OwnsToken stream }
        requires room { HasRoom self.old }
        ensures tickets { Tickets (L.awaited link.old) (L.awaited link.new) (stream_ticket (stream_of stream)) (stage_ticket result) }
        ensures holds { StageHolds result }
        ensures turned { FollowTurns (L.awaited link.old) (L.awaited link.new) (L.log link.old) (L.log link.new) (Stage.Open stream) self.old result self.new same_place }
        ensures told { FollowTells (L.awaited link.old) (L.awaited link.new) (L.log link.old) (L.log link.new) (L.wire link.old) (Stage.Open stream) (kept self.old) result (kept self.new) same_place }
        ensures watched { self.new.watched ≡ self.old.watched }
        ensures lost { FollowLoses (L.faults link.old) (L.faults link.new) (L.pends link.old) (L.pends link.new) self.old self.new }
        ensures comes { FollowGoes (L.pends link.old) (L.pends link.new) (Stage.Open stream) (came self.old) result (came self.new) }
        ensures later { Later (L.faults link.old) (L.faults link.new) (L.pends link.old) (L.pends link.new)
            (L.wire link.old) (L.wire link.new) (L.prompt link.old) (L.prompt link.new) }
    {
        let mut stream = stream;
        match answer_of(stream.poll_next_if_any(link)) {
            Some(answer) => {
                self.take(&stream, answer);
                self.go_on(link, stream)
            }
            None => Stage::Open(stream),
        }
    }

    /// Keeps the answer to a call, for which there is room.
    fn take(&mut self, stream: &ChangeStream<Document>, answer: Answer)
        requires { HasRoom self.old }
        ensures answers { self.new.answers.items ≡ self.old.answers.items ++ answer ∷ [] }
        ensures opened { self.new.opened ≡ self.old.opened }
        ensures token { self.new.token ≡ self.old.token }
        ensures closed { self.new.closed ≡ self.old.closed }
        ensures alive { IsTrue self.new.alive ↔ IsAlive (stream_of stream.now) }
        ensures left { self.new.left ≡ self.old.left - 1 }
        ensures watched { self.new.watched ≡ self.old.watched }
    {
        self.alive = stream.is_alive();
        push_reserved(&mut self.answers, answer);
        self.left = self.left.saturating_sub(1);
    }

    fn close<L: Link>(&mut self, link: &mut L, closing: Closing) -> Stage
        requires held { IsOut (L.awaited link.old) (stream_closing_ticket closing) }
        requires holds { StageHolds (Stage.Closes closing) }
        ensures tickets { Tickets (L.awaited link.old) (L.awaited link.new) (stream_closing_ticket closing) (stage_ticket result) }
        ensures holds { StageHolds result }
        ensures turned { FollowTurns (L.awaited link.old) (L.awaited link.new) (L.log link.old) (L.log link.new) (Stage.Closes closing) self.old result self.new same_place }
        ensures told { FollowTells (L.awaited link.old) (L.awaited link.new) (L.log link.old) (L.log link.new) (L.wire link.old) (Stage.Closes closing) (kept self.old) result (kept self.new) same_place }
        ensures watched { self.new.watched ≡ self.old.watched }
        ensures lost { FollowLoses (L.faults link.old) (L.faults link.new) (L.pends link.old) (L.pends link.new) self.old self.new }
        ensures comes { CloseGoes (L.pends link.old) (L.pends link.new) (came self.old) result (came self.new) }
        ensures later { Later (L.faults link.old) (L.faults link.new) (L.pends link.old) (L.pends link.new)
            (L.wire link.old) (L.wire link.new) (L.prompt link.old) (L.prompt link.new) }
    {
        match closing.poll(link) {
            Step::Pending(closing) => Stage::Closes(closing),
            Step::Done(()) => {
                note(&mut self.closed, Ended::Gave(()));
                Stage::Ended
            }
            Step::Failed(error) => {
                note(&mut self.closed, Ended::Failed(error));
                Stage::Ended
            }
        }
    }
}

impl<'a> Kind for FollowPlayer<'a> {
    ghost use Rattle.std.specs.Prelude.{◌≡◌};
    ghost use Rattle.mg_script.specs.declared.outcome.Outcome.TheVariants as outcomes;
    ghost use Rattle.mg_players.specs.Follows.{token_at};
    ghost use Rattle.mg_players.specs.Headline.{FollowPlays, follow_task};
    ghost use Rattle.mg_players.specs.Losses.{FollowLost};
    ghost use Rattle.mg_players.specs.Playing.{HasRoom, IsSameFollow, StageHolds, follow_ended, stage_ticket};
    ghost use Rattle.mg_players.specs.Progress.{FollowAt, came};
    ghost use Rattle.mg_players.specs.Telling.{FollowSays, kept, number};

    ghost task = { λ p. follow_task p.watched };

    ghost ticket = { λ p. stage_ticket p.stage };

    ghost ended = { λ p. follow_ended p.stage };

    ghost holds = { λ wire p. StageHolds p.stage };

    ghost is_ready = { HasRoom };

    ghost plays = { FollowPlays };

    ghost tells = { FollowSays };

    ghost number = { λ p. number p.stage (kept p) };

    ghost at = { λ calls p k last. FollowAt calls p.stage (came p) k last };

    ghost ready_at = { λ calls p k last. FollowAt calls p.stage (came p) k last };

    ghost draws = { λ p. 0 };

    ghost draws_as = { λ ids p supply t. Unit {0} };

    ghost has_ids = { λ p. Unit {0} };

    ghost is_same = { IsSameFollow };

    ghost says_lost = { λ p. FollowLost p.opened p.answers.items p.closed };

    ghost gives = { λ p r. r ≡ outcomes.Follow p.opened p.answers (token_at p.stage p.token) p.alive p.closed };

    fn anew(&self, alloc: Global) -> FollowPlayer<'a> {
        FollowPlayer::new(alloc, self.watched)
    }

    fn has_ended(&self) -> bool {
        matches!(self.stage, Stage::Ended)
    }

    fn ticket_number(&self) -> Option<u64> {
        match &self.stage {
            Stage::Unopened => None,
            Stage::Opens(opening) => opening.ticket_number(),
            Stage::Open(stream) => stream.ticket_number(),
            Stage::Closes(closing) => closing.ticket_number(),
            Stage::Ended => None,
        }
    }

    fn ready<I: IdSource>(&mut self, _alloc: Global, _ids: &mut I) -> Result<(), Error> {
        self.make_room()
    }

    fn go<L: Link>(self, alloc: Global, link: &mut L, _moment: DateTime) -> FollowPlayer<'a> {
        let mut follow = self;
        let stage = mem::replace(&mut follow.stage, Stage::Ended);
        match stage {
            Stage::Unopened => {
                let next = follow.begin(alloc, link);
                follow.moved_to(next)
            }
            Stage::Opens(opening) => {
                let next = follow.open(link, opening);
                follow.moved_to(next)
            }
            Stage::Open(stream) => {
                let next = follow.ask(link, stream);
                follow.moved_to(next)
            }
            Stage::Closes(closing) => {
                let next = follow.close(link, closing);
                follow.moved_to(next)
            }
            Stage::Ended => follow,
        }
    }

    fn into_outcome(self, _alloc: Global) -> Result<Outcome, Error> {
        let FollowPlayer {
            watched: _,
            stage,
            left: _,
            opened,
            answers,
            token,
            alive,
            closed,
        } = self;
        let token = token_of(stage, token)?;
        Ok(Outcome::Follow {
            opened,
            answers,
            token,
            alive,
            closed,
        })
    }
}

/// The token of a follow at a stage: a copy of its stream's, or the one that was kept. Only memory can fail.
fn token_of(stage: Stage, token: Option<ResumeToken>) -> Result<Option<ResumeToken>, Error>
    ensures token { IfOk result (λ t. t ≡ token_at stage token) }
    ensures err { IfErr result (λ e. e ≡ plain kinds.OutOfMemory) }
{
    match stage {
        Stage::Unopened => Ok(None),
        Stage::Opens(_) => Ok(None),
        Stage::Open(stream) => copied(stream.resume_token()),
        Stage::Closes(_) => Ok(token),
        Stage::Ended => Ok(token),
    }
}

/// A copy of a token that is lent.
fn copied(token: Option<TokenRef<'_>>) -> Result<Option<ResumeToken>, Error>
    ensures token { IfOk result (λ t. t ≡ token.entry) }
    ensures err { IfErr result (λ e. e ≡ plain kinds.OutOfMemory) }
{
    match token {
        Some(token) => Ok(Some(token.to_owned()?)),
        None => Ok(None),
    }
}

/// The token of a stream that is closed, which lies in no event that was lent.
fn handed(closing: &mut Closing) -> Option<ResumeToken>
    requires { closing.old.lent ≡ false }
    ensures token { result ≡ closing.old.token }
    ensures gone { closing.new ≡ handed_over closing.new.cursor.token closing.old }
{
    match closing.hand_over() {
        Ok(token) => token,
        // What is its own is handed over without memory.
        Err(_) => unreachable!(),
    }
}

/// What is kept of a call: nothing while it pends.
fn answer_of(poll: EventPoll) -> Option<Answer>
    ensures { IsAnswer poll result }
{
    match poll {
        EventPoll::Pending => None,
        EventPoll::Ready(Some(event)) => Some(Answer::Event(event)),
        EventPoll::Ready(None) => Some(Answer::Nothing),
        EventPoll::Failed(error) => Some(Answer::Failed(error)),
    }
}

/// Puts the next stage in the place of the last one, which is let go by this one call.
fn enter(stage: &mut Stage, next: Stage)
    ensures { stage.new ≡ next }
{
    *stage = next;
}

fn note(slot: &mut Ended<()>, ended: Ended<()>)
    ensures { slot.new ≡ ended }
{
    *slot = ended;
}
