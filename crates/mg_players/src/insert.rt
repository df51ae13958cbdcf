//! A job that inserts documents.
ghost use Rattle.std.specs.Prelude.{◌≡◌, Bool, List, ℕ, None};
ghost use Rattle.mg_bson.specs.Tree.{Fields};
ghost use Rattle.mg_link.specs.Acts.{IsOut, Tickets};
ghost use Rattle.mg_link.specs.Link.{Later};
ghost use Rattle.mg_link.specs.Namespace.{Space, space};
ghost use Rattle.mg_server.specs.Owner.{PassesPlain};
ghost use Rattle.mg_ops.specs.Drawn.{AreLater, lacking};
ghost use Rattle.mg_players.specs.Drawing.{next_draws};
ghost use Rattle.mg_players.specs.Losses.{EndLoses};
ghost use Rattle.mg_players.specs.Playing.{HasIds, IsPlainInsert, IsPlainJob, IsSameInsert, end_of, inserts_ticket, player_ticket};
ghost use Rattle.mg_players.specs.Progress.{InsertAt, InsertGoes, InsertReady};
ghost use Rattle.mg_players.specs.Telling.{InsertTurns, StageSends, TellsNew, TellsOn};

use crate::kind::Kind;
use mg_bson::{DateTime, Document};
use mg_link::{Action, Error, IdSource, Link, Namespace, Step};
use mg_ops::Inserting;
use mg_script::{Ended, Outcome};
use std::alloc::Global;
use std::mem;

/// How far an insert has come.
#[derive(Drop)]
enum InsertStage<'a> {
    /// It has no ids yet.
    Unsent,
    Goes(Inserting<'a>),
    Ended(Ended<u64>),
}

/// An insert that goes on.
pub struct InsertPlayer<'a> {
    ns: &'a Namespace,
    documents: &'a [Document],
    stage: InsertStage<'a>,
}

// By hand, so that letting one go is one call.
impl Drop for InsertPlayer<'_> {
    fn drop(self) {
        let InsertPlayer {
            ns: _,
            documents: _,
            stage: _,
        } = self;
    }
}

/// An insert with its ids, or its failure.
fn begun<'a, I: IdSource>(
    alloc: Global,
    ids: &mut I,
    ns: &'a Namespace,
    documents: &'a [Document],
) -> InsertStage<'a>
    ensures ticket { inserts_ticket result ≡ None }
    ensures plain { IsPlainInsert result }
    ensures tells { TellsNew (I.ids ids.old) (space ns.now) documents.now result }
    ensures at { (k : ℕ) → k ≡ 0 → InsertReady result k }
    ensures drawn { AreLater (I.ids ids.old) (lacking documents.now) (I.ids ids.new) }
    ensures has { HasIds result }
{
    match Inserting::start(alloc, ids, ns, documents) {
        Ok(inserting) => InsertStage::Goes(inserting),
        Err(error) => InsertStage::Ended(Ended::Failed(error)),
    }
}

impl<'a> InsertStage<'a> {
    /// One turn: the insert goes on until a reply pends, or to its end.
    fn go<L: Link>(self, link: &mut L) -> InsertStage<'a>
        requires { IsOut (L.awaited link.old) (inserts_ticket self) }
        ensures tickets { Tickets (L.awaited link.old) (L.awaited link.new) (inserts_ticket self.entry) (inserts_ticket result) }
        ensures plain { IsPlainInsert self.entry → PassesPlain (L.log link.old) (L.log link.new) × IsPlainInsert result }
        ensures told { (at : Space) (sent : List Fields) → InsertTurns (L.awaited link.old) (L.awaited link.new) (L.log link.old) (L.log link.new) (L.wire link.old) at sent self.entry result }
        ensures sends { (at : Space) (sent : List Fields) → StageSends (L.log link.old) (L.log link.new) at sent self.entry result }
        ensures has { HasIds self.entry → HasIds result }
        ensures lost { EndLoses (L.faults link.old) (L.faults link.new) (end_of self.entry) (end_of result) }
        ensures comes { InsertGoes (L.pends link.old) (L.pends link.new) self.entry result }
        ensures later { Later (L.faults link.old) (L.faults link.new) (L.pends link.old) (L.pends link.new)
            (L.wire link.old) (L.wire link.new) (L.prompt link.old) (L.prompt link.new) }
    {
        match self {
            InsertStage::Unsent => InsertStage::Unsent,
            InsertStage::Goes(inserting) => match inserting.poll(link) {
                Step::Pending(inserting) => InsertStage::Goes(inserting),
                Step::Done(count) => InsertStage::Ended(Ended::Gave(count)),
                Step::Failed(error) => InsertStage::Ended(Ended::Failed(error)),
            },
            InsertStage::Ended(ended) => InsertStage::Ended(ended),
        }
    }
}

impl<'a> InsertPlayer<'a> {
    /// An insert that has sent nothing.
    pub(crate) fn new(ns: &'a Namespace, documents: &'a [Document]) -> InsertPlayer<'a>
        ensures stage { result.stage ≡ InsertStage.Unsent }
        ensures ns { result.ns ≡ ns.entry }
        ensures documents { result.documents ≡ documents.entry }
    {
        InsertPlayer {
            ns,
            documents,
            stage: InsertStage::Unsent,
        }
    }

    /// Draws the ids of an insert that has none yet. Nothing is sent.
    fn draw_ids<I: IdSource>(&mut self, alloc: Global, ids: &mut I)
        ensures ticket { player_ticket self.new ≡ player_ticket self.old }
        ensures plain { IsPlainJob self.old → IsPlainJob self.new }
        ensures at { (k : ℕ) (last : Bool) → InsertAt self.old.stage k last → InsertReady self.new.stage k }
        ensures same { IsSameInsert self.old self.new }
        ensures tells { TellsOn (I.ids ids.old) (space self.old.ns.now) self.old.documents.now self.old.stage self.new.stage }
        ensures drawn { AreLater (I.ids ids.old) (next_draws self.old.stage self.old.documents.now) (I.ids ids.new) }
        ensures has { HasIds self.new.stage }
    {
        match mem::replace(&mut self.stage, InsertStage::Ended(Ended::Unfinished)) {
            InsertStage::Unsent => self.stage = begun(alloc, ids, self.ns, self.documents),
            InsertStage::Goes(inserting) => self.stage = InsertStage::Goes(inserting),
            InsertStage::Ended(ended) => self.stage = InsertStage::Ended(ended),
        }
    }
}

impl<'a> Kind for InsertPlayer<'a> {
    ghost use Rattle.std.specs.Prelude.{◌≡◌};
    ghost use Rattle.mg_script.specs.declared.outcome.Outcome.TheVariants as outcomes;
    ghost use Rattle.mg_players.specs.Drawing.{InsertDrawsAs, next_draws};
    ghost use Rattle.mg_players.specs.Headline.{InsertPlays, insert_task};
    ghost use Rattle.mg_players.specs.Losses.{EndingLost};
    ghost use Rattle.mg_players.specs.Playing.{HasIds, end_of, insert_ended, player_ticket};
    ghost use Rattle.mg_players.specs.Progress.{InsertAt, InsertReady};
    ghost use Rattle.mg_players.specs.Telling.{InsertSays};

    ghost task = { insert_task };

    ghost ticket = { player_ticket };

    ghost ended = { insert_ended };

    ghost holds = { λ wire p. Unit {0} };

    ghost is_ready = { λ p. Unit {0} };

    ghost plays = { InsertPlays };

    ghost tells = { InsertSays };

    ghost number = { λ p. 0 };

    ghost at = { λ calls p k last. InsertAt p.stage k last };

    ghost ready_at = { λ calls p k last. InsertReady p.stage k };

    ghost draws = { λ p. next_draws p.stage p.documents.now };

    ghost draws_as = { λ ids p supply t. InsertDrawsAs ids p t };

    ghost has_ids = { λ p. HasIds p.stage };

    ghost is_same = { λ p q. q ≡ p };

    ghost says_lost = { λ p. EndingLost (end_of p.stage) };

    ghost gives = { λ p r. r ≡ outcomes.Insert (end_of p.stage) };

    fn anew(&self, _alloc: Global) -> InsertPlayer<'a> {
        InsertPlayer::new(self.ns, self.documents)
    }

    fn has_ended(&self) -> bool {
        match self.stage {
            InsertStage::Unsent => false,
            InsertStage::Goes(_) => false,
            InsertStage::Ended(_) => true,
        }
    }

    fn ticket_number(&self) -> Option<u64> {
        match &self.stage {
            InsertStage::Unsent => None,
            InsertStage::Goes(inserting) => inserting.ticket_number(),
            InsertStage::Ended(_) => None,
        }
    }

    fn ready<I: IdSource>(&mut self, alloc: Global, ids: &mut I) -> Result<(), Error> {
        self.draw_ids(alloc, ids);
        Ok(())
    }

    fn go<L: Link>(self, _alloc: Global, link: &mut L, _moment: DateTime) -> InsertPlayer<'a> {
        let InsertPlayer {
            ns,
            documents,
            stage,
        } = self;
        InsertPlayer {
            ns,
            documents,
            stage: stage.go(link),
        }
    }

    fn into_outcome(self, _alloc: Global) -> Result<Outcome, Error> {
        let InsertPlayer {
            ns: _,
            documents: _,
            stage,
        } = self;
        match stage {
            InsertStage::Unsent => Ok(Outcome::Insert(Ended::Unfinished)),
            InsertStage::Goes(_) => Ok(Outcome::Insert(Ended::Unfinished)),
            InsertStage::Ended(ended) => Ok(Outcome::Insert(ended)),
        }
    }
}
