//! A job of any kind: each arm only hands on to its kind.
ghost use Rattle.std.specs.Prelude.{false};
ghost use Rattle.mg_script.specs.Plan.{task};
ghost use Rattle.mg_players.specs.Headline.{Does, IsFirst};
ghost use Rattle.mg_players.specs.Progress.{IsAt, calls_of};
ghost use Rattle.mg_players.specs.Runs.{IsNew};

use crate::follow::{FollowPlayer, Watched};
use crate::get::{GetPlayer, Sought};
use crate::insert::InsertPlayer;
use crate::kind::Kind;
use crate::put::{PutPlayer, Written};
use mg_bson::DateTime;
use mg_link::{Error, IdSource, Link};
use mg_script::{Job, Outcome};
use std::alloc::Global;

/// A job that goes on.
pub enum Player<'a> {
    Insert(InsertPlayer<'a>),
    Follow(FollowPlayer<'a>),
    Put(PutPlayer<'a>),
    Get(GetPlayer<'a>),
}

// By hand, so that letting one go is one call.
impl Drop for Player<'_> {
    fn drop(self) {
        match self {
            Player::Insert(_) => {}
            Player::Follow(_) => {}
            Player::Put(_) => {}
            Player::Get(_) => {}
        }
    }
}

impl<'a> Player<'a> {
    /// A job that has done nothing.
    pub fn new(alloc: Global, job: &'a Job) -> Player<'a>
        ensures new { IsNew result }
        ensures first { IsFirst result }
        ensures task { Does (task job.now) result }
        ensures at { IsAt (calls_of (task job.now)) result 0 false }
    {
        match job {
            Job::Insert { ns, docs } => Player::Insert(InsertPlayer::new(ns, docs.as_slice())),
            Job::Follow {
                target,
                calls,
                start,
                filter,
                batch,
            } => {
                let watched = Watched {
                    target,
                    calls: *calls,
                    start,
                    filter,
                    batch_size: *batch,
                };
                Player::Follow(FollowPlayer::new(alloc, watched))
            }
            Job::Put {
                db,
                bucket,
                name,
                id,
                chunk,
                pieces,
            } => {
                let written = Written::new(db, bucket, name, id, *chunk, pieces.as_slice());
                Player::Put(PutPlayer::new(written))
            }
            Job::Get {
                db,
                bucket,
                id,
                read,
            } => {
                let sought = Sought::new(db, bucket, id, *read);
                Player::Get(GetPlayer::new(alloc, sought))
            }
        }
    }
}

impl<'a> Kind for Player<'a> {
    ghost use Rattle.mg_players.specs.Drawing.{DrawsAs, JobHasIds, turn_draws};
    ghost use Rattle.mg_players.specs.Headline.{OutcomeOf, Plays, task_of};
    ghost use Rattle.mg_players.specs.Losses.{JobLost};
    ghost use Rattle.mg_players.specs.Playing.{job_ticket};
    ghost use Rattle.mg_players.specs.Progress.{IsAt, IsReadyAt};
    ghost use Rattle.mg_players.specs.Runs.{IsReady, IsSameJob, JobHolds, has_ended};
    ghost use Rattle.mg_players.specs.Telling.{JobTells, number_of};

    ghost task = { task_of };

    ghost ticket = { job_ticket };

    ghost ended = { has_ended };

    ghost holds = { JobHolds };

    ghost is_ready = { IsReady };

    ghost plays = { Plays };

    ghost tells = { JobTells };

    ghost number = { number_of };

    ghost at = { IsAt };

    ghost ready_at = { IsReadyAt };

    ghost draws = { turn_draws };

    ghost draws_as = { DrawsAs };

    ghost has_ids = { JobHasIds };

    ghost is_same = { IsSameJob };

    ghost says_lost = { JobLost };

    ghost gives = { OutcomeOf };

    fn anew(&self, alloc: Global) -> Player<'a> {
        match self {
            Player::Insert(job) => Player::Insert(job.anew(alloc)),
            Player::Follow(job) => Player::Follow(job.anew(alloc)),
            Player::Put(job) => Player::Put(job.anew(alloc)),
            Player::Get(job) => Player::Get(job.anew(alloc)),
        }
    }

    fn has_ended(&self) -> bool {
        match self {
            Player::Insert(job) => job.has_ended(),
            Player::Follow(job) => job.has_ended(),
            Player::Put(job) => job.has_ended(),
            Player::Get(job) => job.has_ended(),
        }
    }

    fn ticket_number(&self) -> Option<u64> {
        match self {
            Player::Insert(job) => job.ticket_number(),
            Player::Follow(job) => job.ticket_number(),
            Player::Put(job) => job.ticket_number(),
            Player::Get(job) => job.ticket_number(),
        }
    }

    fn ready<I: IdSource>(&mut self, alloc: Global, ids: &mut I) -> Result<(), Error> {
        match self {
            Player::Insert(job) => job.ready(alloc, ids),
            Player::Follow(job) => job.ready(alloc, ids),
            Player::Put(job) => job.ready(alloc, ids),
            Player::Get(job) => job.ready(alloc, ids),
        }
    }

    fn go<L: Link>(self, alloc: Global, link: &mut L, moment: DateTime) -> Player<'a> {
        match self {
            Player::Insert(job) => Player::Insert(job.go(alloc, link, moment)),
            Player::Follow(job) => Player::Follow(job.go(alloc, link, moment)),
            Player::Put(job) => Player::Put(job.go(alloc, link, moment)),
            Player::Get(job) => Player::Get(job.go(alloc, link, moment)),
        }
    }

    fn into_outcome(self, alloc: Global) -> Result<Outcome, Error> {
        match self {
            Player::Insert(job) => job.into_outcome(alloc),
            Player::Follow(job) => job.into_outcome(alloc),
            Player::Put(job) => job.into_outcome(alloc),
            Player::Get(job) => job.into_outcome(alloc),
        }
    }
}
