//! What queries, watches and what goes on with them are answered.
ghost use Rattle.std.specs.Prelude.{◌≡◌, ℕ, map, drop, Some, List};
ghost use Rattle.mg_bson.specs.Raw.{fields, items};
ghost use Rattle.mg_bson.specs.Tree.{Fields};
ghost use Rattle.mg_bson.specs.RawView.{value};
ghost use Rattle.mg_link.specs.Namespace.{space};
ghost use Rattle.mg_server.specs.Rules as rules;
ghost use Rattle.mg_server.specs.Commands.{query_by};
ghost use Rattle.mg_server.specs.Query as query;
ghost use Rattle.mg_server.specs.Query.{Query, Stage, of_collection};
ghost use Rattle.mg_server.specs.Rules.{find, id_unless, kill, more, place_at, query_space, size_of};
ghost use Rattle.mg_server.specs.State as state;
ghost use Rattle.mg_server.specs.State.{State, after, watching};
ghost use Rattle.mg_query.specs.Asking.{ids_among};
ghost use Rattle.mg_query.specs.Querying.{doing, held_stage};
ghost use Rattle.mg_query.specs.Wanted.{lent_start};
ghost use Rattle.mg_store.specs.Contents.{IsPlaceByRules, Represents, Settles, beginning, moving, opening_effect, taking};
ghost use Rattle.mg_store.specs.Holding.{IsWatch, entries_from};

use crate::change::{count_before, ended_before, events_from};
use crate::content::{Content, Effect};
use crate::cursor::{Cursor, Found, Source, Watch};
use crate::perform::{Answer, answered};
use crate::token::place_of;
use mg_bson::{Array, Bson, RawArray, RawValue};
use mg_link::Namespace;
use mg_query::{
    LentStart, Plan, Refusal, Stop, batch_from, id_of, is_same_space, reply, through,
    watch_namespace,
};
use std::alloc::Global;
use std::collections::BTreeSet;

/// The documents of a batch where a command asks for no size.
const DEFAULT_BATCH: u64 = 101;

/// What the opening of a watch does: one that ended leaves no cursor.
fn opening_effect(ended: bool, id: i64, cursor: Cursor) -> Effect
    ensures { result ≡ opening_effect ended id cursor }
{
    if ended {
        Effect::Nothing
    } else {
        Effect::Open { id, cursor }
    }
}

/// What a batch does to its cursor, which is gone where the watch ended.
fn moving(ended: bool, id: i64, place: u64) -> Effect
    ensures { result ≡ moving ended id place }
{
    if ended {
        Effect::Close { id }
    } else {
        Effect::Move { id, place }
    }
}

/// The id that a reply has, which is 0 where the cursor ended.
fn id_unless(ended: bool, id: i64) -> i64
    ensures { result ≡ id_unless ended id }
{
    if ended { 0 } else { id }
}

/// The most events of a batch.
fn size_of(batch_size: Option<u64>) -> u64
    ensures { result ≡ size_of batch_size }
{
    batch_size.unwrap_or(DEFAULT_BATCH)
}

/// What the first batch of a query does.
fn beginning(ends: bool, id: i64, found: Found, place: u64) -> Effect
    ensures { result ≡ beginning ends id found place }
{
    if ends {
        return Effect::Nothing;
    }
    let source = Source::Found(found);
    let cursor = Cursor { source, place };
    Effect::Open { id, cursor }
}

/// What a later batch of a query does.
fn taking(is_last: bool, id: i64, count: u64) -> Effect
    ensures { result ≡ taking is_last id count }
{
    if is_last {
        Effect::Close { id }
    } else {
        Effect::Take { id, count }
    }
}

/// The next batch of what a query found, behind the first so many documents.
fn more_of_found(
    alloc: Global,
    id: i64,
    ns: &Namespace,
    found: &Found,
    from: u64,
    batch_size: Option<u64>,
) -> Result<Answer, Stop>
    ensures { (s : State) (given : ℕ) (left : List Fields) → s.cursors id ≡ Some (state.query (space found.now.ns) left) → left ≡ drop from (map fields found.now.documents.items) → Settles s given (more id (space ns.now) batch_size) result }
{
    if !is_same_space(ns, &found.ns) {
        return Err(Stop::Refused(Refusal::BadRequest));
    }
    let size = size_of(batch_size);
    let batch = batch_from(alloc, found.documents.as_slice(), from as usize, size)?;
    let next = id_unless(batch.is_last, id);
    let effect = taking(batch.is_last, id, batch.count);
    let document = reply::found(alloc, next, ns, "nextBatch", batch.documents)?;
    answered(alloc, document, effect)
}

impl Content {
    /// The place that a token names; a watch that ended there is not resumed.
    fn place_after(
        &self,
        alloc: Global,
        watch: &Watch,
        token: &RawValue<'_>,
        resumes: bool,
    ) -> Result<u64, Stop>
        ensures { (s : State) (w : state.Watch) → s.changes ≡ entries_from 0 self.now.changes.items → IsWatch watch.now w → IsPlaceByRules result (place_at s w (after (value token.now)) resumes) }
    {
        let Some(place) = place_of(alloc, token, self.changes.len() as u64)? else {
            return Err(Stop::Refused(Refusal::NoSuchToken));
        };
        if resumes && ended_before(alloc, &self.changes, watch, place)? {
            return Err(Stop::Refused(Refusal::NoSuchToken));
        }
        Ok(place)
    }

    /// The place where a watch opens: the end where it names no start.
    fn place_at(
        &self,
        alloc: Global,
        watch: &Watch,
        start: &LentStart<'_>,
        resumes: bool,
    ) -> Result<u64, Stop>
        ensures { (s : State) (w : state.Watch) → s.changes ≡ entries_from 0 self.now.changes.items → IsWatch watch.now w → IsPlaceByRules result (place_at s w (lent_start start.now) resumes) }
    {
        match start {
            LentStart::Nowhere => Ok(self.changes.len() as u64),
            LentStart::After(token) => self.place_after(alloc, watch, token, resumes),
            LentStart::AtTime(time) => Ok(count_before(&self.changes, *time)),
        }
    }

    pub(crate) fn answer_watch(
        &self,
        alloc: Global,
        watch: Watch,
        start: &LentStart<'_>,
        resumes: bool,
        batch_size: Option<u64>,
    ) -> Result<Answer, Stop>
        ensures { (s : State) (given : ℕ) (w : state.Watch) → Represents self.now s given → IsWatch watch w → Settles s given (rules.watch w (lent_start start.now) resumes batch_size) result }
    {
        let from = self.place_at(alloc, &watch, start, resumes)?;
        let Some(id) = self.given.checked_add(1) else {
            return Err(Stop::Memory);
        };
        let now = reply::time(self.changes.len() as u64);
        let size = size_of(batch_size);
        let batch = events_from(alloc, &self.changes, &watch, from as usize, size)?;
        let (place, ended) = (batch.place, batch.ended);
        let ns = watch_namespace(alloc, &watch.target)?;
        let reply_id = id_unless(ended, id);
        let document = reply::opened(alloc, reply_id, &ns, batch.events, place, now)?;
        let source = Source::Watch(watch);
        let effect = opening_effect(ended, id, Cursor { source, place });
        answered(alloc, document, effect)
    }

    pub(crate) fn answer_get_more(
        &self,
        alloc: Global,
        id: i64,
        ns: &Namespace,
        batch_size: Option<u64>,
    ) -> Result<Answer, Stop>
        ensures { (s : State) (given : ℕ) → Represents self.now s given → Settles s given (more id (space ns.now) batch_size) result }
    {
        let Some(cursor) = self.cursors.get(&id) else {
            return Err(Stop::Refused(Refusal::NoSuchCursor));
        };
        match &cursor.source {
            Source::Watch(watch) => {
                self.more_of_watch(alloc, id, ns, watch, cursor.place, batch_size)
            }
            Source::Found(found) => {
                more_of_found(alloc, id, ns, found, cursor.place, batch_size)
            }
        }
    }

    /// The next batch of a watch.
    fn more_of_watch(
        &self,
        alloc: Global,
        id: i64,
        ns: &Namespace,
        watch: &Watch,
        from: u64,
        batch_size: Option<u64>,
    ) -> Result<Answer, Stop>
        ensures { (s : State) (given : ℕ) (w : state.Watch) → Represents self.now s given → IsWatch watch.now w → s.cursors id ≡ Some (watching w from) → Settles s given (more id (space ns.now) batch_size) result }
    {
        if !is_same_space(ns, &watch_namespace(alloc, &watch.target)?) {
            return Err(Stop::Refused(Refusal::BadRequest));
        }
        let size = size_of(batch_size);
        let batch = events_from(alloc, &self.changes, watch, from as usize, size)?;
        let (place, ended) = (batch.place, batch.ended);
        let left = id_unless(ended, id);
        let document = reply::next_batch(alloc, left, ns, batch.events, place)?;
        answered(alloc, document, moving(ended, id, place))
    }

    /// The first batch of what a query found.
    pub(crate) fn answer_found(
        &self,
        alloc: Global,
        found: Found,
        single: bool,
        batch_size: Option<u64>,
    ) -> Result<Answer, Stop>
        ensures { (s : State) (given : ℕ) (q : Query) → Represents self.now s given → query_space q.source ≡ space found.ns → query.result s q ≡ Some (map fields found.documents.items) → q.single ≡ single → q.size ≡ batch_size → Settles s given (find q) result }
    {
        let Some(id) = self.given.checked_add(1) else {
            return Err(Stop::Memory);
        };
        let size = size_of(batch_size);
        let batch = batch_from(alloc, found.documents.as_slice(), 0, size)?;
        let ends = single || batch.is_last;
        let next = id_unless(ends, id);
        let place = batch.count;
        let document = reply::found(alloc, next, &found.ns, "firstBatch", batch.documents)?;
        answered(alloc, document, beginning(ends, id, found, place))
    }

    pub(crate) fn answer_find(
        &self,
        alloc: Global,
        ns: Namespace,
        plan: &Plan,
    ) -> Result<Answer, Stop>
        ensures { (s : State) (given : ℕ) (stages : List Stage) → Represents self.now s given → map held_stage plan.now.stages.items ≡ map doing stages → Settles s given (find (query_by (of_collection (space ns)) plan.now.single stages plan.now.batch_size)) result }
    {
        let documents = through(alloc, plan.stages.as_slice(), self.collections.get(&ns))?;
        let found = Found { ns, documents };
        self.answer_found(alloc, found, plan.single, plan.batch_size)
    }

    pub(crate) fn answer_kill(&self, alloc: Global, ids: &RawArray<'_>) -> Result<Answer, Stop>
        ensures { (s : State) (given : ℕ) → Represents self.now s given → Settles s given (kill (ids_among (items ids.now))) result }
    {
        let mut killed = Array::new(alloc);
        let mut not_found = Array::new(alloc);
        let mut named = Vec::new(alloc);
        let mut before = BTreeSet::new(alloc);
        let mut left = ids.iter();
        'ids: while let Some(value) = left.next() {
            let Some(id) = id_of(&value) else {
                continue;
            };
            if before.insert(id)? && self.cursors.contains_key(&id) {
                reply::put_item(&mut killed, Bson::Int64(id))?;
            } else {
                reply::put_item(&mut not_found, Bson::Int64(id))?;
            }
            named.push(id)?;
        }
        let document = reply::killed(alloc, killed, not_found)?;
        answered(alloc, document, Effect::Kill { ids: named })
    }
}
