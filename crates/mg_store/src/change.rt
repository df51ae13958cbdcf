//! The list of changes.
ghost use Rattle.std.specs.Prelude.{◌≡◌, ◌<◌, ◌^◌, ℕ, IfOk};
ghost use Rattle.mg_bson.specs.Raw.{fields};
ghost use Rattle.mg_bson.specs.Tree.{document};
ghost use Rattle.mg_bson.specs.View.{tree};
ghost use Rattle.mg_link.specs.Namespace.{space, target};
ghost use Rattle.mg_server.specs.Rules.{dropped_entries, ended_before};
ghost use Rattle.mg_server.specs.State as state;
ghost use Rattle.mg_server.specs.State.{count_before, is_invalidate, is_of, time_of};
ghost use Rattle.mg_query.specs.Selecting.{selecting};
ghost use Rattle.mg_store.specs.Holding.{AreExact, GivesBatch, IsEntryOf, IsWatch, IsWatchOf, change_told, entries_from, entry_at};

use crate::cursor::Watch;
use mg_bson::{Array, Bson, Document, RawDocumentBuf, Timestamp};
use mg_link::{Namespace, OperationTarget, OutOfMemory};
use mg_query::reply::{put_item, time};
use mg_query::{
    MAX_BATCH, Selection, dropped_event, encoded, invalidate_event, is_same_space, text_at, tree_of,
};
use std::alloc::Global;

/// One change, as watches see it. Its token, its time and its kind stand in its event.
pub struct ChangeEntry {
    /// The collection that changed.
    pub ns: Namespace,
    /// The event, as it is handed out.
    pub event: RawDocumentBuf,
}

// By hand, so that letting one go is one call.
impl Drop for ChangeEntry {
    fn drop(self) {
        let ChangeEntry { ns: _, event: _ } = self;
    }
}

/// The events of a batch, the place behind it, and whether the watch ends with it.
#[derive(Drop)]
pub(crate) struct Events {
    pub(crate) events: Array,
    pub(crate) place: u64,
    pub(crate) ended: bool,
}

impl Events {
    fn new(events: Array, place: u64, ended: bool) -> Events
        ensures events { result.events ≡ events }
        ensures place { result.place ≡ place }
        ensures ended { result.ended ≡ ended }
    {
        Events {
            events,
            place,
            ended,
        }
    }
}

/// Whether the entry is one by which watches of its collection end.
fn is_invalidate(entry: &ChangeEntry) -> bool
    ensures { result ≡ is_invalidate (change_told (fields entry.now.event)) }
{
    match text_at(&entry.event.as_raw(), "operationType") {
        Some(kind) => kind == "invalidate",
        None => false,
    }
}

/// Whether the entry belongs to the target.
fn is_of(aimed: &OperationTarget, entry: &ChangeEntry) -> bool
    ensures { (place : ℕ) → result ≡ is_of (target aimed.now) (entry_at place entry.now) }
{
    match aimed {
        OperationTarget::Collection(ns) => is_same_space(ns, &entry.ns),
        OperationTarget::Database(db) => !is_invalidate(entry) && *db == entry.ns.db,
        OperationTarget::Cluster => !is_invalidate(entry),
    }
}

/// Whether a watch of this target and of what is selected is to see the entry.
fn sees(
    alloc: Global,
    aimed: &OperationTarget,
    selection: &Selection<'_>,
    entry: &ChangeEntry,
) -> Result<bool, OutOfMemory>
    ensures { IfOk result (λ b. (w : state.Watch) (place : ℕ) → IsWatchOf (target aimed.now) (selecting selection.now) w → b ≡ state.sees w (entry_at place entry.now)) }
{
    if is_of(aimed, entry) {
        selection.admits(alloc, &entry.event.as_raw())
    } else {
        Ok(false)
    }
}

/// The number by which times are ordered.
fn number_of(at: Timestamp) -> u64
    ensures { result ≡ time_of at.time at.increment }
{
    u64::from(at.time) * 4_294_967_296 + u64::from(at.increment)
}

/// How many entries have a time below this.
pub(crate) fn count_before(changes: &[ChangeEntry], at: Timestamp) -> u64
    ensures { result ≡ count_before (time_of at.time at.increment) (entries_from 0 changes.now) }
{
    let bound = number_of(at);
    let mut below = 0;
    for place in 0..changes.len() {
        if number_of(time(place as u64 + 1)) < bound {
            below += 1;
        }
    }
    below
}

/// Whether the watch ended with the last entry before the place.
pub(crate) fn ended_before(
    alloc: Global,
    changes: &[ChangeEntry],
    watch: &Watch,
    place: u64,
) -> Result<bool, OutOfMemory>
    ensures { IfOk result (λ b. (w : state.Watch) → IsWatch watch.now w → b ≡ ended_before w (entries_from 0 changes.now) place) }
{
    if place == 0 || place as usize > changes.len() {
        return Ok(false);
    }
    let entry = &changes[place as usize - 1];
    if is_invalidate(entry) {
        let selection = Selection::new(alloc, &watch.filter)?;
        sees(alloc, &watch.target, &selection, entry)
    } else {
        Ok(false)
    }
}

/// The event of an entry, as a tree.
fn event_of(alloc: Global, entry: &ChangeEntry) -> Result<Bson, OutOfMemory>
    ensures { IfOk result (λ e. tree e ≡ document (fields entry.now.event)) }
{
    let event = tree_of(alloc, entry.event.as_raw())?;
    Ok(Bson::Document(event))
}

/// The events that a watch sees from a place on: at most so many, and not more than fit a batch, and none behind an
/// invalidate entry. A batch that ended before the changes did ends behind its last entry.
pub(crate) fn events_from(
    alloc: Global,
    changes: &[ChangeEntry],
    watch: &Watch,
    from: usize,
    size: u64,
) -> Result<Events, OutOfMemory>
    ensures { IfOk result (λ r. (w : state.Watch) → IsWatch watch.now w → AreExact changes.now → GivesBatch w (entries_from 0 changes.now) from size r) }
{
    let selection = Selection::new(alloc, &watch.filter)?;
    let mut events = Array::new(alloc);
    let mut behind = from as u64;
    let mut room = MAX_BATCH;
    let mut left = size;
    for place in from..changes.len() {
        if left == 0 {
            return Ok(Events::new(events, behind, false));
        }
        let entry = &changes[place];
        if sees(alloc, &watch.target, &selection, entry)? {
            let len = entry.event.as_bytes().len();
            if left < size && room < len {
                return Ok(Events::new(events, behind, false));
            }
            put_item(&mut events, event_of(alloc, entry)?)?;
            behind = place as u64 + 1;
            if is_invalidate(entry) {
                return Ok(Events::new(events, behind, true));
            }
            room = room.saturating_sub(len);
            left -= 1;
        }
    }
    let place = if left == 0 {
        behind
    } else {
        changes.len() as u64
    };
    Ok(Events::new(events, place, false))
}

/// The entry of an event that can be encoded.
pub(crate) fn entry_of(
    alloc: Global,
    ns: &Namespace,
    event: &Document,
) -> Result<ChangeEntry, OutOfMemory>
    ensures { IfOk result (IsEntryOf (space ns.now) event.now) }
{
    let ns = ns.clone()?;
    let event = encoded(alloc, event)?;
    Ok(ChangeEntry { ns, event })
}

/// The entries of a drop behind so many others: that the collection was dropped, and that watches of it end.
pub(crate) fn dropped_entries(
    alloc: Global,
    place: u64,
    ns: &Namespace,
) -> Result<Vec<ChangeEntry>, OutOfMemory>
    requires { place < 2 ^ 63 }
    ensures these { IfOk result (λ es. entries_from place es.items ≡ dropped_entries place (space ns.now)) }
    ensures exact { IfOk result (λ es. AreExact es.items) }
{
    let event = dropped_event(alloc, place + 1, ns)?;
    let dropped = entry_of(alloc, ns, &event)?;
    let event = invalidate_event(alloc, place + 2)?;
    let ended = entry_of(alloc, ns, &event)?;
    let mut entries = Vec::new(alloc);
    entries.push(dropped)?;
    entries.push(ended)?;
    Ok(entries)
}
