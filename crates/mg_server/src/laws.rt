//! What holds of the definitions.
ghost use Rattle.std.specs.Prelude.{◌≡◌, ◌⊎◌, ◌+◌, ◌<◌, ◌≤◌, ◌^◌, ◌++◌, ℕ, suc, ℤ, pos, Bool, Some, List, [], ◌∷◌, length, slice_get, take, codes};
ghost use Rattle.std.specs.List.{concat};
ghost use Rattle.mg_bson.specs.Raw.{fields};
ghost use Rattle.mg_bson.specs.Tree.{Fields, Tree};
ghost use Rattle.mg_server.specs.Batches.{IsFullBatch};
ghost use Rattle.mg_server.specs.Commands.{Batch, asked, asks_watch};
ghost use Rattle.mg_server.specs.Events.{AsksForEvents, HaveIds, TellsItsInserts, events_in};
ghost use Rattle.mg_server.specs.Example.{IsExample, IsStep, asks_more, gave_two, inserted_two, inserts_two, killed, kills, opened, opens};
ghost use Rattle.mg_link.specs.Chunks.{HaveSize, chunked};
ghost use Rattle.mg_server.specs.Files.{Bucket, IsQuiet, IsWhole, LeavesFile, LeavesThose, Spares, chunks_space, file_of, files_space, has_value};
ghost use Rattle.mg_server.specs.Filter.{Condition};
ghost use Rattle.mg_server.specs.Follow.{Follow, FollowsOn, IsOpen, Knows, Reads, holding, owner_of};
ghost use Rattle.mg_server.specs.History.{IsLegal, OpensAt, Reached, Step, opening, state_of, told_at, view_of};
ghost use Rattle.mg_server.specs.Kept.{IsAllowed, IsByRules, IsStoreState, Kept, given_of, is_started, made_of, state_behind, state_of_kept, steps_of, told_kept};
ghost use Rattle.mg_link.specs.Log.{Call, see, waiting};
ghost use Rattle.mg_link.specs.Namespace.{Space};
ghost use Rattle.mg_server.specs.NineBytes.{bucket, holds_file, nine_bytes, seven};
ghost use Rattle.mg_server.specs.Owner.{NamesItsOwn, Onward};
ghost use Rattle.mg_server.specs.Prompt.{AnswersAtOnce, HoldsBackNone, IsRefused, MeetsConcern};
ghost use Rattle.mg_server.specs.Query.{Key, sorted};
ghost use Rattle.mg_server.specs.Reader.{HasGiven, KnowsRead, Reader, owner_of_reader};
ghost use Rattle.mg_server.specs.Rules.{IsFull, answer_of, batch_of_query, batch_place, refusal};
ghost use Rattle.mg_server.specs.RuleRows.{AreCollections, AreInserts, AreQueries, AreWrites};
ghost use Rattle.mg_server.specs.Sorting.{SortsTo};
ghost use Rattle.mg_server.specs.Standing.{IsSelfMade, Stands, history_before};
ghost use Rattle.mg_server.specs.State.{Entry, Start, State, Watch, after, deletes, events_between, updates};
ghost use Rattle.mg_server.specs.Step.{May};
ghost use Rattle.mg_server.specs.Worked.{IsStepOf, IsWorked, adds, deleted_one, deletes_second, dropped, drops_all, entry_of, finds_all, finds_more, found_last, found_two, gave_four, inserts_three, opened_watch, opens_watch, t_4, t_5, three_inserts, two_drops, updated_one, updates_first, watches_more, wrote_three};

/// Later steps add entries, and move none.
pub fn entries_grow()
    ensures { (before later : List Step) → (more : List Entry) × ((state_of (before ++ later)).changes ≡ (state_of before).changes ++ more) }
{}

/// What a watch is to see of more entries begins with what it is to see of fewer.
pub fn view_grows()
    ensures { (w : Watch) (entries more : List Entry) (from : ℕ) → from ≤ length entries
        → events_between w (entries ++ more) from (length (entries ++ more))
        ≡ events_between w entries from (length entries) ++ events_between w more 0 (length more) }
{}

/// However far a history has grown, what a follow is to see stays: its view in a history is a prefix of its view in each
/// longer one, and an aggregate that stands in the history opened its watch at the same place in both.
pub fn longer_histories_agree()
    ensures view { (history more : List Step) (w : Watch) (from : ℕ) → (later : List Fields) × (view_of (history ++ more) w from ≡ view_of history w from ++ later) }
    ensures opening { (history more : List Step) (position : ℕ) (start : Start) → position < length history
        → opening (history ++ more) position start ≡ opening history position start }
{}

/// Where a follow reached a token, a new watch behind this token opens at the place reached, in every longer history, or
/// the server refuses it. What was answered, and behind it what the new watch is to see, is the whole view of the follow.
pub fn resumption_loses_nothing()
    ensures place { (history more : List Step) (w : Watch) (from : ℕ) (events : List Fields) (token : Tree) (position : ℕ) (step : Step)
        → IsLegal (history ++ more) → (r : Reached (state_of history) w from events token)
        → slice_get (history ++ more) position ≡ Some step → asked step.command ≡ asks_watch w (after token)
        → OpensAt (history ++ more) position (after token) r.place (told_at step) }
    ensures view { (history more : List Step) (w : Watch) (from : ℕ) (events : List Fields) (token : Tree)
        → IsLegal (history ++ more) → (r : Reached (state_of history) w from events token)
        → view_of (history ++ more) w from ≡ events ++ view_of (history ++ more) w r.place }
{}

/// Over a legal history no event is without `_id`: neither in a view, nor in a reply to an aggregate of a watch or a
/// getMore of one, nor in the batch that is read of it, nor in what a stream has in hand.
pub fn events_have_ids()
    ensures views { (history : List Step) (w : Watch) (from upto : ℕ) → IsLegal history → HaveIds (events_between w (state_of history).changes from upto) }
    ensures replies { (history : List Step) (position : ℕ) (step : Step) → IsLegal history → slice_get history position ≡ Some step
        → AsksForEvents (state_of (take position history)) (asked step.command) → HaveIds (events_in (told_at step)) }
    ensures batches { (history : List Step) (position : ℕ) (step : Step) (batch : Batch) → IsLegal history → slice_get history position ≡ Some step
        → AsksForEvents (state_of (take position history)) (asked step.command) → Reads step.reply batch → HaveIds batch.events }
    ensures streams { (calls : List Call) (f : Follow) (history : List Step) → f.doing ≡ holding → Knows calls f → IsLegal history → Stands calls history → HaveIds f.ahead }
{}

/// Where a log stands in a legal history, each front of the log stands in a legal front of the history: in what came
/// before the first step of the calls that are left out.
pub fn front_stands()
    ensures { (calls later : List Call) (history : List Step) → IsLegal history → Stands (calls ++ later) history
        → IsLegal (history_before later history) × Stands calls (history_before later history) }
{}

/// Where each call of a log names cursors that the front before it saw given, the whole log names its own in every legal
/// history in which it stands.
pub fn whole_log_is_self_made()
    ensures { (calls : List Call) (history : List Step) → NamesItsOwn calls → IsLegal history → Stands calls history → IsSelfMade calls }
{}

/// A log stands where it stood, also with less seen.
pub fn unseen_stands()
    ensures { (calls : List Call) (history : List Step) (place : ℕ) → Stands calls history → Stands (see place waiting calls) history }
{}

/// What the store in memory answers by its rules is a reply that a server may give. `s` is a state of a store that gave
/// `given` ids to cursors, and `started` says whether it took a step before. The step adds what the store's history has
/// it add, and fewer than 2^64 entries stand behind it. Then the store is in such a state again.
pub fn rules_are_allowed()
    ensures { (s : State) (given : ℕ) (started : Bool) (kept : Kept) → IsStoreState s given started
        → length s.changes + length (made_of s given started kept).entries < 2 ^ 64
        → fields kept.reply ≡ (answer_of s (pos (suc given)) (fields kept.command)).reply
        → IsAllowed s given started kept }
{}

/// So is any refusal, also where the rules would answer otherwise.
pub fn refusal_is_allowed()
    ensures { (s : State) (given : ℕ) (started : Bool) (kept : Kept) (code : ℤ) (labels : List (List ℕ))
        → IsStoreState s given started
        → length s.changes + length (made_of s given started kept).entries < 2 ^ 64
        → fields kept.reply ≡ refusal code labels
        → IsAllowed s given started kept }
{}

/// What a store kept of its steps is a legal history where each reply is that of the rules or a refusal that somebody
/// chose, and the store ends in a state of a store. Fewer than 2^64 entries stand at the end.
pub fn kept_is_legal()
    ensures { (kept : List Kept) → IsByRules kept → length (state_of_kept kept).changes < 2 ^ 64
        → IsLegal (steps_of kept) × IsStoreState (state_of_kept kept) (given_of kept) (is_started kept) }
{}

/// What the store answers by its rules holds nothing back, and meets its write concern, unless it refuses: so a batch of a
/// watch or of a query is empty only where nothing is left, a cursor ends only behind an invalidate event or the last
/// document, and a write lists no failures but those of the rules.
pub fn rules_answer_at_once()
    ensures { (s : State) (given : ℕ) (started : Bool) (kept : Kept) → IsStoreState s given started
        → length s.changes + length (made_of s given started kept).entries < 2 ^ 64
        → fields kept.reply ≡ (answer_of s (pos (suc given)) (fields kept.command)).reply
        → IsRefused (told_kept kept) ⊎ (AnswersAtOnce s (state_behind s given started kept) (asked kept.command) (told_kept kept) × MeetsConcern (asked kept.command) kept.reply) }
{}

/// So a store that keeps to its rules, but for refusals that somebody chose, holds nothing back from a caller none of whose
/// steps was refused.
pub fn kept_holds_nothing_back()
    ensures { (kept : List Kept) → IsByRules kept → length (state_of_kept kept).changes < 2 ^ 64 → HoldsBackNone (steps_of kept) }
{}

/// In such a history the events of inserts tell more than legal histories must: their kind, where the document stands, and
/// the document.
pub fn kept_tells_its_inserts()
    ensures { (kept : List Kept) → IsByRules kept → length (state_of_kept kept).changes < 2 ^ 64 → TellsItsInserts (steps_of kept) }
{}

/// The first script, as `specs/Example` has it: the history of its four steps leads to the states that it should.
pub fn first_script()
    ensures { (a b c d : Kept) → IsStep opens opened a → IsStep inserts_two inserted_two b → IsStep asks_more gave_two c → IsStep kills killed d
        → IsExample (steps_of (a ∷ b ∷ c ∷ d ∷ [])) }
{}

/// The second script, as `specs/Worked` has it: a legal history with a find of two batches, an update, a delete and a drop,
/// and a watch that sees them and ends.
pub fn second_script()
    ensures { (a b c d e f g h : Step) → IsStepOf inserts_three wrote_three (adds three_inserts 3) a
        → IsStepOf opens_watch opened_watch (adds [] 3) b → IsStepOf finds_all found_two (adds [] 3) c
        → IsStepOf updates_first updated_one (adds (entry_of t_4 4 updates ∷ []) 4) d
        → IsStepOf finds_more found_last (adds [] 4) e
        → IsStepOf deletes_second deleted_one (adds (entry_of t_5 5 deletes ∷ []) 5) f
        → IsStepOf drops_all dropped (adds two_drops 7) g → IsStepOf watches_more gave_four (adds [] 7) h
        → IsWorked (a ∷ b ∷ c ∷ d ∷ e ∷ f ∷ g ∷ h ∷ []) }
{}

/// What an open stream knows says what it answered: in every legal history in which the log stands, the first events of
/// its view from the opening place on, and just those up to the place that its token names.
pub fn streams_follow()
    ensures { (calls : List Call) (f : Follow) → IsOpen f.doing → Knows calls f → FollowsOn calls f }
{}

/// A stream goes on knowing while others call and leave its cursors alone.
pub fn streams_go_on_knowing()
    ensures { (calls calls' : List Call) (f : Follow) → Onward calls calls' (owner_of f) → Knows calls f → Knows calls' f }
{}

/// What the reader of a query's result knows says what it gave: in every legal history in which the log stands, the first
/// documents of the result as it was fixed, without those of at most so many lost batches.
pub fn readers_give()
    ensures { (calls : List Call) (r : Reader) → KnowsRead calls r → HasGiven calls r }
{}

/// A reader goes on knowing while others call and leave its cursor alone.
pub fn readers_go_on_knowing()
    ensures { (calls calls' : List Call) (r : Reader) → Onward calls calls' (owner_of_reader r) → KnowsRead calls r → KnowsRead calls' r }
{}

/// A batch of a query holds as many documents as its size and its bytes allow: at least one where one is left and its size is
/// not 0, and one more would pass its size or its bytes.
pub fn batches_are_full()
    ensures { (size : ℕ) (ds : List Fields) → IsFull size ds (batch_of_query size ds) }
{}

/// So does a batch of a watch, of what the watch is to see. Where its size is not 0, it ends at the end of the list of
/// changes, or right behind an entry that it gives; there it has as many as its size, or the next would pass its bytes, or
/// that entry ends the watch.
pub fn watch_batches_are_full()
    ensures { (w : Watch) (changes : List Entry) (from size : ℕ) → from ≤ length changes → IsFullBatch w changes from size (batch_place w changes from size) }
{}

/// Sorted documents are the same documents, in the order of the keys, and those that are equal by the keys keep their order.
pub fn sorted_by_keys()
    ensures { (keys : List Key) (ds : List Fields) → SortsTo keys ds (sorted keys ds) }
{}

/// What the store's rules answer to updates, deletes, creates, indexes, drops and queries over two documents, as written out.
pub fn rules_by_rows()
    ensures inserts { AreInserts }
    ensures writes { AreWrites }
    ensures collections { AreCollections }
    ensures queries { AreQueries }
{}

/// The chunks of a file are its bytes, in order. Each but the last has the size that was asked for, and the last has at
/// least one byte.
pub fn chunks_are_the_bytes()
    ensures join { (size : ℕ) (bytes : List ℕ) → concat (chunked size bytes) ≡ bytes }
    ensures sizes { (size : ℕ) (bytes : List ℕ) → 0 < size → HaveSize size (chunked size bytes) }
{}

/// A file of nine bytes in chunks of four is whole, also where its chunks were not inserted in their order.
pub fn nine_bytes_are_whole()
    ensures { IsWhole holds_file bucket seven nine_bytes 4 }
{}

/// A command leaves the documents that it spares: one that reads, one about other collections, and a write that is for none
/// that meets the condition. So it leaves a file whose record and chunks it spares. Where no step of a stretch of a history
/// changes a file, it stays so over the stretch.
pub fn spared_files_stay()
    ensures documents { (s : State) (step : Step) (space : Space) (c : Condition)
        → May s (asked step.command) (told_at step) step.made → Spares (asked step.command) space c → LeavesThose s step space c }
    ensures parts { (s : State) (step : Step) (b : Bucket) (id : Tree) → LeavesThose s step (files_space b) (has_value (codes "_id") id)
        → LeavesThose s step (chunks_space b) (has_value (codes "files_id") id) → LeavesFile s step b id }
    ensures quiet { (history : List Step) (b : Bucket) (id : Tree) (from upto : ℕ) → from ≤ upto → upto < length history
        → IsQuiet history [] b id from upto
        → file_of (state_of (take (suc upto) history)) b id ≡ file_of (state_of (take from history)) b id }
{}
