//! What the commands of operations ask a server for, whatever their session, and what it tells by their replies, for the
//! proofs of callers.
ghost use Rattle.std.specs.Prelude.{◌≡◌, ℕ, ℤ, pos, Bool, List, [], ◌∷◌, Option, Some, None, Ok};
ghost use Rattle.mg_bson.specs.Tree.{Tree, Fields};
ghost use Rattle.mg_bson.specs.Raw.{fields};
ghost use Rattle.mg_link.specs.Namespace.{as_database, Space, Target, collection};
ghost use Rattle.mg_server.specs.Commands.{asked, asks_create, asks_delete, asks_drop, asks_indexes, asks_insert, asks_kill, asks_more, asks_query, asks_update, deleted, documents_in, done, gave, inserted, modification_of, opened, pipeline_of, time_in, told, updated};
ghost use Rattle.mg_server.specs.Filter.{Condition, conditions_of};
ghost use Rattle.mg_server.specs.Query.{Query, Stage};
ghost use Rattle.mg_link.specs.Reply.{verdict_of};
ghost use Rattle.mg_link.specs.Session.{Session};
ghost use Rattle.mg_server.specs.State.{Index};
ghost use Rattle.mg_server.specs.Write.{Modification};
ghost use Rattle.mg_link.specs.declared.concern.WriteConcern.{WriteConcern};
ghost use Rattle.mg_link.specs.declared.reply.Verdict.TheVariants as verdict;
ghost use Rattle.mg_options.specs.Conversions.{aggregate_of_watch};
ghost use Rattle.mg_options.specs.declared.aggregate.AggregateOptions.{AggregateOptions};
ghost use Rattle.mg_options.specs.declared.change_stream.ChangeStreamOptions.{ChangeStreamOptions};
ghost use Rattle.mg_options.specs.declared.collections.ListCollectionsOptions.{ListCollectionsOptions};
ghost use Rattle.mg_options.specs.declared.collections.ListIndexesOptions.{ListIndexesOptions};
ghost use Rattle.mg_options.specs.declared.find.FindOptions.{FindOptions};
ghost use Rattle.mg_options.specs.Fields.{fields_in, first_unfit};
ghost use Rattle.mg_options.specs.declared.write_words.UpdateModifications.TheVariants as modifications;
ghost use Rattle.mg_options.specs.declared.writes.InsertManyOptions.{InsertManyOptions};
ghost use Rattle.mg_ops.specs.Aims.{aim_of, asked_for};
ghost use Rattle.mg_ops.specs.Bodies.{aggregate_body, create_body, create_indexes_body, delete_body, drop_body, find_body, insert_body, is_ordered, list_collections_body, list_indexes_body, update_body, watch_body};
ghost use Rattle.mg_ops.specs.Commands.{kill_command, more_command, watch_stage};
ghost use Rattle.mg_ops.specs.Cursors.{Cursor, cursor_of};
ghost use Rattle.mg_ops.specs.Naming.{IsNamed};
ghost use Rattle.mg_ops.specs.Pieces.{keys_onto};
ghost use Rattle.mg_ops.specs.Plain.{plain_delete, plain_index};
ghost use Rattle.mg_ops.specs.Queries.{IsAskable, aggregate_asked, askable_aggregate, asked_query, collections_asked, find_asked, indexes_asked};
ghost use Rattle.mg_ops.specs.Sessions.{in_session};
ghost use Rattle.mg_ops.specs.Writes.{Inserted, Wrote, count_of, counts_of, failures_of};

/// An insert asks for its documents to be inserted, in order up to the first that fails unless it is said otherwise.
pub fn asks_to_insert()
    ensures { (command : List ℕ) (space : Space) (documents : List Fields) (o : InsertManyOptions) (session : Option Session) → IsNamed space
        → fields command ≡ fields_in (insert_body space documents o session) → asked command ≡ asks_insert space documents (is_ordered o.ordered) }
{}

/// The aggregate of a watch asks for that watch, from its start on, or for nothing where its names, filter or starts may not be.
pub fn asks_as_aimed()
    ensures { (command : List ℕ) (target : Target) (pipeline : List Fields) (o : ChangeStreamOptions) (session : Option Session)
        → fields command ≡ fields_in (watch_body target pipeline o session) → asked command ≡ asked_for (aim_of target pipeline o) }
{}

/// The aggregate of a watch is the aggregate whose pipeline begins with the stage of the watch, with those of its options that are
/// options of an aggregate.
pub fn watches_by_aggregate()
    ensures { (target : Target) (pipeline : List Fields) (o : ChangeStreamOptions) (session : Option Session)
        → fields_in (watch_body target pipeline o session) ≡ fields_in (aggregate_body target (watch_stage o ∷ pipeline) (aggregate_of_watch o) session) }
{}

/// A getMore asks for more of its cursor, whatever the size of its batch, its time to wait and its comment.
pub fn asks_for_more()
    ensures { (command : List ℕ) (id : ℤ) (space : Space) (size time : Option ℕ) (comment : Option Tree) (session : Option Session) → IsNamed space
        → fields command ≡ in_session session (more_command id space size time comment) → asked command ≡ asks_more id space }
{}

/// A killCursors asks for its cursors to be removed.
pub fn asks_to_kill()
    ensures { (command : List ℕ) (space : Space) (ids : List ℤ) (session : Option Session)
        → fields command ≡ in_session session (kill_command space ids) → asked command ≡ asks_kill ids }
{}

/// A create asks for its collection to be made.
pub fn asks_to_create()
    ensures { (command : List ℕ) (space : Space) (writes : Option WriteConcern) (session : Option Session) → IsNamed space
        → fields command ≡ fields_in (create_body space writes session) → asked command ≡ asks_create space }
{}

/// A drop asks for its collection to be removed.
pub fn asks_to_drop()
    ensures { (command : List ℕ) (space : Space) (writes : Option WriteConcern) (session : Option Session) → IsNamed space
        → fields command ≡ fields_in (drop_body space writes session) → asked command ≡ asks_drop space }
{}

/// A delete asks for the documents that meet its conditions to be removed: all, or the first.
pub fn asks_to_delete()
    ensures { (command : List ℕ) (space : Space) (filter : Fields) (conditions : List Condition) (many : Bool) (writes : Option WriteConcern) (session : Option Session)
        → IsNamed space → conditions_of filter ≡ Some conditions
        → fields command ≡ fields_in (delete_body space filter many (plain_delete writes) session) → asked command ≡ asks_delete space conditions many }
{}

/// An update by a document asks for the documents that meet its conditions to be changed so: all, or the first.
pub fn asks_to_update()
    ensures { (command : List ℕ) (space : Space) (filter d : Fields) (conditions : List Condition) (m : Modification) (many : Bool) (writes : Option WriteConcern) (session : Option Session)
        → IsNamed space → conditions_of filter ≡ Some conditions → modification_of d ≡ Some m
        → fields command ≡ fields_in (update_body space filter (modifications.Document d) many writes session) → asked command ≡ asks_update space conditions m many }
{}

/// A createIndexes asks for one index, which has its name of its keys.
pub fn asks_to_index()
    ensures { (command : List ℕ) (space : Space) (keys : Fields) (name : List ℕ) (writes : Option WriteConcern) (session : Option Session)
        → IsNamed space → keys_onto [] keys ≡ Some name
        → fields command ≡ fields_in (create_indexes_body space keys (plain_index writes) session) → asked command ≡ asks_indexes space (record { name = name; key = keys } ∷ []) }
{}

/// A find asks for the documents that meet its filter, sorted, without those that are passed over, no more than its limit and shown
/// as its projection says, in batches of its size, or in one; for nothing where no server may take its filter, sort or projection.
pub fn asks_to_find()
    ensures { (command : List ℕ) (space : Space) (filter : Fields) (o : FindOptions) (session : Option Session)
        → IsNamed space → IsAskable o → first_unfit (find_body space filter o None) ≡ None
        → fields command ≡ fields_in (find_body space filter o session) → asked command ≡ asked_query (find_asked space filter o) }
{}

/// An aggregate whose stages a store takes asks for what they make of the documents of its collection, in batches of its size.
pub fn asks_to_aggregate()
    ensures { (command : List ℕ) (space : Space) (pipeline : List Fields) (stages : List Stage) (o : AggregateOptions) (session : Option Session)
        → IsNamed space → o ≡ askable_aggregate o → first_unfit (aggregate_body (collection space) pipeline o None) ≡ None → pipeline_of pipeline ≡ Some stages
        → fields command ≡ fields_in (aggregate_body (collection space) pipeline o session) → asked command ≡ asks_query (aggregate_asked space stages o) }
{}

/// A listCollections asks for the collections of its database that meet its filter, in batches of its size; for nothing where no
/// server may take its filter.
pub fn asks_for_collections()
    ensures { (command db : List ℕ) (name_only : Bool) (o : ListCollectionsOptions) (session : Option Session)
        → as_database db ≡ Some db → first_unfit (list_collections_body db name_only o None) ≡ None
        → fields command ≡ fields_in (list_collections_body db name_only o session) → asked command ≡ asked_query (collections_asked db o) }
{}

/// A listIndexes asks for the indexes of its collection, in batches of its size.
pub fn asks_for_indexes()
    ensures { (command : List ℕ) (space : Space) (o : ListIndexesOptions) (session : Option Session)
        → IsNamed space → first_unfit (list_indexes_body space o None) ≡ None
        → fields command ≡ fields_in (list_indexes_body space o session) → asked command ≡ asks_query (indexes_asked space o) }
{}

/// What a reply to a getMore tells: the cursor, the documents of its batch, and the token.
pub fn tells_of_more()
    ensures { (id : ℤ) (space : Space) (reply : List ℕ) (cursor : Cursor) (events : List Fields)
        → verdict_of (fields reply) ≡ verdict.Success → cursor_of (fields reply) ≡ Ok cursor
        → documents_in cursor.batch ≡ Some events
        → told (asks_more id space) reply ≡ gave cursor.id cursor.space events cursor.token }
{}

/// What a reply to an insert tells that `Insert::read` takes without error: its number, and that no document failed.
pub fn tells_of_insert()
    ensures { (space : Space) (documents : List Fields) (ordered : Bool) (reply : List ℕ) (count n : ℕ)
        → verdict_of (fields reply) ≡ verdict.Success → Inserted count (fields reply) n
        → told (asks_insert space documents ordered) reply ≡ inserted (pos n) [] }
{}

/// What a reply to a find or a list tells that its `read` takes without error: the cursor and the documents of its batch.
pub fn tells_of_query()
    ensures { (query : Query) (reply : List ℕ) (cursor : Cursor) (documents : List Fields)
        → verdict_of (fields reply) ≡ verdict.Success → cursor_of (fields reply) ≡ Ok cursor
        → documents_in cursor.batch ≡ Some documents
        → told (asks_query query) reply ≡ opened cursor.id cursor.space documents cursor.token (time_in (fields reply)) }
{}

/// What a reply to a delete tells that `Delete::read` takes without error: its number.
pub fn tells_of_delete()
    ensures { (space : Space) (conditions : List Condition) (many : Bool) (reply : List ℕ) (n : ℕ)
        → verdict_of (fields reply) ≡ verdict.Success → Wrote (count_of (fields reply)) (fields reply) n
        → told (asks_delete space conditions many) reply ≡ deleted (pos n) [] }
{}

/// What a reply to an update tells that `Update::read` takes without error: how many it found, and how many it changed.
pub fn tells_of_update()
    ensures { (space : Space) (conditions : List Condition) (m : Modification) (many : Bool) (reply : List ℕ) (n changed : ℕ)
        → verdict_of (fields reply) ≡ verdict.Success → Wrote (counts_of (fields reply)) (fields reply) (n, changed)
        → told (asks_update space conditions m many) reply ≡ updated (pos n) (pos changed) [] }
{}

/// What a reply to a create tells that `Create::read` takes without error: that it is done.
pub fn tells_of_create()
    ensures { (space : Space) (reply : List ℕ) → verdict_of (fields reply) ≡ verdict.Success → failures_of 0 (fields reply) ≡ Ok []
        → told (asks_create space) reply ≡ done }
{}

/// The same of a drop.
pub fn tells_of_drop()
    ensures { (space : Space) (reply : List ℕ) → verdict_of (fields reply) ≡ verdict.Success → failures_of 0 (fields reply) ≡ Ok []
        → told (asks_drop space) reply ≡ done }
{}

/// The same of a createIndexes.
pub fn tells_of_index()
    ensures { (space : Space) (indexes : List Index) (reply : List ℕ) → verdict_of (fields reply) ≡ verdict.Success → failures_of 0 (fields reply) ≡ Ok []
        → told (asks_indexes space indexes) reply ≡ done }
{}
