//! What the clauses of cursors come to, for those who use them.
ghost use Rattle.std.specs.Prelude.{◌≡◌, ℕ, ℤ, Bool, List, [], Ok, Option, Some, length, pos, false};
ghost use Rattle.mg_bson.specs.Tree.{Fields};
ghost use Rattle.mg_server.specs.Commands.{asked, asks_query};
ghost use Rattle.mg_link.specs.Exec.{IsSuccess};
ghost use Rattle.mg_link.specs.Link.{Adds, Awaited, Sees, LogTold};
ghost use Rattle.mg_link.specs.Log.{Call, Sight, reply};
ghost use Rattle.mg_server.specs.Owner.{Passes, nobody};
ghost use Rattle.mg_server.specs.Query.{Query};
ghost use Rattle.mg_server.specs.Reader.{KnowsFinding, KnowsRead, Reader, finder, owner_of_reader};
ghost use Rattle.mg_link.specs.Session.{Session};
ghost use Rattle.mg_ops.specs.Cursors.{Cursor, Opens, cursor_of};
ghost use Rattle.mg_ops.specs.Naming.{IsNamed};
ghost use Rattle.mg_ops.specs.declared.cursor_reply.CursorSpecification.{CursorSpecification};
ghost use Rattle.mg_cursor.specs.Batches.{documents_of};
ghost use Rattle.mg_cursor.specs.Client.{ClientCursor, new_client};
ghost use Rattle.mg_cursor.specs.Documents.{AdvancesOnce, DocumentCursor};
ghost use Rattle.mg_cursor.specs.Polling.{PollsNext};
ghost use Rattle.mg_cursor.specs.Reading.{HasCome, new_reader, reader_in};
ghost use Rattle.mg_cursor.specs.Seeking.{IsAtEnd, SeeksDocument, TriesAdvance};
ghost use Rattle.mg_cursor.specs.declared.polls.AdvancePoll.{AdvancePoll};
ghost use Rattle.mg_cursor.specs.declared.polls.AdvancePoll.TheVariants as advance;
ghost use Rattle.mg_cursor.specs.declared.polls.NextPoll.{NextPoll};
ghost use Rattle.mg_cursor.specs.declared.polls.TryPoll.{TryPoll};
ghost use Rattle.mg_cursor.specs.declared.polls.TryPoll.TheVariants as tried;
ghost use Rattle.mg_cursor.specs.declared.results.AdvanceResult.TheVariants as outcome;

/// The reader of a query's result, from the query's command on: the command is sent; it fails, and gives no cursor; or the reply to
/// it comes, and a cursor is made of that.
pub fn readers_open()
    ensures sent { (log log' : LogTold) (q : Query) (place : Option ℕ) (command : List ℕ) (seen : Sight) → asked command ≡ asks_query q → Adds log log' command seen
        → ((calls : List Call) → log ≡ Some calls → place ≡ Some (length calls)) → (calls : List Call) → log ≡ Some calls
        → (calls' : List Call) × (log' ≡ Some calls') × KnowsFinding calls' q place × Passes calls calls' nobody (finder place) }
    ensures failed { (log log' : LogTold) (place : Option ℕ) (seen : Sight) → Sees log log' place seen → (q : Query) → (calls : List Call) → log ≡ Some calls → KnowsFinding calls q place
        → (calls' : List Call) × (log' ≡ Some calls') × Passes calls calls' (finder place) nobody }
    ensures came { (log log' : LogTold) (q : Query) (place size : Option ℕ) (s : CursorSpecification) (documents : List (List ℕ)) (awaited : Awaited) (bytes : List ℕ) → IsSuccess bytes → Opens size bytes s
        → documents_of bytes ≡ Some documents → Sees log log' place (reply bytes) → (calls : List Call) → log ≡ Some calls → KnowsFinding calls q place
        → (calls' : List Call) × (log' ≡ Some calls') × (n : ℕ) × (place ≡ Some n) × KnowsRead calls' (reader_in awaited (new_client s) (new_reader q n))
        × Passes calls calls' (finder place) (owner_of_reader (reader_in awaited (new_client s) (new_reader q n))) }
{}

/// The namespace that a reply gives a cursor is one that a server takes, and a cursor whose namespace is one keeps such a one behind
/// each poll.
pub fn cursors_are_named()
    ensures told { (reply : Fields) (c : Cursor) → cursor_of reply ≡ Ok c → IsNamed c.space }
    ensures polls { (old new : Awaited) (log log' : LogTold) (wire : ℤ) (session : Option Session) (started : Bool) (c c' : ClientCursor) (r : NextPoll)
        → PollsNext old new log log' wire session started c c' r → IsNamed c.space → IsNamed c'.space }
    ensures tries { (old new : Awaited) (log log' : LogTold) (wire : ℤ) (session : Option Session) (started : Bool) (d d' : DocumentCursor) (r : TryPoll)
        → TriesAdvance old new log log' wire session started d d' r → IsNamed d.cursor.space → IsNamed d'.cursor.space }
    ensures seeks { (empties : ℕ) (old new : Awaited) (log log' : LogTold) (wire : ℤ) (session : Option Session) (starts : ℕ) (d d' : DocumentCursor) (r : AdvancePoll)
        → SeeksDocument empties old new log log' wire session starts d d' r → IsNamed d.cursor.space → IsNamed d'.cursor.space }
{}

/// A reader whose cursor has ended, and to whom all documents that came were handed out, was given the whole of the result but for
/// lost batches, unless one batch was asked for or the server refused a getMore so that it holds the cursor no longer.
pub fn readers_end()
    ensures { (calls : List Call) (r : Reader) → KnowsRead calls r → r.cursor ≡ pos 0 → r.ahead ≡ [] → HasCome calls r }
{}

/// A cursor says that there is no further document only where none is received and nothing is asked for any more: the server
/// holds it no longer, or the connection that it is bound to was lost.
pub fn ends_where_over()
    ensures tries { (old new : Awaited) (log log' : LogTold) (wire : ℤ) (session : Option Session) (started : Bool) (d d' : DocumentCursor)
        → AdvancesOnce old new log log' wire session started d d' (tried.Ready outcome.Exhausted) → IsAtEnd d' }
    ensures seeks { (empties : ℕ) (old new : Awaited) (log log' : LogTold) (wire : ℤ) (session : Option Session) (starts : ℕ) (d d' : DocumentCursor)
        → SeeksDocument empties old new log log' wire session starts d d' (advance.Ready false) → IsAtEnd d' }
{}
