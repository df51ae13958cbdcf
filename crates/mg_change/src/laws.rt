//! What the clauses of change streams come to, for those who use them.
ghost use Rattle.std.specs.Prelude.{◌≡◌, ℕ, ℤ, Bool, List, None, Option};
ghost use Rattle.mg_bson.specs.Tree.{Fields};
ghost use Rattle.mg_server.specs.Calls.{Past};
ghost use Rattle.mg_server.specs.Follow.{Moved};
ghost use Rattle.mg_link.specs.Link.{Awaited, LogTold};
ghost use Rattle.mg_link.specs.Session.{Session};
ghost use Rattle.mg_server.specs.State.{Start, Watch};
ghost use Rattle.mg_link.specs.declared.action.Step.{Step};
ghost use Rattle.mg_link.specs.declared.action.Step.TheVariants as step;
ghost use Rattle.mg_cursor.specs.Client.{PlainIf};
ghost use Rattle.mg_cursor.specs.declared.polls.TryPoll.{TryPoll};
ghost use Rattle.mg_change.specs.Causes.{SoFar};
ghost use Rattle.mg_change.specs.ClientOpenings.{ClientOpening, IsSoundOpening, OpensStream};
ghost use Rattle.mg_change.specs.ClientStreams.{ClientStream, IsBetween, IsSound, lends_nothing, stream_ticket, stream_token};
ghost use Rattle.mg_change.specs.ClosingStreams.{closed_stream};
ghost use Rattle.mg_change.specs.Following.{AsksNothing, follow_closing, follow_of, idle_by};
ghost use Rattle.mg_change.specs.Growths.{OpensInVain};
ghost use Rattle.mg_change.specs.OpenedStreams.{Begins, OpenedAt};
ghost use Rattle.mg_change.specs.StreamCalls.{CallCopies, CallLends, SeeksEvent};
ghost use Rattle.mg_change.specs.declared.event_poll.EventPoll.{EventPoll};

/// An opening that goes on keeps its arguments. The stream that it gives has them, and stands between two calls.
pub fn openings_begin()
    ensures goes_on { (old new : Awaited) (log log' : LogTold) (wire : ℤ) (session : Option Session) (started : Bool) (o next : ClientOpening)
        → OpensStream old new log log' wire session started o (step.Pending next) → next.args ≡ o.args }
    ensures gives { (old new : Awaited) (log log' : LogTold) (wire : ℤ) (session : Option Session) (started : Bool) (o : ClientOpening) (s : ClientStream)
        → OpensStream old new log log' wire session started o (step.Done s) → Begins o.args s }
{}

/// A stream that was opened knows what it watches from one call of the log on, and this call is the cause that it was opened.
pub fn openings_are_placed()
    ensures { (plain : Bool) (old new : Awaited) (log log' : LogTold) (wire : ℤ) (session : Option Session) (started : Bool) (o : ClientOpening) (s : ClientStream)
        → IsSoundOpening plain o → OpensStream old new log log' wire session started o (step.Done s) → OpenedAt old new log log' wire o.args o.sending s }
{}

/// Where no server takes what the arguments of an opening ask for, its polls open nothing and name no cursor: a log in which it gave a
/// stream stands in no legal history.
pub fn openings_in_vain()
    ensures { (plain : Bool) (old new : Awaited) (log log' : LogTold) (wire : ℤ) (session : Option Session) (started : Bool) (o : ClientOpening) (r : Step ClientOpening ClientStream)
        → AsksNothing o.args → IsSoundOpening plain o → OpensStream old new log log' wire session started o r → OpensInVain old new log log' o.sending r }
{}

/// A call that begins on a stream between two calls has come to nothing yet: its causes are those of a call that began here.
pub fn calls_begin()
    ensures { (plain lone : Bool) (awaited : Awaited) (past : Past) (s : ClientStream) → IsSound plain s → IsBetween s → SoFar awaited past lone s s }
{}

/// A poll of a call leaves what is watched.
pub fn calls_keep_arguments()
    ensures lends { (plain : Bool) (steps : ℕ) (old new : Awaited) (log log' : LogTold) (wire : ℤ) (session : Option Session) (starts : ℕ) (s s' : ClientStream) (r : TryPoll)
        → IsSound plain s → PlainIf plain session → CallLends steps old new log log' wire session starts s s' r → s'.aggregate.args ≡ s.aggregate.args }
    ensures copies { (plain : Bool) (steps : ℕ) (old new : Awaited) (log log' : LogTold) (wire : ℤ) (session : Option Session) (starts : ℕ) (s s' : ClientStream) (r : EventPoll)
        → IsSound plain s → PlainIf plain session → CallCopies steps old new log log' wire session starts s s' r → s'.aggregate.args ≡ s.aggregate.args }
    ensures seeks { (plain : Bool) (empties : ℕ) (old new : Awaited) (log log' : LogTold) (wire : ℤ) (session : Option Session) (starts : ℕ) (s s' : ClientStream) (r : EventPoll)
        → IsSound plain s → PlainIf plain session → SeeksEvent empties old new log log' wire session starts (lends_nothing s) s' r → s'.aggregate.args ≡ s.aggregate.args }
{}

/// A stream between two calls holds no ticket, and the events that it has in hand may be forgotten: it still knows what it answered.
pub fn streams_rest()
    ensures ticket { (s : ClientStream) → IsBetween s → stream_ticket s ≡ None }
    ensures forgets { (log : LogTold) (awaited : Awaited) (w : Watch) (start : Start) (s : ClientStream) (opened : Option ℕ) (answered : List Fields) → IsBetween s
        → Moved log log (follow_of awaited w start s opened answered) (idle_by w start opened s.cursor.id (stream_token s) answered) }
{}

/// What a stream knows its closing knows.
pub fn streams_close()
    ensures { (plain lent : Bool) (log : LogTold) (awaited : Awaited) (w : Watch) (start : Start) (s : ClientStream) (opened : Option ℕ) (answered : List Fields) → IsSound plain s
        → Moved log log (follow_of awaited w start s opened answered) (follow_closing awaited w start (stream_token s) (closed_stream lent s) opened answered) }
{}
