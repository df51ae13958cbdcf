//! What holds of the definitions.
ghost use Rattle.std.specs.Prelude.{◌≡◌, ◌++◌, ◌∷◌, [], ℕ, ℤ, suc, pos, List, Option, Some, length, slice_get, slice_set, take};
ghost use Rattle.mg_bson.specs.Tree.{Fields};
ghost use Rattle.mg_server.specs.Calls.{Grows, Past};
ghost use Rattle.mg_server.specs.History.{IsLegal, Step, state_of};
ghost use Rattle.mg_link.specs.Ids.{counted_id};
ghost use Rattle.mg_link.specs.Link.{Awaited};
ghost use Rattle.mg_link.specs.Log.{Call};
ghost use Rattle.mg_link.specs.Namespace.{Space};
ghost use Rattle.mg_server.specs.Owner.{AreApart, Owner, Passes};
ghost use Rattle.mg_server.specs.Standing.{Stands};
ghost use Rattle.mg_server.specs.State.{documents_at};
ghost use Rattle.mg_server.specs.Step.{documents_of};
ghost use Rattle.mg_ops.specs.Appended.{Appended, InsertsAt};
ghost use Rattle.mg_players.specs.Causes.{Course, OutcomeCaused, PutEnds};
ghost use Rattle.mg_jobs.specs.Completing.{JobWell, MakesWhole, OutcomeGot};
ghost use Rattle.mg_turns.specs.Counts.{Faultless};
ghost use Rattle.mg_script.specs.Plan.{Task};
ghost use Rattle.mg_script.specs.declared.outcome.Ended.TheVariants.{Gave};
ghost use Rattle.mg_script.specs.declared.outcome.Outcome.{Outcome};
ghost use Rattle.mg_jobs.specs.declared.program.Ending.{Ending};
ghost use Rattle.mg_jobs.specs.Program.{Caused, IsOf};
ghost use Rattle.mg_players.specs.Progress.{IsPlayed, pends_last, turns_done};
ghost use Rattle.mg_players.specs.Puts.{PutTask, Supply};

/// Where it is known what is left in a source, this decides what came of it: each ending that is not a failed read or
/// want of memory comes exactly where the bytes are too many, or no script with this first fault, or a script whose order
/// has this first number that names no job, or the script that was run.
pub fn input_decides()
    ensures { (words : List (List ℕ)) (bytes : List ℕ) (new : Option (List ℕ)) (before now : ℕ) (ending : Ending)
        → Caused words (Some bytes) new before now ending → IsOf words bytes ending }
{}

/// Where a call of a log inserted documents, the state behind its step has them behind those that stood there before, in
/// every legal history in which the log stands; and the reply told their number.
pub fn inserts_append()
    ensures { (calls : List Call) (history : List Step) (k : ℕ) (space : Space) (documents : List Fields)
        → IsLegal history → Stands calls history → (i : InsertsAt calls k space documents)
        → (p : ℕ) × (i.call.position ≡ Some p) × (i.count ≡ pos (length documents))
        × (documents_at (state_of (take (suc p) history)) space ≡ Some (documents_of (state_of (take p history)) space ++ documents)) }
{}

/// What was appended stays so when the log grows.
pub fn appended_stays()
    ensures { (past past' : Past) (space : Space) (documents : List Fields) (n : ℕ)
        → Grows past past' → Appended past space documents n → Appended past' space documents n }
{}

/// Each id that the inserts of a script draw has the twelve bytes of an object id.
pub fn drawn_ids_fit()
    ensures { (ids : List ℕ) (n : ℕ) → length ids ≡ 3 → length (counted_id (ids ++ 0 ∷ []) n) ≡ 12 }
{}

/// The jobs of a run stay apart: after the turn of one no two own the same cursor.
pub fn jobs_stay_apart()
    ensures { (calls calls' : List Call) (owners : List Owner) (k : ℕ) (o o' : Owner) → slice_get owners k ≡ Some o
        → Passes calls calls' o o' → AreApart calls owners → AreApart calls' (slice_set owners k o') }
{}

/// A job ends well where its link loses nothing and its server holds nothing back. Of a job whose outcome has the
/// causes that the run tells, and that came as far as its turns brought it: where no call of the run saw a fault, and the
/// log stands in a legal history that answered the job's commands at once and refused none, a follow that had one turn
/// more than calls that did not pend had all its calls answered, and its stream was closed. Each answer is an event, or
/// nothing where it took a first batch, a reply had told that the stream has ended, or nothing was left to be seen by the
/// cursor of its getMore as that took effect. And an insert that had one such turn, and whose documents could be stored as
/// its commands took effect, inserted them; a get of a file that was whole before its first step, and that nobody else
/// touched up to its last, read it to its end in two turns more than it has bytes; and a valid put of fresh documents, which
/// found few indexes and had two such turns more than pieces, ended well. What may still fail is excused: memory ran out; or
/// a document of the job, or a command that it must send, passes the limits. Where none of them does, memory ran out.
pub fn jobs_end_well()
    ensures { (awaited : Awaited) (c : Course) (i : ℕ) (begun calls : List Call) (wire : ℤ) (supply : Supply) (t : Task) (r : Outcome)
        → length begun ≡ c.begun → Faultless begun calls → OutcomeCaused awaited c i calls wire supply t r
        → IsPlayed t (turns_done i c.order c.notes) (pends_last i c.order c.notes) r → OutcomeGot c i calls t r → JobWell c i calls t r }
{}

/// A put of the run that ended well makes the file of each get behind it whole: so the get is one that ends well where its server holds
/// nothing back. The get's first step has to be behind the put's last one, and nobody but the put may touch the file.
pub fn puts_make_files()
    ensures { (awaited : Awaited) (c : Course) (i j : ℕ) (calls : List Call) (wire : ℤ) (supply : Supply) (t : PutTask) (n : ℕ)
        → PutEnds awaited c i calls wire supply t (Gave n) → MakesWhole c i j calls t }
{}
