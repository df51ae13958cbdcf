//! Jobs, run by a list of turns.
ghost use Rattle.std.specs.Prelude.{◌≡◌, ◌≤◌, ◌<◌, ◌++◌, ◌∷◌, ◌⊎◌, ℕ, [], false, true, length, take, List, IfErr, IfOk, IfSome, OnErr, OnOk, Ok, Err, Some};
ghost use Rattle.std.specs.List.{All, sum_by};
ghost use Rattle.mg_link.specs.Errors.{plain};
ghost use Rattle.mg_link.specs.Link.{Awaited, Later, LogTold};
ghost use Rattle.mg_link.specs.Causes.{RoseJust};
ghost use Rattle.mg_turns.specs.Counts.{AreNoted, IsNoted, LosesNothing, PolledNewest, StartedBy, turns_pended};
ghost use Rattle.mg_ops.specs.Drawn.{AreLater};
ghost use Rattle.mg_players.specs.Drawing.{DrawsAt, HaveDrawn, drawn_in, supplied};
ghost use Rattle.mg_players.specs.Runs.{AreHeld, AreNew, AreSameJobs, CanGo, Draws, Goes, IsReady, IsSameJob, has_ended, idle};
ghost use Rattle.mg_jobs.specs.Runners.{Stands, job_ended, notes_of, players_of};
ghost use Rattle.mg_players.specs.Blaming.{AllBehind};
ghost use Rattle.mg_players.specs.Losses.{AllLoseBy, AllLostBy, JobLost, LosesBy};
ghost use Rattle.mg_players.specs.Headline.{AllFiled, AllFollowed, AreFirst, GoesOnNaming, DoTasks, Knowing, OutcomesOf};
ghost use Rattle.mg_script.specs.Plan.{Task, tasks};
ghost use Rattle.mg_players.specs.Progress.{AllAt, AllPlayed, GoesBy, TurnsBy};
ghost use Rattle.mg_players.specs.Causes.{AllCaused, AllPollOwn, AllWaitAlone, PollsOwn};
ghost use Rattle.mg_jobs.specs.Completing.{AllWell};
ghost use Rattle.mg_jobs.specs.Grammar.{AllNeverGarbled};
ghost use Rattle.mg_players.specs.Owned.{AllNameOwn};
ghost use Rattle.mg_players.specs.Sends.{AllSendOnly};
ghost use Rattle.mg_script.specs.Script.{first_missing};
ghost use Rattle.mg_players.specs.Playing.{job_ticket};
ghost use Rattle.mg_players.specs.Plays.{SentAt};
ghost use Rattle.mg_players.specs.Puts.{IsMoment, Supply};
ghost use Rattle.mg_players.specs.Telling.{AllTell};

use core::mem::replace_with;
use mg_bson::DateTime;
use mg_link::{Error, ErrorKind, IdSource, Link, plain, push_reserved};
use mg_players::{Kind, Player};
use mg_script::{Job, Played, first_missing};
use mg_turns::{Began, Counting, Turned};
use std::alloc::Global;
use std::marker::Brand;
use std::mem;

// ---- one turn

/// A job whose turn it is.
#[derive(Drop)]
struct Turn<'a> {
    alloc: Global,
    player: Player<'a>,
    moment: DateTime,
}

/// A job behind its turn, with the turn's note.
#[derive(Drop)]
struct Gone<'a> {
    player: Player<'a>,
    note: Turned,
}

/// Gives a job its turn over a link of which it is known what it began with.
fn counted_since<'a, L: Link, B: Began>(link: L, turn: Turn<'a>) -> (L, Gone<'a>)
    requires can { CanGo (L.awaited link) (L.wire link) turn.player }
    requires ready { IsReady turn.player }
    requires calls { L.log link ≡ B.calls }
    requires awaited { L.awaited link ≡ B.awaited }
    requires held { job_ticket turn.player ≡ B.held }
    requires pends { L.pends link ≡ B.pends }
    requires polls { L.polls link ≡ B.polls }
    requires prompts { B.prompts → L.prompt link }
    ensures goes { Goes (SentAt turn.entry.moment.millis) (L.awaited link) (L.awaited result.0) (L.log link) (L.log result.0) (L.wire result.0) turn.entry.player result.1.player }
    ensures later { Later (L.faults link) (L.faults result.0) (L.pends link) (L.pends result.0)
        (L.wire link) (L.wire result.0) (L.prompt link) (L.prompt result.0) }
    ensures noted { IsNoted result.1.note B.calls (L.log result.0) B.pends (L.pends result.0) B.prompts (L.prompt result.0) }
    ensures polled { PolledNewest result.1.note.pended (job_ticket turn.entry.player) (job_ticket result.1.player) (L.awaited link) (L.awaited result.0) (L.log link) (L.log result.0) (L.polls link) (L.polls result.0) }
    ensures comes { GoesBy result.1.note turn.entry.player result.1.player }
    ensures lost { LosesBy JobLost (L.faults link) (L.faults result.0) (L.pends link) (L.pends result.0) turn.entry.player result.1.player }
{
    let Turn {
        alloc,
        player,
        moment,
    } = turn;
    let mut counting = Counting::<L, B>::new(link, player.ticket_number());
    let player = player.go(alloc, &mut counting, moment);
    let (link, note) = counting.into_parts();
    (link, Gone { player, note })
}

/// Gives a job its turn. For the prover alone: it picks what the link began with.
fn counted<'a, L: Link>(link: L, turn: Turn<'a>) -> (L, Gone<'a>)
    requires can { CanGo (L.awaited link) (L.wire link) turn.player }
    requires ready { IsReady turn.player }
    ensures goes { Goes (SentAt turn.entry.moment.millis) (L.awaited link) (L.awaited result.0) (L.log link) (L.log result.0) (L.wire result.0) turn.entry.player result.1.player }
    ensures later { Later (L.faults link) (L.faults result.0) (L.pends link) (L.pends result.0)
        (L.wire link) (L.wire result.0) (L.prompt link) (L.prompt result.0) }
    ensures noted { IsNoted result.1.note (L.log link) (L.log result.0) (L.pends link) (L.pends result.0) (L.prompt link) (L.prompt result.0) }
    ensures polled { PolledNewest result.1.note.pended (job_ticket turn.entry.player) (job_ticket result.1.player) (L.awaited link) (L.awaited result.0) (L.log link) (L.log result.0) (L.polls link) (L.polls result.0) }
    ensures comes { GoesBy result.1.note turn.entry.player result.1.player }
    ensures lost { LosesBy JobLost (L.faults link) (L.faults result.0) (L.pends link) (L.pends result.0) turn.entry.player result.1.player }
{
    counted_since::<L, Brand>(link, turn)
}

/// Gives a job its turn, unless it has ended. An error comes only where no place for an answer was found; then nothing
/// is sent, and no id is drawn.
fn turn_of<'a, L: Link, I: IdSource>(
    player: &mut Player<'a>,
    alloc: Global,
    link: &mut L,
    ids: &mut I,
    moment: DateTime,
) -> Result<Turned, Error>
    requires { CanGo (L.awaited link.old) (L.wire link.old) player.old }
    ensures goes { Goes (DrawsAt (I.ids ids.old) moment.millis player.old) (L.awaited link.old) (L.awaited link.new) (L.log link.old) (L.log link.new) (L.wire link.new) player.old player.new }
    ensures later { Later (L.faults link.old) (L.faults link.new) (L.pends link.old) (L.pends link.new)
        (L.wire link.old) (L.wire link.new) (L.prompt link.old) (L.prompt link.new) }
    ensures noted { IfOk result (λ n. IsNoted n (L.log link.old) (L.log link.new) (L.pends link.old) (L.pends link.new) (L.prompt link.old) (L.prompt link.new)) }
    ensures polled { IfOk result (λ n. PolledNewest n.pended (job_ticket player.old) (job_ticket player.new) (L.awaited link.old) (L.awaited link.new) (L.log link.old) (L.log link.new) (L.polls link.old) (L.polls link.new)) }
    ensures comes { IfOk result (λ n. TurnsBy n player.old player.new) }
    ensures lost { LosesBy JobLost (L.faults link.old) (L.faults link.new) (L.pends link.old) (L.pends link.new) player.old player.new }
    ensures draws { OnOk result (Draws (I.ids ids.old) (I.ids ids.new) player.old player.new) }
    ensures ended { has_ended player.old ≡ true → (result ≡ Ok idle) × (link.new ≡ link.old) × (player.new ≡ player.old) }
    ensures err { IfErr result (λ e. (e ≡ plain ErrorKind.OutOfMemory) × (link.new ≡ link.old) × (ids.new ≡ ids.old) × IsSameJob player.old player.new) }
{
    if player.has_ended() {
        return Ok(Turned {
            started: 0,
            pended: false,
        });
    }
    player.ready(alloc, ids)?;
    let spare = player.anew(alloc);
    let taken = mem::replace(player, spare);
    let turn = Turn {
        alloc,
        player: taken,
        moment,
    };
    let gone = replace_with(link, turn, counted);
    let Gone {
        player: after,
        note,
    } = gone;
    *player = after;
    Ok(note)
}

// ---- all turns

/// Jobs whose turns are given one by one.
pub struct Runner<'a> {
    alloc: Global,
    players: Vec<Player<'a>>,
    turns: Vec<Turned>,
}

// By hand, so that letting one go is one call.
impl Drop for Runner<'_> {
    fn drop(self) {
        let Runner {
            alloc: _,
            players: _,
            turns: _,
        } = self;
    }
}

impl<'a> Runner<'a> {
    /// No job has had a turn. Only memory can fail.
    pub fn new(alloc: Global, jobs: &'a [Job]) -> Result<Runner<'a>, Error>
        ensures new { IfOk result (λ r. AreNew (players_of r)) }
        ensures first { IfOk result (λ r. AreFirst (players_of r)) }
        ensures tasks { IfOk result (λ r. DoTasks (tasks jobs.now) (players_of r)) }
        ensures at { IfOk result (λ r. AllAt (tasks jobs.now) [] [] (players_of r)) }
        ensures jobs { IfOk result (λ r. length (players_of r) ≡ length jobs.now) }
        ensures turns { IfOk result (λ r. notes_of r ≡ []) }
        ensures stands { IfOk result (λ r. (awaited : _) (wire : _) → Stands awaited wire r) }
        ensures err { IfErr result (λ e. e ≡ plain ErrorKind.OutOfMemory) }
    {
        let mut players = Vec::with_capacity(alloc, jobs.len())?;
        for job in jobs {
            players.push(Player::new(alloc, job))?;
        }
        Ok(Runner {
            alloc,
            players,
            turns: Vec::new(alloc),
        })
    }

    /// Gives one job a turn: a call of it goes on until a reply pends, or to its end. A turn of an ended job does nothing.
    /// The number of no job, and want of memory for an answer or a note, are errors; then nothing is sent.
    pub fn turn<L: Link, I: IdSource>(
        &mut self,
        link: &mut L,
        ids: &mut I,
        moment: DateTime,
        job: u32,
    ) -> Result<(), Error>
        requires { Stands (L.awaited link.old) (L.wire link.old) self.old }
        ensures stands { Stands (L.awaited link.new) (L.wire link.new) self.new }
        ensures later { Later (L.faults link.old) (L.faults link.new) (L.pends link.old) (L.pends link.new)
            (L.wire link.old) (L.wire link.new) (L.prompt link.old) (L.prompt link.new) }
        ensures jobs { length (players_of self.new) ≡ length (players_of self.old) }
        // A part of what a job tells says that a reply was lost only where it said so before, or the link counted a fault in this
        // turn. A put says why it failed once its chunks are removed, and so maybe in a later turn.
        ensures lost { AllLoseBy (L.faults link.old) (L.faults link.new) (L.pends link.old) (L.pends link.new) (players_of self.old) (players_of self.new) }
        // No ticket is out but those of jobs, and those that were out before.
        ensures none_lost { (before : Awaited) → AreHeld before (L.awaited link.old) (players_of self.old) → AreHeld before (L.awaited link.new) (players_of self.new) }
        // The jobs go on knowing what they should, and none touches a cursor of another.
        ensures knowing { (begun : LogTold) → Knowing (L.awaited link.old) begun (L.log link.old) (players_of self.old) → Knowing (L.awaited link.new) begun (L.log link.new) (players_of self.new) }
        ensures tasks { (ts : List Task) → DoTasks ts (players_of self.old) → DoTasks ts (players_of self.new) }
        // A turn that did not pend brings its job on, as its note says.
        ensures rows { OnOk result ((ts : List Task) (order : List ℕ) → length order ≡ length (notes_of self.old) → AllAt ts order (notes_of self.old) (players_of self.old)
            → AllAt ts (order ++ job ∷ []) (notes_of self.new) (players_of self.new)) }
        // The first turn of an insert draws the source's next ids, one for each of its documents that has none; that of a put one for
        // each of its chunks.
        ensures drawn { OnOk result ((first : ℕ → List ℕ) (ts : List Task) (order : List ℕ) → DoTasks ts (players_of self.old)
            → HaveDrawn first (I.ids ids.old) ts order (players_of self.old) → HaveDrawn first (I.ids ids.new) ts (order ++ job ∷ []) (players_of self.new)) }
        // Each job goes on telling what caused its answers, and what it sends, where new records get the moment of this turn, or it
        // is not said which.
        ensures told { OnOk result ((supply : Supply) (begun : LogTold) (ts : List Task) (order : List ℕ) → IsMoment supply.moment moment.millis → length order ≡ length (notes_of self.old) → AllAt ts order (notes_of self.old) (players_of self.old)
            → HaveDrawn supply.ids (I.ids ids.old) ts order (players_of self.old)
            → AllTell supply (L.awaited link.old) begun (L.log link.old) (L.wire link.old) ts order (notes_of self.old) (players_of self.old)
            → AllTell supply (L.awaited link.new) begun (L.log link.new) (L.wire link.new) ts (order ++ job ∷ []) (notes_of self.new) (players_of self.new)) }
        // One poll pended just where the note says so, and that of the newest command of its own job: the last one of this turn,
        // or, where it sent none, the last one before, where its newest turn before pended too.
        ensures polled { OnOk result ((note : _) × (notes_of self.new ≡ notes_of self.old ++ note ∷ [])
            × ((supply : Supply) (begun : LogTold) (ts : List Task) (order : List ℕ) → AllAt ts order (notes_of self.old) (players_of self.old)
            → HaveDrawn supply.ids (I.ids ids.old) ts order (players_of self.old)
            → AllTell supply (L.awaited link.old) begun (L.log link.old) (L.wire link.old) ts order (notes_of self.old) (players_of self.old)
            → PollsOwn begun order (notes_of self.old) job note (L.polls link.old) (L.polls link.new))) }
        // E15 just where the number names no job, and otherwise want of memory.
        ensures missing { length (players_of self.old) ≤ job → result ≡ Err (plain (ErrorKind.NoSuchJob job)) }
        ensures err { IfErr result (λ e. ((e ≡ plain (ErrorKind.NoSuchJob job)) × (length (players_of self.old) ≤ job)) ⊎ (e ≡ plain ErrorKind.OutOfMemory)) }
        // An error changes nothing.
        ensures unsent { OnErr result (link.new ≡ link.old) }
        ensures undrawn { OnErr result (ids.new ≡ ids.old) }
        ensures same { OnErr result (AreSameJobs (players_of self.old) (players_of self.new)) }
        ensures unnoted { OnErr result (notes_of self.new ≡ notes_of self.old) }
        // One note, which is true.
        ensures noted { OnOk result ((note : _) × (notes_of self.new ≡ notes_of self.old ++ note ∷ [])
            × IsNoted note (L.log link.old) (L.log link.new) (L.pends link.old) (L.pends link.new) (L.prompt link.old) (L.prompt link.new)) }
        // A job that has ended does nothing.
        ensures ended { job_ended self.old job ≡ true → (link.new ≡ link.old) × AreSameJobs (players_of self.old) (players_of self.new)
            × OnOk result (notes_of self.new ≡ notes_of self.old ++ idle ∷ []) }
    {
        let at = job as usize;
        if at >= self.players.len() {
            return Err(plain(ErrorKind::NoSuchJob(job)));
        }
        self.turns.reserve(1)?;
        let alloc = self.alloc;
        let player = &mut self.players[at];
        let note = turn_of(player, alloc, link, ids, moment)?;
        push_reserved(&mut self.turns, note);
        Ok(())
    }

    /// What became of each job, and the notes of the turns. Only memory can fail.
    pub fn into_played(self) -> Result<Played, Error>
        ensures outcomes { IfOk result (λ p. length p.outcomes.items ≡ length (players_of self.entry)) }
        ensures each { IfOk result (λ p. OutcomesOf (players_of self.entry) p.outcomes.items) }
        ensures turns { IfOk result (λ p. p.turns.items ≡ notes_of self.entry) }
        ensures err { IfErr result (λ e. e ≡ plain ErrorKind.OutOfMemory) }
    {
        let Runner {
            alloc,
            players,
            turns,
        } = self;
        let mut outcomes = Vec::with_capacity(alloc, players.len())?;
        for player in players {
            outcomes.push(player.into_outcome(alloc)?)?;
        }
        Ok(Played { outcomes, turns })
    }
}

/// Gives the jobs their turns.
fn play<L: Link, I: IdSource>(
    runner: &mut Runner<'_>,
    link: &mut L,
    ids: &mut I,
    moment: DateTime,
    order: &[u32],
) -> Result<(), Error>
    requires stands { Stands (L.awaited link.old) (L.wire link.old) runner.old }
    requires jobs { All (λ n. n < length runner.old.players.items) order.now }
    requires new { runner.old.turns.items ≡ [] }
    ensures later { Later (L.faults link.old) (L.faults link.new) (L.pends link.old) (L.pends link.new)
        (L.wire link.old) (L.wire link.new) (L.prompt link.old) (L.prompt link.new) }
    ensures turns { OnOk result (length runner.new.turns.items ≡ length order.now) }
    ensures started { OnOk result (StartedBy (sum_by (λ t. t.started) runner.new.turns.items) (L.log link.old) (L.log link.new)) }
    ensures noted { OnOk result (AreNoted runner.new.turns.items (L.log link.old) (L.log link.new) (L.pends link.old) (L.pends link.new)) }
    ensures prompt { L.prompt link.old → OnOk result (All (λ t. t.pended ≡ false) runner.new.turns.items) }
    ensures lossless { L.prompt link.old → OnOk result (LosesNothing (L.log link.old) (L.log link.new)) }
    ensures jobs { length runner.new.players.items ≡ length runner.old.players.items }
    ensures lost { AllLoseBy (L.faults link.old) (L.faults link.new) (L.pends link.old) (L.pends link.new) runner.old.players.items runner.new.players.items }
    ensures none_lost { (before : Awaited) → AreHeld before (L.awaited link.old) runner.old.players.items → AreHeld before (L.awaited link.new) runner.new.players.items }
    ensures knowing { (begun : LogTold) → Knowing (L.awaited link.old) begun (L.log link.old) runner.old.players.items → Knowing (L.awaited link.new) begun (L.log link.new) runner.new.players.items }
    ensures tasks { (ts : List Task) → DoTasks ts runner.old.players.items → DoTasks ts runner.new.players.items }
    ensures rows { OnOk result ((ts : List Task) → AllAt ts [] [] runner.old.players.items → AllAt ts order.now runner.new.turns.items runner.new.players.items) }
    ensures drawn { OnOk result ((first : ℕ → List ℕ) (ts : List Task) → DoTasks ts runner.old.players.items → HaveDrawn first (I.ids ids.old) ts [] runner.old.players.items
        → HaveDrawn first (I.ids ids.new) ts order.now runner.new.players.items) }
    ensures stopped { (first : ℕ → List ℕ) (ts : List Task) → DoTasks ts runner.old.players.items → HaveDrawn first (I.ids ids.old) ts [] runner.old.players.items
        → (n : ℕ) × AreLater first (drawn_in ts (take n order.now)) (I.ids ids.new) }
    ensures told { OnOk result ((supply : Supply) (begun : LogTold) (ts : List Task) → IsMoment supply.moment moment.millis → DoTasks ts runner.old.players.items → AllAt ts [] [] runner.old.players.items
        → HaveDrawn supply.ids (I.ids ids.old) ts [] runner.old.players.items
        → AllTell supply (L.awaited link.old) begun (L.log link.old) (L.wire link.old) ts [] [] runner.old.players.items
        → AllTell supply (L.awaited link.new) begun (L.log link.new) (L.wire link.new) ts order.now runner.new.turns.items runner.new.players.items) }
    ensures polled { OnOk result ((supply : Supply) (begun : LogTold) (ts : List Task) → IsMoment supply.moment moment.millis → DoTasks ts runner.old.players.items → AllAt ts [] [] runner.old.players.items
        → HaveDrawn supply.ids (I.ids ids.old) ts [] runner.old.players.items
        → AllTell supply (L.awaited link.old) begun (L.log link.old) (L.wire link.old) ts [] [] runner.old.players.items
        → AllPollOwn begun order.now runner.new.turns.items (L.polls link.old) (L.polls link.new)) }
    ensures err { IfErr result (λ e. e ≡ plain ErrorKind.OutOfMemory) }
{
    for number in order {
        runner.turn(link, ids, moment, *number)?;
    }
    Ok(())
}

/// Runs the jobs: each number of `order` gives that job one turn, in which one call of it runs until a reply pends, or to its
/// end. `moment` is the time that new records get. Where a number names no job, nothing is sent.
pub fn run_jobs<L: Link, I: IdSource>(
    alloc: Global,
    link: &mut L,
    ids: &mut I,
    moment: DateTime,
    jobs: &[Job],
    order: &[u32],
) -> Result<Played, Error>
    ensures later { Later (L.faults link.old) (L.faults link.new) (L.pends link.old) (L.pends link.new)
        (L.wire link.old) (L.wire link.new) (L.prompt link.old) (L.prompt link.new) }
    // E15 just where a number names no job, with the first such number; and otherwise want of memory.
    ensures missing { IfSome (first_missing (length jobs.now) order.now) (λ n. (result ≡ Err (plain (ErrorKind.NoSuchJob n))) × (link.new ≡ link.old) × (ids.new ≡ ids.old)) }
    ensures err { IfErr result (λ e. ((n : ℕ) × (e ≡ plain (ErrorKind.NoSuchJob n)) × (first_missing (length jobs.now) order.now ≡ Some n)) ⊎ (e ≡ plain ErrorKind.OutOfMemory)) }
    // An outcome says that a reply was lost only where the link counted a fault in the run, or, of a put, where a reply pended.
    ensures lost { IfOk result (λ p. AllLostBy (L.faults link.old) (L.faults link.new) (L.pends link.old) (L.pends link.new) p.outcomes.items) }
    // Where each call of the log named its own cursors only, that stays so, also where the run failed.
    ensures naming { GoesOnNaming (L.log link.old) (L.log link.new) }
    // Each follow answers consecutive matching entries from the opening place of its own aggregate on, each once, in order,
    // just up to its token, also after errors.
    ensures followed { IfOk result (λ p. AllFollowed (L.log link.old) (L.log link.new) (tasks jobs.now) order.now p.turns.items p.outcomes.items) }
    // Over an honest link each put that ended well left its file whole, where nobody else touched it, and however one ended, its
    // file is whole behind its record up to a step that is to remove its chunks; and each get that ended well gave the bytes of
    // the file that stood whole before its first step and that nobody touched up to its last one.
    // No get blames a chunk of such a file: it does so only where those that stood are not what their record says.
    ensures filed { IfOk result (λ p. AllFiled (L.log link.old) (L.log link.new) (tasks jobs.now) order.now p.turns.items p.outcomes.items) }
    // A get blames a chunk of a file that a put of the run writes, and nobody else touches, only where it listed the chunks
    // behind a step by which the put was to remove them.
    ensures behind { IfOk result (λ p. AllBehind (L.log link.old) (L.log link.new) (tasks jobs.now) order.now p.turns.items p.outcomes.items) }
    // Each insert drew the source's next ids in its first turn, one for each of its documents that has none; each put one for each
    // of its chunks.
    ensures drawn { IfOk result (λ p. AreLater (I.ids ids.old) (drawn_in (tasks jobs.now) order.now) (I.ids ids.new)) }
    // A run that failed drew those of some front of its turns.
    ensures stopped { (n : ℕ) × AreLater (I.ids ids.old) (drawn_in (tasks jobs.now) (take n order.now)) (I.ids ids.new) }
    // How far each job has come follows from the notes of its turns.
    ensures rows { IfOk result (λ p. AllPlayed (tasks jobs.now) order.now p.turns.items p.outcomes.items) }
    // Each answer of a follow has its cause among the commands of its own turns, and the call that opened it is the one from
    // whose opening place it answers. By those of its own an insert that ended well appended its documents, in order, and
    // one that failed did so; what it sends has the ids that it drew. A put that ended well stored its file by its own commands;
    // one that failed did so by those of its last call, as a get by those of its opening or of its last call. What a put sends has
    // the ids that it drew, chunk by chunk, and the moment. A job that is unfinished, and whose last turn pended, waits for the
    // reply to a command of its own.
    ensures caused { IfOk result (λ p. AllCaused (supplied (I.ids ids.old) moment.millis) (L.awaited link.new) (L.log link.old) (L.log link.new) (L.wire link.old) (tasks jobs.now) order.now p.turns.items p.outcomes.items) }
    // Over an honest link no answer of a follow and no failure of an insert or of a put says that a reply is no document or
    // breaks its grammar, and no failure of a get that one is no document.
    ensures grammar { IfOk result (λ p. AllNeverGarbled (L.log link.old) (L.log link.new) p.outcomes.items) }
    // Over a link that tells its log, each call that waits for its reply was sent in a turn of a job whose newest turn pended
    // by its note, and that job waits for no other, unless a ticket was out for the same call before the run.
    ensures waits_alone { IfOk result (λ p. AllWaitAlone (L.awaited link.old) (L.awaited link.new) (L.log link.old) order.now p.turns.items) }
    // Over a prompt link each follow and each insert ends well, where its server holds nothing back: a follow answers the next
    // event where one was left, and what fails does so for want of memory, or by a limit that a command or document of the job
    // passes.
    ensures complete { L.prompt link.old → IfOk result (λ p. AllWell (I.ids ids.old) (L.log link.old) (L.log link.new) (tasks jobs.now) order.now p.turns.items p.outcomes.items) }
    // One outcome for each job, and one note for each turn.
    ensures outcomes { IfOk result (λ p. length p.outcomes.items ≡ length jobs.now) }
    ensures turns { IfOk result (λ p. length p.turns.items ≡ length order.now) }
    // Turn by turn the notes lead from the log and the count of pending replies before the run to those behind it, and just as
    // many turns pended as that count rose by.
    ensures noted { IfOk result (λ p. AreNoted p.turns.items (L.log link.old) (L.log link.new) (L.pends link.old) (L.pends link.new)) }
    ensures pended { IfOk result (λ p. RoseJust (turns_pended p.turns.items) (L.pends link.old) (L.pends link.new)) }
    // Over a link that tells its log each note says rightly whether its turn pended: one poll pended in it just where it says
    // so, and that of the newest command that its job sent up to then, by the notes.
    ensures polled { IfOk result (λ p. AllPollOwn (L.log link.old) order.now p.turns.items (L.polls link.old) (L.polls link.new)) }
    // Over a link that tells its log, each command that a turn sent, by the notes, is one that its job may send: chunks have
    // the ids that their put drew, and a record has the moment.
    ensures sends { IfOk result (λ p. AllSendOnly (supplied (I.ids ids.old) moment.millis) (L.log link.old) (L.log link.new) (tasks jobs.now) order.now p.turns.items) }
    // Over a link that tells its log, no command of a job names a cursor that a command of another one opened.
    ensures names { IfOk result (λ p. AllNameOwn (L.log link.old) (L.log link.new) order.now p.turns.items) }
    // The notes count what was started, and over a prompt link no turn pends.
    ensures started { IfOk result (λ p. StartedBy (sum_by (λ t. t.started) p.turns.items) (L.log link.old) (L.log link.new)) }
    ensures prompt { L.prompt link.old → IfOk result (λ p. All (λ t. t.pended ≡ false) p.turns.items) }
{
    if let Some(number) = first_missing(order, jobs.len()) {
        return Err(plain(ErrorKind::NoSuchJob(number)));
    }
    let mut runner = Runner::new(alloc, jobs)?;
    play(&mut runner, link, ids, moment, order)?;
    runner.into_played()
}
