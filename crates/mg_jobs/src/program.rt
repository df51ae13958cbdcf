//! The program, from the words of its command line to its status.
ghost use Rattle.std.specs.Prelude.{◌≡◌, ◌⊎◌, ◌++◌, ◌∷◌, [], ℕ, Some, map, length, codes, false, string_bytes, IfErr, IfOk, IfSome, IsSomeAnd};
ghost use Rattle.std.specs.Io.KnownBytes.{Appends};
ghost use Rattle.mg_link.specs.Causes.{Rose};
ghost use Rattle.mg_link.specs.Errors.{plain};
ghost use Rattle.mg_link.specs.declared.error.ErrorKind.TheVariants as kinds;
ghost use Rattle.mg_script.specs.declared.fault.Place.{Place};
ghost use Rattle.mg_jobs.specs.declared.program.Ending.{Ending};
ghost use Rattle.mg_script.specs.Plan.{plan};
ghost use Rattle.mg_script.specs.Plan as plans;
ghost use Rattle.mg_script.specs.Text.{text_of};
ghost use Rattle.mg_program.specs.Refusals.{EndingTold, HasJobs, ReadMissing, ReadNoScript, ReadTooMuch, is_run};
ghost use Rattle.mg_jobs.specs.Program.{Caused, IsToldAs, Ran, RunFollowed, RunsThrough, ending_text, run_of, status_of};

use crate::fated::{Fated, FatedLink};
use crate::fates::small_copies;
use crate::run::run_jobs;
use mg_link::{CountedIds, Error, Sink, Source};
use mg_program::{RunRefusal, read_script, refuse, say};
use mg_script::{Run, Script, text_of};
use mg_store::{MemLink, Store};
use std::alloc::Global;
use std::marker::Brand;

/// What the program did.
#[derive(Drop)]
pub struct Finished {
    /// The status that the process ends with.
    pub status: u8,
    /// The run, where the jobs were run to the end of their order.
    pub run: Option<Run>,
}

/// What came of the words and the input.
#[derive(Drop)]
pub enum Ending {
    /// No jobs were run, for this reason.
    Refused(RunRefusal),
    /// The jobs were run, and memory ran out for their text.
    Unprinted(Run),
    /// The jobs were run.
    Done(Run),
}

/// The bytes that all ids begin with which a script's inserts draw.
fn prefix_of(ids: [u8; 3]) -> [u8; 4]
    ensures { result ≡ ids ++ 0 ∷ [] }
{
    let [a, b, c] = ids;
    [a, b, c, 0]
}

/// Runs the jobs of a script over a link that was not used.
fn run_over<F: Fated>(alloc: Global, script: Script, link: MemLink) -> Result<Run, Error>
    requires jobs { HasJobs (plan script) }
    requires fresh { link.stored.history ≡ [] }
    requires unused { link.calls ≡ [] }
    requires unpolled { link.pended ≡ [] }
    requires fated { link.fates ≡ F.fates }
    requires fates { plans.fates F.fates ≡ plans.fates script.fates.items }
    requires wire { link.wire ≡ script.wire }
    ensures script { IfOk result (λ r. plan r.script ≡ plan script) }
    ensures followed { IfOk result RunFollowed }
    ensures log { IfOk result (λ r. length r.logs.items ≡ 1) }
    ensures turns { IfOk result (λ r. length r.turns.items ≡ 1) }
    ensures err { IfErr result (λ e. e ≡ plain kinds.OutOfMemory) }
{
    let mut ids = CountedIds::new(prefix_of(script.ids));
    let mut link = FatedLink::<F>::new(link);
    let played = run_jobs(
        alloc,
        &mut link,
        &mut ids,
        script.moment,
        script.jobs.as_slice(),
        script.order.as_slice(),
    )?;
    let (store, log) = link.into_link().into_parts();
    let logs = vec![in alloc; log]?;
    let turns = vec![in alloc; played.turns]?;
    Ok(Run {
        script,
        outcomes: played.outcomes,
        store,
        logs,
        turns,
    })
}

/// Runs the jobs of a script over an empty store.
fn run_script(alloc: Global, script: Script) -> Result<Run, Error>
    requires { HasJobs (plan script) }
    ensures script { IfOk result (λ r. plan r.script ≡ plan script) }
    ensures followed { IfOk result RunFollowed }
    ensures log { IfOk result (λ r. length r.logs.items ≡ 1) }
    ensures turns { IfOk result (λ r. length r.turns.items ≡ 1) }
    ensures err { IfErr result (λ e. e ≡ plain kinds.OutOfMemory) }
{
    let fates = small_copies(alloc, script.fates.as_slice())?;
    let link = MemLink::new(alloc, Store::new(alloc), fates, script.wire);
    run_over::<Brand>(alloc, script, link)
}

/// Reads the script and runs it.
fn play<S: Source>(alloc: Global, words: &[String], source: &mut S) -> Ending
    ensures { Caused (map string_bytes words.now) (S.left source.old) (S.left source.new)
        (S.faults source.old) (S.faults source.new) result }
{
    let script = match read_script(alloc, words, source) {
        Ok(script) => script,
        Err(refusal) => return Ending::Refused(refusal),
    };
    match run_script(alloc, script) {
        Ok(run) => Ending::Done(run),
        Err(_) => Ending::Refused(RunRefusal::OutOfMemory),
    }
}

/// Prints a run, and hands it back.
fn print_run<K: Sink>(alloc: Global, run: Run, sink: &mut K) -> Finished
    ensures run { result.run ≡ Some run }
    ensures told { EndingTold 0 (text_of run) result.status (K.taken sink.old) (K.taken sink.new)
        (K.faults sink.old) (K.faults sink.new)
        ⊎ EndingTold 6 (codes "out of memory\n") result.status (K.taken sink.old) (K.taken sink.new)
        (K.faults sink.old) (K.faults sink.new) }
{
    match text_of(alloc, &run) {
        Ok(text) => Finished {
            status: say(sink, 0, text.as_str()),
            run: Some(run),
        },
        Err(_) => Finished {
            status: say(sink, 6, "out of memory\n"),
            run: Some(run),
        },
    }
}

/// Writes what came of the words and the input, and hands the run back.
fn tell<K: Sink>(alloc: Global, ending: Ending, sink: &mut K) -> Finished
    ensures { IsToldAs ending result.run result.status (K.taken sink.old) (K.taken sink.new) (K.faults sink.old) (K.faults sink.new) }
{
    match ending {
        Ending::Refused(refusal) => Finished {
            status: refuse(alloc, refusal, sink),
            run: None,
        },
        Ending::Unprinted(run) => Finished {
            status: say(sink, 6, "out of memory\n"),
            run: Some(run),
        },
        Ending::Done(run) => print_run(alloc, run, sink),
    }
}

/// The whole program: reads a script from the source, runs its jobs over an empty store in memory, and writes what each
/// job got to the sink. `words` are the arguments behind the program's name.
///
/// The status is 0 where the text of the run was written whole, 1 where the words are not `run`, 2 where the source failed,
/// 3 where the input is no script, 4 where the sink failed, 5 where the script gives a turn to a job that it does not have,
/// 6 where memory ran out, and 7 where the input is longer than 16,777,216 bytes. The line of each status is written to
/// the sink; after a failure of the sink a front of it stands there.
pub fn run_program<S: Source, K: Sink>(
    alloc: Global,
    words: &[String],
    source: &mut S,
    sink: &mut K,
) -> Finished
    // What came of the words and the input was told, whole, or up to a fault of the sink.
    ensures told { (ending : Ending) × Caused (map string_bytes words.now) (S.left source.old) (S.left source.new) (S.faults source.old) (S.faults source.new) ending
        × (result.run ≡ run_of ending)
        × EndingTold (status_of ending) (ending_text ending) result.status (K.taken sink.old) (K.taken sink.new) (K.faults sink.old) (K.faults sink.new) }
    // 1 just where the words are not `run`, and the sink did not fail.
    ensures usage { result.status ≡ 1 → is_run (map string_bytes words.now) ≡ false }
    ensures refused { is_run (map string_bytes words.now) ≡ false → (result.status ≡ 1) ⊎ (result.status ≡ 4) }
    // 2 only where a read failed.
    ensures read { result.status ≡ 2 → Rose (S.faults source.old) (S.faults source.new) }
    // 3 just where what came is no script.
    ensures script { result.status ≡ 3 → (p : Place) × ReadNoScript (S.left source.old) (S.left source.new) p }
    // 4 only where a write failed.
    ensures write { result.status ≡ 4 → Rose (K.faults sink.old) (K.faults sink.new) }
    // 5 just where the order of the script has a number that names no job.
    ensures missing { result.status ≡ 5 → (n : ℕ) × ReadMissing (S.left source.old) (S.left source.new) n }
    // 7 just where more bytes came than a script may have.
    ensures long { result.status ≡ 7 → ReadTooMuch (S.left source.old) (S.left source.new) }
    // A run is of the script that was read.
    ensures run { IfSome result.run (λ r. Ran (S.left source.old) (S.left source.new) r) }
    // 0: the text of the run was written whole.
    ensures whole { result.status ≡ 0
        → IsSomeAnd result.run (λ r. Appends (K.taken sink.old) (K.taken sink.new) (text_of r)) }
    // 0 or 6 where the words are `run`, what the source has left is a script whose order names jobs only, and no end fails.
    ensures through { RunsThrough (map string_bytes words.now) (S.left source.old) (S.faults source.old) (S.faults source.new) (K.faults sink.old) (K.faults sink.new) result.status }
{
    tell(alloc, play(alloc, words, source), sink)
}
