//! From the words of the command line and the input to a script.
ghost use Rattle.std.specs.Prelude.{◌≡◌, true, map, string_bytes, IfErr, IfOk};
ghost use Rattle.mg_script.specs.Plan.{plan};
ghost use Rattle.mg_program.specs.Refusals.{HasJobs, ReadScript, RefusedFor, is_run};

use crate::refusal::RunRefusal;
use mg_link::{InputError, Source, read_all};
use mg_script::{Script, ScriptError, missing, parse_script};
use std::alloc::Global;

fn is_run(words: &[String]) -> bool
    ensures { result ≡ is_run (map string_bytes words.now) }
{
    match words {
        [word] => word.as_str() == "run",
        _ => false,
    }
}

/// Reads the script that the words ask to run, whose order names its jobs only, or says why there is none.
pub fn read_script<S: Source>(
    alloc: Global,
    words: &[String],
    source: &mut S,
) -> Result<Script, RunRefusal>
    ensures asked { IfOk result (λ s. is_run (map string_bytes words.now) ≡ true) }
    ensures script { IfOk result (λ s. ReadScript (S.left source.old) (S.left source.new) (plan s)) }
    ensures jobs { IfOk result (λ s. HasJobs (plan s)) }
    ensures refused { IfErr result (λ r. RefusedFor (map string_bytes words.now) (S.left source.old) (S.left source.new)
        (S.faults source.old) (S.faults source.new) r) }
{
    if !is_run(words) {
        return Err(RunRefusal::Usage);
    }
    let bytes = match read_all(alloc, source) {
        Ok(bytes) => bytes,
        Err(InputError::Memory) => return Err(RunRefusal::OutOfMemory),
        Err(InputError::Fault) => return Err(RunRefusal::ReadFault),
        Err(InputError::TooLong) => return Err(RunRefusal::TooLong),
    };
    let script = match parse_script(alloc, bytes.as_slice()) {
        Ok(script) => script,
        Err(ScriptError::OutOfMemory) => return Err(RunRefusal::OutOfMemory),
        Err(ScriptError::Fault(place)) => return Err(RunRefusal::BadScript(place)),
    };
    match missing(&script) {
        Some(n) => Err(RunRefusal::NoSuchJob(n)),
        None => Ok(script),
    }
}
