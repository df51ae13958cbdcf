//! Why no jobs are run, and what is written then.
ghost use Rattle.std.specs.Prelude.{◌⊎◌, ◌++◌, codes, decimal};
ghost use Rattle.mg_script.specs.Places.{place_text};
ghost use Rattle.mg_script.specs.Text.{line};
ghost use Rattle.mg_program.specs.Refusals.{EndingTold, IsRefusalTold};

use mg_link::{Sink, write_all};
use mg_script::Place;
use std::alloc::Global;

/// Why no jobs are run.
#[derive(Clone, Copy)]
pub enum RunRefusal {
    /// The words are not those of a mode.
    Usage,
    /// The source failed.
    ReadFault,
    /// More bytes came than a script may have.
    TooLong,
    /// The bytes are no script, and their first fault stands here.
    BadScript(Place),
    /// The order has this number, which names no job.
    NoSuchJob(u32),
    /// Memory ran out before the jobs were run.
    OutOfMemory,
}

/// Writes the text of a status, and answers the status, or 4 where the sink failed.
pub fn say<K: Sink>(sink: &mut K, status: u8, text: &str) -> u8
    ensures { EndingTold status text.now result (K.taken sink.old) (K.taken sink.new)
        (K.faults sink.old) (K.faults sink.new) }
{
    match write_all(sink, text.as_bytes()) {
        Ok(()) => status,
        Err(_) => 4,
    }
}

/// Writes where the first fault of the input stands, or that memory ran out for it.
fn refuse_script<K: Sink>(alloc: Global, place: Place, sink: &mut K) -> u8
    ensures { EndingTold 3 (line (codes "bad script: " ++ place_text place)) result
        (K.taken sink.old) (K.taken sink.new) (K.faults sink.old) (K.faults sink.new)
        ⊎ EndingTold 6 (codes "out of memory\n") result
        (K.taken sink.old) (K.taken sink.new) (K.faults sink.old) (K.faults sink.new) }
{
    match format!(in alloc; "bad script: {place}\n") {
        Ok(text) => say(sink, 3, text.as_str()),
        Err(_) => say(sink, 6, "out of memory\n"),
    }
}

/// Writes which number names no job, or that memory ran out for it.
fn refuse_job<K: Sink>(alloc: Global, n: u32, sink: &mut K) -> u8
    ensures { EndingTold 5 (line (codes "no such job: " ++ decimal n)) result
        (K.taken sink.old) (K.taken sink.new) (K.faults sink.old) (K.faults sink.new)
        ⊎ EndingTold 6 (codes "out of memory\n") result
        (K.taken sink.old) (K.taken sink.new) (K.faults sink.old) (K.faults sink.new) }
{
    match format!(in alloc; "no such job: {n}\n") {
        Ok(text) => say(sink, 5, text.as_str()),
        Err(_) => say(sink, 6, "out of memory\n"),
    }
}

/// Writes why no jobs are run, and answers the status of that, or 4 where the sink failed.
pub fn refuse<K: Sink>(alloc: Global, refusal: RunRefusal, sink: &mut K) -> u8
    ensures { IsRefusalTold refusal result (K.taken sink.old) (K.taken sink.new) (K.faults sink.old) (K.faults sink.new) }
{
    match refusal {
        RunRefusal::Usage => say(sink, 1, "usage: jobs run | jobs share | jobs grow N\n"),
        RunRefusal::ReadFault => say(sink, 2, "read fault\n"),
        RunRefusal::TooLong => say(sink, 7, "script too long\n"),
        RunRefusal::BadScript(place) => refuse_script(alloc, place, sink),
        RunRefusal::NoSuchJob(n) => refuse_job(alloc, n, sink),
        RunRefusal::OutOfMemory => say(sink, 6, "out of memory\n"),
    }
}
