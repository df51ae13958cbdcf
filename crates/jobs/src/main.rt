//! The program `jobs`: the two ends of the process, and the top call between them.
#![tactic(auto)]

#[cfg(test)]
mod tests;

use mg_jobs::{StdSink, StdSource, run_program};
use mg_link::{OutOfMemory, write_all};
use std::env::{self, Env};
use std::io;
use std::process::ExitCode;

/// The arguments behind the program's name, or none where they are no text. Only memory can fail.
fn words_of(rt: &(impl Env + AllocGlobal)) -> Result<Vec<String>, OutOfMemory> {
    let mut words = Vec::new(rt.alloc());
    match env::args(rt) {
        Ok(arguments) => {
            for word in arguments.skip(1) {
                words.push(word)?;
            }
        }
        Err(fault) if matches!(fault.kind(), io::ErrorKind::OutOfMemory) => {
            return Err(OutOfMemory);
        }
        Err(_) => {}
    }
    Ok(words)
}

// The ends have no buffer: each read and each write of the process is one whose failure is counted.
fn main(rt: HostRuntime) -> ExitCode {
    let mut source = StdSource::new(rt.reader());
    let mut sink = StdSink::new(io::writer(&rt));
    let Ok(words) = words_of(&rt) else {
        return match write_all(&mut sink, b"out of memory\n") {
            Ok(()) => ExitCode::from(6),
            Err(_) => ExitCode::from(4),
        };
    };
    let finished = run_program(rt.alloc(), words.as_slice(), &mut source, &mut sink);
    ExitCode::from(finished.status)
}
