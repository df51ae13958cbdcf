//! Jobs over a store, from the script to the printed text.
#![tactic(auto)]

mod fated;
mod fates;
pub mod laws;
mod program;
mod run;

pub use mg_link::{MemSink, MemSource, ReadFailed, Sink, Source, StdSink, StdSource, WriteFailed};
pub use mg_program::RunRefusal;
pub use mg_script::{
    Answer, DatabaseName, Ended, Job, Outcome, Place, Played, Run, Script, ScriptError, Start,
    Turned, json_text, parse_script, value_from_json,
};
pub use program::{Ending, Finished, run_program};
pub use run::{Runner, run_jobs};
