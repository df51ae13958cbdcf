//! Scripts, from their bytes on, and the text of what became of their jobs.
#![tactic(auto)]

mod database_name;
mod fault;
mod json;
mod outcome;
mod parse;
mod parse_fate;
mod parse_job;
mod parts;
mod print;
mod script;
mod value;

pub use database_name::DatabaseName;
pub use fault::{Place, ScriptError};
pub use json::json_text;
pub use mg_turns::Turned;
pub use outcome::{Answer, Ended, Outcome, Played, Run};
pub use parse::{first_missing, missing, parse_script};
pub use print::text_of;
pub use script::{Job, Script, Start};
pub use value::value_from_json;
