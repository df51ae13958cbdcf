//! How a change stream resumes.
ghost use Rattle.std.specs.Prelude.{◌≡◌, IfErr, IfOk, Some};
ghost use Rattle.mg_bson.specs.Tree.{Tree};
ghost use Rattle.mg_bson.specs.declared.tree.Timestamp.{Timestamp};
ghost use Rattle.mg_link.specs.Errors.{plain};
ghost use Rattle.mg_link.specs.declared.error.ErrorKind.TheVariants as kinds;
ghost use Rattle.mg_options.specs.Copies.{SameChangeStreamOptions};
ghost use Rattle.mg_ops.specs.Resuming.{resume_behind, resumed, saved_time, standing, start_at};

use crate::change_stream::{ChangeStreamData, WatchArgs};
use mg_bson::Timestamp;
use mg_link::Error;
use mg_options::{ChangeStreamOptions, ResumeToken};
use mg_steps::{Resumption, Standing, TIMES_FROM, resumption_of};

// What a stream of these options knows of its place in this state.
fn standing(options: &ChangeStreamOptions, state: &ChangeStreamData) -> Standing
    ensures { result ≡ standing options.now state.now }
{
    Standing {
        has_token: state.resume_token.is_some(),
        starts_after: options.start_after.is_some(),
        document_returned: state.document_returned,
        has_time: state.initial_operation_time.is_some(),
    }
}

// Behind the token: by `start_after` where that is to be kept, and else by `resume_after`.
fn resume_behind(
    options: ChangeStreamOptions,
    token: &Option<ResumeToken>,
    keeps_start_after: bool,
) -> Result<ChangeStreamOptions, Error>
    ensures ok { IfOk result (λ o. (behind : Tree) → token.now ≡ Some behind → o ≡ resume_behind keeps_start_after options behind) }
    ensures size { IfOk result (λ o. o.batch_size ≡ options.batch_size) }
    ensures err { IfErr result (λ e. e ≡ plain kinds.OutOfMemory) }
{
    let token = token.clone()?;
    let mut options = options;
    options.start_at_operation_time = None;
    if keeps_start_after {
        options.start_after = token;
    } else {
        options.resume_after = token;
        options.start_after = None;
    }
    Ok(options)
}

// With no token: at the time that was given, or else at the one that was saved.
fn resume_at(options: ChangeStreamOptions, saved: Option<Timestamp>) -> ChangeStreamOptions
    ensures options { (time : Timestamp) → saved ≡ Some time → result ≡ start_at time options }
    ensures size { result.batch_size ≡ options.batch_size }
{
    let mut options = options;
    if let Some(time) = saved {
        let start = options.start_at_operation_time.unwrap_or(time);
        options.start_at_operation_time = Some(start);
    }
    options
}

// In this state, over a link of this wire version.
fn resumed(
    options: ChangeStreamOptions,
    state: &ChangeStreamData,
    wire: i32,
) -> Result<ChangeStreamOptions, Error>
    ensures ok { IfOk result (λ o. o ≡ resumed options state.now wire) }
    ensures size { IfOk result (λ o. o.batch_size ≡ options.batch_size) }
    ensures err { IfErr result (λ e. e ≡ plain kinds.OutOfMemory) }
{
    match resumption_of(standing(&options, state), wire) {
        Resumption::StartAfter => resume_behind(options, &state.resume_token, true),
        Resumption::ResumeAfter => resume_behind(options, &state.resume_token, false),
        Resumption::AtTime => Ok(resume_at(options, state.initial_operation_time)),
        Resumption::AsOpened => Ok(options),
    }
}

/// The options with which a stream in this state resumes over a link of this wire version. What the state says nothing
/// of stays as it was given. Only memory can fail.
pub fn resume_options(
    args: &WatchArgs,
    state: &ChangeStreamData,
    wire: i32,
) -> Result<ChangeStreamOptions, Error>
    ensures ok { IfOk result (SameChangeStreamOptions (resumed args.now.options state.now wire)) }
    ensures size { IfOk result (λ o. o.batch_size ≡ args.now.options.batch_size) }
    ensures err { IfErr result (λ e. e ≡ plain kinds.OutOfMemory) }
{
    let options = args.options.clone()?;
    resumed(options, state, wire)
}

/// The time that a new stream saves: that of the reply to its opening, where no start was given, the link's wire
/// version is 7 or above, and the first batch is empty and has no token.
pub fn initial_operation_time(
    options: &ChangeStreamOptions,
    wire: i32,
    first_is_empty: bool,
    has_token: bool,
    time: Option<Timestamp>,
) -> Option<Timestamp>
    ensures { result ≡ saved_time options.now wire first_is_empty has_token time }
{
    let has_start = options.resume_after.is_some()
        || options.start_after.is_some()
        || options.start_at_operation_time.is_some();
    if has_start || wire < TIMES_FROM || !first_is_empty || has_token {
        None
    } else {
        time
    }
}
