//! What a change stream does after a command of it failed.
ghost use Rattle.std.specs.Prelude.{◌≡◌};
ghost use Rattle.mg_steps.specs.Failures.{IsFault, after_failure};

use mg_link::{Error, ErrorKind};

/// An error of a command, by what it means for a change stream.
#[derive(Clone, Copy)]
pub enum Fault {
    /// It is resumable.
    Resumable,
    /// Memory ran out in the client.
    Memory,
    /// Any other.
    Final,
}

/// A command of an open change stream.
#[derive(Clone, Copy)]
pub enum StreamCommand {
    /// That of its cursor.
    GetMore,
    /// The one that resumes it.
    Aggregate,
    /// That of the cursor that a resumption replaced.
    KillCursors,
}

/// What a change stream does after a command of it failed.
#[derive(Clone, Copy)]
pub enum AfterFailure {
    /// It resumes, and the call goes on.
    Resumes,
    /// The call fails, and the next one resumes.
    Owes,
    /// The call fails, and the next one goes on with the cursor as it is.
    Fails,
    /// It passes over the failure, and goes on with the cursor of the resumption.
    PassesOver,
}

/// What an error means for a change stream.
pub fn fault_of(error: &Error) -> Fault
    ensures { IsFault error.now result }
{
    if error.is_resumable() {
        return Fault::Resumable;
    }
    match &error.kind {
        ErrorKind::OutOfMemory => Fault::Memory,
        _ => Fault::Final,
    }
}

/// What a change stream does after this command failed so. It asks a cursor whose getMore may be lost no further, and owes a resumption until
/// one has succeeded.
pub fn after_failure(command: StreamCommand, fault: Fault) -> AfterFailure
    ensures { result ≡ after_failure command fault }
{
    match command {
        StreamCommand::GetMore => after_get_more(fault),
        StreamCommand::Aggregate => AfterFailure::Owes,
        StreamCommand::KillCursors => after_kill(fault),
    }
}

// After a getMore.
fn after_get_more(fault: Fault) -> AfterFailure
    ensures { result ≡ after_failure StreamCommand.GetMore fault }
{
    match fault {
        Fault::Resumable => AfterFailure::Resumes,
        Fault::Memory => AfterFailure::Owes,
        Fault::Final => AfterFailure::Fails,
    }
}

// After a killCursors.
fn after_kill(fault: Fault) -> AfterFailure
    ensures { result ≡ after_failure StreamCommand.KillCursors fault }
{
    match fault {
        Fault::Resumable => AfterFailure::PassesOver,
        Fault::Memory => AfterFailure::Owes,
        Fault::Final => AfterFailure::PassesOver,
    }
}
