//! The commands of a change stream, ready to be sent.
ghost use Rattle.std.specs.Prelude.{IfOk, IfErr, option_copied};
ghost use Rattle.mg_link.specs.Namespace.{space};
ghost use Rattle.mg_ops.specs.Commands.{kill_command};
ghost use Rattle.mg_ops.specs.Failing.{CannotBeSent, FailsBy};
ghost use Rattle.mg_cursor.specs.Client.{IsNew};
ghost use Rattle.mg_change.specs.ClientStreams.{IsNewAggregate, resuming_in};
ghost use Rattle.mg_change.specs.Steps.{CannotResume};

use mg_exec::Exec;
use mg_link::{ClientSession, Error, Namespace};
use mg_ops::{ChangeStreamAggregate, KillCursors, Operation, encode};
use std::alloc::Global;

// The aggregate that opens a stream or resumes it, in a session where there is one.
pub(crate) fn resume(
    alloc: Global,
    aggregate: &ChangeStreamAggregate,
    wire: i32,
    session: Option<&ClientSession>,
) -> Result<Exec, Error>
    ensures built { IfOk result (λ sending. IsNewAggregate (resuming_in aggregate.now wire (option_copied session.entry)) (option_copied session.entry) sending) }
    ensures fails { IfErr result (λ e. FailsBy (CannotResume aggregate.now wire (option_copied session.entry)) e) }
{
    let command = encode(alloc, aggregate, wire, session)?;
    Ok(Exec::start(command, aggregate.retry(session)))
}

// The killCursors of cursors of one namespace, which names no session.
pub(crate) fn kill(alloc: Global, ns: &Namespace, ids: Vec<i64>, wire: i32) -> Result<Exec, Error>
    ensures built { IfOk result (λ sending. IsNew (kill_command (space ns.now) ids.items) sending) }
    ensures fails { IfErr result (λ e. FailsBy (CannotBeSent (kill_command (space ns.now) ids.items)) e) }
{
    let kill = KillCursors {
        ns: ns.clone()?,
        ids,
    };
    let command = encode(alloc, &kill, wire, None)?;
    Ok(Exec::start(command, kill.retry(None)))
}
