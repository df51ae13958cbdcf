//! The commands of a cursor, ready to be sent.
ghost use Rattle.std.specs.Prelude.{◌⊎◌, IfOk, IfErr, [], ◌∷◌, option_copied};
ghost use Rattle.mg_link.specs.Namespace.{space};
ghost use Rattle.mg_ops.specs.Commands.{kill_command};
ghost use Rattle.mg_ops.specs.Cursors.{asking_command};
ghost use Rattle.mg_ops.specs.Failing.{CannotBeSent, FailsBy, HasBadSize};
ghost use Rattle.mg_ops.specs.Sessions.{in_session};
ghost use Rattle.mg_cursor.specs.Client.{IsNew};

use mg_exec::Exec;
use mg_link::{ClientSession, Error, Namespace};
use mg_ops::{CursorInformation, KillCursors, Operation, encode};
use std::alloc::Global;

// The getMore of a cursor, in a session where there is one.
pub(crate) fn ask(
    alloc: Global,
    cursor: &CursorInformation,
    wire: i32,
    session: Option<&ClientSession>,
) -> Result<Exec, Error>
    ensures ok { IfOk result (λ s. IsNew (in_session (option_copied session.entry) (asking_command cursor.now)) s) }
    ensures err { IfErr result (λ e. FailsBy (λ e. HasBadSize cursor.now.batch_size e
        ⊎ CannotBeSent (in_session (option_copied session.entry) (asking_command cursor.now)) e) e) }
{
    let get_more = cursor.get_more()?;
    let command = encode(alloc, &get_more, wire, session)?;
    let exec = Exec::start(command, get_more.retry(session));
    Ok(exec)
}

// The killCursors of cursors of one namespace.
fn kill_all(alloc: Global, ns: &Namespace, ids: Vec<i64>, wire: i32) -> Result<Exec, Error>
    ensures ok { IfOk result (λ s. IsNew (kill_command (space ns.now) ids.items) s) }
    ensures err { IfErr result (λ e. FailsBy (CannotBeSent (kill_command (space ns.now) ids.items)) e) }
{
    let kill = KillCursors {
        ns: ns.clone()?,
        ids,
    };
    let command = encode(alloc, &kill, wire, None)?;
    Ok(Exec::start(command, kill.retry(None)))
}

// The killCursors of a cursor.
pub(crate) fn kill(alloc: Global, cursor: &CursorInformation, wire: i32) -> Result<Exec, Error>
    ensures ok { IfOk result (λ s. IsNew (kill_command (space cursor.now.ns) (cursor.now.id ∷ [])) s) }
    ensures err { IfErr result (λ e. FailsBy (CannotBeSent (kill_command (space cursor.now.ns) (cursor.now.id ∷ []))) e) }
{
    let mut ids = Vec::new(alloc);
    ids.push(cursor.id)?;
    kill_all(alloc, &cursor.ns, ids, wire)
}
