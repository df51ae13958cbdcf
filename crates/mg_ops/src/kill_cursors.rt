//! The end of cursors.
ghost use Rattle.std.specs.Prelude.{◌≡◌, IfOk, IfErr};
ghost use Rattle.mg_link.specs.Errors.{plain};
ghost use Rattle.mg_link.specs.Namespace.{space};
ghost use Rattle.mg_link.specs.declared.error.ErrorKind.TheVariants as kinds;
ghost use Rattle.mg_ops.specs.Commands.{kill_command};

use crate::operation::Operation;
use crate::parts::{ids, text};
use crate::session::in_session;
use mg_bson::{Bson, Document, RawDocumentBuf};
use mg_exec::Retry;
use mg_link::{ClientSession, Error, Namespace};
use std::alloc::Global;

/// Kills cursors.
#[derive(Drop)]
pub struct KillCursors {
    /// The namespace of the cursors.
    pub ns: Namespace,
    /// Their ids.
    pub ids: Vec<i64>,
}

// The command without a session.
fn command(alloc: Global, ns: &Namespace, cursors: &[i64]) -> Result<Document, Error>
    ensures ok { IfOk result (λ d. d ≡ kill_command (space ns.now) cursors.now) }
    ensures err { IfErr result (λ e. e ≡ plain kinds.OutOfMemory) }
{
    let mut command = Document::new(alloc);
    command.append("killCursors", text(alloc, ns.coll.as_str())?)?;
    let ids = ids(alloc, cursors)?;
    command.append("cursors", Bson::Array(ids))?;
    command.append("$db", text(alloc, ns.db.as_str())?)?;
    Ok(command)
}

impl Operation for KillCursors {
    type Output = ();

    ghost use Rattle.mg_link.specs.Namespace.{space};
    ghost use Rattle.mg_exec.specs.declared.exec.Retry.TheVariants as retries;
    ghost use Rattle.mg_ops.specs.Commands.{kill_command};
    ghost use Rattle.mg_ops.specs.Sessions.{in_session};

    ghost command = { λ o wire session. in_session session (kill_command (space o.ns) o.ids.items) };

    ghost sound = { λ o. Unit {0} };

    ghost unfit = { λ o e. ⊥ };

    ghost retried = { λ o session. retries.None };

    ghost gives = { λ o reply out. Unit {0} };

    ghost fails = { λ o reply e. ⊥ };

    fn build(
        &self,
        alloc: Global,
        _wire: i32,
        session: Option<&ClientSession>,
    ) -> Result<Document, Error> {
        let command = command(alloc, &self.ns, &self.ids)?;
        in_session(alloc, command, session)
    }

    fn retry(&self, _session: Option<&ClientSession>) -> Retry {
        Retry::None
    }

    fn read(&self, _alloc: Global, _reply: RawDocumentBuf) -> Result<(), Error> {
        Ok(())
    }
}
