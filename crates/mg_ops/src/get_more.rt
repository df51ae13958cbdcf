//! The next batch of a cursor.
ghost use Rattle.std.specs.Prelude.{◌≡◌, OnOk, IfOk, IfErr, codes, option_map};
ghost use Rattle.mg_bson.specs.View.{tree};
ghost use Rattle.mg_link.specs.Errors.{plain};
ghost use Rattle.mg_link.specs.Namespace.{space};
ghost use Rattle.mg_link.specs.declared.error.ErrorKind.TheVariants as kinds;
ghost use Rattle.mg_ops.specs.Commands.{asked_size, more_command, wait_value};
ghost use Rattle.mg_ops.specs.Failing.{FailsBy, HasBadSize};
ghost use Rattle.mg_ops.specs.Limits.{SizeFits};
ghost use Rattle.mg_ops.specs.Given.{behind};

use crate::cursor_reply::{GetMoreResult, read_more};
use crate::operation::Operation;
use crate::parts::{size, text};
use crate::session::in_session;
use mg_bson::{Bson, Document, RawDocumentBuf};
use mg_exec::Retry;
use mg_link::{ClientSession, Error, Namespace};
use std::alloc::Global;

/// Asks for the next batch of a cursor.
pub struct GetMore {
    /// The namespace of the cursor.
    pub ns: Namespace,
    /// Its id.
    pub id: i64,
    /// The most documents of the batch. The server chooses where it is absent or 0.
    pub batch_size: Option<u32>,
    /// The most milliseconds that the server may wait for it. One past 2,147,483,647 is sent as that.
    pub max_time: Option<u64>,
    /// A value that the server writes beside the command into its logs.
    pub comment: Option<Bson>,
}

// By hand, so that letting one go is one call.
impl Drop for GetMore {
    fn drop(self) {
        let GetMore {
            ns: _,
            id: _,
            batch_size: _,
            max_time: _,
            comment: _,
        } = self;
    }
}

// Puts the size of the batch at the end, where one is asked for.
fn append_size(command: &mut Document, batch_size: Option<u32>) -> Result<(), Error>
    ensures ok { OnOk result (command.new ≡ behind command.old (codes "batchSize") (asked_size batch_size)) }
    ensures fits { OnOk result (SizeFits batch_size) }
    ensures err { IfErr result (λ e. FailsBy (HasBadSize batch_size) e) }
{
    match batch_size {
        None | Some(0) => Ok(()),
        Some(n) => Ok(command.append("batchSize", size(n)?)?),
    }
}

// Puts the time that the server may wait at the end, where one is given.
fn append_time(command: &mut Document, max_time: Option<u64>) -> Result<(), Error>
    ensures ok { OnOk result (command.new ≡ behind command.old (codes "maxTimeMS") (option_map wait_value max_time)) }
    ensures err { IfErr result (λ e. e ≡ plain kinds.OutOfMemory) }
{
    match max_time {
        None => Ok(()),
        Some(n) => {
            let n = i32::try_from(n).unwrap_or(i32::MAX);
            Ok(command.append("maxTimeMS", Bson::Int32(n))?)
        }
    }
}

// Puts the comment at the end, where one is given.
fn append_comment(command: &mut Document, comment: &Option<Bson>) -> Result<(), Error>
    ensures ok { OnOk result (command.new ≡ behind command.old (codes "comment") (option_map tree comment.now)) }
    ensures err { IfErr result (λ e. e ≡ plain kinds.OutOfMemory) }
{
    match comment {
        None => Ok(()),
        Some(value) => Ok(command.append("comment", value.clone()?)?),
    }
}

impl GetMore {
    // The command without a session.
    fn command(&self, alloc: Global) -> Result<Document, Error>
        ensures ok { IfOk result (λ d. d ≡ more_command self.now.id (space self.now.ns) self.now.batch_size self.now.max_time (option_map tree self.now.comment)) }
        ensures fits { OnOk result (SizeFits self.now.batch_size) }
        ensures err { IfErr result (λ e. FailsBy (HasBadSize self.now.batch_size) e) }
    {
        let mut command = Document::new(alloc);
        command.append("getMore", Bson::Int64(self.id))?;
        command.append("collection", text(alloc, self.ns.coll.as_str())?)?;
        append_size(&mut command, self.batch_size)?;
        append_time(&mut command, self.max_time)?;
        append_comment(&mut command, &self.comment)?;
        command.append("$db", text(alloc, self.ns.db.as_str())?)?;
        Ok(command)
    }
}

impl Operation for GetMore {
    type Output = GetMoreResult;

    ghost use Rattle.mg_link.specs.Namespace.{space};
    ghost use Rattle.mg_exec.specs.declared.exec.Retry.TheVariants as retries;
    ghost use Rattle.std.specs.Prelude.{option_map};
    ghost use Rattle.mg_bson.specs.View.{tree};
    ghost use Rattle.mg_ops.specs.Commands.{more_command};
    ghost use Rattle.mg_ops.specs.Cursors.{BreaksIn, Gave};
    ghost use Rattle.mg_ops.specs.Failing.{HasBadSize};
    ghost use Rattle.mg_ops.specs.Limits.{SizeFits};
    ghost use Rattle.mg_ops.specs.Sessions.{in_session};

    ghost command = { λ o wire session. in_session session (more_command o.id (space o.ns) o.batch_size o.max_time (option_map tree o.comment)) };

    ghost sound = { λ o. SizeFits o.batch_size };

    ghost unfit = { λ o. HasBadSize o.batch_size };

    ghost retried = { λ o session. retries.None };

    ghost gives = { λ o. Gave };

    ghost fails = { λ o. BreaksIn };

    fn build(
        &self,
        alloc: Global,
        _wire: i32,
        session: Option<&ClientSession>,
    ) -> Result<Document, Error> {
        let command = self.command(alloc)?;
        in_session(alloc, command, session)
    }

    fn retry(&self, _session: Option<&ClientSession>) -> Retry {
        Retry::None
    }

    fn read(&self, alloc: Global, reply: RawDocumentBuf) -> Result<GetMoreResult, Error> {
        read_more(alloc, reply)
    }
}
