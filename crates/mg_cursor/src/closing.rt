//! The closing of a cursor.
ghost use Rattle.std.specs.Prelude.{◌≡◌, None, false};
ghost use Rattle.mg_link.specs.Acts.{EndsAtOnce, FailsByFault, IsOut, Pended, Tickets, ticket_after};
ghost use Rattle.mg_link.specs.Exec.{ticket_of};
ghost use Rattle.mg_link.specs.Link.{Later};
ghost use Rattle.mg_link.specs.Moment.{LinkKeeps, moment, step_ending};
ghost use Rattle.mg_cursor.specs.Client.{IsSound, client_ticket, rests};
ghost use Rattle.mg_cursor.specs.Closing.{BehindFailure, ClosesBy, ClosingCaused, ClosingPolls, IsToKill, KillRuns, KillsCursor, closed, closing_ticket, closing_ticket_by};
ghost use Rattle.mg_cursor.specs.View.{client_of};

use crate::batches::Batches;
use crate::fault::is_memory;
use crate::polls::NextPoll;
use mg_exec::Exec;
use mg_link::{Action, Error, Link, Step};
use std::marker::Model;

/// A cursor that is being closed. A getMore on its way ends first; its failure is passed over, but for want of memory. Then one
/// killCursors is sent, unless the server holds the cursor no longer or the connection that it is bound to was lost.
///
/// It fails where that killCursors fails or cannot be sent, and where memory ran out in the getMore; then no killCursors is sent.
/// Behind a failure the server may hold the cursor still.
pub struct Closing {
    batches: Batches,
    // The killCursors, once it is on its way.
    killing: Option<Exec>,
}

// By hand, so that letting one go is one call.
impl Drop for Closing {
    fn drop(self) {
        let Closing {
            batches: _,
            killing: _,
        } = self;
    }
}

impl Model for Closing {
    ghost use Rattle.mg_cursor.specs.Closing.{ClosingCursor, IsClosing, coded_closing};
    ghost use Rattle.mg_cursor.specs.View.{client_of};

    ghost Value = { ClosingCursor };

    ghost coded = { coded_closing };

    ghost view = { λ k. record { cursor = client_of k.batches; killing = k.killing } };

    ghost invariant = { λ k. IsClosing (record { cursor = client_of k.batches; killing = k.killing }) };
}

// Waits for the reply to the killCursors.
fn wait<L: Link>(link: &mut L, batches: Batches, exec: Exec) -> Step<Closing, ()>
    requires held { IsOut (L.awaited link.old) (ticket_of exec) }
    requires killing { IsToKill (client_of batches) exec }
    ensures keeps { LinkKeeps (moment (L.awaited link.old) (L.log link.old) (L.faults link.old) (L.pends link.old) (L.wire link.old) (L.prompt link.old))
        (moment (L.awaited link.new) (L.log link.new) (L.faults link.new) (L.pends link.new) (L.wire link.new) (L.prompt link.new))
        (ticket_of exec) (ticket_after closing_ticket result) (step_ending result) }
    ensures runs { KillRuns (L.awaited link.old) (L.awaited link.new) (L.log link.old) (L.log link.new) (L.wire link.old) (client_of batches) exec result }
{
    match exec.poll(link) {
        Step::Pending(exec) => {
            let closing = Closing {
                batches,
                killing: Some(exec),
            };
            Step::Pending(closing)
        }
        Step::Done(_reply) => Step::Done(()),
        Step::Failed(error) => Step::Failed(error),
    }
}

// Sends the killCursors, unless there is nothing to kill.
fn kill_cursor<L: Link>(link: &mut L, batches: Batches) -> Step<Closing, ()>
    requires { (client_of batches).doing ≡ rests }
    ensures keeps { LinkKeeps (moment (L.awaited link.old) (L.log link.old) (L.faults link.old) (L.pends link.old) (L.wire link.old) (L.prompt link.old))
        (moment (L.awaited link.new) (L.log link.new) (L.faults link.new) (L.pends link.new) (L.wire link.new) (L.prompt link.new))
        (None) (ticket_after closing_ticket result) (step_ending result) }
    ensures kills { KillsCursor (L.awaited link.old) (L.awaited link.new) (L.log link.old) (L.log link.new) (L.wire link.old) (client_of batches) result }
{
    if !batches.is_to_kill() {
        return Step::Done(());
    }
    match batches.kill_command(link.wire_version()) {
        Ok(exec) => wait(link, batches, exec),
        Err(error) => Step::Failed(error),
    }
}

// The getMore failed, which only want of memory makes the answer.
fn pass<L: Link>(link: &mut L, batches: Batches, error: Error) -> Step<Closing, ()>
    requires { (client_of batches).doing ≡ rests }
    ensures keeps { LinkKeeps (moment (L.awaited link.old) (L.log link.old) (L.faults link.old) (L.pends link.old) (L.wire link.old) (L.prompt link.old))
        (moment (L.awaited link.new) (L.log link.new) (L.faults link.new) (L.pends link.new) (L.wire link.new) (L.prompt link.new))
        (None) (ticket_after closing_ticket result) (step_ending result) }
    ensures passes { BehindFailure (L.awaited link.old) (L.awaited link.new) (L.log link.old) (L.log link.new) (L.wire link.old) (client_of batches) error result }
{
    if is_memory(&error) {
        return Step::Failed(error);
    }
    kill_cursor(link, batches)
}

// Waits for the getMore on its way, and then kills what it left.
fn land<L: Link>(link: &mut L, batches: Batches) -> Step<Closing, ()>
    requires held { IsOut (L.awaited link.old) (client_ticket (client_of batches)) }
    requires sound { IsSound false (client_of batches) }
    ensures keeps { LinkKeeps (moment (L.awaited link.old) (L.log link.old) (L.faults link.old) (L.pends link.old) (L.wire link.old) (L.prompt link.old))
        (moment (L.awaited link.new) (L.log link.new) (L.faults link.new) (L.pends link.new) (L.wire link.new) (L.prompt link.new))
        (client_ticket (client_of batches)) (ticket_after closing_ticket result) (step_ending result) }
    ensures lands { ClosingPolls (L.awaited link.old) (L.awaited link.new) (L.log link.old) (L.log link.new) (L.wire link.old) (closed (client_of batches)) result }
{
    let mut batches = batches;
    match batches.land(link) {
        NextPoll::Pending => Step::Pending(Closing::new(batches)),
        NextPoll::Batch(_batch) => kill_cursor(link, batches),
        NextPoll::End => kill_cursor(link, batches),
        NextPoll::Failed(error) => pass(link, batches, error),
    }
}

// Waits for what is on its way.
fn go_on<L: Link>(link: &mut L, batches: Batches, killing: Option<Exec>) -> Step<Closing, ()>
    requires held { IsOut (L.awaited link.old) (closing_ticket_by (client_of batches) killing) }
    requires closing { ClosesBy (client_of batches) killing }
    ensures keeps { LinkKeeps (moment (L.awaited link.old) (L.log link.old) (L.faults link.old) (L.pends link.old) (L.wire link.old) (L.prompt link.old))
        (moment (L.awaited link.new) (L.log link.new) (L.faults link.new) (L.pends link.new) (L.wire link.new) (L.prompt link.new))
        (closing_ticket_by (client_of batches) killing) (ticket_after closing_ticket result) (step_ending result) }
    ensures closes { ClosingPolls (L.awaited link.old) (L.awaited link.new) (L.log link.old) (L.log link.new) (L.wire link.old) (record { cursor = client_of batches; killing = killing }) result }
{
    match killing {
        Some(exec) => wait(link, batches, exec),
        None => land(link, batches),
    }
}

// The number of the ticket that is held.
fn held(batches: &Batches, killing: &Option<Exec>) -> Option<u64>
    ensures { result ≡ closing_ticket_by (client_of batches.now) killing.now }
{
    match killing {
        Some(exec) => exec.ticket_number(),
        None => batches.ticket_number(),
    }
}

impl Closing {
    // Nothing is sent until the first poll.
    pub(crate) fn new(batches: Batches) -> Closing
        requires { IsSound false (client_of batches) }
        ensures { result ≡ closed (client_of batches) }
    {
        Closing {
            batches,
            killing: None,
        }
    }

    /// The number of the ticket that it holds, while it waits for a reply.
    pub fn ticket_number(&self) -> Option<u64>
        ensures { result ≡ closing_ticket self.now }
    {
        held(&self.batches, &self.killing)
    }
}

impl Action for Closing {
    type Output = ();

    ghost use Rattle.mg_cursor.specs.Closing.{ClosingCaused, ClosingPolls, closing_ticket};

    ghost ticket = { closing_ticket };

    ghost does = { λ old new log log' wire s r. ClosingPolls old new log log' wire s r × ClosingCaused old new log log' wire s r };

    fn poll<L: Link>(self, link: &mut L) -> Step<Closing, ()>
        requires { IsOut (L.awaited link.old) (closing_ticket self) }
        ensures tickets { Tickets (L.awaited link.old) (L.awaited link.new) (closing_ticket self) (ticket_after closing_ticket result) }
        ensures pended { Pended closing_ticket result (L.pends link.old) (L.pends link.new) }
        ensures lost { FailsByFault result (L.faults link.old) (L.faults link.new) }
        ensures prompt { L.prompt link.old → EndsAtOnce result }
        ensures later { Later (L.faults link.old) (L.faults link.new) (L.pends link.old) (L.pends link.new)
            (L.wire link.old) (L.wire link.new) (L.prompt link.old) (L.prompt link.new) }
        // Which commands it sent, and what came of them.
        ensures closes { ClosingPolls (L.awaited link.old) (L.awaited link.new) (L.log link.old) (L.log link.new) (L.wire link.old) self result }
        // What in the log is the cause of the answer, over all polls.
        ensures caused { ClosingCaused (L.awaited link.old) (L.awaited link.new) (L.log link.old) (L.log link.new) (L.wire link.old) self result }
    {
        let Closing { batches, killing } = self;
        go_on(link, batches, killing)
    }
}
